//! Runs a script of files and builds on a site in memory: from standard input to standard output.
#![tactic(auto)]

use scripts::script;
use std::io;
use std::process::ExitCode;

fn main(rt: HostRuntime) -> ExitCode {
    match script(rt.alloc(), &mut rt.reader(), &mut io::writer(&rt)) {
        Ok(status) => ExitCode::from(status),
        Err(_) => {
            let _ = eprintln!(rt; "nj_sim: fault");
            ExitCode::FAILURE
        }
    }
}
