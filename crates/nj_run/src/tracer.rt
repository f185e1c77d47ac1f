//! The program by which commands are traced.

use std::alloc::Global;
use std::process::{Command, Stdio};
use std::{env, fs, io};

/// The name of the program.
const NAME: &str = "strace";

/// Where it is looked for where `PATH` is not set.
const FOLDERS: &str = "/usr/bin:/bin";

/// The path of the first `strace` in `PATH`, if it traces a program here: not where there is none, and not where nothing may be traced, as
/// below another tracer.
pub fn tracer(rt: &HostRuntime) -> Option<String> {
    tracer_so(rt, false)
}

/// The same, if it traces a program that stays the child of the one that starts the tracer.
pub fn tracer_aside(rt: &HostRuntime) -> Option<String> {
    tracer_so(rt, true)
}

fn tracer_so(rt: &HostRuntime, is_aside: bool) -> Option<String> {
    let alloc = rt.alloc();
    let path = env::var(rt, "PATH");
    let folders = match &path {
        Ok(path) => path.as_str(),
        Err(_) => FOLDERS,
    };
    for folder in folders.split(':') {
        let program = format!(in alloc; "{folder}/{NAME}").ok()?;
        if folder.as_bytes().starts_with(b"/") && is_file(rt, program.as_str()) {
            return traces_so(alloc, rt, program.as_str(), is_aside).then_some(program);
        }
    }
    None
}

fn is_file(rt: &HostRuntime, path: &str) -> bool {
    match fs::metadata(rt, path) {
        Ok(found) => found.is_file(),
        Err(_) => false,
    }
}

/// Whether the program traces here, and, where that is asked for, aside as well. Below another tracer it does neither, but the second try alone
/// would not tell that: what runs there has a tracer.
fn traces_so(alloc: Global, rt: &HostRuntime, program: &str, is_aside: bool) -> bool {
    if !traces(alloc, rt, program, false).unwrap_or(false) {
        return false;
    }
    !is_aside || traces(alloc, rt, program, true).unwrap_or(false)
}

/// What is traced aside: a shell that ends well where the system tells that it has a tracer. Where the tracer could not be that, the shell runs
/// without one.
const IS_TRACED: &str =
    "while read -r name value; do case $name in TracerPid:) test \"$value\" != 0; exit;; esac; done < /proc/self/status; exit 1";

/// Whether the program traces a shell, with a filter as it is wanted later.
fn traces(alloc: Global, rt: &HostRuntime, program: &str, is_aside: bool) -> io::Result<bool> {
    let mut command = Command::new(alloc, program)?;
    if is_aside {
        command.arg("-D")?;
    }
    add_words(&mut command)?;
    command.arg(if is_aside { IS_TRACED } else { "true" })?;
    command.stdin(Stdio::null());
    command.stdout(Stdio::null());
    command.stderr(Stdio::null());
    Ok(command.status(rt)?.success())
}

fn add_words(command: &mut Command) -> io::Result<()> {
    command.arg("-f")?;
    command.arg("--seccomp-bpf")?;
    command.arg("-o")?;
    command.arg("/dev/null")?;
    command.arg("/bin/sh")?;
    command.arg("-c")?;
    Ok(())
}
