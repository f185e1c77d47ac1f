//! What the last build of a history gives, in words.

use crate::moves::build_alone;
use builder::{Options, Report};
use sim::{Sim, Toy};
use std::alloc::Global;
use std::io::{self, Write};

/// Builds what is built by default. Told is how that ended and what the outputs hold, and behind a success how many commands
/// a further build starts.
pub fn push_last(
    alloc: Global,
    site: &mut Sim<Toy>,
    options: &Options,
    outputs: &str,
    told: &mut Vec<u8>,
) -> io::Result<()> {
    let is_well = push_build(alloc, site, options, told)?;
    push_outputs(site, outputs, told)?;
    if is_well {
        push_next(alloc, site, options, told)?;
    }
    Ok(())
}

/// How a build ends, and whether well.
fn push_build(
    alloc: Global,
    site: &mut Sim<Toy>,
    options: &Options,
    told: &mut Vec<u8>,
) -> io::Result<bool> {
    let report = build_alone(alloc, site, options, &[]);
    push_end(&report, told)?;
    Ok(is_success(&report))
}

pub fn is_success(report: &Report) -> bool {
    match report {
        Report::Success { .. } => true,
        Report::Failed { .. } => false,
        Report::Refused(_) => false,
        Report::Fault(_) => false,
    }
}

/// How a build ended, but for how many commands it started.
pub fn push_end(report: &Report, told: &mut Vec<u8>) -> io::Result<()> {
    match report {
        Report::Success { .. } => write!(told, "success"),
        Report::Failed { .. } => write!(told, "failed"),
        Report::Refused(refusal) => write!(told, "refused {refusal}"),
        Report::Fault(fault) => write!(told, "{fault:?}"),
    }
}

fn push_outputs(site: &Sim<Toy>, outputs: &str, told: &mut Vec<u8>) -> io::Result<()> {
    for output in outputs.split(' ') {
        let content = site.content(output).map(|content| content.as_slice());
        push_output(output, content, told)?;
    }
    Ok(())
}

/// What a path holds.
pub fn push_output(path: &str, content: Option<&[u8]>, told: &mut Vec<u8>) -> io::Result<()> {
    if !told.is_empty() {
        told.write_all(b" ")?;
    }
    match content {
        Some(content) => {
            write!(told, "{path}=")?;
            told.write_all(content)
        }
        None => write!(told, "no {path}"),
    }
}

/// How many commands a further build starts, if it succeeds.
fn push_next(
    alloc: Global,
    site: &mut Sim<Toy>,
    options: &Options,
    told: &mut Vec<u8>,
) -> io::Result<()> {
    match build_alone(alloc, site, options, &[]) {
        Report::Success { started } => write!(told, ", then {started}"),
        other => write!(told, ", then {other:?}"),
    }
}
