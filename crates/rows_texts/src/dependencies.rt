//! What depfiles and dyndep files say, or the number and text of their refusal.

use depfile::inputs;
use dyndep::{Addition, parse};
use std::alloc::{AllocError, Global};
use tables::push_word;
use text::Path;

/// The paths of a depfile, each with `;` behind it.
pub fn push_depfile(alloc: Global, bytes: &[u8], told: &mut String) -> Result<(), AllocError> {
    match inputs(alloc, bytes) {
        Ok(paths) => push_inputs(paths.as_slice(), told),
        Err(depfile::ReadError::Fault(fault)) => {
            let fault = format!(in alloc; "N{}: {fault}", fault.number())?;
            told.push_str(fault.as_str())
        }
        Err(depfile::ReadError::Memory) => Err(AllocError),
    }
}

fn push_inputs(paths: &[Path], told: &mut String) -> Result<(), AllocError> {
    for path in paths {
        push_word(told, path.as_str())?;
        told.push(';')?;
    }
    Ok(())
}

/// What a dyndep file adds.
pub fn push_dyndep(alloc: Global, bytes: &[u8], told: &mut String) -> Result<(), AllocError> {
    match parse(alloc, bytes) {
        Ok(additions) => push_additions(additions.as_slice(), told),
        Err(dyndep::ReadError::Fault(fault)) => {
            let fault = format!(in alloc; "N{}: {fault}", fault.number())?;
            told.push_str(fault.as_str())
        }
        Err(dyndep::ReadError::Memory) => Err(AllocError),
    }
}

/// Each addition as `OUT | OUTS: INS;`, with `!` before the `;` where it has `restat`.
fn push_additions(additions: &[Addition], told: &mut String) -> Result<(), AllocError> {
    for addition in additions {
        push_addition(addition, told)?;
    }
    Ok(())
}

fn push_addition(addition: &Addition, told: &mut String) -> Result<(), AllocError> {
    push_word(told, addition.output.as_str())?;
    push_word(told, "|")?;
    push_paths(addition.outputs.as_slice(), told)?;
    told.push(':')?;
    push_paths(addition.inputs.as_slice(), told)?;
    if addition.restat {
        told.push('!')?;
    }
    told.push(';')
}

fn push_paths(paths: &[Path], told: &mut String) -> Result<(), AllocError> {
    for path in paths {
        push_word(told, path.as_str())?;
    }
    Ok(())
}
