//! Runs of the stand-in for ninja.

use crate::folder::Folder;
use crate::nj_runs::{Ran, words_of};
use ninja_run::{Around, run};
use std::alloc::{AllocError, Global};

/// Runs the stand-in in the folder, with this around it. In what is told `@` stands for the folder, and `^[` for
/// the byte by which escapes begin.
pub fn stand_in_run_of(
    folder: &Folder<'_>,
    around: Around<'_>,
    words: &str,
) -> Result<Ran, AllocError> {
    let alloc = folder.alloc();
    let words = format!(in alloc; "-C @ {words}")?;
    let given = words_of(folder, words.as_str())?;
    let words = borrowed(alloc, given.as_slice())?;
    let mut out = Vec::new(alloc);
    let mut err = Vec::new(alloc);
    let status = run(folder.rt, words.as_slice(), around, &mut out, &mut err);
    Ok(Ran {
        status,
        out: told_of(folder, out.as_slice())?,
        err: told_of(folder, err.as_slice())?,
    })
}

fn borrowed(alloc: Global, words: &[String]) -> Result<Vec<&str>, AllocError> {
    let mut texts = Vec::with_capacity(alloc, words.len())?;
    for word in words {
        texts.push(word.as_str())?;
    }
    Ok(texts)
}

fn told_of(folder: &Folder<'_>, bytes: &[u8]) -> Result<String, AllocError> {
    let alloc = folder.alloc();
    let text = String::from_utf8_lossy(alloc, bytes)?;
    let mut told = String::new(alloc);
    let mut rest = text.as_str();
    for _ in 0..bytes.len() {
        let Some((before, behind)) = rest.split_once(folder.path.as_str()) else {
            break;
        };
        push_seen(&mut told, before)?;
        told.push('@')?;
        rest = behind;
    }
    push_seen(&mut told, rest)?;
    Ok(told)
}

/// Puts a text behind another, with the bytes by which escapes begin to be seen.
fn push_seen(told: &mut String, text: &str) -> Result<(), AllocError> {
    for (place, part) in text.split('\u{1b}').enumerate() {
        if place > 0 {
            told.push_str("^[")?;
        }
        told.push_str(part)?;
    }
    Ok(())
}
