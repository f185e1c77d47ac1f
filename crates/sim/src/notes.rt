//! What is kept of what happened on a site in memory.

ghost use Rattle.std.specs.Prelude.{◌≡◌, ◌++◌, ℕ, List, Some, take, if◌then◌else◌, bytes_eq, option_map, IfOk, OnErr};
ghost use Rattle.std.specs.HashMap.{get_by_text};
ghost use Rattle.sim.specs.Notes.{IsTakenBack, IsWritten, IsAppended, IsGrown, IsExtended};

use model::{Event, Writer};
use std::alloc::{AllocError, Global};
use std::collections::HashMap;
use std::mem;
use text::{Bytes, Path};

/// What the last write at a path left: a file, or none.
#[derive(Debug, Drop)]
pub struct Last {
    pub content: Option<Bytes>,
    pub stamp: u64,
}

/// What a path held before a write.
#[derive(Debug, Drop)]
pub enum Before {
    /// This, or nothing where it had not been written.
    Held(Option<Last>),
    /// So many bytes of what it holds after the write, under this stamp.
    Beginning { length: usize, stamp: u64 },
}

/// A moment, without what can be told from what the paths hold after it.
#[derive(Debug, Drop)]
pub enum Note {
    /// A write at the path.
    Change {
        by: Writer,
        path: Path,
        before: Before,
    },
    /// A command was started or ended.
    Came(Event),
}

/// A write leaves this at the path. Where memory is refused, nothing has changed.
pub fn put(lasts: &mut HashMap<String, Last>, path: &Path, last: Last) -> Result<Before, AllocError>
    ensures ok { IfOk result (λ before. IsWritten before path.now last (get_by_text lasts.old) (get_by_text lasts.new)) }
    ensures err { OnErr result ((p : List ℕ) → get_by_text lasts.new p ≡ get_by_text lasts.old p) }
{
    let path = path.clone()?.into_string();
    let before = lasts.insert(path, last)?;
    Ok(Before::Held(before))
}

/// A write leaves what the file at the path held, which may be absent, and these bytes behind it. Where memory is
/// refused, nothing has changed.
pub fn append(
    alloc: Global,
    lasts: &mut HashMap<String, Last>,
    path: &Path,
    bytes: &[u8],
    stamp: u64,
) -> Result<Before, AllocError>
    ensures ok { IfOk result (λ before. IsAppended before path.now bytes.now stamp (get_by_text lasts.old) (get_by_text lasts.new)) }
    ensures err { OnErr result ((p : List ℕ) → get_by_text lasts.new p ≡ get_by_text lasts.old p) }
{
    if let Some(before) = extend(lasts, path.as_str(), bytes, stamp)? {
        return Ok(before);
    }
    let content = Some(Bytes::from_slice(alloc, bytes)?);
    put(lasts, path, Last { content, stamp })
}

/// Puts the bytes behind the file at the path, in place. Where there is none, or memory is refused, nothing has changed.
fn extend(
    lasts: &mut HashMap<String, Last>,
    path: &str,
    bytes: &[u8],
    stamp: u64,
) -> Result<Option<Before>, AllocError>
    ensures ok { IfOk result (λ before. IsExtended before path.now bytes.now stamp (get_by_text lasts.old) (get_by_text lasts.new)) }
    ensures err { OnErr result ((p : List ℕ) → get_by_text lasts.new p ≡ get_by_text lasts.old p) }
{
    match lasts.get_mut(path) {
        Some(last) => grow(last, bytes, stamp),
        None => Ok(None),
    }
}

/// Puts the bytes behind a file. Where there is none, or memory is refused, nothing has changed.
fn grow(last: &mut Last, bytes: &[u8], stamp: u64) -> Result<Option<Before>, AllocError>
    ensures ok { IfOk result (λ before. IsGrown before bytes.now stamp last.old last.new) }
    ensures err { OnErr result (last.new ≡ last.old) }
{
    let Some(content) = mem::replace(&mut last.content, None) else {
        return Ok(None);
    };
    let mut content = content.into_vec();
    let before = Before::Beginning {
        length: content.len(),
        stamp: last.stamp,
    };
    let extended = content.extend_from_slice(bytes);
    last.content = Some(Bytes::from_vec(content));
    extended?;
    last.stamp = stamp;
    Ok(Some(before))
}

/// The path holds again what it held before its last write.
pub fn take_back(lasts: &mut HashMap<String, Last>, path: &str, before: Before)
    ensures { IsTakenBack before path.now (get_by_text lasts.old) (get_by_text lasts.new) }
{
    match before {
        Before::Held(None) => {
            lasts.remove(path);
        }
        Before::Held(Some(before)) => {
            if let Some(last) = lasts.get_mut(path) {
                *last = before;
            }
        }
        Before::Beginning { length, stamp } => {
            if let Some(last) = lasts.get_mut(path) {
                shorten(last, length, stamp);
            }
        }
    }
}

/// So many bytes of the file are left, under this stamp.
fn shorten(last: &mut Last, length: usize, stamp: u64)
    ensures content { last.new.content ≡ option_map (take length) last.old.content }
    ensures stamp { last.new.stamp ≡ stamp }
{
    last.stamp = stamp;
    if let Some(content) = mem::replace(&mut last.content, None) {
        let mut content = content.into_vec();
        content.truncate(length);
        last.content = Some(Bytes::from_vec(content));
    }
}
