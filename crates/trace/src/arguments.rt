//! The arguments of a call, as a trace writes them: words between commas, texts in quotes, and descriptors with the path that the kernel has
//! for them, as `3<\x2f\x61>`.

ghost use Rattle.std.specs.Prelude.{◌≡◌, IfOk, option_map};
ghost use Rattle.trace.specs.Marks.{both};
ghost use Rattle.trace.specs.Arguments.{behind, descriptor, first_argument, is_rooted, name_of, named, path_at, placed, quoted, resolved};

use crate::calls::Form;
use crate::hex::unhex;
use crate::marks::{between, cut};
use std::alloc::{AllocError, Global};
use text::Bytes;

/// The first argument, and what stands behind the comma.
pub fn first_argument(arguments: &[u8]) -> (&[u8], &[u8])
    ensures { both result ≡ first_argument arguments.now }
{
    match cut(arguments, b", ") {
        Some((first, rest)) => (first, rest),
        None => (arguments, &[]),
    }
}

/// The text that stands in quotes as the whole argument.
pub fn quoted(alloc: Global, argument: &[u8]) -> Result<Option<Bytes>, AllocError>
    ensures { IfOk result (λ found. found ≡ quoted argument.now) }
{
    match between(argument, b"\"", b"\"") {
        Some((front, inside, rest)) => {
            if front.is_empty() && rest.is_empty() {
                unhex(alloc, inside)
            } else {
                Ok(None)
            }
        }
        None => Ok(None),
    }
}

/// The path that the kernel has for a descriptor.
pub fn descriptor(alloc: Global, argument: &[u8]) -> Result<Option<Bytes>, AllocError>
    ensures { IfOk result (λ found. found ≡ descriptor argument.now) }
{
    match between(argument, b"<", b">") {
        Some((_, inside, _)) => unhex(alloc, inside),
        None => Ok(None),
    }
}

/// The name in an argument, which is empty where there is none: then the descriptor beside it is meant.
fn name_of(alloc: Global, argument: &[u8]) -> Result<Option<Bytes>, AllocError>
    ensures { IfOk result (λ found. found ≡ name_of argument.now) }
{
    if argument.starts_with(b"NULL") {
        return Ok(Some(Bytes::new(alloc)));
    }
    quoted(alloc, argument)
}

/// Whether the path begins at the root.
pub fn is_rooted(path: &[u8]) -> bool
    ensures { result ≡ is_rooted path.now }
{
    path.starts_with(b"/")
}

/// The path of a name in a folder. It is as they are written: nothing is folded.
fn placed(alloc: Global, folder: &[u8], name: &[u8]) -> Result<Bytes, AllocError>
    ensures { IfOk result (λ path. path ≡ placed folder.now name.now) }
{
    if name.is_empty() {
        return Bytes::from_slice(alloc, folder);
    }
    let mut path = Vec::with_capacity(alloc, folder.len().saturating_add(name.len()))?;
    path.extend_from_slice(folder)?;
    path.extend_from_slice(b"/")?;
    path.extend_from_slice(name)?;
    Ok(Bytes::from_vec(path))
}

/// The path of a name, where the folder is known in which it stands, or the name begins at the root.
fn resolved(alloc: Global, folder: Option<&Bytes>, name: &[u8]) -> Result<Option<Bytes>, AllocError>
    ensures { IfOk result (λ path. path ≡ resolved (option_map (λ folder. folder.now) folder.entry) name.now) }
{
    if is_rooted(name) {
        return Ok(Some(Bytes::from_slice(alloc, name)?));
    }
    match folder {
        Some(folder) => Ok(Some(placed(alloc, folder.as_slice(), name)?)),
        None => Ok(None),
    }
}

/// The path that the first arguments name by this form, of a process that is in this folder.
pub fn path_at(
    alloc: Global,
    form: Form,
    folder: Option<&Bytes>,
    arguments: &[u8],
) -> Result<Option<Bytes>, AllocError>
    ensures { IfOk result (λ path. path ≡ path_at form (option_map (λ folder. folder.now) folder.entry) arguments.now) }
{
    let (first, rest) = first_argument(arguments);
    match form {
        Form::Name => named(alloc, folder, quoted(alloc, first)?),
        Form::At => {
            let (second, _) = first_argument(rest);
            let folder = descriptor(alloc, first)?;
            named(alloc, folder.as_ref(), name_of(alloc, second)?)
        }
        Form::Opened => descriptor(alloc, first),
    }
}

/// The path of a name, if there is one.
fn named(
    alloc: Global,
    folder: Option<&Bytes>,
    name: Option<Bytes>,
) -> Result<Option<Bytes>, AllocError>
    ensures { IfOk result (λ path. path ≡ named (option_map (λ folder. folder.now) folder.entry) name) }
{
    match name {
        Some(name) => resolved(alloc, folder, name.as_slice()),
        None => Ok(None),
    }
}

/// What stands behind the arguments by which this form names a path.
pub fn behind(form: Form, arguments: &[u8]) -> &[u8]
    ensures { result.now ≡ behind form arguments.now }
{
    let (_, rest) = first_argument(arguments);
    match form {
        Form::Name | Form::Opened => rest,
        Form::At => first_argument(rest).1,
    }
}
