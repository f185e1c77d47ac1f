//! The names of the files by which the commands of a build are known.

ghost use Rattle.std.specs.Prelude.{◌≡◌, ◌⊎◌, ◌↔◌, ◌++◌, IsTrue, IfOk, IfSome, None, codes, string_bytes};
ghost use Rattle.locks.specs.Names.{BeginsWith, BeginsWithNumber, IsLeft, IsMadeBy, IsOutput};

use std::alloc::{AllocError, Global};
use std::str;

/// The name of the file, beside the logs, whose openings are the inputs of commands.
pub const INPUT: &str = ".nj_in";

/// With this begin the names of the files, beside the logs, into which commands print. Behind it come the process of the build, a full
/// stop and a number.
pub const OUTPUT: &str = ".nj_out.";

/// The file in the working folder that has the trace of an audit. A program that waits for one below a tracer, to which it has handed that
/// audit on, has it locked.
pub const TRACE: &str = ".nj_trace.all";

/// What the system puts behind the name of a file that is open, and not there any more.
const GONE: &str = " (deleted)";

/// Whether a file of this name may be one into which a command prints.
pub fn is_output(name: &str) -> bool
    ensures { IsTrue result ↔ IsOutput name.now }
{
    begins_with(name, OUTPUT)
}

/// The process of the build that made a file of this name for what a command prints: 12 for `.nj_out.12.3`. Builds of old gave their files
/// a number alone.
pub fn maker_of(name: &str) -> Option<u32>
    ensures { IfSome result (λ process. IsMadeBy process name.now) }
{
    let numbers = behind(OUTPUT, name)?;
    first_number(numbers)
}

/// What stands behind this beginning of a text, where it stands there.
fn behind<'t>(start: &str, text: &'t str) -> Option<&'t str>
    ensures { IfSome result (λ rest. text.now ≡ start.now ++ rest.now) }
{
    let rest = text.as_bytes().strip_prefix(start.as_bytes())?;
    str::from_utf8(rest).ok()
}

/// The number in front of the first full stop.
fn first_number(text: &str) -> Option<u32>
    ensures { IfSome result (λ number. BeginsWithNumber number text.now) }
{
    let (word, _) = text.split_once('.')?;
    word.parse::<u32>().ok()
}

/// Whether a text begins with another.
pub fn begins_with(text: &str, start: &str) -> bool
    ensures { IsTrue result ↔ BeginsWith start.now text.now }
{
    text.as_bytes().starts_with(start.as_bytes())
}

/// Whether a file of this name may be one by which a command is known.
pub fn is_left(name: &str) -> bool
    ensures { IsTrue result ↔ IsLeft name.now }
{
    name == INPUT || is_output(name)
}

/// The name in what the system tells of the file of an opening, which has something behind it where the file is not there any more.
pub fn name_told(told: &str) -> &str
    ensures { (told.now ≡ result.now) ⊎ (told.now ≡ result.now ++ codes " (deleted)") }
{
    match in_front(GONE, told) {
        Some(name) => name,
        None => told,
    }
}

/// What stands in front of this end of a text, where it ends so.
fn in_front<'t>(end: &str, text: &'t str) -> Option<&'t str>
    ensures { IfSome result (λ front. text.now ≡ front.now ++ end.now) }
{
    let front = text.as_bytes().strip_suffix(end.as_bytes())?;
    str::from_utf8(front).ok()
}

/// The path of a name in a folder, of which the working folder is `None`.
pub fn path_in(alloc: Global, folder: Option<&str>, name: &str) -> Result<String, AllocError>
    ensures here { folder.entry ≡ None → IfOk result (λ path. string_bytes path ≡ name.now) }
    ensures below { IfSome folder.entry (λ folder. IfOk result (λ path. string_bytes path ≡ folder.now ++ codes "/" ++ name.now)) }
{
    match folder {
        Some(folder) => format!(in alloc; "{folder}/{name}"),
        None => String::from_str(alloc, name),
    }
}
