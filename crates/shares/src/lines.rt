//! What a line of a trace tells of processes.

ghost use Rattle.std.specs.Prelude.{◌≡◌, bytes_eq, option_map};
ghost use Rattle.shares.specs.Marks.{both};
ghost use Rattle.shares.specs.Lines.{call_parts, child_of, ends_start, is_end, is_left_out, leaves_numbers, numbered, starts_here, starts_one};

use crate::marks::{cut, has, skip_blanks};

/// The number of the process of a line, and what it tells of it.
pub fn numbered(line: &[u8]) -> Option<(&[u8], &[u8])>
    ensures { option_map both result ≡ numbered line.now }
{
    let (number, rest) = cut(line, b" ")?;
    Some((number, skip_blanks(rest)))
}

/// Whether it tells that the process has ended.
pub fn is_end(body: &[u8]) -> bool
    ensures { result ≡ is_end body.now }
{
    body.starts_with(b"+++ exited with ") || body.starts_with(b"+++ killed by ")
}

/// Whether it is of a call that no command's share has: it is traced so that `strace` is told early that a process has its filter.
pub fn is_left_out(body: &[u8]) -> bool
    ensures { result ≡ is_left_out body.now }
{
    body.starts_with(b"rt_sigprocmask(") || body.starts_with(b"<... rt_sigprocmask resumed>")
}

/// Whether it starts a process that gives other numbers to those that it starts.
pub fn leaves_numbers(body: &[u8]) -> bool
    ensures { result ≡ leaves_numbers body.now }
{
    body.starts_with(b"clone") && has(body, b"CLONE_NEWPID")
}

/// The number of the process that it started, where it tells that of one.
pub fn child_of(body: &[u8]) -> Option<&[u8]>
    ensures { option_map (λ child. child.now) result ≡ child_of body.now }
{
    let (name, rest) = call_parts(body)?;
    if !starts_one(name) {
        return None;
    }
    let (_, answer) = cut(rest, b" = ")?;
    if answer.starts_with(b"-") || answer.starts_with(b"?") {
        return None;
    }
    Some(answer)
}

/// The name of the call that it tells of, and what is written behind it, from where its beginning or its end is told.
fn call_parts(body: &[u8]) -> Option<(&[u8], &[u8])>
    ensures { option_map both result ≡ call_parts body.now }
{
    if body.starts_with(b"<... ") {
        return cut(body, b" resumed>");
    }
    cut(body, b"(")
}

/// Whether a call of this name starts a process.
fn starts_one(name: &[u8]) -> bool
    ensures { result ≡ starts_one name.now }
{
    starts_here(name) || ends_start(name)
}

fn starts_here(name: &[u8]) -> bool
    ensures { result ≡ starts_here name.now }
{
    is(name, b"clone") || is(name, b"clone3") || is(name, b"vfork") || is(name, b"fork")
}

fn ends_start(name: &[u8]) -> bool
    ensures { result ≡ ends_start name.now }
{
    is(name, b"<... clone")
        || is(name, b"<... clone3")
        || is(name, b"<... vfork")
        || is(name, b"<... fork")
}

fn is(name: &[u8], other: &[u8]) -> bool
    ensures { result ≡ bytes_eq name.now other.now }
{
    name == other
}
