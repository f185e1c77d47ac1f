//! What the records of a build tell that go behind its logs.

ghost use Rattle.std.specs.Prelude.{IfSome};
ghost use Rattle.text.specs.Marks.{Lacks};
ghost use Rattle.seen.specs.Told.{IsOneIn, IsTold, ListsPaths, NamesOne, StartsSo};

use log_text::{Field, Version, number_of, plain_field, split_counted, split_outputs};

/// What a record tells that goes behind a log.
#[derive(Clone, Copy)]
pub enum Told<'f, 'a> {
    /// The command that makes these outputs is about to start.
    Begun(&'f [Field<'a>]),
    /// The command that makes these outputs, which was started under this stamp, has ended well.
    Done(u64, &'f [Field<'a>]),
    /// A command that was started under this stamp told that it read these paths.
    Read(u64, &'f [Field<'a>]),
    /// It is no record.
    Nothing,
}

/// What a record that names one output tells of it.
#[derive(Clone, Copy)]
pub enum One<'a> {
    /// The command that makes it is about to start.
    Begun(&'a str),
    /// The command that makes it has ended well.
    Done(&'a str),
}

/// The same, read from the front of its line, where it names one and no byte of that is written as two: so no list of fields is made, and what
/// stands behind the output is not looked at.
pub fn one_in(line: &[u8]) -> Option<One<'_>>
    requires { Lacks 10 line.now }
    ensures { IfSome result (IsOneIn line.now) }
{
    let (kind, counted) = plain_field(line)?;
    if kind == "b" {
        let output = one_output(counted)?;
        return Some(One::Begun(output));
    }
    if kind == "d" {
        let output = one_output(counted)?;
        return Some(One::Done(output));
    }
    None
}

/// The output that stands in front behind the number of outputs, where that is 1.
fn one_output(bytes: &[u8]) -> Option<&str>
    requires { Lacks 10 bytes.now }
    ensures { IfSome result (λ output. NamesOne output.now bytes.now) }
{
    let (count, named) = plain_field(bytes)?;
    if count != "1" {
        return None;
    }
    let (output, _) = plain_field(named)?;
    Some(output)
}

/// What the record of these fields tells.
pub fn told_by<'f, 'a>(fields: &'f [Field<'a>]) -> Told<'f, 'a>
    ensures { IsTold fields.now result }
{
    let Some((kind, rest)) = fields.split_first() else {
        return Told::Nothing;
    };
    let Some((outputs, after)) = split_outputs(Version::Two, rest) else {
        return Told::Nothing;
    };
    if kind.as_str() == "b" {
        return Told::Begun(outputs);
    }
    if kind.as_str() == "d" {
        return match start_of(after) {
            Some(start) => Told::Done(start, outputs),
            None => Told::Nothing,
        };
    }
    if kind.as_str() != "r" {
        return Told::Nothing;
    }
    match paths_in(after) {
        Some((start, paths)) => Told::Read(start, paths),
        None => Told::Nothing,
    }
}

/// The start that the fields begin with.
fn start_of(fields: &[Field<'_>]) -> Option<u64>
    ensures { IfSome result (λ start. StartsSo start fields.now) }
{
    let (start, _) = fields.split_first()?;
    let start = number_of(start.as_str())?;
    Some(start)
}

/// The start that the fields behind the outputs tell, and the paths that they list.
fn paths_in<'f, 'a>(fields: &'f [Field<'a>]) -> Option<(u64, &'f [Field<'a>])>
    ensures { IfSome result (λ told. ListsPaths fields.now told.0 told.1.now) }
{
    let (start, rest) = fields.split_first()?;
    let start = number_of(start.as_str())?;
    let (paths, _) = split_counted(rest)?;
    Some((start, paths))
}
