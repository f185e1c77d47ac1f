//! What is told of the commands that are due.

ghost use Rattle.std.specs.Prelude.{◌≡◌, IfOk};

use builder::{Acts, Explained, Explanation};
use model::Reason;
use std::alloc::{AllocError, Global};
use std::io;
use std::io::Write;
use text::SharedText;

/// Tells of each command that is due, in one line, why it is; where none is, that there is nothing to do. Where a dyndep file is yet to be
/// loaded, the last line says so. The status is 0.
pub(crate) fn tell<W: Write>(alloc: Global, explained: &Explained, out: &mut W) -> io::Result<u8>
    ensures { IfOk result (λ status. status ≡ 0) }
{
    tell_all(alloc, explained, out)?;
    out.flush()?;
    Ok(0)
}

fn tell_all<W: Write>(alloc: Global, explained: &Explained, out: &mut W) -> io::Result<()> {
    for explanation in &explained.commands {
        tell_why(alloc, explanation, out)?;
    }
    if let Some(file) = &explained.unloaded {
        return writeln!(out, "nj: more may follow: {file} is yet to be loaded");
    }
    if explained.commands.is_empty() {
        return writeln!(out, "nj: no work to do.");
    }
    Ok(())
}

/// Tells why the command is due, in one line.
pub fn tell_why<W: Write>(alloc: Global, explanation: &Explanation, out: &mut W) -> io::Result<()> {
    let output = &explanation.output;
    write!(out, "{output}: ")?;
    tell_reason(alloc, explanation, out)?;
    if !explanation.is_sure {
        write!(out, " (may turn out not to be needed)")?;
    }
    writeln!(out)
}

fn tell_reason<W: Write>(alloc: Global, explanation: &Explanation, out: &mut W) -> io::Result<()> {
    match explanation.reason {
        Reason::OutputAbsent => tell_output(explanation, "is absent", out),
        Reason::NoRecord => tell_output(
            explanation,
            "has no record of a command that made it",
            out,
        ),
        Reason::OtherAct => tell_change(alloc, explanation, out),
        Reason::InputAbsent => tell_input(explanation, "is absent", out),
        Reason::InputChanged => tell_anew(explanation, out),
        Reason::InputLater => tell_input(explanation, "is later than its last start", out),
        Reason::OutputOlder => tell_input(explanation, "is later than what it made", out),
        Reason::DepsUnknown => tell_unknown(explanation, out),
    }
}

/// Tells what is so of an output: of the first one, which stands in front, or of another one.
fn tell_output<W: Write>(explanation: &Explanation, what: &str, out: &mut W) -> io::Result<()> {
    match &explanation.path {
        Some(path) => {
            if path.as_str() == explanation.output.as_str() {
                write!(out, "it {what}")
            } else {
                write!(out, "its output {path} {what}")
            }
        }
        None => write!(out, "an output {what}"),
    }
}

fn tell_input<W: Write>(explanation: &Explanation, what: &str, out: &mut W) -> io::Result<()> {
    match &explanation.path {
        Some(path) => write!(out, "its input {path} {what}"),
        None => write!(out, "an input {what}"),
    }
}

fn tell_anew<W: Write>(explanation: &Explanation, out: &mut W) -> io::Result<()> {
    match &explanation.path {
        Some(path) => write!(out, "{path} will be made anew"),
        None => write!(out, "what it reads was written meanwhile"),
    }
}

fn tell_unknown<W: Write>(explanation: &Explanation, out: &mut W) -> io::Result<()> {
    match &explanation.path {
        Some(_) => write!(out, "what its depfile told is not known"),
        None => write!(out, "its depfile is absent"),
    }
}

/// Tells what of the command changed, by the first part that differs.
fn tell_change<W: Write>(alloc: Global, explanation: &Explanation, out: &mut W) -> io::Result<()> {
    match &explanation.acts {
        Some(acts) => tell_acts(alloc, acts, out),
        None => write!(out, "its command changed"),
    }
}

fn tell_acts<W: Write>(alloc: Global, acts: &Acts, out: &mut W) -> io::Result<()> {
    let old = &acts.old;
    let new = &acts.new;
    if old.command != new.command {
        let what = "its command";
        return tell_shared(alloc, what, &old.command, &new.command, out);
    }
    if old.depfile != new.depfile {
        let what = "its depfile";
        return tell_texts(alloc, what, old.depfile.as_str(), new.depfile.as_str(), out);
    }
    if old.response_path != new.response_path {
        let what = "its response file";
        let old = old.response_path.as_str();
        return tell_texts(alloc, what, old, new.response_path.as_str(), out);
    }
    let what = "what its response file holds";
    let old = &old.response_content;
    tell_shared(alloc, what, old, &new.response_content, out)
}

/// The same of texts that others hold, too.
fn tell_shared<W: Write>(
    alloc: Global,
    what: &str,
    first: &SharedText,
    second: &SharedText,
    out: &mut W,
) -> io::Result<()> {
    let first = first.to_text(alloc)?;
    let second = second.to_text(alloc)?;
    tell_texts(alloc, what, first.as_str(), second.as_str(), out)
}

/// Tells which words of the old text became which of the new one.
fn tell_texts<W: Write>(
    alloc: Global,
    what: &str,
    first: &str,
    second: &str,
    out: &mut W,
) -> io::Result<()> {
    let first = words_of(alloc, first)?;
    let second = words_of(alloc, second)?;
    write!(out, "{what} changed")?;
    tell_words(&first, &second, out)
}

/// The words of a text, between blanks.
fn words_of<'a>(alloc: Global, text: &'a str) -> Result<Vec<&'a str>, AllocError> {
    let mut words = Vec::new(alloc);
    for word in text.split(' ') {
        if !word.is_empty() {
            words.push(word)?;
        }
    }
    Ok(words)
}

fn tell_words<W: Write>(first: &[&str], second: &[&str], out: &mut W) -> io::Result<()> {
    let front = same_front(first, second);
    let first = first.get(front..).unwrap_or(&[]);
    let second = second.get(front..).unwrap_or(&[]);
    let back = same_back(first, second);
    tell_part(", before", without_last(first, back), out)?;
    tell_part(", now", without_last(second, back), out)
}

/// How many words are the same in front.
fn same_front(first: &[&str], second: &[&str]) -> usize {
    for place in 0..first.len() {
        if !is_same(first.get(place), second.get(place)) {
            return place;
        }
    }
    first.len()
}

/// How many words are the same at the end.
fn same_back(first: &[&str], second: &[&str]) -> usize {
    for place in 0..first.len() {
        if !is_same(from_back(first, place), from_back(second, place)) {
            return place;
        }
    }
    first.len()
}

/// The word at this place from the end.
fn from_back<'a, 'b>(words: &'a [&'b str], place: usize) -> Option<&'a &'b str> {
    let left = words.len().checked_sub(place)?;
    words.get(left.checked_sub(1)?)
}

/// Whether both words are there, and the same.
fn is_same(first: Option<&&str>, second: Option<&&str>) -> bool {
    match (first, second) {
        (Some(first), Some(second)) => *first == *second,
        _ => false,
    }
}

/// The words but so many at the end.
fn without_last<'a>(words: &'a [&'a str], count: usize) -> &'a [&'a str] {
    words
        .get(..words.len().saturating_sub(count))
        .unwrap_or(&[])
}

/// Tells these words, if there are any.
fn tell_part<W: Write>(mark: &str, words: &[&str], out: &mut W) -> io::Result<()> {
    if words.is_empty() {
        return Ok(());
    }
    write!(out, "{mark}")?;
    for word in words {
        write!(out, " {word}")?;
    }
    Ok(())
}
