//! The records of the log and their lines.

ghost use Rattle.std.specs.Prelude.{◌≡◌, ◌≤◌, ◌∷◌, [], ◌++◌, ℕ, List, IfSome, IfNone, OnOk, length, take, drop};
ghost use Rattle.text.specs.Marks.{Lacks};
ghost use Rattle.log_text.specs.Line.{AreTexts, IsPlain, field_and_tab, fields_text};
ghost use Rattle.seen_log.specs.Record.{AreLow, AreNoted, AreNotNoted, AreNumbersFirst, IsLineFirst, IsLineOfNote, IsLow, IsNoKind, IsNoRecord, Tell, letter, noted_fields, noting, number_fields};
ghost use Rattle.seen_log.specs.Log.{Notes};

use crate::note::{Kind, Noted, Numbers};
use crate::number::number_in;
use log_text::{Field, end_line, number_of, push_number, push_text, without_dot};
use memchr::memchr3;
use std::alloc::AllocError;
use std::str::from_utf8;

/// What the record of these fields says, if they are one's: the path, and what is noted of it.
pub(crate) fn said_by<'f>(fields: &'f [Field<'_>]) -> Option<(&'f str, Noted)>
    ensures found { IfSome result (λ said. Tell fields.now said.0.now said.1) }
    ensures none { IfNone result (IsNoRecord fields.now) }
{
    let (kind, rest) = fields.split_first()?;
    let (path, after) = rest.split_first()?;
    let kind = kind_by(kind.as_str())?;
    match numbers_by(after) {
        Some(numbers) => Some((path.as_str(), noted_of(kind, numbers))),
        None => None,
    }
}

/// What is noted, of this kind and with these numbers.
fn noted_of(kind: Kind, numbers: Numbers) -> Noted
    ensures kind { result.kind ≡ kind }
    ensures stamp { result.stamp ≡ numbers.stamp }
    ensures size { result.size ≡ numbers.size }
    ensures number { result.number ≡ numbers.number }
{
    Noted {
        kind,
        stamp: numbers.stamp,
        size: numbers.size,
        number: numbers.number,
    }
}

/// The kind of a record, by its letter.
fn kind_by(text: &str) -> Option<Kind>
    ensures found { IfSome result (λ kind. text.now ≡ letter kind ∷ []) }
    ensures none { IfNone result (IsNoKind text.now) }
{
    if text == "s" {
        return Some(Kind::Source);
    }
    if text == "m" {
        return Some(Kind::Made);
    }
    if text == "t" {
        return Some(Kind::Turned);
    }
    None
}

/// The numbers that the fields behind the path tell, if they tell some.
fn numbers_by(fields: &[Field<'_>]) -> Option<Numbers>
    ensures found { IfSome result (AreNoted fields.now) }
    ensures none { IfNone result (AreNotNoted fields.now) }
{
    match fields {
        [stamp, size, number] => {
            let stamp = number_of(stamp.as_str())?;
            let size = number_of(size.as_str())?;
            let number = number_of(number.as_str())?;
            Some(Numbers {
                stamp,
                size,
                number,
            })
        }
        _ => None,
    }
}

/// What the line in front says, with its line feed, if it is a record's and no byte of its path is written as two: the path, what is noted of it,
/// and what stands behind the line. It is read from front to back, and its end is not searched for.
#[inline(always)]
pub(crate) fn line_in(text: &str) -> Option<(&str, Noted, &str)>
    ensures { IfSome result (λ said. IsLineFirst text.now (noting said.0.now said.1) said.2.now) }
{
    let (kind, named) = kind_in(text.as_bytes())?;
    let (field, told) = front_in(named)?;
    let (numbers, ended) = numbers_in(told)?;
    let left = behind_end(ended)?;
    let path = path_at(text, field.len())?;
    let rest = last_of(text, left.len())?;
    Some((
        path,
        Noted {
            kind,
            stamp: numbers.stamp,
            size: numbers.size,
            number: numbers.number,
        },
        rest,
    ))
}

/// The numbers whose fields stand in front, and what stands behind them.
#[inline(always)]
fn numbers_in(bytes: &[u8]) -> Option<(Numbers, &[u8])>
    ensures found { IfSome result (λ parts. AreNumbersFirst bytes.now parts.0 parts.1.now) }
    ensures utf8 { IfSome result (λ parts. AreTexts (number_fields parts.0)) }
    ensures low { IfSome result (λ parts. AreLow parts.0) }
{
    let (stamp, sized) = number_in(bytes)?;
    let (size, numbered) = number_in(sized)?;
    let (number, rest) = number_in(numbered)?;
    Some((
        Numbers {
            stamp,
            size,
            number,
        },
        rest,
    ))
}

/// What stands behind the end of a line in front, and behind its line feed.
#[inline(always)]
fn behind_end(bytes: &[u8]) -> Option<&[u8]>
    ensures { IfSome result (λ after. bytes.now ≡ 46 ∷ 10 ∷ after.now) }
{
    match bytes {
        [b'.', b'\n', after @ ..] => Some(after),
        _ => None,
    }
}

/// As many bytes of a text as this, behind its first two.
#[inline(always)]
fn path_at(text: &str, len: usize) -> Option<&str>
    ensures { IfSome result (λ path. path.now ≡ take len (drop 2 text.now)) }
{
    let (_, named) = text.split_at_checked(2)?;
    let (path, _) = named.split_at_checked(len)?;
    Some(path)
}

/// The last bytes of a text, so many.
#[inline(always)]
pub(crate) fn last_of(text: &str, len: usize) -> Option<&str>
    ensures { IfSome result (λ last. (front back : List ℕ) → text.now ≡ front ++ back → length back ≡ len → last.now ≡ back) }
{
    let before = text.len().checked_sub(len)?;
    let (_, last) = text.split_at_checked(before)?;
    Some(last)
}

/// The same of a line without its line feed. It is read from front to back, number by number.
pub(crate) fn plain_by(line: &[u8]) -> Option<(&str, Noted)>
    ensures { IfSome result (λ said. IsLineOfNote line.now (noting said.0.now said.1)) }
{
    let front = without_dot(line)?;
    let (kind, named) = kind_in(front)?;
    let (path, told) = path_in(named)?;
    let (stamp, sized) = number_in(told)?;
    let (size, numbered) = number_in(sized)?;
    let (number, rest) = number_in(numbered)?;
    if !rest.is_empty() {
        return None;
    }
    Some((
        path,
        Noted {
            kind,
            stamp,
            size,
            number,
        },
    ))
}

/// The text of the field in front, and what stands behind its tab, where no byte of the text is written as two.
fn path_in(bytes: &[u8]) -> Option<(&str, &[u8])>
    ensures { IfSome result (λ parts. bytes.now ≡ field_and_tab parts.0.now ++ parts.1.now) }
{
    let (field, after) = front_in(bytes)?;
    match from_utf8(field) {
        Ok(text) => Some((text, after)),
        Err(_) => None,
    }
}

/// What stands before the first tab, if neither a backslash nor a line feed does, and what stands behind it.
#[inline(always)]
fn front_in(bytes: &[u8]) -> Option<(&[u8], &[u8])>
    ensures found { IfSome result (λ parts. bytes.now ≡ parts.0.now ++ 9 ∷ parts.1.now) }
    ensures plain { IfSome result (λ parts. IsPlain parts.0.now) }
{
    let place = memchr3(b'\\', b'\t', b'\n', bytes)?;
    if bytes[place] != b'\t' {
        return None;
    }
    Some((&bytes[..place], &bytes[place + 1..]))
}

/// The kind whose letter stands in front, with a tab, and what stands behind.
#[inline(always)]
fn kind_in(front: &[u8]) -> Option<(Kind, &[u8])>
    ensures { IfSome result (λ parts. front.now ≡ letter parts.0 ∷ 9 ∷ parts.1.now) }
{
    match front {
        [b's', b'\t', after @ ..] => Some((Kind::Source, after)),
        [b'm', b'\t', after @ ..] => Some((Kind::Made, after)),
        [b't', b'\t', after @ ..] => Some((Kind::Turned, after)),
        _ => None,
    }
}

/// Writes the line, with its line feed, of a record that says that this was noted of the path, at the end of a text. Where memory is refused,
/// a part of it may stand there.
pub fn note_line(text: &mut Vec<u8>, path: &str, noted: Noted) -> Result<(), AllocError>
    ensures { OnOk result (Notes path.now noted text.old.items text.new.items) }
{
    push_text(text, letter_of(noted.kind))?;
    push_text(text, path)?;
    push_noted(text, noted)?;
    end_line(text)
}

/// The letter of a kind.
fn letter_of(kind: Kind) -> &'static str
    ensures { result.now ≡ letter kind ∷ [] }
{
    match kind {
        Kind::Source => "s",
        Kind::Made => "m",
        Kind::Turned => "t",
    }
}

/// Writes the fields of what is noted at the end of a line. Where memory is refused, a part of them may stand there.
fn push_noted(line: &mut Vec<u8>, noted: Noted) -> Result<(), AllocError>
    ensures fields { OnOk result (line.new.items ≡ line.old.items ++ fields_text (noted_fields noted)) }
    ensures utf8 { OnOk result (AreTexts (noted_fields noted)) }
    ensures low { IsLow noted }
{
    push_number(line, noted.stamp)?;
    push_number(line, noted.size)?;
    push_number(line, noted.number)
}
