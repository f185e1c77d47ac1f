//! Fields of a line: texts in which a backslash, a tab and a line feed are escaped.

ghost use Rattle.std.specs.Prelude.{◌≡◌, ◌∷◌, ◌++◌, List, ℕ, OnOk, IfOk, IfSome, IfNone, IsTrue, string_bytes};
ghost use Rattle.std.specs.Str.{IsUtf8};
ghost use Rattle.text.specs.Marks.{Lacks};
ghost use Rattle.log_text.specs.Line.{field_text, escaped, IsPlain, IsNoEscape, SpellsNothing};
ghost use Rattle.log_text.specs.Answered.{IfFound, IfMissing};

use bstr::ByteSlice;
use memchr::memchr3;
use std::alloc::{AllocError, Global};
use std::marker::Model;
use std::str::from_utf8;
use text::{Path, cut};

/// The text that a field spells. It borrows from the line where nothing in the field is escaped, and contracts see it
/// as the list of its bytes.
#[derive(Drop)]
pub struct Field<'a> {
    plain: &'a str,
    /// The text in place of `plain`, where something in the field is escaped.
    unescaped: Option<String>,
}

impl<'a> Model for Field<'a> {
    ghost use Rattle.std.specs.Prelude.{ℕ, List};
    ghost use Rattle.log_text.specs.Spelled.{spelled};

    ghost Value = { List ℕ };

    ghost view = { λ field. spelled field.plain.now field.unescaped };
}

impl<'a> Field<'a> {
    /// The characters of the text.
    pub fn as_str(&self) -> &str
        ensures { result.now ≡ self.now }
    {
        match &self.unescaped {
            Some(text) => text.as_str(),
            None => self.plain,
        }
    }

    /// The field of a text, which borrows from it.
    pub fn plain(text: &'a str) -> Field<'a>
        ensures { result ≡ text.now }
    {
        Field {
            plain: text,
            unescaped: None,
        }
    }

    fn unescaped(text: String) -> Field<'a>
        ensures { result ≡ string_bytes text }
    {
        Field {
            plain: "",
            unescaped: Some(text),
        }
    }
}

/// These paths as fields, which borrow from them.
pub fn plain_fields<'a>(alloc: Global, paths: &'a [Path]) -> Result<Vec<Field<'a>>, AllocError>
    ensures { IfOk result (λ fields. fields.items ≡ paths.now) }
{
    let mut fields = Vec::with_capacity(alloc, paths.len())?;
    for path in paths {
        fields.push(Field::plain(path.as_str()))?;
    }
    Ok(fields)
}

/// Writes the field of a text at the end of a line. Where memory is refused, a part of it may stand there.
pub fn push_field(line: &mut Vec<u8>, text: &str) -> Result<(), AllocError>
    ensures { OnOk result (line.new.items ≡ line.old.items ++ field_text text.now) }
{
    let mut rest = text.as_bytes();
    'escapes: while let Some((front, byte, after)) = cut_at_escape(rest) {
        line.extend_from_slice(front)?;
        push_escape(line, byte)?;
        rest = after;
    }
    line.extend_from_slice(rest)?;
    Ok(())
}

/// What stands before the first byte that is written as two, that byte, and what stands behind it.
fn cut_at_escape(bytes: &[u8]) -> Option<(&[u8], u8, &[u8])>
    ensures found { IfSome result (λ parts. bytes.now ≡ parts.0.now ++ parts.1 ∷ parts.2.now) }
    ensures plain { IfSome result (λ parts. IsPlain parts.0.now) }
    ensures none { IfNone result (IsPlain bytes.now) }
{
    let place = memchr3(b'\\', b'\t', b'\n', bytes)?;
    Some((&bytes[..place], bytes[place], &bytes[place + 1..]))
}

/// What stands before the first tab and what stands behind it, where no byte before it is written as two.
pub(crate) fn cut_plain(bytes: &[u8]) -> Option<(&[u8], &[u8])>
    ensures found { IfSome result (λ parts. bytes.now ≡ parts.0.now ++ 9 ∷ parts.1.now) }
    ensures plain { IfSome result (λ parts. IsPlain parts.0.now) }
{
    let (front, byte, after) = cut_at_escape(bytes)?;
    if byte != b'\t' {
        return None;
    }
    Some((front, after))
}

/// Writes what a byte is written as at the end of a line.
fn push_escape(line: &mut Vec<u8>, byte: u8) -> Result<(), AllocError>
    ensures { OnOk result (line.new.items ≡ line.old.items ++ escaped byte) }
{
    match byte {
        b'\\' => line.extend_from_slice(b"\\\\")?,
        b'\t' => line.extend_from_slice(b"\\t")?,
        b'\n' => line.extend_from_slice(b"\\n")?,
        other => line.push(other)?,
    }
    Ok(())
}

/// The bytes of the field that spells this text.
pub fn field_text(alloc: Global, text: &str) -> Result<Vec<u8>, AllocError>
    ensures { IfOk result (λ field. field.items ≡ field_text text.now) }
{
    let mut field = Vec::new(alloc);
    push_field(&mut field, text)?;
    Ok(field)
}

/// Whether no byte of a text is written as two.
pub(crate) fn is_plain_text(text: &str) -> bool
    ensures { IsTrue result → IsPlain text.now }
{
    match cut_at_escape(text.as_bytes()) {
        Some(_) => false,
        None => true,
    }
}

/// Whether nothing in a line is escaped.
pub(crate) fn is_plain(line: &[u8]) -> bool
    ensures { IsTrue result → Lacks 92 line.now }
{
    match line.find_byte(b'\\') {
        Some(_) => false,
        None => true,
    }
}

/// The text that a field spells, if it spells one: nothing else is a field. It is handed in whether it is known that
/// nothing in it is escaped.
pub(crate) fn field_of<'a>(
    alloc: Global,
    field: &'a [u8],
    is_plain: bool,
) -> Result<Option<Field<'a>>, AllocError>
    requires tab { Lacks 9 field.now }
    requires line_feed { Lacks 10 field.now }
    requires plain { IsTrue is_plain → Lacks 92 field.now }
    ensures found { IfFound result (λ text. field.now ≡ field_text text) }
    ensures utf8 { IfFound result IsUtf8 }
    ensures none { IfMissing result (SpellsNothing field.now) }
{
    if is_plain {
        return Ok(plain_of(field));
    }
    match field.find_byte(b'\\') {
        Some(_) => unescaped_of(alloc, field),
        None => Ok(plain_of(field)),
    }
}

/// The text of a field in which nothing is escaped.
fn plain_of<'a>(field: &'a [u8]) -> Option<Field<'a>>
    requires plain { IsPlain field.now }
    ensures found { IfSome result (λ text. field.now ≡ field_text text) }
    ensures utf8 { IfSome result IsUtf8 }
    ensures none { IfNone result (SpellsNothing field.now) }
{
    match from_utf8(field) {
        Ok(text) => Some(Field::plain(text)),
        Err(_) => None,
    }
}

/// The text of a field with escapes. Its bytes are copied once, from escape to escape.
fn unescaped_of<'a>(alloc: Global, field: &'a [u8]) -> Result<Option<Field<'a>>, AllocError>
    requires tab { Lacks 9 field.now }
    requires line_feed { Lacks 10 field.now }
    ensures found { IfFound result (λ text. field.now ≡ field_text text) }
    ensures utf8 { IfFound result IsUtf8 }
    ensures none { IfMissing result (SpellsNothing field.now) }
{
    let mut text = Vec::with_capacity(alloc, field.len())?;
    let mut rest = field;
    'escapes: while let Some((front, escape)) = cut(rest, b'\\') {
        let Some((byte, after)) = escape_of(escape) else {
            return Ok(None);
        };
        text.extend_from_slice(front)?;
        text.push(byte)?;
        rest = after;
    }
    text.extend_from_slice(rest)?;
    match String::from_utf8(text) {
        Ok(string) => Ok(Some(Field::unescaped(string))),
        Err(_) => Ok(None),
    }
}

/// The byte that a backslash stands for with the letter behind it, and what stands behind that.
fn escape_of(escape: &[u8]) -> Option<(u8, &[u8])>
    ensures found { IfSome result (λ first. 92 ∷ escape.now ≡ escaped first.0 ++ first.1.now) }
    ensures none { IfNone result (IsNoEscape (92 ∷ escape.now)) }
{
    match escape {
        [b'\\', after @ ..] => Some((b'\\', after)),
        [b't', after @ ..] => Some((b'\t', after)),
        [b'n', after @ ..] => Some((b'\n', after)),
        _ => None,
    }
}
