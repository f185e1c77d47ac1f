//! Lines of fields.

ghost use Rattle.std.specs.Prelude.{◌≡◌, [], ◌∷◌, ◌++◌, List, ℕ, OnOk, IfSome, IfNone, decimal};
ghost use Rattle.std.specs.Str.{IsUtf8};
ghost use Rattle.text.specs.Marks.{Lacks};
ghost use Rattle.log_text.specs.Line.{field_and_tab, fields_text, line_text, AreTexts, counted, IsPlain, IsNoLine};
ghost use Rattle.log_text.specs.Found.{texts_in};
ghost use Rattle.log_text.specs.Answered.{IfFound, IfMissing, IfYes, IfNo};

use crate::field::{Field, cut_plain, field_of, is_plain, push_field};
use itoa::Buffer;
use std::alloc::{AllocError, Global};
use std::str::from_utf8;
use text::{SharedText, cut};

/// As many fields as a record of one output has: room for them is made at once.
const USUAL_FIELDS: usize = 8;

/// The texts of the fields of a line, if it is one: nothing else is a line. Its line feed is not handed in. The texts
/// borrow from the line, but for those of fields with escapes.
pub fn fields<'a>(alloc: Global, line: &'a [u8]) -> Result<Option<Vec<Field<'a>>>, AllocError>
    requires { Lacks 10 line.now }
    ensures found { IfFound result (λ fields. line.now ≡ line_text fields.items) }
    ensures texts { IfFound result (λ fields. AreTexts fields.items) }
    ensures none { IfMissing result (IsNoLine line.now) }
{
    let mut fields = room_for_fields(alloc)?;
    if take_fields(alloc, line, &mut fields)? {
        Ok(Some(fields))
    } else {
        Ok(None)
    }
}

/// No fields, and room for those of a line.
pub(crate) fn room_for_fields<'a>(alloc: Global) -> Result<Vec<Field<'a>>, AllocError> {
    Vec::with_capacity(alloc, USUAL_FIELDS)
}

/// Makes the list that of the fields of a line, if it is one, and says whether it is; the fields that stood there are
/// let go. A caller with many lines hands in one list for all of them.
pub(crate) fn take_fields<'a>(
    alloc: Global,
    line: &'a [u8],
    fields: &mut Vec<Field<'a>>,
) -> Result<bool, AllocError>
    requires { Lacks 10 line.now }
    ensures found { IfYes result (line.now ≡ line_text fields.new.items) }
    ensures texts { IfYes result (AreTexts fields.new.items) }
    ensures none { IfNo result (IsNoLine line.now) }
{
    let Some(front) = without_dot(line) else {
        return Ok(false);
    };
    let plain = is_plain(line);
    fields.clear();
    let mut rest = front;
    'parts: while let Some((field, after)) = cut(rest, b'\t') {
        let Some(text) = field_of(alloc, field, plain)? else {
            return Ok(false);
        };
        fields.push(text)?;
        rest = after;
    }
    Ok(rest.is_empty())
}

/// The text of the field in front, and what stands behind its tab, where no byte of the text is written as two.
pub fn plain_field(bytes: &[u8]) -> Option<(&str, &[u8])>
    requires { Lacks 10 bytes.now }
    ensures found { IfSome result (λ parts. bytes.now ≡ field_and_tab parts.0.now ++ parts.1.now) }
    ensures plain { IfSome result (λ parts. IsPlain parts.0.now) }
    ensures line_feed { IfSome result (λ parts. Lacks 10 parts.1.now) }
{
    let (field, after) = cut_plain(bytes)?;
    match from_utf8(field) {
        Ok(text) => Some((text, after)),
        Err(_) => None,
    }
}

/// What stands before the dot that ends a line.
pub fn without_dot(line: &[u8]) -> Option<&[u8]>
    ensures found { IfSome result (λ front. line.now ≡ front.now ++ 46 ∷ []) }
    ensures none { IfNone result ((front : List ℕ) → line.now ≡ front ++ 46 ∷ [] → ⊥) }
{
    match line {
        [front @ .., b'.'] => Some(front),
        _ => None,
    }
}

/// Writes the field of a text, and the tab behind it, at the end of a line. Where memory is refused, a part of it may
/// stand there.
pub fn push_text(line: &mut Vec<u8>, text: &str) -> Result<(), AllocError>
    ensures field { OnOk result (line.new.items ≡ line.old.items ++ field_and_tab text.now) }
    ensures utf8 { IsUtf8 text.now }
{
    push_field(line, text)?;
    line.push(b'\t')?;
    Ok(())
}

/// The same of a text that several hold.
pub(crate) fn push_shared(line: &mut Vec<u8>, text: &SharedText) -> Result<(), AllocError>
    ensures field { OnOk result (line.new.items ≡ line.old.items ++ field_and_tab text.now) }
    ensures utf8 { IsUtf8 text.now }
{
    let (front, rest) = text.parts();
    push_field(line, front)?;
    push_field(line, rest)?;
    line.push(b'\t')?;
    Ok(())
}

/// Writes the field of a number, and the tab behind it, at the end of a line. Where memory is refused, a part of it may
/// stand there.
pub fn push_number(line: &mut Vec<u8>, n: u64) -> Result<(), AllocError>
    ensures field { OnOk result (line.new.items ≡ line.old.items ++ field_and_tab (decimal n)) }
    ensures utf8 { IsUtf8 (decimal n) }
{
    let mut buffer = Buffer::new();
    push_text(line, buffer.format(n))
}

/// Writes the fields of how many texts there are, and of each, at the end of a line. Where memory is refused, a part of
/// it may stand there.
pub fn push_list(line: &mut Vec<u8>, texts: &[&str]) -> Result<(), AllocError>
    ensures field { OnOk result (line.new.items ≡ line.old.items ++ fields_text (counted (texts_in texts.now))) }
    ensures utf8 { OnOk result (AreTexts (counted (texts_in texts.now))) }
{
    push_number(line, texts.len() as u64)?;
    for text in texts {
        push_text(line, text)?;
    }
    Ok(())
}

/// Ends a line. Where memory is refused, a part of its end may stand there.
pub fn end_line(line: &mut Vec<u8>) -> Result<(), AllocError>
    ensures { OnOk result (line.new.items ≡ line.old.items ++ 46 ∷ 10 ∷ []) }
{
    line.extend_from_slice(b".\n")
}
