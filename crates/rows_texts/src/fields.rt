//! Parts of lines.

use log_text::{end_line, field_text, fields, number_of, push_text};
use std::alloc::{AllocError, Global};
use tables::{push_word, unescaped};
use text::cut;

/// `number`: the number that a text is.
pub fn push_number_of(alloc: Global, text: &str, answer: &mut String) -> Result<(), AllocError> {
    match number_of(text) {
        Some(number) => answer.push_str(format!(in alloc; "{number}")?.as_str()),
        None => answer.push_str("none"),
    }
}

/// `field`: how a text is written as a field, and whether it is read so again.
pub fn push_field_of(alloc: Global, text: &str, answer: &mut String) -> Result<(), AllocError> {
    let bytes = unescaped(alloc, text)?;
    let text = String::from_utf8_lossy(alloc, bytes.as_slice())?;
    let field = field_text(alloc, text.as_str())?;
    let shown = String::from_utf8_lossy(alloc, field.as_slice())?;
    answer.push_str(shown.as_str())?;
    if !comes_back(alloc, text.as_str())? {
        push_word(answer, "is not read again")?;
    }
    Ok(())
}

/// Whether a text comes back as the second field of its line.
fn comes_back(alloc: Global, text: &str) -> Result<bool, AllocError> {
    let mut written = Vec::new(alloc);
    push_text(&mut written, "x")?;
    push_text(&mut written, text)?;
    end_line(&mut written)?;
    let Some((line, _)) = cut(written.as_slice(), b'\n') else {
        return Ok(false);
    };
    let found = fields(alloc, line)?;
    let second = found.as_ref().and_then(|texts| texts.get(1));
    Ok(second.is_some_and(|field| field.as_str() == text))
}

/// `line`: the fields of a line, each with `;` behind it.
pub fn push_fields(alloc: Global, text: &str, answer: &mut String) -> Result<(), AllocError> {
    let mut bytes = unescaped(alloc, text)?;
    bytes.push(b'\n')?;
    let Some((line, _)) = cut(bytes.as_slice(), b'\n') else {
        return Ok(());
    };
    let Some(found) = fields(alloc, line)? else {
        return answer.push_str("no line");
    };
    for field in found.as_slice() {
        answer.push_str(field.as_str())?;
        answer.push(';')?;
    }
    Ok(())
}
