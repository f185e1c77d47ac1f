//! What values stand for.

ghost use Rattle.std.specs.Prelude.{◌≡◌, IfOk, IfSome, string_bytes};
ghost use Rattle.lexer.specs.Said.{form_of, fragment_of, fragments_of};
ghost use Rattle.dyndep.specs.Dyndep.{characters_of, text_of, is_version, is_known_version};

use lexer::{Piece, Statement, Value};
use std::alloc::{AllocError, Global};

/// The text of a value, in which names stand for nothing.
pub fn text_of(alloc: Global, value: &Value<'_>) -> Result<String, AllocError>
    ensures { IfOk result (λ text. string_bytes text ≡ text_of (fragments_of value.now)) }
{
    let mut text = String::new(alloc);
    for piece in value.pieces.as_slice() {
        match piece {
            Piece::Text(characters) => text.push_str(characters)?,
            Piece::Name(_) => {}
        }
    }
    Ok(text)
}

/// The text of a value of one piece, which is no name.
pub fn only_text<'v>(value: &'v Value<'_>) -> Option<&'v str>
    ensures { IfSome result (λ text. text_of (fragments_of value.now) ≡ text.now) }
{
    let (first, rest) = value.pieces.as_slice().split_first()?;
    if !rest.is_empty() {
        return None;
    }
    characters_of(first)
}

/// The characters of a piece that is no name.
fn characters_of<'v>(piece: &'v Piece<'_>) -> Option<&'v str>
    ensures { IfSome result (λ text. characters_of (fragment_of piece.now) ≡ text.now) }
{
    match piece {
        Piece::Text(characters) => Some(*characters),
        Piece::Name(_) => None,
    }
}

/// Whether the statement is a version that is known.
pub fn is_version(alloc: Global, statement: &Statement<'_>) -> Result<bool, AllocError>
    ensures { IfOk result (λ is. is ≡ is_version (form_of statement.now)) }
{
    let Statement::Binding { name, value } = statement else {
        return Ok(false);
    };
    let text = text_of(alloc, value)?;
    Ok(is_known_version(name, text.as_str()))
}

/// Whether a version of this name and this value is known.
fn is_known_version(name: &str, value: &str) -> bool
    ensures { result ≡ is_known_version name.now value.now }
{
    name == "ninja_dyndep_version" && matches!(value, "1" | "1.0")
}
