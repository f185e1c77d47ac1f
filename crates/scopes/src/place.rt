//! Values and paths as they expand where they stand.

ghost use Rattle.std.specs.Prelude.{◌≡◌, ◌≤◌, None, OnOk, IfOk, IfSome, IsErrOf, length};
ghost use Rattle.scopes.specs.Expanding.{IsExpansion, IsLargeExpansion, IsTextAlone, IsLargeAlone, AddsPiece, IsTooMuchPiece};
ghost use Rattle.scopes.specs.Growing.{KeepsToSize};
ghost use Rattle.scopes.specs.Place.{value_of_name};
ghost use Rattle.scopes.specs.Scopes.{Always};
ghost use Rattle.scopes.specs.Texts.{largest_value};
ghost use Rattle.scopes.specs.declared.fault.ExpandFault.TheVariants.{TooLarge};

use crate::all_scopes::Scopes;
use crate::block::Block;
use crate::buffer::{LARGEST_VALUE, append};
use crate::fault::ExpandFault;
use lexer::{Piece, Value};
use std::alloc::Global;
use text::Text;

/// The value at this place; a name stands for what the block binds, failing that for its value in the open scope,
/// failing that for nothing (manual: "Evaluation and scoping").
///
/// A path on a build line sees the block of that line; a binding and any other path see an empty block.
///
/// # Errors
/// `TooLarge` where it has more than 16 MiB.
pub fn expand(
    alloc: Global,
    scopes: &Scopes,
    block: &Block,
    value: &Value<'_>,
) -> Result<Text, ExpandFault>
    ensures value { IfOk result (λ text. IsExpansion scopes.now block.now value.now.pieces text) }
    ensures size { IfOk result (λ text. length text ≤ largest_value) }
    ensures large { IsErrOf result TooLarge → IsLargeExpansion scopes.now block.now value.now.pieces }
{
    let mut text = String::new(alloc);
    for piece in value.pieces.as_slice() {
        append_piece(&mut text, scopes, block, piece)?;
    }
    Ok(Text::from_string(text))
}

/// The characters of a value of one piece without names, which is not too large: it needs no memory of its own, as most
/// paths.
pub fn as_it_stands<'a>(value: &Value<'a>) -> Option<&'a str>
    ensures value { IfSome result (λ text. IsTextAlone value.now.pieces text.now) }
    ensures size { IfSome result (λ text. length text.now ≤ largest_value) }
    ensures none { result ≡ None → IsLargeAlone value.now.pieces }
{
    match value.pieces.as_slice() {
        [Piece::Text(text)] if text.len() <= LARGEST_VALUE => Some(*text),
        _ => None,
    }
}

fn append_piece(
    text: &mut String,
    scopes: &Scopes,
    block: &Block,
    piece: &Piece<'_>,
) -> Result<(), ExpandFault>
    ensures value { OnOk result (AddsPiece scopes.now block.now text.old text.new piece.now) }
    ensures size { KeepsToSize text.old text.new }
    ensures large { IsErrOf result TooLarge → IsTooMuchPiece scopes.now block.now text.old piece.now }
{
    match *piece {
        Piece::Text(characters) => append(text, characters),
        Piece::Name(name) => append(text, value_here(scopes, block, name)),
    }
}

/// What a name stands for at this place.
fn value_here<'a>(scopes: &'a Scopes, block: &'a Block, name: &str) -> &'a str
    ensures { Always scopes.now (λ past. result.now ≡ value_of_name block.now past name.now) }
{
    if let Some(value) = block.get(name) {
        return value.as_str();
    }
    scopes.lookup(name).unwrap_or("")
}
