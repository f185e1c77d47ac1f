//! A call as a trace writes it: `NAME(ARGUMENTS) = ANSWER`.

ghost use Rattle.std.specs.Prelude.{◌≡◌, option_map};
ghost use Rattle.trace.specs.Facts.{call_of, call_seen, row_of};

use crate::calls::{Row, row_named};
use crate::marks::cut;

/// A call of which it is known what it does.
#[derive(Clone, Copy, Debug)]
pub struct Call<'a> {
    pub row: Row,
    pub arguments: &'a [u8],
    pub answer: &'a [u8],
}

/// The call that is written so, if it is known.
pub fn call_of(text: &[u8]) -> Option<Call<'_>>
    ensures { option_map call_seen result ≡ call_of text.now }
{
    let (name, rest) = cut(text, b"(")?;
    let row = row_of(name)?;
    let (left, answer) = cut(rest, b" = ")?;
    let (arguments, _) = cut(left, b")")?;
    Some(Call {
        row,
        arguments,
        answer,
    })
}

/// What is known of the call with this name, if that is a text.
fn row_of(name: &[u8]) -> Option<Row>
    ensures { result ≡ row_of name.now }
{
    match str::from_utf8(name) {
        Ok(name) => row_named(name),
        Err(_) => None,
    }
}
