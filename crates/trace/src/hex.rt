//! Names as a trace writes them: each byte as `\x` and two digits to the base 16.

ghost use Rattle.std.specs.Prelude.{◌≡◌, ◌≢◌, ◌<◌, [], ◌∷◌, length, IfOk, IfSome, IfNone, option_map};
ghost use Rattle.trace.specs.Hex.{byte_of, digit, unhex};

use std::alloc::{AllocError, Global};
use text::Bytes;

/// The bytes that are written so; none where something else stands there.
pub fn unhex(alloc: Global, text: &[u8]) -> Result<Option<Bytes>, AllocError>
    ensures { IfOk result (λ found. found ≡ unhex text.now) }
{
    let mut bytes = Vec::with_capacity(alloc, text.len() / 4)?;
    let mut rest = text;
    'bytes: while !rest.is_empty() {
        let Some((byte, next)) = byte_at(rest) else {
            return Ok(None);
        };
        bytes.push(byte)?;
        rest = next;
    }
    Ok(Some(Bytes::from_vec(bytes)))
}

/// The byte that is written first, and what stands behind it.
fn byte_at(text: &[u8]) -> Option<(u8, &[u8])>
    ensures found { IfSome result (λ first. unhex text.now ≡ option_map (λ more. first.0 ∷ more) (unhex first.1.now)) }
    ensures shorter { IfSome result (λ first. length first.1.now < length text.now) }
    ensures none { IfNone result (text.now ≢ [] → unhex text.now ≡ None) }
{
    match text {
        [b'\\', b'x', high, low, rest @ ..] => Some((byte_of(*high, *low)?, rest)),
        _ => None,
    }
}

/// The byte of two digits.
fn byte_of(high: u8, low: u8) -> Option<u8>
    ensures { result ≡ byte_of high low }
{
    Some(digit(high)? * 16 + digit(low)?)
}

/// The value of a digit to the base 16.
fn digit(byte: u8) -> Option<u8>
    ensures value { result ≡ digit byte }
    ensures below { IfSome result (λ value. value < 16) }
{
    match byte {
        b'0'..=b'9' => Some(byte - b'0'),
        b'a'..=b'f' => Some(byte - b'a' + 10),
        _ => None,
    }
}
