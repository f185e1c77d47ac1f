//! Texts cut at a mark.

ghost use Rattle.std.specs.Prelude.{◌≡◌, ◌∷◌, ◌++◌, List, ℕ, IfSome, IfNone};
ghost use Rattle.text.specs.Marks.{Lacks};

use bstr::ByteSlice;

/// What stands before the first `mark` and what stands behind it, or `None` where there is no mark.
pub fn cut(bytes: &[u8], mark: u8) -> Option<(&[u8], &[u8])>
    ensures found { IfSome result (λ parts. bytes.now ≡ parts.0.now ++ mark ∷ parts.1.now) }
    ensures first { IfSome result (λ parts. Lacks mark parts.0.now) }
    ensures none { IfNone result (Lacks mark bytes.now) }
{
    let place = bytes.find_byte(mark)?;
    Some((&bytes[..place], &bytes[place + 1..]))
}

/// What stands behind these bytes, where they stand in front.
pub fn behind<'a>(front: &[u8], bytes: &'a [u8]) -> Option<&'a [u8]>
    ensures found { IfSome result (λ rest. bytes.now ≡ front.now ++ rest.now) }
    ensures none { IfNone result ((rest : List ℕ) → bytes.now ≡ front.now ++ rest → ⊥) }
{
    bytes.strip_prefix(front)
}
