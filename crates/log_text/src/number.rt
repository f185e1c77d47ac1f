//! Decimal numbers without leading zeros.

ghost use Rattle.std.specs.Prelude.{◌≡◌, ◌<◌, ◌^◌, ℕ, IfSome, IfNone, IsTrue, IsFalse, decimal};
ghost use Rattle.log_text.specs.Line.{Leads};

/// The number below 2 to the 64 that the text spells in decimal without a leading zero, if it spells one.
pub fn number_of(text: &str) -> Option<u64>
    ensures found { IfSome result (λ n. text.now ≡ decimal n) }
    ensures none { IfNone result ((n : ℕ) → n < 2 ^ 64 → text.now ≡ decimal n → ⊥) }
{
    if text == "0" {
        return Some(0);
    }
    if !leads(text) {
        return None;
    }
    text.parse::<u64>().ok()
}

/// Whether the text begins with a digit that is not zero.
fn leads(text: &str) -> bool
    ensures yes { IsTrue result → Leads text.now }
    ensures no { IsFalse result → Leads text.now → ⊥ }
{
    matches!(text.as_bytes(), [b'1'..=b'9', ..])
}
