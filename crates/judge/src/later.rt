//! Which of two stamps is later.

ghost use Rattle.std.specs.Prelude.{◌≡◌, ◌||◌, ℕ, Option};
ghost use Rattle.model.specs.Judgement.{is_later};

/// Whether the stamp is later than another one; no stamp is neither.
pub(crate) fn is_later(stamp: Option<u64>, than: Option<u64>) -> bool
    ensures { result ≡ is_later stamp than }
{
    match (stamp, than) {
        (Some(stamp), Some(than)) => stamp > than,
        _ => false,
    }
}

/// The later one of two stamps: later than what one of them is later than.
pub(crate) fn later_of(a: Option<u64>, b: Option<u64>) -> Option<u64>
    ensures { (than : Option ℕ) → is_later result than ≡ (is_later a than || is_later b than) }
{
    match (a, b) {
        (Some(a), Some(b)) => Some(a.max(b)),
        (stamp, None) | (None, stamp) => stamp,
    }
}

/// The earlier one of two stamps: what is later than one of them is later than it.
pub(crate) fn earlier_of(a: Option<u64>, b: Option<u64>) -> Option<u64>
    ensures { (stamp : Option ℕ) → is_later stamp result ≡ (is_later stamp a || is_later stamp b) }
{
    match (a, b) {
        (Some(a), Some(b)) => Some(a.min(b)),
        (stamp, None) | (None, stamp) => stamp,
    }
}
