//! Marks at places.

ghost use Rattle.std.specs.Prelude.{◌≡◌, ◌<◌, ◌≤◌, false, get_or, length, true};
ghost use Rattle.std.proofs.Math.ListN.{set};

/// Whether the place is marked; none past the end is.
pub fn is_marked(marks: &[bool], place: usize) -> bool
    ensures { result ≡ get_or marks.now place false }
{
    marks.get(place).copied().unwrap_or(false)
}

/// Marks a place; one past the end has no mark.
pub fn set_mark(marks: &mut Vec<bool>, place: usize)
    ensures count { length marks.new.items ≡ length marks.old.items }
    ensures within { place < length marks.old.items → marks.new.items ≡ set marks.old.items place true }
    ensures past { length marks.old.items ≤ place → marks.new.items ≡ marks.old.items }
{
    if place < marks.len() {
        marks[place] = true;
    }
}
