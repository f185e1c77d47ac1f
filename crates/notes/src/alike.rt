//! Whether two texts may be near, by a look at their bytes.

ghost use Rattle.std.specs.Prelude.{◌≤◌, length};

/// How many looks there are for all paths: with a path of sixty bytes that is not near some fifty are taken, of two nanoseconds each.
pub const LOOKS: usize = 100_000_000;

/// Whether at most so many steps lead from one text to the other, each of which adds, leaves out or changes a byte, or exchanges two
/// neighbours. It says no, too, where no looks are left. It takes at most four to the power of `most` times the length of the texts, and
/// some twenty steps where nothing is alike.
pub fn may_be_near(from: &[u8], to: &[u8], most: usize, looks: &mut usize) -> bool {
    if from.len().abs_diff(to.len()) > most || *looks == 0 {
        return false;
    }
    let same = common(from, to);
    *looks = looks.saturating_sub(same.saturating_add(1));
    let (from, to) = (&from[same..], &to[same..]);
    let (Some((_, after_from)), Some((_, after_to))) = (from.split_first(), to.split_first()) else {
        // what is left of the other is no more than may be added
        return true;
    };
    if most == 0 {
        return false;
    }
    if may_be_near(after_from, after_to, most - 1, looks)
        || may_be_near(after_from, to, most - 1, looks)
        || may_be_near(from, after_to, most - 1, looks)
    {
        return true;
    }
    match exchanged(from, to) {
        Some((from, to)) => may_be_near(from, to, most - 1, looks),
        None => false,
    }
}

/// How many bytes at the front are the same.
fn common(from: &[u8], to: &[u8]) -> usize
    ensures from { result ≤ length from.now }
    ensures to { result ≤ length to.now }
{
    let size = from.len().min(to.len());
    for place in 0..size {
        if from[place] != to[place] {
            return place;
        }
    }
    size
}

/// What is left of both where the first two bytes of the one are those of the other, exchanged.
fn exchanged<'a, 'b>(from: &'a [u8], to: &'b [u8]) -> Option<(&'a [u8], &'b [u8])> {
    let (first, from) = from.split_first()?;
    let (second, from) = from.split_first()?;
    let (other_first, to) = to.split_first()?;
    let (other_second, to) = to.split_first()?;
    if first == other_second && second == other_first {
        Some((from, to))
    } else {
        None
    }
}
