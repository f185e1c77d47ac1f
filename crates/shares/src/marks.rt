//! Texts cut at marks.

ghost use Rattle.std.specs.Prelude.{◌≡◌, ◌<◌, ◌∷◌, length, option_map, is_some};
ghost use Rattle.shares.specs.Marks.{both, cut, has, skip_blanks};

use text::cut as cut_byte;

/// What stands before the first place where the mark stands, and what stands behind the mark there.
pub fn cut<'a>(text: &'a [u8], mark: &[u8]) -> Option<(&'a [u8], &'a [u8])>
    requires { 0 < length mark.now }
    ensures cut { option_map both result ≡ cut mark.now text.entry.now }
{
    let (first, others) = mark.split_first()?;
    cut_at(text, *first, others)
}

/// The same of a mark with this first byte: only those places are looked at where that stands.
fn cut_at<'a>(text: &'a [u8], first: u8, others: &[u8]) -> Option<(&'a [u8], &'a [u8])>
    ensures { option_map both result ≡ cut (first ∷ others.now) text.entry.now }
{
    let mut place = 0;
    let mut rest = text;
    'starts: while let Some((front, after)) = cut_byte(rest, first) {
        place += front.len();
        if after.starts_with(others) {
            return Some((&text[..place], &after[others.len()..]));
        }
        place += 1;
        rest = after;
    }
    None
}

/// Whether the mark stands somewhere in the text.
pub fn has(text: &[u8], mark: &[u8]) -> bool
    requires { 0 < length mark.now }
    ensures { result ≡ has mark.now text.now }
{
    cut(text, mark).is_some()
}

/// The text without the blanks in front.
pub fn skip_blanks(text: &[u8]) -> &[u8]
    ensures { result.now ≡ skip_blanks text.now }
{
    let mut rest = text;
    'blanks: while let [b' ', next @ ..] = rest {
        rest = next;
    }
    rest
}
