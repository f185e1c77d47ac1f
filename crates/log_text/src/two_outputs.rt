//! Records of two outputs, read from the front of their line: no list of its fields is made.

ghost use Rattle.std.specs.Prelude.{◌≡◌, ◌∷◌, OnSome, IfSome};
ghost use Rattle.log_text.specs.declared.form.Version.TheVariants.{Two};
ghost use Rattle.text.specs.Marks.{Lacks};
ghost use Rattle.log_text.specs.Answered.{IfYes, IfNo};
ghost use Rattle.log_text.specs.BuildLog.{Keeps};
ghost use Rattle.log_text.specs.BuildRecord.{forms};
ghost use Rattle.log_text.specs.Keeping.{KeepsSame, PutsLine};
ghost use Rattle.log_text.specs.OneOutput.{StaysTable, IsPairHead};

use crate::done::Done;
use crate::form::Version;
use crate::kept::Kept;
use crate::line::without_dot;
use crate::one_output::{Last, act_at, put_short, said_behind};
use crate::stock::Stock;
use std::alloc::AllocError;

/// Puts the record of a line, which is handed in without its line feed, at the end where it names one output or two, and says whether
/// it did. Where it did not, or memory is refused, what is kept stands for some records, and where it did not, for the same as before.
pub(crate) fn put_front(
    kept: &mut Kept<Done>,
    last: &mut Last,
    stock: &Stock<'_>,
    version: Version,
    line: &[u8],
) -> Result<bool, AllocError>
    requires { Lacks 10 line.now }
    ensures put { IfYes result (PutsLine (forms version) Keeps line.now kept.old kept.new) }
    ensures none { IfNo result (KeepsSame Keeps kept.old kept.new) }
    ensures table { StaysTable kept.old kept.new }
{
    if put_short(kept, last, stock, version, line)? {
        return Ok(true);
    }
    put_pair(kept, last, stock, version, line)
}

/// The same where it names two.
fn put_pair(
    kept: &mut Kept<Done>,
    last: &mut Last,
    stock: &Stock<'_>,
    version: Version,
    line: &[u8],
) -> Result<bool, AllocError>
    requires { Lacks 10 line.now }
    ensures put { IfYes result (PutsLine (forms version) Keeps line.now kept.old kept.new) }
    ensures none { IfNo result (KeepsSame Keeps kept.old kept.new) }
    ensures table { StaysTable kept.old kept.new }
{
    let Some((kind, named)) = pair_of(version, line) else {
        return Ok(false);
    };
    let Some((first, rest)) = kept.take_behind(stock.alloc, last.of(kind) as usize, named)? else {
        return Ok(false);
    };
    let Some((second, told)) = kept.take_behind(stock.alloc, first as usize, rest)? else {
        return Ok(false);
    };
    let guess = act_at(stock, kept, kind, second);
    let Some(said) = said_behind(stock.alloc, kind, told, guess)? else {
        return Ok(false);
    };
    if !kept.differ(first, second) {
        return Ok(false);
    }
    kept.put_two(stock.alloc, first, second, said)?;
    last.set(kind, second);
    Ok(true)
}

/// The kind of a record that names two outputs, and what stands behind the number of its outputs and before the dot. It is told
/// of version 2 alone.
fn pair_of(version: Version, line: &[u8]) -> Option<(u8, &[u8])>
    requires { Lacks 10 line.now }
    ensures version { OnSome result (version ≡ Two) }
    ensures head { IfSome result (λ head. IsPairHead head.0 head.1.now line.now) }
    ensures line_feed { IfSome result (λ head. Lacks 10 head.1.now) }
{
    match version {
        Version::One => None,
        Version::Two => {
            let front = without_dot(line)?;
            let (kind, named) = pair_in(front)?;
            Some((kind, named))
        }
    }
}

/// The same, in what stands before the dot.
fn pair_in(front: &[u8]) -> Option<(u8, &[u8])>
    requires { Lacks 10 front.now }
    ensures head { IfSome result (λ head. front.now ≡ head.0 ∷ 9 ∷ 50 ∷ 9 ∷ head.1.now) }
    ensures line_feed { IfSome result (λ head. Lacks 10 head.1.now) }
{
    let (kind, named) = behind_two(front)?;
    Some((kind, named))
}

/// The kind of a record, and what stands behind the number of its outputs, where that is 2.
fn behind_two(front: &[u8]) -> Option<(u8, &[u8])>
    ensures { IfSome result (λ head. front.now ≡ head.0 ∷ 9 ∷ 50 ∷ 9 ∷ head.1.now) }
{
    match front {
        [kind, b'\t', b'2', b'\t', after @ ..] => Some((*kind, after)),
        _ => None,
    }
}
