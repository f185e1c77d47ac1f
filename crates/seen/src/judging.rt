//! How what is found at a path counts.

ghost use Rattle.std.specs.Prelude.{◌≡◌};
ghost use Rattle.seen_true.specs.Counting.{is_as_noted, is_turned, whole_seconds};
ghost use Rattle.seen_true.specs.Laws.{is_late};
ghost use Rattle.seen.specs.Judged.{judged, judged_away, judged_new, judged_noted, judged_same, left_number, next_number, number_told, plainly, turned, under};

use measure::Measure;
use seen_log::{Kind, Noted, counts_of};

/// A second, in nanoseconds.
const SECOND: u64 = 1_000_000_000;

/// What is known of a path in a build.
#[derive(Clone, Copy, Debug)]
pub struct Past {
    /// What is noted of it.
    pub noted: Option<Noted>,
    /// A command makes it.
    pub is_output: bool,
    /// The first start in this build, if there was one.
    pub since: Option<u64>,
}

/// How what is found at a path counts.
#[derive(Clone, Copy, Debug, PartialEq, Eq)]
pub struct Judged {
    /// The stamp that counts for it, or nothing where it counts as absent.
    pub counts: Option<u64>,
    /// The number with which it is to be noted, where it is.
    pub number: Option<u64>,
    /// As what it is to be noted then.
    pub kind: Kind,
}

/// A file: its stamp, its length, and when it was put there.
#[derive(Clone, Copy)]
struct Stood {
    stamp: u64,
    size: u64,
    placed: u64,
}

/// How what is found at a path of this past counts, in a build in which what somebody else wrote counts under this number at least.
///
/// - A file that is as noted has the stamp that counted for it before. Of one that was never noted its own stamp counts, but where it was put
///   there after the first start in this build, and which no command makes: then that moment counts.
/// - A source that is another than the noted one counts as written when it was put there, and later than all starts before the build.
/// - What somebody else wrote where a command had made the path, at a time at which none did, counts as absent where one makes it again.
/// - An output that is another than the noted one counts as absent, until its command was started ([`stamp_told`]), and what it left is noted as
///   it counts then ([`left_number`]).
/// - A folder has its own stamp, and is not noted.
/// - What is absent does not count, and that is noted, but of an output of which nothing is.
pub fn judge(past: Past, number: u64, found: Option<Measure>) -> Judged
    ensures { result ≡ judged past number found }
{
    let Some(
        Measure {
            stamp,
            size,
            placed,
        },
    ) = found
    else {
        return judge_away(past.noted.is_some(), past.is_output);
    };
    let Some(size) = size else {
        return plainly(Some(stamp));
    };
    let file = Stood {
        stamp,
        size,
        placed,
    };
    match past.noted {
        None => judge_new(past.is_output, past.since, file),
        Some(noted) => judge_noted(noted, past.is_output, number, file),
    }
}

/// The number under which a file of this stamp is noted that its command left, and that counts under that one, as it is told since the command
/// was started; 0 where that is its own stamp. What does not count is not noted.
pub fn left_number(counts: Option<u64>, stamp: u64) -> Option<u64>
    ensures { result ≡ left_number counts stamp }
{
    match counts {
        Some(counts) => Some(number_told(counts, stamp)),
        None => None,
    }
}

/// The number under which a file of this stamp is noted that counts under that one.
fn number_told(counts: u64, stamp: u64) -> u64
    ensures { result ≡ number_told counts stamp }
{
    if counts == stamp { 0 } else { counts }
}

/// How what is absent counts. Of a path that was never noted, and that no command makes, that is to be noted: what comes there later is another
/// than that, also under an old stamp. A first build notes none of its outputs so.
fn judge_away(is_noted: bool, is_output: bool) -> Judged
    ensures { result ≡ judged_away is_noted is_output }
{
    if is_noted || is_output {
        return plainly(None);
    }
    Judged {
        counts: None,
        number: Some(0),
        kind: Kind::Source,
    }
}

/// How a file counts that was never noted.
fn judge_new(is_output: bool, since: Option<u64>, file: Stood) -> Judged
    ensures { result ≡ judged_new is_output since file.stamp file.placed }
{
    if is_late(since, file.placed) && !is_output {
        return under(file.placed, Kind::Source);
    }
    Judged {
        counts: Some(file.stamp),
        number: Some(0),
        kind: if is_output { Kind::Made } else { Kind::Source },
    }
}

/// Whether a command of this build was started before this was put there.
fn is_late(since: Option<u64>, placed: u64) -> bool
    ensures { result ≡ is_late since placed }
{
    match since {
        None => false,
        Some(start) => start < placed,
    }
}

/// How a file counts of which this is noted.
fn judge_noted(noted: Noted, is_output: bool, number: u64, file: Stood) -> Judged
    ensures { result ≡ judged_noted noted is_output number file.stamp file.size file.placed }
{
    if is_as_noted(noted, file.stamp, file.size) {
        return judge_same(noted, is_output);
    }
    if is_output {
        return plainly(None);
    }
    under(number.max(file.placed), turned(noted.kind))
}

/// How a file counts that is as noted.
fn judge_same(noted: Noted, is_output: bool) -> Judged
    ensures { result ≡ judged_same noted is_output }
{
    if is_output && is_turned(noted.kind) {
        return plainly(None);
    }
    plainly(Some(counts_of(noted)))
}

/// Whether it is what somebody else wrote where a command had made the path.
pub fn is_turned(kind: Kind) -> bool
    ensures { result ≡ is_turned kind }
{
    match kind {
        Kind::Turned => true,
        Kind::Source | Kind::Made => false,
    }
}

/// As what a source is noted that is another than the noted one.
fn turned(kind: Kind) -> Kind
    ensures { result ≡ turned kind }
{
    match kind {
        Kind::Source => Kind::Source,
        Kind::Made | Kind::Turned => Kind::Turned,
    }
}

/// This counts, and nothing is to be noted.
pub fn plainly(counts: Option<u64>) -> Judged
    ensures { result ≡ plainly counts }
{
    Judged {
        counts,
        number: None,
        kind: Kind::Source,
    }
}

/// This counts, and it is to be noted as the number of what is of this kind.
fn under(number: u64, kind: Kind) -> Judged
    ensures { result ≡ under number kind }
{
    Judged {
        counts: Some(number),
        number: Some(number),
        kind,
    }
}

/// Whether a file of this stamp and this size is the noted one. A stamp that was cut to whole seconds is the same: some programs keep no
/// more of it.
pub fn is_as_noted(noted: Noted, stamp: u64, size: u64) -> bool
    ensures { result ≡ is_as_noted noted stamp size }
{
    size == noted.size && (stamp == noted.stamp || stamp == whole_seconds(noted.stamp))
}

/// A stamp cut to whole seconds.
fn whole_seconds(stamp: u64) -> u64
    ensures { result ≡ whole_seconds stamp }
{
    stamp.saturating_sub(stamp % SECOND)
}

/// The number under which in a build counts at least what somebody else wrote before: one past the stamp of the last start, and past the
/// greatest number that is noted, as far as a stamp goes.
pub fn next_number(start: u64, greatest: u64) -> u64
    ensures { result ≡ next_number start greatest }
{
    start.max(greatest).saturating_add(1)
}
