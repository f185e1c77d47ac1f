//! How many commands run at once where nothing is said.

ghost use Rattle.std.specs.Prelude.{◌≤◌};
ghost use Rattle.model.specs.Calls.{OnlyLooks};

use site::Texts;
use std::alloc::Global;
use std::str;
use text::Bytes;

/// What tells on which processors this process may run.
const STATUS: &str = "/proc/self/status";

/// What tells the group of this process.
const GROUP: &str = "/proc/self/cgroup";

/// How many commands run at once where nothing is said: the processors on which this process may run, as far as the time of its
/// group reaches, and two more; three for two processors, and two for one, or where it cannot be told.
#[tactic(auto, using(crate::proofs::Looking::looking))]
pub fn default_jobs<R: Texts>(alloc: Global, texts: &mut R) -> u32
    ensures some { 2 ≤ result }
    ensures looks { OnlyLooks R.tells (R.world texts.old) (R.world texts.new) }
{
    let processors = match granted(alloc, texts) {
        Some(most) => allowed(texts).min(most.max(1)),
        None => allowed(texts),
    };
    match processors {
        0 | 1 => 2,
        2 => 3,
        more => more.saturating_add(2),
    }
}

/// The processors on which this process may run; 0 where it cannot be told.
#[tactic(auto, using(crate::proofs::Looking::looking))]
fn allowed<R: Texts>(texts: &mut R) -> u32
    ensures { OnlyLooks R.tells (R.world texts.old) (R.world texts.new) }
{
    let Ok(Some(bytes)) = texts.read(STATUS) else {
        return 0;
    };
    match line_behind(&bytes, "Cpus_allowed_list:") {
        Some(list) => count_of(list.trim()),
        None => 0,
    }
}

/// What stands behind this word in the line that it begins.
fn line_behind<'a>(bytes: &'a Bytes, word: &str) -> Option<&'a str> {
    for line in str::from_utf8(bytes.as_slice()).ok()?.lines() {
        if let Some(behind) = line.strip_prefix(word) {
            return Some(behind);
        }
    }
    None
}

/// How many numbers a list as `0-3,7` has.
fn count_of(list: &str) -> u32 {
    let mut count = 0u32;
    for part in list.split(',') {
        count = count.saturating_add(count_in(part));
    }
    count
}

fn count_in(part: &str) -> u32 {
    let (first, last) = part.split_once('-').unwrap_or((part, part));
    match (first.parse::<u32>(), last.parse::<u32>()) {
        (Ok(first), Ok(last)) => last.saturating_sub(first).saturating_add(1),
        _ => 0,
    }
}

/// How many processors the group of this process may use in full; none where it has no limit.
#[tactic(auto, using(crate::proofs::Looking::looking))]
fn granted<R: Texts>(alloc: Global, texts: &mut R) -> Option<u32>
    ensures { OnlyLooks R.tells (R.world texts.old) (R.world texts.new) }
{
    let path = limit_path(alloc, texts)?;
    limit_at(texts, path.as_str())
}

/// The path of the file that tells the limit of the group of this process.
#[tactic(auto, using(crate::proofs::Looking::looking))]
fn limit_path<R: Texts>(alloc: Global, texts: &mut R) -> Option<String>
    ensures { OnlyLooks R.tells (R.world texts.old) (R.world texts.new) }
{
    let Ok(Some(group)) = texts.read(GROUP) else {
        return None;
    };
    let folder = line_behind(&group, "0::")?;
    format!(in alloc; "/sys/fs/cgroup{folder}/cpu.max").ok()
}

/// How many processors this file grants.
#[tactic(auto, using(crate::proofs::Looking::looking))]
fn limit_at<R: Texts>(texts: &mut R, path: &str) -> Option<u32>
    ensures { OnlyLooks R.tells (R.world texts.old) (R.world texts.new) }
{
    let Ok(Some(limit)) = texts.read(path) else {
        return None;
    };
    whole_processors(&limit)
}

/// How many processors such a file grants in full: a time, and the period in which it may be used.
fn whole_processors(limit: &Bytes) -> Option<u32> {
    let (quota, period) = str::from_utf8(limit.as_slice())
        .ok()?
        .trim()
        .split_once(' ')?;
    let quota = quota.parse::<u64>().ok()?;
    let period = period.parse::<u64>().ok()?;
    u32::try_from(quota.checked_div(period)?).ok()
}
