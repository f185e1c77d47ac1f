//! The file of the notes, as a build finds it.

ghost use Rattle.std.specs.Prelude.{◌≡◌, [], ℕ, List, false, true, None, IfOk, length, replicate};
ghost use Rattle.std.specs.Option.{option_map};
ghost use Rattle.log_text.specs.Text.{IsRead};
ghost use Rattle.log_text.specs.declared.tail.Tail.TheVariants.{Whole};
ghost use Rattle.seen_log.specs.declared.note.Note.{Note};
ghost use Rattle.seen_log.specs.Keeping.{Keeps};
ghost use Rattle.seen_log.specs.Record.{forms};
ghost use Rattle.seen.specs.Asking.{Asks};
ghost use Rattle.seen.specs.Entering.{EntersSince, IsUnbegun};
ghost use Rattle.seen.specs.Known.{IsEntryOf, TakesPlace};
ghost use Rattle.seen.specs.Makers.{AreJobs, listing, pairs_of};
ghost use Rattle.seen.specs.Own.{AreOwnIn};

use crate::counts::Counts;
use crate::judging::next_number;
use crate::makers::Makers;
use crate::own::Own;
use log_text::{Records, Tail};
use measure::Measured;
use paths::{Manifest, Paths};
use seen_log::Log;
use seen_true::compaction_fits;
use site::SiteFault;
use std::alloc::{AllocError, Global};

/// What a build begins with.
#[derive(Drop)]
pub struct Entry {
    pub counts: Counts,
    /// The text that takes the place of what the file of the notes holds before a line is put behind it, where one is to: the file is absent,
    /// empty, torn, damaged or of version 1, or it wants compaction.
    pub base: Option<Vec<u8>>,
}

/// What is known when a build begins whose logs lie in this folder, by the notes beside them and by the build file; or why it cannot begin. The empty
/// folder is the working folder.
///
/// Others may write the notes behind the moment at which they are read, before the build begins ([`Seen::over`]): so a build knows when this was
/// called, too.
///
/// [`Seen::over`]: crate::Seen::over
pub fn enter<S: Measured>(
    alloc: Global,
    site: &mut S,
    manifest: &Manifest,
    folder: &str,
) -> Result<Entry, SiteFault>
    requires { (S.world site.old).stopped ≡ false }
    ensures asks { Asks S.tells (S.world site.old) (S.world site.new) result }
    ensures unbegun { IfOk result (λ entry. IsUnbegun entry.counts) }
    ensures own { IfOk result (λ entry. AreOwnIn folder.now entry.counts.own) }
    ensures lists { IfOk result (λ entry. pairs_of entry.counts.makers.listed.items ≡ listing manifest.now (length manifest.now.lines)) }
    ensures enters { IfOk result (λ entry. EntersSince S.tells entry (S.world site.old).history (S.world site.new)) }
{
    let makers = Makers::of(alloc, manifest)?;
    let own = Own::within(alloc, folder)?;
    read_with(alloc, site, makers, own)
}

/// The same, where commands make this, and the build log is at this path.
pub fn read_by<S: Measured>(
    alloc: Global,
    site: &mut S,
    makers: Makers,
    log: &str,
) -> Result<Entry, SiteFault>
    requires { (S.world site.old).stopped ≡ false }
    ensures asks { Asks S.tells (S.world site.old) (S.world site.new) result }
    ensures unbegun { AreJobs makers → makers.table.entries ≡ [] → IfOk result (λ entry. IsUnbegun entry.counts) }
    ensures makers { IfOk result (λ entry. entry.counts.makers ≡ makers) }
    ensures enters { IfOk result (λ entry. EntersSince S.tells entry (S.world site.old).history (S.world site.new)) }
{
    let own = Own::beside(alloc, log)?;
    read_with(alloc, site, makers, own)
}

/// The same, where these are the program's own files.
#[tactic(auto, using(crate::proofs::Answered::asks_more, crate::proofs::Answered::asks_fail, crate::proofs::Answered::asks_no_room, crate::proofs::Answered::asks_no_memory))]
fn read_with<S: Measured>(
    alloc: Global,
    site: &mut S,
    makers: Makers,
    own: Own,
) -> Result<Entry, SiteFault>
    requires { (S.world site.old).stopped ≡ false }
    ensures asks { Asks S.tells (S.world site.old) (S.world site.new) result }
    ensures unbegun { AreJobs makers → makers.table.entries ≡ [] → IfOk result (λ entry. IsUnbegun entry.counts) }
    ensures own { IfOk result (λ entry. entry.counts.own ≡ own) }
    ensures makers { IfOk result (λ entry. entry.counts.makers ≡ makers) }
    ensures enters { IfOk result (λ entry. EntersSince S.tells entry (S.world site.old).history (S.world site.new)) }
{
    let start = last_start(site, &own)?;
    let content = site.read(own.seen.as_str())?;
    match content {
        Some(content) => Ok(entry_of(alloc, makers, own, start, content.as_slice())?),
        None => Ok(entry_of(alloc, makers, own, start, &[])?),
    }
}

/// The stamp of the last start, by the file of ticks; what time it is where there is no such file.
fn last_start<S: Measured>(site: &mut S, own: &Own) -> Result<u64, SiteFault>
    requires { (S.world site.old).stopped ≡ false }
    ensures { Asks S.tells (S.world site.old) (S.world site.new) result }
{
    match site.stat(own.tick.as_str())? {
        Some(stamp) => Ok(stamp),
        None => Ok(site.now()),
    }
}

/// What is known where the file of the notes holds this text, behind a start of this stamp.
fn entry_of(
    alloc: Global,
    makers: Makers,
    own: Own,
    start: u64,
    text: &[u8],
) -> Result<Entry, AllocError>
    ensures unbegun { AreJobs makers → makers.table.entries ≡ [] → IfOk result (λ entry. IsUnbegun entry.counts) }
    ensures makers { IfOk result (λ entry. entry.counts.makers ≡ makers) }
    ensures own { IfOk result (λ entry. entry.counts.own ≡ own) }
    ensures text { IfOk result (λ entry. IsEntryOf text.now entry.counts (option_map (λ text. text.items) entry.base)) }
{
    let starts = no_starts(alloc, makers.count())?;
    let (notes, tail) = Log::parse(alloc, text)?;
    let base = base_of(alloc, text, &notes, tail)?;
    let number = next_number(start, notes.greatest());
    Ok(Entry {
        counts: Counts {
            notes,
            makers,
            own,
            number,
            made: Paths::new(alloc),
            starts,
            first_start: None,
        },
        base,
    })
}

/// A place for each of so many edges, of which none was started.
fn no_starts(alloc: Global, jobs: usize) -> Result<Vec<Option<u64>>, AllocError>
    ensures { IfOk result (λ starts. starts.items ≡ replicate jobs None) }
{
    let starts = vec![in alloc; None; jobs]?;
    Ok(starts)
}

/// The text that takes the place of a file of this text, which tells this and ends so, if one is to.
fn base_of(alloc: Global, text: &[u8], log: &Log, tail: Tail) -> Result<Option<Vec<u8>>, AllocError>
    ensures { (records : List Note) → IsRead forms text.now records tail → Keeps records log.now → IfOk result (TakesPlace text.now records) }
{
    compaction_fits();
    if goes_on(text, tail) && !log.wants_compaction() {
        return Ok(None);
    }
    let base = log.compacted(alloc)?;
    Ok(Some(base))
}

/// Whether a line may be put behind a file of this text, which ends so.
fn goes_on(text: &[u8], tail: Tail) -> bool
    ensures whole { result ≡ true → tail ≡ Whole }
    ensures some { result ≡ true → text.now ≡ [] → ⊥ }
{
    !text.is_empty() && is_whole(tail)
}

fn is_whole(tail: Tail) -> bool
    ensures { result ≡ true → tail ≡ Whole }
{
    match tail {
        Tail::Whole => true,
        Tail::Old | Tail::Torn | Tail::Damaged => false,
    }
}
