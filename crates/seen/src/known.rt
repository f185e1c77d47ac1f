//! What is noted in one build.

ghost use Rattle.std.specs.Prelude.{◌≡◌, [], OnOk};
ghost use Rattle.seen_log.specs.Log.{Notes};
ghost use Rattle.seen.specs.Noting.{is_absence};

use crate::answer::Looked;
use crate::judging::{Judged, left_number};
use measure::Measure;
use paths::Paths;
use seen_log::{Kind, Last, Noted, note_line};
use std::alloc::{AllocError, Global};

/// The size that is noted where nothing is found, which no file has.
const NO_SIZE: u64 = 18_446_744_073_709_551_615;

/// What was noted in one build, and the lines of that which are still to be put behind the notes.
#[derive(Drop)]
pub struct Known {
    alloc: Global,
    /// The paths that were noted in this build, of which nothing was noted before.
    pub fresh: Paths,
    /// Of a record of before, by its place, whether its path was asked for in this build. Places behind the end were not.
    pub asked: Vec<bool>,
    pub lines: Vec<u8>,
}

impl Known {
    ghost use Rattle.std.specs.Prelude.{◌≡◌, [], OnOk};
    ghost use Rattle.model.specs.Graph.{has};
    ghost use Rattle.seen_true.specs.Counting.{absence};
    ghost use Rattle.seen.specs.Noting.{AbsenceOf, AwayOf, Grows, LeftOf, LinesOf, NeverOf, SeenOf, UnlessSettled, UnmadeOf, is_marked, is_settled};

    /// Nothing was noted. This takes no memory.
    pub fn new(alloc: Global) -> Known
        ensures { result.lines.items ≡ [] }
    {
        Known {
            alloc,
            fresh: Paths::new(alloc),
            asked: Vec::new(alloc),
            lines: Vec::new(alloc),
        }
    }

    /// Notes what was seen of a path, where it is to be noted and was not asked for before in this build.
    #[tactic(auto, using(crate::proofs::Growing::settled_yes, crate::proofs::Growing::settled_not, crate::proofs::Growing::grows_none))]
    #[inline(always)]
    pub fn note(&mut self, path: &str, looked: &Looked) -> Result<(), AllocError>
        ensures noted { OnOk result (UnlessSettled (is_settled self.old path.now looked.now.last) looked.now path.now self.old.lines.items self.new.lines.items) }
        ensures grows { OnOk result (Grows self.old.lines.items self.new.lines.items) }
    {
        if self.is_settled(path, looked.last) {
            return Ok(());
        }
        self.note_first(path, looked)
    }

    /// The same, where it was not asked for before.
    #[inline(always)]
    fn note_first(&mut self, path: &str, looked: &Looked) -> Result<(), AllocError>
        ensures lines { OnOk result (SeenOf looked.now.found looked.now.how looked.now.last path.now self.old.lines.items self.new.lines.items) }
        ensures grows { OnOk result (Grows self.old.lines.items self.new.lines.items) }
    {
        self.note_seen(path, looked.found, looked.how, looked.last)?;
        match looked.last {
            Some(last) => mark(&mut self.asked, last.place),
            None => add(
                self.alloc,
                &mut self.fresh,
                path,
                looked.how.number.is_some(),
            ),
        }
    }

    /// Notes what was found where this was noted before, as it is judged, or that it is absent.
    #[inline(always)]
    fn note_seen(
        &mut self,
        path: &str,
        found: Option<Measure>,
        how: Judged,
        last: Option<Last>,
    ) -> Result<(), AllocError>
        ensures lines { OnOk result (SeenOf found how last path.now self.old.lines.items self.new.lines.items) }
        ensures grows { OnOk result (Grows self.old.lines.items self.new.lines.items) }
    {
        match found {
            Some(found) => self.note_found(path, found, how.kind, how.number),
            None => self.note_away(path, how.number, last),
        }
    }

    /// Notes what was found at the path under this number, as of this kind, if it is to be noted.
    #[tactic(auto, using(crate::proofs::Growing::grows_none))]
    #[inline(always)]
    fn note_found(
        &mut self,
        path: &str,
        found: Measure,
        kind: Kind,
        number: Option<u64>,
    ) -> Result<(), AllocError>
        ensures lines { OnOk result (LinesOf kind number path.now found self.old.lines.items self.new.lines.items) }
        ensures grows { OnOk result (Grows self.old.lines.items self.new.lines.items) }
    {
        let Some(number) = number else {
            return Ok(());
        };
        let Some(size) = found.size else {
            return Ok(());
        };
        self.push(
            path,
            Noted {
                kind,
                stamp: found.stamp,
                size,
                number,
            },
        )
    }

    /// Nothing was found where this was noted before: what comes back there is another than it was, also under its old stamp.
    #[inline(never)]
    fn note_away(
        &mut self,
        path: &str,
        number: Option<u64>,
        last: Option<Last>,
    ) -> Result<(), AllocError>
        ensures lines { OnOk result (AwayOf number last path.now self.old.lines.items self.new.lines.items) }
        ensures grows { OnOk result (Grows self.old.lines.items self.new.lines.items) }
    {
        match last {
            Some(last) => self.note_absence(path, last.noted, last.noted.kind),
            None => self.note_never(path, number),
        }
    }

    /// Nothing was found where nothing was noted before, which is noted of a source if there is a number for it.
    #[tactic(auto, using(crate::proofs::Growing::grows_none))]
    fn note_never(&mut self, path: &str, number: Option<u64>) -> Result<(), AllocError>
        ensures lines { OnOk result (NeverOf number path.now self.old.lines.items self.new.lines.items) }
        ensures grows { OnOk result (Grows self.old.lines.items self.new.lines.items) }
    {
        match number {
            Some(_) => self.push_absence(path, Kind::Source),
            None => Ok(()),
        }
    }

    /// Its command has left nothing at an output of which this was noted before: what somebody puts there is not what the command made.
    fn note_unmade(&mut self, output: &str, last: Option<Last>) -> Result<(), AllocError>
        ensures lines { OnOk result (UnmadeOf last output.now self.old.lines.items self.new.lines.items) }
        ensures grows { OnOk result (Grows self.old.lines.items self.new.lines.items) }
    {
        match last {
            Some(last) => self.note_absence(output, last.noted, Kind::Made),
            None => self.push_absence(output, Kind::Made),
        }
    }

    /// Notes that nothing is at the path, as of this kind, unless this is noted, which says so.
    #[tactic(auto, using(crate::proofs::Growing::noted_yes, crate::proofs::Growing::noted_not, crate::proofs::Growing::grows_none))]
    fn note_absence(&mut self, path: &str, noted: Noted, kind: Kind) -> Result<(), AllocError>
        ensures lines { OnOk result (AbsenceOf (is_absence noted) kind path.now self.old.lines.items self.new.lines.items) }
        ensures grows { OnOk result (Grows self.old.lines.items self.new.lines.items) }
    {
        if is_absence(noted) {
            return Ok(());
        }
        self.push_absence(path, kind)
    }

    /// A line that notes that nothing is at the path, as of this kind. No file looks so.
    fn push_absence(&mut self, path: &str, kind: Kind) -> Result<(), AllocError>
        ensures notes { OnOk result (Notes path.now (absence kind) self.old.lines.items self.new.lines.items) }
        ensures grows { OnOk result (Grows self.old.lines.items self.new.lines.items) }
    {
        self.push(
            path,
            Noted {
                kind,
                stamp: 0,
                size: NO_SIZE,
                number: 0,
            },
        )
    }

    /// A line that notes this of the path. Where memory is refused, a part of it may stand there.
    #[tactic(auto, using(crate::proofs::Growing::notes_grow))]
    #[inline(never)]
    fn push(&mut self, path: &str, noted: Noted) -> Result<(), AllocError>
        ensures notes { OnOk result (Notes path.now noted self.old.lines.items self.new.lines.items) }
        ensures grows { OnOk result (Grows self.old.lines.items self.new.lines.items) }
    {
        note_line(&mut self.lines, path, noted)
    }

    /// Whether the path, of which this was noted before, was noted or asked for in this build.
    #[inline(always)]
    pub fn is_settled(&self, path: &str, last: Option<Last>) -> bool
        ensures { result ≡ is_settled self.now path.now last }
    {
        match last {
            Some(last) => self.is_marked(last.place),
            None => self.is_fresh(path),
        }
    }

    /// Whether the path was noted in this build.
    #[inline(never)]
    fn is_fresh(&self, path: &str) -> bool
        ensures { result ≡ has self.now.fresh path.now }
    {
        self.fresh.number_of(path).is_some()
    }

    /// Whether what the record with this place notes was asked for.
    fn is_marked(&self, place: usize) -> bool
        ensures { result ≡ is_marked self.now.asked.items place }
    {
        match self.asked.get(place) {
            Some(it) => *it,
            None => false,
        }
    }

    /// The command that makes this output has ended well, and this is seen of it: that is noted as it counts, and what is absent is, too.
    pub fn end(&mut self, output: &str, looked: &Looked) -> Result<(), AllocError>
        ensures noted { OnOk result (LeftOf looked.now.found looked.now.counts looked.now.last output.now self.old.lines.items self.new.lines.items) }
        ensures grows { OnOk result (Grows self.old.lines.items self.new.lines.items) }
    {
        self.note_left(output, looked.found, looked.counts, looked.last)?;
        match looked.last {
            Some(last) => mark(&mut self.asked, last.place),
            None => add(self.alloc, &mut self.fresh, output, true),
        }
    }

    /// Notes what its command left at this output, of which this was noted before, and that counts under this stamp.
    fn note_left(
        &mut self,
        output: &str,
        found: Option<Measure>,
        counts: Option<u64>,
        last: Option<Last>,
    ) -> Result<(), AllocError>
        ensures lines { OnOk result (LeftOf found counts last output.now self.old.lines.items self.new.lines.items) }
        ensures grows { OnOk result (Grows self.old.lines.items self.new.lines.items) }
    {
        match found {
            Some(found) => {
                let number = left_number(counts, found.stamp);
                self.note_found(output, found, Kind::Made, number)
            }
            None => self.note_unmade(output, last),
        }
    }

    /// The lines were put behind the notes.
    pub fn let_go(&mut self)
        ensures { self.new.lines.items ≡ [] }
    {
        self.lines.clear();
    }
}

/// What the record with this place notes was asked for in this build.
fn mark(asked: &mut Vec<bool>, place: usize) -> Result<(), AllocError> {
    if place >= asked.len() {
        let count = asked.len().saturating_mul(2).max(place.saturating_add(1));
        asked.resize(count, false)?;
    }
    if place < asked.len() {
        asked[place] = true;
    }
    Ok(())
}

/// The path was noted in this build, if it was.
#[inline(never)]
fn add(alloc: Global, fresh: &mut Paths, path: &str, is_noted: bool) -> Result<(), AllocError> {
    if is_noted {
        fresh.add(alloc, path)?;
    }
    Ok(())
}

/// Whether it is noted that nothing is there.
fn is_absence(noted: Noted) -> bool
    ensures { result ≡ is_absence noted }
{
    noted.size == NO_SIZE
}
