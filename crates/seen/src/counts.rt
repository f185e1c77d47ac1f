//! By what files count in a build.

ghost use Rattle.std.specs.Prelude.{◌≡◌};

use crate::answer::{Looked, already, noted_in, placed_by, stamp_told};
use crate::judging::{Judged, Past, judge};
use crate::makers::Makers;
use crate::own::Own;
use crate::starts::note_start;
use log_text::Records;
use measure::Measure;
use paths::Paths;
use seen_log::{Last, Log};
use std::alloc::{AllocError, Global};

/// By what files count: what is known when a build begins, and which commands were started since.
#[derive(Drop)]
pub struct Counts {
    /// What was noted of each path.
    pub notes: Log,
    /// What commands make, by the build file.
    pub makers: Makers,
    /// The program's own files.
    pub own: Own,
    /// What somebody else wrote before the build counts under this number at least.
    pub number: u64,
    /// What commands have made or are about to make, by the records of this build.
    pub made: Paths,
    /// Under which stamp the command of each edge was started.
    pub starts: Vec<Option<u64>>,
    /// The first of these stamps.
    pub first_start: Option<u64>,
}

impl Counts {
    ghost use Rattle.std.specs.Prelude.{◌≡◌, false, IfOk};
    ghost use Rattle.model.specs.Graph.{has};
    ghost use Rattle.seen_log.specs.Keeping.{last_of};
    ghost use Rattle.seen.specs.Answered.{counted_by};
    ghost use Rattle.seen.specs.Beginning.{started_by};
    ghost use Rattle.seen.specs.Entering.{IsUnbegun};
    ghost use Rattle.seen.specs.Looking.{KnowsSame, MayWrite, NotesStart, looked_at, looked_by, looked_there};

    /// Where nothing is known. This takes no memory.
    pub fn none(alloc: Global) -> Counts
        ensures { IsUnbegun result }
    {
        Counts {
            notes: Log::new(alloc),
            makers: Makers::new(alloc),
            own: Own::none(alloc),
            number: 0,
            made: Paths::new(alloc),
            starts: Vec::new(alloc),
            first_start: None,
        }
    }

    /// How what was found at the path counts, once a build has begun; before, it counts as it is.
    #[inline(always)]
    pub fn look_by(
        &mut self,
        is_begun: bool,
        path: &str,
        found: Option<Measure>,
    ) -> Result<Looked, AllocError>
        ensures looked { IfOk result (λ looked. looked ≡ looked_by is_begun self.old path.now found) }
        ensures same { KnowsSame self.old self.new }
    {
        if is_begun {
            self.look_at(path, found)
        } else {
            Ok(Looked::own(found))
        }
    }

    /// How what was found at the path counts.
    #[inline(always)]
    fn look_at(&mut self, path: &str, found: Option<Measure>) -> Result<Looked, AllocError>
        ensures looked { IfOk result (λ looked. looked ≡ looked_at self.old path.now found) }
        ensures same { KnowsSame self.old self.new }
    {
        if self.own.has(path) {
            return Ok(Looked::own(found));
        }
        self.look_there(path, found)
    }

    /// The same, of a path that is none of the program's own. Of what is as noted nothing else is asked: so a path is looked up once, and no
    /// output is where nothing changed.
    #[inline(always)]
    fn look_there(&mut self, path: &str, found: Option<Measure>) -> Result<Looked, AllocError>
        ensures looked { IfOk result (λ looked. looked ≡ looked_there self.old path.now found) }
        ensures same { KnowsSame self.old self.new }
    {
        let last = self.notes.last(path);
        match already(noted_in(last), found) {
            Some(how) => Ok(Looked {
                counts: how.counts,
                found,
                last,
                how,
            }),
            None => self.look_further(path, last, found),
        }
    }

    /// The same, where that does not tell it.
    #[inline(never)]
    fn look_further(
        &mut self,
        path: &str,
        last: Option<Last>,
        found: Option<Measure>,
    ) -> Result<Looked, AllocError>
        requires { last ≡ last_of self.old.notes path.now }
        ensures looked { IfOk result (λ looked. looked ≡ looked_there self.old path.now found) }
        ensures same { KnowsSame self.old self.new }
    {
        let maker = self.makers.maker(path)?;
        let past = Past {
            noted: noted_in(last),
            is_output: maker.is_some(),
            since: self.first_start,
        };
        let how = judge(past, self.number, placed_by(self.is_made(path), found));
        let counts = self.counted(how, maker, found)?;
        Ok(Looked {
            counts,
            found,
            last,
            how,
        })
    }

    /// The stamp that counts for what was found, which is judged so, and which this edge makes.
    fn counted(
        &self,
        how: Judged,
        maker: Option<usize>,
        found: Option<Measure>,
    ) -> Result<Option<u64>, AllocError>
        ensures { IfOk result (λ counts. counts ≡ counted_by how (started_by self.now.starts.items maker) found) }
    {
        match found {
            Some(Measure { stamp, .. }) => stamp_told(how.counts, self.started(maker), stamp),
            None => Ok(None),
        }
    }

    /// Under which stamp the command of this edge was started.
    fn started(&self, maker: Option<usize>) -> Option<u64>
        ensures { result ≡ started_by self.now.starts.items maker }
    {
        match maker {
            Some(job) => self.starts.get(job).copied().flatten(),
            None => None,
        }
    }

    /// Whether a command of this build has made the path, or is about to.
    pub fn is_made(&self, path: &str) -> bool
        ensures { result ≡ has self.now.made path.now }
    {
        self.made.number_of(path).is_some()
    }

    /// Whether the path is that of the notes, or a command makes it, or there was no memory to tell it; but none other of the program's own.
    pub fn is_barred(&mut self, path: &str) -> bool
        ensures may { result ≡ false → MayWrite self.old path.now }
        ensures same { KnowsSame self.old self.new }
    {
        if self.own.is_seen(path) {
            return true;
        }
        if self.own.has(path) {
            return false;
        }
        match self.makers.maker(path) {
            Ok(None) => false,
            Ok(Some(_)) | Err(_) => true,
        }
    }

    /// The command of this edge was started under this stamp, if there is one.
    pub fn start(&mut self, job: usize, start: Option<u64>)
        ensures { NotesStart job start self.old self.new }
    {
        note_start(&mut self.starts, job, start);
        if self.first_start.is_none() {
            self.first_start = start;
        }
    }
}
