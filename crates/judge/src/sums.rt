//! What was found of edges by what was seen: what the inputs of phony edges come to, and whether commands have to run.

ghost use Rattle.std.specs.Prelude.{◌≡◌, ◌&&◌, not, true, false, IfOk, OnErr};
ghost use Rattle.indexmap.specs.IndexMap.{IsEmpty, IsUnchanged};
ghost use Rattle.model.specs.Graph.{has_number};
ghost use Rattle.judge.specs.Answers.{KnowsNone};
ghost use Rattle.judge.specs.Lasting.{AreAnyMarked, LeavesLasting, StayMarkedWith, MarksIf, KeepsMarks};
ghost use Rattle.judge.specs.Summed.{AreAnySums, GivesSum, StaySummedWith};

use crate::answers::Answers;
use crate::input_facts::Inputs;
use indexmap::IndexMap;
use paths::EdgeId;
use std::alloc::{AllocError, Global};

/// Room for so many sums goes only where none is left.
const LITTLE: usize = 64;

/// What the inputs that phony edges read come to, so that many edges that read through one do not look at each of them again. It is
/// right as long as what was seen of files is not forgotten, no path is made anew and the graph stays. At the end of a command that
/// happens only to paths that commands make, so just the sums of such paths are forgotten then. What was found of commands is kept beside
/// them, and stays where sums go but do not end.
#[derive(Drop)]
pub struct Sums {
    alloc: Global,
    pub by_edge: IndexMap<EdgeId, Inputs>,
    /// Those of these edges that read what a command makes: an end of a command can change what they come to.
    passing: Vec<EdgeId>,
    /// What was found of commands that were not judged, as if nothing was made anew.
    pub answers: Answers,
}

impl Sums {
    /// Nothing is known.
    pub fn new(alloc: Global) -> Result<Sums, AllocError>
        ensures summed { IfOk result AreAnySums }
        ensures marked { IfOk result AreAnyMarked }
        ensures answers { IfOk result (λ sums. KnowsNone sums.answers) }
        ensures dues { IfOk result (λ sums. sums.answers.dues.known ≡ false) }
    {
        let answers = Answers::new(alloc)?;
        Ok(Sums {
            alloc,
            by_edge: IndexMap::new(alloc),
            passing: Vec::new(alloc),
            answers,
        })
    }

    /// With what memory is taken.
    pub(crate) fn alloc(&self) -> Global {
        self.alloc
    }

    /// Forgets all sums, and their memory. What was found of commands stays.
    pub fn clear(&mut self)
        ensures summed { AreAnySums self.new }
        ensures marked { AreAnyMarked self.new }
        ensures empty { IsEmpty self.new.by_edge }
        ensures answers { self.new.answers ≡ self.old.answers }
    {
        self.by_edge = IndexMap::new(self.alloc);
        self.passing = Vec::new(self.alloc);
    }

    /// Forgets what was made of paths that commands make, as is needed where one has ended, and all that was found of commands. It
    /// takes a step for each sum that it forgets. Where none is left, all memory goes. Where those that are left fill less than a
    /// quarter of the room, all but room for twice as many goes, unless it is little; those are moved then, in a step for each, fewer
    /// than the sums that were noted while the room grew. Nothing fails: where a smaller block is refused, the larger one stays.
    pub fn forget_made(&mut self)
        ensures lasting { LeavesLasting self.old self.new }
        ensures answers { KnowsNone self.new.answers }
        ensures dues { self.new.answers.dues.known ≡ false }
    {
        let room = self.by_edge.capacity();
        while let Some(edge) = self.passing.pop() {
            self.by_edge.swap_remove(&edge);
        }
        self.give_back(room);
        self.answers.forget_all();
    }

    /// Gives room back: all where no sum is left, and where less than a quarter of it is used, all but for twice as many sums.
    /// `room` is how much there was before sums were taken out: a map counts less of it afterwards.
    fn give_back(&mut self, room: usize)
        ensures kept { IsUnchanged self.old.by_edge self.new.by_edge }
    {
        let left = self.by_edge.len();
        if left == 0 {
            self.clear();
        } else if room > LITTLE && left < room / 4 {
            self.by_edge.shrink_to(2 * left);
            self.passing.shrink_to_fit();
        }
    }

    /// What the phony edge reads comes to, where that is known.
    pub(crate) fn get(&self, edge: EdgeId) -> Option<Inputs>
        ensures { GivesSum edge self.now result }
    {
        self.by_edge.get(&edge).copied()
    }

    /// Notes what the phony edge reads comes to, and whether that lasts. One that does not is noted only where there is room to
    /// say so. Where the sum is refused, nothing is said either.
    pub(crate) fn note(
        &mut self,
        edge: EdgeId,
        inputs: Inputs,
        lasts: bool,
    ) -> Result<(), AllocError>
        ensures summed { StaySummedWith edge inputs self.old self.new }
        ensures marked { StayMarkedWith lasts edge inputs self.old self.new }
        ensures refused { OnErr result (self.new.passing.items ≡ self.old.passing.items) }
        ensures answers { self.new.answers ≡ self.old.answers }
    {
        let marks = self.passing.len();
        if !self.mark(edge, lasts) {
            return Ok(());
        }
        if let Err(refused) = self.by_edge.insert(edge, inputs) {
            self.passing.truncate(marks);
            return Err(refused.into());
        }
        Ok(())
    }

    /// Marks the edge as one whose sum does not last, where it does not. Says whether there was room for that.
    fn mark(&mut self, edge: EdgeId, lasts: bool) -> bool
        ensures by_edge { self.new.by_edge ≡ self.old.by_edge }
        ensures pushed { MarksIf (result && not lasts) edge self.old self.new }
        ensures others { KeepsMarks self.old self.new }
        ensures marked { result ≡ true → lasts ≡ false → has_number self.new.passing.items edge ≡ true }
        ensures answers { self.new.answers ≡ self.old.answers }
    {
        lasts || self.passing.push(edge).is_ok()
    }
}
