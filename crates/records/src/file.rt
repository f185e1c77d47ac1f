//! The file of a log, and what it told when it was read.

ghost use Rattle.std.specs.Prelude.{◌≡◌, ◌<◌, ◌≤◌, ◌↔◌, ◌^◌, IfOk, OnOk, OnErr, IsFalse, false, string_bytes, length};
ghost use Rattle.model.specs.Calls.{OnlyLooks, HasCause};
ghost use Rattle.paths.specs.Told.{text_at};
ghost use Rattle.log_text.specs.Keeping.{OfKept, at_number};
ghost use Rattle.log_text.specs.Pieces.{ReadsSome};
ghost use Rattle.theory.specs.Writes.{WritesAt};
ghost use Rattle.records.specs.Edges.{paths_in};
ghost use Rattle.records.specs.Held.{WasReadSo, ArePlaces, AreMadeBehind, StaysWithin, Fills, GrowsTo, IsLonger, IsSameLog, IsKeptOrWrittenAnew, MayTellMore, IsJudged, OfHeld, OfText, IsStateBy};
ghost use Rattle.records.specs.Carried.{CarriesOn, CarriesLine, ChangesSo, PutsSo, TellsAlso};

use graph::Graph;
use log_text::{Pieces, Records, Stock, Tail, front_of_lines, line_grows_log, one_reading};
use model::SiteFault;
use paths::PathId;
use site::Site;
use std::alloc::{AllocError, Global};
use std::marker::Model;

/// What may be done with the file of a log.
#[derive(Clone, Copy, Debug, PartialEq, Eq)]
pub enum State {
    /// It is a log of version 2, to which a line may be appended.
    Usable,
    /// It is to be replaced before something is appended: it is absent, empty, torn, damaged or of version 1, or it wants
    /// compaction.
    Stale,
}

/// The file of a log. In memory stands what it told when it was read.
#[derive(Drop)]
pub struct LogFile<L> {
    path: String,
    log: L,
    state: State,
}

impl<L> Model for LogFile<L> {
    ghost use Rattle.std.specs.Prelude.{string_bytes};
    ghost use Rattle.records.specs.Held.{Held};

    ghost Value = { Held L };

    ghost view = { λ file. record { path = string_bytes file.path; log = file.log; state = file.state } };
}

impl<L: Records> LogFile<L> {
    /// Reads the log, piece by piece, with what may be taken over from the stock. It only looks; a text that is torn, damaged or of version 1
    /// is no fault.
    pub(crate) fn read<S: Site>(
        stock: &Stock<'_>,
        site: &mut S,
        path: String,
    ) -> Result<LogFile<L>, SiteFault>
        requires running { (S.world site.old).stopped ≡ false }
        ensures looks { OnlyLooks S.tells (S.world site.old) (S.world site.new) }
        ensures cause { HasCause (S.world site.old) (S.world site.new) result }
        ensures path { IfOk result (λ file. file.path ≡ string_bytes path) }
        ensures read { IfOk result (WasReadSo L.forms L.Keeps L.compaction S.tells (S.world site.old) (S.world site.new)) }
    {
        let mut pieces = Pieces::<L>::new(*stock);
        site.read_into(path.as_str(), &mut pieces)?;
        let (log, state) = log_of::<L>(pieces);
        Ok(LogFile { path, log, state })
    }

    /// For each path of the graph the number of the record in force; none at all, and no memory, where the log has no records.
    pub(crate) fn places(
        &self,
        alloc: Global,
        graph: &Graph,
    ) -> Result<Vec<Option<usize>>, AllocError>
        ensures fits { IfOk result (λ places. length places.items ≤ length (paths_in graph.now)) }
        ensures made { IfOk result (λ places. OfKept L.Keeps self.now.log (λ rs. ArePlaces L.told L.in_force rs (paths_in graph.now) places.items)) }
    {
        let mut places = Vec::new(alloc);
        self.look_up(graph, &mut places)?;
        Ok(places)
    }

    /// Puts the numbers of the records in force for the paths of the graph that have no place yet behind those of the others. Where
    /// the log has no records, that is none, and takes no memory. Where memory is refused, some of them may stand there.
    pub(crate) fn look_up(
        &self,
        graph: &Graph,
        places: &mut Vec<Option<usize>>,
    ) -> Result<(), AllocError>
        ensures longer { IsLonger places.old.items places.new.items }
        ensures fits { OnOk result (StaysWithin (paths_in graph.now) places.old.items places.new.items) }
        ensures made { OnOk result (GrowsTo (ArePlaces L.told L.in_force) L.Keeps self.now.log (paths_in graph.now) places.old.items places.new.items) }
    {
        L::keeps_in_force();
        if self.log.records() == 0 {
            return Ok(());
        }
        self.look_up_each(graph, places)?;
        Ok(())
    }

    /// The same where the log has records, one path after the other.
    fn look_up_each(&self, graph: &Graph, places: &mut Vec<Option<usize>>) -> Result<(), AllocError>
        ensures longer { IsLonger places.old.items places.new.items }
        ensures fits { OnOk result (Fills (paths_in graph.now) places.old.items places.new.items) }
        ensures made { OnOk result (OfKept L.Keeps self.now.log (λ rs. AreMadeBehind L.told L.in_force places.old.items rs (paths_in graph.now) places.new.items)) }
    {
        let count = graph.manifest.paths.len();
        places.reserve(count.saturating_sub(places.len()))?;
        for place in places.len()..count {
            places.push(self.place_at(graph, place))?;
        }
        Ok(())
    }

    /// The number of the record in force for the path with this place.
    fn place_at(&self, graph: &Graph, place: usize) -> Option<usize>
        requires within { place < length (paths_in graph.now) }
        requires small { place < 2 ^ 32 }
        ensures { OfKept L.Keeps self.now.log (λ rs. at_number (L.told rs) result ≡ L.in_force rs (text_at (paths_in graph.now) place)) }
    {
        let path = PathId::at(place)?;
        self.log.find(graph.text(path))
    }

    /// What the log told when it was read.
    pub fn log(&self) -> &L
        ensures { result.now ≡ self.now.log }
    {
        &self.log
    }

    /// Puts the line of a record behind the log, which is made usable first. Where it fails, a beginning of the line may
    /// stand there.
    pub(crate) fn append<S: Site>(
        &mut self,
        alloc: Global,
        site: &mut S,
        line: &[u8],
    ) -> Result<(), SiteFault>
        requires running { (S.world site.old).stopped ≡ false }
        ensures cause { HasCause (S.world site.old) (S.world site.new) result }
        ensures writes { WritesAt S.tells self.old.path (S.world site.old) (S.world site.new) }
        ensures same { IsSameLog self.old self.new }
        ensures carried { OnOk result (CarriesLine L.forms L.Keeps S.tells line.now (S.world site.old, self.old) (S.world site.new, self.new)) }
        ensures ok { OnOk result (PutsSo L.forms L.Keeps S.tells line.now (TellsAlso L.forms L.in_force) (S.world site.old, self.old) (S.world site.new)) }
        ensures err { OnErr result (PutsSo L.forms L.Keeps S.tells line.now (MayTellMore L.forms L.in_force) (S.world site.old, self.old) (S.world site.new)) }
    {
        line_grows_log::<L>();
        front_of_lines::<L>();
        one_reading::<L>();
        self.make_usable(alloc, site)?;
        site.append(self.path.as_str(), line)?;
        Ok(())
    }

    /// Replaces a log that is not usable by the records in force of what was read.
    fn make_usable<S: Site>(&mut self, alloc: Global, site: &mut S) -> Result<(), SiteFault>
        requires running { (S.world site.old).stopped ≡ false }
        ensures cause { HasCause (S.world site.old) (S.world site.new) result }
        ensures writes { WritesAt S.tells self.old.path (S.world site.old) (S.world site.new) }
        ensures same { IsSameLog self.old self.new }
        ensures usable { OnOk result (self.new.state ≡ State.Usable) }
        ensures carried { OnOk result (CarriesOn L.forms L.Keeps S.tells (S.world site.old, self.old) (S.world site.new, self.new)) }
        ensures anew { ChangesSo L.forms L.Keeps S.tells (IsKeptOrWrittenAnew L.forms L.in_force) (S.world site.old, self.old) (S.world site.new) }
    {
        match self.state {
            State::Usable => Ok(()),
            State::Stale => self.replace(alloc, site),
        }
    }

    /// Replaces the log by the records in force of what was read.
    fn replace<S: Site>(&mut self, alloc: Global, site: &mut S) -> Result<(), SiteFault>
        requires running { (S.world site.old).stopped ≡ false }
        requires stale { self.old.state ≡ State.Stale }
        ensures cause { HasCause (S.world site.old) (S.world site.new) result }
        ensures writes { WritesAt S.tells self.old.path (S.world site.old) (S.world site.new) }
        ensures same { IsSameLog self.old self.new }
        ensures usable { OnOk result (self.new.state ≡ State.Usable) }
        ensures carried { OnOk result (CarriesOn L.forms L.Keeps S.tells (S.world site.old, self.old) (S.world site.new, self.new)) }
        ensures anew { ChangesSo L.forms L.Keeps S.tells (IsKeptOrWrittenAnew L.forms L.in_force) (S.world site.old, self.old) (S.world site.new) }
    {
        L::keeps_in_force();
        let text = self.log.compacted(alloc)?;
        site.replace(self.path.as_str(), text.as_slice())?;
        self.state = State::Usable;
        Ok(())
    }
}

/// What the text that was read tells, and what may be done with its file. One that is absent is as one that is empty.
fn log_of<L: Records>(pieces: Pieces<'_, L>) -> (L, State)
    requires { ReadsSome L.forms L.Keeps pieces }
    ensures { OfHeld L.forms L.Keeps pieces.entry (λ held. IsJudged L.forms L.Keeps L.compaction held result.0 result.1) }
{
    let is_empty = pieces.is_empty();
    let (log, tail) = pieces.finish();
    let state = state_of::<L>(is_empty, &log, tail);
    (log, state)
}

/// What may be done with a file whose text tells the log and ends so. It is handed in whether the text is empty.
fn state_of<L: Records>(is_empty: bool, log: &L, tail: Tail) -> State
    ensures { OfText is_empty (IsStateBy L.forms L.Keeps L.compaction tail log.now result) }
{
    one_reading::<L>();
    if is_empty || is_other(tail) || log.wants_compaction() {
        State::Stale
    } else {
        State::Usable
    }
}

/// Whether a text that ends so is anything but whole lines of version 2.
fn is_other(tail: Tail) -> bool
    ensures { IsFalse result ↔ (tail ≡ Tail.Whole) }
{
    !matches!(tail, Tail::Whole)
}
