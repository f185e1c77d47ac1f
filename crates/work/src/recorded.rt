//! Recorded inputs, which commands of earlier builds told in their depfiles (manual: "Depfile").

ghost use Rattle.std.specs.Prelude.{◌≡◌, ◌<◌, [], true, None, IfOk, OnOk, OnErr, length, get_or};
ghost use Rattle.graph.specs.Links.{links_of};
ghost use Rattle.graph.specs.LoadedEdges.{numbers_in};
ghost use Rattle.work.specs.Recorded.{IsKnownBy, AreKnownBy, JoinsAll, JoinsEdge, StayNumbered, AddsNamed, PutsNamed, StayNumberedBy, IsNumberBy, HasMorePaths, HasOnlyMorePaths, HasGrownAt, Joins, AreNumbered, IsNumberedToo, IsShared, deps_place, texts_of, KnowsSome, AreEdgesIn, KeepsOtherEdges, AddsLogged, AddsText, TellsUse, NumbersStay};

use graph::{Graph, LoadedEdge, PathSet};
use log_text::Deps;
use model::Act;
use paths::{Action, EdgeId, PathId};
use records::Records;
use std::alloc::{AllocError, Global};

/// Records in the graph the recorded inputs that are in use, of each edge. Paths that no build line names get numbers.
pub fn join_recorded(alloc: Global, graph: &mut Graph, records: &Records) -> Result<(), AllocError>
    requires known { KnowsSome graph.old records.now }
    ensures { OnOk result (JoinsAll graph.old graph.new records.now) }
{
    let named = times_named(alloc, graph, records)?;
    graph.reserve_inputs(sum(&named))?;
    let mut numbers = Numbers::counted(alloc, named);
    for place in 0..graph.edges() {
        let edge = graph.manifest.edge(place);
        numbers.join_edge(graph, records, edge)?;
    }
    Ok(())
}

/// The same of these edges alone, whose dyndep file was loaded. Where memory is refused, some of them may have got theirs.
pub fn join_loaded(
    alloc: Global,
    graph: &mut Graph,
    records: &Records,
    edges: &[LoadedEdge],
) -> Result<(), AllocError>
    requires edges { AreEdgesIn graph.old (numbers_in edges.now) }
    requires known { KnowsSome graph.old records.now }
    ensures grown { HasGrownAt (numbers_in edges.now) graph.old graph.new }
    ensures joined { OnOk result (Joins (numbers_in edges.now) graph.old graph.new records.now) }
{
    let mut numbers = Numbers::new(alloc);
    for loaded in edges {
        numbers.join_edge(graph, records, loaded.edge)?;
    }
    Ok(())
}

/// How often the deps records name each path of the deps log that are in force for what edges make.
fn times_named(alloc: Global, graph: &Graph, records: &Records) -> Result<Vec<u32>, AllocError> {
    let mut named = Vec::new(alloc);
    for place in 0..graph.edges() {
        let edge = graph.manifest.edge(place);
        count_outputs(records, graph.outputs(edge), &mut named)?;
    }
    Ok(named)
}

/// Counts the paths once more each that the deps records in force for these outputs name. A record is counted once for outputs one behind
/// another, as it joins an edge once for them.
fn count_outputs(
    records: &Records,
    outputs: &[PathId],
    named: &mut Vec<u32>,
) -> Result<(), AllocError> {
    let mut before = None;
    for output in outputs {
        let place = place_of(records, *output);
        if place != before {
            count_output(records, *output, named)?;
        }
        before = place;
    }
    Ok(())
}

/// Counts the paths once more each that the deps record in force for the output names, if there is one.
fn count_output(records: &Records, output: PathId, named: &mut Vec<u32>) -> Result<(), AllocError> {
    if let Some(deps) = records.deps(output) {
        count_named(deps.paths.as_slice(), named)?;
    }
    Ok(())
}

/// Counts these paths once more each.
fn count_named(paths: &[u32], named: &mut Vec<u32>) -> Result<(), AllocError> {
    for path in paths {
        let place = *path as usize;
        if place >= named.len() {
            let twice = named.len().saturating_mul(2);
            named.resize(twice.max(place.saturating_add(1)), 0)?;
        }
        if let Some(times) = named.get_mut(place) {
            *times = times.saturating_add(1);
        }
    }
    Ok(())
}

/// How many these are in all.
fn sum(counts: &[u32]) -> usize {
    let mut sum = 0usize;
    for count in counts {
        sum = sum.saturating_add(*count as usize);
    }
    sum
}

/// The numbers that the graph has for paths of the deps log, as far as they are known.
#[derive(Drop)]
pub struct Numbers {
    alloc: Global,
    known: Vec<Option<PathId>>,
    /// How often records name each path of the deps log, where that was counted.
    named: Vec<u32>,
}

impl Numbers {
    /// None is known yet.
    fn new(alloc: Global) -> Numbers
        ensures { result.known.items ≡ [] }
    {
        Numbers::counted(alloc, Vec::new(alloc))
    }

    /// None is known yet, and each path of the deps log is named so often.
    fn counted(alloc: Global, named: Vec<u32>) -> Numbers
        ensures { result.known.items ≡ [] }
    {
        Numbers {
            alloc,
            known: Vec::new(alloc),
            named,
        }
    }

    /// How often records name a path of the deps log, as far as that was counted.
    fn times(&self, path: usize) -> usize {
        match self.named.get(path) {
            Some(times) => *times as usize,
            None => 0,
        }
    }

    /// Records in the graph the recorded inputs of the edge, where they are in use.
    fn join_edge(
        &mut self,
        graph: &mut Graph,
        records: &Records,
        edge: EdgeId,
    ) -> Result<(), AllocError>
        requires edge { edge < length graph.old.manifest.lines }
        requires known { KnowsSome graph.old records.now }
        requires numbered { AreNumbered graph.old (texts_of records.now) self.old.known.items }
        ensures grown { HasMorePaths graph.old graph.new }
        ensures numbered { OnOk result (AreNumbered graph.new (texts_of records.now) self.new.known.items) }
        ensures joined { OnOk result (JoinsEdge graph.old graph.new records.now edge) }
        ensures others { KeepsOtherEdges edge graph.old graph.new }
    {
        if !is_in_use(graph, records, edge) {
            return Ok(());
        }
        let mut inputs = graph.lend_set(self.alloc);
        self.put_inputs(graph, records, &mut inputs, edge)?;
        graph.add_set(self.alloc, edge, inputs)?;
        Ok(())
    }

    /// Puts the numbers of the recorded inputs of an edge into the set. What several outputs share is put in once.
    fn put_inputs(
        &mut self,
        graph: &mut Graph,
        records: &Records,
        inputs: &mut PathSet,
        edge: EdgeId,
    ) -> Result<(), AllocError>
        requires edge { edge < length graph.old.manifest.lines }
        requires empty { inputs.old ≡ [] }
        ensures grown { HasOnlyMorePaths graph.old graph.new }
        ensures numbered { StayNumbered graph.old graph.new records.now self.old self.new }
        ensures inputs { OnOk result (PutsNamed graph.old graph.new records.now self.old inputs.new edge) }
    {
        for place in 0..graph.outputs(edge).len() {
            self.push_inputs_at(graph, records, inputs, edge, place)?;
        }
        Ok(())
    }

    /// Adds the numbers of the paths that the record of the output at this place names, unless it is that of the output before it.
    fn push_inputs_at(
        &mut self,
        graph: &mut Graph,
        records: &Records,
        inputs: &mut PathSet,
        edge: EdgeId,
        place: usize,
    ) -> Result<(), AllocError>
        requires edge { edge < length graph.old.manifest.lines }
        requires place { place < length ((links_of graph.old).outputs edge) }
        ensures grown { HasOnlyMorePaths graph.old graph.new }
        ensures numbered { StayNumbered graph.old graph.new records.now self.old self.new }
        ensures inputs { OnOk result (AddsNamed graph.old graph.new records.now self.old inputs.old inputs.new edge place) }
    {
        if is_shared(graph, records, edge, place) {
            return Ok(());
        }
        let output = graph.outputs(edge)[place];
        let Some(deps) = records.deps(output) else {
            return Ok(());
        };
        self.push_inputs(graph, records, inputs, deps)?;
        Ok(())
    }

    /// Adds the numbers of the paths that a deps record names.
    #[inline(never)]
    fn push_inputs(
        &mut self,
        graph: &mut Graph,
        records: &Records,
        inputs: &mut PathSet,
        deps: &Deps,
    ) -> Result<(), AllocError>
        ensures grown { HasOnlyMorePaths graph.old graph.new }
        ensures numbered { StayNumbered graph.old graph.new records.now self.old self.new }
        ensures inputs { OnOk result (AddsLogged graph.old graph.new records.now self.old inputs.old inputs.new deps.now) }
    {
        for path in deps.paths.as_slice() {
            self.push_input(graph, records, inputs, *path)?;
        }
        Ok(())
    }

    /// Adds the number of a path of the deps log.
    fn push_input(
        &mut self,
        graph: &mut Graph,
        records: &Records,
        inputs: &mut PathSet,
        path: u32,
    ) -> Result<(), AllocError>
        ensures grown { HasOnlyMorePaths graph.old graph.new }
        ensures numbered { StayNumbered graph.old graph.new records.now self.old self.new }
        ensures inputs { OnOk result (AddsText graph.old graph.new records.now self.old inputs.old inputs.new path) }
    {
        if let Some(number) = number_at(&self.known, path as usize) {
            inputs.insert(number)?;
            return Ok(());
        }
        let Some(text) = records.deps_path(path) else {
            return Ok(());
        };
        let number = self.number_of(graph, path as usize, text)?;
        inputs.insert(number)?;
        Ok(())
    }

    /// The number that the graph has for a path of the deps log, which is looked up by its text once.
    #[inline(never)]
    fn number_of(
        &mut self,
        graph: &mut Graph,
        path: usize,
        text: &str,
    ) -> Result<PathId, AllocError>
        ensures grown { HasOnlyMorePaths graph.old graph.new }
        ensures numbered { StayNumberedBy graph.old graph.new path text.now self.old self.new }
        ensures number { IfOk result (IsNumberBy graph.old graph.new path text.now self.old) }
    {
        if let Some(number) = number_at(&self.known, path) {
            return Ok(number);
        }
        let number = graph.add_named(self.alloc, text, self.times(path))?;
        note_number(&mut self.known, path, number)?;
        Ok(number)
    }
}

/// Whether the recorded inputs of the edge are in use: each output has a record of the present act, and a deps record of the same
/// start. Those of an edge with a dyndep file are not.
fn is_in_use(graph: &Graph, records: &Records, edge: EdgeId) -> bool
    requires { edge < length graph.now.manifest.lines }
    ensures { TellsUse graph.now records.now edge result }
{
    match graph.manifest.action(edge) {
        Action::Alias => false,
        Action::Command(command) => {
            command.dyndep.is_none() && are_known(records, &command.act, graph.outputs(edge))
        }
    }
}

/// Whether each of these outputs is known to be of this act, with what the command told that made it.
fn are_known(records: &Records, act: &Act, outputs: &[PathId]) -> bool
    ensures { AreKnownBy act.now outputs.now records.now result }
{
    for output in outputs {
        if !is_known(records, act, *output) {
            return false;
        }
    }
    true
}

/// Whether the output is known to be of this act, with what the command told that made it.
fn is_known(records: &Records, act: &Act, output: PathId) -> bool
    ensures { IsKnownBy act.now output records.now result }
{
    match (records.deps(output), records.made(output)) {
        (Some(deps), Some(done)) => deps.start == done.start && done.act == *act,
        _ => false,
    }
}

/// Whether the output at this place has the deps record of the one before it.
fn is_shared(graph: &Graph, records: &Records, edge: EdgeId, place: usize) -> bool
    requires edge { edge < length graph.now.manifest.lines }
    requires place { place < length ((links_of graph.now).outputs edge) }
    ensures { result ≡ true → IsShared records.now ((links_of graph.now).outputs edge) place }
{
    let outputs = graph.outputs(edge);
    place > 0 && place_of(records, outputs[place - 1]) == place_of(records, outputs[place])
}

/// The number of the deps record in force for the path.
fn place_of(records: &Records, path: PathId) -> Option<usize>
    ensures { result ≡ deps_place records.now path }
{
    records.deps_places.get(path.index()).copied().flatten()
}

/// The number of a path of the deps log, if it is known.
fn number_at(numbers: &[Option<PathId>], path: usize) -> Option<PathId>
    ensures { result ≡ get_or numbers.now path None }
{
    numbers.get(path).copied().flatten()
}

/// Notes the number of a path of the deps log.
fn note_number(
    numbers: &mut Vec<Option<PathId>>,
    path: usize,
    number: PathId,
) -> Result<(), AllocError>
    ensures ok { OnOk result (IsNumberedToo path number numbers.old.items numbers.new.items) }
    ensures err { OnErr result (NumbersStay numbers.old.items numbers.new.items) }
{
    while numbers.len() <= path {
        numbers.push(None)?;
    }
    numbers[path] = Some(number);
    Ok(())
}
