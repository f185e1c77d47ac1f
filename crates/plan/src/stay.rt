//! A plan goes on in place over a graph of which few edges have grown.

ghost use Rattle.std.specs.Prelude.{◌≡◌, ◌⊎◌, ◌<◌, ◌≤◌, ◌+◌, ◌==◌, ◌&&◌, ◌++◌, ◌∷◌, [], ℕ, true, not, length, vec_len, vec_capacity, take, drop, slice_set, IfOk, IfSome, IfNone};
ghost use Rattle.graph.specs.Cone.{is_listed};
ghost use Rattle.plan.specs.Standing.{is_outside, is_unjudged};
ghost use Rattle.plan.specs.Flags.{has};
ghost use Rattle.plan.specs.Staying.{without, AreOnce, AreInside, AreThereBehind, IsCopyWithRoom};

use crate::coming::is_any_there;
use crate::first::{is_source, missing_inputs};
use crate::lowest::Lowest;
use crate::plan::Plan;
use crate::step::Standing;
use graph::{Before, Cone, Graph, LoadedEdge, Mark, files_stand};
use paths::{EdgeId, PathId};
use std::alloc::{AllocError, Global};

impl Plan {
    ghost use Rattle.std.specs.Prelude.{◌≡◌, ◌<◌, ℕ, true, length, vec_len, OnOk, OnErr};
    ghost use Rattle.plan.specs.Flags.{has};
    ghost use Rattle.graph.specs.declared.graph.Graph.{Graph as GraphOf};
    ghost use Rattle.plan.specs.Planned.{IsPlanOver};
    ghost use Rattle.plan.specs.Staying.{MayGoOnBy, GoesOnAfter, GoesOnInside, MayBeCounted, MayCount, AreEdgesIn, AreInside, HasCounted, HasCountedOne, SetsLeft, OnlyCounts};

    /// As `extend`, of the load that this undoes. Where the cone has the edges that it had, for which each edge is looked at once, it does
    /// what `extend_inside` does.
    pub fn extend_by(
        &mut self,
        alloc: Global,
        graph: &Graph,
        cone: &Cone,
        before: &Before,
    ) -> Result<(), AllocError>
        requires marks { vec_len cone.now.marks ≡ length graph.now.manifest.lines }
        requires may { (was : GraphOf) × MayGoOnBy was graph.now self.old before.now }
        ensures over { OnOk result (IsPlanOver graph.now self.new) }
        ensures flags { OnOk result ((p : ℕ) → has self.new.changed.items p ≡ has self.old.changed.items p) }
        ensures planned { OnOk result (GoesOnAfter graph.now cone.now self.old self.new before.now) }
        ensures err { OnErr result (self.new ≡ self.old) }
    {
        if are_inside(&cone.marks, &self.standings) {
            return self.extend_inside(alloc, graph, cone, before);
        }
        self.extend(alloc, graph, cone)
    }

    /// As `extend_by`, over a cone that has just the edges that stand in it, as the one that was there before the load. Where nothing that
    /// the edges of the file make is there, what else waits for is as it was: then it takes a time of the order of what these edges name,
    /// of the paths that came, and, for one look at each, of the files that are still to be loaded. The flags of paths are copied where
    /// there is no room for more, and get room for half as many more then.
    pub fn extend_inside(
        &mut self,
        alloc: Global,
        graph: &Graph,
        cone: &Cone,
        before: &Before,
    ) -> Result<(), AllocError>
        requires marks { vec_len cone.now.marks ≡ length graph.now.manifest.lines }
        requires inside { AreInside cone.now.marks.items self.old.standings.items }
        requires may { (was : GraphOf) × MayGoOnBy was graph.now self.old before.now }
        ensures over { OnOk result (IsPlanOver graph.now self.new) }
        ensures flags { OnOk result ((p : ℕ) → has self.new.changed.items p ≡ has self.old.changed.items p) }
        ensures planned { OnOk result (GoesOnAfter graph.now cone.now self.old self.new before.now) }
        ensures err { OnErr result (self.new ≡ self.old) }
    {
        files_stand();
        if self.may_count_all(graph, &before.edges) {
            return self.extend_in_place(alloc, graph, before);
        }
        self.extend(alloc, graph, cone)
    }

    /// Whether none of these edges was judged, and nothing that they make is there.
    fn may_count_all(&self, graph: &Graph, edges: &[LoadedEdge]) -> bool
        requires lines { vec_len self.now.standings ≡ length graph.now.manifest.lines }
        requires within { AreEdgesIn graph.now edges.now }
        ensures { result ≡ true → MayCount graph.now self.now edges.now }
    {
        for loaded in edges {
            if !self.may_count(graph, loaded.edge) {
                return false;
            }
        }
        true
    }

    /// Whether the edge was not judged, and nothing that it makes is there.
    fn may_count(&self, graph: &Graph, edge: EdgeId) -> bool
        requires lines { vec_len self.now.standings ≡ length graph.now.manifest.lines }
        requires within { edge < length graph.now.manifest.lines }
        ensures { result ≡ true → MayBeCounted graph.now self.now.standings.items self.now.there.items edge }
    {
        let place = edge.index();
        if !is_fresh(self.standings[place]) {
            return false;
        }
        !is_any_there(graph.outputs(edge), &self.there)
    }

    /// What these edges wait for is counted anew, and the file is loaded.
    fn extend_in_place(
        &mut self,
        alloc: Global,
        graph: &Graph,
        before: &Before,
    ) -> Result<(), AllocError>
        requires may { (was : GraphOf) × MayGoOnBy was graph.now self.old before.now }
        requires counted { MayCount graph.now self.old before.now.edges.items }
        ensures over { OnOk result (IsPlanOver graph.now self.new) }
        ensures flags { OnOk result ((p : ℕ) → has self.new.changed.items p ≡ has self.old.changed.items p) }
        ensures planned { OnOk result (GoesOnInside graph.now self.old self.new before.now) }
        ensures err { OnErr result (self.new ≡ self.old) }
    {
        files_stand();
        let count = graph.paths();
        let there = copy_with_room(alloc, &self.there, self.there.capacity(), count)?;
        let changed = copy_with_room(alloc, &self.changed, self.changed.capacity(), count)?;
        // nothing is refused from here on
        take_room(&mut self.there, there, count);
        take_room(&mut self.changed, changed, count);
        lengthen_there(graph, &mut self.there);
        lengthen_flags(&mut self.changed, count);
        drop_file(&mut self.loads, before.file);
        let any = is_any_there(&self.loads, &self.there);
        // which files are marked stays: the one that was loaded is marked as well
        self.coming.set_any(any);
        self.recount(graph, &before.edges);
        Ok(())
    }

    /// Counts anew what these edges wait for.
    fn recount(&mut self, graph: &Graph, edges: &[LoadedEdge])
        requires lines { vec_len self.old.standings ≡ length graph.now.manifest.lines }
        requires within { AreEdgesIn graph.now edges.now }
        ensures left { HasCounted graph.now self.old self.new edges.now }
        ensures rest { OnlyCounts self.old self.new }
    {
        for loaded in edges {
            self.recount_edge(graph, loaded.edge);
        }
    }

    /// Counts anew what the edge waits for, if it is a command that was not judged.
    fn recount_edge(&mut self, graph: &Graph, edge: EdgeId)
        requires lines { vec_len self.old.standings ≡ length graph.now.manifest.lines }
        requires within { edge < length graph.now.manifest.lines }
        ensures left { HasCountedOne graph.now self.old self.new edge }
        ensures rest { OnlyCounts self.old self.new }
    {
        let count = missing_inputs(graph, &self.there, edge);
        let place = edge.index();
        self.set_left(place, count);
    }

    /// So much is left of the edge, if it is a command that was not judged.
    fn set_left(&mut self, place: usize, count: usize)
        requires { place < vec_len self.old.standings }
        ensures left { SetsLeft self.old self.new place count }
        ensures rest { OnlyCounts self.old self.new }
    {
        match self.standings[place] {
            Standing::Unjudged => put(&mut self.left, &mut self.ready, place, count),
            _ => {}
        }
    }
}

/// So much is left of the edge, which is in the set where that is nothing.
fn put(left: &mut [usize], set: &mut Lowest, place: usize, count: usize)
    requires within { place < length left.old }
    requires room { place < length set.old }
    ensures left { left.new ≡ slice_set left.old place count }
    ensures set { set.new ≡ slice_set set.old place (count == 0) }
{
    left[place] = count;
    set_flag(set, place, count == 0);
}

/// The number is in the set, or not.
fn set_flag(set: &mut Lowest, number: usize, flag: bool)
    requires { number < length set.old }
    ensures { set.new ≡ slice_set set.old number flag }
{
    if flag {
        set.insert(number);
        return;
    }
    set.remove(number);
}

/// Whether just the edges that stand in the cone are marked. All are looked at, since that is done for many at a time.
fn are_inside(marks: &[Mark], standings: &[Standing]) -> bool
    requires { length marks.now ≡ length standings.now }
    ensures { result ≡ true → AreInside marks.now standings.now }
{
    let mut same = true;
    for (place, standing) in standings.iter().enumerate() {
        same = both(same, is_marked_so(marks[place], *standing));
    }
    same
}

fn both(one: bool, other: bool) -> bool
    ensures { result ≡ (one && other) }
{
    one && other
}

/// Whether an edge that stands so is marked so.
fn is_marked_so(mark: Mark, standing: Standing) -> bool
    ensures { result ≡ true → is_listed mark ≡ not (is_outside standing) }
{
    mark.is_listed() == is_inside(standing)
}

fn is_inside(standing: Standing) -> bool
    ensures { result ≡ not (is_outside standing) }
{
    !matches!(standing, Standing::Outside)
}

/// Whether it is a command that was not judged, or no edge of the cone.
fn is_fresh(standing: Standing) -> bool
    ensures { result ≡ true → (is_unjudged standing ≡ true) ⊎ (is_outside standing ≡ true) }
{
    matches!(standing, Standing::Unjudged | Standing::Outside)
}

/// A copy of the flags with room for so many and half as many more, where they have room for fewer; else no flags, which takes no memory.
fn copy_with_room(
    alloc: Global,
    flags: &[bool],
    room: usize,
    count: usize,
) -> Result<Vec<bool>, AllocError>
    ensures { IfOk result (λ copy. room < count → IsCopyWithRoom flags.now count copy.items (vec_capacity copy)) }
{
    if room >= count {
        return Ok(Vec::new(alloc));
    }
    let mut copy = Vec::with_capacity(alloc, half_more(count))?;
    copy.extend_from_slice(flags)?;
    Ok(copy)
}

/// So many and half as many more, if that is a number.
fn half_more(count: usize) -> usize
    ensures { count ≤ result }
{
    match count.checked_add(count / 2) {
        Some(more) => more,
        None => count,
    }
}

/// Takes the copy in the place of the flags, where these have no room for so many.
fn take_room(flags: &mut Vec<bool>, copy: Vec<bool>, count: usize)
    requires { vec_capacity flags.old < count → IsCopyWithRoom flags.old.items count copy.items (vec_capacity copy) }
    ensures items { flags.new.items ≡ flags.old.items }
    ensures room { count ≤ vec_capacity flags.new }
{
    if flags.capacity() >= count {
        return;
    }
    *flags = copy;
}

/// Puts behind the flags whether each path of the graph that comes there is a source. There is room.
fn lengthen_there(graph: &Graph, there: &mut Vec<bool>)
    requires longer { length there.old.items ≤ length graph.now.manifest.paths }
    requires room { length graph.now.manifest.paths ≤ vec_capacity there.old }
    ensures { AreThereBehind graph.now there.old.items there.new.items }
{
    let known = there.len();
    let count = graph.paths();
    for place in known..count {
        push_reserved(there, is_source(graph, place));
    }
}

/// Puts a flag behind the others, for which there is room.
fn push_reserved(flags: &mut Vec<bool>, flag: bool)
    requires { length flags.old.items < vec_capacity flags.old }
    ensures items { flags.new.items ≡ flags.old.items ++ flag ∷ [] }
    ensures grows { vec_capacity flags.old ≤ vec_capacity flags.new }
{
    match flags.push(flag) {
        Ok(()) => {}
        Err(_) => unreachable!(),
    }
}

/// False for each place behind the flags up to a count, for which there is room.
fn lengthen_flags(flags: &mut Vec<bool>, count: usize)
    requires longer { length flags.old.items ≤ count }
    requires room { count ≤ vec_capacity flags.old }
    ensures fits { vec_len flags.new ≡ count }
    ensures same { (p : ℕ) → has flags.new.items p ≡ has flags.old.items p }
{
    match flags.resize(count, false) {
        Ok(()) => {}
        Err(_) => unreachable!(),
    }
}

/// Takes the file out of these; those behind it move up.
fn drop_file(files: &mut Vec<PathId>, file: PathId)
    requires { AreOnce files.old.items }
    ensures { files.new.items ≡ without file files.old.items }
{
    match place_of(files.as_slice(), file) {
        Some(place) => {
            let _ = files.remove(place);
        }
        None => {}
    }
}

/// Where the file stands among these.
fn place_of(files: &[PathId], file: PathId) -> Option<usize>
    requires { AreOnce files.now }
    ensures within { IfSome result (λ place. place < length files.now) }
    ensures found { IfSome result (λ place. without file files.now ≡ take place files.now ++ drop (place + 1) files.now) }
    ensures none { IfNone result (without file files.now ≡ files.now) }
{
    for (place, one) in files.iter().enumerate() {
        if is_path(*one, file) {
            return Some(place);
        }
    }
    None
}

fn is_path(path: PathId, other: PathId) -> bool
    ensures { result ≡ (path == other) }
{
    path == other
}
