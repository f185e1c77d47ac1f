//! Walks from edges up to what they need.

ghost use Rattle.std.specs.Prelude.{◌≡◌, ℕ, false, ◌<◌, IfOk, IfErr, OnOk, vec_len, length, nat_lt, slice_index, MatchOption};
ghost use Rattle.std.specs.List.{IsFirstBest};
ghost use Rattle.graph.specs.declared.cone.Mark;
ghost use Rattle.graph.specs.Links.{links_of, EachIsEdge};
ghost use Rattle.graph.specs.Cone.{is_unseen, mark_at, IsLeft, Keeps, Grows, IsConeFault, IsMadeEnd, IsNeeded, IsRound, IsWalk, IsLast, AllSeen, HasSeenAll, HasValidated, left_at, IsNextAt, IsNextDone, WaitsFor, EachWaits, awaited_in, paths_round, AreMadeEnds, work};

use crate::cone::{ConeFault, Mark};
use crate::graph::Graph;
use paths::{EdgeId, PathId};
use std::alloc::{AllocError, Global};
use text::Items;

/// A walk up from an edge to what it needs, with a stack of its own.
#[derive(Drop)]
pub struct Walk<'a> {
    alloc: Global,
    graph: &'a Graph,
    /// The edges that the walks begin with.
    requested: &'a [EdgeId],
    pub order: Vec<EdgeId>,
    pub marks: Vec<Mark>,
    /// How many inputs of each edge are still to be looked at; the last one is looked at first.
    left: Vec<usize>,
    /// The open edges, each needed by the one before it.
    stack: Vec<EdgeId>,
}

impl<'a> Walk<'a> {
    /// A walk that has seen nothing yet.
    pub fn new(
        alloc: Global,
        graph: &'a Graph,
        requested: &'a [EdgeId],
    ) -> Result<Walk<'a>, AllocError>
        ensures walk { IfOk result (IsWalk graph.now requested.now) }
        ensures stack { IfOk result (λ walk. length walk.stack.items ≡ 0) }
    {
        Ok(Walk {
            alloc,
            graph,
            requested,
            order: Vec::new(alloc),
            marks: vec![in alloc; Mark::Unseen; graph.edges()]?,
            left: made_ends(alloc, graph)?,
            stack: Vec::new(alloc),
        })
    }

    /// Lists the edges that the walks begin with, and what they need. Nothing is open.
    pub fn list_requested(&mut self) -> Result<(), ConeFault>
        requires at { IsWalk self.old.graph.now self.old.requested.now self.old }
        requires none { length self.old.stack.items ≡ 0 }
        requires within { EachIsEdge self.old.graph.now self.old.requested.now }
        ensures walk { OnOk result (IsWalk self.old.graph.now self.old.requested.now self.new) }
        ensures stack { OnOk result (length self.new.stack.items ≡ 0) }
        ensures seen { OnOk result (AllSeen self.new.marks.items self.old.requested.now) }
        ensures fault { IfErr result (IsConeFault (links_of self.old.graph.now) self.old.requested.now) }
    {
        for edge in self.requested {
            self.list_from(*edge)?;
        }
        Ok(())
    }

    /// Lists the makers of the validations of all listed edges, those listed here too, and what they need. Nothing is
    /// open.
    pub fn list_validators(&mut self) -> Result<(), ConeFault>
        requires at { IsWalk self.old.graph.now self.old.requested.now self.old }
        requires none { length self.old.stack.items ≡ 0 }
        ensures walk { OnOk result (IsWalk self.old.graph.now self.old.requested.now self.new) }
        ensures stack { OnOk result (length self.new.stack.items ≡ 0) }
        ensures keeps { OnOk result (Keeps self.old.marks.items self.new.marks.items) }
        ensures validated { OnOk result (HasValidated self.old.graph.now self.new) }
        ensures fault { IfErr result (IsConeFault (links_of self.old.graph.now) self.old.requested.now) }
    {
        let mut place = 0;
        while place < self.order.len() {
            let edge = self.order[place];
            self.list_makers(edge)?;
            place += 1;
        }
        Ok(())
    }

    /// Lists the makers of the validations of a listed edge, and what they need. Nothing is open.
    fn list_makers(&mut self, edge: EdgeId) -> Result<(), ConeFault>
        requires at { IsWalk self.old.graph.now self.old.requested.now self.old }
        requires none { length self.old.stack.items ≡ 0 }
        requires within { edge < length self.old.graph.now.manifest.lines }
        requires needed { IsNeeded (links_of self.old.graph.now) self.old.requested.now edge }
        ensures walk { OnOk result (IsWalk self.old.graph.now self.old.requested.now self.new) }
        ensures stack { OnOk result (length self.new.stack.items ≡ 0) }
        ensures keeps { OnOk result (Keeps self.old.marks.items self.new.marks.items) }
        ensures grows { OnOk result (Grows self.old.order.items self.new.order.items) }
        ensures seen { OnOk result (HasSeenAll (links_of self.old.graph.now) self.new.marks.items edge) }
        ensures fault { IfErr result (IsConeFault (links_of self.old.graph.now) self.old.requested.now) }
    {
        let graph = self.graph;
        for path in graph.validations(edge) {
            if let Some(maker) = graph.maker(*path) {
                self.list_from(maker)?;
            }
        }
        Ok(())
    }

    /// Lists the edge and what it needs, unless it is listed. Nothing is open.
    fn list_from(&mut self, edge: EdgeId) -> Result<(), ConeFault>
        requires at { IsWalk self.old.graph.now self.old.requested.now self.old }
        requires none { length self.old.stack.items ≡ 0 }
        requires within { edge < length self.old.graph.now.manifest.lines }
        requires needed { IsNeeded (links_of self.old.graph.now) self.old.requested.now edge }
        ensures walk { OnOk result (IsWalk self.old.graph.now self.old.requested.now self.new) }
        ensures stack { OnOk result (length self.new.stack.items ≡ 0) }
        ensures keeps { OnOk result (Keeps self.old.marks.items self.new.marks.items) }
        ensures grows { OnOk result (Grows self.old.order.items self.new.order.items) }
        ensures seen { OnOk result (is_unseen (mark_at self.new.marks.items edge) ≡ false) }
        ensures fault { IfErr result (IsConeFault (links_of self.old.graph.now) self.old.requested.now) }
    {
        self.begin(edge)?;
        self.finish()
    }

    /// Opens the edge, unless it is listed. No other one is open.
    fn begin(&mut self, edge: EdgeId) -> Result<(), AllocError>
        requires at { IsWalk self.old.graph.now self.old.requested.now self.old }
        requires none { length self.old.stack.items ≡ 0 }
        requires within { edge < length self.old.graph.now.manifest.lines }
        requires needed { IsNeeded (links_of self.old.graph.now) self.old.requested.now edge }
        ensures walk { OnOk result (IsWalk self.old.graph.now self.old.requested.now self.new) }
        ensures keeps { OnOk result (Keeps self.old.marks.items self.new.marks.items) }
        ensures grows { OnOk result (Grows self.old.order.items self.new.order.items) }
        ensures seen { OnOk result (is_unseen (mark_at self.new.marks.items edge) ≡ false) }
    {
        match self.marks[edge.index()] {
            Mark::Listed | Mark::Open => Ok(()),
            Mark::Unseen => self.open(edge),
        }
    }

    /// Opens an edge that was not seen, which the last open one waits for.
    fn open(&mut self, edge: EdgeId) -> Result<(), AllocError>
        requires at { IsWalk self.old.graph.now self.old.requested.now self.old }
        requires within { edge < length self.old.graph.now.manifest.lines }
        requires needed { IsNeeded (links_of self.old.graph.now) self.old.requested.now edge }
        requires unseen { mark_at self.old.marks.items edge ≡ Mark.Unseen }
        requires awaited { (last : ℕ) → IsLast self.old.stack.items last → WaitsFor self.old last edge }
        ensures walk { OnOk result (IsWalk self.old.graph.now self.old.requested.now self.new) }
        ensures keeps { OnOk result (Keeps self.old.marks.items self.new.marks.items) }
        ensures grows { OnOk result (Grows self.old.order.items self.new.order.items) }
        ensures seen { OnOk result (is_unseen (mark_at self.new.marks.items edge) ≡ false) }
        ensures nearer { OnOk result (work self.new < work self.old) }
    {
        self.stack.push(edge)?;
        self.marks[edge.index()] = Mark::Open;
        Ok(())
    }

    /// Lists all open edges, and what they need.
    fn finish(&mut self) -> Result<(), ConeFault>
        requires { IsWalk self.old.graph.now self.old.requested.now self.old }
        ensures walk { OnOk result (IsWalk self.old.graph.now self.old.requested.now self.new) }
        ensures stack { OnOk result (length self.new.stack.items ≡ 0) }
        ensures keeps { OnOk result (Keeps self.old.marks.items self.new.marks.items) }
        ensures grows { OnOk result (Grows self.old.order.items self.new.order.items) }
        ensures fault { IfErr result (IsConeFault (links_of self.old.graph.now) self.old.requested.now) }
    {
        'walk: while let Some(edge) = self.stack.last().copied() {
            self.step(edge)?;
        }
        Ok(())
    }

    /// Looks at one input of the last open edge, or lists that edge.
    fn step(&mut self, edge: EdgeId) -> Result<(), ConeFault>
        requires at { IsWalk self.old.graph.now self.old.requested.now self.old }
        requires last { IsLast self.old.stack.items edge }
        ensures walk { OnOk result (IsWalk self.old.graph.now self.old.requested.now self.new) }
        ensures keeps { OnOk result (Keeps self.old.marks.items self.new.marks.items) }
        ensures grows { OnOk result (Grows self.old.order.items self.new.order.items) }
        ensures nearer { OnOk result (work self.new < work self.old) }
        ensures fault { IfErr result (IsConeFault (links_of self.old.graph.now) self.old.requested.now) }
    {
        match self.next_input(edge) {
            Some(path) => self.look(edge, path),
            None => Ok(self.list(edge)?),
        }
    }

    /// The input of an edge that is to be looked at.
    fn next_input(&self, edge: EdgeId) -> Option<PathId>
        requires at { IsWalk self.now.graph.now self.now.requested.now self.now }
        requires within { edge < length self.now.graph.now.manifest.lines }
        ensures { MatchOption result (left_at self.now edge ≡ 0) (λ path. IsNextAt self.now edge path) }
    {
        let left = self.left[edge.index()];
        if left == 0 {
            None
        } else {
            Some(self.graph.need(edge, left - 1))
        }
    }

    /// Goes on to the maker of an input, or past the input where nothing has to be done for it.
    fn look(&mut self, edge: EdgeId, path: PathId) -> Result<(), ConeFault>
        requires at { IsWalk self.old.graph.now self.old.requested.now self.old }
        requires last { IsLast self.old.stack.items edge }
        requires next { IsNextAt self.old edge path }
        ensures walk { OnOk result (IsWalk self.old.graph.now self.old.requested.now self.new) }
        ensures keeps { OnOk result (Keeps self.old.marks.items self.new.marks.items) }
        ensures grows { OnOk result (Grows self.old.order.items self.new.order.items) }
        ensures nearer { OnOk result (work self.new < work self.old) }
        ensures fault { IfErr result (IsConeFault (links_of self.old.graph.now) self.old.requested.now) }
    {
        match self.graph.maker(path) {
            Some(maker) => self.visit(edge, maker),
            None => {
                self.pass(edge);
                Ok(())
            }
        }
    }

    /// Goes on to an edge that the last open one waits for, or past it where it is listed. Where it is open too, the two
    /// need one another.
    fn visit(&mut self, edge: EdgeId, maker: EdgeId) -> Result<(), ConeFault>
        requires at { IsWalk self.old.graph.now self.old.requested.now self.old }
        requires last { IsLast self.old.stack.items edge }
        requires within { maker < length self.old.graph.now.manifest.lines }
        requires awaits { WaitsFor self.old edge maker }
        ensures walk { OnOk result (IsWalk self.old.graph.now self.old.requested.now self.new) }
        ensures keeps { OnOk result (Keeps self.old.marks.items self.new.marks.items) }
        ensures grows { OnOk result (Grows self.old.order.items self.new.order.items) }
        ensures nearer { OnOk result (work self.new < work self.old) }
        ensures fault { IfErr result (IsConeFault (links_of self.old.graph.now) self.old.requested.now) }
    {
        match self.marks[maker.index()] {
            Mark::Listed => {
                self.pass(edge);
                Ok(())
            }
            Mark::Unseen => Ok(self.open(maker)?),
            Mark::Open => Err(ConeFault::Cycle(self.round(edge, maker)?)),
        }
    }

    /// Goes past the last input that is left.
    fn pass(&mut self, edge: EdgeId)
        requires at { IsWalk self.old.graph.now self.old.requested.now self.old }
        requires last { IsLast self.old.stack.items edge }
        requires left { 0 < left_at self.old edge }
        requires done { IsNextDone self.old edge }
        ensures walk { IsWalk self.old.graph.now self.old.requested.now self.new }
        ensures keeps { Keeps self.old.marks.items self.new.marks.items }
        ensures grows { Grows self.old.order.items self.new.order.items }
        ensures nearer { work self.new < work self.old }
    {
        self.left[edge.index()] -= 1;
    }

    /// Lists the last open edge, all inputs of which were looked at.
    fn list(&mut self, edge: EdgeId) -> Result<(), AllocError>
        requires at { IsWalk self.old.graph.now self.old.requested.now self.old }
        requires last { IsLast self.old.stack.items edge }
        requires all { left_at self.old edge ≡ 0 }
        ensures walk { OnOk result (IsWalk self.old.graph.now self.old.requested.now self.new) }
        ensures keeps { OnOk result (Keeps self.old.marks.items self.new.marks.items) }
        ensures grows { OnOk result (Grows self.old.order.items self.new.order.items) }
        ensures nearer { OnOk result (work self.new < work self.old) }
    {
        self.order.push(edge)?;
        self.stack.pop();
        self.marks[edge.index()] = Mark::Listed;
        Ok(())
    }

    /// The paths round a cycle: the last open edge waits for this one, which is open too.
    fn round(&self, last: EdgeId, edge: EdgeId) -> Result<Items<PathId>, AllocError>
        requires at { IsWalk self.now.graph.now self.now.requested.now self.now }
        requires last { IsLast self.now.stack.items last }
        requires awaits { WaitsFor self.now last edge }
        requires open { mark_at self.now.marks.items edge ≡ Mark.Open }
        ensures { IfOk result (IsRound (links_of self.now.graph.now) self.now.requested.now) }
    {
        let mut edges = self.stack[self.place_of(edge)..].to_vec(self.alloc)?;
        let lowest = place_of_lowest(&edges);
        edges.rotate_left(lowest);
        self.paths_round(&edges)
    }

    /// Where an open edge stands on the stack.
    fn place_of(&self, edge: EdgeId) -> usize
        requires at { IsWalk self.now.graph.now self.now.requested.now self.now }
        requires open { mark_at self.now.marks.items edge ≡ Mark.Open }
        ensures within { result < length self.now.stack.items }
        ensures is { slice_index self.now.stack.items result ≡ edge }
    {
        self.stack.iter().position(|open| *open == edge).unwrap()
    }

    /// The paths round a cycle of edges, each of which waits for the next one: what the first one makes, which the last
    /// one waits for, and what each of them waits for.
    fn paths_round(&self, edges: &[EdgeId]) -> Result<Items<PathId>, AllocError>
        requires some { 0 < length edges.now }
        requires within { EachIsEdge self.now.graph.now edges.now }
        requires lefts { vec_len self.now.left ≡ length self.now.graph.now.manifest.lines }
        requires left { EachWaits self.now edges.now }
        ensures { IfOk result (λ paths. paths ≡ paths_round self.now edges.now) }
    {
        let mut paths = Items::new(self.alloc);
        paths.push(self.awaited(edges[edges.len() - 1]))?;
        for edge in edges {
            paths.push(self.awaited(*edge))?;
        }
        Ok(paths)
    }

    /// The path that an open edge waits for.
    fn awaited(&self, edge: EdgeId) -> PathId
        requires within { edge < length self.now.graph.now.manifest.lines }
        requires lefts { vec_len self.now.left ≡ length self.now.graph.now.manifest.lines }
        requires left { IsLeft (links_of self.now.graph.now) self.now.left.items edge }
        ensures { result ≡ awaited_in self.now edge }
    {
        self.graph.need(edge, self.left[edge.index()] - 1)
    }
}

/// Up to where each edge needs what some edge makes. Behind that stand sources, as nearly all recorded inputs are.
fn made_ends(alloc: Global, graph: &Graph) -> Result<Vec<usize>, AllocError>
    ensures fits { IfOk result (λ ends. vec_len ends ≡ length graph.now.manifest.lines) }
    ensures ends { IfOk result (λ ends. AreMadeEnds (links_of graph.now) ends.items) }
{
    let mut ends = Vec::new(alloc);
    for place in 0..graph.edges() {
        ends.push(made_end(graph, graph.manifest.edge(place)))?;
    }
    Ok(ends)
}

/// Up to where the edge needs what some edge makes.
fn made_end(graph: &Graph, edge: EdgeId) -> usize
    requires { edge < length graph.now.manifest.lines }
    ensures { IsMadeEnd (links_of graph.now) edge result }
{
    let mut end = graph.need_count(edge);
    while end > 0 && graph.maker(graph.need(edge, end - 1)).is_none() {
        end -= 1;
    }
    end
}

/// Where the lowest of these stands, the first one where several are equal.
fn place_of_lowest(edges: &[EdgeId]) -> usize
    requires { 0 < length edges.now }
    ensures { IsFirstBest nat_lt edges.now (length edges.now) result }
{
    let mut lowest = 0;
    for place in 1..edges.len() {
        if edges[place].index() < edges[lowest].index() {
            lowest = place;
        }
    }
    lowest
}
