//! The edges above targets.

ghost use Rattle.std.specs.Prelude.{◌≡◌, ◌<◌, ◌≤◌, IfOk, MatchOption, OnOk, false, length, true};
ghost use Rattle.model.specs.Graph.{has_number};
ghost use Rattle.graph.specs.Cone.{IsLast, Keeps, is_unseen, mark_at, maker_seen};
ghost use Rattle.graph.specs.Links.{links_of};
ghost use Rattle.graph.specs.declared.cone.Mark;
ghost use Rattle.tools.specs.Above.{AreAbove, IsNeededFor};
ghost use Rattle.tools.specs.Rising.{CountsInputs, HasSeenNext, IsAwaited, IsNextOf, IsRise, MakerIsAwaited, MakerIsNeeded, left_at, work};

use graph::{Graph, Mark};
use paths::{EdgeId, PathId};
use std::alloc::{AllocError, Global};

/// A walk up to the edges that make what is needed, with a stack of its own.
#[derive(Drop)]
struct Walk<'a> {
    graph: &'a Graph,
    /// The paths for which edges are needed.
    paths: &'a [PathId],
    order: Vec<EdgeId>,
    marks: Vec<Mark>,
    /// How many inputs of each edge are still to be looked at: the last ones.
    left: Vec<usize>,
    /// The open edges: each makes an input of the one before it.
    stack: Vec<EdgeId>,
}

/// The edges that make these paths, those that make their inputs, and so on: each once, and behind those that make its inputs, which
/// come in the order of its line. What is recorded does not count, and validations do not. Where edges need each other in a circle,
/// one of them comes before one that it needs.
pub fn edges_above(
    alloc: Global,
    graph: &Graph,
    paths: &[PathId],
) -> Result<Vec<EdgeId>, AllocError>
    ensures { IfOk result (λ edges. AreAbove graph.now paths.now edges.items) }
{
    let mut walk = Walk::new(alloc, graph, paths)?;
    walk.list_all()?;
    let Walk { order, .. } = walk;
    Ok(order)
}

impl<'a> Walk<'a> {
    /// A walk that has seen nothing yet.
    fn new(alloc: Global, graph: &'a Graph, paths: &'a [PathId]) -> Result<Walk<'a>, AllocError>
        ensures walk { IfOk result (IsRise graph.now paths.now) }
        ensures stack { IfOk result (λ walk. length walk.stack.items ≡ 0) }
    {
        let left = input_counts(alloc, graph)?;
        Ok(Walk {
            graph,
            paths,
            order: Vec::new(alloc),
            marks: vec![in alloc; Mark::Unseen; graph.edges()]?,
            left,
            stack: Vec::new(alloc),
        })
    }

    /// Lists the edges that are needed for the paths. Nothing is open.
    fn list_all(&mut self) -> Result<(), AllocError>
        requires at { IsRise self.old.graph.now self.old.paths.now self.old }
        requires none { length self.old.stack.items ≡ 0 }
        ensures { OnOk result (AreAbove self.old.graph.now self.old.paths.now self.new.order.items) }
    {
        for path in self.paths {
            self.list_maker(*path)?;
        }
        Ok(())
    }

    /// Lists the edge that makes one of the paths, and what is needed for it. Nothing is open.
    fn list_maker(&mut self, path: PathId) -> Result<(), AllocError>
        requires at { IsRise self.old.graph.now self.old.paths.now self.old }
        requires none { length self.old.stack.items ≡ 0 }
        requires asked { has_number self.old.paths.now path ≡ true }
        ensures walk { OnOk result (IsRise self.old.graph.now self.old.paths.now self.new) }
        ensures stack { OnOk result (length self.new.stack.items ≡ 0) }
        ensures keeps { OnOk result (Keeps self.old.marks.items self.new.marks.items) }
        ensures seen { OnOk result (maker_seen self.new.marks.items ((links_of self.old.graph.now).maker path)) }
    {
        self.enter(path)?;
        self.finish()
    }

    /// Lists all open edges, and what is needed for them.
    fn finish(&mut self) -> Result<(), AllocError>
        requires { IsRise self.old.graph.now self.old.paths.now self.old }
        ensures walk { OnOk result (IsRise self.old.graph.now self.old.paths.now self.new) }
        ensures stack { OnOk result (length self.new.stack.items ≡ 0) }
        ensures keeps { OnOk result (Keeps self.old.marks.items self.new.marks.items) }
    {
        'walk: while let Some(edge) = self.stack.last().copied() {
            self.step(edge)?;
        }
        Ok(())
    }

    /// Looks at one input of the last open edge, or lists that edge.
    fn step(&mut self, edge: EdgeId) -> Result<(), AllocError>
        requires at { IsRise self.old.graph.now self.old.paths.now self.old }
        requires last { IsLast self.old.stack.items edge }
        ensures walk { OnOk result (IsRise self.old.graph.now self.old.paths.now self.new) }
        ensures keeps { OnOk result (Keeps self.old.marks.items self.new.marks.items) }
        ensures nearer { OnOk result (work self.new < work self.old) }
    {
        match self.next_input(edge) {
            Some(path) => self.look(edge, path),
            None => self.list(edge),
        }
    }

    /// The input of an edge that is to be looked at.
    fn next_input(&self, edge: EdgeId) -> Option<PathId>
        requires at { IsRise self.now.graph.now self.now.paths.now self.now }
        requires within { edge < length self.now.graph.now.manifest.lines }
        ensures { MatchOption result (left_at self.now edge ≡ 0) (λ path. IsNextOf self.now edge path) }
    {
        let inputs = self.graph.inputs(edge);
        let left = self.left[edge.index()];
        if left == 0 {
            None
        } else {
            Some(inputs[inputs.len() - left])
        }
    }

    /// Goes on to the edge that makes the next input of the last open one, and past that input.
    fn look(&mut self, edge: EdgeId, path: PathId) -> Result<(), AllocError>
        requires at { IsRise self.old.graph.now self.old.paths.now self.old }
        requires last { IsLast self.old.stack.items edge }
        requires next { IsNextOf self.old edge path }
        ensures walk { OnOk result (IsRise self.old.graph.now self.old.paths.now self.new) }
        ensures keeps { OnOk result (Keeps self.old.marks.items self.new.marks.items) }
        ensures nearer { OnOk result (work self.new < work self.old) }
    {
        self.enter(path)?;
        self.pass(edge);
        Ok(())
    }

    /// Opens the edge that makes the path, unless it was seen. It is needed, and makes an input of the last open one, if one is open.
    fn enter(&mut self, path: PathId) -> Result<(), AllocError>
        requires at { IsRise self.old.graph.now self.old.paths.now self.old }
        requires needed { MakerIsNeeded self.old path }
        requires awaited { MakerIsAwaited self.old path }
        ensures walk { OnOk result (IsRise self.old.graph.now self.old.paths.now self.new) }
        ensures keeps { OnOk result (Keeps self.old.marks.items self.new.marks.items) }
        ensures left { OnOk result (self.new.left.items ≡ self.old.left.items) }
        ensures seen { OnOk result (maker_seen self.new.marks.items ((links_of self.old.graph.now).maker path)) }
        ensures no_farther { OnOk result (work self.new ≤ work self.old) }
    {
        match self.graph.maker(path) {
            Some(maker) => self.visit(maker),
            None => Ok(()),
        }
    }

    /// Opens an edge that is needed, unless it was seen. It makes an input of the last open one, if one is open.
    fn visit(&mut self, edge: EdgeId) -> Result<(), AllocError>
        requires at { IsRise self.old.graph.now self.old.paths.now self.old }
        requires within { edge < length self.old.graph.now.manifest.lines }
        requires needed { IsNeededFor (links_of self.old.graph.now) self.old.paths.now edge }
        requires awaited { IsAwaited self.old edge }
        ensures walk { OnOk result (IsRise self.old.graph.now self.old.paths.now self.new) }
        ensures keeps { OnOk result (Keeps self.old.marks.items self.new.marks.items) }
        ensures left { OnOk result (self.new.left.items ≡ self.old.left.items) }
        ensures seen { OnOk result (is_unseen (mark_at self.new.marks.items edge) ≡ false) }
        ensures no_farther { OnOk result (work self.new ≤ work self.old) }
    {
        match self.marks[edge.index()] {
            Mark::Listed | Mark::Open => Ok(()),
            Mark::Unseen => self.open(edge),
        }
    }

    /// Opens an edge that was not seen.
    fn open(&mut self, edge: EdgeId) -> Result<(), AllocError>
        requires at { IsRise self.old.graph.now self.old.paths.now self.old }
        requires within { edge < length self.old.graph.now.manifest.lines }
        requires needed { IsNeededFor (links_of self.old.graph.now) self.old.paths.now edge }
        requires unseen { mark_at self.old.marks.items edge ≡ Mark.Unseen }
        requires awaited { IsAwaited self.old edge }
        ensures walk { OnOk result (IsRise self.old.graph.now self.old.paths.now self.new) }
        ensures keeps { OnOk result (Keeps self.old.marks.items self.new.marks.items) }
        ensures left { OnOk result (self.new.left.items ≡ self.old.left.items) }
        ensures seen { OnOk result (is_unseen (mark_at self.new.marks.items edge) ≡ false) }
        ensures nearer { OnOk result (work self.new < work self.old) }
    {
        self.stack.push(edge)?;
        self.marks[edge.index()] = Mark::Open;
        Ok(())
    }

    /// Goes past the first of the inputs that are left, whose maker was seen.
    fn pass(&mut self, edge: EdgeId)
        requires at { IsRise self.old.graph.now self.old.paths.now self.old }
        requires within { edge < length self.old.graph.now.manifest.lines }
        requires left { 0 < left_at self.old edge }
        requires seen { HasSeenNext self.old edge }
        ensures walk { IsRise self.old.graph.now self.old.paths.now self.new }
        ensures marks { self.new.marks ≡ self.old.marks }
        ensures nearer { work self.new < work self.old }
    {
        self.left[edge.index()] -= 1;
    }

    /// Lists the last open edge, all inputs of which were looked at.
    fn list(&mut self, edge: EdgeId) -> Result<(), AllocError>
        requires at { IsRise self.old.graph.now self.old.paths.now self.old }
        requires last { IsLast self.old.stack.items edge }
        requires all { left_at self.old edge ≡ 0 }
        ensures walk { OnOk result (IsRise self.old.graph.now self.old.paths.now self.new) }
        ensures keeps { OnOk result (Keeps self.old.marks.items self.new.marks.items) }
        ensures nearer { OnOk result (work self.new < work self.old) }
    {
        self.order.push(edge)?;
        self.stack.pop();
        self.marks[edge.index()] = Mark::Listed;
        Ok(())
    }
}

/// How many inputs each edge has.
fn input_counts(alloc: Global, graph: &Graph) -> Result<Vec<usize>, AllocError>
    ensures fits { IfOk result (λ counts. length counts.items ≡ length graph.now.manifest.lines) }
    ensures counts { IfOk result (λ counts. CountsInputs graph.now counts.items) }
{
    let mut counts = Vec::with_capacity(alloc, graph.edges())?;
    for place in 0..graph.edges() {
        counts.push(graph.inputs(graph.manifest.edge(place)).len())?;
    }
    Ok(counts)
}
