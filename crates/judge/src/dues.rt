//! Flags of due edges that are kept from one load of a dyndep file to the next, and which of them are to be found again.

ghost use Rattle.std.specs.Prelude.{◌≡◌, ◌∷◌, [], ◌<◌, ◌≤◌, ℕ, true, false, length, vec_len, IfOk};
ghost use Rattle.model.specs.Graph.{has_number};
ghost use Rattle.graph.specs.LoadedEdges.{numbers_in};
ghost use Rattle.graph.specs.Links.{links_of};
ghost use Rattle.judge.specs.Dues.{due_at};
ghost use Rattle.judge.specs.KeptDues.{AreMarksOf, HasPlaces, BeginsWith, NotesEdges, NotesUsers, NotesFound, NotesGrown, place_of};

use graph::{Cone, Graph, LoadedEdge, lists_stand};
use paths::EdgeId;
use plan::Lowest;
use std::alloc::{AllocError, Global};

/// Which edges are due, as it was found last: a byte for each edge of the graph, and at most 8 more. What is found again are the flags of
/// edges that a load changed or that were judged, and of those that need what an edge makes whose flag has changed, and sources are asked
/// for of those alone, so a turn costs what has changed since the last one.
#[derive(Drop)]
pub struct Dues {
    /// Whether it is known; else all is found anew.
    pub known: bool,
    /// For each edge of the graph whether it is in the cone and due.
    pub flags: Vec<bool>,
    /// The places in the order of the cone of those edges of which it is to be found again.
    pub todo: Lowest,
    /// The edges whose flag was found again since sources were asked for.
    pub fresh: Lowest,
}

impl Dues {
    /// Nothing is known.
    pub(crate) fn new(alloc: Global) -> Result<Dues, AllocError>
        ensures { IfOk result (λ dues. dues.known ≡ false) }
    {
        let todo = Lowest::new(alloc, 0)?;
        let fresh = Lowest::new(alloc, 0)?;
        Ok(Dues {
            known: false,
            flags: Vec::new(alloc),
            todo,
            fresh,
        })
    }

    /// These flags of edges, of a cone of so many.
    fn of(alloc: Global, places: usize, due: &[bool]) -> Result<Dues, AllocError>
        ensures { IfOk result (BeginsWith places due.now) }
    {
        let todo = Lowest::new(alloc, places)?;
        let fresh = Lowest::new(alloc, due.len())?;
        let flags = copied(alloc, due)?;
        Ok(Dues {
            known: true,
            flags,
            todo,
            fresh,
        })
    }

    /// These flags are kept from now on, of a cone of so many edges. Where memory is refused, none is.
    pub(crate) fn begin(&mut self, alloc: Global, places: usize, due: &[bool])
        ensures { self.new.known ≡ true → BeginsWith places due.now self.new }
    {
        match Dues::of(alloc, places, due) {
            Ok(dues) => *self = dues,
            Err(_) => self.known = false,
        }
    }

    /// Nothing is known any more.
    pub fn forget(&mut self)
        ensures { self.new.known ≡ false }
    {
        self.known = false;
    }

    /// It is to be found again whether the edge is due, if it is in the cone.
    fn note(&mut self, cone: &Cone, edge: EdgeId)
        requires within { edge < vec_len cone.now.marks }
        requires marks { AreMarksOf cone.now }
        requires room { length cone.now.order.items ≤ length self.old.todo }
        ensures { NotesEdges cone.now (edge ∷ []) self.old self.new }
    {
        if cone.has(edge) {
            self.todo.insert(place_in(cone, edge));
        }
    }

    /// So it is of each of these edges.
    fn note_all(&mut self, cone: &Cone, edges: &[EdgeId])
        requires within { (e : ℕ) → has_number edges.now e ≡ true → e < vec_len cone.now.marks }
        requires marks { AreMarksOf cone.now }
        requires room { length cone.now.order.items ≤ length self.old.todo }
        ensures { NotesEdges cone.now edges.now self.old self.new }
    {
        for edge in edges {
            self.note(cone, *edge);
        }
    }

    /// And of each edge that needs what the edge makes. It takes a time of the order of these, and of the height of a tree over the cone.
    fn note_users(&mut self, graph: &Graph, cone: &Cone, edge: EdgeId)
        requires within { edge < length graph.now.manifest.lines }
        requires sized { vec_len cone.now.marks ≡ length graph.now.manifest.lines }
        requires marks { AreMarksOf cone.now }
        requires room { length cone.now.order.items ≤ length self.old.todo }
        ensures { NotesUsers graph.now cone.now ((links_of graph.now).outputs edge) self.old self.new }
    {
        lists_stand(graph);
        for path in graph.outputs(edge) {
            self.note_all(cone, graph.users(*path));
        }
    }

    /// The edges whose dyndep file was loaded are to be found again, and those that need what they make, if any flag is kept.
    pub fn note_loaded(&mut self, graph: &Graph, cone: &Cone, edges: &[LoadedEdge])
        requires within { (e : ℕ) → has_number (numbers_in edges.now) e ≡ true → e < length graph.now.manifest.lines }
        requires sized { vec_len cone.now.marks ≡ length graph.now.manifest.lines }
        requires places { self.old.known ≡ true → HasPlaces cone.now self.old }
        ensures known { self.new.known ≡ self.old.known }
        ensures noted { self.old.known ≡ true → NotesGrown graph.now cone.now (numbers_in edges.now) self.old self.new }
    {
        if self.known {
            self.note_grown(graph, cone, edges);
        }
    }

    /// The same, where flags are kept.
    fn note_grown(&mut self, graph: &Graph, cone: &Cone, edges: &[LoadedEdge])
        requires within { (e : ℕ) → has_number (numbers_in edges.now) e ≡ true → e < length graph.now.manifest.lines }
        requires sized { vec_len cone.now.marks ≡ length graph.now.manifest.lines }
        requires places { HasPlaces cone.now self.old }
        ensures { NotesGrown graph.now cone.now (numbers_in edges.now) self.old self.new }
    {
        for loaded in edges {
            self.note(cone, loaded.edge);
            self.note_users(graph, cone, loaded.edge);
        }
    }

    /// The edge was judged: it is to be found again, if any flag is kept.
    pub fn note_judged(&mut self, cone: &Cone, edge: EdgeId)
        requires within { self.old.known ≡ true → edge < vec_len cone.now.marks }
        requires places { self.old.known ≡ true → HasPlaces cone.now self.old }
        ensures known { self.new.known ≡ self.old.known }
        ensures noted { self.old.known ≡ true → NotesEdges cone.now (edge ∷ []) self.old self.new }
    {
        if self.known {
            self.note(cone, edge);
        }
    }

    /// Whether the edge, which is in the cone, is due, as it was found. Where that has changed, it is to be found again of the edges that
    /// need what it makes. Its sources are to be asked for.
    pub(crate) fn found(&mut self, graph: &Graph, cone: &Cone, edge: EdgeId, is: bool)
        requires listed { has_number cone.now.order.items edge ≡ true }
        requires fits { length self.old.flags.items ≡ length graph.now.manifest.lines }
        requires within { edge < length graph.now.manifest.lines }
        requires sized { vec_len cone.now.marks ≡ length graph.now.manifest.lines }
        requires marks { AreMarksOf cone.now }
        requires room { length cone.now.order.items ≤ length self.old.todo }
        requires asking { edge < length self.old.fresh }
        ensures { NotesFound graph.now cone.now edge is self.old self.new }
    {
        self.todo.remove(place_in(cone, edge));
        self.fresh.insert(edge.index());
        if self.has_flag(edge, is) {
            return;
        }
        self.flags[edge.index()] = is;
        self.note_users(graph, cone, edge);
    }

    /// Whether the edge is due, as it was found.
    pub(crate) fn flag_of(&self, edge: EdgeId) -> bool
        requires { edge < length self.now.flags.items }
        ensures { result ≡ due_at self.now.flags.items edge }
    {
        self.flags[edge.index()]
    }

    /// Whether the flag of the edge is this.
    fn has_flag(&self, edge: EdgeId, is: bool) -> bool
        requires { edge < length self.now.flags.items }
        ensures { result ≡ true → due_at self.now.flags.items edge ≡ is }
    {
        self.flags[edge.index()] == is
    }
}

/// The same flags, which are copied many at a time.
pub(crate) fn copied(alloc: Global, flags: &[bool]) -> Result<Vec<bool>, AllocError>
    ensures { IfOk result (λ copy. copy.items ≡ flags.now) }
{
    let mut copy = Vec::with_capacity(alloc, flags.len())?;
    copy.extend_from_slice(flags)?;
    Ok(copy)
}

/// Where the edge stands in the order of the cone, if it is there.
fn place_in(cone: &Cone, edge: EdgeId) -> usize
    requires { edge < vec_len cone.now.marks }
    ensures { result ≡ place_of cone.now edge }
{
    cone.places[edge.index()]
}
