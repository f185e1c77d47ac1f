//! Where edges stand in a cone, and whether a cone stays right where edges need and make more.

ghost use Rattle.std.specs.Prelude.{◌≡◌, ◌<◌, All, length, vec_len, IfOk};
ghost use Rattle.graph.specs.Placed.{ConesStay};
ghost use Rattle.graph.specs.Places.{ArePlaces};

use crate::back::LoadedEdge;
use crate::cone::Cone;
use crate::graph::Graph;
use paths::{EdgeId, PathId};
use std::alloc::{AllocError, Global};

/// For each of so many edges its place in the order, if it is there.
pub fn places_of(alloc: Global, order: &[EdgeId], edges: usize) -> Result<Vec<usize>, AllocError>
    requires { All (λ e. e < edges) order.now }
    ensures sized { IfOk result (λ places. vec_len places ≡ edges) }
    ensures placed { IfOk result (λ places. ArePlaces order.now places.items) }
{
    let mut places = vec![in alloc; 0usize; edges]?;
    note_places(&mut places, order);
    Ok(places)
}

/// Notes for each edge of the order its place.
fn note_places(places: &mut [usize], order: &[EdgeId])
    requires { All (λ e. e < length places.old) order.now }
    ensures fits { length places.new ≡ length places.old }
    ensures placed { ArePlaces order.now places.new }
{
    for (place, edge) in order.iter().enumerate() {
        places[edge.index()] = place;
    }
}

impl Graph {
    ghost use Rattle.std.specs.Prelude.{◌≡◌, ◌<◌, ℕ, true, Some, length, vec_len};
    ghost use Rattle.model.specs.Graph.{has_number};
    ghost use Rattle.graph.specs.LoadedEdges.{numbers_in};
    ghost use Rattle.graph.specs.Links.{links_of};
    ghost use Rattle.graph.specs.Placed.{StandsBefore, StandsBeforeAll, AreInPlace, IsBeforeUsers, IsBehindMakers, IsInPlace};

    /// Whether each of these edges stands in the cone behind the makers of all that it needs, and in front of those of its edges that
    /// need what it makes. It takes a time of the order of what the edges need, and of the users of what they make.
    pub fn are_in_place(&self, cone: &Cone, edges: &[LoadedEdge]) -> bool
        requires marks { vec_len cone.now.marks ≡ length self.now.manifest.lines }
        requires within { (e : ℕ) → has_number (numbers_in edges.now) e ≡ true → e < length self.now.manifest.lines }
        ensures { result ≡ true → AreInPlace self.now cone.now (numbers_in edges.now) }
    {
        for loaded in edges {
            if !self.is_in_place(cone, loaded.edge) {
                return false;
            }
        }
        true
    }

    /// Whether the edge does.
    fn is_in_place(&self, cone: &Cone, edge: EdgeId) -> bool
        requires marks { vec_len cone.now.marks ≡ length self.now.manifest.lines }
        requires within { edge < length self.now.manifest.lines }
        ensures { result ≡ true → IsInPlace self.now cone.now edge }
    {
        if !cone.has(edge) {
            return false;
        }
        if !self.is_behind_makers(cone, edge) {
            return false;
        }
        self.is_before_users(cone, edge)
    }

    /// Whether the edge stands behind the makers of all that it needs.
    fn is_behind_makers(&self, cone: &Cone, edge: EdgeId) -> bool
        requires marks { vec_len cone.now.marks ≡ length self.now.manifest.lines }
        requires within { edge < length self.now.manifest.lines }
        ensures { result ≡ true → IsBehindMakers self.now cone.now edge }
    {
        for place in 0..self.need_count(edge) {
            if !self.is_made_before(cone, self.need(edge, place), edge) {
                return false;
            }
        }
        true
    }

    /// Whether what makes the path stands in front of the edge, if some edge makes it.
    fn is_made_before(&self, cone: &Cone, path: PathId, edge: EdgeId) -> bool
        requires marks { vec_len cone.now.marks ≡ length self.now.manifest.lines }
        requires within { edge < length self.now.manifest.lines }
        ensures { result ≡ true → (d : ℕ) → (links_of self.now).maker path ≡ Some d → StandsBefore cone.now d edge }
    {
        match self.maker(path) {
            Some(maker) => cone.is_before(maker, edge),
            None => true,
        }
    }

    /// Whether the edge stands in front of each listed one that needs what it makes.
    fn is_before_users(&self, cone: &Cone, edge: EdgeId) -> bool
        requires marks { vec_len cone.now.marks ≡ length self.now.manifest.lines }
        requires within { edge < length self.now.manifest.lines }
        ensures { result ≡ true → IsBeforeUsers self.now cone.now edge }
    {
        for path in self.outputs(edge) {
            if !self.is_before_all(cone, edge, self.users(*path)) {
                return false;
            }
        }
        true
    }

    /// Whether the edge stands in front of each of these that is listed.
    fn is_before_all(&self, cone: &Cone, edge: EdgeId, users: &[EdgeId]) -> bool
        requires marks { vec_len cone.now.marks ≡ length self.now.manifest.lines }
        requires within { edge < length self.now.manifest.lines }
        requires users { (d : ℕ) → has_number users.now d ≡ true → d < length self.now.manifest.lines }
        ensures { result ≡ true → StandsBeforeAll cone.now edge users.now }
    {
        for user in users {
            if !cone.is_before_listed(edge, *user) {
                return false;
            }
        }
        true
    }
}

/// A law, which runs nothing: a cone is that of the same targets still, where the edges that a load changed are in their places.
pub fn cones_stay()
    ensures { ConesStay }
{}
