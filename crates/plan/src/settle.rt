//! What is settled once an edge is.

ghost use Rattle.std.specs.Prelude.{◌≡◌, ◌<◌, ◌-◌, length, slice_index};
ghost use Rattle.plan.specs.Settling.{lowered, raised};

use crate::lowest::Lowest;
use crate::plan::Plan;
use crate::step::Standing;
use graph::Graph;
use paths::{EdgeId, PathId};

impl Plan {
    ghost use Rattle.std.specs.Prelude.{◌≡◌, ◌<◌, ℕ, true, false, if◌then◌else◌, length, vec_len, slice_index, slice_set};
    ghost use Rattle.model.specs.Graph.{has_number};
    ghost use Rattle.plan.specs.Flags.{has, AreNone};
    ghost use Rattle.graph.specs.Links.{links_of};
    ghost use Rattle.plan.specs.Standing.{standing_at, awaits, is_settled};
    ghost use Rattle.plan.specs.Planned.{IsOverIn};
    ghost use Rattle.plan.specs.Settling.{IsCountedIn, outputs_in, AreAllThere, OthersAreAsBefore, lowered_for, IsStill, SettlesAliases, KeepsSound, IsAhead};

    /// What the edge makes is there, and what aliases make that waited for nothing else.
    pub fn settle(&mut self, graph: &Graph, edge: EdgeId)
        requires ahead { IsAhead graph.now edge self.old }
        requires within { edge < vec_len self.old.standings }
        requires settled { is_settled (standing_at self.old.standings.items edge) ≡ true }
        ensures over { IsOverIn graph.now self.new }
        ensures none { AreNone self.new.pending }
        ensures rest { SettlesAliases self.old self.new }
        ensures sound { KeepsSound graph.now self.old self.new }
    {
        self.arrive_all(graph, edge);
        self.settle_pending(graph);
    }

    /// Settles the aliases that wait for nothing, and those that wait for nothing then.
    pub fn settle_pending(&mut self, graph: &Graph)
        requires { IsOverIn graph.now self.old }
        ensures over { IsOverIn graph.now self.new }
        ensures none { AreNone self.new.pending }
        ensures rest { SettlesAliases self.old self.new }
        ensures sound { KeepsSound graph.now self.old self.new }
    {
        while let Some(place) = self.pending.first() {
            self.pending.remove(place);
            self.standings[place] = Standing::Known;
            self.arrive_all(graph, graph.manifest.edge(place));
        }
    }

    /// What the edge makes is there.
    fn arrive_all(&mut self, graph: &Graph, edge: EdgeId)
        requires counted { IsCountedIn graph.now self.old }
        requires within { edge < vec_len self.old.standings }
        ensures counted { IsCountedIn graph.now self.new }
        ensures made { AreAllThere (length graph.now.manifest.paths) (outputs_in graph.now edge) self.new.there.items }
        ensures others { OthersAreAsBefore (outputs_in graph.now edge) self.old.there.items self.new.there.items }
        ensures rest { IsStill self.old self.new }
    {
        for path in graph.outputs(edge) {
            self.arrive(graph, *path);
        }
    }

    /// The path is there: the edges that name it wait for it no more.
    fn arrive(&mut self, graph: &Graph, path: PathId)
        requires { IsCountedIn graph.now self.old }
        ensures counted { IsCountedIn graph.now self.new }
        ensures there { self.new.there.items ≡ slice_set self.old.there.items path true }
        ensures rest { IsStill self.old self.new }
    {
        let place = path.index();
        if place >= self.there.len() || self.there[place] {
            return;
        }
        self.there[place] = true;
        self.coming.note(place);
        for user in graph.users(path) {
            self.count_down(user.index());
        }
    }

    /// The edge waits for one path less.
    fn count_down(&mut self, user: usize)
        requires within { user < vec_len self.old.standings }
        requires some { awaits (standing_at self.old.standings.items user) ≡ true → 0 < slice_index self.old.left.items user }
        ensures left { self.new.left.items ≡ lowered_for (standing_at self.old.standings.items user) self.old.left.items user }
        ensures there { self.new.there.items ≡ self.old.there.items }
        ensures rest { IsStill self.old self.new }
    {
        match self.standings[user] {
            Standing::Unjudged => lower(&mut self.left, &mut self.ready, user),
            Standing::Alias => lower(&mut self.left, &mut self.pending, user),
            _ => {}
        }
    }
}

/// One less is left of the edge, which is put into the set where nothing is.
fn lower(left: &mut [usize], set: &mut Lowest, user: usize)
    requires within { user < length left.old }
    requires some { 0 < slice_index left.old user }
    requires room { user < length set.old }
    ensures left { left.new ≡ lowered left.old user }
    ensures set { set.new ≡ raised set.old left.old user }
{
    left[user] -= 1;
    if left[user] == 0 {
        set.insert(user);
    }
}
