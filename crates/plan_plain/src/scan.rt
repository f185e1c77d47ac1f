//! What is seen in a scan of all edges.

ghost use Rattle.std.specs.Prelude.{◌≡◌};
ghost use Rattle.plan.specs.Standing.{is_settled, is_running, is_failed};

use crate::plain::Plan;
use graph::Graph;
use paths::{EdgeId, PathId};
use plan::Standing;

impl Plan {
    ghost use Rattle.std.specs.Prelude.{◌≡◌, ◌<◌, length, vec_len, count_by, MatchOption};
    ghost use Rattle.std.specs.List.{list_all};
    ghost use Rattle.graph.specs.Links.{links_of};
    ghost use Rattle.plan.specs.Standing.{standing_at, is_running, is_failed};
    ghost use Rattle.plan.specs.Plan.{has_limits};
    ghost use Rattle.plan_plain.specs.Scan.{is_there, waits_for_nothing, may_judge, may_settle, IsFirst, NonePasses};

    /// The lowest command that was not judged and waits for nothing.
    pub fn first_to_judge(&self, graph: &Graph) -> Option<EdgeId>
        requires { vec_len self.now.standings ≡ length graph.now.manifest.lines }
        ensures { let test = may_judge (links_of graph.now) self.now.standings.items in MatchOption result (NonePasses test) (IsFirst test) }
    {
        for place in 0..graph.edges() {
            let edge = graph.manifest.edge(place);
            if self.may_judge(graph, edge) {
                return Some(edge);
            }
        }
        None
    }

    /// The lowest alias that was not settled and waits for nothing.
    pub fn first_to_settle(&self, graph: &Graph) -> Option<EdgeId>
        requires { vec_len self.now.standings ≡ length graph.now.manifest.lines }
        ensures { let test = may_settle (links_of graph.now) self.now.standings.items in MatchOption result (NonePasses test) (IsFirst test) }
    {
        for place in 0..graph.edges() {
            let edge = graph.manifest.edge(place);
            if self.may_settle(graph, edge) {
                return Some(edge);
            }
        }
        None
    }

    fn may_judge(&self, graph: &Graph, edge: EdgeId) -> bool
        requires fits { vec_len self.now.standings ≡ length graph.now.manifest.lines }
        requires within { edge < vec_len self.now.standings }
        ensures { result ≡ may_judge (links_of graph.now) self.now.standings.items edge }
    {
        matches!(self.standing(edge), Standing::Unjudged) && self.waits_for_nothing(graph, edge)
    }

    fn may_settle(&self, graph: &Graph, edge: EdgeId) -> bool
        requires fits { vec_len self.now.standings ≡ length graph.now.manifest.lines }
        requires within { edge < vec_len self.now.standings }
        ensures { result ≡ may_settle (links_of graph.now) self.now.standings.items edge }
    {
        matches!(self.standing(edge), Standing::Alias) && self.waits_for_nothing(graph, edge)
    }

    /// Whether all inputs and recorded inputs of the edge are there.
    fn waits_for_nothing(&self, graph: &Graph, edge: EdgeId) -> bool
        requires fits { vec_len self.now.standings ≡ length graph.now.manifest.lines }
        requires within { edge < vec_len self.now.standings }
        ensures { result ≡ waits_for_nothing (links_of graph.now) self.now.standings.items edge }
    {
        self.are_there(graph, graph.inputs(edge))
            && self.are_there(graph, graph.recorded_inputs(edge))
    }

    fn are_there(&self, graph: &Graph, paths: &[PathId]) -> bool
        requires { vec_len self.now.standings ≡ length graph.now.manifest.lines }
        ensures { result ≡ list_all (is_there (links_of graph.now) self.now.standings.items) paths.now }
    {
        paths.iter().all(|path| self.is_there(graph, *path))
    }

    /// Whether the path is a source, or the edge that makes it is settled.
    fn is_there(&self, graph: &Graph, path: PathId) -> bool
        requires { vec_len self.now.standings ≡ length graph.now.manifest.lines }
        ensures { result ≡ is_there (links_of graph.now) self.now.standings.items path }
    {
        match graph.maker(path) {
            None => true,
            Some(edge) => is_settled(self.standing(edge)),
        }
    }

    /// How far an edge has come.
    pub fn standing(&self, edge: EdgeId) -> Standing
        requires { edge < vec_len self.now.standings }
        ensures { result ≡ standing_at self.now.standings.items edge }
    {
        self.standings[edge.index()]
    }

    /// How many commands run.
    pub fn running(&self) -> usize
        ensures { result ≡ count_by is_running self.now.standings.items }
    {
        self.standings
            .iter()
            .filter(|standing| is_running(**standing))
            .count()
    }

    /// How many commands failed.
    pub fn failed(&self) -> usize
        ensures { result ≡ count_by is_failed self.now.standings.items }
    {
        self.standings
            .iter()
            .filter(|standing| is_failed(**standing))
            .count()
    }

    /// Whether fewer commands run than may, and fewer have failed.
    pub fn has_room(&self) -> bool
        ensures { result ≡ has_limits self.now.jobs self.now.keep (count_by is_running self.now.standings.items) (count_by is_failed self.now.standings.items) }
    {
        (self.jobs == 0 || self.running() < self.jobs)
            && (self.keep == 0 || self.failed() < self.keep)
    }
}

fn is_settled(standing: Standing) -> bool
    ensures { result ≡ is_settled standing }
{
    matches!(standing, Standing::Clean | Standing::Well | Standing::Known)
}

pub fn is_running(standing: Standing) -> bool
    ensures { result ≡ is_running standing }
{
    matches!(standing, Standing::Running)
}

fn is_failed(standing: Standing) -> bool
    ensures { result ≡ is_failed standing }
{
    matches!(standing, Standing::Failed)
}
