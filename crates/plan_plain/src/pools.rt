//! What may start: whether there is room in a pool (manual: "Pools").

ghost use Rattle.std.specs.Prelude.{◌≡◌, ◌<◌, length};
ghost use Rattle.model.specs.Graph.{depth_of};
ghost use Rattle.model.specs.Schedule.{is_in_pool};
ghost use Rattle.plan_plain.specs.Scan.{pool_at};

use crate::plain::Plan;
use crate::scan::is_running;
use graph::Graph;
use model::Pool;
use paths::{Action, EdgeId};
use plan::Standing;

/// The name of the pool for commands at the terminal (manual: "The `console` pool").
const CONSOLE: &str = "console";

impl Plan {
    ghost use Rattle.std.specs.Prelude.{◌≡◌, ◌<◌, length, vec_len, MatchOption};
    ghost use Rattle.plan_plain.specs.Scan.{pool_at, runs_in, counted, has_room_in, has_pool_room, may_start, IsFirst, NonePasses};

    /// The lowest command that is out of date, with room in its pool.
    pub fn first_to_start(&self, graph: &Graph) -> Option<EdgeId>
        requires { vec_len self.now.standings ≡ length graph.now.manifest.lines }
        ensures { let test = may_start graph.now self.now.standings.items in MatchOption result (NonePasses test) (IsFirst test) }
    {
        for place in 0..graph.edges() {
            let edge = graph.manifest.edge(place);
            if self.may_start(graph, edge) {
                return Some(edge);
            }
        }
        None
    }

    fn may_start(&self, graph: &Graph, edge: EdgeId) -> bool
        requires fits { vec_len self.now.standings ≡ length graph.now.manifest.lines }
        requires within { edge < vec_len self.now.standings }
        ensures { result ≡ may_start graph.now self.now.standings.items edge }
    {
        matches!(self.standing(edge), Standing::OutOfDate) && self.has_pool_room(graph, edge)
    }

    /// Whether the edge is in no pool, or fewer commands of its pool run than may.
    fn has_pool_room(&self, graph: &Graph, edge: EdgeId) -> bool
        requires fits { vec_len self.now.standings ≡ length graph.now.manifest.lines }
        requires within { edge < vec_len self.now.standings }
        ensures { result ≡ has_pool_room graph.now self.now.standings.items (pool_at graph.now edge) }
    {
        match graph.manifest.action(edge) {
            Action::Alias => true,
            Action::Command(command) => match &command.pool {
                None => true,
                Some(name) => self.has_room_in(graph, name.as_str()),
            },
        }
    }

    /// Whether fewer commands of the pool with this name run than may.
    fn has_room_in(&self, graph: &Graph, name: &str) -> bool
        requires { vec_len self.now.standings ≡ length graph.now.manifest.lines }
        ensures { result ≡ has_room_in graph.now self.now.standings.items name.now }
    {
        let depth = depth_of(graph.manifest.pools.as_slice(), name);
        depth == 0 || self.running_in(graph, name) < depth
    }

    /// How many commands of the pool with this name run.
    fn running_in(&self, graph: &Graph, name: &str) -> usize
        requires { vec_len self.now.standings ≡ length graph.now.manifest.lines }
        ensures { result ≡ counted (runs_in graph.now self.now.standings.items name.now) (length graph.now.manifest.lines) }
    {
        let mut running = 0;
        for place in 0..graph.edges() {
            if self.runs_in(graph, graph.manifest.edge(place), name) {
                running += 1;
            }
        }
        running
    }

    /// Whether the edge is in the pool with this name, and its command runs.
    fn runs_in(&self, graph: &Graph, edge: EdgeId, name: &str) -> bool
        requires fits { vec_len self.now.standings ≡ length graph.now.manifest.lines }
        requires within { edge < vec_len self.now.standings }
        ensures { result ≡ runs_in graph.now self.now.standings.items name.now edge }
    {
        is_running(self.standing(edge)) && is_in_pool(graph, edge, name)
    }
}

fn is_in_pool(graph: &Graph, edge: EdgeId, name: &str) -> bool
    requires { edge < length graph.now.manifest.lines }
    ensures { result ≡ is_in_pool name.now (pool_at graph.now edge) }
{
    match graph.manifest.action(edge) {
        Action::Alias => false,
        Action::Command(command) => match &command.pool {
            None => false,
            Some(pool) => pool.as_str() == name,
        },
    }
}

/// How many commands of the pool with this name may run at once; 0 is no limit.
fn depth_of(pools: &[Pool], name: &str) -> usize
    ensures { result ≡ depth_of pools.now name.now }
{
    if name == CONSOLE {
        return 1;
    }
    for pool in pools {
        if pool.name.as_str() == name {
            return pool.depth as usize;
        }
    }
    0
}
