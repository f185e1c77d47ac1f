//! The pools of a cone's edges.

ghost use Rattle.std.specs.Prelude.{◌≡◌, ◌||◌, not, true, IfOk, length};
ghost use Rattle.plan.specs.Standing.{is_outside};
ghost use Rattle.plan.specs.Pools.{place_of, place_in, pool_of, depths_of};
ghost use Rattle.plan.specs.Places.{ArePlaces};
ghost use Rattle.plan.specs.Plan.{AreAllPooled};
ghost use Rattle.plan.specs.First.{AreGroups, AreAllGroups, IsIdle};

use crate::by_name::Places;
use crate::queue::Queue;
use crate::step::Standing;
use graph::Graph;
use model::Pool;
use paths::{Action, EdgeId};
use std::alloc::{AllocError, Global};

/// The name of the pool for commands at the terminal (manual: "The `console` pool").
const CONSOLE: &str = "console";

/// No edge waits for its start. The pools are the declared ones, and behind them the one for the terminal. The edges are those of
/// the cone, or all where the cone may grow.
pub fn queue_of(
    alloc: Global,
    graph: &Graph,
    standings: &[Standing],
    all: bool,
) -> Result<Queue, AllocError>
    requires { length standings.now ≡ length graph.now.manifest.lines }
    ensures idle { IfOk result (IsIdle graph.now standings.now) }
    ensures all { IfOk result (λ queue. all ≡ true → AreAllPooled graph.now queue) }
{
    let groups = groups_of(alloc, graph, standings, all)?;
    let depths = depths_of(alloc, graph.manifest.pools.as_slice())?;
    let queue = Queue::new(alloc, groups, &depths)?;
    Ok(queue)
}

/// The pool of each edge of the cone, or of all edges, where it has one with a limit.
fn groups_of(
    alloc: Global,
    graph: &Graph,
    standings: &[Standing],
    all: bool,
) -> Result<Vec<Option<usize>>, AllocError>
    requires { length standings.now ≡ length graph.now.manifest.lines }
    ensures groups { IfOk result (λ groups. AreGroups graph.now standings.now groups.items) }
    ensures all { IfOk result (λ groups. all ≡ true → AreAllGroups graph.now groups.items) }
{
    let pools = graph.manifest.pools.as_slice();
    let places = Places::of(alloc, pools)?;
    let mut groups = Vec::with_capacity(alloc, standings.len())?;
    for (place, standing) in standings.iter().enumerate() {
        groups.push(if is_pooled(*standing, all) {
            group_of(
                pools,
                &places,
                graph.manifest.action(graph.manifest.edge(place)),
            )
        } else {
            None
        })?;
    }
    Ok(groups)
}

fn is_pooled(standing: Standing, all: bool) -> bool
    ensures { result ≡ (all || not (is_outside standing)) }
{
    all || !matches!(standing, Standing::Outside)
}

/// How many commands of each pool may run at once.
fn depths_of(alloc: Global, pools: &[Pool]) -> Result<Vec<usize>, AllocError>
    ensures { IfOk result (λ depths. depths.items ≡ depths_of pools.now) }
{
    let mut depths = Vec::with_capacity(alloc, pools.len())?;
    for pool in pools {
        depths.push(pool.depth as usize)?;
    }
    depths.push(1)?;
    Ok(depths)
}

/// The pool of an edge that does this, where it has one with a limit.
fn group_of(pools: &[Pool], places: &Places, action: &Action) -> Option<usize>
    requires { ArePlaces pools.now places.now }
    ensures { result ≡ place_in pools.now (pool_of action.now) }
{
    match action {
        Action::Alias => None,
        Action::Command(command) => match &command.pool {
            None => None,
            Some(name) => place_of(pools, places, name.as_str()),
        },
    }
}

/// The place of the pool with this name, where it has a limit.
fn place_of(pools: &[Pool], places: &Places, name: &str) -> Option<usize>
    requires { ArePlaces pools.now places.now }
    ensures { result ≡ place_of pools.now name.now }
{
    if name == CONSOLE {
        return Some(pools.len());
    }
    places.get(name)
}
