//! Which edge may be started next, by the room in pools.

ghost use Rattle.std.specs.Prelude.{◌≡◌, ◌<◌, ◌-◌, ℕ, suc, true, false, [], map, length, slice_get, IfOk, OnOk, MatchOption, Some};
ghost use Rattle.plan.specs.declared.pool.Pool.{Pool};
ghost use Rattle.plan.specs.Seats.{members_of, depth_of, running_of, shown_of, members_at, AreEmpty, AreSeated, HaveSameLimits, HasRoom, with_member, rank_in};
ghost use Rattle.plan.specs.Turns.{Turns, first_turns, may, room, IsFirstTurn, NoTurn, group_at, runs_at, with_waiting, with_running, AreWithin};

use crate::lowest::Lowest;
use crate::pool::{Pool, show};
use std::alloc::{AllocError, Global};
use std::marker::Model;

/// The edges that wait for their start, and how many commands of each pool run.
///
/// An edge takes some 40 bytes; only `new` takes memory.
#[derive(Debug, Drop)]
pub struct Queue {
    /// The pool of each edge.
    groups: Vec<Option<usize>>,
    /// The place of each edge among the edges of its pool.
    ranks: Vec<usize>,
    pools: Vec<Pool>,
    /// Which edges wait.
    waiting: Vec<bool>,
    /// The edges of no pool that wait, and of each pool the one that it shows.
    front: Lowest,
}

impl Model for Queue {
    ghost use Rattle.plan.specs.Turns.{Turns};

    ghost Value = { Turns };

    ghost use Rattle.plan.specs.Queues.{turns_of, IsQueue};

    ghost view = { turns_of };

    ghost invariant = { IsQueue };
}

impl Queue {
    /// No edge waits and no command runs. `groups` has the pool of each edge, a place of `depths`, which says how many
    /// commands of a pool may run at once.
    pub fn new(
        alloc: Global,
        groups: Vec<Option<usize>>,
        depths: &[usize],
    ) -> Result<Queue, AllocError>
        requires { AreWithin (length depths.now) groups.items }
        ensures { IfOk result (λ queue. queue ≡ first_turns groups.items depths.now) }
    {
        let waiting = vec![in alloc; false; groups.len()]?;
        let front = Lowest::new(alloc, groups.len())?;
        let mut pools = empty_pools(alloc, depths)?;
        let ranks = seat_all(alloc, &groups, &mut pools)?;
        make_room(alloc, &mut pools)?;
        Ok(Queue {
            groups,
            ranks,
            pools,
            waiting,
            front,
        })
    }

    /// Whether the edge waits, and there is room for it in its pool.
    pub fn may_start(&self, edge: usize) -> bool
        requires { edge < length self.now.waiting }
        ensures { result ≡ may self.now edge }
    {
        self.waiting[edge] && self.has_room(edge)
    }

    /// The lowest edge that waits and for which there is room in its pool.
    pub fn first(&self) -> Option<usize>
        ensures { MatchOption result (NoTurn self.now) (IsFirstTurn self.now) }
    {
        self.front.first()
    }

    /// The edge waits from now on.
    pub fn put(&mut self, edge: usize)
        requires { edge < length self.old.waiting }
        ensures { self.new ≡ with_waiting self.old edge true }
    {
        self.waiting[edge] = true;
        match self.groups[edge] {
            None => self.front.insert(edge),
            Some(group) => {
                let pool = &mut self.pools[group];
                pool.waiting.insert(self.ranks[edge]);
                show(pool, &mut self.front);
            }
        }
    }

    /// The command of a waiting edge was started.
    pub fn take(&mut self, edge: usize)
        requires { may self.old edge ≡ true }
        ensures { self.new ≡ with_running (with_waiting self.old edge false) edge (suc (runs_at self.old edge)) }
    {
        self.waiting[edge] = false;
        match self.groups[edge] {
            None => self.front.remove(edge),
            Some(group) => {
                let pool = &mut self.pools[group];
                pool.waiting.remove(self.ranks[edge]);
                pool.running = one_more(pool.running, pool.depth);
                show(pool, &mut self.front);
            }
        }
    }

    /// A command of the edge's pool ended.
    pub fn release(&mut self, edge: usize)
        requires { edge < length self.old.waiting }
        ensures { self.new ≡ with_running self.old edge (runs_at self.old edge - 1) }
    {
        if let Some(group) = self.groups[edge] {
            let pool = &mut self.pools[group];
            pool.running = pool.running.saturating_sub(1);
            show(pool, &mut self.front);
        }
    }

    fn has_room(&self, edge: usize) -> bool
        requires { edge < length self.now.waiting }
        ensures { result ≡ room self.now (group_at self.now edge) }
    {
        match self.groups[edge] {
            None => true,
            Some(group) => self.pools[group].running < self.pools[group].depth,
        }
    }
}

/// One more command runs, of those that may.
fn one_more(running: usize, depth: usize) -> usize
    requires { running < depth }
    ensures { result ≡ suc running }
{
    running + 1
}

/// A pool without edges for each depth.
fn empty_pools(alloc: Global, depths: &[usize]) -> Result<Vec<Pool>, AllocError>
    ensures { IfOk result (λ pools. AreEmpty depths.now pools.items) }
{
    let mut pools = Vec::new(alloc);
    for depth in depths {
        pools.push(Pool {
            depth: *depth,
            running: 0,
            members: Vec::new(alloc),
            waiting: Lowest::new(alloc, 0)?,
            shown: None,
        })?;
    }
    Ok(pools)
}

/// Puts each edge into its pool, the lowest first, and gives its place there.
fn seat_all(
    alloc: Global,
    groups: &[Option<usize>],
    pools: &mut [Pool],
) -> Result<Vec<usize>, AllocError>
    requires within { AreWithin (length pools.old) groups.now }
    requires empty { (g : ℕ) → members_at pools.old g ≡ [] }
    ensures seated { IfOk result (λ ranks. AreSeated groups.now ranks.items (map members_of pools.new)) }
    ensures kept { OnOk result (HaveSameLimits pools.old pools.new) }
{
    let mut ranks = Vec::with_capacity(alloc, groups.len())?;
    for (edge, group) in groups.iter().enumerate() {
        ranks.push(seat(edge, *group, pools)?)?;
    }
    Ok(ranks)
}

/// Puts an edge behind the others of its pool, and gives its place there.
fn seat(edge: usize, group: Option<usize>, pools: &mut [Pool]) -> Result<usize, AllocError>
    requires { (g : ℕ) → group ≡ Some g → g < length pools.old }
    ensures seated { OnOk result (map members_of pools.new ≡ with_member (map members_of pools.old) group edge) }
    ensures rank { IfOk result (λ rank. rank ≡ rank_in (map members_of pools.old) group) }
    ensures kept { OnOk result (HaveSameLimits pools.old pools.new) }
{
    let Some(group) = group else {
        return Ok(0);
    };
    let pool = &mut pools[group];
    let rank = pool.members.len();
    pool.members.push(edge)?;
    Ok(rank)
}

/// Makes room for the edges of each pool to wait.
fn make_room(alloc: Global, pools: &mut [Pool]) -> Result<(), AllocError>
    ensures members { OnOk result (map members_of pools.new ≡ map members_of pools.old) }
    ensures depths { OnOk result (map depth_of pools.new ≡ map depth_of pools.old) }
    ensures running { OnOk result (map running_of pools.new ≡ map running_of pools.old) }
    ensures shown { OnOk result (map shown_of pools.new ≡ map shown_of pools.old) }
    ensures room { OnOk result ((g : ℕ) (pool : Pool) → slice_get pools.new g ≡ Some pool → HasRoom pool) }
{
    for pool in pools.iter_mut() {
        pool.waiting = Lowest::new(alloc, pool.members.len())?;
    }
    Ok(())
}
