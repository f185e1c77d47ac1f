//! One pool: how many commands of it run, and which of its edges wait.

ghost use Rattle.std.specs.Prelude.{◌≡◌, ◌<◌, ℕ, length};
ghost use Rattle.plan.specs.PoolShown.{IsShown, AreMembers, with_shown, member_at, ShownWithin};

use crate::lowest::Lowest;

/// A pool of edges.
#[derive(Debug, Drop)]
pub struct Pool {
    /// How many of its commands may run at once.
    pub depth: usize,
    pub running: usize,
    /// Its edges, the lowest first.
    pub members: Vec<usize>,
    /// Which of its edges wait, by their places among the members.
    pub waiting: Lowest,
    /// Its lowest edge that waits, as long as there is room for it.
    pub shown: Option<usize>,
}

impl Pool {
    /// Its lowest edge that waits, where there is room for it.
    pub fn turn(&self) -> Option<usize>
        requires { AreMembers self.now }
        ensures { IsShown self.now result }
    {
        if self.running >= self.depth {
            return None;
        }
        Some(self.members[self.waiting.first()?])
    }
}

/// Puts the pool's lowest waiting edge in front, in place of the one that stood there.
pub fn show(pool: &mut Pool, front: &mut Lowest)
    requires members { AreMembers pool.old }
    requires within { (r : ℕ) → r < length pool.old.members.items → member_at pool.old r < length front.old }
    requires shown { ShownWithin pool.old (length front.old) }
    ensures pool { pool.new ≡ record pool.old { shown = pool.new.shown } }
    ensures length { length front.new ≡ length front.old }
    ensures shown { IsShown pool.old pool.new.shown }
    ensures front { front.new ≡ with_shown pool.old.shown pool.new.shown front.old }
{
    if let Some(edge) = pool.shown {
        front.remove(edge);
    }
    pool.shown = pool.turn();
    if let Some(edge) = pool.shown {
        front.insert(edge);
    }
}
