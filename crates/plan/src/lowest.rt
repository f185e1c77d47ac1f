//! A binary tree whose leaves are the numbers: each node says whether a number below it is in the set.

ghost use Rattle.std.specs.Prelude.{◌≡◌, ◌≤◌, ◌<◌, ◌*◌, ◌/◌, ◌^◌, ℕ, true, false, length, drop, slice_index_or, slice_set, IfOk, IfSome, MatchOption};
ghost use Rattle.plan.specs.Tree.{AreJoined, AreJoinedBut, IsFirstAt, IsShape};
ghost use Rattle.plan.specs.Flags.{has, IsFirst, AreNone};

use std::alloc::{AllocError, Global};
use std::marker::Model;

/// The most leaves that a tree may have before it is doubled.
const MOST: usize = 0x2000_0000_0000_0000;

/// A set of numbers below a bound. Contracts see it as a list of flags: a number is in the set where the flag at its
/// place is set. It takes at most four bytes for each number below the bound; only `new` takes memory.
#[derive(Debug, Drop)]
pub struct Lowest {
    /// How many levels stand above the leaves.
    height: usize,
    /// How many leaves there are: 2 to the power of `height`.
    leaves: usize,
    /// The root stands at 1, the nodes below node `i` at `2 * i` and `2 * i + 1`, and the leaves from `leaves` on.
    tree: Vec<bool>,
}

impl Model for Lowest {
    ghost use Rattle.std.specs.Prelude.{List, Bool, drop};

    ghost Value = { List Bool };

    ghost use Rattle.plan.specs.Tree.{IsTree};

    ghost view = { λ lowest. drop lowest.leaves lowest.tree.items };

    ghost invariant = { λ lowest. IsTree lowest.height lowest.leaves lowest.tree.items };
}

/// The form of a tree.
#[derive(Clone, Copy)]
pub struct Shape {
    pub height: usize,
    pub leaves: usize,
}

impl Lowest {
    /// A set without numbers, with room for those below the bound.
    pub fn new(alloc: Global, bound: usize) -> Result<Lowest, AllocError>
        ensures room { IfOk result (λ lowest. bound ≤ length lowest) }
        ensures none { IfOk result AreNone }
    {
        let shape = shape_for(bound).ok_or(AllocError)?;
        let tree = vec![in alloc; false; 2 * shape.leaves]?;
        Ok(Lowest {
            height: shape.height,
            leaves: shape.leaves,
            tree,
        })
    }

    /// Puts a number into the set.
    pub fn insert(&mut self, number: usize)
        requires { number < length self.old }
        ensures { self.new ≡ slice_set self.old number true }
    {
        let leaf = self.leaves + number;
        self.tree[leaf] = true;
        join_above(&mut self.tree, leaf);
    }

    /// Takes a number out of the set.
    pub fn remove(&mut self, number: usize)
        requires { number < length self.old }
        ensures { self.new ≡ slice_set self.old number false }
    {
        let leaf = self.leaves + number;
        self.tree[leaf] = false;
        join_above(&mut self.tree, leaf);
    }

    /// Whether the number is in the set.
    pub fn has(&self, number: usize) -> bool
        ensures { result ≡ has self.now number }
    {
        number < self.leaves && self.tree[self.leaves + number]
    }

    /// The lowest number of the set.
    pub fn first(&self) -> Option<usize>
        ensures { MatchOption result (AreNone self.now) (IsFirst self.now) }
    {
        if !self.tree[1] {
            return None;
        }
        Some(first_leaf(&self.tree, self.height) - self.leaves)
    }
}

/// The form of a tree with so many leaves at least; none where it would be too large for any memory.
fn shape_for(bound: usize) -> Option<Shape>
    ensures { IfSome result (IsShape bound) }
{
    let mut height = 0;
    let mut leaves: usize = 1;
    while leaves < bound {
        if leaves > MOST {
            return None;
        }
        height += 1;
        leaves *= 2;
    }
    Some(Shape { height, leaves })
}

/// Mends the nodes above a leaf that was written.
fn join_above(tree: &mut [bool], leaf: usize)
    requires within { leaf < length tree.old }
    requires even { (half : ℕ) × (length tree.old ≡ 2 * half) }
    requires joined { AreJoinedBut (leaf / 2) tree.old }
    ensures joined { AreJoined tree.new }
    ensures leaves { (start : ℕ) → length tree.old ≤ 2 * start → drop start tree.new ≡ drop start tree.old }
{
    let mut node = leaf / 2;
    while node > 0 {
        tree[node] = tree[2 * node] || tree[2 * node + 1];
        node /= 2;
    }
}

/// The first leaf that is set, in a tree whose root is.
fn first_leaf(tree: &[bool], height: usize) -> usize
    requires size { length tree.now ≡ 2 * 2 ^ height }
    requires joined { AreJoined tree.now }
    requires some { slice_index_or tree.now 1 false ≡ true }
    ensures { IsFirstAt (2 ^ height) tree.now result }
{
    let mut node: usize = 1;
    for _level in 0..height {
        node *= 2;
        if !tree[node] {
            node += 1;
        }
    }
    node
}
