//! For each path the edges that name it, in flat memory.

ghost use Rattle.std.specs.Prelude.{◌≡◌, ◌<◌, ◌+◌, ◌++◌, ◌∷◌, ◌-◌, ◌≤◌, ℕ, List, All, [], length, take, drop, IfOk, OnOk, OnErr};
ghost use Rattle.std.proofs.Math.ListN.{replicate};
ghost use Rattle.paths.specs.Lists.{between, Extends};
ghost use Rattle.graph.specs.Rooms.{IsMoved, AreLaid};
ghost use Rattle.graph.specs.Held.{list_at, more_lists, times, push_at, pushed, pop_at};
ghost use Rattle.graph.specs.Fronts.{AreCut, HaveEmptyBehind};

use paths::{EdgeId, PathId};
use std::alloc::{AllocError, Global};
use std::marker::Model;

/// At how many rooms `push_all` looks before it puts edges there.
const AT_ONCE: usize = 16;

/// From how many paths on it looks: rooms of fewer may all lie in a processor's cache, where nothing is waited for. The bound is a guess.
const FAR: usize = 1 << 16;

/// Where a list stands, and up to where it may grow.
#[derive(Clone, Copy)]
pub struct Room {
    pub start: usize,
    pub stop: usize,
    pub end: usize,
}

impl Room {
    const NONE: Room = Room {
        start: 0,
        stop: 0,
        end: 0,
    };
}

/// The edges that name each path, which contracts see as one list for each path. A path takes 24 bytes, and 4 to 16 for
/// each edge that its list had when it was longest: a list without room moves to the end, into twice the room, unless `widen` made some.
#[derive(Drop)]
pub struct Users {
    edges: Vec<EdgeId>,
    rooms: Vec<Room>,
}

impl Model for Users {
    ghost use Rattle.std.specs.Prelude.{ℕ, List, map};

    ghost Value = { List (List ℕ) };

    ghost use Rattle.graph.specs.Rooms.{room_of, AreRooms};

    ghost view = { λ users. map (room_of users.edges.items) users.rooms.items };

    ghost invariant = { λ users. AreRooms users.edges.items users.rooms.items };
}

impl Users {
    /// So many paths that no edge names.
    pub fn none(alloc: Global, paths: usize) -> Result<Users, AllocError>
        ensures { IfOk result (λ users. users ≡ replicate paths []) }
    {
        Ok(Users {
            edges: Vec::new(alloc),
            rooms: vec![in alloc; Room::NONE; paths]?,
        })
    }

    /// As many paths as counts, which no edge names. Where a count is two or more, there is room for so many in one place. A single edge
    /// is put behind all these by the first `push`: single ones stand in the order in which they come, so that a push in whatever order
    /// of paths writes to one place far off and not to two. There is room for all, and where no more are put behind a path, no list moves.
    pub(crate) fn with_rooms(alloc: Global, counts: &[usize]) -> Result<Users, AllocError>
        ensures { IfOk result (λ users. users ≡ replicate (length counts.now) []) }
    {
        let mut rooms = Vec::with_capacity(alloc, counts.len())?;
        let end = lay_rooms(&mut rooms, counts)?;
        let mut edges = Vec::with_capacity(alloc, sum(counts))?;
        edges.resize(end, EdgeId::at_below(0))?;
        Ok(Users { edges, rooms })
    }

    /// No paths, without memory.
    pub(crate) fn empty(alloc: Global) -> Users
        ensures { result ≡ [] }
    {
        Users {
            edges: Vec::new(alloc),
            rooms: Vec::new(alloc),
        }
    }

    /// So many paths in all: no edge names those behind. Where memory is refused, nothing is changed.
    pub(crate) fn lengthen(&mut self, paths: usize) -> Result<(), AllocError>
        requires { length self.old ≤ paths }
        ensures ok { OnOk result (self.new ≡ more_lists self.old paths) }
        ensures err { OnErr result (self.new ≡ self.old) }
    {
        let known = self.len();
        let added = self.add_paths(paths - known);
        if added.is_err() {
            self.truncate(known);
        }
        added
    }

    /// So many more paths, which no edge names. Where memory is refused, some of them may be there.
    fn add_paths(&mut self, count: usize) -> Result<(), AllocError>
        ensures ok { OnOk result (self.new ≡ self.old ++ replicate count []) }
        ensures err { OnErr result (HaveEmptyBehind self.old self.new) }
    {
        for _done in 0..count {
            self.add_path()?;
        }
        Ok(())
    }

    /// How many paths there are.
    pub fn len(&self) -> usize
        ensures { result ≡ length self.now }
    {
        self.rooms.len()
    }

    /// The edges that name the path.
    pub fn at(&self, path: PathId) -> &[EdgeId]
        requires { path < length self.now }
        ensures { result.now ≡ list_at self.now path }
    {
        let room = self.rooms[path.index()];
        &self.edges[room.start..room.stop]
    }

    /// One more path, which no edge names. Where memory is refused, nothing is changed.
    pub fn add_path(&mut self) -> Result<(), AllocError>
        ensures ok { OnOk result (self.new ≡ self.old ++ [] ∷ []) }
        ensures err { OnErr result (self.new ≡ self.old) }
    {
        self.rooms.push(Room::NONE)?;
        Ok(())
    }

    /// Leaves so many paths.
    pub fn truncate(&mut self, paths: usize)
        ensures { self.new ≡ take paths self.old }
    {
        self.rooms.truncate(paths);
    }

    /// Room for so many more edges, where no list moves.
    pub fn reserve(&mut self, edges: usize) -> Result<(), AllocError>
        ensures { self.new ≡ self.old }
    {
        self.edges.reserve(edges)
    }

    /// Puts an edge behind those that name the path. Where memory is refused, nothing is changed.
    #[inline(always)]
    pub fn push(&mut self, path: PathId, edge: EdgeId) -> Result<(), AllocError>
        requires { path < length self.old }
        ensures ok { OnOk result (self.new ≡ push_at self.old path edge) }
        ensures err { OnErr result (self.new ≡ self.old) }
    {
        let place = path.index();
        let room = self.rooms[place];
        if room.stop < room.end {
            self.edges[room.stop] = edge;
            self.rooms[place].stop = room.stop + 1;
            Ok(())
        } else {
            self.push_behind(path, edge)
        }
    }

    /// Puts an edge behind those that name the path, whose room is full: the first one is put at the end.
    #[inline(always)]
    fn push_behind(&mut self, path: PathId, edge: EdgeId) -> Result<(), AllocError>
        requires { path < length self.old }
        ensures ok { OnOk result (self.new ≡ push_at self.old path edge) }
        ensures err { OnErr result (self.new ≡ self.old) }
    {
        let place = path.index();
        let room = self.rooms[place];
        if room.stop > room.start {
            return self.push_moved(path, edge, room.stop - room.start);
        }
        let start = self.edges.len();
        self.edges.push(edge)?;
        let end = self.edges.len();
        self.rooms[place] = Room {
            start,
            stop: end,
            end,
        };
        Ok(())
    }

    /// Moves the list of a path to the end, and puts an edge behind it, with room for so many more.
    #[inline(never)]
    fn push_moved(&mut self, path: PathId, edge: EdgeId, more: usize) -> Result<(), AllocError>
        requires { path < length self.old }
        ensures ok { OnOk result (self.new ≡ push_at self.old path edge) }
        ensures err { OnErr result (self.new ≡ self.old) }
    {
        let place = path.index();
        let room = self.rooms[place];
        let start = self.edges.len();
        let stop = append_moved(&mut self.edges, room.start, room.stop, edge, more)?;
        self.rooms[place] = Room {
            start,
            stop,
            end: self.edges.len(),
        };
        Ok(())
    }

    /// Makes room in one place for so many more edges, and one, behind those that name the path: its list moves to the end once, and not
    /// each time that it is full. Where memory is refused, it has the room that it had.
    pub(crate) fn widen(&mut self, path: PathId, more: usize)
        ensures { self.new ≡ self.old }
    {
        if path.index() >= self.len() {
            return;
        }
        match self.push_moved(path, EdgeId::at_below(0), more) {
            Ok(()) => self.pop(path),
            Err(_) => {}
        }
    }

    /// Puts an edge behind those that name each of these paths. Where memory is refused, nothing is changed.
    pub fn push_all(&mut self, paths: &[PathId], edge: EdgeId) -> Result<(), AllocError>
        requires { All (λ p. p < length self.old) paths.now }
        ensures ok { OnOk result (self.new ≡ pushed self.old paths.now edge) }
        ensures err { OnErr result (self.new ≡ self.old) }
    {
        for (done, path) in paths.iter().enumerate() {
            self.make_ready(done, paths);
            if self.push(*path, edge).is_err() {
                self.pop_all(&paths[..done]);
                return Err(AllocError);
            }
        }
        Ok(())
    }

    /// Before the first path and each sixteenth after it, where there are paths enough for rooms to lie far apart: looks at the rooms of the
    /// next sixteen, so that a processor waits for several at a time, and not for one after another, as it does where each says to which place
    /// the next write goes. What was seen is used to ask for a place for each full one; a refusal is let pass, since `push` asks again.
    #[inline(always)]
    fn make_ready(&mut self, done: usize, paths: &[PathId])
        ensures { self.new ≡ self.old }
    {
        if done % AT_ONCE != 0 || self.rooms.len() < FAR {
            return;
        }
        let Some(next) = paths.get(done..) else {
            return;
        };
        let mut full = 0usize;
        for path in next.iter().take(AT_ONCE) {
            if let Some(room) = self.rooms.get(path.index()) {
                if room.stop == room.end {
                    full = full.saturating_add(1);
                }
            }
        }
        match self.edges.reserve(full) {
            Ok(()) | Err(_) => {}
        }
    }

    /// Takes back what was put behind those that name these paths: each list loses as many edges as the path stands among these.
    pub fn pop_all(&mut self, paths: &[PathId])
        requires { All (λ p. p < length self.old) paths.now }
        ensures back { (users : List (List ℕ)) (edge : ℕ) → self.old ≡ pushed users paths.now edge → self.new ≡ users }
        ensures cut { AreCut (times paths.now) self.old self.new }
    {
        let (_, mut left) = paths.split_at(0);
        while let Some((last, front)) = left.split_last() {
            self.pop(*last);
            left = front;
        }
    }

    /// Takes back the last edge of those that name the path, if there is one.
    fn pop(&mut self, path: PathId)
        requires { path < length self.old }
        ensures { self.new ≡ pop_at self.old path }
    {
        let place = path.index();
        let room = self.rooms[place];
        if room.start < room.stop {
            self.rooms[place] = Room {
                start: room.start,
                stop: room.stop - 1,
                end: room.end,
            };
        }
    }
}

/// Puts an empty room for each count behind the one before it, of which there is none yet, and gives the end of the last.
fn lay_rooms(rooms: &mut Vec<Room>, counts: &[usize]) -> Result<usize, AllocError>
    requires { rooms.old.items ≡ [] }
    ensures { IfOk result (λ end. AreLaid (length counts.now) end rooms.new.items) }
{
    let mut end = 0usize;
    for count in counts {
        end = lay_room(rooms, end, laid_places(*count))?;
    }
    Ok(end)
}

/// How many places are laid out for so many edges: none for a single one.
fn laid_places(count: usize) -> usize {
    if count < 2 { 0 } else { count }
}

/// How many edges these are.
fn sum(counts: &[usize]) -> usize {
    let mut sum = 0usize;
    for count in counts {
        sum = sum.saturating_add(*count);
    }
    sum
}

/// Puts an empty room of so many places behind the others, which end here, and gives its end.
fn lay_room(rooms: &mut Vec<Room>, end: usize, places: usize) -> Result<usize, AllocError>
    requires { AreLaid (length rooms.old.items) end rooms.old.items }
    ensures { IfOk result (λ next. AreLaid (length rooms.old.items + 1) next rooms.new.items) }
{
    let Some(next) = end.checked_add(places) else {
        return Err(AllocError);
    };
    rooms.push(Room {
        start: end,
        stop: end,
        end: next,
    })?;
    Ok(next)
}

/// Copies what stands between two places to the end, puts an edge behind it, and makes so many places more. Gives the place behind the
/// edge.
fn append_moved(
    edges: &mut Vec<EdgeId>,
    start: usize,
    stop: usize,
    edge: EdgeId,
    more: usize,
) -> Result<usize, AllocError>
    requires order { start ≤ stop }
    requires within { stop ≤ length edges.old.items }
    ensures ok { IfOk result (IsMoved edges.old.items edges.new.items (between edges.old.items start stop ++ edge ∷ [])) }
    ensures err { OnErr result (Extends edges.old.items edges.new.items) }
{
    let end = edges.len();
    let count = stop - start;
    edges.resize((end + count + 1).saturating_add(more), edge)?;
    copy_behind(edges.as_mut_slice(), start, stop, end);
    Ok(end + count + 1)
}

/// Copies what stands between two places to a place behind them.
fn copy_behind(edges: &mut [EdgeId], start: usize, stop: usize, end: usize)
    requires order { start ≤ stop }
    requires behind { stop ≤ end }
    requires within { end + (stop - start) ≤ length edges.old }
    ensures copied { edges.new ≡ take end edges.old ++ (between edges.old start stop ++ drop (end + (stop - start)) edges.old) }
    ensures length { length edges.new ≡ length edges.old }
{
    let (front, back) = edges.split_at_mut(end);
    back[..stop - start].copy_from_slice(&front[start..stop]);
}
