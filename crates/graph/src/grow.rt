//! Recorded inputs join an edge.

ghost use Rattle.std.specs.Prelude.{◌≡◌, ◌<◌, ◌++◌, [], ℕ, List, All, take, slice_set, ◌≤◌, length, IfOk, OnOk, OnErr, nat_eq};
ghost use Rattle.indexmap.specs.IndexSet.{insert_all};
ghost use Rattle.graph.specs.Held.{list_at, StandOnce};
ghost use Rattle.graph.specs.Fronts.{FrontsStay};
ghost use Rattle.graph.specs.Grown.{HasNumbered, HasGained};

use crate::graph::Graph;
use crate::path_set::PathSet;
use paths::{EdgeId, PathId};
use std::alloc::{AllocError, Global};

impl Graph {
    /// The number of a path, which gets one where it has none. No build line names more than before: the path gets a
    /// number past those that one does.
    ///
    /// Where memory is refused, nothing is changed.
    pub fn add_path(&mut self, alloc: Global, path: &str) -> Result<PathId, AllocError>
        ensures added { IfOk result (HasNumbered self.old self.new path.now) }
        ensures err { OnErr result (self.new ≡ self.old) }
    {
        self.users.add_path()?;
        let added = self.manifest.paths.add(alloc, path);
        self.users.truncate(self.manifest.paths.len());
        added
    }

    /// The same, where so many edges are to name the path as a recorded input: unless memory is refused, there is room for them in one place.
    pub fn add_named(
        &mut self,
        alloc: Global,
        path: &str,
        named: usize,
    ) -> Result<PathId, AllocError>
        ensures added { IfOk result (HasNumbered self.old self.new path.now) }
        ensures err { OnErr result (self.new ≡ self.old) }
    {
        let number = self.add_path(alloc, path)?;
        self.make_room(number, named);
        Ok(number)
    }

    /// Makes room for so many more edges that name the path, unless memory is refused.
    fn make_room(&mut self, path: PathId, named: usize)
        ensures { self.new ≡ self.old }
    {
        if named > 1 {
            self.users.widen(path, named - 1);
        }
    }

    /// Room for so many more recorded inputs of edges, where it is known of each path how many edges are to name it (`add_named`).
    pub fn reserve_inputs(&mut self, inputs: usize) -> Result<(), AllocError>
        ensures { self.new ≡ self.old }
    {
        self.recorded.reserve(inputs)?;
        self.users.reserve(inputs)
    }

    /// No paths, in a room that the graph lends until `add_set`.
    pub fn lend_set(&mut self, alloc: Global) -> PathSet
        ensures set { result ≡ [] }
        ensures same { self.new ≡ self.old }
    {
        self.recorded.take_room(alloc)
    }

    /// Records the paths of a set as inputs of the edge, each once, beside those that were recorded before.
    ///
    /// Where memory is refused, nothing is changed.
    pub fn add_set(
        &mut self,
        alloc: Global,
        edge: EdgeId,
        inputs: PathSet,
    ) -> Result<(), AllocError>
        requires edge { edge < length self.old.manifest.lines }
        requires inputs { All (λ p. p < length self.old.manifest.paths) inputs }
        ensures gained { OnOk result (HasGained self.old self.new edge inputs) }
        ensures err { OnErr result (self.new ≡ self.old) }
    {
        if !self.recorded.at(edge).is_empty() {
            return self.add_inputs(alloc, edge, inputs.as_slice());
        }
        let gained = self.record(edge, inputs.as_slice(), 0);
        self.recorded.put_room(inputs);
        gained
    }

    /// Records these inputs of the edge, each once, beside those that were recorded before.
    ///
    /// Where memory is refused, nothing is changed.
    pub fn add_inputs(
        &mut self,
        alloc: Global,
        edge: EdgeId,
        inputs: &[PathId],
    ) -> Result<(), AllocError>
        requires edge { edge < length self.old.manifest.lines }
        requires inputs { All (λ p. p < length self.old.manifest.paths) inputs.now }
        ensures gained { OnOk result (HasGained self.old self.new edge inputs.now) }
        ensures err { OnErr result (self.new ≡ self.old) }
    {
        let mut all = self.recorded.take_room(alloc);
        let gained = self.gain(edge, inputs, &mut all);
        self.recorded.put_room(all);
        gained
    }

    /// Records these inputs of the edge, each once, beside those that were recorded before. The set lends its room.
    fn gain(&mut self, edge: EdgeId, inputs: &[PathId], all: &mut PathSet) -> Result<(), AllocError>
        requires edge { edge < length self.old.manifest.lines }
        requires inputs { All (λ p. p < length self.old.manifest.paths) inputs.now }
        requires empty { all.old ≡ [] }
        ensures gained { OnOk result (HasGained self.old self.new edge inputs.now) }
        ensures err { OnErr result (self.new ≡ self.old) }
    {
        add_all(all, self.recorded.at(edge))?;
        let held = all.len();
        add_all(all, inputs)?;
        self.record(edge, all.as_slice(), held)
    }

    /// Records these inputs of the edge in place of those that it has, which are the first so many of them.
    fn record(&mut self, edge: EdgeId, inputs: &[PathId], held: usize) -> Result<(), AllocError>
        requires edge { edge < length self.old.manifest.lines }
        requires inputs { All (λ p. p < length self.old.manifest.paths) inputs.now }
        requires once { StandOnce inputs.now }
        requires held { take held inputs.now ≡ list_at self.old.recorded edge }
        requires within { held ≤ length inputs.now }
        ensures recorded { OnOk result (self.new.recorded ≡ slice_set self.old.recorded edge inputs.now) }
        ensures manifest { self.new.manifest ≡ self.old.manifest }
        ensures makers { self.new.makers ≡ self.old.makers }
        ensures users { OnOk result (FrontsStay self.old.users self.new.users) }
        ensures err { OnErr result (self.new ≡ self.old) }
    {
        let fresh = &inputs[held..];
        self.users.push_all(fresh, edge)?;
        let recorded = self.recorded.set(edge, inputs);
        if recorded.is_err() {
            self.users.pop_all(fresh);
        }
        recorded
    }
}

/// Adds these paths, each once.
fn add_all(all: &mut PathSet, paths: &[PathId]) -> Result<(), AllocError>
    ensures { OnOk result (all.new ≡ insert_all nat_eq all.old paths.now) }
{
    for path in paths {
        all.insert(*path)?;
    }
    Ok(())
}
