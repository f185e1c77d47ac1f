//! What is built where no target is named.

ghost use Rattle.std.specs.Prelude.{◌≡◌, ◌<◌, ◌||◌, not, ℕ, false, List, [], ◌++◌, All, filter, length, get_or, EachIndex, IfOk, OnOk, vec_len};
ghost use Rattle.model.specs.Graph.{has_number};
ghost use Rattle.graph.specs.Links.{AllPaths};
ghost use Rattle.graph.specs.Targets.{AreDefaultPaths};
ghost use Rattle.graph.specs.Free.{free_of, AreMarked, input_numbers, output_numbers};

use crate::graph::Graph;
use paths::PathId;
use std::alloc::{AllocError, Global};

impl Graph {
    /// The outputs that no edge names as an input, in reading order; all outputs, where there is no such one. What is
    /// recorded does not count.
    pub fn default_targets(&self, alloc: Global) -> Result<Vec<PathId>, AllocError>
        ensures within { IfOk result (λ targets. AllPaths self.now targets.items) }
        ensures targets { IfOk result (λ targets. AreDefaultPaths self.now targets.items) }
    {
        let needed = self.needed(alloc)?;
        let roots = self.outputs_but(alloc, &needed)?;
        if roots.is_empty() {
            self.outputs_but(alloc, &[])
        } else {
            Ok(roots)
        }
    }

    /// Whether some edge names the path of this number as an input.
    fn needed(&self, alloc: Global) -> Result<Vec<bool>, AllocError>
        ensures { IfOk result (λ needed. AreMarked needed.items (input_numbers self.now)) }
    {
        let mut needed = vec![in alloc; false; self.paths()]?;
        for place in 0..self.edges() {
            mark(&mut needed, self.inputs(self.manifest.edge(place)));
        }
        Ok(needed)
    }

    /// All outputs in reading order, but for those that are marked as needed.
    fn outputs_but(&self, alloc: Global, needed: &[bool]) -> Result<Vec<PathId>, AllocError>
        ensures { IfOk result (λ free. free.items ≡ free_of needed.now (output_numbers self.now)) }
    {
        let mut free = Vec::new(alloc);
        for place in 0..self.edges() {
            add_free(&mut free, self.outputs(self.manifest.edge(place)), needed)?;
        }
        Ok(free)
    }
}

/// Marks each of these.
fn mark(marks: &mut [bool], paths: &[PathId])
    requires { All (λ p. p < length marks.old) paths.now }
    ensures fits { length marks.new ≡ length marks.old }
    ensures marked { (p : ℕ) → get_or marks.new p false ≡ (get_or marks.old p false || has_number paths.now p) }
{
    for path in paths {
        marks[path.index()] = true;
    }
}

/// Adds those of the paths that are not marked as needed.
fn add_free(free: &mut Vec<PathId>, paths: &[PathId], needed: &[bool]) -> Result<(), AllocError>
    ensures { OnOk result (free.new.items ≡ free.old.items ++ free_of needed.now paths.now) }
{
    for path in paths {
        if !is_marked(needed, *path) {
            free.push(*path)?;
        }
    }
    Ok(())
}

/// Whether the path has a mark.
fn is_marked(marks: &[bool], path: PathId) -> bool
    ensures { result ≡ get_or marks.now path false }
{
    path.index() < marks.len() && marks[path.index()]
}
