//! What is built, and the edges that make it.

ghost use Rattle.std.specs.Prelude.{◌≡◌, IfOk, IfErr, vec_len, length};
ghost use Rattle.graph.specs.Links.{AllPaths, AllEdges};
ghost use Rattle.graph.specs.Told.{declared_by, path_texts};
ghost use Rattle.graph.specs.Targets.{IsOrdered, IsConeOfTargets, IsConeOfPaths, LackCone, LackConeAgain, IsUnknownIn, LinesName, AreTargetPaths, AreMakersIn};

use crate::cone::{Cone, ConeFault};
use crate::graph::Graph;
use paths::{EdgeId, PathId};
use std::alloc::{AllocError, Global};
use text::Path;

impl Graph {
    /// The edges that a build of these canonical targets needs, each once and after the makers of its inputs and recorded
    /// inputs: those that make the targets and, of each edge, those that make its inputs, its recorded inputs and its
    /// validations. Where there are no targets, they are the defaults, else the outputs that no edge needs, else all
    /// outputs (manual: "Default target statements").
    ///
    /// `Unknown` where a target is named by no build line, recorded inputs or not: the place of the first such one. No
    /// build line names the empty path, which stands for a target without a canonical one. `Cycle` where edges of the
    /// cone need one another in a circle; validations make none.
    pub fn cone(&self, alloc: Global, targets: &[Path]) -> Result<Cone, ConeFault>
        ensures marks { IfOk result (λ cone. vec_len cone.marks ≡ length self.now.manifest.lines) }
        ensures ordered { IfOk result (IsOrdered self.now) }
        ensures cone { IfOk result (λ cone. IsConeOfTargets self.now targets.now cone) }
        ensures fault { IfErr result (λ fault. LackCone self.now targets.now fault) }
    {
        let numbers = self.targets(alloc, targets)?;
        let requested = self.makers_of(alloc, &numbers)?;
        Cone::of(alloc, self, numbers, &requested)
    }

    /// The cone of the same targets, as an earlier one has them in numbers, once a dyndep file was loaded. `Cycle` where edges
    /// of it need one another in a circle.
    pub fn cone_again(&self, alloc: Global, targets: Vec<PathId>) -> Result<Cone, ConeFault>
        requires { AllPaths self.now targets.items }
        ensures marks { IfOk result (λ cone. vec_len cone.marks ≡ length self.now.manifest.lines) }
        ensures ordered { IfOk result (IsOrdered self.now) }
        ensures cone { IfOk result (λ cone. IsConeOfPaths self.now targets.items cone) }
        ensures fault { IfErr result (λ fault. LackConeAgain self.now targets.items fault) }
    {
        let requested = self.makers_of(alloc, &targets)?;
        Cone::of(alloc, self, targets, &requested)
    }

    /// What is built where these targets are asked for.
    fn targets(&self, alloc: Global, asked: &[Path]) -> Result<Vec<PathId>, ConeFault>
        ensures within { IfOk result (λ targets. AllPaths self.now targets.items) }
        ensures targets { IfOk result (λ targets. AreTargetPaths self.now asked.now targets.items) }
        ensures named { IfOk result (λ _. LinesName self.now asked.now) }
        ensures fault { IfErr result (IsUnknownIn (declared_by self.now).edges asked.now) }
    {
        if !asked.is_empty() {
            self.numbers_of(alloc, asked)
        } else if !self.manifest.defaults.is_empty() {
            Ok(self.manifest.defaults.as_slice().to_vec(alloc)?)
        } else {
            Ok(self.default_targets(alloc)?)
        }
    }

    /// The numbers of these targets; `Unknown` for the first that no build line names.
    fn numbers_of(&self, alloc: Global, asked: &[Path]) -> Result<Vec<PathId>, ConeFault>
        ensures within { IfOk result (λ targets. AllPaths self.now targets.items) }
        ensures targets { IfOk result (λ targets. path_texts self.now targets.items ≡ asked.now) }
        ensures named { IfOk result (λ _. LinesName self.now asked.now) }
        ensures fault { IfErr result (IsUnknownIn (declared_by self.now).edges asked.now) }
    {
        let mut numbers = Vec::new(alloc);
        for (place, target) in asked.iter().enumerate() {
            match self.manifest.number_of(target.as_str()) {
                Some(number) => numbers.push(number)?,
                None => return Err(ConeFault::Unknown(place)),
            }
        }
        Ok(numbers)
    }

    /// The edges that make these paths, once for each path; sources have none.
    fn makers_of(&self, alloc: Global, targets: &[PathId]) -> Result<Vec<EdgeId>, AllocError>
        requires { AllPaths self.now targets.now }
        ensures within { IfOk result (λ edges. AllEdges self.now edges.items) }
        ensures makers { IfOk result (λ edges. AreMakersIn self.now targets.now edges.items) }
    {
        let mut edges = Vec::new(alloc);
        for target in targets {
            if let Some(edge) = self.maker(*target) {
                edges.push(edge)?;
            }
        }
        Ok(edges)
    }
}
