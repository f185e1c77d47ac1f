//! What an edge reads.

ghost use Rattle.std.specs.Prelude.{◌≡◌, ◌<◌, ℕ, suc, true, false, List, Some, IfSome, IfOk, OnOk, length, nat_eq};
ghost use Rattle.indexmap.specs.IndexSet.{insert_all};
ghost use Rattle.graph.specs.Links.{links_of};
ghost use Rattle.graph.specs.Alias.{alias_at, counts_if_present, aliases_for, any_alias};
ghost use Rattle.graph.specs.ReadingOf.{edges_in, IsReadingOf};

use crate::graph::Graph;
use indexmap::IndexSet;
use paths::{EdgeId, PathId};
use std::alloc::{AllocError, Global};

/// The edges whose regular inputs an edge reads. No path is copied: a path that several of them name is met with each.
#[derive(Debug, Drop)]
pub enum Reading {
    /// The edge itself, which reads through no alias.
    Itself(EdgeId),
    /// The edge itself first, then the phony edges that it reads through, each once.
    Through(Vec<EdgeId>),
}

impl Graph {
    /// What the edge reads: its explicit and implicit inputs and, for each of them that a phony edge makes, what that edge
    /// reads. The path of a phony stays too: it counts where its file is present, and always where the phony has no
    /// inputs, as `counts_if_present` tells (manual: "The `phony` rule"). The graph may have cycles. A call takes time
    /// for the edges that it meets and their regular inputs, and memory for the edges alone, if there is an alias.
    pub fn reading(&self, alloc: Global, edge: EdgeId) -> Result<Reading, AllocError>
        requires { edge < length self.now.manifest.lines }
        ensures { IfOk result (λ reading. IsReadingOf self.now edge (edges_in reading)) }
    {
        if !self.reads_alias(edge) {
            return Ok(Reading::Itself(edge));
        }
        let mut edges = IndexSet::new(alloc);
        edges.insert(edge)?;
        let mut place = 0;
        while let Some(next) = edges.as_slice().get(place).copied() {
            self.add_aliases(&mut edges, next)?;
            place += 1;
        }
        Ok(Reading::Through(edges.as_slice().to_vec(alloc)?))
    }

    /// Adds the phony edges that make regular inputs of the edge.
    fn add_aliases(&self, edges: &mut IndexSet<EdgeId>, edge: EdgeId) -> Result<(), AllocError>
        requires { edge < length self.now.manifest.lines }
        ensures { OnOk result (edges.new.keys ≡ insert_all nat_eq edges.old.keys (aliases_for self.now edge)) }
    {
        for path in self.regular_inputs(edge) {
            if let Some(alias) = self.alias(*path) {
                edges.insert(alias)?;
            }
        }
        Ok(())
    }

    /// Whether the path counts only where its file is present: a phony edge that has inputs makes it.
    pub fn counts_if_present(&self, path: PathId) -> bool
        ensures { result ≡ counts_if_present (links_of self.now) path }
    {
        match self.alias(path) {
            Some(edge) => !self.inputs(edge).is_empty(),
            None => false,
        }
    }

    /// Whether the edge names a regular input that a phony edge makes.
    fn reads_alias(&self, edge: EdgeId) -> bool
        requires { edge < length self.now.manifest.lines }
        ensures { result ≡ any_alias (links_of self.now) ((links_of self.now).regular edge) }
    {
        for path in self.regular_inputs(edge) {
            if self.alias(*path).is_some() {
                return true;
            }
        }
        false
    }

    /// The phony edge that makes the path, if one does.
    pub fn alias(&self, path: PathId) -> Option<EdgeId>
        ensures value { result ≡ alias_at (links_of self.now) path }
        ensures within { IfSome result (λ edge. edge < length self.now.manifest.lines) }
    {
        let edge = self.maker(path)?;
        if self.is_phony(edge) {
            Some(edge)
        } else {
            None
        }
    }
}
