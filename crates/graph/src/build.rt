//! From a manifest to a graph.

ghost use Rattle.std.specs.Prelude.{◌≡◌, ◌<◌, ℕ, All, List, [], length, IfOk, IfErr, OnOk};
ghost use Rattle.std.proofs.Math.ListN.{replicate};
ghost use Rattle.model.specs.Graph.{IsMadeOnce};
ghost use Rattle.model.specs.SingleBuild.{NamesOther};
ghost use Rattle.paths.specs.Numbers.{HaveOnePlace};
ghost use Rattle.paths.specs.Told.{graph_of};
ghost use Rattle.graph.specs.Held.{AreMakers, AreUsers, DyndepsAreInputs};
ghost use Rattle.graph.specs.Linked.{IsFaultOf};
ghost use Rattle.graph.specs.Occupying.{AreApart};
ghost use Rattle.graph.specs.Told.{recorded_by};

use crate::fault::GraphFault;
use crate::graph::Graph;
use crate::makers::makers_below;
use crate::recorded::Recorded;
use crate::side_files::{fault_at, first_occupied, stop_at};
use crate::users::Users;
use paths::{EdgeId, Manifest, PathId};
use std::alloc::{AllocError, Global};
use text::Items;

impl Graph {
    /// The graph of what build files declare, which it takes over. Nothing is recorded. The folder is that of the program's own
    /// files: its canonical path, which is empty for the working folder.
    ///
    /// `MadeTwice`, `NoDyndepInput` and `Occupied` tell of the lowest edge that has such a fault, in this order at one edge:
    /// `MadeTwice` has its first output that an edge before it makes, or it itself once more; `Occupied` its depfile, else its
    /// response file. Each of these two is looked up once in the table of paths; only where one is found there, or is one of the
    /// program's own files, the build lines are gone through once more.
    pub fn build(alloc: Global, manifest: Manifest, folder: &str) -> Result<Graph, GraphFault>
        ensures manifest { IfOk result (λ graph. graph.manifest ≡ manifest) }
        ensures once { OnOk result (IsMadeOnce (graph_of manifest).edges) }
        ensures dyndep { OnOk result ((file : List ℕ) → NamesOther (graph_of manifest).edges file → ⊥) }
        ensures apart { OnOk result (AreApart folder.now (graph_of manifest).edges) }
        ensures recorded { IfOk result (λ graph. (i : ℕ) → recorded_by graph i ≡ []) }
        ensures fault { IfErr result (IsFaultOf folder.now (graph_of manifest).edges) }
    {
        let occupied = first_occupied(alloc, &manifest, folder)?;
        // an edge after the one whose file is occupied is not asked for other faults
        let makers = makers_below(alloc, &manifest, stop_at(&manifest, occupied))?;
        match occupied {
            Some(at) => Err(fault_at(alloc, &manifest, at)?),
            None => Ok(graph_with(alloc, manifest, makers)?),
        }
    }
}

/// The graph of these makers, in which nothing is recorded.
fn graph_with(
    alloc: Global,
    manifest: Manifest,
    makers: Vec<Option<EdgeId>>,
) -> Result<Graph, AllocError>
    requires makers { AreMakers manifest makers.items }
    requires dyndeps { DyndepsAreInputs manifest }
    ensures manifest { IfOk result (λ graph. graph.manifest ≡ manifest) }
    ensures recorded { IfOk result (λ graph. (i : ℕ) → recorded_by graph i ≡ []) }
{
    let recorded = Recorded::none(alloc, manifest.lines.len())?;
    let counts = input_counts(alloc, &manifest)?;
    let users = users_of(alloc, &manifest, &counts)?;
    Ok(Graph {
        manifest,
        makers: Items::from_vec(makers),
        recorded,
        users,
    })
}

/// For each path the edges that name it, as many as its count: where a path has more, its list moves.
fn users_of(alloc: Global, manifest: &Manifest, counts: &[usize]) -> Result<Users, AllocError>
    requires { length counts.now ≡ length manifest.now.paths }
    ensures { IfOk result (AreUsers manifest.now (replicate (length manifest.now.lines) [])) }
{
    let mut users = Users::with_rooms(alloc, counts)?;
    use_inputs(&mut users, manifest)?;
    Ok(users)
}

/// Puts each edge behind those that name its inputs.
fn use_inputs(users: &mut Users, manifest: &Manifest) -> Result<(), AllocError>
    requires { users.old ≡ replicate (length manifest.now.paths) [] }
    ensures { OnOk result (AreUsers manifest.now (replicate (length manifest.now.lines) []) users.new) }
{
    for place in 0..manifest.lines.len() {
        let edge = manifest.edge(place);
        users.push_all(manifest.lines.inputs(edge), edge)?;
    }
    Ok(())
}

/// How often each path is an input.
fn input_counts(alloc: Global, manifest: &Manifest) -> Result<Vec<usize>, AllocError>
    ensures fits { IfOk result (λ counts. length counts.items ≡ length manifest.now.paths) }
    ensures apart { OnOk result (HaveOnePlace manifest.now.paths) }
{
    let mut counts = vec![in alloc; 0usize; manifest.paths.len()]?;
    for place in 0..manifest.lines.len() {
        let edge = manifest.edge(place);
        count_paths(&mut counts, manifest.lines.inputs(edge));
    }
    Ok(counts)
}

/// Each of these paths is counted once more.
fn count_paths(counts: &mut [usize], paths: &[PathId])
    requires { All (λ p. p < length counts.old) paths.now }
    ensures { length counts.new ≡ length counts.old }
{
    for path in paths {
        let count = counts[path.index()];
        counts[path.index()] = count.saturating_add(1);
    }
}
