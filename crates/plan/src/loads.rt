//! Which dyndep files are loaded, and in which order.

ghost use Rattle.std.specs.Prelude.{◌≡◌, ◌<◌, ℕ, true, false, is_some, length, IfOk, OnOk, IfSome, MatchOption};
ghost use Rattle.plan.specs.Flags.{has};
ghost use Rattle.graph.specs.Links.{links_of};
ghost use Rattle.plan.specs.Loads.{named_by, AreLoads, NoneIsWanted, AreWanted, IsTaken, NoneIsTaken, HavePushed};

use crate::first::is_there;
use crate::step::Standing;
use graph::Graph;
use paths::{EdgeId, PathId};
use std::alloc::{AllocError, Global};

/// The dyndep files that edges of the cone name, in the order in which they are loaded: those that no edge makes go before the
/// others, and then those that are named first, by whatever edge.
pub fn loads_of(
    alloc: Global,
    graph: &Graph,
    standings: &[Standing],
) -> Result<Vec<PathId>, AllocError>
    requires { length standings.now ≡ length graph.now.manifest.lines }
    ensures { IfOk result (λ loads. AreLoads graph.now standings.now loads.items) }
{
    if !names_any(graph, standings) {
        return Ok(Vec::new(alloc));
    }
    let mut wanted = wanted(alloc, graph, standings)?;
    let mut loads = Vec::new(alloc);
    push_wanted(graph, &mut wanted, false, &mut loads)?;
    push_wanted(graph, &mut wanted, true, &mut loads)?;
    Ok(loads)
}

/// Whether an edge of the cone names a dyndep file.
fn names_any(graph: &Graph, standings: &[Standing]) -> bool
    requires { length standings.now ≡ length graph.now.manifest.lines }
    ensures { result ≡ false → NoneIsWanted graph.now standings.now }
{
    for (place, standing) in standings.iter().enumerate() {
        if named_by(graph, *standing, place).is_some() {
            return true;
        }
    }
    false
}

/// The dyndep file that the edge names, where it stands in the cone.
fn named_by(graph: &Graph, standing: Standing, place: usize) -> Option<PathId>
    requires { place < length graph.now.manifest.lines }
    ensures value { result ≡ named_by graph.now standing place }
    ensures within { IfSome result (λ file. file < length graph.now.manifest.paths) }
{
    match standing {
        Standing::Outside => None,
        _ => graph.dyndep(graph.manifest.edge(place)),
    }
}

/// For each path whether it is a dyndep file that an edge of the cone names.
fn wanted(alloc: Global, graph: &Graph, standings: &[Standing]) -> Result<Vec<bool>, AllocError>
    requires { length standings.now ≡ length graph.now.manifest.lines }
    ensures { IfOk result (λ flags. AreWanted graph.now standings.now flags.items) }
{
    let mut wanted = vec![in alloc; false; graph.paths()]?;
    for (place, standing) in standings.iter().enumerate() {
        if let Some(file) = named_by(graph, *standing, place) {
            wanted[file.index()] = true;
        }
    }
    Ok(wanted)
}

/// Puts the wanted files that an edge makes, or those that none does, behind the others, in the order of the first edge that
/// names them. They are not wanted any more.
fn push_wanted(
    graph: &Graph,
    wanted: &mut [bool],
    made: bool,
    loads: &mut Vec<PathId>,
) -> Result<(), AllocError>
    ensures length { length wanted.new ≡ length wanted.old }
    ensures pushed { OnOk result (HavePushed graph.now made wanted.old wanted.new loads.old.items loads.new.items) }
{
    for place in 0..graph.edges() {
        if let Some(file) = taken_by(graph, wanted, made, place) {
            wanted[file.index()] = false;
            loads.push(file)?;
        }
    }
    Ok(())
}

/// The file that the edge names, where it is wanted, and is made or a source.
fn taken_by(graph: &Graph, wanted: &[bool], made: bool, place: usize) -> Option<PathId>
    requires { place < length graph.now.manifest.lines }
    ensures { MatchOption result (NoneIsTaken graph.now wanted.now made place) (IsTaken graph.now wanted.now made place) }
{
    match graph.dyndep(graph.manifest.edge(place)) {
        Some(file) if is_taken(graph, wanted, made, file) => Some(file),
        _ => None,
    }
}

fn is_taken(graph: &Graph, wanted: &[bool], made: bool, file: PathId) -> bool
    ensures only { result ≡ true → (has wanted.now file ≡ true) × (is_some ((links_of graph.now).maker file) ≡ made) }
    ensures all { has wanted.now file ≡ true → is_some ((links_of graph.now).maker file) ≡ made → result ≡ true }
{
    is_there(wanted, file) && graph.maker(file).is_some() == made
}
