//! Which edge makes each path.

ghost use Rattle.std.specs.Prelude.{◌≡◌, ◌<◌, ◌≤◌, ◌++◌, true, false, All, length, None, IfOk, IfErr, OnOk, IfSome, MatchOption};
ghost use Rattle.model.specs.Graph.{has_number};
ghost use Rattle.paths.specs.Numbers.{HaveOnePlace};
ghost use Rattle.paths.specs.Told.{graph_of, text_at};
ghost use Rattle.graph.specs.Held.{AreMakers, DyndepsAreInputs, DyndepIsInput};
ghost use Rattle.graph.specs.Gains.{AreFreed};
ghost use Rattle.graph.specs.Making.{IsFirstFlaw, IsFlawBelow, IsMakingFault, AreMakersBelow, HaveDyndepsBelow, HaveClaimed, IsClaimedTwice, IsOtherDyndep, IsFaultFor};

use crate::fault::GraphFault;
use paths::{Action, EdgeId, Manifest, PathId};
use std::alloc::{AllocError, Global};
use text::Path;

/// What is wrong with an edge.
#[derive(Clone, Copy, Debug)]
pub enum Flaw {
    /// An output that an edge before it makes, or the same edge once more.
    MadeTwice(PathId),
    /// A dyndep file that is none of its inputs.
    NoDyndepInput(PathId),
}

/// The edge that makes each path that a build line names; the fault of the lowest edge that has one.
pub fn makers_of(alloc: Global, manifest: &Manifest) -> Result<Vec<Option<EdgeId>>, GraphFault>
    ensures makers { IfOk result (λ makers. AreMakers manifest.now makers.items) }
    ensures dyndeps { OnOk result (DyndepsAreInputs manifest.now) }
    ensures fault { IfErr result (IsMakingFault (graph_of manifest.now).edges (length manifest.now.lines)) }
{
    makers_below(alloc, manifest, manifest.lines.len())
}

/// The same, of what the first so many edges make.
pub fn makers_below(
    alloc: Global,
    manifest: &Manifest,
    count: usize,
) -> Result<Vec<Option<EdgeId>>, GraphFault>
    requires { count ≤ length manifest.now.lines }
    ensures fits { IfOk result (λ makers. length makers.items ≡ length manifest.now.paths) }
    ensures makers { IfOk result (λ makers. AreMakersBelow manifest.now.lines makers.items count) }
    ensures dyndeps { OnOk result (HaveDyndepsBelow manifest.now count) }
    ensures once { OnOk result (HaveOnePlace manifest.now.paths) }
    ensures fault { IfErr result (IsMakingFault (graph_of manifest.now).edges count) }
{
    let mut makers = vec![in alloc; None; manifest.paths.len()]?;
    match claim_all(manifest, count, &mut makers) {
        Ok(()) => Ok(makers),
        Err(flaw) => Err(fault_of(alloc, manifest, flaw)?),
    }
}

/// The fault in texts.
fn fault_of(alloc: Global, manifest: &Manifest, flaw: Flaw) -> Result<GraphFault, AllocError>
    requires { IsFirstFlaw manifest.now flaw }
    ensures { IfOk result (IsFaultFor manifest.now.paths flaw) }
{
    match flaw {
        Flaw::MadeTwice(path) => Ok(GraphFault::MadeTwice(Path::from_str(
            alloc,
            manifest.paths.text(path),
        )?)),
        Flaw::NoDyndepInput(path) => Ok(GraphFault::NoDyndepInput(Path::from_str(
            alloc,
            manifest.paths.text(path),
        )?)),
    }
}

/// Makes each of the first so many edges the maker of its outputs; stops at the first flaw.
fn claim_all(manifest: &Manifest, count: usize, makers: &mut [Option<EdgeId>]) -> Result<(), Flaw>
    requires within { count ≤ length manifest.now.lines }
    requires fits { length makers.old ≡ length manifest.now.paths }
    requires none { All (λ maker. maker ≡ None) makers.old }
    ensures fits { length makers.new ≡ length makers.old }
    ensures makers { OnOk result (AreMakersBelow manifest.now.lines makers.new count) }
    ensures dyndeps { OnOk result (HaveDyndepsBelow manifest.now count) }
    ensures flaw { IfErr result (IsFlawBelow manifest.now count) }
{
    for place in 0..count {
        let edge = manifest.edge(place);
        claim(makers, manifest.lines.outputs(edge), edge)?;
        check_dyndep(manifest, edge)?;
    }
    Ok(())
}

/// Makes the edge the maker of these outputs; `MadeTwice` for the first that has one.
pub(crate) fn claim(
    makers: &mut [Option<EdgeId>],
    outputs: &[PathId],
    edge: EdgeId,
) -> Result<(), Flaw>
    requires { All (λ p. p < length makers.old) outputs.now }
    ensures fits { length makers.new ≡ length makers.old }
    ensures claimed { OnOk result (HaveClaimed makers.old makers.new outputs.now edge) }
    ensures twice { IfErr result (IsClaimedTwice makers.old outputs.now) }
{
    for output in outputs {
        if makers[output.index()].is_some() {
            return Err(Flaw::MadeTwice(*output));
        }
        makers[output.index()] = Some(edge);
    }
    Ok(())
}

/// Makes the edge the maker of these outputs, if none of them has one and none stands twice. Whether it is so; else nothing is changed.
pub(crate) fn claim_free(makers: &mut [Option<EdgeId>], outputs: &[PathId], edge: EdgeId) -> bool
    requires { All (λ p. p < length makers.old) outputs.now }
    ensures fits { length makers.new ≡ length makers.old }
    ensures claimed { result ≡ true → HaveClaimed makers.old makers.new outputs.now edge }
    ensures kept { result ≡ false → makers.new ≡ makers.old }
{
    for (done, path) in outputs.iter().enumerate() {
        if makers[path.index()].is_some() {
            free(makers, &outputs[..done]);
            return false;
        }
        makers[path.index()] = Some(edge);
    }
    true
}

/// Leaves these paths without a maker.
pub(crate) fn free(makers: &mut [Option<EdgeId>], paths: &[PathId])
    requires { All (λ p. p < length makers.old) paths.now }
    ensures { AreFreed paths.now makers.old makers.new }
{
    for path in paths {
        makers[path.index()] = None;
    }
}

/// `NoDyndepInput` where the edge names a dyndep file that is none of its inputs.
fn check_dyndep(manifest: &Manifest, edge: EdgeId) -> Result<(), Flaw>
    requires { edge < length manifest.now.lines }
    ensures ok { OnOk result (DyndepIsInput manifest.now edge) }
    ensures flaw { IfErr result (λ flaw. IsOtherDyndep manifest.now edge flaw) }
{
    if let Action::Command(command) = manifest.action(edge) {
        if let Some(file) = command.dyndep {
            if !has(manifest.lines.inputs(edge), file) {
                return Err(Flaw::NoDyndepInput(file));
            }
        }
    }
    Ok(())
}

/// Whether the path is one of these.
fn has(paths: &[PathId], path: PathId) -> bool
    ensures { result ≡ has_number paths.now path }
{
    for one in paths {
        if *one == path {
            return true;
        }
    }
    false
}
