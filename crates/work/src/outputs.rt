//! What becomes of the outputs of a command with `restat` (manual: "Rule variables", `restat`).

ghost use Rattle.std.specs.Prelude.{◌≡◌, ◌<◌, IfOk, OnOk, false, suc, length};
ghost use Rattle.model.specs.Calls.{OnlyLooks, HasCause};
ghost use Rattle.model.specs.Graph.{IsCommand};
ghost use Rattle.graph.specs.Told.{declared_by};
ghost use Rattle.judge.specs.Looking.{HasLookedAt};
ghost use Rattle.work.specs.EdgeIn.{edge_in};
ghost use Rattle.work.specs.Restat.{is_same_look, AreLooksOf, AreFlagsOf, AreAskedBefore, SeesAnew, TellsChanges};

use graph::{Graph, lists_stand};
use judge::{Look, Looks};
use model::SiteFault;
use paths::{Action, EdgeId, PathId};
use site::Site;
use std::alloc::{AllocError, Global};

/// Whether the outputs of the edge count as changed only where their stamps differ.
pub fn has_restat(graph: &Graph, edge: EdgeId) -> bool
    requires { IsCommand (declared_by graph.now).edges (suc edge) }
    ensures { result ≡ (edge_in graph.now edge).restat }
{
    match graph.manifest.action(edge) {
        Action::Alias => unreachable!(),
        Action::Command(command) => command.restat,
    }
}

/// Asks for the outputs of an edge with `restat`: with what is seen now their stamps are compared when its command has ended.
pub fn ask_before<S: Site>(
    site: &mut S,
    graph: &Graph,
    looks: &mut Looks,
    edge: EdgeId,
) -> Result<(), SiteFault>
    requires running { (S.world site.old).stopped ≡ false }
    requires fits { length looks.old.seen.items ≡ length graph.now.manifest.paths }
    requires within { edge < length graph.now.manifest.lines }
    requires command { IsCommand (declared_by graph.now).edges (suc edge) }
    ensures looked { HasLookedAt S.tells S.world site.old site.new graph.now looks.old looks.new }
    ensures cause { HasCause (S.world site.old) (S.world site.new) result }
    ensures sums { looks.new.sums ≡ looks.old.sums }
    ensures asked { OnOk result (AreAskedBefore graph.now edge looks.new) }
{
    if !has_restat(graph, edge) {
        return Ok(());
    }
    lists_stand(graph);
    looks.ask(site, graph, graph.outputs(edge))
}

/// Looks anew at the outputs of the edge, and says of each whether its stamp differs from what was seen before. One that was
/// absent, or is, counts as changed.
pub fn changes<S: Site>(
    alloc: Global,
    site: &mut S,
    graph: &Graph,
    looks: &mut Looks,
    edge: EdgeId,
) -> Result<Vec<bool>, SiteFault>
    requires running { (S.world site.old).stopped ≡ false }
    requires fits { length looks.old.seen.items ≡ length graph.now.manifest.paths }
    requires within { edge < length graph.now.manifest.lines }
    ensures looks { OnlyLooks S.tells (S.world site.old) (S.world site.new) }
    ensures cause { HasCause (S.world site.old) (S.world site.new) result }
    ensures sums { looks.new.sums ≡ looks.old.sums }
    ensures anew { SeesAnew S.tells S.world site.old site.new graph.now edge looks.old looks.new result }
    ensures changes { IfOk result (λ flags. TellsChanges graph.now edge looks.old looks.new flags) }
{
    lists_stand(graph);
    let outputs = graph.outputs(edge);
    let before = looks_of(alloc, looks, outputs)?;
    looks.forget(outputs);
    looks.ask(site, graph, outputs)?;
    Ok(flags_of(alloc, looks, outputs, before.as_slice())?)
}

/// What was seen of these paths.
fn looks_of(alloc: Global, looks: &Looks, paths: &[PathId]) -> Result<Vec<Look>, AllocError>
    ensures { IfOk result (λ seen. AreLooksOf looks.now.seen.items paths.now seen.items) }
{
    let mut seen = Vec::with_capacity(alloc, paths.len())?;
    for path in paths {
        seen.push(looks.look(*path))?;
    }
    Ok(seen)
}

/// Whether what is seen of each of these paths differs from what was seen before.
fn flags_of(
    alloc: Global,
    looks: &Looks,
    paths: &[PathId],
    before: &[Look],
) -> Result<Vec<bool>, AllocError>
    requires { length before.now ≡ length paths.now }
    ensures { IfOk result (λ flags. AreFlagsOf looks.now.seen.items paths.now before.now flags.items) }
{
    let mut flags = Vec::with_capacity(alloc, paths.len())?;
    for place in 0..paths.len() {
        flags.push(!is_same_look(before[place], looks.look(paths[place])))?;
    }
    Ok(flags)
}

/// Whether both show a file, of one stamp.
fn is_same_look(before: Look, after: Look) -> bool
    ensures { result ≡ is_same_look before after }
{
    match (before, after) {
        (Look::Stamp(before), Look::Stamp(after)) => before == after,
        _ => false,
    }
}
