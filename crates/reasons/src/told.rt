//! The commands that are due, with what is told of each.

ghost use Rattle.std.specs.Prelude.{◌≡◌, ◌<◌, ℕ, [], All, IfOk, OnOk, true, false, length, map, filter};
ghost use Rattle.model.specs.Calls.{HasCause};
ghost use Rattle.model.specs.Graph.{has_number};
ghost use Rattle.graph.specs.Links.{links_of};
ghost use Rattle.graph.specs.ReadingOf.{edges_in};
ghost use Rattle.judge.specs.Looking.{HasLookedAt};
ghost use Rattle.judge.specs.Dues.{due_at};
ghost use Rattle.judge.specs.Judged.{DoesCommand};
ghost use Rattle.judge.specs.Summed.{AreSums};
ghost use Rattle.reasons.specs.Why.{AreNotPhony, IsTold, FindsWhy, TellsDue, TellsEdge, TellsWhy, edge_in};

use crate::asked::ask_for;
use crate::flags::commands_due;
use crate::inputs::first_input;
use crate::order::in_order;
use crate::outputs::{first_output, summary_of};
use crate::table::{first_found, is_sure, told_reason};
use graph::{Cone, Graph, Reading, numbers_stand};
use judge::{Looks, Reason, looks_follow, sums_follow};
use model::SiteFault;
use paths::{Action, Command, EdgeId, PathId};
use records::Records;
use site::Site;
use std::alloc::Global;
use std::slice;

/// A command that is due, and why.
#[derive(Clone, Copy, Debug, PartialEq, Eq)]
pub struct DueCommand {
    pub edge: EdgeId,
    /// The first reason of the table that holds. `InputChanged` stands for what a due command will make anew.
    pub reason: Reason,
    /// The first path of which it holds, of the outputs, or of the reading set and then of the recorded inputs. None where it is about the
    /// depfile of the command.
    pub path: Option<PathId>,
    /// Whether the command will be judged out of date whatever those before it leave. Else it may turn out not to be needed: it reads
    /// only what due commands with `restat` make, or commands that are not sure themselves.
    pub is_sure: bool,
}

/// The due commands of the cone, makers first and else by number, and why each is due: `due` says of each edge whether it is in the
/// cone and due, before anything runs. The reason is the first of the table that holds, where each due command is taken to make anew what
/// it makes; the path is the first of which it holds, of the outputs, or of the reading set and then of the recorded inputs, in their order.
///
/// It only looks. What was seen of a path is not asked for again, but for depfiles. It takes time for the outputs and inputs of each due
/// command, and for what it reads through phony edges.
pub fn due_commands<S: Site>(
    alloc: Global,
    site: &mut S,
    graph: &Graph,
    cone: &Cone,
    looks: &mut Looks,
    records: &Records,
    due: &[bool],
) -> Result<Vec<DueCommand>, SiteFault>
    requires running { (S.world site.old).stopped ≡ false }
    requires fits { length looks.old.seen.items ≡ length graph.now.manifest.paths }
    requires due { length due.now ≡ length graph.now.manifest.lines }
    ensures looked { HasLookedAt S.tells S.world site.old site.new graph.now looks.old looks.new }
    ensures cause { HasCause (S.world site.old) (S.world site.new) result }
    ensures within { IfOk result (λ told. All (λ command. command.edge < length graph.now.manifest.lines) told.items) }
    ensures told { TellsDue S.tells S.world site.old site.new graph.now cone.now records.now due.now looks.old looks.new result }
{
    let flags = commands_due(alloc, graph, due)?;
    let order = in_order(alloc, graph, cone)?;
    let mut told = Vec::new(alloc);
    tell_all(
        alloc, site, graph, looks, records, &flags, &order, &mut told,
    )?;
    Ok(told)
}

/// Tells of each of these edges that has a flag why it is due.
fn tell_all<S: Site>(
    alloc: Global,
    site: &mut S,
    graph: &Graph,
    looks: &mut Looks,
    records: &Records,
    flags: &[bool],
    order: &[EdgeId],
    told: &mut Vec<DueCommand>,
) -> Result<(), SiteFault>
    requires running { (S.world site.old).stopped ≡ false }
    requires fits { length looks.old.seen.items ≡ length graph.now.manifest.paths }
    requires order { All (λ e. e < length graph.now.manifest.lines) order.now }
    requires flags { length flags.now ≡ length graph.now.manifest.lines }
    requires commands { AreNotPhony graph.now flags.now }
    requires none { told.old.items ≡ [] }
    ensures looked { HasLookedAt S.tells S.world site.old site.new graph.now looks.old looks.new }
    ensures cause { HasCause (S.world site.old) (S.world site.new) result }
    ensures listed { OnOk result (map edge_in told.new.items ≡ filter (due_at flags.now) order.now) }
    ensures all { TellsWhy S.tells S.world site.old site.new graph.now records.now flags.now looks.old looks.new told.new result }
{
    looks_follow();
    let mut firm = vec![in alloc; false; graph.edges()]?;
    looks.sums.clear();
    for edge in order {
        tell_one(
            alloc, site, graph, looks, records, flags, &mut firm, told, *edge,
        )?;
    }
    Ok(())
}

/// Tells of the edge, where it has a flag.
fn tell_one<S: Site>(
    alloc: Global,
    site: &mut S,
    graph: &Graph,
    looks: &mut Looks,
    records: &Records,
    flags: &[bool],
    firm: &mut Vec<bool>,
    told: &mut Vec<DueCommand>,
    edge: EdgeId,
) -> Result<(), SiteFault>
    requires running { (S.world site.old).stopped ≡ false }
    requires fits { length looks.old.seen.items ≡ length graph.now.manifest.paths }
    requires within { edge < length graph.now.manifest.lines }
    requires flags { length flags.now ≡ length graph.now.manifest.lines }
    requires commands { AreNotPhony graph.now flags.now }
    requires firm { length firm.old.items ≡ length graph.now.manifest.lines }
    requires summed { AreSums graph.now [] looks.old.seen.items looks.old.sums }
    ensures looked { HasLookedAt S.tells S.world site.old site.new graph.now looks.old looks.new }
    ensures cause { HasCause (S.world site.old) (S.world site.new) result }
    ensures summed { AreSums graph.now [] looks.new.seen.items looks.new.sums }
    ensures firm { length firm.new.items ≡ length graph.now.manifest.lines }
    ensures told { TellsEdge S.tells S.world site.old site.new graph.now records.now flags.now looks.old looks.new edge told.old told.new result }
{
    looks_follow();
    if !has_flag(flags, edge) {
        return Ok(());
    }
    let command = due_command(
        alloc,
        site,
        graph,
        looks,
        records,
        flags,
        firm.as_slice(),
        edge,
    )?;
    firm[edge.index()] = command.is_sure && !has_restat(graph, edge);
    told.push(command)?;
    Ok(())
}

/// Whether the edge has a flag.
fn has_flag(flags: &[bool], edge: EdgeId) -> bool
    ensures { result ≡ due_at flags.now edge }
{
    flags.get(edge.index()).copied().unwrap_or(false)
}

/// Why the command of the edge is due.
fn due_command<S: Site>(
    alloc: Global,
    site: &mut S,
    graph: &Graph,
    looks: &mut Looks,
    records: &Records,
    flags: &[bool],
    firm: &[bool],
    edge: EdgeId,
) -> Result<DueCommand, SiteFault>
    requires running { (S.world site.old).stopped ≡ false }
    requires fits { length looks.old.seen.items ≡ length graph.now.manifest.paths }
    requires within { edge < length graph.now.manifest.lines }
    requires command { (links_of graph.now).phony edge ≡ false }
    requires flags { length flags.now ≡ length graph.now.manifest.lines }
    requires firm { length firm.now ≡ length graph.now.manifest.lines }
    requires summed { AreSums graph.now [] looks.old.seen.items looks.old.sums }
    ensures looked { HasLookedAt S.tells S.world site.old site.new graph.now looks.old looks.new }
    ensures cause { HasCause (S.world site.old) (S.world site.new) result }
    ensures summed { AreSums graph.now [] looks.new.seen.items looks.new.sums }
    ensures edge { IfOk result (λ command. command.edge ≡ edge) }
    ensures why { FindsWhy S.tells S.world site.old site.new graph.now records.now flags.now looks.old looks.new edge result }
{
    looks_follow();
    sums_follow();
    let found = looks.reason(site, graph, records, &[], edge)?;
    let reading = graph.reading(alloc, edge)?;
    let edges = edges_of(&reading);
    ask_for(site, graph, looks, edges, edge)?;
    Ok(told_of(graph, looks, records, flags, firm, found, edges, edge))
}

/// What is told of the edge, of which the judgement found this, and which reads the regular inputs of these edges.
fn told_of(
    graph: &Graph,
    looks: &Looks,
    records: &Records,
    flags: &[bool],
    firm: &[bool],
    found: Option<Reason>,
    edges: &[EdgeId],
    edge: EdgeId,
) -> DueCommand
    requires within { edge < length graph.now.manifest.lines }
    requires command { (links_of graph.now).phony edge ≡ false }
    requires edges { (d : ℕ) → has_number edges.now d ≡ true → d < length graph.now.manifest.lines }
    requires flags { length flags.now ≡ length graph.now.manifest.lines }
    requires firm { length firm.now ≡ length graph.now.manifest.lines }
    ensures edge { result.edge ≡ edge }
    ensures told { IsTold graph.now records.now flags.now firm.now looks.now.seen.items found edges.now edge result }
{
    let command = command_of(graph, edge);
    let outputs = graph.outputs(edge);
    let summary = summary_of(looks, records, &command.act, outputs);
    let changed = Reason::InputChanged;
    let anew = first_input(graph, looks, flags, summary, changed, edges, edge);
    let sure = first_input(graph, looks, firm, summary, changed, edges, edge);
    let reason = told_reason(found, anew);
    let made = first_output(looks, records, &command.act, reason, outputs);
    let read = first_input(graph, looks, flags, summary, reason, edges, edge);
    DueCommand {
        edge,
        reason,
        path: first_found(made, read),
        is_sure: is_sure(found, sure),
    }
}

/// The edges whose regular inputs are read.
fn edges_of(reading: &Reading) -> &[EdgeId]
    ensures { result.now ≡ edges_in reading.now }
{
    match reading {
        Reading::Itself(edge) => slice::from_ref(edge),
        Reading::Through(edges) => edges.as_slice(),
    }
}

/// What the edge does.
fn command_of(graph: &Graph, edge: EdgeId) -> &Command
    requires within { edge < length graph.now.manifest.lines }
    requires command { (links_of graph.now).phony edge ≡ false }
    ensures { DoesCommand graph.now edge result.now }
{
    numbers_stand(graph);
    match graph.manifest.action(edge) {
        Action::Alias => unreachable!(),
        Action::Command(command) => command,
    }
}

/// Whether outputs that the command leaves alone count as unchanged (manual: `restat`).
fn has_restat(graph: &Graph, edge: EdgeId) -> bool
    requires within { edge < length graph.now.manifest.lines }
{
    match graph.manifest.action(edge) {
        Action::Alias => false,
        Action::Command(command) => command.restat,
    }
}
