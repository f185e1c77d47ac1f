//! Why commands are due, before anything runs.

ghost use Rattle.std.specs.Prelude.{◌≡◌, ◌<◌, All, IfOk, OnOk, false, length};
ghost use Rattle.std.specs.Option.{option_map};
ghost use Rattle.model.specs.Calls.{OnlyLooks};
ghost use Rattle.model.specs.World.{IsIdle};
ghost use Rattle.graph.specs.Told.{declared_by};
ghost use Rattle.manifest.specs.Answer.{IsGraph};
ghost use Rattle.paths.specs.Told.{graph_of, text_at};
ghost use Rattle.builder.specs.Explained.{AreSaid, IsSaid, ExplainsFrom, BeginsStill, ExplainsReading, ExplainsGraph, SaysDueAt, TellsDueAt};
ghost use Rattle.work.specs.Answered.{AreAnswersOf};
ghost use Rattle.work.specs.Standing.{IsBeginning};
ghost use Rattle.builder.specs.Reports.{IsLinked};
ghost use Rattle.work.specs.After.{SeesFiles};

use crate::asked::Asked;
use crate::explained::{Acts, Explained, Explanation};
use crate::one_build::opened;
use crate::reading::{Reading, read};
use depfile::has_reading;
use dyndep_law::has_reading as has_dyndeps;
use graph::{Cone, Graph};
use log_text::has_format;
use model::{Act, Reason, SiteFault};
use paths::{Action, EdgeId, PathId};
use reasons::{DueCommand, due_commands};
use records::Records;
use site::Site;
use std::alloc::{AllocError, Global};
use text::{Path, Text};
use work::{
    Options, Report, Stop, Work, first_output, makers_stand_first, orders_stand, path_text,
    source_to_load, sources_load,
};

/// Why commands are due that [`crate::build`] would start, by what the build files, the logs and the files say now. It takes the same
/// stages up to the first start, and refuses what that refuses by then, with the same report: dyndep files that no edge makes are loaded.
/// Nothing is started or written, the logs neither.
pub fn explain<S: Site>(
    alloc: Global,
    site: &mut S,
    options: &Options,
    targets: &[Text],
) -> Result<Explained, Report>
    requires { IsIdle (S.world site.old).events }
    ensures { OnlyLooks S.tells (S.world site.old) (S.world site.new) }
{
    match read(alloc, site, options, targets) {
        Ok(reading) => explain_read(alloc, site, reading, options),
        Err(report) => Err(report),
    }
}

/// The same of what was read ([`crate::read`]), as [`crate::build_read`] would build it.
pub fn explain_read<S: Site>(
    alloc: Global,
    site: &mut S,
    reading: Reading<'_>,
    options: &Options,
) -> Result<Explained, Report>
    requires idle { IsIdle (S.world site.old).events }
    requires running { (S.world site.old).stopped ≡ false }
    requires formed { IsGraph (graph_of reading.manifest) }
    ensures looks { OnlyLooks S.tells (S.world site.old) (S.world site.new) }
    ensures explains { ExplainsReading S.tells S.world site.old site.new reading.entry result }
{
    let Reading { manifest, asked } = reading;
    let graph = Graph::build(alloc, manifest, asked.folder.as_str())?;
    explain_linked(alloc, site, graph, &asked, options)
}

/// The same of a graph that has no recorded inputs yet.
fn explain_linked<S: Site>(
    alloc: Global,
    site: &mut S,
    graph: Graph,
    asked: &Asked<'_>,
    options: &Options,
) -> Result<Explained, Report>
    requires idle { IsIdle (S.world site.old).events }
    requires running { (S.world site.old).stopped ≡ false }
    requires formed { IsGraph (declared_by graph) }
    requires linked { IsLinked graph }
    ensures looks { OnlyLooks S.tells (S.world site.old) (S.world site.new) }
    ensures explains { ExplainsGraph S.tells S.world site.old site.new graph asked.now result }
{
    has_format();
    has_reading();
    has_dyndeps();
    let mut state = opened(alloc, site, graph, asked, options)?;
    explain_state(site, &mut state)
}

/// The same of a run that begins.
fn explain_state<S: Site>(site: &mut S, state: &mut Work<'_>) -> Result<Explained, Report>
    requires running { (S.world site.old).stopped ≡ false }
    requires begins { IsBeginning S.tells state.old (S.world site.old) }
    requires known { AreAnswersOf state.old }
    ensures looks { OnlyLooks S.tells (S.world site.old) (S.world site.new) }
    ensures explains { ExplainsFrom S.tells S.world site.old site.new state.old result }
{
    load_sources(site, state)?;
    Ok(explain_run(site, state)?)
}

/// Loads the dyndep files that no edge makes, as a build does before anything is started.
fn load_sources<S: Site>(site: &mut S, state: &mut Work<'_>) -> Result<(), Stop>
    requires running { (S.world site.old).stopped ≡ false }
    requires begins { IsBeginning S.tells state.old (S.world site.old) }
    requires known { AreAnswersOf state.old }
    ensures looks { OnlyLooks S.tells (S.world site.old) (S.world site.new) }
    ensures running { OnOk result ((S.world site.new).stopped ≡ false) }
    ensures known { OnOk result (AreAnswersOf state.new) }
    ensures begun { BeginsStill S.tells S.world site.old site.new state.old state.new result }
{
    sources_load();
    'sources: loop {
        match source_to_load(&state.graph, &state.plan) {
            Some(file) => state.load(site, file)?,
            None => return Ok(()),
        }
    }
}

/// The same where no dyndep file that no edge makes is to be loaded.
fn explain_run<S: Site>(site: &mut S, state: &mut Work<'_>) -> Result<Explained, Stop>
    requires running { (S.world site.old).stopped ≡ false }
    requires begins { IsBeginning S.tells state.old (S.world site.old) }
    requires known { AreAnswersOf state.old }
    ensures looks { OnlyLooks S.tells (S.world site.old) (S.world site.new) }
    ensures tells { TellsDueAt S.tells S.world site.old site.new state.old state.new result }
{
    orders_stand(&state.graph);
    makers_stand_first(&state.graph);
    let due = state.check_sources(site)?;
    let explained = explain_due(site, state, &due)?;
    Ok(explained)
}

/// Why the commands are due that have a flag.
fn explain_due<S: Site>(
    site: &mut S,
    state: &mut Work<'_>,
    due: &[bool],
) -> Result<Explained, SiteFault>
    requires running { (S.world site.old).stopped ≡ false }
    requires fits { length state.old.looks.seen.items ≡ length state.old.graph.manifest.paths }
    requires order { All (λ e. e < length state.old.graph.manifest.lines) state.old.cone.order.items }
    requires due { length due.now ≡ length state.old.graph.manifest.lines }
    ensures looked { SeesFiles S.tells S.world site.old site.new state.old state.new }
    ensures says { SaysDueAt S.tells S.world site.old site.new due.now state.old state.new result }
{
    let alloc = state.alloc;
    let told = due_commands(
        alloc,
        site,
        &state.graph,
        &state.cone,
        &mut state.looks,
        &state.records,
        due,
    )?;
    let explained = explained_of(alloc, &state.graph, &state.cone, &state.records, &told)?;
    Ok(explained)
}

/// What is told of these commands of the cone.
fn explained_of(
    alloc: Global,
    graph: &Graph,
    cone: &Cone,
    records: &Records,
    told: &[DueCommand],
) -> Result<Explained, AllocError>
    requires edges { All (λ command. command.edge < length graph.now.manifest.lines) told.now }
    requires order { All (λ e. e < length graph.now.manifest.lines) cone.now.order.items }
    ensures { IfOk result (λ explained. AreSaid graph.now told.now explained.commands.items) }
{
    let order = cone.order.as_slice();
    let unloaded = first_unloaded(alloc, graph, order)?;
    let commands = explanations(alloc, graph, records, told)?;
    Ok(Explained { commands, unloaded })
}

/// What is told of these commands, in texts.
fn explanations(
    alloc: Global,
    graph: &Graph,
    records: &Records,
    told: &[DueCommand],
) -> Result<Vec<Explanation>, AllocError>
    requires { All (λ command. command.edge < length graph.now.manifest.lines) told.now }
    ensures { IfOk result (λ said. AreSaid graph.now told.now said.items) }
{
    let mut all = Vec::new(alloc);
    for command in told {
        all.push(explanation(alloc, graph, records, *command)?)?;
    }
    Ok(all)
}

/// What is told of the command, in texts.
fn explanation(
    alloc: Global,
    graph: &Graph,
    records: &Records,
    command: DueCommand,
) -> Result<Explanation, AllocError>
    requires { command.edge < length graph.now.manifest.lines }
    ensures { IfOk result (IsSaid graph.now command) }
{
    Ok(Explanation {
        edge: command.edge,
        output: first_output(alloc, &graph.manifest, command.edge)?,
        reason: command.reason,
        path: text_of(alloc, graph, command.path)?,
        acts: acts_of(graph, records, command)?,
        is_sure: command.is_sure,
    })
}

/// The text of the path, where there is one.
fn text_of(alloc: Global, graph: &Graph, path: Option<PathId>) -> Result<Option<Path>, AllocError>
    ensures { IfOk result (λ text. text ≡ option_map (text_at graph.now.manifest.paths) path) }
{
    match path {
        Some(path) => Ok(Some(path_text(alloc, &graph.manifest, path)?)),
        None => Ok(None),
    }
}

/// What the command did that made the path, and what it does now, where that is why it is due.
fn acts_of(
    graph: &Graph,
    records: &Records,
    command: DueCommand,
) -> Result<Option<Acts>, AllocError>
    requires { command.edge < length graph.now.manifest.lines }
{
    if command.reason != Reason::OtherAct {
        return Ok(None);
    }
    let Some(path) = command.path else {
        return Ok(None);
    };
    let Some(done) = records.made(path) else {
        return Ok(None);
    };
    match graph.manifest.action(command.edge) {
        Action::Alias => Ok(None),
        Action::Command(now) => acts(&done.act, &now.act),
    }
}

/// These two.
fn acts(old: &Act, new: &Act) -> Result<Option<Acts>, AllocError> {
    Ok(Some(Acts {
        old: old.clone()?,
        new: new.clone()?,
    }))
}

/// The first dyndep file that one of these edges names and that was not loaded.
fn first_unloaded(
    alloc: Global,
    graph: &Graph,
    order: &[EdgeId],
) -> Result<Option<Path>, AllocError>
    requires { All (λ e. e < length graph.now.manifest.lines) order.now }
{
    for edge in order {
        if let Some(file) = graph.dyndep(*edge) {
            return Ok(Some(path_text(alloc, &graph.manifest, file)?));
        }
    }
    Ok(None)
}
