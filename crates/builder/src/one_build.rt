//! One build.

ghost use Rattle.std.specs.Prelude.{◌≡◌, ◌<◌, ℕ, All, List, [], IfOk, IfErr, OnOk, false, vec_len, length};
ghost use Rattle.model.specs.World.{IsIdle};
ghost use Rattle.model.specs.Calls.{OnlyLooks};
ghost use Rattle.model.specs.Records.{file_in, tick_name};
ghost use Rattle.theory.specs.Seen.{Unrefused};
ghost use Rattle.model.specs.Graph.{IsMadeOnce};
ghost use Rattle.model.specs.SingleBuild.{NamesOther};
ghost use Rattle.graph.specs.Occupying.{AreApart};
ghost use Rattle.graph.specs.Told.{declared_by, recorded_by};
ghost use Rattle.judge.specs.Answers.{KnowsNone};
ghost use Rattle.judge.specs.Looking.{AreUnasked};
ghost use Rattle.manifest.specs.Answer.{IsGraph};
ghost use Rattle.paths.specs.Told.{graph_of, text_at};
ghost use Rattle.work.specs.Answered.{AreAnswersOf};
ghost use Rattle.work.specs.Ran.{AreEdgesOf};
ghost use Rattle.builder.specs.Build.{BuildsTargets};
ghost use Rattle.builder.specs.Parts.{BuildsReading, IsReportOfNoGraph, BuildsGraph};
ghost use Rattle.work.specs.Standing.{IsBeginning};
ghost use Rattle.builder.specs.Reported.{IsFresh, Opens, ReportsSo};
ghost use Rattle.builder.specs.Reports.{report_in, IsLinked, IsConeRecorded, SaysNoCone, SaysFault, ShowsFault, IsPlanFor, SaysEnd, HasBuildLog, HasDepsLog, ReadsRecords};

use crate::asked::{Asked, Limits};
use crate::held::Held;
use crate::own_files::{DEPS_LOG, LOG, TICK, own_path};
use crate::reading::{Reading, read};
use depfile::has_reading;
use dyndep_law::has_reading as has_dyndeps;
use graph::{Cone, ConeFault, Graph, lists_stand};
use judge::{Looks, answers_follow};
use log_text::has_format;
use paths::Manifest;
use plan::{Plan, task_of};
use records::{Records, log_begins};
use site::Site;
use std::alloc::{AllocError, Global};
use text::{Path, Text};
use work::{
    Display, Options, Refusal, Report, Summary, Work, first_outputs, join_recorded, path_texts,
    phonies_record_none,
};

/// What a run begins with in which nothing is judged yet, beside its graph and its records.
#[derive(Drop)]
struct Fresh {
    cone: Cone,
    plan: Plan,
    looks: Looks,
    /// The file that gets a new stamp before each start.
    tick: Path,
    /// For each edge whether it is due.
    due: Vec<bool>,
    /// For each edge the stamp of its start.
    starts: Vec<u64>,
}

/// Builds the targets, or the default ones where none is given (manual: "Default target statements").
///
/// The build files are read first ([`read`]), and what was read is built then ([`build_read`]): what is read later counts for nothing,
/// whatever is written meanwhile.
///
/// What the logs in the folder of `builddir` (manual: "Top-level variables") tell is believed: a command whose outputs are in
/// order by their records is not started, and the inputs that it told in its depfile count as its inputs. Each start and each good
/// end is put after what stands in the build log, and what a command told after what stands in the deps log; one that is damaged tells nothing.
///
/// A dyndep file (manual: "Dynamic Dependencies") is loaded when its maker is settled; one that no edge makes, before anything is
/// started, or right after the load by which an edge that names it joins the build. One that is refused ends the build, and so does a
/// source that is missing once one was loaded: nothing more is started, and what runs by then is taken in and recorded. Every other
/// refusal has started and written nothing.
///
/// Where a call was refused, a fault is answered, and nothing was started after it; where the site has stopped, that is the fault. The
/// file that gets new stamps lies beside the logs.
pub fn build<S: Site>(alloc: Global, site: &mut S, options: &Options, targets: &[Text]) -> Report
    requires { IsIdle (S.world site.old).events }
    ensures { BuildsTargets S.tells S.outcome options.now targets.now (S.world site.old) (S.world site.new) result }
{
    has_format();
    has_reading();
    has_dyndeps();
    match read(alloc, site, options, targets) {
        Ok(reading) => build_read(alloc, site, reading, options),
        Err(report) => report,
    }
}

/// Builds what was read of build files ([`read`]), as [`build`] does. It is promised for each entry since which there were looks alone.
///
/// The limits, the targets and the folder of the program's own files are those of the reading; of the options this takes only how
/// commands are shown.
pub fn build_read<S: Site>(
    alloc: Global,
    site: &mut S,
    reading: Reading<'_>,
    options: &Options,
) -> Report
    requires idle { IsIdle (S.world site.old).events }
    requires running { (S.world site.old).stopped ≡ false }
    requires formed { IsGraph (graph_of reading.manifest) }
    ensures { BuildsReading S.tells reading.entry (S.world site.old) (S.world site.new) result }
{
    match link_and_build(alloc, site, reading, options) {
        Ok(report) => report,
        Err(report) => report,
    }
}

/// The graph of what was read of build files, where the program's own files lie in the folder: its canonical path, which is empty for
/// the working folder.
///
/// # Errors
///
/// The report of each build of it with own files in that folder, where its edges make no graph.
pub fn link(alloc: Global, manifest: Manifest, folder: &str) -> Result<Graph, Report>
    ensures manifest { IfOk result (λ graph. graph.manifest ≡ manifest) }
    ensures once { OnOk result (IsMadeOnce (graph_of manifest).edges) }
    ensures dyndep { OnOk result ((file : List ℕ) → NamesOther (graph_of manifest).edges file → ⊥) }
    ensures apart { OnOk result (AreApart folder.now (graph_of manifest).edges) }
    ensures recorded { IfOk result (λ graph. (i : ℕ) → recorded_by graph i ≡ []) }
    ensures refused { IfErr result (IsReportOfNoGraph folder.now manifest) }
{
    Ok(Graph::build(alloc, manifest, folder)?)
}

/// Builds what is asked for of the graph of what was read ([`link`]), as [`build_read`] does: for somebody who has looked at that graph before. Nothing
/// is recorded of it yet: the build adds the recorded inputs that it uses, and what dyndep files say.
pub fn build_graph_read<S: Site>(
    alloc: Global,
    site: &mut S,
    graph: Graph,
    asked: &Asked<'_>,
    options: &Options,
) -> Report
    requires idle { IsIdle (S.world site.old).events }
    requires running { (S.world site.old).stopped ≡ false }
    requires formed { IsGraph (declared_by graph) }
    requires linked { IsLinked graph }
    ensures { BuildsGraph S.tells S.world site.old site.new graph asked.now result }
{
    let (report, _held) = build_graph_holding(alloc, site, graph, asked, options);
    report
}

/// The same, and what the build holds at its end comes with the report, if it came so far: for who ends the program then.
pub fn build_graph_holding<S: Site>(
    alloc: Global,
    site: &mut S,
    graph: Graph,
    asked: &Asked<'_>,
    options: &Options,
) -> (Report, Option<Held>)
    requires idle { IsIdle (S.world site.old).events }
    requires running { (S.world site.old).stopped ≡ false }
    requires formed { IsGraph (declared_by graph) }
    requires linked { IsLinked graph }
    ensures { BuildsGraph S.tells S.world site.old site.new graph asked.now result.0 }
{
    has_format();
    has_reading();
    has_dyndeps();
    match opened(alloc, site, graph, asked, options) {
        Ok(mut state) => {
            let told = reported(site, &mut state);
            (told, Some(Held::of(state)))
        }
        Err(told) => (told, None),
    }
}

/// The graph of what was read, and then the build of it: each stage goes on, or gives the report.
fn link_and_build<S: Site>(
    alloc: Global,
    site: &mut S,
    reading: Reading<'_>,
    options: &Options,
) -> Result<Report, Report>
    requires idle { IsIdle (S.world site.old).events }
    requires running { (S.world site.old).stopped ≡ false }
    requires formed { IsGraph (graph_of reading.manifest) }
    ensures { BuildsReading S.tells reading.entry (S.world site.old) (S.world site.new) (report_in result) }
{
    let Reading { manifest, asked } = reading;
    let graph = link(alloc, manifest, asked.folder.as_str())?;
    let report = build_graph_read(alloc, site, graph, &asked, options);
    Ok(report)
}

/// Reads the logs, and records in a graph that has no recorded inputs yet those that are in use: the run of what was asked for begins
/// over that.
pub(crate) fn opened<'a, S: Site>(
    alloc: Global,
    site: &mut S,
    graph: Graph,
    asked: &Asked<'_>,
    options: &'a Options,
) -> Result<Work<'a>, Report>
    requires idle { IsIdle (S.world site.old).events }
    requires running { (S.world site.old).stopped ≡ false }
    requires formed { IsGraph (declared_by graph) }
    requires linked { IsLinked graph }
    ensures looks { OnlyLooks S.tells (S.world site.old) (S.world site.new) }
    ensures running { OnOk result ((S.world site.new).stopped ≡ false) }
    ensures opened { IfOk result (Opens S.tells graph asked.now (S.world site.old) (S.world site.new)) }
    ensures known { IfOk result AreAnswersOf }
    ensures refused { IfErr result (BuildsGraph S.tells S.world site.old site.new graph asked.now) }
{
    log_begins();
    let records = read_records(alloc, site, &graph, asked)?;
    let mut joined = graph;
    join_recorded(alloc, &mut joined, &records)?;
    let state = state_of(alloc, joined, asked, options, records)?;
    Ok(state)
}

/// Reads the logs, which lie in the folder of the program's own files.
fn read_records<S: Site>(
    alloc: Global,
    site: &mut S,
    graph: &Graph,
    asked: &Asked<'_>,
) -> Result<Records, Report>
    requires running { (S.world site.old).stopped ≡ false }
    ensures looks { OnlyLooks S.tells (S.world site.old) (S.world site.new) }
    ensures build_log { IfOk result (λ records. HasBuildLog asked.now.folder records) }
    ensures deps_log { IfOk result (λ records. HasDepsLog asked.now.folder records) }
    ensures read { ReadsRecords S.tells S.world site.old site.new graph.now result }
    ensures unrefused { OnOk result (Unrefused (S.world site.old) (S.world site.new)) }
    ensures fault { IfErr result (SaysFault (S.world site.old) (S.world site.new)) }
{
    lists_stand(graph);
    let build_log = own_path(alloc, asked.folder.as_str(), LOG)?;
    let deps_log = own_path(alloc, asked.folder.as_str(), DEPS_LOG)?;
    Ok(Records::read(alloc, site, graph, build_log, deps_log)?)
}

/// A run of what was asked for of a graph, in which nothing is judged yet.
fn state_of<'a>(
    alloc: Global,
    graph: Graph,
    asked: &Asked<'_>,
    options: &'a Options,
    records: Records,
) -> Result<Work<'a>, Report>
    ensures graph { IfOk result (λ state. state.graph ≡ graph) }
    ensures fresh { IfOk result (IsFresh graph asked.now) }
    ensures cone { IfOk result (λ state. IsConeRecorded graph asked.now.targets state.cone) }
    ensures records { IfOk result (λ state. state.records ≡ records) }
    ensures known { IfOk result AreAnswersOf }
    ensures refused { IfErr result (SaysNoCone graph asked.now.given.now asked.now.targets) }
{
    answers_follow();
    let fresh = fresh_of(alloc, &graph, asked)?;
    let Fresh {
        cone,
        plan,
        looks,
        tick,
        due,
        starts,
    } = fresh;
    Ok(Work {
        alloc,
        graph,
        cone,
        plan,
        looks,
        records,
        display: Display::new(alloc, &options.pattern, options.verbose, 0),
        tick,
        due,
        starts,
        failed: Vec::new(alloc),
    })
}

/// What such a run begins with.
fn fresh_of(alloc: Global, graph: &Graph, asked: &Asked<'_>) -> Result<Fresh, Report>
    ensures plan { IfOk result (λ fresh. IsPlanFor graph.now fresh.cone asked.now.limits fresh.plan) }
    ensures looks { IfOk result (λ fresh. AreUnasked graph.now fresh.looks) }
    ensures answers { IfOk result (λ fresh. KnowsNone fresh.looks.sums.answers) }
    ensures dues { IfOk result (λ fresh. fresh.looks.sums.answers.dues.known ≡ false) }
    ensures tick { IfOk result (λ fresh. fresh.tick ≡ file_in asked.now.folder tick_name) }
    ensures starts { IfOk result (λ fresh. vec_len fresh.starts ≡ length graph.now.manifest.lines) }
    ensures cone { IfOk result (λ fresh. IsConeRecorded graph.now asked.now.targets fresh.cone) }
    ensures refused { IfErr result (SaysNoCone graph.now asked.now.given.now asked.now.targets) }
{
    let cone = cone_of(alloc, graph, asked)?;
    let plan = plan_of(alloc, graph, &cone, asked.limits)?;
    let looks = Looks::new(alloc, graph)?;
    let tick = tick_path(alloc, asked)?;
    let due = vec![in alloc; false; graph.edges()]?;
    let starts = vec![in alloc; 0; graph.edges()]?;
    Ok(Fresh {
        cone,
        plan,
        looks,
        tick,
        due,
        starts,
    })
}

/// The file that gets a new stamp before each start.
fn tick_path(alloc: Global, asked: &Asked<'_>) -> Result<Path, AllocError>
    ensures { IfOk result (λ path. path ≡ file_in asked.now.folder tick_name) }
{
    let path = own_path(alloc, asked.folder.as_str(), TICK)?;
    Ok(Path::from_string(path))
}

/// Runs what is to be done, and reports how that ended.
fn reported<S: Site>(site: &mut S, state: &mut Work<'_>) -> Report
    requires running { (S.world site.old).stopped ≡ false }
    requires begins { IsBeginning S.tells state.old (S.world site.old) }
    requires known { AreAnswersOf state.old }
    ensures { ReportsSo S.tells S.world site.old site.new state.old state.new result }
{
    match run_state(site, state) {
        Ok(told) => told,
        Err(told) => told,
    }
}

/// The same: a stage that ends the run gives the report.
fn run_state<S: Site>(site: &mut S, state: &mut Work<'_>) -> Result<Report, Report>
    requires running { (S.world site.old).stopped ≡ false }
    requires begins { IsBeginning S.tells state.old (S.world site.old) }
    requires known { AreAnswersOf state.old }
    ensures { ReportsSo S.tells S.world site.old site.new state.old state.new (report_in result) }
{
    let summary = state.run_graph(site)?;
    Ok(report(state.alloc, &state.graph, summary)?)
}

/// The cone of what was asked for.
fn cone_of(alloc: Global, graph: &Graph, asked: &Asked<'_>) -> Result<Cone, Report>
    ensures marks { IfOk result (λ cone. vec_len cone.marks ≡ length graph.now.manifest.lines) }
    ensures within { IfOk result (λ cone. All (λ e. e < length graph.now.manifest.lines) cone.order.items) }
    ensures cone { IfOk result (IsConeRecorded graph.now asked.now.targets) }
    ensures refused { IfErr result (SaysNoCone graph.now asked.now.given.now asked.now.targets) }
{
    match graph.cone(alloc, asked.targets.as_slice()) {
        Ok(cone) => Ok(cone),
        Err(fault) => Err(Report::Refused(refusal(alloc, graph, asked.given, fault)?)),
    }
}

/// Why targets have no cone.
fn refusal(
    alloc: Global,
    graph: &Graph,
    given: &[Text],
    fault: ConeFault,
) -> Result<Refusal, AllocError>
    ensures { IfOk result (ShowsFault graph.now.manifest.paths given.now fault) }
{
    match fault {
        ConeFault::Memory => Err(AllocError),
        ConeFault::Unknown(place) => Ok(Refusal::UnknownTarget(target_at(alloc, given, place)?)),
        ConeFault::Cycle(numbers) => Ok(Refusal::Cycle(path_texts(
            alloc,
            &graph.manifest,
            numbers.as_slice(),
        )?)),
    }
}

fn target_at(alloc: Global, given: &[Text], place: usize) -> Result<Text, AllocError>
    ensures { IfOk result (λ target. target ≡ text_at given.now place) }
{
    match given.get(place) {
        Some(target) => target.clone(),
        None => Ok(Text::new(alloc)),
    }
}

/// The plan of a cone within these limits, in which nothing is judged yet.
fn plan_of(alloc: Global, graph: &Graph, cone: &Cone, limits: Limits) -> Result<Plan, AllocError>
    requires marks { vec_len cone.now.marks ≡ length graph.now.manifest.lines }
    ensures { IfOk result (IsPlanFor graph.now cone.now limits) }
{
    task_of(graph);
    phonies_record_none();
    Plan::new(
        alloc,
        graph,
        cone,
        limits.jobs as usize,
        limits.keep as usize,
    )
}

/// The report of a run that was not cut off.
fn report(alloc: Global, graph: &Graph, summary: Summary) -> Result<Report, AllocError>
    requires { AreEdgesOf graph.now summary }
    ensures { IfOk result (SaysEnd graph.now summary) }
{
    match summary {
        Summary::Well { started } => Ok(Report::Success { started }),
        Summary::Failed { edges } => Ok(Report::Failed {
            outputs: first_outputs(alloc, &graph.manifest, &edges)?,
        }),
    }
}
