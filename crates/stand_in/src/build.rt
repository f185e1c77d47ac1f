//! A build with what is regenerated before it.

ghost use Rattle.std.specs.Prelude.{◌≡◌, ◌⊎◌, [], false, IfErr, IfNone, IfOk, IfSome, OnOk};
ghost use Rattle.model.specs.World.{World, IsIdle};
ghost use Rattle.model.specs.Calls.{OnlyLooks};
ghost use Rattle.graph.specs.Told.{declared_by};
ghost use Rattle.manifest.specs.Answer.{IsGraph};
ghost use Rattle.builder.specs.Asked.{AreTargets, IsFolder};
ghost use Rattle.builder.specs.Build.{IsBuild, limits_of};
ghost use Rattle.builder.specs.Parts.{BuildsGraph};
ghost use Rattle.builder.specs.Reports.{IsLinked};
ghost use Rattle.ninja_asked.specs.Above.{AreEdges};
ghost use Rattle.stand_in.specs.Moves.{EndsFirst, IsEndOf, IsReady, MayBeBuiltFirst, end_in, outcome_in};
ghost use Rattle.stand_in.specs.Moves.{WasReadAlone, WasReadHere, WasUnreadAlone, WasUnreadHere};
ghost use Rattle.stand_in.specs.Moves.{ComesNext, ComesOnceBuilt, EndsOncePrepared, EndsOnceRead, EndsOnceReady};

use crate::place::Place;
use crate::regenerating::{Regenerated, regenerate};
use builder::{Asked, Held, Options, Report, build, build_graph_holding, link, own_folder};
use depfile::has_reading;
use dyndep_law::has_reading as has_dyndeps;
use log_text::has_format;
use manifest::read_described;
use model::SiteFault;
use ninja_asked::{Above, Targets, all_above, left_targets};
use ninja_words::Options as Given;
use nj_run::Alone;
use site::Site;
use std::alloc::{AllocError, Global};
use text::Text;
use tools::{Declared, Fault};

/// How the whole ended.
#[derive(Debug, Drop)]
pub enum Outcome {
    /// A build ended so, the last one.
    Built(Report),
    /// A word names no target.
    Refused(Fault),
    /// A generator failed, or what it needs could not be built. There is a report of the second.
    NotRebuilt(Option<Report>),
}

/// How the whole ended, and whether the file is out of date still behind its generator.
#[derive(Debug, Drop)]
pub struct Ended {
    pub outcome: Outcome,
    pub old: bool,
}

impl Ended {
    /// The end where the file is up to date, or was not asked for.
    fn by(outcome: Outcome) -> Ended
        ensures outcome { result.outcome ≡ outcome }
        ensures old { result.old ≡ false }
    {
        Ended {
            outcome,
            old: false,
        }
    }
}

/// What is to be done once generators had their turn.
#[derive(Debug, Drop)]
enum Next {
    /// What was read is built.
    Build,
    /// Generators ran, or what they need was built: the build files are read anew before that. `old` says that the file is out of date
    /// still.
    ReadAnew { old: bool },
    /// Nothing more.
    End(Outcome),
}

/// Reads the build files, and what is told beside.
pub fn read_here<S: Site>(alloc: Global, site: &mut S, file: &str) -> Result<Declared, Report>
    ensures looks { OnlyLooks S.tells (S.world site.old) (S.world site.new) }
    ensures read { IfOk result (WasReadHere S.tells file.now (S.world site.old) (S.world site.new)) }
    ensures unread { IfErr result (WasUnreadHere S.tells S.outcome file.now (S.world site.old) (S.world site.new)) }
{
    let (manifest, described) = read_described(alloc, site, file)?;
    let folder = own_folder(alloc, manifest.builddir.as_str())?;
    let graph = link(alloc, manifest, folder.as_str())?;
    Ok(Declared { graph, described })
}

/// The same once nobody else is at work in the folder: what is read is what is there by then.
pub fn read_alone<S: Alone>(alloc: Global, site: &mut S, file: &str) -> Result<Declared, Report>
    ensures looks { OnlyLooks S.tells (S.world site.old) (S.world site.new) }
    ensures read { IfOk result (WasReadAlone S.tells file.now (S.world site.old) (S.world site.new)) }
    ensures unread { IfErr result (WasUnreadAlone S.tells S.outcome file.now (S.world site.old) (S.world site.new)) }
{
    site.enter();
    for _ in 0..u32::MAX {
        let declared = read_here(alloc, site, file)?;
        let folder = own_folder(alloc, declared.graph.manifest.builddir.as_str())?;
        if !site.has_waited(folder.as_str()) {
            return Ok(declared);
        }
    }
    read_here(alloc, site, file)
}

/// Runs the generators of the file that are out of date, and then builds what is asked for: the moves of a build of what generators
/// need, edits, and a build. Where nothing is out of date, it is one build, for which all is read once. What the last build holds at its
/// end comes with that, if it came so far: it has served, and who ends the program right after need not let it go.
pub fn build_here<S: Place>(
    alloc: Global,
    site: &mut S,
    given: &Given<'_>,
    options: &Options,
) -> (Ended, Option<Held>)
    requires { IsIdle (S.world site.old).events }
    ensures { IsEndOf S.tells S.outcome options.now (S.world site.old) (S.world site.new) result.0.outcome }
{
    let mut left = None;
    match try_build(alloc, site, given, options, &mut left) {
        Ok(ended) => (ended, left),
        Err(report) => (Ended::by(Outcome::Built(report)), left),
    }
}

fn try_build<S: Place>(
    alloc: Global,
    site: &mut S,
    given: &Given<'_>,
    options: &Options,
    left: &mut Option<Held>,
) -> Result<Ended, Report>
    requires { IsIdle (S.world site.old).events }
    ensures { IsEndOf S.tells S.outcome options.now (S.world site.old) (S.world site.new) (end_in result) }
{
    let declared = read_alone(alloc, site, options.file.as_str())?;
    build_declared(alloc, site, given, options, declared, left)
}

/// Builds what was read, once generators had their turn.
fn build_declared<S: Place>(
    alloc: Global,
    site: &mut S,
    given: &Given<'_>,
    options: &Options,
    declared: Declared,
    left: &mut Option<Held>,
) -> Result<Ended, Report>
    requires idle { IsIdle (S.world site.old).events }
    requires read { (entry : World) × WasReadAlone S.tells options.now.file entry (S.world site.old) declared }
    ensures { EndsOnceRead S.tells S.outcome options.now declared (S.world site.old) (S.world site.new) (end_in result) }
{
    let above = all_above(alloc, &declared, options.file.as_str())?;
    build_below(alloc, site, given, options, declared, &above, left)
}

/// The same with what is above the file.
fn build_below<S: Place>(
    alloc: Global,
    site: &mut S,
    given: &Given<'_>,
    options: &Options,
    declared: Declared,
    above: &Above,
    left: &mut Option<Held>,
) -> Result<Ended, Report>
    requires idle { IsIdle (S.world site.old).events }
    requires within { AreEdges declared above.now.generators.items }
    requires read { (entry : World) × WasReadAlone S.tells options.now.file entry (S.world site.old) declared }
    ensures { EndsOnceRead S.tells S.outcome options.now declared (S.world site.old) (S.world site.new) (end_in result) }
{
    let next = before_build(alloc, site, &declared, above, options)?;
    match next {
        Next::End(outcome) => Ok(Ended::by(outcome)),
        Next::Build => told_old(
            build_rest(alloc, site, given, options, declared, above, left),
            false,
        ),
        Next::ReadAnew { old } => told_old(build_anew(alloc, site, given, options, left), old),
    }
}

/// An outcome, and whether the file is out of date still behind its generator.
fn told_old(outcome: Result<Outcome, Report>, old: bool) -> Result<Ended, Report>
    ensures { end_in result ≡ outcome_in outcome }
{
    match outcome {
        Ok(outcome) => Ok(Ended { outcome, old }),
        Err(report) => Err(report),
    }
}

/// Builds what generators need, and runs those that are out of date.
fn before_build<S: Place>(
    alloc: Global,
    site: &mut S,
    declared: &Declared,
    above: &Above,
    options: &Options,
) -> Result<Next, Report>
    requires idle { IsIdle (S.world site.old).events }
    requires within { AreEdges declared.now above.now.generators.items }
    requires read { (entry : World) × WasReadAlone S.tells options.now.file entry (S.world site.old) declared.now }
    ensures idle { IfOk result (λ next. IsIdle (S.world site.new).events) }
    ensures goes { OnOk result ((S.world site.new).stopped ≡ false) }
    ensures next { ComesNext S.tells S.outcome options.now declared.now (S.world site.old) (S.world site.new) result }
{
    match build_first(alloc, site, declared, above, options) {
        Some(report) => Ok(Next::End(Outcome::NotRebuilt(Some(report)))),
        None => turn_generators(alloc, site, declared, above, options),
    }
}

/// Runs the generators that are out of date, once what they need is built.
fn turn_generators<S: Place>(
    alloc: Global,
    site: &mut S,
    declared: &Declared,
    above: &Above,
    options: &Options,
) -> Result<Next, Report>
    requires idle { IsIdle (S.world site.old).events }
    requires within { AreEdges declared.now above.now.generators.items }
    requires running { (S.world site.old).stopped ≡ false }
    ensures idle { IfOk result (λ next. IsIdle (S.world site.new).events) }
    ensures goes { OnOk result ((S.world site.new).stopped ≡ false) }
    ensures next { ComesOnceBuilt S.tells S.outcome options.now declared.now above.now.first.items (S.world site.old) (S.world site.new) result }
{
    match regenerate(alloc, site, declared, above, options)? {
        Regenerated::Nothing => Ok(where_nothing_ran(above)),
        Regenerated::Ran { old } => Ok(Next::ReadAnew { old }),
        Regenerated::Failed => Ok(Next::End(Outcome::NotRebuilt(None))),
    }
}

/// What is to be done where no generator ran: what was built first may be read by a build file.
fn where_nothing_ran(above: &Above) -> Next
    ensures built { above.now.first.items ≡ [] → result ≡ Next.Build }
    ensures anew { (result ≡ Next.Build) ⊎ (result ≡ Next.ReadAnew false) }
    ensures none { result ≡ Next.Build → above.now.first.items ≡ [] }
{
    if above.first.is_empty() {
        Next::Build
    } else {
        Next::ReadAnew { old: false }
    }
}

/// Builds what generators need and other commands make, and starts the site again, so that no command runs. There is a report where it
/// did not succeed.
fn build_first<S: Place>(
    alloc: Global,
    site: &mut S,
    declared: &Declared,
    above: &Above,
    options: &Options,
) -> Option<Report>
    requires { IsIdle (S.world site.old).events }
    ensures idle { IsIdle (S.world site.new).events }
    ensures none { IfNone result (MayBeBuiltFirst S.tells S.outcome options.now (S.world site.old) (S.world site.new)) }
    ensures nothing { above.now.first.items ≡ [] → S.world site.new ≡ S.world site.old }
    ensures some { IfSome result (EndsFirst S.tells S.outcome options.now (S.world site.old) (S.world site.new)) }
{
    if above.first.is_empty() {
        return None;
    }
    let report = build_known(alloc, site, declared, options, above.first.as_slice());
    site.restart();
    match report {
        Report::Success { .. } => None,
        report => Some(report),
    }
}

/// Builds these targets, once it is told what commands of the file make, which was read.
fn build_known<S: Place>(
    alloc: Global,
    site: &mut S,
    declared: &Declared,
    options: &Options,
    targets: &[Text],
) -> Report
    requires { IsIdle (S.world site.old).events }
    ensures { IsBuild S.tells S.outcome options.now.file (limits_of options.now) targets.now (S.world site.old) (S.world site.new) result }
{
    learn(alloc, site, declared, options);
    build(alloc, site, options, targets)
}

/// Tells the site what is declared: names for a screen that shows what runs.
fn learn<S: Place>(alloc: Global, site: &mut S, declared: &Declared, options: &Options)
    ensures { S.world site.new ≡ S.world site.old }
{
    site.learn(alloc, &declared.graph.manifest, options.verbose);
}

/// Reads the build files once more, and builds what is asked for.
fn build_anew<S: Place>(
    alloc: Global,
    site: &mut S,
    given: &Given<'_>,
    options: &Options,
    left: &mut Option<Held>,
) -> Result<Outcome, Report>
    requires { IsIdle (S.world site.old).events }
    ensures { EndsOncePrepared S.tells S.outcome options.now (S.world site.old) (S.world site.new) (outcome_in result) }
{
    let file = options.file.as_str();
    let declared = read_here(alloc, site, file)?;
    let above = all_above(alloc, &declared, file)?;
    build_rest(alloc, site, given, options, declared, &above, left)
}

/// Builds what is asked for beside what generators make.
fn build_rest<S: Place>(
    alloc: Global,
    site: &mut S,
    given: &Given<'_>,
    options: &Options,
    declared: Declared,
    above: &Above,
    left: &mut Option<Held>,
) -> Result<Outcome, Report>
    requires idle { IsIdle (S.world site.old).events }
    requires ready { (old : World) × IsReady S.tells S.outcome options.now old (S.world site.old) declared }
    ensures { EndsOnceReady S.tells S.outcome options.now declared (S.world site.old) (S.world site.new) (outcome_in result) }
{
    let mut asked = declared;
    match left_targets(alloc, site, &mut asked, given.words.as_slice(), above) {
        Ok(Targets::Nothing) => Ok(Outcome::Built(Report::Success { started: 0 })),
        Ok(targets) => build_these(alloc, site, options, asked, targets.as_slice(), left),
        Err(Fault::Memory) => Err(Report::Fault(SiteFault::Memory)),
        Err(fault) => Ok(Outcome::Refused(fault)),
    }
}

/// Builds these targets of what was read, or the default ones where there are none, with its names for a screen that shows what runs.
fn build_these<S: Place>(
    alloc: Global,
    site: &mut S,
    options: &Options,
    declared: Declared,
    targets: &[Text],
    left: &mut Option<Held>,
) -> Result<Outcome, Report>
    requires idle { IsIdle (S.world site.old).events }
    requires ready { (old : World) × IsReady S.tells S.outcome options.now old (S.world site.old) declared }
    ensures { EndsOnceReady S.tells S.outcome options.now declared (S.world site.old) (S.world site.new) (outcome_in result) }
{
    learn(alloc, site, &declared, options);
    build_named(alloc, site, options, declared, targets, left)
}

/// Builds these targets of what was read, or the default ones where there are none.
fn build_named<S: Place>(
    alloc: Global,
    site: &mut S,
    options: &Options,
    declared: Declared,
    targets: &[Text],
    left: &mut Option<Held>,
) -> Result<Outcome, Report>
    requires idle { IsIdle (S.world site.old).events }
    requires ready { (old : World) × IsReady S.tells S.outcome options.now old (S.world site.old) declared }
    ensures { EndsOnceReady S.tells S.outcome options.now declared (S.world site.old) (S.world site.new) (outcome_in result) }
{
    has_format();
    has_reading();
    has_dyndeps();
    let asked = asked_of(alloc, options, targets, &declared)?;
    let report = build_holding(alloc, site, options, declared, &asked, left);
    Ok(Outcome::Built(report))
}

/// What these targets ask of what was read.
fn asked_of<'a>(
    alloc: Global,
    options: &Options,
    given: &'a [Text],
    declared: &Declared,
) -> Result<Asked<'a>, AllocError>
    ensures given { IfOk result (λ asked. asked.given.now ≡ given.now) }
    ensures targets { IfOk result (λ asked. AreTargets given.now asked.targets) }
    ensures folder { IfOk result (λ asked. IsFolder declared.now.graph.manifest.builddir asked.folder) }
    ensures limits { IfOk result (λ asked. asked.limits ≡ limits_of options.now) }
{
    Asked::new(alloc, options, given, &declared.graph.manifest.builddir)
}

/// Builds what was asked of what was read, and keeps what that holds at its end, if it came so far.
fn build_holding<S: Place>(
    alloc: Global,
    site: &mut S,
    options: &Options,
    declared: Declared,
    asked: &Asked<'_>,
    left: &mut Option<Held>,
) -> Report
    requires idle { IsIdle (S.world site.old).events }
    requires running { (S.world site.old).stopped ≡ false }
    requires formed { IsGraph (declared_by declared.graph) }
    requires linked { IsLinked declared.graph }
    ensures { BuildsGraph S.tells S.world site.old site.new declared.graph asked.now result }
{
    let Declared { graph, .. } = declared;
    let (report, held) = build_graph_holding(alloc, site, graph, asked, options);
    *left = held;
    report
}
