//! What the tools answer of what was read, over a site.

ghost use Rattle.std.specs.Prelude.{◌≡◌, false};
ghost use Rattle.model.specs.Calls.{OnlyLooks};
ghost use Rattle.ninja_asked.specs.Tools.{removes};

use crate::cleaning::{buried, cleaned};
use crate::missing_told::missing_answer;
use measure::Measured;
use ninja_words::Options;
use paths::PathId;
use records::Records;
use site::Site;
use std::alloc::Global;
use tools::{
    Answer, Declared, Dyndeps, Entries, Fault, Logged, Switches, Tool, asked, asked_in_logs,
    commands, compdb, compdb_targets, deps, graph, inputs, load_above, load_dyndeps, missing_deps,
    query, read_joined, read_mode, recorded_outputs, rules, targets,
};

/// What is asked of a tool.
#[derive(Clone, Copy)]
pub struct Asking<'a> {
    pub tool: Tool,
    pub options: &'a Options<'a>,
    pub switches: &'a Switches<'a>,
    /// Whether stamps are trusted: what builds have noted counts for nothing.
    pub trusts_stamps: bool,
}

impl<'a> Asking<'a> {
    pub fn new(
        tool: Tool,
        options: &'a Options<'a>,
        switches: &'a Switches<'a>,
        trusts_stamps: bool,
    ) -> Asking<'a> {
        Asking {
            tool,
            options,
            switches,
            trusts_stamps,
        }
    }
}

/// What a tool answers of what was read.
#[tactic(auto, using(crate::proofs::Looking::looking))]
pub fn answer_read<S: Measured>(
    alloc: Global,
    site: &mut S,
    asking: Asking<'_>,
    folder: &str,
    declared: &mut Declared,
) -> Result<Answer, Fault>
    requires running { (S.world site.old).stopped ≡ false }
    ensures looks { removes asking.entry.tool ≡ false → OnlyLooks S.tells (S.world site.old) (S.world site.new) }
{
    match asking.tool {
        Tool::Query | Tool::Deps | Tool::MissingDeps => {
            with_records(alloc, site, asking, declared)
        }
        Tool::CleanDead => {
            let records = read_joined(alloc, site, declared)?;
            load_all(alloc, site, declared)?;
            buried(alloc, site, declared, &records, asking)
        }
        Tool::Clean => {
            load_all(alloc, site, declared)?;
            cleaned(alloc, site, declared, asking)
        }
        Tool::Graph => {
            let words = asking.switches.words.as_slice();
            drawn(alloc, site, declared, words)
        }
        _ => Ok(Answer::well(alloc, told(alloc, declared, asking, folder)?)),
    }
}

/// What a tool answers that reads the logs: all paths that they name may be asked for.
#[tactic(auto, using(crate::proofs::Looking::looking))]
fn with_records<S: Site>(
    alloc: Global,
    site: &mut S,
    asking: Asking<'_>,
    declared: &mut Declared,
) -> Result<Answer, Fault>
    requires running { (S.world site.old).stopped ≡ false }
    ensures looks { removes asking.entry.tool ≡ false → OnlyLooks S.tells (S.world site.old) (S.world site.new) }
{
    let records = read_joined(alloc, site, declared)?;
    if asking.tool == Tool::Query {
        let words = asking.switches.words.as_slice();
        return queried(alloc, site, declared, &records, words);
    }
    with_logs(alloc, site, Logged::new(declared, &records), asking)
}

/// What a tool tells of the graph alone.
fn told(
    alloc: Global,
    declared: &Declared,
    asking: Asking<'_>,
    folder: &str,
) -> Result<String, Fault> {
    let switches = asking.switches;
    let words = switches.words.as_slice();
    let how = Entries {
        folder,
        expand: switches.has(b'x'),
    };
    match asking.tool {
        Tool::Targets => targets(alloc, declared, read_mode(alloc, words)?),
        Tool::Rules => Ok(rules(alloc, declared, switches.has(b'd'))?),
        Tool::Compdb => Ok(compdb(alloc, declared, how, words)?),
        Tool::CompdbTargets => compdb_targets(alloc, declared, how, words),
        Tool::Commands => {
            let paths = asked(alloc, &declared.graph, words)?;
            Ok(commands(alloc, declared, &paths, switches.has(b's'))?)
        }
        Tool::Inputs => {
            let paths = asked(alloc, &declared.graph, words)?;
            Ok(inputs(alloc, declared, &paths)?)
        }
        _ => Ok(String::new(alloc)),
    }
}

/// Gives all edges what their dyndep files tell. Where one does not, nothing is said.
#[tactic(auto, using(crate::proofs::Looking::looking))]
fn load_all<S: Site>(alloc: Global, site: &mut S, declared: &mut Declared) -> Result<(), Fault>
    ensures { OnlyLooks S.tells (S.world site.old) (S.world site.new) }
{
    let mut edges = Vec::new(alloc);
    for place in 0..declared.graph.edges() {
        edges.push(declared.graph.manifest.edge(place))?;
    }
    let mut dyndeps = Dyndeps::new(alloc);
    load_dyndeps(alloc, site, &mut declared.graph, &edges, &mut dyndeps)
}

/// What `graph` prints: the edges above have what their dyndep files tell.
#[tactic(auto, using(crate::proofs::Looking::looking))]
fn drawn<S: Site>(
    alloc: Global,
    site: &mut S,
    declared: &mut Declared,
    words: &[&str],
) -> Result<Answer, Fault>
    ensures { OnlyLooks S.tells (S.world site.old) (S.world site.new) }
{
    let paths = asked(alloc, &declared.graph, words)?;
    let mut dyndeps = Dyndeps::new(alloc);
    load_above(alloc, site, &mut declared.graph, &paths, &mut dyndeps)?;
    let told = graph(alloc, declared, &paths)?;
    Ok(answer_of(told, dyndeps))
}

/// A text, with what is to be said of dyndep files.
fn answer_of(told: String, dyndeps: Dyndeps) -> Answer {
    Answer::warned(told, dyndeps.warned())
}

/// What `query` prints, path by path: the edge that makes one has what its dyndep file tells by then, and what those of the paths before
/// tell.
#[tactic(auto, using(crate::proofs::Looking::looking))]
fn queried<S: Site>(
    alloc: Global,
    site: &mut S,
    declared: &mut Declared,
    records: &Records,
    words: &[&str],
) -> Result<Answer, Fault>
    ensures { OnlyLooks S.tells (S.world site.old) (S.world site.new) }
{
    if words.is_empty() {
        return Err(Fault::NoPath);
    }
    let paths = asked_in_logs(alloc, declared, records, words)?;
    let mut dyndeps = Dyndeps::new(alloc);
    let told = query_each(alloc, site, declared, &paths, &mut dyndeps)?;
    Ok(answer_of(told, dyndeps))
}

/// What `query` prints of these paths, one after another.
#[tactic(auto, using(crate::proofs::Looking::looking))]
fn query_each<S: Site>(
    alloc: Global,
    site: &mut S,
    declared: &mut Declared,
    paths: &[PathId],
    dyndeps: &mut Dyndeps,
) -> Result<String, Fault>
    ensures { OnlyLooks S.tells (S.world site.old) (S.world site.new) }
{
    let mut told = String::new(alloc);
    for path in paths {
        load_maker(alloc, site, declared, *path, dyndeps)?;
        told.push_str(query(alloc, declared, &[*path])?.as_str())?;
    }
    Ok(told)
}

/// Gives the edge that makes a path what its dyndep file tells.
#[tactic(auto, using(crate::proofs::Looking::looking))]
fn load_maker<S: Site>(
    alloc: Global,
    site: &mut S,
    declared: &mut Declared,
    path: PathId,
    dyndeps: &mut Dyndeps,
) -> Result<(), Fault>
    ensures { OnlyLooks S.tells (S.world site.old) (S.world site.new) }
{
    match declared.graph.maker(path) {
        Some(edge) => dyndeps.load_for(alloc, site, &mut declared.graph, edge),
        None => Ok(()),
    }
}

/// What a tool tells of the graph and the logs.
#[tactic(auto, using(crate::proofs::Looking::looking))]
fn with_logs<S: Site>(
    alloc: Global,
    site: &mut S,
    logged: Logged<'_>,
    asking: Asking<'_>,
) -> Result<Answer, Fault>
    ensures { removes asking.entry.tool ≡ false → OnlyLooks S.tells (S.world site.old) (S.world site.new) }
{
    let words = asking.switches.words.as_slice();
    let Logged { declared, records } = logged;
    match asking.tool {
        Tool::Deps => {
            let paths = if words.is_empty() {
                recorded_outputs(alloc, logged)?
            } else {
                asked_in_logs(alloc, declared, records, words)?
            };
            Ok(Answer::well(alloc, deps(alloc, site, logged, &paths)?))
        }
        Tool::MissingDeps => {
            let paths = asked_in_logs(alloc, declared, records, words)?;
            let file = asking.options.file;
            let found = missing_deps(alloc, logged, &paths, file)?;
            Ok(missing_answer(alloc, declared, &found)?)
        }
        _ => Ok(Answer::well(alloc, String::new(alloc))),
    }
}
