//! What is built beside what generators make.

ghost use Rattle.std.specs.Prelude.{◌≡◌, false, IfErr, OnOk};
ghost use Rattle.theory.specs.Seen.{Looked};
ghost use Rattle.model.specs.Calls.{OnlyLooks};
ghost use Rattle.tools.specs.Joined.{KeepsEdges};

use crate::above::Above;
use graph::Graph;
use paths::PathId;
use site::Site;
use std::alloc::{AllocError, Global};
use text::Text;
use tools::{Declared, Fault, asked, asked_in_logs, defaults, read_joined, text_at};

/// The targets of a build beside what generators of the file make.
#[derive(Drop)]
pub enum Targets {
    /// Those that the build files say.
    Default,
    /// These.
    Named(Vec<Text>),
    /// None is left, where some were asked for.
    Nothing,
}

impl Targets {
    pub fn is_nothing(&self) -> bool {
        matches!(self, Targets::Nothing)
    }

    /// Those that are named; none stands for what the build files say.
    pub fn as_slice(&self) -> &[Text] {
        match self {
            Targets::Named(paths) => paths.as_slice(),
            Targets::Default | Targets::Nothing => &[],
        }
    }
}

/// The targets that words ask for, without the file that was read and without what its generators make.
pub fn left_targets<S: Site>(
    alloc: Global,
    site: &mut S,
    declared: &mut Declared,
    words: &[&str],
    above: &Above,
) -> Result<Targets, Fault>
    requires running { (S.world site.old).stopped ≡ false }
    ensures looks { OnlyLooks S.tells (S.world site.old) (S.world site.new) }
    ensures looked { OnOk result (Looked S.tells (S.world site.old) (S.world site.new)) }
    ensures memory { IfErr result (λ fault. fault ≡ Fault.Memory → (S.world site.new).stopped ≡ false) }
    ensures kept { KeepsEdges declared.old.graph declared.new.graph }
{
    let paths = paths_of(alloc, site, declared, words, above)?;
    let left = others(alloc, &declared.graph, &paths, above)?;
    if words.is_empty() && left.len() == paths.len() {
        return Ok(Targets::Default);
    }
    if left.is_empty() {
        return Ok(Targets::Nothing);
    }
    Ok(Targets::Named(left))
}

/// The paths that words ask for, or what is meant where there are none.
fn paths_of<S: Site>(
    alloc: Global,
    site: &mut S,
    declared: &mut Declared,
    words: &[&str],
    above: &Above,
) -> Result<Vec<PathId>, Fault>
    requires running { (S.world site.old).stopped ≡ false }
    ensures looks { OnlyLooks S.tells (S.world site.old) (S.world site.new) }
    ensures looked { OnOk result (Looked S.tells (S.world site.old) (S.world site.new)) }
    ensures memory { IfErr result (λ fault. fault ≡ Fault.Memory → (S.world site.new).stopped ≡ false) }
    ensures kept { KeepsEdges declared.old.graph declared.new.graph }
{
    if words.is_empty() {
        return meant(alloc, &declared.graph, above);
    }
    asked_here(alloc, site, declared, words)
}

/// The paths that these words name. The logs are read where a word ends in `^`.
fn asked_here<S: Site>(
    alloc: Global,
    site: &mut S,
    declared: &mut Declared,
    words: &[&str],
) -> Result<Vec<PathId>, Fault>
    requires running { (S.world site.old).stopped ≡ false }
    ensures looks { OnlyLooks S.tells (S.world site.old) (S.world site.new) }
    ensures looked { OnOk result (Looked S.tells (S.world site.old) (S.world site.new)) }
    ensures memory { IfErr result (λ fault. fault ≡ Fault.Memory → (S.world site.new).stopped ≡ false) }
    ensures kept { KeepsEdges declared.old.graph declared.new.graph }
{
    if !words.iter().any(|word| word.ends_with('^')) {
        return asked(alloc, &declared.graph, words);
    }
    let records = read_joined(alloc, site, declared)?;
    asked_in_logs(alloc, declared, &records, words)
}

/// What is meant where no target is named; it only matters where there are generators.
fn meant(alloc: Global, graph: &Graph, above: &Above) -> Result<Vec<PathId>, Fault> {
    if above.generators.is_empty() {
        return Ok(Vec::new(alloc));
    }
    match defaults(alloc, graph) {
        Err(Fault::NoRoots) => Ok(Vec::new(alloc)),
        found => found,
    }
}

/// The texts of those of the paths that no generator brings up to date.
fn others(
    alloc: Global,
    graph: &Graph,
    paths: &[PathId],
    above: &Above,
) -> Result<Vec<Text>, AllocError> {
    let mut left = Vec::new(alloc);
    for path in paths {
        if !is_regenerated(graph, *path, above) {
            left.push(Text::from_str(alloc, text_at(graph, *path))?)?;
        }
    }
    Ok(left)
}

/// Whether a generator makes the path, or it is the file that was read, which a generator brings up to date.
fn is_regenerated(graph: &Graph, path: PathId, above: &Above) -> bool {
    if above.generators.is_empty() {
        return false;
    }
    match graph.maker(path) {
        Some(edge) => Some(path) == above.file || above.generators.as_slice().contains(&edge),
        None => false,
    }
}
