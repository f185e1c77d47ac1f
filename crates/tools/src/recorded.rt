//! What logs tell, as tools see it.

ghost use Rattle.std.specs.Prelude.{◌≡◌, false, IfErr, IfOk, OnOk};
ghost use Rattle.theory.specs.Seen.{Looked};
ghost use Rattle.model.specs.Calls.{OnlyLooks};
ghost use Rattle.records.specs.Known.{Knows, SomeOfBoth};
ghost use Rattle.tools.specs.Joined.{KeepsEdges};

use crate::access::outputs_at;
use crate::declared::Declared;
use crate::fault::Fault;
use graph::Graph;
use lexer::{ReadFault, canonical};
use paths::{EdgeId, PathId};
use records::Records;
use site::Site;
use std::alloc::{AllocError, Global};

/// The names of the logs, which lie in the folder of `builddir`.
const LOG: &str = ".nj_log";

const DEPS_LOG: &str = ".nj_deps";

/// The folder of the program's own files, which `builddir` names; the empty one is the working folder.
fn own_folder(alloc: Global, graph: &Graph) -> Result<String, AllocError> {
    match canonical(alloc, graph.manifest.builddir.as_str()) {
        Ok(folder) if folder.as_str() == "." => Ok(String::new(alloc)),
        Ok(folder) => Ok(folder),
        Err(ReadFault::EmptyPath) => Ok(String::new(alloc)),
        Err(ReadFault::Memory) => Err(AllocError),
    }
}

/// Reads the logs of the graph's build files. It only looks.
pub fn read_records<S: Site>(alloc: Global, site: &mut S, graph: &Graph) -> Result<Records, Fault>
    requires running { (S.world site.old).stopped ≡ false }
    ensures looks { OnlyLooks S.tells (S.world site.old) (S.world site.new) }
    ensures looked { OnOk result (Looked S.tells (S.world site.old) (S.world site.new)) }
    ensures memory { IfErr result (λ fault. fault ≡ Fault.Memory → (S.world site.new).stopped ≡ false) }
    ensures known { IfOk result (λ records. SomeOfBoth (Knows graph.now records)) }
{
    let (build_log, deps_log) = own_paths(alloc, graph)?;
    Ok(Records::read(alloc, site, graph, build_log, deps_log)?)
}

/// The paths of the logs of the graph's build files.
fn own_paths(alloc: Global, graph: &Graph) -> Result<(String, String), AllocError> {
    let folder = own_folder(alloc, graph)?;
    let build_log = own_path(alloc, folder.as_str(), LOG)?;
    let deps_log = own_path(alloc, folder.as_str(), DEPS_LOG)?;
    Ok((build_log, deps_log))
}

/// The same, where each path of the deps log has a number, so that words may name it.
pub fn read_joined<S: Site>(
    alloc: Global,
    site: &mut S,
    declared: &mut Declared,
) -> Result<Records, Fault>
    requires running { (S.world site.old).stopped ≡ false }
    ensures looks { OnlyLooks S.tells (S.world site.old) (S.world site.new) }
    ensures looked { OnOk result (Looked S.tells (S.world site.old) (S.world site.new)) }
    ensures memory { IfErr result (λ fault. fault ≡ Fault.Memory → (S.world site.new).stopped ≡ false) }
    ensures kept { KeepsEdges declared.old.graph declared.new.graph }
    ensures known { IfOk result (λ records. SomeOfBoth (Knows declared.new.graph records)) }
{
    let first = read_records(alloc, site, &declared.graph)?;
    join_paths(alloc, &mut declared.graph, &first)?;
    read_records(alloc, site, &declared.graph)
}

/// The path of the file of this name in the folder.
fn own_path(alloc: Global, folder: &str, name: &str) -> Result<String, AllocError> {
    match folder {
        "" => String::from_str(alloc, name),
        "/" => format!(in alloc; "/{name}"),
        _ => format!(in alloc; "{folder}/{name}"),
    }
}

/// Gives numbers to all paths of the deps log, so that words may name them.
fn join_paths(alloc: Global, graph: &mut Graph, records: &Records) -> Result<(), AllocError>
    ensures { KeepsEdges graph.old graph.new }
{
    for number in 0..u32::MAX {
        let Some(path) = records.deps_path(number) else {
            return Ok(());
        };
        graph.add_path(alloc, path)?;
    }
    Ok(())
}

/// The first output in reading order whose deps record names the path.
pub fn first_reader(declared: &Declared, records: &Records, path: &str) -> Option<PathId> {
    for place in 0..declared.graph.edges() {
        let edge = declared.graph.manifest.edge(place);
        let reader = reader_of(declared, records, edge, path);
        if reader.is_some() {
            return reader;
        }
    }
    None
}

/// The first output of the edge whose deps record names the path.
fn reader_of(declared: &Declared, records: &Records, edge: EdgeId, path: &str) -> Option<PathId> {
    for output in outputs_at(&declared.graph, edge) {
        if names(records, *output, path) {
            return Some(*output);
        }
    }
    None
}

/// Whether the deps record of the output names the path.
fn names(records: &Records, output: PathId, path: &str) -> bool {
    let Some(deps) = records.deps(output) else {
        return false;
    };
    for number in deps.paths.as_slice() {
        if records.deps_path(*number) == Some(path) {
            return true;
        }
    }
    false
}
