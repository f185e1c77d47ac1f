//! What is declared and recorded, read anew once a build has ended.

ghost use Rattle.host.specs.World.{world_of};
ghost use Rattle.nj_run.specs.Looked.{StartsNothing};

use crate::looked::Here;
use auditor::{Auditor, dyndep_in, load};
use graph::Graph;
use host::Host;
use log_text::BuildLog;
use paths::Manifest;
use site::{Site, Texts};
use std::alloc::{AllocError, Global};
use std::io::Write;
use std::os::unix::fs::MetadataExt;
use std::{env, fs};
use text::Bytes;

/// What an audit compares traces with. The program's own files stand in the first folder.
pub fn auditor_of<W: Write>(
    rt: &HostRuntime,
    host: &mut Host<'_, W>,
    manifest: Manifest,
    own: &str,
    here: Here<'_>,
) -> Option<Auditor>
    ensures { StartsNothing (world_of host.old) (world_of host.new) }
{
    let mut auditor = declared_in(rt.alloc(), host, manifest, own, here.folder)?;
    match take_files(rt, &mut auditor, here.left.is_some()) {
        Ok(()) => Some(auditor),
        Err(_) => None,
    }
}

/// What is declared and recorded.
fn declared_in<W: Write>(
    alloc: Global,
    host: &mut Host<'_, W>,
    manifest: Manifest,
    own: &str,
    folder: &str,
) -> Option<Auditor>
    ensures { StartsNothing (world_of host.old) (world_of host.new) }
{
    let graph = graph_of(alloc, host, manifest, own)?;
    let log = build_log_in(alloc, host, own);
    let deps = deps_log_in(alloc, host, own);
    Auditor::new(alloc, graph, folder, log, deps).ok()
}

/// Takes in where paths lead, and the folder for scratch files, where it is known what stood there.
fn take_files(
    rt: &HostRuntime,
    auditor: &mut Auditor,
    has_scratch: bool,
) -> Result<(), AllocError> {
    if has_scratch {
        take_scratch(rt, auditor)?;
    }
    find_files(rt.alloc(), rt, auditor)
}

/// Takes in the folder for scratch files that commands find in `TMPDIR`, links followed, if there is one.
fn take_scratch(rt: &HostRuntime, auditor: &mut Auditor) -> Result<(), AllocError> {
    let Ok(named) = env::var(rt, "TMPDIR") else {
        return Ok(());
    };
    match fs::canonicalize(rt, named.as_str()) {
        Ok(folder) => take_folder(rt, auditor, folder.as_str()),
        Err(_) => Ok(()),
    }
}

/// The same of what this path leads to.
fn take_folder(rt: &HostRuntime, auditor: &mut Auditor, folder: &str) -> Result<(), AllocError> {
    match fs::metadata(rt, folder) {
        Ok(found) if found.is_dir() => auditor.take_scratch(folder),
        _ => Ok(()),
    }
}

/// The graph of a manifest, with what those dyndep files add that can be read.
fn graph_of<W: Write>(
    alloc: Global,
    host: &mut Host<'_, W>,
    manifest: Manifest,
    own: &str,
) -> Option<Graph>
    ensures { StartsNothing (world_of host.old) (world_of host.new) }
{
    let mut graph = Graph::build(alloc, manifest, own).ok()?;
    for place in 0..graph.edges() {
        let _ = load_at(alloc, host, &mut graph, place);
    }
    Some(graph)
}

/// Loads the dyndep file of the edge in this place, if it names one that was not loaded.
fn load_at<W: Write>(
    alloc: Global,
    host: &mut Host<'_, W>,
    graph: &mut Graph,
    place: usize,
) -> Option<()>
    ensures { StartsNothing (world_of host.old) (world_of host.new) }
{
    let bytes = read_in(host, dyndep_in(graph, place)?)?;
    load(alloc, graph, place, bytes.as_slice())
}

/// A plain file: by device and inode, and whether it has a length other than 0.
#[derive(Drop)]
struct Plain {
    file: String,
    is_filled: bool,
}

/// Tells to which plain file each path leads, and of which of them there is something in it.
fn find_files(alloc: Global, rt: &HostRuntime, auditor: &mut Auditor) -> Result<(), AllocError> {
    for place in 0..auditor.paths() {
        if let Some(plain) = plain_at(alloc, rt, auditor.path(place))? {
            take_plain(auditor, place, plain)?;
        }
    }
    Ok(())
}

fn take_plain(auditor: &mut Auditor, place: usize, plain: Plain) -> Result<(), AllocError> {
    if plain.is_filled {
        auditor.fills(place)?;
    }
    auditor.leads(place, plain.file)
}

/// Which plain file the path leads to.
fn plain_at(alloc: Global, rt: &HostRuntime, path: &str) -> Result<Option<Plain>, AllocError> {
    let Ok(found) = fs::metadata(rt, path) else {
        return Ok(None);
    };
    if !found.is_file() {
        return Ok(None);
    }
    let device = found.dev();
    let inode = found.ino();
    let is_filled = found.len() > 0;
    let file = format!(in alloc; "{device}:{inode}")?;
    Ok(Some(Plain { file, is_filled }))
}

/// What stands in a file.
fn read_in<W: Write>(host: &mut Host<'_, W>, path: &str) -> Option<Bytes>
    ensures { StartsNothing (world_of host.old) (world_of host.new) }
{
    host.read(path).ok()?
}

/// The build log, if there is one.
pub fn build_log_in<W: Write>(
    alloc: Global,
    host: &mut Host<'_, W>,
    folder: &str,
) -> Option<BuildLog>
    ensures { StartsNothing (world_of host.old) (world_of host.new) }
{
    let path = own_path(alloc, folder, ".nj_log").ok()?;
    let bytes = read_in(host, path.as_str())?;
    let (log, _) = BuildLog::parse(alloc, bytes.as_slice()).ok()?;
    Some(log)
}

/// The deps log, if there is one.
pub fn deps_log_in<W: Write>(
    alloc: Global,
    host: &mut Host<'_, W>,
    folder: &str,
) -> Option<log_text::DepsLog>
    ensures { StartsNothing (world_of host.old) (world_of host.new) }
{
    let path = own_path(alloc, folder, ".nj_deps").ok()?;
    let bytes = read_in(host, path.as_str())?;
    let (log, _) = log_text::DepsLog::parse(alloc, bytes.as_slice()).ok()?;
    Some(log)
}

/// The path of a file of the program's own in this folder; empty is the working folder.
fn own_path(alloc: Global, folder: &str, name: &str) -> Result<String, AllocError> {
    match folder {
        "" => String::from_str(alloc, name),
        _ => format!(in alloc; "{folder}/{name}"),
    }
}

/// The trace of a command, which is removed.
pub fn take_trace<W: Write>(host: &mut Host<'_, W>, job: usize) -> Option<Bytes>
    ensures { StartsNothing (world_of host.old) (world_of host.new) }
{
    let path = host.trace_of(job).ok()?;
    let trace = read_in(host, path.as_str());
    let _ = host.remove(path.as_str());
    trace
}
