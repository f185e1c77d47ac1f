//! Which edge has a depfile or a response file at a path that is more than that.

ghost use Rattle.std.specs.Prelude.{◌≡◌, ◌<◌, ◌++◌, ◌==◌, if◌then◌else◌, ℕ, List, suc, All, length, IfOk, IfSome, IfNone, IsTrue, IsFalse, string_bytes};
ghost use Rattle.model.specs.Graph.{edge_at, first_output};
ghost use Rattle.paths.specs.Told.{graph_of};
ghost use Rattle.graph.specs.declared.side_files.Naming.TheVariants.{Nobody, Maker, More};
ghost use Rattle.graph.specs.Occupying.{own_start, is_own_end, IsOwnFile, IsNamedBeside};
ghost use Rattle.graph.specs.Namings.{declared_file, naming_in, made_too, is_beside, stop_at, AreNamings, AreNoted, AllAreFree, FindsLowest, IsFileOccupied, IsFreePath, IsFaultAt};

use crate::fault::{GraphFault, Occupied, SideFile};
use paths::{Action, EdgeId, Manifest, PathId};
use std::alloc::{AllocError, Global};
use text::Path;

/// The depfile or the response file of an edge.
#[derive(Clone, Copy, Debug)]
pub struct FileOf {
    pub edge: EdgeId,
    pub file: SideFile,
}

/// How build lines name a path.
#[derive(Clone, Copy, Debug)]
pub enum Naming {
    /// None names it.
    Nobody,
    /// It is an output of this edge, and nothing else.
    Maker(EdgeId),
    /// It is more than an output of one edge.
    More,
}

/// The lowest edge that has a depfile or a response file which is occupied, and which of the two is the first; none where all
/// are free.
pub fn first_occupied(
    alloc: Global,
    manifest: &Manifest,
    folder: &str,
) -> Result<Option<FileOf>, AllocError>
    ensures { IfOk result (FindsLowest (own_start folder.now) manifest.now) }
{
    let start = start_of(alloc, folder)?;
    if !may_be_occupied(manifest, start.as_bytes()) {
        return Ok(None);
    }
    let namings = namings_of(alloc, manifest)?;
    Ok(lowest_occupied(manifest, start.as_bytes(), &namings))
}

/// How many edges are looked at for other faults: those up to the one whose file is occupied, else all.
pub fn stop_at(manifest: &Manifest, occupied: Option<FileOf>) -> usize
    requires { IfSome occupied (λ at. at.edge < length manifest.now.lines) }
    ensures { result ≡ stop_at manifest.now occupied }
{
    match occupied {
        Some(at) => at.edge.index() + 1,
        None => manifest.lines.len(),
    }
}

/// The fault that tells of this file.
pub fn fault_at(alloc: Global, manifest: &Manifest, at: FileOf) -> Result<GraphFault, AllocError>
    requires { at.edge < length manifest.now.lines }
    ensures { IfOk result (IsFaultAt manifest.now at) }
{
    Ok(GraphFault::Occupied(Occupied {
        path: Path::from_str(alloc, file_at(manifest, at.edge, at.file))?,
        file: at.file,
        output: output_of(alloc, manifest, at.edge)?,
    }))
}

/// The path of the file; empty where the edge has none.
fn file_at(manifest: &Manifest, edge: EdgeId, file: SideFile) -> &str
    requires { edge < length manifest.now.lines }
    ensures { result.now ≡ declared_file manifest.now edge file }
{
    match manifest.action(edge) {
        Action::Alias => "",
        Action::Command(command) => match file {
            SideFile::Depfile => command.act.depfile.as_str(),
            SideFile::Response => command.act.response_path.as_str(),
        },
    }
}

/// The first output of the edge; the empty path where it has none.
fn output_of(alloc: Global, manifest: &Manifest, edge: EdgeId) -> Result<Path, AllocError>
    requires { edge < length manifest.now.lines }
    ensures { IfOk result (λ path. path ≡ first_output (edge_at (graph_of manifest.now).edges (suc edge))) }
{
    match manifest.lines.outputs(edge).first() {
        Some(output) => Path::from_str(alloc, manifest.paths.text(*output)),
        None => Ok(Path::new(alloc)),
    }
}

/// How the paths of the program's own files in the folder begin.
fn start_of(alloc: Global, folder: &str) -> Result<String, AllocError>
    ensures { IfOk result (λ start. string_bytes start ≡ own_start folder.now) }
{
    match folder {
        "" => String::from_str(alloc, ".nj_"),
        "/" => String::from_str(alloc, "/.nj_"),
        _ => format!(in alloc; "{folder}/.nj_"),
    }
}

/// Whether some depfile or response file is in the table of paths, or one of the program's own files. Mostly none is, and then
/// none is occupied.
fn may_be_occupied(manifest: &Manifest, start: &[u8]) -> bool
    ensures { IsFalse result → AllAreFree start.now manifest.now }
{
    for place in 0..manifest.lines.len() {
        let edge = manifest.edge(place);
        if may_be(manifest, start, file_at(manifest, edge, SideFile::Depfile)) {
            return true;
        }
        if may_be(manifest, start, file_at(manifest, edge, SideFile::Response)) {
            return true;
        }
    }
    false
}

/// Whether the path is in the table of paths, or one of the program's own files.
fn may_be(manifest: &Manifest, start: &[u8], path: &str) -> bool
    ensures { IsFalse result → IsFreePath start.now manifest.now path.now }
{
    if path.is_empty() {
        return false;
    }
    match manifest.paths.number_of(path) {
        Some(_) => true,
        None => is_own(start, path.as_bytes()),
    }
}

/// The lowest edge that has a file which is occupied, and the first such file of it.
fn lowest_occupied(manifest: &Manifest, start: &[u8], namings: &[Naming]) -> Option<FileOf>
    requires { AreNamings manifest.now namings.now }
    ensures { FindsLowest start.now manifest.now result }
{
    for place in 0..manifest.lines.len() {
        let edge = manifest.edge(place);
        if is_occupied(manifest, start, namings, edge, SideFile::Depfile) {
            return Some(FileOf {
                edge,
                file: SideFile::Depfile,
            });
        }
        if is_occupied(manifest, start, namings, edge, SideFile::Response) {
            return Some(FileOf {
                edge,
                file: SideFile::Response,
            });
        }
    }
    None
}

/// Whether the file is occupied.
fn is_occupied(
    manifest: &Manifest,
    start: &[u8],
    namings: &[Naming],
    edge: EdgeId,
    file: SideFile,
) -> bool
    requires within { edge < length manifest.now.lines }
    requires namings { AreNamings manifest.now namings.now }
    ensures yes { IsTrue result → IsFileOccupied start.now manifest.now edge file }
    ensures no { IsFalse result → IsFileOccupied start.now manifest.now edge file → ⊥ }
{
    let path = file_at(manifest, edge, file);
    if path.is_empty() {
        return false;
    }
    if is_named_beside(manifest, namings, edge, path) {
        return true;
    }
    is_own(start, path.as_bytes())
}

/// Whether a build line names the path, and not only as an output of this edge.
fn is_named_beside(manifest: &Manifest, namings: &[Naming], edge: EdgeId, path: &str) -> bool
    requires { AreNamings manifest.now namings.now }
    ensures yes { IsTrue result → IsNamedBeside (graph_of manifest.now).edges (suc edge) path.now }
    ensures no { IsFalse result → IsNamedBeside (graph_of manifest.now).edges (suc edge) path.now → ⊥ }
{
    match manifest.paths.number_of(path) {
        Some(number) => is_beside(naming_at(namings, number), edge),
        None => false,
    }
}

/// How a path is named.
fn naming_at(namings: &[Naming], path: PathId) -> Naming
    requires { path < length namings.now }
    ensures { result ≡ naming_in namings.now path }
{
    namings[path.index()]
}

/// Whether a path that is named so is more than an output of this edge.
fn is_beside(naming: Naming, edge: EdgeId) -> bool
    ensures { result ≡ is_beside edge naming }
{
    match naming {
        Naming::Nobody => false,
        Naming::Maker(maker) => maker != edge,
        Naming::More => true,
    }
}

/// How build lines name each path of the table.
fn namings_of(alloc: Global, manifest: &Manifest) -> Result<Vec<Naming>, AllocError>
    ensures { IfOk result (λ namings. AreNamings manifest.now namings.items) }
{
    let mut namings = vec![in alloc; Naming::Nobody; manifest.paths.len()]?;
    note_lines(manifest, &mut namings);
    Ok(namings)
}

/// Notes how each line names its paths.
fn note_lines(manifest: &Manifest, namings: &mut [Naming])
    requires fits { length namings.old ≡ length manifest.now.paths }
    requires none { All (λ naming. naming ≡ Nobody) namings.old }
    ensures { AreNamings manifest.now namings.new }
{
    for place in 0..manifest.lines.len() {
        let edge = manifest.edge(place);
        note_made(namings, manifest.lines.outputs(edge), edge);
        note_more(namings, manifest.lines.inputs(edge));
        note_more(namings, manifest.lines.validations(edge));
    }
}

/// Notes that the edge makes these paths.
fn note_made(namings: &mut [Naming], outputs: &[PathId], edge: EdgeId)
    requires { All (λ p. p < length namings.old) outputs.now }
    ensures fits { length namings.new ≡ length namings.old }
    ensures noted { AreNoted (made_too edge) outputs.now namings.old namings.new }
{
    for output in outputs {
        let changed = made_too(naming_at(namings, *output), edge);
        namings[output.index()] = changed;
    }
}

/// How a path is named that this edge makes, too.
fn made_too(naming: Naming, edge: EdgeId) -> Naming
    ensures { result ≡ made_too edge naming }
{
    match naming {
        Naming::Nobody => Naming::Maker(edge),
        Naming::Maker(maker) => made_again(maker, edge),
        Naming::More => Naming::More,
    }
}

/// How a path is named that this edge makes, after that one.
fn made_again(maker: EdgeId, edge: EdgeId) -> Naming
    ensures { result ≡ (if maker == edge then Maker maker else More) }
{
    if maker == edge {
        Naming::Maker(maker)
    } else {
        Naming::More
    }
}

/// Notes that an edge names these paths beside its outputs.
fn note_more(namings: &mut [Naming], paths: &[PathId])
    requires { All (λ p. p < length namings.old) paths.now }
    ensures fits { length namings.new ≡ length namings.old }
    ensures noted { AreNoted (λ naming. More) paths.now namings.old namings.new }
{
    for path in paths {
        namings[path.index()] = Naming::More;
    }
}

/// Whether the path is one of the program's own files, whose paths begin so.
fn is_own(start: &[u8], path: &[u8]) -> bool
    ensures yes { IsTrue result → IsOwnFile start.now path.now }
    ensures no { IsFalse result → IsOwnFile start.now path.now → ⊥ }
{
    match rest_after(start, path) {
        Some(end) => is_own_end(end),
        None => false,
    }
}

/// What comes after these bytes, where they stand in front.
fn rest_after<'a>(start: &[u8], bytes: &'a [u8]) -> Option<&'a [u8]>
    ensures some { IfSome result (λ rest. bytes.now ≡ start.now ++ rest.now) }
    ensures none { IfNone result ((rest : List ℕ) → bytes.now ≡ start.now ++ rest → ⊥) }
{
    bytes.strip_prefix(start)
}

/// Whether the name of an own file ends so, after `.nj_`.
fn is_own_end(end: &[u8]) -> bool
    ensures { result ≡ is_own_end end.now }
{
    end == b"log".as_slice()
        || end == b"deps".as_slice()
        || end == b"seen".as_slice()
        || end == b"log.new".as_slice()
        || end == b"deps.new".as_slice()
        || end == b"seen.new".as_slice()
        || end == b"tick".as_slice()
        || end == b"in".as_slice()
        || end.starts_with(b"out.")
        || end.starts_with(b"trace.")
}
