//! What a path is to a build, apart from the edge that is looked at.

ghost use Rattle.std.specs.Prelude.{◌≡◌, string_bytes};

use crate::graphs::{maker_of, text_of};
use audit::{Around, canonical_at};
use graph::Graph;
use indexmap::IndexMap;
use log_text::{BuildLog, DepsLog};
use paths::{EdgeId, PathId, Paths};
use std::alloc::{AllocError, Global};
use text::Path;

/// The paths that build lines name, from the root and canonical, with the edge whose command makes each, and which of these are filled.
#[derive(Drop)]
pub struct Names {
    /// The working folder, from the root.
    folder: String,
    makers: IndexMap<String, Option<EdgeId>>,
    /// Those that a command makes, and that lead to plain files which are not empty.
    filled: Paths,
    /// Those that the deps log names, from the root and canonical.
    reported: Paths,
    /// The build log, if there is one.
    log: Option<BuildLog>,
}

impl Names {
    /// The paths of this graph.
    pub fn of(
        alloc: Global,
        graph: &Graph,
        folder: &str,
        log: Option<BuildLog>,
    ) -> Result<Names, AllocError> {
        let mut names = Names {
            folder: String::from_str(alloc, folder)?,
            makers: IndexMap::new(alloc),
            filled: Paths::new(alloc),
            reported: Paths::new(alloc),
            log,
        };
        for place in 0..graph.paths() {
            if let Some(path) = PathId::at(place) {
                names.add(alloc, graph, path)?;
            }
        }
        Ok(names)
    }

    fn add(&mut self, alloc: Global, graph: &Graph, path: PathId) -> Result<(), AllocError> {
        let whole = canonical_at(alloc, self.folder.as_str(), text_of(graph, path))?;
        let maker = maker_of(graph, path);
        if maker.is_some() || self.makers.get(whole.as_str()).is_none() {
            let _ = self.makers.insert(whole.into_string(), maker)?;
        }
        Ok(())
    }

    /// Takes in that this path leads to a plain file that is not empty. Of paths that no command makes nobody asks for that.
    pub fn fill(&mut self, alloc: Global, path: &str) -> Result<(), AllocError> {
        let whole = self.whole(alloc, path)?;
        if self.maker(whole.as_str()).is_some() {
            self.filled.add(alloc, whole.as_str())?;
        }
        Ok(())
    }

    /// Takes in each path that the deps log names.
    pub fn report(&mut self, alloc: Global, log: Option<&DepsLog>) -> Result<(), AllocError> {
        let Some(log) = log else {
            return Ok(());
        };
        for number in 0..u32::MAX {
            let Some(path) = log.path(number) else {
                return Ok(());
            };
            let whole = self.whole(alloc, path)?;
            self.reported.add(alloc, whole.as_str())?;
        }
        Ok(())
    }

    /// The working folder, from the root.
    pub fn folder(&self) -> &str
        ensures { result.now ≡ string_bytes self.now.folder }
    {
        self.folder.as_str()
    }

    /// The path from the root.
    pub fn whole(&self, alloc: Global, path: &str) -> Result<Path, AllocError> {
        canonical_at(alloc, self.folder.as_str(), path)
    }

    /// Puts the path, from the root, into a table.
    pub fn add_to(&self, alloc: Global, table: &mut Paths, path: &str) -> Result<(), AllocError> {
        let whole = self.whole(alloc, path)?;
        table.add(alloc, whole.as_str())?;
        Ok(())
    }

    /// The path as it is told: taken from the working folder, where it is below that.
    pub fn short<'p>(&self, path: &'p str) -> &'p str {
        if path == self.folder.as_str() {
            return ".";
        }
        match below(self.folder.as_str(), path) {
            Some(rest) => rest,
            None => path,
        }
    }

    /// Whether the path is the working folder or below it, or a build line names it.
    pub fn counts(&self, path: &str) -> bool {
        self.is_inside(path) || self.makers.get(path).is_some()
    }

    /// Whether the path is the working folder, or below it.
    fn is_inside(&self, path: &str) -> bool {
        path == self.folder.as_str() || below(self.folder.as_str(), path).is_some()
    }

    /// The edge whose command makes the path.
    pub fn maker(&self, path: &str) -> Option<EdgeId> {
        self.makers.get(path).copied().flatten()
    }

    /// Whether a record in force names the path as an output, from the working folder or from the root.
    fn is_recorded(&self, path: &str) -> bool {
        match &self.log {
            Some(log) => { log.lookup(self.short(path)).is_some() || log.lookup(path).is_some() }
            None => false,
        }
    }

    /// Whether a build line names the path.
    pub fn is_named(&self, path: &str) -> bool {
        self.makers.get(path).is_some()
    }

    /// Whether a command reported that it reads the path.
    pub fn is_reported(&self, path: &str) -> bool {
        self.reported.number_of(path).is_some()
    }

    /// Whether a build line names the path, or a record in force as an output, or one of the deps log.
    pub fn knows(&self, path: &str) -> bool {
        self.is_named(path) || self.is_recorded(path) || self.is_reported(path)
    }

    /// What the path is to the build, where it is known whether another command makes it, and one that is above, and what it is below a folder
    /// for scratch files.
    pub fn around(&self, path: &str, made: bool, above: bool, below: ScratchPlace) -> Around
        ensures scratch { result.scratch ≡ below.scratch }
        ensures left { result.left ≡ below.left }
    {
        Around {
            made,
            above,
            named: self.is_named(path),
            recorded: self.is_recorded(path) || self.is_reported(path),
            inside: self.is_inside(path),
            own: is_own(path),
            scratch: below.scratch,
            left: below.left,
            filled: self.filled.number_of(path).is_some(),
        }
    }
}

/// What stands behind the folder and a slash, where the path is below it.
fn below<'p>(folder: &str, path: &'p str) -> Option<&'p str> {
    let rest = path.strip_prefix(folder)?;
    if folder == "/" {
        return Some(rest);
    }
    rest.strip_prefix('/')
}

/// What a path is below a folder for scratch files: one of these, and one that may have stood there before the command began.
#[derive(Clone, Copy)]
pub struct ScratchPlace {
    pub scratch: bool,
    pub left: bool,
}

/// Whether the path is of a file of the program's own: its logs, and what it writes beside them.
fn is_own(path: &str) -> bool {
    match path.rsplit_once('/') {
        Some((_, name)) => is_own_name(name),
        None => false,
    }
}

fn is_own_name(name: &str) -> bool {
    let name = name.as_bytes();
    name.starts_with(b".nj_log")
        || name.starts_with(b".nj_deps")
        || name.starts_with(b".nj_seen")
        || name.starts_with(b".nj_tick")
        || name.starts_with(b".nj_in")
        || name.starts_with(b".nj_out.")
        || name.starts_with(b".nj_trace")
}
