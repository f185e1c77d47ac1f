//! Dyndep files, as tools load them (manual: "Dynamic Dependencies").

ghost use Rattle.model.specs.Calls.{OnlyLooks};

use crate::access::{inputs_at, text_at};
use crate::fault::Fault;
use crate::lines::push_line;
use dyndep::{ReadError, parse};
use graph::{ExtendFault, Graph};
use indexmap::IndexSet;
use model::SiteFault;
use paths::{EdgeId, PathId};
use site::Site;
use std::alloc::{AllocError, Global};
use text::Bytes;

/// Which dyndep files were loaded or could not be, each once, and what is told of the second.
#[derive(Drop)]
pub struct Dyndeps {
    met: IndexSet<PathId>,
    /// For each file that is not there, or does not fit, a warning as that of real ninja, with an empty line behind it.
    warned: String,
}

impl Dyndeps {
    pub fn new(alloc: Global) -> Dyndeps {
        Dyndeps {
            met: IndexSet::new(alloc),
            warned: String::new(alloc),
        }
    }

    /// What is told of files that could not be loaded.
    pub fn warned(self) -> String {
        let Dyndeps { warned, .. } = self;
        warned
    }

    /// Gives the edges that name the same dyndep file as this one what the file tells, as far as it is there and fits. A file is loaded
    /// once, and once it is warned of it.
    pub fn load_for<S: Site>(
        &mut self,
        alloc: Global,
        site: &mut S,
        graph: &mut Graph,
        edge: EdgeId,
    ) -> Result<(), Fault>
        ensures { OnlyLooks S.tells (S.world site.old) (S.world site.new) }
    {
        let next = self.next(graph, edge)?;
        load_some(alloc, site, graph, next, &mut self.warned)
    }

    /// The dyndep file of the edge, where it was not met.
    fn next(&mut self, graph: &Graph, edge: EdgeId) -> Result<Option<PathId>, AllocError> {
        if edge.index() >= graph.edges() {
            return Ok(None);
        }
        let Some(file) = graph.dyndep(edge) else {
            return Ok(None);
        };
        let is_new = self.met.insert(file)?;
        Ok(is_new.then_some(file))
    }
}

/// Gives these edges what their dyndep files tell, as far as these are there and fit.
pub fn load_dyndeps<S: Site>(
    alloc: Global,
    site: &mut S,
    graph: &mut Graph,
    edges: &[EdgeId],
    dyndeps: &mut Dyndeps,
) -> Result<(), Fault>
    ensures { OnlyLooks S.tells (S.world site.old) (S.world site.new) }
{
    for edge in edges {
        dyndeps.load_for(alloc, site, graph, *edge)?;
    }
    Ok(())
}

/// The same of all edges above these paths, also those that are above by what was loaded, in the order in which they are drawn.
pub fn load_above<S: Site>(
    alloc: Global,
    site: &mut S,
    graph: &mut Graph,
    paths: &[PathId],
    dyndeps: &mut Dyndeps,
) -> Result<(), Fault>
    ensures { OnlyLooks S.tells (S.world site.old) (S.world site.new) }
{
    let mut rise = Rise::new(alloc, paths)?;
    for _ in 0..usize::MAX {
        let Some(edge) = rise.next(graph)? else {
            return Ok(());
        };
        dyndeps.load_for(alloc, site, graph, edge)?;
        rise.open_reversed(inputs_at(graph, edge))?;
    }
    Ok(())
}

/// Which paths are still to be looked at, the next one last, and which edges were.
#[derive(Drop)]
struct Rise {
    open: Vec<PathId>,
    met: IndexSet<EdgeId>,
}

impl Rise {
    fn new(alloc: Global, paths: &[PathId]) -> Result<Rise, AllocError> {
        let mut rise = Rise {
            open: Vec::new(alloc),
            met: IndexSet::new(alloc),
        };
        rise.open_reversed(paths)?;
        Ok(rise)
    }

    /// These are looked at next, the first one first.
    fn open_reversed(&mut self, paths: &[PathId]) -> Result<(), AllocError> {
        for path in paths.iter().rev() {
            self.open.push(*path)?;
        }
        Ok(())
    }

    /// The next edge that was not met.
    fn next(&mut self, graph: &Graph) -> Result<Option<EdgeId>, AllocError> {
        for _ in 0..usize::MAX {
            let Some(path) = self.open.pop() else {
                return Ok(None);
            };
            let edge = self.enter(graph, path)?;
            if edge.is_some() {
                return Ok(edge);
            }
        }
        Ok(None)
    }

    /// The edge that makes the path, where it was not met.
    fn enter(&mut self, graph: &Graph, path: PathId) -> Result<Option<EdgeId>, AllocError> {
        let Some(edge) = graph.maker(path) else {
            return Ok(None);
        };
        let is_new = self.met.insert(edge)?;
        Ok(is_new.then_some(edge))
    }
}

/// Loads a file, if there is one.
fn load_some<S: Site>(
    alloc: Global,
    site: &mut S,
    graph: &mut Graph,
    file: Option<PathId>,
    warned: &mut String,
) -> Result<(), Fault>
    ensures { OnlyLooks S.tells (S.world site.old) (S.world site.new) }
{
    match file {
        Some(file) => load(alloc, site, graph, file, warned),
        None => Ok(()),
    }
}

fn load<S: Site>(
    alloc: Global,
    site: &mut S,
    graph: &mut Graph,
    file: PathId,
    warned: &mut String,
) -> Result<(), Fault>
    ensures { OnlyLooks S.tells (S.world site.old) (S.world site.new) }
{
    match site.read(text_at(graph, file)) {
        Ok(Some(content)) => join(alloc, graph, file, &content, warned),
        Ok(None) => warn_of_loading(graph, file, "No such file or directory", warned),
        Err(SiteFault::Device) => warn_of_loading(graph, file, "it cannot be read", warned),
        Err(fault) => Err(Fault::from(fault)),
    }
}

fn join(
    alloc: Global,
    graph: &mut Graph,
    file: PathId,
    content: &Bytes,
    warned: &mut String,
) -> Result<(), Fault> {
    let additions = match parse(alloc, content.as_slice()) {
        Ok(additions) => additions,
        Err(ReadError::Memory) => return Err(Fault::Memory),
        Err(ReadError::Fault(fault)) => {
            let told = format!(in alloc; "{fault}")?;
            return warn_of(graph, file, told.as_str(), warned);
        }
    };
    if file.index() >= graph.paths() {
        return Ok(());
    }
    match graph.extend(alloc, additions.as_slice(), file) {
        Ok(_) => Ok(()),
        Err(ExtendFault::Memory) => Err(Fault::Memory),
        Err(fault) => {
            let told = format!(in alloc; "{fault}")?;
            warn_of(graph, file, told.as_str(), warned)
        }
    }
}

/// Warns of a file that could not be read, as real ninja does.
fn warn_of_loading(
    graph: &Graph,
    file: PathId,
    reason: &str,
    warned: &mut String,
) -> Result<(), Fault> {
    let line = [
        "ninja: warning: loading '",
        text_at(graph, file),
        "': ",
        reason,
        "\n",
    ];
    Ok(push_line(warned, line.as_slice())?)
}

/// Warns of a file that is refused.
fn warn_of(graph: &Graph, file: PathId, reason: &str, warned: &mut String) -> Result<(), Fault> {
    let line = ["ninja: warning: ", text_at(graph, file), ": ", reason, "\n"];
    Ok(push_line(warned, line.as_slice())?)
}
