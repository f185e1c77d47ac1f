//! Scratch files that stand below a folder for them.

ghost use Rattle.std.specs.Prelude.{◌≡◌, IfOk, None, nat_eq};
ghost use Rattle.std.specs.List.{starts_with};
ghost use Rattle.model.specs.Graph.{has};
ghost use Rattle.auditor.specs.Scratch.{IsFrontIn, front_of, is_below, is_scratch};

use crate::around::Names;
use crate::listed::{Declared, push_sides};
use audit::canonical_at;
use paths::{EdgeId, Paths};
use std::alloc::{AllocError, Global};
use text::Path;

/// Which files are scratch files: those below a folder for them, but for what is known.
#[derive(Drop)]
pub struct Scratch {
    /// What paths below the folder begin with, from the root; none where no such folder is below the working one.
    pub front: Option<Path>,
    /// Paths from the root that are no scratch files, although no build line names them and no command made them.
    pub known: Paths,
}

impl Scratch {
    /// Nothing is one. This takes no memory.
    pub fn none(alloc: Global) -> Scratch
        ensures { result.front ≡ None }
    {
        Scratch {
            front: None,
            known: Paths::new(alloc),
        }
    }

    /// What is below this folder, where that is below the working folder, which is named from the root; else nothing.
    pub fn below(alloc: Global, working: &str, folder: &str) -> Result<Scratch, AllocError>
        ensures { IfOk result (λ scratch. IsFrontIn working.now folder.now scratch.front) }
    {
        Ok(Scratch {
            front: front_in(alloc, working, folder)?,
            known: Paths::new(alloc),
        })
    }

    /// Takes in that what the deps log names is none, nor a depfile or a response file.
    pub fn keep(&mut self, alloc: Global, declared: Declared<'_>) -> Result<(), AllocError>
        ensures { self.new.front ≡ self.old.front }
    {
        if self.front.is_some() {
            push_all_sides(alloc, declared, &mut self.known)?;
            push_all_reported(alloc, declared, &mut self.known)?;
        }
        Ok(())
    }

    /// What paths below the folder begin with; nothing where there is no such folder.
    pub fn front(&self) -> &str {
        match &self.front {
            Some(front) => front.as_str(),
            None => "",
        }
    }

    /// Whether what was done at a path, from the root, counts by that name, and not by the one that the kernel has: of what counts, but for
    /// scratch files. A link may lead from a folder for these to any other.
    pub fn counts_by_name(&self, names: &Names, path: &str) -> bool {
        names.counts(path) && (!self.holds(path) || names.knows(path))
    }

    /// Whether the path, from the root, is of a scratch file.
    pub fn holds(&self, path: &str) -> bool
        ensures { result ≡ is_scratch self.now path.now }
    {
        match &self.front {
            Some(front) => begins(path, front.as_str()) && !has(&self.known, path),
            None => false,
        }
    }
}

/// What paths below the folder begin with, where that is below the working one.
fn front_in(alloc: Global, working: &str, folder: &str) -> Result<Option<Path>, AllocError>
    ensures { IfOk result (IsFrontIn working.now folder.now) }
{
    let whole = canonical_at(alloc, working, folder)?;
    if !is_below(alloc, working, whole.as_str())? {
        return Ok(None);
    }
    Ok(Some(front_of(alloc, whole.as_str())?))
}

/// Whether the path is below the folder, and not the folder itself.
fn is_below(alloc: Global, folder: &str, path: &str) -> Result<bool, AllocError>
    ensures { IfOk result (λ is. is ≡ is_below folder.now path.now) }
{
    let front = front_of(alloc, folder)?;
    Ok(path != folder && begins(path, front.as_str()))
}

/// What paths below the folder begin with.
fn front_of(alloc: Global, folder: &str) -> Result<Path, AllocError>
    ensures { IfOk result (λ front. front ≡ front_of folder.now) }
{
    let mut front = String::from_str(alloc, folder)?;
    if folder != "/" {
        front.push('/')?;
    }
    Ok(Path::from_string(front))
}

fn begins(path: &str, front: &str) -> bool
    ensures { result ≡ starts_with nat_eq path.now front.now }
{
    path.as_bytes().starts_with(front.as_bytes())
}

/// Whether the path is one of these.
pub fn has(paths: &Paths, path: &str) -> bool
    ensures { result ≡ has paths.now path.now }
{
    match paths.number_of(path) {
        Some(_) => true,
        None => false,
    }
}

/// Takes in the depfile and the response file of each edge.
fn push_all_sides(
    alloc: Global,
    declared: Declared<'_>,
    known: &mut Paths,
) -> Result<(), AllocError> {
    for place in 0..declared.graph.edges() {
        if let Some(edge) = EdgeId::at(place) {
            push_sides(alloc, declared, edge, known)?;
        }
    }
    Ok(())
}

/// Takes in each path that the deps log names.
fn push_all_reported(
    alloc: Global,
    declared: Declared<'_>,
    known: &mut Paths,
) -> Result<(), AllocError> {
    let Some(log) = declared.deps else {
        return Ok(());
    };
    for number in 0..u32::MAX {
        let Some(path) = log.path(number) else {
            return Ok(());
        };
        declared.names.add_to(alloc, known, path)?;
    }
    Ok(())
}
