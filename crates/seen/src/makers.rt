//! Which edge makes a path.

ghost use Rattle.std.specs.Prelude.{◌≡◌, ◌<◌, ◌++◌, ℕ, suc, true, length, IfOk, OnOk};
ghost use Rattle.seen.specs.Makers.{are_below, listing_at, pairs_of};

use bumpalo::Bump;
use indexmap::IndexMap;
use paths::{Action, Manifest};
use seen_log::arena;
use std::alloc::{AllocError, Global};

/// An output of a command, and the number of its edge.
#[derive(Drop)]
pub struct Output {
    pub text: &'static str,
    pub job: usize,
}

/// What commands make by the build file: outputs that are listed alone, which go into the table once one is looked for. Where nothing changed
/// since the last build, none is.
#[derive(Drop)]
pub struct Makers {
    pub table: IndexMap<&'static str, usize>,
    pub listed: Vec<Output>,
    /// One past the number of the last edge: they are counted from 1.
    pub jobs: usize,
}

impl Makers {
    ghost use Rattle.std.specs.Prelude.{◌≡◌, [], ℕ, List, None, length, IfOk, OnOk};
    ghost use Rattle.seen.specs.Makers.{AreJobs, MakesSame, listing, maker_of, pairs_of};

    /// None, which takes no memory.
    pub fn new(alloc: Global) -> Makers
        ensures jobs { AreJobs result }
        ensures none { (p : List ℕ) → maker_of result p ≡ None }
        ensures table { result.table.entries ≡ [] }
    {
        Makers {
            table: IndexMap::new(alloc),
            listed: Vec::new(alloc),
            jobs: 0,
        }
    }

    /// The outputs of the edges with commands, each with the number under which its edge is started. Their texts take memory until the
    /// program ends.
    pub fn of(alloc: Global, manifest: &Manifest) -> Result<Makers, AllocError>
        ensures jobs { IfOk result AreJobs }
        ensures table { IfOk result (λ makers. makers.table.entries ≡ []) }
        ensures lists { IfOk result (λ makers. pairs_of makers.listed.items ≡ listing manifest.now (length manifest.now.lines)) }
    {
        let arena = arena(alloc)?;
        let mut listed = Vec::new(alloc);
        let count = manifest.lines.len();
        let jobs = one_past(count)?;
        for place in 0..count {
            list_outputs(arena, manifest, place, &mut listed)?;
        }
        Ok(Makers {
            table: IndexMap::new(alloc),
            listed,
            jobs,
        })
    }

    /// One past the number of the last edge.
    pub fn count(&self) -> usize
        ensures { result ≡ self.now.jobs }
    {
        self.jobs
    }

    /// Puts what is listed into the table.
    fn settle(&mut self) -> Result<(), AllocError>
        ensures same { MakesSame self.old self.new }
        ensures none { OnOk result (self.new.listed.items ≡ []) }
        ensures jobs { self.new.jobs ≡ self.old.jobs }
    {
        self.table.reserve(self.listed.len())?;
        while let Some(Output { text, job }) = self.listed.pop() {
            match self.table.insert(text, job) {
                Ok(_) => {}
                Err(_) => unreachable!(),
            }
        }
        Ok(())
    }

    /// The edge whose command makes the path, once all are in the table.
    pub fn maker(&mut self, path: &str) -> Result<Option<usize>, AllocError>
        ensures same { MakesSame self.old self.new }
        ensures maker { IfOk result (λ maker. maker ≡ maker_of self.old path.now) }
        ensures jobs { self.new.jobs ≡ self.old.jobs }
    {
        self.settle()?;
        Ok(self.table.get(path).copied())
    }
}

/// One more than so many edges.
fn one_past(count: usize) -> Result<usize, AllocError>
    ensures { IfOk result (λ jobs. jobs ≡ suc count) }
{
    count.checked_add(1).ok_or(AllocError)
}

/// Lists the outputs of the edge at this place, if it has a command.
#[tactic(auto, using(crate::proofs::Making::below_more))]
fn list_outputs(
    arena: &'static Bump,
    manifest: &Manifest,
    place: usize,
    listed: &mut Vec<Output>,
) -> Result<(), AllocError>
    requires { place < length manifest.now.lines }
    ensures below { OnOk result ((jobs : ℕ) → suc place < jobs → are_below jobs listed.old.items ≡ true → are_below jobs listed.new.items ≡ true) }
    ensures lists { OnOk result (pairs_of listed.new.items ≡ pairs_of listed.old.items ++ listing_at manifest.now place) }
{
    let edge = manifest.edge(place);
    if matches!(manifest.action(edge), Action::Alias) {
        return Ok(());
    }
    for output in manifest.lines.outputs(edge) {
        if let Some(text) = manifest.paths.get(*output) {
            listed.push(Output {
                text: arena.try_alloc_str(text)?,
                job: edge.job(),
            })?;
        }
    }
    Ok(())
}
