//! What was seen of each path.

ghost use Rattle.std.specs.Prelude.{◌≡◌, ◌<◌, ◌≤◌, ℕ, take, IfOk, OnOk, OnErr, true, false, length};
ghost use Rattle.model.specs.Calls.{OnlyLooks, HasCause};
ghost use Rattle.model.specs.Graph.{has_number};
ghost use Rattle.judge.specs.declared.looks.Look.TheVariants.{Unasked};
ghost use Rattle.judge.specs.Answers.{KnowsNone};
ghost use Rattle.judge.specs.Looking.{HasLookedAt, StaysRight, FindsStamp, was_asked, AreUnasked, IsNoted, NotesStamp};
ghost use Rattle.judge.specs.Looking.{KeepsAsked, HasAsked, KeepsAll, KeepsAllBut, StaysSeenIn, HasForgotten, KeepsOthers};
ghost use Rattle.judge.specs.Seen.{look_at, look_of};

use crate::sums::Sums;
use graph::Graph;
use model::SiteFault;
use paths::PathId;
use site::Site;
use std::alloc::{AllocError, Global};

/// What was seen of a path.
#[derive(Clone, Copy, Debug, PartialEq, Eq)]
pub enum Look {
    /// It was not asked for.
    Unasked,
    /// There was no file.
    Absent,
    /// The stamp of its file.
    Stamp(u64),
}

/// What was seen of each path of a graph, by its number: 16 bytes for each. A path is asked of the site once, until what was
/// seen is forgotten.
#[derive(Drop)]
pub struct Looks {
    pub seen: Vec<Look>,
    /// What was found of edges by that.
    pub sums: Sums,
}

impl Looks {
    /// Nothing was asked for.
    pub fn new(alloc: Global, graph: &Graph) -> Result<Looks, AllocError>
        ensures unasked { IfOk result (λ looks. AreUnasked graph.now looks) }
        ensures answers { IfOk result (λ looks. KnowsNone looks.sums.answers) }
        ensures dues { IfOk result (λ looks. looks.sums.answers.dues.known ≡ false) }
    {
        let sums = Sums::new(alloc)?;
        Ok(Looks {
            seen: vec![in alloc; Look::Unasked; graph.paths()]?,
            sums,
        })
    }

    /// The stamp of the file at the path, or nothing where there is no file. The site is asked where the path was not asked
    /// for yet. Where it fails, what was seen stays as it was.
    pub fn stamp<S: Site>(
        &mut self,
        site: &mut S,
        graph: &Graph,
        path: PathId,
    ) -> Result<Option<u64>, SiteFault>
        requires running { (S.world site.old).stopped ≡ false }
        requires fits { length self.old.seen.items ≡ length graph.now.manifest.paths }
        requires within { path < length graph.now.manifest.paths }
        ensures looks { OnlyLooks S.tells (S.world site.old) (S.world site.new) }
        ensures cause { HasCause (S.world site.old) (S.world site.new) result }
        ensures seen { IfOk result (λ stamp. NotesStamp path stamp self.old self.new) }
        ensures once { was_asked self.old path ≡ true → (S.world site.new ≡ S.world site.old) }
        ensures asked { was_asked self.old path ≡ true → IfOk result (λ stamp. IsNoted self.old path stamp) }
        ensures kept { StaysRight S.tells S.world site.old site.new graph.now self.old self.new }
        ensures stamp { FindsStamp S.tells S.world site.old site.new graph.now self.old path result }
        ensures stays { KeepsAsked self.old self.new }
        ensures sums { self.new.sums ≡ self.old.sums }
        ensures err { OnErr result (self.new ≡ self.old) }
    {
        let place = path.index();
        match self.seen[place] {
            Look::Absent => Ok(None),
            Look::Stamp(stamp) => Ok(Some(stamp)),
            Look::Unasked => {
                let stamp = site.stat(graph.text(path))?;
                self.seen[place] = look_of(stamp);
                Ok(stamp)
            }
        }
    }

    /// Asks for these paths, as far as that was not done yet.
    pub fn ask<S: Site>(
        &mut self,
        site: &mut S,
        graph: &Graph,
        paths: &[PathId],
    ) -> Result<(), SiteFault>
        requires running { (S.world site.old).stopped ≡ false }
        requires fits { length self.old.seen.items ≡ length graph.now.manifest.paths }
        requires within { (p : ℕ) → has_number paths.now p ≡ true → p < length graph.now.manifest.paths }
        ensures looked { HasLookedAt S.tells S.world site.old site.new graph.now self.old self.new }
        ensures cause { HasCause (S.world site.old) (S.world site.new) result }
        ensures sums { self.new.sums ≡ self.old.sums }
        ensures asked { OnOk result (HasAsked paths.now self.new) }
    {
        for path in paths {
            self.stamp(site, graph, *path)?;
        }
        Ok(())
    }

    /// Room for the paths that the graph got: none of them was asked for. What was seen stays, and so it is of the same paths.
    /// Where memory is refused, nothing is changed.
    pub fn grow(&mut self, graph: &Graph) -> Result<(), AllocError>
        requires { length self.old.seen.items ≤ length graph.now.manifest.paths }
        ensures fits { OnOk result (length self.new.seen.items ≡ length graph.now.manifest.paths) }
        ensures same { OnOk result (KeepsAll self.old self.new) }
        ensures seen { OnOk result (StaysSeenIn graph.now self.old self.new) }
        ensures front { take (length self.old.seen.items) self.new.seen.items ≡ self.old.seen.items }
        ensures sums { self.new.sums ≡ self.old.sums }
        ensures err { OnErr result (self.new.seen.items ≡ self.old.seen.items) }
    {
        self.seen.resize(graph.paths(), Look::Unasked)?;
        Ok(())
    }

    /// Forgets what was seen of paths that the graph has no more, as a load was taken back. It takes no memory.
    pub fn shrink(&mut self, graph: &Graph)
        ensures { self.new.seen.items ≡ take (length graph.now.manifest.paths) self.old.seen.items }
    {
        self.seen.truncate(graph.paths());
    }

    /// What was seen of the path, without asking for it.
    pub fn look(&self, path: PathId) -> Look
        ensures { result ≡ look_at self.now.seen.items path }
    {
        self.seen
            .get(path.index())
            .copied()
            .unwrap_or(Look::Unasked)
    }

    /// Forgets what was seen of these paths.
    pub fn forget(&mut self, paths: &[PathId])
        ensures forgotten { HasForgotten paths.now self.new }
        ensures others { KeepsOthers paths.now self.old self.new }
        ensures fits { length self.new.seen.items ≡ length self.old.seen.items }
        ensures sums { self.new.sums ≡ self.old.sums }
    {
        for path in paths {
            self.forget_one(*path);
        }
    }

    /// Forgets what was seen of the path.
    fn forget_one(&mut self, path: PathId)
        ensures forgotten { look_at self.new.seen.items path ≡ Unasked }
        ensures others { KeepsAllBut path self.old self.new }
        ensures fits { length self.new.seen.items ≡ length self.old.seen.items }
        ensures sums { self.new.sums ≡ self.old.sums }
    {
        let place = path.index();
        if place < self.seen.len() {
            self.seen[place] = Look::Unasked;
        }
    }
}

/// What a stamp says of a path.
fn look_of(stamp: Option<u64>) -> Look
    ensures { result ≡ look_of stamp }
{
    match stamp {
        Some(stamp) => Look::Stamp(stamp),
        None => Look::Absent,
    }
}
