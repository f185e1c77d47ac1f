//! What a command did, path by path.

ghost use Rattle.std.specs.Prelude.{◌≡◌, IfOk, IfSome, OnOk, false, length, slice_get, unwrap_or, if◌then◌else◌};
ghost use Rattle.std.specs.List.{list_any};
ghost use Rattle.std.specs.Option.{option_map};
ghost use Rattle.std.specs.Map.Iter.{deref};
ghost use Rattle.model.specs.Graph.{has};
ghost use Rattle.audit.specs.Uses.{unused};
ghost use Rattle.audit.specs.Wholes.{IsPath};
ghost use Rattle.audit.specs.Seen.{IsWhole, again_at, folder_deed, is_connected, no_sums, path_by, put_last, sums_in, use_at, with_all_done, with_done, with_moved, with_pair, with_pairs, with_taken, with_thing, with_untouched};

use crate::below::{Carried, below};
use crate::used::Use;
use crate::whole::Whole;
use lexer::canonical;
use paths::{PathId, Paths};
use std::alloc::{AllocError, Global};
use text::Path;
use trace::Deed;

/// By which of its two paths a thing counts that was done.
#[derive(Clone, Copy, Debug, PartialEq, Eq)]
pub enum By {
    /// By the one that was given.
    Name,
    /// By the one that the kernel has, if it is known.
    Kernel,
    /// By each of them.
    Both,
}

/// The canonical path from the root of a path of the build, whose folder is this one.
pub fn canonical_at(alloc: Global, folder: &str, path: &str) -> Result<Path, AllocError>
    ensures { IfOk result (IsWhole folder.now path.now) }
{
    if path.as_bytes().starts_with(b"/") {
        return canonical_of(alloc, path);
    }
    let mut whole = String::from_str(alloc, folder)?;
    whole.push('/')?;
    whole.push_str(path)?;
    canonical_of(alloc, whole.as_str())
}

/// The canonical path of a text that has a slash, and so is not empty.
fn canonical_of(alloc: Global, path: &str) -> Result<Path, AllocError>
    ensures { IfOk result (IsPath path.now) }
{
    match canonical(alloc, path) {
        Ok(path) => Ok(Path::from_string(path)),
        Err(_) => Err(AllocError),
    }
}

/// What a command did, path by path, in the order in which it came to each: the paths, and at the same place of the other list what was done
/// there in sum.
#[derive(Drop)]
pub struct Uses {
    pub paths: Paths,
    pub uses: Vec<Use>,
}

impl Uses {
    /// Nothing. This takes no memory.
    fn none(alloc: Global) -> Uses
        ensures { sums_in result ≡ no_sums }
    {
        Uses {
            paths: Paths::new(alloc),
            uses: Vec::new(alloc),
        }
    }

    /// How many paths there are.
    pub fn len(&self) -> usize
        ensures { result ≡ length (sums_in self.now).paths }
    {
        self.paths.len()
    }

    /// The path in this place.
    pub fn path(&self, place: usize) -> Option<&str>
        ensures { option_map deref result ≡ slice_get (sums_in self.now).paths place }
    {
        path_at(&self.paths, place)
    }

    /// What was done at the path in this place.
    pub fn used(&self, place: usize) -> Option<Use>
        ensures { result ≡ slice_get (sums_in self.now).uses place }
    {
        self.uses.get(place).copied()
    }

    /// Takes in one thing more that was done, by the path that is asked for, or by both.
    fn take_by(&mut self, alloc: Global, whole: &Whole, by: By) -> Result<(), AllocError>
        ensures { OnOk result (sums_in self.new ≡ with_taken (sums_in self.old) whole.now by) }
    {
        match by {
            By::Name => self.take_thing(alloc, path_by(whole, false), whole),
            By::Kernel => self.take_thing(alloc, path_by(whole, true), whole),
            By::Both => {
                self.take_thing(alloc, path_by(whole, false), whole)?;
                self.take_thing(alloc, path_by(whole, true), whole)
            }
        }
    }

    /// Takes in one thing more that was done, by this path.
    fn take_thing(&mut self, alloc: Global, path: &str, whole: &Whole) -> Result<(), AllocError>
        ensures { OnOk result (sums_in self.new ≡ with_thing (sums_in self.old) path.now whole.now) }
    {
        match whole.deed {
            Deed::Moved => match &whole.other {
                Some(from) => self.take_moved(alloc, from.as_str(), path),
                None => self.take(alloc, path, whole.deed),
            },
            _ => self.take(alloc, path, whole.deed),
        }
    }

    /// Takes in that what has the first path was given the second one: where it is a folder, all that was seen below it goes along.
    fn take_moved(&mut self, alloc: Global, from: &str, to: &str) -> Result<(), AllocError>
        ensures { OnOk result (sums_in self.new ≡ with_moved (sums_in self.old) from.now to.now) }
    {
        let used = self.at(from);
        if !used.is_folder {
            return self.take(alloc, to, Deed::Moved);
        }
        let pairs = below(alloc, &self.paths, from, to)?;
        self.take_pairs(alloc, pairs.as_slice())?;
        self.take(alloc, to, folder_deed(used))
    }

    fn take_pairs(&mut self, alloc: Global, pairs: &[Carried]) -> Result<(), AllocError>
        ensures { OnOk result (sums_in self.new ≡ with_pairs (sums_in self.old) pairs.now) }
    {
        for pair in pairs {
            self.take_pair(alloc, pair)?;
        }
        Ok(())
    }

    /// The same of what has one path, if something stands there.
    fn take_pair(&mut self, alloc: Global, pair: &Carried) -> Result<(), AllocError>
        ensures { OnOk result (sums_in self.new ≡ with_pair (sums_in self.old) pair.now) }
    {
        let used = self.at(pair.from.as_str());
        if used.is_folder {
            self.take(alloc, pair.from.as_str(), Deed::Left)?;
            return self.take(alloc, pair.to.as_str(), folder_deed(used));
        }
        if !used.stands() {
            return Ok(());
        }
        self.take(alloc, pair.from.as_str(), Deed::Read)?;
        self.take(alloc, pair.from.as_str(), Deed::Left)?;
        self.take(alloc, pair.to.as_str(), Deed::Moved)
    }

    /// What was done at a path.
    fn at(&self, path: &str) -> Use
        ensures { result ≡ use_at (sums_in self.now) path.now }
    {
        match self.paths.number_of(path) {
            Some(number) => or_none(self.used(number.index())),
            None => Use::none(),
        }
    }

    /// Takes in one thing more that was done.
    fn take(&mut self, alloc: Global, path: &str, deed: Deed) -> Result<(), AllocError>
        ensures { OnOk result (sums_in self.new ≡ with_done (sums_in self.old) path.now deed) }
    {
        match self.paths.number_of(path) {
            Some(number) => {
                self.again(number.index(), deed);
                Ok(())
            }
            None => {
                self.put(alloc, path, Use::none().with(deed))?;
                Ok(())
            }
        }
    }

    /// Takes in one thing more that was done at the path in this place.
    fn again(&mut self, place: usize, deed: Deed)
        ensures paths { self.new.paths ≡ self.old.paths }
        ensures uses { self.new.uses.items ≡ again_at self.old.uses.items place deed }
    {
        if place < self.uses.len() {
            self.uses[place] = self.uses[place].with(deed);
        }
    }

    /// Puts a path at the end, which is not there yet.
    fn put(&mut self, alloc: Global, path: &str, used: Use) -> Result<(), AllocError>
        requires { has (sums_in self.old).paths path.now ≡ false }
        ensures { OnOk result (sums_in self.new ≡ put_last (sums_in self.old) path.now used) }
    {
        self.paths.add(alloc, path)?;
        self.uses.push(used)?;
        Ok(())
    }

    /// Puts a path at the end at which nothing was done, if it is not there yet.
    fn touch(&mut self, alloc: Global, path: &str) -> Result<(), AllocError>
        ensures { OnOk result (sums_in self.new ≡ (if has (sums_in self.old).paths path.now then sums_in self.old else put_last (sums_in self.old) path.now unused)) }
    {
        match self.paths.number_of(path) {
            Some(_) => Ok(()),
            None => {
                self.put(alloc, path, Use::none())?;
                Ok(())
            }
        }
    }

    /// Puts those of these paths at the end at which nothing was done, so that each of them is there.
    pub fn add_untouched(&mut self, alloc: Global, paths: &Paths) -> Result<(), AllocError>
        ensures { OnOk result (sums_in self.new ≡ with_untouched (sums_in self.old) paths.now) }
    {
        for place in 0..paths.len() {
            let Some(path) = path_at(paths, place) else {
                return Ok(());
            };
            self.touch(alloc, path)?;
        }
        Ok(())
    }
}

/// What was done, or nothing.
fn or_none(used: Option<Use>) -> Use
    ensures { result ≡ unwrap_or used unused }
{
    match used {
        Some(used) => used,
        None => Use::none(),
    }
}

/// What was done at the new path of a folder of which this was seen.
fn folder_deed(used: Use) -> Deed
    ensures { result ≡ folder_deed used }
{
    if used.made_folder {
        Deed::Made
    } else {
        Deed::Moved
    }
}

/// The path in this place of a table.
fn path_at(paths: &Paths, place: usize) -> Option<&str>
    ensures { option_map deref result ≡ slice_get paths.now place }
{
    if place >= paths.len() {
        return None;
    }
    match PathId::at(place) {
        Some(number) => paths.get(number),
        None => None,
    }
}

/// What a command did, path by path: each thing by its path, or by the one that the kernel has, if it is known, or by both, as is asked for.
pub fn uses_of(alloc: Global, wholes: &[Whole], bys: &[By]) -> Result<Uses, AllocError>
    ensures { IfOk result (λ uses. sums_in uses ≡ with_all_done no_sums wholes.now bys.now) }
{
    let mut uses = Uses::none(alloc);
    for place in 0..wholes.len() {
        let Some(by) = bys.get(place) else {
            return Ok(uses);
        };
        let whole = &wholes[place];
        uses.take_by(alloc, whole, *by)?;
    }
    Ok(uses)
}

/// The path by which a thing counts that was done.
fn path_by(whole: &Whole, by_real: bool) -> &str
    ensures { result.now ≡ path_by whole.now by_real }
{
    if !by_real {
        return whole.path.as_str();
    }
    match &whole.real {
        Some(real) => real.as_str(),
        None => whole.path.as_str(),
    }
}

/// Whether a server was asked.
pub fn connects(wholes: &[Whole]) -> bool
    ensures { result ≡ list_any (λ whole. is_connected whole.deed) wholes.now }
{
    for whole in wholes {
        if is_connected(whole.deed) {
            return true;
        }
    }
    false
}

fn is_connected(deed: Deed) -> bool
    ensures { result ≡ is_connected deed }
{
    match deed {
        Deed::Connected => true,
        _ => false,
    }
}
