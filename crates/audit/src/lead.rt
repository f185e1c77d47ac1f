//! Where names lead, by the links on their way.

ghost use Rattle.std.specs.Prelude.{◌≡◌, IfOk, OnOk, not};
ghost use Rattle.audit.specs.Leading.{at_end, behind_link, done, entered, goes_on, has, is_here, is_lost, is_magic, is_twin, is_up, joined, lead, met, most, nothing, old_target, passed, phase_at, step, target_at, target_of, walked, way_after, way_at_old, way_at_own};

use crate::standing::{Standing, Stands};
use paths::Paths;
use std::alloc::{AllocError, Global};
use std::marker::Model;
use text::{Path, Text};

/// What a thing asks for by its name.
#[derive(Clone, Copy)]
pub struct Asks {
    /// What a link leads to that stands at the path itself.
    pub follows: bool,
    /// Links count that the command did not make.
    pub sees: bool,
    /// The file is written.
    pub writes: bool,
}

/// What stands on the way to a file.
#[derive(Clone, Copy, Debug, PartialEq, Eq)]
pub enum Way {
    /// Nothing, or links to folders that the command did not make.
    Plain,
    /// A link to a folder that the command made.
    Own,
    /// A link at the path itself, which the command made.
    At,
    /// A link at the path itself, which the command did not make.
    Old,
    /// The file was given this path beside another one, by the command.
    Twin,
}

/// Where a name leads; without a path where no link stands on its way.
#[derive(Drop)]
pub struct Trail {
    pub path: Option<Path>,
    pub way: Way,
}

/// What is known to stand at paths: what the command put there, and what others did.
#[derive(Clone, Copy)]
pub struct Links<'k> {
    pub own: &'k Standing,
    pub old: &'k Standing,
}

/// How far a name was followed.
#[derive(Clone, Copy)]
pub enum Phase {
    /// To a path that leads nowhere else.
    Walks,
    /// To one of a process, which leads to what that one has open.
    Magic,
    /// To a link.
    Met,
    /// It cannot be told where it leads.
    Lost,
}

/// A name that is followed to the first link, which contracts see as what was come to.
#[derive(Drop)]
pub struct Walk {
    /// The paths that were come to, each below the one before.
    folders: Vec<Text>,
    /// Behind a link: where it leads, and what stood behind it in the name.
    next: Text,
    phase: Phase,
    /// The command made that link.
    own: bool,
    /// Nothing stood behind it.
    last: bool,
}

impl Model for Walk {
    ghost use Rattle.audit.specs.Came.{Came};

    ghost Value = { Came };

    ghost view = { λ walk. record { folders = walk.folders.items; next = walk.next; phase = walk.phase; own = walk.own; last = walk.last } };
}

/// Where a link leads, and whether the command made it.
#[derive(Drop)]
pub struct Target {
    pub path: Text,
    pub own: bool,
}

/// What stood on the way of a name so far.
#[derive(Clone, Copy)]
struct SoFar {
    /// A link was followed.
    met: bool,
    way: Way,
}

impl Way {
    pub fn is_twin(self) -> bool
        ensures { result ≡ is_twin self }
    {
        matches!(self, Way::Twin)
    }

    /// The same with one link more on it, which stands at the path itself or not.
    fn after(self, own: bool, last: bool) -> Way
        ensures { result ≡ way_after self own last }
    {
        if own && !last {
            return Way::Own;
        }
        if own {
            return self.at_own();
        }
        if last { self.at_old() } else { self }
    }

    /// The same with a link at the path itself, which the command made.
    fn at_own(self) -> Way
        ensures { result ≡ way_at_own self }
    {
        match self {
            Way::Own => Way::Own,
            _ => Way::At,
        }
    }

    /// The same with one that it did not make.
    fn at_old(self) -> Way
        ensures { result ≡ way_at_old self }
    {
        match self {
            Way::Plain => Way::Old,
            way => way,
        }
    }
}

/// Where this name leads, which begins at the root. None where that cannot be told: it leads through what a process has open, or through more
/// links than the kernel follows.
pub fn lead(
    alloc: Global,
    links: &Links<'_>,
    asks: Asks,
    name: &str,
) -> Result<Option<Trail>, AllocError>
    ensures { IfOk result (λ found. found ≡ lead links.now.own.now links.now.old.now asks name.now) }
{
    let mut met = false;
    let mut way = Way::Plain;
    let mut text = Text::from_str(alloc, name)?;
    let mut left = most();
    'links: while left > 0 {
        left -= 1;
        let walk = walked(alloc, links, asks.sees, text.as_str())?;
        if walk.is_lost() {
            return Ok(None);
        }
        if walk.ends(asks.follows) {
            let so_far = SoFar { met, way };
            let found = at_end(alloc, links, asks.writes, so_far, walk.done())?;
            return Ok(Some(found));
        }
        met = true;
        way = walk.way_after(way);
        text = walk.into_next();
    }
    Ok(None)
}

/// How many walks are made: a link less is followed, and the kernel follows 40.
#[tactic(auto, unfolding(crate::specs::Leading::most))]
fn most() -> u32
    ensures { result ≡ most }
{
    40
}

/// Where a name leads that was followed to this path, through links or not.
fn at_end(
    alloc: Global,
    links: &Links<'_>,
    writes: bool,
    so_far: SoFar,
    done: &str,
) -> Result<Trail, AllocError>
    ensures { IfOk result (λ found. found ≡ at_end links.now.own.now writes so_far done.now) }
{
    if writes {
        if let Some(twin) = links.own.twin_of(done) {
            return Ok(Trail {
                path: Some(Path::from_str(alloc, twin)?),
                way: Way::Twin,
            });
        }
    }
    let path = if so_far.met {
        Some(Path::from_str(alloc, done)?)
    } else {
        None
    };
    Ok(Trail {
        path,
        way: so_far.way,
    })
}

/// The name as it is followed to the first link.
pub fn walked(alloc: Global, links: &Links<'_>, sees: bool, name: &str) -> Result<Walk, AllocError>
    ensures { IfOk result (λ walk. walk ≡ walked (target_at links.now.own.now links.now.old.now sees) name.now) }
{
    let mut walk = Walk::new(alloc);
    for part in name.split('/') {
        walk.step(alloc, links, sees, part)?;
    }
    Ok(walk)
}

impl Walk {
    /// Nothing was come to yet.
    fn new(alloc: Global) -> Walk
        ensures { result ≡ nothing }
    {
        Walk {
            folders: Vec::new(alloc),
            next: Text::new(alloc),
            phase: Phase::Walks,
            own: false,
            last: false,
        }
    }

    fn is_lost(&self) -> bool
        ensures { result ≡ is_lost self.now.phase }
    {
        matches!(self.phase, Phase::Lost)
    }

    /// Whether the link that was come to is followed, where those at the path itself are or are not.
    pub fn goes_on(&self, follows: bool) -> bool
        ensures { result ≡ goes_on self.now follows }
    {
        matches!(self.phase, Phase::Met) && (follows || !self.last)
    }

    /// Whether nothing is followed any more.
    fn ends(&self, follows: bool) -> bool
        ensures { result ≡ not (goes_on self.now follows) }
    {
        !self.goes_on(follows)
    }

    /// What stands on the way, with the link that was come to.
    fn way_after(&self, way: Way) -> Way
        ensures { result ≡ way_after way self.now.own self.now.last }
    {
        way.after(self.own, self.last)
    }

    /// Where the link leads that was come to, and what stood behind it.
    pub fn into_next(self) -> Text
        ensures { result ≡ self.next }
    {
        self.next
    }

    /// The path that was come to last.
    fn done(&self) -> &str
        ensures { result.now ≡ done self.now.folders }
    {
        match self.folders.last() {
            Some(folder) => folder.as_str(),
            None => "",
        }
    }

    /// Takes in the paths that were come to and of which it is not known whether a link stands there.
    pub fn push_unknown(
        &self,
        alloc: Global,
        links: &Links<'_>,
        found: &mut Paths,
    ) -> Result<(), AllocError> {
        for folder in &self.folders {
            let path = folder.as_str();
            if links.old.at(path).is_none() {
                found.add(alloc, path)?;
            }
        }
        Ok(())
    }

    /// Passes over one part of the name more.
    fn step(
        &mut self,
        alloc: Global,
        links: &Links<'_>,
        sees: bool,
        part: &str,
    ) -> Result<(), AllocError>
        ensures { OnOk result (self.new ≡ step (target_at links.now.own.now links.now.old.now sees) self.old part.now) }
    {
        match self.phase {
            Phase::Lost => Ok(()),
            Phase::Magic => {
                self.phase = Phase::Lost;
                Ok(())
            }
            Phase::Met => {
                self.next = joined(alloc, self.next.as_str(), part)?;
                self.last = false;
                Ok(())
            }
            Phase::Walks => self.pass(alloc, links, sees, part),
        }
    }

    /// The same, where no link was come to yet.
    fn pass(
        &mut self,
        alloc: Global,
        links: &Links<'_>,
        sees: bool,
        part: &str,
    ) -> Result<(), AllocError>
        ensures { OnOk result (self.new ≡ passed (target_at links.now.own.now links.now.old.now sees) self.old part.now) }
    {
        if is_here(part) {
            return Ok(());
        }
        if is_up(part) {
            self.folders.pop();
            return Ok(());
        }
        let place = joined(alloc, self.done(), part)?;
        match target_at(alloc, links, sees, place.as_str())? {
            Some(target) => self.meet(alloc, place, target),
            None => self.enter(place),
        }
    }

    /// Comes to a path that leads nowhere else.
    fn enter(&mut self, place: Text) -> Result<(), AllocError>
        ensures { OnOk result (self.new ≡ entered self.old place) }
    {
        self.phase = phase_at(place.as_str());
        self.folders.push(place)?;
        Ok(())
    }

    /// Comes to a link.
    fn meet(&mut self, alloc: Global, place: Text, target: Target) -> Result<(), AllocError>
        ensures { OnOk result (self.new ≡ met self.old place target) }
    {
        self.next = behind_link(alloc, self.done(), target.path)?;
        self.phase = Phase::Met;
        self.own = target.own;
        self.last = true;
        self.folders.push(place)?;
        Ok(())
    }
}

/// How far a name was followed that came to this path.
fn phase_at(place: &str) -> Phase
    ensures { result ≡ phase_at place.now }
{
    if is_magic(place.as_bytes()) {
        Phase::Magic
    } else {
        Phase::Walks
    }
}

/// Whether the part of a name names nothing.
fn is_here(part: &str) -> bool
    ensures { result ≡ is_here part.now }
{
    part == "" || part == "."
}

/// Whether it names what is above.
pub fn is_up(part: &str) -> bool
    ensures { result ≡ is_up part.now }
{
    part == ".."
}

/// Whether the path is one of those by which processes tell what they have open, or where they are.
fn is_magic(place: &[u8]) -> bool
    ensures { result ≡ is_magic place.now }
{
    place.starts_with(b"/proc/")
        && (place.ends_with(b"/cwd") || (place.ends_with(b"/root") || has(place, b"/fd/")))
}

/// Where a link leads that stands in this folder and leads to this path, as it is written.
fn behind_link(alloc: Global, folder: &str, target: Text) -> Result<Text, AllocError>
    ensures { IfOk result (λ path. path ≡ behind_link folder.now target) }
{
    if target.as_str().as_bytes().starts_with(b"/") {
        return Ok(target);
    }
    joined(alloc, folder, target.as_str())
}

/// The path of a name in a folder.
fn joined(alloc: Global, folder: &str, name: &str) -> Result<Text, AllocError>
    ensures { IfOk result (λ path. path ≡ joined folder.now name.now) }
{
    let mut path = String::from_str(alloc, folder)?;
    path.push('/')?;
    path.push_str(name)?;
    Ok(Text::from_string(path))
}

/// Where the link leads that stands at this path, if one does. One more path may be that of a link that the command did not make; those that the command did not make count or do not.
fn target_at(
    alloc: Global,
    links: &Links<'_>,
    sees: bool,
    place: &str,
) -> Result<Option<Target>, AllocError>
    ensures { IfOk result (λ found. found ≡ target_at links.now.own.now links.now.old.now sees place.now) }
{
    match links.own.at(place) {
        Some(Stands::Link(path)) => target_of(alloc, path, true),
        Some(Stands::Unknown) => old_target(alloc, links.old, sees, place),
        Some(Stands::Twin(_)) => old_target(alloc, links.old, sees, place),
        Some(_) => Ok(None),
        None => old_target(alloc, links.old, sees, place),
    }
}

/// The same of a link that the command did not make.
fn old_target(
    alloc: Global,
    old: &Standing,
    sees: bool,
    place: &str,
) -> Result<Option<Target>, AllocError>
    ensures { IfOk result (λ found. found ≡ old_target old.now sees place.now) }
{
    if !sees {
        return Ok(None);
    }
    match old.at(place) {
        Some(Stands::Link(path)) => target_of(alloc, path, false),
        _ => Ok(None),
    }
}

fn target_of(alloc: Global, path: &Path, own: bool) -> Result<Option<Target>, AllocError>
    ensures { IfOk result (λ found. found ≡ target_of path.now own) }
{
    let path = Text::from_str(alloc, path.as_str())?;
    Ok(Some(Target { path, own }))
}

/// Whether the mark stands in the text.
fn has(text: &[u8], mark: &[u8]) -> bool
    ensures { result ≡ has mark.now text.now }
{
    let mut rest = text;
    'places: while let Some((_, more)) = rest.split_first() {
        if rest.starts_with(mark) {
            return true;
        }
        rest = more;
    }
    false
}
