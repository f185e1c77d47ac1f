//! What is known to stand at paths: links, and second paths of files.

ghost use Rattle.std.specs.Prelude.{◌≡◌, OnOk, IfOk, option_map, slice_get};
ghost use Rattle.std.specs.Map.Iter.{deref};
ghost use Rattle.audit.specs.Leading.{twin_of};
ghost use Rattle.audit.specs.Standing.{after, is_gone, linked, moved, nowhere, other_in, place_of, put, put_at, stand_at, with_pair, with_pairs};

use crate::below::{Carried, below};
use crate::whole::Whole;
use paths::Paths;
use std::alloc::{AllocError, Global};
use std::marker::Model;
use std::mem;
use text::Path;
use trace::Deed;

/// What stands at a path.
#[derive(Drop)]
pub enum Stands {
    /// It is not known what does.
    Unknown,
    /// Nothing, or what was made there since.
    Gone,
    /// No link.
    File,
    /// A link, which leads there as it is written.
    Link(Path),
    /// A file that has this path too.
    Twin(Path),
}

/// What stands at paths, which begin at the root and lead nowhere else, and of which each is found at once.
#[derive(Drop)]
pub struct Standing {
    paths: Paths,
    stands: Vec<Stands>,
}

impl Model for Standing {
    ghost use Rattle.audit.specs.Stood.{Stood};

    ghost Value = { Stood };

    ghost view = { λ standing. record { paths = standing.paths; stands = standing.stands.items } };
}

impl Stands {
    /// A copy of its own.
    fn copy(&self) -> Result<Stands, AllocError>
        ensures { IfOk result (λ copy. copy ≡ self.now) }
    {
        match self {
            Stands::Unknown => Ok(Stands::Unknown),
            Stands::Gone => Ok(Stands::Gone),
            Stands::File => Ok(Stands::File),
            Stands::Link(path) => Ok(Stands::Link(path.clone()?)),
            Stands::Twin(path) => Ok(Stands::Twin(path.clone()?)),
        }
    }
}

impl Standing {
    /// Of no path it is known. This takes no memory.
    pub fn none(alloc: Global) -> Standing
        ensures { result ≡ nowhere }
    {
        Standing {
            paths: Paths::new(alloc),
            stands: Vec::new(alloc),
        }
    }

    /// What stands at a path, where that is known.
    pub fn at(&self, path: &str) -> Option<&Stands>
        ensures { option_map (λ stands. stands.now) result ≡ stand_at self.now path.now }
    {
        match self.paths.number_of(path) {
            Some(number) => in_place(self.stands.as_slice(), number.index()),
            None => None,
        }
    }

    /// Whether it is known that what stood at the path is gone.
    pub fn is_gone(&self, path: &str) -> bool
        ensures { result ≡ is_gone (stand_at self.now path.now) }
    {
        match self.at(path) {
            Some(Stands::Gone) => true,
            _ => false,
        }
    }

    /// The other path of the file that was given this one, as long as that one has not gone.
    pub fn twin_of(&self, path: &str) -> Option<&str>
        ensures { option_map deref result ≡ twin_of self.now path.now }
    {
        match self.at(path) {
            Some(Stands::Twin(other)) => {
                if self.is_gone(other.as_str()) {
                    None
                } else {
                    Some(other.as_str())
                }
            }
            _ => None,
        }
    }

    /// Takes in what stands at a path, in place of what was known of it.
    pub fn put(&mut self, alloc: Global, path: &str, stands: Stands) -> Result<(), AllocError>
        ensures { OnOk result (self.new ≡ put self.old path.now stands) }
    {
        match self.paths.number_of(path) {
            Some(number) => {
                set(&mut self.stands, number.index(), stands);
                Ok(())
            }
            None => {
                self.paths.add(alloc, path)?;
                self.stands.push(stands)?;
                Ok(())
            }
        }
    }

    /// Takes in what a command did.
    pub fn take(&mut self, alloc: Global, whole: &Whole) -> Result<(), AllocError>
        ensures { OnOk result (self.new ≡ after self.old whole.now) }
    {
        let path = place_of(whole);
        match whole.deed {
            Deed::Led => {
                let target = Path::from_str(alloc, other_of(whole))?;
                self.put(alloc, path, Stands::Link(target))
            }
            Deed::Removed => self.put(alloc, path, Stands::Gone),
            Deed::Linked => self.link(alloc, other_of(whole), path),
            Deed::Moved => self.carry(alloc, other_of(whole), path),
            _ => Ok(()),
        }
    }

    /// The file at the first path has the second one too.
    fn link(&mut self, alloc: Global, from: &str, to: &str) -> Result<(), AllocError>
        ensures { OnOk result (self.new ≡ put self.old to.now (linked from.now (stand_at self.old from.now))) }
    {
        let stands = match self.at(from) {
            Some(Stands::Link(target)) => Stands::Link(target.clone()?),
            Some(Stands::Twin(other)) => Stands::Twin(other.clone()?),
            _ => Stands::Twin(Path::from_str(alloc, from)?),
        };
        self.put(alloc, to, stands)
    }

    /// What stands at the first path, and below it, has the second one now.
    fn carry(&mut self, alloc: Global, from: &str, to: &str) -> Result<(), AllocError>
        ensures { OnOk result (self.new ≡ moved self.old from.now to.now) }
    {
        let pairs = below(alloc, &self.paths, from, to)?;
        self.carry_all(alloc, pairs.as_slice())?;
        self.carry_one(alloc, from, to)
    }

    fn carry_all(&mut self, alloc: Global, pairs: &[Carried]) -> Result<(), AllocError>
        ensures { OnOk result (self.new ≡ with_pairs self.old pairs.now) }
    {
        for pair in pairs {
            self.carry_one(alloc, pair.from.as_str(), pair.to.as_str())?;
        }
        Ok(())
    }

    /// What stands at the first path has the second one now.
    fn carry_one(&mut self, alloc: Global, from: &str, to: &str) -> Result<(), AllocError>
        ensures { OnOk result (self.new ≡ with_pair self.old from.now to.now) }
    {
        let stands = match self.at(from) {
            Some(stands) => stands.copy()?,
            None => Stands::Unknown,
        };
        self.put(alloc, from, Stands::Gone)?;
        self.put(alloc, to, stands)
    }
}

/// What stands in this place.
fn in_place(stands: &[Stands], place: usize) -> Option<&Stands>
    ensures { option_map (λ stands. stands.now) result ≡ slice_get stands.now place }
{
    if place < stands.len() {
        Some(&stands[place])
    } else {
        None
    }
}

/// Another thing stands in this place.
fn set(stands: &mut Vec<Stands>, place: usize, new: Stands)
    ensures { stands.new.items ≡ put_at stands.old.items place new }
{
    if place < stands.len() {
        turn(&mut stands[place], new);
    }
}

fn turn(there: &mut Stands, new: Stands)
    ensures { there.new ≡ new }
{
    let _ = mem::replace(there, new);
}

/// The path at which a thing was done.
fn place_of(whole: &Whole) -> &str
    ensures { result.now ≡ place_of whole.now }
{
    match &whole.real {
        Some(real) => real.as_str(),
        None => whole.path.as_str(),
    }
}

/// The other path of a thing; empty where there is none.
fn other_of(whole: &Whole) -> &str
    ensures { result.now ≡ other_in whole.now }
{
    match &whole.other {
        Some(other) => other.as_str(),
        None => "",
    }
}
