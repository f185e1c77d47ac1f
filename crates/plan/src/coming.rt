//! Whether one of the dyndep files that are to be loaded is there.

ghost use Rattle.std.specs.Prelude.{◌≡◌, ◌<◌, ℕ, List, Bool, true, false, slice_set, if◌then◌else◌, length, IfOk};
ghost use Rattle.plan.specs.Flags.{has};
ghost use Rattle.plan.specs.Coming.{AreMarked, AreAway, IsComing};

use crate::first::is_there;
use paths::PathId;
use std::alloc::{AllocError, Global};

/// Which paths are files to be loaded, and whether one of them may be there. It takes a byte for each path, and nothing where there
/// are no such files.
#[derive(Drop)]
pub struct Coming {
    /// For each path, whether it is one of the files.
    pub files: Vec<bool>,
    pub any: bool,
}

/// What is to come of these files, where these paths are there.
pub fn coming_of(alloc: Global, loads: &[PathId], there: &[bool]) -> Result<Coming, AllocError>
    ensures { IfOk result (λ coming. IsComing loads.now there.now coming.files.items coming.any) }
{
    if loads.is_empty() {
        return Ok(Coming {
            files: Vec::new(alloc),
            any: false,
        });
    }
    let mut files = vec![in alloc; false; there.len()]?;
    mark_files(&mut files, loads);
    Ok(Coming {
        files,
        any: is_any_there(loads, there),
    })
}

/// Sets the flag of each of these files.
fn mark_files(flags: &mut [bool], loads: &[PathId])
    ensures fits { length flags.new ≡ length flags.old }
    ensures marked { AreMarked (length flags.old) loads.now flags.new }
{
    for file in loads {
        mark(flags, file.index());
    }
}

fn mark(flags: &mut [bool], place: usize)
    ensures { flags.new ≡ slice_set flags.old place true }
{
    if place < flags.len() {
        flags[place] = true;
    }
}

/// Whether one of the paths is there.
pub fn is_any_there(loads: &[PathId], there: &[bool]) -> bool
    ensures { result ≡ false → AreAway there.now loads.now }
{
    for file in loads {
        if is_there(there, *file) {
            return true;
        }
    }
    false
}

impl Coming {
    /// Whether one of the files may be there.
    pub fn may_load(&self) -> bool
        ensures { result ≡ self.now.any }
    {
        self.any
    }

    /// Notes whether one of the files may be there.
    pub(crate) fn set_any(&mut self, any: bool)
        ensures files { self.new.files ≡ self.old.files }
        ensures any { self.new.any ≡ any }
    {
        self.any = any;
    }

    /// The path at this place is there.
    pub fn note(&mut self, place: usize)
        ensures files { self.new.files ≡ self.old.files }
        ensures any { self.new.any ≡ (if has self.old.files.items place then true else self.old.any) }
    {
        if matches!(self.files.get(place), Some(true)) {
            self.any = true;
        }
    }
}
