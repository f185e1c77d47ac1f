//! By which of its two paths a thing counts that was done.

ghost use Rattle.std.specs.Prelude.{◌≢◌};
ghost use Rattle.audit.specs.declared.seen.By.TheVariants.{Name};
ghost use Rattle.auditor.specs.Links.{CountsThrough};

use crate::around::Names;
use crate::links::{is_at_own, is_through_own};
use crate::scratch::Scratch;
use audit::{By, Way, Whole, writes};
use trace::Deed;

/// By which path a thing counts, of the two by which the command and the kernel have a file, where they are two: by the one that was given, where
/// that counts, but for scratch files, else by the one that the kernel has. What was done through a link of the command's own counts by where
/// that leads, and where it stands at the path itself by that too.
pub fn by_of(names: &Names, scratch: &Scratch, whole: &Whole) -> By
    ensures { CountsThrough whole.now result }
{
    if is_at_own(whole) {
        return By::Both;
    }
    if is_through_own(whole) {
        return by_known(is_known(names, whole));
    }
    match &whole.real {
        Some(real) => by_real(names, scratch, whole, real.as_str()),
        None => By::Name,
    }
}

/// Whether build lines or records name the path that was given, which does not go up behind a name.
fn is_known(names: &Names, whole: &Whole) -> bool {
    names.knows(whole.path.as_str()) && !whole.up
}

/// By which path a thing counts that was not done through a link of the command's own, where this is the kernel's.
fn by_real(names: &Names, scratch: &Scratch, whole: &Whole, real: &str) -> By {
    if real == whole.path.as_str() {
        return By::Name;
    }
    by_shown(names, scratch, whole, real)
}

/// Of a name that leads through a link of the command's own to a folder: whether that is one that build lines name.
fn by_known(is_known: bool) -> By
    ensures { result ≢ Name }
{
    if is_known { By::Both } else { By::Kernel }
}

/// The same where that is another one. A name that went up behind that of a link leads elsewhere than it says.
fn by_shown(names: &Names, scratch: &Scratch, whole: &Whole, real: &str) -> By {
    let path = whole.path.as_str();
    if whole.up || !scratch.counts_by_name(names, path) {
        return By::Kernel;
    }
    if changes(whole.deed) {
        return by_changed(names, whole, real);
    }
    if names.maker(real).is_some() && !names.is_named(path) {
        return By::Both;
    }
    By::Name
}

/// The same of what was written, removed or made, by a name that counts.
fn by_changed(names: &Names, whole: &Whole, real: &str) -> By {
    let path = whole.path.as_str();
    if writes(whole.deed) && is_led(names.folder(), whole, real) {
        return By::Both;
    }
    if names.knows(real) && !names.knows(path) {
        return By::Kernel;
    }
    By::Name
}

/// Whether such a thing changes what stands at the path.
fn changes(deed: Deed) -> bool {
    writes(deed)
        || matches!(
            deed,
            Deed::Removed | Deed::Left | Deed::Linked | Deed::Moved | Deed::Led
        )
}

/// Whether a thing counts by the name that was given, be it alone or not.
pub fn counts_by_given(names: &Names, scratch: &Scratch, whole: &Whole) -> bool {
    match by_of(names, scratch, whole) {
        By::Name | By::Both => true,
        By::Kernel => false,
    }
}

/// Whether a link stands at the path itself, and not only above it: where that is known, or the kernel's name ends otherwise, or the path is right
/// in the working folder, which no link leads to.
fn is_led(folder: &str, whole: &Whole, real: &str) -> bool {
    if whole.way == Way::Old {
        return true;
    }
    let Some((above, name)) = whole.path.as_str().rsplit_once('/') else {
        return false;
    };
    above == folder || name != name_in(real)
}

/// The last part of a path.
fn name_in(path: &str) -> &str {
    match path.rsplit_once('/') {
        Some((_, name)) => name,
        None => path,
    }
}
