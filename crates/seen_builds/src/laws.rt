//! What follows for builds one after another. These functions do nothing: their contracts are the laws.

ghost use Rattle.seen_builds.specs.Claims.{RunsAreClean};
ghost use Rattle.seen_builds.specs.Fresh.{FreshIsMet};
ghost use Rattle.seen_builds.specs.Kept.{KeptAsTold};
ghost use Rattle.seen_builds.specs.Makes.{ListedAreMade};
ghost use Rattle.seen_builds.specs.Runs.{BegunIsRun};

use seen_law::{files_are_told, kept_is_told};
use seen_true::{behind_is_sound, next_begins_soundly};

/// Builds one after another, each by what is known when it begins: from faithful records, however many there are and whatever others did between,
/// each that kept its premises started only commands out of date, and a success leaves what the clean build gives.
pub fn seen_builds_are_clean()
    ensures { RunsAreClean }
{
    next_begins_soundly();
    behind_is_sound();
    files_are_told();
}

/// What that supposes of a first build is met where nothing was built yet, whatever stands there.
pub fn fresh_is_met()
    ensures { FreshIsMet }
{}

/// What is listed of a build file is known to be made by the edges of the graph that it declares.
pub fn listed_are_made()
    ensures { ListedAreMade }
{}

/// What a build supposes of files, and of who writes them, may be said of the site itself: then it holds as they are told.
pub fn kept_as_told()
    ensures { KeptAsTold }
{
    kept_is_told();
}

/// A build that `build_seen` has carried out is one of those that may come one after another.
pub fn begun_is_run()
    ensures { BegunIsRun }
{}
