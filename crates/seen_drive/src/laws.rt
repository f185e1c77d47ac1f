//! What follows for the builds among moves. These functions do nothing: their contracts are the laws.

ghost use Rattle.seen_drive.specs.Between.{SeenComesBehind};
ghost use Rattle.seen_drive.specs.Claims.{MovesAreClean, MovesAreSeen, MovesBegin};

use seen_builds::{fresh_is_met, seen_builds_are_clean};

/// From faithful records, each build among moves is as the headline says, where what others did before it counts, and it kept its premises.
pub fn moves_are_clean()
    ensures { MovesAreClean }
{
    seen_builds_are_clean();
}

/// From nothing that was built, too: of the first build is supposed that no log is there, and nothing of what else stands there.
pub fn moves_begin()
    ensures { MovesBegin }
{
    seen_builds_are_clean();
    fresh_is_met();
}

/// And so it is over visits that follow one another, where between builds others, and the moves themselves, put nothing in place that looks as what
/// was noted there, or under an early stamp where nothing was noted, and leave the logs and the notes.
pub fn moves_are_seen()
    ensures { MovesAreSeen }
{
    seen_builds_are_clean();
    fresh_is_met();
}

/// What is put in place so between two builds is as the second one wants it to begin with faithful records.
pub fn seen_comes_behind()
    ensures { SeenComesBehind }
{}
