//! What follows for the records of builds. These functions do nothing: their contracts are the laws.

ghost use Rattle.seen.specs.Between.{CountsEither, NumberIsLater};
ghost use Rattle.seen.specs.Going.{LooksGoOn};
ghost use Rattle.seen.specs.Known.{TellingsAreSame};

use seen_law::looks_are_told;
use seen_true::{calls_note, calls_stand};

/// Of what is noted, what is found counts as it did before, or under the number of the build, or as absent.
pub fn counts_either()
    ensures { CountsEither }
{}

/// That number is later than the last start, and than each number before.
pub fn number_is_later()
    ensures { NumberIsLater }
{}

/// Where the site below is only looked at, its history goes on, no command was started, what is told was only looked at, too, and the notes stay true.
pub fn looks_go_on()
    ensures { LooksGoOn }
{
    looks_are_told();
    calls_note();
    calls_stand();
}

/// By what is known when a build begins files are told as the laws of notes have it.
pub fn tellings_are_same()
    ensures { TellingsAreSame }
{}
