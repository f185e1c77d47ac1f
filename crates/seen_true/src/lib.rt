//! That the notes of what was seen are true, whatever call a build ends at, and what is supposed of others besides. Laws on the definitions of
//! `model`, of notes and of their file alone. The functions say them, and do nothing.
#![tactic(auto)]

ghost use Rattle.seen_true.specs.Between.{BehindBegins, BehindIsSound};
ghost use Rattle.seen_true.specs.Calls.{CallsKeepNotes, NoteCallsKeepNotes};
ghost use Rattle.seen_true.specs.Going.{AbsenceNotes, CallsNote, CallsStand, EntersNoted, EntersStay, FoundInCall, LinesNote, NextIsNoted, NoneInCall, NoteCallsNote};
ghost use Rattle.seen_true.specs.Killed.{KilledIsMet};
ghost use Rattle.seen_true.specs.Laws.{AwayIsTrue, BaseKeepsNotes, CompactionFits, EntryIsTrue, LineKeepsNotes, LinesKeepNotes, LookIsTrue, MomentsKeepNotes, NotesTellTruly, SeenIsLeft, TickIsLater, ToldIsTrue};
ghost use Rattle.seen_true.specs.Small.{PutBackIsNotSound, UnmadeIsNotSound};
ghost use Rattle.seen_true.specs.Soundly.{NextBeginsSoundly, RightlyIsSoundly};

use log_text::{Records, front_of_lines, one_reading};
use seen_law::files_are_told;
use seen_log::Log;

/// What counts soundly is enough for the next build to begin with faithful records.
pub fn next_begins_soundly()
    ensures { NextBeginsSoundly }
{}

/// It is less than `CountRightly` asks.
pub fn rightly_is_soundly()
    ensures { RightlyIsSoundly }
{}

/// Where the notes are true at the end of a build, and others wrote so, what they make of it counts soundly.
pub fn notes_tell_truly()
    ensures { NotesTellTruly }
{
    files_are_told();
    one_reading::<Log>();
}

/// The number of a build is later than the records.
pub fn tick_is_later()
    ensures { TickIsLater }
{}

/// Where nobody writes over what was seen with what looks as it, it stands still.
pub fn seen_is_left()
    ensures { SeenIsLeft }
{}

/// When a build begins the notes are true.
pub fn entry_is_true()
    ensures { EntryIsTrue }
{}

/// A compaction may take the place of their file.
pub fn compaction_fits()
    ensures { CompactionFits }
{
    Log::keeps_in_force();
}

/// They are so behind whatever is written elsewhere.
pub fn moments_keep_notes()
    ensures { MomentsKeepNotes }
{}

/// And where lines are put behind them, or a beginning of these.
pub fn lines_keep_notes()
    ensures { LinesKeepNotes }
{
    front_of_lines::<Log>();
}

/// And where a compaction takes their place.
pub fn base_keeps_notes()
    ensures { BaseKeepsNotes }
{}

/// What was seen gets a line that is still to be put there.
pub fn line_keeps_notes()
    ensures { LineKeepsNotes }
{}

/// What a look notes is true.
pub fn look_is_true()
    ensures { LookIsTrue }
{}

/// So is that nothing was there.
pub fn away_is_true()
    ensures { AwayIsTrue }
{}

/// What is noted as it is told is true always.
pub fn told_is_true()
    ensures { ToldIsTrue }
{}

/// Each call that does not write the notes keeps them true.
pub fn calls_keep_notes()
    ensures { CallsKeepNotes }
{}

/// And so does each that writes them.
pub fn note_calls_keep_notes()
    ensures { NoteCallsKeepNotes }
{
    front_of_lines::<Log>();
}

/// From one build to the next: where the notes were true, wherever the first one ended, and others wrote so, the second begins with faithful
/// records, and with true notes.
pub fn next_is_noted()
    ensures { NextIsNoted }
{
    files_are_told();
    one_reading::<Log>();
}

/// Behind a build that left true notes what others did counts soundly in the next one.
pub fn behind_is_sound()
    ensures { BehindIsSound }
{
    files_are_told();
    one_reading::<Log>();
}

/// So that one begins with faithful records.
pub fn behind_begins()
    ensures { BehindBegins }
{
    files_are_told();
    one_reading::<Log>();
}

/// As a site may keep it, which tells its files or does not: each call that does not write the notes keeps them.
pub fn calls_note()
    ensures { CallsNote }
{}

/// And so does each that writes them, or fails to.
pub fn note_calls_note()
    ensures { NoteCallsNote }
{
    front_of_lines::<Log>();
}

/// As it begins they are true, and nothing is to be put behind them yet.
pub fn enters_noted()
    ensures { EntersNoted }
{}

/// What was read of them when it was asked for is what they tell as it begins, where nobody else wrote them meanwhile.
pub fn enters_stay()
    ensures { EntersStay }
{}

/// What a call found was there in the build.
pub fn found_in_call()
    ensures { FoundInCall }
{}

/// Nor was anything, where it found nothing.
pub fn none_in_call()
    ensures { NoneInCall }
{}

/// What was found gets a line.
pub fn lines_note()
    ensures { LinesNote }
{}

/// So does that nothing was.
pub fn absence_notes()
    ensures { AbsenceNotes }
{}

/// A source that was away while a command was started, of which that was not noted, and that is put back as it was counts as if it had been there.
pub fn put_back_is_not_sound()
    ensures { PutBackIsNotSound }
{}

/// What somebody puts where a command ended well and left no output, of which that was not noted, counts as what the command made.
pub fn unmade_is_not_sound()
    ensures { UnmadeIsNotSound }
{}

/// Where nothing can be put behind the notes any more, they stay true.
pub fn calls_stand()
    ensures { CallsStand }
{}

/// What is supposed is met by a build that is killed behind a write of a command, before anything is noted of that.
pub fn killed_is_met()
    ensures { KilledIsMet }
{}
