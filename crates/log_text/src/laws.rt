//! What holds of the text of each log. These functions do nothing: their contracts are the laws.

ghost use Rattle.log_text.specs.Laws.{OneReading, EachIsRead, HasReader, PartsAreDecided, OneSpelling, LineGrowsLog, FrontOfLog, FrontOfLines};
ghost use Rattle.log_text.specs.Kept.{InForceKeeps};

use crate::form::Records;

/// Bytes are read in one way: what `parse` tells of them is all that can be told.
pub fn one_reading<L: Records>()
    ensures { OneReading L.forms }
{
    L::are_readable();
}

/// All bytes have a reading, if only as a damaged log.
pub fn each_is_read<L: Records>()
    ensures { EachIsRead L.forms }
{
    L::are_readable();
}

/// There is a function that tells of all bytes what their reading is: their records, and nothing of a damaged log.
pub fn has_reader<L: Records>()
    ensures { HasReader L.forms }
{
    one_reading::<L>();
    each_is_read::<L>();
}

/// Of any fields it can be told which parts of a record they are: a number, a counted list, outputs, and whether one
/// stands twice among those.
pub fn parts_are_decided()
    ensures { PartsAreDecided }
{}

/// A field spells one text, and a line one list of texts.
pub fn one_spelling()
    ensures { OneSpelling }
{}

/// A line that is written behind a log of its version is read back as its record behind the log's own; and so on for
/// the records that follow.
pub fn line_grows_log<L: Records>()
    ensures { LineGrowsLog L.forms }
{
    L::are_readable();
}

/// A beginning of a log tells the records of its whole lines. It is torn exactly where it is not empty and does not
/// end with a line feed.
pub fn front_of_log<L: Records>()
    ensures { FrontOfLog L.forms }
{
    L::are_readable();
}

/// A beginning of some lines, behind a log, leaves the log's records told and adds a beginning of the lines' own.
pub fn front_of_lines<L: Records>()
    ensures { FrontOfLines L.forms }
{
    L::are_readable();
}

/// The records in force, each with those of its outputs for which it is in force, tell of each output what all tell.
pub fn in_force_keeps<T>()
    ensures { InForceKeeps T }
{}
