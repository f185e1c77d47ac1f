//! Laws of a site that is told to a build by what counts, and not by the stamps that its files have: the real history, moment by moment, in
//! which a file that somebody else changed between two builds counts as written then, and an output that somebody else changed as absent
//! until its command is started. They stand on the definitions of `model` alone. The functions say them, and do nothing.
#![tactic(auto)]

ghost use Rattle.seen_law.specs.Builds.{BuildsAreClean};
ghost use Rattle.seen_law.specs.Laws.{AnswersAreTold, EventsAreTold, FilesAreTold, KeptIsTold, LooksAreTold, TakenIsLater, WritesAreTold};
ghost use Rattle.seen_law.specs.Meanwhile.{NextBegins, NextIsClean};
ghost use Rattle.seen_law.specs.Rows.{RetoldRows};

/// A call that only looks at the real site only looks at the one that is told; and so does what the site writes for itself.
pub fn looks_are_told()
    ensures { LooksAreTold }
{}

/// A site that answers what counts for what it finds answers what is told.
pub fn answers_are_told()
    ensures { AnswersAreTold }
{}

/// What the program writes on the real site it writes on the one that is told.
pub fn writes_are_told()
    ensures { WritesAreTold }
{}

/// What starts, ends and starts again does so on the one that is told. A command that is started has from then on what was told as absent.
pub fn events_are_told()
    ensures { EventsAreTold }
{}

/// Files that are kept are kept as they are told, for the same free paths.
pub fn kept_is_told()
    ensures { KeptIsTold }
{}

/// Under a stamp that is later than the start.
pub fn taken_is_later()
    ensures { TakenIsLater }
{}

/// What is told of files is what counts for what stands there, and what is told to be there is.
pub fn files_are_told()
    ensures { FilesAreTold }
{}

/// Whatever others do between two builds, but for the logs: where what they did counts, the second begins with faithful records.
pub fn next_begins()
    ensures { NextBegins }
{}

/// And where it succeeds, it leaves what the clean build gives.
pub fn next_is_clean()
    ensures { NextIsClean }
{}

/// So it is with builds one after another, from faithful records, however many there are and whatever others did between.
pub fn builds_are_clean()
    ensures { BuildsAreClean }
{}

/// Small histories, as they are told: a source and an output that somebody else put there under old stamps, and the command that finds them.
pub fn retold_rows()
    ensures { RetoldRows }
{}
