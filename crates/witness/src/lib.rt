//! That the premises of the headline can be met, and that the definitions say what they should: histories that meet all premises,
//! worked rows of what the definitions call lawful and what they refuse, and the clean build as a plain, slow program.
#![tactic(auto)]

mod clean;
mod depfiles;
mod laws;
mod made;

ghost use Rattle.witness.specs.Met.{HistoryIsMet};
ghost use Rattle.witness.specs.Refused.{RefusedRows};
ghost use Rattle.witness.specs.Dyndep.{DyndepRows};
ghost use Rattle.witness.specs.Edited.{EditedRows};
ghost use Rattle.witness.specs.Forbidden.{ForbiddenRows};
ghost use Rattle.witness.specs.Stricter.{LogsAreLeftByBoth, StricterSuffice};
ghost use Rattle.witness.specs.Unsaid.{UnsaidRows};
ghost use Rattle.witness.specs.Fewer.{FewerPremises};
ghost use Rattle.witness.specs.Rich.{RichHistoryIsMet};

pub use clean::clean_build;
pub use depfiles::{Depfiles, NoDepfiles};
pub use laws::{round_beyond, worked_rows};

/// The premises of the headline over histories can be met: edits, a build whose command fails, a build in which the site
/// stops while its command runs, a restart and two builds that succeed, the last of which reckons with what a command had
/// told in its depfile, are visits of a site in memory with toy commands, by the worlds that its calls leave, and keep all
/// premises, however depfiles and logs are read by their grammars.
pub fn history_met()
    ensures { HistoryIsMet }
{
    depfile::one_answer();
}

/// The definitions refuse these: records made up or dropped, a fault passed over, moves skipped, restarts that are missing or
/// needless, answers that no build gave, a deps record of a start to come, a start that is not prepared (where one path is depfile
/// and response file: without the response file) or of a command that was judged clean, an end that is told wrong, commands that
/// run after an answer, or after a fault that does not excuse them, and want of memory that is answered in the place of a refusal.
pub fn refused_rows()
    ensures { RefusedRows }
{}

/// Builds with a dyndep file that is made in the build: the steps before and after its load are lawful, and so are the
/// answers of one that succeeds and of those that are refused; and the premise on outputs that only a dyndep file names
/// excludes three graphs in which such an output is read too early.
pub fn dyndep_rows()
    ensures { DyndepRows }
{}

/// A build during which a source is edited while its command runs, a write before a tick has the tick's stamp, and two files have
/// one: it meets the premises of faithful records, and not those of contents. Its record is true under the stamp of the start, and
/// not under that of the finish. Beside another command, which reads another source, it meets those of contents, too, with that one's
/// edge quiet; and the edited source may be named by a phony line.
pub fn edited_rows()
    ensures { EditedRows }
{}

/// What others may not do while a build runs, each with the smallest history in which a record would not be true: write an output, a
/// source that has a record in force, a log, a depfile or a response file, or set a time back. In each a premise is broken.
pub fn forbidden_rows()
    ensures { ForbiddenRows }
{}

/// The premises in the stricter words of before imply those of today, with no free path and all edges quiet, where starts have the
/// stamps of ticks: so what is promised by today's words holds by those, too.
pub fn stricter_premises()
    ensures { StricterSuffice }
{}

/// Each of the premises that the records of a build stood on before implies that others leave the logs.
pub fn logs_are_left()
    ensures { LogsAreLeftByBoth }
{}

/// What a build says less of where others edit meanwhile: of each such clause the smallest history in which more would be false; an
/// edge has one verdict; and where an edge reads too early what only a dyndep file makes, verdicts are those of their moments.
pub fn unsaid_rows()
    ensures { UnsaidRows }
{}

/// What holds of a build though files are not kept: where two edges have one depfile, outputs are left alone up to the starts of their
/// commands; where somebody writes a depfile before it is read, a command ended as that says.
pub fn fewer_premises()
    ensures { FewerPremises }
{}

/// The premises of the headline over histories can be met where much happens at once: two builds, and an edit between them, of a
/// graph with a dyndep file whose output is read, a command with `restat`, a phony edge and a response file. In the first build two
/// commands run at once, a source is edited after its command has read it, two files get one stamp, a command and somebody else
/// write a scratch file, and an append to the log is cut in two. What was made of the edited source is not what the clean build
/// gives, no set of quiet edges has its edge, and all else is as promised; the second build starts just the two commands that are
/// out of date, of which one leaves its output alone, so that what reads it is not run, and all is as the clean build gives it.
pub fn rich_history_met()
    ensures { RichHistoryIsMet }
{}
