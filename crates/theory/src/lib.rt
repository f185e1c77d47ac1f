//! Laws over the definitions of `model` alone: of runs, and of what the logs tell of them, when records may be believed, and what
//! follows over histories of edits and builds. What a crate above needs of them stands in proofs/; the functions here say the
//! main ones, and do nothing.
#![tactic(auto)]

ghost use Rattle.theory.specs.RunLaws.{SettledIsClean, SuccessIsClean, RunKeepsFrame, NothingToMakeReady, OrderlyStartsAreStale, OnePhaseAsksAtEntry, NothingIsUpToDate, EndIsSettled, ScheduleSettlesInOrder, StartsOnce, RunningIsAsTold, LoadsComeFirst, OnePhaseIsLawful};
ghost use Rattle.theory.specs.LogLaws.{CleanFromFaithful, CleanWithLoads, FaithfulAtExit, RecordsAreKept, VerdictStands, NothingIsLeft};
ghost use Rattle.theory.specs.Judged.{VerdictsAtExit, VerdictsAtMoments, VerdictsWithLoads};
ghost use Rattle.theory.specs.Builds.{HeadlineOfRun, LogsOfRun};
ghost use Rattle.theory.specs.Histories.{HistoriesAreAsClaimed, HistoriesGrow, NoLogsAreFaithful};

/// Explained outputs of edges that were settled in order are those of the clean build.
pub fn settled_is_clean()
    ensures { SettledIsClean }
{}

/// A build that ran every command of its cone, each of them well, leaves what the clean build gives.
pub fn success_is_clean()
    ensures { SuccessIsClean }
{}

/// A run changes no file but those that a build may change.
pub fn run_keeps_frame()
    ensures { RunKeepsFrame }
{}

/// Commands without depfiles and response files need nothing made ready.
pub fn nothing_to_make_ready()
    ensures { NothingToMakeReady }
{}

/// Where verdicts are right, only commands out of date are started.
pub fn orderly_starts_are_stale()
    ensures { OrderlyStartsAreStale }
{}

/// Where no dyndep file is loaded, missing sources are asked for at the entry.
pub fn one_phase_asks_at_entry()
    ensures { OnePhaseAsksAtEntry }
{}

/// Without records every command with an output is out of date.
pub fn nothing_is_up_to_date()
    ensures { NothingIsUpToDate }
{}

/// A build that has nothing left to do, and in which no command failed, has settled its cone.
pub fn end_is_settled()
    ensures { EndIsSettled }
{}

/// What an edge needs is settled before the edge.
pub fn schedule_settles_in_order()
    ensures { ScheduleSettlesInOrder }
{}

/// No edge is started twice.
pub fn starts_once()
    ensures { StartsOnce }
{}

/// The commands that run are those of the steps.
pub fn running_is_as_told()
    ensures { RunningIsAsTold }
{}

/// In a build that loads dyndep files, what an edge reads is there when the edge is judged.
pub fn loads_come_first()
    ensures { LoadsComeFirst }
{}

/// A build without dyndep files has one phase.
pub fn one_phase_is_lawful()
    ensures { OnePhaseIsLawful }
{}

/// A success from a faithful store leaves, of quiet edges, what the clean build gives.
pub fn clean_from_faithful()
    ensures { CleanFromFaithful }
{}

/// From a faithful store a success that loaded dyndep files leaves, of quiet edges, what the clean build gives.
pub fn clean_with_loads()
    ensures { CleanWithLoads }
{}

/// A faithful store stays faithful at every exit of a run.
pub fn faithful_at_exit()
    ensures { FaithfulAtExit }
{}

/// What the logs tell of a run is what is claimed of the records of a build.
pub fn records_are_kept()
    ensures { RecordsAreKept }
{}

/// A verdict on the files of its judgement stands on those of the exit, where others write nothing that the edge reads.
pub fn verdict_stands()
    ensures { VerdictStands }
{}

/// Without dyndep files, verdicts that were right at their moment are right at the exit, of edges that read no free path.
pub fn verdicts_at_exit()
    ensures { VerdictsAtExit }
{}

/// With dyndep files, verdicts over the edges of their phase are right over those of the end, of edges that read no free path.
pub fn verdicts_with_loads()
    ensures { VerdictsWithLoads }
{}

/// With dyndep files, verdicts are right at their moments over the edges of their phase, whatever is known of inputs.
pub fn verdicts_at_moments()
    ensures { VerdictsAtMoments }
{}

/// A success leaves nothing to do of quiet edges, but for the named exceptions.
pub fn nothing_is_left()
    ensures { NothingIsLeft }
{}

/// A build whose run did what a run carries is as the headline says.
pub fn headline_of_run()
    ensures { HeadlineOfRun }
{}

/// It keeps its logs as it should, and a success leaves nothing to do of quiet edges.
pub fn logs_of_run()
    ensures { LogsOfRun }
{}

/// Over each history whose builds are each as the headline says, so is the history.
pub fn histories_are_as_claimed()
    ensures { HistoriesAreAsClaimed }
{}

/// A history grows by a visit at its end.
pub fn histories_grow()
    ensures { HistoriesGrow }
{}

/// A site without logs has a faithful store.
pub fn no_logs_are_faithful()
    ensures { NoLogsAreFaithful }
{}
