//! What a run carries of its logs. These functions do nothing: their contracts are the laws.

ghost use Rattle.records.specs.Laws.{LogBegins, LogStays, NoneWhileRunning};

/// Logs that were read before anything ran are logged from there on, and what they told is what the logs told at the entry.
pub fn log_begins()
    ensures { LogBegins }
{}

/// Over each call that writes elsewhere, starts or takes in a command, the logs go on.
pub fn log_stays()
    ensures { LogStays }
{}

/// No output of a command that was started, and has not ended well, has a record in force.
pub fn none_while_running()
    ensures { NoneWhileRunning }
{}
