//! That a signal ended a command.

use std::alloc::Global;
use std::io::{IsTerminal, Write};
use terminal::Terminal;

/// Tells which signal ended a command, where one did: on the standard error, and only where that is a terminal. That it cannot be told is no
/// fault. Rows that are drawn are taken away before that.
pub fn tell_signal<W: Write>(
    alloc: Global,
    rt: &HostRuntime,
    signal: Option<i32>,
    screen: &mut Terminal<W>,
) {
    let Some(signal) = signal else {
        return;
    };
    let errors = rt.stderr();
    if !errors.is_terminal() {
        return;
    }
    if let Ok(line) = format!(in alloc; "nj: ended by signal {signal}\n") {
        screen.step_aside();
        let _ = Print::write_all(&errors, line.as_bytes());
    }
}
