//! Tells what is drawn of a build on a terminal, and what a small terminal shows of it.
//!
//! `live STEP|STEP..` tells the bytes that the steps write, with `^[` for ESC and `~` between those of two steps. `screen WIDTH
//! STEP|STEP..` tells the rows that a terminal of this width shows behind them; its last row is that of the cursor. The steps, in which
//! escapes are as `tables` says:
//!
//! `look=red` and `look=keeps`, and `pattern=TEXT`, stand in front, and say how the screen looks. `name=TEXT` names the next job; `names`
//! hands the names over. `at=MS` says what the time is. `start=JOB`, `hold=JOB` (one that gets the terminal) and `end=JOB` tell of
//! commands; `show=TEXT` shows a text, `back=TEXT` one while somebody else has the terminal. `pass`, `clear`, `forget`, `leave` and
//! `finish` are as `Live` has them. `raw=TEXT` is what somebody else writes to the terminal.
#![tactic(auto)]

mod rows;
mod small;
mod steps;

use rows::Rows;
use std::io;

fn main(rt: HostRuntime) -> io::Result<()> {
    let alloc = rt.alloc();
    let mut rows = Rows;
    tables::run(alloc, &mut rows, &mut rt.reader(), &mut io::writer(&rt))
}
