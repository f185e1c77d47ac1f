//! Tells whether builds start just the commands that they are said to start, over histories that are made up.
//!
//! A row `outputs PATH..` begins, `sources PATH..` says what is written, and each row behind it is a build file, as `meanwhile` says. `why
//! COUNT SEED` asks of so many histories with these.
#![tactic(auto)]

mod counts;
mod files;
mod histories;
mod trial;

use histories::Histories;
use std::io;

fn main(rt: HostRuntime) -> io::Result<()> {
    let alloc = rt.alloc();
    let mut histories = Histories::new(alloc);
    tables::run(
        alloc,
        &mut histories,
        &mut rt.reader(),
        &mut io::writer(&rt),
    )
}
