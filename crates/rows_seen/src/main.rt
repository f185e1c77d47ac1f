//! Tells whether builds are as the clean build gives them, where somebody puts files back under old stamps and writes what commands make: over
//! scenarios, each build of which can be ended at every call of the site, and over histories that are made up.
//!
//! A row `outputs PATH..` begins, and `sources PATH..` says what is written. Of a scenario each row behind it is a line, as `scenario` says. A row
//! `build` is one too, and tells what comes of the scenario up to it; `ended` tells what comes of it where its last build is ended at each call, and
//! `trusting` what by stamps alone; `driven` carries it out as one list of moves, on a site that tells its files, and tells how each build ends and
//! what stands at each output then.
//!
//! Of histories that are made up each row behind it is a build file, as `meanwhile` says. `seen COUNT SEED` asks of so many with these, of builds
//! by what was seen; `trusted COUNT SEED` of builds by stamps alone.
#![tactic(auto)]

mod asked;
mod builds;
mod counts;
mod dated;
mod driven;
mod ended;
mod histories;
mod lines;
mod scenario;
mod trial;

use histories::Histories;
use std::io;

fn main(rt: HostRuntime) -> io::Result<()> {
    let alloc = rt.alloc();
    let mut histories = Histories::new(alloc);
    tables::run(
        alloc,
        &mut histories,
        &mut rt.reader(),
        &mut io::writer(&rt),
    )
}
