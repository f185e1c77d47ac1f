//! The jobs that users of a build tool wait for, over and over: builds on a site in memory after one edit and another, and reading.
//! It prints a digest of all that came of them.
//!
//! Words: `JOB SIZE ROUNDS SEED`. SIZE is about how many edges a graph has, ROUNDS how often a job goes on after its beginning, and each
//! SEED gives other trees of the same kind and size. The jobs are said where `workloads` names what does them; `all` is each of them in turn.
#![tactic(auto)]

mod awkward;
mod desk;
mod digest;
mod files;
mod project;
mod random;
mod reading;
mod shapes;
mod workloads;

use std::{env, io};
use workloads::{Asked, push_all};

fn main(rt: HostRuntime) -> io::Result<()> {
    let alloc = rt.alloc();
    let words: Vec<String> = env::args(&rt)?.skip(1).collect(alloc)?;
    let mut told = String::new(alloc);
    match asked(&words) {
        Some(asked) => push_all(alloc, asked, &mut told)?,
        None => told.push_str("jobs: words are JOB SIZE ROUNDS SEED\n")?,
    }
    print!(rt; "{told}")
}

/// What the words ask for, if they ask for something.
fn asked(words: &[String]) -> Option<Asked<'_>> {
    match words {
        [job, size, rounds, seed] => Some(Asked {
            job: job.as_str(),
            size: number(size.as_str())?,
            rounds: number(rounds.as_str())?,
            seed: number(seed.as_str())? as u64,
        }),
        _ => None,
    }
}

fn number(word: &str) -> Option<usize> {
    word.parse::<usize>().ok()
}
