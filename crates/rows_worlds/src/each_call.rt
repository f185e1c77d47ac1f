//! One history, in which each call goes wrong in turn.

use crate::ends::push_last;
use crate::lines::Row;
use crate::moves::{Met, edit_all, make_all};
use crate::places::{Manner, Place, fits, name};
use builder::Options;
use meanwhile::{CALLS, options};
use sim::{Call, Sim, Toy, Trouble};
use std::alloc::{AllocError, Global};
use std::io::{self, Write};

/// More calls of a kind than a history makes.
const MANY: u64 = 1000;

/// What the runs of a row came to.
#[derive(Drop)]
struct Swept {
    runs: u64,
    /// Those in which something went wrong.
    met: u64,
    /// The first place after which the history ended otherwise than it has to, and how.
    wrong: Option<(Place, Vec<u8>)>,
}

/// In each manner, each call of each kind is refused, and the site stops in it, an append after each number of bytes. Behind
/// each the history ends as a build of the same sources on a fresh site, and no further build starts more than it does there.
pub fn push_swept(
    alloc: Global,
    row: Row<'_>,
    manners: &[Manner],
    told: &mut Vec<u8>,
) -> io::Result<()> {
    let mut expected = Vec::new(alloc);
    push_expected(alloc, row, &mut expected)?;
    sweep(alloc, row, manners, &expected, told)
}

fn sweep(
    alloc: Global,
    row: Row<'_>,
    manners: &[Manner],
    expected: &[u8],
    told: &mut Vec<u8>,
) -> io::Result<()> {
    let longest = longest(alloc, row)?;
    let mut swept = Swept {
        runs: 0,
        met: 0,
        wrong: None,
    };
    for manner in manners {
        try_manner(alloc, row, *manner, longest, expected, &mut swept)?;
    }
    tell(expected, &swept, told)
}

fn tell(expected: &[u8], swept: &Swept, told: &mut Vec<u8>) -> io::Result<()> {
    let (runs, met) = (swept.runs, swept.met);
    write!(told, "{runs} runs, {met} met, ")?;
    match &swept.wrong {
        None => told.write_all(b"ok: ")?,
        Some((place, given)) => {
            write!(told, "wrong behind {place:?}: ")?;
            told.write_all(given.as_slice())?;
            told.write_all(b" for ")?;
        }
    }
    told.write_all(expected)
}

/// What the last build gives on a fresh site with the same sources.
fn push_expected(alloc: Global, row: Row<'_>, told: &mut Vec<u8>) -> io::Result<()> {
    let mut site = Sim::new(alloc, Toy);
    let built = build_anew(alloc, &mut site, row, told);
    built
}

fn build_anew(
    alloc: Global,
    site: &mut Sim<Toy>,
    row: Row<'_>,
    told: &mut Vec<u8>,
) -> io::Result<()> {
    edit_all(alloc, site, row.moves)?;
    push_last(alloc, site, &options(alloc, 1, 1)?, row.outputs, told)
}

/// How long the longest line is that the history puts behind a log.
fn longest(alloc: Global, row: Row<'_>) -> Result<usize, AllocError> {
    let options = options(alloc, 1, 1)?;
    let mut site = Sim::new(alloc, Toy);
    let made = make_all(alloc, &mut site, row.moves, &options);
    let longest = longest_line_of(&site);
    made?;
    Ok(longest)
}

/// How many bytes the longest line of the logs has, which stand beside the build file, or of the build log in the folder `logs`.
fn longest_line_of(site: &Sim<Toy>) -> usize {
    let mut longest = 0;
    for path in [".nj_log", ".nj_deps", "logs/.nj_log"] {
        if let Some(content) = site.content(path) {
            longest = longest.max(longest_line(content.as_slice()));
        }
    }
    longest
}

/// How many bytes the longest line has, with its end.
fn longest_line(log: &[u8]) -> usize {
    let mut longest = 0;
    for line in log.split(|byte| *byte == b'\n') {
        longest = longest.max(line.len().saturating_add(1));
    }
    longest
}

/// The first place of a kind.
fn first(call: Call, trouble: Trouble, manner: Manner) -> Place {
    Place {
        call,
        number: 1,
        trouble,
        manner,
    }
}

fn try_manner(
    alloc: Global,
    row: Row<'_>,
    manner: Manner,
    longest: usize,
    expected: &[u8],
    swept: &mut Swept,
) -> io::Result<()> {
    let options = options(alloc, manner.jobs, 1)?;
    for call in CALLS {
        let refused = first(call, Trouble::Refused, manner);
        try_calls(alloc, row, refused, &options, expected, swept)?;
        let stopped = first(call, Trouble::Stop { bytes: 0 }, manner);
        try_calls(alloc, row, stopped, &options, expected, swept)?;
    }
    try_bytes(alloc, row, manner, longest, &options, expected, swept)
}

/// The site stops in each append, with each number of bytes put down.
fn try_bytes(
    alloc: Global,
    row: Row<'_>,
    manner: Manner,
    longest: usize,
    options: &Options,
    expected: &[u8],
    swept: &mut Swept,
) -> io::Result<()> {
    for bytes in 1..=longest {
        let stopped = first(Call::Append, Trouble::Stop { bytes }, manner);
        try_calls(alloc, row, stopped, options, expected, swept)?;
    }
    Ok(())
}

/// The calls of a kind in turn, up to one that the history does not come to.
fn try_calls(
    alloc: Global,
    row: Row<'_>,
    first: Place,
    options: &Options,
    expected: &[u8],
    swept: &mut Swept,
) -> io::Result<()> {
    for number in 1..=MANY {
        let place = Place { number, ..first };
        if try_place(alloc, row, place, options, expected, swept)? == Met::Nothing {
            break;
        }
    }
    Ok(())
}

/// One run of the history, in which something goes wrong.
fn try_place(
    alloc: Global,
    row: Row<'_>,
    place: Place,
    options: &Options,
    expected: &[u8],
    swept: &mut Swept,
) -> io::Result<Met> {
    let mut site = Sim::new(alloc, Toy);
    let met = try_on(alloc, &mut site, row, place, options, expected, swept);
    met
}

fn try_on(
    alloc: Global,
    site: &mut Sim<Toy>,
    row: Row<'_>,
    place: Place,
    options: &Options,
    expected: &[u8],
    swept: &mut Swept,
) -> io::Result<Met> {
    name(site, place)?;
    let met = make_all(alloc, site, row.moves, options)?;
    site.forget_faults();
    let mut given = Vec::new(alloc);
    push_last(alloc, site, options, row.outputs, &mut given)?;
    swept.note(place, met, given, expected);
    Ok(met)
}

impl Swept {
    /// One run more, which met this and gave this at its end.
    fn note(&mut self, place: Place, met: Met, given: Vec<u8>, expected: &[u8]) {
        self.runs = self.runs.saturating_add(1);
        if met != Met::Nothing {
            self.met = self.met.saturating_add(1);
        }
        let is_right = fits(place, met) && given.as_slice() == expected;
        if !is_right && self.wrong.is_none() {
            self.wrong = Some((place, given));
        }
    }
}
