//! Build files that are made up.

use std::alloc::{AllocError, Global};

/// Numbers that look random, the same each time.
#[derive(Drop)]
pub struct Random {
    state: u64,
}

impl Random {
    pub fn new(seed: u64) -> Random {
        Random { state: seed }
    }

    /// The next number.
    pub fn number(&mut self) -> usize {
        self.state = self
            .state
            .wrapping_mul(0x5851_F42D_4C95_7F2D)
            .wrapping_add(0x1405_7B7E_F767_814F);
        (self.state >> 33) as usize
    }

    /// A number below the bound.
    pub fn below(&mut self, bound: usize) -> usize {
        self.number().checked_rem(bound).unwrap_or(0)
    }

    /// Whether the one of so many cases is there.
    pub fn one_in(&mut self, cases: usize) -> bool {
        self.below(cases) == 0
    }
}

/// The most edges that a build file has.
const MOST: usize = 60;

/// It has no divisor with a number of edges in common.
const STRIDE: usize = 7919;

const POOLS: &str = "\
pool one
  depth = 1
pool two
  depth = 2
pool wide
  depth = 0
";

const RULES: [&str; 5] = ["free", "one", "two", "wide", "console"];

/// The pools, and a rule for each and one for none.
fn head(alloc: Global) -> Result<String, AllocError> {
    let mut text = String::from_str(alloc, POOLS)?;
    for rule in RULES {
        let line = format!(in alloc; "rule {rule}\n  command = x\n")?;
        text.push_str(line.as_str())?;
        if rule != "free" {
            let line = format!(in alloc; "  pool = {rule}\n")?;
            text.push_str(line.as_str())?;
        }
    }
    Ok(text)
}

/// A build file of up to `MOST` edges, and how many it has. Each edge makes a path `o` with its rank, perhaps a path `q`
/// with it too, and needs paths of lower ranks; the edges do not stand in the order of their ranks.
pub fn build_file(alloc: Global, random: &mut Random) -> Result<(String, usize), AllocError> {
    let mut text = head(alloc)?;
    let edges = random.below(MOST).saturating_add(1);
    let turn = random.below(edges);
    for place in 0..edges {
        let rank = place.saturating_mul(STRIDE).saturating_add(turn);
        let rank = rank.checked_rem(edges).unwrap_or(0);
        push_edge(alloc, &mut text, random, rank)?;
        if random.one_in(6) {
            let line = format!(in alloc; " |@ o{}", random.below(edges))?;
            text.push_str(line.as_str())?;
        }
        text.push('\n')?;
    }
    Ok((text, edges))
}

/// An edge of this rank, but for its validations.
fn push_edge(
    alloc: Global,
    text: &mut String,
    random: &mut Random,
    rank: usize,
) -> Result<(), AllocError> {
    let rule = if random.one_in(4) {
        "phony"
    } else {
        rule_at(random.below(RULES.len()))
    };
    let more = if random.one_in(4) { " | q" } else { "" };
    let line = if more.is_empty() {
        format!(in alloc; "build o{rank}: {rule}")?
    } else {
        format!(in alloc; "build o{rank}{more}{rank}: {rule}")?
    };
    text.push_str(line.as_str())?;
    push_inputs(alloc, text, random, rank, "")?;
    push_inputs(alloc, text, random, rank, " |")?;
    push_inputs(alloc, text, random, rank, " ||")
}

fn rule_at(place: usize) -> &'static str {
    match RULES.get(place) {
        Some(rule) => *rule,
        None => "free",
    }
}

/// Up to three inputs behind a mark, some of them twice.
fn push_inputs(
    alloc: Global,
    text: &mut String,
    random: &mut Random,
    rank: usize,
    mark: &str,
) -> Result<(), AllocError> {
    let count = random.below(3);
    if count == 0 {
        return Ok(());
    }
    text.push_str(mark)?;
    for _ in 0..count {
        let path = input(alloc, random, rank)?;
        text.push_str(path.as_str())?;
        if random.one_in(5) {
            text.push_str(path.as_str())?;
        }
    }
    Ok(())
}

/// A blank, and a source or what an edge of a lower rank makes.
fn input(alloc: Global, random: &mut Random, rank: usize) -> Result<String, AllocError> {
    if rank == 0 || random.one_in(6) {
        return format!(in alloc; " s{}", random.below(4));
    }
    let name = if random.one_in(4) { "q" } else { "o" };
    format!(in alloc; " {name}{}", random.below(rank))
}
