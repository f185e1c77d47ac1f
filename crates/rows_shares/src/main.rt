//! Tells which lines of one trace over several commands are whose.
//!
//! `trace TEXT` begins a trace, `more TEXT` goes on with it by one line more. In the text escapes are as `tables` says. The trace is read twice,
//! in pieces of some bytes. `commands` asks for the numbers of the processes that the first one started. `shares` asks for the lines that each
//! command has, by the order in which their last ones stand: how many commands were started before it, a colon, and its lines, each ended by a
//! stroke. `sums` asks for the same in short: the number, how many bytes they have, and a sum of these.
#![tactic(auto)]

use shares::{Families, Lines, Share, Shares, TakesLines};
use std::alloc::{AllocError, Global};
use std::io;
use tables::{Table, push_word, unescaped, word};
use text::{Items, Takes};

/// How many bytes are read at once.
const PIECE: usize = 7;

/// The trace that rows have written so far.
#[derive(Drop)]
struct Asked {
    trace: Vec<u8>,
}

/// A second reading, and what it told.
#[derive(Drop)]
struct Second {
    shares: Shares,
    told: Items<Share>,
}

impl TakesLines for Second {
    ghost use Rattle.std.specs.Prelude.{⊤};

    ghost Read = { λ lines second. ⊤ };

    fn take_line(&mut self, alloc: Global, line: &[u8]) -> Result<(), AllocError> {
        if let Some(share) = self.shares.take_line(alloc, line)? {
            self.told.push(share)?;
        }
        Ok(())
    }
}

impl Table for Asked {
    fn answer(&mut self, alloc: Global, row: &str, told: &mut String) -> Result<bool, AllocError> {
        let (first, rest) = word(row);
        match first {
            "trace" => {
                self.trace = unescaped(alloc, rest)?;
                return Ok(false);
            }
            "more" => {
                let more = unescaped(alloc, rest)?;
                self.trace.extend_from_slice(more.as_slice())?;
                self.trace.push(b'\n')?;
                return Ok(false);
            }
            "commands" => push_commands(alloc, self.trace.as_slice(), told)?,
            "shares" => push_shares(alloc, self.trace.as_slice(), told)?,
            "sums" => push_sums(alloc, self.trace.as_slice(), told)?,
            _ => told.push_str("no such row")?,
        }
        Ok(true)
    }
}

/// Hands the trace on in pieces.
fn hand<T: Takes>(trace: &[u8], taker: &mut T) -> Result<(), AllocError> {
    for piece in trace.chunks(PIECE) {
        taker.take(piece)?;
    }
    Ok(())
}

fn families_of(alloc: Global, trace: &[u8]) -> Result<Families, AllocError> {
    let mut lines = Lines::new(alloc, Families::new(alloc));
    hand(trace, &mut lines)?;
    Ok(lines.into_taker())
}

/// What both readings tell.
fn told_of(alloc: Global, trace: &[u8]) -> Result<Items<Share>, AllocError> {
    let families = families_of(alloc, trace)?;
    let mut lines = Lines::new(
        alloc,
        Second {
            shares: Shares::new(alloc, &families)?,
            told: Items::new(alloc),
        },
    );
    hand(trace, &mut lines)?;
    let Second { told, .. } = lines.into_taker();
    Ok(told)
}

fn push_commands(alloc: Global, trace: &[u8], told: &mut String) -> Result<(), AllocError> {
    let families = families_of(alloc, trace)?;
    for number in families.commands.as_slice() {
        push_bytes(told, number.as_slice())?;
        told.push(' ')?;
    }
    Ok(())
}

fn push_shares(alloc: Global, trace: &[u8], told: &mut String) -> Result<(), AllocError> {
    let shares = told_of(alloc, trace)?;
    for share in shares.as_slice() {
        let command = share.command;
        let begins = format!(in alloc; "{command}:")?;
        push_word(told, begins.as_str())?;
        push_bytes(told, share.text.as_slice())?;
    }
    Ok(())
}

/// Each byte as a letter, and a stroke for a line feed.
fn push_bytes(told: &mut String, bytes: &[u8]) -> Result<(), AllocError> {
    for byte in bytes {
        match *byte {
            b'\n' => told.push('|')?,
            byte => told.push(char::from(byte))?,
        }
    }
    Ok(())
}

fn push_sums(alloc: Global, trace: &[u8], told: &mut String) -> Result<(), AllocError> {
    let shares = told_of(alloc, trace)?;
    for share in shares.as_slice() {
        let command = share.command;
        let length = share.text.as_slice().len();
        let sum = sum_of(share.text.as_slice());
        let one = format!(in alloc; "{command}:{length}:{sum}")?;
        push_word(told, one.as_str())?;
    }
    Ok(())
}

fn sum_of(bytes: &[u8]) -> u64 {
    let mut sum = 0u64;
    for byte in bytes {
        sum = sum.wrapping_mul(31).wrapping_add(*byte as u64);
    }
    sum
}

fn main(rt: HostRuntime) -> io::Result<()> {
    let alloc = rt.alloc();
    let mut asked = Asked {
        trace: Vec::new(alloc),
    };
    tables::run(alloc, &mut asked, &mut rt.reader(), &mut io::writer(&rt))
}
