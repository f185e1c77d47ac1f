//! What a clean build of the files of a site gives, in words.

use crate::ends::push_output;
use crate::moves::edit_all;
use meanwhile::{Clean, Source};
use sim::{Sim, Toy};
use std::alloc::Global;
use std::io::{self, Write};

/// What a clean build of what these moves write leaves at the outputs.
pub fn push_clean(
    alloc: Global,
    source: Source<'_>,
    moves: &str,
    told: &mut Vec<u8>,
) -> io::Result<()> {
    let mut site = Sim::new(alloc, Toy);
    let built = push_clean_of(alloc, &mut site, source, moves, told);
    built
}

fn push_clean_of(
    alloc: Global,
    site: &mut Sim<Toy>,
    source: Source<'_>,
    moves: &str,
    told: &mut Vec<u8>,
) -> io::Result<()> {
    edit_all(alloc, site, moves)?;
    match Clean::of(alloc, site, source)? {
        Some(clean) => push_outputs(&clean, source.outputs, told),
        None => told.write_all(b"no graph"),
    }
}

fn push_outputs(clean: &Clean, outputs: &str, told: &mut Vec<u8>) -> io::Result<()> {
    for path in outputs.split(' ') {
        push_output(path, clean.content(path), told)?;
    }
    Ok(())
}
