//! `awkward`: a graph as of Fortran or C++20 modules, with a dyndep file for each ten edges, which commands make; and a phony edge over
//! very many files, below commands that run one after another. Each is built from nothing, and after edits.

use crate::desk::Desk;
use crate::digest::Digest;
use crate::random::Random;
use crate::workloads::Asked;
use std::alloc::{AllocError, Global};

const MODULES: &str = "rule dyndep
  command = cat $out $in
  restat = 1
rule compile
  command = both $out $mod $in
  description = Building Fortran object $out
  dyndep = $dd
rule link
  command = cat $out $in
";

const GATHERED: &str = "rule cat\n  command = cat $out $in\n";

/// A graph of each kind.
pub fn push_awkward(
    alloc: Global,
    asked: Asked<'_>,
    digest: &mut Digest,
) -> Result<(), AllocError> {
    push_modules(alloc, asked, digest)?;
    push_gathered(alloc, asked, digest)
}

/// A graph of so many modules; in each round one of them is edited.
fn push_modules(alloc: Global, asked: Asked<'_>, digest: &mut Digest) -> Result<(), AllocError> {
    let mut desk = Desk::new(alloc, 4)?;
    build_modules(alloc, &mut desk, asked, digest)?;
    add_modules(alloc, &desk, asked.size, digest)
}

fn build_modules(
    alloc: Global,
    desk: &mut Desk,
    asked: Asked<'_>,
    digest: &mut Digest,
) -> Result<(), AllocError> {
    let mut random = Random::new(asked.seed);
    put_modules(alloc, desk, asked.size, &mut random)?;
    desk.build(digest)?;
    for _ in 0..asked.rounds {
        let number = random.below(asked.size);
        put_module(alloc, desk, number, &mut random)?;
        desk.build(digest)?;
    }
    Ok(())
}

/// All files of the graph.
fn put_modules(
    alloc: Global,
    desk: &mut Desk,
    edges: usize,
    random: &mut Random,
) -> Result<(), AllocError> {
    for number in 0..edges {
        put_module(alloc, desk, number, random)?;
    }
    put_uses(alloc, desk, edges, random)?;
    let text = modules(alloc, edges)?;
    desk.put("build.ninja", text.as_bytes())
}

/// Takes in what all made files hold.
fn add_modules(
    alloc: Global,
    desk: &Desk,
    edges: usize,
    digest: &mut Digest,
) -> Result<(), AllocError> {
    for number in 0..edges {
        add_module(alloc, desk, number, digest)?;
    }
    desk.add_file("program", digest);
    Ok(())
}

fn add_module(
    alloc: Global,
    desk: &Desk,
    number: usize,
    digest: &mut Digest,
) -> Result<(), AllocError> {
    desk.add_file(
        format!(in alloc; "obj/module{number:04}.o")?.as_str(),
        digest,
    );
    desk.add_file(
        format!(in alloc; "mod/module{number:04}.mod")?.as_str(),
        digest,
    );
    Ok(())
}

fn put_module(
    alloc: Global,
    desk: &mut Desk,
    number: usize,
    random: &mut Random,
) -> Result<(), AllocError> {
    let path = format!(in alloc; "src/module{number:04}.f90")?;
    let content = format!(in alloc; "{}", random.below(1_000_000))?;
    desk.put(path.as_str(), content.as_bytes())
}

/// What the dyndep files are to say: each module uses up to four that stand before it.
fn put_uses(
    alloc: Global,
    desk: &mut Desk,
    edges: usize,
    random: &mut Random,
) -> Result<(), AllocError> {
    for part in 0..parts(edges) {
        put_part(alloc, desk, part, edges, random)?;
    }
    Ok(())
}

fn put_part(
    alloc: Global,
    desk: &mut Desk,
    part: usize,
    edges: usize,
    random: &mut Random,
) -> Result<(), AllocError> {
    let mut text = String::from_str(alloc, "ninja_dyndep_version = 1\n")?;
    push_part_uses(part, edges, random, &mut text)?;
    let path = format!(in alloc; "src/part{part:03}.scan")?;
    desk.put(path.as_str(), text.as_bytes())
}

fn push_part_uses(
    part: usize,
    edges: usize,
    random: &mut Random,
    text: &mut String,
) -> Result<(), AllocError> {
    for number in members(part, edges) {
        write!(
            text,
            "build obj/module{number:04}.o | mod/module{number:04}.mod: dyndep |"
        )?;
        for _ in 0..random.below(5) {
            let used = random.below(number);
            if number != 0 {
                write!(text, " mod/module{used:04}.mod")?;
            }
        }
        text.push('\n')?;
    }
    Ok(())
}

fn parts(edges: usize) -> usize {
    edges.saturating_add(9).checked_div(10).unwrap_or(0)
}

/// The modules of a part.
fn members(part: usize, edges: usize) -> std::ops::Range<usize> {
    let first = part.saturating_mul(10);
    first..first.saturating_add(10).min(edges)
}

fn modules(alloc: Global, edges: usize) -> Result<String, AllocError> {
    let mut text = String::from_str(alloc, MODULES)?;
    push_lines(edges, &mut text)?;
    Ok(text)
}

fn push_lines(edges: usize, text: &mut String) -> Result<(), AllocError> {
    for part in 0..parts(edges) {
        write!(
            text,
            "build dd/part{part:03}.dd: dyndep src/part{part:03}.scan\n"
        )?;
        for number in members(part, edges) {
            write!(
                text,
                "build obj/module{number:04}.o: compile src/module{number:04}.f90 || dd/part{part:03}.dd\n"
            )?;
            write!(
                text,
                "  dd = dd/part{part:03}.dd\n  mod = mod/module{number:04}.mod\n"
            )?;
        }
    }
    text.push_str("build program: link")?;
    for number in 0..edges {
        write!(text, " obj/module{number:04}.o")?;
    }
    text.push('\n')
}

/// A chain of so many commands, each of which reads through a phony edge over ten times so many files; in each round one of these
/// is edited.
fn push_gathered(alloc: Global, asked: Asked<'_>, digest: &mut Digest) -> Result<(), AllocError> {
    let mut desk = Desk::new(alloc, 4)?;
    build_gathered(alloc, &mut desk, asked, digest)?;
    for number in 0..asked.size {
        desk.add_file(format!(in alloc; "out/{number}")?.as_str(), digest);
    }
    Ok(())
}

fn build_gathered(
    alloc: Global,
    desk: &mut Desk,
    asked: Asked<'_>,
    digest: &mut Digest,
) -> Result<(), AllocError> {
    let mut random = Random::new(asked.seed);
    let files = asked.size.saturating_mul(10);
    put_gathered(alloc, desk, files, asked.size, &mut random)?;
    desk.build(digest)?;
    for _ in 0..asked.rounds {
        let number = random.below(files);
        put_file(alloc, desk, number, &mut random)?;
        desk.build(digest)?;
    }
    Ok(())
}

/// All files of the graph.
fn put_gathered(
    alloc: Global,
    desk: &mut Desk,
    files: usize,
    commands: usize,
    random: &mut Random,
) -> Result<(), AllocError> {
    for number in 0..files {
        put_file(alloc, desk, number, random)?;
    }
    desk.put("in/first", b"first")?;
    let text = gathered(alloc, files, commands)?;
    desk.put("build.ninja", text.as_bytes())
}

fn put_file(
    alloc: Global,
    desk: &mut Desk,
    number: usize,
    random: &mut Random,
) -> Result<(), AllocError> {
    let path = format!(in alloc; "in/file{number:05}.h")?;
    let content = format!(in alloc; "{}", random.below(1_000_000))?;
    desk.put(path.as_str(), content.as_bytes())
}

fn gathered(alloc: Global, files: usize, commands: usize) -> Result<String, AllocError> {
    let mut text = String::from_str(alloc, GATHERED)?;
    push_chain(files, commands, &mut text)?;
    Ok(text)
}

fn push_chain(files: usize, commands: usize, text: &mut String) -> Result<(), AllocError> {
    text.push_str("build files: phony")?;
    for number in 0..files {
        write!(text, " in/file{number:05}.h")?;
    }
    text.push_str("\nbuild out/0: cat in/first | files\n")?;
    for number in 1..commands {
        let before = number.saturating_sub(1);
        write!(text, "build out/{number}: cat out/{before} | files\n")?;
    }
    Ok(())
}
