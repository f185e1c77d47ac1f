//! `shapes`: graphs of one shape, without depfiles. Each is built from nothing, and then after edits that make one command run.

use crate::desk::Desk;
use crate::digest::Digest;
use crate::random::Random;
use crate::workloads::Asked;
use std::alloc::{AllocError, Global};

const RULES: &str = "rule cat\n  command = cat $out $in\n  description = CAT $out\n";

/// How an edge stands in a graph.
#[derive(Clone, Copy)]
enum Shape {
    /// It reads six sources, five of which the next one reads as well.
    Six,
    /// It reads what the edge before it makes.
    Chain,
    /// It reads the one source.
    Fan,
    /// It reads through a phony edge over a thousand sources.
    Below,
}

/// A graph of each shape.
pub fn push_shapes(alloc: Global, asked: Asked<'_>, digest: &mut Digest) -> Result<(), AllocError> {
    for shape in [Shape::Six, Shape::Chain, Shape::Fan, Shape::Below] {
        build_shape(alloc, asked, shape, digest)?;
    }
    Ok(())
}

fn build_shape(
    alloc: Global,
    asked: Asked<'_>,
    shape: Shape,
    digest: &mut Digest,
) -> Result<(), AllocError> {
    let mut desk = Desk::new(alloc, 8)?;
    build_on(alloc, &mut desk, asked, shape, digest)
}

/// A build from nothing, and one after each edit of the source that the last edge alone reads.
fn build_on(
    alloc: Global,
    desk: &mut Desk,
    asked: Asked<'_>,
    shape: Shape,
    digest: &mut Digest,
) -> Result<(), AllocError> {
    let mut random = Random::new(asked.seed);
    put_sources(alloc, desk, asked.size, &mut random)?;
    put_build_file(alloc, desk, asked.size, shape)?;
    desk.build(digest)?;
    for _ in 0..asked.rounds {
        put_late(alloc, desk, &mut random)?;
        desk.build(digest)?;
    }
    add_outputs(alloc, desk, asked.size, digest)
}

fn put_build_file(
    alloc: Global,
    desk: &mut Desk,
    edges: usize,
    shape: Shape,
) -> Result<(), AllocError> {
    let text = build_file(alloc, edges, shape)?;
    desk.put("build.ninja", text.as_bytes())
}

fn put_late(alloc: Global, desk: &mut Desk, random: &mut Random) -> Result<(), AllocError> {
    let content = format!(in alloc; "{}", random.below(1_000_000))?;
    desk.put("in/late", content.as_bytes())
}

fn put_sources(
    alloc: Global,
    desk: &mut Desk,
    edges: usize,
    random: &mut Random,
) -> Result<(), AllocError> {
    desk.put("in/late", b"late")?;
    for number in 0..edges.saturating_add(6) {
        put_source(alloc, desk, number, random)?;
    }
    Ok(())
}

fn put_source(
    alloc: Global,
    desk: &mut Desk,
    number: usize,
    random: &mut Random,
) -> Result<(), AllocError> {
    let path = source(alloc, number)?;
    let content = format!(in alloc; "{}", random.below(10))?;
    desk.put(path.as_str(), content.as_bytes())
}

fn add_outputs(
    alloc: Global,
    desk: &Desk,
    edges: usize,
    digest: &mut Digest,
) -> Result<(), AllocError> {
    for edge in 0..edges {
        desk.add_file(output(alloc, edge)?.as_str(), digest);
    }
    Ok(())
}

fn source(alloc: Global, number: usize) -> Result<String, AllocError> {
    let folder = number.checked_rem(97).unwrap_or(0);
    format!(in alloc; "in/folder{folder:02}/input{number:05}.txt")
}

fn output(alloc: Global, edge: usize) -> Result<String, AllocError> {
    let folder = edge.checked_rem(97).unwrap_or(0);
    format!(in alloc; "out/folder{folder:02}/output{edge:05}.txt")
}

/// Edges of the shape; the last one reads a source of its own besides.
fn build_file(alloc: Global, edges: usize, shape: Shape) -> Result<String, AllocError> {
    let mut text = String::from_str(alloc, RULES)?;
    push_edges(alloc, edges, shape, &mut text)?;
    Ok(text)
}

fn push_edges(
    alloc: Global,
    edges: usize,
    shape: Shape,
    text: &mut String,
) -> Result<(), AllocError> {
    push_files(alloc, edges, shape, text)?;
    for edge in 0..edges {
        push_output(alloc, edge, text)?;
        push_inputs(alloc, edge, shape, text)?;
        if edge.saturating_add(1) == edges {
            push_late(shape, text)?;
        }
        text.push('\n')?;
    }
    Ok(())
}

fn push_output(alloc: Global, edge: usize, text: &mut String) -> Result<(), AllocError> {
    let out = output(alloc, edge)?;
    write!(text, "build {out}: cat")
}

/// The source that the last edge alone reads, which has a bar before it where no implicit input stands before.
fn push_late(shape: Shape, text: &mut String) -> Result<(), AllocError> {
    if !matches!(shape, Shape::Below) {
        text.push_str(" |")?;
    }
    text.push_str(" in/late")
}

/// The phony edge, where the shape has one.
fn push_files(
    alloc: Global,
    edges: usize,
    shape: Shape,
    text: &mut String,
) -> Result<(), AllocError> {
    if !matches!(shape, Shape::Below) {
        return Ok(());
    }
    text.push_str("build files: phony")?;
    for number in 0..edges.min(1000) {
        push_path(&source(alloc, number)?, text)?;
    }
    text.push('\n')
}

fn push_inputs(
    alloc: Global,
    edge: usize,
    shape: Shape,
    text: &mut String,
) -> Result<(), AllocError> {
    match shape {
        Shape::Six => push_six(alloc, edge, text),
        Shape::Chain => match edge.checked_sub(1) {
            Some(before) => push_path(&output(alloc, before)?, text),
            None => push_path(&source(alloc, 0)?, text),
        },
        Shape::Fan => push_path(&source(alloc, 0)?, text),
        Shape::Below => text.push_str(" | files"),
    }
}

fn push_six(alloc: Global, edge: usize, text: &mut String) -> Result<(), AllocError> {
    for place in 0..6_usize {
        push_path(&source(alloc, edge.wrapping_add(place))?, text)?;
    }
    Ok(())
}

fn push_path(path: &String, text: &mut String) -> Result<(), AllocError> {
    text.push(' ')?;
    text.push_str(path.as_str())
}
