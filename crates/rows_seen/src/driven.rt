//! A scenario that is carried out as one list of moves, by builds that go by what was seen, on a site that tells its files.

ghost use Rattle.model.specs.World.{IsIdle};
ghost use Rattle.sim.specs.World.{world_of};

use builder::Report;
use meanwhile::{Source, edges_of, options};
use model::Move;
use seen_drive::drive_seen;
use sim::{Sim, Toy};
use sim_measured::Measuring;
use site::Site;
use std::alloc::{AllocError, Global};
use std::io::{self, Write};
use tables::{unescaped, word};
use text::{Bytes, Items, Path, Text};

/// Carries out the lines as moves: `edges`, `put`, whose stamp is that of the write, `delete` and `build`. Told is how each build ended, and what
/// stands at each output then.
pub fn push_driven(alloc: Global, source: Source<'_>, told: &mut Vec<u8>) -> io::Result<()> {
    let moves = moves(alloc, source.graphs)?;
    push_moves(alloc, &moves, source.outputs, told)
}

fn push_moves(alloc: Global, moves: &[Move], outputs: &str, told: &mut Vec<u8>) -> io::Result<()> {
    let options = options(alloc, 1, 1)?;
    let (driven, site) = drive_seen(alloc, fresh(alloc), &options, moves);
    let pushed = push_end(driven, &site, outputs, told);
    pushed
}

/// A site on which nothing has happened.
fn fresh(alloc: Global) -> Measuring
    ensures { IsIdle (world_of result.site).events }
{
    let mut site: Sim<Toy> = Sim::new(alloc, Toy);
    site.restart();
    Measuring::new(site)
}

fn push_end(
    driven: Result<Vec<Report>, AllocError>,
    site: &Measuring,
    outputs: &str,
    told: &mut Vec<u8>,
) -> io::Result<()> {
    let reports = driven?;
    push_reports(reports.as_slice(), told)?;
    for path in outputs.split(' ') {
        push_file(&site.site, path, told)?;
    }
    Ok(())
}

fn push_reports(reports: &[Report], told: &mut Vec<u8>) -> io::Result<()> {
    for report in reports {
        push_report(report, told)?;
        told.write_all(b"; ")?;
    }
    Ok(())
}

fn push_report(report: &Report, told: &mut Vec<u8>) -> io::Result<()> {
    match report {
        Report::Success { started } => write!(told, "{started} started"),
        Report::Failed { .. } => write!(told, "failed"),
        Report::Refused(refusal) => write!(told, "refused {refusal}"),
        Report::Fault(fault) => write!(told, "{fault:?}"),
    }
}

/// What stands at the path.
fn push_file(site: &Sim<Toy>, path: &str, told: &mut Vec<u8>) -> io::Result<()> {
    match site.content(path) {
        Some(content) => {
            write!(told, "{path}:")?;
            told.write_all(content.as_slice())?;
        }
        None => write!(told, "no {path}")?,
    }
    told.write_all(b"|")
}

/// A move for each line that says one.
fn moves(alloc: Global, lines: &str) -> Result<Vec<Move>, AllocError> {
    let mut moves = Vec::new(alloc);
    for line in lines.split('\n') {
        push_move(alloc, line, &mut moves)?;
    }
    Ok(moves)
}

fn push_move(alloc: Global, line: &str, moves: &mut Vec<Move>) -> Result<(), AllocError> {
    let (first, rest) = word(line);
    match first {
        "edges" => moves.push(writing(alloc, "build.ninja", edges_of(alloc, rest)?)?)?,
        "put" => moves.push(putting(alloc, rest)?)?,
        "delete" => moves.push(deleting(alloc, rest)?)?,
        "build" => moves.push(building(alloc, rest)?)?,
        _ => {}
    }
    Ok(())
}

/// A path, a stamp, which counts for nothing here, and what the file is to hold.
fn putting(alloc: Global, rest: &str) -> Result<Move, AllocError> {
    let (path, rest) = word(rest);
    let (_, text) = word(rest);
    writing(alloc, path, unescaped(alloc, text)?)
}

fn writing(alloc: Global, path: &str, content: Vec<u8>) -> Result<Move, AllocError> {
    Ok(Move::Write {
        path: Path::from_str(alloc, path)?,
        content: Bytes::from_vec(content),
    })
}

fn deleting(alloc: Global, path: &str) -> Result<Move, AllocError> {
    Ok(Move::Delete {
        path: Path::from_str(alloc, path)?,
    })
}

fn building(alloc: Global, target: &str) -> Result<Move, AllocError> {
    let mut targets = Vec::new(alloc);
    if !target.is_empty() {
        targets.push(Text::from_str(alloc, target)?)?;
    }
    Ok(Move::Build {
        targets: Items::from_vec(targets),
    })
}
