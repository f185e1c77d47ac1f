//! A history that is carried out as one list of moves.

ghost use Rattle.std.specs.Prelude.{IfOk};
ghost use Rattle.model.specs.World.{IsIdle};
ghost use Rattle.sim.specs.World.{world_of};

use crate::ends::{push_end, push_last};
use crate::lines::{self, Row, move_of};
use crate::moves::start_again;
use crate::watched::Watched;
use builder::Report;
use drive::drive;
use meanwhile::{edges_of, options, targets};
use model::Move;
use sim::{Call, Sim, Toy};
use site::Site;
use std::alloc::{AllocError, Global};
use std::io::{self, Write};
use tables::unescaped;
use text::{Bytes, Items, Path};

/// Tells how each build of the list ended, and what a last build gives. Where memory was wanting, that is told, and the list is
/// carried out from its beginning once more.
pub fn push_driven(alloc: Global, row: Row<'_>, told: &mut Vec<u8>) -> io::Result<()> {
    let mut site = fresh(alloc, row)?;
    let driven = push_list(alloc, &mut site, row, told);
    driven
}

/// A site on which nothing has happened, and what is to go wrong on it.
fn fresh(alloc: Global, row: Row<'_>) -> Result<Sim<Toy>, AllocError>
    ensures { IfOk result (λ site. IsIdle (world_of site).events) }
{
    let mut site = Sim::new(alloc, Toy);
    site.stop_at(Call::WaitAny, row.stop_in_wait, 0)?;
    site.fail(Call::Remove, row.refuse_remove)?;
    site.restart();
    Ok(site)
}

fn push_list(
    alloc: Global,
    site: &mut Sim<Toy>,
    row: Row<'_>,
    told: &mut Vec<u8>,
) -> io::Result<()> {
    let moves = moves(alloc, row.moves)?;
    push_moves(alloc, site, &moves, row.outputs, told)
}

fn push_moves(
    alloc: Global,
    site: &mut Sim<Toy>,
    moves: &[Move],
    outputs: &str,
    told: &mut Vec<u8>,
) -> io::Result<()> {
    if !carry_out(alloc, site, moves, told)? {
        carry_out(alloc, site, moves, told)?;
    }
    told.write_all(b"at last ")?;
    push_last(alloc, site, &options(alloc, 3, 1)?, outputs, told)
}

/// Carries out the moves, and tells the reports. Whether memory was not wanting.
fn carry_out(
    alloc: Global,
    site: &mut Sim<Toy>,
    moves: &[Move],
    told: &mut Vec<u8>,
) -> io::Result<bool> {
    match drive_alone(alloc, site, moves) {
        Ok(reports) => {
            push_reports(reports.as_slice(), told)?;
            Ok(true)
        }
        Err(_) => {
            told.write_all(b"no memory; ")?;
            Ok(false)
        }
    }
}

/// Carries out the moves on a site on which no command runs.
fn drive_alone(
    alloc: Global,
    site: &mut Sim<Toy>,
    moves: &[Move],
) -> Result<Vec<Report>, AllocError> {
    let options = options(alloc, 3, 1)?;
    start_again(site);
    drive(alloc, site, &options, moves)
}

fn push_reports(reports: &[Report], told: &mut Vec<u8>) -> io::Result<()> {
    for report in reports {
        push_end(report, told)?;
        told.write_all(b"; ")?;
    }
    Ok(())
}

/// Tells which calls the list makes, one command at a time, and which files there are then, with their stamps. `witness` is about such a
/// history: `witness/specs/Worlds.antt` has the same calls and files.
pub fn push_calls(alloc: Global, row: Row<'_>, told: &mut Vec<u8>) -> io::Result<()> {
    let moves = moves(alloc, row.moves)?;
    push_calls_of(alloc, row, &moves, told)
}

fn push_calls_of(
    alloc: Global,
    row: Row<'_>,
    moves: &[Move],
    told: &mut Vec<u8>,
) -> io::Result<()> {
    let mut site = Watched::new(alloc, fresh(alloc, row)?);
    let driven = push_watched(alloc, &mut site, row.outputs, moves, told);
    driven
}

fn push_watched(
    alloc: Global,
    site: &mut Watched,
    outputs: &str,
    moves: &[Move],
    told: &mut Vec<u8>,
) -> io::Result<()>
    requires { IsIdle (world_of site.old.site).events }
{
    drive_watched(alloc, site, moves)?;
    site.push_calls(told)?;
    push_files(site, outputs, told)
}

fn drive_watched(alloc: Global, site: &mut Watched, moves: &[Move]) -> Result<(), AllocError>
    requires { IsIdle (world_of site.old.site).events }
{
    let options = options(alloc, 1, 1)?;
    drive(alloc, site, &options, moves)?;
    Ok(())
}

/// Each file that there is, with its stamp and what it holds.
fn push_files(site: &mut Watched, paths: &str, told: &mut Vec<u8>) -> io::Result<()> {
    site.restart();
    for path in paths.split(' ') {
        push_file(site, path, told)?;
    }
    Ok(())
}

fn push_file(site: &mut Watched, path: &str, told: &mut Vec<u8>) -> io::Result<()> {
    let Ok(Some(stamp)) = site.stat(path) else {
        return Ok(());
    };
    write!(told, "{path} {stamp}:")?;
    if let Some(content) = site.content(path) {
        told.write_all(content.as_slice())?;
    }
    told.write_all(b"|")
}

/// A move for each line.
fn moves(alloc: Global, lines: &str) -> Result<Vec<Move>, AllocError> {
    let mut moves = Vec::new(alloc);
    for line in lines.split('\n') {
        moves.push(one_move(alloc, line)?)?;
    }
    Ok(moves)
}

fn one_move(alloc: Global, line: &str) -> Result<Move, AllocError> {
    match move_of(line) {
        lines::Move::Write(path, text) | lines::Move::Left(path, text) => {
            writing(alloc, path, unescaped(alloc, text)?)
        }
        lines::Move::Edges(edges) => writing(alloc, "build.ninja", edges_of(alloc, edges)?),
        lines::Move::Delete(path) => Ok(Move::Delete {
            path: Path::from_str(alloc, path)?,
        }),
        lines::Move::Build(target) => Ok(Move::Build {
            targets: Items::from_vec(targets(alloc, target)?),
        }),
    }
}

fn writing(alloc: Global, path: &str, content: Vec<u8>) -> Result<Move, AllocError> {
    Ok(Move::Write {
        path: Path::from_str(alloc, path)?,
        content: Bytes::from_vec(content),
    })
}
