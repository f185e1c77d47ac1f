//! Tells what texts are read as: build files and their lines, depfiles, dyndep files, logs, and what builds show.
//!
//! A row is a word and a text, in which escapes are as `tables` says. Some words keep their text for the rows behind them, and
//! tell it: `said` (the statements of a text), `both` (a build file beside the file that `sub` gave), `passing READS` (the same on
//! a device that refuses each read after so many), `depfile`, `dyndep`, `log` and `deps`. Of the last text `beginnings` asks how
//! each beginning of it is answered, the whole left out, and `bytes` how it is with each of nine or ten bytes at each place;
//! `made_up COUNT SEED FRONT TOKEN..` asks of texts of the same kind that are made up. A name behind these three, `build.ninja` or
//! `sub`, says which of two build files is meant.
//!
//! Of the last log `look PATH` asks for the record in force for a path, `at N` for the record with this number; `begun PATH` and
//! `done PATH START COMMAND` put one record more behind it.
//!
//! Other rows stand alone: `read` gives the only build file, `none`, `doubled`, `filled`, `filled_said` and `nested` are said in
//! `limits`, `times` in `logs`, `number`, `field` and `line` in `fields`, `judge` in `judgements`, `canonical` and `quote` in `said`,
//! and `pattern`, `says`, `ending` and `screen` in `shown`.
#![tactic(auto)]

mod asked;
mod declared;
mod dependencies;
mod fields;
mod files;
mod judgements;
mod limits;
mod logs;
mod pieces;
mod said;
mod shown;
mod sweeps;
mod table;

use asked::Asked;
use std::io;

fn main(rt: HostRuntime) -> io::Result<()> {
    let alloc = rt.alloc();
    let mut asked = Asked::new(alloc);
    tables::run(alloc, &mut asked, &mut rt.reader(), &mut io::writer(&rt))
}
