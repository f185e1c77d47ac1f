//! Tells what graphs, sites in memory, scripts and histories of builds come to.
//!
//! A row `part NAME` begins a part, whose rows are said where `worlds` names what answers them. In all of them a text is as `tables`
//! says: `\n` ends a line of it, and a blank within a path or a word is `\x20`.
#![tactic(auto)]

mod answers;
mod asked_graph;
mod clean_site;
mod driven;
mod each_call;
mod ends;
mod graph_texts;
mod graphs;
mod harm;
mod histories;
mod lines;
mod moves;
mod one_file;
mod places;
mod script_asked;
mod script_rows;
mod script_sweeps;
mod toy_calls;
mod toys;
mod trial;
mod watched;
mod worlds;

use std::io;
use worlds::Worlds;

fn main(rt: HostRuntime) -> io::Result<()> {
    let alloc = rt.alloc();
    let mut worlds = Worlds::new(alloc);
    tables::run(alloc, &mut worlds, &mut rt.reader(), &mut io::writer(&rt))
}
