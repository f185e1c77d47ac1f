//! Tells what traces of commands are read as, and what of that which commands do breaks a premise.
//!
//! `trace FOLDER TEXT` asks what a trace tells of a command that began in this folder. In the text escapes are as `tables` says, and what
//! stands between two `^` is a name, which a trace writes in hexadecimal digits. The answer has a word for each thing that was done, and its
//! path, with the one by which the kernel has the file behind an equals sign, the other path of a file that was given this one, or where a link
//! leads, behind a less-than sign, and an asterisk where a link that stands there is followed.
//!
//! `find DEEDS PLACE` asks what breaks a premise where a command does these things, one after another, at a path that is this to it: both are
//! words with commas between.
//!
//! `edge PATHS DEEDS` asks what breaks a premise of all that a command did: `output:b,input:a` and `read:a,wrote:b`. A path behind an equals
//! sign is the one that the kernel has, by which that counts then; behind a plus it counts by both; behind a less-than sign stands the path that
//! a file or a folder had which was moved.
//!
//! `tree FOLDER LINES` begins a tree: its working folder, from the root, and the lines of its build file. `log TEXT` and `deps TEXT` give it
//! logs, `dyndep FILE TEXT` loads what a dyndep file of this name says. `audit TARGET..` tells how many commands these targets need, or else the
//! defaults. Behind it `scratch FOLDER` says where `TMPDIR` leads to, and `file NUMBER PATH..` that these paths lead to one file, as a device
//! tells it by a number, and `filled PATH..` that these lead to plain files which are not empty,
//! `link PATH TARGET` that a link which leads there stands at a path, from the root, and `left PATH..` that scratch files stand at these before
//! the build begins. `command OUTPUT TEXT` asks what is told of the command that makes this output first, which left this trace, in the words
//! of `trace`; `untraced OUTPUT` of one that left none. `told` asks what is told behind these lines, and what was counted, with `clean` where
//! all commands were looked at and keep all premises; `told all` lists each file outside of the folder.
#![tactic(auto)]

mod declared;
mod edge;
mod found;
mod one_file;
mod traced;
mod tree;

use std::alloc::{AllocError, Global};
use std::io;
use tables::{Table, word};
use tree::Tree;

/// What the rows have said so far of a tree.
#[derive(Drop)]
struct Asked {
    tree: Tree,
}

impl Table for Asked {
    fn answer(&mut self, alloc: Global, row: &str, told: &mut String) -> Result<bool, AllocError> {
        let (first, rest) = word(row);
        match first {
            "trace" => traced::push_trace(alloc, rest, told)?,
            "find" => found::push_found(alloc, rest, told)?,
            "edge" => edge::push_edge(alloc, rest, told)?,
            _ => return self.tree.answer(alloc, first, rest, told),
        }
        Ok(true)
    }
}

fn main(rt: HostRuntime) -> io::Result<()> {
    let alloc = rt.alloc();
    let mut asked = Asked {
        tree: Tree::none(alloc),
    };
    tables::run(alloc, &mut asked, &mut rt.reader(), &mut io::writer(&rt))
}
