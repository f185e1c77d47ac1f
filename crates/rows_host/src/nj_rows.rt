//! Runs of the program in folders. A row `folder` begins an empty folder, and each row behind it is a run of the program there, or what
//! somebody does or sees beside it. The manual page and the completions lie in the folder where the program begins.

use crate::answers::{number, plain};
use crate::documented::{push_documented, push_version};
use crate::folder::Folder;
use crate::nj_runs::{Ran, push_front, push_ran, push_status, run_of, trusting_run_of};
use crate::stand_in_runs::stand_in_run_of;
use ninja_run::Around;
use ninja_words::Output;
use std::alloc::{AllocError, Global};
use std::path::PathBuf;
use std::{fs, io};
use tables::{unescaped, word};

/// A folder, the one where pages lie, and whether rows that compare are passed over up to the next one.
#[derive(Drop)]
pub struct Rows<'a> {
    pub folder: Folder<'a>,
    pages: PathBuf,
    passes_over: bool,
}

impl<'a> Rows<'a> {
    pub fn new(folder: Folder<'a>, pages: PathBuf) -> Rows<'a> {
        Rows {
            folder,
            pages,
            passes_over: false,
        }
    }

    /// `put PATH TEXT` and `later PATH TEXT`: somebody writes a file, the latter under a later stamp than any file has. `delete PATH`
    /// deletes one, `tear PATH` takes the end of its last line away, `folder_at PATH` and `no_folder PATH` make and remove a folder,
    /// and `printers COUNT` writes a build file of so many commands that print much. `None` for another row.
    fn change(&self, first: &str, rest: &str) -> Result<Option<io::Result<()>>, AllocError> {
        let alloc = self.folder.alloc();
        let (path, text) = word(rest);
        let path = plain(alloc, path)?;
        let text = unescaped(alloc, text)?;
        Ok(match first {
            "put" => Some(self.folder.write(path.as_str(), text.as_slice())),
            "later" => Some(self.folder.write_later(path.as_str(), text.as_slice())),
            "delete" => Some(self.folder.remove(path.as_str())),
            "tear" => Some(tear(&self.folder, path.as_str())),
            "folder_at" => Some(self.folder.make_dir(path.as_str())),
            "no_folder" => Some(self.folder.remove_dir(path.as_str())),
            "printers" => Some(write_printers(&self.folder, number(rest))),
            _ => None,
        })
    }

    /// `folder`: begins again. `compiler`: passes over rows that compare where no C compiler works, and `unless_root` where the
    /// user is root, as the file `user` says.
    fn prepare(&mut self, first: &str) -> Result<Option<io::Result<()>>, AllocError> {
        match first {
            "folder" => {
                self.passes_over = false;
                Ok(Some(self.folder.begin()))
            }
            "compiler" => {
                self.passes_over = run_of(&self.folder, None, "-C @ -f compiler.ninja")?.status
                    != 0;
                Ok(Some(Ok(())))
            }
            "unless_root" => {
                self.passes_over = is_root(&self.folder);
                Ok(Some(Ok(())))
            }
            _ => Ok(None),
        }
    }

    /// `run WORDS`: runs the program in the folder, and tells what it came to. `front LINES WORDS` tells of the standard output only
    /// the first lines, `status WORDS` the status alone, `under PATTERN WORDS` is under this `NINJA_STATUS`, `trusting WORDS` where
    /// `NJ_TRUST_STAMPS` is 1, and `words WORDS` not in the folder.
    fn push_run(
        &self,
        alloc: Global,
        first: &str,
        rest: &str,
        told: &mut String,
    ) -> Result<(), AllocError> {
        let (one, other) = word(rest);
        match first {
            "run" => push_ran(&self.ran(rest)?, told),
            "front" => push_front(&self.ran(other)?, number(one), told),
            "status" => push_status(self.ran(rest)?.status, told),
            "under" => push_ran(&self.ran_under(one, other)?, told),
            "words" => push_ran(&run_of(&self.folder, None, rest)?, told),
            "trusting" => push_ran(&self.ran_trusting(rest)?, told),
            _ => self.push_part(alloc, first, rest, told),
        }
    }

    /// `length WORDS`: how long the standard output is where no line has a front. `refused WORDS`: the status, whether the standard
    /// output is empty, and the first word of the standard error. `help TEXT`: whether the help has it, and nothing else is told.
    /// `same WORD TOLD`: whether a run with the word comes to that, or is passed over.
    fn push_part(
        &self,
        alloc: Global,
        first: &str,
        rest: &str,
        told: &mut String,
    ) -> Result<(), AllocError> {
        match first {
            "length" => push_length(&self.ran_under("", rest)?, told),
            "refused" => push_refused(&run_of(&self.folder, None, rest)?, told),
            "help" => push_help(&run_of(&self.folder, None, "--help")?, rest, told),
            "same" => self.push_same(alloc, rest, told),
            "documented" | "version" => self.push_page(alloc, first, rest, told),
            "ninja"
            | "status_ninja"
            | "under_ninja"
            | "trusting_ninja"
            | "forced_ninja"
            | "drawn_ninja" => self.push_stand_in(alloc, first, rest, told),
            _ => self.push_file(alloc, first, rest, told),
        }
    }

    /// `ninja WORDS`: runs the stand-in for ninja in the folder, and tells what it came to. `status_ninja WORDS` tells the status alone, and
    /// `under_ninja TEXT WORDS` is under this `NINJA_STATUS`, and `trusting_ninja WORDS` where `NJ_TRUST_STAMPS` is 1. The output of
    /// `forced_ninja WORDS` takes escapes, and that of `drawn_ninja WORDS` is a terminal on which rows are drawn.
    fn push_stand_in(
        &self,
        alloc: Global,
        first: &str,
        rest: &str,
        told: &mut String,
    ) -> Result<(), AllocError> {
        if first == "under_ninja" {
            let (heading, words) = word(rest);
            let heading = plain(alloc, heading)?;
            let around = Around {
                heading: Some(heading.as_str()),
                output: Output::Plain,
                trusts_stamps: false,
            };
            return push_ran(&stand_in_run_of(&self.folder, around, words)?, told);
        }
        let around = Around {
            heading: None,
            output: output_of(first),
            trusts_stamps: first == "trusting_ninja",
        };
        let ran = stand_in_run_of(&self.folder, around, rest)?;
        if first == "status_ninja" {
            return push_status(ran.status, told);
        }
        push_ran(&ran, told)
    }

    /// `documented PAGE`: the options of the help, where the page has the same. `version PAGE`: the version of the help, where the page has
    /// it.
    fn push_page(
        &self,
        alloc: Global,
        first: &str,
        name: &str,
        told: &mut String,
    ) -> Result<(), AllocError> {
        let pages = self.pages.display();
        let path = format!(in alloc; "{pages}/{name}")?;
        let help = run_of(&self.folder, None, "--help")?.out;
        match fs::read_to_string(self.folder.rt, path.as_str()) {
            Ok(page) if first == "version" => {
                push_version(alloc, help.as_str(), page.as_str(), told)
            }
            Ok(page) => push_documented(alloc, help.as_str(), name, page.as_str(), told),
            Err(_) => told.push_str("no page"),
        }
    }

    /// `holds PATH`: what a file holds. `has PATH`: whether there is one. `some START`: whether there is one whose path begins so.
    /// `ends PATH TEXT`: whether its last line ends so.
    fn push_file(
        &self,
        alloc: Global,
        first: &str,
        rest: &str,
        told: &mut String,
    ) -> Result<(), AllocError> {
        let (path, text) = word(rest);
        let path = plain(alloc, path)?;
        match first {
            "holds" => match self.folder.read(path.as_str()) {
                Ok(content) => told.push_str(content.as_str()),
                Err(_) => told.push_str("no file"),
            },
            "has" => push_answer(told, self.folder.has(path.as_str()).unwrap_or(false)),
            "some" => push_answer(told, self.folder.has_some(path.as_str()).unwrap_or(true)),
            "ends" => push_answer(told, ends_so(&self.folder, path.as_str(), text)),
            _ => told.push_str("no such row"),
        }
    }

    fn push_same(&self, alloc: Global, rest: &str, told: &mut String) -> Result<(), AllocError> {
        if self.passes_over {
            return told.push_str("as told");
        }
        let (one, wanted) = word(rest);
        let wanted = plain(alloc, wanted)?;
        let mut found = String::new(alloc);
        push_ran(&self.ran(one)?, &mut found)?;
        if found.as_str() == wanted.as_str() {
            return told.push_str("as told");
        }
        told.push_str(found.as_str())
    }

    fn ran(&self, words: &str) -> Result<Ran, AllocError> {
        let alloc = self.folder.alloc();
        let words = format!(in alloc; "-C @ {words}")?;
        run_of(&self.folder, None, words.as_str())
    }

    fn ran_trusting(&self, words: &str) -> Result<Ran, AllocError> {
        let alloc = self.folder.alloc();
        let words = format!(in alloc; "-C @ {words}")?;
        trusting_run_of(&self.folder, words.as_str())
    }

    fn ran_under(&self, pattern: &str, words: &str) -> Result<Ran, AllocError> {
        let alloc = self.folder.alloc();
        let pattern = plain(alloc, pattern)?;
        let words = format!(in alloc; "-C @ {words}")?;
        run_of(&self.folder, Some(pattern.as_str()), words.as_str())
    }
}

impl Rows<'_> {
    pub fn answer(
        &mut self,
        alloc: Global,
        first: &str,
        rest: &str,
        told: &mut String,
    ) -> Result<bool, AllocError> {
        if let Some(done) = self.prepare(first)? {
            return is_told(done, told);
        }
        if let Some(done) = self.change(first, rest)? {
            return is_told(done, told);
        }
        self.push_run(alloc, first, rest, told)?;
        Ok(true)
    }
}

/// What the output is of the stand-in that a row of this name runs.
fn output_of(name: &str) -> Output {
    match name {
        "forced_ninja" => Output::Coloured,
        "drawn_ninja" => Output::Drawn { colours: true },
        _ => Output::Plain,
    }
}

/// Whether something is told of what was done: that it was refused.
pub fn is_told(done: io::Result<()>, told: &mut String) -> Result<bool, AllocError> {
    if done.is_err() {
        told.push_str("refused")?;
        return Ok(true);
    }
    Ok(false)
}

fn tear(folder: &Folder<'_>, path: &str) -> io::Result<()> {
    let content = folder.read(path)?;
    folder.write(path, content.as_str().trim().as_bytes())
}

const MUCH: &str = "rule r
  command = head -c 100000 /dev/zero; head -c 100000 /dev/zero >&2; wc -c > $out
  description = x
";

fn write_printers(folder: &Folder<'_>, count: usize) -> io::Result<()> {
    let alloc = folder.alloc();
    let mut build = String::from_str(alloc, MUCH)?;
    for place in 0..count {
        let line = format!(in alloc; "build b{}: r\n", place.saturating_add(1))?;
        build.push_str(line.as_str())?;
    }
    folder.write("build.ninja", build.as_bytes())
}

fn is_root(folder: &Folder<'_>) -> bool {
    match folder.read("user") {
        Ok(user) => user.as_str() == "0\n",
        Err(_) => false,
    }
}

fn ends_so(folder: &Folder<'_>, path: &str, end: &str) -> bool {
    match folder.read(path) {
        Ok(content) => content.as_str().trim().ends_with(end),
        Err(_) => false,
    }
}

fn push_answer(told: &mut String, holds: bool) -> Result<(), AllocError> {
    told.push_str(if holds { "yes" } else { "no" })
}

fn push_length(ran: &Ran, told: &mut String) -> Result<(), AllocError> {
    push_status(ran.status, told)?;
    let (out, err) = (ran.out.len(), ran.err.len());
    write!(told, ", {out} bytes and {err}")
}

fn push_refused(ran: &Ran, told: &mut String) -> Result<(), AllocError> {
    push_status(ran.status, told)?;
    told.push_str(if ran.out.is_empty() {
        " "
    } else {
        " not alone "
    })?;
    let (first, _) = word(ran.err.as_str());
    told.push_str(first)
}

fn push_help(ran: &Ran, part: &str, told: &mut String) -> Result<(), AllocError> {
    push_status(ran.status, told)?;
    told.push(' ')?;
    push_answer(told, ran.err.is_empty() && ran.out.as_str().contains(part))
}
