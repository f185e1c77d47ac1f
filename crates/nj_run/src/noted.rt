//! What may help whoever watches a run, found beside it.

use crate::reported::read_too_early;
use builder::{Reading, Refusal, Report};
use host::{Host, StandingClock};
use manifest::ReadError;
use notes::{
    Note, Older, clock_went_back, nearest_target, no_build_file, older_file, other_ninja,
    recorded_input,
};
use std::alloc::{AllocError, Global};
use std::io;
use std::io::Write;
use terminal::Look;
use text::Path;

/// How a run looks to somebody who watches it, and the notes of it. Where nobody reads notes, nothing is looked for. They are found as well
/// as it goes: one for which there is no memory, or that would need a file which cannot be read, is left out.
#[derive(Drop)]
pub struct Noted<'a> {
    rt: &'a HostRuntime,
    is_wanted: bool,
    /// How the screen looks, where rows are drawn on it.
    look: Option<Look>,
    notes: Vec<Note>,
    /// Notes of what was read before it was made.
    early: Vec<Note>,
    /// What was later than the build file when that was read. The build may write it anew.
    older: Option<Older>,
    /// What the first target that no build line names was meant to be.
    nearest: Option<Note>,
    /// The folder of the program's own files; empty is the working folder.
    folder: Path,
}

impl<'a> Noted<'a> {
    /// No notes yet, and whether somebody reads them. This takes no memory.
    fn new(rt: &'a HostRuntime, is_wanted: bool) -> Noted<'a> {
        Noted {
            rt,
            is_wanted,
            look: None,
            notes: Vec::new(rt.alloc()),
            early: Vec::new(rt.alloc()),
            older: None,
            nearest: None,
            folder: Path::new(rt.alloc()),
        }
    }

    /// Nobody reads notes. This takes no memory.
    pub fn unwanted(rt: &'a HostRuntime) -> Noted<'a> {
        Noted::new(rt, false)
    }

    /// Somebody reads notes. This takes no memory.
    pub fn wanted(rt: &'a HostRuntime) -> Noted<'a> {
        Noted::new(rt, true)
    }

    /// What the build shows goes to a terminal, on which rows are to be drawn; failures in red, where colours are wanted.
    pub fn draw(&mut self, colours: bool) {
        self.look = Some(Look {
            colours,
            keeps_lines: false,
        });
    }

    /// How the screen looks, where rows are drawn on it. Lines that show commands stay.
    pub fn look(&self, verbose: bool) -> Option<Look> {
        let Look { colours, .. } = self.look?;
        Some(Look {
            colours,
            keeps_lines: verbose,
        })
    }

    /// The system on which it runs.
    pub fn rt(&self) -> &'a HostRuntime {
        self.rt
    }

    /// What was read of the file is about to be built. Of the build before only what is found now tells: a start gives its files new stamps.
    /// Where the file is read once more, what was found at an earlier reading is forgotten.
    pub fn reads(&mut self, file: &str, reading: &Reading<'_>) {
        if !self.is_wanted {
            return;
        }
        self.notes.clear();
        let alloc = self.rt.alloc();
        let folder = reading.asked.folder.as_str();
        self.put(clock_went_back(alloc, self.rt, folder));
        self.put(other_ninja(alloc, self.rt, folder, file));
        self.older = older_file(alloc, self.rt, &reading.manifest, file).unwrap_or(None);
        self.nearest = nearest(alloc, reading).unwrap_or(None);
        if let Ok(folder) = Path::from_str(alloc, folder) {
            self.folder = folder;
        }
    }

    /// Whether a build file may be read once more for notes, where the build was reported so.
    pub fn may_read(&self, report: &Report) -> bool {
        match report {
            Report::Success { started } => self.is_wanted && *started > 0,
            _ => self.is_wanted,
        }
    }

    /// How the wait for the clock ended.
    pub fn waited(&mut self, waited: Result<(), StandingClock>) {
        if let Err(clock) = waited {
            self.put::<ReadError>(Ok(Some(Note::StandingClock(clock))));
        }
    }

    /// The build by this file was reported so.
    pub fn built<W: Write + Drop>(&mut self, host: &mut Host<'_, W>, file: &str, report: &Report) {
        if !self.is_wanted {
            return;
        }
        if let Some(older) = self.older.take() {
            if older.is_still_older(self.rt) {
                self.put::<ReadError>(Ok(Some(Note::Older(older))));
            }
        }
        if let Report::Refused(Refusal::UnknownTarget(_)) = report {
            let nearest = self.nearest.take();
            self.put::<AllocError>(Ok(nearest));
        }
        let alloc = self.rt.alloc();
        let found = explained(alloc, host, file, self.folder.as_str(), report);
        self.put(found);
        if let Some(early) = read_too_early(alloc, host, file, self.folder.as_str()) {
            self.early = early;
        }
    }

    /// Puts a note after the others, if one was found and somebody watches.
    fn put<E: Drop>(&mut self, found: Result<Option<Note>, E>) {
        if let Ok(Some(note)) = found {
            if self.is_wanted {
                let _ = self.notes.push(note);
            }
        }
    }

    /// Tells the notes, a line each.
    pub fn tell<E: Write>(self, err: &mut E) -> io::Result<()> {
        for note in &self.notes {
            writeln!(err, "{note}")?;
        }
        for note in &self.early {
            writeln!(err, "{note}")?;
        }
        err.flush()
    }
}

/// What the first target that no build line names was meant to be. For that one the build is refused.
fn nearest(alloc: Global, reading: &Reading<'_>) -> Result<Option<Note>, AllocError> {
    for target in reading.asked.targets.as_slice() {
        if reading.manifest.number_of(target.as_str()).is_none() {
            return nearest_target(alloc, &reading.manifest, target.as_str());
        }
    }
    Ok(None)
}

/// What helps where a build was reported so, that is found by a second reading.
fn explained<W: Write + Drop>(
    alloc: Global,
    host: &mut Host<'_, W>,
    file: &str,
    folder: &str,
    report: &Report,
) -> Result<Option<Note>, ReadError> {
    match report {
        Report::Refused(Refusal::File(fault)) => Ok(no_build_file(fault)?),
        Report::Refused(Refusal::Cycle(round)) => {
            recorded_input(alloc, host, file, folder, round.as_slice())
        }
        _ => Ok(None),
    }
}
