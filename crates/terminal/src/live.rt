//! What is known and drawn of a build that runs.

ghost use Rattle.std.specs.Prelude.{◌≡◌, [], IfOk, IfSome, IsNone, OnOk, unwrap_or, vec_items};
ghost use Rattle.std.specs.Option.{option_map};
ghost use Rattle.terminal.specs.Screen.{Shows};
ghost use Rattle.terminal.specs.Shown.{ShowsText, drawn_of, last_line, whole_line};
ghost use Rattle.terminal.specs.Texts.{IsColoured, IsLine};

use crate::counts::total_in;
use crate::drawing::{as_it_is, nothing, shown};
use crate::look::Look;
use crate::names::Names;
use crate::rows::{Known, rows};
use crate::stays::{coloured, passing};
use crate::work::Work;
use std::alloc::{AllocError, Global};

/// The rows are not drawn anew before so many milliseconds have passed.
const PAUSE: u64 = 100;

/// What is known of a build that runs, and which rows are drawn of it. Times are milliseconds, of a clock that does not go back. Each step
/// gives the bytes that are to be written, by one write; none where nothing is to be.
#[derive(Drop)]
pub struct Live {
    alloc: Global,
    look: Look,
    /// The pattern by which lines are made.
    pattern: Vec<u8>,
    names: Names,
    work: Work,
    /// The line that passes, without its end; empty where there is none.
    line: Vec<u8>,
    /// How many commands there are, as the last line told it.
    total: Option<u64>,
    /// The job of the console command that runs, if one does.
    console: Option<usize>,
    /// The rows that are drawn. `None` while none may be: a console command has the terminal, or it is open where the cursor stands.
    area: Option<Vec<u8>>,
    /// When it was looked last whether the rows are to be drawn anew.
    looked: u64,
}

impl Live {
    /// Nothing runs and nothing is drawn, at this time. Lines are made by the pattern.
    pub fn new(alloc: Global, look: Look, pattern: &str, now: u64) -> Result<Live, AllocError>
        ensures { IfOk result (λ live. drawn_of live ≡ []) }
    {
        Ok(Live {
            alloc,
            look,
            pattern: Vec::from_slice(alloc, pattern.as_bytes())?,
            names: Names::new(alloc),
            work: Work::new(alloc),
            line: Vec::new(alloc),
            total: None,
            console: None,
            area: Some(Vec::new(alloc)),
            looked: now,
        })
    }

    /// From now on jobs have these names.
    pub fn take_names(&mut self, names: Names)
        ensures { self.new.area ≡ self.old.area }
    {
        self.names = names;
    }

    /// The command of a job was started, not at the terminal.
    pub fn start(&mut self, job: usize, now: u64) -> Result<(), AllocError>
        ensures { self.new.area ≡ self.old.area }
    {
        self.work.start(job, now)
    }

    /// A console command is about to be started, or was: from now on nothing is drawn until it has ended and a text is shown behind it. The
    /// line that passed stays.
    pub fn hold(&mut self, job: usize, now: u64) -> Result<Vec<u8>, AllocError>
        ensures shows { IfOk result (λ bytes. Shows (drawn_of self.old) bytes.items (last_line self.old) (drawn_of self.new)) }
        ensures none { OnOk result (IsNone self.new.area) }
    {
        let left = self.finish()?;
        self.area = None;
        self.console = Some(job);
        self.work.start(job, now)?;
        Ok(left)
    }

    /// The command of a job has ended.
    pub fn end(&mut self, job: usize, now: u64)
        ensures { self.new.area ≡ self.old.area }
    {
        self.work.end(job, now);
        if self.console == Some(job) {
            self.console = None;
        }
    }

    /// Whether it is time to look whether the rows are to be drawn anew.
    pub fn is_due(&self, now: u64) -> bool {
        self.area.is_some() && now.saturating_sub(self.looked) >= PAUSE
    }

    /// Time has passed. The rows are drawn anew where it is time, and where they are not what they were.
    pub fn pass(&mut self, now: u64) -> Result<Vec<u8>, AllocError>
        ensures shows { IfOk result (λ bytes. Shows (drawn_of self.old) bytes.items [] (drawn_of self.new)) }
        ensures line { self.new.line ≡ self.old.line }
    {
        if !self.is_due(now) {
            return Ok(nothing(self.alloc));
        }
        self.looked = now;
        let rows = rows(self.alloc, self.known(), now)?;
        self.redraw(rows)
    }

    /// What is known of the build.
    fn known(&self) -> Known<'_> {
        Known {
            line: self.line.as_slice(),
            work: &self.work,
            names: &self.names,
            total: self.total,
        }
    }

    /// Draws these rows, where they are not what is drawn and rows may be drawn.
    fn redraw(&mut self, rows: Vec<u8>) -> Result<Vec<u8>, AllocError>
        ensures shows { IfOk result (λ bytes. Shows (drawn_of self.old) bytes.items [] (drawn_of self.new)) }
        ensures line { self.new.line ≡ self.old.line }
    {
        let Some(area) = &self.area else {
            return Ok(nothing(self.alloc));
        };
        if area.as_slice() == rows.as_slice() {
            return Ok(nothing(self.alloc));
        }
        let bytes = shown(self.alloc, area.as_slice(), b"", rows.as_slice())?;
        self.area = Some(rows);
        Ok(bytes)
    }

    /// Whether something is written at once where this text is shown, or rows may be drawn again.
    pub fn writes(&self, text: &[u8], now: u64) -> bool {
        self.area.is_none() || self.is_due(now) || self.passing(text).is_none()
    }

    /// A text is shown. Where it is a line that may pass, it takes the place of the one before. If not, it stays, in the place of the line
    /// that passed. `may_draw` says whether rows may be drawn again, where none might be.
    pub fn show(&mut self, text: &[u8], now: u64, may_draw: bool) -> Result<Vec<u8>, AllocError>
        ensures { IfOk result (λ bytes. ShowsText text.now bytes.items self.old self.new) }
    {
        if self.area.is_none() {
            let bytes = self.show_as_it_is(text, may_draw)?;
            return Ok(bytes);
        }
        match self.passing(text) {
            Some(line) => {
                self.take_line(line)?;
                let bytes = self.pass(now)?;
                Ok(bytes)
            }
            None => {
                let bytes = self.show_staying(text, now)?;
                Ok(bytes)
            }
        }
    }

    /// The line of a text that passes, if it is one and lines may pass.
    fn passing<'t>(&self, text: &'t [u8]) -> Option<&'t [u8]>
        ensures { IfSome result (λ line. IsLine text.now line.now) }
    {
        if self.look.keeps_lines {
            return None;
        }
        passing(text)
    }

    /// A text is shown where no rows may be drawn. Behind a console command they may be again.
    fn show_as_it_is(&mut self, text: &[u8], may_draw: bool) -> Result<Vec<u8>, AllocError>
        requires { IsNone self.old.area }
        ensures { IfOk result (λ bytes. Shows (drawn_of self.old) bytes.items text.now (drawn_of self.new)) }
    {
        let bytes = as_it_is(self.alloc, text)?;
        self.area = self.area_behind(may_draw);
        Ok(bytes)
    }

    /// The rows that are drawn behind a text that was shown as it is: none, and none may be where a console command runs.
    fn area_behind(&self, may_draw: bool) -> Option<Vec<u8>>
        ensures { unwrap_or (option_map vec_items result) [] ≡ [] }
    {
        if may_draw && self.console.is_none() {
            return Some(Vec::new(self.alloc));
        }
        None
    }

    /// A line passes from now on, in the place of the one before.
    fn take_line(&mut self, line: &[u8]) -> Result<(), AllocError>
        ensures area { self.new.area ≡ self.old.area }
        ensures line { OnOk result (self.new.line.items ≡ line.now) }
    {
        self.read_total(line);
        self.line.clear();
        self.line.extend_from_slice(line)?;
        Ok(())
    }

    /// Reads off a line how many commands there are, where it can be read.
    fn read_total(&mut self, line: &[u8])
        ensures area { self.new.area ≡ self.old.area }
        ensures line { self.new.line ≡ self.old.line }
    {
        if let Some(total) = total_in(self.pattern.as_slice(), line) {
            self.total = Some(total);
        }
    }

    /// A text stays, in the place of the line that passed. The rows come back with it where it is time, else with the next drawing.
    fn show_staying(&mut self, text: &[u8], now: u64) -> Result<Vec<u8>, AllocError>
        ensures { IfOk result (λ bytes. Shows (drawn_of self.old) bytes.items text.now (drawn_of self.new)) }
    {
        self.read_total(first_line(text));
        self.line.clear();
        let rows = self.rows_if_due(now)?;
        let Some(area) = &self.area else {
            return as_it_is(self.alloc, text);
        };
        let bytes = shown(self.alloc, area.as_slice(), text, rows.as_slice())?;
        self.area = Some(rows);
        Ok(bytes)
    }

    /// The rows to be drawn, where it is time; else none.
    fn rows_if_due(&mut self, now: u64) -> Result<Vec<u8>, AllocError>
        ensures { self.new.area ≡ self.old.area }
    {
        if !self.is_due(now) {
            return Ok(Vec::new(self.alloc));
        }
        self.looked = now;
        rows(self.alloc, self.known(), now)
    }

    /// Takes the rows away, until they are drawn again. To be called before others write to the terminal.
    pub fn clear(&mut self) -> Result<Vec<u8>, AllocError>
        ensures shows { IfOk result (λ bytes. Shows (drawn_of self.old) bytes.items [] (drawn_of self.new)) }
        ensures none { OnOk result (drawn_of self.new ≡ []) }
        ensures line { self.new.line ≡ self.old.line }
    {
        let Some(area) = &self.area else {
            return Ok(nothing(self.alloc));
        };
        let bytes = shown(self.alloc, area.as_slice(), b"", b"")?;
        self.area = Some(Vec::new(self.alloc));
        Ok(bytes)
    }

    /// Takes the rows away; the line that passed stays, whole. To be called at the end.
    pub fn finish(&mut self) -> Result<Vec<u8>, AllocError>
        ensures shows { IfOk result (λ bytes. Shows (drawn_of self.old) bytes.items (last_line self.old) (drawn_of self.new)) }
        ensures none { OnOk result (drawn_of self.new ≡ []) }
    {
        let stays = whole_line(self.alloc, self.line.as_slice())?;
        self.line.clear();
        let Some(area) = &self.area else {
            return Ok(nothing(self.alloc));
        };
        let bytes = shown(self.alloc, area.as_slice(), stays.as_slice(), b"")?;
        self.area = Some(Vec::new(self.alloc));
        Ok(bytes)
    }

    /// Somebody else has the terminal: the rows are left where they are, and none are drawn before the next text.
    pub fn forget(&mut self)
        ensures { IsNone self.new.area }
    {
        self.area = None;
        self.line.clear();
    }

    /// Others may have written to the terminal: rows that are drawn are left where they are, and the next ones come below.
    pub fn leave_rows(&mut self) {
        if self.area.is_some() {
            self.area = Some(Vec::new(self.alloc));
        }
    }

    /// The line that tells of a failed output.
    pub fn failure(&self, output: &str) -> Result<Vec<u8>, AllocError> {
        let line = format!(in self.alloc; "FAILED: {output}\n")?;
        self.coloured(line.as_bytes())
    }

    /// The text as it is to be shown: with failures in red, where colours are wanted.
    pub fn coloured(&self, text: &[u8]) -> Result<Vec<u8>, AllocError>
        ensures { IfOk result (λ coloured. IsColoured text.now coloured.items) }
    {
        if self.look.colours {
            return coloured(self.alloc, text);
        }
        let same = Vec::from_slice(self.alloc, text)?;
        Ok(same)
    }
}

/// A line that stays, with its end; nothing where it is empty.
fn whole_line(alloc: Global, line: &[u8]) -> Result<Vec<u8>, AllocError>
    ensures { IfOk result (λ text. text.items ≡ whole_line line.now) }
{
    let mut text = Vec::from_slice(alloc, line)?;
    if !line.is_empty() {
        text.push(b'\n')?;
    }
    Ok(text)
}

/// The first line of a text, without its end.
fn first_line(text: &[u8]) -> &[u8] {
    let end = text.iter().take_while(|byte| **byte != b'\n').count();
    match text.split_at_checked(end) {
        Some((line, _)) => line,
        None => text,
    }
}
