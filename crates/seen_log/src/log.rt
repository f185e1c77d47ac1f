//! What is kept of the log.

ghost use Rattle.std.specs.Prelude.{◌≡◌, ◌<◌, ◌++◌, [], IfOk, IfSome, OnOk, OnErr, length};
ghost use Rattle.log_text.specs.declared.form.Version.TheVariants.{Two};
ghost use Rattle.log_text.specs.Answered.{IfFound, IfYes};
ghost use Rattle.log_text.specs.Keeping.{IsParsed, KeepsAlso, KeepsLines, KeepsSame, OfKept};
ghost use Rattle.log_text.specs.Text.{header};
ghost use Rattle.seen_log.specs.Record.{forms, noting};
ghost use Rattle.seen_log.specs.Log.{counts_of, greatest_of, noted_in_force, to_pass};

use crate::note::{Kind, Last, Note, Noted};
use crate::record::{last_of, line_in, note_line, plain_by, said_by};
use crate::room::arena;
use bumpalo::Bump;
use indexmap::IndexMap;
use log_text::{Field, Records, Stock, Tail, Version, fields, parts_are_decided};
use std::alloc::{AllocError, Global};
use std::str::from_utf8;
use text::cut;

/// How long a line is at least, by and large: room is made at once for as many records as a text of such lines holds.
const LINE: usize = 64;

/// What is noted of each path, which is kept once.
#[derive(Drop)]
pub struct Log {
    pub last: IndexMap<&'static str, Last>,
    /// Where the texts of the paths are, once there are some.
    arena: Option<&'static Bump>,
    /// How many records there were.
    pub records: usize,
    /// What the number of a build is to pass.
    pub greatest: u64,
}

impl Records for Log {
    ghost use Rattle.seen_log.specs.Record.{forms};
    ghost use Rattle.seen_log.specs.Log.{compaction, noted_in_force, noteds};
    ghost use Rattle.seen_log.specs.Keeping.{Keeps};
    ghost use Rattle.seen_log.specs.declared.note.Noted.{Noted};

    type Record = Note;

    ghost forms = { forms };

    ghost Keeps = { Keeps };

    ghost Told = { Noted };

    ghost in_force = { noted_in_force };

    ghost told = { noteds };

    ghost compaction = { compaction };

    fn new(alloc: Global) -> Log {
        Log {
            last: IndexMap::new(alloc),
            arena: None,
            records: 0,
            greatest: 0,
        }
    }

    fn first_line(version: Version) -> &'static [u8] {
        match version {
            Version::One => b"nj-seen 1",
            Version::Two => b"nj-seen 2",
        }
    }

    fn put_fields(
        &mut self,
        stock: &Stock<'_>,
        _version: Version,
        fields: &[Field<'_>],
    ) -> Result<bool, AllocError> {
        let Some((path, noted)) = said_by(fields) else {
            return Ok(false);
        };
        self.note(stock.alloc, path, noted)?;
        Ok(true)
    }

    fn put_plain(
        &mut self,
        stock: &Stock<'_>,
        _version: Version,
        line: &[u8],
    ) -> Result<bool, AllocError> {
        let Some((path, noted)) = plain_by(line) else {
            return Ok(false);
        };
        self.note(stock.alloc, path, noted)?;
        Ok(true)
    }

    fn find(&self, output: &str) -> Option<usize> {
        match self.last(output) {
            Some(last) => Some(last.place),
            None => None,
        }
    }

    fn records(&self) -> u64 {
        self.records as u64
    }

    fn wants_compaction(&self) -> bool {
        let in_force = self.last.len();
        self.records >= 100 && in_force < self.records.saturating_sub(in_force)
    }

    fn compacted(&self, alloc: Global) -> Result<Vec<u8>, AllocError> {
        let mut text = Vec::from_slice(alloc, Log::first_line(Version::Two))?;
        text.push(b'\n')?;
        for place in 0..self.last.len() {
            self.push_entry(place, &mut text)?;
        }
        Ok(text)
    }

    fn keeps_in_force() {}

    fn are_readable() {
        parts_are_decided();
    }
}

impl Log {
    ghost use Rattle.seen_log.specs.Keeping.{Keeps, KeepsAll, IsLast, LogGrows, TakesLine, last_of};

    /// What the text of a log tells, and how it ends. A damaged one tells nothing.
    ///
    /// Each byte is looked at a few times, and each path is looked up once. The text of a whole log in version 2 is copied at once, and read from
    /// front to back. Any other is read line by line, once it is seen to be no such text, and each path is copied.
    pub fn parse(alloc: Global, bytes: &[u8]) -> Result<(Log, Tail), AllocError>
        ensures { IfOk result (λ read. IsParsed forms Keeps bytes.now read.0 read.1) }
    {
        let mut log = Log::new(alloc);
        if log.take_all(alloc, bytes)? {
            return Ok((log, Tail::Whole));
        }
        log_text::parse::<Log>(alloc, bytes)
    }

    /// Puts the records of a text at the end if it is their whole log in version 2, and says whether it is. Where it is not, or memory is refused,
    /// nothing is said of what is kept.
    fn take_all(&mut self, alloc: Global, bytes: &[u8]) -> Result<bool, AllocError>
        requires { Keeps [] self.old }
        ensures { IfYes result (KeepsAll bytes.now self.new) }
    {
        let Some(lines) = behind_first(bytes) else {
            return Ok(false);
        };
        let Ok(text) = from_utf8(lines) else {
            return Ok(false);
        };
        let arena = self.arena(alloc)?;
        let text = arena.try_alloc_str(text)?;
        self.make_room(text.len());
        let is_whole = self.take_lines(alloc, text)?;
        Ok(is_whole)
    }

    /// Room for as many records as a text of this length may hold. A refusal is let pass, since each record asks again.
    fn make_room(&mut self, len: usize)
        ensures { KeepsSame Keeps self.old self.new }
    {
        match self.last.reserve(len / LINE) {
            Ok(()) | Err(_) => {}
        }
    }

    /// Puts the records of these lines at the end, and says whether each is one's. Where one is not, or memory is refused, nothing is said of what
    /// is kept.
    fn take_lines(&mut self, alloc: Global, lines: &'static str) -> Result<bool, AllocError>
        requires { Keeps [] self.old }
        ensures { IfYes result (KeepsLines (forms Two) Keeps lines.now self.new) }
    {
        let mut rest = lines;
        'lines: while !rest.is_empty() {
            let Some(after) = self.take_line(alloc, rest)? else {
                return Ok(false);
            };
            rest = after;
        }
        Ok(true)
    }

    /// Puts the record of the line in front at the end, if it is one's, and gives what stands behind it. Where it is not, or memory is refused,
    /// nothing is said of what is kept.
    #[inline(always)]
    fn take_line(
        &mut self,
        alloc: Global,
        text: &'static str,
    ) -> Result<Option<&'static str>, AllocError>
        ensures { IfFound result (λ after. TakesLine text.now after.now self.old self.new) }
    {
        if let Some((path, noted, after)) = line_in(text) {
            self.note_in(path, noted)?;
            return Ok(Some(after));
        }
        let found = self.take_escaped(alloc, text)?;
        Ok(found)
    }

    /// The same, where a byte of the path may be written as two.
    #[inline(never)]
    fn take_escaped(
        &mut self,
        alloc: Global,
        text: &'static str,
    ) -> Result<Option<&'static str>, AllocError>
        ensures { IfFound result (λ after. TakesLine text.now after.now self.old self.new) }
    {
        let Some((line, left)) = cut(text.as_bytes(), b'\n') else {
            return Ok(None);
        };
        let Some(after) = last_of(text, left.len()) else {
            return Ok(None);
        };
        let Some(fields) = fields(alloc, line)? else {
            return Ok(None);
        };
        let Some((path, noted)) = said_by(fields.as_slice()) else {
            return Ok(None);
        };
        self.note(alloc, path, noted)?;
        Ok(Some(after))
    }

    /// Puts at the end that this is noted of the path. Where memory is refused, the log stands for the same records as before.
    pub fn note(&mut self, alloc: Global, path: &str, noted: Noted) -> Result<(), AllocError>
        ensures ok { OnOk result (KeepsAlso Keeps (noting path.now noted) self.old self.new) }
        ensures err { OnErr result (KeepsSame Keeps self.old self.new) }
    {
        let arena = self.arena(alloc)?;
        let path = arena.try_alloc_str(path)?;
        self.note_in(path, noted)
    }

    /// The same, of a path whose text stays.
    #[inline(always)]
    fn note_in(&mut self, path: &'static str, noted: Noted) -> Result<(), AllocError>
        ensures ok { OnOk result (KeepsAlso Keeps (noting path.now noted) self.old self.new) }
        ensures err { OnErr result (KeepsSame Keeps self.old self.new) }
    {
        let place = self.records;
        let records = place.checked_add(1).ok_or(AllocError)?;
        self.last.insert(path, Last { place, noted })?;
        self.records = records;
        self.greatest = self.greatest.max(to_pass(noted));
        Ok(())
    }

    /// Where the texts of the paths are.
    fn arena(&mut self, alloc: Global) -> Result<&'static Bump, AllocError>
        ensures { KeepsSame Keeps self.old self.new }
    {
        if let Some(arena) = self.arena {
            return Ok(arena);
        }
        let arena = arena(alloc)?;
        self.arena = Some(arena);
        Ok(arena)
    }

    /// What is in force for a path, and the place of its record among all. It takes no memory.
    #[inline(always)]
    pub fn last(&self, path: &str) -> Option<Last>
        ensures kept { OfKept Keeps self.now (λ all. IsLast all path.now result) }
        ensures is { result ≡ last_of self.now path.now }
    {
        self.last.get(path).copied()
    }

    /// What is noted of a path. It takes no memory.
    pub fn lookup(&self, path: &str) -> Option<Noted>
        ensures { OfKept Keeps self.now (λ all. result ≡ noted_in_force all path.now) }
    {
        match self.last(path) {
            Some(last) => Some(last.noted),
            None => None,
        }
    }

    /// The greatest number that the number of a build is to pass, of what is noted of any path, or was; 0 where nothing is.
    pub fn greatest(&self) -> u64
        ensures { OfKept Keeps self.now (λ all. result ≡ greatest_of all) }
    {
        self.greatest
    }

    /// Writes the line of the entry at this place at the end, if there is one.
    fn push_entry(&self, place: usize, text: &mut Vec<u8>) -> Result<(), AllocError>
        requires { place < length self.now.last.entries }
        ensures { OnOk result (LogGrows self.now place text.old.items text.new.items) }
    {
        match self.last.get_index(place) {
            Some((path, last)) => note_line(text, *path, last.noted),
            None => Ok(()),
        }
    }
}

/// What stands behind the first line of a log in version 2.
fn behind_first(bytes: &[u8]) -> Option<&[u8]>
    ensures { IfSome result (λ lines. bytes.now ≡ header (forms Two) ++ lines.now) }
{
    bytes.strip_prefix(b"nj-seen 2\n")
}

/// The stamp that counts for what is as noted.
pub fn counts_of(noted: Noted) -> u64
    ensures { result ≡ counts_of noted }
{
    if noted.number == 0 {
        noted.stamp
    } else {
        noted.number
    }
}

/// What the number of a build is to pass, of what is noted.
fn to_pass(noted: Noted) -> u64
    ensures { result ≡ to_pass noted }
{
    match noted.kind {
        Kind::Made => counts_of(noted),
        Kind::Source | Kind::Turned => noted.number,
    }
}
