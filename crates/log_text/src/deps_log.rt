//! What is kept of the deps log.

ghost use Rattle.std.specs.Prelude.{◌≡◌, IfOk, OnOk, OnErr, length, slice_get};
ghost use Rattle.std.specs.Option.{option_map};
ghost use Rattle.model.specs.Records.{deps_in_force};
ghost use Rattle.log_text.specs.declared.form.Version.TheVariants.{Two};
ghost use Rattle.log_text.specs.Kept.{AreDistinct};
ghost use Rattle.log_text.specs.Keeping.{OfKept, KeepsSame, KeepsAlso, IsParsed};
ghost use Rattle.log_text.specs.Found.{IsNamed};
ghost use Rattle.log_text.specs.DepsRecordLine.{IsRecord, forms, reported, Appends};
ghost use Rattle.log_text.specs.DepsLog.{Keeps, compaction, told_found, tolds, record_in};

use crate::deps::Deps;
use crate::deps_record::{head_of, record_line, said_by};
use crate::field::{Field, plain_fields};
use crate::form::{Records, Version};
use crate::kept::{InForce, Kept};
use crate::laws::{in_force_keeps, parts_are_decided};
use crate::stock::Stock;
use crate::tail::Tail;
use model::DepsRecord;
use std::alloc::{AllocError, Global};
use std::marker::Model;

/// Which record of each output is in force. The text of each output and path is kept once.
#[derive(Drop)]
pub struct DepsLog {
    kept: Kept<Deps>,
}

impl Model for DepsLog {
    ghost use Rattle.std.specs.Prelude.{List};
    ghost use Rattle.log_text.specs.Kept.{Table, Saying, IsTableOf};
    ghost use Rattle.log_text.specs.declared.deps.Deps.{Deps};

    ghost Value = { Table Deps };

    ghost view = { λ log. log.kept };

    ghost invariant = { λ log. (all : List (Saying Deps)) × IsTableOf all log.kept };
}

impl Records for DepsLog {
    ghost use Rattle.log_text.specs.DepsRecordLine.{forms};
    ghost use Rattle.log_text.specs.DepsLog.{Keeps, tolds, compaction};
    ghost use Rattle.model.specs.Records.{Told, deps_in_force};

    type Record = DepsRecord;

    ghost forms = { forms };

    ghost Keeps = { Keeps };

    ghost Told = { Told };

    ghost in_force = { deps_in_force };

    ghost told = { tolds };

    ghost compaction = { compaction };

    fn new(alloc: Global) -> DepsLog {
        DepsLog {
            kept: Kept::new(alloc),
        }
    }

    fn first_line(version: Version) -> &'static [u8] {
        match version {
            Version::One => b"nj-deps 1",
            Version::Two => b"nj-deps 2",
        }
    }

    fn put_fields(
        &mut self,
        stock: &Stock<'_>,
        version: Version,
        fields: &[Field<'_>],
    ) -> Result<bool, AllocError> {
        let Some((outputs, start, paths)) = said_by(stock.alloc, version, fields)? else {
            return Ok(false);
        };
        self.put(stock.alloc, outputs, start, paths)?;
        Ok(true)
    }

    fn put_plain(
        &mut self,
        stock: &Stock<'_>,
        version: Version,
        line: &[u8],
    ) -> Result<bool, AllocError> {
        let Some((output, start, count, bytes)) = head_of(version, line) else {
            return Ok(false);
        };
        let Some((paths, rest)) = self.kept.take_numbers(stock.alloc, bytes, count as usize)? else {
            return Ok(false);
        };
        if !rest.is_empty() {
            return Ok(false);
        }
        let outputs = [Field::plain(output)];
        self.kept
            .put(stock.alloc, &outputs, Some(Deps { start, paths }))?;
        Ok(true)
    }

    fn find(&self, output: &str) -> Option<usize> {
        self.kept.find(output)
    }

    fn records(&self) -> u64 {
        self.kept.records()
    }

    fn wants_compaction(&self) -> bool {
        self.kept.wants_compaction()
    }

    fn compacted(&self, alloc: Global) -> Result<Vec<u8>, AllocError> {
        let found = self.kept.in_force(alloc)?;
        let mut text = Vec::from_slice(alloc, DepsLog::first_line(Version::Two))?;
        text.push(b'\n')?;
        for telling in found.as_slice() {
            self.push_record(alloc, &mut text, telling)?;
        }
        Ok(text)
    }

    fn keeps_in_force() {
        in_force_keeps::<DepsRecord>();
    }

    fn are_readable() {
        parts_are_decided();
    }
}

impl DepsLog {
    /// What the text of a log tells, and how it ends. A damaged one tells nothing.
    ///
    /// It takes a time of the order of the text, beside look-ups by a hash whose seed is fixed. The text of an output or path is
    /// copied where it stands for the first time; wherever it stands again, it is compared with a guess, or looked up once.
    pub fn parse(alloc: Global, bytes: &[u8]) -> Result<(DepsLog, Tail), AllocError>
        ensures { IfOk result (λ read. IsParsed forms Keeps bytes.now read.0 read.1) }
    {
        crate::read::parse::<DepsLog>(alloc, bytes)
    }

    /// Puts a record at the end. Where memory is refused, the log stands for the same records as before.
    pub fn apply(&mut self, alloc: Global, added: &DepsRecord) -> Result<(), AllocError>
        requires { IsRecord Two added.now }
        ensures ok { OnOk result (KeepsAlso Keeps added.now self.old self.new) }
        ensures err { OnErr result (KeepsSame Keeps self.old self.new) }
    {
        let outputs = plain_fields(alloc, added.outputs.as_slice())?;
        let paths = plain_fields(alloc, added.paths.as_slice())?;
        self.put(alloc, outputs.as_slice(), added.start, paths.as_slice())
    }

    /// Puts the record of these outputs, this start and these paths at the end.
    fn put(
        &mut self,
        alloc: Global,
        outputs: &[Field<'_>],
        start: u64,
        paths: &[Field<'_>],
    ) -> Result<(), AllocError>
        requires { AreDistinct outputs.now }
        ensures ok { OnOk result (KeepsAlso Keeps (reported outputs.now start paths.now) self.old self.new) }
        ensures err { OnErr result (KeepsSame Keeps self.old self.new) }
    {
        let paths = self.kept.numbers(alloc, paths)?;
        self.kept.put(alloc, outputs, Some(Deps { start, paths }))
    }

    /// What is in force for an output: the start of the command, and the numbers of the paths that it read. It takes no
    /// memory.
    pub fn lookup(&self, output: &str) -> Option<&Deps>
        ensures { OfKept Keeps self.now (λ all. told_found self.now result ≡ deps_in_force all output.now) }
    {
        self.kept.lookup(output)
    }

    /// What the record with this number tells: they are counted from 0. It takes no memory.
    pub fn deps_at(&self, number: usize) -> Option<&Deps>
        ensures { OfKept Keeps self.now (λ all. told_found self.now result ≡ slice_get (tolds all) number) }
    {
        self.kept.at(number)
    }

    /// How many records there are: their numbers are those below.
    pub fn deps_records(&self) -> usize
        ensures { OfKept Keeps self.now (λ all. result ≡ length (tolds all)) }
    {
        self.kept.tellings()
    }

    /// The path with this number. It takes no memory.
    pub fn path(&self, number: u32) -> Option<&str>
        ensures { option_map (λ path. path.now) result ≡ slice_get self.now.outputs number }
    {
        self.kept.text(number)
    }

    /// How many records are in force, each for one of its outputs at least.
    pub fn records_in_force(&self) -> usize
        ensures { OfKept Keeps self.now (λ all. result ≡ length (compaction all)) }
    {
        self.kept.records_in_force()
    }

    /// Writes the line of a record at the end.
    fn push_record(
        &self,
        alloc: Global,
        text: &mut Vec<u8>,
        telling: &InForce<'_, Deps>,
    ) -> Result<(), AllocError>
        requires { IsNamed telling.now }
        ensures { OnOk result (Appends (record_in self.now.outputs telling.now) text.old.items text.new.items) }
    {
        let (outputs, deps) = telling;
        let paths = self.kept.texts(alloc, deps.paths.as_slice())?;
        record_line(text, outputs.as_slice(), deps.start, paths.as_slice())
    }
}
