//! What is kept of the build log.

ghost use Rattle.std.specs.Prelude.{◌≡◌, List, IfOk, OnOk, OnErr, length, slice_get};
ghost use Rattle.model.specs.Records.{in_force};
ghost use Rattle.log_text.specs.declared.form.Version.TheVariants.{Two};
ghost use Rattle.log_text.specs.Kept.{IsTableOf, AreDistinct, outputs_left};
ghost use Rattle.log_text.specs.Keeping.{OfKept, OfTable, KeepsSame, KeepsAlso, IsParsed};
ghost use Rattle.log_text.specs.Found.{texts_in};
ghost use Rattle.log_text.specs.Written.{IsWritten};
ghost use Rattle.log_text.specs.BuildRecord.{IsRecord, forms};
ghost use Rattle.log_text.specs.BuildLog.{Keeps, compaction, made_in, makings};

use crate::build_record::{done_line, said_by};
use crate::done::Done;
use crate::field::{Field, plain_fields};
use crate::form::{Records, Version};
use crate::kept::Kept;
use crate::one_output::Last;
use crate::stock::Stock;
use crate::tail::Tail;
use crate::two_outputs::put_front;
use model::Record;
use std::alloc::{AllocError, Global};
use std::marker::Model;
use text::Path;

/// Which record of each output is in force.
#[derive(Drop)]
pub struct BuildLog {
    kept: Kept<Done>,
    last: Last,
}

impl Model for BuildLog {
    ghost use Rattle.std.specs.Prelude.{List};
    ghost use Rattle.log_text.specs.Kept.{Table, Saying, IsTableOf};
    ghost use Rattle.log_text.specs.declared.done.Done.{Done};

    ghost Value = { Table Done };

    ghost view = { λ log. log.kept };

    ghost invariant = { λ log. (all : List (Saying Done)) × IsTableOf all log.kept };
}

impl Records for BuildLog {
    ghost use Rattle.log_text.specs.BuildRecord.{forms};
    ghost use Rattle.log_text.specs.BuildLog.{Keeps, makings, compaction};
    ghost use Rattle.model.specs.Records.{Made, in_force};

    type Record = Record;

    ghost forms = { forms };

    ghost Keeps = { Keeps };

    ghost Told = { Made };

    ghost in_force = { in_force };

    ghost told = { makings };

    ghost compaction = { compaction };

    fn new(alloc: Global) -> BuildLog {
        BuildLog {
            kept: Kept::new(alloc),
            last: Last::new(),
        }
    }

    fn first_line(version: Version) -> &'static [u8] {
        match version {
            Version::One => b"nj-log 1",
            Version::Two => b"nj-log 2",
        }
    }

    fn put_fields(
        &mut self,
        stock: &Stock<'_>,
        version: Version,
        fields: &[Field<'_>],
    ) -> Result<bool, AllocError> {
        let Some((outputs, said)) = said_by(stock, version, fields)? else {
            return Ok(false);
        };
        self.kept.put(stock.alloc, outputs, said)?;
        Ok(true)
    }

    fn put_plain(
        &mut self,
        stock: &Stock<'_>,
        version: Version,
        line: &[u8],
    ) -> Result<bool, AllocError> {
        let is_put = put_front(&mut self.kept, &mut self.last, stock, version, line)?;
        Ok(is_put)
    }

    fn find(&self, output: &str) -> Option<usize> {
        self.kept.find(output)
    }

    fn records(&self) -> u64 {
        self.kept.records()
    }

    fn wants_compaction(&self) -> bool {
        self.kept.wants_compaction()
    }

    fn compacted(&self, alloc: Global) -> Result<Vec<u8>, AllocError> {
        let mut text = Vec::from_slice(alloc, BuildLog::first_line(Version::Two))?;
        text.push(b'\n')?;
        for number in 0..self.kept.tellings() {
            self.push_in_force(alloc, &mut text, number)?;
        }
        Ok(text)
    }

    fn keeps_in_force() {}

    fn are_readable() {}
}

impl BuildLog {
    /// What the text of a log tells, and how it ends. A damaged one tells nothing.
    ///
    /// Each byte is looked at a few times, and each output is looked up once, a new one twice. An output is copied once, and each text of
    /// an act once.
    pub fn parse(alloc: Global, bytes: &[u8]) -> Result<(BuildLog, Tail), AllocError>
        ensures { IfOk result (λ read. IsParsed forms Keeps bytes.now read.0 read.1) }
    {
        crate::read::parse::<BuildLog>(alloc, bytes)
    }

    /// Puts a record at the end. Where memory is refused, the log stands for the same records as before.
    pub fn apply(&mut self, alloc: Global, added: Record) -> Result<(), AllocError>
        requires { IsRecord Two added }
        ensures ok { OnOk result (KeepsAlso Keeps added self.old self.new) }
        ensures err { OnErr result (KeepsSame Keeps self.old self.new) }
    {
        match added {
            Record::Begun { outputs } => self.put(alloc, outputs.as_slice(), None),
            Record::Done {
                outputs,
                start,
                act,
            } => self.put(alloc, outputs.as_slice(), Some(Done { start, act })),
        }
    }

    fn put(&mut self, alloc: Global, outputs: &[Path], said: Option<Done>) -> Result<(), AllocError>
        requires { AreDistinct outputs.now }
        ensures ok { OnOk result (KeepsAlso IsTableOf (outputs.now, said) self.old self.new) }
        ensures err { OnErr result (KeepsSame IsTableOf self.old self.new) }
    {
        let fields = plain_fields(alloc, outputs)?;
        self.kept.put(alloc, fields.as_slice(), said)
    }

    /// The record in force for an output. It takes no memory.
    pub fn lookup(&self, output: &str) -> Option<&Done>
        ensures { OfKept Keeps self.now (λ all. made_in result ≡ in_force all output.now) }
    {
        self.kept.lookup(output)
    }

    /// What the done record with this number tells: they are counted from 0. It takes no memory.
    pub fn done_at(&self, number: usize) -> Option<&Done>
        ensures { OfKept Keeps self.now (λ all. made_in result ≡ slice_get (makings all) number) }
    {
        self.kept.at(number)
    }

    /// How many done records there are: their numbers are those below.
    pub fn done_records(&self) -> usize
        ensures { OfKept Keeps self.now (λ all. result ≡ length (makings all)) }
    {
        self.kept.tellings()
    }

    /// The outputs for which the done record with this number is in force.
    pub fn outputs_at(&self, alloc: Global, number: usize) -> Result<Vec<&str>, AllocError>
        ensures { IfOk result (λ outputs. OfTable self.now (λ all. texts_in outputs.items ≡ outputs_left all number)) }
    {
        self.kept.outputs_in_force(alloc, number)
    }

    /// How many records are in force, each for one of its outputs at least.
    pub fn records_in_force(&self) -> usize
        ensures { OfKept Keeps self.now (λ all. result ≡ length (compaction all)) }
    {
        self.kept.records_in_force()
    }

    /// Writes the line of the done record with this number, with the outputs for which it is in force, at the end; none
    /// where it is in force for none.
    fn push_in_force(
        &self,
        alloc: Global,
        text: &mut Vec<u8>,
        number: usize,
    ) -> Result<(), AllocError>
        ensures { OnOk result (OfTable self.now (λ all. IsWritten all number text.old.items text.new.items)) }
    {
        let outputs = self.kept.outputs_in_force(alloc, number)?;
        match self.kept.at(number) {
            Some(done) if !outputs.is_empty() => done_line(text, outputs.as_slice(), done),
            _ => Ok(()),
        }
    }
}
