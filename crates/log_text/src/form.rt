//! What makes a log: how its records are written in either version, and what is kept of them.

ghost use Rattle.std.specs.Prelude.{◌≡◌, ◌↔◌, [], List, ℕ, Option, IfOk, IsTrue, length};
ghost use Rattle.log_text.specs.declared.form.Version.TheVariants.{Two};
ghost use Rattle.text.specs.Marks.{Lacks};
ghost use Rattle.log_text.specs.Form.{Form, AreNoRecord, IsReadable};
ghost use Rattle.log_text.specs.Text.{IsLogOf};
ghost use Rattle.log_text.specs.Answered.{IfYes, IfNo};
ghost use Rattle.log_text.specs.Keeping.{OfKept, KeepsSame, PutsFields, PutsLine, at_number, IsToCompact};
ghost use Rattle.log_text.specs.Laws.{KeepsInForce};

use crate::field::Field;
use crate::stock::Stock;
use std::alloc::{AllocError, Global};

/// A version of the text of a log. Version 2 is written, both are read.
#[derive(Clone, Copy, Debug, PartialEq, Eq)]
pub enum Version {
    /// Each record is of one output.
    One,
    /// A record is of all outputs of an edge.
    Two,
}

/// What is kept of the records of a log, which are read and put to it one after another.
pub trait Records: Sized + Drop {
    ghost use Rattle.log_text.specs.declared.form.Version.{Version};

    /// A record, as contracts see it.
    type Record;

    /// How records are written.
    ghost forms: { Version → Form Self.Record };

    /// What is kept stands for these records.
    ghost Keeps: { List Self.Record → Self → Type 0 };

    /// What a record may tell of its outputs.
    ghost Told: { Type 0 };

    /// What is in force for an output.
    ghost in_force: { List Self.Record → List ℕ → Option Told };

    /// What is told by the records that tell something, in order: the number of one is its place here, from 0.
    ghost told: { List Self.Record → List Told };

    /// The records in force in the order of the log, each with those of its outputs for which it is in force.
    ghost compaction: { List Self.Record → List Self.Record };

    /// What is kept of no records. It takes no memory.
    fn new(alloc: Global) -> Self
        ensures { Keeps [] result };

    /// The first line, without its line feed.
    fn first_line(version: Version) -> &'static [u8]
        ensures { result.now ≡ (forms version).first };

    /// Puts the record of these fields at the end, if they are one's, and says whether they are. Where they are not, or
    /// memory is refused, nothing is said of what is kept.
    fn put_fields(
        &mut self,
        stock: &Stock<'_>,
        version: Version,
        fields: &[Field<'_>],
    ) -> Result<bool, AllocError>
        ensures put { IfYes result (PutsFields (forms version) Keeps fields.now self.old self.new) }
        ensures none { IfNo result (AreNoRecord (forms version) fields.now) };

    /// Puts the record of a line, which is handed in without its line feed, at the end where it is read in a short way, and
    /// says whether it did. Where it did not, what is kept stands for the same records as before. Where memory is refused,
    /// nothing is said of it.
    fn put_plain(
        &mut self,
        stock: &Stock<'_>,
        version: Version,
        line: &[u8],
    ) -> Result<bool, AllocError>
        requires line_feed { Lacks 10 line.now }
        ensures put { IfYes result (PutsLine (forms version) Keeps line.now self.old self.new) }
        ensures none { IfNo result (KeepsSame Keeps self.old self.new) };

    /// The number of the record in force for an output. It takes no memory.
    fn find(&self, output: &str) -> Option<usize>
        ensures { OfKept Keeps self.now (λ all. at_number (told all) result ≡ in_force all output.now) };

    /// How many records there were.
    fn records(&self) -> u64
        ensures { OfKept Keeps self.now (λ all. result ≡ length all) };

    /// Whether the log is to be compacted before something is appended: where it has at least 100 records, and more than
    /// half of them are not in force.
    fn wants_compaction(&self) -> bool
        ensures { OfKept Keeps self.now (λ all. IsTrue result ↔ IsToCompact all (compaction all)) };

    /// The text of a log, in version 2, with the records in force in their order, each with those of its outputs for
    /// which it is in force, and no others.
    fn compacted(&self, alloc: Global) -> Result<Vec<u8>, AllocError>
        ensures { IfOk result (λ text. OfKept Keeps self.now (λ all. IsLogOf (forms Two) text.items (compaction all))) };

    /// A compaction keeps what is in force. It does nothing: its contract is a law.
    fn keeps_in_force()
        ensures { KeepsInForce in_force compaction };

    /// Texts of both versions are read in one way. It does nothing: its contract is a law.
    fn are_readable()
        ensures { IsReadable forms };
}
