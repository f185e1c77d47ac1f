//! What a site tells of a file beside its stamp.

ghost use Rattle.std.specs.Prelude.{IsTrue, IfOk};
ghost use Rattle.model.specs.Calls.{HasCause, KeepsWait, OnlyLooks};
ghost use Rattle.measure.specs.Measured.{SeesMeasure, SeesRead};

use site::{Site, SiteFault};
use text::Bytes;

/// What stands at a path.
#[derive(Clone, Copy, Debug, PartialEq, Eq)]
pub struct Measure {
    /// When it was written, as `Site::stat` tells it.
    pub stamp: u64,
    /// How many bytes the file holds; nothing where it is a folder.
    pub size: Option<u64>,
    /// When it was put there or changed last, by the clock of the file system. Nobody can set that back, as a stamp can be.
    pub placed: u64,
}

/// A site that tells how long a file is.
pub trait Measured: Site {
    /// The stamp and the length of the file at the path, and when it was put there, in one look, or nothing where there is no file. A site
    /// that tells its files has no folders, and puts a file there when it writes it.
    fn measure(&mut self, path: &str) -> Result<Option<Measure>, SiteFault>
        ensures looks { OnlyLooks Self.tells (Self.world self.old) (Self.world self.new) }
        ensures cause { HasCause (Self.world self.old) (Self.world self.new) result }
        ensures waits { KeepsWait (Self.world self.old) (Self.world self.new) }
        ensures measure { IsTrue Self.tells → IfOk result (SeesMeasure path.now (Self.world self.old) (Self.world self.new)) };

    /// What the file at the path holds, and its measure, in one look, or nothing where there is no file.
    fn read_measured(&mut self, path: &str) -> Result<Option<(Bytes, Measure)>, SiteFault>
        ensures looks { OnlyLooks Self.tells (Self.world self.old) (Self.world self.new) }
        ensures cause { HasCause (Self.world self.old) (Self.world self.new) result }
        ensures waits { KeepsWait (Self.world self.old) (Self.world self.new) }
        ensures content { IsTrue Self.tells → IfOk result (SeesRead path.now (Self.world self.old) (Self.world self.new)) };

    /// What time it is, in the numbers of stamps; 0 where that is not known. No clause says that it is right: a clock is not told.
    fn now(&self) -> u64;
}
