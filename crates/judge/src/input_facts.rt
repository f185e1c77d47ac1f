//! What is known of the paths that a command reads.

ghost use Rattle.std.specs.Prelude.{[]};
ghost use Rattle.judge.specs.Summaries.{AreInputs, JoinsInputs, TakesInput};

use crate::later::later_of;

/// What is kept of the facts of an edge's inputs, which are taken in one after another.
#[derive(Clone, Copy, Debug, PartialEq, Eq)]
pub struct Inputs {
    pub has_absent: bool,
    /// Whether this build made one anew.
    pub has_changed: bool,
    /// The latest stamp of those that have one.
    pub latest_stamp: Option<u64>,
}

impl Inputs {
    /// No inputs yet.
    pub fn new() -> Inputs
        ensures { AreInputs [] result }
    {
        Inputs {
            has_absent: false,
            has_changed: false,
            latest_stamp: None,
        }
    }

    /// Takes in one input more, a path of the reading set or a recorded input in use: its stamp, `None` where it is
    /// absent, and whether this build made it anew.
    pub fn add(&mut self, stamp: Option<u64>, changed: bool)
        ensures { TakesInput (record { stamp = stamp; changed = changed }) self.old self.new }
    {
        self.has_absent = self.has_absent || stamp.is_none();
        self.has_changed = self.has_changed || changed;
        self.latest_stamp = later_of(self.latest_stamp, stamp);
    }

    /// Takes in all that others were taken in for, in one step.
    pub fn join(&mut self, others: Inputs)
        ensures { JoinsInputs others self.old self.new }
    {
        self.has_absent = self.has_absent || others.has_absent;
        self.has_changed = self.has_changed || others.has_changed;
        self.latest_stamp = later_of(self.latest_stamp, others.latest_stamp);
    }
}
