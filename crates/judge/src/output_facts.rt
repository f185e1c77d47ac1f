//! What is known of the outputs of an edge.

ghost use Rattle.std.specs.Prelude.{◌≡◌, [], is_none, not};
ghost use Rattle.model.specs.Judgement.{has_other_act, is_same_number, start_of};
ghost use Rattle.judge.specs.Summaries.{AreOutputs, TakesOutput};

use crate::later::earlier_of;
use log_text::Done;
use model::Act;
use std::marker::Model;

/// What is known of an output. Contracts see it as the facts of the definition.
#[derive(Drop)]
pub struct OutputFacts<'a> {
    /// Its stamp, `None` where it is absent.
    pub stamp: Option<u64>,
    /// The record in force: the command that made it. `None` where no command is known to have made it.
    pub made: Option<&'a Done>,
    /// The start that its deps record names, `None` where it has no deps record.
    pub deps_start: Option<u64>,
}

impl<'a> Model for OutputFacts<'a> {
    ghost use Rattle.std.specs.Option.{option_map, option_copied};
    ghost use Rattle.model.specs.Judgement.{OutputFacts};
    ghost use Rattle.log_text.specs.BuildLog.{made_of};

    ghost Value = { OutputFacts };

    ghost view = { λ output. record { stamp = output.stamp; made = option_map made_of (option_copied output.made); deps_start = output.deps_start } };
}

impl<'a> OutputFacts<'a> {
    fn stamp(&self) -> Option<u64>
        ensures { result ≡ self.now.stamp }
    {
        self.stamp
    }

    /// The start of the command that made it.
    fn start(&self) -> Option<u64>
        ensures { result ≡ start_of self.now.made }
    {
        Some(self.made?.start)
    }

    fn has_no_record(&self) -> bool
        ensures { result ≡ is_none self.now.made }
    {
        self.made.is_none()
    }

    /// Whether a command of another act made it.
    fn has_other_act(&self, act: &Act) -> bool
        ensures { result ≡ has_other_act act.now self.now.made }
    {
        match self.made {
            Some(done) => done.act != *act,
            None => false,
        }
    }

    /// Whether the deps record, if there is one, is not of the command that made it.
    fn has_other_deps(&self) -> bool
        ensures { result ≡ not (is_same_number (start_of self.now.made) self.now.deps_start) }
    {
        match (self.start(), self.deps_start) {
            (Some(start), Some(deps_start)) => start != deps_start,
            _ => true,
        }
    }
}

/// What is kept of the facts of an edge's outputs, which are taken in one after another.
#[derive(Clone, Copy, Debug, PartialEq, Eq)]
pub struct Outputs {
    pub has_absent: bool,
    /// Whether it is not known which command made one of them.
    pub has_unknown: bool,
    /// Whether a command of another act made one of them.
    pub has_other_act: bool,
    /// Whether the deps record of one, if it has one, is not of the command that made it.
    pub has_other_deps: bool,
    /// The earliest start of the commands that made them.
    pub earliest_start: Option<u64>,
    /// The earliest stamp of those that have one.
    pub earliest_stamp: Option<u64>,
}

impl Outputs {
    /// No outputs yet.
    pub fn new() -> Outputs
        ensures { (act : Act) → AreOutputs act [] result }
    {
        Outputs {
            has_absent: false,
            has_unknown: false,
            has_other_act: false,
            has_other_deps: false,
            earliest_start: None,
            earliest_stamp: None,
        }
    }

    /// Takes in one output more of an edge that does this now.
    pub fn add(&mut self, act: &Act, output: &OutputFacts<'_>)
        ensures { TakesOutput act.now output.now self.old self.new }
    {
        self.has_absent = self.has_absent || output.stamp().is_none();
        self.has_unknown = self.has_unknown || output.has_no_record();
        self.has_other_act = self.has_other_act || output.has_other_act(act);
        self.has_other_deps = self.has_other_deps || output.has_other_deps();
        self.earliest_start = earlier_of(self.earliest_start, output.start());
        self.earliest_stamp = earlier_of(self.earliest_stamp, output.stamp());
    }
}
