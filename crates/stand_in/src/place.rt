//! Where the stand-in works: a site on which generators run between builds.

ghost use Rattle.std.specs.Prelude.{◌≡◌};
ghost use Rattle.model.specs.Calls.{HasCause, KeepsWait, OnlyLooks};

use host::Host;
use measure::Measured;
use model::{Act, SiteFault};
use nj_run::Alone;
use seen::{Beginning, Seen, looks_go_on};
use std::io::Write;

/// A site in whose folder others may build too, and on which the program does between two builds what a user would do there.
pub trait Place: Alone {
    /// Runs the command of an act in the user's place, alone, with the program's own input and output, and with its response file. Answers
    /// whether it ended well. To the site it is others that write: it is none of its starts and finishes.
    fn run_generator(&mut self, act: &Act) -> Result<bool, SiteFault>
        ensures looks { OnlyLooks Self.tells (Self.world self.old) (Self.world self.new) }
        ensures cause { HasCause (Self.world self.old) (Self.world self.new) result }
        ensures waits { KeepsWait (Self.world self.old) (Self.world self.new) };

    /// Whether a command that was started has not ended, also if it was not taken in, and the machine has more to do than this limit. Of
    /// neither contracts tell anything.
    fn should_wait(&mut self, limit: f64) -> bool
        ensures { Self.world self.new ≡ Self.world self.old };
}

impl<'a, W: Write> Place for Host<'a, W> {
    /// It has the terminal to itself: rows are taken away before, and the line that passed stays.
    fn run_generator(&mut self, act: &Act) -> Result<bool, SiteFault> {
        self.finish_screen();
        self.run_for_user(act)
    }

    fn should_wait(&mut self, limit: f64) -> bool {
        self.is_overloaded(limit)
    }
}

impl<S: Place + Measured, B: Beginning> Place for Seen<S, B> {
    fn run_generator(&mut self, act: &Act) -> Result<bool, SiteFault> {
        looks_go_on();
        let retold = &mut self.retold;
        retold.site.run_generator(act)
    }

    fn should_wait(&mut self, limit: f64) -> bool {
        let retold = &mut self.retold;
        retold.site.should_wait(limit)
    }
}
