//! The rests between two rounds of asking whether a command has ended.

ghost use Rattle.std.specs.Prelude.{◌<◌, ◌≤◌};

use std::thread;
use std::time::Duration;

/// The longest rest in the first seconds of a wait, in microseconds.
const LONGEST: u64 = 5_000;

/// The longest one after them.
const LONGEST_LATER: u64 = 20_000;

/// When they are over.
const LATER: u64 = 2_000_000;

/// After so long a time it is told that nothing has ended, and again.
const LONG: u64 = 10_000_000;

/// The least rest for each command that was asked, where many are.
const FOR_EACH: u64 = 19;

/// The rests of a wait, in microseconds: they grow with the time waited, from one microsecond on.
#[derive(Clone, Copy)]
pub struct Rests {
    /// How long each is at least.
    least: u64,
    next: u64,
    /// How long it rested in all.
    rested: u64,
    /// How long it rested since it was told last that nothing has ended.
    untold: u64,
}

impl Rests {
    /// Those of a wait that begins, where so many commands are asked in each round, if many run.
    pub fn new(asked: usize) -> Rests {
        Rests {
            least: (asked as u64).saturating_mul(FOR_EACH),
            next: 1,
            rested: 0,
            untold: 0,
        }
    }

    /// Rests, and answers whether it is to be told that nothing has ended for long: after ten seconds, and each ten seconds again.
    pub fn rest(&mut self, rt: &HostRuntime) -> bool {
        let rest = self.next.max(self.least);
        thread::sleep(rt, Duration::from_micros(rest));
        self.rested = self.rested.saturating_add(rest);
        self.next = longer(self.next, self.rested);
        self.untold = self.untold.saturating_add(rest);
        if self.untold < LONG {
            return false;
        }
        self.untold = 0;
        true
    }
}

/// A rest that is a little longer, after so long a time.
fn longer(rest: u64, rested: u64) -> u64
    ensures early { rested < 2000000 → result ≤ 5000 }
    ensures most { result ≤ 20000 }
{
    let longest = if rested < LATER {
        LONGEST
    } else {
        LONGEST_LATER
    };
    rest.saturating_add(rest / 24 + 2).min(longest)
}
