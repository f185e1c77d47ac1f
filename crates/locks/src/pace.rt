//! How a wait goes on: its rests, and what is due between them. Times are in milliseconds.

ghost use Rattle.std.specs.Prelude.{◌≡◌, ◌+◌, ◌^◌, ◌<◌, ◌≤◌, ◌↔◌, IsTrue};
ghost use Rattle.locks.specs.Lines.{IsBehindDue};

/// The longest rest.
pub const LONGEST: u64 = 50;

/// A line is told so long after a wait began.
const FIRST_LINE: u64 = 500;

/// Between two lines.
const MINUTE: u64 = 60_000;

/// Between two looks at what a path leads to, and at who has it open.
const SECOND: u64 = 1_000;

/// Something that is due at a time, and then again and again.
#[derive(Clone, Copy)]
pub struct Due {
    pub at: u64,
    pub every: u64,
}

impl Due {
    /// Whether it is due now. Then it is due again after as long as stands in `every`.
    pub fn is_due(&mut self, now: u64) -> bool
        ensures due { IsTrue result ↔ (self.old.at ≤ now) }
        ensures next { IsTrue result → now + self.old.every < 2 ^ 64 → self.new.at ≡ now + self.old.every }
        ensures kept { now < self.old.at → self.new ≡ self.old }
    {
        if now < self.at {
            return false;
        }
        self.at = now.saturating_add(self.every);
        true
    }
}

/// Whether it is due to tell what commands left behind, where the process of one that is held ended so long ago, and it was told last so
/// long ago, if it was told: half a second after the first end, and not before a minute has passed since the last line.
pub fn is_behind_due(ended: u64, told: Option<u64>) -> bool
    ensures { IsTrue result ↔ IsBehindDue ended told }
{
    if ended < FIRST_LINE {
        return false;
    }
    match told {
        Some(told) => MINUTE <= told,
        None => true,
    }
}

/// A wait: how long it lasts so far, and what is due.
#[derive(Clone, Copy)]
pub struct Pace {
    /// The sum of its rests, or what a clock says, where that is more.
    pub waited: u64,
    pub rest: u64,
    pub look: Due,
    pub line: Due,
}

impl Pace {
    /// A wait that begins.
    pub fn new() -> Pace
        ensures waited { result.waited ≡ 0 }
        ensures rest { result.rest ≡ 1 }
        ensures look { result.look ≡ record { at = 1000; every = 1000 } }
        ensures line { result.line ≡ record { at = 500; every = 60000 } }
    {
        Pace {
            waited: 0,
            rest: 1,
            look: Due {
                at: SECOND,
                every: SECOND,
            },
            line: Due {
                at: FIRST_LINE,
                every: MINUTE,
            },
        }
    }

    /// Whether a look is due.
    pub fn is_look(&mut self) -> bool
        ensures { IsTrue result ↔ (self.old.look.at ≤ self.old.waited) }
    {
        self.look.is_due(self.waited)
    }

    /// Whether a line is due.
    pub fn is_line(&mut self) -> bool
        ensures { IsTrue result ↔ (self.old.line.at ≤ self.old.waited) }
    {
        self.line.is_due(self.waited)
    }

    /// By a clock the wait lasts so long.
    pub fn pass(&mut self, elapsed: u64)
        ensures least { elapsed ≤ self.new.waited }
        ensures grows { self.old.waited ≤ self.new.waited }
    {
        self.waited = self.waited.max(elapsed);
    }

    /// The next rest, which is counted as waited: they grow from one to fifty.
    pub fn next_rest(&mut self) -> u64
        ensures longest { result ≤ 50 }
        ensures counted { self.old.waited + result < 2 ^ 64 → self.new.waited ≡ self.old.waited + result }
    {
        let rest = self.rest.min(LONGEST);
        self.rest = rest.saturating_mul(2);
        self.waited = self.waited.saturating_add(rest);
        rest
    }
}
