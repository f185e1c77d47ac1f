//! Stamps that are as coarse as they may be.

use std::alloc::Global;

/// What was written from one start of a command to the next.
#[derive(Clone, Copy)]
struct Stretch {
    /// The stamp that the site in memory gave the last of these writes.
    last: u64,
    /// The stamp that is told in place of it, and of those of the others.
    told: u64,
}

/// What is told in place of the stamps of a site in memory, on which each write has one of its own. All that is written from one start to
/// the next has one stamp, and so has the tick before the second of them, where the site in memory is brought to that stamp before
/// it. What is written behind a start has a later one.
#[derive(Drop)]
pub struct Clock {
    /// How far the site in memory is brought from a start to the next tick.
    step: u64,
    past: Vec<Stretch>,
    /// What is told of all that was written since.
    now: u64,
    /// Whether there was no memory for a stretch.
    lost: bool,
}

impl Clock {
    /// Before the first start. With steps of 1 a tick is mostly later than what was written before it.
    pub fn new(alloc: Global, step: u64) -> Clock {
        Clock {
            step,
            past: Vec::new(alloc),
            now: step,
            lost: false,
        }
    }

    /// What is told in place of this stamp.
    pub fn told(&self, stamp: u64) -> u64 {
        for stretch in &self.past {
            if stamp <= stretch.last {
                return stretch.told;
            }
        }
        self.now
    }

    /// How many writes are to come before the next tick, if the last one has this stamp.
    pub fn gap(&self, last: u64) -> u64 {
        self.now.saturating_sub(last).saturating_sub(1)
    }

    /// A tick has this stamp, and what is written from now on is no earlier.
    pub fn ticked(&mut self, stamp: u64) {
        if stamp > self.now {
            self.end(stamp.saturating_sub(1));
            self.now = stamp;
        }
    }

    /// A command is to be started, and the last write before that has this stamp.
    pub fn starting(&mut self, last: u64) {
        self.end(last);
        self.now = self.now.max(last).saturating_add(self.step);
    }

    /// A stretch ends with the write of this stamp.
    fn end(&mut self, last: u64) {
        let told = self.now;
        if self.past.push(Stretch { last, told }).is_err() {
            self.lost = true;
        }
    }

    /// Whether there was no memory for a stretch.
    pub fn lost(&self) -> bool {
        self.lost
    }
}
