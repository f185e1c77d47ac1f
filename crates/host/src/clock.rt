//! What the stamps of files tell of the clock, and which stamp a start gets.

ghost use Rattle.std.specs.Prelude.{◌≡◌, None};
ghost use Rattle.host.specs.Clock.{IsStart, told_of};

/// The stamps of two touches of one file, one right after the other.
#[derive(Clone, Copy)]
pub struct Touches {
    pub first: u64,
    pub second: u64,
}

/// What a site told of stamps.
#[derive(Clone, Copy)]
pub struct Clock {
    /// The latest stamp that was told so far.
    told: u64,
    /// The stamp of the last start, where what is written from now on may get the same.
    unpassed: Option<u64>,
}

impl Clock {
    /// No stamp was told.
    pub fn new() -> Clock
        ensures told { result.told ≡ 0 }
        ensures unpassed { result.unpassed ≡ None }
    {
        Clock {
            told: 0,
            unpassed: None,
        }
    }

    /// A stamp is told.
    pub fn tell(&mut self, stamp: u64)
        ensures { self.new ≡ told_of self.old stamp }
    {
        self.told = self.told.max(stamp);
    }

    /// The stamp of a start after these touches, which is told by that.
    ///
    /// Where the touches got two stamps, it is the first: what is written after the second touch has a later one. Where they did not,
    /// the clock goes by steps, and what is written later in this step may get the same stamp. If what was told lies before it, the start
    /// does so too, and what is written later in this step is seen to be later. If not, the start may not lie before what was told: the
    /// command would run again, for what it read. Then nothing may be written before the step is over.
    pub fn start(&mut self, touches: Touches) -> u64
        ensures { IsStart self.old touches result self.new }
    {
        let Touches { first, second } = touches;
        self.unpassed = None;
        let mut start = first;
        if first == second {
            if self.told < first {
                start = first - 1;
            } else {
                self.unpassed = Some(first);
            }
        }
        self.told = self.told.max(start);
        start
    }

    /// The stamp of the last start, where what is written from now on may get the same.
    pub fn unpassed(&self) -> Option<u64>
        ensures { result ≡ self.now.unpassed }
    {
        self.unpassed
    }

    /// It is known that what is written from now on has a later stamp than each start.
    pub fn pass(&mut self)
        ensures { self.new ≡ record self.old { unpassed = None } }
    {
        self.unpassed = None;
    }
}
