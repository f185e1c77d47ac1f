//! What goes wrong, and where.

use crate::moves::Met;
use sim::{Call, Order, Sim, Timing, Toy, Trouble};
use std::alloc::AllocError;

/// How many commands may run at once, when they write, and which of those that run ends next.
#[derive(Clone, Copy, Debug)]
pub struct Manner {
    pub jobs: u32,
    pub timing: Timing,
    pub order: Order,
}

/// The manners in which a history goes whose commands need one another, so that one runs at a time.
pub const ALONE: [Manner; 2] = [
    Manner {
        jobs: 1,
        timing: Timing::Early,
        order: Order::First,
    },
    Manner {
        jobs: 1,
        timing: Timing::Late,
        order: Order::First,
    },
];

pub const MANNERS: [Manner; 6] = [
    Manner {
        jobs: 1,
        timing: Timing::Early,
        order: Order::First,
    },
    Manner {
        jobs: 1,
        timing: Timing::Late,
        order: Order::First,
    },
    Manner {
        jobs: 3,
        timing: Timing::Early,
        order: Order::First,
    },
    Manner {
        jobs: 3,
        timing: Timing::Early,
        order: Order::Last,
    },
    Manner {
        jobs: 3,
        timing: Timing::Late,
        order: Order::First,
    },
    Manner {
        jobs: 3,
        timing: Timing::Late,
        order: Order::Last,
    },
];

/// What goes wrong in which call of a kind, counted over a history.
#[derive(Clone, Copy, Debug)]
pub struct Place {
    pub call: Call,
    pub number: u64,
    pub trouble: Trouble,
    pub manner: Manner,
}

/// From now on the site goes on in the manner of the place, and what is to go wrong is named.
pub fn name(site: &mut Sim<Toy>, place: Place) -> Result<(), AllocError> {
    site.timing(place.manner.timing);
    site.order(place.manner.order);
    match place.trouble {
        Trouble::Refused => site.fail(place.call, place.number),
        Trouble::Stop { bytes } => site.stop_at(place.call, place.number, bytes),
    }
}

/// Whether a build may have met this where something was to go wrong at the place.
pub fn fits(place: Place, met: Met) -> bool {
    met == Met::Nothing || met == met_at(place)
}

/// What the build meets that comes to the place: a refused wait leaves commands running, and behind every other refused call
/// they are taken in.
fn met_at(place: Place) -> Met {
    match place.trouble {
        Trouble::Stop { .. } => Met::Stopped,
        Trouble::Refused => match place.call {
            Call::WaitAny => Met::RefusedWhileRunning,
            _ => Met::Refused,
        },
    }
}
