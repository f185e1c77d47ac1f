//! What goes wrong in a build.

use crate::random::Random;
use sim::{Call, Order, Sim, Timing, Toy};
use std::alloc::AllocError;

pub const CALLS: [Call; 11] = [
    Call::Read,
    Call::Stat,
    Call::Tick,
    Call::Append,
    Call::Replace,
    Call::Write,
    Call::Remove,
    Call::MakeDirs,
    Call::Start,
    Call::WaitAny,
    Call::Show,
];

/// How the site goes on, and what goes wrong in the next build: often nothing.
pub fn name_trouble(site: &mut Sim<Toy>, random: &mut Random) -> Result<(), AllocError> {
    site.timing(timing(random.one_in(2)));
    site.order(order(random.one_in(2)));
    if random.one_in(2) {
        return Ok(());
    }
    let call = CALLS
        .get(random.below(CALLS.len()))
        .copied()
        .unwrap_or(Call::Append);
    let number = (random.below(5) as u64).saturating_add(1);
    if random.one_in(2) {
        return site.fail(call, number);
    }
    site.stop_at(call, number, random.below(30))
}

fn timing(early: bool) -> Timing {
    if early { Timing::Early } else { Timing::Late }
}

fn order(first: bool) -> Order {
    if first { Order::First } else { Order::Last }
}
