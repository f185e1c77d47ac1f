//! The last build of a scenario, ended at each call of the site in turn.

use crate::counts::add;
use crate::dated::Dated;
use crate::scenario::{End, Scenario};
use meanwhile::{CALLS, Source};
use seen::Seen;
use sim::Call;
use std::alloc::Global;
use std::io::{self, Write};
use std::marker::Brand;

/// More calls of a kind than a build makes.
const MANY: u64 = 1000;

/// How many of its bytes an append puts behind a file in which the site stops: none, some, and all.
const PARTS: [usize; 3] = [0, 9, usize::MAX];

/// Where a build is ended: in the call of this kind that has this number in it.
#[derive(Clone, Copy)]
struct Place {
    call: Call,
    number: u64,
    bytes: usize,
}

/// What became of builds that were ended.
#[derive(Drop)]
struct Swept {
    ended: u64,
    /// Where the build behind did not end well, or left something else than the clean build gives.
    stale: u64,
    /// Where the one behind that started something once more.
    twice: u64,
    /// The first place where one of these was so.
    wrong: Option<Place>,
}

/// The scenario from its beginning, over and over: the last build is ended at its first call of the site, at its second, and so on, for each kind
/// of call, until it is not ended. Behind each comes a build that nobody ends, and one more.
pub fn push_ended(alloc: Global, source: Source<'_>, told: &mut Vec<u8>) -> io::Result<()> {
    let mut swept = Swept {
        ended: 0,
        stale: 0,
        twice: 0,
        wrong: None,
    };
    for call in CALLS {
        try_kind(alloc, source, call, &mut swept)?;
    }
    swept.tell(told)
}

fn try_kind(alloc: Global, source: Source<'_>, call: Call, swept: &mut Swept) -> io::Result<()> {
    match call {
        Call::Append => try_parts(alloc, source, swept),
        _ => try_calls(alloc, source, first(call, 0), swept),
    }
}

fn try_parts(alloc: Global, source: Source<'_>, swept: &mut Swept) -> io::Result<()> {
    for bytes in PARTS {
        try_calls(alloc, source, first(Call::Append, bytes), swept)?;
    }
    Ok(())
}

/// The first place of a kind.
fn first(call: Call, bytes: usize) -> Place {
    Place {
        call,
        number: 1,
        bytes,
    }
}

/// The calls of a kind in turn, up to one that the build does not come to.
fn try_calls(alloc: Global, source: Source<'_>, from: Place, swept: &mut Swept) -> io::Result<()> {
    for number in 1..=MANY {
        if !try_place(alloc, source, Place { number, ..from }, swept)? {
            break;
        }
    }
    Ok(())
}

/// The scenario on a fresh site, whose last build is ended at the place. Whether it comes to that.
fn try_place(
    alloc: Global,
    source: Source<'_>,
    place: Place,
    swept: &mut Swept,
) -> io::Result<bool> {
    let mut scenario = Scenario::new(alloc, source, false)?;
    let tried = try_fresh(alloc, &mut scenario, source, place, swept);
    tried
}

fn try_fresh<'a>(
    alloc: Global,
    scenario: &mut Scenario<'a>,
    source: Source<'a>,
    place: Place,
    swept: &mut Swept,
) -> io::Result<bool> {
    let mut seen: Seen<Dated<'a>, Brand> = Seen::new(alloc, Dated::new(alloc, source, 0));
    let tried = try_on(scenario, &mut seen, place, swept);
    tried
}

fn try_on<'a>(
    scenario: &mut Scenario<'a>,
    seen: &mut Seen<Dated<'a>, Brand>,
    place: Place,
    swept: &mut Swept,
) -> io::Result<bool> {
    scenario.come_to_last(seen)?;
    scenario.begin(seen);
    let told = &mut seen.retold;
    told.site.stop_at(place.call, place.number, place.bytes)?;
    match scenario.build(seen) {
        End::Stopped => {
            build_behind(scenario, seen, place, swept)?;
            Ok(true)
        }
        _ => Ok(false),
    }
}

/// The build behind one that was ended at the place, and the next one.
fn build_behind<'a>(
    scenario: &Scenario<'a>,
    seen: &mut Seen<Dated<'a>, Brand>,
    place: Place,
    swept: &mut Swept,
) -> io::Result<()> {
    let end = scenario.build_anew(seen);
    let retold = &seen.retold;
    let is_clean = scenario.is_clean(&retold.site)?;
    let next = scenario.build_anew(seen);
    swept.note(place, is_well(end) && is_clean, is_idle(next));
    seen.retold.site.check()?;
    Ok(())
}

fn is_well(end: End) -> bool {
    matches!(end, End::Well(_))
}

/// Whether a build had nothing to do.
fn is_idle(end: End) -> bool {
    matches!(end, End::Well(0))
}

impl Swept {
    /// One build more that was ended at this place.
    fn note(&mut self, place: Place, is_right: bool, is_idle: bool) {
        add(&mut self.ended);
        if !is_right {
            add(&mut self.stale);
        }
        if !is_idle {
            add(&mut self.twice);
        }
        if self.wrong.is_none() && !(is_right && is_idle) {
            self.wrong = Some(place);
        }
    }

    fn tell(&self, told: &mut Vec<u8>) -> io::Result<()> {
        let (ended, stale, twice) = (self.ended, self.stale, self.twice);
        write!(told, "{ended} ended, {stale} stale, {twice} twice")?;
        if let Some(place) = self.wrong {
            let (call, number) = (place.call, place.number);
            write!(told, ", first in {call:?} {number}")?;
        }
        Ok(())
    }
}
