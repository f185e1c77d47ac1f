//! Under which stamps commands were started.

ghost use Rattle.std.specs.Prelude.{◌≡◌, ◌<◌, ◌-◌, Some, length, slice_get};
ghost use Rattle.seen.specs.Starts.{noted_start, stamp_in, start_in};

use model::Event;

/// The stamp of the start that is the last of these events, where there are more than so many.
pub fn started_since(events: &[Event], before: usize) -> Option<u64>
    ensures { result ≡ start_in events.now before }
{
    if before < events.len() {
        return last_start(events);
    }
    None
}

/// The stamp of the last of these events, if it is a start.
fn last_start(events: &[Event]) -> Option<u64>
    requires { 0 < length events.now }
    ensures { result ≡ stamp_in (slice_get events.now (length events.now - 1)) }
{
    match events.get(events.len() - 1) {
        Some(event) => stamp_of(event),
        None => None,
    }
}

/// The stamp of this event, if it is a start.
fn stamp_of(event: &Event) -> Option<u64>
    ensures { result ≡ stamp_in (Some event.now) }
{
    match event {
        Event::Start { stamp, .. } => Some(*stamp),
        Event::Finish { .. } => None,
    }
}

/// Notes that the command of this edge was started under this stamp, if it was, and not before. What is no edge is passed over.
pub fn note_start(starts: &mut Vec<Option<u64>>, job: usize, start: Option<u64>)
    ensures { starts.new.items ≡ noted_start starts.old.items job start }
{
    if job < starts.len() && starts[job].is_none() {
        starts[job] = start;
    }
}
