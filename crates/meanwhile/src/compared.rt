//! How what a build left differs from what the clean build gives, and what it started.

use crate::beneath::{is_marked, makes};
use crate::busy::Busy;
use crate::clean_site::Clean;
use model::{Edge, Event};
use text::Path;

/// How many outputs are not as the clean build gives them.
#[derive(Clone, Copy)]
pub struct Difference {
    /// Of marked edges.
    pub below: u64,
    /// Of others.
    pub elsewhere: u64,
}

/// How the outputs differ of the commands that make the target, or of all where there is none. Some edges may be marked.
pub fn compare(
    site: &Busy<'_>,
    clean: &Clean,
    target: Option<&str>,
    marked: &[bool],
) -> Difference {
    let mut difference = Difference {
        below: 0,
        elsewhere: 0,
    };
    for (place, edge) in clean.edges().iter().enumerate() {
        if is_asked(edge, target) {
            let count = stale(site, clean, edge);
            difference.add(count, is_marked(marked, place));
        }
    }
    difference
}

impl Difference {
    /// So many more, of a marked edge or of another.
    fn add(&mut self, count: u64, is_marked: bool) {
        if is_marked {
            self.below = self.below.saturating_add(count);
        } else {
            self.elsewhere = self.elsewhere.saturating_add(count);
        }
    }
}

fn is_asked(edge: &Edge, target: Option<&str>) -> bool {
    match target {
        Some(path) => !edge.phony && makes(edge, path),
        None => !edge.phony,
    }
}

/// How many outputs of the edge are not as the clean build gives them.
fn stale(site: &Busy<'_>, clean: &Clean, edge: &Edge) -> u64 {
    let explicit = stale_among(site, clean, edge.explicit_outputs.as_slice());
    let implicit = stale_among(site, clean, edge.implicit_outputs.as_slice());
    explicit.saturating_add(implicit)
}

fn stale_among(site: &Busy<'_>, clean: &Clean, paths: &[Path]) -> u64 {
    let mut count = 0_u64;
    for path in paths {
        if !site.has(clean, path.as_str()) {
            count = count.saturating_add(1);
        }
    }
    count
}

/// Whether commands alone were started, by these events, whose edges are marked.
pub fn starts_marked(events: &[Event], marked: &[bool]) -> bool {
    for event in events {
        if !is_of_marked(event, marked) {
            return false;
        }
    }
    true
}

fn is_of_marked(event: &Event, marked: &[bool]) -> bool {
    match event {
        Event::Start { job, .. } => is_marked(marked, place_of(*job)),
        Event::Finish { .. } => true,
    }
}

/// The place of the edge whose command is this job.
fn place_of(job: usize) -> usize {
    job.saturating_sub(1)
}
