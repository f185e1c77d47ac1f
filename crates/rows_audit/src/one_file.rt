//! One build file.

use graph::Graph;
use manifest::read;
use site::{SiteFault, Texts};
use std::alloc::Global;
use text::Bytes;

/// A site with one file, `build.ninja`, which gives its bytes once.
#[derive(Drop)]
struct OneFile {
    content: Option<Bytes>,
}

impl Texts for OneFile {
    ghost use Rattle.std.specs.Prelude.{None, false, []};

    ghost tells = { false };

    ghost world = { λ _. record { history = []; earlier = []; events = []; ticked = 0; failures = 0; failures_at_start = 0; wait_refused = None; stopped = false } };

    fn read(&mut self, path: &str) -> Result<Option<Bytes>, SiteFault> {
        if path == "build.ninja" {
            return Ok(self.content.take());
        }
        Ok(None)
    }

    fn failures(&self) -> u64 {
        0
    }
}

/// The graph of a build file.
pub fn graph_of(alloc: Global, text: Vec<u8>) -> Option<Graph> {
    let mut site = OneFile {
        content: Some(Bytes::from_vec(text)),
    };
    let manifest = read(alloc, &mut site, "build.ninja").ok()?;
    Graph::build(alloc, manifest, "").ok()
}
