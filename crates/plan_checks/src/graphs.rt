//! The graph that a build file declares.

ghost use Rattle.std.specs.Prelude.{◌≡◌, ◌<◌, All, IfOk, length, vec_len};

use graph::{Cone, ConeFault, Graph, GraphFault};
use manifest::read;
use site::{SiteFault, Texts};
use std::alloc::Global;
use std::test::Fail;
use text::{Bytes, Path};

/// A site with one file, which gives its bytes once.
#[derive(Drop)]
struct OneFile {
    content: Option<Bytes>,
}

impl Texts for OneFile {
    ghost use Rattle.std.specs.Prelude.{None, false, []};

    ghost tells = { false };

    ghost world = { λ _. record { history = []; earlier = []; events = []; ticked = 0; failures = 0; failures_at_start = 0; wait_refused = None; stopped = false } };

    fn read(&mut self, _path: &str) -> Result<Option<Bytes>, SiteFault> {
        Ok(self.content.take())
    }

    fn failures(&self) -> u64 {
        0
    }
}

/// The graph of a build file.
pub fn graph_of(alloc: Global, text: String) -> Result<Graph, Fail> {
    let mut site = OneFile {
        content: Some(Bytes::from_vec(text.into_bytes())),
    };
    let manifest = read(alloc, &mut site, "build.ninja")?;
    match Graph::build(alloc, manifest, "") {
        Ok(graph) => Ok(graph),
        Err(fault) => Err(fault.into()),
    }
}

/// The cone of this target, or of what is built where there is none.
pub fn cone_of(alloc: Global, graph: &Graph, target: Option<&str>) -> Result<Cone, Fail>
    ensures marks { IfOk result (λ cone. vec_len cone.marks ≡ length graph.now.manifest.lines) }
    ensures within { IfOk result (λ cone. All (λ p. p < length graph.now.manifest.paths) cone.targets.items) }
{
    let mut targets = Vec::new(alloc);
    if let Some(target) = target {
        targets.push(Path::from_str(alloc, target)?)?;
    }
    match graph.cone(alloc, &targets) {
        Ok(cone) => Ok(cone),
        Err(ConeFault::Memory) => Err("out of memory".into()),
        Err(_) => Err("no cone".into()),
    }
}
