//! Missing sources.

ghost use Rattle.std.specs.Prelude.{◌≡◌, ◌<◌, false, length, vec_len, All, IfOk, OnOk};
ghost use Rattle.std.specs.Option.{option_map};
ghost use Rattle.theory.specs.Seen.{Unrefused};
ghost use Rattle.paths.specs.Told.{text_at};
ghost use Rattle.judge.specs.Lacks.{IsEdgeBelow, IsLackOf};
ghost use Rattle.judge.specs.KeptDues.{HasMakersFirst};
ghost use Rattle.work.specs.Answered.{AreAnswersOf, AnswersKept};
ghost use Rattle.work.specs.Ends.{first_output_of};
ghost use Rattle.work.specs.Sources.{with_looks, FindsDueFlags, FindsSources, FindsLacking, TellsWhoNeeds};
ghost use Rattle.work.specs.After.{SeesFiles};

use crate::names::{first_output, path_text};
use crate::report::{Missing, Refusal};
use crate::state::Work;
use crate::stop::Stop;
use graph::Graph;
use judge::{Found, Lack};
use paths::EdgeId;
use site::Site;
use std::alloc::{AllocError, Global};
use text::Path;

impl Work<'_> {
    /// Refuses the cone where a source of it is missing; else a flag for each edge of the graph says whether it is in the cone and due.
    /// Steps of the plan may be done by then, and commands may run. It only looks.
    pub fn check_sources<S: Site>(&mut self, site: &mut S) -> Result<Vec<bool>, Stop>
        requires running { (S.world site.old).stopped ≡ false }
        requires fits { length self.old.looks.seen.items ≡ length self.old.graph.manifest.paths }
        requires order { All (λ e. e < length self.old.graph.manifest.lines) self.old.cone.order.items }
        requires targets { All (λ p. p < length self.old.graph.manifest.paths) self.old.cone.targets.items }
        requires plan { vec_len self.old.plan.standings ≡ length self.old.graph.manifest.lines }
        requires known { AreAnswersOf self.old }
        requires placed { HasMakersFirst self.old.graph self.old.cone }
        ensures looked { SeesFiles S.tells S.world site.old site.new self.old self.new }
        ensures beside { self.new ≡ with_looks self.old self.new.looks }
        ensures known { AreAnswersOf self.new }
        ensures passed { OnOk result (Unrefused (S.world site.old) (S.world site.new)) }
        ensures due { FindsDueFlags S.tells S.world site.old site.new self.old result }
        ensures flags { AnswersKept self.new result }
        ensures sources { FindsSources S.tells S.world site.old site.new self.old result }
        ensures lacking { FindsLacking S.tells S.world site.old site.new self.old result }
    {
        let alloc = self.alloc;
        match self
            .looks
            .sources(site, &self.graph, &self.cone, &self.plan, &self.records)?
        {
            Found::Missing(lack) => Err(Stop::Refused(Refusal::Missing(missing(
                alloc,
                &self.graph,
                lack,
            )?))),
            Found::Present(due) => Ok(due),
        }
    }
}

/// The missing path in texts.
fn missing(alloc: Global, graph: &Graph, lack: Lack) -> Result<Missing, AllocError>
    requires { IsLackOf graph.now lack }
    ensures path { IfOk result (λ missing. missing.path ≡ text_at graph.now.manifest.paths lack.path) }
    ensures needed_by { IfOk result (λ missing. TellsWhoNeeds graph.now lack missing) }
{
    Ok(Missing {
        path: path_text(alloc, &graph.manifest, lack.path)?,
        needed_by: needing(alloc, graph, lack.needed_by)?,
    })
}

/// The first output of the edge, where there is one.
fn needing(alloc: Global, graph: &Graph, edge: Option<EdgeId>) -> Result<Option<Path>, AllocError>
    requires { IsEdgeBelow (length graph.now.manifest.lines) edge }
    ensures { IfOk result (λ path. path ≡ option_map (first_output_of graph.now.manifest) edge) }
{
    match edge {
        Some(edge) => Ok(Some(first_output(alloc, &graph.manifest, edge)?)),
        None => Ok(None),
    }
}
