//! The facts of an edge's outputs.

ghost use Rattle.std.specs.Prelude.{◌≡◌, ◌<◌, ℕ, true, false, length};
ghost use Rattle.model.specs.Calls.{HasCause};
ghost use Rattle.model.specs.Graph.{has_number};
ghost use Rattle.judge.specs.Looking.{HasLookedAt};
ghost use Rattle.judge.specs.Answers.{FindsMade};
ghost use Rattle.judge.specs.Facts.{IsDepsStart};

use crate::laws::looks_follow;
use crate::looks::Looks;
use crate::output_facts::{OutputFacts, Outputs};
use graph::Graph;
use model::{Act, SiteFault};
use paths::PathId;
use records::Records;
use site::Site;

impl Looks {
    /// The facts of these outputs of an edge that does this now, as they are seen.
    pub(crate) fn outputs_of<S: Site>(
        &mut self,
        site: &mut S,
        graph: &Graph,
        records: &Records,
        act: &Act,
        paths: &[PathId],
    ) -> Result<Outputs, SiteFault>
        requires running { (S.world site.old).stopped ≡ false }
        requires fits { length self.old.seen.items ≡ length graph.now.manifest.paths }
        requires within { (p : ℕ) → has_number paths.now p ≡ true → p < length graph.now.manifest.paths }
        ensures looked { HasLookedAt S.tells S.world site.old site.new graph.now self.old self.new }
        ensures cause { HasCause (S.world site.old) (S.world site.new) result }
        ensures sums { self.new.sums ≡ self.old.sums }
        ensures outputs { FindsMade graph.now records.now self.new act.now paths.now result }
    {
        looks_follow();
        let mut outputs = Outputs::new();
        for path in paths {
            let stamp = self.stamp_of(site, graph, *path)?;
            let facts = OutputFacts {
                stamp,
                made: records.made(*path),
                deps_start: deps_start(records, *path),
            };
            outputs.add(act, &facts);
        }
        Ok(outputs)
    }
}

/// The start that the deps record of the path names.
fn deps_start(records: &Records, path: PathId) -> Option<u64>
    ensures { IsDepsStart records.now path result }
{
    Some(records.deps(path)?.start)
}
