//! The stamp of a path.

ghost use Rattle.std.specs.Prelude.{◌≡◌, ◌<◌, IfOk, false, length};
ghost use Rattle.model.specs.Calls.{HasCause};
ghost use Rattle.judge.specs.Looking.{HasLookedAt, IsNoted, FindsStamp};

use crate::looks::Looks;
use graph::Graph;
use model::SiteFault;
use paths::PathId;
use site::Site;

impl Looks {
    /// The stamp of the file at the path, or nothing where there is no file.
    pub(crate) fn stamp_of<S: Site>(
        &mut self,
        site: &mut S,
        graph: &Graph,
        path: PathId,
    ) -> Result<Option<u64>, SiteFault>
        requires running { (S.world site.old).stopped ≡ false }
        requires fits { length self.old.seen.items ≡ length graph.now.manifest.paths }
        requires within { path < length graph.now.manifest.paths }
        ensures looked { HasLookedAt S.tells S.world site.old site.new graph.now self.old self.new }
        ensures cause { HasCause (S.world site.old) (S.world site.new) result }
        ensures sums { self.new.sums ≡ self.old.sums }
        ensures seen { IfOk result (λ stamp. IsNoted self.new path stamp) }
        ensures stamp { FindsStamp S.tells S.world site.old site.new graph.now self.old path result }
    {
        self.stamp(site, graph, path)
    }
}
