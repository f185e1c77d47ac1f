//! Phony edges that are due, and paths that are absent.

ghost use Rattle.std.specs.Prelude.{◌≡◌, ◌<◌, All, IfOk, length, true, false};
ghost use Rattle.model.specs.Calls.{HasCause};
ghost use Rattle.graph.specs.Links.{links_of};
ghost use Rattle.judge.specs.Looking.{HasLookedAt};
ghost use Rattle.judge.specs.Dues.{FindsAbsent};
ghost use Rattle.judge.specs.Ruled.{IsAbsentAsked, IsDueAsked, IsAnyAbsentAsked, IsAnyDueAsked, IsAliasRuled};

use crate::laws::looks_follow;
use crate::looks::Looks;
use graph::{Graph, lists_stand};
use model::SiteFault;
use paths::{EdgeId, PathId};
use site::Site;

impl Looks {
    /// Whether the phony edge is due, where it is known which edges before it are: it has no inputs and its file is absent, or one
    /// of its regular inputs is an absent source or made by a due edge.
    pub(crate) fn is_alias_due<S: Site>(
        &mut self,
        site: &mut S,
        graph: &Graph,
        due: &[bool],
        edge: EdgeId,
    ) -> Result<bool, SiteFault>
        requires running { (S.world site.old).stopped ≡ false }
        requires fits { length self.old.seen.items ≡ length graph.now.manifest.paths }
        requires within { edge < length graph.now.manifest.lines }
        requires due { length due.now ≡ length graph.now.manifest.lines }
        requires alias { (links_of graph.now).phony edge ≡ true }
        ensures looked { HasLookedAt S.tells S.world site.old site.new graph.now self.old self.new }
        ensures cause { HasCause (S.world site.old) (S.world site.new) result }
        ensures sums { self.new.sums ≡ self.old.sums }
        ensures ruled { IfOk result (IsAliasRuled (links_of graph.now) self.new.seen.items due.now edge) }
    {
        lists_stand(graph);
        if graph.inputs(edge).is_empty() {
            self.has_absent(site, graph, graph.outputs(edge))
        } else {
            self.has_due_path(site, graph, due, graph.regular_inputs(edge))
        }
    }

    /// Whether one of these paths is absent.
    fn has_absent<S: Site>(
        &mut self,
        site: &mut S,
        graph: &Graph,
        paths: &[PathId],
    ) -> Result<bool, SiteFault>
        requires running { (S.world site.old).stopped ≡ false }
        requires fits { length self.old.seen.items ≡ length graph.now.manifest.paths }
        requires within { All (λ p. p < length graph.now.manifest.paths) paths.now }
        ensures looked { HasLookedAt S.tells S.world site.old site.new graph.now self.old self.new }
        ensures cause { HasCause (S.world site.old) (S.world site.new) result }
        ensures sums { self.new.sums ≡ self.old.sums }
        ensures has { IfOk result (IsAnyAbsentAsked self.new.seen.items paths.now) }
    {
        looks_follow();
        for path in paths {
            if self.is_absent(site, graph, *path)? {
                return Ok(true);
            }
        }
        Ok(false)
    }

    /// Whether there is no file at the path.
    pub(crate) fn is_absent<S: Site>(
        &mut self,
        site: &mut S,
        graph: &Graph,
        path: PathId,
    ) -> Result<bool, SiteFault>
        requires running { (S.world site.old).stopped ≡ false }
        requires fits { length self.old.seen.items ≡ length graph.now.manifest.paths }
        requires within { path < length graph.now.manifest.paths }
        ensures looked { HasLookedAt S.tells S.world site.old site.new graph.now self.old self.new }
        ensures cause { HasCause (S.world site.old) (S.world site.new) result }
        ensures sums { self.new.sums ≡ self.old.sums }
        ensures seen { IfOk result (IsAbsentAsked self.new.seen.items path) }
        ensures absent { FindsAbsent S.tells S.world site.old site.new graph.now self.old path result }
    {
        let stamp = self.stamp_of(site, graph, path)?;
        Ok(stamp.is_none())
    }

    /// Whether one of these paths is made by a due edge, or is an absent source.
    fn has_due_path<S: Site>(
        &mut self,
        site: &mut S,
        graph: &Graph,
        due: &[bool],
        paths: &[PathId],
    ) -> Result<bool, SiteFault>
        requires running { (S.world site.old).stopped ≡ false }
        requires fits { length self.old.seen.items ≡ length graph.now.manifest.paths }
        requires within { All (λ p. p < length graph.now.manifest.paths) paths.now }
        requires due { length due.now ≡ length graph.now.manifest.lines }
        ensures looked { HasLookedAt S.tells S.world site.old site.new graph.now self.old self.new }
        ensures cause { HasCause (S.world site.old) (S.world site.new) result }
        ensures sums { self.new.sums ≡ self.old.sums }
        ensures has { IfOk result (IsAnyDueAsked (links_of graph.now) self.new.seen.items due.now paths.now) }
    {
        looks_follow();
        for path in paths {
            if self.is_due_path(site, graph, due, *path)? {
                return Ok(true);
            }
        }
        Ok(false)
    }

    /// Whether the path is made by a due edge, or is an absent source.
    fn is_due_path<S: Site>(
        &mut self,
        site: &mut S,
        graph: &Graph,
        due: &[bool],
        path: PathId,
    ) -> Result<bool, SiteFault>
        requires running { (S.world site.old).stopped ≡ false }
        requires fits { length self.old.seen.items ≡ length graph.now.manifest.paths }
        requires within { path < length graph.now.manifest.paths }
        requires due { length due.now ≡ length graph.now.manifest.lines }
        ensures looked { HasLookedAt S.tells S.world site.old site.new graph.now self.old self.new }
        ensures cause { HasCause (S.world site.old) (S.world site.new) result }
        ensures sums { self.new.sums ≡ self.old.sums }
        ensures due { IfOk result (IsDueAsked (links_of graph.now) self.new.seen.items due.now path) }
    {
        match graph.maker(path) {
            Some(edge) => Ok(due[edge.index()]),
            None => self.is_absent(site, graph, path),
        }
    }
}
