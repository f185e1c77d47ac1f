//! The facts of what an edge reads.

ghost use Rattle.std.specs.Prelude.{◌≡◌, ◌<◌, ◌∷◌, [], ℕ, IfOk, OnOk, true, false, length};
ghost use Rattle.model.specs.Calls.{HasCause};
ghost use Rattle.model.specs.Graph.{has_number};
ghost use Rattle.graph.specs.ReadingOf.{edges_in};
ghost use Rattle.judge.specs.Looking.{HasLookedAt};
ghost use Rattle.judge.specs.Answers.{FindsInputs};
ghost use Rattle.judge.specs.Facts.{TakesPaths, TakesEdges, TakesOne, flag_at};
ghost use Rattle.judge.specs.Lasting.{IsLasting, MarksStay};
ghost use Rattle.judge.specs.Summed.{AreSums, JoinsSeen, IsSum};

use crate::input_facts::Inputs;
use crate::lasting::reads_made;
use crate::laws::looks_follow;
use crate::looks::{Look, Looks};
use graph::{Graph, Reading, lists_stand, reading_stands};
use model::SiteFault;
use paths::{EdgeId, PathId};
use site::Site;
use std::slice;

impl Looks {
    /// The facts of what the edge reads, through phony edges too, and of its recorded inputs, as they are seen.
    pub(crate) fn inputs_of<S: Site>(
        &mut self,
        site: &mut S,
        graph: &Graph,
        changed: &[bool],
        edge: EdgeId,
    ) -> Result<Inputs, SiteFault>
        requires running { (S.world site.old).stopped ≡ false }
        requires fits { length self.old.seen.items ≡ length graph.now.manifest.paths }
        requires within { edge < length graph.now.manifest.lines }
        requires summed { AreSums graph.now changed.now self.old.seen.items self.old.sums }
        ensures looked { HasLookedAt S.tells S.world site.old site.new graph.now self.old self.new }
        ensures cause { HasCause (S.world site.old) (S.world site.new) result }
        ensures summed { AreSums graph.now changed.now self.new.seen.items self.new.sums }
        ensures marked { MarksStay graph.now changed.now self.old self.new }
        ensures answers { self.new.sums.answers ≡ self.old.sums.answers }
        ensures inputs { FindsInputs graph.now self.new changed.now edge result }
    {
        looks_follow();
        lists_stand(graph);
        reading_stands(graph);
        let mut inputs = Inputs::new();
        let regular = graph.regular_inputs(edge);
        self.add_paths(site, graph, changed, regular, &mut inputs)?;
        self.add_aliases(site, graph, changed, regular, &mut inputs)?;
        let recorded = graph.recorded_inputs(edge);
        self.add_recorded(site, graph, changed, recorded, &mut inputs)?;
        Ok(inputs)
    }

    /// Takes in what the phony edges read that make these paths.
    fn add_aliases<S: Site>(
        &mut self,
        site: &mut S,
        graph: &Graph,
        changed: &[bool],
        paths: &[PathId],
        inputs: &mut Inputs,
    ) -> Result<(), SiteFault>
        requires running { (S.world site.old).stopped ≡ false }
        requires fits { length self.old.seen.items ≡ length graph.now.manifest.paths }
        requires summed { AreSums graph.now changed.now self.old.seen.items self.old.sums }
        ensures looked { HasLookedAt S.tells S.world site.old site.new graph.now self.old self.new }
        ensures cause { HasCause (S.world site.old) (S.world site.new) result }
        ensures summed { AreSums graph.now changed.now self.new.seen.items self.new.sums }
        ensures marked { MarksStay graph.now changed.now self.old self.new }
        ensures answers { self.new.sums.answers ≡ self.old.sums.answers }
        ensures joined { OnOk result (JoinsSeen graph.now changed.now self.new paths.now inputs.old inputs.new) }
    {
        looks_follow();
        for path in paths {
            self.add_alias(site, graph, changed, *path, inputs)?;
        }
        Ok(())
    }

    /// Takes in what the phony edge reads that makes the path, if one does.
    fn add_alias<S: Site>(
        &mut self,
        site: &mut S,
        graph: &Graph,
        changed: &[bool],
        path: PathId,
        inputs: &mut Inputs,
    ) -> Result<(), SiteFault>
        requires running { (S.world site.old).stopped ≡ false }
        requires fits { length self.old.seen.items ≡ length graph.now.manifest.paths }
        requires summed { AreSums graph.now changed.now self.old.seen.items self.old.sums }
        ensures looked { HasLookedAt S.tells S.world site.old site.new graph.now self.old self.new }
        ensures cause { HasCause (S.world site.old) (S.world site.new) result }
        ensures summed { AreSums graph.now changed.now self.new.seen.items self.new.sums }
        ensures marked { MarksStay graph.now changed.now self.old self.new }
        ensures answers { self.new.sums.answers ≡ self.old.sums.answers }
        ensures joined { OnOk result (JoinsSeen graph.now changed.now self.new (path ∷ []) inputs.old inputs.new) }
    {
        looks_follow();
        if let Some(alias) = graph.alias(path) {
            let sum = self.sum_of(site, graph, changed, alias)?;
            inputs.join(sum);
        }
        Ok(())
    }

    /// What the phony edge reads comes to, which is noted.
    fn sum_of<S: Site>(
        &mut self,
        site: &mut S,
        graph: &Graph,
        changed: &[bool],
        edge: EdgeId,
    ) -> Result<Inputs, SiteFault>
        requires running { (S.world site.old).stopped ≡ false }
        requires fits { length self.old.seen.items ≡ length graph.now.manifest.paths }
        requires within { edge < length graph.now.manifest.lines }
        requires summed { AreSums graph.now changed.now self.old.seen.items self.old.sums }
        ensures looked { HasLookedAt S.tells S.world site.old site.new graph.now self.old self.new }
        ensures cause { HasCause (S.world site.old) (S.world site.new) result }
        ensures summed { AreSums graph.now changed.now self.new.seen.items self.new.sums }
        ensures marked { MarksStay graph.now changed.now self.old self.new }
        ensures answers { self.new.sums.answers ≡ self.old.sums.answers }
        ensures sum { IfOk result (IsSum graph.now changed.now self.new.seen.items edge) }
    {
        looks_follow();
        if let Some(sum) = self.sums.get(edge) {
            return Ok(sum);
        }
        let (sum, lasts) = self.read_by(site, graph, changed, edge)?;
        self.sums.note(edge, sum, lasts)?;
        Ok(sum)
    }

    /// What the edge reads comes to, and whether no command makes any of it.
    fn read_by<S: Site>(
        &mut self,
        site: &mut S,
        graph: &Graph,
        changed: &[bool],
        edge: EdgeId,
    ) -> Result<(Inputs, bool), SiteFault>
        requires running { (S.world site.old).stopped ≡ false }
        requires fits { length self.old.seen.items ≡ length graph.now.manifest.paths }
        requires within { edge < length graph.now.manifest.lines }
        ensures looked { HasLookedAt S.tells S.world site.old site.new graph.now self.old self.new }
        ensures cause { HasCause (S.world site.old) (S.world site.new) result }
        ensures sums { self.new.sums ≡ self.old.sums }
        ensures sum { IfOk result (λ read. IsSum graph.now changed.now self.new.seen.items edge read.0) }
        ensures lasts { IfOk result (λ read. read.1 ≡ true → IsLasting graph.now changed.now self.new.seen.items edge read.0) }
    {
        looks_follow();
        let reading = graph.reading(self.sums.alloc(), edge)?;
        let mut inputs = Inputs::new();
        let edges = edges_of(&reading);
        self.add_edges(site, graph, changed, edges, &mut inputs)?;
        Ok((inputs, !reads_made(graph, edges)))
    }
}

/// The edges whose regular inputs are read.
fn edges_of(reading: &Reading) -> &[EdgeId]
    ensures { result.now ≡ edges_in reading.now }
{
    match reading {
        Reading::Itself(edge) => slice::from_ref(edge),
        Reading::Through(edges) => edges.as_slice(),
    }
}

impl Looks {
    /// Takes in what these edges name themselves: their explicit and implicit inputs, as far as they count.
    fn add_edges<S: Site>(
        &mut self,
        site: &mut S,
        graph: &Graph,
        changed: &[bool],
        edges: &[EdgeId],
        inputs: &mut Inputs,
    ) -> Result<(), SiteFault>
        requires running { (S.world site.old).stopped ≡ false }
        requires fits { length self.old.seen.items ≡ length graph.now.manifest.paths }
        requires within { (d : ℕ) → has_number edges.now d ≡ true → d < length graph.now.manifest.lines }
        ensures looked { HasLookedAt S.tells S.world site.old site.new graph.now self.old self.new }
        ensures cause { HasCause (S.world site.old) (S.world site.new) result }
        ensures sums { self.new.sums ≡ self.old.sums }
        ensures taken { OnOk result (TakesEdges graph.now changed.now self.new edges.now inputs.old inputs.new) }
    {
        looks_follow();
        lists_stand(graph);
        for edge in edges {
            let paths = graph.regular_inputs(*edge);
            self.add_paths(site, graph, changed, paths, inputs)?;
        }
        Ok(())
    }

    /// Takes in those of these paths that count.
    fn add_paths<S: Site>(
        &mut self,
        site: &mut S,
        graph: &Graph,
        changed: &[bool],
        paths: &[PathId],
        inputs: &mut Inputs,
    ) -> Result<(), SiteFault>
        requires running { (S.world site.old).stopped ≡ false }
        requires fits { length self.old.seen.items ≡ length graph.now.manifest.paths }
        requires within { (p : ℕ) → has_number paths.now p ≡ true → p < length graph.now.manifest.paths }
        ensures looked { HasLookedAt S.tells S.world site.old site.new graph.now self.old self.new }
        ensures cause { HasCause (S.world site.old) (S.world site.new) result }
        ensures sums { self.new.sums ≡ self.old.sums }
        ensures taken { OnOk result (TakesPaths graph.now changed.now false self.new paths.now inputs.old inputs.new) }
    {
        looks_follow();
        // What is taken in stays in registers.
        let mut taken = *inputs;
        for path in paths {
            self.add_path(site, graph, changed, *path, &mut taken)?;
        }
        *inputs = taken;
        Ok(())
    }

    /// Takes in the path, where it counts. Most paths were asked for and have a file, and that counts always.
    fn add_path<S: Site>(
        &mut self,
        site: &mut S,
        graph: &Graph,
        changed: &[bool],
        path: PathId,
        inputs: &mut Inputs,
    ) -> Result<(), SiteFault>
        requires running { (S.world site.old).stopped ≡ false }
        requires fits { length self.old.seen.items ≡ length graph.now.manifest.paths }
        requires within { path < length graph.now.manifest.paths }
        ensures looked { HasLookedAt S.tells S.world site.old site.new graph.now self.old self.new }
        ensures cause { HasCause (S.world site.old) (S.world site.new) result }
        ensures sums { self.new.sums ≡ self.old.sums }
        ensures taken { OnOk result (TakesPaths graph.now changed.now false self.new (path ∷ []) inputs.old inputs.new) }
    {
        if let Look::Stamp(stamp) = self.look(path) {
            inputs.add(Some(stamp), is_changed(changed, path));
            return Ok(());
        }
        let stamp = self.stamp_of(site, graph, path)?;
        inputs.add_stamp(graph, changed, false, path, stamp);
        Ok(())
    }

    /// Takes in these recorded inputs.
    fn add_recorded<S: Site>(
        &mut self,
        site: &mut S,
        graph: &Graph,
        changed: &[bool],
        paths: &[PathId],
        inputs: &mut Inputs,
    ) -> Result<(), SiteFault>
        requires running { (S.world site.old).stopped ≡ false }
        requires fits { length self.old.seen.items ≡ length graph.now.manifest.paths }
        requires within { (p : ℕ) → has_number paths.now p ≡ true → p < length graph.now.manifest.paths }
        ensures looked { HasLookedAt S.tells S.world site.old site.new graph.now self.old self.new }
        ensures cause { HasCause (S.world site.old) (S.world site.new) result }
        ensures sums { self.new.sums ≡ self.old.sums }
        ensures taken { OnOk result (TakesPaths graph.now changed.now true self.new paths.now inputs.old inputs.new) }
    {
        looks_follow();
        // What is taken in stays in registers.
        let mut taken = *inputs;
        for path in paths {
            self.add_recorded_path(site, graph, changed, *path, &mut taken)?;
        }
        *inputs = taken;
        Ok(())
    }

    /// Takes in the recorded input. Most were asked for and have a file.
    fn add_recorded_path<S: Site>(
        &mut self,
        site: &mut S,
        graph: &Graph,
        changed: &[bool],
        path: PathId,
        inputs: &mut Inputs,
    ) -> Result<(), SiteFault>
        requires running { (S.world site.old).stopped ≡ false }
        requires fits { length self.old.seen.items ≡ length graph.now.manifest.paths }
        requires within { path < length graph.now.manifest.paths }
        ensures looked { HasLookedAt S.tells S.world site.old site.new graph.now self.old self.new }
        ensures cause { HasCause (S.world site.old) (S.world site.new) result }
        ensures sums { self.new.sums ≡ self.old.sums }
        ensures taken { OnOk result (TakesPaths graph.now changed.now true self.new (path ∷ []) inputs.old inputs.new) }
    {
        if let Look::Stamp(stamp) = self.look(path) {
            inputs.add(Some(stamp), is_changed(changed, path));
            return Ok(());
        }
        let stamp = self.stamp_of(site, graph, path)?;
        inputs.add_stamp(graph, changed, true, path, stamp);
        Ok(())
    }
}

impl Inputs {
    /// Takes in the path, which has this stamp: always, or where it counts.
    fn add_stamp(
        &mut self,
        graph: &Graph,
        changed: &[bool],
        always: bool,
        path: PathId,
        stamp: Option<u64>,
    )
        ensures { TakesOne graph.now changed.now always path stamp self.old self.new }
    {
        if always || stamp.is_some() || !graph.counts_if_present(path) {
            self.add(stamp, is_changed(changed, path));
        }
    }
}

/// Whether this build made the path anew; one past the end of the list was not.
fn is_changed(changed: &[bool], path: PathId) -> bool
    ensures { result ≡ flag_at changed.now path }
{
    changed.get(path.index()).copied().unwrap_or(false)
}
