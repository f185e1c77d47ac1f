//! Which source is missing.

ghost use Rattle.std.specs.Prelude.{◌≡◌, ◌<◌, true, false, length, vec_len, All, IfOk, IfSome};
ghost use Rattle.model.specs.Calls.{HasCause};
ghost use Rattle.judge.specs.Answers.{KnowsRight};
ghost use Rattle.judge.specs.KeptDues.{flags_kept, HasMakersFirst, AreKeptRight, KeepsDues, KeepsFlags, KeepsFound, LacksNoneOf, SeesSource, SeesSources, SeesInputs, SeesAllInputs};
ghost use Rattle.judge.specs.Looking.{HasLookedAt};
ghost use Rattle.judge.specs.Dues.{due_at};
ghost use Rattle.judge.specs.Lacks.{lack_in, IsLackOf, IsSourceOf, IsSourceFor, IsSourceAt, IsAskedLack, NamesDue};
ghost use Rattle.judge.specs.Lacks.{FindsMissing, FindsFirst, FindsFirstOf, FindsFirstOfDue, FindsLack, FindsFlags};

use crate::dues::copied;
use crate::laws::looks_follow;
use crate::looks::Looks;
use graph::{Cone, Graph, lists_stand};
use model::SiteFault;
use paths::{EdgeId, PathId};
use plan::Plan;
use records::Records;
use site::Site;

/// A path that is absent and that no edge makes.
#[derive(Clone, Copy, Debug, PartialEq, Eq)]
pub struct Lack {
    pub path: PathId,
    /// The edge that needs it; none for a path that was requested.
    pub needed_by: Option<EdgeId>,
}

/// What is found of the sources of a cone.
#[derive(Debug, Drop)]
pub enum Found {
    Missing(Lack),
    /// None is missing. For each edge of the graph, whether it is in the cone and due.
    Present(Vec<bool>),
}

impl Looks {
    /// The first requested path that is missing, else the first missing input of the lowest due edge of the cone, in the order
    /// of its lists; where none is missing, which edges are due. A command that the plan has judged is due where it was judged out of
    /// date. Which others are due the records of the logs say, with the files and what due edges make. A recorded input that is
    /// missing is no missing source. Whatever others write, what is named is a target, or an input of an edge of the cone.
    ///
    /// Commands may run meanwhile: what a due edge makes is not looked at. What was found is so at each point of the same steps
    /// whose files are those of now at the paths that may be looked at.
    ///
    /// What was seen of a path is not asked for again. Of a command that reads what a due edge makes only inputs are asked for,
    /// and it takes time for its regular and recorded inputs alone; any other command that was not judged is judged by `reason`,
    /// which walks what it reads through phony edges: the sums of before are forgotten, and these are as if nothing was made anew. Where
    /// dyndep files are still to be loaded what is found of commands is kept, as far as there is memory for it, and the next call finds
    /// it again of none but those of which it was forgotten; their depfiles it asks for again. Where no edge of the cone asks for a
    /// depfile, flags are kept as well: the next call finds again those alone of which that is noted, and asks for sources of no others. Then
    /// it takes a time of the order of these, and of a copy of the flags. Memory is taken for two flags for each edge of the graph, for
    /// what is noted, and for what `reason` takes.
    pub fn sources<S: Site>(
        &mut self,
        site: &mut S,
        graph: &Graph,
        cone: &Cone,
        plan: &Plan,
        records: &Records,
    ) -> Result<Found, SiteFault>
        requires running { (S.world site.old).stopped ≡ false }
        requires fits { length self.old.seen.items ≡ length graph.now.manifest.paths }
        requires order { All (λ e. e < length graph.now.manifest.lines) cone.now.order.items }
        requires targets { All (λ p. p < length graph.now.manifest.paths) cone.now.targets.items }
        requires plan { vec_len plan.now.standings ≡ length graph.now.manifest.lines }
        requires known { KnowsRight graph.now records.now self.old }
        requires placed { HasMakersFirst graph.now cone.now }
        requires kept { KeepsDues graph.now records.now cone.now plan.now self.old }
        ensures looked { HasLookedAt S.tells S.world site.old site.new graph.now self.old self.new }
        ensures cause { HasCause (S.world site.old) (S.world site.new) result }
        ensures known { KnowsRight graph.now records.now self.new }
        ensures kept { KeepsDues graph.now records.now cone.now plan.now self.new }
        ensures found { FindsLack S.tells S.world site.old site.new graph.now records.now cone.now plan.now self.old result }
        ensures due { FindsFlags S.tells S.world site.old site.new graph.now records.now cone.now plan.now self.old result }
        ensures flags { KeepsFound self.new result }
        ensures within { IfOk result (λ found. IfSome (lack_in found) (IsLackOf graph.now)) }
        ensures asked { IfOk result (λ found. IfSome (lack_in found) (λ lack. IsAskedLack cone.now lack)) }
    {
        if self.sums.answers.dues.known {
            self.sources_again(site, graph, cone, plan, records)
        } else {
            self.sources_anew(site, graph, cone, plan, records)
        }
    }

    /// The same, where no flags are kept. They are from now on, where that helps.
    fn sources_anew<S: Site>(
        &mut self,
        site: &mut S,
        graph: &Graph,
        cone: &Cone,
        plan: &Plan,
        records: &Records,
    ) -> Result<Found, SiteFault>
        requires running { (S.world site.old).stopped ≡ false }
        requires fits { length self.old.seen.items ≡ length graph.now.manifest.paths }
        requires order { All (λ e. e < length graph.now.manifest.lines) cone.now.order.items }
        requires targets { All (λ p. p < length graph.now.manifest.paths) cone.now.targets.items }
        requires plan { vec_len plan.now.standings ≡ length graph.now.manifest.lines }
        requires known { KnowsRight graph.now records.now self.old }
        requires placed { HasMakersFirst graph.now cone.now }
        requires anew { self.old.sums.answers.dues.known ≡ false }
        ensures looked { HasLookedAt S.tells S.world site.old site.new graph.now self.old self.new }
        ensures cause { HasCause (S.world site.old) (S.world site.new) result }
        ensures known { KnowsRight graph.now records.now self.new }
        ensures kept { KeepsDues graph.now records.now cone.now plan.now self.new }
        ensures found { FindsLack S.tells S.world site.old site.new graph.now records.now cone.now plan.now self.old result }
        ensures due { FindsFlags S.tells S.world site.old site.new graph.now records.now cone.now plan.now self.old result }
        ensures flags { KeepsFound self.new result }
        ensures within { IfOk result (λ found. IfSome (lack_in found) (IsLackOf graph.now)) }
        ensures asked { IfOk result (λ found. IfSome (lack_in found) (λ lack. IsAskedLack cone.now lack)) }
    {
        looks_follow();
        lists_stand(graph);
        let targets = cone.targets.as_slice();
        match self.first_missing(site, graph, targets)? {
            Some(path) => Ok(Found::Missing(Lack {
                path,
                needed_by: None,
            })),
            None => {
                let due = self.due_edges(site, graph, cone, plan, records)?;
                match self.lack_of_due(site, graph, &due)? {
                    Some(lack) => Ok(Found::Missing(lack)),
                    None => {
                        self.keep(graph, cone, plan, &due);
                        Ok(Found::Present(due))
                    }
                }
            }
        }
    }

    /// The same by the flags that are kept: they are found again where something has changed, and sources are asked for of those edges
    /// alone. All else was asked for, and is there.
    fn sources_again<S: Site>(
        &mut self,
        site: &mut S,
        graph: &Graph,
        cone: &Cone,
        plan: &Plan,
        records: &Records,
    ) -> Result<Found, SiteFault>
        requires running { (S.world site.old).stopped ≡ false }
        requires fits { length self.old.seen.items ≡ length graph.now.manifest.paths }
        requires targets { All (λ p. p < length graph.now.manifest.paths) cone.now.targets.items }
        requires plan { vec_len plan.now.standings ≡ length graph.now.manifest.lines }
        requires known { KnowsRight graph.now records.now self.old }
        requires kept { AreKeptRight graph.now records.now cone.now plan.now self.old.seen.items self.old.sums.answers.dues }
        ensures looked { HasLookedAt S.tells S.world site.old site.new graph.now self.old self.new }
        ensures cause { HasCause (S.world site.old) (S.world site.new) result }
        ensures known { KnowsRight graph.now records.now self.new }
        ensures kept { KeepsDues graph.now records.now cone.now plan.now self.new }
        ensures found { FindsLack S.tells S.world site.old site.new graph.now records.now cone.now plan.now self.old result }
        ensures due { FindsFlags S.tells S.world site.old site.new graph.now records.now cone.now plan.now self.old result }
        ensures flags { KeepsFound self.new result }
        ensures within { IfOk result (λ found. IfSome (lack_in found) (IsLackOf graph.now)) }
        ensures asked { IfOk result (λ found. IfSome (lack_in found) (λ lack. IsAskedLack cone.now lack)) }
    {
        looks_follow();
        lists_stand(graph);
        self.due_again(site, graph, cone, plan, records)?;
        match self.lack_again(site, graph)? {
            Some(lack) => Ok(Found::Missing(lack)),
            None => {
                let alloc = self.sums.alloc();
                let due = copied(alloc, self.sums.answers.dues.flags.as_slice())?;
                Ok(Found::Present(due))
            }
        }
    }

    /// The first missing input of the lowest due edge that has one, where no edge has one but those whose flag was found again. What is
    /// left of them where one has is noted still.
    fn lack_again<S: Site>(
        &mut self,
        site: &mut S,
        graph: &Graph,
    ) -> Result<Option<Lack>, SiteFault>
        requires running { (S.world site.old).stopped ≡ false }
        requires fits { length self.old.seen.items ≡ length graph.now.manifest.paths }
        requires due { length (flags_kept self.old) ≡ length graph.now.manifest.lines }
        requires lacks { LacksNoneOf graph.now self.old.seen.items self.old.sums.answers.dues }
        ensures looked { HasLookedAt S.tells S.world site.old site.new graph.now self.old self.new }
        ensures cause { HasCause (S.world site.old) (S.world site.new) result }
        ensures answers { KeepsFlags self.old.sums.answers self.new.sums.answers }
        ensures lacks { LacksNoneOf graph.now self.new.seen.items self.new.sums.answers.dues }
        ensures found { FindsFirstOfDue S.tells S.world site.old site.new graph.now self.old (flags_kept self.old) result }
        ensures within { IfOk result (λ found. IfSome found (IsLackOf graph.now)) }
        ensures named { IfOk result (λ found. IfSome found (λ lack. NamesDue (flags_kept self.old) lack.needed_by)) }
    {
        looks_follow();
        lists_stand(graph);
        while let Some(place) = self.sums.answers.dues.fresh.first() {
            let edge = graph.manifest.edge(place);
            if let Some(path) = self.missing_of_kept(site, graph, edge)? {
                return Ok(Some(Lack {
                    path,
                    needed_by: Some(edge),
                }));
            }
            self.sums.answers.dues.fresh.remove(place);
        }
        Ok(None)
    }

    /// The first missing input of the edge, where it is due by the flags that are kept.
    fn missing_of_kept<S: Site>(
        &mut self,
        site: &mut S,
        graph: &Graph,
        edge: EdgeId,
    ) -> Result<Option<PathId>, SiteFault>
        requires running { (S.world site.old).stopped ≡ false }
        requires fits { length self.old.seen.items ≡ length graph.now.manifest.paths }
        requires within { edge < length graph.now.manifest.lines }
        requires due { length (flags_kept self.old) ≡ length graph.now.manifest.lines }
        ensures looked { HasLookedAt S.tells S.world site.old site.new graph.now self.old self.new }
        ensures cause { HasCause (S.world site.old) (S.world site.new) result }
        ensures sums { self.new.sums ≡ self.old.sums }
        ensures first { FindsFirstOf S.tells S.world site.old site.new graph.now self.old (flags_kept self.old) edge result }
        ensures there { SeesInputs graph.now (flags_kept self.old) edge self.new result }
        ensures within { IfOk result (λ found. IfSome found (IsSourceFor graph.now edge)) }
        ensures marked { IfOk result (λ found. IfSome found (λ path. due_at (flags_kept self.old) edge ≡ true)) }
    {
        lists_stand(graph);
        if self.sums.answers.dues.flag_of(edge) {
            let needed = graph.inputs(edge);
            self.first_missing(site, graph, needed)
        } else {
            Ok(None)
        }
    }

    /// The first missing input of the lowest due edge that has one.
    fn lack_of_due<S: Site>(
        &mut self,
        site: &mut S,
        graph: &Graph,
        due: &[bool],
    ) -> Result<Option<Lack>, SiteFault>
        requires running { (S.world site.old).stopped ≡ false }
        requires fits { length self.old.seen.items ≡ length graph.now.manifest.paths }
        requires due { length due.now ≡ length graph.now.manifest.lines }
        ensures looked { HasLookedAt S.tells S.world site.old site.new graph.now self.old self.new }
        ensures cause { HasCause (S.world site.old) (S.world site.new) result }
        ensures sums { self.new.sums ≡ self.old.sums }
        ensures found { FindsFirstOfDue S.tells S.world site.old site.new graph.now self.old due.now result }
        ensures there { SeesAllInputs graph.now due.now self.new result }
        ensures within { IfOk result (λ found. IfSome found (IsLackOf graph.now)) }
        ensures named { IfOk result (λ found. IfSome found (λ lack. NamesDue due.now lack.needed_by)) }
    {
        looks_follow();
        for place in 0..graph.edges() {
            let edge = graph.manifest.edge(place);
            if let Some(path) = self.missing_of_edge(site, graph, due, edge)? {
                return Ok(Some(Lack {
                    path,
                    needed_by: Some(edge),
                }));
            }
        }
        Ok(None)
    }

    /// The first missing input of the edge, where it is due.
    fn missing_of_edge<S: Site>(
        &mut self,
        site: &mut S,
        graph: &Graph,
        due: &[bool],
        edge: EdgeId,
    ) -> Result<Option<PathId>, SiteFault>
        requires running { (S.world site.old).stopped ≡ false }
        requires fits { length self.old.seen.items ≡ length graph.now.manifest.paths }
        requires within { edge < length graph.now.manifest.lines }
        requires due { length due.now ≡ length graph.now.manifest.lines }
        ensures looked { HasLookedAt S.tells S.world site.old site.new graph.now self.old self.new }
        ensures cause { HasCause (S.world site.old) (S.world site.new) result }
        ensures sums { self.new.sums ≡ self.old.sums }
        ensures first { FindsFirstOf S.tells S.world site.old site.new graph.now self.old due.now edge result }
        ensures there { SeesInputs graph.now due.now edge self.new result }
        ensures within { IfOk result (λ found. IfSome found (IsSourceFor graph.now edge)) }
        ensures marked { IfOk result (λ found. IfSome found (λ path. due_at due.now edge ≡ true)) }
    {
        lists_stand(graph);
        if due[edge.index()] {
            self.first_missing(site, graph, graph.inputs(edge))
        } else {
            Ok(None)
        }
    }

    /// The first of these paths that is missing.
    fn first_missing<S: Site>(
        &mut self,
        site: &mut S,
        graph: &Graph,
        paths: &[PathId],
    ) -> Result<Option<PathId>, SiteFault>
        requires running { (S.world site.old).stopped ≡ false }
        requires fits { length self.old.seen.items ≡ length graph.now.manifest.paths }
        requires within { All (λ p. p < length graph.now.manifest.paths) paths.now }
        ensures looked { HasLookedAt S.tells S.world site.old site.new graph.now self.old self.new }
        ensures cause { HasCause (S.world site.old) (S.world site.new) result }
        ensures sums { self.new.sums ≡ self.old.sums }
        ensures first { FindsFirst S.tells S.world site.old site.new graph.now self.old paths.now result }
        ensures there { SeesSources graph.now paths.now self.new result }
        ensures within { IfOk result (λ found. IfSome found (IsSourceOf graph.now paths.now)) }
    {
        looks_follow();
        for path in paths {
            if self.is_missing(site, graph, *path)? {
                return Ok(Some(*path));
            }
        }
        Ok(None)
    }

    /// Whether no edge makes the path and it is absent.
    fn is_missing<S: Site>(
        &mut self,
        site: &mut S,
        graph: &Graph,
        path: PathId,
    ) -> Result<bool, SiteFault>
        requires running { (S.world site.old).stopped ≡ false }
        requires fits { length self.old.seen.items ≡ length graph.now.manifest.paths }
        requires within { path < length graph.now.manifest.paths }
        ensures looked { HasLookedAt S.tells S.world site.old site.new graph.now self.old self.new }
        ensures cause { HasCause (S.world site.old) (S.world site.new) result }
        ensures sums { self.new.sums ≡ self.old.sums }
        ensures missing { FindsMissing S.tells S.world site.old site.new graph.now self.old path result }
        ensures there { SeesSource graph.now path self.new result }
        ensures source { IfOk result (λ is. is ≡ true → IsSourceAt graph.now path) }
    {
        match graph.maker(path) {
            Some(_) => Ok(false),
            None => self.is_absent(site, graph, path),
        }
    }
}
