//! Commands that are due.

ghost use Rattle.std.specs.Prelude.{◌≡◌, ◌||◌, ◌<◌, [], length, false};
ghost use Rattle.std.specs.List.{list_any};
ghost use Rattle.model.specs.Calls.{HasCause};
ghost use Rattle.graph.specs.Links.{links_of};
ghost use Rattle.judge.specs.Answers.{KnowsRight};
ghost use Rattle.judge.specs.Looking.{HasLookedAt};
ghost use Rattle.judge.specs.Dues.{is_made_due, reads_due, FindsCleanCommand};
ghost use Rattle.judge.specs.Ruled.{FindsCommandRuled};
ghost use Rattle.judge.specs.Summed.{AreSums};

use crate::answers::Answer;
use crate::judgement::{Asked, depfile_of};
use crate::laws::looks_follow;
use crate::looks::Looks;
use graph::{Graph, lists_stand};
use model::SiteFault;
use paths::{EdgeId, PathId};
use records::Records;
use site::Site;

impl Looks {
    /// Whether the command, which was not judged, is due, where it is known which edges before it are: it reads what a due edge
    /// makes, or it is out of date. Where the first is so no file is looked at: a command that runs may be writing it. What was found of it
    /// before is not found again, and what is found now is kept, but for its depfile, which is asked for each time.
    pub(crate) fn is_command_due<S: Site>(
        &mut self,
        site: &mut S,
        graph: &Graph,
        records: &Records,
        due: &[bool],
        edge: EdgeId,
    ) -> Result<bool, SiteFault>
        requires running { (S.world site.old).stopped ≡ false }
        requires fits { length self.old.seen.items ≡ length graph.now.manifest.paths }
        requires within { edge < length graph.now.manifest.lines }
        requires due { length due.now ≡ length graph.now.manifest.lines }
        requires command { (links_of graph.now).phony edge ≡ false }
        requires summed { AreSums graph.now [] self.old.seen.items self.old.sums }
        requires known { KnowsRight graph.now records.now self.old }
        ensures looked { HasLookedAt S.tells S.world site.old site.new graph.now self.old self.new }
        ensures cause { HasCause (S.world site.old) (S.world site.new) result }
        ensures summed { AreSums graph.now [] self.new.seen.items self.new.sums }
        ensures known { KnowsRight graph.now records.now self.new }
        ensures dues { self.new.sums.answers.dues ≡ self.old.sums.answers.dues }
        ensures ruled { FindsCommandRuled S.tells S.world site.old site.new graph.now records.now self.new due.now edge result }
        ensures clean { FindsCleanCommand S.tells S.world site.old site.new graph.now records.now self.old edge result }
    {
        looks_follow();
        lists_stand(graph);
        if reads_due(graph, due, edge) {
            return Ok(true);
        }
        let depfile = depfile_of(site, graph, edge)?;
        if let Some(known) = self.sums.answers.get(edge, depfile) {
            return Ok(known);
        }
        let found = self.reason_by(site, graph, records, &[], Asked { edge, depfile })?;
        let stale = found.is_some();
        let answer = Answer {
            depfile,
            due: stale,
        };
        self.sums.answers.note(edge, answer);
        Ok(stale)
    }
}

/// Whether a due edge makes one of its regular or recorded inputs. A phony edge among those that make them stands for what it
/// reads: it is due where a due edge makes that, or where it is an absent source.
fn reads_due(graph: &Graph, due: &[bool], edge: EdgeId) -> bool
    requires within { edge < length graph.now.manifest.lines }
    requires due { length due.now ≡ length graph.now.manifest.lines }
    ensures { result ≡ reads_due (links_of graph.now) due.now edge }
{
    are_made_due(graph, due, graph.regular_inputs(edge))
        || are_made_due(graph, due, graph.recorded_inputs(edge))
}

/// Whether a due edge makes one of these paths.
fn are_made_due(graph: &Graph, due: &[bool], paths: &[PathId]) -> bool
    requires due { length due.now ≡ length graph.now.manifest.lines }
    ensures { result ≡ list_any (is_made_due (links_of graph.now) due.now) paths.now }
{
    for path in paths {
        if is_made_due(graph, due, *path) {
            return true;
        }
    }
    false
}

/// Whether a due edge makes the path.
fn is_made_due(graph: &Graph, due: &[bool], path: PathId) -> bool
    requires due { length due.now ≡ length graph.now.manifest.lines }
    ensures { result ≡ is_made_due (links_of graph.now) due.now path }
{
    match graph.maker(path) {
        Some(edge) => due[edge.index()],
        None => false,
    }
}
