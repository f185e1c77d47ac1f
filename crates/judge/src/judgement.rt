//! Why a command has to run.

ghost use Rattle.std.specs.Prelude.{◌≡◌, ◌<◌, false, length};
ghost use Rattle.model.specs.Calls.{OnlyLooks, HasCause};
ghost use Rattle.graph.specs.Links.{links_of};
ghost use Rattle.judge.specs.Looking.{HasLookedAt};
ghost use Rattle.judge.specs.Answers.{FindsDepfileOf, FindsReasonBy};
ghost use Rattle.judge.specs.Judged.{FindsReason, DoesCommand};
ghost use Rattle.judge.specs.Lasting.{MarksStay};
ghost use Rattle.judge.specs.Summed.{AreSums};

use crate::depfile::has_depfile;
use crate::laws::looks_follow;
use crate::looks::Looks;
use crate::reason_table::{Facts, judge};
use graph::{Graph, lists_stand, numbers_stand};
use model::{Reason, SiteFault};
use paths::{Action, Command, EdgeId};
use records::Records;
use site::Site;

/// The command of an edge, of whose depfile it is known whether it is there; no where the site is not asked for one.
#[derive(Clone, Copy, Debug, PartialEq, Eq)]
pub(crate) struct Asked {
    pub edge: EdgeId,
    pub depfile: bool,
}

impl Looks {
    /// Why the command of the edge has to run, if it has to: by its outputs and their records, by the paths that it reads, through
    /// phony edges too, and by its recorded inputs, as their files are now. `changed` says of each path whether this build made it
    /// anew; one past its end was not.
    ///
    /// What was seen of a path is not asked for again, but for the depfile that the command is to leave. The answer is right for
    /// each set of paths that has all these and whose files stay as they are during the call, as that of the depfile does, whatever
    /// commands write elsewhere. It takes time for the outputs and inputs that are met; what a phony edge reads is met
    /// once, and then known by the sums, which takes memory for each phony edge that is read through. Where a command makes some of that
    /// and there is no memory to mark it so, it is met again by the next call that reads it.
    pub fn reason<S: Site>(
        &mut self,
        site: &mut S,
        graph: &Graph,
        records: &Records,
        changed: &[bool],
        edge: EdgeId,
    ) -> Result<Option<Reason>, SiteFault>
        requires running { (S.world site.old).stopped ≡ false }
        requires fits { length self.old.seen.items ≡ length graph.now.manifest.paths }
        requires within { edge < length graph.now.manifest.lines }
        requires command { (links_of graph.now).phony edge ≡ false }
        requires summed { AreSums graph.now changed.now self.old.seen.items self.old.sums }
        ensures looked { HasLookedAt S.tells S.world site.old site.new graph.now self.old self.new }
        ensures cause { HasCause (S.world site.old) (S.world site.new) result }
        ensures summed { AreSums graph.now changed.now self.new.seen.items self.new.sums }
        ensures marked { MarksStay graph.now changed.now self.old self.new }
        ensures answers { self.new.sums.answers ≡ self.old.sums.answers }
        ensures reason { FindsReason S.tells S.world site.old site.new graph.now records.now self.old changed.now edge result }
    {
        looks_follow();
        lists_stand(graph);
        let depfile = depfile_of(site, graph, edge)?;
        let asked = Asked { edge, depfile };
        let reason = self.reason_by(site, graph, records, changed, asked)?;
        Ok(reason)
    }

    /// The same, where it is known whether its depfile is there. The reason is right as long as nothing is forgotten of what was seen.
    pub(crate) fn reason_by<S: Site>(
        &mut self,
        site: &mut S,
        graph: &Graph,
        records: &Records,
        changed: &[bool],
        asked: Asked,
    ) -> Result<Option<Reason>, SiteFault>
        requires running { (S.world site.old).stopped ≡ false }
        requires fits { length self.old.seen.items ≡ length graph.now.manifest.paths }
        requires within { asked.edge < length graph.now.manifest.lines }
        requires command { (links_of graph.now).phony asked.edge ≡ false }
        requires summed { AreSums graph.now changed.now self.old.seen.items self.old.sums }
        ensures looked { HasLookedAt S.tells S.world site.old site.new graph.now self.old self.new }
        ensures cause { HasCause (S.world site.old) (S.world site.new) result }
        ensures summed { AreSums graph.now changed.now self.new.seen.items self.new.sums }
        ensures marked { MarksStay graph.now changed.now self.old self.new }
        ensures answers { self.new.sums.answers ≡ self.old.sums.answers }
        ensures reason { FindsReasonBy graph.now records.now changed.now self.new asked.edge asked.depfile result }
    {
        looks_follow();
        lists_stand(graph);
        let edge = asked.edge;
        let command = command_of(graph, edge);
        let outputs = self.outputs_of(site, graph, records, &command.act, graph.outputs(edge))?;
        let inputs = self.inputs_of(site, graph, changed, edge)?;
        Ok(judge(&Facts {
            act: &command.act,
            restat: command.restat,
            deps: command.deps,
            depfile: asked.depfile,
            outputs,
            inputs,
        }))
    }
}

/// Whether the depfile is there that the command of the edge is to leave; the site is asked where it is to stay.
pub(crate) fn depfile_of<S: Site>(
    site: &mut S,
    graph: &Graph,
    edge: EdgeId,
) -> Result<bool, SiteFault>
    requires running { (S.world site.old).stopped ≡ false }
    requires within { edge < length graph.now.manifest.lines }
    requires command { (links_of graph.now).phony edge ≡ false }
    ensures looks { OnlyLooks S.tells (S.world site.old) (S.world site.new) }
    ensures cause { HasCause (S.world site.old) (S.world site.new) result }
    ensures there { FindsDepfileOf S.tells S.world site.old site.new graph.now edge result }
{
    has_depfile(site, command_of(graph, edge))
}

/// What the edge does.
pub(crate) fn command_of(graph: &Graph, edge: EdgeId) -> &Command
    requires within { edge < length graph.now.manifest.lines }
    requires command { (links_of graph.now).phony edge ≡ false }
    ensures { DoesCommand graph.now edge result.now }
{
    numbers_stand(graph);
    match graph.manifest.action(edge) {
        Action::Alias => unreachable!(),
        Action::Command(command) => command,
    }
}
