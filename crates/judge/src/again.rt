//! Finding again which edges are due, where little has changed.

ghost use Rattle.std.specs.Prelude.{◌≡◌, ◌<◌, [], OnOk, length, vec_len, false};
ghost use Rattle.model.specs.Calls.{HasCause};
ghost use Rattle.plan.specs.Flags.{AreNone};
ghost use Rattle.judge.specs.Answers.{KnowsRight};
ghost use Rattle.judge.specs.KeptDues.{AreRuledBut, AskForNone, LacksNoneBut};
ghost use Rattle.judge.specs.Looking.{HasLookedAt};
ghost use Rattle.judge.specs.Ruled.{FindsFlag, FindsAgain};
ghost use Rattle.judge.specs.Summed.{AreSums};

use crate::due::judged_due;
use crate::laws::looks_follow;
use crate::looks::Looks;
use graph::{Cone, Graph, lists_stand};
use model::SiteFault;
use paths::EdgeId;
use plan::Plan;
use records::Records;
use site::Site;
use std::mem;

impl Looks {
    /// Finds again the flags of which that is noted, in the order of the cone, and of those edges that need what an edge makes whose flag
    /// has changed. Those that nothing was noted of ask for no file. Where the site fails, what is left is noted still.
    pub(crate) fn due_again<S: Site>(
        &mut self,
        site: &mut S,
        graph: &Graph,
        cone: &Cone,
        plan: &Plan,
        records: &Records,
    ) -> Result<(), SiteFault>
        requires running { (S.world site.old).stopped ≡ false }
        requires fits { length self.old.seen.items ≡ length graph.now.manifest.paths }
        requires plan { vec_len plan.now.standings ≡ length graph.now.manifest.lines }
        requires known { KnowsRight graph.now records.now self.old }
        requires ruled { AreRuledBut graph.now records.now cone.now plan.now self.old.seen.items self.old.sums.answers.dues }
        requires asked { AskForNone graph.now cone.now plan.now self.old.sums.answers.dues }
        requires lacks { LacksNoneBut graph.now cone.now self.old.seen.items self.old.sums.answers.dues }
        ensures looked { HasLookedAt S.tells S.world site.old site.new graph.now self.old self.new }
        ensures cause { HasCause (S.world site.old) (S.world site.new) result }
        ensures known { KnowsRight graph.now records.now self.new }
        ensures kept { AreRuledBut graph.now records.now cone.now plan.now self.new.seen.items self.new.sums.answers.dues }
        ensures lacks { LacksNoneBut graph.now cone.now self.new.seen.items self.new.sums.answers.dues }
        ensures none { OnOk result (AreNone self.new.sums.answers.dues.todo) }
        ensures ruled { FindsAgain S.tells S.world site.old site.new graph.now records.now cone.now plan.now self.new result }
    {
        looks_follow();
        lists_stand(graph);
        self.sums.clear();
        while let Some(place) = self.sums.answers.dues.todo.first() {
            let edge = cone.order[place];
            let flag = self.flag_again(site, graph, plan, records, edge)?;
            self.sums.answers.dues.found(graph, cone, edge, flag);
        }
        Ok(())
    }

    /// Whether the edge is due: as it was judged, or else by the flags of the edges before it.
    fn flag_again<S: Site>(
        &mut self,
        site: &mut S,
        graph: &Graph,
        plan: &Plan,
        records: &Records,
        edge: EdgeId,
    ) -> Result<bool, SiteFault>
        requires running { (S.world site.old).stopped ≡ false }
        requires fits { length self.old.seen.items ≡ length graph.now.manifest.paths }
        requires within { edge < length graph.now.manifest.lines }
        requires plan { vec_len plan.now.standings ≡ length graph.now.manifest.lines }
        requires due { length self.old.sums.answers.dues.flags.items ≡ length graph.now.manifest.lines }
        requires summed { AreSums graph.now [] self.old.seen.items self.old.sums }
        requires known { KnowsRight graph.now records.now self.old }
        ensures looked { HasLookedAt S.tells S.world site.old site.new graph.now self.old self.new }
        ensures cause { HasCause (S.world site.old) (S.world site.new) result }
        ensures summed { AreSums graph.now [] self.new.seen.items self.new.sums }
        ensures known { KnowsRight graph.now records.now self.new }
        ensures dues { self.new.sums.answers.dues ≡ self.old.sums.answers.dues }
        ensures ruled { FindsFlag S.tells S.world site.old site.new graph.now records.now plan.now self.new edge result }
    {
        looks_follow();
        if let Some(judged) = judged_due(graph, plan, edge) {
            return Ok(judged);
        }
        let alloc = self.sums.alloc();
        let flags = mem::replace(&mut self.sums.answers.dues.flags, Vec::new(alloc));
        let found = self.is_due(site, graph, records, &flags, edge);
        self.sums.answers.dues.flags = flags;
        found
    }
}
