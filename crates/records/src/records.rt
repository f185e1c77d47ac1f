//! The records of a build.

ghost use Rattle.std.specs.Prelude.{◌≡◌, ◌≢◌, ◌<◌, ◌≤◌, [], suc, None, IfOk, OnOk, OnErr, false, string_bytes, length, slice_get, take};
ghost use Rattle.std.specs.Option.{option_map};
ghost use Rattle.model.specs.Calls.{OnlyLooks, HasCause};
ghost use Rattle.model.specs.Graph.{IsCommand, IsMadeOnce};
ghost use Rattle.theory.specs.Writes.{WritesAt};
ghost use Rattle.records.specs.Edges.{paths_in, declared_edges, declared_outputs};
ghost use Rattle.records.specs.Held.{IsLonger};
ghost use Rattle.records.specs.Known.{Knows, KnowsAll, OfKnown, OfKnownDeps, IsMade, IsTold, OfGrown, AreStillKnown};
ghost use Rattle.records.specs.Laws.{AreRead};
ghost use Rattle.records.specs.Left.{HasBegun, TellBegun, HasReported, TellReported, HasDone, TellDone, LeavesLogs};
ghost use Rattle.records.specs.Logging.{AreSameLogs};

use crate::lines::{begun_line_of, deps_line_of, done_line_of};
use crate::logs::Logs;
use graph::{Graph, lists_stand};
use log_text::{Deps, Done, Stock};
use model::{Record, SiteFault};
use paths::{EdgeId, PathId};
use site::Site;
use std::alloc::{AllocError, Global};

/// The records of a build: what its logs told at the entry, for each path of its graph by number, and the files behind which
/// more are put. Beside the logs as they were read a path takes 16 bytes for each log that told something; the room for a line is
/// lent again and again.
#[derive(Drop)]
pub struct Records {
    pub logs: Logs,
    /// For each path of the graph the number of its record of the build log in force at the entry; empty where that log told
    /// nothing.
    pub places: Vec<Option<usize>>,
    /// The same of the deps log.
    pub deps_places: Vec<Option<usize>>,
    line: Vec<u8>,
}

impl Records {
    /// Reads the logs at these paths. It only looks. An absent or empty log has no records, and neither has a damaged one, which
    /// is no fault; a torn one loses its last line alone. What the graph's edges do and a record tells stands in memory once.
    pub fn read<S: Site>(
        alloc: Global,
        site: &mut S,
        graph: &Graph,
        build_log: String,
        deps_log: String,
    ) -> Result<Records, SiteFault>
        requires running { (S.world site.old).stopped ≡ false }
        ensures looks { OnlyLooks S.tells (S.world site.old) (S.world site.new) }
        ensures cause { HasCause (S.world site.old) (S.world site.new) result }
        ensures build_log { IfOk result (λ records. records.logs.build_log.path ≡ string_bytes build_log) }
        ensures deps_log { IfOk result (λ records. records.logs.deps_log.path ≡ string_bytes deps_log) }
        ensures read { IfOk result (AreRead S.tells (S.world site.old) (S.world site.new) (paths_in graph.now)) }
    {
        let stock = stock_of(alloc, graph);
        let logs = Logs::read(&stock, site, build_log, deps_log)?;
        let places = logs.build_log.places(alloc, graph)?;
        let deps_places = logs.deps_log.places(alloc, graph)?;
        Ok(Records {
            logs,
            places,
            deps_places,
            line: Vec::new(alloc),
        })
    }

    /// Looks up the records of the entry for the paths that the graph got since they were looked up last, so that they are known of
    /// outputs that it got too. The logs are left alone, and the site is not asked. Where memory is refused, nothing is changed.
    pub fn grow(&mut self, graph: &Graph) -> Result<(), AllocError>
        ensures logs { self.new.logs ≡ self.old.logs }
        ensures known { OnOk result (OfGrown graph.now self.old (Knows graph.now self.new)) }
        ensures all { OnOk result (OfGrown graph.now self.old (KnowsAll graph.now self.new)) }
        ensures places { OnErr result (self.new.places.items ≡ self.old.places.items) }
        ensures deps_places { OnErr result (self.new.deps_places.items ≡ self.old.deps_places.items) }
    {
        let known = self.places.len();
        let deps_known = self.deps_places.len();
        let grown = self.look_up(graph);
        if grown.is_err() {
            self.places.truncate(known);
            self.deps_places.truncate(deps_known);
        }
        grown
    }

    /// Forgets what was looked up for paths that the graph has no more, as a load was taken back. It takes no memory.
    pub fn shrink(&mut self, graph: &Graph)
        ensures logs { self.new.logs ≡ self.old.logs }
        ensures places { self.new.places.items ≡ take (length (paths_in graph.now)) self.old.places.items }
        ensures deps_places { self.new.deps_places.items ≡ take (length (paths_in graph.now)) self.old.deps_places.items }
        ensures known { AreStillKnown graph.now self.old self.new }
    {
        lists_stand(graph);
        self.places.truncate(graph.paths());
        self.deps_places.truncate(graph.paths());
    }

    /// The same, but that some paths may be looked up where memory is refused.
    fn look_up(&mut self, graph: &Graph) -> Result<(), AllocError>
        ensures logs { self.new.logs ≡ self.old.logs }
        ensures known { OnOk result (OfGrown graph.now self.old (Knows graph.now self.new)) }
        ensures all { OnOk result (OfGrown graph.now self.old (KnowsAll graph.now self.new)) }
        ensures places { IsLonger self.old.places.items self.new.places.items }
        ensures deps_places { IsLonger self.old.deps_places.items self.new.deps_places.items }
    {
        lists_stand(graph);
        self.logs.build_log.look_up(graph, &mut self.places)?;
        self.logs.deps_log.look_up(graph, &mut self.deps_places)?;
        Ok(())
    }

    /// The record in force at the entry for a path that was looked up; none for one that the graph got since then, whatever the
    /// log tells of its text. It takes no memory.
    pub fn made(&self, path: PathId) -> Option<&Done>
        ensures made { OfKnown self.now (λ rs paths. path < length paths → IsMade result rs paths path) }
        ensures later { OfKnown self.now (λ rs paths. length paths ≤ path → result ≡ None) }
    {
        let place = (*self.places.get(path.index())?)?;
        self.logs.build_log.log().done_at(place)
    }

    /// The deps record in force at the entry, in the same way. `deps_path` gives the paths that it names. It takes no memory.
    pub fn deps(&self, path: PathId) -> Option<&Deps>
        ensures told { OfKnownDeps self.now (λ ds paths. path < length paths → IsTold self.now result ds paths path) }
        ensures later { OfKnownDeps self.now (λ ds paths. length paths ≤ path → result ≡ None) }
    {
        let place = (*self.deps_places.get(path.index())?)?;
        self.logs.deps_log.log().deps_at(place)
    }

    /// The text of a path that a deps record names by this number. It takes no memory.
    pub fn deps_path(&self, number: u32) -> Option<&str>
        ensures { option_map (λ path. path.now) result ≡ slice_get self.now.logs.deps_log.log.outputs number }
    {
        self.logs.deps_log.log().path(number)
    }

    /// Puts one record behind the build log that says that the command of the edge is about to start: no earlier record of its
    /// outputs is in force any more.
    ///
    /// Where it fails the log may tell so already, or may be torn; nothing more may be put behind it.
    pub fn begin<S: Site>(
        &mut self,
        alloc: Global,
        site: &mut S,
        graph: &Graph,
        edge: EdgeId,
    ) -> Result<(), SiteFault>
        requires running { (S.world site.old).stopped ≡ false }
        requires within { edge < length graph.now.manifest.lines }
        requires once { IsMadeOnce (declared_edges graph.now) }
        requires some { declared_outputs graph.now edge ≢ [] }
        ensures cause { HasCause (S.world site.old) (S.world site.new) result }
        ensures writes { WritesAt S.tells self.old.logs.build_log.path (S.world site.old) (S.world site.new) }
        ensures same { AreSameLogs self.old.logs self.new.logs }
        ensures places { self.new.places.items ≡ self.old.places.items }
        ensures deps_places { self.new.deps_places.items ≡ self.old.deps_places.items }
        ensures ok { OnOk result (LeavesLogs (HasBegun S.tells) S.world site.old site.new graph.now edge self.old self.new) }
        ensures err { OnErr result (LeavesLogs (TellBegun S.tells) S.world site.old site.new graph.now edge self.old self.new) }
    {
        begun_line_of(alloc, &mut self.line, graph, edge)?;
        self.logs
            .build_log
            .append(alloc, site, self.line.as_slice())?;
        Ok(())
    }

    /// Puts one record behind the deps log that says that the command of the edge, which was started under this stamp and ended
    /// well, told that it read these paths. Behind it `done` is to follow, before another command is taken in.
    ///
    /// Where it fails the log may tell so already, or may be torn; nothing more may be put behind it.
    pub fn report<S: Site>(
        &mut self,
        alloc: Global,
        site: &mut S,
        graph: &Graph,
        edge: EdgeId,
        start: u64,
        paths: &[&str],
    ) -> Result<(), SiteFault>
        requires running { (S.world site.old).stopped ≡ false }
        requires within { edge < length graph.now.manifest.lines }
        requires once { IsMadeOnce (declared_edges graph.now) }
        requires some { declared_outputs graph.now edge ≢ [] }
        ensures cause { HasCause (S.world site.old) (S.world site.new) result }
        ensures writes { WritesAt S.tells self.old.logs.deps_log.path (S.world site.old) (S.world site.new) }
        ensures same { AreSameLogs self.old.logs self.new.logs }
        ensures places { self.new.places.items ≡ self.old.places.items }
        ensures deps_places { self.new.deps_places.items ≡ self.old.deps_places.items }
        ensures ok { OnOk result (LeavesLogs (HasReported S.tells start paths.now) S.world site.old site.new graph.now edge self.old self.new) }
        ensures err { OnErr result (LeavesLogs (TellReported S.tells start) S.world site.old site.new graph.now edge self.old self.new) }
    {
        deps_line_of(alloc, &mut self.line, graph, edge, start, paths)?;
        self.logs
            .deps_log
            .append(alloc, site, self.line.as_slice())?;
        Ok(())
    }

    /// Puts one record behind the build log that says that the command of the edge, which was started under this stamp, ended well.
    ///
    /// Where it fails the log may tell so already, or may be torn; nothing more may be put behind it.
    pub fn done<S: Site>(
        &mut self,
        alloc: Global,
        site: &mut S,
        graph: &Graph,
        edge: EdgeId,
        start: u64,
    ) -> Result<(), SiteFault>
        requires running { (S.world site.old).stopped ≡ false }
        requires within { edge < length graph.now.manifest.lines }
        requires once { IsMadeOnce (declared_edges graph.now) }
        requires some { declared_outputs graph.now edge ≢ [] }
        requires command { IsCommand (declared_edges graph.now) (suc edge) }
        ensures cause { HasCause (S.world site.old) (S.world site.new) result }
        ensures writes { WritesAt S.tells self.old.logs.build_log.path (S.world site.old) (S.world site.new) }
        ensures same { AreSameLogs self.old.logs self.new.logs }
        ensures places { self.new.places.items ≡ self.old.places.items }
        ensures deps_places { self.new.deps_places.items ≡ self.old.deps_places.items }
        ensures ok { OnOk result (LeavesLogs (HasDone S.tells start) S.world site.old site.new graph.now edge self.old self.new) }
        ensures err { OnErr result (LeavesLogs (TellDone S.tells start) S.world site.old site.new graph.now edge self.old self.new) }
    {
        done_line_of(alloc, &mut self.line, graph, edge, start)?;
        self.logs
            .build_log
            .append(alloc, site, self.line.as_slice())?;
        Ok(())
    }
}

/// Memory, and what the edges of the graph do, by what they make.
fn stock_of(alloc: Global, graph: &Graph) -> Stock<'_> {
    let manifest = &graph.manifest;
    let paths = &manifest.paths;
    let makers = &graph.makers;
    let actions = &manifest.actions;
    Stock::with_acts(alloc, paths, makers.as_slice(), actions.as_slice())
}
