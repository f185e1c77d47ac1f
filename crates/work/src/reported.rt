//! What commands tell in their depfiles (manual: "Depfile").

ghost use Rattle.std.specs.Prelude.{◌≡◌, ◌≢◌, [], ◌<◌, true, false, Some, None, IfOk, IfErr, IsOk};
ghost use Rattle.model.specs.declared.fault.SiteFault.TheVariants.{Memory};
ghost use Rattle.model.specs.declared.graph.Deps.TheVariants.{Gcc};
ghost use Rattle.model.specs.Calls.{OnlyLooks, HasCause, WritesOrNot};
ghost use Rattle.theory.specs.Writes.{WritesAt};
ghost use Rattle.work.specs.Starting.{IsTakenInOf, MayBeDoneThen, CutsTelling};
ghost use Rattle.work.specs.Telling.{Says, WasRead, fault_in, ended_well};
ghost use Rattle.work.specs.Removing.{RemovesIfNamed, RemovesRead};

use crate::state::Work;
use depfile::{DepFault, Listed, ReadError, borrowed_inputs};
use model::{Act, Deps, Finished, SiteFault};
use paths::{Command, EdgeId};
use site::Site;
use std::alloc::Global;
use text::Bytes;

/// What the depfile of a command says that has ended.
#[derive(Drop)]
pub enum Told<'a> {
    /// Nothing is read: the command failed, or names no depfile.
    Nothing,
    /// The command read these paths too; none where there is no depfile.
    Inputs(Listed<'a>),
    /// The depfile is refused, and so the command counts as failed.
    Refused(DepFault),
}

impl Told<'_> {
    /// What is wrong with the depfile, if it is refused.
    pub fn fault(&self) -> Option<DepFault>
        ensures { result ≡ fault_in self.now }
    {
        match self {
            Told::Refused(fault) => Some(*fault),
            _ => None,
        }
    }
}

/// Reads the depfile that the act names, of a command that has ended so. One that is not there lists nothing. What is told stands in
/// the content, into which it is read.
pub fn read_told<'a, S: Site>(
    alloc: Global,
    site: &mut S,
    act: &Act,
    ok: bool,
    content: &'a mut Option<Bytes>,
) -> Result<Told<'a>, SiteFault>
    requires running { (S.world site.old).stopped ≡ false }
    ensures looks { OnlyLooks S.tells (S.world site.old) (S.world site.new) }
    ensures cause { HasCause (S.world site.old) (S.world site.new) result }
    ensures read { IfOk result (WasRead S.tells act.now ok (S.world site.old) (S.world site.new)) }
    ensures named { IfErr result (λ fault. act.now.depfile ≢ []) }
{
    if !ok || act.depfile.is_empty() {
        return Ok(Told::Nothing);
    }
    *content = site.read(act.depfile.as_str())?;
    match content {
        None => Ok(Told::Inputs(Listed::new(alloc))),
        Some(bytes) => told_by(alloc, bytes.as_slice()),
    }
}

/// What the content of a depfile says.
fn told_by(alloc: Global, content: &[u8]) -> Result<Told<'_>, SiteFault>
    ensures says { IfOk result (Says (Some content.now)) }
    ensures err { IfErr result (λ fault. fault ≡ Memory) }
{
    match borrowed_inputs(alloc, content) {
        Ok(paths) => Ok(Told::Inputs(paths)),
        Err(ReadError::Fault(fault)) => Ok(Told::Refused(fault)),
        Err(ReadError::Memory) => Err(SiteFault::Memory),
    }
}

/// How the command ended, where its depfile says this: a refused one makes it a failed one.
pub fn ended(finished: Finished, told: &Told<'_>) -> Finished
    ensures job { result.job ≡ finished.job }
    ensures ok { result.ok ≡ ended_well finished.ok told.now }
    ensures output { result.output ≡ finished.output }
{
    let ok = finished.ok && told.fault().is_none();
    Finished {
        job: finished.job,
        ok,
        output: finished.output,
    }
}

impl Work<'_> {
    /// Puts behind the deps log what the command of the edge told, which was started under this stamp.
    pub(crate) fn report<S: Site>(
        &mut self,
        site: &mut S,
        edge: EdgeId,
        start: u64,
        told: &Told<'_>,
    ) -> Result<(), SiteFault>
        requires running { (S.world site.old).stopped ≡ false }
        requires taken_in { IsTakenInOf S.tells self.old.graph edge start true told.now self.old (S.world site.old) }
        ensures graph { self.new.graph ≡ self.old.graph }
        ensures cause { HasCause (S.world site.old) (S.world site.new) result }
        ensures writes { WritesAt S.tells self.old.records.logs.deps_log.path (S.world site.old) (S.world site.new) }
        ensures plan { self.new.plan ≡ self.old.plan }
        ensures starts { self.new.starts ≡ self.old.starts }
        ensures looks { self.new.looks ≡ self.old.looks }
        ensures failed { self.new.failed ≡ self.old.failed }
        ensures on { MayBeDoneThen S.tells S.world site.old site.new edge start told.now self.old self.new result }
        ensures cut { CutsTelling S.tells S.world site.old site.new edge start told.now self.old self.new result }
    {
        let Told::Inputs(paths) = told else {
            return Ok(());
        };
        let texts = paths.texts(self.alloc)?;
        self.records
            .report(self.alloc, site, &self.graph, edge, start, &texts)
    }
}

/// Removes the depfile that the act names, if it names one, before the command starts. Where it fails, it is as it was, or gone.
pub fn remove_old_depfile<S: Site>(site: &mut S, act: &Act) -> Result<(), SiteFault>
    requires running { (S.world site.old).stopped ≡ false }
    ensures cause { HasCause (S.world site.old) (S.world site.new) result }
    ensures none { act.now.depfile ≡ [] → IsOk result × (S.world site.new ≡ S.world site.old) }
    ensures at { WritesOrNot S.tells act.now.depfile None (S.world site.old) (S.world site.new) }
    ensures removed { RemovesIfNamed S.tells S.world site.old site.new act.now.depfile result }
{
    if act.depfile.is_empty() {
        return Ok(());
    }
    site.remove(act.depfile.as_str())
}

/// Removes the depfile of a command that is recorded, where it is not to stay (manual: "deps"). Where it fails, it is as it was, or
/// gone.
pub fn remove_read_depfile<S: Site>(site: &mut S, command: &Command) -> Result<(), SiteFault>
    requires running { (S.world site.old).stopped ≡ false }
    ensures cause { HasCause (S.world site.old) (S.world site.new) result }
    ensures stays { command.now.deps ≢ Gcc → IsOk result × (S.world site.new ≡ S.world site.old) }
    ensures at { WritesOrNot S.tells command.now.act.depfile None (S.world site.old) (S.world site.new) }
    ensures removed { RemovesRead S.tells S.world site.old site.new command.now result }
{
    if command.deps != Deps::Gcc {
        return Ok(());
    }
    remove_old_depfile(site, &command.act)
}
