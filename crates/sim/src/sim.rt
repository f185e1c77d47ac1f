//! A site in memory, whose commands do their work when they start or when they end.

ghost use Rattle.std.specs.Prelude.{◌≡◌, ◌⊎◌, ◌+◌, ◌++◌, ℕ, List, [], take, IsErr, true, false, Some, None, option_copied, option_map, IsTrue, IsErrOf, IfOk, IfErr, OnOk, OnErr};
ghost use Rattle.model.specs.World.{view_of, file_at, latest};
ghost use Rattle.model.specs.Calls.{content_or_empty, HasCause, KeepsWait, OnlyLooks, OthersWrote};
ghost use Rattle.sim.specs.World.{world_of, HasWritten};
ghost use Rattle.model.specs.World.{runs, IsRunning};
ghost use Rattle.sim.specs.Sim.{Goes, GoesDoing, GoesTaking, GoesWait, Ends, Halts, Restarts, OnlyTheyWrote, RefusedAsNamed, refusing, launched, called, naming, storing, putting, putting_first, trouble_of, carried, given_by, worked_off};
ghost use Rattle.site.specs.Files.{SawContent, SawStamp};
ghost use Rattle.sim.specs.Faults.{refusal, stop_in};
ghost use Rattle.sim.specs.Jobs.{AllRun};
ghost use Rattle.sim.specs.World.{appended};

use crate::commands::Commands;
use crate::faults::{Call, Faults, Named, Trouble};
use crate::history::History;
use crate::jobs::{Jobs, Order, Running};
use model::{Act, Event, Finished, Outcome, SiteFault, Writer};
use site::{Site, Texts};
use std::alloc::{AllocError, Global};
use std::collections::BTreeMap;
use std::mem;
use text::{Bytes, Items, Path};

/// A site in memory, for tests and scripts. Its commands write when they start or when they end, in the view of that
/// moment. The device refuses just the calls that `fail` and `gate` name, and the site stops just in those that `stop_at`
/// names; else a call fails only where memory is refused or no stamp or count is left. A call that is refused, or that
/// finds no memory, has changed nothing but what is counted or noted of it. No call goes through what happened before to
/// find a file or a command.
#[derive(Drop)]
pub struct Sim<C> {
    alloc: Global,
    commands: C,
    history: History,
    jobs: Jobs,
    /// What the last tick gave.
    ticked: u64,
    failures: u64,
    /// How many calls had been refused when the last command was started.
    failures_at_start: u64,
    /// How many calls had been refused before the last wait that was refused or in which the site stopped, if one was since
    /// the last restart.
    wait_refused: Option<u64>,
    faults: Faults,
    /// How many commands have to run where one is waited for next, unless the device is to refuse it.
    gate: usize,
    order: Order,
    timing: Timing,
    /// Whether some command found no memory for its writes when the site stopped or was started again.
    lost: bool,
    shown: Vec<u8>,
}

/// When commands write.
#[derive(Clone, Copy, Debug, PartialEq, Eq)]
pub enum Timing {
    /// When they start, in the view of that moment.
    Early,
    /// When they end, in the view of that moment.
    Late,
}

impl<C: Commands> Sim<C> {
    ghost use Rattle.sim.specs.World.{wrote, fresh};

    /// A site on which nothing has happened. This takes no memory.
    pub fn new(alloc: Global, commands: C) -> Sim<C>
        ensures { world_of result ≡ fresh }
    {
        Sim {
            alloc,
            commands,
            history: History::new(alloc),
            jobs: Jobs::new(alloc),
            ticked: 0,
            failures: 0,
            failures_at_start: 0,
            wait_refused: None,
            faults: Faults::new(alloc),
            gate: 0,
            order: Order::First,
            timing: Timing::Late,
            lost: false,
            shown: Vec::new(alloc),
        }
    }

    /// Someone writes a file.
    pub fn put(&mut self, path: &str, content: &[u8]) -> Result<(), AllocError>
        ensures ok { OnOk result (HasWritten Writer.Someone path.now (Some content.now) self.old self.new) }
        ensures err { OnErr result (self.new ≡ self.old) }
    {
        let path = Path::from_str(self.alloc, path)?;
        let content = Bytes::from_slice(self.alloc, content)?;
        self.history.write(Writer::Someone, path, Some(content))?;
        Ok(())
    }

    /// Someone deletes a file.
    pub fn erase(&mut self, path: &str) -> Result<(), AllocError>
        ensures ok { OnOk result (HasWritten Writer.Someone path.now None self.old self.new) }
        ensures err { OnErr result (self.new ≡ self.old) }
    {
        let path = Path::from_str(self.alloc, path)?;
        self.history.write(Writer::Someone, path, None)?;
        Ok(())
    }

    /// From now on, of the running commands this one ends next.
    pub fn order(&mut self, order: Order)
        ensures { self.new ≡ record self.old { order = order } }
    {
        self.order = order;
    }

    /// Commands that are started from now on write at this time.
    pub fn timing(&mut self, timing: Timing)
        ensures { self.new ≡ record self.old { timing = timing } }
    {
        self.timing = timing;
    }

    /// The device refuses the next wait where fewer commands run.
    pub fn gate(&mut self, commands: usize)
        ensures { self.new ≡ record self.old { gate = commands } }
    {
        self.gate = commands;
    }

    /// The device refuses a call of this kind: the next one where `number` is 1, the one behind it where it is 2, and so
    /// on. Where a stop is named for it too, this goes first.
    pub fn fail(&mut self, call: Call, number: u64) -> Result<(), AllocError>
        ensures ok { OnOk result (self.new ≡ naming (refusal call number) self.old) }
        ensures err { OnErr result (self.new ≡ self.old) }
    {
        self.faults.name(Named {
            call,
            left: number,
            trouble: Trouble::Refused,
        })
    }

    /// The site stops in a call of this kind, which is counted likewise. An append puts so many of its bytes behind the
    /// file before, a start has started its command, and every other call has changed nothing.
    pub fn stop_at(&mut self, call: Call, number: u64, bytes: usize) -> Result<(), AllocError>
        ensures ok { OnOk result (self.new ≡ naming (stop_in call number bytes) self.old) }
        ensures err { OnErr result (self.new ≡ self.old) }
    {
        self.faults.name(Named {
            call,
            left: number,
            trouble: Trouble::Stop { bytes },
        })
    }

    /// What was named and has not come does not come any more, and no gate stands.
    pub fn forget_faults(&mut self)
        ensures { self.new ≡ record self.old { faults = []; gate = 0 } }
    {
        self.faults.forget();
        self.gate = 0;
    }

    /// What was shown so far.
    pub fn shown(&self) -> &[u8]
        ensures { result.now ≡ self.now.shown.items }
    {
        &self.shown
    }

    /// Whether some command found no memory for its writes when the site stopped or was started again.
    pub fn lost(&self) -> bool
        ensures { result ≡ self.now.lost }
    {
        self.lost
    }

    /// What the file at the path holds, or nothing where there is no file.
    pub fn content(&self, path: &str) -> Option<&Bytes>
        ensures { option_copied result ≡ view_of (world_of self.now).history path.now }
    {
        self.history.content(path)
    }

    /// A call of this kind comes. Unless it is refused, what is answered is whether the site stops in it, and how many
    /// bytes an append puts down before.
    fn enter(&mut self, call: Call) -> Result<Option<usize>, SiteFault>
        ensures called { OnOk result (self.new ≡ called call self.old) }
        ensures went { OnOk result (self.old.jobs.stopped ≡ false) }
        ensures stop { IfOk result (λ stop. trouble_of call self.old ≡ option_map Trouble.Stop stop) }
        ensures device { IsErrOf result SiteFault.Device → RefusedAsNamed call self.old self.new }
        ensures stopped { IsErrOf result SiteFault.Stopped → (self.old.jobs.stopped ≡ true) × (self.new ≡ self.old) }
        ensures memory { IsErrOf result SiteFault.Memory → self.new ≡ called call self.old }
        ensures after_stop { self.old.jobs.stopped ≡ true → IsErrOf result SiteFault.Stopped }
    {
        if self.jobs.stopped() {
            return Err(SiteFault::Stopped);
        }
        match self.faults.pass(call) {
            None => Ok(None),
            Some(Trouble::Stop { bytes }) => Ok(Some(bytes)),
            Some(Trouble::Refused) => {
                self.failures = self.failures.checked_add(1).ok_or(AllocError)?;
                Err(SiteFault::Device)
            }
        }
    }

    /// A call of this kind comes, in which nothing is done where the site stops in it.
    fn pass(&mut self, call: Call) -> Result<(), SiteFault>
        ensures called { OnOk result (self.new ≡ called call self.old) }
        ensures cause { HasCause (world_of self.old) (world_of self.new) result }
        ensures waits { KeepsWait (world_of self.old) (world_of self.new) }
        ensures looks { OnlyLooks true (world_of self.old) (world_of self.new) }
        ensures goes { Goes C.outcome call self.old self.new result }
    {
        match self.enter(call)? {
            None => Ok(()),
            Some(_) => {
                self.halt();
                Err(SiteFault::Stopped)
            }
        }
    }

    /// The site stops. The commands that run make their writes in turn, as far as they find memory.
    fn halt(&mut self)
        requires { self.old.jobs.stopped ≡ false }
        ensures { Halts C.outcome self.old self.new }
    {
        let running = self.jobs.stop();
        if !carry_out(self.alloc, &self.commands, &mut self.history, running) {
            self.lost = true;
        }
    }

    /// The device refuses a call.
    fn refuse<T>(&mut self) -> Result<T, SiteFault>
        ensures refused { IsErrOf result SiteFault.Device → self.new ≡ refusing self.old }
        ensures memory { IsErrOf result SiteFault.Memory → self.new ≡ self.old }
        ensures fault { IfErr result (λ fault. (fault ≡ SiteFault.Device) ⊎ (fault ≡ SiteFault.Memory)) }
        ensures err { IsErr result }
    {
        self.failures = self.failures.checked_add(1).ok_or(AllocError)?;
        Err(SiteFault::Device)
    }

    /// The bytes go behind what the file holds.
    fn put_behind(&mut self, path: &str, bytes: &[u8]) -> Result<(), AllocError>
        ensures ok { OnOk result (self.new ≡ putting path.now bytes.now self.old) }
        ensures err { OnErr result (self.new ≡ self.old) }
    {
        let path = Path::from_str(self.alloc, path)?;
        self.history.append(self.alloc, path, bytes)
    }

    /// So many of the bytes go behind what the file holds, or all where there are no more; none give no new stamp.
    fn put_part_behind(&mut self, path: &str, bytes: &[u8], count: usize) -> Result<(), AllocError>
        ensures ok { OnOk result (self.new ≡ putting_first path.now bytes.now count self.old) }
        ensures err { OnErr result (self.new ≡ self.old) }
    {
        let part = &bytes[..count.min(bytes.len())];
        if part.is_empty() {
            return Ok(());
        }
        self.put_behind(path, part)
    }

    /// Starts a command.
    fn launch(&mut self, job: usize, act: &Act) -> Result<(), AllocError>
        requires { (self.old.jobs.stopped ≡ false) × (runs job (world_of self.old).events ≡ false) }
        ensures ok { OnOk result (self.new ≡ launched C.outcome job act.now self.old) }
        ensures err { OnErr result (self.new ≡ self.old) }
    {
        let (done, writes) = match self.timing {
            Timing::Late => (None, Items::new(self.alloc)),
            Timing::Early => {
                let Outcome { ok, writes } = self.commands.run(self.alloc, act, &self.history)?;
                (Some(ok), writes)
            }
        };
        self.jobs
            .start(&mut self.history, job, act, self.ticked, done, writes)?;
        self.failures_at_start = self.failures;
        Ok(())
    }

    /// Takes in the running command that is next in the order that was chosen. Who calls it notes whether it was refused.
    fn take_next(&mut self) -> Result<Finished, SiteFault>
        requires { (job : ℕ) × (runs job (world_of self.old).events ≡ true) }
        ensures cause { HasCause (world_of self.old) (world_of self.new) result }
        ensures waits { KeepsWait (world_of self.old) (world_of self.new) }
        ensures err { OnErr result (OnlyLooks true (world_of self.old) (world_of self.new)) }
        ensures ends { IfOk result (λ finished. Ends C.outcome finished self.old self.new) }
        ensures goes { GoesTaking C.outcome Call.WaitAny self.old self.new result }
    {
        self.pass(Call::WaitAny)?;
        let gate = mem::replace(&mut self.gate, 0);
        if self.jobs.len() < gate {
            return self.refuse();
        }
        let (job, one) = self.jobs.next(self.order);
        let Outcome { ok, writes } = outcome_of(self.alloc, &self.commands, &self.history, one)?;
        self.history
            .record(job, None, writes, Some(Event::Finish { job, ok }))?;
        self.jobs.finish(job, ok);
        Ok(Finished {
            job,
            ok,
            output: Bytes::new(self.alloc),
        })
    }

    /// The program writes a file, or with no content deletes it.
    fn store(&mut self, path: &str, content: Option<Bytes>) -> Result<u64, AllocError>
        ensures stamp { IfOk result (λ stamp. stamp ≡ latest self.old.history + 1) }
        ensures ok { OnOk result (self.new ≡ storing path.now content self.old) }
        ensures err { OnErr result (self.new ≡ self.old) }
    {
        let path = Path::from_str(self.alloc, path)?;
        self.history.write(Writer::Program, path, content)
    }
}

impl<C: Commands> Texts for Sim<C> {
    ghost use Rattle.std.specs.Prelude.{true};
    ghost use Rattle.model.specs.World.{content_of};
    ghost use Rattle.model.specs.Calls.{Sees};

    ghost tells = { true };

    ghost world = { world_of };

    #[tactic(auto, using(crate::proofs::Steps::sees_now))]
    fn read(&mut self, path: &str) -> Result<Option<Bytes>, SiteFault>
        ensures looks { OnlyLooks true (world_of self.old) (world_of self.new) }
        ensures cause { HasCause (world_of self.old) (world_of self.new) result }
        ensures waits { KeepsWait (world_of self.old) (world_of self.new) }
        ensures content { IfOk result (λ content. SawContent path.now content self.old.history self.new.history) }
        ensures present { IfOk result (λ content. content ≡ view_of (world_of self.old).history path.now) }
        ensures goes { Goes C.outcome Call.Read self.old self.new result }
    {
        self.pass(Call::Read)?;
        match self.history.content(path) {
            Some(content) => Ok(Some(content.clone()?)),
            None => Ok(None),
        }
    }

    fn failures(&self) -> u64 {
        self.failures
    }
}

/// Commands that have not made their writes make them, lowest number first. Those that find no memory make none;
/// answered is whether all found it.
fn carry_out<C: Commands>(
    alloc: Global,
    commands: &C,
    history: &mut History,
    mut running: BTreeMap<usize, Running>,
) -> bool
    ensures others { OnlyTheyWrote (AllRun running.entries) history.old history.new }
    ensures all { IsTrue result → history.new ≡ carried C.outcome running.entries history.old }
{
    let mut complete = true;
    while let Some((job, one)) = running.pop_first() {
        let worked = work_off(alloc, commands, history, job, &one);
        complete = both(complete, worked);
    }
    complete
}

/// A command that has not made its writes makes them, unless it finds no memory, and answers whether it did.
fn work_off<C: Commands>(
    alloc: Global,
    commands: &C,
    history: &mut History,
    job: usize,
    one: &Running,
) -> bool
    ensures others { OnlyTheyWrote (λ events. runs job events ≡ true) history.old history.new }
    ensures done { IsTrue result → history.new ≡ worked_off C.outcome job one.now history.old }
{
    let Ok(outcome) = outcome_of(alloc, commands, history, one) else {
        return false;
    };
    match history.record(job, None, outcome.writes, None) {
        Ok(()) => true,
        Err(_) => false,
    }
}

/// What a running command gives at its end. Nothing is left to write where it has written.
fn outcome_of<C: Commands>(
    alloc: Global,
    commands: &C,
    history: &History,
    one: &Running,
) -> Result<Outcome, AllocError>
    ensures { IfOk result (λ given. given ≡ given_by C.outcome one.now history.now) }
{
    match one.done {
        None => commands.run(alloc, &one.act, history),
        Some(ok) => Ok(Outcome {
            ok,
            writes: Items::new(alloc),
        }),
    }
}

fn both(one: bool, other: bool) -> bool
    ensures one { IsTrue result → IsTrue one }
    ensures other { IsTrue result → IsTrue other }
{
    one && other
}

/// A copy of what the file at the path holds, with nothing in it where there is no file.
fn content_or_empty(alloc: Global, history: &History, path: &str) -> Result<Bytes, AllocError>
    ensures { IfOk result (λ content. content ≡ content_or_empty (file_at history.now path.now)) }
{
    match history.content(path) {
        Some(content) => Ok(content.clone()?),
        None => Ok(Bytes::new(alloc)),
    }
}

impl<C: Commands> Site for Sim<C> {
    ghost use Rattle.model.specs.World.{stamp_of};
    ghost use Rattle.model.specs.Calls.{NotesWait, Sees, Ticks, TicksOrNot, Writes, WritesOrNot, SpoilsOrNot, Appends, AppendsOrNot, Starts, StartsOrNot, Finishes, IsRestart};
    ghost use Rattle.sim.specs.World.{ticked, wrote};

    ghost outcome = { C.outcome };

    #[tactic(auto, using(crate::proofs::Steps::sees_now))]
    fn stat(&mut self, path: &str) -> Result<Option<u64>, SiteFault>
        ensures looks { OnlyLooks true (world_of self.old) (world_of self.new) }
        ensures cause { HasCause (world_of self.old) (world_of self.new) result }
        ensures waits { KeepsWait (world_of self.old) (world_of self.new) }
        ensures stamp { IfOk result (λ stamp. SawStamp path.now stamp self.old.history self.new.history) }
        ensures present { IfOk result (λ stamp. stamp ≡ stamp_of (file_at (world_of self.old).history path.now)) }
        ensures goes { Goes C.outcome Call.Stat self.old self.new result }
    {
        self.pass(Call::Stat)?;
        Ok(self.history.stamp(path))
    }

    fn tick(&mut self, path: &str) -> Result<u64, SiteFault>
        ensures cause { HasCause (world_of self.old) (world_of self.new) result }
        ensures waits { KeepsWait (world_of self.old) (world_of self.new) }
        ensures ticks { IfOk result (λ stamp. Ticks true path.now stamp (world_of self.old) (world_of self.new)) }
        ensures err { OnErr result (TicksOrNot true path.now (world_of self.old) (world_of self.new)) }
        ensures later { IfOk result (λ stamp. stamp ≡ latest (world_of self.old).history + 1) }
        ensures adds { OnOk result (world_of self.new ≡ ticked path.now (world_of self.old)) }
        ensures goes { Goes C.outcome Call.Tick self.old self.new result }
    {
        self.pass(Call::Tick)?;
        let content = content_or_empty(self.alloc, &self.history, path)?;
        let stamp = self.store(path, Some(content))?;
        self.ticked = stamp;
        Ok(stamp)
    }

    fn append(&mut self, path: &str, bytes: &[u8]) -> Result<(), SiteFault>
        ensures cause { HasCause (world_of self.old) (world_of self.new) result }
        ensures waits { KeepsWait (world_of self.old) (world_of self.new) }
        ensures appends { OnOk result (Appends true path.now bytes.now (world_of self.old) (world_of self.new)) }
        ensures err { OnErr result (AppendsOrNot true path.now bytes.now (world_of self.old) (world_of self.new)) }
        ensures adds { OnOk result (world_of self.new ≡ appended path.now bytes.now (world_of self.old)) }
        ensures goes { GoesDoing C.outcome Call.Append (putting_first path.now bytes.now) self.old self.new result }
    {
        match self.enter(Call::Append)? {
            None => self.put_behind(path, bytes)?,
            Some(count) => {
                self.put_part_behind(path, bytes, count)?;
                self.halt();
                return Err(SiteFault::Stopped);
            }
        }
        Ok(())
    }

    fn replace(&mut self, path: &str, content: &[u8]) -> Result<(), SiteFault>
        ensures cause { HasCause (world_of self.old) (world_of self.new) result }
        ensures waits { KeepsWait (world_of self.old) (world_of self.new) }
        ensures writes { OnOk result (Writes true path.now (Some content.now) (world_of self.old) (world_of self.new)) }
        ensures err { OnErr result (WritesOrNot true path.now (Some content.now) (world_of self.old) (world_of self.new)) }
        ensures adds { OnOk result (HasWritten Writer.Program path.now (Some content.now) self.old self.new) }
        ensures goes { Goes C.outcome Call.Replace self.old self.new result }
    {
        self.pass(Call::Replace)?;
        let content = Bytes::from_slice(self.alloc, content)?;
        self.store(path, Some(content))?;
        Ok(())
    }

    fn write(&mut self, path: &str, content: &[u8]) -> Result<(), SiteFault>
        ensures cause { HasCause (world_of self.old) (world_of self.new) result }
        ensures waits { KeepsWait (world_of self.old) (world_of self.new) }
        ensures writes { OnOk result (Writes true path.now (Some content.now) (world_of self.old) (world_of self.new)) }
        ensures err { OnErr result (SpoilsOrNot true path.now (world_of self.old) (world_of self.new)) }
        ensures adds { OnOk result (HasWritten Writer.Program path.now (Some content.now) self.old self.new) }
        ensures goes { Goes C.outcome Call.Write self.old self.new result }
    {
        self.pass(Call::Write)?;
        let content = Bytes::from_slice(self.alloc, content)?;
        self.store(path, Some(content))?;
        Ok(())
    }

    fn remove(&mut self, path: &str) -> Result<(), SiteFault>
        ensures cause { HasCause (world_of self.old) (world_of self.new) result }
        ensures waits { KeepsWait (world_of self.old) (world_of self.new) }
        ensures writes { OnOk result (Writes true path.now None (world_of self.old) (world_of self.new)) }
        ensures err { OnErr result (WritesOrNot true path.now None (world_of self.old) (world_of self.new)) }
        ensures adds { OnOk result (HasWritten Writer.Program path.now None self.old self.new) }
        ensures goes { Goes C.outcome Call.Remove self.old self.new result }
    {
        self.pass(Call::Remove)?;
        self.store(path, None)?;
        Ok(())
    }

    fn make_dirs(&mut self, _path: &str) -> Result<(), SiteFault>
        ensures looks { OnlyLooks true (world_of self.old) (world_of self.new) }
        ensures cause { HasCause (world_of self.old) (world_of self.new) result }
        ensures waits { KeepsWait (world_of self.old) (world_of self.new) }
        ensures goes { Goes C.outcome Call.MakeDirs self.old self.new result }
    {
        self.pass(Call::MakeDirs)
    }

    fn start(&mut self, job: usize, act: &Act, _console: bool) -> Result<(), SiteFault>
        requires { runs job (world_of self.old).events ≡ false }
        ensures cause { HasCause (world_of self.old) (world_of self.new) result }
        ensures waits { KeepsWait (world_of self.old) (world_of self.new) }
        ensures starts { OnOk result (Starts true job act.now (world_of self.old) (world_of self.new)) }
        ensures err { OnErr result (StartsOrNot true job act.now (world_of self.old) (world_of self.new)) }
        ensures adds { OnOk result (self.new ≡ launched C.outcome job act.now (called Call.Start self.old)) }
        ensures goes { GoesDoing C.outcome Call.Start (λ _ sim. launched C.outcome job act.now sim) self.old self.new result }
    {
        let stops = self.enter(Call::Start)?.is_some();
        self.launch(job, act)?;
        if stops {
            self.halt();
            return Err(SiteFault::Stopped);
        }
        Ok(())
    }

    /// Takes in the running command that is next in the order that was chosen. It printed nothing.
    fn wait_any(&mut self) -> Result<Finished, SiteFault>
        requires { (job : ℕ) × (runs job (world_of self.old).events ≡ true) }
        ensures cause { HasCause (world_of self.old) (world_of self.new) result }
        ensures waits { NotesWait (world_of self.old) (world_of self.new) result }
        ensures finishes { IfOk result (λ finished. Finishes true finished.job finished.ok (world_of self.old) (world_of self.new)) }
        ensures err { OnErr result (OnlyLooks true (world_of self.old) (world_of self.new)) }
        ensures ends { IfOk result (λ finished. Ends C.outcome finished self.old self.new) }
        ensures goes { GoesWait C.outcome Call.WaitAny self.old self.new result }
    {
        let stopped = self.jobs.stopped();
        if stopped {
            return Err(SiteFault::Stopped);
        }
        let failures = self.failures;
        match self.take_next() {
            Ok(finished) => Ok(finished),
            Err(fault) => {
                self.wait_refused = Some(failures);
                Err(fault)
            }
        }
    }

    fn show(&mut self, text: &[u8]) -> Result<(), SiteFault>
        ensures looks { OnlyLooks true (world_of self.old) (world_of self.new) }
        ensures cause { HasCause (world_of self.old) (world_of self.new) result }
        ensures waits { KeepsWait (world_of self.old) (world_of self.new) }
        ensures goes { Goes C.outcome Call.Show self.old self.new result }
        ensures shows { OnOk result (self.new.shown.items ≡ self.old.shown.items ++ text.now) }
    {
        self.pass(Call::Show)?;
        Ok(self.shown.extend_from_slice(text)?)
    }

    /// The commands that run make their writes in turn, as far as they find memory, unless the site has stopped before.
    fn restart(&mut self)
        ensures restarts { IsRestart true (world_of self.old) (world_of self.new) }
        ensures again { Restarts C.outcome self.old self.new }
    {
        if !self.jobs.stopped() {
            self.halt();
        }
        self.jobs.restart();
        self.wait_refused = None;
    }

    fn events(&self) -> &[Event] {
        self.jobs.all()
    }
}
