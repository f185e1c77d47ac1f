//! The site of real files and real commands.

ghost use Rattle.std.specs.Prelude.{◌≡◌, ◌≤◌, ℕ, [], true, false, None, IfOk, IfSome, OnOk, OnErr, IsErr, IsOk, IsTrue, Ok};
ghost use Rattle.model.specs.World.{file_at, runs, stamp_of};
ghost use Rattle.model.specs.Calls.{HasCause, KeepsWait, NotesWait, OnlyLooks, Sees, Starts, StartsOrNot, Ticks, TicksOrNot};
ghost use Rattle.host.specs.Clock.{IsStart, clock_after, stamp_in, stamp_read};
ghost use Rattle.host.specs.Process.{EndedSo};
ghost use Rattle.host.specs.World.{world_of, fresh};
ghost use Rattle.host.specs.declared.clock.Touches.{Touches};

use crate::clock::Clock;
use crate::disk::{Disk, Found, Standing};
use crate::files::{Files, Made, Opened};
use crate::jobs::Jobs;
use crate::load::{LOAD, load_of};
use crate::process::SHELL;
use crate::tracing::trace_file;
use crate::trouble::Trouble;
use crate::watch::Watch;
use model::{Act, Event, Finished, SiteFault};
use site::{Site, Texts};
use std::alloc::{AllocError, Global};
use std::io::{ErrorKind, Write};
use std::time::{SystemTime, UNIX_EPOCH};
use std::{fmt, io};
use terminal::{Look, Names, Terminal};
use text::{Bytes, Takes};

/// What is told where the clock did not go on.
const STANDS: &str =
    "the clock of the file system stands still: an edit of this moment may be missed by the next build";

/// A second, in nanoseconds.
const NANOS: u64 = 1_000_000_000;

/// What is shown goes there, in messages.
const OUTPUT: &str = "standard output";

/// The site of real files and real commands: paths are those of the system, taken from the working folder, a stamp is when
/// a file was written last, in nanoseconds since 1970, and a command is run by `/bin/sh -c`. What a command prints, output
/// and errors alike, goes to a file of its own, `.nj_out.`, the number of the program's process, a full stop and a number, beside the
/// file of the last tick. Its input is an empty file, `.nj_in`, beside them. It has ended once its process has and no other opening has its
/// output locked, as those have that a process got which it left behind. It never stops.
///
/// What contracts tell of it: its starts and finishes, the calls that the device refused, and the last wait among them. Of files they
/// tell nothing.
#[derive(Drop)]
pub struct Host<'a, W> {
    rt: &'a HostRuntime,
    alloc: Global,
    disk: Disk<'a>,
    jobs: Jobs,
    /// The files that commands read and print into.
    files: Files,
    watch: Watch<'a>,
    /// What the stamps that it told say of the clock.
    clock: Clock,
    /// What the last tick gave.
    ticked: u64,
    failures: u64,
    /// How many calls had been refused when the last command was started.
    failures_at_start: u64,
    /// How many calls had been refused before the last wait that was refused, since the last restart.
    wait_refused: Option<u64>,
    /// Where texts are shown.
    screen: Terminal<W>,
    trouble: Option<Trouble>,
}

impl<'a, W: Write> Host<'a, W> {
    /// The site on which no command was started. What is shown goes to the writer. This takes no memory.
    pub fn new(alloc: Global, rt: &'a HostRuntime, screen: W) -> Host<'a, W>
        ensures { world_of result ≡ fresh }
    {
        Host {
            rt,
            alloc,
            disk: Disk::new(alloc, rt),
            jobs: Jobs::new(alloc),
            files: Files::new(alloc),
            watch: Watch::new(alloc, rt),
            clock: Clock::new(),
            ticked: 0,
            failures: 0,
            failures_at_start: 0,
            wait_refused: None,
            screen: Terminal::plain(screen),
            trouble: None,
        }
    }

    /// What is shown goes to a terminal, if it has a look: from now on rows are drawn below it, of lines that are made by this pattern.
    pub fn draw(&mut self, look: Option<Look>, pattern: &str)
        ensures { world_of self.new ≡ world_of self.old }
    {
        if let Some(look) = look {
            self.screen.draw(self.alloc, self.rt, look, pattern);
        }
    }

    /// Whether rows are drawn below what is shown.
    pub fn is_drawn(&self) -> bool {
        self.screen.is_drawn()
    }

    /// From now on jobs have these names where they are drawn.
    pub fn take_names(&mut self, names: Names)
        ensures { world_of self.new ≡ world_of self.old }
    {
        self.screen.take_names(names);
    }

    /// Nothing runs any more, and nothing is drawn from now on: what others write then stands behind what was shown.
    pub fn finish_screen(&mut self)
        ensures { world_of self.new ≡ world_of self.old }
    {
        self.screen.finish();
    }

    /// Tells once more that this output failed, where rows were drawn.
    pub fn recall(&mut self, output: &str)
        ensures { world_of self.new ≡ world_of self.old }
    {
        self.screen.recall(output);
    }

    /// The answer of a call about this path: what was done, or the fault, which is counted where the device refused.
    fn noted<T>(&mut self, path: &str, done: io::Result<T>) -> Result<T, SiteFault>
        ensures cause { HasCause (world_of self.old) (world_of self.new) result }
        ensures waits { KeepsWait (world_of self.old) (world_of self.new) }
        ensures looks { OnlyLooks false (world_of self.old) (world_of self.new) }
        ensures ok { OnOk result (world_of self.new ≡ world_of self.old) }
        ensures done { IfOk result (λ value. done ≡ Ok value) }
        ensures err { IsErr result → IsErr done }
        ensures clock { self.new.clock ≡ self.old.clock }
    {
        match done {
            Ok(done) => Ok(done),
            Err(reason) => {
                if reason.kind() == ErrorKind::OutOfMemory {
                    return Err(SiteFault::Memory);
                }
                self.failures = self.failures.checked_add(1).ok_or(AllocError)?;
                self.trouble = trouble_at(self.alloc, path, reason);
                Err(SiteFault::Device)
            }
        }
    }

    /// The answer of a wait. That it was refused is noted.
    fn noted_wait<T>(&mut self, done: io::Result<T>) -> Result<T, SiteFault>
        ensures cause { HasCause (world_of self.old) (world_of self.new) result }
        ensures waits { NotesWait (world_of self.old) (world_of self.new) result }
        ensures looks { OnlyLooks false (world_of self.old) (world_of self.new) }
        ensures ok { OnOk result (world_of self.new ≡ world_of self.old) }
        ensures done { IfOk result (λ value. done ≡ Ok value) }
        ensures err { IsErr result → IsErr done }
    {
        let refused = self.failures;
        match self.noted(SHELL, done) {
            Ok(done) => Ok(done),
            Err(fault) => {
                self.wait_refused = Some(refused);
                Err(fault)
            }
        }
    }

    /// The files for a command that is to be started, unless it has the program's own input and output: to read the one that all read, to
    /// print into one that an earlier command left as good as new, or a new one.
    fn open_printed(&mut self, console: bool) -> Result<Option<Opened>, SiteFault>
        ensures cause { HasCause (world_of self.old) (world_of self.new) result }
        ensures waits { KeepsWait (world_of self.old) (world_of self.new) }
        ensures looks { OnlyLooks false (world_of self.old) (world_of self.new) }
        ensures ok { OnOk result (world_of self.new ≡ world_of self.old) }
    {
        if console {
            return Ok(None);
        }
        if let Some(opened) = self.files.reopen(&mut self.disk) {
            return Ok(Some(opened));
        }
        if self.watch.is_inner() {
            self.files.set_inner();
        }
        let Made { path, opened } = self.files.make(&mut self.disk)?;
        let opened = self.noted(path.as_str(), opened)?;
        Ok(Some(opened))
    }
}

impl<'a, W: Write> Host<'a, W> {
    /// From now on each command is traced by the program of this path, into the file of [`Host::trace_of`].
    pub fn trace_by(&mut self, program: String)
        ensures { world_of self.new ≡ world_of self.old }
    {
        self.jobs.trace_by(program);
    }

    /// From now on the number of the process of each command is kept, and the build does not go on without the process that started this one.
    pub fn run_below_tracer(&mut self)
        ensures { world_of self.new ≡ world_of self.old }
    {
        self.jobs.keep_numbers();
        self.watch.follow_starter();
    }

    /// The numbers of the processes of commands, in the order in which these were started, where they are kept.
    pub fn numbers(&self) -> &[i32] {
        self.jobs.numbers()
    }

    /// The file into which the trace of a command is written, in the working folder.
    pub fn trace_of(&self, job: usize) -> Result<String, AllocError> {
        trace_file(self.alloc, job)
    }

    /// Waits until no other build is in the working folder, and keeps others out from then on. To be called once, before anything is read.
    /// Where a command of another build in this folder has started the program, it waits for nobody: it is an inner build, whose commands
    /// read `/dev/null`.
    pub fn enter_folder(&mut self)
        ensures { world_of self.new ≡ world_of self.old }
    {
        self.watch.enter();
    }

    /// Waits for commands of an earlier build that was killed, by what it left in this folder, that of the logs; an empty path is that of
    /// the working folder. Whether it waited: then others may have been there, and everything is to be read anew.
    pub fn waits_for_left(&mut self, folder: &str) -> bool
        ensures { world_of self.new ≡ world_of self.old }
    {
        let has_waited = self.watch.waits_for_left(folder);
        if has_waited {
            self.files.set_beside_left();
        }
        has_waited
    }

    /// Does what a user would do between two builds, in the user's place: writes the response file, if there is one, runs the command alone,
    /// with the program's own input and output, and waits for it; where it ended well, the response file is removed. Answers whether it
    /// did. It is none of the starts and finishes that are told, and what is written counts as written by others. As behind a build, it waits
    /// before until what is written has a later stamp than each start (`wait_for_clock`).
    pub fn run_for_user(&mut self, act: &Act) -> Result<bool, SiteFault>
        ensures looks { OnlyLooks false (world_of self.old) (world_of self.new) }
        ensures cause { HasCause (world_of self.old) (world_of self.new) result }
        ensures waits { KeepsWait (world_of self.old) (world_of self.new) }
        ensures ok { OnOk result (world_of self.new ≡ world_of self.old) }
        ensures ended { IfOk result EndedSo }
    {
        // where the clock stands still for seconds there is nothing more to do about it
        let _ = self.wait_for_clock();
        self.put_response(act)?;
        let line = act.command.to_text(self.alloc)?;
        let ran = self
            .jobs
            .run_apart(self.rt, line.as_str(), &mut self.watch, &mut self.screen);
        let ok = self.noted(SHELL, ran)?;
        if ok {
            self.remove_response(act)?;
        }
        Ok(ok)
    }

    /// Writes the response file of the act, if it has one.
    fn put_response(&mut self, act: &Act) -> Result<(), SiteFault>
        ensures looks { OnlyLooks false (world_of self.old) (world_of self.new) }
        ensures cause { HasCause (world_of self.old) (world_of self.new) result }
        ensures waits { KeepsWait (world_of self.old) (world_of self.new) }
        ensures ok { OnOk result (world_of self.new ≡ world_of self.old) }
    {
        let path = act.response_path.as_str();
        if path.is_empty() {
            return Ok(());
        }
        let content = act.response_content.to_text(self.alloc)?;
        let done = self.disk.write(path, content.as_str().as_bytes());
        self.noted(path, done)
    }

    /// Removes the response file of the act, if it has one.
    fn remove_response(&mut self, act: &Act) -> Result<(), SiteFault>
        ensures looks { OnlyLooks false (world_of self.old) (world_of self.new) }
        ensures cause { HasCause (world_of self.old) (world_of self.new) result }
        ensures waits { KeepsWait (world_of self.old) (world_of self.new) }
        ensures ok { OnOk result (world_of self.new ≡ world_of self.old) }
    {
        let path = act.response_path.as_str();
        if path.is_empty() {
            return Ok(());
        }
        let done = self.disk.remove(path);
        self.noted(path, done)
    }

    /// Whether a command that was started has not ended, also if it was not taken in, and the load of the machine is above the limit. A
    /// load that cannot be told is above none; that is no call that the device refused.
    pub fn is_overloaded(&mut self, limit: f64) -> bool
        ensures { world_of self.new ≡ world_of self.old }
    {
        self.jobs.some_go_on(self.rt) && self.load().is_some_and(|load| load > limit)
    }

    /// The load of the machine.
    fn load(&mut self) -> Option<f64>
        ensures { world_of self.new ≡ world_of self.old }
    {
        match self.disk.read(LOAD) {
            Ok(Some(content)) => load_of(&content),
            _ => None,
        }
    }

    /// Waits until what is written from now on has a later stamp than each start, so that the next build sees it. To be called at the
    /// end of a build. It mostly has nothing to wait for: only where the clock of the file system goes by steps, and a command was started
    /// in a step of which a stamp had been told, as that of an input that was written right before. Then it takes as long as a step. It
    /// gives up after three seconds, and where the file of the last tick cannot be touched. No clause says that it waits: of a disk they
    /// tell nothing.
    pub fn wait_for_clock(&mut self) -> Result<(), StandingClock>
        ensures same { world_of self.new ≡ world_of self.old }
        ensures passed { OnOk result (self.new.clock ≡ record self.old.clock { unpassed = None }) }
        ensures kept { OnErr result (self.new.clock ≡ self.old.clock) }
        ensures at_once { self.old.clock.unpassed ≡ None → IsOk result }
    {
        let Some(start) = self.clock.unpassed() else {
            return Ok(());
        };
        if !self.disk.wait_past(start) {
            return Err(StandingClock);
        }
        self.clock.pass();
        Ok(())
    }
}

impl<'a, W: Write> Host<'a, W> {
    /// What stands at the path, its stamp as `stat` tells it, in one look; or nothing where nothing stands there.
    pub fn measure_file(&mut self, path: &str) -> Result<Option<Standing>, SiteFault>
        ensures looks { OnlyLooks false (world_of self.old) (world_of self.new) }
        ensures cause { HasCause (world_of self.old) (world_of self.new) result }
        ensures waits { KeepsWait (world_of self.old) (world_of self.new) }
        ensures clock { self.new.clock ≡ clock_after self.old.clock (stamp_in result) }
    {
        let found = self.disk.measure(path);
        let found = self.noted(path, found)?;
        if let Some(standing) = found {
            self.clock.tell(standing.stamp);
        }
        Ok(found)
    }

    /// What the file at the path holds, and what stands there, in one look; or nothing where there is no file.
    pub fn read_file(&mut self, path: &str) -> Result<Option<Found>, SiteFault>
        ensures looks { OnlyLooks false (world_of self.old) (world_of self.new) }
        ensures cause { HasCause (world_of self.old) (world_of self.new) result }
        ensures waits { KeepsWait (world_of self.old) (world_of self.new) }
        ensures clock { self.new.clock ≡ clock_after self.old.clock (stamp_read result) }
    {
        let found = self.disk.read_found(path);
        let found = self.noted(path, found)?;
        let Some(found) = found else {
            return Ok(None);
        };
        self.clock.tell(found.standing.stamp);
        Ok(Some(found))
    }

    /// What time it is, in nanoseconds since 1970; 0 where the clock does not tell it.
    pub fn now(&self) -> u64 {
        now(self.rt).unwrap_or(0)
    }
}

impl<'a, W: Drop> Host<'a, W> {
    /// Removes the files that commands read and printed into, but for those that one has which still runs, and answers what the device
    /// refused last, if it refused something and there was memory for its path.
    pub fn into_trouble(self) -> Option<Trouble> {
        let Host {
            rt,
            jobs,
            files,
            watch,
            trouble,
            ..
        } = self;
        files.remove(rt, jobs.some_run());
        watch.keep();
        trouble
    }
}

/// The clock of the file system did not go on: what is written now may have the stamp of a start. It prints what a user has to know.
#[derive(Clone, Copy, Debug)]
pub struct StandingClock;

impl fmt::Display for StandingClock {
    fn fmt<W: fmt::Write>(&self, f: &mut fmt::Formatter<W>) -> fmt::Result {
        f.write_str(STANDS)
    }
}

/// What time it is, in nanoseconds since 1970, if the clock tells it.
fn now(rt: &HostRuntime) -> Option<u64> {
    let now = SystemTime::now(rt).ok()?;
    let since = now.duration_since(UNIX_EPOCH).ok()?;
    let seconds = since.as_secs().saturating_mul(NANOS);
    Some(seconds.saturating_add(u64::from(since.subsec_nanos())))
}

/// What was refused at this path, unless there is no memory for it.
fn trouble_at(alloc: Global, path: &str, reason: io::Error) -> Option<Trouble> {
    let path = String::from_str(alloc, path).ok()?;
    Some(Trouble { path, reason })
}

impl<'a, W: Write> Texts for Host<'a, W> {
    ghost tells = { false };

    ghost world = { world_of };

    fn read(&mut self, path: &str) -> Result<Option<Bytes>, SiteFault> {
        let found = self.disk.read(path);
        self.noted(path, found)
    }

    fn read_into<T: Takes>(&mut self, path: &str, taker: &mut T) -> Result<(), SiteFault> {
        let handed = self.disk.read_into(path, taker);
        self.noted(path, handed)
    }

    fn failures(&self) -> u64 {
        self.failures
    }
}

impl<'a, W: Write> Site for Host<'a, W> {
    ghost use Rattle.host.specs.World.{any_outcome};

    ghost outcome = { any_outcome };

    fn stat(&mut self, path: &str) -> Result<Option<u64>, SiteFault>
        ensures looks { OnlyLooks false (world_of self.old) (world_of self.new) }
        ensures cause { HasCause (world_of self.old) (world_of self.new) result }
        ensures waits { KeepsWait (world_of self.old) (world_of self.new) }
        ensures stamp { IsTrue false → IfOk result (λ stamp. Sees (λ ms. stamp_of (file_at ms path.now)) stamp [] []) }
        ensures clock { self.new.clock ≡ clock_after self.old.clock result }
    {
        let found = self.disk.stamp(path);
        let stamp = self.noted(path, found)?;
        if let Some(stamp) = stamp {
            self.clock.tell(stamp);
        }
        Ok(stamp)
    }

    /// The file is made anew at the first tick, whatever it held. How the stamp lies between what is written before and after:
    /// `IsStart`, and `wait_for_clock`.
    fn tick(&mut self, path: &str) -> Result<u64, SiteFault>
        ensures cause { HasCause (world_of self.old) (world_of self.new) result }
        ensures waits { KeepsWait (world_of self.old) (world_of self.new) }
        ensures ticks { IfOk result (λ stamp. Ticks false path.now stamp (world_of self.old) (world_of self.new)) }
        ensures err { OnErr result (TicksOrNot false path.now (world_of self.old) (world_of self.new)) }
        ensures start { IfOk result (λ stamp. (touches : Touches) × IsStart self.old.clock touches stamp self.new.clock) }
        ensures kept { OnErr result (self.new.clock ≡ self.old.clock) }
    {
        let touched = self.disk.tick(path);
        let touches = self.noted(path, touched)?;
        let stamp = self.clock.start(touches);
        self.ticked = stamp;
        Ok(stamp)
    }

    fn append(&mut self, path: &str, bytes: &[u8]) -> Result<(), SiteFault> {
        let done = self.disk.append(path, bytes);
        self.noted(path, done)
    }

    fn replace(&mut self, path: &str, content: &[u8]) -> Result<(), SiteFault> {
        let done = self.disk.replace(path, content);
        self.noted(path, done)
    }

    fn write(&mut self, path: &str, content: &[u8]) -> Result<(), SiteFault> {
        let done = self.disk.write(path, content);
        self.noted(path, done)
    }

    fn remove(&mut self, path: &str) -> Result<(), SiteFault> {
        let done = self.disk.remove(path);
        self.noted(path, done)
    }

    fn make_dirs(&mut self, path: &str) -> Result<(), SiteFault> {
        let done = self.disk.make_dirs(path);
        self.noted(path, done)
    }

    /// Where it fails, the command was not started.
    fn start(&mut self, job: usize, act: &Act, console: bool) -> Result<(), SiteFault>
        requires { runs job (world_of self.old).events ≡ false }
        ensures cause { HasCause (world_of self.old) (world_of self.new) result }
        ensures waits { KeepsWait (world_of self.old) (world_of self.new) }
        ensures starts { OnOk result (Starts false job act.now (world_of self.old) (world_of self.new)) }
        ensures err { OnErr result (StartsOrNot false job act.now (world_of self.old) (world_of self.new)) }
        ensures unstarted { OnErr result (OnlyLooks false (world_of self.old) (world_of self.new)) }
    {
        let mut opened = self.open_printed(console)?;
        self.screen.prepare(self.rt, job, console);
        let started = self.jobs.start(job, act, self.ticked, &mut opened);
        self.files.take_back(self.rt, opened);
        self.noted(SHELL, started)?;
        self.failures_at_start = self.failures;
        self.screen.start(self.rt, job, console);
        Ok(())
    }

    /// Which of several finished commands is taken in is open.
    fn wait_any(&mut self) -> Result<Finished, SiteFault> {
        let finished = self.jobs.wait_any(
            self.rt,
            &mut self.files,
            &mut self.watch,
            &mut self.screen,
        );
        self.noted_wait(finished)
    }

    fn show(&mut self, text: &[u8]) -> Result<(), SiteFault> {
        let shown = self.screen.show(self.rt, text);
        self.noted(OUTPUT, shown)
    }

    fn restart(&mut self) {
        self.jobs.restart(self.rt, &mut self.watch);
        self.wait_refused = None;
    }

    fn events(&self) -> &[Event] {
        self.jobs.all()
    }
}
