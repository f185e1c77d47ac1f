//! The site that a build works on.

ghost use Rattle.std.specs.Prelude.{◌≡◌, ◌++◌, ℕ, true, false, Some, None, IsTrue, IfOk, OnOk, OnErr};
ghost use Rattle.model.specs.World.{View, runs};
ghost use Rattle.model.specs.Calls.{OnlyLooks, HasCause, KeepsWait, NotesWait, Ticks, TicksOrNot, Writes, WritesOrNot, SpoilsOrNot, Appends, AppendsOrNot, Starts, StartsOrNot, Finishes, IsRestart};
ghost use Rattle.site.specs.Files.{SawStamp};

use crate::texts::Texts;
use model::{Act, Event, Finished, SiteFault};

/// The files, the clock and the commands that a build works on.
///
/// While commands run, they and others may write during any call. Just the calls that answer `Device` count a failure,
/// and the site has stopped just where a call answers `Stopped`; then so does each later one, and nothing changes, until
/// it is started again. A call in which the site stops may have done its work.
pub trait Site: Texts {
    ghost use Rattle.model.specs.declared.act.Act.{Act};
    ghost use Rattle.model.specs.declared.outcome.Outcome.{Outcome};

    /// What a command gives in a view.
    ghost outcome: { Act → View → Outcome };

    /// The stamp of the file at the path, or nothing where there is no file.
    fn stat(&mut self, path: &str) -> Result<Option<u64>, SiteFault>
        ensures looks { OnlyLooks Self.tells (Self.world self.old) (Self.world self.new) }
        ensures cause { HasCause (Self.world self.old) (Self.world self.new) result }
        ensures waits { KeepsWait (Self.world self.old) (Self.world self.new) }
        ensures stamp { IsTrue Self.tells → IfOk result (λ stamp. SawStamp path.now stamp (Self.world self.old).history (Self.world self.new).history) };

    /// Gives the file at the path a new stamp, and answers it. A file that is absent is made, with nothing in it.
    /// Where it fails, the file may have been touched.
    fn tick(&mut self, path: &str) -> Result<u64, SiteFault>
        ensures cause { HasCause (Self.world self.old) (Self.world self.new) result }
        ensures waits { KeepsWait (Self.world self.old) (Self.world self.new) }
        ensures ticks { IfOk result (λ stamp. Ticks Self.tells path.now stamp (Self.world self.old) (Self.world self.new)) }
        ensures err { OnErr result (TicksOrNot Self.tells path.now (Self.world self.old) (Self.world self.new)) };

    /// Puts the bytes behind what the file at the path holds. A file that is absent is made.
    /// Where it fails, a beginning of them may stand there.
    fn append(&mut self, path: &str, bytes: &[u8]) -> Result<(), SiteFault>
        ensures cause { HasCause (Self.world self.old) (Self.world self.new) result }
        ensures waits { KeepsWait (Self.world self.old) (Self.world self.new) }
        ensures appends { OnOk result (Appends Self.tells path.now bytes.now (Self.world self.old) (Self.world self.new)) }
        ensures err { OnErr result (AppendsOrNot Self.tells path.now bytes.now (Self.world self.old) (Self.world self.new)) };

    /// Puts the content in the place of what the file at the path holds, whole or not at all.
    fn replace(&mut self, path: &str, content: &[u8]) -> Result<(), SiteFault>
        ensures cause { HasCause (Self.world self.old) (Self.world self.new) result }
        ensures waits { KeepsWait (Self.world self.old) (Self.world self.new) }
        ensures writes { OnOk result (Writes Self.tells path.now (Some content.now) (Self.world self.old) (Self.world self.new)) }
        ensures err { OnErr result (WritesOrNot Self.tells path.now (Some content.now) (Self.world self.old) (Self.world self.new)) };

    /// Writes the file at the path. Where it fails, the file may hold anything, under a new stamp.
    fn write(&mut self, path: &str, content: &[u8]) -> Result<(), SiteFault>
        ensures cause { HasCause (Self.world self.old) (Self.world self.new) result }
        ensures waits { KeepsWait (Self.world self.old) (Self.world self.new) }
        ensures writes { OnOk result (Writes Self.tells path.now (Some content.now) (Self.world self.old) (Self.world self.new)) }
        ensures err { OnErr result (SpoilsOrNot Self.tells path.now (Self.world self.old) (Self.world self.new)) };

    /// Deletes the file at the path; an absent one is no fault. Where it fails, the file is as it was, or gone.
    fn remove(&mut self, path: &str) -> Result<(), SiteFault>
        ensures cause { HasCause (Self.world self.old) (Self.world self.new) result }
        ensures waits { KeepsWait (Self.world self.old) (Self.world self.new) }
        ensures writes { OnOk result (Writes Self.tells path.now None (Self.world self.old) (Self.world self.new)) }
        ensures err { OnErr result (WritesOrNot Self.tells path.now None (Self.world self.old) (Self.world self.new)) };

    /// Makes the folder and those above it, where they are absent. A folder is no file of the model.
    fn make_dirs(&mut self, path: &str) -> Result<(), SiteFault>
        ensures looks { OnlyLooks Self.tells (Self.world self.old) (Self.world self.new) }
        ensures cause { HasCause (Self.world self.old) (Self.world self.new) result }
        ensures waits { KeepsWait (Self.world self.old) (Self.world self.new) };

    /// Starts the command of a job that does not run. With `console` it has the program's own input and output.
    /// Where it fails, the command may have been started.
    fn start(&mut self, job: usize, act: &Act, console: bool) -> Result<(), SiteFault>
        requires { runs job (Self.world self.old).events ≡ false }
        ensures cause { HasCause (Self.world self.old) (Self.world self.new) result }
        ensures waits { KeepsWait (Self.world self.old) (Self.world self.new) }
        ensures starts { OnOk result (Starts Self.tells job act.now (Self.world self.old) (Self.world self.new)) }
        ensures err { OnErr result (StartsOrNot Self.tells job act.now (Self.world self.old) (Self.world self.new)) };

    /// Waits until a running command has ended, and takes it in. Which of several is open. That a wait was refused is noted, and no
    /// other call notes one.
    fn wait_any(&mut self) -> Result<Finished, SiteFault>
        requires { (job : ℕ) × (runs job (Self.world self.old).events ≡ true) }
        ensures cause { HasCause (Self.world self.old) (Self.world self.new) result }
        ensures waits { NotesWait (Self.world self.old) (Self.world self.new) result }
        ensures finishes { IfOk result (λ finished. Finishes Self.tells finished.job finished.ok (Self.world self.old) (Self.world self.new)) }
        ensures err { OnErr result (OnlyLooks Self.tells (Self.world self.old) (Self.world self.new)) };

    /// Shows the text to the user. Nothing that contracts see tells what was shown.
    fn show(&mut self, text: &[u8]) -> Result<(), SiteFault>
        ensures looks { OnlyLooks Self.tells (Self.world self.old) (Self.world self.new) }
        ensures cause { HasCause (Self.world self.old) (Self.world self.new) result }
        ensures waits { KeepsWait (Self.world self.old) (Self.world self.new) };

    /// Starts the site again: every command that was started has ended, and it has not stopped any more. Until they
    /// ended, commands and others wrote.
    fn restart(&mut self)
        ensures { IsRestart Self.tells (Self.world self.old) (Self.world self.new) };

    /// All starts and finishes so far, oldest first: those before the last restart, then those since.
    fn events(&self) -> &[Event]
        ensures { result.now ≡ (Self.world self.now).earlier ++ (Self.world self.now).events };
}
