//! What an audit has found.

ghost use Rattle.std.specs.Prelude.{◌≡◌, [], OnOk};
ghost use Rattle.auditor.specs.Left.{with_path};
ghost use Rattle.auditor.specs.Tally.{is_clean, none_looked_at, with_one};

use crate::outside::Outside;
use crate::spelled::Spelled;
use audit::Finding;
use paths::Paths;
use std::alloc::{AllocError, Global};

/// How many commands there are, of how many a trace was understood, and how many of these keep all premises.
#[derive(Clone, Copy)]
pub struct Counts {
    pub commands: usize,
    pub looked: usize,
    pub kept: usize,
}

impl Counts {
    /// Of so many commands none was looked at yet.
    fn of(commands: usize) -> Counts
        ensures { result ≡ none_looked_at commands }
    {
        Counts {
            commands,
            looked: 0,
            kept: 0,
        }
    }

    /// The same, and one more was looked at, which keeps all premises or does not.
    fn with(self, keeps: bool) -> Counts
        ensures { result ≡ with_one self keeps }
    {
        let kept = if keeps {
            self.kept.saturating_add(1)
        } else {
            self.kept
        };
        Counts {
            commands: self.commands,
            looked: self.looked.saturating_add(1),
            kept,
        }
    }

    /// Whether each command was looked at, and keeps all premises.
    pub fn is_clean(self) -> bool
        ensures { result ≡ is_clean self }
    {
        self.looked == self.commands && self.kept == self.looked
    }
}

/// What was counted, the lines that tell what commands did, what was read and written outside of the folder, and which scratch files may have
/// stood there before the next command began.
#[derive(Drop)]
pub struct Tally {
    pub counts: Counts,
    /// These, from the root.
    pub left: Paths,
    pub lines: String,
    pub spelled: Spelled,
    pub outside: Outside,
}

impl Tally {
    /// Of so many commands none was looked at yet. This takes no memory.
    pub fn new(alloc: Global, commands: usize) -> Tally
        ensures counts { result.counts ≡ none_looked_at commands }
        ensures left { result.left ≡ [] }
    {
        Tally {
            counts: Counts::of(commands),
            left: Paths::new(alloc),
            lines: String::new(alloc),
            spelled: Spelled::new(alloc),
            outside: Outside::new(alloc),
        }
    }

    /// Takes in that a file may stand there once the build begins.
    pub fn leave(&mut self, alloc: Global, path: &str) -> Result<(), AllocError>
        ensures { OnOk result (self.new.left ≡ with_path self.old.left path.now) }
    {
        self.left.add(alloc, path)?;
        Ok(())
    }

    /// One more was looked at, and keeps all premises or does not.
    pub fn count(&mut self, keeps: bool)
        ensures counts { self.new.counts ≡ with_one self.old.counts keeps }
        ensures left { self.new.left ≡ self.old.left }
    {
        self.counts = self.counts.with(keeps);
    }

    /// Tells one thing that breaks a premise.
    pub fn tell(
        &mut self,
        alloc: Global,
        name: &str,
        finding: Finding,
        path: &str,
    ) -> Result<(), AllocError>
        ensures counts { self.new.counts ≡ self.old.counts }
        ensures left { self.new.left ≡ self.old.left }
    {
        let verb = finding.verb();
        let why = finding.why();
        let premise = finding.premise();
        let line = format!(in alloc; "{name}: {verb} {path}{why} (a command {premise})\n")?;
        self.lines.push_str(line.as_str())
    }

    /// Takes in that the command of this name took a file by this path that build lines spell in these two ways.
    pub fn spell(
        &mut self,
        alloc: Global,
        name: &str,
        path: &str,
        both: &str,
    ) -> Result<(), AllocError>
        ensures counts { self.new.counts ≡ self.old.counts }
        ensures left { self.new.left ≡ self.old.left }
    {
        let before = self.counts.looked;
        self.spelled.take(alloc, name, path, both, before)
    }

    pub fn note(&mut self, alloc: Global, name: &str, note: &str) -> Result<(), AllocError>
        ensures counts { self.new.counts ≡ self.old.counts }
        ensures left { self.new.left ≡ self.old.left }
    {
        let line = format!(in alloc; "note: {name}: {note}\n")?;
        self.lines.push_str(line.as_str())
    }

    pub fn tell_not_understood(&mut self, alloc: Global, name: &str) -> Result<(), AllocError>
        ensures counts { self.new.counts ≡ self.old.counts }
        ensures left { self.new.left ≡ self.old.left }
    {
        let line = format!(in alloc; "{name}: its trace is not understood\n")?;
        self.lines.push_str(line.as_str())
    }

    /// All lines: what commands did, and then the files outside of the folder, by folder or each of them.
    pub fn told(&self, alloc: Global, is_listed: bool) -> Result<String, AllocError> {
        let mut told = String::from_str(alloc, self.lines.as_str())?;
        self.spelled.push_lines(alloc, &mut told)?;
        self.outside.push_lines(alloc, is_listed, &mut told)?;
        Ok(told)
    }
}
