//! What is shown at the start and at the end of commands.

ghost use Rattle.std.specs.Prelude.{◌≡◌, ◌⊎◌, ◌<◌, ◌++◌, true, false, [], length, IfOk, OnOk, OnErr, IsOk};
ghost use Rattle.model.specs.Calls.{OnlyLooks, HasCause};
ghost use Rattle.status.specs.Screen.{held};
ghost use Rattle.work.specs.EdgeIn.{edge_in};
ghost use Rattle.work.specs.Shown.{unstarted_after, with_one_more, AreCounts, end_text, with_unstarted, with_held, shown_now, behind, counted_off, released, nothing_shown, StartsUnshown, StartsAtTerminal, ShowsEnd, EndsInSilence, shown_line, IsTextOfEnd};

use crate::endings::said;
use crate::terminal::has_terminal;
use graph::Graph;
use model::{Finished, SiteFault};
use paths::EdgeId;
use site::Site;
use status::{Counts, DepfileFault, Pattern, Screen, line};
use std::alloc::{AllocError, Global};
use std::marker::Model;

/// How far the commands of a build have come.
#[derive(Clone, Copy, Debug, PartialEq, Eq)]
pub struct Progress {
    /// The commands that run.
    pub running: usize,
    /// The commands that ended well.
    pub well: usize,
    pub failed: usize,
}

impl Progress {
    /// The same with one more that runs.
    fn with_one_more(self) -> Progress
        ensures { result ≡ with_one_more self }
    {
        Progress {
            running: self.running.saturating_add(1),
            well: self.well,
            failed: self.failed,
        }
    }

    /// What a line shows of it, where so many commands are still to be started. A line is that of a command, so there is one at
    /// least.
    fn counts(self, unstarted: usize) -> Counts
        ensures { AreCounts self unstarted result }
    {
        let finished = self.well.saturating_add(self.failed);
        let started = self.running.saturating_add(finished);
        Counts {
            started,
            total: started.saturating_add(unstarted).max(1),
            running: self.running,
            finished,
        }
    }
}

/// Shows the commands of a build as they end, each by its line, and what a console command holds back while it runs (manual:
/// "The `console` pool"). It counts those that are still to be started; all else that a line tells it is told. Contracts see
/// it as the `Showing` of the definition.
#[derive(Drop)]
pub struct Display<'a> {
    alloc: Global,
    /// What stands in front of each line.
    pattern: &'a Pattern,
    /// Whether lines show commands in place of descriptions.
    verbose: bool,
    screen: Screen,
    /// The commands that were judged out of date and not started, and those that are due and were not judged.
    unstarted: usize,
}

impl<'a> Model for Display<'a> {
    ghost use Rattle.work.specs.Shown.{Showing};

    ghost Value = { Showing };

    ghost view = { λ display. record { pattern = display.pattern.now; verbose = display.verbose; held = display.screen; unstarted = display.unstarted } };
}

impl<'a> Display<'a> {
    /// A display on which nothing was shown. `unstarted` commands are due before anything runs.
    pub fn new(alloc: Global, pattern: &'a Pattern, verbose: bool, unstarted: usize) -> Display<'a>
        ensures { result ≡ nothing_shown pattern.now verbose unstarted }
    {
        Display {
            alloc,
            pattern,
            verbose,
            screen: Screen::new(),
            unstarted,
        }
    }

    /// How many commands are still to be started.
    pub(crate) fn unstarted(&self) -> usize
        ensures { result ≡ self.now.unstarted }
    {
        self.unstarted
    }

    /// With what its texts are made.
    pub fn alloc(&self) -> Global {
        self.alloc
    }

    /// So many commands are still to be started now, since a dyndep file was loaded.
    pub fn recount(&mut self, unstarted: usize)
        ensures { self.new ≡ with_unstarted self.old unstarted }
    {
        self.unstarted = unstarted;
    }

    /// Counts a command as one that is still to be started, by the verdict over it, and by whether it was due before anything
    /// ran.
    pub fn judged(&mut self, was_due: bool, is_stale: bool)
        ensures { self.new ≡ with_unstarted self.old (unstarted_after was_due is_stale self.old.unstarted) }
    {
        match (was_due, is_stale) {
            (true, false) => self.unstarted = self.unstarted.saturating_sub(1),
            (false, true) => self.unstarted = self.unstarted.saturating_add(1),
            _ => {}
        }
    }

    /// Counts a command that is about to be started. Of one that gets the terminal it shows the line, in which the command counts
    /// as started and running, and holds back all else until that ends. Of others it shows nothing.
    ///
    /// Where it fails, the command is counted, and no more is held back than before.
    pub fn start<S: Site>(
        &mut self,
        site: &mut S,
        graph: &Graph,
        edge: EdgeId,
        progress: Progress,
    ) -> Result<(), SiteFault>
        requires running { (S.world site.old).stopped ≡ false }
        requires within { edge < length graph.now.manifest.lines }
        ensures looks { OnlyLooks S.tells (S.world site.old) (S.world site.new) }
        ensures cause { HasCause (S.world site.old) (S.world site.new) result }
        ensures others { StartsUnshown S.world site.old site.new graph.now edge self.old self.new result }
        ensures console { StartsAtTerminal graph.now edge progress self.old self.new result }
        ensures err { OnErr result (self.new ≡ counted_off self.old) }
    {
        self.unstarted = self.unstarted.saturating_sub(1);
        if !has_terminal(graph, edge) {
            return Ok(());
        }
        let counts = progress.with_one_more().counts(self.unstarted);
        let line = self.line(graph, edge, &counts)?;
        let shown = self.hand_in(line)?;
        show_all(site, shown.as_slice())?;
        self.screen.hold(self.alloc);
        Ok(())
    }

    /// Takes in a command that has ended, and gives what to show now, by [`show_all`]: its line, why it failed where it did, and what
    /// it printed; or holds that back, while another has the terminal, and gives nothing. `progress` counts it as ended. Of one that
    /// had the terminal it gives what was held back for it and then why it failed, where it did. `depfile` says what is wrong with its
    /// depfile, where that is why it counts as failed.
    ///
    /// Where it fails, all is as it was, or what was held back is gone and nothing is held back any more.
    pub fn ended(
        &mut self,
        graph: &Graph,
        edge: EdgeId,
        finished: &Finished,
        depfile: Option<DepfileFault<'_>>,
        progress: Progress,
    ) -> Result<Vec<u8>, AllocError>
        requires { edge < length graph.now.manifest.lines }
        ensures ok { ShowsEnd progress graph.now edge finished.now depfile.entry self.old self.new result }
        ensures silent { IfOk result (λ shown. EndsInSilence graph.now edge finished.now self.old shown) }
        ensures err { OnErr result ((self.new ≡ self.old) ⊎ (self.new ≡ released self.old)) }
    {
        let counts = progress.counts(self.unstarted);
        let text = self.end_text(graph, edge, finished, depfile, &counts)?;
        if has_terminal(graph, edge) {
            self.release(text.as_slice())
        } else {
            self.hand_in(text)
        }
    }

    /// The line of a command, with its newline.
    fn line(&self, graph: &Graph, edge: EdgeId, counts: &Counts) -> Result<Vec<u8>, AllocError>
        requires { edge < length graph.now.manifest.lines }
        ensures { IfOk result (λ line. line.items ≡ shown_line self.now counts.now (edge_in graph.now edge)) }
    {
        let text = said(self.alloc, self.verbose, graph, edge)?;
        line(self.alloc, self.pattern, counts, text.as_str())
    }

    /// What is shown of a command that has ended.
    fn end_text(
        &self,
        graph: &Graph,
        edge: EdgeId,
        finished: &Finished,
        depfile: Option<DepfileFault<'_>>,
        counts: &Counts,
    ) -> Result<Vec<u8>, AllocError>
        requires { edge < length graph.now.manifest.lines }
        ensures { IfOk result (λ text. IsTextOfEnd self.now counts.now graph.now edge finished.now depfile.entry text) }
    {
        if has_terminal(graph, edge) {
            let mut text = Vec::new(self.alloc);
            self.push_end(&mut text, graph, edge, finished, depfile)?;
            return Ok(text);
        }
        let mut text = self.line(graph, edge, counts)?;
        self.push_end(&mut text, graph, edge, finished, depfile)?;
        Ok(text)
    }

    /// Hands a text in, and gives what to show of it now: all, or nothing where it is held back.
    fn hand_in(&mut self, text: Vec<u8>) -> Result<Vec<u8>, AllocError>
        ensures shown { IfOk result (λ shown. shown.items ≡ shown_now self.old.held text.items) }
        ensures after { OnOk result (self.new ≡ with_held self.old (behind self.old.held text.items)) }
        ensures err { OnErr result (self.new ≡ self.old) }
    {
        let is_shown = self.screen.show(text.as_slice())?.is_some();
        if is_shown {
            Ok(text)
        } else {
            Ok(Vec::new(self.alloc))
        }
    }

    /// Takes what is held back off the screen, on which each text is shown at once from now on, and gives it with the lines
    /// behind it.
    fn release(&mut self, lines: &[u8]) -> Result<Vec<u8>, AllocError>
        ensures ok { IfOk result (λ shown. shown.items ≡ held self.old.held ++ lines.now) }
        ensures after { OnOk result (self.new ≡ released self.old) }
        ensures err { OnErr result ((self.new ≡ self.old) ⊎ (self.new ≡ released self.old)) }
    {
        let mut shown = Vec::new(self.alloc);
        self.screen.release(&mut shown)?;
        shown.extend_from_slice(lines)?;
        Ok(shown)
    }
}

/// Shows the text, by one call of the site, and by none where it is empty.
pub fn show_all<S: Site>(site: &mut S, text: &[u8]) -> Result<(), SiteFault>
    requires running { (S.world site.old).stopped ≡ false }
    ensures looks { OnlyLooks S.tells (S.world site.old) (S.world site.new) }
    ensures cause { HasCause (S.world site.old) (S.world site.new) result }
    ensures silent { text.now ≡ [] → IsOk result × (S.world site.new ≡ S.world site.old) }
{
    if text.is_empty() {
        return Ok(());
    }
    site.show(text)
}
