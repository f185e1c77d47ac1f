//! What `clean` and `cleandead` remove, and what is told of it, as real ninja does.

ghost use Rattle.std.specs.Prelude.{IfOk};
ghost use Rattle.ninja_asked.specs.Written.{RemovesLeft, StandsForSome};

use crate::answers::Asking;
use crate::written::{Parted, no_notes, part, read_notes};
use measure::Measured;
use ninja_words::Shown;
use paths::{PathId, Paths};
use records::Records;
use seen_log::Log;
use site::Site;
use std::alloc::{AllocError, Global};
use tools::{
    Answer, Cleaned, Cleaning, Declared, Fault, asked, clean, path_at, push_line, text_at, to_bury,
    to_clean,
};

/// A cleaning under way.
#[derive(Drop)]
struct Cleaner<'a> {
    declared: &'a Declared,
    asking: Asking<'a>,
    cleaned: Cleaned,
    /// What was removed or counted so far.
    seen: Paths,
}

impl<'a> Cleaner<'a> {
    fn new(alloc: Global, declared: &'a Declared, asking: Asking<'a>) -> Cleaner<'a> {
        Cleaner {
            declared,
            asking,
            cleaned: Cleaned::new(alloc, tells_each(asking)),
            seen: Paths::new(alloc),
        }
    }

    /// The paths that a cleaning removes.
    fn paths(&self, alloc: Global, cleaning: Cleaning<'_>) -> Result<Paths, Fault> {
        let generated = self.asking.switches.has(b'g');
        let file = self.asking.options.file;
        to_clean(alloc, self.declared, cleaning, generated, file)
    }

    /// Removes what a cleaning removes, but for what was met before.
    fn remove<S: Site>(
        &mut self,
        alloc: Global,
        site: &mut S,
        cleaning: Cleaning<'_>,
    ) -> Result<(), Fault> {
        let paths = self.paths(alloc, cleaning)?;
        let others = unseen(alloc, &paths, &mut self.seen)?;
        let dry = self.asking.options.dry;
        clean(alloc, site, &others, dry, &mut self.cleaned)
    }

    /// Removes what the edges of the rules that are asked for make; where each file is told, behind a line for each rule.
    fn remove_rules<S: Site>(&mut self, alloc: Global, site: &mut S) -> Result<(), Fault> {
        let switches = self.asking.switches;
        let rules = switches.words.as_slice();
        if !tells_each(self.asking) {
            return self.remove(alloc, site, Cleaning::Rules(rules));
        }
        self.paths(alloc, Cleaning::Rules(rules))?;
        for rule in rules {
            let one = [*rule];
            self.cleaned.tell(&["Rule ", *rule])?;
            self.remove(alloc, site, Cleaning::Rules(one.as_slice()))?;
        }
        Ok(())
    }

    /// Removes these targets and what is above them; where each file is told, behind a line for each target.
    fn remove_targets<S: Site>(
        &mut self,
        alloc: Global,
        site: &mut S,
        targets: &[PathId],
    ) -> Result<(), Fault> {
        if !tells_each(self.asking) {
            return self.remove(alloc, site, Cleaning::Targets(targets));
        }
        for target in targets {
            let one = [*target];
            let text = text_at(&self.declared.graph, *target);
            self.cleaned.tell(&["Target ", text])?;
            self.remove(alloc, site, Cleaning::Targets(one.as_slice()))?;
        }
        Ok(())
    }
}

/// Those of the paths that were not seen, which they are then.
fn unseen(alloc: Global, paths: &Paths, seen: &mut Paths) -> Result<Paths, AllocError> {
    let mut others = Paths::new(alloc);
    for place in 0..paths.len() {
        if let Some(path) = path_at(paths, place) {
            see(alloc, path, seen, &mut others)?;
        }
    }
    Ok(others)
}

/// Adds a path to the others, where it was not seen.
fn see(alloc: Global, path: &str, seen: &mut Paths, others: &mut Paths) -> Result<(), AllocError> {
    if seen.number_of(path).is_none() {
        seen.add(alloc, path)?;
        others.add(alloc, path)?;
    }
    Ok(())
}

/// Removes what the words of `clean` name. All words are looked at before anything is removed.
pub fn cleaned<S: Site>(
    alloc: Global,
    site: &mut S,
    declared: &Declared,
    asking: Asking<'_>,
) -> Result<Answer, Fault> {
    let words = asking.switches.words.as_slice();
    let mut cleaner = Cleaner::new(alloc, declared, asking);
    if asking.switches.has(b'r') {
        if words.is_empty() {
            return Err(Fault::NoRule);
        }
        cleaner.remove_rules(alloc, site)?;
    } else if words.is_empty() {
        cleaner.remove(alloc, site, Cleaning::All)?;
    } else {
        let targets = asked(alloc, &declared.graph, words)?;
        cleaner.remove_targets(alloc, site, &targets)?;
    }
    Ok(answer_of(alloc, &cleaner.cleaned)?)
}

/// Removes what neither a line nor a dyndep file that could be loaded names any more, but for what somebody else wrote there.
pub fn buried<S: Measured>(
    alloc: Global,
    site: &mut S,
    declared: &Declared,
    records: &Records,
    asking: Asking<'_>,
) -> Result<Answer, Fault> {
    let found = to_bury(alloc, declared, records)?;
    let buried = bury_noted(alloc, site, declared, &found.dead, asking)?;
    told_of(alloc, site, &found.kept, &buried)
}

/// Removes those of the paths where nobody else wrote what stands there.
fn bury_noted<S: Measured>(
    alloc: Global,
    site: &mut S,
    declared: &Declared,
    dead: &Paths,
    asking: Asking<'_>,
) -> Result<Cleared, Fault> {
    let notes = notes_for(alloc, site, declared, asking)?;
    bury(alloc, site, &notes, dead, asking)
}

/// What builds have noted of paths; nothing where stamps are trusted.
fn notes_for<S: Site>(
    alloc: Global,
    site: &mut S,
    declared: &Declared,
    asking: Asking<'_>,
) -> Result<Log, Fault>
    ensures { IfOk result StandsForSome }
{
    if asking.trusts_stamps {
        return Ok(no_notes(alloc));
    }
    read_notes(alloc, site, declared.graph.manifest.builddir.as_str())
}

/// What came of dead paths.
#[derive(Drop)]
struct Cleared {
    cleaned: Cleaned,
    /// Those that are kept, as somebody else wrote what stands there.
    others: Paths,
}

/// The same, by what builds have noted.
fn bury<S: Measured>(
    alloc: Global,
    site: &mut S,
    notes: &Log,
    dead: &Paths,
    asking: Asking<'_>,
) -> Result<Cleared, Fault>
    ensures { IfOk result (λ buried. RemovesLeft S.tells asking.entry.options.now.dry (S.world site.old) (S.world site.new) notes.now dead.now buried.others) }
{
    let parted = part(alloc, site, notes, dead)?;
    let mut cleaned = Cleaned::new(alloc, tells_each(asking));
    clean(alloc, site, &parted.left, asking.options.dry, &mut cleaned)?;
    let Parted { others, .. } = parted;
    Ok(Cleared { cleaned, others })
}

/// What is told of it, and of those that are kept since deps records list them.
fn told_of<S: Site>(
    alloc: Global,
    site: &mut S,
    listed: &Paths,
    buried: &Cleared,
) -> Result<Answer, Fault> {
    let mut answer = answer_of(alloc, &buried.cleaned)?;
    push_listed(site, &mut answer.text, listed)?;
    push_others(&mut answer.text, &buried.others)?;
    Ok(answer)
}

/// Whether a line tells each file that is removed.
fn tells_each(asking: Asking<'_>) -> bool {
    asking.options.dry || asking.options.shown == Shown::Commands
}

/// What is told of what was removed, and beside it what could not be removed.
fn answer_of(alloc: Global, cleaned: &Cleaned) -> Result<Answer, AllocError> {
    let mut text = String::new(alloc);
    push_removed(alloc, &mut text, cleaned)?;
    let beside = refused(alloc, cleaned)?;
    let status = if cleaned.refused.is_empty() { 0 } else { 1 };
    Ok(Answer {
        text,
        beside,
        status,
    })
}

fn push_removed(alloc: Global, text: &mut String, cleaned: &Cleaned) -> Result<(), AllocError> {
    text.push_str("Cleaning...")?;
    match &cleaned.lines {
        Some(lines) => {
            text.push('\n')?;
            text.push_str(lines.as_str())?;
        }
        None => text.push(' ')?,
    }
    let count = cleaned.removed;
    text.push_str(format!(in alloc; "{count} files.\n")?.as_str())
}

/// A line for each path that could not be removed.
fn refused(alloc: Global, cleaned: &Cleaned) -> Result<String, AllocError> {
    let mut told = String::new(alloc);
    for path in cleaned.refused.as_slice() {
        let line = ["ninja: error: cannot remove '", path.as_str(), "'"];
        push_line(&mut told, line.as_slice())?;
    }
    Ok(told)
}

/// Tells which of the paths that deps records list are there and kept.
fn push_listed<S: Site>(site: &mut S, text: &mut String, kept: &Paths) -> Result<(), Fault> {
    for place in 0..kept.len() {
        if let Some(path) = path_at(kept, place) {
            push_listed_path(site, text, path)?;
        }
    }
    Ok(())
}

fn push_listed_path<S: Site>(site: &mut S, text: &mut String, path: &str) -> Result<(), Fault> {
    if site.stat(path)?.is_some() {
        push_line(
            text,
            &[
                "ninja: kept '",
                path,
                "', which the deps log lists as an input",
            ],
        )?;
    }
    Ok(())
}

/// Tells that these are kept, where somebody else wrote what stands there.
fn push_others(text: &mut String, others: &Paths) -> Result<(), AllocError> {
    for place in 0..others.len() {
        if let Some(path) = path_at(others, place) {
            let line = ["ninja: kept '", path, "', which somebody else wrote"];
            push_line(text, line.as_slice())?;
        }
    }
    Ok(())
}
