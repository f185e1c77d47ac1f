//! What the texts of logs tell.

ghost use Rattle.std.specs.Prelude.{◌≡◌, [], ◌∷◌, IfOk};

use crate::asked::Kind;
use log_text::{BuildLog, Deps, Done, Records, Tail, done_line, number_of};
use model::{Act, Record};
use std::alloc::{AllocError, Global};
use tables::push_word;
use text::{Items, Path, SharedText, Text};

/// What the text of a log tells: how it ends, how many records there are and are in force, and what is left where it is
/// compacted.
#[derive(Drop)]
pub struct Told {
    pub tail: Tail,
    pub records: u64,
    pub in_force: u64,
    pub compacted: Vec<u8>,
}

impl Told {
    pub fn of(alloc: Global, kind: Kind, text: &[u8]) -> Result<Told, AllocError> {
        match kind {
            Kind::BuildLog => {
                let (log, tail) = BuildLog::parse(alloc, text)?;
                Told::of_log(alloc, &log, tail)
            }
            _ => {
                let (log, tail) = log_text::DepsLog::parse(alloc, text)?;
                Ok(Told {
                    tail,
                    records: log.records(),
                    in_force: log.records_in_force() as u64,
                    compacted: log.compacted(alloc)?,
                })
            }
        }
    }

    fn of_log(alloc: Global, log: &BuildLog, tail: Tail) -> Result<Told, AllocError> {
        Ok(Told {
            tail,
            records: log.records(),
            in_force: log.records_in_force() as u64,
            compacted: log.compacted(alloc)?,
        })
    }

    pub fn push_to(&self, alloc: Global, answer: &mut String) -> Result<(), AllocError> {
        let (tail, records, in_force) = (self.tail, self.records, self.in_force);
        let counts = format!(in alloc; "{tail:?}, {records} records, {in_force} in force")?;
        answer.push_str(counts.as_str())?;
        if self.in_force > 0 {
            let shown = String::from_utf8_lossy(alloc, self.compacted.as_slice())?;
            answer.push_str(": ")?;
            answer.push_str(shown.as_str())?;
        }
        Ok(())
    }
}

/// `look`: the number of the record in force for an output, and what it tells.
pub fn push_look(
    alloc: Global,
    kind: Kind,
    text: &[u8],
    output: &str,
    answer: &mut String,
) -> Result<(), AllocError> {
    match kind {
        Kind::BuildLog => {
            let (log, _) = BuildLog::parse(alloc, text)?;
            push_found(alloc, &log, output, answer)
        }
        _ => {
            let (log, _) = log_text::DepsLog::parse(alloc, text)?;
            push_found_deps(alloc, &log, output, answer)
        }
    }
}

fn push_found(
    alloc: Global,
    log: &BuildLog,
    output: &str,
    answer: &mut String,
) -> Result<(), AllocError> {
    push_place(alloc, log.find(output), answer)?;
    push_done(alloc, log.lookup(output), answer)
}

fn push_found_deps(
    alloc: Global,
    log: &log_text::DepsLog,
    output: &str,
    answer: &mut String,
) -> Result<(), AllocError> {
    push_place(alloc, log.find(output), answer)?;
    push_deps(alloc, log, log.lookup(output), answer)
}

/// `at`: what the record with this number tells.
pub fn push_at(
    alloc: Global,
    kind: Kind,
    text: &[u8],
    number: u64,
    answer: &mut String,
) -> Result<(), AllocError> {
    match kind {
        Kind::BuildLog => {
            let (log, _) = BuildLog::parse(alloc, text)?;
            push_done(alloc, log.done_at(number as usize), answer)
        }
        _ => {
            let (log, _) = log_text::DepsLog::parse(alloc, text)?;
            push_deps(alloc, &log, log.deps_at(number as usize), answer)
        }
    }
}

fn push_place(alloc: Global, place: Option<usize>, answer: &mut String) -> Result<(), AllocError> {
    if let Some(place) = place {
        answer.push_str(format!(in alloc; "{place}:")?.as_str())?;
    }
    Ok(())
}

fn push_done(alloc: Global, done: Option<&Done>, answer: &mut String) -> Result<(), AllocError> {
    let Some(done) = done else {
        return push_word(answer, "nothing");
    };
    push_word(answer, format!(in alloc; "{}", done.start)?.as_str())?;
    let command = done.act.command.to_text(alloc)?;
    push_word(answer, command.as_str())
}

fn push_deps(
    alloc: Global,
    log: &log_text::DepsLog,
    deps: Option<&Deps>,
    answer: &mut String,
) -> Result<(), AllocError> {
    let Some(deps) = deps else {
        return push_word(answer, "nothing");
    };
    push_word(answer, format!(in alloc; "{}", deps.start)?.as_str())?;
    for number in deps.paths.as_slice() {
        push_word(answer, log.path(*number).unwrap_or("no path"))?;
    }
    Ok(())
}

/// `begun`, `done`: what a build log tells with one record more, of a begun command or of one that ended well, with its start and
/// its command.
pub fn push_added(
    alloc: Global,
    text: &[u8],
    output: &str,
    made: Option<(&str, &str)>,
    answer: &mut String,
) -> Result<(), AllocError> {
    let (mut log, tail) = BuildLog::parse(alloc, text)?;
    let told = told_with(alloc, &mut log, tail, output, made)?;
    told.push_to(alloc, answer)
}

fn told_with(
    alloc: Global,
    log: &mut BuildLog,
    tail: Tail,
    output: &str,
    made: Option<(&str, &str)>,
) -> Result<Told, AllocError> {
    match made {
        None => apply_begun(alloc, log, output)?,
        Some((start, command)) => {
            let start = number_of(start).unwrap_or(0);
            apply_done(alloc, log, output, start, command)?;
        }
    }
    Told::of_log(alloc, log, tail)
}

fn apply_begun(alloc: Global, log: &mut BuildLog, output: &str) -> Result<(), AllocError> {
    let outputs = outputs(alloc, output)?;
    log.apply(alloc, Record::Begun { outputs })
}

fn apply_done(
    alloc: Global,
    log: &mut BuildLog,
    output: &str,
    start: u64,
    command: &str,
) -> Result<(), AllocError> {
    let outputs = outputs(alloc, output)?;
    let act = act(alloc, command)?;
    let added = Record::Done {
        outputs,
        start,
        act,
    };
    log.apply(alloc, added)
}

fn outputs(alloc: Global, output: &str) -> Result<Items<Path>, AllocError>
    ensures { IfOk result (λ outputs. outputs ≡ output.now ∷ []) }
{
    let mut outputs = Vec::new(alloc);
    outputs.push(Path::from_str(alloc, output)?)?;
    Ok(Items::from_vec(outputs))
}

fn act(alloc: Global, command: &str) -> Result<Act, AllocError> {
    Ok(Act {
        command: SharedText::from_str(alloc, command)?,
        depfile: Text::new(alloc),
        response_path: Text::new(alloc),
        response_content: SharedText::new(),
    })
}

/// `times`: whether a build log and a deps log are to be compacted in which one output was made so often.
pub fn push_times(alloc: Global, times: u64, answer: &mut String) -> Result<(), AllocError> {
    answer.push_str(wish(wants_log(alloc, times)?))?;
    push_word(answer, wish(wants_deps(alloc, times)?))
}

fn wish(wants: bool) -> &'static str {
    if wants { "wants" } else { "no" }
}

/// Whether a build log is to be compacted in which `o` was made so often.
fn wants_log(alloc: Global, times: u64) -> Result<bool, AllocError> {
    let mut text = BuildLog::new(alloc).compacted(alloc)?;
    push_repeated(alloc, &mut text, times)?;
    wants_in_log(alloc, text.as_slice())
}

fn wants_in_log(alloc: Global, text: &[u8]) -> Result<bool, AllocError> {
    let (log, _) = BuildLog::parse(alloc, text)?;
    Ok(log.wants_compaction())
}

/// The lines of commands that made `o`, so many.
fn push_repeated(alloc: Global, text: &mut Vec<u8>, times: u64) -> Result<(), AllocError> {
    for start in 0..times {
        push_made(alloc, text, start)?;
    }
    Ok(())
}

/// The line of a command that made `o`, and ended well.
fn push_made(alloc: Global, text: &mut Vec<u8>, start: u64) -> Result<(), AllocError> {
    let act = act(alloc, "cat o a")?;
    push_done_line(text, &Done { start, act })
}

fn push_done_line(text: &mut Vec<u8>, done: &Done) -> Result<(), AllocError> {
    done_line(text, &["o"], done)?;
    Ok(())
}

/// Whether a deps log is to be compacted in which `o` told its input so often.
fn wants_deps(alloc: Global, times: u64) -> Result<bool, AllocError> {
    let mut text = log_text::DepsLog::new(alloc).compacted(alloc)?;
    push_reported(&mut text, times)?;
    wants_in_deps(alloc, text.as_slice())
}

fn wants_in_deps(alloc: Global, text: &[u8]) -> Result<bool, AllocError> {
    let (log, _) = log_text::DepsLog::parse(alloc, text)?;
    Ok(log.wants_compaction())
}

/// The lines of what a command told that made `o`, so many.
fn push_reported(text: &mut Vec<u8>, times: u64) -> Result<(), AllocError> {
    for start in 0..times {
        log_text::record_line(text, &["o"], start, &["a.h"])?;
    }
    Ok(())
}
