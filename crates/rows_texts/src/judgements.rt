//! Worked judgements, each in one row.
//!
//! `out=STAMP:START:DEPS` is an output, the start of the command that made it and the start of its deps record. `in=STAMP`
//! is an input, and `new=STAMP` one that this build made anew. What is not there is `-` or left out.
//!
//! With `scan` the act has a depfile, which is there with `depfile`, and is removed once it is read with `gcc`. `other-command` and
//! `other-content` are what the command was not made with; `restat` is that of a rule.

use judge::{Facts, Inputs, OutputFacts, Outputs, judge};
use log_text::{Done, number_of};
use model::{Act, Deps, Reason};
use std::alloc::{AllocError, Global};
use text::{SharedText, Text};

/// `judge`: why the command of the row is out of date, or that it is clean.
pub fn push_judgement(alloc: Global, row: &str, answer: &mut String) -> Result<(), AllocError> {
    match judged(alloc, row)? {
        None => answer.push_str("Clean"),
        Some(reason) => answer.push_str(format!(in alloc; "{reason:?}")?.as_str()),
    }
}

fn has(row: &str, word: &str) -> bool {
    row.split(' ').any(|other| other == word)
}

/// What a word says, where it is of this key.
fn value_of<'a>(word: &'a str, key: &str) -> Option<&'a str> {
    let (name, value) = word.split_once('=')?;
    (name == key).then_some(value)
}

fn values<'a>(alloc: Global, row: &'a str, key: &str) -> Result<Vec<&'a str>, AllocError> {
    let values = row.split(' ').filter_map(|word| value_of(word, key));
    Ok(values.collect(alloc)?)
}

fn act(alloc: Global, command: &str, depfile: &str, content: &str) -> Result<Act, AllocError> {
    Ok(Act {
        command: SharedText::from_str(alloc, command)?,
        depfile: Text::from_str(alloc, depfile)?,
        response_path: Text::from_str(alloc, "o.rsp")?,
        response_content: SharedText::from_str(alloc, content)?,
    })
}

/// The number with this place in the value of an output.
fn part(value: &str, place: usize) -> Option<u64> {
    number_of(value.split(':').nth(place)?)
}

/// For each output the record of this act.
fn records(alloc: Global, outputs: &[&str], made: &Act) -> Result<Vec<Done>, AllocError> {
    let mut records = Vec::new(alloc);
    for output in outputs {
        let start = part(output, 1).unwrap_or(0);
        let act = made.clone()?;
        records.push(Done { start, act })?;
    }
    Ok(records)
}

/// All outputs of an edge that does this now.
fn all_outputs(now: &Act, outputs: &[&str], records: &[Done]) -> Outputs {
    let mut all = Outputs::new();
    for (output, record) in outputs.iter().zip(records) {
        let facts = OutputFacts {
            stamp: part(output, 0),
            made: part(output, 1).is_some().then_some(record),
            deps_start: part(output, 2),
        };
        all.add(now, &facts);
    }
    all
}

/// All inputs of a row.
fn all_inputs(row: &str) -> Inputs {
    let mut all = Inputs::new();
    for word in row.split(' ') {
        if let Some(stamp) = value_of(word, "in") {
            all.add(number_of(stamp), false);
        }
        if let Some(stamp) = value_of(word, "new") {
            all.add(number_of(stamp), true);
        }
    }
    all
}

/// One of two texts, by whether the row has a word.
fn either<'a>(row: &str, word: &str, with: &'a str, without: &'a str) -> &'a str {
    if has(row, word) { with } else { without }
}

fn depfile_of(row: &str) -> &'static str {
    either(row, "scan", "o.d", "")
}

/// What the edge of a row does now. Its outputs were made by `cat` with the content `x`.
fn act_now(alloc: Global, row: &str) -> Result<Act, AllocError> {
    let command = either(row, "other-command", "fail", "cat");
    let content = either(row, "other-content", "y", "x");
    act(alloc, command, depfile_of(row), content)
}

fn judged(alloc: Global, row: &str) -> Result<Option<Reason>, AllocError> {
    let outputs = values(alloc, row, "out")?;
    let made = act(alloc, "cat", depfile_of(row), "x")?;
    let records = records(alloc, outputs.as_slice(), &made)?;
    judged_by(alloc, row, outputs.as_slice(), records.as_slice())
}

fn judged_by(
    alloc: Global,
    row: &str,
    outputs: &[&str],
    records: &[Done],
) -> Result<Option<Reason>, AllocError> {
    let now = act_now(alloc, row)?;
    let gcc = has(row, "gcc");
    Ok(judge(&Facts {
        act: &now,
        restat: has(row, "restat"),
        deps: if gcc { Deps::Gcc } else { Deps::Unset },
        depfile: has(row, "depfile"),
        outputs: all_outputs(&now, outputs, records),
        inputs: all_inputs(row),
    }))
}
