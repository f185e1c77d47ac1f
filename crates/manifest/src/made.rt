//! What edges are made of: paths and values (manual: "Rule variables", "The `phony` rule").

ghost use Rattle.std.specs.Prelude.{◌≡◌, ◌≤◌, length, if◌then◌else◌, IfOk, IfErr, OnOk};
ghost use Rattle.model.specs.declared.graph.Deps.TheVariants.{Unset, Gcc};
ghost use Rattle.paths.specs.Commands.{stop_of};
ghost use Rattle.paths.specs.Lists.{line_outputs};
ghost use Rattle.manifest.specs.Edges.{IsPathOrNone, IsFileOrNone, some_text, is_gcc};
ghost use Rattle.manifest.specs.Expanding.{IsCommandOf, AreKeptOf};
ghost use Rattle.manifest.specs.InNumbers.{IsLonger, HasNumbers, without_own};
ghost use Rattle.manifest.specs.PathReading.{text_found};

use crate::fault::ReadError;
use crate::fronts::Fronts;
use crate::values::Values;
use indexmap::IndexSet;
use lexer::{ReadFault, canonical, is_settled};
use model::{Act, Deps};
use paths::{Command, Line, PathId, Paths};
use std::alloc::{AllocError, Global};
use text::{Items, SharedText, Text};

/// What an edge with a command does. The dyndep file is put into the table.
pub fn command_of(
    alloc: Global,
    table: &mut Paths,
    fronts: &mut Fronts,
    values: Values,
) -> Result<Command, ReadError>
    ensures grows { OnOk result (IsLonger table.old table.new) }
    ensures command { IfOk result (λ command. IsCommandOf table.new values command) }
    ensures dyndep { IfOk result (λ command. stop_of command.dyndep ≤ length table.new) }
    ensures memory { IfErr result (λ error. error ≡ ReadError.Memory) }
{
    let act = act_of(
        alloc,
        fronts,
        values.command,
        values.depfile,
        values.rspfile,
        values.rspfile_content,
    )?;
    let dyndep = file_or_none(alloc, table, &values.dyndep)?;
    let deps = deps_of(&values.deps);
    let restat = !values.restat.is_empty();
    Ok(Command {
        act,
        description: values.description,
        deps,
        restat,
        pool: some_text(values.pool),
        dyndep,
    })
}

/// The act of these values. Its command and what its response file holds are kept so that others may share them, and the command
/// together with those before it that begin as it does.
fn act_of(
    alloc: Global,
    fronts: &mut Fronts,
    command: Text,
    depfile: Text,
    rspfile: Text,
    content: Text,
) -> Result<Act, ReadError>
    ensures command { IfOk result (λ act. act.command ≡ command) }
    ensures depfile { IfOk result (λ act. IsPathOrNone depfile act.depfile) }
    ensures response_path { IfOk result (λ act. IsPathOrNone rspfile act.response_path) }
    ensures content { IfOk result (λ act. act.response_content ≡ content) }
    ensures memory { IfErr result (λ error. error ≡ ReadError.Memory) }
{
    let depfile = path_or_none(alloc, depfile)?;
    let response_path = path_or_none(alloc, rspfile)?;
    let command = fronts.share(alloc, command)?;
    let response_content = SharedText::from_text(alloc, content)?;
    Ok(Act {
        command,
        depfile,
        response_path,
        response_content,
    })
}

/// The paths of a `phony` statement without the inputs that are outputs of its own.
pub fn without_own(alloc: Global, line: Line) -> Result<Line, AllocError>
    ensures { IfOk result (λ kept. kept ≡ without_own line) }
{
    let outputs = output_set(alloc, &line)?;
    let explicit_inputs = without(alloc, &outputs, line.explicit_inputs.as_slice())?;
    let implicit_inputs = without(alloc, &outputs, line.implicit_inputs.as_slice())?;
    let order_only_inputs = without(alloc, &outputs, line.order_only_inputs.as_slice())?;
    Ok(Line {
        explicit_outputs: line.explicit_outputs,
        implicit_outputs: line.implicit_outputs,
        explicit_inputs,
        implicit_inputs,
        order_only_inputs,
        validations: line.validations,
    })
}

/// The numbers of the outputs, each once.
fn output_set(alloc: Global, line: &Line) -> Result<IndexSet<usize>, AllocError>
    ensures { IfOk result (λ outputs. HasNumbers outputs.keys (line_outputs line.now)) }
{
    let mut outputs = IndexSet::new(alloc);
    for path in line.explicit_outputs.as_slice() {
        outputs.insert(path.index())?;
    }
    for path in line.implicit_outputs.as_slice() {
        outputs.insert(path.index())?;
    }
    Ok(outputs)
}

/// The paths that are none of the outputs.
fn without(
    alloc: Global,
    outputs: &IndexSet<usize>,
    paths: &[PathId],
) -> Result<Items<PathId>, AllocError>
    ensures { IfOk result (λ kept. AreKeptOf outputs.now.keys paths.now kept) }
{
    let mut kept = Items::from_vec(Vec::with_capacity(alloc, paths.len())?);
    for path in paths {
        if !outputs.contains(&path.index()) {
            kept.push(*path)?;
        }
    }
    Ok(kept)
}

/// The canonical path; an empty text stays empty.
fn path_or_none(alloc: Global, text: Text) -> Result<Text, ReadError>
    ensures path { IfOk result (IsPathOrNone text) }
    ensures memory { IfErr result (λ error. error ≡ ReadError.Memory) }
{
    if is_settled(text.as_str()) {
        return Ok(text);
    }
    match canonical(alloc, text.as_str()) {
        Ok(path) => Ok(Text::from_string(path)),
        Err(ReadFault::EmptyPath) => Ok(Text::new(alloc)),
        Err(ReadFault::Memory) => Err(ReadError::Memory),
    }
}

/// The number of the canonical path, which is put into the table; none for an empty text.
fn file_or_none(alloc: Global, table: &mut Paths, text: &Text) -> Result<Option<PathId>, ReadError>
    ensures grows { OnOk result (IsLonger table.old table.new) }
    ensures file { IfOk result (λ number. IsFileOrNone text.now (text_found table.new number)) }
    ensures within { IfOk result (λ number. stop_of number ≤ length table.new) }
    ensures memory { IfErr result (λ error. error ≡ ReadError.Memory) }
{
    match canonical(alloc, text.as_str()) {
        Ok(path) => Ok(Some(table.add(alloc, path.as_str())?)),
        Err(ReadFault::EmptyPath) => Ok(None),
        Err(ReadFault::Memory) => Err(ReadError::Memory),
    }
}

fn deps_of(text: &Text) -> Deps
    ensures { result ≡ (if is_gcc text.now then Gcc else Unset) }
{
    match text.as_str() {
        "gcc" => Deps::Gcc,
        _ => Deps::Unset,
    }
}

fn some_text(text: Text) -> Option<Text>
    ensures { result ≡ some_text text }
{
    if text.is_empty() { None } else { Some(text) }
}
