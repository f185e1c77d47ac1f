//! What the lines of a build file say, and paths.

use lexer::{
    BuildLine, Piece, ReadFault, Statement, Statements, Value, canonical, quote, statements,
};
use std::alloc::{AllocError, Global};
use tables::unescaped;

/// What a text says, a line for each statement, and the line and the kind of its fault.
pub fn push_said(alloc: Global, text: &[u8], told: &mut String) -> Result<(), AllocError> {
    match str::from_utf8(text) {
        Ok(text) => push_statements(alloc, &statements(alloc, text)?, told),
        Err(_) => told.push_str("not UTF-8"),
    }
}

fn push_statements(
    alloc: Global,
    said: &Statements<'_>,
    told: &mut String,
) -> Result<(), AllocError> {
    for line in said.lines.as_slice() {
        let number = format!(in alloc; "{} ", line.number)?;
        told.push_str(number.as_str())?;
        push_statement(&line.statement, told)?;
        told.push('\n')?;
    }
    if let Some(fault) = said.fault {
        let fault = format!(in alloc; "{}: {}", fault.line, fault.kind)?;
        told.push_str(fault.as_str())?;
    }
    Ok(())
}

fn push_statement(statement: &Statement<'_>, told: &mut String) -> Result<(), AllocError> {
    match statement {
        Statement::Binding { name, value } => push_binding("", name, value, told),
        Statement::BlockBinding { name, value } => push_binding("- ", name, value, told),
        Statement::Rule { name } => push_both("rule ", name, told),
        Statement::Pool { name } => push_both("pool ", name, told),
        Statement::Build(build) => push_build(build, told),
        Statement::Default { paths } => push_paths("default", paths.as_slice(), told),
        Statement::Include { path } => push_after("include ", path, told),
        Statement::Subninja { path } => push_after("subninja ", path, told),
    }
}

fn push_both(first: &str, second: &str, told: &mut String) -> Result<(), AllocError> {
    told.push_str(first)?;
    told.push_str(second)
}

fn push_binding(
    indent: &str,
    name: &str,
    value: &Value<'_>,
    told: &mut String,
) -> Result<(), AllocError> {
    push_both(indent, name, told)?;
    push_after("=", value, told)
}

fn push_build(build: &BuildLine<'_>, told: &mut String) -> Result<(), AllocError> {
    told.push_str("build")?;
    push_paths("", build.explicit_outputs.as_slice(), told)?;
    push_paths(" |", build.implicit_outputs.as_slice(), told)?;
    push_both(": ", build.rule, told)?;
    push_paths("", build.explicit_inputs.as_slice(), told)?;
    push_paths(" |", build.implicit_inputs.as_slice(), told)?;
    push_paths(" ||", build.order_only_inputs.as_slice(), told)?;
    push_paths(" |@", build.validations.as_slice(), told)
}

/// The mark, where there are any, and the paths.
fn push_paths(mark: &str, paths: &[Value<'_>], told: &mut String) -> Result<(), AllocError> {
    if !paths.is_empty() {
        told.push_str(mark)?;
    }
    for path in paths {
        push_after(" ", path, told)?;
    }
    Ok(())
}

/// A value behind a text: its texts in square brackets, its names in angle brackets.
fn push_after(before: &str, value: &Value<'_>, told: &mut String) -> Result<(), AllocError> {
    told.push_str(before)?;
    for piece in value.pieces.as_slice() {
        let (open, inside, close) = match piece {
            Piece::Text(text) => ('[', *text, ']'),
            Piece::Name(name) => ('<', *name, '>'),
        };
        told.push(open)?;
        told.push_str(inside)?;
        told.push(close)?;
    }
    Ok(())
}

/// `canonical PATH`: the one form of a path.
pub fn push_canonical(alloc: Global, path: &str, told: &mut String) -> Result<(), AllocError> {
    match canonical(alloc, path) {
        Ok(found) => told.push_str(found.as_str()),
        Err(ReadFault::EmptyPath) => told.push_str("empty path"),
        Err(ReadFault::Memory) => Err(AllocError),
    }
}

/// `quote PATH`: the path as a word of the shell.
pub fn push_quoted(alloc: Global, path: &str, told: &mut String) -> Result<(), AllocError> {
    let bytes = unescaped(alloc, path)?;
    let path = String::from_utf8_lossy(alloc, bytes.as_slice())?;
    let word = quote(alloc, path.as_str())?;
    told.push_str(word.as_str())
}
