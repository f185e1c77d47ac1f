//! `-t inputs`: all that targets need.

ghost use Rattle.std.specs.Prelude.{◌≡◌, IfOk, OnOk, flat_map, map, string_bytes};
ghost use Rattle.std.specs.Map.Iter.{deref};
ghost use Rattle.tools.specs.Answers.{AddsWords, PrintsInputs, quoted_inputs, quoted_paths};

use crate::above::edges_above;
use crate::access::{inputs_at, is_phony_at, text_at};
use crate::declared::Declared;
use crate::listing::sorted_lines;
use lexer::quote;
use paths::{EdgeId, PathId};
use std::alloc::{AllocError, Global};

/// What `inputs` prints: each path that the commands above these paths name as an input, quoted for a shell, in the order of their
/// bytes, each once. What aliases name stands there only where a command names it too.
pub fn inputs(alloc: Global, declared: &Declared, paths: &[PathId]) -> Result<String, AllocError>
    ensures { IfOk result (λ told. PrintsInputs declared.now paths.now (string_bytes told)) }
{
    let edges = edges_above(alloc, &declared.graph, paths)?;
    let words = all_inputs(alloc, declared, edges.as_slice())?;
    let texts = borrow_all(alloc, words.as_slice())?;
    sorted_lines(alloc, texts)
}

/// The inputs of these edges, quoted, as often as commands name them.
fn all_inputs(
    alloc: Global,
    declared: &Declared,
    edges: &[EdgeId],
) -> Result<Vec<String>, AllocError>
    ensures { IfOk result (λ words. map string_bytes words.items ≡ flat_map (quoted_inputs declared.now) edges.now) }
{
    let mut words = Vec::new(alloc);
    for edge in edges {
        push_inputs(alloc, declared, *edge, &mut words)?;
    }
    Ok(words)
}

/// Those of one edge, where it is a command.
fn push_inputs(
    alloc: Global,
    declared: &Declared,
    edge: EdgeId,
    words: &mut Vec<String>,
) -> Result<(), AllocError>
    ensures { OnOk result (AddsWords words.old.items words.new.items (quoted_inputs declared.now edge)) }
{
    if is_phony_at(&declared.graph, edge) {
        return Ok(());
    }
    push_quoted(alloc, declared, inputs_at(&declared.graph, edge), words)
}

/// The characters of each.
fn borrow_all<'a>(alloc: Global, words: &'a [String]) -> Result<Vec<&'a str>, AllocError>
    ensures { IfOk result (λ texts. map deref texts.items ≡ map string_bytes words.now) }
{
    let mut texts = Vec::with_capacity(alloc, words.len())?;
    for word in words {
        texts.push(word.as_str())?;
    }
    Ok(texts)
}

fn push_quoted(
    alloc: Global,
    declared: &Declared,
    paths: &[PathId],
    texts: &mut Vec<String>,
) -> Result<(), AllocError>
    ensures { OnOk result (AddsWords texts.old.items texts.new.items (quoted_paths declared.now paths.now)) }
{
    for path in paths {
        texts.push(quote(alloc, text_at(&declared.graph, *path))?)?;
    }
    Ok(())
}
