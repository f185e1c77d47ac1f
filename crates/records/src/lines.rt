//! The lines that a build puts behind its logs.

ghost use Rattle.std.specs.Prelude.{◌≡◌, ◌≢◌, ◌<◌, [], suc, IfOk, OnOk, length};
ghost use Rattle.model.specs.Graph.{IsCommand, IsMadeOnce};
ghost use Rattle.log_text.specs.declared.form.Version.TheVariants.{Two};
ghost use Rattle.log_text.specs.Form.{IsLineOf};
ghost use Rattle.log_text.specs.Found.{texts_in};
ghost use Rattle.log_text.specs.BuildRecord.{forms};
ghost use Rattle.log_text.specs.DepsRecordLine.{forms as deps_forms};
ghost use Rattle.records.specs.Edges.{declared_edges, declared_act, declared_outputs, begun_of, done_of, report_of};
ghost use Rattle.paths.specs.Told.{text_at};

use graph::{Graph, numbers_stand};
use log_text::{begun_line, made_line, record_line};
use model::{Act, Record};
use paths::{Action, EdgeId, PathId};
use std::alloc::{AllocError, Global};

/// Makes the line that of the begun record of an edge. What stood there is let go.
pub fn begun_line_of(
    alloc: Global,
    line: &mut Vec<u8>,
    graph: &Graph,
    edge: EdgeId,
) -> Result<(), AllocError>
    requires within { edge < length graph.now.manifest.lines }
    requires once { IsMadeOnce (declared_edges graph.now) }
    requires some { declared_outputs graph.now edge ≢ [] }
    ensures { OnOk result (IsLineOf (forms Two) (begun_of graph.now edge) line.new.items) }
{
    let outputs = output_texts(alloc, graph, edge)?;
    line.clear();
    begun_line(line, outputs.as_slice())?;
    Ok(())
}

/// Makes the line that of the done record of an edge, whose command was started under this stamp. What stood there is let go.
pub fn done_line_of(
    alloc: Global,
    line: &mut Vec<u8>,
    graph: &Graph,
    edge: EdgeId,
    start: u64,
) -> Result<(), AllocError>
    requires within { edge < length graph.now.manifest.lines }
    requires once { IsMadeOnce (declared_edges graph.now) }
    requires some { declared_outputs graph.now edge ≢ [] }
    requires command { IsCommand (declared_edges graph.now) (suc edge) }
    ensures { OnOk result (IsLineOf (forms Two) (done_of graph.now edge start) line.new.items) }
{
    let outputs = output_texts(alloc, graph, edge)?;
    line.clear();
    made_line(line, outputs.as_slice(), start, act_of(graph, edge))?;
    Ok(())
}

/// Makes the line that of the deps record of an edge, whose command was started under this stamp and read these paths. What
/// stood there is let go.
pub fn deps_line_of(
    alloc: Global,
    line: &mut Vec<u8>,
    graph: &Graph,
    edge: EdgeId,
    start: u64,
    paths: &[&str],
) -> Result<(), AllocError>
    requires within { edge < length graph.now.manifest.lines }
    requires once { IsMadeOnce (declared_edges graph.now) }
    requires some { declared_outputs graph.now edge ≢ [] }
    ensures { OnOk result (IsLineOf (deps_forms Two) (report_of graph.now edge start (texts_in paths.now)) line.new.items) }
{
    let outputs = output_texts(alloc, graph, edge)?;
    line.clear();
    record_line(line, outputs.as_slice(), start, paths)?;
    Ok(())
}

/// What the command of an edge does.
fn act_of(graph: &Graph, edge: EdgeId) -> &Act
    requires within { edge < length graph.now.manifest.lines }
    requires command { IsCommand (declared_edges graph.now) (suc edge) }
    ensures { result.now ≡ declared_act graph.now edge }
{
    numbers_stand(graph);
    match graph.manifest.action(edge) {
        Action::Alias => unreachable!(),
        Action::Command(command) => &command.act,
    }
}

/// The texts of what the edge makes. They are borrowed from the graph.
fn output_texts(alloc: Global, graph: &Graph, edge: EdgeId) -> Result<Vec<&str>, AllocError>
    requires within { edge < length graph.now.manifest.lines }
    ensures { IfOk result (λ texts. texts_in texts.items ≡ declared_outputs graph.now edge) }
{
    numbers_stand(graph);
    let outputs = graph.outputs(edge);
    let mut texts = Vec::with_capacity(alloc, outputs.len())?;
    for output in outputs {
        texts.push(text_of(graph, *output))?;
    }
    Ok(texts)
}

/// The text of a path; the empty one for a number that no path has.
fn text_of(graph: &Graph, path: PathId) -> &str
    ensures { result.now ≡ text_at graph.now.manifest.paths path }
{
    match graph.manifest.paths.get(path) {
        Some(text) => text,
        None => "",
    }
}
