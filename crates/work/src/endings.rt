//! The texts of a command, from its edge.

ghost use Rattle.std.specs.Prelude.{◌≡◌, ◌<◌, length, map, Some, None, IfOk, OnOk};
ghost use Rattle.model.specs.Graph.{outputs};
ghost use Rattle.status.specs.Line.{said_of};
ghost use Rattle.work.specs.EdgeIn.{edge_in};
ghost use Rattle.work.specs.Shown.{printed_by, said_by, PutsEnd, PutsFailure};

use crate::display::Display;
use crate::terminal::has_terminal;
use graph::Graph;
use model::Finished;
use paths::{Action, EdgeId};
use status::{DepfileFault, Ending, Failure, push_ending};
use std::alloc::{AllocError, Global};
use text::Text;

/// What a line says of the command of an edge.
pub fn said(alloc: Global, verbose: bool, graph: &Graph, edge: EdgeId) -> Result<Text, AllocError>
    requires { edge < length graph.now.manifest.lines }
    ensures { IfOk result (λ text. text ≡ said_by verbose (edge_in graph.now edge)) }
{
    let line = command_of(alloc, graph, edge)?;
    let description = description_of(graph, edge);
    let shown = status::said_of(verbose, description, line.as_str());
    let text = Text::from_str(alloc, shown)?;
    Ok(text)
}

/// The description of an edge's command; nothing where it has none.
fn description_of(graph: &Graph, edge: EdgeId) -> &str
    requires { edge < length graph.now.manifest.lines }
    ensures { result.now ≡ (edge_in graph.now edge).description }
{
    match graph.manifest.action(edge) {
        Action::Alias => "",
        Action::Command(command) => command.description.as_str(),
    }
}

impl Display<'_> {
    /// Puts behind a text why the command of an edge failed, where it did, and what it printed, unless it had the terminal. Where
    /// memory is refused, a part of it may stand there.
    pub(crate) fn push_end(
        &self,
        text: &mut Vec<u8>,
        graph: &Graph,
        edge: EdgeId,
        finished: &Finished,
        depfile: Option<DepfileFault<'_>>,
    ) -> Result<(), AllocError>
        requires { edge < length graph.now.manifest.lines }
        ensures { OnOk result (PutsEnd graph.now edge finished.now depfile.entry text.old text.new) }
    {
        let printed = printed(graph, edge, finished);
        if finished.ok {
            let ending = Ending {
                failure: None,
                output: printed,
            };
            return push_ending(text, &ending);
        }
        let outputs = outputs(self.alloc(), graph, edge)?;
        let line = command_of(self.alloc(), graph, edge)?;
        push_failed(text, outputs.as_slice(), line.as_str(), depfile, printed)
    }
}

/// What is told of what a command printed: all of it, but of one that had the terminal nothing.
fn printed<'f>(graph: &Graph, edge: EdgeId, finished: &'f Finished) -> &'f [u8]
    requires { edge < length graph.now.manifest.lines }
    ensures { result.now ≡ printed_by (edge_in graph.now edge) finished.now.output }
{
    if has_terminal(graph, edge) {
        return b"";
    }
    finished.output.as_slice()
}

/// Puts behind a text that a command failed, and what it printed.
fn push_failed<'x>(
    text: &mut Vec<u8>,
    outputs: &'x [&'x str],
    command: &'x str,
    depfile: Option<DepfileFault<'x>>,
    printed: &'x [u8],
) -> Result<(), AllocError>
    ensures { OnOk result (PutsFailure outputs.now command.now depfile.entry printed.now text.old text.new) }
{
    let failure = Failure {
        outputs,
        command,
        depfile,
    };
    let ending = Ending {
        failure: Some(failure),
        output: printed,
    };
    push_ending(text, &ending)
}

/// The command line of an edge; nothing where it has none.
fn command_of(alloc: Global, graph: &Graph, edge: EdgeId) -> Result<Text, AllocError>
    requires { edge < length graph.now.manifest.lines }
    ensures { IfOk result (λ line. line ≡ (edge_in graph.now edge).act.command) }
{
    match graph.manifest.action(edge) {
        Action::Alias => Ok(Text::new(alloc)),
        Action::Command(command) => {
            let line = command.act.command.to_text(alloc)?;
            Ok(line)
        }
    }
}

/// All that an edge makes: its explicit outputs, then its implicit ones.
fn outputs<'g>(alloc: Global, graph: &'g Graph, edge: EdgeId) -> Result<Vec<&'g str>, AllocError>
    requires { edge < length graph.now.manifest.lines }
    ensures { IfOk result (λ texts. map (λ text. text.now) texts.items ≡ outputs (edge_in graph.now edge)) }
{
    let mut texts = Vec::new(alloc);
    for output in graph.outputs(edge) {
        texts.push(graph.text(*output))?;
    }
    Ok(texts)
}
