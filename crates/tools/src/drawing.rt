//! `-t graph`: the graph above targets, for graphviz.

ghost use Rattle.std.specs.Prelude.{◌<◌, length};

use crate::access::{inputs_at, outputs_at, text_at};
use crate::declared::Declared;
use crate::lines::push_line;
use paths::{EdgeId, PathId};
use std::alloc::{AllocError, Global};

const FRONT: &str = "digraph ninja {
rankdir=\"LR\"
node [fontsize=10, shape=box, height=0.25]
edge [fontsize=10]
";

/// What was drawn already, and what is still to be looked at.
#[derive(Drop)]
struct Drawing {
    paths: Vec<bool>,
    edges: Vec<bool>,
    /// The paths that are still to be drawn, the next one last.
    open: Vec<PathId>,
    told: String,
}

/// What `graph` prints: these paths and all above them, each path as `pN` and each edge as `eN` by its number.
pub fn graph(alloc: Global, declared: &Declared, paths: &[PathId]) -> Result<String, AllocError> {
    let mut drawing = Drawing {
        paths: vec![in alloc; false; declared.graph.paths()]?,
        edges: vec![in alloc; false; declared.graph.edges()]?,
        open: Vec::new(alloc),
        told: String::from_str(alloc, FRONT)?,
    };
    drawing.push_reversed(paths)?;
    for _ in 0..usize::MAX {
        match drawing.open.pop() {
            Some(path) => drawing.draw(alloc, declared, path)?,
            None => break,
        }
    }
    drawing.told.push_str("}\n")?;
    let Drawing { told, .. } = drawing;
    Ok(told)
}

impl Drawing {
    /// These paths are drawn next, the first one first.
    fn push_reversed(&mut self, paths: &[PathId]) -> Result<(), AllocError> {
        for path in paths.iter().rev() {
            self.open.push(*path)?;
        }
        Ok(())
    }

    /// Draws a path, and the edge that makes it, each once.
    fn draw(&mut self, alloc: Global, declared: &Declared, path: PathId) -> Result<(), AllocError> {
        if is_met(&mut self.paths, path.index()) {
            return Ok(());
        }
        self.draw_path(alloc, path, text_at(&declared.graph, path))?;
        let Some(edge) = declared.graph.maker(path) else {
            return Ok(());
        };
        if is_met(&mut self.edges, edge.index()) {
            return Ok(());
        }
        self.draw_edge(alloc, declared, edge)?;
        self.push_reversed(inputs_at(&declared.graph, edge))
    }

    /// Draws a path as a node.
    fn draw_path(&mut self, alloc: Global, path: PathId, text: &str) -> Result<(), AllocError> {
        let name = path_name(alloc, path)?;
        let label = escaped(alloc, text)?;
        let line = ["\"", name.as_str(), "\" [label=\"", label.as_str(), "\"]"];
        push_line(&mut self.told, line.as_slice())
    }

    /// Draws an edge: by one line from its input to its output, where it has one of each, and else as a node of its own.
    fn draw_edge(
        &mut self,
        alloc: Global,
        declared: &Declared,
        edge: EdgeId,
    ) -> Result<(), AllocError>
        requires { edge < length declared.now.graph.manifest.lines }
    {
        let graph = &declared.graph;
        let rule = declared.rule(edge);
        match (inputs_at(graph, edge), outputs_at(graph, edge)) {
            ([input], [output]) => self.draw_short(alloc, *input, *output, rule),
            _ => {
                let number = edge.index();
                let name = format!(in alloc; "e{number}")?;
                self.draw_node(alloc, declared, edge, name.as_str())
            }
        }
    }

    fn draw_short(
        &mut self,
        alloc: Global,
        input: PathId,
        output: PathId,
        rule: &str,
    ) -> Result<(), AllocError> {
        let from = path_name(alloc, input)?;
        let to = path_name(alloc, output)?;
        let line = [
            "\"",
            from.as_str(),
            "\" -> \"",
            to.as_str(),
            "\" [label=\" ",
            rule,
            "\"]",
        ];
        push_line(&mut self.told, line.as_slice())
    }

    /// Draws an edge as a node of this name.
    fn draw_node(
        &mut self,
        alloc: Global,
        declared: &Declared,
        edge: EdgeId,
        name: &str,
    ) -> Result<(), AllocError>
        requires { edge < length declared.now.graph.manifest.lines }
    {
        let rule = declared.rule(edge);
        let line = ["\"", name, "\" [label=\"", rule, "\", shape=ellipse]"];
        push_line(&mut self.told, line.as_slice())?;
        let lines = &declared.graph.manifest.lines;
        self.draw_outputs(alloc, name, outputs_at(&declared.graph, edge))?;
        self.draw_inputs(alloc, name, "", lines.regular_inputs(edge))?;
        self.draw_inputs(alloc, name, " style=dotted", lines.order_only_inputs(edge))
    }

    fn draw_outputs(
        &mut self,
        alloc: Global,
        edge: &str,
        paths: &[PathId],
    ) -> Result<(), AllocError> {
        for path in paths {
            let name = path_name(alloc, *path)?;
            let line = ["\"", edge, "\" -> \"", name.as_str(), "\""];
            push_line(&mut self.told, line.as_slice())?;
        }
        Ok(())
    }

    fn draw_inputs(
        &mut self,
        alloc: Global,
        edge: &str,
        style: &str,
        paths: &[PathId],
    ) -> Result<(), AllocError> {
        for path in paths {
            let name = path_name(alloc, *path)?;
            let line = [
                "\"",
                name.as_str(),
                "\" -> \"",
                edge,
                "\" [arrowhead=none",
                style,
                "]",
            ];
            push_line(&mut self.told, line.as_slice())?;
        }
        Ok(())
    }
}

/// Whether the place has a mark, which it gets.
fn is_met(marks: &mut Vec<bool>, place: usize) -> bool {
    if place >= marks.len() {
        return true;
    }
    let was = marks[place];
    marks[place] = true;
    was
}

fn path_name(alloc: Global, path: PathId) -> Result<String, AllocError> {
    let number = path.index();
    format!(in alloc; "p{number}")
}

/// The text with slashes for backslashes, as real ninja has it.
fn escaped(alloc: Global, text: &str) -> Result<String, AllocError> {
    let mut shown = String::new(alloc);
    for part in text.chars() {
        shown.push(if part == '\\' { '/' } else { part })?;
    }
    Ok(shown)
}
