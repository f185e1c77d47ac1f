//! The paths of all edges, in flat memory.

ghost use Rattle.std.specs.Prelude.{◌≡◌, ◌<◌, ◌++◌, ◌∷◌, ◌≤◌, ◌-◌, [], length, vec_len, IfOk, OnOk, OnErr};
ghost use Rattle.model.specs.Graph.{has_number};
ghost use Rattle.paths.specs.Lists.{line_at, line_of, line_outputs, line_regular_inputs, line_inputs, line_paths, all_paths, between, grown_line, IsAppended, IsRowIn, Extends};
ghost use Rattle.paths.specs.Grown.{with_grown, IsGrownRow};
ghost use Rattle.paths.specs.Shrunk.{with_shrunk, IsMovedTo, IsShrunkRow};

use crate::id::{EdgeId, PathId};
use crate::line::Line;
use std::alloc::{AllocError, Global};
use std::marker::Model;

/// Where the lists of an edge stand: each begins where the one before it ends.
#[derive(Clone, Copy)]
pub struct Row {
    pub start: usize,
    pub explicit_outputs: usize,
    pub implicit_outputs: usize,
    pub explicit_inputs: usize,
    pub implicit_inputs: usize,
    pub order_only_inputs: usize,
    pub validations: usize,
}

/// The paths of edges, which contracts see as the list of their lines. An edge takes 56 bytes, and 4 for each path; what the line of
/// an edge was before it grew keeps these 4, up to a copy when they are more than half of all.
#[derive(Drop)]
pub struct Lines {
    numbers: Vec<PathId>,
    rows: Vec<Row>,
    /// How many numbers lines left where they stood before they grew.
    left: usize,
}

impl Model for Lines {
    ghost use Rattle.std.specs.Prelude.{List, map, length};
    ghost use Rattle.paths.specs.declared.line.Line.{Line};

    ghost Value = { List Line };

    ghost use Rattle.paths.specs.Lists.{line_of, AreLaidOut};

    ghost view = { λ lines. map (line_of lines.numbers.items) lines.rows.items };

    ghost invariant = { λ lines. AreLaidOut (length lines.numbers.items) lines.rows.items };
}

impl Lines {
    /// No lines, which takes no memory.
    pub fn new(alloc: Global) -> Lines
        ensures { result ≡ [] }
    {
        Lines {
            numbers: Vec::new(alloc),
            rows: Vec::new(alloc),
            left: 0,
        }
    }

    /// The same lines, with room for so many more numbers of paths: where lines grow by no more, they do not move. What lines left
    /// when they grew is copied too, unless it is more than half of all numbers.
    pub fn copied(&self, alloc: Global, more: usize) -> Result<Lines, AllocError>
        ensures { IfOk result (λ copy. copy ≡ self.now) }
    {
        if self.left > self.numbers.len() / 2 {
            return self.packed(alloc, more);
        }
        let mut numbers = Vec::with_capacity(alloc, self.numbers.len().saturating_add(more))?;
        numbers.extend_from_slice(&self.numbers)?;
        let mut rows = Vec::with_capacity(alloc, self.rows.len())?;
        rows.extend_from_slice(&self.rows)?;
        Ok(Lines {
            numbers,
            rows,
            left: self.left,
        })
    }

    /// The same without what lines left when they grew. It takes a time of the order of the lines and their paths, which the growth
    /// before it has paid for.
    fn packed(&self, alloc: Global, more: usize) -> Result<Lines, AllocError>
        ensures { IfOk result (λ copy. copy ≡ self.now) }
    {
        let used = self.numbers.len().saturating_sub(self.left);
        let mut packed = Lines {
            numbers: Vec::with_capacity(alloc, used.saturating_add(more))?,
            rows: Vec::with_capacity(alloc, self.rows.len())?,
            left: 0,
        };
        for place in 0..self.rows.len() {
            packed.push_lists(&self.numbers, self.rows[place])?;
        }
        Ok(packed)
    }

    /// Puts a line behind the others whose lists stand among these numbers.
    fn push_lists(&mut self, from: &[PathId], row: Row) -> Result<(), AllocError>
        requires { IsRowIn (length from.now) row }
        ensures { OnOk result (self.new ≡ self.old ++ line_of from.now row ∷ []) }
    {
        let row = append_lists(&mut self.numbers, from, row)?;
        self.rows.push(row)?;
        Ok(())
    }

    /// How many there are.
    pub fn len(&self) -> usize
        ensures { result ≡ length self.now }
    {
        self.rows.len()
    }

    /// Puts a line behind the others. Where memory is refused, they stay as they were.
    pub fn push(&mut self, line: &Line) -> Result<(), AllocError>
        ensures ok { OnOk result (self.new ≡ self.old ++ line.now ∷ []) }
        ensures err { OnErr result (self.new ≡ self.old) }
    {
        // what a refused line leaves at the end belongs to no line
        let row = append_line(&mut self.numbers, line)?;
        self.rows.push(row)?;
        Ok(())
    }

    /// Puts the line of an edge behind the others, with more implicit outputs and more implicit inputs. Where memory is
    /// refused, they stay as they were.
    pub fn push_grown(
        &mut self,
        lines: &Lines,
        edge: EdgeId,
        outputs: &[PathId],
        inputs: &[PathId],
    ) -> Result<(), AllocError>
        requires { edge < length lines.now }
        ensures ok { OnOk result (self.new ≡ self.old ++ grown_line (line_at lines.now edge) outputs.now inputs.now ∷ []) }
        ensures err { OnErr result (self.new ≡ self.old) }
    {
        // what a refused line leaves at the end belongs to no line
        let row = append_grown(&mut self.numbers, lines, edge, outputs, inputs)?;
        self.rows.push(row)?;
        Ok(())
    }

    /// Gives the line of an edge more implicit outputs and more implicit inputs, behind those that it has. The line moves behind
    /// all others, and no other one does: 4 bytes for each of its paths are lost where it stood, up to a copy of the lines when more
    /// than half of all are. Where memory is refused, the lines stay as they were.
    pub fn grow(
        &mut self,
        edge: EdgeId,
        outputs: &[PathId],
        inputs: &[PathId],
    ) -> Result<(), AllocError>
        requires { edge < length self.old }
        ensures ok { OnOk result (self.new ≡ with_grown self.old edge outputs.now inputs.now) }
        ensures err { OnErr result (self.new ≡ self.old) }
    {
        let row = self.rows[edge.index()];
        // what a refused line leaves at the end belongs to no line
        let grown = append_row(&mut self.numbers, row, outputs, inputs)?;
        self.rows[edge.index()] = grown;
        self.left = self
            .left
            .saturating_add(row.validations.saturating_sub(row.start));
        Ok(())
    }

    /// Takes the last so many implicit outputs and implicit inputs from the line of an edge, all where it has fewer. It takes no
    /// memory, and no other line is touched: 4 bytes for each path that goes are lost, up to a copy of the lines.
    pub fn shrink(&mut self, edge: EdgeId, outputs: usize, inputs: usize)
        requires { edge < length self.old }
        ensures { self.new ≡ with_shrunk self.old edge outputs inputs }
    {
        let place = edge.index();
        let row = self.rows[place];
        let shrunk = shrink_row(&mut self.numbers, row, outputs, inputs);
        self.rows[place] = shrunk;
        self.left = self
            .left
            .saturating_add(row.validations.saturating_sub(shrunk.validations));
    }

    /// Whether some edge names the path.
    pub fn name(&self, path: PathId) -> bool
        ensures { result ≡ has_number (all_paths self.now) path }
    {
        for place in 0..self.len() {
            if has(self.all_of(place), path) {
                return true;
            }
        }
        false
    }

    /// All paths that the edge at this place names.
    fn all_of(&self, place: usize) -> &[PathId]
        requires { place < length self.now }
        ensures { result.now ≡ line_paths (line_at self.now place) }
    {
        let row = self.rows[place];
        &self.numbers[row.start..row.validations]
    }

    /// What the edge makes: its explicit outputs, then its implicit ones (manual: "Build outputs").
    pub fn outputs(&self, edge: EdgeId) -> &[PathId]
        requires { edge < length self.now }
        ensures { result.now ≡ line_outputs (line_at self.now edge) }
    {
        let row = self.rows[edge.index()];
        &self.numbers[row.start..row.implicit_outputs]
    }

    /// Its explicit outputs, which `$out` stands for.
    pub fn explicit_outputs(&self, edge: EdgeId) -> &[PathId]
        requires { edge < length self.now }
        ensures { result.now ≡ (line_at self.now edge).explicit_outputs }
    {
        let row = self.rows[edge.index()];
        &self.numbers[row.start..row.explicit_outputs]
    }

    /// Its implicit outputs.
    pub fn implicit_outputs(&self, edge: EdgeId) -> &[PathId]
        requires { edge < length self.now }
        ensures { result.now ≡ (line_at self.now edge).implicit_outputs }
    {
        let row = self.rows[edge.index()];
        &self.numbers[row.explicit_outputs..row.implicit_outputs]
    }

    /// Its inputs: the regular ones, then the order-only ones (manual: "Build dependencies").
    pub fn inputs(&self, edge: EdgeId) -> &[PathId]
        requires { edge < length self.now }
        ensures { result.now ≡ line_inputs (line_at self.now edge) }
    {
        let row = self.rows[edge.index()];
        &self.numbers[row.implicit_outputs..row.order_only_inputs]
    }

    /// The inputs whose contents count: its explicit ones, then its implicit ones.
    pub fn regular_inputs(&self, edge: EdgeId) -> &[PathId]
        requires { edge < length self.now }
        ensures { result.now ≡ line_regular_inputs (line_at self.now edge) }
    {
        let row = self.rows[edge.index()];
        &self.numbers[row.implicit_outputs..row.implicit_inputs]
    }

    /// Its explicit inputs, which `$in` stands for.
    pub fn explicit_inputs(&self, edge: EdgeId) -> &[PathId]
        requires { edge < length self.now }
        ensures { result.now ≡ (line_at self.now edge).explicit_inputs }
    {
        let row = self.rows[edge.index()];
        &self.numbers[row.implicit_outputs..row.explicit_inputs]
    }

    /// Its implicit inputs.
    pub fn implicit_inputs(&self, edge: EdgeId) -> &[PathId]
        requires { edge < length self.now }
        ensures { result.now ≡ (line_at self.now edge).implicit_inputs }
    {
        let row = self.rows[edge.index()];
        &self.numbers[row.explicit_inputs..row.implicit_inputs]
    }

    /// Its order-only inputs.
    pub fn order_only_inputs(&self, edge: EdgeId) -> &[PathId]
        requires { edge < length self.now }
        ensures { result.now ≡ (line_at self.now edge).order_only_inputs }
    {
        let row = self.rows[edge.index()];
        &self.numbers[row.implicit_inputs..row.order_only_inputs]
    }

    /// Its validations (manual: "Validations").
    pub fn validations(&self, edge: EdgeId) -> &[PathId]
        requires { edge < length self.now }
        ensures { result.now ≡ (line_at self.now edge).validations }
    {
        let row = self.rows[edge.index()];
        &self.numbers[row.order_only_inputs..row.validations]
    }

    /// All paths that it names: its outputs, its inputs, then its validations.
    pub fn paths(&self, edge: EdgeId) -> &[PathId]
        requires { edge < length self.now }
        ensures { result.now ≡ line_paths (line_at self.now edge) }
    {
        let row = self.rows[edge.index()];
        &self.numbers[row.start..row.validations]
    }
}

/// Puts the lists of a line at the end, one behind the other.
fn append_line(numbers: &mut Vec<PathId>, line: &Line) -> Result<Row, AllocError>
    ensures ok { IfOk result (IsAppended numbers.old.items numbers.new.items line.now) }
    ensures err { OnErr result (Extends numbers.old.items numbers.new.items) }
{
    Ok(Row {
        start: numbers.len(),
        explicit_outputs: append(numbers, line.explicit_outputs.as_slice())?,
        implicit_outputs: append(numbers, line.implicit_outputs.as_slice())?,
        explicit_inputs: append(numbers, line.explicit_inputs.as_slice())?,
        implicit_inputs: append(numbers, line.implicit_inputs.as_slice())?,
        order_only_inputs: append(numbers, line.order_only_inputs.as_slice())?,
        validations: append(numbers, line.validations.as_slice())?,
    })
}

/// Puts the lists of a row at the end, one behind the other, which stand among other numbers.
fn append_lists(numbers: &mut Vec<PathId>, from: &[PathId], row: Row) -> Result<Row, AllocError>
    requires { IsRowIn (length from.now) row }
    ensures ok { IfOk result (IsAppended numbers.old.items numbers.new.items (line_of from.now row)) }
    ensures err { OnErr result (Extends numbers.old.items numbers.new.items) }
{
    Ok(Row {
        start: numbers.len(),
        explicit_outputs: append(numbers, &from[row.start..row.explicit_outputs])?,
        implicit_outputs: append(numbers, &from[row.explicit_outputs..row.implicit_outputs])?,
        explicit_inputs: append(numbers, &from[row.implicit_outputs..row.explicit_inputs])?,
        implicit_inputs: append(numbers, &from[row.explicit_inputs..row.implicit_inputs])?,
        order_only_inputs: append(numbers, &from[row.implicit_inputs..row.order_only_inputs])?,
        validations: append(numbers, &from[row.order_only_inputs..row.validations])?,
    })
}

/// Puts the lists of an edge's line at the end, one behind the other, with more implicit outputs and inputs.
fn append_grown(
    numbers: &mut Vec<PathId>,
    lines: &Lines,
    edge: EdgeId,
    outputs: &[PathId],
    inputs: &[PathId],
) -> Result<Row, AllocError>
    requires { edge < length lines.now }
    ensures ok { IfOk result (IsAppended numbers.old.items numbers.new.items (grown_line (line_at lines.now edge) outputs.now inputs.now)) }
    ensures err { OnErr result (Extends numbers.old.items numbers.new.items) }
{
    Ok(Row {
        start: numbers.len(),
        explicit_outputs: append(numbers, lines.explicit_outputs(edge))?,
        implicit_outputs: append_both(numbers, lines.implicit_outputs(edge), outputs)?,
        explicit_inputs: append(numbers, lines.explicit_inputs(edge))?,
        implicit_inputs: append_both(numbers, lines.implicit_inputs(edge), inputs)?,
        order_only_inputs: append(numbers, lines.order_only_inputs(edge))?,
        validations: append(numbers, lines.validations(edge))?,
    })
}

/// Puts the lists of a row at the end once more, one behind the other, with more implicit outputs and inputs.
fn append_row(
    numbers: &mut Vec<PathId>,
    row: Row,
    outputs: &[PathId],
    inputs: &[PathId],
) -> Result<Row, AllocError>
    requires { IsRowIn (length numbers.old.items) row }
    ensures ok { IfOk result (IsGrownRow numbers.old.items numbers.new.items row outputs.now inputs.now) }
    ensures err { OnErr result (Extends numbers.old.items numbers.new.items) }
{
    Ok(Row {
        start: numbers.len(),
        explicit_outputs: append_part(numbers, row.start, row.explicit_outputs)?,
        implicit_outputs: append_longer(
            numbers,
            row.explicit_outputs,
            row.implicit_outputs,
            outputs,
        )?,
        explicit_inputs: append_part(numbers, row.implicit_outputs, row.explicit_inputs)?,
        implicit_inputs: append_longer(numbers, row.explicit_inputs, row.implicit_inputs, inputs)?,
        order_only_inputs: append_part(numbers, row.implicit_inputs, row.order_only_inputs)?,
        validations: append_part(numbers, row.order_only_inputs, row.validations)?,
    })
}

/// Moves the lists of a row together, of which the last so many implicit outputs and implicit inputs go. What stands outside of the row
/// stays.
fn shrink_row(numbers: &mut [PathId], row: Row, outputs: usize, inputs: usize) -> Row
    requires { IsRowIn (length numbers.old) row }
    ensures { IsShrunkRow numbers.old numbers.new row outputs inputs result }
{
    let gone = at_most(outputs, row.implicit_outputs - row.explicit_outputs);
    let cut = at_most(inputs, row.implicit_inputs - row.explicit_inputs);
    let end = row.implicit_inputs - cut;
    move_to(
        numbers,
        row.implicit_outputs,
        end,
        row.implicit_outputs - gone,
    );
    move_to(numbers, row.implicit_inputs, row.validations, end - gone);
    Row {
        start: row.start,
        explicit_outputs: row.explicit_outputs,
        implicit_outputs: row.implicit_outputs - gone,
        explicit_inputs: row.explicit_inputs - gone,
        implicit_inputs: end - gone,
        order_only_inputs: row.order_only_inputs - gone - cut,
        validations: row.validations - gone - cut,
    }
}

fn at_most(count: usize, most: usize) -> usize
    ensures within { result ≤ most }
    ensures left { most - result ≡ most - count }
{
    if count < most { count } else { most }
}

/// Moves what stands between two places to a place in front of it.
fn move_to(numbers: &mut [PathId], start: usize, stop: usize, to: usize)
    requires front { to ≤ start }
    requires order { start ≤ stop }
    requires within { stop ≤ length numbers.old }
    ensures { IsMovedTo numbers.old numbers.new start (stop - start) to }
{
    numbers.copy_within(start..stop, to);
}

/// Puts what stands between two places at the end once more, and a list behind it; gives the place behind that.
fn append_longer(
    numbers: &mut Vec<PathId>,
    start: usize,
    stop: usize,
    more: &[PathId],
) -> Result<usize, AllocError>
    requires order { start ≤ stop }
    requires within { stop ≤ length numbers.old.items }
    ensures ok { IfOk result (λ end. (numbers.new.items ≡ numbers.old.items ++ (between numbers.old.items start stop ++ more.now)) × (end ≡ vec_len numbers.new)) }
    ensures err { OnErr result (Extends numbers.old.items numbers.new.items) }
{
    append_part(numbers, start, stop)?;
    append(numbers, more)
}

/// Puts what stands between two places at the end once more, and gives the place behind it.
fn append_part(numbers: &mut Vec<PathId>, start: usize, stop: usize) -> Result<usize, AllocError>
    requires order { start ≤ stop }
    requires within { stop ≤ length numbers.old.items }
    ensures ok { IfOk result (λ end. (numbers.new.items ≡ numbers.old.items ++ between numbers.old.items start stop) × (end ≡ vec_len numbers.new)) }
    ensures err { OnErr result (numbers.new.items ≡ numbers.old.items) }
{
    numbers.extend_from_within(start..stop)?;
    Ok(numbers.len())
}

/// Puts two lists at the end, one behind the other, and gives the place behind them.
fn append_both(
    numbers: &mut Vec<PathId>,
    list: &[PathId],
    more: &[PathId],
) -> Result<usize, AllocError>
    ensures ok { IfOk result (λ stop. (numbers.new.items ≡ numbers.old.items ++ (list.now ++ more.now)) × (stop ≡ vec_len numbers.new)) }
    ensures err { OnErr result (Extends numbers.old.items numbers.new.items) }
{
    append(numbers, list)?;
    append(numbers, more)
}

/// Whether the path is one of these.
fn has(paths: &[PathId], path: PathId) -> bool
    ensures { result ≡ has_number paths.now path }
{
    for one in paths {
        if *one == path {
            return true;
        }
    }
    false
}

/// Puts a list at the end, and gives the place behind it.
fn append(numbers: &mut Vec<PathId>, list: &[PathId]) -> Result<usize, AllocError>
    ensures ok { IfOk result (λ stop. (numbers.new.items ≡ numbers.old.items ++ list.now) × (stop ≡ vec_len numbers.new)) }
    ensures err { OnErr result (numbers.new.items ≡ numbers.old.items) }
{
    numbers.extend_from_slice(list)?;
    Ok(numbers.len())
}
