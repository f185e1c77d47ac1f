//! Build statements (manual: "Build statements").

ghost use Rattle.std.specs.Prelude.{◌≡◌, IfOk, OnOk};
ghost use Rattle.lexer.specs.Said.{said_of, build_of};
ghost use Rattle.scopes.specs.Scopes.{Always};
ghost use Rattle.manifest.specs.BuildParts.{KeepsPaths, KeepsLines, block_in, rule_read};
ghost use Rattle.manifest.specs.Held.{KeepsScopes, IsFormed, HasOutput, IsInScope};
ghost use Rattle.manifest.specs.InNumbers.{with_line, kept_line};
ghost use Rattle.manifest.specs.Keeping.{IsLineRead};
ghost use Rattle.manifest.specs.Places.{place_of};
ghost use Rattle.manifest.specs.Statements.{SaysNext, BuildSays, FindsRuleIn, IsReadFrom};

use crate::blocks::block_line;
use crate::fault::{FaultKind, ReadError};
use crate::kept::{Declared, Named, ReadEdge};
use crate::made::without_own;
use crate::path_reader::PathReader;
use crate::place::Place;
use lexer::{BuildLine, Line as TextLine};
use paths::Line;
use scopes::{Block, ExpandFault, Rule, Scopes, expand};
use std::alloc::{AllocError, Global};
use std::mem;
use std::rc::Rc;
use text::{SharedText, Text};

/// The most build statements.
const MOST_EDGES: usize = 4_000_000;

/// How many statements are looked at for the name of a rule that stands there already.
const NEAR: usize = 4;

/// The most different paths on build lines.
const MOST_PATHS: usize = 4_000_000;

/// What the block of a build statement binds.
#[derive(Drop)]
pub struct BlockRead {
    pub block: Block,
    /// The line of the first value that is too large. No line behind it was looked at.
    pub stop: Option<usize>,
}

/// A build statement as it is kept, but for its paths.
#[derive(Drop)]
pub struct BuildRead {
    pub edge: ReadEdge,
    /// The line of the first value of its block that is too large.
    pub stop: Option<usize>,
}

impl Declared {
    /// Reads `build OUTPUTS: RULE INPUTS` with its block.
    pub fn read_build(
        &mut self,
        alloc: Global,
        place: &Place<'_>,
        build: &BuildLine<'_>,
        block: &[TextLine<'_>],
    ) -> Result<(), ReadError>
        ensures said { SaysNext result self.old self.new (BuildSays place.now build.now block.now) }
        ensures scopes { OnOk result (KeepsScopes self.old self.new) }
        ensures formed { OnOk result (IsFormed self.old → HasOutput (build_of build.now) → IsFormed self.new) }
    {
        let read = self.edge(alloc, place, build, block)?;
        self.paths
            .read_line(alloc, &self.scopes, place, build, &read, &mut self.room)?;
        self.edges.push(read.edge)?;
        Ok(())
    }

    /// The statement with its rule and its block.
    fn edge(
        &self,
        alloc: Global,
        place: &Place<'_>,
        build: &BuildLine<'_>,
        lines: &[TextLine<'_>],
    ) -> Result<BuildRead, ReadError>
        ensures file { IfOk result (λ read. read.edge.file.value ≡ place.now.file.now.value) }
        ensures line { IfOk result (λ read. read.edge.line ≡ place.now.line) }
        ensures scope { IfOk result (λ read. read.edge.scope ≡ self.now.scopes.present) }
        ensures within { IfOk result (λ read. IsInScope self.now.scopes read.edge) }
        ensures name { IfOk result (λ read. read.edge.rule_name ≡ build.now.rule.now) }
        ensures rule { FindsRuleIn self.now (place_of place.now) build.now.rule.now (rule_read result) }
        ensures block { IfOk result (λ read. Always self.now.scopes (λ past. IsReadFrom lines.now past (block_in read))) }
    {
        let rule_name = self.rule_name(alloc, build.rule)?;
        let file = place.file.clone()?;
        let rule = self.rule(alloc, place, build.rule)?;
        let BlockRead { block, stop } = read_block(alloc, &self.scopes, lines)?;
        let edge = ReadEdge {
            file,
            line: place.line,
            scope: self.scopes.present(),
            rule_name,
            rule,
            block,
        };
        Ok(BuildRead { edge, stop })
    }

    /// The name of a rule. It stands once for statements with it that are near one another.
    fn rule_name(&self, alloc: Global, name: &str) -> Result<SharedText, AllocError>
        ensures { IfOk result (λ own. own ≡ name.now) }
    {
        let edges = self.edges.as_slice();
        let near = edges.len().saturating_sub(NEAR);
        for edge in edges.get(near..).unwrap_or(edges) {
            if edge.rule_name.is(name) {
                let same = edge.rule_name.clone()?;
                return Ok(same);
            }
        }
        SharedText::from_str(alloc, name)
    }

    /// The rule of this name at this place; none for `phony`.
    fn rule(
        &self,
        alloc: Global,
        place: &Place<'_>,
        name: &str,
    ) -> Result<Option<Rc<Rule>>, ReadError>
        ensures { FindsRuleIn self.now (place_of place.now) name.now result }
    {
        if name == "phony" {
            return Ok(None);
        }
        match self.scopes.rule(name) {
            Some(rule) => Ok(Some(rule.clone()?)),
            None => {
                let kind = FaultKind::UnknownRule(Text::from_str(alloc, name)?);
                Err(place.fault(alloc, kind))
            }
        }
    }
}

/// The values that the block binds, up to the first that is too large.
fn read_block(
    alloc: Global,
    scopes: &Scopes,
    lines: &[TextLine<'_>],
) -> Result<BlockRead, AllocError>
    ensures { IfOk result (λ read. Always scopes.now (λ past. IsReadFrom lines.now past read)) }
{
    let mut block = Block::new(alloc);
    for line in lines {
        if let Some(stop) = read_line(alloc, scopes, &mut block, line)? {
            return Ok(BlockRead {
                block,
                stop: Some(stop),
            });
        }
    }
    Ok(BlockRead { block, stop: None })
}

/// Binds what the line says, or answers its number where its value is too large.
fn read_line(
    alloc: Global,
    scopes: &Scopes,
    block: &mut Block,
    line: &TextLine<'_>,
) -> Result<Option<usize>, AllocError>
    ensures { IfOk result (λ stop. Always scopes.now (λ past. IsLineRead past (said_of line.now) block.old block.new stop)) }
{
    let Some(line) = block_line(line) else {
        return Ok(None);
    };
    match expand(alloc, scopes, &Block::new(alloc), line.value) {
        Ok(text) => {
            block.bind(alloc, line.name, text)?;
            Ok(None)
        }
        Err(ExpandFault::TooLarge) => Ok(Some(line.line)),
        Err(ExpandFault::Memory) => Err(AllocError),
    }
}

impl Named {
    /// Reads the paths of a build statement and keeps them, unless there is too much. They are read into the room of these lists.
    fn read_line(
        &mut self,
        alloc: Global,
        scopes: &Scopes,
        place: &Place<'_>,
        build: &BuildLine<'_>,
        read: &BuildRead,
        room: &mut Line,
    ) -> Result<(), ReadError>
        ensures said { KeepsPaths result scopes.now self.old self.new (place_of place.now) (build_of build.now) read.now }
        ensures formed { OnOk result (KeepsLines scopes.now self.old self.new (build_of build.now)) }
    {
        let lent = mem::replace(room, Line::new(alloc));
        let reader = PathReader::new(scopes, &read.edge.block);
        let paths = reader.line(alloc, lent, &mut self.table, place, build)?;
        if self.lines.len() >= MOST_EDGES || self.table.len() > MOST_PATHS {
            return Err(place.too_large(alloc));
        }
        if let Some(line) = read.stop {
            return Err(place.at_line(line).too_large(alloc));
        }
        *room = self.add_line(alloc, paths, read.edge.rule.is_none())?;
        Ok(())
    }

    /// Keeps the paths of a build statement. An input of a `phony` one that is an output of its own is dropped. Gives lists back whose room
    /// is not needed any more.
    fn add_line(&mut self, alloc: Global, line: Line, is_phony: bool) -> Result<Line, AllocError>
        ensures { OnOk result (self.new ≡ with_line (kept_line is_phony line) self.old) }
    {
        if is_phony {
            let line = without_own(alloc, line)?;
            self.lines.push(&line)?;
            Ok(line)
        } else {
            self.lines.push(&line)?;
            Ok(line)
        }
    }
}
