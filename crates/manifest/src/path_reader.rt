//! The paths of build lines (manual: "Build statements").

ghost use Rattle.std.specs.Prelude.{◌≡◌, ◌≢◌, ◌≤◌, [], ◌∷◌, ◌||◌, false, length, IfOk, IfErr, IfSome, OnOk};
ghost use Rattle.lexer.specs.Path.{IsCanonical};
ghost use Rattle.lexer.specs.Said.{fragments_of, paths_of, build_of};
ghost use Rattle.scopes.specs.Expanding.{IsTextAlone};
ghost use Rattle.scopes.specs.Texts.{largest_value};
ghost use Rattle.manifest.specs.Expansion.{is_empty};
ghost use Rattle.manifest.specs.Answer.{IsAnswerOf};
ghost use Rattle.manifest.specs.Places.{place_of};
ghost use Rattle.manifest.specs.InNumbers.{AreAdded, numbers_of};
ghost use Rattle.manifest.specs.PathReading.{FindsLine, Notes, ReadsPaths, ReadsPath, NoneNoted, text_found};
ghost use Rattle.paths.specs.Told.{texts_at};
ghost use Rattle.std.specs.Option.{option_to_list};
ghost use Rattle.manifest.specs.Flags.{IsPathFound};

use crate::fault::{FaultKind, ReadError};
use crate::place::Place;
use lexer::{BuildLine, ReadFault, Value, canonical, is_settled};
use paths::{Line, PathId, Paths};
use scopes::{Block, ExpandFault, Scopes, as_it_stands, expand};
use std::alloc::{AllocError, Global};
use text::{Items, Path};

/// Expands paths, and notes what is wrong with some of them.
#[derive(Drop)]
pub struct PathReader<'a> {
    scopes: &'a Scopes,
    /// What is seen before the scopes.
    block: &'a Block,
    has_empty: bool,
    has_large: bool,
}

impl<'a> PathReader<'a> {
    pub fn new(scopes: &'a Scopes, block: &'a Block) -> PathReader<'a>
        ensures scopes { result.scopes.now ≡ scopes.now }
        ensures block { result.block.now ≡ block.now }
        ensures empty { result.has_empty ≡ false }
        ensures large { result.has_large ≡ false }
    {
        PathReader {
            scopes,
            block,
            has_empty: false,
            has_large: false,
        }
    }

    /// The paths of a build line, which are put into the table. Their numbers are put into the room of these lists.
    pub fn line(
        mut self,
        alloc: Global,
        room: Line,
        table: &mut Paths,
        place: &Place<'_>,
        build: &BuildLine<'_>,
    ) -> Result<Line, ReadError>
        requires empty { self.has_empty ≡ false }
        requires large { self.has_large ≡ false }
        ensures said { FindsLine self.entry table.new (place_of place.now) (build_of build.now) result }
        ensures added { IfOk result (λ line. AreAdded table.old table.new (numbers_of line)) }
    {
        let Line {
            explicit_outputs,
            implicit_outputs,
            explicit_inputs,
            implicit_inputs,
            order_only_inputs,
            validations,
        } = room;
        let line = Line {
            explicit_outputs: self.numbers(
                alloc,
                explicit_outputs,
                table,
                build.explicit_outputs.as_slice(),
            )?,
            implicit_outputs: self.numbers(
                alloc,
                implicit_outputs,
                table,
                build.implicit_outputs.as_slice(),
            )?,
            explicit_inputs: self.numbers(
                alloc,
                explicit_inputs,
                table,
                build.explicit_inputs.as_slice(),
            )?,
            implicit_inputs: self.numbers(
                alloc,
                implicit_inputs,
                table,
                build.implicit_inputs.as_slice(),
            )?,
            order_only_inputs: self.numbers(
                alloc,
                order_only_inputs,
                table,
                build.order_only_inputs.as_slice(),
            )?,
            validations: self.numbers(alloc, validations, table, build.validations.as_slice())?,
        };
        self.check(alloc, place)?;
        Ok(line)
    }

    /// Refuses paths of which one expands to nothing, else those of which one is too large.
    pub fn check(&self, alloc: Global, place: &Place<'_>) -> Result<(), ReadError>
        ensures { IsAnswerOf (NoneNoted place.now self.now) result }
    {
        if self.has_empty {
            let kind = FaultKind::Line(lexer::FaultKind::EmptyPath);
            return Err(place.fault(alloc, kind));
        }
        if self.has_large {
            return Err(place.too_large(alloc));
        }
        Ok(())
    }

    /// The canonical paths of these, but for those that are noted as wrong.
    pub fn paths(&mut self, alloc: Global, values: &[Value<'_>]) -> Result<Items<Path>, ReadError>
        ensures scopes { self.new.scopes.now ≡ self.old.scopes.now }
        ensures block { self.new.block.now ≡ self.old.block.now }
        ensures flags { OnOk result (Notes self.old self.new (paths_of values.now)) }
        ensures paths { IfOk result (λ paths. ReadsPaths self.old self.new (paths_of values.now) paths) }
        ensures memory { IfErr result (λ error. error ≡ ReadError.Memory) }
    {
        let mut paths = Items::from_vec(Vec::with_capacity(alloc, values.len())?);
        for value in values {
            if let Some(path) = self.path(alloc, value)? {
                paths.push(path)?;
            }
        }
        Ok(paths)
    }

    /// The numbers of the canonical paths of these, but for those that are noted as wrong, in the room of a list.
    fn numbers(
        &mut self,
        alloc: Global,
        room: Items<PathId>,
        table: &mut Paths,
        values: &[Value<'_>],
    ) -> Result<Items<PathId>, ReadError>
        ensures scopes { self.new.scopes.now ≡ self.old.scopes.now }
        ensures block { self.new.block.now ≡ self.old.block.now }
        ensures flags { OnOk result (Notes self.old self.new (paths_of values.now)) }
        ensures added { IfOk result (AreAdded table.old table.new) }
        ensures paths { IfOk result (λ numbers. ReadsPaths self.old self.new (paths_of values.now) (texts_at table.new numbers)) }
        ensures memory { IfErr result (λ error. error ≡ ReadError.Memory) }
    {
        let mut numbers = emptied(room, values.len())?;
        for value in values {
            if let Some(number) = self.number(alloc, table, value)? {
                numbers.push(number)?;
            }
        }
        Ok(numbers)
    }

    /// The number of the canonical path, or nothing where it is noted as wrong.
    fn number(
        &mut self,
        alloc: Global,
        table: &mut Paths,
        value: &Value<'_>,
    ) -> Result<Option<PathId>, ReadError>
        ensures scopes { self.new.scopes.now ≡ self.old.scopes.now }
        ensures block { self.new.block.now ≡ self.old.block.now }
        ensures flags { OnOk result (Notes self.old self.new (fragments_of value.now ∷ [])) }
        ensures added { IfOk result (λ number. AreAdded table.old table.new (option_to_list number)) }
        ensures found { IfOk result (λ number. ReadsPath self.old self.new (fragments_of value.now) (text_found table.new number)) }
        ensures memory { IfErr result (λ error. error ≡ ReadError.Memory) }
    {
        match settled(value) {
            Some(text) => Ok(Some(table.add(alloc, text)?)),
            None => self.expanded_number(alloc, table, value),
        }
    }

    /// The same, by way of a text of its own.
    fn expanded_number(
        &mut self,
        alloc: Global,
        table: &mut Paths,
        value: &Value<'_>,
    ) -> Result<Option<PathId>, ReadError>
        ensures scopes { self.new.scopes.now ≡ self.old.scopes.now }
        ensures block { self.new.block.now ≡ self.old.block.now }
        ensures flags { OnOk result (Notes self.old self.new (fragments_of value.now ∷ [])) }
        ensures added { IfOk result (λ number. AreAdded table.old table.new (option_to_list number)) }
        ensures found { IfOk result (λ number. ReadsPath self.old self.new (fragments_of value.now) (text_found table.new number)) }
        ensures memory { IfErr result (λ error. error ≡ ReadError.Memory) }
    {
        match self.path(alloc, value)? {
            Some(path) => Ok(Some(table.add(alloc, path.as_str())?)),
            None => Ok(None),
        }
    }

    /// The canonical path, or nothing where it is noted as wrong.
    fn path(&mut self, alloc: Global, value: &Value<'_>) -> Result<Option<Path>, ReadError>
        ensures scopes { self.new.scopes.now ≡ self.old.scopes.now }
        ensures block { self.new.block.now ≡ self.old.block.now }
        ensures flags { OnOk result (Notes self.old self.new (fragments_of value.now ∷ [])) }
        ensures found { IfOk result (λ path. ReadsPath self.old self.new (fragments_of value.now) path) }
        ensures memory { IfErr result (λ error. error ≡ ReadError.Memory) }
    {
        if let Some(text) = as_it_stands(value) {
            return self.canonical(alloc, text);
        }
        match expand(alloc, self.scopes, self.block, value) {
            Ok(text) => self.canonical(alloc, text.as_str()),
            Err(ExpandFault::Memory) => Err(ReadError::Memory),
            Err(ExpandFault::TooLarge) => {
                self.has_large = true;
                Ok(None)
            }
        }
    }

    fn canonical(&mut self, alloc: Global, text: &str) -> Result<Option<Path>, ReadError>
        ensures scopes { self.new.scopes.now ≡ self.old.scopes.now }
        ensures block { self.new.block.now ≡ self.old.block.now }
        ensures large { self.new.has_large ≡ self.old.has_large }
        ensures empty { OnOk result (self.new.has_empty ≡ (self.old.has_empty || is_empty text.now)) }
        ensures found { IfOk result (λ path. self.new.has_empty ≡ false → IsPathFound text.now path) }
        ensures memory { IfErr result (λ error. error ≡ ReadError.Memory) }
    {
        match canonical(alloc, text) {
            Ok(path) => Ok(Some(Path::from_string(path))),
            Err(ReadFault::EmptyPath) => {
                self.has_empty = true;
                Ok(None)
            }
            Err(ReadFault::Memory) => Err(ReadError::Memory),
        }
    }
}

/// A list without items in the room of this one, with room for so many.
fn emptied(room: Items<PathId>, count: usize) -> Result<Items<PathId>, AllocError>
    ensures { IfOk result (λ empty. empty ≡ []) }
{
    let mut numbers = room.into_vec();
    numbers.clear();
    numbers.reserve(count)?;
    Ok(Items::from_vec(numbers))
}

/// The characters of a path that is canonical as it stands, as nearly all are.
fn settled<'a>(value: &Value<'a>) -> Option<&'a str>
    ensures value { IfSome result (λ text. IsTextAlone value.now.pieces text.now) }
    ensures size { IfSome result (λ text. length text.now ≤ largest_value) }
    ensures some { IfSome result (λ text. text.now ≢ []) }
    ensures canonical { IfSome result (λ text. IsCanonical text.now text.now) }
{
    let text = as_it_stands(value)?;
    if text.is_empty() || !is_settled(text) {
        return None;
    }
    Some(text)
}
