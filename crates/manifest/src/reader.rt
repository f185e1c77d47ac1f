//! Reading build files (manual: "Evaluation and scoping").

ghost use Rattle.std.specs.Prelude.{◌≡◌, ◌<◌, IfOk, OnOk, IsTrue, map};
ghost use Rattle.lexer.specs.Said.{said_of, fragments_of, form_of};
ghost use Rattle.model.specs.Calls.{OnlyLooks, HasCause};
ghost use Rattle.manifest.specs.Answer.{site_part, in_texts, ReadsFile, IsGraph};
ghost use Rattle.manifest.specs.Described.{manifest_in, DescribesLines};
ghost use Rattle.manifest.specs.Files.{NameOf};
ghost use Rattle.manifest.specs.Held.{KeepsScopes};
ghost use Rattle.manifest.specs.Seen.{IsStated, HasCauseIn, Tells, Finds, if_no_line};
ghost use Rattle.manifest.specs.Seen.{FileSays, TextSays, StatementSays, IncludeSays, SubninjaSays, OpenSays};
ghost use Rattle.manifest.specs.Made.{HaveOutputs, FormHasOutput};
ghost use Rattle.manifest.specs.Places.{place_of, whole_file, IsFaultAt};
ghost use Rattle.manifest.specs.Statements.{IsAnswerIn, KeepsFormed};

use crate::blocks::{Group, split_block};
use crate::described::Described;
use crate::fault::{FaultKind, ReadError};
use crate::kept::Declared;
use crate::place::Place;
use lexer::{Fault, Line, ReadFault, Statement, Statements, Value, canonical};
use paths::Manifest;
use site::Texts;
use std::alloc::Global;
use std::rc::Rc;
use std::str;
use text::{Bytes, Text};

/// The most bytes that a build file may have.
const LARGEST_FILE: usize = 64 * 1024 * 1024;

/// How many levels of files may stand below the main one.
const DEEPEST: usize = 63;

/// A file that was found.
#[derive(Drop)]
pub struct Opened {
    pub file: Rc<Text>,
    pub bytes: Bytes,
}

/// What the build files declare, beginning with the file of this name.
///
/// # Errors
///
/// A `Site` fault is one that the site gave. A `Refused` fault is the first of the build files: in reading order, and
/// behind these what is seen when all is read; there is one such fault at most ([`one_outcome`](crate::one_outcome)).
/// Nothing is written on the site, whatever the answer.
pub fn read<R: Texts>(alloc: Global, texts: &mut R, name: &str) -> Result<Manifest, ReadError>
    ensures looks { OnlyLooks R.tells (R.world texts.old) (R.world texts.new) }
    ensures cause { HasCause (R.world texts.old) (R.world texts.new) (site_part result) }
    ensures file { IsTrue R.tells → ReadsFile name.now (R.world texts.old).history (R.world texts.new).history (in_texts result) }
    ensures graph { IfOk (in_texts result) IsGraph }
{
    let content = texts.read(name)?;
    let file = Rc::new(alloc, Text::from_str(alloc, name)?)?;
    let Some(bytes) = content else {
        return Err(absent(alloc, &file, name));
    };
    let mut declared = Declared::new(alloc)?;
    read_bytes(
        alloc,
        texts,
        &mut declared,
        &file,
        bytes.as_slice(),
        DEEPEST,
    )?;
    // what is kept owns its characters
    drop(bytes);
    declared.finish(alloc)
}

/// The same, and what tools tell of build files beside that: of each edge the name of its rule, and whether it runs a generator.
pub fn read_described<R: Texts>(
    alloc: Global,
    texts: &mut R,
    name: &str,
) -> Result<(Manifest, Described), ReadError>
    ensures looks { OnlyLooks R.tells (R.world texts.old) (R.world texts.new) }
    ensures cause { HasCause (R.world texts.old) (R.world texts.new) (site_part (manifest_in result)) }
    ensures file { IsTrue R.tells → ReadsFile name.now (R.world texts.old).history (R.world texts.new).history (in_texts (manifest_in result)) }
    ensures graph { IfOk (in_texts (manifest_in result)) IsGraph }
    ensures described { IfOk result (λ both. DescribesLines both.0.lines both.1) }
{
    let content = texts.read(name)?;
    let file = Rc::new(alloc, Text::from_str(alloc, name)?)?;
    let Some(bytes) = content else {
        return Err(absent(alloc, &file, name));
    };
    let mut declared = Declared::new(alloc)?;
    read_bytes(
        alloc,
        texts,
        &mut declared,
        &file,
        bytes.as_slice(),
        DEEPEST,
    )?;
    // what is kept owns its characters
    drop(bytes);
    let described = Described::of(alloc, &declared)?;
    described.beside(declared.finish(alloc))
}

/// The refusal of a main file that is not there.
fn absent(alloc: Global, file: &Rc<Text>, name: &str) -> ReadError
    ensures { IsFaultAt (whole_file file.now.value) (FaultKind.NotFound name.now) result }
{
    let place = Place { file, line: 0 };
    match Text::from_str(alloc, name) {
        Ok(name) => place.fault(alloc, FaultKind::NotFound(name)),
        Err(_) => ReadError::Memory,
    }
}

/// Reads a file that holds these bytes, below which files may stand so many levels deep.
#[cycle(files)]
fn read_bytes<R: Texts>(
    alloc: Global,
    texts: &mut R,
    declared: &mut Declared,
    file: &Rc<Text>,
    bytes: &[u8],
    levels: usize,
) -> Result<(), ReadError>
    ensures looks { OnlyLooks R.tells (R.world texts.old) (R.world texts.new) }
    ensures cause { IsStated declared.old → HasCauseIn (R.world texts.old) (R.world texts.new) result }
    ensures said { Tells R.tells (R.world texts.old) (R.world texts.new) declared.old declared.new result (FileSays levels file.now.value bytes.now) }
    ensures scopes { OnOk result (KeepsScopes declared.old declared.new) }
    ensures stated { OnOk result (IsStated declared.old → IsStated declared.new) }
    ensures formed { OnOk result (KeepsFormed declared.old declared.new) }
{
    let place = Place { file, line: 1 };
    if bytes.len() > LARGEST_FILE {
        return Err(place.too_large(alloc));
    }
    let Ok(text) = str::from_utf8(bytes) else {
        return Err(place.fault(alloc, FaultKind::NotUtf8));
    };
    let Statements { lines, fault } = lexer::statements(alloc, text)?;
    read_lines(
        alloc,
        texts,
        declared,
        file,
        lines.as_slice(),
        fault,
        levels,
    )
}

/// Reads the statements of a file, and then the fault at which its text stops.
#[cycle(files)]
fn read_lines<R: Texts>(
    alloc: Global,
    texts: &mut R,
    declared: &mut Declared,
    file: &Rc<Text>,
    lines: &[Line<'_>],
    fault: Option<Fault>,
    levels: usize,
) -> Result<(), ReadError>
    ensures looks { OnlyLooks R.tells (R.world texts.old) (R.world texts.new) }
    ensures cause { IsStated declared.old → HasCauseIn (R.world texts.old) (R.world texts.new) result }
    ensures said { Tells R.tells (R.world texts.old) (R.world texts.new) declared.old declared.new result (TextSays levels file.now.value fault lines.now) }
    ensures scopes { OnOk result (KeepsScopes declared.old declared.new) }
    ensures stated { OnOk result (IsStated declared.old → IsStated declared.new) }
    ensures formed { OnOk result (HaveOutputs (map said_of lines.now) → KeepsFormed declared.old declared.new) }
{
    let (_, mut rest) = split_block(lines);
    while let Some((line, following)) = rest.split_first() {
        let (block, next) = split_block(following);
        let group = Group {
            place: Place {
                file,
                line: line.number,
            },
            statement: &line.statement,
            block,
            behind: if_last(next, fault),
        };
        read_group(alloc, texts, declared, &group, levels)?;
        rest = next;
    }
    let place = Place { file, line: 0 };
    place.stop_at(alloc, fault)
}

/// The fault, where nothing stands before it.
fn if_last(next: &[Line<'_>], fault: Option<Fault>) -> Option<Fault>
    ensures { result ≡ if_no_line next.now fault }
{
    if next.is_empty() { fault } else { None }
}

/// Reads a statement with its block.
#[cycle(files)]
fn read_group<R: Texts>(
    alloc: Global,
    texts: &mut R,
    declared: &mut Declared,
    group: &Group<'_, '_, '_>,
    levels: usize,
) -> Result<(), ReadError>
    ensures looks { OnlyLooks R.tells (R.world texts.old) (R.world texts.new) }
    ensures cause { IsStated declared.old → HasCauseIn (R.world texts.old) (R.world texts.new) result }
    ensures said { Tells R.tells (R.world texts.old) (R.world texts.new) declared.old declared.new result (StatementSays levels group.now) }
    ensures scopes { OnOk result (KeepsScopes declared.old declared.new) }
    ensures stated { OnOk result (IsStated declared.old → IsStated declared.new) }
    ensures formed { OnOk result (FormHasOutput (form_of group.now.statement.now) → KeepsFormed declared.old declared.new) }
{
    let Group {
        place,
        statement,
        block,
        behind,
    } = *group;
    match statement {
        Statement::Include { path } => read_file(alloc, texts, declared, &place, path, levels),
        Statement::Subninja { path } => read_scope(alloc, texts, declared, &place, path, levels),
        _ => declared.read_declaration(alloc, &place, statement, block, behind),
    }
}

/// Reads a file in the scope that is open.
#[cycle(files)]
fn read_file<R: Texts>(
    alloc: Global,
    texts: &mut R,
    declared: &mut Declared,
    place: &Place<'_>,
    path: &Value<'_>,
    levels: usize,
) -> Result<(), ReadError>
    ensures looks { OnlyLooks R.tells (R.world texts.old) (R.world texts.new) }
    ensures cause { IsStated declared.old → HasCauseIn (R.world texts.old) (R.world texts.new) result }
    ensures said { Tells R.tells (R.world texts.old) (R.world texts.new) declared.old declared.new result (IncludeSays levels place.now path.now) }
    ensures scopes { OnOk result (KeepsScopes declared.old declared.new) }
    ensures stated { OnOk result (IsStated declared.old → IsStated declared.new) }
    ensures formed { OnOk result (KeepsFormed declared.old declared.new) }
{
    let Opened { file, bytes } = open(alloc, texts, declared, place, path, levels)?;
    read_bytes(alloc, texts, declared, &file, bytes.as_slice(), levels - 1)
}

/// Reads a file in a scope of its own.
#[cycle(files)]
fn read_scope<R: Texts>(
    alloc: Global,
    texts: &mut R,
    declared: &mut Declared,
    place: &Place<'_>,
    path: &Value<'_>,
    levels: usize,
) -> Result<(), ReadError>
    ensures looks { OnlyLooks R.tells (R.world texts.old) (R.world texts.new) }
    ensures cause { IsStated declared.old → HasCauseIn (R.world texts.old) (R.world texts.new) result }
    ensures said { Tells R.tells (R.world texts.old) (R.world texts.new) declared.old declared.new result (SubninjaSays levels place.now path.now) }
    ensures scopes { OnOk result (KeepsScopes declared.old declared.new) }
    ensures stated { OnOk result (IsStated declared.old → IsStated declared.new) }
    ensures formed { OnOk result (KeepsFormed declared.old declared.new) }
{
    let Opened { file, bytes } = open(alloc, texts, declared, place, path, levels)?;
    declared.scopes.enter(alloc)?;
    read_bytes(alloc, texts, declared, &file, bytes.as_slice(), levels - 1)?;
    declared.scopes.leave();
    Ok(())
}

/// The file that an `include` or a `subninja` names. Its path is taken from the working folder.
fn open<R: Texts>(
    alloc: Global,
    texts: &mut R,
    declared: &Declared,
    place: &Place<'_>,
    path: &Value<'_>,
    levels: usize,
) -> Result<Opened, ReadError>
    ensures looks { OnlyLooks R.tells (R.world texts.old) (R.world texts.new) }
    ensures cause { IsStated declared.now → HasCauseIn (R.world texts.old) (R.world texts.new) result }
    ensures opened { Finds R.tells (R.world texts.old) (R.world texts.new) declared.now result (OpenSays levels place.now path.now) }
    ensures levels { OnOk result (0 < levels) }
{
    let name = declared.file_name(alloc, place, path)?;
    match texts.read(name.as_str())? {
        None => Err(place.fault(alloc, FaultKind::NotFound(name))),
        Some(_) if levels == 0 => Err(place.fault(alloc, FaultKind::TooDeep)),
        Some(bytes) => Ok(Opened {
            file: Rc::new(alloc, name)?,
            bytes,
        }),
    }
}

impl Declared {
    /// The canonical path of a file at this place.
    fn file_name(
        &self,
        alloc: Global,
        place: &Place<'_>,
        path: &Value<'_>,
    ) -> Result<Text, ReadError>
        ensures { IsAnswerIn self.now (NameOf (place_of place.now) (fragments_of path.now)) result }
    {
        let text = self.expand(alloc, place, path)?;
        match canonical(alloc, text.as_str()) {
            Ok(name) => Ok(Text::from_string(name)),
            Err(ReadFault::Memory) => Err(ReadError::Memory),
            Err(ReadFault::EmptyPath) => {
                let kind = FaultKind::Line(lexer::FaultKind::EmptyPath);
                Err(place.fault(alloc, kind))
            }
        }
    }
}
