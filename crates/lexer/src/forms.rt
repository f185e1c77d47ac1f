//! The statements, by the words with which they begin.

ghost use Rattle.std.specs.Prelude.{◌≡◌, ◌<◌, length, IfOk, IfErr};
ghost use Rattle.lexer.specs.Places.{IsBehind, Breaks, Reaches};
ghost use Rattle.lexer.specs.Said.{form_of};
ghost use Rattle.lexer.specs.Statements.{keyword_of, BehindWord, OfStatement, OfBlock};

use crate::bindings::{bound_value_at, name_alone_at, path_alone_at};
use crate::build_lines::{build_at, default_at};
use crate::cursor::Cursor;
use crate::statement::Statement;
use crate::stop::Stop;
use std::alloc::Global;

/// What a word at the beginning of a line begins.
#[derive(Clone, Copy, Debug, PartialEq, Eq)]
pub enum Keyword {
    Rule,
    Build,
    Pool,
    Default,
    Include,
    Subninja,
    /// The word is a name that is bound.
    Other,
}

/// What this word begins.
fn keyword_of(word: &str) -> Keyword
    ensures { result ≡ keyword_of word.now }
{
    match word {
        "rule" => Keyword::Rule,
        "build" => Keyword::Build,
        "pool" => Keyword::Pool,
        "default" => Keyword::Default,
        "include" => Keyword::Include,
        "subninja" => Keyword::Subninja,
        _ => Keyword::Other,
    }
}

/// The statement that begins here, at the beginning of its line, and the place of the next line.
#[tactic(auto, using(crate::proofs::Places::placing))]
pub fn statement_at<'a>(
    alloc: Global,
    cursor: Cursor<'a>,
) -> Result<(Statement<'a>, Cursor<'a>), Stop>
    ensures reads { IfOk result (λ found. Reaches OfStatement cursor.entry (form_of found.0) found.1) }
    ensures behind { IfOk result (λ found. IsBehind cursor.entry found.1) }
    ensures shorter { IfOk result (λ found. length found.1.rest.now < length cursor.entry.rest.now) }
    ensures fault { IfErr result (Breaks OfStatement cursor.entry) }
{
    let (word, after) = cursor.split_name()?;
    let (statement, next) = behind_word(alloc, word, after)?;
    Ok((statement, next))
}

/// The statement that this word begins, and the place of the next line.
#[tactic(auto, using(crate::proofs::Places::placing))]
fn behind_word<'a>(
    alloc: Global,
    word: &'a str,
    cursor: Cursor<'a>,
) -> Result<(Statement<'a>, Cursor<'a>), Stop>
    ensures reads { IfOk result (λ found. Reaches (BehindWord (keyword_of word.now) word.now) cursor.entry (form_of found.0) found.1) }
    ensures behind { IfOk result (λ found. IsBehind cursor.entry found.1) }
    ensures fault { IfErr result (Breaks (BehindWord (keyword_of word.now) word.now) cursor.entry) }
{
    match keyword_of(word) {
        Keyword::Rule => {
            let (name, next) = name_alone_at(cursor)?;
            Ok((Statement::Rule { name }, next))
        }
        Keyword::Build => {
            let (build, next) = build_at(alloc, cursor)?;
            Ok((Statement::Build(build), next))
        }
        Keyword::Pool => {
            let (name, next) = name_alone_at(cursor)?;
            Ok((Statement::Pool { name }, next))
        }
        Keyword::Default => {
            let (paths, next) = default_at(alloc, cursor)?;
            Ok((Statement::Default { paths }, next))
        }
        Keyword::Include => {
            let (path, next) = path_alone_at(alloc, cursor)?;
            Ok((Statement::Include { path }, next))
        }
        Keyword::Subninja => {
            let (path, next) = path_alone_at(alloc, cursor)?;
            Ok((Statement::Subninja { path }, next))
        }
        Keyword::Other => {
            let (value, next) = bound_value_at(alloc, cursor)?;
            Ok((Statement::Binding { name: word, value }, next))
        }
    }
}

/// The binding of a block that begins here, behind its spaces, and the place of the next line.
#[tactic(auto, using(crate::proofs::Places::placing))]
pub fn block_binding_at<'a>(
    alloc: Global,
    cursor: Cursor<'a>,
) -> Result<(Statement<'a>, Cursor<'a>), Stop>
    ensures reads { IfOk result (λ found. Reaches OfBlock cursor.entry (form_of found.0) found.1) }
    ensures behind { IfOk result (λ found. IsBehind cursor.entry found.1) }
    ensures shorter { IfOk result (λ found. length found.1.rest.now < length cursor.entry.rest.now) }
    ensures fault { IfErr result (Breaks OfBlock cursor.entry) }
{
    let (name, after) = cursor.split_name()?;
    let (value, next) = bound_value_at(alloc, after)?;
    Ok((Statement::BlockBinding { name, value }, next))
}
