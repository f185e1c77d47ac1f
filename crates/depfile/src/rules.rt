//! Rules: their targets and their inputs.

ghost use Rattle.std.specs.Prelude.{◌≡◌, ◌≢◌, ◌<◌, ◌≤◌, [], None, List, ℕ, IfOk, IfErr, OnOk, length, string_bytes};
ghost use Rattle.std.specs.Cow.{cow_str_bytes};
ghost use Rattle.lexer.specs.Path.{IsCanonical};
ghost use Rattle.depfile.specs.Signs.{signs, spelled};
ghost use Rattle.depfile.specs.Depfile.{inputs};
ghost use Rattle.depfile.specs.Words.{IsWord, front_word, left_behind, text_behind, behind_targets};
ghost use Rattle.depfile.specs.Kept.{AddsMore, AddsName};

use crate::fault::{DepFault, ReadError};
use crate::words::{Token, Word, spelling, token_at};
use indexmap::IndexSet;
use lexer::{ReadFault, canonical, is_canonical_at_sight};
use std::alloc::Global;
use std::borrow::CowStr;

/// About how many bytes of a depfile a path takes, with what parts it from the next.
const BYTES_OF_PATH: usize = 32;

/// For how many paths more than one there is room from the start, at most.
const MOST_ROOM: usize = 4096;

/// What stands behind the targets of a rule.
#[derive(Clone, Copy, Debug)]
pub enum Behind<'a> {
    /// Its inputs.
    Inputs(&'a str),
    /// The next rule, where this one is blank.
    Rule(&'a str),
}

/// What stands behind the targets of the rule that stands first.
pub fn targets_at(text: &str) -> Result<Behind<'_>, DepFault>
    requires { 0 < length text.now }
    ensures behind { IfOk result (λ behind. inputs (signs text.now) ≡ left_behind behind) }
    ensures shorter { IfOk result (λ behind. length (text_behind behind) < length text.now) }
    ensures fault { IfErr result (λ fault. (fault ≡ DepFault.NoColon) × (inputs (signs text.now) ≡ None)) }
{
    let mut at = text;
    let mut named = false;
    'targets: loop {
        match token_at(at) {
            (Token::RuleEnd, rest) => {
                if named {
                    return Err(DepFault::NoColon);
                }
                return Ok(Behind::Rule(rest));
            }
            (Token::Name(word), rest) => {
                if word.ends_with_colon {
                    return Ok(Behind::Inputs(rest));
                }
                named = true;
                at = rest;
            }
        }
    }
}

/// Adds the inputs of a rule, which stand first in the text, to the paths. Gives what stands behind the rule.
pub fn inputs_at<'a>(
    alloc: Global,
    text: &'a str,
    paths: &mut IndexSet<CowStr<'a>>,
) -> Result<&'a str, ReadError>
    ensures adds { IfOk result (λ rest. AddsMore (behind_targets (signs text.entry.now)) rest.now paths.old.keys paths.new.keys) }
    ensures shorter { IfOk result (λ rest. length rest.now ≤ length text.entry.now) }
    ensures memory { IfErr result (λ error. error ≡ ReadError.Memory) }
{
    let mut at = text;
    'inputs: loop {
        match token_at(at) {
            (Token::RuleEnd, rest) => return Ok(rest),
            (Token::Name(word), rest) => {
                add_path(alloc, &word, paths)?;
                at = rest;
            }
        }
    }
}

/// Adds the path that the word names to the paths, unless it is there.
fn add_path<'a>(
    alloc: Global,
    word: &Word<'a>,
    paths: &mut IndexSet<CowStr<'a>>,
) -> Result<(), ReadError>
    requires word { (rest : List ℕ) × IsWord word.now.from.now word.now rest }
    ensures adds { OnOk result (AddsName (spelled (front_word (signs word.now.from.now))) paths.old.keys paths.new.keys) }
    ensures memory { IfErr result (λ error. error ≡ ReadError.Memory) }
{
    make_room(paths, word.from);
    let path = path_of(alloc, word)?;
    paths.insert(path)?;
    Ok(())
}

/// Makes room for about as many paths as the text may hold, before the first of them is added. It would grow in
/// many small steps else; where there are more of them, it grows later. A refusal is let pass: the paths may need less
/// room, and where there is too little for them, adding one of them is refused.
#[inline(always)]
fn make_room(paths: &mut IndexSet<CowStr<'_>>, text: &str)
    ensures { paths.new.keys ≡ paths.old.keys }
{
    if paths.is_empty() {
        let others = text.len() / BYTES_OF_PATH;
        let _ = paths.reserve(1 + others.min(MOST_ROOM));
    }
}

/// The path that the word names, borrowed where the word is written so.
fn path_of<'a>(alloc: Global, word: &Word<'a>) -> Result<CowStr<'a>, ReadError>
    requires { (rest : List ℕ) × IsWord word.now.from.now word.now rest }
    ensures found { IfOk result (λ path. IsCanonical (spelled (front_word (signs word.now.from.now))) (cow_str_bytes path)) }
    ensures memory { IfErr result (λ error. error ≡ ReadError.Memory) }
{
    if !word.is_plain {
        let name = spelling(alloc, word.from)?;
        return Ok(CowStr::Owned(canonical_of(alloc, name.as_str())?));
    }
    if is_canonical_at_sight(word.written) {
        return Ok(CowStr::Borrowed(word.written));
    }
    Ok(CowStr::Owned(canonical_of(alloc, word.written)?))
}

/// The canonical form of a path that is not empty.
fn canonical_of(alloc: Global, name: &str) -> Result<String, ReadError>
    requires { name.now ≢ [] }
    ensures found { IfOk result (λ path. IsCanonical name.now (string_bytes path)) }
    ensures memory { IfErr result (λ error. error ≡ ReadError.Memory) }
{
    match canonical(alloc, name) {
        Ok(path) => Ok(path),
        Err(ReadFault::Memory) => Err(ReadError::Memory),
        Err(ReadFault::EmptyPath) => unreachable!(),
    }
}
