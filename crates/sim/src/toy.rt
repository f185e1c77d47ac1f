//! Commands for tests and scripts.

ghost use Rattle.std.specs.Prelude.{◌≡◌, ◌==◌, ◌++◌, ◌∷◌, Option, Some, List, map, option_copied, option_map, codes, IfOk, OnOk};
ghost use Rattle.std.specs.List.{slice_split, filter_map, flat_map};
ghost use Rattle.model.specs.World.{view_of};
ghost use Rattle.sim.specs.Toy.{texts_in, contents_at, used_in, each_spaced, words, contents, nothing, writing, gathered, copied, halved, doubled, scanned, named_in, named, behind, spaced, depfile, replied, given, does, kind_of};

use crate::commands::Commands;
use crate::history::History;
use model::{Act, Outcome, Write};
use std::alloc::{AllocError, Global};
use text::{Bytes, Items, Path};

/// Commands that are cut at single spaces, the first word being the kind and every other a path as it stands:
/// `cat OUT IN..` joins the contents of the INs, `keep OUT IN..` does the same but does not write an OUT that holds
/// just that, `both OUT1 OUT2 IN` copies IN to both, `args OUT` writes the act's response content, and `fail OUT IN..`
/// leaves `half` and fails.
///
/// `scan OUT DEP IN` reads IN: each of its lines that begins with `use ` names the path that is the rest of it, and the
/// other lines say nothing. It joins the contents of the named paths in OUT, and writes a depfile to DEP: OUT, a colon and
/// a space, the named paths with a space between, and a newline.
///
/// An unknown kind, too few words, an absent IN, or a named path that is absent make a command fail and write nothing; so
/// does an IN of `scan` that is not UTF-8. Words beyond those that `both`, `scan` and `args` take are passed over.
#[derive(Clone, Copy, Debug)]
pub struct Toy;

/// The kinds of command.
#[derive(Clone, Copy)]
enum Kind {
    Cat,
    Keep,
    Both,
    Scan,
    Args,
    Fail,
}

impl Commands for Toy {
    ghost use Rattle.sim.specs.Toy.{toy_outcome, toy_reads};
    ghost use Rattle.sim.specs.Alone.{toy_reads_alone};

    ghost outcome = { toy_outcome };

    ghost reads = { toy_reads };

    ghost reads_alone = { toy_reads_alone };

    fn run(&self, alloc: Global, act: &Act, history: &History) -> Result<Outcome, AllocError> {
        let command = act.command.to_text(alloc)?;
        let words = words_of(alloc, command.as_str())?;
        match words.as_slice() {
            [kind, out, words @ ..] => give(alloc, kind_of(kind), act, out, words, history),
            _ => Ok(fails(alloc)),
        }
    }
}

fn words_of(alloc: Global, command: &str) -> Result<Vec<&str>, AllocError>
    ensures { IfOk result (λ found. texts_in found.items ≡ words command.now) }
{
    command.split(' ').collect(alloc)
}

fn kind_of(word: &str) -> Option<Kind>
    ensures { result ≡ kind_of word.now }
{
    match word {
        "cat" => Some(Kind::Cat),
        "keep" => Some(Kind::Keep),
        "both" => Some(Kind::Both),
        "scan" => Some(Kind::Scan),
        "args" => Some(Kind::Args),
        "fail" => Some(Kind::Fail),
        _ => None,
    }
}

/// What a command of this kind gives.
fn give(
    alloc: Global,
    kind: Option<Kind>,
    act: &Act,
    out: &str,
    words: &[&str],
    history: &History,
) -> Result<Outcome, AllocError>
    ensures { IfOk result (λ outcome. outcome ≡ given kind act.now.response_content out.now (texts_in words.now) (view_of history.now)) }
{
    match kind {
        Some(Kind::Cat) => gather(alloc, out, words, false, history),
        Some(Kind::Keep) => gather(alloc, out, words, true, history),
        Some(Kind::Both) => double(alloc, out, words, history),
        Some(Kind::Scan) => scan(alloc, out, words, history),
        Some(Kind::Args) => {
            let content = act.response_content.to_text(alloc)?;
            reply(alloc, out, content.as_str())
        }
        Some(Kind::Fail) => halve(alloc, out, words, history),
        None => Ok(fails(alloc)),
    }
}

/// The contents of the paths go to `out`.
fn gather(
    alloc: Global,
    out: &str,
    paths: &[&str],
    only_changes: bool,
    history: &History,
) -> Result<Outcome, AllocError>
    ensures { IfOk result (λ outcome. outcome ≡ gathered only_changes out.now (contents_at history.now paths.now)) }
{
    let Some(content) = join(alloc, paths, history)? else {
        return Ok(fails(alloc));
    };
    let write = Write {
        path: Path::from_str(alloc, out)?,
        content: Some(content),
        only_changes,
    };
    Ok(Outcome {
        ok: true,
        writes: Items::from_vec(vec![in alloc; write]?),
    })
}

/// The content of the second path goes to `out` and to the first.
fn double(
    alloc: Global,
    out: &str,
    words: &[&str],
    history: &History,
) -> Result<Outcome, AllocError>
    ensures { IfOk result (λ outcome. outcome ≡ doubled out.now (texts_in words.now) (view_of history.now)) }
{
    let [other, from, ..] = words else {
        return Ok(fails(alloc));
    };
    let Some(content) = history.content(from) else {
        return Ok(fails(alloc));
    };
    let first = write(alloc, out, content.as_slice())?;
    let second = write(alloc, other, content.as_slice())?;
    Ok(Outcome {
        ok: true,
        writes: Items::from_vec(vec![in alloc; first, second]?),
    })
}

/// The contents of the paths that a file names go to `out`, and what they are to a depfile.
fn scan(alloc: Global, out: &str, words: &[&str], history: &History) -> Result<Outcome, AllocError>
    ensures { IfOk result (λ outcome. outcome ≡ scanned out.now (texts_in words.now) (view_of history.now)) }
{
    let [dep, from, ..] = words else {
        return Ok(fails(alloc));
    };
    let Some(naming) = history.content(from) else {
        return Ok(fails(alloc));
    };
    let Some(paths) = named_in(alloc, naming.as_slice())? else {
        return Ok(fails(alloc));
    };
    let Some(content) = join(alloc, &paths, history)? else {
        return Ok(fails(alloc));
    };
    let first = write(alloc, out, content.as_slice())?;
    let told = depfile(alloc, out, &paths)?;
    let second = write(alloc, dep, told.as_slice())?;
    Ok(Outcome {
        ok: true,
        writes: Items::from_vec(vec![in alloc; first, second]?),
    })
}

/// The paths that the bytes of a file name, or nothing where they are not UTF-8.
fn named_in(alloc: Global, content: &[u8]) -> Result<Option<Vec<&str>>, AllocError>
    ensures { IfOk result (λ paths. option_map (λ paths. texts_in paths.items) paths ≡ named_in (Some content.now)) }
{
    match str::from_utf8(content) {
        Ok(text) => Ok(Some(named(alloc, text)?)),
        Err(_) => Ok(None),
    }
}

/// The paths that the lines of a text name.
fn named(alloc: Global, text: &str) -> Result<Vec<&str>, AllocError>
    ensures { IfOk result (λ paths. texts_in paths.items ≡ named text.now) }
{
    let lines = lines_of(alloc, text)?;
    used_in(alloc, &lines)
}

/// The paths that these lines name.
fn used_in<'a>(alloc: Global, lines: &[&'a str]) -> Result<Vec<&'a str>, AllocError>
    ensures { IfOk result (λ paths. texts_in paths.items ≡ used_in (texts_in lines.now)) }
{
    let mut paths = Vec::new(alloc);
    for line in lines {
        if let Some(path) = used(line) {
            paths.push(path)?;
        }
    }
    Ok(paths)
}

fn lines_of(alloc: Global, text: &str) -> Result<Vec<&str>, AllocError>
    ensures { IfOk result (λ lines. texts_in lines.items ≡ slice_split (λ b. b == 10) text.now) }
{
    text.split('\n').collect(alloc)
}

/// The path that a line names, if it names one.
fn used(line: &str) -> Option<&str>
    ensures { option_map (λ path. path.now) result ≡ behind (codes "use ") line.now }
{
    line.strip_prefix("use ")
}

/// What a depfile holds that tells these inputs of `out`.
fn depfile(alloc: Global, out: &str, paths: &[&str]) -> Result<Bytes, AllocError>
    ensures { IfOk result (λ content. content ≡ depfile out.now (texts_in paths.now)) }
{
    let mut text = Vec::from_slice(alloc, out.as_bytes())?;
    text.extend_from_slice(b": ")?;
    append_spaced(&mut text, paths)?;
    text.push(b'\n')?;
    Ok(Bytes::from_vec(text))
}

/// Appends the paths, with a space between.
fn append_spaced(text: &mut Vec<u8>, paths: &[&str]) -> Result<(), AllocError>
    ensures { OnOk result (text.new.items ≡ text.old.items ++ spaced (texts_in paths.now)) }
{
    if let [first, others @ ..] = paths {
        text.extend_from_slice(first.as_bytes())?;
        append_others(text, others)?;
    }
    Ok(())
}

/// Appends the paths, each with a space before it.
fn append_others(text: &mut Vec<u8>, paths: &[&str]) -> Result<(), AllocError>
    ensures { OnOk result (text.new.items ≡ text.old.items ++ each_spaced (texts_in paths.now)) }
{
    for path in paths {
        text.push(b' ')?;
        text.extend_from_slice(path.as_bytes())?;
    }
    Ok(())
}

/// The response content of the act goes to `out`.
fn reply(alloc: Global, out: &str, response: &str) -> Result<Outcome, AllocError>
    ensures { IfOk result (λ outcome. outcome ≡ replied response.now out.now) }
{
    let write = write(alloc, out, response.as_bytes())?;
    Ok(Outcome {
        ok: true,
        writes: Items::from_vec(vec![in alloc; write]?),
    })
}

/// Half a file stands at `out` when the command breaks off.
fn halve(alloc: Global, out: &str, paths: &[&str], history: &History) -> Result<Outcome, AllocError>
    ensures { IfOk result (λ outcome. outcome ≡ halved out.now (contents_at history.now paths.now)) }
{
    if join(alloc, paths, history)?.is_none() {
        return Ok(fails(alloc));
    }
    let half = write(alloc, out, b"half")?;
    Ok(Outcome {
        ok: false,
        writes: Items::from_vec(vec![in alloc; half]?),
    })
}

/// The contents of the paths, one after the other, or nothing where one is absent.
fn join(alloc: Global, paths: &[&str], history: &History) -> Result<Option<Bytes>, AllocError>
    ensures { IfOk result (λ content. content ≡ contents_at history.now paths.now) }
{
    let mut bytes = Vec::new(alloc);
    for path in paths {
        let Some(content) = history.content(path) else {
            return Ok(None);
        };
        bytes.extend_from_slice(content.as_slice())?;
    }
    Ok(Some(Bytes::from_vec(bytes)))
}

fn write(alloc: Global, path: &str, content: &[u8]) -> Result<Write, AllocError>
    ensures { IfOk result (λ write. write ≡ writing path.now content.now) }
{
    Ok(Write {
        path: Path::from_str(alloc, path)?,
        content: Some(Bytes::from_slice(alloc, content)?),
        only_changes: false,
    })
}

fn fails(alloc: Global) -> Outcome
    ensures { result ≡ nothing }
{
    Outcome {
        ok: false,
        writes: Items::new(alloc),
    }
}
