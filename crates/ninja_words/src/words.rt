//! The words of the stand-in, as real ninja takes them.

use crate::given::{Asked, Information, Options, Shown, WordFault};
use std::alloc::{AllocError, Global};
use tools::{Tool, near_word};

/// What `-d` takes.
const MODES: [&str; 6] = [
    "stats",
    "explain",
    "keepdepfile",
    "keeprsp",
    "nostatcache",
    "list",
];

/// What `-w` takes.
const WARNINGS: [&str; 6] = [
    "dupbuild=err",
    "dupbuild=warn",
    "phonycycle=err",
    "phonycycle=warn",
    "depfilemulti=err",
    "depfilemulti=warn",
];

/// What came of one word, or of an option with its value.
enum Taken {
    /// So many words were taken.
    Words(usize),
    /// All others do not count: this is only told.
    Told(Information),
    /// All others are those of the tool, behind so many.
    Tool(Tool, usize),
}

/// What these words ask for, without the name of the program: options and targets in any order, up to `-t TOOL`, behind which all are
/// the tool's, and in front of which targets count for nothing. Of an option that is given twice the last counts. What is only told ends the words where it stands.
pub fn asked<'a>(alloc: Global, words: &[&'a str]) -> Result<Asked<'a>, WordFault<'a>> {
    let mut options = Options::new(alloc);
    let mut place = 0usize;
    'words: while place < words.len() {
        match take(alloc, &words[place..], &mut options)? {
            Taken::Words(count) => place = place.saturating_add(count.max(1)),
            Taken::Told(information) => return Ok(Asked::Told(information)),
            Taken::Tool(tool, count) => {
                let behind = place.saturating_add(count);
                options.words = Vec::new(alloc);
                push_words(words.get(behind..).unwrap_or(&[]), &mut options)?;
                return Ok(Asked::Tool(tool, options));
            }
        }
    }
    Ok(Asked::Build(options))
}

fn push_words<'a>(words: &[&'a str], options: &mut Options<'a>) -> Result<(), AllocError> {
    for word in words {
        options.words.push(*word)?;
    }
    Ok(())
}

/// Takes the first of these words, with a value behind it where it wants one.
fn take<'a>(
    alloc: Global,
    words: &[&'a str],
    options: &mut Options<'a>,
) -> Result<Taken, WordFault<'a>> {
    let Some((word, behind)) = words.split_first() else {
        return Ok(Taken::Words(0));
    };
    match *word {
        "--" => {
            push_words(behind, options)?;
            return Ok(Taken::Words(words.len()));
        }
        "--version" => return Ok(Taken::Told(Information::Version)),
        "--help" => return Ok(Taken::Told(Information::Help)),
        "--verbose" => options.shown = Shown::Commands,
        "--quiet" => options.shown = Shown::Printed,
        "-" => options.words.push(*word)?,
        name if name.starts_with("--") => return Err(WordFault::Name(name)),
        _ => match word.strip_prefix('-') {
            Some(letters) => return take_letters(alloc, letters, behind.first().copied(), options),
            None => options.words.push(*word)?,
        },
    }
    Ok(Taken::Words(1))
}

/// Takes the letters of a word; the last one may have its value behind it, in this word or the next.
fn take_letters<'a>(
    alloc: Global,
    letters: &'a str,
    next: Option<&'a str>,
    options: &mut Options<'a>,
) -> Result<Taken, WordFault<'a>> {
    let mut rest = letters;
    'letters: while let Some(letter) = rest.chars().next() {
        rest = rest.strip_prefix(letter).unwrap_or("");
        match letter {
            'v' => options.shown = Shown::Commands,
            'n' => options.dry = true,
            'h' => return Ok(Taken::Told(Information::Help)),
            'd' | 'f' | 'j' | 'k' | 'l' | 't' | 'w' | 'C' => {
                return take_value(alloc, letter, rest, next, options);
            }
            _ => return Err(WordFault::Letter(letter)),
        }
    }
    Ok(Taken::Words(1))
}

/// Takes the value of an option: what stands behind its letter, else the next word.
fn take_value<'a>(
    alloc: Global,
    letter: char,
    rest: &'a str,
    next: Option<&'a str>,
    options: &mut Options<'a>,
) -> Result<Taken, WordFault<'a>> {
    let (value, count) = match next {
        _ if !rest.is_empty() => (rest, 1),
        Some(value) => (value, 2),
        None => return Err(WordFault::NoValue(letter)),
    };
    match letter {
        'f' => options.file = value,
        'C' => options.folder = Some(value),
        'j' => options.jobs = Some(number(value).ok_or(WordFault::Jobs)?),
        'k' => options.keep = keep(value)?,
        'l' => options.load = Some(load(value)?),
        'd' => return mode(alloc, value, count, options),
        'w' => return warning(alloc, value, count),
        _ => return tool(alloc, value, count),
    }
    Ok(Taken::Words(count))
}

/// A number of digits; one past the greatest is no limit.
fn number(text: &str) -> Option<u32> {
    if text.is_empty() || !text.bytes().all(|byte| byte.is_ascii_digit()) {
        return None;
    }
    Some(text.parse::<u32>().unwrap_or(0))
}

/// A number, below nothing too, which is no limit.
fn keep<'a>(text: &str) -> Result<u32, WordFault<'a>> {
    match text.strip_prefix('-') {
        Some(digits) => number(digits).map(|_| 0).ok_or(WordFault::Keep),
        None => number(text).ok_or(WordFault::Keep),
    }
}

fn load<'a>(text: &str) -> Result<f64, WordFault<'a>> {
    text.parse::<f64>().ok().ok_or(WordFault::Load)
}

fn mode<'a>(
    alloc: Global,
    value: &'a str,
    count: usize,
    options: &mut Options<'a>,
) -> Result<Taken, WordFault<'a>> {
    match value {
        "list" => return Ok(Taken::Told(Information::Modes)),
        "stats" => options.stats = true,
        "explain" => options.explain = true,
        "keepdepfile" | "keeprsp" => options.keeps = true,
        "nostatcache" => {}
        _ => {
            let near = near_word(alloc, MODES.as_slice(), value)?;
            return Err(WordFault::Mode(value, near));
        }
    }
    Ok(Taken::Words(count))
}

/// What `-w` takes changes nothing: what real ninja warns of or refuses is refused.
fn warning<'a>(alloc: Global, value: &'a str, count: usize) -> Result<Taken, WordFault<'a>> {
    if value == "list" {
        return Ok(Taken::Told(Information::Warnings));
    }
    if WARNINGS.contains(&value) {
        return Ok(Taken::Words(count));
    }
    let near = near_word(alloc, WARNINGS.as_slice(), value)?;
    Err(WordFault::Warning(value, near))
}

fn tool<'a>(alloc: Global, value: &'a str, count: usize) -> Result<Taken, WordFault<'a>> {
    if value == "list" {
        return Ok(Taken::Told(Information::Tools));
    }
    match Tool::of_name(value) {
        Some(tool) => Ok(Taken::Tool(tool, count)),
        None => {
            let near = Tool::near(alloc, value)?;
            Err(WordFault::Tool(value, near))
        }
    }
}
