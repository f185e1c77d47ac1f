//! Whether the manual page and the completions have the options of the help, and no others.

use std::alloc::{AllocError, Global};
use std::convert::AsStr;
use tables::{push_word, word};

/// Tells the options of the help where the page has the same, and else those of both. What a page is written in is told by its name.
pub fn push_documented(
    alloc: Global,
    help: &str,
    name: &str,
    page: &str,
    told: &mut String,
) -> Result<(), AllocError> {
    let in_help = options_of(alloc, "help", help)?;
    let in_page = options_of(alloc, name, page)?;
    if in_help.as_str() == in_page.as_str() {
        return told.push_str(in_help.as_str());
    }
    let differ = format!(in alloc;
        "help has {}, and {name} has {}",
        in_help.as_str(),
        in_page.as_str()
    )?;
    told.push_str(differ.as_str())
}

/// Tells the name and version that the last line of the help begins with, where the page has them.
pub fn push_version(
    alloc: Global,
    help: &str,
    page: &str,
    told: &mut String,
) -> Result<(), AllocError> {
    let last = help.trim().rsplit('\n').next().unwrap_or("");
    let (name, rest) = word(last);
    let (number, _) = word(rest);
    let version = format!(in alloc; "{name} {number}")?;
    told.push_str(if page.contains(version.as_str()) {
        version.as_str()
    } else {
        "another version"
    })
}

/// The options of a text, in the order in which it has them, each once.
fn options_of(alloc: Global, name: &str, text: &str) -> Result<String, AllocError> {
    let mut options = String::new(alloc);
    for line in text.split('\n') {
        push_declared(alloc, name, line.trim(), &mut options)?;
    }
    Ok(options)
}

/// Puts the options that a line declares: in the help those in front of two blanks, in a manual page those behind `.B` and its kin, in
/// bash's completion those behind `options=`, in zsh's those in front of `[`, in fish's the names behind `-s` and `-l`.
fn push_declared(
    alloc: Global,
    name: &str,
    line: &str,
    options: &mut String,
) -> Result<(), AllocError> {
    match name {
        "help" if line.starts_with('-') => {
            push_options(alloc, line.split("  ").next().unwrap_or(""), options)
        }
        "nj.1" if line.starts_with(".B") => {
            let (_, rest) = word(line);
            if !rest.starts_with('\\') {
                return Ok(());
            }
            push_options(alloc, rest, options)
        }
        "nj.bash" => match line.strip_prefix("local options=") {
            Some(rest) => push_options(alloc, rest, options),
            None => Ok(()),
        },
        "_nj" if line.starts_with("'-") || line.starts_with("'(-") => {
            push_options(alloc, line.split('[').next().unwrap_or(""), options)
        }
        "nj.fish" => match line.strip_prefix("complete -c nj ") {
            Some(rest) => push_named(alloc, rest, options),
            None => Ok(()),
        },
        _ => Ok(()),
    }
}

/// Puts the words of a text that begin with a dash: letters and dashes, and no backslashes among them.
fn push_options(alloc: Global, text: &str, options: &mut String) -> Result<(), AllocError> {
    let mut option = String::new(alloc);
    for character in text.chars() {
        match character {
            'a'..='z' | 'A'..='Z' | '-' => option.push(character)?,
            '\\' => {}
            _ => {
                push_option(option.as_str(), options)?;
                option.clear();
            }
        }
    }
    push_option(option.as_str(), options)
}

/// Puts the options whose letters stand behind `-s`, and whose words stand behind `-l`.
fn push_named(alloc: Global, text: &str, options: &mut String) -> Result<(), AllocError> {
    let mut dashes = 0_u8;
    for name in text.split(' ') {
        if dashes == 1 {
            push_option(format!(in alloc; "-{name}")?.as_str(), options)?;
        } else if dashes == 2 {
            push_option(format!(in alloc; "--{name}")?.as_str(), options)?;
        }
        dashes = match name {
            "-s" => 1,
            "-l" => 2,
            _ => 0,
        };
    }
    Ok(())
}

fn push_option(option: &str, options: &mut String) -> Result<(), AllocError> {
    if !option.starts_with('-') || options.as_str().split(' ').any(|it| it == option) {
        return Ok(());
    }
    push_word(options, option)
}
