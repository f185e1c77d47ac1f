//! The lines of a script.

use sim::{Call, Order, Timing};
use std::str::FromStr;

/// A line of a script, without its newline.
#[derive(Drop)]
pub enum Line<'a> {
    Command(Command<'a>),
    /// `|CONTENT`: a line of the file that the `file` line above begins.
    Content(&'a [u8]),
}

/// What a line asks for. A path is one word, and is taken as it stands.
#[derive(Drop)]
pub enum Command<'a> {
    /// `file PATH`: the file gets the content lines that follow.
    File {
        path: &'a str,
    },
    /// `write PATH TEXT`: the file gets the text, in which `Unescaped` reads the escapes. Without a text the file is
    /// written as it stands.
    Write {
        path: &'a str,
        text: Option<&'a [u8]>,
    },
    /// `delete PATH`.
    Delete {
        path: &'a str,
    },
    /// `build TARGET..`: the targets are built, each one word as it stands, or what the build file asks for by default.
    Build {
        targets: Option<&'a str>,
    },
    /// `lines`: from now on builds print what they show, in place of their events.
    Lines,
    /// `-j N`: from now on so many commands may run at once; 0 is no limit.
    Jobs(u32),
    /// `-k N`: from now on nothing is started after so many failed commands; 0 is no limit.
    Keep(u32),
    /// `finish first`, `finish last`: from now on the running command with the lowest, or the highest, number ends next.
    Finish(Order),
    /// `early`, `late`: from now on commands write when they start, or when they end.
    Writes(Timing),
    /// `gate N`: in the next build the first wait is refused where fewer commands run.
    Gate(usize),
    /// `fault KIND N`: in the next build the device refuses the call of this kind and number.
    Fault {
        call: Call,
        number: u64,
    },
    /// `stop KIND N B`: in the next build the site stops in the call of this kind and number. An append has put down so
    /// many bytes by then, and none where the line does not say.
    Stop {
        call: Call,
        number: u64,
        bytes: usize,
    },
    /// `show PATH`: what the file holds is printed, in one line.
    Show {
        path: &'a str,
    },
}

impl<'a> Line<'a> {
    /// Reads a line. Nothing is answered for one that is no command.
    pub fn parse(line: &'a [u8]) -> Option<Line<'a>> {
        match line.split_first() {
            Some((b'|', content)) => Some(Line::Content(content)),
            _ => Command::parse(line).map(Line::Command),
        }
    }
}

impl<'a> Command<'a> {
    fn parse(line: &'a [u8]) -> Option<Command<'a>> {
        let (word, rest) = first_word(line);
        let word = str::from_utf8(word).ok()?;
        match rest {
            None => Command::alone(word),
            Some(rest) => Command::followed(word, rest),
        }
    }

    /// What a word asks for that stands alone.
    fn alone(word: &str) -> Option<Command<'a>> {
        match word {
            "build" => Some(Command::Build { targets: None }),
            "lines" => Some(Command::Lines),
            "early" => Some(Command::Writes(Timing::Early)),
            "late" => Some(Command::Writes(Timing::Late)),
            _ => None,
        }
    }

    /// What a word asks for with more behind it.
    fn followed(word: &str, rest: &'a [u8]) -> Option<Command<'a>> {
        match word {
            "build" => Some(Command::Build {
                targets: Some(words(rest)?),
            }),
            "write" => Command::write(rest),
            "file" | "delete" | "show" => Command::of_path(word, lone_path(rest)?),
            "-j" | "-k" => Command::of_limit(word, number(rest)?),
            _ => Command::of_site(word, rest),
        }
    }

    /// The path to write, and the text, where there is one.
    fn write(rest: &'a [u8]) -> Option<Command<'a>> {
        let (path, text) = first_word(rest);
        Some(Command::Write {
            path: lone_path(path)?,
            text,
        })
    }

    /// What a word asks for with a lone path behind it.
    fn of_path(word: &str, path: &'a str) -> Option<Command<'a>> {
        match word {
            "file" => Some(Command::File { path }),
            "delete" => Some(Command::Delete { path }),
            "show" => Some(Command::Show { path }),
            _ => None,
        }
    }

    /// What a word asks for with a number behind it, of which 0 is no limit.
    fn of_limit(word: &str, limit: u32) -> Option<Command<'a>> {
        match word {
            "-j" => Some(Command::Jobs(limit)),
            "-k" => Some(Command::Keep(limit)),
            _ => None,
        }
    }

    /// What a word asks for that says how the site goes on, with more behind it.
    fn of_site(word: &str, rest: &[u8]) -> Option<Command<'a>> {
        match word {
            "finish" => Some(Command::Finish(order_of(rest)?)),
            "gate" => Some(Command::Gate(number(rest)?)),
            "fault" => Command::fault(rest),
            "stop" => Command::stop(rest),
            _ => None,
        }
    }

    fn fault(rest: &[u8]) -> Option<Command<'a>> {
        match call_and_number(rest)? {
            (call, number, None) => Some(Command::Fault { call, number }),
            _ => None,
        }
    }

    fn stop(rest: &[u8]) -> Option<Command<'a>> {
        let (call, at, bytes) = call_and_number(rest)?;
        Some(Command::Stop {
            call,
            number: at,
            bytes: number_or_zero(bytes)?,
        })
    }
}

/// Which of the running commands is to end next.
fn order_of(word: &[u8]) -> Option<Order> {
    match word {
        b"first" => Some(Order::First),
        b"last" => Some(Order::Last),
        _ => None,
    }
}

/// The kind of a call, its number among those of its kind, and what stands behind.
fn call_and_number(rest: &[u8]) -> Option<(Call, u64, Option<&[u8]>)> {
    let (kind, rest) = first_word(rest);
    let (at, rest) = first_word(rest?);
    Some((call_of(kind)?, number(at)?, rest))
}

/// The kind of call of this name.
fn call_of(kind: &[u8]) -> Option<Call> {
    match kind {
        b"read" => Some(Call::Read),
        b"stat" => Some(Call::Stat),
        b"tick" => Some(Call::Tick),
        b"append" => Some(Call::Append),
        b"replace" => Some(Call::Replace),
        b"write" => Some(Call::Write),
        b"remove" => Some(Call::Remove),
        b"make_dirs" => Some(Call::MakeDirs),
        b"start" => Some(Call::Start),
        b"wait_any" => Some(Call::WaitAny),
        b"show" => Some(Call::Show),
        _ => None,
    }
}

/// What stands before the first space, and what stands behind it where there is one.
fn first_word(line: &[u8]) -> (&[u8], Option<&[u8]>) {
    match line.iter().position(|&byte| byte == b' ') {
        Some(at) => (&line[..at], Some(&line[at + 1..])),
        None => (line, None),
    }
}

/// A path with nothing behind it.
fn lone_path(word: &[u8]) -> Option<&str> {
    if word.is_empty() || word.contains(&b' ') {
        return None;
    }
    str::from_utf8(word).ok()
}

/// Words with one space between them.
fn words(rest: &[u8]) -> Option<&str> {
    if rest.split(|byte| *byte == b' ').any(|word| word.is_empty()) {
        return None;
    }
    str::from_utf8(rest).ok()
}

/// A number of decimal digits alone.
fn number<N: FromStr>(word: &[u8]) -> Option<N>
where
    N::Err: Drop,
{
    if !word.iter().all(|byte| byte.is_ascii_digit()) {
        return None;
    }
    str::from_utf8(word).ok()?.parse::<N>().ok()
}

/// A number, or 0 where there is no word.
fn number_or_zero(word: Option<&[u8]>) -> Option<usize> {
    match word {
        Some(word) => number(word),
        None => Some(0),
    }
}

/// The bytes that a text stands for: `\n` is a newline and `\\` a backslash. Before anything else a backslash stands.
#[derive(Drop)]
pub struct Unescaped<'a>(pub &'a [u8]);

impl<'a> Iterator for Unescaped<'a> {
    type Item = u8;

    ghost use Rattle.std.specs.Prelude.{length};
    ghost use Rattle.std.specs.Iterator.{at_most};

    ghost remaining = { λ text. at_most (length text.0.now) };

    fn next(&mut self) -> Option<u8> {
        let (byte, behind) = match self.0 {
            [b'\\', b'n', behind @ ..] => (b'\n', behind),
            [b'\\', b'\\', behind @ ..] => (b'\\', behind),
            [byte, behind @ ..] => (*byte, behind),
            [] => return None,
        };
        self.0 = behind;
        Some(byte)
    }
}
