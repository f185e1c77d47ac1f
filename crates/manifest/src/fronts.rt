//! What commands begin with, kept once.

ghost use Rattle.std.specs.Prelude.{◌≡◌, ◌++◌, IfOk, IfSome};

use std::alloc::{AllocError, Global};
use std::str::from_utf8;
use text::{Front, SharedText, Text, behind};

/// How long a command, and what it shares with another, must be: below that, little is saved.
const SHORTEST: usize = 256;

/// How many fronts are kept at once, and how many commands that have none.
const MOST: usize = 4;

/// Of how many bytes a character is at most.
const MOST_IN_CHARACTER: usize = 4;

/// What the last commands began with.
#[derive(Drop)]
pub struct Fronts {
    fronts: Vec<Front>,
    /// The last long commands that began with none of them.
    others: Vec<SharedText>,
}

impl Fronts {
    /// None yet.
    pub fn new(alloc: Global) -> Fronts {
        Fronts {
            fronts: Vec::new(alloc),
            others: Vec::new(alloc),
        }
    }

    /// The same command, so that it stands in memory together with others as far as they begin alike.
    pub fn share(&mut self, alloc: Global, command: Text) -> Result<SharedText, AllocError>
        ensures { IfOk result (λ shared. shared ≡ command) }
    {
        if command.as_str().len() < SHORTEST {
            return SharedText::from_text(alloc, command);
        }
        if let Some(shared) = self.behind_front(alloc, command.as_str())? {
            return Ok(shared);
        }
        self.add_front(alloc, command.as_str())?;
        if let Some(shared) = self.behind_front(alloc, command.as_str())? {
            return Ok(shared);
        }
        let shared = SharedText::from_text(alloc, command)?;
        self.add_other(shared.clone()?)?;
        Ok(shared)
    }

    /// The text behind a front with which it begins, if there is one.
    fn behind_front(&self, alloc: Global, text: &str) -> Result<Option<SharedText>, AllocError>
        ensures { IfOk result (λ found. IfSome found (λ shared. shared ≡ text.now)) }
    {
        for front in self.fronts.as_slice() {
            if let Some(rest) = rest_of(front, text) {
                return Ok(Some(SharedText::with_front(alloc, front, rest)?));
            }
        }
        Ok(None)
    }

    /// Keeps what the text and another command begin with, where that is long.
    fn add_front(&mut self, alloc: Global, text: &str) -> Result<(), AllocError> {
        let Some(front) = self.front_of(text) else {
            return Ok(());
        };
        if self.fronts.len() >= MOST {
            self.fronts.clear();
        }
        self.fronts.push(Front::from_str(alloc, front)?)?;
        Ok(())
    }

    /// What the text and another command begin with, where that is long.
    fn front_of<'a>(&self, text: &'a str) -> Option<&'a str> {
        for other in self.others.as_slice() {
            let (_, whole) = other.parts();
            let front = common(whole.as_bytes(), text.as_bytes());
            if front.len() >= SHORTEST {
                return text_in(front);
            }
        }
        None
    }

    /// Keeps a command that begins with none of the fronts.
    fn add_other(&mut self, command: SharedText) -> Result<(), AllocError> {
        if self.others.len() >= MOST {
            self.others.clear();
        }
        self.others.push(command)?;
        Ok(())
    }
}

/// What stands in the text behind this front, where it begins so.
fn rest_of<'a>(front: &Front, text: &'a str) -> Option<&'a str>
    ensures { IfSome result (λ rest. text.now ≡ front.now ++ rest.now) }
{
    let rest = behind(front.as_str().as_bytes(), text.as_bytes())?;
    match from_utf8(rest) {
        Ok(rest) => Some(rest),
        Err(_) => None,
    }
}

/// What both begin with, where that is long, else nothing. Commands that are not alike are told by one look at their first bytes.
fn common<'a>(one: &[u8], other: &'a [u8]) -> &'a [u8] {
    if one.get(..SHORTEST) != other.get(..SHORTEST) {
        return &other[..0];
    }
    let size = one.len().min(other.len());
    for place in SHORTEST..size {
        if one[place] != other[place] {
            return &other[..place];
        }
    }
    &other[..size]
}

/// The longest text that these bytes begin with, where they end within a character at most.
fn text_in(bytes: &[u8]) -> Option<&str> {
    for cut in 0..MOST_IN_CHARACTER {
        let end = bytes.len().saturating_sub(cut);
        if let Ok(text) = from_utf8(&bytes[..end]) {
            return Some(text);
        }
    }
    None
}
