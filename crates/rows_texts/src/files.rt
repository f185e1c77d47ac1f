//! Files in memory, and what is told of a read of them.

use crate::declared::push_declared;
use manifest::{FileFault, ReadError, read};
use site::{SiteFault, Texts};
use std::alloc::{AllocError, Global};
use text::Bytes;

/// Files in memory, on a device that refuses each call after so many.
#[derive(Drop)]
pub struct Files<'a> {
    alloc: Global,
    main: Option<&'a [u8]>,
    sub: Option<&'a [u8]>,
    /// Files with the numbers from 2 on as names, of which each but the last is this word and the next number.
    keyword: &'a str,
    last: u32,
    /// What the last of them holds.
    innermost: &'a [u8],
    pub passing: u64,
    pub failures: u64,
}

/// What a read gives, in short.
#[derive(Clone, Copy)]
pub enum Outcome {
    Manifest,
    /// A refusal that stands in a line of a file.
    Refusal,
    Other,
}

impl<'a> Files<'a> {
    /// No file at all.
    pub fn none(alloc: Global) -> Files<'a> {
        Files {
            alloc,
            main: None,
            sub: None,
            keyword: "",
            last: 0,
            innermost: b"",
            passing: u64::MAX,
            failures: 0,
        }
    }

    /// `build.ninja` alone.
    pub fn one(alloc: Global, main: &'a [u8]) -> Files<'a> {
        let mut files = Files::none(alloc);
        files.main = Some(main);
        files
    }

    /// `build.ninja`, `sub`, and `folder/sub`, which includes `sub`.
    pub fn two(alloc: Global, main: &'a [u8], sub: &'a [u8]) -> Files<'a> {
        let mut files = Files::one(alloc, main);
        files.sub = Some(sub);
        files
    }

    /// `build.ninja`, and files with the numbers from 2 up to the last, which name each other by this word.
    pub fn nested(
        alloc: Global,
        main: &'a [u8],
        keyword: &'a str,
        last: u32,
        innermost: &'a [u8],
    ) -> Files<'a> {
        Files {
            alloc,
            main: Some(main),
            sub: None,
            keyword,
            last,
            innermost,
            passing: u64::MAX,
            failures: 0,
        }
    }

    fn content(&self, name: &str) -> Option<&'a [u8]> {
        match name {
            "build.ninja" => self.main,
            "sub" => self.sub,
            "folder/sub" if self.sub.is_some() => Some(b"include sub\n"),
            _ => None,
        }
    }

    /// What the file with a number as its name holds.
    fn numbered(&self, name: &str) -> Result<Option<Bytes>, AllocError> {
        let number = name.parse::<u32>().unwrap_or(0);
        if number < 2 || number > self.last {
            return Ok(None);
        }
        if number == self.last {
            return Ok(Some(Bytes::from_slice(self.alloc, self.innermost)?));
        }
        let next = number.saturating_add(1);
        let line = format!(in self.alloc; "{} {next}\n", self.keyword)?;
        Ok(Some(Bytes::from_slice(self.alloc, line.as_bytes())?))
    }

    /// Puts what a read that begins with `build.ninja` tells: what it declares, or the refusal.
    pub fn push_told(&mut self, told: &mut String) -> Result<(), AllocError> {
        let alloc = self.alloc;
        match read(alloc, self, "build.ninja") {
            Ok(manifest) => push_declared(alloc, &manifest, told),
            Err(error) => push_error(alloc, &error, told),
        }
    }

    /// What a read gives.
    pub fn outcome(&mut self) -> Outcome {
        let alloc = self.alloc;
        match read(alloc, self, "build.ninja") {
            Ok(_) => Outcome::Manifest,
            Err(ReadError::Refused(fault)) => self.refusal(&fault),
            Err(_) => Outcome::Other,
        }
    }

    fn refusal(&self, fault: &FileFault) -> Outcome {
        if self.has(fault) {
            Outcome::Refusal
        } else {
            Outcome::Other
        }
    }

    /// Whether a fault is one of a line, and its file has that line.
    fn has(&self, fault: &FileFault) -> bool {
        let last = self.count_lines(fault.file.as_str());
        matches!(fault.kind.number(), 1..=16 | 18..=21) && 1 <= fault.line && fault.line <= last
    }

    /// How many lines a file has, the empty one behind its last newline too.
    fn count_lines(&self, name: &str) -> usize {
        let Some(content) = self.content(name) else {
            return 0;
        };
        let feeds = content.iter().filter(|byte| **byte == b'\n');
        feeds.count().saturating_add(1)
    }
}

fn push_error(alloc: Global, error: &ReadError, told: &mut String) -> Result<(), AllocError> {
    if let ReadError::Refused(fault) = error {
        let number = format!(in alloc; "N{}: ", fault.kind.number())?;
        told.push_str(number.as_str())?;
    }
    let error = format!(in alloc; "{error}")?;
    told.push_str(error.as_str())
}

impl<'a> Texts for Files<'a> {
    ghost use Rattle.std.specs.Prelude.{None, false, []};

    ghost tells = { false };

    ghost world = { λ files. record { history = []; events = []; ticked = 0; failures = files.failures; failures_at_start = 0; wait_refused = None; stopped = false; earlier = [] } };

    fn read(&mut self, path: &str) -> Result<Option<Bytes>, SiteFault> {
        if self.passing == 0 {
            if self.failures == u64::MAX {
                return Err(SiteFault::Memory);
            }
            self.failures += 1;
            return Err(SiteFault::Device);
        }
        self.passing -= 1;
        match self.content(path) {
            Some(content) => Ok(Some(Bytes::from_slice(self.alloc, content)?)),
            None => Ok(self.numbered(path)?),
        }
    }

    fn failures(&self) -> u64 {
        self.failures
    }
}
