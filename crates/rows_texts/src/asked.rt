//! The last text, and how texts are answered.

use crate::dependencies::{push_depfile, push_dyndep};
use crate::files::Files;
use crate::logs::Told;
use crate::said::push_said;
use std::alloc::{AllocError, Global};
use tables::word;

/// What a text is read as.
#[derive(Clone, Copy)]
pub enum Kind {
    /// The lines of a build file.
    Said,
    /// `build.ninja`, beside `sub`.
    Main,
    /// `sub`, beside `build.ninja`.
    Sub,
    Depfile,
    Dyndep,
    BuildLog,
    DepsLog,
}

impl Kind {
    /// The kind of text that a row with this word gives.
    pub fn of(word: &str) -> Option<Kind> {
        match word {
            "said" => Some(Kind::Said),
            "both" => Some(Kind::Main),
            "depfile" => Some(Kind::Depfile),
            "dyndep" => Some(Kind::Dyndep),
            "log" => Some(Kind::BuildLog),
            "deps" => Some(Kind::DepsLog),
            _ => None,
        }
    }
}

/// The last text, and what `sub` holds.
#[derive(Drop)]
pub struct Asked {
    pub kind: Kind,
    pub text: Vec<u8>,
    pub sub: Vec<u8>,
}

impl Asked {
    pub fn new(alloc: Global) -> Asked {
        Asked {
            kind: Kind::Main,
            text: Vec::new(alloc),
            sub: Vec::new(alloc),
        }
    }

    /// The kind that a row names, or else that of the last text, and the rest of the row.
    pub fn named<'a>(&self, row: &'a str) -> (Kind, &'a str) {
        match word(row) {
            ("build.ninja", rest) => (Kind::Main, rest),
            ("sub", rest) => (Kind::Sub, rest),
            _ => (self.kind, row),
        }
    }

    /// The last text of a kind.
    pub fn text(&self, kind: Kind) -> &[u8] {
        if matches!(kind, Kind::Sub) {
            self.sub.as_slice()
        } else {
            self.text.as_slice()
        }
    }

    /// Both build files, with this text in the place of one of them.
    pub fn files<'a>(&'a self, alloc: Global, kind: Kind, text: &'a [u8]) -> Files<'a> {
        if matches!(kind, Kind::Sub) {
            Files::two(alloc, self.text.as_slice(), text)
        } else {
            Files::two(alloc, text, self.sub.as_slice())
        }
    }

    /// Puts what a text tells.
    pub fn push_told(
        &self,
        alloc: Global,
        kind: Kind,
        text: &[u8],
        told: &mut String,
    ) -> Result<(), AllocError> {
        match kind {
            Kind::Said => push_said(alloc, text, told),
            Kind::Main | Kind::Sub => self.files(alloc, kind, text).push_told(told),
            Kind::Depfile => push_depfile(alloc, text, told),
            Kind::Dyndep => push_dyndep(alloc, text, told),
            Kind::BuildLog | Kind::DepsLog => Told::of(alloc, kind, text)?.push_to(alloc, told),
        }
    }
}
