//! Where statements stand.

ghost use Rattle.std.specs.Prelude.{◌≡◌};
ghost use Rattle.lexer.specs.declared.fault.FaultKind.TheVariants.{TooLarge};
ghost use Rattle.std.specs.Option.{option_map};
ghost use Rattle.manifest.specs.Answer.{IsAnswerOf};
ghost use Rattle.manifest.specs.Files.{fault_in};
ghost use Rattle.manifest.specs.Readings.{Cut, Give};
ghost use Rattle.manifest.specs.Places.{place_of, IsFaultAt};

use crate::fault::{FaultKind, FileFault, ReadError};
use lexer::Fault;
use std::alloc::Global;
use std::rc::Rc;
use text::Text;

/// The file and the line of a statement.
#[derive(Clone, Copy)]
pub struct Place<'a> {
    pub file: &'a Rc<Text>,
    /// The line, from 1; 0 where the main file is absent.
    pub line: usize,
}

impl<'a> Place<'a> {
    /// Another line of the same file.
    pub fn at_line(&self, line: usize) -> Place<'a>
        ensures file { result.file.now ≡ self.now.file.now }
        ensures line { result.line ≡ line }
    {
        Place {
            file: self.file,
            line,
        }
    }

    /// The refusal for what is wrong here, or want of memory.
    pub fn fault(&self, alloc: Global, kind: FaultKind) -> ReadError
        ensures { IsFaultAt (place_of self.now) kind result }
    {
        match Text::from_str(alloc, self.file.as_str()) {
            Ok(file) => ReadError::Refused(FileFault {
                file,
                line: self.line,
                kind,
            }),
            Err(_) => ReadError::Memory,
        }
    }

    /// The refusal for a value, a file or a graph that is too large.
    pub fn too_large(&self, alloc: Global) -> ReadError
        ensures { IsFaultAt (place_of self.now) (FaultKind.Line TooLarge) result }
    {
        self.fault(alloc, FaultKind::Line(lexer::FaultKind::TooLarge))
    }

    /// The fault at which the text of the file stops, if it has one.
    pub fn stop_at(&self, alloc: Global, fault: Option<Fault>) -> Result<(), ReadError>
        ensures { IsAnswerOf (Cut (option_map (fault_in self.now.file.now.value) fault) (Give tt)) result }
    {
        match fault {
            Some(fault) => {
                let kind = FaultKind::Line(fault.kind);
                Err(self.at_line(fault.line).fault(alloc, kind))
            }
            None => Ok(()),
        }
    }
}
