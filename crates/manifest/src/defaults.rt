//! Default targets (manual: "Default target statements").

ghost use Rattle.std.specs.Prelude.{OnOk};
ghost use Rattle.lexer.specs.Said.{paths_of};
ghost use Rattle.manifest.specs.Declarations.{DefaultPaths};
ghost use Rattle.manifest.specs.Held.{KeepsScopes};
ghost use Rattle.manifest.specs.Places.{place_of};
ghost use Rattle.manifest.specs.Statements.{SaysNext, IsAnswerIn, KeepsFormed, DefaultSays};

use crate::fault::ReadError;
use crate::kept::{Declared, ReadDefault};
use crate::path_reader::PathReader;
use crate::place::Place;
use lexer::Value;
use scopes::Block;
use std::alloc::Global;
use text::{Items, Path};

impl Declared {
    /// Reads `default PATHS`.
    pub fn read_default(
        &mut self,
        alloc: Global,
        place: &Place<'_>,
        values: &[Value<'_>],
    ) -> Result<(), ReadError>
        ensures said { SaysNext result self.old self.new (DefaultSays place.now (paths_of values.now)) }
        ensures scopes { OnOk result (KeepsScopes self.old self.new) }
        ensures formed { OnOk result (KeepsFormed self.old self.new) }
    {
        let paths = self.default_paths(alloc, place, values)?;
        for path in paths.into_vec() {
            self.defaults.push(ReadDefault {
                file: place.file.clone()?,
                line: place.line,
                path,
            })?;
        }
        Ok(())
    }

    /// The canonical paths of these at this place.
    fn default_paths(
        &self,
        alloc: Global,
        place: &Place<'_>,
        values: &[Value<'_>],
    ) -> Result<Items<Path>, ReadError>
        ensures { IsAnswerIn self.now (DefaultPaths (place_of place.now) (paths_of values.now)) result }
    {
        let block = Block::new(alloc);
        let mut reader = PathReader::new(&self.scopes, &block);
        let paths = reader.paths(alloc, values)?;
        reader.check(alloc, place)?;
        Ok(paths)
    }
}
