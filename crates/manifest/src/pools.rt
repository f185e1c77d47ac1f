//! Pools (manual: "Pools").

ghost use Rattle.std.specs.Prelude.{◌≡◌, None, IfErr, IsErr, OnOk};
ghost use Rattle.manifest.specs.Answer.{IsAnswerOf};
ghost use Rattle.manifest.specs.Declarations.{PoolLine};
ghost use Rattle.manifest.specs.Held.{InEachState, KeepsScopes};
ghost use Rattle.manifest.specs.Places.{place_of, IsFaultAt};
ghost use Rattle.manifest.specs.Readings.{Each};
ghost use Rattle.manifest.specs.Statements.{SaysNext, IsAnswerIn, KeepsFormed};
ghost use Rattle.manifest.specs.Statements.{PoolSays, DepthSays, is_taken_pool, lines_of, lines_of_one};

use crate::blocks::block_line;
use crate::fault::{FaultKind, ReadError};
use crate::kept::Declared;
use crate::numbers::depth_in;
use crate::place::Place;
use lexer::{Fault, Line};
use std::alloc::Global;
use text::Text;

impl Declared {
    /// Reads `pool NAME` with its block, behind which the text may stop.
    pub fn read_pool(
        &mut self,
        alloc: Global,
        place: &Place<'_>,
        name: &str,
        block: &[Line<'_>],
        behind: Option<Fault>,
    ) -> Result<(), ReadError>
        ensures said { SaysNext result self.old self.new (PoolSays place.now name.now block.now behind) }
        ensures scopes { OnOk result (KeepsScopes self.old self.new) }
        ensures formed { OnOk result (KeepsFormed self.old self.new) }
    {
        if self.has_pool(name) {
            let kind = FaultKind::RepeatedPool(Text::from_str(alloc, name)?);
            return Err(place.fault(alloc, kind));
        }
        let depth = self.pool_depth(alloc, place, name, block, behind)?;
        self.pools.insert(String::from_str(alloc, name)?, depth)?;
        Ok(())
    }

    /// Whether a pool of this name is declared, or built in.
    fn has_pool(&self, name: &str) -> bool
        ensures { InEachState self.now (λ state. result ≡ is_taken_pool state name.now) }
    {
        name == "console" || self.pools.contains_key(name)
    }

    /// The depth that the block gives the pool.
    fn pool_depth(
        &self,
        alloc: Global,
        place: &Place<'_>,
        name: &str,
        block: &[Line<'_>],
        behind: Option<Fault>,
    ) -> Result<u32, ReadError>
        ensures { IsAnswerIn self.now (DepthSays place.now name.now block.now behind) result }
    {
        let depth = self.read_depths(alloc, place, name, block)?;
        place.stop_at(alloc, behind)?;
        match depth {
            Some(depth) => Ok(depth),
            None => bad_depth(alloc, place, name),
        }
    }

    /// The last depth of the block, if it has one.
    fn read_depths(
        &self,
        alloc: Global,
        place: &Place<'_>,
        pool: &str,
        block: &[Line<'_>],
    ) -> Result<Option<u32>, ReadError>
        ensures { InEachState self.now (λ state. IsAnswerOf (Each (PoolLine state place.now.file.now.value pool.now) (lines_of block.now) None) result) }
    {
        let mut depth = None;
        for line in block {
            depth = self.read_depth(alloc, place, pool, line, depth)?;
        }
        Ok(depth)
    }

    /// The depth behind a line of the block.
    fn read_depth(
        &self,
        alloc: Global,
        place: &Place<'_>,
        pool: &str,
        line: &Line<'_>,
        before: Option<u32>,
    ) -> Result<Option<u32>, ReadError>
        ensures { InEachState self.now (λ state. IsAnswerOf (Each (PoolLine state place.now.file.now.value pool.now) (lines_of_one line.now) before) result) }
    {
        let Some(line) = block_line(line) else {
            return Ok(before);
        };
        let place = place.at_line(line.line);
        if line.name != "depth" {
            let kind = FaultKind::UnexpectedVariable(Text::from_str(alloc, line.name)?);
            return Err(place.fault(alloc, kind));
        }
        let text = self.expand(alloc, &place, line.value)?;
        match depth_in(text.as_str()) {
            Some(depth) => Ok(Some(depth)),
            None => bad_depth(alloc, &place, pool),
        }
    }
}

/// The refusal of a depth.
fn bad_depth<T>(alloc: Global, place: &Place<'_>, pool: &str) -> Result<T, ReadError>
    ensures fault { IfErr result (IsFaultAt (place_of place.now) (FaultKind.BadDepth pool.now)) }
    ensures err { IsErr result }
{
    let kind = FaultKind::BadDepth(Text::from_str(alloc, pool)?);
    Err(place.fault(alloc, kind))
}
