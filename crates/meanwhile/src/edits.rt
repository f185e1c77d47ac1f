//! What somebody writes.

ghost use Rattle.sim.specs.World.{world_of};
ghost use Rattle.meanwhile.specs.Files.{OnlyFiles};

use crate::made_up::{Source, dyndep_in};
use crate::random::Random;
use sim::{Sim, Toy};
use std::alloc::{AllocError, Global};

/// A source is written or deleted, beside the build file of this line.
pub fn edit(
    alloc: Global,
    site: &mut Sim<Toy>,
    source: Source<'_>,
    graph: &str,
    random: &mut Random,
) -> Result<(), AllocError> {
    let path = random.part(source.sources, ' ');
    let text = next_text(alloc, source, graph, random, path)?;
    set(site, path, &text)
}

/// What a source holds next, if somebody does not delete it.
pub fn next_text(
    alloc: Global,
    source: Source<'_>,
    graph: &str,
    random: &mut Random,
    path: &str,
) -> Result<Option<Vec<u8>>, AllocError> {
    if random.one_in(5) {
        return Ok(None);
    }
    if path.starts_with('y') {
        return Ok(Some(dyndep_in(alloc, graph, path)?));
    }
    let text = if path.starts_with('u') {
        let (first, second) = (
            random.part(source.sources, ' '),
            random.part(source.sources, ' '),
        );
        format!(in alloc; "use {first}\nuse {second}\n")?
    } else {
        format!(in alloc; "{path}{}", random.below(3))?
    };
    Ok(Some(text.into_bytes()))
}

/// Somebody writes this, or deletes the file where it is nothing.
pub fn set(site: &mut Sim<Toy>, path: &str, text: &Option<Vec<u8>>) -> Result<(), AllocError>
    ensures { OnlyFiles (world_of site.old) (world_of site.new) }
{
    let Some(text) = text else {
        site.erase(path)?;
        return Ok(());
    };
    site.put(path, text.as_slice())?;
    Ok(())
}
