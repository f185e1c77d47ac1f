//! `-t cleandead`: what a build made once and no line names any more.

ghost use Rattle.std.specs.Prelude.{IfOk, OnOk, map};
ghost use Rattle.std.specs.Map.Iter.{deref};
ghost use Rattle.tools.specs.Dead.{AddsEither, AddsLeftOf, AddsLeftOne, AddsListed, AddsNumber, AddsRecord, Buries, BuriesMade, ListsAll};

use crate::declared::Declared;
use paths::Paths;
use records::Records;
use std::alloc::{AllocError, Global};

/// The outputs of the build log that no line names.
#[derive(Drop)]
pub struct Dead {
    /// Those that no deps record lists. They are removed.
    pub dead: Paths,
    /// Those that some deps record lists. They may have become sources, and are kept.
    pub kept: Paths,
}

/// The outputs of the build log that no line names, by whether a deps record lists them.
pub fn to_bury(alloc: Global, declared: &Declared, records: &Records) -> Result<Dead, AllocError>
    ensures { IfOk result (λ found. Buries declared.now.graph records.now found.dead found.kept) }
{
    let listed = listed(alloc, records)?;
    bury_made(alloc, declared, records, &listed)
}

/// The same, where it is known which paths deps records list.
fn bury_made(
    alloc: Global,
    declared: &Declared,
    records: &Records,
    listed: &Paths,
) -> Result<Dead, AllocError>
    ensures { IfOk result (BuriesMade declared.now.graph.manifest records.now listed.now) }
{
    let dead = Paths::new(alloc);
    let kept = Paths::new(alloc);
    let mut found = Dead { dead, kept };
    let log = records.logs.build_log.log();
    for number in 0..log.done_records() {
        let outputs = log.outputs_at(alloc, number)?;
        add_all(alloc, declared, listed, outputs.as_slice(), &mut found)?;
    }
    Ok(found)
}

/// Adds those of the outputs that no line names.
fn add_all(
    alloc: Global,
    declared: &Declared,
    listed: &Paths,
    outputs: &[&str],
    found: &mut Dead,
) -> Result<(), AllocError>
    ensures { OnOk result (AddsLeftOf declared.now listed.now (map deref outputs.now) found.old found.new) }
{
    for output in outputs {
        add(alloc, declared, listed, output, found)?;
    }
    Ok(())
}

/// Adds an output, unless a line names it.
fn add(
    alloc: Global,
    declared: &Declared,
    listed: &Paths,
    output: &str,
    found: &mut Dead,
) -> Result<(), AllocError>
    ensures { OnOk result (AddsLeftOne declared.now listed.now output.now found.old found.new) }
{
    match declared.graph.manifest.number_of(output) {
        Some(_) => Ok(()),
        None => bury(alloc, listed, output, found),
    }
}

/// Adds it to those that are kept where it is listed, and else to those that are removed.
fn bury(alloc: Global, listed: &Paths, output: &str, found: &mut Dead) -> Result<(), AllocError>
    ensures { OnOk result (AddsEither listed.now output.now found.old found.new) }
{
    let Some(_) = listed.number_of(output) else {
        found.dead.add(alloc, output)?;
        return Ok(());
    };
    found.kept.add(alloc, output)?;
    Ok(())
}

/// The paths that deps records list.
fn listed(alloc: Global, records: &Records) -> Result<Paths, AllocError>
    ensures { IfOk result (λ listed. ListsAll records.now listed) }
{
    let mut listed = Paths::new(alloc);
    let log = records.logs.deps_log.log();
    for number in 0..log.deps_records() {
        add_record(alloc, records, number, &mut listed)?;
    }
    Ok(listed)
}

/// Adds the paths that the deps record with this number lists, if there is one.
fn add_record(
    alloc: Global,
    records: &Records,
    number: usize,
    listed: &mut Paths,
) -> Result<(), AllocError>
    ensures { OnOk result (AddsRecord records.now number listed.old listed.new) }
{
    let Some(deps) = records.logs.deps_log.log().deps_at(number) else {
        return Ok(());
    };
    add_listed(alloc, records, deps.paths.as_slice(), listed)
}

fn add_listed(
    alloc: Global,
    records: &Records,
    numbers: &[u32],
    listed: &mut Paths,
) -> Result<(), AllocError>
    ensures { OnOk result (AddsListed records.now numbers.now listed.old listed.new) }
{
    for number in numbers {
        add_number(alloc, records, *number, listed)?;
    }
    Ok(())
}

/// Adds the path that deps records name by this number, if there is one.
fn add_number(
    alloc: Global,
    records: &Records,
    number: u32,
    listed: &mut Paths,
) -> Result<(), AllocError>
    ensures { OnOk result (AddsNumber records.now number listed.old listed.new) }
{
    let Some(path) = records.deps_path(number) else {
        return Ok(());
    };
    listed.add(alloc, path)?;
    Ok(())
}
