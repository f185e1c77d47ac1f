//! The tools over a site.

ghost use Rattle.std.specs.Prelude.{◌≡◌, false};
ghost use Rattle.model.specs.Calls.{OnlyLooks};
ghost use Rattle.ninja_asked.specs.Tools.{removes};

use crate::build::{read_alone, read_here};
use builder::Report;
use measure::Measured;
use model::SiteFault;
use ninja_asked::{Asking, answer_read};
use nj_run::Alone;
use std::alloc::{AllocError, Global};
use tools::{Answer, Fault, Tool};

/// Why a tool gives no answer.
#[derive(Debug, Drop)]
pub enum NoAnswer {
    /// The build files are refused, or cannot be read.
    Unread(Report),
    Fault(Fault),
}

impl From<Report> for NoAnswer {
    fn from(report: Report) -> NoAnswer {
        NoAnswer::Unread(report)
    }
}

impl From<Fault> for NoAnswer {
    fn from(fault: Fault) -> NoAnswer {
        NoAnswer::Fault(fault)
    }
}

impl From<SiteFault> for NoAnswer {
    fn from(fault: SiteFault) -> NoAnswer {
        NoAnswer::Fault(Fault::from(fault))
    }
}

impl From<AllocError> for NoAnswer {
    fn from(_: AllocError) -> NoAnswer {
        NoAnswer::Fault(Fault::Memory)
    }
}

/// What a tool answers in the working folder, which is this one: it reads the build files, and the logs where it wants them. None but
/// `clean` and `cleandead` writes; these wait until nobody else is at work in the folder. `restat` and `recompact` only have their words
/// checked, so that a generator may call them while a build has the logs open.
#[tactic(auto, using(crate::proofs::Looking::looking))]
pub fn answer<S: Alone + Measured>(
    alloc: Global,
    site: &mut S,
    asking: Asking<'_>,
    folder: &str,
) -> Result<Answer, NoAnswer>
    requires running { (S.world site.old).stopped ≡ false }
    ensures looks { removes asking.entry.tool ≡ false → OnlyLooks S.tells (S.world site.old) (S.world site.new) }
{
    match asking.tool {
        Tool::Restat | Tool::Recompact => Ok(Answer::well(alloc, String::new(alloc))),
        Tool::Clean | Tool::CleanDead => answer_alone(alloc, site, asking, folder),
        _ => answer_here(alloc, site, asking, folder),
    }
}

/// What a tool answers once nobody else is at work in the folder.
#[tactic(auto, using(crate::proofs::Looking::looking))]
fn answer_alone<S: Alone + Measured>(
    alloc: Global,
    site: &mut S,
    asking: Asking<'_>,
    folder: &str,
) -> Result<Answer, NoAnswer>
    ensures looks { removes asking.entry.tool ≡ false → OnlyLooks S.tells (S.world site.old) (S.world site.new) }
{
    let file = asking.options.file;
    let mut declared = read_alone(alloc, site, file)?;
    Ok(answer_read(alloc, site, asking, folder, &mut declared)?)
}

/// What a tool answers of the build files as they are now.
#[tactic(auto, using(crate::proofs::Looking::looking))]
fn answer_here<S: Measured>(
    alloc: Global,
    site: &mut S,
    asking: Asking<'_>,
    folder: &str,
) -> Result<Answer, NoAnswer>
    ensures looks { removes asking.entry.tool ≡ false → OnlyLooks S.tells (S.world site.old) (S.world site.new) }
{
    let file = asking.options.file;
    let mut declared = read_here(alloc, site, file)?;
    Ok(answer_read(alloc, site, asking, folder, &mut declared)?)
}
