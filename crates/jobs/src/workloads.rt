//! What is done.

use crate::awkward::push_awkward;
use crate::digest::Digest;
use crate::project::{push_edited, push_from_nothing, push_touched};
use crate::reading::push_read;
use crate::shapes::push_shapes;
use std::alloc::{AllocError, Global};

/// What the words ask for.
#[derive(Clone, Copy)]
pub struct Asked<'a> {
    pub job: &'a str,
    /// About how many edges a graph has.
    pub size: usize,
    /// How often a job goes on.
    pub rounds: usize,
    pub seed: u64,
}

/// All jobs.
const JOBS: [&str; 6] = ["edited", "touched", "nothing", "read", "shapes", "awkward"];

/// Does the job, or each of them, with a line for each.
pub fn push_all(alloc: Global, asked: Asked<'_>, told: &mut String) -> Result<(), AllocError> {
    if asked.job != "all" {
        return push_one(alloc, asked, told);
    }
    for job in JOBS {
        push_one(alloc, Asked { job, ..asked }, told)?;
    }
    Ok(())
}

/// Does the job, and tells its name with the digest of all that came of it.
fn push_one(alloc: Global, asked: Asked<'_>, told: &mut String) -> Result<(), AllocError> {
    let mut digest = Digest::new();
    if !add_job(alloc, asked, &mut digest)? {
        return told.push_str("jobs: no such job\n");
    }
    let (job, value) = (asked.job, digest.value());
    write!(told, "{job} {value:016x}\n")
}

fn add_job(alloc: Global, asked: Asked<'_>, digest: &mut Digest) -> Result<bool, AllocError> {
    match asked.job {
        "edited" => push_edited(alloc, asked, digest)?,
        "touched" => push_touched(alloc, asked, digest)?,
        "nothing" => push_from_nothing(alloc, asked, digest)?,
        "read" => push_read(alloc, asked, digest)?,
        "shapes" => push_shapes(alloc, asked, digest)?,
        "awkward" => push_awkward(alloc, asked, digest)?,
        _ => return Ok(false),
    }
    Ok(true)
}
