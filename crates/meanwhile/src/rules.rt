//! Build files of made-up commands, and what a build of them is asked.

use builder::Options;
use sim::{Sim, Toy};
use status::Pattern;
use std::alloc::{AllocError, Global};
use tables::unescaped;
use text::Text;

/// The rules that stand before the edges of a build file.
const RULES: &str = "rule cat
  command = cat $out $in
rule keep
  command = keep $out $in
  restat = 1
rule both
  command = both $out $in
rule fail
  command = fail $out $in
rule args
  command = args $out
  rspfile = $out.rsp
  rspfile_content = $in $flags
rule scan
  command = scan $out $out.d $in
  depfile = $out.d
  deps = gcc
rule stay
  command = scan $out $out.d $in
  depfile = $out.d
";

/// So many commands at once, and so many failures.
pub fn options(alloc: Global, jobs: u32, keep: u32) -> Result<Options, AllocError> {
    Ok(Options {
        file: Text::from_str(alloc, "build.ninja")?,
        jobs,
        keep,
        verbose: false,
        pattern: Pattern::parse(alloc, Pattern::DEFAULT)?,
    })
}

/// What is asked for: this target, or what is built by default.
pub fn targets(alloc: Global, target: Option<&str>) -> Result<Vec<Text>, AllocError> {
    let mut targets = Vec::new(alloc);
    if let Some(target) = target {
        targets.push(Text::from_str(alloc, target)?)?;
    }
    Ok(targets)
}

/// A build file with the rules, and these edges.
pub fn edges_of(alloc: Global, edges: &str) -> Result<Vec<u8>, AllocError> {
    let mut bytes = Vec::from_slice(alloc, RULES.as_bytes())?;
    bytes.extend_from_slice(&unescaped(alloc, edges)?)?;
    Ok(bytes)
}

/// The build file gets the rules, and these edges.
pub fn put_edges(alloc: Global, site: &mut Sim<Toy>, edges: &str) -> Result<(), AllocError> {
    let bytes = edges_of(alloc, edges)?;
    site.put("build.ninja", bytes.as_slice())
}
