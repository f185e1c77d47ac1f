//! Builds over what was seen, or by stamps alone.

use crate::dated::Dated;
use builder::{Options, Report, build};
use manifest::read;
use seen::Seen;
use site::Site;
use std::alloc::Global;
use std::marker::Brand;
use text::Text;

/// The outputs of the build file are known, before it is built.
pub fn learn(alloc: Global, seen: &mut Seen<Dated<'_>, Brand>, file: &str) {
    let told = &mut seen.retold;
    if let Ok(manifest) = read(alloc, &mut told.site, file) {
        seen.know(&manifest);
    }
}

/// Builds by what was seen, or on the site below, which is by stamps alone.
pub fn build_by(
    alloc: Global,
    seen: &mut Seen<Dated<'_>, Brand>,
    trusts: bool,
    options: &Options,
    targets: &[Text],
) -> Report {
    if trusts {
        let told = &mut seen.retold;
        return built(alloc, &mut told.site, options, targets);
    }
    built(alloc, seen, options, targets)
}

/// Builds once all commands that were left running have ended.
fn built<S: Site>(alloc: Global, site: &mut S, options: &Options, targets: &[Text]) -> Report {
    site.restart();
    build(alloc, site, options, targets)
}
