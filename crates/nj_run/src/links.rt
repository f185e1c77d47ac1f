//! Where links stand that commands went through, asked of the files once a build has ended.

use auditor::Auditor;
use paths::{PathId, Paths};
use std::fs;

/// How often it is asked again what stands behind links that were found.
const MOST: usize = 40;

/// Tells the auditor where the links lead that the command of this trace may have gone through. Each path is asked for once in an audit.
pub fn learn_links(rt: &HostRuntime, auditor: &mut Auditor, trace: &[u8]) -> Option<()> {
    for _ in 0..MOST {
        let asked = auditor.unasked(trace).ok()?;
        if asked.len() == 0 {
            return Some(());
        }
        learn_all(rt, auditor, &asked)?;
    }
    Some(())
}

fn learn_all(rt: &HostRuntime, auditor: &mut Auditor, asked: &Paths) -> Option<()> {
    for place in 0..asked.len() {
        learn(rt, auditor, asked.get(PathId::at(place)?).unwrap_or(""))?;
    }
    Some(())
}

/// Tells where the link leads that stands at a path, or that none does. What processes have open is another thing for each of them.
fn learn(rt: &HostRuntime, auditor: &mut Auditor, path: &str) -> Option<()> {
    if path.as_bytes().starts_with(b"/proc/") {
        return auditor.learn(path, None).ok();
    }
    match fs::read_link(rt, path) {
        Ok(target) => auditor.learn(path, Some(target.as_str())).ok(),
        Err(_) => auditor.learn(path, None).ok(),
    }
}
