//! `-t rules`: the rules of the outermost scope.

use crate::declared::Declared;
use crate::lines::push_line;
use std::alloc::{AllocError, Global};

/// What `rules` prints: the name of each rule of the outermost scope, in the order of their bytes, with its description where that is
/// asked for.
pub fn rules(alloc: Global, declared: &Declared, described: bool) -> Result<String, AllocError> {
    let mut told = String::new(alloc);
    for rule in declared.described.outermost.as_slice() {
        match &rule.description {
            Some(text) if described => {
                push_line(&mut told, &[rule.name.as_str(), ": ", text.as_str()])?
            }
            _ => push_line(&mut told, &[rule.name.as_str()])?,
        }
    }
    Ok(told)
}
