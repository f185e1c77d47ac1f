//! The maps of one scope.

use crate::template::Rule;
use indexmap::IndexMap;
use std::alloc::Global;
use std::rc::Rc;
use text::Text;

/// What was bound and declared in one scope so far.
#[derive(Drop)]
pub struct Scope {
    pub variables: IndexMap<String, Text>,
    pub rules: IndexMap<String, Rc<Rule>>,
    /// The number of the scope in which it was entered, plus one; 0 for the outermost.
    pub around: usize,
}

impl Scope {
    ghost use Rattle.scopes.specs.Maps.{IsNewScope};

    /// A scope in which nothing was said, which takes no memory.
    pub fn new(alloc: Global, around: usize) -> Scope
        ensures { IsNewScope result around }
    {
        Scope {
            variables: IndexMap::new(alloc),
            rules: IndexMap::new(alloc),
            around,
        }
    }
}
