//! The value of a name at a place (manual: "Evaluation and scoping").
#![tactic(auto)]

mod all_scopes;
mod at_use;
mod block;
mod buffer;
mod fault;
mod laws;
mod marks;
mod names;
mod order;
mod place;
mod scope;
mod template;
mod usage;

pub use all_scopes::Scopes;
pub use at_use::{expand_marked, expand_use};
pub use block::Block;
pub use fault::{DeclareFault, ExpandFault, UseFault};
pub use laws::values_are_unique;
pub use marks::{Marks, marks_at, scope_marks, use_marks};
pub use place::{as_it_stands, expand};
pub use scope::Scope;
pub use template::{Part, Rule, Template};
pub use usage::{Paths, Use};
