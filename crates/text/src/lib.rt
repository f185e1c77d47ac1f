//! Texts, paths, bytes and lists, as contracts see them.
#![tactic(auto)]

mod bytes;
mod items;
mod marks;
mod path;
mod shared;
mod takes;
mod text;

pub use bytes::Bytes;
pub use items::Items;
pub use marks::{behind, cut};
pub use path::Path;
pub use shared::{Front, SharedText};
pub use takes::Takes;
pub use text::Text;

#[cfg(test)]
mod tests;
