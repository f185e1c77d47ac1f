//! How a build began, as its site is told.

ghost use Rattle.seen.specs.Begun.{Begun, plainly_begun};

use std::marker::Brand;

/// How a build began: what was known then, what had happened on the site when it was asked for and when it began, and what was told of that. Only
/// proofs know it.
pub trait Beginning {
    ghost begun: { Begun };
}

impl Beginning for Brand {
    ghost begun = { plainly_begun };
}
