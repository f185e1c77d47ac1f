//! What of that which a command did breaks a premise of the theorem.
#![tactic(auto)]

mod asked;
mod below;
mod breach;
mod finding;
mod lead;
mod place;
mod seen;
mod standing;
mod used;
mod whole;

pub use asked::unasked;
pub use breach::{Breach, breaches};
pub use finding::{Finding, findings};
pub use lead::Way;
pub use place::{Around, Lists, Place, place_of};
pub use seen::{By, Uses, canonical_at, connects, uses_of};
pub use standing::{Standing, Stands};
pub use used::Use;
pub use whole::{Whole, wholes_of, writes};
