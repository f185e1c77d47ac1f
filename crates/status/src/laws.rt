//! What holds of patterns. This function does nothing: its contract is the law.

ghost use Rattle.status.specs.Pattern.{OnePattern};

/// A text is read in one way only: what `Pattern::parse` makes of it is all that it can be.
pub fn one_pattern()
    ensures { OnePattern }
{}
