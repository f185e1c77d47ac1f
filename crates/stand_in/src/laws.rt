//! What follows of a run, as a law: the function says it, and does nothing.

ghost use Rattle.stand_in.specs.Laws.{RunsAreAsClaimed};

/// From faithful logs the last build of a run is as the headline says, where what generators need was built before and generators wrote
/// as others may between builds.
pub fn runs_are_as_claimed()
    ensures { RunsAreAsClaimed }
{}
