//! That a command has all of its lines. This function does nothing: its contract is the law.

ghost use Rattle.shares.specs.Whole.{EachShareIsWhole};

/// A law, which runs nothing: what is told of a command at a line of the second reading is all of its lines, in their order, and no others.
pub fn each_share_is_whole()
    ensures { EachShareIsWhole }
{}
