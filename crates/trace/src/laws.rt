//! That nothing is lost of a trace that tells something. This function does nothing: its contract is the law.

ghost use Rattle.trace.specs.Kept.{EachLineIsTold};

/// A law, which runs nothing: of a trace that tells something each line is understood, and what it tells stands among what is told.
pub fn each_line_is_told()
    ensures { EachLineIsTold }
{}
