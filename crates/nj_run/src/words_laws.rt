//! What some words ask for, and why some are refused. This function does nothing: its contract is the law.

ghost use Rattle.nj_run.specs.Worked.{WorkedWords};

/// What some words ask for, and why some are refused.
pub fn worked_words()
    ensures { WorkedWords }
{}
