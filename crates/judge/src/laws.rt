//! Laws of calls that ask for paths, of sums, and of what was found of commands.

ghost use Rattle.std.specs.Prelude.{Bool};
ghost use Rattle.model.specs.World.{World};
ghost use Rattle.judge.specs.Answers.{AnswersFollow};
ghost use Rattle.judge.specs.KeptDues.{DuesFollow};
ghost use Rattle.judge.specs.Lasting.{SumsFollow};
ghost use Rattle.judge.specs.Looking.{FilesStay, LooksFollow};

/// A law, which runs nothing: what calls that only look leave, none of them and one after another, and that paths which keep their files have
/// the same files behind them.
pub fn looks_follow()
    ensures follow { (tells : Bool) (a b c : World) → LooksFollow tells a b c }
    ensures stay { (tells : Bool) (old new : World) → FilesStay tells old new }
{}

/// A law, which runs nothing: sums and their marks stay right where what was seen stays, and those that last behind the end of a
/// command.
pub fn sums_follow()
    ensures { SumsFollow }
{}

/// A law, which runs nothing: what was found of commands is right where what was seen stays, and after the load of a dyndep file, of
/// edges that did not name it.
pub fn answers_follow()
    ensures { AnswersFollow }
{}

/// A law, which runs nothing: flags that are kept are right where what was seen stays and the records and the plan tell the same, where an
/// edge that is judged is noted, and after the load of a dyndep file, where that is noted which it changes.
pub fn dues_follow()
    ensures { DuesFollow }
{}
