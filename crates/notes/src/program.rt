//! The name of the program that a command runs.

ghost use Rattle.std.specs.Prelude.{◌≢◌, [], IfSome, IsTrue};
ghost use Rattle.std.specs.Str.Iter.{HasSubslice};
ghost use Rattle.text.specs.Marks.{Lacks};
ghost use Rattle.notes.specs.Program.{IsNameIn};

/// What runs other programs, by what the next words say.
const RUNNERS: &[&str] = &[
    "env", "exec", "sh", "bash", "perl", "python", "python2", "python3",
];

/// The name of the program that a command runs, which is the last part of its path: of the first word that is none of a `cd` in front, a
/// variable that is set, an option, or an interpreter. None where there is no such word.
pub fn program_name(command: &str) -> Option<&str>
    ensures { IfSome result (λ name. IsNameIn command.now name.now) }
{
    let mut is_folder = false;
    for word in command.split_whitespace() {
        let name = last_part(word);
        if is_folder {
            is_folder = false;
        } else if name == "cd" {
            is_folder = true;
        } else if is_program(name) {
            return Some(name);
        }
    }
    None
}

/// The word without quotes around it, and without the folder in front.
fn last_part(word: &str) -> &str
    ensures stands { HasSubslice word.now result.now }
    ensures last { Lacks 47 result.now }
{
    let bare = word.trim_matches('\'').trim_matches('"');
    match bare.rsplit_once('/') {
        Some((_, name)) => name,
        None => bare,
    }
}

/// Whether a word may be the name of a program that is looked for.
fn is_program(name: &str) -> bool
    ensures { IsTrue result → name.now ≢ [] }
{
    if name.is_empty() || name.starts_with('-') || name.contains('=') {
        return false;
    }
    !is_mark(name) && !is_runner(name)
}

/// Whether the shell reads it as the end of a command.
fn is_mark(word: &str) -> bool {
    matches!(word, "&&" | "||" | ";" | "|" | "&" | ":" | "(" | "{")
}

fn is_runner(name: &str) -> bool {
    for runner in RUNNERS {
        if *runner == name {
            return true;
        }
    }
    false
}
