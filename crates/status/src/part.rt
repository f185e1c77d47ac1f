//! Parts of a status pattern.

ghost use Rattle.std.specs.Prelude.{◌≡◌, ◌++◌, [], ℕ, IfSome, IfNone};
ghost use Rattle.status.specs.Pattern.{letter, spelling, BeginsWithPlaceholder};

/// What stands in a pattern for a count (manual, "Environment variables": `NINJA_STATUS`).
#[derive(Clone, Copy, Debug, PartialEq, Eq)]
pub enum Placeholder {
    /// `%s`: the commands that were started.
    Started,
    /// `%t`: the commands that have to run, those that have run among them.
    Total,
    /// `%p`: how many of a hundred have finished, in three places and with a percent sign.
    Percentage,
    /// `%r`: the commands that run.
    Running,
    /// `%u`: the commands that are still to be started.
    Unstarted,
    /// `%f`: the commands that have finished.
    Finished,
    /// `%%`: a percent sign.
    Sign,
}

/// A part of a pattern.
#[derive(Clone, Copy, Debug, PartialEq, Eq)]
pub enum Part {
    /// A byte that stands as it is.
    Plain(u8),
    /// What is shown in place of a placeholder.
    Shown(Placeholder),
}

impl Placeholder {
    /// The placeholder of a character behind a percent sign, if it has one.
    fn of_letter(byte: u8) -> Option<Placeholder>
        ensures found { IfSome result (λ placeholder. byte ≡ letter placeholder) }
        ensures none { IfNone result ((placeholder : Placeholder) → byte ≡ letter placeholder → ⊥) }
    {
        match byte {
            b's' => Some(Placeholder::Started),
            b't' => Some(Placeholder::Total),
            b'p' => Some(Placeholder::Percentage),
            b'r' => Some(Placeholder::Running),
            b'u' => Some(Placeholder::Unstarted),
            b'f' => Some(Placeholder::Finished),
            b'%' => Some(Placeholder::Sign),
            _ => None,
        }
    }

    /// The placeholder with which a text begins, if it begins with one, and what stands behind it.
    fn at_start(text: &[u8]) -> Option<(Placeholder, &[u8])>
        ensures found { IfSome result (λ first. text.now ≡ spelling (Part.Shown first.0) ++ first.1.now) }
        ensures none { IfNone result (¬ BeginsWithPlaceholder text.now) }
    {
        match text {
            [b'%', letter, after @ ..] => Some((Placeholder::of_letter(*letter)?, after)),
            _ => None,
        }
    }
}

impl Part {
    /// The first part of a pattern, and what stands behind it.
    pub(crate) fn split_first(text: &[u8]) -> Option<(Part, &[u8])>
        ensures found { IfSome result (λ first. text.now ≡ spelling first.0 ++ first.1.now) }
        ensures plain { IfSome result (λ first. (byte : ℕ) → first.0 ≡ Part.Plain byte → ¬ BeginsWithPlaceholder text.now) }
        ensures none { IfNone result (text.now ≡ []) }
    {
        if let Some((placeholder, after)) = Placeholder::at_start(text) {
            return Some((Part::Shown(placeholder), after));
        }
        let (first, after) = text.split_first()?;
        Some((Part::Plain(*first), after))
    }
}
