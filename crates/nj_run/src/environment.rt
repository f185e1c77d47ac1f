//! What the environment asks for.

/// What the environment of a run asks for, beside its words.
#[derive(Clone, Copy)]
pub struct Environment<'a> {
    /// What stands in front of each line that a build shows, by `NINJA_STATUS`; the default where that is not set.
    pub pattern: Option<&'a str>,
    /// Whether stamps are trusted as every ninja does, by `NJ_TRUST_STAMPS`: nothing is noted of files, and what is noted counts for nothing.
    pub trusts_stamps: bool,
    /// Whether the folder that words ask for has been gone to.
    pub is_in_folder: bool,
    /// Whether the program runs below one tracer of all that it starts.
    pub is_below: bool,
}
