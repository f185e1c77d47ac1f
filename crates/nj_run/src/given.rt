//! What a command line asks for.

use std::marker::Model;

/// What a command line asks for. The texts are those of its words. Contracts see it as that of the definition.
#[derive(Debug, Drop)]
pub struct Options<'a> {
    /// The folder from which all paths are taken and in which commands run, if it is not the present one.
    pub folder: Option<&'a str>,
    /// The path of the build file.
    pub file: &'a str,
    /// How many commands may run at once; 0 is no limit.
    pub jobs: u32,
    /// After how many failed commands nothing more is started; 0 is no limit.
    pub keep: u32,
    /// Whether commands are shown in place of descriptions.
    pub verbose: bool,
    /// Whether it is only told which commands are due, and why.
    pub why: bool,
    /// Whether commands are traced, and it is told what of that which they did breaks a premise.
    pub audit: bool,
    /// The same, and each file outside of the folder is listed.
    pub audit_all: bool,
    /// What to build; nothing is what the build files say.
    pub targets: Vec<&'a str>,
}

impl<'a> Model for Options<'a> {
    ghost use Rattle.std.specs.Prelude.{map};
    ghost use Rattle.std.specs.Option.{option_map};
    ghost use Rattle.nj_run.specs.Options.{Options};

    ghost Value = { Options };

    ghost view = { λ options. record { folder = option_map (λ path. path.now) options.folder; file = options.file.now; jobs = options.jobs; keep = options.keep; verbose = options.verbose; why = options.why; audit = options.audit; audit_all = options.audit_all; targets = map (λ path. path.now) options.targets.items } };
}

impl<'a> Options<'a> {
    ghost use Rattle.std.specs.Prelude.{◌≡◌};
    ghost use Rattle.nj_run.specs.Options.{audits};

    /// Whether an audit is asked for.
    pub fn audits(&self) -> bool
        ensures { result ≡ audits self.now }
    {
        self.audit || self.audit_all
    }
}
