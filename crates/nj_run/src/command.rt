//! What the words of a command line ask for.

ghost use Rattle.std.specs.Prelude.{◌≡◌, [], IfOk, IfErr, true, false, map};
ghost use Rattle.clap.specs.Words.{HasKind, app_of, fault_of, found_of, kind_of, one_of, rows_of, rule_of, takes};
ghost use Rattle.nj_run.specs.Options.{AreAsked, AreGiven, IsNumber, bare, nj, folder_rule, file_rule, jobs_rule, keep_rule, verbose_rule, why_rule, audit_rule, audit_all_rule, targets_rule};

use crate::given::Options;
use clap::error::ErrorKind;
use clap::{Arg, ArgAction, ArgMatches, Command, Error, value_parser};
use std::alloc::{AllocError, Global};
use std::convert::AsStr;

const FILE: &str = "build.ninja";

const JOBS: u32 = 4;

const KEEP: u32 = 1;

/// What help says behind the options. Its last line is the one place that tells the version.
const EXAMPLES: &str = "Examples:
  nj                   builds the default targets of build.ninja
  nj -C out -j8 all    builds `all` by out/build.ninja, with eight commands at once
  nj -k0 -v            goes on after failures, and shows commands
  nj --why all         tells why commands are due of `all`, and starts nothing

The logs of a build, .nj_log and .nj_deps, stand in the folder that the build file sets as
`builddir`, else where commands run. NINJA_STATUS sets what stands in front of each
line, as in '[%f/%t] '. The status is 0 after a success, 1 where a build failed or could not
be done, and 2 where these words are no command line.

nj 0.1 reads build files up to ninja_required_version 1.12, and its own logs up to version 2.";

/// What these words ask for, where clap finds no fault in them. The program's name is not among them. An error prints as the text to show: help where it
/// was asked for, and else what is wrong with the words, or that memory was refused.
pub fn options<'a, S: AsStr>(alloc: Global, words: &'a [S]) -> Result<Options<'a>, Error>
    ensures ok { IfOk result (AreAsked (map S.text words.entry.now)) }
    ensures faultless { IfOk result (λ _. fault_of nj (map S.text words.entry.now) ≡ []) }
    ensures fault { IfErr result (HasKind (fault_of nj (map S.text words.entry.now))) }
    ensures err { IfErr result (λ error. takes nj (map S.text words.entry.now) ≡ true → kind_of error ≡ ErrorKind.OutOfMemory) }
{
    let matches = command(alloc)?.try_get_matches_from(words)?;
    Ok(given(alloc, &matches)?)
}

/// What the matches of the words give, else the defaults.
fn given<'a>(alloc: Global, matches: &ArgMatches<'a>) -> Result<Options<'a>, AllocError>
    ensures { IfOk result (AreGiven (rows_of (found_of matches.now))) }
{
    Ok(Options {
        folder: matches.get_str("folder"),
        file: matches.get_str("file").unwrap_or(FILE),
        jobs: number(matches, "jobs", JOBS),
        keep: number(matches, "keep", KEEP),
        verbose: matches.get_flag("verbose"),
        why: matches.get_flag("why"),
        audit: matches.get_flag("audit"),
        audit_all: matches.get_flag("audit_all"),
        targets: Vec::from_slice(alloc, matches.get_strs("targets").unwrap_or(&[]))?,
    })
}

/// The number of an option, else the default.
fn number(matches: &ArgMatches<'_>, id: &str, default: u32) -> u32
    ensures { IsNumber (one_of id.now (rows_of (found_of matches.now))) default result }
{
    matches.get_one::<u32>(id).unwrap_or(default)
}

/// The command line: its options, and what help says of them.
fn command<'a>(alloc: Global) -> Result<Command<'a>, AllocError>
    ensures { IfOk result (λ command. app_of command ≡ nj) }
{
    let command = bare(alloc)
        .arg(folder(alloc))?
        .arg(file(alloc))?
        .arg(jobs(alloc))?
        .arg(keep(alloc))?
        .arg(verbose(alloc))?
        .arg(why(alloc))?
        .arg(audit(alloc))?
        .arg(audit_all(alloc))?
        .arg(targets(alloc))?;
    Ok(command)
}

/// The command without its options. Of an option that is given twice the last counts.
fn bare<'a>(alloc: Global) -> Command<'a>
    ensures { app_of result ≡ bare }
{
    Command::new(alloc, "nj")
        .about(
            "Builds what build.ninja describes: runs the commands that are out of date, side by side.",
        )
        .after_help(EXAMPLES)
        .no_binary_name(true)
        .args_override_self(true)
}

fn folder<'a>(alloc: Global) -> Arg<'a>
    ensures rule { rule_of result ≡ folder_rule }
    ensures local { result.global ≡ false }
{
    Arg::new(alloc, "folder")
        .short('C')
        .value_name("DIR")
        .help("Takes all paths from DIR, and runs commands there")
}

fn file<'a>(alloc: Global) -> Arg<'a>
    ensures rule { rule_of result ≡ file_rule }
    ensures local { result.global ≡ false }
{
    Arg::new(alloc, "file")
        .short('f')
        .value_name("FILE")
        .help("The build file [default: build.ninja]")
}

fn jobs<'a>(alloc: Global) -> Arg<'a>
    ensures rule { rule_of result ≡ jobs_rule }
    ensures local { result.global ≡ false }
{
    Arg::new(alloc, "jobs")
        .short('j')
        .value_name("N")
        .value_parser(value_parser!(u32))
        .help("How many commands run at once, 0 for no limit [default: 4]")
}

fn keep<'a>(alloc: Global) -> Arg<'a>
    ensures rule { rule_of result ≡ keep_rule }
    ensures local { result.global ≡ false }
{
    Arg::new(alloc, "keep")
        .short('k')
        .value_name("N")
        .value_parser(value_parser!(u32))
        .help("Starts nothing more after N failures, 0 for no limit [default: 1]")
}

fn verbose<'a>(alloc: Global) -> Arg<'a>
    ensures rule { rule_of result ≡ verbose_rule }
    ensures local { result.global ≡ false }
{
    Arg::new(alloc, "verbose")
        .short('v')
        .action(ArgAction::SetTrue)
        .help("Shows commands in place of descriptions")
}

fn why<'a>(alloc: Global) -> Arg<'a>
    ensures rule { rule_of result ≡ why_rule }
    ensures local { result.global ≡ false }
{
    Arg::new(alloc, "why")
        .long("why")
        .action(ArgAction::SetTrue)
        .help("Tells which commands are due, and why; starts and writes nothing")
}

fn audit<'a>(alloc: Global) -> Arg<'a>
    ensures rule { rule_of result ≡ audit_rule }
    ensures local { result.global ≡ false }
{
    Arg::new(alloc, "audit")
        .long("audit")
        .action(ArgAction::SetTrue)
        .help("Traces commands, and tells what of that which they did breaks a premise")
}

fn audit_all<'a>(alloc: Global) -> Arg<'a>
    ensures rule { rule_of result ≡ audit_all_rule }
    ensures local { result.global ≡ false }
{
    Arg::new(alloc, "audit_all")
        .long("audit-all")
        .action(ArgAction::SetTrue)
        .help("The same, and lists each file outside of the folder")
}

fn targets<'a>(alloc: Global) -> Arg<'a>
    ensures rule { rule_of result ≡ targets_rule }
    ensures local { result.global ≡ false }
{
    Arg::new(alloc, "targets")
        .value_name("TARGET")
        .num_args(0..)
        .help("What to build [default: what the build file says]")
}
