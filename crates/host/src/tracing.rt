//! What is handed over so that a command runs, and where that is asked for is traced: the words of `strace` stand before those by which the
//! shell runs it.

ghost use Rattle.std.specs.Prelude.{◌≡◌, ◌++◌, IfOk, OnOk, string_bytes};
ghost use Rattle.std.specs.Option.{option_map};
ghost use Rattle.os.specs.Paths.{HasNoNul};
ghost use Rattle.host.specs.Process.{block_of};
ghost use Rattle.host.specs.Traced.{IsHandedBy, ended, first_words, locale_words, sets_at, sets_locale, shell_words, trace_file, traced_variables, traced_words};

use crate::process::{Handed, Streams, Variables, handed_over};
use crate::words::push_word;
use std::alloc::{AllocError, Global};
use std::io;

/// Whether commands are traced, and by what: an `strace` of version 6.
#[derive(Drop)]
pub struct Tracing {
    alloc: Global,
    /// The path of the program.
    program: Option<String>,
}

/// The words before the file into which it writes, each ended by a NUL: processes that are started are followed, descriptors come with
/// their paths, and names in hexadecimal digits, so that none needs quoting.
const WORDS: &[u8] =
    b"strace\0-f\0-y\0-xx\0-s\065536\0--seccomp-bpf\0-e\0signal=none\0-e\0verbose=stat,lstat,newfstatat,statx,clone3,openat2\0-e\0trace=%file,fork,vfork,clone,clone3,execveat,fchdir,getdents,getdents64,ftruncate,connect,bind,unshare,setns,open_by_handle_at,io_uring_setup,fsmount,move_mount\0-o\0";

/// The name of the variable that sets a locale whatever others say.
const LOCALE: &[u8] = b"LC_ALL";

/// With it the tracer reads no files of a locale, which takes it a twentieth of its time where the command is cheap.
const OWN_LOCALE: &[u8] = b"LC_ALL=C\0";

/// The words by which it takes that out of what the command gets, whose other variables stay as they are, in their order.
const LOCALE_WORDS: &[u8] = b"-E\0LC_ALL\0";

/// The words between these and the command.
const SHELL_WORDS: &[u8] = b"--\0/bin/sh\0-c\0";

impl Tracing {
    /// They are not traced. This takes no memory.
    pub fn none(alloc: Global) -> Tracing {
        Tracing {
            alloc,
            program: None,
        }
    }

    /// They are traced by this program.
    pub fn by(alloc: Global, program: String) -> Tracing {
        Tracing {
            alloc,
            program: Some(program),
        }
    }

    /// What is handed over so that the shell runs the command of a job, traced or not. A command with a NUL cannot be handed over:
    /// `InvalidInput`.
    pub fn hand_over<'a>(
        &'a self,
        job: usize,
        command: &str,
        environment: &'a [u8],
        streams: Streams,
    ) -> io::Result<Handed<'a>>
        ensures { IfOk result (IsHandedBy (option_map string_bytes self.now.program) job command.now environment.now streams) }
    {
        match &self.program {
            Some(program) => {
                let is_set = sets_locale(environment);
                Ok(Handed {
                    program: program.as_bytes(),
                    words: words_traced(self.alloc, job, command, is_set)?,
                    environment: variables_traced(self.alloc, environment, is_set)?,
                    folder: b"",
                    streams,
                })
            }
            None => handed_over(self.alloc, command, environment, streams),
        }
    }
}

/// Whether one of the variables sets the locale whatever others say, or has a name that begins like that one's. Of order of their bytes.
pub fn sets_locale(variables: &[u8]) -> bool
    ensures { result ≡ sets_locale variables.now }
{
    if sets_at(variables) {
        return true;
    }
    let mut rest = variables;
    while let Some((byte, behind)) = rest.split_first() {
        if *byte == 0 && sets_at(behind) {
            return true;
        }
        rest = behind;
    }
    false
}

/// Whether the first of the variables does.
fn sets_at(variables: &[u8]) -> bool
    ensures { result ≡ sets_at variables.now }
{
    variables.starts_with(LOCALE)
}

/// The variables that the tracer gets, by whether those of the command set the locale.
pub fn variables_traced<'a>(
    alloc: Global,
    variables: &'a [u8],
    is_set: bool,
) -> io::Result<Variables<'a>>
    ensures { IfOk result (λ traced. block_of traced ≡ traced_variables is_set variables.now) }
{
    if is_set {
        return Ok(Variables::Lent(variables));
    }
    let mut block = Vec::with_capacity(alloc, OWN_LOCALE.len().saturating_add(variables.len()))?;
    block.extend_from_slice(OWN_LOCALE)?;
    block.extend_from_slice(variables)?;
    Ok(Variables::Made(block))
}

/// The words by which a command is traced, by whether its variables set the locale.
fn words_traced(alloc: Global, job: usize, command: &str, is_set: bool) -> io::Result<Vec<u8>>
    ensures whole { IfOk result (λ _. HasNoNul command.now) }
    ensures words { IfOk result (λ words. words.items ≡ traced_words is_set job command.now) }
{
    let file = trace_file(alloc, job)?;
    let mut words = Vec::from_slice(alloc, first_words())?;
    push_ended(&mut words, file.as_bytes())?;
    words.extend_from_slice(locale_words(is_set))?;
    words.extend_from_slice(shell_words())?;
    push_ended(&mut words, command.as_bytes())?;
    Ok(words)
}

/// Adds a word with the NUL that ends it. One with a NUL cannot be handed over: `InvalidInput`.
pub fn push_ended(words: &mut Vec<u8>, word: &[u8]) -> io::Result<()>
    ensures whole { OnOk result (HasNoNul word.now) }
    ensures pushed { OnOk result (words.new.items ≡ words.old.items ++ ended word.now) }
{
    push_word(words, word)?;
    Ok(())
}

/// The words before the file into which it writes.
fn first_words() -> &'static [u8]
    ensures { result.now ≡ first_words }
{
    WORDS
}

/// The words that have the tracer take its own locale out of what the command gets.
pub fn locale_words(is_set: bool) -> &'static [u8]
    ensures { result.now ≡ locale_words is_set }
{
    if is_set { b"" } else { LOCALE_WORDS }
}

/// The words between these and the command.
fn shell_words() -> &'static [u8]
    ensures { result.now ≡ shell_words }
{
    SHELL_WORDS
}

/// The file into which the trace of a job is written.
pub fn trace_file(alloc: Global, job: usize) -> Result<String, AllocError>
    ensures { IfOk result (λ file. string_bytes file ≡ trace_file job) }
{
    format!(in alloc; ".nj_trace.{job}")
}
