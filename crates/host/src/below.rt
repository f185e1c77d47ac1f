//! This program once more, below a tracer of it and of all that it starts.

ghost use Rattle.std.specs.Prelude.{◌≡◌, ◌++◌, IfOk, OnOk, map};
ghost use Rattle.host.specs.Below.{IsBelow, aside_words, below_words, end_words};
ghost use Rattle.host.specs.Environment.{AreWhole, ended};

use crate::environment::variables;
use crate::process::{Handed, Process};
use crate::tracing::{locale_words, push_ended, sets_locale, variables_traced};
use std::alloc::Global;
use std::convert::AsStr;
use std::io;
use std::os::unix::process::ExitStatusExt;
use std::process::ExitStatus;

/// The file into which the trace of all commands is written, in the working folder.
pub const SHARED_TRACE: &str = ".nj_trace.all";

/// The words of the tracer, each ended by a NUL: those by which one command is traced, but that the tracer stands aside, so that this program is
/// the parent, that a call is written by which a process that the C library starts is told early to have its filter, and by which signal one
/// was killed.
const WORDS: &[u8] =
    b"strace\0-D\0-f\0-y\0-xx\0-s\065536\0--seccomp-bpf\0-e\0signal=!SIGCHLD\0-e\0verbose=stat,lstat,newfstatat,statx,clone3,openat2\0-e\0trace=%file,fork,vfork,clone,clone3,execveat,fchdir,getdents,getdents64,ftruncate,connect,bind,unshare,setns,open_by_handle_at,io_uring_setup,fsmount,move_mount,rt_sigprocmask\0-o\0.nj_trace.all\0";

/// What stands between them and the program.
const END_WORDS: &[u8] = b"--\0";

/// What is run below a tracer.
#[derive(Drop)]
pub struct Below<'a> {
    /// The path of the tracer.
    pub tracer: &'a str,
    /// The path of the program.
    pub program: &'a str,
    /// The word in front of all others.
    pub first: &'a str,
}

impl<'a> Below<'a> {
    /// Runs the program with these words and the program's own variables, input and output, and answers its status, unless a signal ended it or
    /// that is not known. It fails where nothing was started, also where one of the words has a NUL.
    pub fn run<S: AsStr>(&self, alloc: Global, words: &[S]) -> io::Result<Option<i32>>
        ensures { IfOk result (λ _. AreWhole (map S.text words.now)) }
    {
        let block = variables(alloc)?;
        let words = self.words(alloc, words, sets_locale(block.as_slice()))?;
        let mut process = Process::start(&self.handed(alloc, words, block.as_slice())?)?;
        match process.wait() {
            Ok(Some(status)) => Ok(ExitStatus::from_raw(status.bits).code()),
            _ => Ok(None),
        }
    }

    /// What is handed over with these words, each ended by a NUL.
    fn handed<'b>(
        &'b self,
        alloc: Global,
        words: Vec<u8>,
        variables: &'b [u8],
    ) -> io::Result<Handed<'b>>
        ensures { IfOk result (IsBelow self.now.tracer.now words.items variables.now) }
    {
        Ok(Handed {
            program: self.tracer.as_bytes(),
            words,
            environment: variables_traced(alloc, variables, sets_locale(variables))?,
            folder: b"",
            streams: [-1; 3],
        })
    }

    /// The words of the tracer, and behind them those of the program, by whether the variables set the locale.
    fn words<S: AsStr>(&self, alloc: Global, words: &[S], is_set: bool) -> io::Result<Vec<u8>>
        ensures whole { IfOk result (λ _. AreWhole (map S.text words.now)) }
        ensures words { IfOk result (λ all. all.items ≡ below_words is_set self.now.program.now self.now.first.now (map S.text words.now)) }
    {
        let mut all = Vec::from_slice(alloc, aside_words())?;
        all.extend_from_slice(locale_words(is_set))?;
        all.extend_from_slice(end_words())?;
        push_ended(&mut all, self.program.as_bytes())?;
        push_ended(&mut all, self.first.as_bytes())?;
        push_words(&mut all, words)?;
        Ok(all)
    }
}

/// Adds these words, each with the NUL that ends it. One with a NUL cannot be handed over: `InvalidInput`.
fn push_words<S: AsStr>(all: &mut Vec<u8>, words: &[S]) -> io::Result<()>
    ensures whole { OnOk result (AreWhole (map S.text words.now)) }
    ensures pushed { OnOk result (all.new.items ≡ all.old.items ++ ended (map S.text words.now)) }
{
    for word in words {
        push_ended(all, word.as_str().as_bytes())?;
    }
    Ok(())
}

/// The words of the tracer.
fn aside_words() -> &'static [u8]
    ensures { result.now ≡ aside_words }
{
    WORDS
}

/// What stands between them and the program.
fn end_words() -> &'static [u8]
    ensures { result.now ≡ end_words }
{
    END_WORDS
}
