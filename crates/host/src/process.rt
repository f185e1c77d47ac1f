//! Processes of the system, as this program starts them and asks how they ended.

ghost use Rattle.std.specs.Prelude.{◌≡◌, ℤ, IfOk, IfSome, IsTrue};
ghost use Rattle.host.specs.Process.{IsHanded, IsOf, IsPut, block_of, status_in};

use crate::number::Number;
use crate::words::push_word;
use std::alloc::Global;
use std::io;
use std::io::ErrorKind;

/// The shell by which commands are run.
pub const SHELL: &str = "/bin/sh";

/// What the shell is told before the command: its own name, and that a command comes. Each word is ended by a NUL.
const WORDS: &[u8] = b"/bin/sh\0-c\0";

/// The descriptors that a process gets as its input, its output and its errors. Where one is negative, it gets the program's own.
pub type Streams = [i32; 3];

/// The variables that a process gets, each ended by a NUL.
#[derive(Drop)]
pub enum Variables<'a> {
    /// Those that the program has, as they are.
    Lent(&'a [u8]),
    Made(Vec<u8>),
}

impl<'a> Variables<'a> {
    fn as_slice(&self) -> &[u8]
        ensures { result.now ≡ block_of self.now }
    {
        match self {
            Variables::Lent(block) => block,
            Variables::Made(block) => block.as_slice(),
        }
    }
}

/// What is handed to the call that starts a process.
#[derive(Drop)]
pub struct Handed<'a> {
    /// The file of the program.
    pub program: &'a [u8],
    /// The words that it gets, its name first, each ended by a NUL.
    pub words: Vec<u8>,
    pub environment: Variables<'a>,
    /// The folder that it begins in; where it is empty, the program's own.
    pub folder: &'a [u8],
    pub streams: Streams,
}

/// What is handed over so that the shell runs the command. A command with a NUL cannot be handed over: `InvalidInput`.
pub fn handed_over<'a>(
    alloc: Global,
    command: &str,
    environment: &'a [u8],
    streams: Streams,
) -> io::Result<Handed<'a>>
    ensures { IfOk result (λ handed. IsHanded command.now environment.now streams handed) }
{
    let command = command.as_bytes();
    let mut words = Vec::with_capacity(alloc, command.len().saturating_add(WORDS.len() + 1))?;
    words.extend_from_slice(WORDS)?;
    push_word(&mut words, command)?;
    Ok(Handed {
        program: SHELL.as_bytes(),
        words,
        environment: Variables::Lent(environment),
        folder: b"",
        streams,
    })
}

/// How a process ended: what the wait for it put.
#[derive(Clone, Copy)]
pub struct Status {
    /// The process that the wait answered for.
    pub of: i32,
    /// 0 where it ended well.
    pub bits: i32,
}

/// What is known of a process that was started. Its number is known as long as it was not told that it has ended: then it may be another's.
#[derive(Clone, Copy)]
pub enum State {
    Runs(Number),
    Ended(Status),
    /// Somebody else was told how it ended.
    Lost,
}

/// A process that was started.
#[derive(Drop)]
pub struct Process {
    state: State,
}

impl Process {
    /// Starts a process. Where the system refuses it, none runs.
    pub fn start(handed: &Handed<'_>) -> io::Result<Process> {
        let number = Number::new(os::spawn(
            handed.program,
            handed.words.as_slice(),
            handed.environment.as_slice(),
            handed.folder,
            handed.streams,
        ));
        let Some(number) = number else {
            return Err(io::Error::from_raw_os_error(os::errno()));
        };
        Ok(Process {
            state: State::Runs(number),
        })
    }

    /// Whether it has ended.
    pub fn has_ended(&mut self) -> io::Result<bool>
        ensures number { (number : ℤ) → IsOf number self.old.state → IsOf number self.new.state }
        ensures kept { IsPut self.old.state → self.new.state ≡ self.old.state }
        ensures ended { IfOk result (λ ended. IsTrue ended → IsPut self.new.state) }
    {
        let number = match self.state {
            State::Runs(number) => number,
            State::Ended(_) => return Ok(true),
            State::Lost => return Err(io::Error::from_raw_os_error(libc::ECHILD)),
        };
        match asked(number, false) {
            Ok(Some(status)) => {
                self.state = State::Ended(status);
                Ok(true)
            }
            Ok(None) => Ok(false),
            Err(reason) => {
                if reason.raw_os_error() == Some(libc::ECHILD) {
                    self.state = State::Lost;
                }
                Err(reason)
            }
        }
    }

    /// Its number, unless it was told that it has ended.
    pub fn number(&self) -> Option<i32>
        ensures { IfSome result (λ number. IsOf number self.now.state) }
    {
        match self.state {
            State::Runs(number) => Some(number.value),
            State::Ended(_) | State::Lost => None,
        }
    }

    /// Waits until it has ended, however often a signal comes.
    pub fn wait(&mut self) -> io::Result<Option<Status>>
        ensures number { (number : ℤ) → IsOf number self.old.state → IsOf number self.new.state }
        ensures ended { IfOk result (λ status. status ≡ status_in self.new.state) }
    {
        let State::Runs(number) = self.state else {
            return Ok(self.status());
        };
        match waited(number)? {
            Some(status) => {
                self.state = State::Ended(status);
                Ok(Some(status))
            }
            None => Ok(None),
        }
    }

    /// How it ended, if it is known.
    pub fn status(&self) -> Option<Status>
        ensures { result ≡ status_in self.now.state }
    {
        match self.state {
            State::Ended(status) => Some(status),
            State::Runs(_) | State::Lost => None,
        }
    }
}

/// How the process of this number ended, once it has, however often a signal comes.
fn waited(number: Number) -> io::Result<Option<Status>>
    ensures { IfOk result (λ found. IfSome found (λ status. status.of ≡ number.value)) }
{
    for _ in 0..u64::MAX {
        match asked(number, true) {
            Ok(Some(status)) => return Ok(Some(status)),
            Ok(None) => {}
            Err(reason) if reason.kind() == ErrorKind::Interrupted => {}
            Err(reason) => return Err(reason),
        }
    }
    Ok(None)
}

/// How the process of this number ended, or nothing while it runs. Where it is to wait, it does so until then, or until a signal comes.
fn asked(number: Number, waits: bool) -> io::Result<Option<Status>>
    ensures { IfOk result (λ found. IfSome found (λ status. status.of ≡ number.value)) }
{
    let mut bits = 0;
    let options = if waits { 0 } else { libc::WNOHANG };
    let of = unsafe { libc::waitpid(number.value, &mut bits, options) };
    if of < 0 {
        return Err(io::Error::from_raw_os_error(os::errno()));
    }
    if of != number.value {
        return Ok(None);
    }
    Ok(Some(Status { of, bits }))
}
