//! Small steps from one place in a text to another.

ghost use Rattle.std.specs.Prelude.{◌≡◌, ◌≤◌, ◌<◌, length, IfSome};
ghost use Rattle.lexer.specs.Characters.{run_of, behind_run};
ghost use Rattle.lexer.specs.Places.{IsBehind, rest_of};
ghost use Rattle.lexer.specs.Tokens.{behind, newline, join};
ghost use Rattle.lexer.specs.Values.{AreBlanks};

use crate::characters::{Class, split_run, strip_one};
use crate::cursor::{Cursor, LIMIT};
use crate::fault::{Fault, FaultKind};
use crate::stop::Stop;

impl<'a> Cursor<'a> {
    /// The beginning of a text.
    pub fn start(text: &'a str) -> Cursor<'a>
        requires { length text.now ≤ LIMIT }
        ensures rest { result.rest.now ≡ text.now }
        ensures line { result.line ≡ 1 }
    {
        Cursor {
            rest: text,
            line: 1,
        }
    }

    /// A fault in this line.
    pub fn fault(self, kind: FaultKind) -> Stop
        ensures { result ≡ Stop.Found (record { line = self.entry.line; kind = kind }) }
    {
        Stop::Found(Fault {
            line: self.line,
            kind,
        })
    }

    /// The place behind this ASCII character, where it is the next.
    pub fn strip_one(self, wanted: u8) -> Option<Cursor<'a>>
        requires { wanted < 128 }
        ensures rest { rest_of result ≡ behind wanted self.entry.rest.now }
        ensures behind { IfSome result (IsBehind self.entry) }
        ensures shorter { IfSome result (λ after. length after.rest.now < length self.entry.rest.now) }
    {
        let rest = strip_one(self.rest, wanted)?;
        let line = self.line + usize::from(wanted == b'\n');
        Some(Cursor { rest, line })
    }

    /// The place behind LF or CR LF, where one of them stands here.
    #[tactic(auto, using(crate::proofs::Places::placing))]
    pub fn strip_newline(self) -> Option<Cursor<'a>>
        ensures rest { rest_of result ≡ newline self.entry.rest.now }
        ensures behind { IfSome result (IsBehind self.entry) }
        ensures shorter { IfSome result (λ after. length after.rest.now < length self.entry.rest.now) }
    {
        if let Some(after) = self.strip_one(b'\n') {
            return Some(after);
        }
        let after = self.strip_one(b'\r')?;
        after.strip_one(b'\n')
    }

    /// The place behind a dollar and a newline, where they stand here.
    #[tactic(auto, using(crate::proofs::Places::placing))]
    pub fn strip_join(self) -> Option<Cursor<'a>>
        ensures rest { rest_of result ≡ join self.entry.rest.now }
        ensures behind { IfSome result (IsBehind self.entry) }
        ensures shorter { IfSome result (λ after. length after.rest.now < length self.entry.rest.now) }
    {
        let after = self.strip_one(b'$')?;
        after.strip_newline()
    }

    /// The longest front of the class, and the place behind it.
    pub fn split_run(self, class: Class) -> (&'a str, Cursor<'a>)
        ensures run { result.0.now ≡ run_of class self.entry.rest.now }
        ensures rest { result.1.rest.now ≡ behind_run class self.entry.rest.now }
        ensures behind { IsBehind self.entry result.1 }
    {
        let (run, rest) = split_run(self.rest, class);
        let line = self.line;
        (run, Cursor { rest, line })
    }

    /// The place behind the spaces, of which there may be none.
    pub fn skip_spaces(self) -> Cursor<'a>
        ensures rest { result.rest.now ≡ behind_run Class.Space self.entry.rest.now }
        ensures behind { IsBehind self.entry result }
    {
        let (_, after) = self.split_run(Class::Space);
        after
    }

    /// The place behind the spaces and the joined lines' ends, of which there may be none.
    #[tactic(auto, using(crate::proofs::Places::placing))]
    pub fn skip_blanks(self) -> Cursor<'a>
        ensures blanks { AreBlanks self.entry.rest.now result.rest.now }
        ensures behind { IsBehind self.entry result }
    {
        let mut at = self;
        'joins: while let Some(next) = at.skip_spaces().strip_join() {
            at = next;
        }
        at.skip_spaces()
    }
}
