//! What is to go wrong on a site in memory.

ghost use Rattle.std.specs.Prelude.{◌≡◌, ◌++◌, ◌∷◌, [], OnOk, OnErr, map};
ghost use Rattle.sim.specs.Faults.{place, is_next, worse, trouble_in, trouble_from, after_call};

use std::alloc::{AllocError, Global};
use std::marker::Model;

/// The kinds of calls.
#[derive(Clone, Copy, Debug)]
pub enum Call {
    Read,
    Stat,
    Tick,
    Append,
    Replace,
    Write,
    Remove,
    MakeDirs,
    Start,
    WaitAny,
    Show,
}

/// What goes wrong in a call.
#[derive(Clone, Copy, Debug)]
pub enum Trouble {
    /// The device refuses it, and nothing changes.
    Refused,
    /// The site stops in it. An append has put so many of its bytes behind the file before.
    Stop { bytes: usize },
}

/// That something goes wrong in a call of this kind: in the next one where `left` is 1, in the one behind it where it
/// is 2, and so on; where it is 0 the call has come.
#[derive(Clone, Copy, Debug)]
pub struct Named {
    pub call: Call,
    pub left: u64,
    pub trouble: Trouble,
}

/// What is to go wrong.
#[derive(Drop)]
pub struct Faults {
    named: Vec<Named>,
}

impl Model for Faults {
    ghost use Rattle.std.specs.Prelude.{List};
    ghost use Rattle.sim.specs.declared.faults.Named.{Named};

    ghost Value = { List Named };

    ghost view = { λ faults. faults.named.items };
}

impl Faults {
    /// Nothing is to go wrong. This takes no memory.
    pub fn new(alloc: Global) -> Faults
        ensures { result ≡ [] }
    {
        Faults {
            named: Vec::new(alloc),
        }
    }

    /// Names one thing more.
    pub fn name(&mut self, named: Named) -> Result<(), AllocError>
        ensures ok { OnOk result (self.new ≡ self.old ++ named ∷ []) }
        ensures err { OnErr result (self.new ≡ self.old) }
    {
        self.named.push(named)?;
        Ok(())
    }

    /// Nothing that was named comes any more.
    pub fn forget(&mut self)
        ensures { self.new ≡ [] }
    {
        self.named.clear();
    }

    /// A call of this kind comes: what goes wrong in it.
    pub fn pass(&mut self, call: Call) -> Option<Trouble>
        ensures trouble { result ≡ trouble_in call self.old }
        ensures counted { self.new ≡ map (after_call call) self.old }
    {
        let trouble = trouble_in(&self.named, call);
        count(&mut self.named, call);
        trouble
    }
}

impl Call {
    /// A number for each kind.
    fn place(self) -> u8
        ensures { result ≡ place self }
    {
        match self {
            Call::Read => 0,
            Call::Stat => 1,
            Call::Tick => 2,
            Call::Append => 3,
            Call::Replace => 4,
            Call::Write => 5,
            Call::Remove => 6,
            Call::MakeDirs => 7,
            Call::Start => 8,
            Call::WaitAny => 9,
            Call::Show => 10,
        }
    }
}

impl Named {
    /// Whether it comes in the next call of this kind.
    fn is_next(&self, call: Call) -> bool
        ensures { result ≡ is_next call self.now }
    {
        self.call.place() == call.place() && self.left == 1
    }

    /// The same once a call of this kind has come.
    fn after_call(self, call: Call) -> Named
        ensures { result ≡ after_call call self }
    {
        if self.call.place() != call.place() {
            return self;
        }
        Named {
            left: self.left.saturating_sub(1),
            ..self
        }
    }
}

/// What goes wrong in the next call of this kind.
fn trouble_in(named: &[Named], call: Call) -> Option<Trouble>
    ensures { result ≡ trouble_in call named.now }
{
    let mut trouble = None;
    for one in named {
        if one.is_next(call) {
            trouble = Some(worse(trouble, one.trouble));
        }
    }
    trouble
}

/// Of two troubles in one call that of the device comes, and of two stops the first that was named.
fn worse(trouble: Option<Trouble>, other: Trouble) -> Trouble
    ensures { result ≡ worse trouble other }
{
    match (trouble, other) {
        (Some(Trouble::Stop { bytes }), Trouble::Stop { .. }) => Trouble::Stop { bytes },
        (None, other) => other,
        _ => Trouble::Refused,
    }
}

/// A call of this kind has come.
fn count(named: &mut Vec<Named>, call: Call)
    ensures { named.new.items ≡ map (after_call call) named.old.items }
{
    for at in 0..named.len() {
        let one = named[at];
        named[at] = one.after_call(call);
    }
}
