//! The order in which the texts of a rule are expanded, where they name each other.

ghost use Rattle.std.specs.Prelude.{◌≡◌, true, false, ◌<◌, [], IfOk, IfErr, OnOk, IsErrOf, length, MatchOption};
ghost use Rattle.scopes.specs.Use.{opened, has, IsOrderFrom, HasCircle};
ghost use Rattle.scopes.specs.Walk.{IsWalk, work};
ghost use Rattle.scopes.specs.WalkSteps.{IsReadyIn, IsNextIn, IsDoneIn, WaitsIn, AllDoneIn, IsWaitingIn, IsListed, IsUnlisted};
ghost use Rattle.scopes.specs.declared.fault.UseFault.TheVariants.{Circle, TooLarge};

use crate::fault::UseFault;
use crate::template::{Part, Template};
use crate::usage::Use;
use std::alloc::Global;
use text::Text;

/// The texts of the rule that the value of a name needs, each behind those that it names.
///
/// # Errors
/// `Circle` where some of them name each other in a circle.
pub fn order_of(alloc: Global, at: &Use<'_>, asked: &str) -> Result<Vec<Text>, UseFault>
    ensures order { IfOk result (λ order. IsOrderFrom (opened at.now) asked.now order.items) }
    ensures circle { IsErrOf result Circle → HasCircle (opened at.now) asked.now }
    ensures size { IsErrOf result TooLarge → ⊥ }
{
    let mut walk = Walk::new(alloc, at, asked)?;
    walk.finish(alloc)?;
    let Walk { order, .. } = walk;
    Ok(order)
}

/// A walk along the names of a rule's texts, with a stack of its own.
///
/// A rule has few variables, so that both lists are searched from the front.
#[derive(Drop)]
struct Walk<'a> {
    at: &'a Use<'a>,
    asked: &'a str,
    /// The texts that wait for others, each named by the one before it.
    stack: Vec<Text>,
    order: Vec<Text>,
}

impl<'a> Walk<'a> {
    /// A walk from the name that is asked for.
    fn new(alloc: Global, at: &'a Use<'a>, asked: &'a str) -> Result<Walk<'a>, UseFault>
        ensures walk { IfOk result IsWalk }
        ensures at { IfOk result (λ walk. walk.at.now ≡ at.now) }
        ensures asked { IfOk result (λ walk. walk.asked.now ≡ asked.now) }
        ensures memory { IfErr result (λ fault. fault ≡ UseFault.Memory) }
    {
        let mut stack = Vec::new(alloc);
        if at.template(asked).is_some() {
            stack.push(Text::from_str(alloc, asked)?)?;
        }
        Ok(Walk {
            at,
            asked,
            stack,
            order: Vec::new(alloc),
        })
    }

    /// Lists all texts that wait.
    fn finish(&mut self, alloc: Global) -> Result<(), UseFault>
        requires { IsWalk self.old }
        ensures walk { OnOk result (IsWalk self.new) }
        ensures at { self.new.at.now ≡ self.old.at.now }
        ensures asked { self.new.asked.now ≡ self.old.asked.now }
        ensures stack { OnOk result (self.new.stack.items ≡ []) }
        ensures circle { IsErrOf result Circle → HasCircle (opened self.old.at.now) self.old.asked.now }
        ensures size { IsErrOf result TooLarge → ⊥ }
    {
        'walk: while !self.stack.is_empty() {
            self.step(alloc)?;
        }
        Ok(())
    }

    /// Goes on to a text that the last one waits for, or lists the last one.
    fn step(&mut self, alloc: Global) -> Result<(), UseFault>
        requires walk { IsWalk self.old }
        requires some { 0 < length self.old.stack.items }
        ensures walk { OnOk result (IsWalk self.new) }
        ensures at { self.new.at.now ≡ self.old.at.now }
        ensures asked { self.new.asked.now ≡ self.old.asked.now }
        ensures nearer { OnOk result (work self.new < work self.old) }
        ensures circle { IsErrOf result Circle → HasCircle (opened self.old.at.now) self.old.asked.now }
        ensures size { IsErrOf result TooLarge → ⊥ }
    {
        match self.next() {
            Some(next) => self.enter(alloc, next),
            None => self.list(),
        }
    }

    /// The first name in the last text that stands for a text which is not listed.
    fn next(&self) -> Option<&'a Text>
        requires walk { IsWalk self.now }
        requires some { 0 < length self.now.stack.items }
        ensures { MatchOption result (IsReadyIn self.now) (λ next. IsNextIn self.now next.now) }
    {
        let name = self.stack.last()?;
        let template = self.at.template(name.as_str())?;
        self.first_unlisted(template)
    }

    /// The first name in this text that stands for a text which is not listed.
    fn first_unlisted(&self, template: &'a Template) -> Option<&'a Text>
        ensures { MatchOption result (AllDoneIn self.now template.now.parts) (λ next. IsWaitingIn self.now template.now.parts next.now) }
    {
        for part in template.parts.as_slice() {
            if let Some(next) = self.unlisted(part) {
                return Some(next);
            }
        }
        None
    }

    /// The name of this part, where it stands for a text that is not listed.
    fn unlisted(&self, part: &'a Part) -> Option<&'a Text>
        ensures { MatchOption result (IsDoneIn self.now part.now) (λ next. WaitsIn self.now part.now next.now) }
    {
        match part {
            Part::Name(name) if self.waits_for(name.as_str()) => Some(name),
            _ => None,
        }
    }

    /// Whether the name stands for a text that is not listed.
    fn waits_for(&self, name: &str) -> bool
        ensures yes { result ≡ true → IsUnlisted self.now name.now }
        ensures done { result ≡ false → IsListed self.now name.now }
    {
        self.at.template(name).is_some() && !is_among(&self.order, name)
    }

    /// Puts a text that the last one names on the stack.
    fn enter(&mut self, alloc: Global, next: &Text) -> Result<(), UseFault>
        requires walk { IsWalk self.old }
        requires next { IsNextIn self.old next.now }
        ensures walk { OnOk result (IsWalk self.new) }
        ensures at { self.new.at.now ≡ self.old.at.now }
        ensures asked { self.new.asked.now ≡ self.old.asked.now }
        ensures nearer { OnOk result (work self.new < work self.old) }
        ensures circle { IsErrOf result Circle → HasCircle (opened self.old.at.now) self.old.asked.now }
        ensures size { IsErrOf result TooLarge → ⊥ }
    {
        if is_among(&self.stack, next.as_str()) {
            return Err(UseFault::Circle);
        }
        self.stack.push(Text::from_str(alloc, next.as_str())?)?;
        Ok(())
    }

    /// Lists the last text, which waits for no other.
    fn list(&mut self) -> Result<(), UseFault>
        requires walk { IsWalk self.old }
        requires ready { IsReadyIn self.old }
        ensures walk { OnOk result (IsWalk self.new) }
        ensures at { self.new.at.now ≡ self.old.at.now }
        ensures asked { self.new.asked.now ≡ self.old.asked.now }
        ensures nearer { OnOk result (work self.new < work self.old) }
        ensures memory { IfErr result (λ fault. fault ≡ UseFault.Memory) }
    {
        if let Some(name) = self.stack.pop() {
            self.order.push(name)?;
        }
        Ok(())
    }
}

/// Whether the name is one of these.
fn is_among(names: &[Text], name: &str) -> bool
    ensures { result ≡ has names.now name.now }
{
    for other in names {
        if other.as_str() == name {
            return true;
        }
    }
    false
}
