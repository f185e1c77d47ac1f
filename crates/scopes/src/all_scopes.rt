//! Scopes: what their names say, while files are read and when all are read (manual: "Evaluation and scoping").

ghost use Rattle.std.specs.Prelude.{ℕ, ◌<◌, vec_len, slice_index};

use crate::fault::DeclareFault;
use crate::names::value_of;
use crate::scope::Scope;
use crate::template::Rule;
use std::alloc::{AllocError, Global};
use std::rc::Rc;
use text::Text;

/// All scopes, open and closed. They are numbered from 0, the outermost, in the order in which they are entered.
///
/// A scope stays when it is left, since rules are expanded when all files are read.
#[derive(Drop)]
pub struct Scopes {
    pub scopes: Vec<Scope>,
    /// The number of the scope that is open now.
    pub present: usize,
    /// The numbers of the scopes round it, the outermost first.
    pub outer: Vec<usize>,
    ghost inside: { present < vec_len scopes },
    ghost outer_inside: { (k : ℕ) → k < vec_len outer → slice_index outer.items k < vec_len scopes },
}

impl Scopes {
    ghost use Rattle.std.specs.Prelude.{◌≡◌, ◌≢◌, ◌++◌, ◌∷◌, [], codes, IfOk, IfErr, OnOk, OnErr, IsErrOf, is_some, IsTrue, false};
    ghost use Rattle.std.specs.Option.{option_copied, option_map};
    ghost use Rattle.scopes.specs.Moves.{Bind, DeclareRule, Enter, Leave, value_at, rule_at, value_at_end, rule_at_end};
    ghost use Rattle.scopes.specs.Scopes.{IsScopesOf, rule_in, Always, WentOn, AreSameScopes, HaveNoRule, IsTakenIn};
    ghost use Rattle.scopes.specs.declared.fault.DeclareFault.TheVariants.{Twice};

    /// One scope that is open, in which nothing was said.
    pub fn new(alloc: Global) -> Result<Scopes, AllocError>
        ensures { IfOk result (λ scopes. IsScopesOf scopes []) }
    {
        let mut scopes = Vec::new(alloc);
        scopes.push(Scope::new(alloc, 0))?;
        Ok(Scopes {
            scopes,
            present: 0,
            outer: Vec::new(alloc),
        })
    }

    /// Gives a variable a value, which is expanded, in the scope that is open. Where memory is refused, nothing is changed.
    pub fn bind(&mut self, alloc: Global, name: &str, value: Text) -> Result<(), AllocError>
        ensures ok { OnOk result (WentOn self.old self.new (Bind name.now value)) }
        ensures err { OnErr result (AreSameScopes self.old self.new) }
        ensures present { self.new.present ≡ self.old.present }
        ensures outer { self.new.outer ≡ self.old.outer }
    {
        let name = String::from_str(alloc, name)?;
        self.scopes[self.present].variables.insert(name, value)?;
        Ok(())
    }

    /// Declares a rule in the scope that is open. A refused call changes nothing.
    ///
    /// # Errors
    /// `Twice` where this scope itself has a rule of the name, and where the name is `phony`.
    pub fn declare_rule(
        &mut self,
        alloc: Global,
        name: &str,
        rule: Rule,
    ) -> Result<(), DeclareFault>
        ensures ok { OnOk result (WentOn self.old self.new (DeclareRule name.now rule)) }
        ensures err { OnErr result (AreSameScopes self.old self.new) }
        ensures once { OnOk result (HaveNoRule self.old name.now) }
        ensures no_phony { OnOk result (name.now ≢ codes "phony") }
        ensures twice { IsErrOf result Twice → IsTakenIn self.old name.now }
        ensures present { self.new.present ≡ self.old.present }
        ensures outer { self.new.outer ≡ self.old.outer }
    {
        if self.is_taken(name) {
            return Err(DeclareFault::Twice);
        }
        let name = String::from_str(alloc, name)?;
        let rule = Rc::new(alloc, rule)?;
        self.scopes[self.present].rules.insert(name, rule)?;
        Ok(())
    }

    /// Whether the open scope may declare no rule of this name: it has one itself, or the name is `phony`.
    pub fn is_taken(&self, name: &str) -> bool
        ensures taken { IsTrue result → IsTakenIn self.now name.now }
        ensures no_phony { result ≡ false → name.now ≢ codes "phony" }
        ensures once { result ≡ false → HaveNoRule self.now name.now }
    {
        name == "phony" || self.has_rule(name)
    }

    /// Whether the open scope itself has a rule of this name.
    fn has_rule(&self, name: &str) -> bool
        ensures { result ≡ is_some (rule_in self.now.scopes.items self.now.present name.now) }
    {
        self.scopes[self.present].rules.contains_key(name)
    }

    /// Opens a scope that sees what the open one says and changes none of it. Where memory is refused, nothing is changed.
    pub fn enter(&mut self, alloc: Global) -> Result<(), AllocError>
        ensures ok { OnOk result (WentOn self.old self.new Enter) }
        ensures err { OnErr result (AreSameScopes self.old self.new) }
        ensures outer { OnOk result (self.new.outer.items ≡ self.old.outer.items ++ self.old.present ∷ []) }
    {
        self.outer.reserve(1)?;
        self.scopes.push(Scope::new(alloc, self.present + 1))?;
        self.outer.push(self.present)?;
        self.present = self.scopes.len() - 1;
        Ok(())
    }

    /// Leaves the open scope; the one in which it was entered is open again.
    pub fn leave(&mut self)
        requires entered { 0 < vec_len self.old.outer }
        ensures left { WentOn self.old self.new Leave }
        ensures outer { self.old.outer.items ≡ self.new.outer.items ++ self.new.present ∷ [] }
    {
        if let Some(around) = self.outer.pop() {
            self.present = around;
        }
    }

    /// How many scopes there are, open and closed.
    pub fn len(&self) -> usize
        ensures { result ≡ vec_len self.now.scopes }
    {
        self.scopes.len()
    }

    /// The number of the open scope.
    pub fn present(&self) -> usize
        ensures number { result ≡ self.now.present }
        ensures within { result < vec_len self.now.scopes }
    {
        self.present
    }

    /// The value of a variable at this place, where one was bound.
    pub fn lookup(&self, name: &str) -> Option<&str>
        ensures { Always self.now (λ past. option_copied result ≡ value_at past name.now) }
    {
        self.lookup_in(self.present, name)
    }

    /// The rule of this name at this place.
    pub fn rule(&self, name: &str) -> Option<&Rc<Rule>>
        ensures { Always self.now (λ past. option_map (λ found. found.now.value) result ≡ rule_at past name.now) }
    {
        self.rule_in(self.present, name)
    }

    /// The value of a variable in a scope as it stands by now, this scope and those around it. When all files are read,
    /// it is the value that a rule sees where it is used in that scope.
    pub fn lookup_in(&self, scope: usize, name: &str) -> Option<&str>
        requires { scope < vec_len self.now.scopes }
        ensures { Always self.now (λ past. option_copied result ≡ value_at_end past scope name.now) }
    {
        let mut scopes = &self.scopes[..scope + 1];
        while let Some((inner, before)) = scopes.split_last() {
            if let Some(value) = value_of(&inner.variables, name) {
                return Some(value.as_str());
            }
            scopes = &before[..inner.around.min(before.len())];
        }
        None
    }

    /// The rule of this name in a scope as it stands by now, this scope and those around it.
    fn rule_in(&self, scope: usize, name: &str) -> Option<&Rc<Rule>>
        requires { scope < vec_len self.now.scopes }
        ensures { Always self.now (λ past. option_map (λ found. found.now.value) result ≡ rule_at_end past scope name.now) }
    {
        let mut scopes = &self.scopes[..scope + 1];
        while let Some((inner, before)) = scopes.split_last() {
            if let Some(rule) = inner.rules.get(name) {
                return Some(rule);
            }
            scopes = &before[..inner.around.min(before.len())];
        }
        None
    }
}
