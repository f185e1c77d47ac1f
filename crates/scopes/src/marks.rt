//! Which names are bound nowhere, told at a glance: a rule may use many names, and most are bound by few of all edges.

ghost use Rattle.std.specs.Prelude.{◌≡◌, ◌<◌, ℕ, suc, IfOk, false, length, vec_len, slice_get, Some};
ghost use Rattle.std.specs.Int.{bit_at};
ghost use Rattle.indexmap.specs.IndexMap.{get_by_text};
ghost use Rattle.scopes.specs.Marks.{key, IsMarked, AreMarked, AreAmong, IsOfScope, AreOfScopes, IsOfUse};

use crate::all_scopes::Scopes;
use crate::usage::Use;
use indexmap::IndexMap;
use std::alloc::{AllocError, Global};

/// A set of keys of names. Names may have one key: a name whose key is not in the set of those that are bound is bound nowhere.
#[derive(Clone, Copy, Debug)]
pub struct Marks {
    /// A bit for each key.
    pub keys: u64,
}

impl Marks {
    /// No key.
    pub(crate) const NONE: Marks = Marks { keys: 0 };

    /// These and the key of a name.
    #[inline(always)]
    pub(crate) fn with(self, name: &str) -> Marks
        ensures marked { IsMarked result name.now }
        ensures kept { AreAmong self result }
    {
        Marks {
            keys: with_bit(self.keys, key_of(name)),
        }
    }

    /// The keys of both.
    #[inline(always)]
    pub(crate) fn and(self, other: Marks) -> Marks
        ensures these { AreAmong self result }
        ensures others { AreAmong other result }
    {
        Marks {
            keys: self.keys | other.keys,
        }
    }

    /// Whether a name may be among those whose keys these are.
    #[inline(always)]
    pub fn may_have(self, name: &str) -> bool
        ensures { result ≡ false → IsMarked self name.now → ⊥ }
    {
        has_bit(self.keys, key_of(name))
    }
}

#[inline(always)]
fn with_bit(keys: u64, bit: u32) -> u64
    requires { bit < 64 }
    ensures set { bit_at result bit ≡ 1 }
    ensures kept { (k : ℕ) → bit_at keys k ≡ 1 → bit_at result k ≡ 1 }
{
    keys | (1u64 << bit)
}

#[inline(always)]
fn has_bit(keys: u64, bit: u32) -> bool
    requires { bit < 64 }
    ensures { result ≡ false → bit_at keys bit ≡ 1 → ⊥ }
{
    (keys >> bit) & 1 == 1
}

/// The key of a name.
#[inline(always)]
fn key_of(name: &str) -> u32
    ensures value { result ≡ key name.now }
    ensures low { result < 64 }
{
    match name.as_bytes() {
        [first, ..] => ((name.len() % 64) as u32 + 23 * u32::from(*first)) % 64,
        [] => 0,
    }
}

/// The keys of all names that have a value.
pub(crate) fn marks_of<V>(values: &IndexMap<String, V>) -> Marks
    ensures { AreMarked (get_by_text values.now) result }
{
    let mut marks = Marks::NONE;
    for (name, _) in values.iter() {
        marks = marks.with(name.as_str());
    }
    marks
}

/// For each scope the keys of the names that it or one around it binds, as they stand by now: to be called when all files are
/// read. It takes a time of the order of all that scopes bind.
pub fn scope_marks(alloc: Global, scopes: &Scopes) -> Result<Vec<Marks>, AllocError>
    ensures count { IfOk result (λ all. vec_len all ≡ vec_len scopes.now.scopes) }
    ensures marks { IfOk result (λ all. AreOfScopes scopes.now all.items) }
{
    let mut all = Vec::with_capacity(alloc, scopes.scopes.len())?;
    for scope in scopes.scopes.as_slice() {
        let around = marks_around(all.as_slice(), scope.around);
        all.push(around.and(marks_of(&scope.variables)))?;
    }
    Ok(all)
}

/// The marks of the scope with this number less one; none for 0.
fn marks_around(all: &[Marks], around: usize) -> Marks
    ensures { (n : ℕ) → around ≡ suc n → n < length all.now → slice_get all.now n ≡ Some result }
{
    if around == 0 || all.len() < around {
        return Marks::NONE;
    }
    all[around - 1]
}

/// The marks of a scope, among those of all.
#[inline(always)]
pub fn marks_at(scopes: &Scopes, all: &[Marks], scope: usize) -> Marks
    requires within { scope < length all.now }
    requires marks { AreOfScopes scopes.now all.now }
    ensures { IsOfScope scopes.now scope result }
{
    all[scope]
}

/// The keys of the names that are bound where a rule is used, with those of its scope.
#[inline(always)]
pub fn use_marks(scopes: &Scopes, at: &Use<'_>, scope: Marks) -> Marks
    requires { IsOfScope scopes.now at.now.scope scope }
    ensures { IsOfUse scopes.now at.now result }
{
    let of_rule = marks_of(&at.rule.variables);
    let of_block = at.block.marks();
    scope.and(of_rule).and(of_block)
}
