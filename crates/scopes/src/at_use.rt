//! Rule variables, expanded where their rule is used (manual: "Rules", "Evaluation and scoping").

ghost use Rattle.std.specs.Prelude.{◌≡◌, ◌<◌, ◌≤◌, ℕ, None, Ok, List, [], OnOk, IfOk, IfSome, IsErrOf, IsTrue, false, length, unwrap_or, vec_len};
ghost use Rattle.std.specs.Option.{option_copied};
ghost use Rattle.indexmap.specs.IndexMap.{get_by_text};
ghost use Rattle.scopes.specs.Texts.{largest_value};
ghost use Rattle.scopes.specs.Growing.{KeepsToSize};
ghost use Rattle.scopes.specs.Moves.{value_at_end};
ghost use Rattle.scopes.specs.Scopes.{Always};
ghost use Rattle.scopes.specs.Use.{opened, rule_text, is_special, paths_for, HasCircle};
ghost use Rattle.scopes.specs.Steps.{AllDone, IsDone};
ghost use Rattle.scopes.specs.Large.{IsValueIn, IsTooLargeIn};
ghost use Rattle.scopes.specs.Marks.{IsOfUse};
ghost use Rattle.scopes.specs.Knowing.{IsKnownValue, IsLargeValue, IsOtherValue, IsTextOf, IsTextAt, IsLargeText, IsLargeTextAt, LearnsText};
ghost use Rattle.scopes.specs.Knowing.{AddsName, AddsPart, AddsParts, IsTooMuchName, IsTooMuchPart, AreTooMuch};
ghost use Rattle.scopes.specs.declared.fault.ExpandFault.TheVariants.{TooLarge as Larger};
ghost use Rattle.scopes.specs.declared.fault.UseFault.TheVariants.{Circle, TooLarge};

use crate::all_scopes::Scopes;
use crate::buffer::{LARGEST_VALUE, append, append_joined};
use crate::fault::{ExpandFault, UseFault};
use crate::marks::Marks;
use crate::order::order_of;
use crate::template::{Part, Template};
use crate::usage::{Paths, Use, begins_as_special};
use indexmap::IndexMap;
use std::alloc::Global;
use text::Text;

/// The value of a name where a rule is used, with the scope of the build statement as it stands by now: to be called when
/// all files are read.
///
/// Each text of the rule is expanded once, however often it is named, and no text on the way is kept that is too large.
/// Texts are put together in `room`, which is only lent: what stood there is lost.
///
/// # Errors
/// `Circle` where texts of the rule name each other in a circle on the way, else `TooLarge` where the value has more than
/// 16 MiB.
pub fn expand_use(
    alloc: Global,
    scopes: &Scopes,
    at: &Use<'_>,
    asked: &str,
    room: &mut String,
) -> Result<Text, UseFault>
    requires { at.now.scope < vec_len scopes.now.scopes }
    ensures value { IfOk result (λ text. IsValueIn scopes.now at.now asked.now text) }
    ensures size { IfOk result (λ text. length text ≤ largest_value) }
    ensures circle { IsErrOf result Circle → HasCircle (opened at.now) asked.now }
    ensures large { IsErrOf result TooLarge → IsTooLargeIn scopes.now at.now asked.now }
{
    if begins_as_special(asked) {
        return expand_in_order(alloc, scopes, at, asked, room);
    }
    if let Some(value) = at.block.get(asked) {
        return Ok(copied(alloc, value.as_str())?);
    }
    let Some(template) = at.rule.get(asked) else {
        let value = in_scope(scopes, at.scope, asked);
        return Ok(copied(alloc, value)?);
    };
    room.clear();
    let known = Known::new(alloc, scopes, at, asked);
    if known.append_alone(room, template.parts.as_slice())? {
        return Ok(Text::from_str(alloc, room.as_str())?);
    }
    expand_in_order(alloc, scopes, at, asked, room)
}

/// The same, where these are the keys of the names that are bound where the rule is used: a name that is bound nowhere is not
/// looked for.
///
/// # Errors
/// As `expand_use`.
#[inline(always)]
pub fn expand_marked(
    alloc: Global,
    scopes: &Scopes,
    at: &Use<'_>,
    asked: &str,
    marks: Marks,
    room: &mut String,
) -> Result<Text, UseFault>
    requires scope { at.now.scope < vec_len scopes.now.scopes }
    requires marks { IsOfUse scopes.now at.now marks }
    ensures value { IfOk result (λ text. IsValueIn scopes.now at.now asked.now text) }
    ensures size { IfOk result (λ text. length text ≤ largest_value) }
    ensures circle { IsErrOf result Circle → HasCircle (opened at.now) asked.now }
    ensures large { IsErrOf result TooLarge → IsTooLargeIn scopes.now at.now asked.now }
{
    if marks.may_have(asked) || begins_as_special(asked) {
        return expand_use(alloc, scopes, at, asked, room);
    }
    Ok(Text::new(alloc))
}

/// The same as `expand_use`, where the rule's text may name others of its texts, which are expanded first.
fn expand_in_order(
    alloc: Global,
    scopes: &Scopes,
    at: &Use<'_>,
    asked: &str,
    room: &mut String,
) -> Result<Text, UseFault>
    requires { at.now.scope < vec_len scopes.now.scopes }
    ensures value { IfOk result (λ text. IsValueIn scopes.now at.now asked.now text) }
    ensures size { IfOk result (λ text. length text ≤ largest_value) }
    ensures circle { IsErrOf result Circle → HasCircle (opened at.now) asked.now }
    ensures large { IsErrOf result TooLarge → IsTooLargeIn scopes.now at.now asked.now }
{
    let order = order_of(alloc, at, asked)?;
    let mut known = Known::new(alloc, scopes, at, asked);
    for name in order.as_slice() {
        let name = name.as_str();
        if name == asked {
            return Ok(known.expand(alloc, asked, room)?);
        }
        known.learn(alloc, name, room)?;
    }
    Ok(known.of_name(alloc, asked)?)
}

/// What a name stands for in a scope, where neither a block nor a rule binds it.
fn in_scope<'a>(scopes: &'a Scopes, scope: usize, name: &str) -> &'a str
    requires { scope < vec_len scopes.now.scopes }
    ensures { Always scopes.now (λ past. result.now ≡ unwrap_or (value_at_end past scope name.now) []) }
{
    match scopes.lookup_in(scope, name) {
        Some(value) => value,
        None => "",
    }
}

/// A value with these characters.
fn copied(alloc: Global, characters: &str) -> Result<Text, ExpandFault>
    ensures value { IfOk result (λ text. text ≡ characters.now) }
    ensures size { IfOk result (λ text. length text ≤ largest_value) }
    ensures large { IsErrOf result Larger → largest_value < length characters.now }
{
    if characters.is_empty() {
        return Ok(Text::new(alloc));
    }
    if characters.len() > LARGEST_VALUE {
        return Err(ExpandFault::TooLarge);
    }
    Ok(Text::from_str(alloc, characters)?)
}

/// Whether the characters were appended, and not too many.
#[inline(always)]
fn fits(appended: Result<(), ExpandFault>) -> Result<bool, ExpandFault>
    ensures fits { IfOk result (λ fits. IsTrue fits → appended ≡ Ok tt) }
    ensures memory { IsErrOf result Larger → ⊥ }
{
    match appended {
        Ok(()) => Ok(true),
        Err(ExpandFault::TooLarge) => Ok(false),
        Err(ExpandFault::Memory) => Err(ExpandFault::Memory),
    }
}

/// The values of the rule's texts that are known so far.
#[derive(Drop)]
struct Known<'a> {
    scopes: &'a Scopes,
    at: &'a Use<'a>,
    /// What `$in` and `$out` stand for.
    paths: Paths<'a>,
    values: IndexMap<String, Text>,
}

impl<'a> Known<'a> {
    fn new(alloc: Global, scopes: &'a Scopes, at: &'a Use<'a>, asked: &str) -> Known<'a>
        ensures scopes { result.scopes.now ≡ scopes.now }
        ensures at { result.at.now ≡ at.now }
        ensures paths { result.paths ≡ paths_for at.now asked.now }
        ensures none { (name : List ℕ) → get_by_text result.values name ≡ None }
    {
        Known {
            scopes,
            at,
            paths: at.paths_for(asked),
            values: IndexMap::new(alloc),
        }
    }

    /// Expands the text of the rule that this name stands for, and keeps its value.
    fn learn(&mut self, alloc: Global, name: &str, room: &mut String) -> Result<(), UseFault>
        requires { self.old.at.now.scope < vec_len self.old.scopes.now.scopes }
        ensures scopes { self.new.scopes ≡ self.old.scopes }
        ensures at { self.new.at ≡ self.old.at }
        ensures paths { self.new.paths ≡ self.old.paths }
        ensures value { OnOk result (LearnsText self.old self.new name.now) }
        ensures large { IsErrOf result TooLarge → IsLargeTextAt self.old name.now }
        ensures no_circle { IsErrOf result Circle → ⊥ }
    {
        let value = self.expand(alloc, name, room)?;
        self.values.insert(String::from_str(alloc, name)?, value)?;
        Ok(())
    }

    /// The text of the rule that this name stands for, expanded.
    fn expand(&self, alloc: Global, name: &str, room: &mut String) -> Result<Text, ExpandFault>
        requires { self.now.at.now.scope < vec_len self.now.scopes.now.scopes }
        ensures value { IfOk result (λ text. IsTextAt self.now name.now text) }
        ensures size { IfOk result (λ text. length text ≤ largest_value) }
        ensures large { IsErrOf result Larger → IsLargeTextAt self.now name.now }
    {
        match self.at.template(name) {
            Some(template) => self.of_template(alloc, template, room),
            None => Ok(Text::new(alloc)),
        }
    }

    /// The text, expanded.
    fn of_template(
        &self,
        alloc: Global,
        template: &Template,
        room: &mut String,
    ) -> Result<Text, ExpandFault>
        requires { self.now.at.now.scope < vec_len self.now.scopes.now.scopes }
        ensures value { IfOk result (λ text. IsTextOf self.now template.now text) }
        ensures size { IfOk result (λ text. length text ≤ largest_value) }
        ensures large { IsErrOf result Larger → IsLargeText self.now template.now }
    {
        room.clear();
        self.append_parts(room, template.parts.as_slice())?;
        Ok(Text::from_str(alloc, room.as_str())?)
    }

    /// What a name stands for, as a value of its own.
    fn of_name(&self, alloc: Global, name: &str) -> Result<Text, ExpandFault>
        requires { self.now.at.now.scope < vec_len self.now.scopes.now.scopes }
        ensures value { IfOk result (λ text. IsKnownValue self.now name.now text) }
        ensures size { IfOk result (λ text. length text ≤ largest_value) }
        ensures large { IsErrOf result Larger → IsLargeValue self.now name.now }
    {
        let mut text = String::new(alloc);
        self.append_name(&mut text, name)?;
        Ok(Text::from_string(text))
    }

    /// Puts the parts at the end, unless one of them names a text of the rule, as few do, or the text becomes too large.
    fn append_alone(&self, text: &mut String, parts: &[Part]) -> Result<bool, ExpandFault>
        requires scope { self.now.at.now.scope < vec_len self.now.scopes.now.scopes }
        requires none { (name : List ℕ) → get_by_text self.now.values name ≡ None }
        ensures alone { IfOk result (λ alone. IsTrue alone → AllDone (opened self.now.at.now) [] parts.now) }
        ensures value { IfOk result (λ alone. IsTrue alone → AddsParts self.now text.old text.new parts.now) }
        ensures size { KeepsToSize text.old text.new }
        ensures memory { IsErrOf result Larger → ⊥ }
    {
        for part in parts {
            if !self.append_part_alone(text, part)? {
                return Ok(false);
            }
        }
        Ok(true)
    }

    fn append_part_alone(&self, text: &mut String, part: &Part) -> Result<bool, ExpandFault>
        requires scope { self.now.at.now.scope < vec_len self.now.scopes.now.scopes }
        requires none { (name : List ℕ) → get_by_text self.now.values name ≡ None }
        ensures alone { IfOk result (λ alone. IsTrue alone → IsDone (opened self.now.at.now) [] part.now) }
        ensures value { IfOk result (λ alone. IsTrue alone → AddsPart self.now text.old text.new part.now) }
        ensures size { KeepsToSize text.old text.new }
        ensures memory { IsErrOf result Larger → ⊥ }
    {
        match part {
            Part::Text(characters) => fits(append(text, characters.as_str())),
            Part::Name(name) => self.append_name_alone(text, name.as_str()),
        }
    }

    fn append_name_alone(&self, text: &mut String, name: &str) -> Result<bool, ExpandFault>
        requires scope { self.now.at.now.scope < vec_len self.now.scopes.now.scopes }
        requires none { (name : List ℕ) → get_by_text self.now.values name ≡ None }
        ensures alone { IfOk result (λ alone. IsTrue alone → opened self.now.at.now name.now ≡ None) }
        ensures value { IfOk result (λ alone. IsTrue alone → AddsName self.now text.old text.new name.now) }
        ensures size { KeepsToSize text.old text.new }
        ensures memory { IsErrOf result Larger → ⊥ }
    {
        if !begins_as_special(name) {
            return self.append_bound(text, name);
        }
        match name {
            "in" => fits(append_joined(text, " ", self.paths.inputs)),
            "out" => fits(append_joined(text, " ", self.paths.outputs)),
            "in_newline" => fits(append_joined(text, "\n", self.paths.inputs)),
            _ => self.append_bound(text, name),
        }
    }

    /// The same of a name that stands for no paths.
    #[inline(always)]
    fn append_bound(&self, text: &mut String, name: &str) -> Result<bool, ExpandFault>
        requires scope { self.now.at.now.scope < vec_len self.now.scopes.now.scopes }
        requires none { (name : List ℕ) → get_by_text self.now.values name ≡ None }
        requires plain { is_special name.now ≡ false }
        ensures alone { IfOk result (λ alone. IsTrue alone → opened self.now.at.now name.now ≡ None) }
        ensures value { IfOk result (λ alone. IsTrue alone → AddsName self.now text.old text.new name.now) }
        ensures size { KeepsToSize text.old text.new }
        ensures memory { IsErrOf result Larger → ⊥ }
    {
        match self.bound(name) {
            Some(value) => fits(append(text, value)),
            None => Ok(false),
        }
    }

    /// What a name stands for that stands for no paths, unless that is a text of the rule.
    #[inline(always)]
    fn bound(&self, name: &str) -> Option<&str>
        requires scope { self.now.at.now.scope < vec_len self.now.scopes.now.scopes }
        requires none { (name : List ℕ) → get_by_text self.now.values name ≡ None }
        ensures alone { IfSome result (λ _. rule_text self.now.at.now name.now ≡ None) }
        ensures value { IfSome result (λ value. IsOtherValue self.now name.now value.now) }
    {
        if let Some(value) = self.at.block.get(name) {
            return Some(value.as_str());
        }
        if self.at.rule.get(name).is_some() {
            return None;
        }
        Some(in_scope(self.scopes, self.at.scope, name))
    }

    fn append_parts(&self, text: &mut String, parts: &[Part]) -> Result<(), ExpandFault>
        requires { self.now.at.now.scope < vec_len self.now.scopes.now.scopes }
        ensures value { OnOk result (AddsParts self.now text.old text.new parts.now) }
        ensures size { KeepsToSize text.old text.new }
        ensures large { IsErrOf result Larger → AreTooMuch self.now text.old parts.now }
    {
        for part in parts {
            self.append_part(text, part)?;
        }
        Ok(())
    }

    fn append_part(&self, text: &mut String, part: &Part) -> Result<(), ExpandFault>
        requires { self.now.at.now.scope < vec_len self.now.scopes.now.scopes }
        ensures value { OnOk result (AddsPart self.now text.old text.new part.now) }
        ensures size { KeepsToSize text.old text.new }
        ensures large { IsErrOf result Larger → IsTooMuchPart self.now text.old part.now }
    {
        match part {
            Part::Text(characters) => append(text, characters.as_str()),
            Part::Name(name) => self.append_name(text, name.as_str()),
        }
    }

    /// Puts what a name stands for at the end.
    fn append_name(&self, text: &mut String, name: &str) -> Result<(), ExpandFault>
        requires { self.now.at.now.scope < vec_len self.now.scopes.now.scopes }
        ensures value { OnOk result (AddsName self.now text.old text.new name.now) }
        ensures size { KeepsToSize text.old text.new }
        ensures large { IsErrOf result Larger → IsTooMuchName self.now text.old name.now }
    {
        if !begins_as_special(name) {
            return append(text, self.value(name));
        }
        match name {
            "in" => append_joined(text, " ", self.paths.inputs),
            "out" => append_joined(text, " ", self.paths.outputs),
            "in_newline" => append_joined(text, "\n", self.paths.inputs),
            _ => append(text, self.value(name)),
        }
    }

    /// What a name stands for that stands for no paths.
    fn value(&self, name: &str) -> &str
        requires { self.now.at.now.scope < vec_len self.now.scopes.now.scopes }
        ensures { IsOtherValue self.now name.now result.now }
    {
        if let Some(value) = self.at.block.get(name) {
            return value.as_str();
        }
        if let Some(value) = self.learnt(name) {
            return value.as_str();
        }
        in_scope(self.scopes, self.at.scope, name)
    }

    /// The value of a text of the rule, where it is known.
    fn learnt(&self, name: &str) -> Option<&Text>
        ensures { option_copied result ≡ get_by_text self.now.values name.now }
    {
        if self.values.is_empty() {
            return None;
        }
        self.values.get(name)
    }
}
