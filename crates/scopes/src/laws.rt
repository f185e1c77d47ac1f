//! Laws of the values of rule variables: where `expand_use` answers, nothing else could be answered.

ghost use Rattle.std.specs.Prelude.{List, ℕ, Option};
ghost use Rattle.scopes.specs.Large.{HasOneValue, HasNoCircle};
ghost use Rattle.scopes.specs.declared.template.Template.{Template};

/// A name has one value at most, and none where texts of the rule name each other in a circle on the way.
pub fn values_are_unique()
    ensures one_value { (opens : List ℕ → Option Template) (fixed : List ℕ → List ℕ) (name : List ℕ) → HasOneValue opens fixed name }
    ensures no_circle { (opens : List ℕ → Option Template) (fixed : List ℕ → List ℕ) (name : List ℕ) → HasNoCircle opens fixed name }
{}
