//! The values of rule variables of a build statement (manual: "Rule variables").

ghost use Rattle.std.specs.Prelude.{◌<◌, vec_len, IfOk, IsErrOf, OnOk};
ghost use Rattle.scopes.specs.Marks.{IsOfScope};
ghost use Rattle.scopes.specs.Scopes.{Always};
ghost use Rattle.scopes.specs.Use.{opened, HasCircle};
ghost use Rattle.scopes.specs.declared.fault.UseFault.TheVariants.{Circle, TooLarge};
ghost use Rattle.manifest.specs.Values.{AreValuesIn, AreSmall, HasNoCircleIn, LeadsIntoCircleAt, HasLargeValueAt};

use scopes::{
    Marks, Scopes, Use, UseFault, expand_marked, expand_use, use_marks, values_are_unique,
};
use std::alloc::Global;
use text::Text;

/// The values of all variables that mean something to a build.
#[derive(Debug, Drop)]
pub struct Values {
    pub command: Text,
    pub depfile: Text,
    pub deps: Text,
    pub dyndep: Text,
    pub description: Text,
    pub pool: Text,
    pub restat: Text,
    pub rspfile: Text,
    pub rspfile_content: Text,
}

impl Values {
    /// The values for this use of a rule, when all is read, with the marks of its scope.
    ///
    /// # Errors
    /// `Circle` where texts of the rule that a variable needs name each other in a circle, else `TooLarge` where some
    /// value has more than 16 MiB.
    pub fn of(
        alloc: Global,
        scopes: &Scopes,
        at: &Use<'_>,
        marks: Marks,
        room: &mut String,
    ) -> Result<Values, UseFault>
        requires scope { at.now.scope < vec_len scopes.now.scopes }
        requires marks { IsOfScope scopes.now at.now.scope marks }
        ensures values { IfOk result (λ values. AreValuesIn scopes.now at.now values) }
        ensures size { IfOk result AreSmall }
        ensures circle { IsErrOf result Circle → LeadsIntoCircleAt at.now }
        ensures no_circle { IsErrOf result TooLarge → HasNoCircleIn scopes.now at.now }
        ensures large { IsErrOf result TooLarge → Always scopes.now (λ past. HasLargeValueAt at.now past) }
    {
        match expand_all(alloc, scopes, at, marks, room) {
            Err(UseFault::TooLarge) => {
                check_circles(alloc, scopes, at, room)?;
                Err(UseFault::TooLarge)
            }
            other => other,
        }
    }
}

fn expand_all(
    alloc: Global,
    scopes: &Scopes,
    at: &Use<'_>,
    marks: Marks,
    room: &mut String,
) -> Result<Values, UseFault>
    requires scope { at.now.scope < vec_len scopes.now.scopes }
    requires marks { IsOfScope scopes.now at.now.scope marks }
    ensures values { IfOk result (λ values. AreValuesIn scopes.now at.now values) }
    ensures size { IfOk result AreSmall }
    ensures circle { IsErrOf result Circle → LeadsIntoCircleAt at.now }
    ensures large { IsErrOf result TooLarge → Always scopes.now (λ past. HasLargeValueAt at.now past) }
{
    let marks = use_marks(scopes, at, marks);
    Ok(Values {
        command: expand_use(alloc, scopes, at, "command", room)?,
        depfile: expand_marked(alloc, scopes, at, "depfile", marks, room)?,
        deps: expand_marked(alloc, scopes, at, "deps", marks, room)?,
        dyndep: expand_marked(alloc, scopes, at, "dyndep", marks, room)?,
        description: expand_marked(alloc, scopes, at, "description", marks, room)?,
        pool: expand_marked(alloc, scopes, at, "pool", marks, room)?,
        restat: expand_marked(alloc, scopes, at, "restat", marks, room)?,
        rspfile: expand_marked(alloc, scopes, at, "rspfile", marks, room)?,
        rspfile_content: expand_marked(alloc, scopes, at, "rspfile_content", marks, room)?,
    })
}

/// Refuses a circle that some variable leads into: it goes before a value that is too large.
fn check_circles(
    alloc: Global,
    scopes: &Scopes,
    at: &Use<'_>,
    room: &mut String,
) -> Result<(), UseFault>
    requires { at.now.scope < vec_len scopes.now.scopes }
    ensures none { OnOk result (HasNoCircleIn scopes.now at.now) }
    ensures circle { IsErrOf result Circle → LeadsIntoCircleAt at.now }
    ensures not_large { IsErrOf result TooLarge → ⊥ }
{
    check_circle(alloc, scopes, at, "command", room)?;
    check_circle(alloc, scopes, at, "depfile", room)?;
    check_circle(alloc, scopes, at, "deps", room)?;
    check_circle(alloc, scopes, at, "dyndep", room)?;
    check_circle(alloc, scopes, at, "description", room)?;
    check_circle(alloc, scopes, at, "pool", room)?;
    check_circle(alloc, scopes, at, "restat", room)?;
    check_circle(alloc, scopes, at, "rspfile", room)?;
    check_circle(alloc, scopes, at, "rspfile_content", room)
}

/// Refuses a circle that this variable leads into.
fn check_circle(
    alloc: Global,
    scopes: &Scopes,
    at: &Use<'_>,
    name: &str,
    room: &mut String,
) -> Result<(), UseFault>
    requires { at.now.scope < vec_len scopes.now.scopes }
    ensures none { OnOk result (Always scopes.now (λ _. HasCircle (opened at.now) name.now → ⊥)) }
    ensures circle { IsErrOf result Circle → HasCircle (opened at.now) name.now }
    ensures not_large { IsErrOf result TooLarge → ⊥ }
{
    values_are_unique();
    match expand_use(alloc, scopes, at, name, room) {
        Ok(_) => Ok(()),
        Err(UseFault::TooLarge) => Ok(()),
        Err(fault) => Err(fault),
    }
}
