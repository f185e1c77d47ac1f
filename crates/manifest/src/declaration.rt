//! Statements that read no file.

ghost use Rattle.std.specs.Prelude.{OnOk};
ghost use Rattle.lexer.specs.Said.{form_of};
ghost use Rattle.manifest.specs.Held.{KeepsScopes};
ghost use Rattle.manifest.specs.Made.{FormHasOutput};
ghost use Rattle.manifest.specs.Statements.{SaysNext, KeepsFormed, DeclarationSays};

use crate::fault::ReadError;
use crate::kept::Declared;
use crate::place::Place;
use lexer::{Fault, Line, Statement};
use std::alloc::Global;

impl Declared {
    /// Reads a statement with its block, behind which the text may stop. `include` and `subninja` say nothing here.
    pub fn read_declaration(
        &mut self,
        alloc: Global,
        place: &Place<'_>,
        statement: &Statement<'_>,
        block: &[Line<'_>],
        behind: Option<Fault>,
    ) -> Result<(), ReadError>
        ensures said { SaysNext result self.old self.new (DeclarationSays place.now (form_of statement.now) block.now behind) }
        ensures scopes { OnOk result (KeepsScopes self.old self.new) }
        ensures formed { OnOk result (FormHasOutput (form_of statement.now) → KeepsFormed self.old self.new) }
    {
        match statement {
            Statement::Binding { name, value } => self.read_binding(alloc, place, name, value),
            Statement::Rule { name } => self.read_rule(alloc, place, name, block, behind),
            Statement::Build(build) => self.read_build(alloc, place, build, block),
            Statement::Pool { name } => self.read_pool(alloc, place, name, block, behind),
            Statement::Default { paths } => self.read_default(alloc, place, paths.as_slice()),
            _ => Ok(()),
        }
    }
}
