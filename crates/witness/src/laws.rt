//! Laws about the definitions of a build. Each function has an empty body: its contract is the law.

ghost use Rattle.witness.specs.Rows.{WorkedRows};
ghost use Rattle.witness.specs.Beyond.{RoundBeyondChangesNothing};

/// On an acyclic graph, one round beyond the clean build changes nothing.
pub fn round_beyond()
    ensures { RoundBeyondChangesNothing }
{}

/// The definitions call these rows right and wrong as they are meant to: contents, reading sets through phony edges,
/// cones with validations, reasons in their order, and schedules.
pub fn worked_rows()
    ensures { WorkedRows }
{}
