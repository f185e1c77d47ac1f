//! The law.

ghost use Rattle.dyndep_law.specs.Readings.{HasReading};

use dyndep::statements_add;
use lexer::has_canonical;

/// A law, which runs nothing: there is a function that reads each dyndep file as its grammar says. It stands in a crate of its own, so
/// that what reads dyndep files does not carry its proof.
pub fn has_reading()
    ensures { HasReading }
{
    has_canonical();
    statements_add();
}
