//! What follows for who carries out moves in another way. This function does nothing: its contract is the law.

ghost use Rattle.drive.specs.Ending.{BuildsEnd};

use depfile::has_reading;
use dyndep_law::has_reading as has_dyndeps;
use log_text::has_format;

/// A build that reports no fault leaves no command running.
pub fn builds_end()
    ensures { BuildsEnd }
{
    has_format();
    has_reading();
    has_dyndeps();
}
