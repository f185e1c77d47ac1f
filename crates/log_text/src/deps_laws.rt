//! What holds of the deps log. What holds of each log is said by `laws`.

ghost use Rattle.log_text.specs.DepsFormat.{HasFormat};

use crate::deps_log::DepsLog;
use crate::laws::has_reader;

/// There is a format by which both logs are read as their grammars say. It does nothing: its contract is a law.
pub fn has_format()
    ensures { HasFormat }
{
    has_reader::<crate::build_log::BuildLog>();
    has_reader::<DepsLog>();
}
