//! What a display is told of a plan.

ghost use Rattle.std.specs.Prelude.{◌≡◌};

use crate::display::Progress;
use plan::Plan;

/// How far the commands of a plan have come.
pub fn progress(plan: &Plan) -> Progress
    ensures running { result.running ≡ plan.now.running }
    ensures well { result.well ≡ plan.now.well }
    ensures failed { result.failed ≡ plan.now.failed }
{
    Progress {
        running: plan.running(),
        well: plan.well(),
        failed: plan.failed(),
    }
}
