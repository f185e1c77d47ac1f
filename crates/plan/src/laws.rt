//! Laws of plans. These functions do nothing: their contracts are the laws, and other plans under the same contract are
//! proved by them.

ghost use Rattle.model.specs.Schedule.{Task};
ghost use Rattle.plan.specs.Planned.{IsDeclaredTask, IsTaskOf};
ghost use Rattle.plan.specs.Extended.{LoadsGoOn};
ghost use Rattle.plan.specs.Staying.{LoadsGoOnBy};
ghost use Rattle.plan.specs.Steps.{StepsMove, StandingsTell, StepsName, ListsCount};

use graph::{Graph, files_stand, lists_stand, numbers_stand};

/// To build what a graph declares is a task of that graph.
pub fn task_of(graph: &Graph)
    ensures { (task : Task) → IsDeclaredTask task graph.now → IsTaskOf task graph.now }
{
    numbers_stand(graph);
    lists_stand(graph);
    files_stand();
}

/// A lawful step moves its edge to where it has to stand after it, and no other edge.
pub fn steps_move()
    ensures { StepsMove }
{}

/// Where an edge stands after steps tells whether it was judged, is to be started, runs, failed or is done.
pub fn standings_tell()
    ensures { StandingsTell }
{}

/// The edges that run or have failed after steps are commands of the cone, each listed once.
pub fn steps_name()
    ensures { StepsName }
{}

/// As many edges pass a test as a list names, if it names just these and each once.
pub fn lists_count()
    ensures { ListsCount }
{}

/// A plan that says a load may go on by `extend` once the graph has loaded the file.
pub fn loads_go_on()
    ensures { LoadsGoOn }
{}

/// And by `extend_by` or `extend_inside`, where what undoes the load names the edges that have changed.
pub fn loads_go_on_by()
    ensures { LoadsGoOnBy }
{}
