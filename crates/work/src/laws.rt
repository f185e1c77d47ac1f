//! Laws of a build under way. These functions do nothing: their contracts are the laws.

ghost use Rattle.work.specs.Laws.{OrdersStand, MakersStandFirst, SourcesLoad, PhoniesRecordNone};

use graph::{Graph, lists_stand};
use judge::dues_follow;

/// Where a build stands, the order of its cone names edges of the graph.
pub fn orders_stand(graph: &Graph)
    ensures { OrdersStand graph.now }
{
    lists_stand(graph);
}

/// Where a build stands, its cone is one of makers first, and its marks say which edges are listed.
pub fn makers_stand_first(graph: &Graph)
    ensures { MakersStandFirst graph.now }
{
    dues_follow();
    lists_stand(graph);
}

/// Where a phase begins, a file that no edge makes is loaded before anything is asked of sources.
pub fn sources_load()
    ensures { SourcesLoad }
{}

/// Where the recorded inputs of a graph are those in use, a phony edge has none.
pub fn phonies_record_none()
    ensures { PhoniesRecordNone }
{}
