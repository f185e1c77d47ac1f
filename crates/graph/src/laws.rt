//! Laws of graphs in numbers.

ghost use Rattle.std.specs.Prelude.{◌≡◌, ℕ};
ghost use Rattle.graph.specs.Extended.{FilesStand};
ghost use Rattle.graph.specs.Links.{links_of, NeedsArePaths};
ghost use Rattle.graph.specs.Linked.{StandFor};
ghost use Rattle.graph.specs.ReadingOf.{ReadingStands};
ghost use Rattle.graph.specs.Targets.{IsLinked};
ghost use Rattle.graph.specs.Told.{declared_by, declared_edge, line_edge};

use crate::graph::Graph;

/// A law, which runs nothing: what the numbers of a graph stand for. By them an edge waits for just the makers of its
/// inputs and recorded inputs, and just the makers of its validations validate it; what an edge waits for are paths of the
/// graph; and each declared edge is that of its line.
pub fn numbers_stand(graph: &Graph)
    ensures linked { IsLinked graph.now }
    ensures numbered { NeedsArePaths graph.now }
    ensures edges { (e : ℕ) → declared_edge graph.now e ≡ line_edge graph.now e }
{}

/// A law, which runs nothing: the numbers of each list of an edge stand for that list of the declared edges, and are
/// numbers of paths, recorded inputs too.
pub fn lists_stand(graph: &Graph)
    ensures { StandFor (declared_by graph.now).edges graph.now.manifest.paths (links_of graph.now) }
{}

/// A law, which runs nothing: what an edge reads, by its own inputs and by one phony edge among their makers.
pub fn reading_stands(graph: &Graph)
    ensures { ReadingStands graph.now }
{}

/// A law, which runs nothing: what names a dyndep file is an edge of the graph, and the file one of its paths.
pub fn files_stand()
    ensures { FilesStand }
{}
