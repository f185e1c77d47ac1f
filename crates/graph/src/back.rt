//! A dyndep file that was loaded is taken back.

ghost use Rattle.std.specs.Prelude.{◌≡◌, ◌<◌, ◌++◌, ℕ, true, List, All, length, IfOk, OnOk};
ghost use Rattle.model.specs.Graph.{has_number};
ghost use Rattle.graph.specs.Fronts.{AreCut, recorded_times};
ghost use Rattle.graph.specs.Held.{list_at};
ghost use Rattle.graph.specs.LoadedEdges.{numbers_in, EachLoaded};
ghost use Rattle.graph.specs.Back.{has_restat, undone, loaded_by, loaded_all, AreUndoneBy, WasManifest, MayBeTakenBack};

use crate::choice::Choice;
use crate::graph::Graph;
use crate::loaded::{Gain, free_gains, shrink_lines, unuse_gains};
use crate::recorded::Recorded;
use crate::users::Users;
use paths::{Action, EdgeId, Manifest, PathId};
use std::alloc::{AllocError, Global};
use std::mem;
use text::Items;

/// An edge whose dyndep file was loaded.
#[derive(Clone, Copy, Debug, PartialEq, Eq)]
pub struct LoadedEdge {
    pub edge: EdgeId,
    /// Whether its outputs could stay as they were before that.
    pub restat: bool,
}

/// What undoes the load of a dyndep file: what edges gained, and how the edges that named the file were before.
#[derive(Drop)]
pub struct Before {
    /// The edges that named the file, and their statements.
    pub chosen: Vec<Choice>,
    /// What each statement adds.
    pub gains: Vec<Gain>,
    /// Of how many paths it was told which edge makes them.
    pub makers: usize,
    /// The edges that named the file.
    pub edges: Vec<LoadedEdge>,
    pub file: PathId,
    /// How many paths there were.
    pub paths: usize,
}

impl Graph {
    /// Makes the graph what it was before a dyndep file was loaded. Paths that it got since then go, and recorded inputs that
    /// joined the edges of the file. It takes no memory, and a time of the order of the paths that go and of what the edges of the file name.
    pub fn take_back(&mut self, alloc: Global, before: Before)
        requires { (old : Graph) × ((loaded : Graph) × MayBeTakenBack old loaded self.old before) }
        ensures { (old loaded : Graph) → MayBeTakenBack old loaded self.old before → self.new ≡ old }
    {
        unuse_recorded(&mut self.users, &self.recorded, &before.edges);
        unuse_gains(&mut self.users, &before.chosen, &before.gains);
        self.users.truncate(before.paths);
        let mut makers = mem::replace(&mut self.makers, Items::new(alloc)).into_vec();
        free_gains(&mut makers, &before.chosen, &before.gains);
        makers.truncate(before.makers);
        self.makers = Items::from_vec(makers);
        self.recorded.forget(&before.edges);
        restore(alloc, &mut self.manifest, &before);
    }
}

/// Takes an edge from behind those that name a path, for each time that the path is a recorded input of one of these edges.
fn unuse_recorded(users: &mut Users, recorded: &Recorded, edges: &[LoadedEdge])
    requires edges { EachLoaded edges.now (λ edge. edge < length recorded.now) }
    requires within { (e p : ℕ) → has_number (list_at recorded.now e) p ≡ true → p < length users.old }
    ensures { AreCut (recorded_times recorded.now (numbers_in edges.now)) users.old users.new }
{
    for loaded in edges {
        users.pop_all(recorded.at(loaded.edge));
    }
}

/// Gives a manifest the paths and lines that it had, and edges what they did.
fn restore(alloc: Global, manifest: &mut Manifest, before: &Before)
    requires { (was : Manifest) × WasManifest was manifest.old before.now }
    ensures { (was : Manifest) → WasManifest was manifest.old before.now → manifest.new ≡ was }
{
    manifest.paths.truncate(before.paths);
    shrink_lines(&mut manifest.lines, &before.chosen, &before.gains);
    let mut actions = mem::replace(&mut manifest.actions, Items::new(alloc)).into_vec();
    unload(&mut actions, &before.edges, before.file);
    manifest.actions = Items::from_vec(actions);
}

/// Has these edges name the file again, and do what they did.
fn unload(actions: &mut [Action], edges: &[LoadedEdge], file: PathId)
    requires { (before : List Action) × AreUndoneBy file edges.now actions.old before }
    ensures { (before : List Action) → AreUndoneBy file edges.now actions.old before → actions.new ≡ before }
{
    for loaded in edges {
        unload_action(&mut actions[loaded.edge.index()], file, loaded.restat);
    }
}

fn unload_action(action: &mut Action, file: PathId, restat: bool)
    ensures { action.new ≡ undone file restat action.old }
{
    if let Action::Command(command) = action {
        command.dyndep = Some(file);
        command.restat = restat;
    }
}

/// The edges for which a statement was chosen, and how they were.
pub(crate) fn loaded_edges(
    alloc: Global,
    actions: &[Action],
    chosen: &[Choice],
) -> Result<Vec<LoadedEdge>, AllocError>
    requires { All (λ (choice : Choice). choice.edge < length actions.now) chosen.now }
    ensures { IfOk result (λ edges. edges.items ≡ loaded_all actions.now chosen.now) }
{
    let mut edges = Vec::with_capacity(alloc, chosen.len())?;
    for choice in chosen {
        push_loaded(&mut edges, &actions[choice.edge.index()], *choice)?;
    }
    Ok(edges)
}

/// Puts the edge behind the others, if a statement was chosen for it.
fn push_loaded(
    edges: &mut Vec<LoadedEdge>,
    action: &Action,
    choice: Choice,
) -> Result<(), AllocError>
    ensures { OnOk result (edges.new.items ≡ edges.old.items ++ loaded_by choice.edge action.now choice.statement) }
{
    match choice.statement {
        Some(_) => {
            edges.push(LoadedEdge {
                edge: choice.edge,
                restat: has_restat(action),
            })?;
            Ok(())
        }
        None => Ok(()),
    }
}

/// Whether outputs that the command left alone count as unchanged.
fn has_restat(action: &Action) -> bool
    ensures { result ≡ has_restat action.now }
{
    match action {
        Action::Alias => false,
        Action::Command(command) => command.restat,
    }
}
