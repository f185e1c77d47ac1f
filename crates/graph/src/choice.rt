//! The edges that name a dyndep file, by number, and the statements that are chosen for them.

ghost use Rattle.std.specs.Prelude.{◌≡◌, ◌<◌, ◌≤◌, ◌==◌, suc, nat_lt, true, false, Some, is_some, OnOk};
ghost use Rattle.model.specs.Graph.{has_number};
ghost use Rattle.graph.specs.Chosen.{chosen_edges, choice_in, AreRising, IsPlaceFor, StandsAt, HasJoined};
ghost use Rattle.graph.specs.Statements.{IsGiven};

use paths::EdgeId;
use std::alloc::AllocError;

/// An edge that names a dyndep file, and the place of the statement that is chosen for it.
#[derive(Clone, Copy, Debug)]
pub struct Choice {
    pub edge: EdgeId,
    pub statement: Option<usize>,
}

/// Puts the edge among the others, where it stands by number; nothing where it stands there. Where it is above all others, that takes
/// a time of the order of the logarithm of how many they are.
pub fn join(chosen: &mut Vec<Choice>, edge: EdgeId) -> Result<(), AllocError>
    requires { AreRising (chosen_edges chosen.old.items) }
    ensures { OnOk result (HasJoined chosen.old.items edge chosen.new.items) }
{
    let place = place_for(chosen.as_slice(), edge);
    if stands_at(chosen.as_slice(), edge, place) {
        return Ok(());
    }
    chosen.insert(
        place,
        Choice {
            edge,
            statement: None,
        },
    )?;
    Ok(())
}

/// Gives the edge the statement of this place, if it has none. Whether it got it.
pub fn give(chosen: &mut [Choice], edge: EdgeId, place: usize) -> bool
    requires rising { AreRising (chosen_edges chosen.old) }
    requires there { has_number (chosen_edges chosen.old) edge ≡ true }
    ensures edges { chosen_edges chosen.new ≡ chosen_edges chosen.old }
    ensures given { IsGiven result (Some (suc edge)) place (choice_in chosen.old) (choice_in chosen.new) }
{
    let at = place_for(chosen, edge);
    if is_given(chosen[at]) {
        return false;
    }
    chosen[at] = Choice {
        edge,
        statement: Some(place),
    };
    true
}

/// Whether a statement was chosen for the edge.
pub fn is_given(choice: Choice) -> bool
    ensures { result ≡ is_some choice.statement }
{
    choice.statement.is_some()
}

/// The first place whose edge is not below this one; the end where there is none.
fn place_for(chosen: &[Choice], edge: EdgeId) -> usize
    requires { AreRising (chosen_edges chosen.now) }
    ensures { IsPlaceFor (chosen_edges chosen.now) edge result }
{
    let mut low = 0;
    let mut high = chosen.len();
    while low < high {
        let at = middle(low, high);
        if is_below(chosen[at], edge) {
            low = at + 1;
        } else {
            high = at;
        }
    }
    low
}

/// A place between two, as far from one as from the other.
fn middle(low: usize, high: usize) -> usize
    requires { low < high }
    ensures from { low ≤ result }
    ensures to { result < high }
{
    low + (high - low) / 2
}

fn is_below(choice: Choice, edge: EdgeId) -> bool
    ensures { result ≡ nat_lt choice.edge edge }
{
    choice.edge.index() < edge.index()
}

/// Whether the edge stands at this place.
fn stands_at(chosen: &[Choice], edge: EdgeId, place: usize) -> bool
    ensures there { result ≡ true → StandsAt (chosen_edges chosen.now) edge place }
    ensures absent { result ≡ false → StandsAt (chosen_edges chosen.now) edge place → ⊥ }
{
    if place < chosen.len() {
        is_of(chosen[place], edge)
    } else {
        false
    }
}

fn is_of(choice: Choice, edge: EdgeId) -> bool
    ensures { result ≡ (choice.edge == edge) }
{
    choice.edge == edge
}
