//! Which statement of a dyndep file is of which edge.

ghost use Rattle.std.specs.Prelude.{◌≡◌, ◌<◌, ℕ, if◌then◌else◌, Some, None, length, is_some, IfOk, IfErr, OnOk, IfSome};
ghost use Rattle.model.specs.Graph.{first_output, maker, later_number};
ghost use Rattle.graph.specs.Chosen.{chosen_edges, choice_in, AreRising, HasJoinedIf, AreNamers};
ghost use Rattle.graph.specs.InTurn.{AreChosenBy, AreWithinGraph, IsGivenTo, IsFirstLeft};
ghost use Rattle.graph.specs.Told.{declared_by, declared_edge};
ghost use Rattle.graph.specs.Extended.{dyndep_at};
ghost use Rattle.graph.specs.Statements.{is_place, owner_for, owners_for, AreChoices, IsBadBelow, HasUnfit};

use crate::choice::{Choice, give, is_given, join};
use crate::fault::ExtendFault;
use crate::graph::Graph;
use dyndep::Addition;
use paths::{EdgeId, PathId};
use std::alloc::{AllocError, Global};
use text::Path;

impl Graph {
    /// Each edge that names the file, by number, with the place of its statement. It takes a time of the order of those that name the
    /// file and of the statements, but for one factor of the logarithm of how many edges name it.
    ///
    /// `Unfit` tells of the lowest such edge that has none, else of the first statement that is of no such edge, or of one
    /// that has a statement before.
    pub(crate) fn statements(
        &self,
        alloc: Global,
        additions: &[Addition],
        file: PathId,
    ) -> Result<Vec<Choice>, ExtendFault>
        requires { file < length self.now.manifest.paths }
        ensures chosen { IfOk result (λ chosen. AreChosenBy self.now file additions.now chosen.items) }
        ensures rising { IfOk result (λ chosen. AreRising (chosen_edges chosen.items)) }
        ensures within { IfOk result (λ chosen. AreWithinGraph self.now additions.now chosen.items) }
        ensures fault { IfErr result (λ fault. HasUnfit self.now file additions.now fault) }
    {
        let mut chosen = self.namers(alloc, file)?;
        let unfit = self.choose_all(additions, file, &mut chosen);
        if let Some(edge) = self.first_lacking(file, &chosen) {
            return Err(ExtendFault::Unfit(self.first_output(alloc, edge)?));
        }
        match unfit {
            Some(place) => Err(ExtendFault::Unfit(additions[place].output.clone()?)),
            None => Ok(chosen),
        }
    }

    /// The edges that name the file, by number, without statements. They are found among those that it is an input of.
    fn namers(&self, alloc: Global, file: PathId) -> Result<Vec<Choice>, AllocError>
        requires { file < length self.now.manifest.paths }
        ensures namers { IfOk result (λ chosen. AreNamers self.now file (chosen_edges chosen.items)) }
        ensures none { IfOk result (λ chosen. (e : ℕ) → choice_in chosen.items e ≡ None) }
    {
        let mut chosen = Vec::new(alloc);
        for user in self.users(file) {
            self.join_namer(&mut chosen, *user, file)?;
        }
        Ok(chosen)
    }

    /// Puts the edge among the others, if it names the file.
    fn join_namer(
        &self,
        chosen: &mut Vec<Choice>,
        edge: EdgeId,
        file: PathId,
    ) -> Result<(), AllocError>
        requires edge { edge < length self.now.manifest.lines }
        requires rising { AreRising (chosen_edges chosen.old.items) }
        ensures { OnOk result (HasJoinedIf (is_place (dyndep_at self.now edge) file) chosen.old.items edge chosen.new.items) }
    {
        if !self.names(edge, file) {
            return Ok(());
        }
        join(chosen, edge)?;
        Ok(())
    }

    /// Gives each edge that names the file its first statement. The place of the first statement that is of no such edge, or of
    /// one that has a statement before.
    fn choose_all(
        &self,
        additions: &[Addition],
        file: PathId,
        chosen: &mut [Choice],
    ) -> Option<usize>
        requires file { file < length self.now.manifest.paths }
        requires namers { AreNamers self.now file (chosen_edges chosen.old) }
        requires none { (e : ℕ) → choice_in chosen.old e ≡ None }
        ensures edges { chosen_edges chosen.new ≡ chosen_edges chosen.old }
        ensures choices { AreChoices (owners_for self.now file additions.now) (length additions.now) (choice_in chosen.new) }
        ensures bad { IsBadBelow (owners_for self.now file additions.now) (length additions.now) result }
    {
        let mut unfit = None;
        for (place, addition) in additions.iter().enumerate() {
            let given = self.choose(addition, place, file, chosen);
            unfit = first_unfit(unfit, given, place);
        }
        unfit
    }

    /// Gives the statement to its edge, if it is of one that names the file and has none. Whether it is.
    fn choose(&self, addition: &Addition, place: usize, file: PathId, chosen: &mut [Choice]) -> bool
        requires file { file < length self.now.manifest.paths }
        requires namers { AreNamers self.now file (chosen_edges chosen.old) }
        ensures edges { chosen_edges chosen.new ≡ chosen_edges chosen.old }
        ensures given { IsGivenTo result (owner_for self.now file addition.now.output) place chosen.old chosen.new }
    {
        match self.namer_of(addition.output.as_str(), file) {
            Some(edge) => give(chosen, edge, place),
            None => false,
        }
    }

    /// The edge that makes this output, if it names the file.
    fn namer_of(&self, output: &str, file: PathId) -> Option<EdgeId>
        requires { file < length self.now.manifest.paths }
        ensures owner { later_number result ≡ owner_for self.now file output.now }
        ensures within { IfSome result (λ edge. edge < length self.now.manifest.lines) }
    {
        let edge = self.maker_of(output)?;
        if self.names(edge, file) {
            Some(edge)
        } else {
            None
        }
    }

    /// The edge that makes this output.
    fn maker_of(&self, output: &str) -> Option<EdgeId>
        ensures maker { later_number result ≡ maker (declared_by self.now).edges output.now }
        ensures within { IfSome result (λ edge. edge < length self.now.manifest.lines) }
    {
        self.maker(self.manifest.paths.number_of(output)?)
    }

    /// Whether the edge names the file, which is not loaded.
    fn names(&self, edge: EdgeId, file: PathId) -> bool
        requires { edge < length self.now.manifest.lines }
        ensures { result ≡ is_place (dyndep_at self.now edge) file }
    {
        match self.dyndep(edge) {
            Some(name) => name == file,
            None => false,
        }
    }

    /// The lowest edge that names the file and has no statement.
    fn first_lacking(&self, file: PathId, chosen: &[Choice]) -> Option<EdgeId>
        requires { AreNamers self.now file (chosen_edges chosen.now) }
        ensures { IsFirstLeft self.now file chosen.now result }
    {
        for choice in chosen {
            if !is_given(*choice) {
                return Some(choice.edge);
            }
        }
        None
    }

    /// The output that stands for the edge where one is shown; the empty path where it has none.
    fn first_output(&self, alloc: Global, edge: EdgeId) -> Result<Path, AllocError>
        requires { edge < length self.now.manifest.lines }
        ensures { IfOk result (λ path. path ≡ first_output (declared_edge self.now edge)) }
    {
        match self.outputs(edge).first() {
            Some(output) => Path::from_str(alloc, self.text(*output)),
            None => Ok(Path::new(alloc)),
        }
    }
}

/// The first statement that is of no edge, where one more was given to its edge or not.
fn first_unfit(unfit: Option<usize>, given: bool, place: usize) -> Option<usize>
    ensures { result ≡ (if is_some unfit then unfit else if given then None else Some place) }
{
    if unfit.is_some() || given {
        unfit
    } else {
        Some(place)
    }
}
