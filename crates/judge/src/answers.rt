//! What was found of commands that were not judged.

ghost use Rattle.std.specs.Prelude.{◌≡◌, ◌∷◌, [], IfOk, IfSome, Some, false};
ghost use Rattle.graph.specs.LoadedEdges.{numbers_in};
ghost use Rattle.judge.specs.Answers.{answer_at, KnowsNone, KnowsSame, KnowsWith, KnowsOthers};

use crate::dues::Dues;
use graph::LoadedEdge;
use paths::EdgeId;
use std::alloc::{AllocError, Global};

/// What was found of a command that was not judged.
#[derive(Clone, Copy, Debug, PartialEq, Eq)]
pub struct Answer {
    /// Whether the depfile was there that it is to leave; no where the site is not asked for one.
    pub depfile: bool,
    /// Whether it has to run, where its depfile is there, or is not.
    pub due: bool,
}

impl Answer {
    /// Whether the command has to run, where its depfile is there, or is not: if it was found by such a depfile.
    fn due_by(self, depfile: bool) -> Option<bool>
        ensures { IfSome result (λ due. self ≡ record { depfile = depfile; due = due }) }
    {
        if self.depfile == depfile {
            Some(self.due)
        } else {
            None
        }
    }
}

/// What was found of commands that were not judged, so that it is not found again after each load of a dyndep file: 2 bytes for each
/// edge, which are taken only where such files are to be loaded. It is right as long as nothing is forgotten of what was seen of the paths
/// of these commands, and they read and make what they did.
#[derive(Drop)]
pub struct Answers {
    /// By the number of the edge; none at all where nothing is kept.
    pub known: Vec<Option<Answer>>,
    /// Which edges are due, as it was found last.
    pub dues: Dues,
}

impl Answers {
    /// Nothing is known, and no memory is taken but some bytes.
    pub(crate) fn new(alloc: Global) -> Result<Answers, AllocError>
        ensures none { IfOk result KnowsNone }
        ensures dues { IfOk result (λ answers. answers.dues.known ≡ false) }
    {
        let known = Vec::new(alloc);
        let dues = Dues::new(alloc)?;
        Ok(Answers { known, dues })
    }

    /// Makes room for what will be found of so many edges. Where memory is refused, there is as much room as before: what finds none is
    /// not kept.
    pub(crate) fn make_room(&mut self, edges: usize)
        ensures same { KnowsSame self.old self.new }
        ensures dues { self.new.dues ≡ self.old.dues }
    {
        let room = self.known.len();
        if room >= edges {
            return;
        }
        match self.known.resize(edges, None) {
            Ok(()) => {}
            Err(_) => {}
        }
    }

    /// Whether the command of the edge has to run, where its depfile is there, or is not: if that is known.
    pub(crate) fn get(&self, edge: EdgeId, depfile: bool) -> Option<bool>
        ensures { IfSome result (λ due. answer_at self.now edge ≡ Some (record { depfile = depfile; due = due })) }
    {
        match self.answer_of(edge) {
            Some(answer) => answer.due_by(depfile),
            None => None,
        }
    }

    /// What was found of the command of the edge, if that is known.
    fn answer_of(&self, edge: EdgeId) -> Option<Answer>
        ensures { result ≡ answer_at self.now edge }
    {
        self.known.get(edge.index()).copied().unwrap_or(None)
    }

    /// Notes what was found of the command of the edge, where there is room.
    pub(crate) fn note(&mut self, edge: EdgeId, answer: Answer)
        ensures with_it { KnowsWith edge answer self.old self.new }
        ensures dues { self.new.dues ≡ self.old.dues }
    {
        let place = edge.index();
        if place < self.known.len() {
            self.known[place] = Some(answer);
        }
    }

    /// Forgets all, flags too: what was found of a command may be of a path that another one has made since then. It takes two steps.
    pub fn forget_all(&mut self)
        ensures none { KnowsNone self.new }
        ensures dues { self.new.dues.known ≡ false }
    {
        self.known.clear();
        self.dues.forget();
    }

    /// Forgets what was found of the edges whose dyndep file was loaded: they may read and make more.
    pub fn forget(&mut self, edges: &[LoadedEdge])
        ensures others { KnowsOthers (numbers_in edges.now) self.old self.new }
        ensures dues { self.new.dues ≡ self.old.dues }
    {
        for loaded in edges {
            self.forget_one(loaded.edge);
        }
    }

    /// Forgets what was found of the edge.
    fn forget_one(&mut self, edge: EdgeId)
        ensures others { KnowsOthers (edge ∷ []) self.old self.new }
        ensures dues { self.new.dues ≡ self.old.dues }
    {
        let place = edge.index();
        if place < self.known.len() {
            self.known[place] = None;
        }
    }
}
