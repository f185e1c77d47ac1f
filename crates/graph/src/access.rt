//! What a graph tells of its edges and paths.

ghost use Rattle.std.specs.Prelude.{◌≡◌, ◌<◌, ◌++◌, ℕ, true, Some, IfSome, length, slice_get, MatchOption};
ghost use Rattle.std.specs.Option.{option_map};
ghost use Rattle.std.specs.Map.Iter.{deref};
ghost use Rattle.model.specs.Graph.{has_number, later_number};
ghost use Rattle.graph.specs.Held.{times};
ghost use Rattle.graph.specs.Links.{links_of, needs_of, need_at, users_at};
ghost use Rattle.graph.specs.Told.{path_text, declared_maker};
ghost use Rattle.graph.specs.Extended.{dyndep_at};

use crate::graph::Graph;
use paths::{Action, EdgeId, PathId};

impl Graph {
    /// How many edges there are.
    pub fn edges(&self) -> usize
        ensures { result ≡ length self.now.manifest.lines }
    {
        self.manifest.lines.len()
    }

    /// How many paths there are: those that build lines name, then others.
    pub fn paths(&self) -> usize
        ensures { result ≡ length self.now.manifest.paths }
    {
        self.manifest.paths.len()
    }

    /// The text of a path.
    pub fn text(&self, path: PathId) -> &str
        requires { path < length self.now.manifest.paths }
        ensures { result.now ≡ path_text self.now path }
    {
        self.manifest.paths.text(path)
    }

    /// What the edge makes: its explicit outputs, then its implicit ones (manual: "Build outputs").
    pub fn outputs(&self, edge: EdgeId) -> &[PathId]
        requires { edge < length self.now.manifest.lines }
        ensures { result.now ≡ (links_of self.now).outputs edge }
    {
        self.manifest.lines.outputs(edge)
    }

    /// Its inputs: the regular ones, then the order-only ones (manual: "Build dependencies").
    pub fn inputs(&self, edge: EdgeId) -> &[PathId]
        requires { edge < length self.now.manifest.lines }
        ensures { result.now ≡ (links_of self.now).inputs edge }
    {
        self.manifest.lines.inputs(edge)
    }

    /// The inputs whose contents count: its explicit ones, then its implicit ones.
    pub fn regular_inputs(&self, edge: EdgeId) -> &[PathId]
        requires { edge < length self.now.manifest.lines }
        ensures { result.now ≡ (links_of self.now).regular edge }
    {
        self.manifest.lines.regular_inputs(edge)
    }

    /// Its recorded inputs, each once, in the order in which they came.
    pub fn recorded_inputs(&self, edge: EdgeId) -> &[PathId]
        requires { edge < length self.now.manifest.lines }
        ensures { result.now ≡ (links_of self.now).recorded edge }
    {
        self.recorded.at(edge)
    }

    /// How many inputs and recorded inputs it waits for.
    pub fn need_count(&self, edge: EdgeId) -> usize
        requires { edge < length self.now.manifest.lines }
        ensures { result ≡ length (needs_of self.now edge) }
    {
        self.inputs(edge).len() + self.recorded_inputs(edge).len()
    }

    /// The input or recorded input at this place: the inputs come first.
    pub fn need(&self, edge: EdgeId, place: usize) -> PathId
        requires edge { edge < length self.now.manifest.lines }
        requires place { place < length (needs_of self.now edge) }
        ensures { result ≡ need_at self.now edge place }
    {
        let inputs = self.inputs(edge);
        if place < inputs.len() {
            inputs[place]
        } else {
            self.recorded_inputs(edge)[place - inputs.len()]
        }
    }

    /// Its validations (manual: "Validations").
    pub fn validations(&self, edge: EdgeId) -> &[PathId]
        requires { edge < length self.now.manifest.lines }
        ensures { result.now ≡ (links_of self.now).validations edge }
    {
        self.manifest.lines.validations(edge)
    }

    /// Whether it is an alias, with no command (manual: "The `phony` rule").
    pub fn is_phony(&self, edge: EdgeId) -> bool
        requires { edge < length self.now.manifest.lines }
        ensures { result ≡ (links_of self.now).phony edge }
    {
        match self.manifest.action(edge) {
            Action::Alias => true,
            Action::Command(_) => false,
        }
    }

    /// The dyndep file that is to be loaded before the edge is judged; none where it names none, or that was loaded (manual:
    /// "Dynamic Dependencies").
    pub fn dyndep(&self, edge: EdgeId) -> Option<PathId>
        requires { edge < length self.now.manifest.lines }
        ensures { result ≡ dyndep_at self.now edge }
    {
        match self.manifest.action(edge) {
            Action::Alias => None,
            Action::Command(command) => command.dyndep,
        }
    }

    /// The edge that makes the path; none for a source.
    pub fn maker(&self, path: PathId) -> Option<EdgeId>
        ensures value { result ≡ (links_of self.now).maker path }
        ensures within { IfSome result (λ edge. edge < length self.now.manifest.lines) }
        ensures makes { IfSome result (λ edge. has_number ((links_of self.now).outputs edge) path ≡ true) }
        ensures text { path < length self.now.manifest.paths → declared_maker self.now path ≡ later_number result }
    {
        self.stored_maker(path)
    }

    fn stored_maker(&self, path: PathId) -> Option<EdgeId>
        ensures { result ≡ (links_of self.now).maker path }
    {
        self.makers.as_slice().get(path.index()).copied().flatten()
    }

    /// The edges that name the path as an input or a recorded input, an edge as often as it names the path.
    pub fn users(&self, path: PathId) -> &[EdgeId]
        requires { path < length self.now.manifest.paths }
        ensures value { result.now ≡ users_at self.now path }
        ensures counted { (edge : ℕ) → times result.now edge ≡ times (needs_of self.now edge) path }
    {
        self.users.at(path)
    }
}
