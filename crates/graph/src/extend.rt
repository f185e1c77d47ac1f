//! What a loaded dyndep file says joins the graph.

ghost use Rattle.std.specs.Prelude.{◌≡◌, ◌<◌, length, IfOk, IfErr, OnOk, OnErr};
ghost use Rattle.graph.specs.Alone.{HasChangedBy};
ghost use Rattle.graph.specs.Back.{Undoes};
ghost use Rattle.graph.specs.Extended.{HasTaken, HasRefused};

use crate::back::{Before, loaded_edges};
use crate::fault::ExtendFault;
use crate::graph::Graph;
use crate::loaded::{Parts, load};
use crate::users::Users;
use dyndep::Addition;
use paths::PathId;
use std::alloc::Global;
use std::mem;
use text::Items;

impl Graph {
    /// Gives each edge that names the file what its statement adds: outputs, inputs, and whether outputs may stay as they were.
    /// The file is loaded then, and no edge names it any more (manual: "Dynamic Dependencies"). What is recorded stays. It takes
    /// a time of the order of what the statements and their edges name.
    ///
    /// `Unfit` where the statements do not fit: it tells of the lowest edge that names the file and has no statement, else of the
    /// first statement that is of no such edge, or of one that has a statement before. `MadeTwice` tells, where they fit, of
    /// the first output in reading order that was made before it. Where it is refused, nothing is changed. A cycle that the file
    /// closes is told by the cone; `take_back` undoes what was loaded.
    pub fn extend(
        &mut self,
        alloc: Global,
        additions: &[Addition],
        file: PathId,
    ) -> Result<Before, ExtendFault>
        requires { file < length self.old.manifest.paths }
        ensures loaded { OnOk result (HasTaken self.old self.new file additions.now) }
        ensures before { IfOk result (λ before. Undoes self.old self.new file before) }
        ensures alone { IfOk result (λ before. HasChangedBy before self.old self.new) }
        ensures fault { IfErr result (λ fault. HasRefused self.old file additions.now fault) }
        ensures err { OnErr result (self.new ≡ self.old) }
    {
        let chosen = self.statements(alloc, additions, file)?;
        let edges = loaded_edges(alloc, self.manifest.actions.as_slice(), &chosen)?;
        let known = self.manifest.paths.len();
        let made = self.makers.len();
        let makers = mem::replace(&mut self.makers, Items::new(alloc));
        let users = mem::replace(&mut self.users, Users::empty(alloc));
        let mut parts = Parts { makers, users };
        match load(alloc, &mut self.manifest, &mut parts, additions, &chosen) {
            Ok(gains) => {
                self.makers = parts.makers;
                self.users = parts.users;
                Ok(Before {
                    chosen,
                    gains,
                    makers: made,
                    edges,
                    file,
                    paths: known,
                })
            }
            Err(fault) => {
                self.makers = parts.makers;
                self.users = parts.users;
                self.manifest.paths.truncate(known);
                Err(fault)
            }
        }
    }
}
