//! Where the texts of what is kept of a log come from.

use model::Act;
use paths::{Action, EdgeId, Paths};
use std::alloc::Global;

/// Memory for new texts, and what edges do now, which holds most of the texts that a build log tells: a record takes them over from there,
/// and no memory.
///
/// Nothing is claimed of what edges do: a text is taken over where it is the same, byte by byte, and else copied.
#[derive(Clone, Copy)]
pub struct Stock<'a> {
    pub alloc: Global,
    acts: Option<Acts<'a>>,
}

/// What edges do, by the paths that they make.
#[derive(Clone, Copy)]
struct Acts<'a> {
    paths: &'a Paths,
    makers: &'a [Option<EdgeId>],
    actions: &'a [Action],
}

impl<'a> Stock<'a> {
    /// Memory alone: each text is copied.
    pub fn new(alloc: Global) -> Stock<'a> {
        Stock { alloc, acts: None }
    }

    /// The same with what edges do: `makers` has for each of these paths the number of the edge that makes it, and `actions` what each edge
    /// does. What is past their ends is not known.
    pub fn with_acts(
        alloc: Global,
        paths: &'a Paths,
        makers: &'a [Option<EdgeId>],
        actions: &'a [Action],
    ) -> Stock<'a> {
        let acts = Acts {
            paths,
            makers,
            actions,
        };
        Stock {
            alloc,
            acts: Some(acts),
        }
    }

    /// What makes this output, as far as it is known. It takes no memory, and one look into the table of paths.
    pub(crate) fn act_of(&self, output: &str) -> Option<&'a Act> {
        let acts = self.acts?;
        let path = acts.paths.number_of(output)?;
        let edge = (*acts.makers.get(path.index())?)?;
        let action = acts.actions.get(edge.index())?;
        match action {
            Action::Alias => None,
            Action::Command(command) => Some(&command.act),
        }
    }
}
