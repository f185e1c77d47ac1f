//! Names of commands, for a screen that shows which run.

use paths::{Action, Manifest};
use std::alloc::{AllocError, Global};
use terminal::Names;

/// What is said of the command of each edge, in their order: its description, or itself where that is empty or `verbose` asks for commands.
/// A job has the number of its edge. This takes a time, and memory, of the order of what is said.
pub fn names(alloc: Global, manifest: &Manifest, verbose: bool) -> Result<Names, AllocError> {
    let mut names = Names::new(alloc);
    for action in manifest.actions.as_slice() {
        push_name(alloc, &mut names, action, verbose)?;
    }
    Ok(names)
}

/// Puts what is said of the command of an edge behind the names; nothing where it has none. A command is copied where it is said itself.
fn push_name(
    alloc: Global,
    names: &mut Names,
    action: &Action,
    verbose: bool,
) -> Result<(), AllocError> {
    match action {
        Action::Alias => names.push(""),
        Action::Command(command) => {
            let description = command.description.as_str();
            if verbose || description.is_empty() {
                let line = command.act.command.to_text(alloc)?;
                return names.push(line.as_str());
            }
            names.push(description)
        }
    }
}
