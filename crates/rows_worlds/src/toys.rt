//! A toy command.

ghost use Rattle.model.specs.World.{IsIdle};
ghost use Rattle.sim.specs.World.{world_of};

use crate::moves::start_again;
use model::Act;
use sim::{Sim, Toy};
use site::{Site, SiteFault};
use std::alloc::Global;
use text::{SharedText, Text};

/// Runs a command with a response content as job 1, and tells whether it ended well.
pub fn run(
    alloc: Global,
    sim: &mut Sim<Toy>,
    command: &str,
    response: &str,
) -> Result<bool, SiteFault> {
    start_again(sim);
    run_with(alloc, sim, command, response)
}

fn run_with(
    alloc: Global,
    sim: &mut Sim<Toy>,
    command: &str,
    response: &str,
) -> Result<bool, SiteFault>
    requires { IsIdle (world_of sim.old).events }
{
    let act = Act {
        command: SharedText::from_str(alloc, command)?,
        depfile: Text::new(alloc),
        response_path: Text::new(alloc),
        response_content: SharedText::from_str(alloc, response)?,
    };
    sim.start(1, &act, false)?;
    Ok(sim.wait_any()?.ok)
}
