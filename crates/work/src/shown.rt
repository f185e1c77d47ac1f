//! Showing a command that has ended.

ghost use Rattle.std.specs.Prelude.{◌≡◌, ◌<◌, suc, false, length};
ghost use Rattle.model.specs.Calls.{OnlyLooks, HasCause};
ghost use Rattle.model.specs.Graph.{IsCommand};
ghost use Rattle.graph.specs.Told.{declared_by};

use crate::display::{Display, Progress, show_all};
use crate::start::act;
use depfile::DepFault;
use graph::Graph;
use model::{Finished, SiteFault};
use paths::EdgeId;
use site::Site;
use status::DepfileFault;
use std::alloc::AllocError;

impl Display<'_> {
    /// Takes in a command that has ended, as [`Display::ended`] does, and says what is wrong with its depfile, where that is refused.
    pub(crate) fn end(
        &mut self,
        graph: &Graph,
        edge: EdgeId,
        finished: &Finished,
        refused: Option<DepFault>,
        progress: Progress,
    ) -> Result<Vec<u8>, AllocError>
        requires within { edge < length graph.now.manifest.lines }
        requires command { IsCommand (declared_by graph.now).edges (suc edge) }
    {
        let Some(fault) = refused else {
            return self.ended(graph, edge, finished, None, progress);
        };
        let alloc = self.alloc();
        let text = format!(in alloc; "{fault}")?;
        let path = act(graph, edge).depfile.as_str();
        let depfile = fault_at(path, u32::from(fault.number()), text.as_str());
        self.ended(graph, edge, finished, Some(depfile), progress)
    }
}

/// Shows what a display gave at the end of a command, if there was memory for it.
pub fn show_end<S: Site>(site: &mut S, shown: Result<Vec<u8>, AllocError>) -> Result<(), SiteFault>
    requires running { (S.world site.old).stopped ≡ false }
    ensures looks { OnlyLooks S.tells (S.world site.old) (S.world site.new) }
    ensures cause { HasCause (S.world site.old) (S.world site.new) result }
{
    let text = shown?;
    show_all(site, text.as_slice())
}

/// The fault of this number and text, of the depfile at the path.
fn fault_at<'x>(path: &'x str, number: u32, text: &'x str) -> DepfileFault<'x>
    ensures { result ≡ record { path = path.now; number = number; text = text.now } }
{
    DepfileFault { path, number, text }
}
