//! Making folders.

ghost use Rattle.std.specs.Prelude.{◌≡◌, ◌<◌, false, length};
ghost use Rattle.model.specs.Calls.{OnlyLooks, HasCause};

use graph::Graph;
use model::SiteFault;
use paths::EdgeId;
use site::Site;

/// Makes the folders of what the edge makes.
pub fn make_output_folders<S: Site>(
    site: &mut S,
    graph: &Graph,
    edge: EdgeId,
) -> Result<(), SiteFault>
    requires running { (S.world site.old).stopped ≡ false }
    requires within { edge < length graph.now.manifest.lines }
    ensures looks { OnlyLooks S.tells (S.world site.old) (S.world site.new) }
    ensures cause { HasCause (S.world site.old) (S.world site.new) result }
{
    for output in graph.outputs(edge) {
        make_folder(site, graph.text(*output))?;
    }
    Ok(())
}

/// Makes the folder of a file, unless that is the working folder or the root.
pub fn make_folder<S: Site>(site: &mut S, path: &str) -> Result<(), SiteFault>
    requires running { (S.world site.old).stopped ≡ false }
    ensures looks { OnlyLooks S.tells (S.world site.old) (S.world site.new) }
    ensures cause { HasCause (S.world site.old) (S.world site.new) result }
{
    match path.rsplit_once('/') {
        Some((folder, _)) if !folder.is_empty() => site.make_dirs(folder),
        _ => Ok(()),
    }
}
