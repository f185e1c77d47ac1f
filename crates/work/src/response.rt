//! The response file of a command (manual: "Rule variables", `rspfile`).

ghost use Rattle.std.specs.Prelude.{◌≡◌, [], false, IsOk};
ghost use Rattle.model.specs.Calls.{HasCause};
ghost use Rattle.theory.specs.Writes.{WritesAt};
ghost use Rattle.work.specs.Removing.{RemovesIfNamed, WritesResponse};

use model::{Act, SiteFault};
use site::Site;
use std::alloc::Global;

/// Writes the response file that the act names, if it names one. Where it fails, anything may stand there.
pub fn write_response<S: Site>(alloc: Global, site: &mut S, act: &Act) -> Result<(), SiteFault>
    requires running { (S.world site.old).stopped ≡ false }
    ensures cause { HasCause (S.world site.old) (S.world site.new) result }
    ensures none { act.now.response_path ≡ [] → IsOk result × (S.world site.new ≡ S.world site.old) }
    ensures at { WritesAt S.tells act.now.response_path (S.world site.old) (S.world site.new) }
    ensures written { WritesResponse S.tells S.world site.old site.new act.now result }
{
    if act.response_path.is_empty() {
        return Ok(());
    }
    let content = act.response_content.to_text(alloc)?;
    site.write(act.response_path.as_str(), content.as_str().as_bytes())
}

/// Removes the response file that the act names, if it names one. Where it fails, it is as it was, or gone.
pub fn remove_response<S: Site>(site: &mut S, act: &Act) -> Result<(), SiteFault>
    requires running { (S.world site.old).stopped ≡ false }
    ensures cause { HasCause (S.world site.old) (S.world site.new) result }
    ensures none { act.now.response_path ≡ [] → IsOk result × (S.world site.new ≡ S.world site.old) }
    ensures at { WritesAt S.tells act.now.response_path (S.world site.old) (S.world site.new) }
    ensures removed { RemovesIfNamed S.tells S.world site.old site.new act.now.response_path result }
{
    if act.response_path.is_empty() {
        return Ok(());
    }
    site.remove(act.response_path.as_str())
}
