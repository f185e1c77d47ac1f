//! Whether the depfile of a command is there.

ghost use Rattle.std.specs.Prelude.{◌≡◌, false};
ghost use Rattle.model.specs.Calls.{OnlyLooks, HasCause};
ghost use Rattle.judge.specs.Facts.{FindsDepfile};

use model::{Deps, SiteFault};
use paths::Command;
use site::Site;

/// Whether the depfile is there that the command is to leave (manual: "Depfile"). Of a command that names none, or whose depfile
/// is removed once it is read, the site is not asked.
pub(crate) fn has_depfile<S: Site>(site: &mut S, command: &Command) -> Result<bool, SiteFault>
    requires running { (S.world site.old).stopped ≡ false }
    ensures looks { OnlyLooks S.tells (S.world site.old) (S.world site.new) }
    ensures cause { HasCause (S.world site.old) (S.world site.new) result }
    ensures there { FindsDepfile S.tells S.world site.old site.new command.now result }
{
    if command.deps != Deps::Unset || command.act.depfile.is_empty() {
        return Ok(false);
    }
    Ok(site.stat(command.act.depfile.as_str())?.is_some())
}
