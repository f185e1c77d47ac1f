//! Both logs of a build.

ghost use Rattle.std.specs.Prelude.{◌≡◌, IfOk, false, string_bytes};
ghost use Rattle.model.specs.Calls.{OnlyLooks, HasCause};
ghost use Rattle.records.specs.Laws.{WereReadSo};

use crate::file::LogFile;
use log_text::Stock;
use model::{Record, SiteFault};
use site::Site;

/// The files of both logs.
#[derive(Drop)]
pub struct Logs {
    pub build_log: LogFile<log_text::BuildLog>,
    pub deps_log: LogFile<log_text::DepsLog>,
}

impl Logs {
    /// Reads the logs at these paths, that of the build first, with what may be taken over from the stock. It only looks.
    pub(crate) fn read<S: Site>(
        stock: &Stock<'_>,
        site: &mut S,
        build_log: String,
        deps_log: String,
    ) -> Result<Logs, SiteFault>
        requires running { (S.world site.old).stopped ≡ false }
        ensures looks { OnlyLooks S.tells (S.world site.old) (S.world site.new) }
        ensures cause { HasCause (S.world site.old) (S.world site.new) result }
        ensures build_log { IfOk result (λ logs. logs.build_log.path ≡ string_bytes build_log) }
        ensures deps_log { IfOk result (λ logs. logs.deps_log.path ≡ string_bytes deps_log) }
        ensures read { IfOk result (WereReadSo S.tells (S.world site.old) (S.world site.new)) }
    {
        let build_log = LogFile::read(stock, site, build_log)?;
        let deps_log = LogFile::read(stock, site, deps_log)?;
        Ok(Logs {
            build_log,
            deps_log,
        })
    }
}
