//! What is read before a build.

ghost use Rattle.std.specs.Prelude.{◌≡◌, IfOk, IfErr};
ghost use Rattle.builder.specs.Build.{IsUnread, WasRead};

use crate::asked::Asked;
use paths::Manifest;
use site::Texts;
use std::alloc::Global;
use text::Text;
use work::{Options, Report};

/// What was read of build files, and what is asked of it.
#[derive(Drop)]
pub struct Reading<'a> {
    /// What the build files declare.
    pub manifest: Manifest,
    /// The targets, the limits, and the folder of the program's own files.
    pub asked: Asked<'a>,
}

/// Reads the build files, and what these options and targets ask of them; no targets stand for the default ones. Nothing is started or
/// written.
///
/// # Errors
///
/// The report of a build whose files were not read: they have a fault, the site gave one, or there was no memory.
pub fn read<'a, R: Texts>(
    alloc: Global,
    site: &mut R,
    options: &Options,
    targets: &'a [Text],
) -> Result<Reading<'a>, Report>
    ensures read { IfOk result (WasRead R.tells options.now (R.world site.old) (R.world site.new)) }
    ensures given { IfOk result (λ reading. reading.asked.given.now ≡ targets.now) }
    ensures unread { IfErr result (IsUnread R.tells options.now.file (R.world site.old) (R.world site.new)) }
{
    let manifest = manifest::read(alloc, site, options.file.as_str())?;
    let asked = Asked::new(alloc, options, targets, &manifest.builddir)?;
    Ok(Reading { manifest, asked })
}
