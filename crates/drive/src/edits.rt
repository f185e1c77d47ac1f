//! Edits of files.

ghost use Rattle.std.specs.Prelude.{Some, None, IfOk, OnErr};
ghost use Rattle.model.specs.Driven.{IsCutEdit};
ghost use Rattle.drive.specs.Driven.{IsUnrefused};
ghost use Rattle.drive.specs.Moves.{EndsEdit, IsEdited};

use model::SiteFault;
use site::Site;
use std::alloc::AllocError;
use text::{Bytes, Path};

/// Writes the file, and answers whether the site stopped in that. What the device refuses is passed over.
pub fn write<S: Site>(site: &mut S, path: &Path, content: &Bytes) -> Result<bool, AllocError>
    ensures edited { IfOk result (λ again. IsEdited S.tells path.now (Some content.now) again (S.world site.old) (S.world site.new)) }
    ensures cut { OnErr result (IsCutEdit S.tells path.now (Some content.now) (S.world site.old) (S.world site.new)) }
    ensures unrefused { OnErr result (IsUnrefused (S.world site.old) (S.world site.new)) }
{
    stopped_in(site.write(path.as_str(), content.as_slice()))
}

/// Deletes the file, and answers whether the site stopped in that. What the device refuses is passed over.
pub fn delete<S: Site>(site: &mut S, path: &Path) -> Result<bool, AllocError>
    ensures edited { IfOk result (λ again. IsEdited S.tells path.now None again (S.world site.old) (S.world site.new)) }
    ensures cut { OnErr result (IsCutEdit S.tells path.now None (S.world site.old) (S.world site.new)) }
    ensures unrefused { OnErr result (IsUnrefused (S.world site.old) (S.world site.new)) }
{
    stopped_in(site.remove(path.as_str()))
}

/// Whether the site stopped in an edit that ended so.
fn stopped_in(edit: Result<(), SiteFault>) -> Result<bool, AllocError>
    ensures { EndsEdit edit result }
{
    match edit {
        Ok(()) => Ok(false),
        Err(SiteFault::Device) => Ok(false),
        Err(SiteFault::Stopped) => Ok(true),
        Err(SiteFault::Memory) => Err(AllocError),
    }
}
