//! Texts that grow up to the size that a value may have.

ghost use Rattle.std.specs.Prelude.{◌++◌, OnOk, IsErrOf, map};
ghost use Rattle.std.specs.Map.Iter.{deref};
ghost use Rattle.scopes.specs.Growing.{Adds, IsTooMuch, KeepsToSize};
ghost use Rattle.scopes.specs.Texts.{joined};
ghost use Rattle.scopes.specs.declared.fault.ExpandFault.TheVariants.{TooLarge};

use crate::fault::ExpandFault;

/// The most bytes that an expanded value may have.
pub const LARGEST_VALUE: usize = 16 * 1024 * 1024;

/// Puts characters at the end.
pub fn append(text: &mut String, more: &str) -> Result<(), ExpandFault>
    ensures value { OnOk result (Adds text.old text.new more.now) }
    ensures size { KeepsToSize text.old text.new }
    ensures large { IsErrOf result TooLarge → IsTooMuch text.old more.now }
{
    if text.len().saturating_add(more.len()) > LARGEST_VALUE {
        return Err(ExpandFault::TooLarge);
    }
    text.push_str(more)?;
    Ok(())
}

/// Puts paths at the end, with the separator between each two.
pub fn append_joined(text: &mut String, separator: &str, paths: &[&str]) -> Result<(), ExpandFault>
    ensures value { OnOk result (Adds text.old text.new (joined separator.now (map deref paths.now))) }
    ensures size { KeepsToSize text.old text.new }
    ensures large { IsErrOf result TooLarge → IsTooMuch text.old (joined separator.now (map deref paths.now)) }
{
    let [first, rest @ ..] = paths else {
        return Ok(());
    };
    append(text, first)?;
    for path in rest {
        append_next(text, separator, path)?;
    }
    Ok(())
}

/// The separator and the path.
fn append_next(text: &mut String, separator: &str, path: &str) -> Result<(), ExpandFault>
    ensures value { OnOk result (Adds text.old text.new (separator.now ++ path.now)) }
    ensures size { KeepsToSize text.old text.new }
    ensures large { IsErrOf result TooLarge → IsTooMuch text.old (separator.now ++ path.now) }
{
    append(text, separator)?;
    append(text, path)?;
    Ok(())
}
