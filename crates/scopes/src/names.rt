//! Values by name.

ghost use Rattle.std.specs.Prelude.{◌≡◌};
ghost use Rattle.std.specs.Option.{option_copied};
ghost use Rattle.std.specs.Str.{bytes_eq};
ghost use Rattle.indexmap.specs.IndexMap.{get_by_text};

use indexmap::IndexMap;

/// So many names are compared one by one, which takes less than a hash.
pub const FEW: usize = 8;

/// The value of a name.
pub fn value_of<'a, V>(values: &'a IndexMap<String, V>, name: &str) -> Option<&'a V>
    ensures { option_copied result ≡ get_by_text values.now name.now }
{
    if values.len() > FEW {
        return values.get(name);
    }
    for (other, value) in values.iter() {
        if is_same(name, other.as_str()) {
            return Some(value);
        }
    }
    None
}

/// Whether the names are the same. Most differ in length.
#[inline(always)]
pub fn is_same(name: &str, other: &str) -> bool
    ensures { result ≡ bytes_eq name.now other.now }
{
    if name.len() != other.len() {
        return false;
    }
    name == other
}
