//! A path that contracts see as its bytes.

ghost use Rattle.std.specs.Prelude.{◌≡◌, ◌↔◌, [], IfOk, IsTrue, string_bytes};

use std::alloc::{AllocError, Global};
use std::fmt;
use std::marker::Model;

/// The text of a path, which contracts see as the list of its bytes.
///
/// A path names a file by its canonical form; two paths are the same file exactly where their bytes are the same.
#[derive(Debug, Drop)]
pub struct Path {
    string: String,
}

impl Model for Path {
    ghost use Rattle.std.specs.Prelude.{ℕ, List, string_bytes};

    ghost Value = { List ℕ };

    ghost view = { λ path. string_bytes path.string };
}

impl Path {
    /// The empty path, which takes no memory.
    pub fn new(alloc: Global) -> Path
        ensures { result ≡ [] }
    {
        Path {
            string: String::new(alloc),
        }
    }

    /// A path of its own with these characters.
    pub fn from_str(alloc: Global, text: &str) -> Result<Path, AllocError>
        ensures { IfOk result (λ copy. copy ≡ text.now) }
    {
        Ok(Path {
            string: String::from_str(alloc, text)?,
        })
    }

    /// The path in a `String`, which takes no memory.
    pub fn from_string(string: String) -> Path
        ensures { result ≡ string_bytes string }
    {
        Path { string }
    }

    /// Gives the `String` back, which takes no memory.
    pub fn into_string(self) -> String
        ensures { string_bytes result ≡ self }
    {
        let Path { string } = self;
        string
    }

    /// The characters of the path.
    pub fn as_str(&self) -> &str
        ensures { result.now ≡ self.now }
    {
        self.string.as_str()
    }

    /// Whether there is no character in it.
    pub fn is_empty(&self) -> bool
        ensures { IsTrue result ↔ (self.now ≡ []) }
    {
        self.string.is_empty()
    }
}

impl Clone for Path {
    ghost is_clone = { λ this copy. copy ≡ this };

    fn clone(&self) -> Result<Path, AllocError> {
        Ok(Path {
            string: self.string.clone()?,
        })
    }
}

impl PartialEq for Path {
    ghost use Rattle.std.specs.Prelude.{bytes_eq};
    ghost use Rattle.std.specs.Cmp.Lexicographic.{nat_list_eq_equiv};
    ghost use Rattle.std.specs.Cmp.{partial_equiv_from_equiv};

    ghost eq = { bytes_eq };

    ghost laws = { partial_equiv_from_equiv nat_list_eq_equiv };

    fn eq(&self, other: &Path) -> bool {
        self.as_str() == other.as_str()
    }
}

impl Eq for Path {
    ghost use Rattle.std.specs.Cmp.Lexicographic.{nat_list_eq_equiv};

    ghost laws = { nat_list_eq_equiv };
}

impl fmt::Display for Path {
    ghost use Rattle.std.specs.Prelude.{Some};

    ghost output = { λ path. Some path };

    fn fmt<W: fmt::Write>(&self, f: &mut fmt::Formatter<W>) -> fmt::Result {
        f.write_str(self.as_str())
    }
}
