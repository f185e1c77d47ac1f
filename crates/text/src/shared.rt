//! A text that several hold.

ghost use Rattle.std.specs.Prelude.{◌≡◌, ◌≤◌, ◌++◌, [], length, bytes_eq, string_bytes, IfOk, OnOk};
ghost use Rattle.std.specs.Str.{IsUtf8};
ghost use Rattle.text.specs.Shared.{held};

use crate::Text;
use crate::marks::behind;
use std::alloc::{AllocError, Global};
use std::marker::Model;
use std::rc::Rc;

/// A text that stands in memory once, however many hold it: a copy takes none. What it begins with may be that of other texts, too. Contracts
/// see it as the list of its bytes.
///
/// It is for long texts that are kept in several places. Who has one to itself keeps a `Text`, which takes 32 bytes less.
#[derive(Debug, Drop)]
pub struct SharedText {
    /// None for nothing; so is what follows.
    front: Option<Rc<Text>>,
    rest: Option<Rc<Text>>,
}

impl Model for SharedText {
    ghost use Rattle.std.specs.Prelude.{ℕ, List, ◌++◌};
    ghost use Rattle.text.specs.Shared.{held};

    ghost Value = { List ℕ };

    ghost view = { λ shared. held shared.front ++ held shared.rest };
}

/// What several texts begin with.
#[derive(Debug, Drop)]
pub struct Front {
    text: Rc<Text>,
}

impl Model for Front {
    ghost use Rattle.std.specs.Prelude.{ℕ, List};

    ghost Value = { List ℕ };

    ghost view = { λ front. front.text.value };
}

impl Front {
    /// A text of its own with these characters.
    pub fn from_str(alloc: Global, text: &str) -> Result<Front, AllocError>
        ensures { IfOk result (λ front. front ≡ text.now) }
    {
        let own = Text::from_str(alloc, text)?;
        let text = Rc::new(alloc, own)?;
        Ok(Front { text })
    }

    /// The characters.
    pub fn as_str(&self) -> &str
        ensures { result.now ≡ self.now }
    {
        self.text.as_str()
    }
}

impl SharedText {
    /// The empty text, which takes no memory.
    pub fn new() -> SharedText
        ensures { result ≡ [] }
    {
        SharedText {
            front: None,
            rest: None,
        }
    }

    /// This text, which nobody else holds yet. The empty one takes no memory.
    pub fn from_text(alloc: Global, text: Text) -> Result<SharedText, AllocError>
        ensures { IfOk result (λ shared. shared ≡ text) }
    {
        if text.is_empty() {
            return Ok(SharedText::new());
        }
        let text = Rc::new(alloc, text)?;
        Ok(SharedText {
            front: None,
            rest: Some(text),
        })
    }

    /// A text of its own with these characters. The empty one takes no memory.
    pub fn from_str(alloc: Global, text: &str) -> Result<SharedText, AllocError>
        ensures { IfOk result (λ shared. shared ≡ text.now) }
    {
        let own = Text::from_str(alloc, text)?;
        SharedText::from_text(alloc, own)
    }

    /// These characters behind a front, of which no copy is made.
    pub fn with_front(alloc: Global, front: &Front, rest: &str) -> Result<SharedText, AllocError>
        ensures { IfOk result (λ shared. shared ≡ front.now ++ rest.now) }
    {
        let own = Text::from_str(alloc, rest)?;
        let front = front.text.clone()?;
        let rest = Rc::new(alloc, own)?;
        Ok(SharedText {
            front: Some(front),
            rest: Some(rest),
        })
    }

    /// The text in two parts, one behind the other.
    pub fn parts(&self) -> (&str, &str)
        ensures text { self.now ≡ result.0.now ++ result.1.now }
        ensures utf8 { IsUtf8 self.now }
    {
        (characters(&self.front), characters(&self.rest))
    }

    /// Whether it has these characters.
    pub fn is(&self, text: &str) -> bool
        ensures { result ≡ bytes_eq self.now text.now }
    {
        let (front, rest) = self.parts();
        are_same(front.as_bytes(), rest.as_bytes(), text.as_bytes(), b"")
    }

    /// Puts the text behind another. Where memory is refused, a part of it may stand there.
    pub fn push_to(&self, text: &mut String) -> Result<(), AllocError>
        ensures { OnOk result (string_bytes text.new ≡ string_bytes text.old ++ self.now) }
    {
        let (front, rest) = self.parts();
        text.push_str(front)?;
        text.push_str(rest)?;
        Ok(())
    }

    /// A copy of the text in one piece.
    pub fn to_text(&self, alloc: Global) -> Result<Text, AllocError>
        ensures { IfOk result (λ text. text ≡ self.now) }
    {
        let mut text = String::new(alloc);
        self.push_to(&mut text)?;
        Ok(Text::from_string(text))
    }
}

/// The characters of a part.
fn characters(part: &Option<Rc<Text>>) -> &str
    ensures { result.now ≡ held part.now }
{
    match part {
        Some(text) => text.as_str(),
        None => "",
    }
}

/// Whether two texts are the same that come in two parts each.
fn are_same(a: &[u8], b: &[u8], c: &[u8], d: &[u8]) -> bool
    ensures { result ≡ bytes_eq (a.now ++ b.now) (c.now ++ d.now) }
{
    if a.len() <= c.len() {
        are_same_from(a, b, c, d)
    } else {
        are_same_from(c, d, a, b)
    }
}

/// The same where the first part of the one is no longer than that of the other.
fn are_same_from(a: &[u8], b: &[u8], c: &[u8], d: &[u8]) -> bool
    requires { length a.now ≤ length c.now }
    ensures { result ≡ bytes_eq (a.now ++ b.now) (c.now ++ d.now) }
{
    let Some(more) = behind(a, c) else {
        return false;
    };
    let Some(last) = behind(more, b) else {
        return false;
    };
    last == d
}

impl Clone for SharedText {
    ghost is_clone = { λ this copy. copy ≡ this };

    /// The same text, which takes no memory.
    fn clone(&self) -> Result<SharedText, AllocError> {
        Ok(SharedText {
            front: again(&self.front)?,
            rest: again(&self.rest)?,
        })
    }
}

/// The same part once more.
fn again(part: &Option<Rc<Text>>) -> Result<Option<Rc<Text>>, AllocError>
    ensures { IfOk result (λ same. held same ≡ held part.now) }
{
    match part {
        Some(text) => Ok(Some(text.clone()?)),
        None => Ok(None),
    }
}

impl PartialEq for SharedText {
    ghost use Rattle.std.specs.Prelude.{bytes_eq};
    ghost use Rattle.std.specs.Cmp.Lexicographic.{nat_list_eq_equiv};
    ghost use Rattle.std.specs.Cmp.{partial_equiv_from_equiv};

    ghost eq = { bytes_eq };

    ghost laws = { partial_equiv_from_equiv nat_list_eq_equiv };

    fn eq(&self, other: &SharedText) -> bool {
        let (front, rest) = self.parts();
        let (other_front, other_rest) = other.parts();
        are_same(
            front.as_bytes(),
            rest.as_bytes(),
            other_front.as_bytes(),
            other_rest.as_bytes(),
        )
    }
}

impl Eq for SharedText {
    ghost use Rattle.std.specs.Cmp.Lexicographic.{nat_list_eq_equiv};

    ghost laws = { nat_list_eq_equiv };
}
