//! Escapes of a terminal, which are left out of what commands print.

ghost use Rattle.std.specs.Prelude.{◌≡◌, ◌++◌, ◌∷◌, ℕ, List, [], codes, false, IfOk, OnOk, ◌==◌, if◌then◌else◌};
ghost use Rattle.std.specs.List.{list_any};
ghost use Rattle.ninja_words.specs.Escapes.{behind, behind_all, kept, left};

use std::alloc::AllocError;

/// The byte by which escapes begin.
const ESC: u8 = 27;

/// How far an escape has come.
#[derive(Clone, Copy)]
pub enum Escape {
    /// No escape has begun that has not ended.
    Outside,
    /// ESC stands in front.
    Opened,
    /// ESC and a bracket have come, and no letter since.
    Inside,
}

/// Puts a text behind another one without its escapes: without each byte ESC and, where a bracket follows, all up to and with the first
/// letter behind that. An escape may begin in one text and end in the next; how far one has come is answered. This takes a time of the
/// order of the text.
pub fn push_left(text: &mut Vec<u8>, escape: Escape, printed: &[u8]) -> Result<Escape, AllocError>
    ensures text { OnOk result (text.new.items ≡ text.old.items ++ left escape printed.now) }
    ensures escape { IfOk result (λ after. after ≡ behind_all escape printed.now) }
{
    match escape {
        Escape::Outside => push_outside(text, printed),
        Escape::Opened | Escape::Inside => push_each(text, escape, printed),
    }
}

/// The same where no escape has begun: what has none is put there as a whole.
fn push_outside(text: &mut Vec<u8>, printed: &[u8]) -> Result<Escape, AllocError>
    ensures text { OnOk result (text.new.items ≡ text.old.items ++ left Escape.Outside printed.now) }
    ensures escape { IfOk result (λ after. after ≡ behind_all Escape.Outside printed.now) }
{
    if printed.contains(&ESC) {
        return push_each(text, Escape::Outside, printed);
    }
    text.extend_from_slice(printed)?;
    Ok(Escape::Outside)
}

/// The same, byte by byte.
fn push_each(text: &mut Vec<u8>, escape: Escape, printed: &[u8]) -> Result<Escape, AllocError>
    ensures text { OnOk result (text.new.items ≡ text.old.items ++ left escape printed.now) }
    ensures escape { IfOk result (λ after. after ≡ behind_all escape printed.now) }
{
    let mut come = escape;
    for byte in printed {
        push_kept(text, come, *byte)?;
        come = behind(come, *byte);
    }
    Ok(come)
}

/// Puts a byte behind a text, unless it is a part of an escape.
fn push_kept(text: &mut Vec<u8>, escape: Escape, byte: u8) -> Result<(), AllocError>
    ensures { OnOk result (text.new.items ≡ text.old.items ++ kept escape byte) }
{
    if is_part(escape, byte) {
        return Ok(());
    }
    text.push(byte)?;
    Ok(())
}

/// Whether a byte is a part of an escape that has come so far.
fn is_part(escape: Escape, byte: u8) -> bool
    ensures { kept escape byte ≡ (if result then [] else byte ∷ []) }
{
    match escape {
        Escape::Outside => byte == ESC,
        Escape::Opened => byte == ESC || byte == b'[',
        Escape::Inside => true,
    }
}

/// How far an escape has come behind one more byte.
fn behind(escape: Escape, byte: u8) -> Escape
    ensures { result ≡ behind escape byte }
{
    match escape {
        Escape::Outside => behind_none(byte),
        Escape::Opened => behind_first(byte),
        Escape::Inside => behind_bracket(byte),
    }
}

fn behind_none(byte: u8) -> Escape
    ensures { result ≡ behind Escape.Outside byte }
{
    if byte == ESC {
        Escape::Opened
    } else {
        Escape::Outside
    }
}

fn behind_first(byte: u8) -> Escape
    ensures { result ≡ behind Escape.Opened byte }
{
    if byte == ESC {
        Escape::Opened
    } else if byte == b'[' {
        Escape::Inside
    } else {
        Escape::Outside
    }
}

fn behind_bracket(byte: u8) -> Escape
    ensures { result ≡ behind Escape.Inside byte }
{
    if byte.is_ascii_alphabetic() {
        Escape::Outside
    } else {
        Escape::Inside
    }
}

/// A text without ESC is left as it is; of any other no ESC is left.
pub fn escapes_are_left_out()
    ensures same { (text : List ℕ) → list_any (λ byte. byte == 27) text ≡ false → left Escape.Outside text ≡ text }
    ensures none { (escape : Escape) (text : List ℕ) → list_any (λ byte. byte == 27) (left escape text) ≡ false }
    ensures worked { left Escape.Outside (27 ∷ codes "[1;31mred" ++ 27 ∷ codes "[0m, plain") ≡ codes "red, plain" }
{}
