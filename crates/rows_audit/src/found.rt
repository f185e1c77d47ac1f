//! What breaks a premise.

use audit::{Around, Place, Use, findings};
use std::alloc::{AllocError, Global};
use tables::{push_word, word};
use trace::Deed;

/// `find DEEDS PLACE`: what breaks a premise.
pub fn push_found(alloc: Global, row: &str, told: &mut String) -> Result<(), AllocError> {
    let (deeds, place) = word(row);
    let found = findings(alloc, place_of(place), use_of(deeds))?;
    for finding in found.as_slice() {
        push_word(told, finding.verb())?;
        told.push_str(" it")?;
        told.push_str(finding.why())?;
        told.push(';')?;
    }
    Ok(())
}

fn use_of(deeds: &str) -> Use {
    let mut used = Use::none();
    for deed in deeds.split(',') {
        if let Some(deed) = deed_of(deed) {
            used = used.with(deed);
        }
    }
    used
}

/// What is called so.
pub fn deed_of(name: &str) -> Option<Deed> {
    match name {
        "read" => Some(Deed::Read),
        "wrote" => Some(Deed::Wrote),
        "into" => Some(Deed::Into),
        "stamped" => Some(Deed::Stamped),
        "linked" => Some(Deed::Linked),
        "moved" => Some(Deed::Moved),
        "led" => Some(Deed::Led),
        "emptied" => Some(Deed::Emptied),
        "removed" => Some(Deed::Removed),
        "left" => Some(Deed::Left),
        "listed" => Some(Deed::Listed),
        "asked" => Some(Deed::Asked),
        "missed" => Some(Deed::Missed),
        "sought" => Some(Deed::Sought),
        "folder" => Some(Deed::Folder),
        "made" => Some(Deed::Made),
        _ => None,
    }
}

fn place_of(words: &str) -> Place {
    Place {
        output: is_said(words, "output"),
        side: is_said(words, "side"),
        input: is_said(words, "input"),
        order_only: is_said(words, "order_only"),
        reported: is_said(words, "reported"),
        restat: is_said(words, "restat"),
        around: Around {
            made: is_said(words, "made"),
            above: is_said(words, "above"),
            named: is_said(words, "named"),
            recorded: is_said(words, "recorded"),
            inside: is_said(words, "inside"),
            own: is_said(words, "own"),
            scratch: is_said(words, "scratch"),
            left: is_said(words, "left"),
            filled: is_said(words, "filled"),
        },
    }
}

fn is_said(words: &str, word: &str) -> bool {
    for one in words.split(',') {
        if one == word {
            return true;
        }
    }
    false
}
