//! What was done through links that a command made itself.

ghost use Rattle.std.specs.Prelude.{◌≡◌};
ghost use Rattle.auditor.specs.Links.{is_at_own, is_elsewhere, is_through_own, leads_at, leads_through};

use audit::{Way, Whole};

/// Whether the file has another path, by which it is known too, and a link that the command made stands at the path itself, or the command gave
/// the file that path beside the other one.
#[tactic(auto, unfolding(crate::specs::Links::is_at_own))]
pub fn is_at_own(whole: &Whole) -> bool
    ensures { result ≡ is_at_own whole.now }
{
    is_elsewhere(whole) && leads_at(whole.way)
}

/// Whether the file has another path, by which it is known too, and a link to a folder that the command made stands on the way.
#[tactic(auto, unfolding(crate::specs::Links::is_through_own))]
pub fn is_through_own(whole: &Whole) -> bool
    ensures { result ≡ is_through_own whole.now }
{
    is_elsewhere(whole) && leads_through(whole.way)
}

/// Whether the file has another path, by which it is known too.
fn is_elsewhere(whole: &Whole) -> bool
    ensures { result ≡ is_elsewhere whole.now.path whole.now.real }
{
    match &whole.real {
        Some(real) => real.as_str() != whole.path.as_str(),
        None => false,
    }
}

fn leads_at(way: Way) -> bool
    ensures { result ≡ leads_at way }
{
    matches!(way, Way::At | Way::Twin)
}

fn leads_through(way: Way) -> bool
    ensures { result ≡ leads_through way }
{
    matches!(way, Way::Own)
}
