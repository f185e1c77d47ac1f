//! What was done at each path, in canonical form, and where names lead.

ghost use Rattle.std.specs.Prelude.{◌≡◌, IfOk, IfSome};
ghost use Rattle.audit.specs.Wholes.{AreWhole, IsLedBy, IsOpened, IsOtherOf, IsPath, IsPlacedOther, IsPlacedTo, IsWholeOf, asks_of, is_led, peeks, sees_old, sees_others, whole_from, writes};

use crate::lead::{Asks, Links, Trail, Way, lead};
use crate::standing::Standing;
use lexer::{ReadFault, canonical};
use std::alloc::{AllocError, Global};
use std::str::from_utf8;
use text::{Bytes, Items, Path};
use trace::{Deed, Fact};

/// What was done at a path, which is canonical. Where it is one of the build, it begins at the root.
#[derive(Drop)]
pub struct Whole {
    pub deed: Deed,
    pub path: Path,
    /// By which path the kernel has the file, where the trace tells it, or links on the way do; or by which other one the command had it.
    pub real: Option<Path>,
    /// Of a file that was given this path: by which other one it had it. Of a link: where it leads, as it is written.
    pub other: Option<Path>,
    /// The path went up behind a name before it was made canonical.
    pub up: bool,
    /// What stands on the way to the file.
    pub way: Way,
}

/// The facts with their paths in canonical form, and where these lead, by the links that the command made and by those of others, as far as
/// these are known; none where a path is no text, or where it cannot be told where one leads. Each fact is looked at once.
pub fn wholes_of(
    alloc: Global,
    old: &Standing,
    facts: &[Fact],
) -> Result<Option<Items<Whole>>, AllocError>
    ensures { IfOk result (λ found. IfSome found (AreWhole old.now facts.now)) }
{
    let mut own = Standing::none(alloc);
    let mut wholes = Items::new(alloc);
    for fact in facts {
        let Some(whole) = whole_by(alloc, &own, old, fact)? else {
            return Ok(None);
        };
        own.take(alloc, &whole)?;
        wholes.push(whole)?;
    }
    Ok(Some(wholes))
}

/// A fact with its paths in canonical form, and where they lead, by what the command put at paths and others did; none where one is no text, or
/// where that cannot be told.
pub fn whole_by<'k>(
    alloc: Global,
    own: &'k Standing,
    old: &'k Standing,
    fact: &Fact,
) -> Result<Option<Whole>, AllocError>
    ensures { IfOk result (λ found. IfSome found (IsWholeOf own.now old.now fact.now)) }
{
    let links = Links { own, old };
    let Some(path) = path_of(alloc, &fact.path)? else {
        return Ok(None);
    };
    let Some(led) = led_of(alloc, &links, fact)? else {
        return Ok(None);
    };
    let Some(other) = other_of(alloc, &links, fact)? else {
        return Ok(None);
    };
    Ok(Some(whole_from(fact, path, led, other)))
}

/// The other path of a thing, if it has one.
#[derive(Drop)]
struct Other {
    path: Option<Path>,
}

fn whole_from(fact: &Fact, path: Path, led: Trail, other: Other) -> Whole
    ensures { result ≡ whole_from fact.now path led other.path }
{
    Whole {
        deed: fact.deed,
        path,
        real: led.path,
        other: other.path,
        up: fact.up,
        way: led.way,
    }
}

/// By which path the kernel has the file of a fact, and what stands on the way to it; none where that is no text, or cannot be told.
fn led_of(alloc: Global, links: &Links<'_>, fact: &Fact) -> Result<Option<Trail>, AllocError>
    ensures { IfOk result (λ found. IfSome found (IsLedBy links.now.own.now links.now.old.now fact.now)) }
{
    let Ok(name) = from_utf8(fact.path.as_slice()) else {
        return Ok(None);
    };
    let found = lead(alloc, links, asks_of(fact), name)?;
    match &fact.real {
        Some(real) => opened(alloc, real, found),
        None => Ok(found),
    }
}

/// The same of a file that the kernel has by this path, where its name leads there.
fn opened(alloc: Global, real: &Bytes, found: Option<Trail>) -> Result<Option<Trail>, AllocError>
    ensures { IfOk result (λ led. IfSome led (IsOpened real.now found)) }
{
    let Some(real) = path_of(alloc, real)? else {
        return Ok(None);
    };
    let Some(found) = found else {
        return Ok(Some(Trail {
            path: Some(real),
            way: Way::Plain,
        }));
    };
    if found.way.is_twin() {
        return Ok(Some(found));
    }
    Ok(Some(Trail {
        path: Some(real),
        way: found.way,
    }))
}

/// What a fact asks for by its name. That a file was looked for, and that a folder is there, is told by the name alone where that does not go up.
fn asks_of(fact: &Fact) -> Asks
    ensures { result ≡ asks_of fact.now }
{
    Asks {
        follows: fact.follows,
        sees: sees_others(fact),
        writes: writes(fact.deed),
    }
}

/// Whether links count that the command did not make: where the trace does not tell by which path the kernel has the file, and of what is written.
fn sees_others(fact: &Fact) -> bool
    ensures { result ≡ sees_others fact.now }
{
    fact.up || (sees_old(fact.deed) && (fact.real.is_none() || writes(fact.deed)))
}

/// Whether such a thing may be one of a file.
fn sees_old(deed: Deed) -> bool
    ensures { result ≡ sees_old deed }
{
    !matches!(
        deed,
        Deed::Missed | Deed::Sought | Deed::Folder | Deed::Connected
    )
}

/// Whether the file is written, or its stamp is set.
pub fn writes(deed: Deed) -> bool
    ensures { result ≡ writes deed }
{
    matches!(
        deed,
        Deed::Wrote | Deed::Into | Deed::Stamped | Deed::Emptied
    )
}

/// The other path of a fact: of a link where it leads, as it is written; else where that one leads. None where it is no text, or cannot be told.
fn other_of(alloc: Global, links: &Links<'_>, fact: &Fact) -> Result<Option<Other>, AllocError>
    ensures { IfOk result (λ found. IfSome found (λ other. IsOtherOf links.now.own.now links.now.old.now fact.now other.path)) }
{
    let Some(other) = &fact.other else {
        return Ok(Some(Other { path: None }));
    };
    if is_led(fact.deed) {
        return target_of(alloc, other);
    }
    placed(alloc, links, other)
}

/// Whether it is a link that was made.
fn is_led(deed: Deed) -> bool
    ensures { result ≡ is_led deed }
{
    matches!(deed, Deed::Led)
}

/// Where a link leads, as it is written, if that is a text.
fn target_of(alloc: Global, bytes: &Bytes) -> Result<Option<Other>, AllocError>
    ensures { IfOk result (λ found. IfSome found (λ other. other.path ≡ Some bytes.now)) }
{
    let Ok(name) = from_utf8(bytes.as_slice()) else {
        return Ok(None);
    };
    let path = Path::from_str(alloc, name)?;
    Ok(Some(Other { path: Some(path) }))
}

/// Where a path leads, what stands there not followed.
fn placed(alloc: Global, links: &Links<'_>, bytes: &Bytes) -> Result<Option<Other>, AllocError>
    ensures { IfOk result (λ found. IfSome found (λ other. IsPlacedOther links.now.own.now links.now.old.now bytes.now other.path)) }
{
    let Ok(name) = from_utf8(bytes.as_slice()) else {
        return Ok(None);
    };
    match lead(alloc, links, peeks(), name)? {
        Some(found) => placed_by(alloc, bytes, found.path),
        None => Ok(None),
    }
}

/// The path that was led to, or else the canonical form of these bytes.
fn placed_by(alloc: Global, bytes: &Bytes, led: Option<Path>) -> Result<Option<Other>, AllocError>
    ensures { IfOk result (λ found. IfSome found (λ other. IsPlacedTo bytes.now led other.path)) }
{
    if let Some(led) = led {
        return Ok(Some(Other { path: Some(led) }));
    }
    match path_of(alloc, bytes)? {
        Some(path) => Ok(Some(Other { path: Some(path) })),
        None => Ok(None),
    }
}

/// What stands at the path itself is asked for.
fn peeks() -> Asks
    ensures { result ≡ peeks }
{
    Asks {
        follows: false,
        sees: true,
        writes: false,
    }
}

/// The canonical path of these bytes, if they are a text. The empty one has none.
fn path_of(alloc: Global, path: &Bytes) -> Result<Option<Path>, AllocError>
    ensures { IfOk result (λ found. IfSome found (IsPath path.now)) }
{
    let Ok(path) = from_utf8(path.as_slice()) else {
        return Ok(None);
    };
    match canonical(alloc, path) {
        Ok(path) => Ok(Some(Path::from_string(path))),
        Err(ReadFault::EmptyPath) => Ok(None),
        Err(ReadFault::Memory) => Err(AllocError),
    }
}
