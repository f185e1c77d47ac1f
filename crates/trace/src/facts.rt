//! What a call did at its paths.

ghost use Rattle.std.specs.Prelude.{◌≡◌, ◌++◌, ◌∷◌, [], IfOk, OnOk, false, option_map};
ghost use Rattle.trace.specs.Facts.{answered, arguments_for, call_seen, deeds, done, emptied, empties, fact, facts_of, follows, goes_on, goes_up, is_no_folder, led, looked, missed, missed_by, only_stamps, opened, paths_of, placed, read_and_written, removed, stays, with_linked, with_moved, with_target};

use crate::arguments::{behind, descriptor, first_argument, is_rooted, path_at, quoted};
use crate::calls::Does;
use crate::ending::{End, ending_of};
use crate::fact::{Deed, Fact};
use crate::marks::has;
use crate::parts::Call;
use std::alloc::{AllocError, Global};
use text::{Bytes, Items};

/// The paths of a call: of those that name one, the other is empty.
#[derive(Debug, Drop)]
pub struct Paths {
    pub path: Bytes,
    pub other: Bytes,
}

/// The paths that a call names, of a process that is in this folder.
pub fn paths_of(
    alloc: Global,
    call: &Call<'_>,
    folder: Option<&Bytes>,
) -> Result<Option<Paths>, AllocError>
    ensures { IfOk result (λ paths. paths ≡ paths_of (call_seen call.now) (option_map (λ folder. folder.now) folder.entry)) }
{
    let arguments = arguments_for(call.row.does, call.arguments);
    let form = call.row.form;
    let Some(path) = path_at(alloc, form, folder, arguments)? else {
        return Ok(None);
    };
    if call.row.does.leads() {
        return with_target(alloc, call.arguments, path);
    }
    if !call.row.does.has_two() {
        let other = Bytes::new(alloc);
        return Ok(Some(Paths { path, other }));
    }
    match path_at(alloc, form, folder, behind(form, arguments))? {
        Some(other) => Ok(Some(Paths { path, other })),
        None => Ok(None),
    }
}

/// A link, and where it leads as it is written.
fn with_target(alloc: Global, arguments: &[u8], path: Bytes) -> Result<Option<Paths>, AllocError>
    ensures { IfOk result (λ paths. paths ≡ with_target arguments.now path) }
{
    match quoted(alloc, first_argument(arguments).0)? {
        Some(other) => Ok(Some(Paths { path, other })),
        None => Ok(None),
    }
}

/// The arguments from which paths are taken.
fn arguments_for(does: Does, arguments: &[u8]) -> &[u8]
    ensures { result.now ≡ arguments_for does arguments.now }
{
    if does.leads() {
        first_argument(arguments).1
    } else {
        arguments
    }
}

/// Adds what a call did at its paths. One that was refused has asked: that a folder cannot be made says that something is there.
pub fn push_facts(
    alloc: Global,
    call: &Call<'_>,
    paths: &Paths,
    facts: &mut Items<Fact>,
) -> Result<(), AllocError>
    ensures { OnOk result (facts.new ≡ facts.old ++ facts_of (call_seen call.now) paths.now) }
{
    let path = paths.path.as_slice();
    if !is_rooted(path) {
        return Ok(());
    }
    match ending_of(call.answer) {
        End::Well => push_done(alloc, call, paths, facts),
        End::Missing => push(alloc, facts, follows(call), missed(call), path),
        End::Refused => push(alloc, facts, follows(call), Deed::Asked, path),
        End::Void => Ok(()),
        End::Open => Ok(()),
    }
}

/// What a call was that found nothing, or no folder.
fn missed(call: &Call<'_>) -> Deed
    ensures { result ≡ missed (call_seen call.now) }
{
    if is_no_folder(call) {
        Deed::Asked
    } else {
        missed_by(call.row.does)
    }
}

/// Whether a folder was asked for at the path itself, and a file is there.
fn is_no_folder(call: &Call<'_>) -> bool
    ensures { result ≡ is_no_folder (call_seen call.now) }
{
    call.answer.starts_with(b"-1 ENOTDIR ")
        && (call.row.does.is_of_folders()
            || has(call.arguments, b"O_DIRECTORY")
            || has(call.arguments, b"AT_REMOVEDIR"))
}

/// What a call was that found nothing.
fn missed_by(does: Does) -> Deed
    ensures { result ≡ missed_by does }
{
    if does.has_two() || does.runs() {
        Deed::Sought
    } else {
        Deed::Missed
    }
}

/// Whether what a link leads to that stands at the path is meant.
fn follows(call: &Call<'_>) -> bool
    ensures { result ≡ follows (call_seen call.now) }
{
    let does = call.row.does;
    (does.follows() && !stays(call.arguments))
        || (does.links() && has(call.arguments, b"AT_SYMLINK_FOLLOW"))
}

/// Whether the call says that what stands at the path itself is meant, or that nothing may stand there.
fn stays(arguments: &[u8]) -> bool
    ensures { result ≡ stays arguments.now }
{
    has(arguments, b"AT_SYMLINK_NOFOLLOW")
        || (has(arguments, b"O_NOFOLLOW")
            || (has(arguments, b"O_CREAT") && has(arguments, b"O_EXCL")))
}

/// Adds what a call did that ended well.
fn push_done(
    alloc: Global,
    call: &Call<'_>,
    paths: &Paths,
    facts: &mut Items<Fact>,
) -> Result<(), AllocError>
    ensures { OnOk result (facts.new ≡ facts.old ++ done (call_seen call.now) paths.now) }
{
    let path = paths.path.as_slice();
    let at = follows(call);
    match call.row.does {
        Does::Looks => push(alloc, facts, at, looked(call.arguments), path),
        Does::Peeks => push(alloc, facts, at, looked(call.arguments), path),
        Does::Opens => push_opened(alloc, call, path, facts),
        Does::Runs => push(alloc, facts, at, Deed::Read, path),
        Does::Goes => push(alloc, facts, at, Deed::Folder, path),
        Does::Folders => push(alloc, facts, at, Deed::Made, path),
        Does::Clears => push(alloc, facts, at, Deed::Folder, path),
        Does::Lists => push(alloc, facts, at, Deed::Listed, path),
        Does::Removes => push(alloc, facts, at, removed(call.arguments), path),
        Does::Creates => push_answered(alloc, call, Deed::Wrote, path, facts),
        Does::Cuts => push(alloc, facts, at, Deed::Into, path),
        Does::Empties => push_emptied(alloc, call.arguments, path, facts),
        Does::Changes => push(alloc, facts, at, Deed::Stamped, path),
        Does::Marks => push(alloc, facts, at, Deed::Stamped, path),
        Does::Leads => push_led(alloc, paths, facts),
        Does::Moves => push_moved(alloc, paths, facts),
        Does::Links => push_linked(alloc, call, paths, facts),
        Does::Starts => Ok(()),
        Does::Connects => Ok(()),
        Does::Passes => Ok(()),
    }
}

/// What a look saw.
fn looked(arguments: &[u8]) -> Deed
    ensures { result ≡ looked arguments.now }
{
    if has(arguments, b"S_IFDIR") {
        Deed::Folder
    } else {
        Deed::Asked
    }
}

/// What a removal removed.
fn removed(arguments: &[u8]) -> Deed
    ensures { result ≡ removed arguments.now }
{
    if has(arguments, b"AT_REMOVEDIR") {
        Deed::Folder
    } else {
        Deed::Removed
    }
}

/// Adds that a file or a folder was given another path.
fn push_moved(alloc: Global, paths: &Paths, facts: &mut Items<Fact>) -> Result<(), AllocError>
    ensures { OnOk result (facts.new ≡ with_moved facts.old paths.now) }
{
    push(alloc, facts, false, Deed::Read, paths.path.as_slice())?;
    push(alloc, facts, false, Deed::Left, paths.path.as_slice())?;
    push_placed(alloc, Deed::Moved, paths, facts)
}

/// Adds that a file was given one more path.
fn push_linked(
    alloc: Global,
    call: &Call<'_>,
    paths: &Paths,
    facts: &mut Items<Fact>,
) -> Result<(), AllocError>
    ensures { OnOk result (facts.new ≡ with_linked facts.old (call_seen call.now) paths.now) }
{
    push(
        alloc,
        facts,
        follows(call),
        Deed::Read,
        paths.path.as_slice(),
    )?;
    push_placed(alloc, Deed::Linked, paths, facts)
}

/// Adds that the second path was given to the file that has the first one, or had it before.
fn push_placed(
    alloc: Global,
    deed: Deed,
    paths: &Paths,
    facts: &mut Items<Fact>,
) -> Result<(), AllocError>
    ensures { OnOk result (facts.new ≡ facts.old ++ placed deed paths.now ∷ []) }
{
    let path = Bytes::from_slice(alloc, paths.other.as_slice())?;
    let other = Some(Bytes::from_slice(alloc, paths.path.as_slice())?);
    let up = goes_up(path.as_slice());
    facts.push(Fact {
        deed,
        path,
        real: None,
        other,
        up,
        follows: false,
    })?;
    Ok(())
}

/// Adds that a link was made at the path, which leads to the other one as that is written.
fn push_led(alloc: Global, paths: &Paths, facts: &mut Items<Fact>) -> Result<(), AllocError>
    ensures { OnOk result (facts.new ≡ facts.old ++ led paths.now ∷ []) }
{
    let path = Bytes::from_slice(alloc, paths.path.as_slice())?;
    let other = Some(Bytes::from_slice(alloc, paths.other.as_slice())?);
    let up = goes_up(path.as_slice());
    facts.push(Fact {
        deed: Deed::Led,
        path,
        real: None,
        other,
        up,
        follows: false,
    })?;
    Ok(())
}

/// Adds that an open file was emptied, where its new length says so.
fn push_emptied(
    alloc: Global,
    arguments: &[u8],
    path: &[u8],
    facts: &mut Items<Fact>,
) -> Result<(), AllocError>
    ensures { OnOk result (facts.new ≡ facts.old ++ emptied arguments.now path.now) }
{
    let (_, length) = first_argument(arguments);
    if length == b"0".as_slice() {
        push(alloc, facts, false, Deed::Emptied, path)?;
    }
    Ok(())
}

/// Adds what a file was opened for.
fn push_opened(
    alloc: Global,
    call: &Call<'_>,
    path: &[u8],
    facts: &mut Items<Fact>,
) -> Result<(), AllocError>
    ensures { OnOk result (facts.new ≡ facts.old ++ opened (call_seen call.now) path.now) }
{
    let (first, second) = deeds(call.arguments);
    push_answered(alloc, call, first, path, facts)?;
    if let Some(second) = second {
        push_answered(alloc, call, second, path, facts)?;
    }
    Ok(())
}

/// What a file is opened for by these flags: one thing, or two.
#[tactic(auto, unfolding(crate::specs::Facts::deeds))]
fn deeds(arguments: &[u8]) -> (Deed, Option<Deed>)
    ensures { result ≡ deeds arguments.now }
{
    if has(arguments, b"O_DIRECTORY") || has(arguments, b"O_TMPFILE") {
        return (Deed::Folder, None);
    }
    if has(arguments, b"O_PATH") {
        return (Deed::Asked, None);
    }
    if empties(arguments) {
        return (Deed::Wrote, None);
    }
    if goes_on(arguments) {
        return read_and_written(arguments);
    }
    if !has(arguments, b"O_WRONLY") {
        return (Deed::Read, None);
    }
    if only_stamps(arguments) {
        return (Deed::Stamped, None);
    }
    (Deed::Into, None)
}

/// What one is opened for that is read and written. Where the call makes it if none is there, what is read may be what was written.
fn read_and_written(arguments: &[u8]) -> (Deed, Option<Deed>)
    ensures { result ≡ read_and_written arguments.now }
{
    if has(arguments, b"O_CREAT") {
        (Deed::Into, Some(Deed::Read))
    } else {
        (Deed::Read, Some(Deed::Into))
    }
}

/// Whether a file is empty once it is opened by these flags.
fn empties(arguments: &[u8]) -> bool
    ensures { result ≡ empties arguments.now }
{
    has(arguments, b"O_TRUNC") || (has(arguments, b"O_CREAT") && has(arguments, b"O_EXCL"))
}

/// Whether what is written by these flags may depend on what the file holds.
fn goes_on(arguments: &[u8]) -> bool
    ensures { result ≡ goes_on arguments.now }
{
    has(arguments, b"O_RDWR") || (has(arguments, b"O_WRONLY") && has(arguments, b"O_APPEND"))
}

/// Whether these flags are those of `touch`, which writes nothing.
fn only_stamps(arguments: &[u8]) -> bool
    ensures { result ≡ only_stamps arguments.now }
{
    has(arguments, b"O_NOCTTY") && has(arguments, b"O_NONBLOCK")
}

/// Whether the path goes up behind a name.
pub fn goes_up(path: &[u8]) -> bool
    ensures { result ≡ goes_up path.now }
{
    has(path, b"/..")
}

/// Adds what was done at a path.
fn push(
    alloc: Global,
    facts: &mut Items<Fact>,
    follows: bool,
    deed: Deed,
    path: &[u8],
) -> Result<(), AllocError>
    ensures { OnOk result (facts.new ≡ facts.old ++ fact follows deed path.now ∷ []) }
{
    let up = goes_up(path);
    let path = Bytes::from_slice(alloc, path)?;
    facts.push(Fact {
        deed,
        path,
        real: None,
        other: None,
        up,
        follows,
    })?;
    Ok(())
}

/// Adds what was done by the path of a call, with the file that its answer tells.
fn push_answered(
    alloc: Global,
    call: &Call<'_>,
    deed: Deed,
    path: &[u8],
    facts: &mut Items<Fact>,
) -> Result<(), AllocError>
    ensures { OnOk result (facts.new ≡ facts.old ++ answered (call_seen call.now) deed path.now ∷ []) }
{
    let up = goes_up(path);
    let path = Bytes::from_slice(alloc, path)?;
    let real = descriptor(alloc, call.answer)?;
    facts.push(Fact {
        deed,
        path,
        real,
        other: None,
        up,
        follows: follows(call),
    })?;
    Ok(())
}
