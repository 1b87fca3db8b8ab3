//! What pslink prints of files, into the caller's room.
ghost use Rattle.std.specs.Prelude.{◌≡◌, ◌≤◌, ◌<◌, ◌+◌, ◌↔◌, IfErr, IfOk, IsTrue, OnErr, false, length, sum, true};
ghost use Rattle.ps_resolve.specs.Sources.{contents};
ghost use Rattle.ps_texts.specs.Kinds.{needs_names};
ghost use Rattle.ps_c_link.specs.Libraries.{split as split_spec};
ghost use Rattle.ps_c_link.specs.WhyUnmade.{WhyCallFails};
ghost use Rattle.ps_c_texts.specs.Checks.{HasItsLengths};
ghost use Rattle.ps_c_texts.specs.Printed.{IsPrinted, IsPut, WhyUnprinted, WhyUnput, is_of_host as is_of_host_spec, no_paths};

use crate::file_names::{are_utf8, file_names};
use crate::making::put_made;
use ps_c_link::{
    CallError, Done, FEW_LIBRARIES, LIBRARIES_IN_PLACE, NotDone, Unput, WrongInputs, add_up,
    host_first, split,
};
use ps_texts::{NamedFiles, TextKind};
use std::alloc::Allocator;

/// Whether so many names are one for the host and one for each of so many libraries.
fn is_one_each(names: usize, libs: usize) -> bool
    ensures { IsTrue result ↔ (names ≡ 1 + libs) }
{
    libs < names && names - libs == 1
}

/// Whether libraries and names add up to what is given, with one name for the host and one for each
/// library.
fn have_lengths(libs: &[u8], lengths: &[usize], names: &[u8], name_lengths: &[usize]) -> bool
    ensures { IsTrue result ↔ HasItsLengths libs.now lengths.now names.now name_lengths.now }
{
    add_up(lengths, libs.len())
        && is_one_each(name_lengths.len(), lengths.len())
        && add_up(name_lengths, names.len())
}

/// Puts a text of these files in the room; the first name is the host's.
fn put_named<A: Allocator + Copy>(
    alloc: A,
    kind: TextKind,
    names: &[&str],
    host: &[u8],
    libs: &[&[u8]],
    room: &mut [u8],
) -> Result<Done, Unput>
    requires { 0 < length names.now }
    ensures put { IfOk result (IsPut kind (contents names.now) host.now
        (contents libs.now) room.old room.new) }
    ensures unput { IfErr result (WhyUnput kind room.old (contents names.now)
        host.now (contents libs.now)) }
    ensures untouched { OnErr result (room.new ≡ room.old) }
{
    let (host_path, paths) = host_first(names);
    let files = NamedFiles {
        host_path,
        paths,
        host,
        libs,
    };
    put_made(alloc, kind, &files, room)
}

/// Puts a text of which the files have names in the room, as `text` does.
fn named<A: Allocator + Copy>(
    alloc: A,
    kind: TextKind,
    host: &[u8],
    libs: &[u8],
    lengths: &[usize],
    names: &[u8],
    name_lengths: &[usize],
    room: &mut [u8],
) -> Result<Done, NotDone>
    requires { needs_names kind ≡ true }
    ensures printed { IfOk result (IsPrinted kind host.now libs.now lengths.now names.now
        name_lengths.now room.old room.new) }
    ensures not_done { IfErr result (WhyUnprinted kind room.old host.now libs.now
        lengths.now names.now name_lengths.now) }
    ensures untouched { OnErr result (room.new ≡ room.old) }
{
    if !have_lengths(libs, lengths, names, name_lengths) {
        return Err(NotDone::Wrong(WrongInputs::Lengths));
    }
    if !are_utf8(names, name_lengths) {
        return Err(NotDone::Wrong(WrongInputs::Names));
    }
    let libs = split::<0, &A>(&alloc, libs, lengths)?;
    let names = file_names(alloc, names, name_lengths)?;
    Ok(put_named(alloc, kind, names.as_slice(), host, libs.as_slice(), room)?)
}

/// Puts a text of a host and these libraries in the room, which have no names.
fn put_nameless<A: Allocator + Copy>(
    alloc: A,
    kind: TextKind,
    host: &[u8],
    libs: &[&[u8]],
    room: &mut [u8],
) -> Result<Done, Unput>
    ensures put { IfOk result (IsPut kind no_paths host.now (contents libs.now)
        room.old room.new) }
    ensures unput { IfErr result (WhyUnput kind room.old no_paths host.now
        (contents libs.now)) }
    ensures untouched { OnErr result (room.new ≡ room.old) }
{
    let files = NamedFiles {
        host_path: "",
        paths: &[],
        host,
        libs,
    };
    put_made(alloc, kind, &files, room)
}

/// Whether a text is of the host's file alone, so that no library is looked at.
fn is_of_host(kind: TextKind) -> bool
    ensures { result ≡ is_of_host_spec kind }
{
    match kind {
        TextKind::OfHost(_) => true,
        TextKind::OfLink(..) | TextKind::Wanted | TextKind::Named(_) => false,
    }
}

/// Puts a text as `listed` does, with a table that has room for `N` libraries on the stack. A
/// function by itself, so that a text takes no more of the stack than the table that it needs.
#[inline(never)]
fn listed_in<const N: usize, A: Allocator + Copy>(
    alloc: A,
    kind: TextKind,
    host: &[u8],
    libs: &[u8],
    lengths: &[usize],
    room: &mut [u8],
) -> Result<Done, CallError>
    requires table { N ≤ LIBRARIES_IN_PLACE }
    requires enough { length lengths.now ≤ LIBRARIES_IN_PLACE → length lengths.now ≤ N }
    requires right { sum lengths.now ≡ length libs.now }
    ensures put { IfOk result (IsPut kind no_paths host.now (split_spec libs.now lengths.now)
        room.old room.new) }
    ensures not_done { IfErr result (WhyCallFails (WhyUnput kind room.old no_paths host.now)
        libs.now lengths.now) }
    ensures untouched { OnErr result (room.new ≡ room.old) }
{
    let libs = split::<N, &A>(&alloc, libs, lengths)?;
    Ok(put_nameless(alloc, kind, host, libs.as_slice(), room)?)
}

/// Puts a text of a host and the libraries that are one after another in `libs` in the room, in
/// which the files have no names.
fn listed<A: Allocator + Copy>(
    alloc: A,
    kind: TextKind,
    host: &[u8],
    libs: &[u8],
    lengths: &[usize],
    room: &mut [u8],
) -> Result<Done, CallError>
    requires { sum lengths.now ≡ length libs.now }
    ensures put { IfOk result (IsPut kind no_paths host.now (split_spec libs.now lengths.now)
        room.old room.new) }
    ensures not_done { IfErr result (WhyCallFails (WhyUnput kind room.old no_paths host.now)
        libs.now lengths.now) }
    ensures untouched { OnErr result (room.new ≡ room.old) }
{
    if lengths.len() <= 1 {
        listed_in::<1, A>(alloc, kind, host, libs, lengths, room)
    } else if lengths.len() <= FEW_LIBRARIES {
        listed_in::<FEW_LIBRARIES, A>(alloc, kind, host, libs, lengths, room)
    } else {
        listed_in::<LIBRARIES_IN_PLACE, A>(alloc, kind, host, libs, lengths, room)
    }
}

/// Puts a text of which the files have no names in the room, as `text` does.
#[tactic(auto, using(crate::proofs::PutTexts::nameless_put, crate::proofs::PutTexts::nameless_unput, crate::proofs::PutTexts::nameless_lengths, crate::proofs::PutTexts::of_host_put, crate::proofs::PutTexts::of_host_unput))]
fn nameless<A: Allocator + Copy>(
    alloc: A,
    kind: TextKind,
    host: &[u8],
    libs: &[u8],
    lengths: &[usize],
    names: &[u8],
    name_lengths: &[usize],
    room: &mut [u8],
) -> Result<Done, NotDone>
    requires { needs_names kind ≡ false }
    ensures printed { IfOk result (IsPrinted kind host.now libs.now lengths.now names.now
        name_lengths.now room.old room.new) }
    ensures not_done { IfErr result (WhyUnprinted kind room.old host.now libs.now
        lengths.now names.now name_lengths.now) }
    ensures untouched { OnErr result (room.new ≡ room.old) }
{
    if !add_up(lengths, libs.len()) {
        return Err(NotDone::Wrong(WrongInputs::Lengths));
    }
    if is_of_host(kind) {
        return match put_nameless(alloc, kind, host, &[], room) {
            Ok(done) => Ok(done),
            Err(why) => Err(NotDone::Unput(why)),
        };
    }
    match listed(alloc, kind, host, libs, lengths, room) {
        Ok(done) => Ok(done),
        Err(error) => Err(error.into()),
    }
}

/// Puts a text of a host and the libraries that are one after another in `libs` in the room, as the
/// program prints it, or names of units, or the line of what a file is.
///
/// `names` has the names of the files in the text, one after another, and `name_lengths` the length
/// of each, that of the host first; a text in which the files have no names does not look at these.
/// The other inputs are those of `link`. The room then begins with the text, and of a report it is
/// told what it says, also where it says that the files are refused. Else the room is as it was:
/// refuses `Wrong` lengths where they do not add up to the length of `libs` and, of a text with
/// names, where those of the names do not, or where there is not one for each file; `Wrong` names
/// where they do, and a name is no UTF-8; `Refused` with the first fault of all, of a map and its
/// references, and where the host's file cannot be read, of what it has and of names of units;
/// `Memory` where all inputs are right and memory was refused, which a map requests only once the
/// files were read and have no fault, and names that a link wants only of a host that is not refused,
/// unless there are more than `LIBRARIES_IN_PLACE` libraries, and what a file has and its names only
/// of a file that is not refused; and `TooSmall` where the text is longer than the room.
/// Source: UCSD Pascal II.0 manual, code file format; the texts are this project's profile.
pub fn text<A: Allocator + Copy>(
    alloc: A,
    kind: TextKind,
    host: &[u8],
    libs: &[u8],
    lengths: &[usize],
    names: &[u8],
    name_lengths: &[usize],
    room: &mut [u8],
) -> Result<Done, NotDone>
    ensures printed { IfOk result (IsPrinted kind host.now libs.now lengths.now
        names.now name_lengths.now room.old room.new) }
    ensures not_done { IfErr result (WhyUnprinted kind room.old host.now
        libs.now lengths.now names.now name_lengths.now) }
    ensures untouched { OnErr result (room.new ≡ room.old) }
{
    if kind.needs_names() {
        return named(alloc, kind, host, libs, lengths, names, name_lengths, room);
    }
    nameless(alloc, kind, host, libs, lengths, names, name_lengths, room)
}
