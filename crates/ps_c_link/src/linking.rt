//! The linked file, into the caller's room.
ghost use Rattle.std.specs.Prelude.{◌≡◌, ◌≤◌, length, sum, IfOk, IfErr, OnErr};
ghost use Rattle.ps_resolve.specs.Sources.{contents};
ghost use Rattle.ps_c_link.specs.Libraries.{split as split_spec};
ghost use Rattle.ps_c_link.specs.Dones.{IsLinked};
ghost use Rattle.ps_c_link.specs.WhyUnmade.{WhyCallFails, WhyLinkUnput};

use crate::libraries::{FEW_LIBRARIES, LIBRARIES_IN_PLACE, add_up, split};
use crate::outcome::{CallError, Done, TooSmall, Unput};
use crate::room::fill;
use ps_linkfile::{MAX_FILE_BLOCKS, Unmade, prepare_files};
use ps_words::BLOCK_SIZE;
use std::alloc::Allocator;

/// How many bytes a linked file has at most.
pub const LINKED_MAX: usize = BLOCK_SIZE * MAX_FILE_BLOCKS;

/// Links a host and these libraries into the room.
fn link_all<A: Allocator + Copy>(
    alloc: A,
    host: &[u8],
    libs: &[&[u8]],
    room: &mut [u8],
) -> Result<Done, Unput>
    ensures linked { IfOk result (IsLinked host.now (contents libs.now) room.old room.new) }
    ensures unput { IfErr result (WhyLinkUnput room.old host.now (contents libs.now)) }
    ensures untouched { OnErr result (room.new ≡ room.old) }
{
    let linked = match prepare_files(alloc, host, libs) {
        Ok(linked) => linked,
        Err(stop) => return Err(Unput::Unmade(Unmade::of(host, libs, stop))),
    };
    let summary = linked.summary();
    let size = BLOCK_SIZE * summary.blocks;
    if room.len() < size {
        return Err(Unput::TooSmall(TooSmall { size }));
    }
    fill(&linked, &mut room[..size]);
    Ok(Done::Linked { summary, size })
}

/// Links as `link` does, with a table that has room for `N` libraries on the stack. A function by
/// itself, so that a link takes no more of the stack than the table that it needs.
#[inline(never)]
fn link_in<const N: usize, A: Allocator + Copy>(
    alloc: A,
    host: &[u8],
    libs: &[u8],
    lengths: &[usize],
    room: &mut [u8],
) -> Result<Done, CallError>
    requires table { N ≤ LIBRARIES_IN_PLACE }
    requires enough { length lengths.now ≤ LIBRARIES_IN_PLACE → length lengths.now ≤ N }
    requires right { sum lengths.now ≡ length libs.now }
    ensures linked { IfOk result (IsLinked host.now (split_spec libs.now lengths.now)
        room.old room.new) }
    ensures not_done { IfErr result (WhyCallFails (WhyLinkUnput room.old host.now)
        libs.now lengths.now) }
    ensures untouched { OnErr result (room.new ≡ room.old) }
{
    let libs = split::<N, &A>(&alloc, libs, lengths)?;
    Ok(link_all(alloc, host, libs.as_slice(), room)?)
}

/// Links a host and the libraries that are one after another in `libs` into the room.
///
/// `host` is a whole code file, and so is each part of `libs`, whose length in bytes `lengths` has;
/// of the libraries that have a unit, the first is used. The room then begins with the linked file.
/// Else it is as it was: refuses `WrongLengths` where the lengths do not add up to the length of
/// `libs`; `Refused` with the first fault of all; `Memory` where memory was refused, which is
/// requested only once the files were read and have no fault, unless there are more than
/// `LIBRARIES_IN_PLACE` libraries; and `TooSmall` where the linked file is longer than the room.
/// Source: UCSD Pascal II.0 manual, code file format; the published II.0 Linker source; the layout
/// and the interface are this project's profile.
pub fn link<A: Allocator + Copy>(
    alloc: A,
    host: &[u8],
    libs: &[u8],
    lengths: &[usize],
    room: &mut [u8],
) -> Result<Done, CallError>
    ensures right { IfOk result (λ _. sum lengths.now ≡ length libs.now) }
    ensures linked { IfOk result (IsLinked host.now (split_spec libs.now lengths.now)
        room.old room.new) }
    ensures not_done { IfErr result (WhyCallFails (WhyLinkUnput room.old host.now)
        libs.now lengths.now) }
    ensures untouched { OnErr result (room.new ≡ room.old) }
{
    if !add_up(lengths, libs.len()) {
        return Err(CallError::WrongLengths);
    }
    if lengths.len() <= 1 {
        link_in::<1, A>(alloc, host, libs, lengths, room)
    } else if lengths.len() <= FEW_LIBRARIES {
        link_in::<FEW_LIBRARIES, A>(alloc, host, libs, lengths, room)
    } else {
        link_in::<LIBRARIES_IN_PLACE, A>(alloc, host, libs, lengths, room)
    }
}
