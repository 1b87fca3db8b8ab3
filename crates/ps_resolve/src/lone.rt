//! A unit by itself: what refuses it in a link with a host that would define each name.
ghost use Rattle.std.specs.Prelude.{◌≡◌, ◌<◌, IfOk, IfErr, OnOk, None, true, ⊤};
ghost use Rattle.ps_codefile.specs.Roles.{is_unit as is_unit_spec};
ghost use Rattle.ps_resolve.specs.LoneUnits.{Finds, IsSoundUnit, lone_fault as lone_fault_spec, placing_fault as placing_fault_spec};
ghost use Rattle.ps_reading.specs.Sources.{opened_files};
ghost use Rattle.ps_resolve.specs.Stops.{IsStop};
ghost use Rattle.ps_reading.specs.KnownSegments.{IsSound};

use crate::allotment::allot;
use crate::edits::segment_edits;
use crate::linkage::Stop;
use crate::references::names::{LONE_BASE, Linking, Names, NamesOf};
use ps_codefile::dictionary_layout::SLOTS;
use ps_linkinfo::LinkInformation;
use ps_reading::{HostReading, Segment};
use ps_words::{Edit, Fault, Order};
use std::alloc::{AllocError, Allocator};

/// Places the privates and references of a unit in a link with a host that would define each name.
fn place_unit<A: Allocator + Copy>(
    alloc: A,
    order: Order,
    unit: &Segment<'_>,
    records: &LinkInformation<'_>,
) -> Result<(), Stop>
    requires records { records.now ≡ unit.now.records }
    requires sound { IsSound order unit.now }
    requires unit { is_unit_spec unit.now.role ≡ true }
    ensures sound { OnOk result (placing_fault_spec order unit.now ≡ None) }
    ensures stop { IfErr result (IsStop ⊤ (placing_fault_spec order unit.now)) }
{
    let mut privates = Vec::new(alloc);
    allot(alloc, unit.place(), records, LONE_BASE, &mut privates)?;
    let link = Linking {
        order,
        names: &Names { of: NamesOf::Each },
        size: Edit::Byte { place: 0, value: 0 },
    };
    segment_edits(alloc, &link, &[], unit, LONE_BASE)?;
    Ok(())
}

/// What was found by placing a unit: its fault, or none; or that memory ran out.
fn found(placed: Result<(), Stop>) -> Result<Option<Fault>, AllocError>
    ensures { Finds placed result }
{
    match placed {
        Ok(()) => Ok(None),
        Err(Stop::Refused(fault)) => Ok(Some(fault)),
        Err(Stop::Memory) => Err(AllocError),
    }
}

/// The first fault of the privates and references of a segment, where it is a unit's.
fn placing_fault<A: Allocator + Copy>(
    alloc: A,
    order: Order,
    segment: &Segment<'_>,
) -> Result<Option<Fault>, AllocError>
    requires { IsSound order segment.now }
    ensures fault { IfOk result (λ fault. fault ≡ placing_fault_spec order segment.now) }
    ensures memory { IfErr result (λ _. is_unit_spec segment.now.role ≡ true) }
{
    match segment.records() {
        Some(records) if segment.role().is_unit() => {
            found(place_unit(alloc, order, segment, records))
        }
        Some(_) | None => Ok(None),
    }
}

/// The first fault of the segment in a slot, 0 to 15, of a file that was read, by itself: of its
/// code, its tables and its records, and of a unit then of its privates and references, in a link
/// with a host that would define each name that it requests. `None` where it has none, or where the
/// slot has no segment.
///
/// The host of that link defines each name as a public with the base offset 1, has each unit that
/// is named, and its own variables end before 1. So a unit that has a fault here is refused by
/// every host whose base offsets are 1 and more, and one that has none may be refused for what a
/// host defines. A wanted unit is looked for in the libraries that were read beside the file.
/// Returns an error only where memory was refused, which is requested only for a unit that was read
/// without a fault.
pub fn lone_fault<A: Allocator + Copy>(
    alloc: A,
    reading: &HostReading<'_>,
    slot: u8,
) -> Result<Option<Fault>, AllocError>
    requires { slot < SLOTS }
    ensures fault { IfOk result (λ fault. fault ≡ lone_fault_spec reading.now.order
        reading.now.file (opened_files reading.now.order reading.now.libs) slot) }
    ensures memory { IfErr result (λ _. IsSoundUnit reading.now.order reading.now.file
        (opened_files reading.now.order reading.now.libs) slot) }
{
    match reading.segment(slot) {
        None => Ok(None),
        Some(Err(fault)) => Ok(Some(fault)),
        Some(Ok(segment)) => placing_fault(alloc, reading.order(), segment),
    }
}
