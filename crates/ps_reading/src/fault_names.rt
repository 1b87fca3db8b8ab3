//! The name of what a fault is about.
ghost use Rattle.std.specs.Prelude.{◌≡◌, ◌<◌, IfSome, None};
ghost use Rattle.ps_codefile.specs.Dictionary.{opened_alone};
ghost use Rattle.ps_reading.specs.Readings.{with_libraries};
ghost use Rattle.ps_reading.specs.Sources.{contents};
ghost use Rattle.ps_reading.specs.FaultNames.{entry_name as entry_name_spec, fault_name as fault_name_spec, host_slot as host_slot_spec, name_at as name_at_spec, name_by_role as name_by_role_spec, name_in_record as name_in_record_spec, name_in_slot as name_in_slot_spec, name_of_record as name_of_record_spec, read_name as read_name_spec, slot_name as slot_name_spec};

use crate::reading::names::ReadNames;
use crate::reading::segment::Segment;
use crate::reading::slots::HostSlots;
use crate::reading::sources::read_slots;
use crate::reading::{Reading, read_added, segment_in};
use arrayvec::ArrayVec;
use ps_codefile::dictionary_layout::SLOTS;
use ps_codefile::{Dict, Role};
use ps_words::{Fault, Name, Reason};

/// The name in the record of this index of a segment, where it has so many.
fn name_of_record(segment: &Segment, rec: usize) -> Option<Name>
    ensures { result ≡ name_of_record_spec rec segment.now }
{
    match segment.records()?.record(rec) {
        None => None,
        Some(record) => Some(record.name),
    }
}

/// The name in the record of this index of the segment in a slot.
fn name_in_record(host: &ReadNames, slot: u8, rec: usize) -> Option<Name>
    ensures { result ≡ name_in_record_spec host.now slot rec }
{
    match segment_in(host.segments, slot) {
        None => None,
        Some(segment) => name_of_record(segment, rec),
    }
}

/// The name of the unit that is requested in an empty slot, or that of the slot.
fn name_in_slot(host: &ReadNames, slot: u8) -> Name
    requires { slot < SLOTS }
    ensures { result ≡ name_in_slot_spec host.now slot }
{
    match host.request(slot) {
        Some(request) => request.name,
        None => host.slots.entry(slot).name,
    }
}

/// The name that a slot of this role has by its own entry: of one that is not empty.
fn name_by_role(name: Name, role: Result<Role, Reason>) -> Option<Name>
    ensures { result ≡ name_by_role_spec name role }
{
    match role {
        Ok(Role::Empty) => None,
        Ok(Role::Wanted | Role::Plain | Role::Host | Role::Unit) | Err(_) => Some(name),
    }
}

/// The name of a slot: by its own entry, or else of the unit that is requested.
fn slot_name(host: &ReadNames, slot: u8) -> Name
    requires { slot < SLOTS }
    ensures { result ≡ slot_name_spec host.now slot }
{
    match name_by_role(host.slots.entry(slot).name, host.slots.role(slot)) {
        Some(name) => name,
        None => name_in_slot(host, slot),
    }
}

/// The name of a slot of the host or, where the index of a record is given, that in the record of
/// its segment.
fn name_at(host: &ReadNames, slot: u8, rec: Option<usize>) -> Option<Name>
    requires { slot < SLOTS }
    ensures { result ≡ name_at_spec host.now slot rec }
{
    match rec {
        None => Some(slot_name(host, slot)),
        Some(rec) => name_in_record(host, slot, rec),
    }
}

/// The name of a slot, or in a record, of files that were read.
fn name_in_reading(reading: &Reading, slot: u8, rec: Option<usize>) -> Option<Name>
    requires { slot < SLOTS }
    ensures { result ≡ read_name_spec reading.now.host reading.now.libs slot rec }
{
    match reading.host() {
        Err(_) => None,
        Ok(host) => name_at(&host.names(), slot, rec),
    }
}

/// The name of a slot, or in a record, of a host that was opened and of these libraries, which are
/// read. No reading is made, which takes more room of the stack than a link.
fn name_in_host(slots: &HostSlots, libs: &[&[u8]], slot: u8, rec: Option<usize>) -> Option<Name>
    requires { slot < SLOTS }
    ensures { result ≡ name_at_spec (with_libraries slots.now (contents libs.now)) slot rec }
{
    let mut segments = ArrayVec::new();
    let mut first: Option<Fault> = None;
    read_slots(slots, libs, &mut segments, &mut first);
    let added = read_added(slots, libs, &mut segments);
    let names = ReadNames {
        slots,
        libs,
        segments: segments.as_slice(),
        added: &added,
    };
    name_at(&names, slot, rec)
}

/// The name of a slot, or in a record, of these files, which are read. A function by itself, so that
/// what was read takes room of the stack only where it is needed.
#[inline(never)]
fn read_name(host: &[u8], libs: &[&[u8]], slot: u8, rec: Option<usize>) -> Option<Name>
    requires { slot < SLOTS }
    ensures { result ≡ read_name_spec host.now (contents libs.now) slot rec }
{
    match Dict::read(host) {
        Err(_) => None,
        Ok(dict) => name_in_host(&HostSlots::of(dict), libs, slot, rec),
    }
}

/// The name that a slot of a file has by its own entry.
fn entry_name(host: &[u8], slot: u8) -> Option<Name>
    requires { slot < SLOTS }
    ensures { result ≡ entry_name_spec (opened_alone host.now) slot }
{
    match Dict::read(host) {
        Err(_) => None,
        Ok(dict) => name_by_role(dict.entry(slot).name, dict.role(slot)),
    }
}

/// The name of a slot. The files are read only where its own entry has none.
fn name_of_slot(host: &[u8], libs: &[&[u8]], slot: u8) -> Option<Name>
    requires { slot < SLOTS }
    ensures { result ≡ read_name_spec host.now (contents libs.now) slot None }
{
    match entry_name(host, slot) {
        Some(name) => Some(name),
        None => read_name(host, libs, slot, None),
    }
}

/// The name of a slot or, where the index of a record is given, that in the record.
fn name_in_files(host: &[u8], libs: &[&[u8]], slot: u8, rec: Option<usize>) -> Option<Name>
    requires { slot < SLOTS }
    ensures { result ≡ read_name_spec host.now (contents libs.now) slot rec }
{
    match rec {
        None => name_of_slot(host, libs, slot),
        Some(rec) => read_name(host, libs, slot, Some(rec)),
    }
}

/// The slot of a fault, where a host has it.
fn host_slot(fault: Fault) -> Option<u8>
    ensures slot { result ≡ host_slot_spec fault }
    ensures in_range { IfSome result (λ slot. slot < SLOTS) }
{
    match fault.slot {
        None => None,
        Some(slot) => {
            if SLOTS <= slot {
                return None;
            }
            Some(slot)
        }
    }
}

/// The name of what a fault of these files is about, eight bytes.
///
/// `host` and each of `libs` are whole code files, and `fault` is the one for which they are
/// refused. Of a fault with a record that could be read it is the name in that record: of the unit
/// that is requested, or of the symbol. Of any other fault with a slot it is the name that the slot
/// has in the host's dictionary, of a unit that is wanted or of a segment; and where the slot is
/// empty, that of the unit that is requested there. `None` of a fault of a file as a whole. It takes
/// no memory.
///
/// Source: UCSD Pascal II.0 manual, code file format; which name it is, this project's profile.
#[tactic(auto, unfolding(crate::specs::FaultNames::fault_name))]
pub fn fault_name(host: &[u8], libs: &[&[u8]], fault: Fault) -> Option<Name>
    ensures { result ≡ fault_name_spec host.now (contents libs.now) fault }
{
    let rec = fault.read_record();
    match host_slot(fault) {
        None => None,
        Some(slot) => name_in_files(host, libs, slot, rec),
    }
}

/// The name that `fault_name` gives, of files that were read. It reads them no second time.
///
/// Source: UCSD Pascal II.0 manual, code file format; which name it is, this project's profile.
#[tactic(auto, unfolding(crate::specs::FaultNames::fault_name))]
pub fn fault_name_in(reading: &Reading, fault: Fault) -> Option<Name>
    ensures { result ≡ fault_name_spec reading.now.host reading.now.libs fault }
{
    let rec = fault.read_record();
    match host_slot(fault) {
        None => None,
        Some(slot) => name_in_reading(reading, slot, rec),
    }
}
