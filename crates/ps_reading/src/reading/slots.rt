ghost use Rattle.std.specs.Prelude.{◌≡◌, ◌<◌, ◌≤◌, ◌&&◌, bytes_eq};
ghost use Rattle.std.specs.List.{list_any, range_with_len};
ghost use Rattle.ps_codefile.specs.Dictionary.{entry_at, role_of};
ghost use Rattle.ps_codefile.specs.Roles.{is_host as is_host_role, is_unit as is_unit_role, is_empty as is_empty_role};
ghost use Rattle.ps_reading.specs.Sources.{library_file as library_file_spec};
ghost use Rattle.ps_reading.specs.Faults.{is_role, slot_reason as slot_reason_spec, slots_fault as slots_fault_spec, no_host_fault as no_host_fault_spec};

use ps_codefile::dictionary_layout::{SLOT_COUNT, SLOTS};
use ps_codefile::{Dict, Entry, Role};
use ps_words::{Fault, Name, Order, Reason};
use std::marker::Model;

/// The number of the host among the files of a link.
pub const HOST_FILE: usize = 0;

/// The number of a library among the files of a link: the first library is file 1. `library` is its
/// index, from 0.
pub(crate) fn library_file(library: usize) -> usize
    requires { library < 9223372036854775808 }
    ensures { result ≡ library_file_spec library }
{
    library + 1
}

/// A host's segment dictionary, in which the role of each slot is decided once.
/// Source: UCSD Pascal II.0 manual, code file format.
#[derive(Drop)]
pub struct HostSlots<'a> {
    dict: Dict<'a>,
    /// The role of each slot, or why its kind is refused.
    roles: [Result<Role, Reason>; SLOT_COUNT],
}

impl<'a> Model for HostSlots<'a> {
    ghost use Rattle.ps_codefile.specs.Dictionary.{OpenedFile};
    ghost use Rattle.ps_reading.specs.KnownSegments.{AreSlots};

    ghost Value = { OpenedFile };

    ghost view = { λ s. s.dict };

    ghost invariant = { λ s. AreSlots s.dict s.roles };
}

impl<'a> HostSlots<'a> {
    /// The slots of this dictionary.
    #[inline(always)]
    pub fn of(dict: Dict<'a>) -> HostSlots<'a>
        ensures { result ≡ dict.entry }
    {
        let mut roles = [Ok(Role::Empty); SLOT_COUNT];
        for slot in 0..SLOTS {
            roles[slot as usize] = dict.role(slot);
        }
        HostSlots { dict, roles }
    }

    /// The dictionary itself.
    pub(crate) fn dict(&self) -> &Dict<'a>
        ensures { result.now ≡ self.now }
    {
        &self.dict
    }

    /// The byte order of the host.
    /// Source: UCSD Pascal II.0 manual, code file format.
    pub fn order(&self) -> Order
        ensures { result ≡ self.now.order }
    {
        self.dict.order()
    }

    /// What the dictionary says of a slot.
    pub(crate) fn entry(&self, slot: u8) -> Entry
        requires { slot < SLOTS }
        ensures { result ≡ entry_at self.now.order self.now.file slot }
    {
        self.dict.entry(slot)
    }

    /// What a slot is for, or why its kind is refused.
    pub(crate) fn role(&self, slot: u8) -> Result<Role, Reason>
        requires { slot < SLOTS }
        ensures { result ≡ role_of (entry_at self.now.order self.now.file slot) }
    {
        self.roles[slot as usize]
    }
}

/// The slot has no segment of its own.
pub(crate) fn is_empty(host: &HostSlots, slot: u8) -> bool
    requires { slot < SLOTS }
    ensures { result ≡ is_role is_empty_role host.now.order host.now.file slot }
{
    matches!(host.role(slot), Ok(Role::Empty))
}

/// The slot has the host's own segment.
fn is_host(host: &HostSlots, slot: u8) -> bool
    requires { slot < SLOTS }
    ensures { result ≡ is_role is_host_role host.now.order host.now.file slot }
{
    matches!(host.role(slot), Ok(Role::Host))
}

/// The slot has a unit, in place or wanted.
fn is_unit(host: &HostSlots, slot: u8) -> bool
    requires { slot < SLOTS }
    ensures { result ≡ is_role is_unit_role host.now.order host.now.file slot }
{
    matches!(host.role(slot), Ok(Role::Unit | Role::Wanted))
}

/// One of the slots below `end` has the host's own segment.
fn has_host_below(host: &HostSlots, end: u8) -> bool
    requires { end ≤ SLOTS }
    ensures { result ≡ list_any (is_role is_host_role host.now.order host.now.file)
        (range_with_len 0 end) }
{
    (0..end).any(|slot| is_host(host, slot))
}

/// One of the slots below `end` has a unit of this name.
fn has_unit_below(host: &HostSlots, name: Name, end: u8) -> bool
    requires { end ≤ SLOTS }
    ensures { result ≡ list_any (λ s. is_role is_unit_role host.now.order host.now.file s
        && bytes_eq (entry_at host.now.order host.now.file s).name name) (range_with_len 0 end) }
{
    (0..end).any(|slot| is_unit(host, slot) && host.entry(slot).name == name)
}

/// What is wrong with a slot of the host: its kind, a second host segment, or a second unit of a
/// name.
fn slot_reason(host: &HostSlots, slot: u8) -> Option<Reason>
    requires { slot < SLOTS }
    ensures { result ≡ slot_reason_spec host.now.order host.now.file slot }
{
    if let Err(reason) = host.role(slot) {
        return Some(reason);
    }
    if is_host(host, slot) && has_host_below(host, slot) {
        return Some(Reason::TwoHosts);
    }
    if is_unit(host, slot) && has_unit_below(host, host.entry(slot).name, slot) {
        return Some(Reason::DoubledSegment);
    }
    None
}

/// The first fault of the host's slots.
pub(crate) fn slots_fault(host: &HostSlots) -> Option<Fault>
    ensures { result ≡ slots_fault_spec host.now.order host.now.file }
{
    for slot in 0..SLOTS {
        if let Some(reason) = slot_reason(host, slot) {
            return Some(Fault::in_slot(HOST_FILE, slot, reason));
        }
    }
    None
}

/// The fault of a host file that has no host segment.
pub(crate) fn no_host_fault(host: &HostSlots) -> Option<Fault>
    ensures { result ≡ no_host_fault_spec host.now.order host.now.file }
{
    if has_host_below(host, SLOTS) {
        return None;
    }
    Some(Fault::in_file(HOST_FILE, Reason::NoHost))
}
