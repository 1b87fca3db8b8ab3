//! What was read of a host, as far as names are looked up in it.
ghost use Rattle.std.specs.Prelude.{◌≡◌, ◌<◌, option_and_then, slice_get};
ghost use Rattle.std.specs.Option.{option_map};
ghost use Rattle.std.specs.Result.{result_ok};
ghost use Rattle.ps_codefile.specs.Dictionary.{entry_at, role_of};
ghost use Rattle.ps_reading.specs.Added.{request_of};
ghost use Rattle.ps_reading.specs.Readings.{queued_request as queued_request_spec, wanted_request};
ghost use Rattle.ps_reading.specs.SlotReadings.{request_in};

use crate::reading::added::{AddedUnits, UnitReference};
use crate::reading::request::Request;
use crate::reading::segment::Segment;
use crate::reading::slots::{HostSlots, is_empty};
use ps_codefile::Role;
use ps_codefile::dictionary_layout::SLOTS;
use std::marker::Model;

/// The request of a slot that wants a unit.
fn own_request(host: &HostSlots, slot: u8) -> Option<Request>
    requires { slot < SLOTS }
    ensures { result ≡ option_and_then (wanted_request host.now.order host.now.file slot)
        (result_ok (role_of (entry_at host.now.order host.now.file slot))) }
{
    match host.role(slot) {
        Ok(Role::Wanted) => Some(Request::of_slot(host, slot)),
        Ok(Role::Empty | Role::Plain | Role::Host | Role::Unit) | Err(_) => None,
    }
}

/// The request of a name of the queue that takes this empty slot.
fn queued_request(queue: &[UnitReference], empty: &[u8], slot: u8) -> Option<Request>
    ensures { result ≡ queued_request_spec queue.now empty.now slot }
{
    for (k, other) in empty.iter().enumerate() {
        if *other == slot {
            return requested_from_queue(queue, k, slot);
        }
    }
    None
}

/// The request of the k-th name of the queue, which takes this slot, where there are so many.
fn requested_from_queue(queue: &[UnitReference], k: usize, slot: u8) -> Option<Request>
    ensures { result ≡ option_map (λ g. request_of g slot) (slice_get queue.now k) }
{
    match queue.get(k) {
        None => None,
        Some(requested) => Some(requested.in_slot(slot)),
    }
}

/// What was read of a host and its libraries, as far as names are looked up in it. It borrows all of
/// it, so that it is made of a reading as of the files alone.
#[derive(Drop)]
pub(crate) struct ReadNames<'r, 'a> {
    pub(crate) slots: &'r HostSlots<'a>,
    pub(crate) libs: &'a [&'a [u8]],
    /// The segments that have no fault, by slot ascending.
    pub(crate) segments: &'r [Segment<'a>],
    /// What was requested.
    pub(crate) added: &'r AddedUnits,
}

impl<'r, 'a> Model for ReadNames<'r, 'a> {
    ghost use Rattle.ps_reading.specs.Sources.{contents};
    ghost use Rattle.ps_reading.specs.Readings.{AreReadNames, HostFiles, with_libraries};

    ghost Value = { HostFiles };

    ghost view = { λ n. with_libraries n.slots.now (contents n.libs.now) };

    ghost invariant = { λ n. AreReadNames n.slots.now (contents n.libs.now) n.segments.now n.added.now };
}

impl<'r, 'a> ReadNames<'r, 'a> {
    /// The request for a unit that a slot has, if it has one: its own, where it wants a unit, or that
    /// of a name that is requested, which takes the slot if it is empty.
    pub(crate) fn request(&self, slot: u8) -> Option<Request>
        requires { slot < SLOTS }
        ensures { result ≡ request_in self.now slot }
    {
        if is_empty(self.slots, slot) {
            return queued_request(
                self.added.queue.as_slice(),
                self.added.empty.as_slice(),
                slot,
            );
        }
        own_request(self.slots, slot)
    }
}
