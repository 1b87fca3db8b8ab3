ghost use Rattle.std.specs.Prelude.{◌≡◌, IfOk, IfErr, None, Ok};
ghost use Rattle.ps_codefile.specs.Dictionary.{opened_alone};
ghost use Rattle.ps_reading.specs.Sources.{contents, order_of};
ghost use Rattle.ps_resolve.specs.LinkedBytes.{segments_of};
ghost use Rattle.ps_reading.specs.OfLink.{AreOfLink};
ghost use Rattle.ps_resolve.specs.Faults.{linking_fault};
ghost use Rattle.ps_resolve.specs.FilesRead.{WereRead};
ghost use Rattle.ps_resolve.specs.Linkable.{AreWhole};
ghost use Rattle.ps_resolve.specs.Plans.{AreLinks, AreStopped, IsPlan, IsStopped};
ghost use Rattle.ps_resolve.specs.AllFaults.{first_fault};

use crate::host_segment::host_of;
use crate::linkage::Stop;
use crate::linking::link_segments;
use crate::links::Links;
use crate::plan::Plan;
use crate::segments::Segments;
use arrayvec::ArrayVec;
use ps_codefile::Dict;
use ps_reading::{HOST_FILE, HostSlots, Segment, read_to_fault, slot_names};
use ps_words::{Fault, Order, Reason};
use std::alloc::Allocator;

/// Plans the link of a host file with the libraries that have the units it wants, in their order.
///
/// Refuses the first fault of all: of the host, its slots, the libraries, the sources of the slots,
/// the units that only UNITREF records name, the host's definitions, the private variables, the
/// host's data size and the references, each of which is looked at only where none before it has a
/// fault. Returns `Memory` only where the files can be read without a fault.
///
/// It reads the files as far as to the first fault, and keeps only the segments, where a reading, of
/// which [`resolve_reading`](crate::resolve_reading) is, keeps also the faults and requests of slots.
///
/// Source: what a link is, the published II.0 Linker source; the faults and their order, this
/// project's profile.
pub fn resolve<'a, A: Allocator + Copy>(
    alloc: A,
    host: &'a [u8],
    libs: &'a [&'a [u8]],
) -> Result<Plan<'a, A>, Stop>
    ensures plan { IfOk result (IsPlan host.now (contents libs.now)) }
    ensures sound { IfOk result (λ _. first_fault host.now (contents libs.now) ≡ None) }
    ensures known { IfOk result (λ _. AreOfLink host.now (contents libs.now)
        (segments_of host.now (contents libs.now))) }
    ensures stop { IfErr result (IsStopped host.now (contents libs.now)) }
{
    match Dict::read(host) {
        Err(reason) => Err(Stop::Refused(Fault::in_file(HOST_FILE, reason))),
        Ok(dict) => resolve_opened(alloc, host, dict, libs),
    }
}

/// Plans the link of a host that was opened. A function by itself, so that a host that cannot be
/// opened needs no room for it. The plan is made last, of the table that was filled.
#[inline(never)]
fn resolve_opened<'a, A: Allocator + Copy>(
    alloc: A,
    host: &'a [u8],
    dict: Dict<'a>,
    libs: &'a [&'a [u8]],
) -> Result<Plan<'a, A>, Stop>
    requires { Ok dict ≡ opened_alone host.now }
    ensures plan { IfOk result (IsPlan host.now (contents libs.now)) }
    ensures sound { IfOk result (λ _. first_fault host.now (contents libs.now) ≡ None) }
    ensures known { IfOk result (λ _. AreOfLink host.now (contents libs.now)
        (segments_of host.now (contents libs.now))) }
    ensures stop { IfErr result (IsStopped host.now (contents libs.now)) }
{
    let slots = HostSlots::of(dict);
    let mut sources = ArrayVec::new();
    let fault = read_to_fault(&slots, libs, &mut sources);
    let links = link_read(alloc, host, libs, slots.order(), sources.as_slice(), fault)?;
    let names = slot_names(&slots, sources.as_slice());
    Ok(Plan {
        host,
        names,
        sources,
        links,
    })
}

/// Links the segments that were read of a host and its libraries, of which this is the first fault.
/// It is the last part of a link, of files as of a reading, and stands in the body of each.
#[inline(always)]
pub(crate) fn link_read<A: Allocator + Copy>(
    alloc: A,
    host: &[u8],
    libs: &[&[u8]],
    order: Order,
    items: &[Segment],
    fault: Option<Fault>,
) -> Result<Links<A>, Stop>
    requires { WereRead host.now (contents libs.now) order items.now fault }
    ensures links { IfOk result (AreLinks (order_of host.now)
        (segments_of host.now (contents libs.now))) }
    ensures faultless { IfOk result (λ _. fault ≡ None) }
    ensures sound { IfOk result (λ _. first_fault host.now (contents libs.now) ≡ None) }
    ensures known { IfOk result (λ _. AreOfLink host.now (contents libs.now)
        (segments_of host.now (contents libs.now))) }
    ensures stop { IfErr result (IsStopped host.now (contents libs.now)) }
{
    match fault {
        Some(fault) => Err(Stop::Refused(fault)),
        None => link_whole(alloc, order, items),
    }
}

/// Links segments that were read without a fault. A function by itself, so that only files that get so
/// far need room for what a link has.
#[inline(never)]
fn link_whole<A: Allocator + Copy>(
    alloc: A,
    order: Order,
    items: &[Segment],
) -> Result<Links<A>, Stop>
    requires { AreWhole order items.now }
    ensures links { IfOk result (AreLinks order items.now) }
    ensures sound { IfOk result (λ _. linking_fault order items.now ≡ None) }
    ensures stop { IfErr result (AreStopped order items.now) }
{
    match host_of(order, items) {
        None => Err(Stop::Refused(Fault::in_file(HOST_FILE, Reason::NoHost))),
        Some(own) => link_segments(alloc, &Segments { order, own, items }),
    }
}
