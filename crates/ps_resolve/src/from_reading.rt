ghost use Rattle.std.specs.Prelude.{◌≡◌, ◌≤◌, IfOk, IfErr, None, Ok, length};
ghost use Rattle.ps_reading.specs.OfLink.{AreOfLink};
ghost use Rattle.ps_reading.specs.Readings.{opened_host};
ghost use Rattle.ps_resolve.specs.AllFaults.{first_fault};
ghost use Rattle.ps_resolve.specs.LinkedBytes.{segments_of};
ghost use Rattle.ps_resolve.specs.Plans.{IsPlan, IsStopped};

use crate::linkage::Stop;
use crate::plan::Plan;
use crate::resolving::link_read;
use arrayvec::ArrayVec;
use ps_codefile::dictionary_layout::SLOT_COUNT;
use ps_reading::{HOST_FILE, HostReading, Reading, Segment};
use ps_words::Fault;
use std::alloc::Allocator;

/// Plans the link of a host file and its libraries that were read. It reads them no second time.
///
/// The plan and the refusal are those that [`resolve`](crate::resolve) has of the files.
///
/// Source: what a link is, the published II.0 Linker source; the faults and their order, this
/// project's profile.
pub fn resolve_reading<'a, A: Allocator + Copy>(
    alloc: A,
    reading: &Reading<'a>,
) -> Result<Plan<'a, A>, Stop>
    ensures plan { IfOk result (IsPlan reading.now.host reading.now.libs) }
    ensures sound { IfOk result (λ _. first_fault reading.now.host reading.now.libs ≡ None) }
    ensures known { IfOk result (λ _. AreOfLink reading.now.host reading.now.libs
        (segments_of reading.now.host reading.now.libs)) }
    ensures stop { IfErr result (IsStopped reading.now.host reading.now.libs) }
{
    match reading.host() {
        Err(reason) => Err(Stop::Refused(Fault::in_file(HOST_FILE, reason))),
        Ok(host) => resolve_host(alloc, reading, host),
    }
}

/// Plans the link of a host that was opened. The plan is made last, with a copy of the table of
/// segments.
fn resolve_host<'a, A: Allocator + Copy>(
    alloc: A,
    reading: &Reading<'a>,
    host: &HostReading<'a>,
) -> Result<Plan<'a, A>, Stop>
    requires { opened_host reading.now.host reading.now.libs ≡ Ok host.now }
    ensures plan { IfOk result (IsPlan reading.now.host reading.now.libs) }
    ensures sound { IfOk result (λ _. first_fault reading.now.host reading.now.libs ≡ None) }
    ensures known { IfOk result (λ _. AreOfLink reading.now.host reading.now.libs
        (segments_of reading.now.host reading.now.libs)) }
    ensures stop { IfErr result (IsStopped reading.now.host reading.now.libs) }
{
    let (file, segments) = (reading.file(), host.segments());
    let links = link_read(
        alloc,
        file,
        reading.libs(),
        host.order(),
        segments,
        host.fault(),
    )?;
    Ok(Plan {
        host: file,
        names: host.slot_names(),
        sources: copied(segments),
        links,
    })
}

/// A table of these segments.
fn copied<'a>(segments: &[Segment<'a>]) -> ArrayVec<Segment<'a>, SLOT_COUNT>
    requires { length segments.now ≤ SLOT_COUNT }
    ensures { result.items ≡ segments.now }
{
    let mut table = ArrayVec::new();
    for segment in segments {
        table.push(segment.copy());
    }
    table
}
