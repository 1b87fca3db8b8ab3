ghost use Rattle.std.specs.Prelude.{◌≡◌, ℕ, ◌≤◌, ◌∷◌, [], length, map, All, true, None, IfOk, IfErr};
ghost use Rattle.ps_resolve.specs.Edits.{AreOfReferences};
ghost use Rattle.ps_resolve.specs.Faults.{references_fault_from, linking_fault};
ghost use Rattle.ps_resolve.specs.Linkable.{AreLinkable};
ghost use Rattle.ps_resolve.specs.Linking.{data_edits, edited_from};
ghost use Rattle.ps_resolve.specs.Plans.{AreLinks, AreStopped, LinkSegments};
ghost use Rattle.ps_codefile.specs.Roles.{is_host as is_host_spec};
ghost use Rattle.ps_reading.specs.Sources.{units_of};
ghost use Rattle.ps_resolve.specs.References.{known_by};

use crate::allotment::Allotment;
use crate::definitions::Definitions;
use crate::edits::data_size::grown_data_size;
use crate::edits::segment_edits;
use crate::linkage::Stop;
use crate::links::Links;
use crate::references::names::{Linking, Names, NamesOf};
use crate::segments::Segments;
use ps_codefile::dictionary_layout::SLOT_COUNT;
use ps_reading::{HOST_FILE, Segment, SegmentAt, UnitSlots};
use ps_words::{Edit, Order};
use std::alloc::Allocator;

/// The edits of each segment, where the first private has the offset `base`.
fn all_edits<A: Allocator + Copy>(
    alloc: A,
    link: &Linking<A>,
    segments: &[Segment],
    base: u16,
) -> Result<Vec<Vec<Edit, A>, A>, Stop>
    requires { AreLinkable link.now.order link.now.size base segments.now }
    ensures links { (words : ℕ)
        → All (λ s. is_host_spec s.role ≡ true
        → data_edits link.now.order words s.code ≡ link.now.size ∷ []) segments.now
        → IfOk result (λ edits. LinkSegments link.now.order
        (edited_from link.now.order link.now.names.now words base segments.now)
        (map (λ e. e.items) edits.items)) }
    ensures sound { IfOk result (λ _. references_fault_from link.now.order link.now.names.now base
        segments.now ≡ None) }
    ensures stop { IfErr result (AreOfReferences link.now.order link.now.names.now base
        segments.now) }
{
    let mut edits = Vec::with_capacity(alloc, segments.len())?;
    let mut free = base;
    for (index, segment) in segments.iter().enumerate() {
        let earlier = &segments[..index];
        let (found, end) = segment_edits(alloc, link, earlier, segment, free)?;
        edits.push(found)?;
        free = end;
    }
    Ok(edits)
}

/// The edits of each segment of a link with these definitions, where the first private has the offset
/// `base`, and `size` stores the host's data size.
fn edits_by<A: Allocator + Copy>(
    alloc: A,
    order: Order,
    definitions: &Definitions<A>,
    size: Edit,
    segments: &[Segment],
    base: u16,
) -> Result<Vec<Vec<Edit, A>, A>, Stop>
    requires linkable { AreLinkable order size base segments.now }
    requires most { length segments.now ≤ SLOT_COUNT }
    ensures links { (words : ℕ)
        → All (λ s. is_host_spec s.role ≡ true
        → data_edits order words s.code ≡ size ∷ []) segments.now
        → IfOk result (λ edits. LinkSegments order
        (edited_from order (known_by definitions.now (units_of segments.now)) words base
        segments.now) (map (λ e. e.items) edits.items)) }
    ensures sound { IfOk result (λ _. references_fault_from order
        (known_by definitions.now (units_of segments.now)) base segments.now ≡ None) }
    ensures stop { IfErr result (AreOfReferences order
        (known_by definitions.now (units_of segments.now)) base segments.now) }
{
    let units = UnitSlots::of(segments);
    let known = Names {
        of: NamesOf::Link {
            definitions,
            units: &units,
        },
    };
    let link = Linking {
        order,
        names: &known,
        size,
    };
    all_edits(alloc, &link, segments, base)
}

/// What links segments that were read without a fault, or the first fault of their definitions,
/// their privates, the host's data size and their references. A function by itself, so that its
/// tables take room of the stack only once the files are read.
#[inline(never)]
pub(crate) fn link_segments<A: Allocator + Copy>(
    alloc: A,
    segments: &Segments,
) -> Result<Links<A>, Stop>
    ensures links { IfOk result (AreLinks segments.now.order segments.now.items) }
    ensures sound { IfOk result (λ _. linking_fault segments.now.order segments.now.items ≡ None) }
    ensures stop { IfErr result (AreStopped segments.now.order segments.now.items) }
{
    let order = segments.order;
    let all = segments.items;
    let own = &segments.own;
    let place = SegmentAt {
        file: HOST_FILE,
        slot: own.segment.slot(),
    };
    let definitions = Definitions::of_records(alloc, place, own.records)?;
    let base = own.records.next();
    let allotment = Allotment::of_segments(alloc, base, all)?;
    let size = grown_data_size(order, own, allotment.words())?;
    let edits = edits_by(alloc, order, &definitions, size.edit(), all, base)?;
    Ok(Links {
        order,
        data_size: size.size,
        edits,
        definitions,
        allotment,
    })
}
