ghost use Rattle.std.specs.Prelude.{◌≡◌, ℕ, ◌≤◌, ◌+◌, ◌-◌, ◌∷◌, [], IsPermutation, length, true, None, IfOk, OnOk, IfErr, ⊤, option_to_list};
ghost use Rattle.ps_words.specs.declared.edit.Edit.TheVariants.{Byte};
ghost use Rattle.ps_codefile.specs.Roles.{is_host as is_host_spec};
ghost use Rattle.ps_resolve.specs.Privates.{private_words};
ghost use Rattle.ps_resolve.specs.Edits.{data_size_edit, IsOfTable};
ghost use Rattle.ps_resolve.specs.EditTables.{IsTableOf, edits_of};
ghost use Rattle.ps_resolve.specs.TakenPlaces.{AreTaken};
ghost use Rattle.ps_resolve.specs.Faults.{segment_fault};
ghost use Rattle.ps_resolve.specs.Linkable.{IsNext};
ghost use Rattle.ps_resolve.specs.Linking.{segment_edits as segment_edits_spec, data_edits};
ghost use Rattle.ps_resolve.specs.Plans.{LinksSegment};
ghost use Rattle.ps_resolve.specs.Stops.{IsStop};
ghost use Rattle.ps_resolve.specs.declared.linkage.Stop.TheVariants.{Memory};

pub(crate) mod data_size;

use crate::edit_table::EditTable;
use crate::linkage::Stop;
use crate::references::names::Linking;
use crate::references::records::add_records;
use ps_codefile::Procs;
use ps_codefile::code_layout::NUMBERS;
use ps_reading::Segment;
use ps_words::Edit;
use ps_words::word_laws::edits_patch_alike_in_any_order;
use std::alloc::Allocator;

/// How many edits of a linked segment are no reference's, at most.
const MOST_EDITS_BESIDE_REFERENCES: usize = 2;

/// A table of the places of a linked segment's code, with the edits that are no reference's: its
/// number, and in the host's segment `size`.
fn own_edits<A: Allocator + Copy>(
    alloc: A,
    procedures: &Procs,
    slot: u8,
    host: bool,
    size: Edit,
) -> Result<EditTable<A>, Stop>
    requires long { 4 ≤ length procedures.now.code }
    requires table { host ≡ true → IsOfTable procedures.now.order procedures.now.code size }
    ensures table { IfOk result (λ edits. IsTableOf procedures.now.code edits.states.items) }
    ensures taken { IfOk result (λ edits. AreTaken procedures.now edits.states.items []) }
    ensures edits { IfOk result (λ edits. IsPermutation
        (Byte slot (length procedures.now.code - 2) ∷ option_to_list (data_size_edit host size))
        (edits_of edits.states.items)) }
    ensures stop { IfErr result (λ stop. stop ≡ Memory) }
{
    let mut edits = EditTable::new(alloc, procedures)?;
    edits.put(Edit::Byte {
        place: procedures.code().len() - NUMBERS,
        value: slot,
    });
    if !host {
        return Ok(edits);
    }
    edits.put(size);
    Ok(edits)
}

/// The edits of a segment after others whose references are resolved, in the order of their places,
/// where the first of its privates has the offset `free`, and the offset after its last. A segment
/// that is linked already has neither edits nor privates.
pub(crate) fn segment_edits<'a, A: Allocator + Copy>(
    alloc: A,
    link: &Linking<A>,
    earlier: &[Segment<'a>],
    segment: &Segment<'a>,
    free: u16,
) -> Result<(Vec<Edit, A>, u16), Stop>
    requires { IsNext link.now.order link.now.names.now link.now.size earlier.now segment.now free }
    ensures links { (words : ℕ)
        → (is_host_spec segment.now.role ≡ true
        → data_edits link.now.order words segment.now.code ≡ link.now.size ∷ [])
        → IfOk result (λ found. LinksSegment link.now.order segment.now
        (segment_edits_spec link.now.order link.now.names.now words free segment.now)
        found.0.items) }
    ensures end { IfOk result (λ found. found.1 ≡ free + private_words segment.now.records) }
    ensures sound { OnOk result
        (segment_fault link.now.order link.now.names.now free segment.now ≡ None) }
    ensures stop { IfErr result (IsStop ⊤
        (segment_fault link.now.order link.now.names.now free segment.now)) }
{
    match segment.resolvable() {
        None => Ok((Vec::new(alloc), free)),
        Some(resolvable) => {
            edits_patch_alike_in_any_order();
            let host = segment.role().is_host();
            let procedures = resolvable.procedures.procs();
            let records = resolvable.records;
            let own = own_edits(alloc, &procedures, segment.slot(), host, link.size)?;
            let (table, end) = add_records(link, earlier, segment, records, procedures, free, own)?;
            let references = records.references();
            let count = references.saturating_add(MOST_EDITS_BESIDE_REFERENCES);
            let edits = table.edits(alloc, count)?;
            Ok((edits, end))
        }
    }
}
