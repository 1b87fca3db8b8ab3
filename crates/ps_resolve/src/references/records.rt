ghost use Rattle.std.specs.Prelude.{◌≡◌, ◌≤◌, ◌+◌, ◌++◌, OnOk, IfOk, IfErr, IsPermutation, [], Some, None, true, option_map};
ghost use Rattle.ps_codefile.specs.Roles.{needs_linking};
ghost use Rattle.ps_resolve.specs.EditTables.{IsTableOf, edits_of};
ghost use Rattle.ps_resolve.specs.Linkable.{IsNext};
ghost use Rattle.ps_resolve.specs.References.{target_of as target_of_spec, words_taken as words_taken_spec, records_edits, first_record_fault};
ghost use Rattle.ps_resolve.specs.Faults.{in_segment, segment_fault};
ghost use Rattle.ps_resolve.specs.Privates.{private_words};
ghost use Rattle.ps_resolve.specs.Stops.{IsStop};
ghost use Rattle.ps_resolve.specs.TakenPlaces.{AreTaken};

use crate::allotment::words_of_private;
use crate::definitions::DefKind;
use crate::edit_table::EditTable;
use crate::linkage::Stop;
use crate::references::names::{Linking, Names};
use crate::references::{ReferenceEdits, Target};
use ps_codefile::Procs;
use ps_linkinfo::{Body, LinkInformation, LinkRecord};
use ps_reading::{Segment, SegmentAt};
use ps_words::{MAX_WORD, Reason};
use std::alloc::Allocator;

/// What the operands of the record's references become.
fn target_of<A: Allocator + Copy>(
    names: &Names<A>,
    free: u16,
    entry: &LinkRecord,
) -> Result<Target, Reason>
    ensures { result ≡ target_of_spec names.now free entry.now }
{
    match &entry.body {
        Body::UnitRef(_) => match names.slot_of_unit(entry.name) {
            None => Err(Reason::MissingUnitRef),
            Some(slot) => Ok(Target::Slot(slot)),
        },
        Body::PublRef(_) => match names.definition_of(&entry.name) {
            None => Err(Reason::MissingDefinition),
            Some(def) => match def.kind {
                DefKind::Public => Ok(Target::Base(def.value)),
                DefKind::Constant => Err(Reason::IllKind),
            },
        },
        Body::PrivRef { .. } => Ok(Target::Base(free)),
        Body::PublDef(_) | Body::ConstDef(_) | Body::Eof(_) => Ok(Target::Slot(0)),
    }
}

/// How many words the record's private takes.
pub(crate) fn words_taken(body: &Body) -> u16
    ensures { result ≡ words_taken_spec body.now }
{
    words_of_private(body).unwrap_or(0)
}

/// Adds the edits of these records of a linked segment to those found, where the first of their
/// privates has the offset `free`, or finds their first fault. Returns the offset after the last
/// private.
fn add_each<A: Allocator + Copy>(
    names: &Names<A>,
    place: SegmentAt,
    records: &LinkInformation,
    free: u16,
    found: &mut ReferenceEdits<'_, A>,
) -> Result<u16, Stop>
    requires room { free + private_words records.now ≤ MAX_WORD }
    requires table { IsTableOf found.old.procedures.code found.old.edits.states.items }
    requires taken { AreTaken found.old.procedures found.old.edits.states.items [] }
    ensures edits { OnOk result (IsPermutation (edits_of found.old.edits.states.items
        ++ records_edits names.now found.old.procedures.code free records.now)
        (edits_of found.new.edits.states.items)) }
    ensures table { OnOk result (IsTableOf found.old.procedures.code
        found.new.edits.states.items) }
    ensures end { IfOk result (λ end. end ≡ free + private_words records.now) }
    ensures sound { OnOk result (first_record_fault names.now found.old.procedures free records.now
        ≡ None) }
    ensures stop { IfErr result (IsStop ⊥ (option_map (in_segment place.file place.slot)
        (first_record_fault names.now found.old.procedures free records.now))) }
{
    let mut next = free;
    for (rec, record) in records.records() {
        let at = place.record(rec);
        match target_of(names, next, &record) {
            Err(reason) => return Err(Stop::in_record(at, reason)),
            Ok(target) => {
                found.add_record(at, target, &record.body)?;
                next += words_taken(&record.body);
            }
        }
    }
    Ok(next)
}

/// Adds the edits of all records of a linked segment to `edits`, where the first of its privates
/// has the offset `free`, or finds their first fault. Returns all edits, and the offset after its
/// last private. No record is looked at where none requests a unit, a public or a private variable,
/// and so none has a reference; nor where an earlier segment has them too and they change nothing.
pub(crate) fn add_records<'a, A: Allocator + Copy>(
    link: &Linking<A>,
    earlier: &[Segment<'a>],
    segment: &Segment<'a>,
    records: &LinkInformation<'a>,
    procedures: Procs<'a>,
    free: u16,
    edits: EditTable<A>,
) -> Result<(EditTable<A>, u16), Stop>
    requires records { records.now ≡ segment.now.records }
    requires tables { Some procedures ≡ segment.now.tables }
    requires linked { needs_linking segment.now.role ≡ true }
    requires next { IsNext link.now.order link.now.names.now link.now.size
        earlier.now segment.now free }
    requires table { IsTableOf segment.now.code edits.states.items }
    requires taken { AreTaken procedures edits.states.items [] }
    ensures edits { IfOk result (λ all. IsPermutation (edits_of edits.states.items
        ++ records_edits link.now.names.now segment.now.code free segment.now.records)
        (edits_of all.0.states.items)) }
    ensures table { IfOk result (λ all. IsTableOf segment.now.code all.0.states.items) }
    ensures end { IfOk result (λ all. all.1 ≡ free + private_words segment.now.records) }
    ensures sound { OnOk result
        (segment_fault link.now.order link.now.names.now free segment.now ≡ None) }
    ensures stop { IfErr result (IsStop ⊥
        (segment_fault link.now.order link.now.names.now free segment.now)) }
{
    if records.units() == 0 && records.publics() == 0 && records.privates() == 0 {
        return Ok((edits, free));
    }
    if records.references() == 0 && records.privates() == 0 && segment.shares_with(earlier) {
        return Ok((edits, free));
    }
    let mut found = ReferenceEdits { procedures, edits };
    let next = add_each(link.names, segment.place(), records, free, &mut found)?;
    Ok((found.edits, next))
}
