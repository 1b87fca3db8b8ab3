ghost use Rattle.std.specs.Prelude.{◌≡◌, ◌<◌, ◌≤◌, List, ℕ, length, true, Some, None, IfOk, if◌then◌else◌};
ghost use Rattle.std.specs.Option.{option_map, option_or};
ghost use Rattle.std.specs.Result.{result_err};
ghost use Rattle.ps_words.specs.FaultPlaces.{in_slot as in_slot_spec};
ghost use Rattle.ps_codefile.specs.Dictionary.{entry_at, kind_needs_linking, information_of};
ghost use Rattle.ps_codefile.specs.Places.{HasTables};
ghost use Rattle.ps_codefile.specs.Procedures.{tables_fault as tables_fault_spec};
ghost use Rattle.ps_linkinfo.specs.Records.{reading};
ghost use Rattle.ps_codefile.specs.Roles.{needs_linking as needs_linking_spec, is_host as is_host_spec};
ghost use Rattle.ps_reading.specs.Sources.{file_at, information_block, records_of, segment_from};
ghost use Rattle.ps_reading.specs.Faults.{code_fault, information_fault};
ghost use Rattle.ps_reading.specs.KnownSegments.{ArePlacedIn, IsRead};

use crate::locations::SegmentAt;
use crate::reading::segment::{Segment, records_at};
use ps_codefile::dictionary_layout::SLOTS;
use ps_codefile::{Dict, ProcedureDictionary, Role};
use ps_linkinfo::LinkInformation;
use ps_words::{Fault, Name, Order, blocks_of};

impl<'a> Default for Segment<'a> {
    fn default() -> Self {
        Segment {
            slot: 0,
            index: 0,
            linked: false,
            added: false,
            role: Role::Plain,
            order: Order::Little,
            name: [0; 8],
            address: 0,
            file: 0,
            code: &[],
            records: LinkInformation::none(),
        }
    }
}

/// The block after the code of an entry, in which its link information begins.
fn block_behind(from: &Dict, index: u8) -> usize
    requires { index < SLOTS }
    ensures { result ≡ information_block (entry_at from.now.order from.now.file index) true }
{
    let entry = from.entry(index);
    entry.address as usize + blocks_of(entry.length as usize)
}

/// The link information of an entry, or its first fault. What an earlier segment has is not read
/// again.
fn read_information<'a>(
    from: &Dict<'a>,
    index: u8,
    place: SegmentAt,
    earlier: &[Segment<'a>],
) -> Result<LinkInformation<'a>, Fault>
    requires in_range { index < SLOTS }
    requires placed { ArePlacedIn from.now.order from.now.file place.file earlier.now }
    ensures fault { result_err result ≡ information_fault from.now.order from.now.file
        (entry_at from.now.order from.now.file index) place.file place.slot }
    ensures records { IfOk result (λ records. records ≡ (reading from.now.order
        (information_of from.now.file (entry_at from.now.order from.now.file index))).0) }
{
    if let Some(records) = records_at(earlier, place.file, block_behind(from, index)) {
        return Ok(records);
    }
    match LinkInformation::read(from.order(), from.after(index)) {
        Err(fault) => Err(Fault::in_record(place.file, place.slot, fault.rec, fault.reason)),
        Ok(records) => Ok(records),
    }
}

/// The link information of an entry, 0 to 15, of a file, with this code and this role, or the first
/// fault: of its procedure tables, and then of the records. Neither is looked at where the segment is
/// linked already. The fault is at `place`; what one of the segments `earlier` has is not read again.
/// The function stands in the body of each caller, so that a link takes no more instructions for the
/// other callers.
#[inline(always)]
pub fn read_linked<'a>(
    from: &Dict<'a>,
    index: u8,
    code: &'a [u8],
    role: Role,
    place: SegmentAt,
    earlier: &[Segment<'a>],
) -> Result<LinkInformation<'a>, Fault>
    requires in_range { index < SLOTS }
    requires large { needs_linking_spec role ≡ true → 2 ≤ length code.now }
    requires placed { ArePlacedIn from.now.order from.now.file place.file earlier.now }
    ensures fault { result_err result ≡ (if needs_linking_spec role
        then option_or (option_map (in_slot_spec place.file place.slot)
        (tables_fault_spec from.now.order code.now (is_host_spec role)))
        (information_fault from.now.order from.now.file
        (entry_at from.now.order from.now.file index) place.file place.slot)
        else None) }
    ensures records { IfOk result (λ records. records ≡ records_of from.now.order from.now.file
        (entry_at from.now.order from.now.file index) (needs_linking_spec role)) }
    ensures tables { IfOk result (λ _. needs_linking_spec role ≡ true
        → HasTables from.now.order code.now) }
{
    if !role.needs_linking() {
        return Ok(LinkInformation::none());
    }
    match ProcedureDictionary::read(from.order(), code, role.is_host()) {
        Err(reason) => Err(Fault::in_slot(place.file, place.slot, reason)),
        Ok(_) => read_information(from, index, place, earlier),
    }
}

/// The segment of a slot, whose code and link information are those of an entry of a file; the
/// segments that were read before it are `earlier`.
pub(crate) fn read_segment<'a>(
    place: SegmentAt,
    name: Name,
    role: Role,
    from: &Dict<'a>,
    index: u8,
    earlier: &[Segment<'a>],
) -> Result<Segment<'a>, Fault>
    requires slots { place.slot < SLOTS }
    requires in_range { index < SLOTS }
    requires placed { ArePlacedIn from.now.order from.now.file place.file earlier.now }
    requires kind { needs_linking_spec role ≡ true
        → kind_needs_linking (entry_at from.now.order from.now.file index).kind ≡ true }
    ensures fault { (host : List ℕ) (libs : List (List ℕ))
        → file_at host libs place.file ≡ from.now.file
        → result_err result ≡ code_fault from.now.order host libs place.slot role
        (place.file, index) }
    ensures segment { (host : List ℕ) (libs : List (List ℕ))
        → file_at host libs place.file ≡ from.now.file
        → IfOk result (λ s. segment_from from.now.order host libs place.slot name role
        (place.file, index) ≡ Some s) }
    ensures read { (host : List ℕ) (libs : List (List ℕ))
        → file_at host libs place.file ≡ from.now.file
        → IfOk result (IsRead from.now.order host libs) }
{
    match from.code(index) {
        Err(reason) => Err(Fault::in_slot(place.file, place.slot, reason)),
        Ok(code) => {
            let records = read_linked(from, index, code, role, place, earlier)?;
            Ok(Segment {
                slot: place.slot,
                index,
                linked: role.needs_linking(),
                added: false,
                role,
                order: from.order(),
                name,
                address: from.entry(index).address,
                file: place.file,
                code,
                records,
            })
        }
    }
}
