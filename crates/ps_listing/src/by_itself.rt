//! A segment read by itself.
ghost use Rattle.std.specs.Prelude.{◌≡◌, ◌<◌, IfOk, Ok};
ghost use Rattle.std.specs.Result.{result_err};
ghost use Rattle.ps_codefile.specs.Dictionary.{entry_at, role_of};
ghost use Rattle.ps_codefile.specs.Roles.{needs_linking as needs_linking_spec};
ghost use Rattle.ps_resolve.specs.Sources.{records_of};
ghost use Rattle.ps_listing.specs.Listed.{fault_alone};

use ps_codefile::dictionary_layout::SLOTS;
use ps_codefile::{Dict, Role};
use ps_linkinfo::LinkInformation;
use ps_resolve::{SegmentAt, read_linked};
use ps_words::Fault;

/// The records of the segment in a slot of this role, or its first fault: of its code, then of one
/// that is to be linked of its tables and its records. One that is linked already has no records.
pub(crate) fn read_by_itself<'a>(
    dict: &Dict<'a>,
    slot: u8,
    role: Role,
) -> Result<LinkInformation<'a>, Fault>
    requires in_range { slot < SLOTS }
    requires role { role_of (entry_at dict.now.order dict.now.file slot) ≡ Ok role }
    ensures fault { result_err result ≡ fault_alone dict.now.order dict.now.file slot role }
    ensures records { IfOk result (λ records. records ≡ records_of dict.now.order dict.now.file
        (entry_at dict.now.order dict.now.file slot) (needs_linking_spec role)) }
{
    match dict.code(slot) {
        Err(reason) => Err(Fault::in_slot(0, slot, reason)),
        Ok(code) => {
            let place = SegmentAt { file: 0, slot };
            read_linked(dict, slot, code, role, place, &[])
        }
    }
}
