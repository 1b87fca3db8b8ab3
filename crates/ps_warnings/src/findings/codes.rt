//! What is found in codes.
ghost use Rattle.std.specs.Prelude.{◌<◌, [], OnOk};
ghost use Rattle.ps_warnings.specs.Found.{Adds, about_link};

use super::Findings;
use super::numbers::other_number;
use super::procedures::{is_without_procedures, lost_tables, misfit_in, odd_data, other_procedure};
use crate::dead::unread_run;
use crate::finding::{CodeFinding, Place};
use ps_codefile::Dict;
use ps_codefile::dictionary_layout::SLOTS;
use ps_filetype::only_byte;
use ps_words::Order;
use std::alloc::{AllocError, Allocator};

/// The run of one byte that a code has, if it has one: it was not read, or never written. A code of a
/// single byte says nothing of that.
pub(super) fn run_in(order: Order, kind: u16, code: &[u8]) -> Option<CodeFinding> {
    match only_byte(code) {
        Some(_) if is_without_procedures(code) || code.len() == 1 => None,
        Some(byte) => Some(CodeFinding::OneByte { byte }),
        None => unread_run(order, kind, code),
    }
}

/// Looks at the code of the segment of an entry of a file. A run of one byte in it, of which a fault
/// tells or not, silences the other notes of the segment.
pub(super) fn look_at<'a, A: Allocator>(
    findings: &mut Findings<'a, A>,
    place: Place<'a>,
    dict: &Dict<'_>,
    slot: u8,
    code: &[u8],
    run: Option<CodeFinding>,
    is_told: bool,
) -> Result<(), AllocError>
    requires { slot < SLOTS }
    ensures { OnOk result (Adds (about_link findings.old) [] (about_link findings.new)) }
{
    if run.is_some() {
        return findings.add_unsure(place, if is_told { None } else { run });
    }
    let (order, kind) = (dict.order(), dict.entry(slot).kind);
    findings.add_unsure(place, other_number(dict, slot, kind, code))?;
    look_at_procedures(findings, place, order, kind, slot, code)
}

/// Looks at the procedures of the code of the segment of this kind in a slot.
fn look_at_procedures<'a, A: Allocator>(
    findings: &mut Findings<'a, A>,
    place: Place<'a>,
    order: Order,
    kind: u16,
    slot: u8,
    code: &[u8],
) -> Result<(), AllocError>
    ensures { OnOk result (Adds (about_link findings.old) [] (about_link findings.new)) }
{
    findings.add_unsure(place, lost_tables(order, kind, slot, code))?;
    findings.add_unsure(place, odd_data(order, kind, code))?;
    findings.add_unsure(place, other_procedure(order, code))?;
    findings.add_unsure(place, misfit_in(order, code))
}
