//! Link information that looks wrong, by what a link does with it.
ghost use Rattle.std.specs.Prelude.{◌≡◌, ◌<◌, ◌==◌, [], OnOk, Some};
ghost use Rattle.ps_codefile.specs.Dictionary.{entry_at, information_of};
ghost use Rattle.std.specs.Option.{option_map};
ghost use Rattle.ps_linkinfo.specs.Numbered.{numbered_records};
ghost use Rattle.ps_linkinfo.specs.Records.{reading};
ghost use Rattle.ps_resolve.specs.Searches.{first_of};
ghost use Rattle.ps_warnings.specs.Searches.FileFindings.{definition_findings, findings_of_records};
ghost use Rattle.ps_warnings.specs.SegmentSizes.{data_size as data_size_spec};
ghost use Rattle.ps_warnings.specs.Found.{Adds, about_link};
ghost use Rattle.ps_warnings.specs.Searches.RecordFindings.{definition_as as definition_as_spec, end_mark as end_mark_spec, first_above as first_above_spec, first_definition as first_definition_spec, first_high as first_high_spec, first_past, first_past_mark as first_past_mark_spec, first_public as first_public_spec, high_as as high_as_spec, is_defined as is_defined_spec, is_missed as is_missed_spec, is_past as is_past_spec, is_past_mark as is_past_mark_spec, low_mark as low_mark_spec, missed_or_not as missed_or_not_spec, past_as as past_as_spec, past_mark as past_mark_spec, past_words as past_words_spec, public_as as public_as_spec, public_in, public_value_of as public_value_of_spec};

use super::operands::{first_clear_mark, no_references, zero_mark};
use super::{Context, Findings, in_segment};
use crate::finding::{Finding, NameFinding, Place, RecordFinding};
use ps_codefile::code_layout::NUMBERS;
use ps_codefile::dictionary_layout::SLOTS;
use ps_codefile::kinds::HOSTSEG;
use ps_codefile::{Dict, Entry, ProcedureDictionary};
use ps_filetype::oddity_of;
use ps_linkinfo::{Body, LinkInformation, LinkRecord, Refs, Sort};
use ps_words::{Name, Order, get_big};
use std::alloc::{AllocError, Allocator};

/// Looks at the link information of the segment in a slot of a file. Of each kind of look the first
/// record is reported.
pub(super) fn look_at<'a, A: Allocator>(
    findings: &mut Findings<'a, A>,
    context: &Context<'_, '_>,
    path: &'a str,
    dict: &Dict<'_>,
    slot: u8,
    code: &[u8],
    is_run: bool,
) -> Result<(), AllocError>
    requires { slot < SLOTS }
    ensures { OnOk result (Adds (about_link findings.old)
        (findings_of_records path.now (option_map (λ h. h.now) context.now.host) dict.now.order
        (entry_at dict.now.order dict.now.file slot) code.now (reading dict.now.order
        (information_of dict.now.file (entry_at dict.now.order dict.now.file slot))).0)
        (about_link findings.new)) }
{
    let order = dict.order();
    let entry = dict.entry(slot);
    let after = dict.after(slot);
    let records = LinkInformation::up_to_fault(order, after);
    let place = in_segment(path, entry.name);
    findings.add_unsure_of_record(place, first_odd_name(&records, context.are_small))?;
    findings.add_of_record(place, first_past_private(&records, code))?;
    findings.add_of_record(place, first_public(&records, context.host, code))?;
    look_at_operands(findings, place, order, entry.kind, &records, code, is_run)?;
    findings.add_unsure(place, zero_mark(order, &records, after))?;
    let size = data_size(order, code);
    look_at_definitions(findings, context, path, &entry, size, &records)
}

/// Looks at the operands that the references of a segment name, and at references that may be lost. A
/// run of one byte in its code silences both.
fn look_at_operands<'a, A: Allocator>(
    findings: &mut Findings<'a, A>,
    place: Place<'a>,
    order: Order,
    kind: u16,
    records: &LinkInformation<'_>,
    code: &[u8],
    is_run: bool,
) -> Result<(), AllocError>
    ensures { OnOk result (Adds (about_link findings.old) [] (about_link findings.new)) }
{
    if is_run {
        return Ok(());
    }
    let has_end = end_mark(records).is_some();
    findings.add_unsure_of_record(place, first_clear_mark(records, code))?;
    findings.add_unsure(place, no_references(order, kind, records, has_end, code))
}

/// Looks at what the records of a segment define.
fn look_at_definitions<'a, A: Allocator>(
    findings: &mut Findings<'a, A>,
    context: &Context<'_, '_>,
    path: &'a str,
    entry: &Entry,
    size: Option<u16>,
    records: &LinkInformation<'_>,
) -> Result<(), AllocError>
    ensures { OnOk result (Adds (about_link findings.old)
        (definition_findings path.now (Some entry.now.name)
        (option_map (λ h. h.now) context.now.host) entry.now.kind size records.now)
        (about_link findings.new)) }
{
    let place = in_segment(path, entry.name);
    if is_host(entry) {
        findings.add(place, low_mark(end_mark(records), size))?;
        return findings.add_of_record(place, first_above(records));
    }
    let missed = first_definition(true, records, context.host);
    findings.add_of_record(place, missed)?;
    let other = first_definition(false, records, context.host);
    findings.add_of_record(place, other)
}

/// The entry's kind is that of a host program.
fn is_host(entry: &Entry) -> bool
    ensures { result ≡ (entry.now.kind == 1) }
{
    entry.kind == HOSTSEG
}

/// The data size of the outer block of a code, in bytes.
#[tactic(auto, unfolding(crate::specs::SegmentSizes::data_size))]
fn data_size(order: Order, code: &[u8]) -> Option<u16>
    ensures { result ≡ data_size_spec order code.now }
{
    if code.len() < NUMBERS {
        return None;
    }
    match ProcedureDictionary::read(order, code, false) {
        Ok(procedures) => procedures.data_size(),
        Err(_) => None,
    }
}

fn first_odd_name(records: &LinkInformation<'_>, are_small: bool) -> Option<(usize, NameFinding)> {
    for (rec, record) in records.records() {
        if !record.is_eof() {
            let name = record.name;
            if let Some(oddity) = oddity_of(&name, are_small) {
                let found = NameFinding::OddName { name, oddity };
                return Some((rec, found));
            }
        }
    }
    None
}

/// A displacement is past a variable of so many words. A variable of no words begins where the next one
/// does.
fn is_past(words: u16, displacement: u16) -> bool
    ensures { result ≡ is_past_spec words displacement }
{
    words <= displacement && !(words == 0 && displacement == 0)
}

/// The operand at a place of a code is past so many words of its variable, where the code has both
/// of its bytes.
fn past_words(code: &[u8], words: u16, place: u16) -> Option<Finding>
    ensures { result ≡ past_words_spec code.now words place }
{
    let place = usize::from(place);
    if place + 1 < code.len() {
        let displacement = get_big(code, place);
        if is_past(words, displacement) {
            return Some(Finding::Record(RecordFinding::PastPrivate {
                place,
                displacement,
                words,
            }));
        }
    }
    None
}

/// The first operand that is past so many words of its variable.
fn first_past_words(code: &[u8], words: u16, refs: &Refs<'_>) -> Option<Finding>
    ensures { result ≡ first_of (past_words_spec code.now words) refs.now }
{
    for reference in 0..refs.len() {
        if let Some(found) = past_words(code, words, refs.get(reference)) {
            return Some(found);
        }
    }
    None
}

/// The first operand of a record that is past the words of its variable.
fn past_as(code: &[u8], body: &Body<'_>) -> Option<Finding>
    ensures { result ≡ past_as_spec code.now body.now }
{
    match body {
        Body::PrivRef { words, refs } => first_past_words(code, *words, refs),
        Body::UnitRef(_) | Body::PublRef(_) | Body::PublDef(_) | Body::ConstDef(_) | Body::Eof(_) =>
            None,
    }
}

/// The first record with an operand that is past the words of its variable.
fn first_past_private(records: &LinkInformation<'_>, code: &[u8]) -> Option<(usize, Finding)>
    ensures { result ≡ first_past code.now (numbered_records 0 records.now) }
{
    for (rec, record) in records.records() {
        if let Some(found) = past_as(code, &record.body) {
            return Some((rec, found));
        }
    }
    None
}

/// The base offset of a public variable of this name: that of the first definition, if it is of a
/// variable.
fn public_value_of(host: &LinkInformation<'_>, name: &Name) -> Option<u16>
    ensures { result ≡ public_value_of_spec host.now name.now }
{
    match host.find(name, Sort::Definition) {
        Some((_, record)) => match record.body {
            Body::PublDef(value) => Some(value),
            Body::UnitRef(_)
            | Body::PublRef(_)
            | Body::PrivRef { .. }
            | Body::ConstDef(_)
            | Body::Eof(_) => None,
        },
        None => None,
    }
}

/// A displacement leads to the end mark or past it, from a public variable that begins below it or at
/// it: such a variable ends where the end mark is, and at the end mark it has no words.
fn is_past_mark(next: u16, value: u16, displacement: u16) -> bool
    ensures { result ≡ is_past_mark_spec next value displacement }
{
    value <= next && is_past(next - value, displacement)
}

/// The operand at a place of a code leads to the end mark or past it, by a public variable of this
/// name and base offset, where the code has both of its bytes.
fn past_mark(code: &[u8], name: Name, next: u16, value: u16, place: u16) -> Option<Finding>
    ensures { result ≡ past_mark_spec code.now name next value place }
{
    let place = usize::from(place);
    if place + 1 < code.len() {
        let displacement = get_big(code, place);
        if is_past_mark(next, value, displacement) {
            return Some(Finding::Record(RecordFinding::PastPublic {
                place,
                name,
                displacement,
                value,
                next,
            }));
        }
    }
    None
}

/// The first operand that leads to this end mark or past it.
fn first_past_next(
    code: &[u8],
    name: Name,
    next: u16,
    value: u16,
    refs: &Refs<'_>,
) -> Option<Finding>
    ensures { result ≡ first_of (past_mark_spec code.now name next value) refs.now }
{
    for reference in 0..refs.len() {
        if let Some(found) = past_mark(code, name, next, value, refs.get(reference)) {
            return Some(found);
        }
    }
    None
}

/// The first operand that leads to the end mark or past it, where that and the base offset are known.
fn first_past_mark(
    code: &[u8],
    name: Name,
    next: Option<u16>,
    value: Option<u16>,
    refs: &Refs<'_>,
) -> Option<Finding>
    ensures { result ≡ first_past_mark_spec code.now name next value refs.now }
{
    match (next, value) {
        (Some(next), Some(value)) => first_past_next(code, name, next, value, refs),
        (Some(_), None) | (None, _) => None,
    }
}

/// The first operand of a record that leads to the end mark of the host program or past it.
fn public_as(code: &[u8], host: &LinkInformation<'_>, entry: &LinkRecord<'_>) -> Option<Finding>
    ensures { result ≡ public_as_spec code.now host.now entry.now.name entry.now.body }
{
    match &entry.body {
        Body::PublRef(refs) => {
            let value = public_value_of(host, &entry.name);
            first_past_mark(code, entry.name, end_mark(host), value, refs)
        }
        Body::UnitRef(_)
        | Body::PrivRef { .. }
        | Body::PublDef(_)
        | Body::ConstDef(_)
        | Body::Eof(_) => None,
    }
}

/// The first record with an operand that leads to the end mark of this host program or past it.
fn first_public_of(
    records: &LinkInformation<'_>,
    host: &LinkInformation<'_>,
    code: &[u8],
) -> Option<(usize, Finding)>
    ensures { result ≡ first_of (public_in code.now host.now) (numbered_records 0 records.now) }
{
    for (rec, record) in records.records() {
        if let Some(found) = public_as(code, host, &record) {
            return Some((rec, found));
        }
    }
    None
}

/// The first record with such an operand, where the link has a host program that the segment meets.
fn first_public(
    records: &LinkInformation<'_>,
    host: Option<&LinkInformation<'_>>,
    code: &[u8],
) -> Option<(usize, Finding)>
    ensures { result ≡ first_public_spec code.now (option_map (λ h. h.now) host.entry)
        (numbered_records 0 records.now) }
{
    match host {
        None => None,
        Some(host) => first_public_of(records, host, code),
    }
}

/// The host program that a unit meets in the link defines the name, or may define it: where the unit
/// meets none, or where records of it cannot be read.
fn is_defined(host: Option<&LinkInformation<'_>>, name: &Name) -> bool
    ensures { result ≡ is_defined_spec (option_map (λ h. h.now) host.entry) name.now }
{
    match host {
        None => true,
        Some(host) => end_mark(host).is_none() || host.find(name, Sort::Definition).is_some(),
    }
}

/// A unit's definition of a name is missed: the unit refers to the name, and the host program does not
/// define it.
fn is_missed(records: &LinkInformation<'_>, host: Option<&LinkInformation<'_>>, name: &Name) -> bool
    ensures { result ≡ is_missed_spec records.now (option_map (λ h. h.now) host.entry) name.now }
{
    records.find(name, Sort::Request).is_some() && !is_defined(host, name)
}

/// A definition of a name that is missed, or one that has no effect, if that is looked for.
fn missed_or_not(missed: bool, is_missed: bool, name: Name) -> Option<Finding>
    ensures { result ≡ missed_or_not_spec missed is_missed name }
{
    match (missed, is_missed) {
        (true, true) => Some(Finding::Record(RecordFinding::OwnDefinition { name })),
        (false, false) => Some(Finding::Record(RecordFinding::UnitDefinition { name })),
        (true, false) | (false, true) => None,
    }
}

/// What a unit's definition is, if the record is one, where those are looked for that are missed, or
/// the others.
fn definition_as(
    missed: bool,
    records: &LinkInformation<'_>,
    host: Option<&LinkInformation<'_>>,
    entry: &LinkRecord<'_>,
) -> Option<Finding>
    ensures { result ≡ definition_as_spec missed records.now (option_map (λ h. h.now) host.entry)
        entry.now.name entry.now.body }
{
    if entry.body.kind().defines_variable() {
        missed_or_not(missed, is_missed(records, host, &entry.name), entry.name)
    } else {
        None
    }
}

/// The first definition of a unit that is missed, or the first other one.
fn first_definition(
    missed: bool,
    records: &LinkInformation<'_>,
    host: Option<&LinkInformation<'_>>,
) -> Option<(usize, Finding)>
    ensures { result ≡ first_definition_spec missed records.now
        (option_map (λ h. h.now) host.entry) (numbered_records 0 records.now) }
{
    for (rec, record) in records.records() {
        if let Some(found) = definition_as(missed, records, host, &record) {
            return Some((rec, found));
        }
    }
    None
}

/// What the end mark of these records says; none where no end mark was read.
fn end_mark(records: &LinkInformation<'_>) -> Option<u16>
    ensures { result ≡ end_mark_spec records.now }
{
    for (_, record) in records.records() {
        if let Body::Eof(next) = record.body {
            return Some(next);
        }
    }
    None
}

/// The end mark of the host program, where it was read and is below half its data size.
fn low_mark(next: Option<u16>, size: Option<u16>) -> Option<Finding>
    ensures { result ≡ low_mark_spec next size }
{
    match (next, size) {
        (Some(next), Some(data)) if 2 * u32::from(next) < u32::from(data) => {
            Some(Finding::Record(RecordFinding::LowMark { next, data }))
        }
        _ => None,
    }
}

/// A record of a variable that the host program defines above the next free base offset. One that is
/// at it has no words.
fn high_as(next: u16, entry: &LinkRecord<'_>) -> Option<Finding>
    ensures { result ≡ high_as_spec next entry.now.name entry.now.body }
{
    match entry.body {
        Body::PublDef(value) => {
            if next < value {
                let name = entry.name;
                Some(Finding::Record(RecordFinding::HighDefinition { name, value, next }))
            } else {
                None
            }
        }
        Body::UnitRef(_)
        | Body::PublRef(_)
        | Body::PrivRef { .. }
        | Body::ConstDef(_)
        | Body::Eof(_) => None,
    }
}

/// The first definition of the host program that is above its end mark, if that was read.
fn first_above(records: &LinkInformation<'_>) -> Option<(usize, Finding)>
    ensures { result ≡ first_above_spec records.now }
{
    match end_mark(records) {
        Some(next) => first_high(records, next),
        None => None,
    }
}

/// The first definition of the host program that is above this base offset.
fn first_high(records: &LinkInformation<'_>, next: u16) -> Option<(usize, Finding)>
    ensures { result ≡ first_high_spec next (numbered_records 0 records.now) }
{
    for (rec, record) in records.records() {
        if let Some(found) = high_as(next, &record) {
            return Some((rec, found));
        }
    }
    None
}
