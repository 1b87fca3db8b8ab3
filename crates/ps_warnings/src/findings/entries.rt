//! What is found in the entries of dictionaries.
ghost use Rattle.std.specs.Prelude.{◌≡◌, ◌<◌, Ok, OnOk, false, map, true};
ghost use Rattle.std.specs.List.{flat_map, list_any};
ghost use Rattle.std.specs.Option.{option_map};
ghost use Rattle.ps_codefile.specs.Dictionary.{entry_at, information_of, kind_needs_linking, role_of, slots};
ghost use Rattle.ps_warnings.specs.Searches.EntryFindings.{empty_finding as empty_look_spec, empty_slot as empty_slot_spec};
ghost use Rattle.ps_warnings.specs.Warned.{is_left_empty as is_left_empty_spec, names_segment as names_segment_spec};
ghost use Rattle.ps_warnings.specs.Searches.FileFindings.{findings_of_entry, findings_of_segment, findings_of_slot};
ghost use Rattle.ps_warnings.specs.Found.{Adds, about_link};
ghost use Rattle.ps_check_segments.specs.Paths.{path_of, paths_in};
ghost use Rattle.ps_check_segments.specs.Seen.{has_slot as has_slot_spec, seen};

use super::segment_words::intrinsic_set;
use super::{Context, Findings, codes, in_file, in_segment, records};
use crate::dead::{REPEATED, SECTOR};
use crate::finding::{DictionaryFinding, EntryFinding, Finding, NameFinding};
use ps_check_segments::ReadSegment;
use ps_codefile::dictionary_layout::{SLOTS, TAIL};
use ps_codefile::kinds::{
    FIRST_INTRINSIC, HOSTSEG, LAST_INTRINSIC, LINKED, SEGPROC, SEPRTSEG, UNITSEG,
};
use ps_codefile::{Dict, Entry, Role, is_nameless};
use ps_filetype::{oddity_of, only_byte};
use std::alloc::{AllocError, Allocator};

/// Looks at the entries of a dictionary.
pub(super) fn look_at<'a, A: Allocator>(
    findings: &mut Findings<'a, A>,
    context: &Context<'_, 'a>,
    file: usize,
    dict: &Dict<'a>,
) -> Result<(), AllocError>
    ensures { OnOk result (Adds (about_link findings.old)
        (flat_map (findings_of_slot (path_of (paths_in context.now.inputs.now) file)
        (option_map (λ h. h.now) context.now.host)
        (map seen context.now.list.now) dict.now.order dict.now.file file) slots)
        (about_link findings.new)) }
{
    let place = in_file(context.inputs.path(file));
    findings.add_unsure(place, in_tail(dict))?;
    for slot in 0..SLOTS {
        findings.add_unsure(place, odd_name(context, dict, slot))?;
        look_at_slot(findings, context, file, dict, slot)?;
    }
    Ok(())
}

/// Looks at a slot: at its segment, or, in the host, at an entry that is not filled.
#[tactic(auto, unfolding(crate::specs::Searches::FileFindings::findings_of_slot))]
fn look_at_slot<'a, A: Allocator>(
    findings: &mut Findings<'a, A>,
    context: &Context<'_, 'a>,
    file: usize,
    dict: &Dict<'a>,
    slot: u8,
) -> Result<(), AllocError>
    requires { slot < SLOTS }
    ensures { OnOk result (Adds (about_link findings.old)
        (findings_of_slot (path_of (paths_in context.now.inputs.now) file)
        (option_map (λ h. h.now) context.now.host)
        (map seen context.now.list.now) dict.now.order dict.now.file file slot)
        (about_link findings.new)) }
{
    if dict.filled(slot) {
        let host = context.host_met(file, &dict.entry(slot).name);
        let context = Context { host, ..*context };
        return look_at_entry(findings, &context, file, dict, slot);
    }
    if file != 0 {
        return Ok(());
    }
    let place = in_file(context.inputs.path(file));
    let taken = is_taken(context.list, slot);
    let found = empty_finding(dict, slot, taken);
    findings.add(place, found)
}

/// Looks at an entry that is filled, and at its segment.
#[tactic(auto, unfolding(crate::specs::Searches::FileFindings::findings_of_segment))]
fn look_at_entry<'a, A: Allocator>(
    findings: &mut Findings<'a, A>,
    context: &Context<'_, 'a>,
    file: usize,
    dict: &Dict<'a>,
    slot: u8,
) -> Result<(), AllocError>
    requires { slot < SLOTS }
    ensures { OnOk result (Adds (about_link findings.old)
        (findings_of_entry (path_of (paths_in context.now.inputs.now) file)
        (option_map (λ h. h.now) context.now.host) dict.now.order dict.now.file
        (entry_at dict.now.order dict.now.file slot))
        (about_link findings.new)) }
{
    let entry = dict.entry(slot);
    let place = in_file(context.inputs.path(file));
    findings.add_unsure(place, intrinsic(context, file, &entry, slot))?;
    if is_intrinsic(&entry) {
        return Ok(());
    }
    look_at_segment(findings, context, file, dict, slot)
}

/// An odd name of an entry that is filled, or of a unit that may be wanted.
fn odd_name(context: &Context<'_, '_>, dict: &Dict<'_>, slot: u8) -> Option<NameFinding>
    requires { slot < SLOTS }
{
    let Entry { name, kind, .. } = dict.entry(slot);
    if !dict.filled(slot) && kind != UNITSEG {
        return None;
    }
    let oddity = oddity_of(&name, context.are_small)?;
    Some(NameFinding::OddName { name, oddity })
}

/// Looks at the code and at the link information of an entry.
#[tactic(auto, unfolding(crate::specs::Searches::FileFindings::findings_of_segment))]
fn look_at_segment<'a, A: Allocator>(
    findings: &mut Findings<'a, A>,
    context: &Context<'_, 'a>,
    file: usize,
    dict: &Dict<'a>,
    slot: u8,
) -> Result<(), AllocError>
    requires { slot < SLOTS }
    ensures { OnOk result (Adds (about_link findings.old)
        (findings_of_entry (path_of (paths_in context.now.inputs.now) file)
        (option_map (λ h. h.now) context.now.host) dict.now.order dict.now.file
        (entry_at dict.now.order dict.now.file slot))
        (about_link findings.new)) }
{
    let path = context.inputs.path(file);
    match dict.code(slot) {
        Ok(code) => look_at_code(findings, context, file, path, dict, slot, code),
        Err(_) => Ok(()),
    }
}

/// Looks at the code of an entry, and at its link information.
#[tactic(auto, unfolding(crate::specs::Searches::FileFindings::findings_of_segment))]
fn look_at_code<'a, A: Allocator>(
    findings: &mut Findings<'a, A>,
    context: &Context<'_, 'a>,
    file: usize,
    path: &'a str,
    dict: &Dict<'a>,
    slot: u8,
    code: &'a [u8],
) -> Result<(), AllocError>
    requires { slot < SLOTS }
    ensures { OnOk result (Adds (about_link findings.old)
        (findings_of_segment path.now (option_map (λ h. h.now) context.now.host) dict.now.order
        (entry_at dict.now.order dict.now.file slot) (Ok code.now)
        (information_of dict.now.file (entry_at dict.now.order dict.now.file slot)))
        (about_link findings.new)) }
{
    let entry = dict.entry(slot);
    let place = in_segment(path, entry.name);
    let run = codes::run_in(dict.order(), entry.kind, code);
    let is_told = context.is_refused(file, slot);
    codes::look_at(findings, place, dict, slot, code, run, is_told)?;
    if needs_linking(&entry) {
        return records::look_at(findings, context, path, dict, slot, code, run.is_some());
    }
    Ok(())
}

/// A link resolves the references of the entry's segment, if it takes it.
fn needs_linking(entry: &Entry) -> bool
    ensures { result ≡ kind_needs_linking entry.now.kind }
{
    entry.kind == HOSTSEG || entry.kind == UNITSEG
}

/// An entry of Apple Pascal in a library, where no fault tells of it.
fn intrinsic(
    context: &Context<'_, '_>,
    file: usize,
    entry: &Entry,
    slot: u8,
) -> Option<DictionaryFinding> {
    let kind = entry.kind;
    let is_told = file == 0 || context.is_refused(file, slot);
    (!is_told && is_intrinsic(entry)).then_some(DictionaryFinding::IntrinsicKind { slot, kind })
}

/// The entry is of Apple Pascal: an intrinsic unit, or its data. No link reads its records.
fn is_intrinsic(entry: &Entry) -> bool
    ensures { result ≡ true → kind_needs_linking entry.now.kind ≡ false }
{
    matches!(entry.kind, FIRST_INTRINSIC..=LAST_INTRINSIC)
}

/// What is found in the second half of the dictionary: sectors that were not read, or the intrinsic
/// units that a program uses.
fn in_tail(dict: &Dict<'_>) -> Option<DictionaryFinding> {
    dead_tail(dict).or_else(|| intrinsic_set(dict))
}

/// Sectors of the second half of the dictionary that were not read. Most files have zeros there.
fn dead_tail(dict: &Dict<'_>) -> Option<DictionaryFinding> {
    let mut start = TAIL;
    for sector in dict.tail().chunks(SECTOR) {
        let end = start.saturating_add(SECTOR - 1);
        let byte = match sector {
            [0, ..] => None,
            _ => only_byte(sector),
        };
        match byte {
            Some(byte) if !REPEATED.contains(&byte) => {
                return Some(DictionaryFinding::DeadTail { start, end, byte });
            }
            _ => start = end.saturating_add(1),
        }
    }
    None
}

/// Kinds that a compiler leaves in empty slots that have no name.
fn is_left_empty(kind: u16) -> bool
    ensures { result ≡ is_left_empty_spec kind }
{
    kind == LINKED || kind == SEGPROC || kind == UNITSEG || kind == SEPRTSEG
}

/// The entry has a name, or a kind that no entry without a name has.
pub(super) fn names_segment(entry: &Entry) -> bool
    ensures { result ≡ names_segment_spec entry.now }
{
    !is_nameless(&entry.name) || !is_left_empty(entry.kind)
}

/// An empty slot, which no unit takes, whose entry names a segment.
fn empty_slot(slot: u8, is_taken: bool, entry: &Entry) -> Option<Finding>
    ensures { result ≡ empty_slot_spec slot is_taken entry.now }
{
    if !is_taken && names_segment(entry) {
        let (name, kind) = (entry.name, entry.kind);
        Some(Finding::Entry(EntryFinding::EmptySlot { slot, name, kind }))
    } else {
        None
    }
}

/// The segment has this slot of the host.
fn has_slot(segment: &ReadSegment<'_>, slot: u8) -> bool
    ensures { result ≡ has_slot_spec slot (seen segment.now) }
{
    match segment.slot {
        Some(other) => other == slot,
        None => false,
    }
}

/// A segment of the link takes the slot.
fn is_taken(list: &[ReadSegment<'_>], slot: u8) -> bool
    ensures { result ≡ list_any (has_slot_spec slot) (map seen list.now) }
{
    for segment in list {
        if has_slot(segment, slot) {
            return true;
        }
    }
    false
}

/// What looks wrong in a slot of the host that is not filled, which a unit takes or not.
fn empty_finding(dict: &Dict<'_>, slot: u8, is_taken: bool) -> Option<Finding>
    requires { slot < SLOTS }
    ensures { result ≡ empty_look_spec slot is_taken (entry_at dict.now.order dict.now.file slot)
        (role_of (entry_at dict.now.order dict.now.file slot)) }
{
    let entry = dict.entry(slot);
    match dict.role(slot) {
        Ok(Role::Empty) => empty_slot(slot, is_taken, &entry),
        Ok(Role::Wanted | Role::Plain | Role::Host | Role::Unit) | Err(_) => None,
    }
}
