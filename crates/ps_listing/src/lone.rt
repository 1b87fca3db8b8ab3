//! The units of a file, each by itself.
ghost use Rattle.std.specs.Prelude.{◌≡◌, ◌<◌, IfErr, IfOk, codes, is_some, length, true};
ghost use Rattle.std.specs.List.{list_any};
ghost use Rattle.ps_writing.specs.Adding.{Adds};
ghost use Rattle.ps_words.specs.FaultText.{part_text};
ghost use Rattle.ps_resolve.specs.LoneUnits.{IsSoundUnit};
ghost use Rattle.ps_resolve.specs.Sources.{opened_files};
ghost use Rattle.ps_listing.specs.LoneText.{has_no_sound as has_no_sound_spec, is_refused_unit, lone_fault_member, lone_item, lone_items, lone_line, lone_text, lone_unit as lone_unit_spec, lone_units as lone_units_spec, lone_words, units_in_entries as units_in_entries_spec, units_of as units_of_spec};

use crate::escapes::add_path;
use crate::parts::{add_fault, add_no_fault, add_refused};
use ps_codefile::Role;
use ps_codefile::dictionary_layout::SLOTS;
use ps_filetype::is_code_type;
use ps_resolve::{HostReading, lone_fault, read};
use ps_words::{Fault, Name};
use ps_writing::RowPart::InSlot;
use ps_writing::{
    Form, TextWriter, add_each, add_each_row, add_number, add_part, add_slot_name, separator,
};
use std::alloc::{AllocError, Allocator};

/// A unit whose code a file has, and what is wrong with it by itself.
#[derive(Clone, Copy, Debug, PartialEq, Eq)]
pub struct LoneUnit {
    /// The slot of its entry in the segment dictionary, 0 to 15.
    pub slot: u8,
    /// The name of the unit, eight bytes.
    pub name: Name,
    /// The first fault of the unit by itself; `None` where it has none.
    pub fault: Option<Fault>,
}

/// The unit in a slot, where there is one whose code the file has. Memory is requested only where it
/// was read without a fault.
fn lone_unit<A: Allocator + Copy>(
    alloc: A,
    file: &HostReading,
    slot: u8,
) -> Result<Option<LoneUnit>, AllocError>
    requires { slot < SLOTS }
    ensures unit { IfOk result (λ unit. unit ≡ lone_unit_spec file.now slot) }
    ensures there { IfErr result (λ _. is_some (lone_unit_spec file.now slot) ≡ true) }
    ensures memory { IfErr result (λ _. IsSoundUnit file.now.order file.now.file
        (opened_files file.now.order file.now.libs) slot) }
{
    match file.role(slot) {
        Ok(Role::Unit) => {
            let name = file.entry(slot).name;
            let fault = lone_fault(alloc, file, slot)?;
            Ok(Some(LoneUnit { slot, name, fault }))
        }
        Ok(Role::Empty | Role::Wanted | Role::Plain | Role::Host) | Err(_) => Ok(None),
    }
}

/// The units of a file that was opened. Memory is requested only where there is one.
fn units_of<A: Allocator + Copy>(
    alloc: A,
    file: &HostReading,
) -> Result<Vec<LoneUnit, A>, AllocError>
    ensures units { IfOk result (λ units. units.items ≡ units_of_spec file.now) }
    ensures memory { IfErr result (λ _. 0 < length (units_of_spec file.now)) }
{
    let mut units = Vec::new(alloc);
    for slot in 0..SLOTS {
        if let Some(unit) = lone_unit(alloc, file, slot)? {
            units.push(unit)?;
        }
    }
    Ok(units)
}

/// The units of which the entries of a file have the code, by slot ascending, whatever the file is.
fn units_in_entries<A: Allocator + Copy>(
    alloc: A,
    file: &[u8],
) -> Result<Vec<LoneUnit, A>, AllocError>
    ensures units { IfOk result (λ units. units.items ≡ units_in_entries_spec file.now) }
    ensures memory { IfErr result (λ _. 0 < length (units_in_entries_spec file.now)) }
{
    let reading = read(file, &[]);
    match reading.host() {
        Err(_) => Ok(Vec::new(alloc)),
        Ok(host) => units_of(alloc, host),
    }
}

/// The units whose code a file has, by slot ascending, each with its first fault by itself: of its
/// code, its tables and its records, and then of its privates and references, in a link with a host
/// that would define each name that it requests.
///
/// `file` is a whole file, of any contents. One that cannot be opened has no units, and neither has
/// one that is no code file as it ought to be (`ps_filetype::is_code_type`). What such a host is, and
/// which faults are found, `ps_resolve::lone_fault` says.
///
/// Returns an error only where memory was refused, which is requested only where the file has a
/// unit: a file that cannot be opened, or that has none, is never refused. Source: this project's
/// profile.
pub fn lone_units<A: Allocator + Copy>(
    alloc: A,
    file: &[u8],
) -> Result<Vec<LoneUnit, A>, AllocError>
    ensures units { IfOk result (λ units. units.items ≡ lone_units_spec file.now) }
    ensures memory { IfErr result (λ _. 0 < length (lone_units_spec file.now)) }
{
    if is_code_type(file) {
        units_in_entries(alloc, file)
    } else {
        Ok(Vec::new(alloc))
    }
}

/// One of the units has a fault.
fn has_refused(units: &[LoneUnit]) -> bool
    ensures { result ≡ list_any is_refused_unit units.now }
{
    units.iter().any(|unit| unit.fault.is_some())
}

/// There is no unit, or one that has a fault.
pub fn has_no_sound(units: &[LoneUnit]) -> bool
    ensures { result ≡ has_no_sound_spec units.now }
{
    units.is_empty() || has_refused(units)
}

/// Adds the index of a reference, where there is one.
fn add_reference<S: TextWriter>(text: &mut S, reference: Option<usize>)
    ensures { Adds S.added text.old (part_text (codes "reference") reference) text.new }
{
    match reference {
        None => text.add(b""),
        Some(reference) => add_number(text, b" reference ", reference),
    }
}

/// Adds what is wrong with a unit.
fn add_words<S: TextWriter>(text: &mut S, fault: Option<Fault>)
    ensures { Adds S.added text.old (lone_words fault) text.new }
{
    match fault {
        None => text.add(b", no fault"),
        Some(fault) => {
            add_refused(text, fault);
            add_reference(text, fault.reference);
        }
    }
}

/// Adds the line of a unit.
fn add_line<S: TextWriter>(text: &mut S, path: &str, unit: &LoneUnit)
    ensures { Adds S.added text.old (lone_line path.now unit.now) text.new }
{
    add_path(text, path);
    add_slot_name(text, b": slot ", unit.slot, unit.name);
    text.add(b" by itself");
    add_words(text, unit.fault);
    text.add(b"\n");
}

/// Adds a line of each unit of a file, as `PATH: slot 02 UTIL     by itself, no fault`, or with its fault
/// as `PATH: slot 02 UTIL     by itself, refused 33 Overlap record 1 reference 0`. Each begins with
/// the path, in which a hidden character, as one that could end the line, is a question mark.
pub(crate) fn add_unit_lines<S: TextWriter>(text: &mut S, path: &str, units: &[LoneUnit])
    ensures { Adds S.added text.old (lone_text path.now units.now) text.new }
{
    add_each(text, units, |text, unit| add_line(text, path, unit));
}

/// Adds the fault of a unit of this name, or that there is none.
fn add_fault_member<S: TextWriter>(text: &mut S, name: Name, fault: Option<Fault>)
    ensures { Adds S.added text.old (lone_fault_member name fault) text.new }
{
    match fault {
        None => add_no_fault(text, Form::Json),
        Some(fault) => add_fault(text, Form::Json, Some(name), fault),
    }
}

/// Adds the item of a unit, the first of its list or not.
fn add_unit_item<S: TextWriter>(text: &mut S, first: bool, unit: &LoneUnit)
    ensures { Adds S.added text.old (lone_item first unit.now) text.new }
{
    text.add(separator(first));
    add_part(text, Form::Json, InSlot(b": slot ", unit.slot, unit.name));
    add_fault_member(text, unit.name, unit.fault);
    text.add(b"}");
}

/// Adds an item of each unit of a file: its slot, its name, and its fault by itself.
pub(crate) fn add_unit_items<S: TextWriter>(text: &mut S, units: &[LoneUnit])
    ensures { Adds S.added text.old (lone_items units.now) text.new }
{
    add_each_row(text, units, |text, index, unit| {
        add_unit_item(text, index == 0, unit)
    });
}
