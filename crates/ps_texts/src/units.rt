//! The names of the units that a link wants and that a file has.
ghost use Rattle.std.specs.Prelude.{◌≡◌, ◌<◌, true, IfErr, IfOk, OnErr, OnOk, is_some, length, option_to_list};
ghost use Rattle.std.specs.List.{filter_map};
ghost use Rattle.ps_codefile.specs.Roles.{is_unit};
ghost use Rattle.ps_resolve.specs.Faults.{is_role};
ghost use Rattle.ps_texts.specs.UnitNames.{had_name as had_name_spec, has_name as has_name_spec, has_slot_of as has_slot_of_spec, is_slot_of as is_slot_of_spec, slots_wanted as slots_wanted_spec, sought_name as sought_name_spec, units_had as units_had_spec, units_wanted as units_wanted_spec, wanted_name as wanted_name_spec, with_each, with_name};

use ps_codefile::dictionary_layout::SLOTS;
use ps_codefile::{Dict, Role};
use ps_resolve::{HostReading, UnitReference};
use ps_words::Name;
use std::alloc::{AllocError, Allocator};

/// The list has the name.
fn has_name(names: &[Name], name: Name) -> bool
    ensures { result ≡ has_name_spec names.now name }
{
    names.iter().any(|other| *other == name)
}

/// Adds a name, unless the list has it.
fn add_name<A: Allocator>(names: &mut Vec<Name, A>, name: Name) -> Result<(), AllocError>
    ensures { OnOk result (names.new.items ≡ with_name names.old.items name) }
{
    if has_name(names.as_slice(), name) {
        return Ok(());
    }
    names.push(name)?;
    Ok(())
}

/// Adds the name that was found, if there is one, unless the list has it.
fn add_found<A: Allocator>(names: &mut Vec<Name, A>, found: Option<Name>) -> Result<(), AllocError>
    ensures added { OnOk result
        (names.new.items ≡ with_each names.old.items (option_to_list found)) }
    ensures memory { OnErr result (is_some found ≡ true) }
{
    match found {
        Some(name) => add_name(names, name),
        None => Ok(()),
    }
}

/// The name of a slot of the host, where it wants a unit.
fn wanted_name(host: &HostReading, slot: u8) -> Option<Name>
    requires { slot < SLOTS }
    ensures { result ≡ wanted_name_spec host.now.order host.now.file slot }
{
    match host.role(slot) {
        Ok(Role::Wanted) => Some(host.entry(slot).name),
        Ok(Role::Empty | Role::Plain | Role::Host | Role::Unit) | Err(_) => None,
    }
}

/// The names of the units that the slots of a host want, by slot, each once.
fn slots_wanted<A: Allocator>(alloc: A, host: &HostReading) -> Result<Vec<Name, A>, AllocError>
    ensures names { IfOk result (λ names. names.items
        ≡ slots_wanted_spec host.now.order host.now.file) }
    ensures memory { IfErr result (λ _.
        0 < length (slots_wanted_spec host.now.order host.now.file)) }
{
    let mut names = Vec::new(alloc);
    for slot in 0..SLOTS {
        add_found(&mut names, wanted_name(host, slot))?;
    }
    Ok(names)
}

/// The slot is that of a unit, in place or wanted.
fn is_unit_slot(host: &HostReading, slot: u8) -> bool
    requires { slot < SLOTS }
    ensures { result ≡ is_role is_unit host.now.order host.now.file slot }
{
    match host.role(slot) {
        Ok(role) => role.is_unit(),
        Err(_) => false,
    }
}

/// The slot is that of a unit of this name.
fn is_slot_of(host: &HostReading, name: Name, slot: u8) -> bool
    requires { slot < SLOTS }
    ensures { result ≡ is_slot_of_spec host.now.order host.now.file name slot }
{
    is_unit_slot(host, slot) && host.entry(slot).name == name
}

/// Some slot of the host is that of a unit of this name.
#[tactic(auto, unfolding(crate::specs::UnitNames::has_slot_of))]
fn has_slot_of(host: &HostReading, name: Name) -> bool
    ensures { result ≡ has_slot_of_spec host.now.order host.now.file name }
{
    (0..SLOTS).any(|slot| is_slot_of(host, name, slot))
}

/// The name that a record requests, where no slot of the host has it.
fn sought_name(host: &HostReading, name: Name) -> Option<Name>
    ensures { result ≡ sought_name_spec host.now.order host.now.file name }
{
    if has_slot_of(host, name) {
        None
    } else {
        Some(name)
    }
}

/// Adds the names that are requested and that no slot of the host has, unless the list has them.
fn add_requested<A: Allocator>(
    names: &mut Vec<Name, A>,
    host: &HostReading,
    requested: &[UnitReference],
) -> Result<(), AllocError>
    ensures added { OnOk result (names.new.items ≡ with_each names.old.items
        (filter_map (λ g. sought_name_spec host.now.order host.now.file g.name) requested.now)) }
    ensures memory { OnErr result (0 < length (with_each names.old.items
        (filter_map (λ g. sought_name_spec host.now.order host.now.file g.name) requested.now))) }
{
    for request in requested {
        add_found(names, sought_name(host, request.name))?;
    }
    Ok(())
}

/// The names of the units that a link takes from libraries, or would take if they had them: first
/// those that the slots of the host want, by slot, and then those that a record requests, of the host
/// or of a unit that was found, and that no slot of the host has, in the order of their requests; of
/// more than ten requests the first ten. Each name is there once.
///
/// Refused where memory was, which is requested only where there is a name.
#[tactic(auto, unfolding(crate::specs::UnitNames::units_wanted), using(crate::proofs::SlotNames::some_more))]
pub fn units_wanted<A: Allocator>(alloc: A, host: &HostReading) -> Result<Vec<Name, A>, AllocError>
    ensures names { IfOk result (λ names. names.items ≡ units_wanted_spec host.now) }
    ensures memory { IfErr result (λ _. 0 < length (units_wanted_spec host.now)) }
{
    let mut names = slots_wanted(alloc, host)?;
    add_requested(&mut names, host, host.requested())?;
    Ok(names)
}

/// The name of a slot, where the file has its unit.
fn had_name(dict: &Dict, slot: u8) -> Option<Name>
    requires { slot < SLOTS }
    ensures { result ≡ had_name_spec dict.now.order dict.now.file slot }
{
    match dict.role(slot) {
        Ok(Role::Unit) => Some(dict.entry(slot).name),
        Ok(Role::Empty | Role::Wanted | Role::Plain | Role::Host) | Err(_) => None,
    }
}

/// The names of the units of which the entries of a file have the code, by slot.
///
/// Refused where memory was, which is requested only where there is a name. Source: UCSD Pascal II.0
/// manual, code file format.
pub fn units_had<A: Allocator>(alloc: A, dict: &Dict) -> Result<Vec<Name, A>, AllocError>
    ensures names { IfOk result (λ names. names.items
        ≡ units_had_spec dict.now.order dict.now.file) }
    ensures memory { IfErr result (λ _. 0 < length (units_had_spec dict.now.order dict.now.file)) }
{
    let mut names = Vec::new(alloc);
    for slot in 0..SLOTS {
        if let Some(name) = had_name(dict, slot) {
            names.push(name)?;
        }
    }
    Ok(names)
}
