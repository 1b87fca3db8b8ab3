//! What is said of a name that the host program does not define as it is requested.
use crate::cases::Case;
use ps_check_segments::host_of;
use ps_filetype::{ShownName, plain};
use ps_linkinfo::{LinkInformation, LinkRecord, Sort};
use ps_words::{NAME_LEN, Name, Reason};
use std::fmt::{self, Formatter, Write};

/// How many of the host's names that differ in a letter are told at most.
const MOST_NAMES: usize = 4;

/// The host's constant of the name, its names that are nearly that, and that the unit defines it
/// itself.
pub(super) fn write_defined<W: Write>(f: &mut Formatter<W>, case: &Case<'_, '_>) -> fmt::Result {
    let Some(requested) = case.record() else {
        return Ok(());
    };
    if let Some(host) = host_of(case.list) {
        write_host_names(f, &host.records, &requested.name)?;
        if case.fault.reason == Reason::MissingDefinition {
            write_other_names(f, &host.records, &requested.name)?;
        }
    }
    match case.own_definition(&requested.name) {
        Some(rec) => writeln!(
            f,
            "  the unit itself has a PUBLDEF of it, record {rec}, which is not used: the host program has to define it"
        ),
        None => Ok(()),
    }
}

/// The host's definitions of the name or of nearly the name.
fn write_host_names<W: Write>(
    f: &mut Formatter<W>,
    records: &LinkInformation<'_>,
    name: &Name,
) -> fmt::Result {
    for (rec, record) in records.records() {
        if Sort::Definition.has(&record.body) && plain(&record.name) == plain(name) {
            write_host_name(f, rec, &record)?;
        }
    }
    Ok(())
}

/// The first of the host's definitions whose names differ in one letter.
fn write_other_names<W: Write>(
    f: &mut Formatter<W>,
    records: &LinkInformation<'_>,
    name: &Name,
) -> fmt::Result {
    let mut left = MOST_NAMES;
    for (rec, record) in records.records() {
        if 0 < left && Sort::Definition.has(&record.body) && differ_in_one(&record.name, name) {
            write_host_name(f, rec, &record)?;
            left = left.saturating_sub(1);
        }
    }
    Ok(())
}

/// A definition of the host.
fn write_host_name<W: Write>(
    f: &mut Formatter<W>,
    rec: usize,
    record: &LinkRecord<'_>,
) -> fmt::Result {
    let kind = record.body.kind().word();
    let found = ShownName(record.name);
    writeln!(f, "  the host has {kind} {found}, record {rec}")
}

/// The names differ in one letter, whether it is a capital or not.
fn differ_in_one(one: &Name, other: &Name) -> bool {
    let (one, other) = (plain(one), plain(other));
    let mut differing = 0usize;
    for place in 0..NAME_LEN {
        if one[place] != other[place] {
            differing = differing.saturating_add(1);
        }
    }
    differing == 1
}
