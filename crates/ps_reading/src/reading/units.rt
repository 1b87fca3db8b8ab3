ghost use Rattle.std.specs.Prelude.{◌≡◌, ℕ, ◌<◌, ◌≤◌, ◌&&◌, List, Some, IfSome, is_none, option_map};
ghost use Rattle.std.specs.List.{find, list_any, range_with_len};
ghost use Rattle.ps_codefile.specs.Dictionary.{slots};
ghost use Rattle.ps_reading.specs.Sources.{chosen_library as chosen_library_spec, file_at, is_named as is_named_spec, opened, opened_file, unit_source};
ghost use Rattle.ps_reading.specs.Faults.{entries_reason as entries_reason_spec};

use crate::locations::EntryAt;
use crate::reading::slots::library_file;
use ps_codefile::Dict;
use ps_codefile::dictionary_layout::SLOTS;
use ps_codefile::kinds::UNITSEG;
use ps_words::{Name, Order, Reason};

/// The entry has a code in its file, and this name.
fn is_named(dict: &Dict, name: Name, index: u8) -> bool
    requires { index < SLOTS }
    ensures { result ≡ is_named_spec dict.now.order name dict.now.file index }
{
    dict.filled(index) && dict.entry(index).name == name
}

/// One of the entries below `end` has this name.
fn has_name_below(dict: &Dict, name: Name, end: u8) -> bool
    requires { end ≤ SLOTS }
    ensures { result ≡ list_any (is_named_spec dict.now.order name dict.now.file)
        (range_with_len 0 end) }
{
    (0..end).any(|index| is_named(dict, name, index))
}

/// One of the entries below `end` has this name, and so has one below it.
fn has_duplicate_below(dict: &Dict, name: Name, end: u8) -> bool
    requires { end ≤ SLOTS }
    ensures { result ≡ list_any (λ i. is_named_spec dict.now.order name dict.now.file i
        && list_any (is_named_spec dict.now.order name dict.now.file) (range_with_len 0 i))
        (range_with_len 0 end) }
{
    (0..end).any(|index| is_named(dict, name, index) && has_name_below(dict, name, index))
}

/// The first entry of this name.
fn entry_named(dict: &Dict, name: Name) -> Option<u8>
    ensures entry { result ≡ find (is_named_spec dict.now.order name dict.now.file) slots }
    ensures in_range { IfSome result (λ i. i < SLOTS) }
{
    (0..SLOTS).find(|index| is_named(dict, name, *index))
}

/// A library's dictionary and the first entry of this name, where the library is opened and has
/// one.
#[tactic(auto, using(crate::proofs::ReadingLibraries::no_entries, crate::proofs::ReadingLibraries::refused_is))]
fn entry_in<'a>(order: Order, name: Name, lib: &'a [u8]) -> Option<(Dict<'a>, u8)>
    ensures entry { option_map (λ e. e.1) result
        ≡ find (is_named_spec order name (opened_file order lib.now)) slots }
    ensures dict { IfSome result (λ e. e.0
        ≡ record { order = order; file = opened_file order lib.now }) }
    ensures in_range { IfSome result (λ e. e.1 < SLOTS) }
{
    match Dict::read_beside(lib, order) {
        Err(_) => None,
        Ok(dict) => match entry_named(&dict, name) {
            None => None,
            Some(index) => Some((dict, index)),
        },
    }
}

/// Where the first entry of this name is, of the first library that has one, with the dictionary of
/// that library. A library that cannot be opened has none.
pub(crate) fn chosen_library<'a>(
    order: Order,
    name: Name,
    libs: &'a [&'a [u8]],
) -> Option<(Dict<'a>, EntryAt)>
    ensures none { is_none result
        ≡ is_none (chosen_library_spec order name (opened order libs.now)) }
    ensures source { IfSome result (λ u. unit_source order name (opened order libs.now)
        ≡ Some (u.1.file, u.1.index)) }
    ensures dict { (host : List ℕ) → IfSome result (λ u. u.0
        ≡ record { order = order; file = file_at host (opened order libs.now) u.1.file }) }
    ensures in_range { IfSome result (λ u. u.1.index < SLOTS) }
{
    for (library, lib) in libs.iter().enumerate() {
        if let Some((dict, index)) = entry_in(order, name, lib) {
            let file = library_file(library);
            return Some((dict, EntryAt { file, index }));
        }
    }
    None
}

/// Why the library's first entry of this name is not taken: another has the name too, or its kind
/// is not that of a unit.
pub(crate) fn entries_reason(dict: &Dict, name: Name, index: u8) -> Option<Reason>
    requires entry { find (is_named_spec dict.now.order name dict.now.file) slots ≡ Some index }
    requires in_range { index < SLOTS }
    ensures { result ≡ entries_reason_spec dict.now.order name dict.now.file }
{
    if has_duplicate_below(dict, name, SLOTS) {
        return Some(Reason::DoubledUnit);
    }
    let kind = dict.entry(index).kind;
    if kind != UNITSEG {
        return Some(Reason::NotAUnit { kind });
    }
    None
}
