//! Which code file a file is.
ghost use Rattle.std.specs.Prelude.{◌≡◌, ◌+◌, ◌-◌, ◌*◌, ◌<◌, ◌≤◌, ◌||◌, is_some, length};
ghost use Rattle.std.specs.List.{list_all, list_any, range_with_len};
ghost use Rattle.ps_codefile.specs.Dictionary.{code_of, entry_at, role_of, slots};
ghost use Rattle.ps_codefile.specs.Opened.{opened};
ghost use Rattle.ps_filetype.specs.CodeFiles.{code_file, code_file_word, has_kind as has_kind_spec, has_kinds as has_kinds_spec, has_other as has_other_spec, has_other_kind as has_other_kind_spec, has_shown_code as has_shown_code_spec, is_code_file as is_code_file_spec, is_kind as is_kind_spec, is_letter as is_letter_spec, is_name_byte as is_name_byte_spec, is_other as is_other_spec, is_readable as is_readable_spec, purpose_of as purpose_of_spec, shows_code as shows_code_spec, tells as tells_spec, wants_unit as wants_unit_spec};
ghost use Rattle.ps_filetype.specs.CodeTypes.{code_has_two_numbers as code_has_two_numbers_spec, distance as distance_spec, has_number as has_number_spec, has_numbers as has_numbers_spec, has_table as has_table_spec, has_two_numbers as has_two_numbers_spec, has_word as has_word_spec, is_code_type as is_code_type_spec, is_for_something, is_host_type as is_host_type_spec, is_linkable as is_linkable_spec, is_linked as is_linked_spec, is_number_at as is_number_at_spec, is_shown_linked as is_shown_linked_spec, is_swapped as is_swapped_spec, is_swapped_code as is_swapped_code_spec, is_swapped_file as is_swapped_file_spec, is_swapped_in as is_swapped_in_spec, is_swapped_link as is_swapped_link_spec, is_swapped_linked as is_swapped_linked_spec, is_swapped_slot as is_swapped_slot_spec, purpose_in, word_place};

use crate::bytes::is_one_byte;
use crate::release::later_release;
use ps_codefile::code_layout::NUMBERS;
use ps_codefile::dictionary_layout::SLOTS;
use ps_codefile::kinds::{HOSTSEG, LAST_INTRINSIC, LINKED, UNITSEG};
use ps_codefile::{Dict, ProcedureDictionary, Role, is_nameless, open};
use ps_words::{Name, Order, WORD_LEN, get};

/// What a code file is for, by the kinds of its segments.
#[derive(Clone, Copy)]
pub enum CodeFile {
    /// A code file that has a host program.
    Host,
    /// A code file that has units, and no linked segment.
    Library,
    /// A code file whose segments are all linked.
    Linked,
    /// A code file that has linked segments and others, and no host program.
    Mixed,
}

/// The slot wants a unit.
fn wants_unit(dict: &Dict<'_>, slot: u8) -> bool
    requires { slot < SLOTS }
    ensures { result ≡ wants_unit_spec (role_of (entry_at dict.now.order dict.now.file slot)) }
{
    match dict.role(slot) {
        Ok(role) => matches!(role, Role::Wanted),
        Err(_) => false,
    }
}

/// The entry says what its file is for: it is filled, or wants a unit.
fn tells(dict: &Dict<'_>, slot: u8) -> bool
    requires { slot < SLOTS }
    ensures { result ≡ tells_spec (entry_at dict.now.order dict.now.file slot) }
{
    dict.filled(slot) || wants_unit(dict, slot)
}

/// The entry says what its file is for, and is of this kind, which is looked at first: most entries are
/// of another.
fn is_kind(dict: &Dict<'_>, kind: u16, slot: u8) -> bool
    requires { slot < SLOTS }
    ensures { result ≡ is_kind_spec kind dict.now.order dict.now.file slot }
{
    dict.entry(slot).kind == kind && tells(dict, slot)
}

/// Some entry says what its file is for, and is of this kind.
#[tactic(auto, unfolding(crate::specs::CodeFiles::has_kind))]
fn has_kind(dict: &Dict<'_>, kind: u16) -> bool
    ensures { result ≡ has_kind_spec kind dict.now.order dict.now.file }
{
    (0..SLOTS).any(|slot| is_kind(dict, kind, slot))
}

/// The entry says what its file is for, and is neither of a host program nor of a linked segment.
fn is_other(dict: &Dict<'_>, slot: u8) -> bool
    requires { slot < SLOTS }
    ensures { result ≡ is_other_spec dict.now.order dict.now.file slot }
{
    let kind = dict.entry(slot).kind;
    kind != HOSTSEG && kind != LINKED && tells(dict, slot)
}

/// Some entry says what its file is for, and is of another kind than these.
#[tactic(auto, unfolding(crate::specs::CodeFiles::has_other))]
fn has_other(dict: &Dict<'_>) -> bool
    ensures { result ≡ has_other_spec dict.now.order dict.now.file }
{
    (0..SLOTS).any(|slot| is_other(dict, slot))
}

/// What the entries that say it say a file is for.
fn purpose_of(dict: &Dict<'_>) -> Option<CodeFile>
    ensures { result ≡ purpose_of_spec dict.now.order dict.now.file }
{
    if has_kind(dict, HOSTSEG) {
        return Some(CodeFile::Host);
    }
    match (has_kind(dict, LINKED), has_other(dict)) {
        (true, true) => Some(CodeFile::Mixed),
        (true, false) => Some(CodeFile::Linked),
        (false, true) => Some(CodeFile::Library),
        (false, false) => None,
    }
}

impl CodeFile {
    /// What the file with this dictionary is for; none where it is no code file.
    ///
    /// A code file has a filled entry of a kind up to 7 with a name that is not blank and of which
    /// ASCII prints each byte that is neither 0 nor above 127. Where all kinds are 0, as in a linked file, it has a code that is
    /// whole in the file and has a name. What it is for is said by each entry that is filled or
    /// wants a unit.
    #[tactic(auto, unfolding(crate::specs::CodeFiles::code_file))]
    pub fn of(dict: &Dict<'_>) -> Option<CodeFile>
        ensures { result ≡ code_file dict.now.order dict.now.file }
    {
        if is_code_file(dict) {
            purpose_of(dict)
        } else {
            None
        }
    }

    /// The word for it: `host`, `library`, `linked` or `mixed`.
    pub fn word(self) -> &'static str
        ensures { result.now ≡ code_file_word self }
    {
        match self {
            CodeFile::Host => "host",
            CodeFile::Library => "library",
            CodeFile::Linked => "linked",
            CodeFile::Mixed => "mixed",
        }
    }
}

/// The name can be read: ASCII prints each of its bytes that is neither 0 nor above 127, and it is not
/// blank.
fn is_readable(name: &Name) -> bool
    ensures { result ≡ is_readable_spec name.now }
{
    are_name_bytes(name) && !is_nameless(name)
}

/// The byte may be one of a name: one that a person can read, or one above 127, as some systems have
/// for national letters.
fn is_name_byte(byte: u8) -> bool
    ensures { result ≡ is_name_byte_spec byte }
{
    is_letter(byte) || 128 <= byte
}

/// Each byte may be one of a name.
fn are_name_bytes(name: &[u8]) -> bool
    ensures { result ≡ list_all is_name_byte_spec name.now }
{
    name.iter().all(|byte| is_name_byte(*byte))
}

/// The byte may be one of a name that a person can read: ASCII prints it, or it is a 0, which some
/// compilers have in place of a blank.
fn is_letter(byte: u8) -> bool
    ensures { result ≡ is_letter_spec byte }
{
    byte == b' ' || byte.is_ascii_graphic() || byte == 0
}

/// Each byte may be one of a name that a person can read.
pub(crate) fn are_letters(text: &[u8]) -> bool
    ensures { result ≡ list_all is_letter_spec text.now }
{
    text.iter().all(|byte| is_letter(*byte))
}

/// The entry is that of a code: its kind is one of those that there are, and its name can be read.
fn shows_code(dict: &Dict<'_>, slot: u8) -> bool
    requires { slot < SLOTS }
    ensures { result ≡ shows_code_spec dict.now.order dict.now.file slot }
{
    let entry = dict.entry(slot);
    dict.filled(slot) && entry.kind <= LAST_INTRINSIC && is_readable(&entry.name)
}

/// Some entry is that of a code.
#[tactic(auto, unfolding(crate::specs::CodeFiles::has_shown_code))]
fn has_shown_code(dict: &Dict<'_>) -> bool
    ensures { result ≡ has_shown_code_spec dict.now.order dict.now.file }
{
    (0..SLOTS).any(|slot| shows_code(dict, slot))
}

/// The kind of a slot is not 0.
fn has_other_kind(dict: &Dict<'_>, slot: u8) -> bool
    requires { slot < SLOTS }
    ensures { result ≡ has_other_kind_spec dict.now.order dict.now.file slot }
{
    dict.entry(slot).kind != LINKED
}

/// Some kind is not 0.
#[tactic(auto, unfolding(crate::specs::CodeFiles::has_kinds))]
fn has_kinds(dict: &Dict<'_>) -> bool
    ensures { result ≡ has_kinds_spec dict.now.order dict.now.file }
{
    (0..SLOTS).any(|slot| has_other_kind(dict, slot))
}

/// The file is a code file.
fn is_code_file(dict: &Dict<'_>) -> bool
    ensures { result ≡ is_code_file_spec dict.now.order dict.now.file }
{
    if has_kinds(dict) {
        has_shown_code(dict)
    } else {
        dict.has_code()
    }
}

/// What a code file is for; none where the file is no code file.
pub(crate) fn code_file_of(bytes: &[u8]) -> Option<CodeFile>
    ensures some { is_some result ≡ is_for_something (opened bytes.now) }
    ensures purpose { result ≡ purpose_in (opened bytes.now) }
{
    match open(bytes) {
        Ok(dict) => CodeFile::of(&dict),
        Err(_) => None,
    }
}

/// The file is a code file as it ought to be.
///
/// The entries of the file say what it is for, as for [`CodeFile::of`]; it is no file of release
/// III.0 or IV.0, it is not one byte throughout, and its bytes are not exchanged in pairs. The
/// bytes of a file are exchanged where each code that is to be linked has its numbers right if they
/// are exchanged back, and not as they are; those of a file where none is to be linked, where this is so
/// of each linked code.
#[tactic(auto, unfolding(crate::specs::CodeTypes::is_code_type))]
pub fn is_code_type(bytes: &[u8]) -> bool
    ensures { result ≡ is_code_type_spec bytes.now }
{
    !is_one_byte(bytes)
        && later_release(bytes).is_none()
        && code_file_of(bytes).is_some()
        && !is_swapped_file(bytes)
}

/// The file is a code file as it ought to be that has a host program.
pub fn is_host_type(bytes: &[u8]) -> bool
    ensures { result ≡ is_host_type_spec bytes.now }
{
    is_code_type(bytes) && matches!(code_file_of(bytes), Some(CodeFile::Host))
}

/// The word of a procedure is in the code.
fn has_word(code: &[u8], number: usize) -> bool
    requires { number ≤ 255 }
    ensures { result ≡ has_word_spec code.now number }
{
    NUMBERS + WORD_LEN * number <= code.len()
}

/// The distance from the word of a procedure to its table; 0 where it has none.
fn distance(order: Order, code: &[u8], number: usize) -> usize
    requires { 2 + 2 * number ≤ length code.now }
    ensures { result ≡ distance_spec order code.now number }
{
    usize::from(get(order, code, code.len() - (NUMBERS + WORD_LEN * number)))
}

/// A procedure has a table.
fn has_table(order: Order, code: &[u8], number: usize) -> bool
    requires { number ≤ 255 }
    ensures { result ≡ has_table_spec order code.now number }
{
    has_word(code, number) && distance(order, code, number) != 0
}

/// The byte at a place of a code, if there is one, is this number.
fn is_number_at(code: &[u8], place: usize, number: usize) -> bool
    ensures { result ≡ is_number_at_spec code.now place number }
{
    match code.get(place) {
        Some(byte) => usize::from(*byte) == number,
        None => false,
    }
}

/// The table of a procedure has its number so many bytes after the byte that its word names.
fn has_number_behind(order: Order, code: &[u8], after: usize, number: usize) -> bool
    requires fits { 2 + 2 * number ≤ length code.now }
    requires near { after ≤ 1 }
    ensures { result ≡ is_number_at_spec code.now
        (word_place code.now number - distance_spec order code.now number + after) number }
{
    let place = code.len() - (NUMBERS + WORD_LEN * number);
    let table = place.saturating_sub(distance(order, code, number)) + after;
    is_number_at(code, table, number)
}

/// The word of a procedure is in the code, and its table, if it has one, has its number so many bytes
/// after the byte that its word names.
fn has_number(order: Order, code: &[u8], after: usize, number: usize) -> bool
    requires few { number ≤ 255 }
    requires near { after ≤ 1 }
    ensures { result ≡ has_number_spec order code.now after number }
{
    has_word(code, number)
        && (!has_table(order, code, number) || has_number_behind(order, code, after, number))
}

/// Each of so many procedures, from 1 on, has its number behind its table.
fn have_numbers(order: Order, code: &[u8], count: usize, after: usize) -> bool
    requires few { count ≤ 255 }
    requires near { after ≤ 1 }
    ensures { result ≡ list_all (λ k. has_number_spec order code.now after (k + 1))
        (range_with_len 0 count) }
{
    (0..count).all(|k| has_number(order, code, after, k + 1))
}

/// One of so many procedures has a table.
fn has_tables(order: Order, code: &[u8], count: usize) -> bool
    requires { count ≤ 255 }
    ensures { result ≡ list_any (λ k. has_table_spec order code.now (k + 1))
        (range_with_len 0 count) }
{
    (0..count).any(|k| has_table(order, code, k + 1))
}

/// Each table of a code of so many procedures has its number so many bytes after the byte that its
/// pointer names, and there is one.
#[tactic(auto, unfolding(crate::specs::CodeTypes::has_numbers))]
fn has_numbers(order: Order, code: &[u8], count: u8, after: usize) -> bool
    requires { after ≤ 1 }
    ensures { result ≡ has_numbers_spec order code.now count after }
{
    let count = usize::from(count);
    have_numbers(order, code, count, after) && has_tables(order, code, count)
}

/// The bytes of a code are exchanged in pairs: its numbers are as they ought to be where the other
/// byte of each pair is read.
#[tactic(auto, unfolding(crate::specs::CodeTypes::is_swapped))]
pub fn is_swapped(order: Order, code: &[u8]) -> bool
    ensures { result ≡ is_swapped_spec order code.now }
{
    if code.len() < NUMBERS {
        return false;
    }
    let (count, last) = (code[code.len() - 2], code[code.len() - 1]);
    has_numbers(order, code, count, 1) && !has_numbers(order, code, last, 0)
}

/// A slot is filled with a code of which a link resolves the references.
fn is_linkable(dict: &Dict<'_>, slot: u8) -> bool
    requires { slot < SLOTS }
    ensures { result ≡ is_linkable_spec dict.now.order dict.now.file slot }
{
    let kind = dict.entry(slot).kind;
    (kind == HOSTSEG || kind == UNITSEG) && dict.filled(slot) && dict.is_in_file(slot)
}

/// The bytes of the code of a slot are exchanged in pairs.
fn is_swapped_code(dict: &Dict<'_>, slot: u8) -> bool
    requires { slot < SLOTS }
    ensures { result ≡ is_swapped_code_spec dict.now.order (code_of dict.now.file
        (entry_at dict.now.order dict.now.file slot)) }
{
    match dict.code(slot) {
        Ok(code) => is_swapped(dict.order(), code),
        Err(_) => false,
    }
}

/// The bytes of a slot's code are swapped, if it is to be linked.
fn is_swapped_slot(dict: &Dict<'_>, slot: u8) -> bool
    requires { slot < SLOTS }
    ensures { result ≡ is_swapped_slot_spec dict.now.order dict.now.file slot }
{
    !is_linkable(dict, slot) || is_swapped_code(dict, slot)
}

/// The bytes of each slot's code are swapped, if it is to be linked.
fn are_swapped(dict: &Dict<'_>) -> bool
    ensures { result ≡ list_all (is_swapped_slot_spec dict.now.order dict.now.file) slots }
{
    (0..SLOTS).all(|slot| is_swapped_slot(dict, slot))
}

/// One of the slots is to be linked.
fn has_linkable(dict: &Dict<'_>) -> bool
    ensures { result ≡ list_any (is_linkable_spec dict.now.order dict.now.file) slots }
{
    (0..SLOTS).any(|slot| is_linkable(dict, slot))
}

/// A slot is filled with a linked code.
fn is_linked(dict: &Dict<'_>, slot: u8) -> bool
    requires { slot < SLOTS }
    ensures { result ≡ is_linked_spec dict.now.order dict.now.file slot }
{
    dict.entry(slot).kind == LINKED && dict.filled(slot)
}

/// The bytes of the code of a slot are exchanged in pairs, if it is linked.
fn is_swapped_linked(dict: &Dict<'_>, slot: u8) -> bool
    requires { slot < SLOTS }
    ensures { result ≡ is_swapped_linked_spec dict.now.order dict.now.file slot }
{
    !is_linked(dict, slot) || is_swapped_code(dict, slot)
}

/// The last two bytes of a code differ: the number of the segment and that of its procedures.
#[tactic(auto, unfolding(crate::specs::CodeTypes::has_two_numbers))]
fn has_two_numbers(code: &[u8]) -> bool
    ensures { result ≡ has_two_numbers_spec code.now }
{
    NUMBERS <= code.len() && code[code.len() - 2] != code[code.len() - 1]
}

/// The last two bytes of the code of a slot differ.
fn code_has_two_numbers(dict: &Dict<'_>, slot: u8) -> bool
    requires { slot < SLOTS }
    ensures { result ≡ code_has_two_numbers_spec (code_of dict.now.file
        (entry_at dict.now.order dict.now.file slot)) }
{
    match dict.code(slot) {
        Ok(code) => has_two_numbers(code),
        Err(_) => false,
    }
}

/// A linked code says by its last two bytes which of them is the number of its procedures.
fn is_shown_linked(dict: &Dict<'_>, slot: u8) -> bool
    requires { slot < SLOTS }
    ensures { result ≡ is_shown_linked_spec dict.now.order dict.now.file slot }
{
    is_linked(dict, slot) && code_has_two_numbers(dict, slot)
}

/// The bytes of each linked code are exchanged in pairs.
fn are_swapped_linked(dict: &Dict<'_>) -> bool
    ensures { result ≡ list_all (is_swapped_linked_spec dict.now.order dict.now.file) slots }
{
    (0..SLOTS).all(|slot| is_swapped_linked(dict, slot))
}

/// A linked code shows by its last two bytes whether they are exchanged.
fn has_shown_linked(dict: &Dict<'_>) -> bool
    ensures { result ≡ list_any (is_shown_linked_spec dict.now.order dict.now.file) slots }
{
    (0..SLOTS).any(|slot| is_shown_linked(dict, slot))
}

/// No code is to be linked, the bytes of each linked one are exchanged in pairs, and one of them shows
/// it. An assembled procedure of segment 1 may look so by right.
#[tactic(auto, unfolding(crate::specs::CodeTypes::is_swapped_link))]
fn is_swapped_link(dict: &Dict<'_>) -> bool
    ensures { result ≡ is_swapped_link_spec dict.now.order dict.now.file }
{
    !has_linkable(dict) && are_swapped_linked(dict) && has_shown_linked(dict)
}

/// The bytes of a file are exchanged in pairs, of one that is to be linked or of one that is linked. Most
/// files are neither, as the first code that is to be linked says.
#[tactic(auto, unfolding(crate::specs::CodeTypes::is_swapped_in), using(crate::proofs::Swapped::none_swapped))]
fn is_swapped_dict(dict: &Dict<'_>) -> bool
    ensures { result ≡ (is_swapped_in_spec dict.now.order dict.now.file
        || is_swapped_link_spec dict.now.order dict.now.file) }
{
    are_swapped(dict) && (has_linkable(dict) || is_swapped_link(dict))
}

/// The bytes of a code file are exchanged in pairs: so are those of each code that is to be linked,
/// and there is one, or, where none is to be linked, those of each linked one. An assembled entry says
/// nothing, since it has a native procedure by right.
pub(crate) fn is_swapped_file(bytes: &[u8]) -> bool
    ensures { result ≡ is_swapped_file_spec (opened bytes.now) }
{
    match open(bytes) {
        Ok(dict) => is_swapped_dict(&dict),
        Err(_) => false,
    }
}

/// A code ends with a procedure dictionary: it has a table, and each is in the code and has its
/// number.
fn ends_with_dictionary(order: Order, code: &[u8]) -> bool
    requires { 2 ≤ length code.now }
{
    ProcedureDictionary::read(order, code, false).is_ok()
        && has_numbers(order, code, code[code.len() - 1], 0)
}

/// The code of a slot ends with a procedure dictionary.
fn has_dictionary(dict: &Dict<'_>, slot: u8) -> bool
    requires { slot < SLOTS }
{
    match dict.code(slot) {
        Ok(code) if NUMBERS <= code.len() => ends_with_dictionary(dict.order(), code),
        _ => false,
    }
}

/// The code of a slot says that it has no procedure, as that of a unit may.
fn is_without_procedures(dict: &Dict<'_>, slot: u8) -> bool
    requires { slot < SLOTS }
{
    match dict.code(slot) {
        Ok(code) => code.last() == Some(&0),
        Err(_) => false,
    }
}

/// The code of a slot has its procedure dictionary, if it is to be linked and has a procedure.
fn has_its_dictionary(dict: &Dict<'_>, slot: u8) -> bool
    requires { slot < SLOTS }
{
    !is_linkable(dict, slot) || is_without_procedures(dict, slot) || has_dictionary(dict, slot)
}

/// The slot has a name that can be read, and its code is in the file with its procedure dictionary.
fn is_found(dict: &Dict<'_>, slot: u8) -> bool
    requires { slot < SLOTS }
{
    dict.is_whole(slot) && is_readable(&dict.entry(slot).name) && has_dictionary(dict, slot)
}

/// Some code of the file ends with its procedure dictionary, as one does in each code file that is
/// not damaged.
pub fn has_procedure_dictionary(bytes: &[u8]) -> bool {
    match open(bytes) {
        Ok(dict) => (0..SLOTS).any(|slot| dict.is_whole(slot) && has_dictionary(&dict, slot)),
        Err(_) => false,
    }
}

/// The file is a code file, and its codes have their procedure dictionaries: each that is to be
/// linked, and one with a name that can be read.
pub(crate) fn has_procedures(bytes: &[u8]) -> bool {
    let Ok(dict) = open(bytes) else {
        return false;
    };
    is_code_file(&dict)
        && (0..SLOTS).all(|slot| has_its_dictionary(&dict, slot))
        && (0..SLOTS).any(|slot| is_found(&dict, slot))
}
