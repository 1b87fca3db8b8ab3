//! What a code file has, as text.
ghost use Rattle.std.specs.Prelude.{◌≡◌, ◌<◌, ◌++◌, ◌∷◌, [], if◌then◌else◌, None, IfOk, IfErr, flat_map};
ghost use Rattle.ps_words.specs.FaultPlaces.{in_file};
ghost use Rattle.ps_codefile.specs.Dictionary.{slots, entry_at};
ghost use Rattle.ps_linkinfo.specs.Records.{reading};
ghost use Rattle.arrayvec.specs.ArrayVec.{array_vec_len};
ghost use Rattle.ps_resolve.specs.Faults.{is_role};
ghost use Rattle.ps_codefile.specs.Roles.{is_unit as is_unit_role};
ghost use Rattle.ps_writing.specs.Adding.{Adds};
ghost use Rattle.ps_writing.specs.declared.rows.Form.TheVariants.{Lines};
ghost use Rattle.ps_writing.specs.Lines.{line};
ghost use Rattle.ps_writing.specs.Rows.{values_in};
ghost use Rattle.ps_linkfile.specs.ShowJson.{show_json_of};
ghost use Rattle.ps_linkfile.specs.ShowText.{entry_in, order_words, slot_line, unit_names as unit_names_spec, is_listed as is_listed_spec, body_row, record_in, record_fault_in, records_in, has_links as has_links_spec, links_head, links_in, show_of, order_shown, show_fault, IsUnshown};

use crate::error::LinkError;
use crate::show_json::{add_order_member, add_slot_items};
use arrayvec::ArrayVec;
use ps_codefile::dictionary_layout::{SLOT_COUNT, SLOTS};
use ps_codefile::{Dict, Entry, Role};
use ps_linkinfo::{Body, LinkRecord, Records, walk_from_start};
use ps_words::{Fault, Name, Order, Reason};
use ps_writing::RowPart::{self, Flag, Kind, Named, Number, Record, References};
use ps_writing::{
    Form, PrependBuffer, Text, TextWriter, add_by_form, add_each_slot, add_fault, add_part,
    begin_row, end_row, in_memory, shown_codes, two_digits,
};
use std::alloc::Allocator;
use std::marker::Model;

/// A fault of the file as a whole.
fn file_fault(reason: Reason) -> Fault
    ensures { result ≡ in_file 0 reason }
{
    Fault::in_file(0, reason)
}

/// A code file that can be shown: its segment dictionary, and the byte order that its kind words show.
/// Contracts see it as its bytes.
#[derive(Drop)]
pub struct ShownFile<'a> {
    dict: Dict<'a>,
    order: Option<Order>,
}

impl<'a> Model for ShownFile<'a> {
    ghost use Rattle.std.specs.Prelude.{List, ℕ};
    ghost use Rattle.ps_linkfile.specs.ShowText.{IsShown};

    ghost Value = { List ℕ };

    ghost view = { λ f. f.dict.file };

    ghost invariant = { λ f. IsShown f.order f.dict };
}

impl<'a> ShownFile<'a> {
    ghost use Rattle.std.specs.Prelude.{◌≡◌, IfErr, IfOk, None, Some};
    ghost use Rattle.ps_linkfile.specs.ShowText.{show_fault};

    /// The file that is shown, of any contents. Its words are read in the byte order that its kind words
    /// show, and as little-endian where all of these are 0.
    ///
    /// Refuses `ShortFile` for a file of fewer than 512 bytes, and `NoOrder` where the kind words fit
    /// neither byte order, each of file 0. It takes no memory.
    /// Source: UCSD Pascal II.0 manual, code file format.
    pub fn read(file: &'a [u8]) -> Result<ShownFile<'a>, Fault>
        ensures file { IfOk result (λ shown. shown ≡ file.now) }
        ensures sound { IfOk result (λ _. show_fault file.now ≡ None) }
        ensures fault { IfErr result (λ fault. show_fault file.now ≡ Some fault) }
    {
        match Dict::read(file) {
            Ok(dict) => {
                let order = Some(dict.order());
                Ok(ShownFile { dict, order })
            }
            Err(_) => match Dict::read_beside(file, Order::Little) {
                Ok(dict) => Ok(ShownFile { dict, order: None }),
                Err(reason) => Err(file_fault(reason)),
            },
        }
    }

    /// Adds the lines of what the file has.
    fn add_lines<S: TextWriter>(&self, text: &mut S)
        ensures { Adds S.added text.old (show_of self.now) text.new }
    {
        add_order(text, self.order);
        add_slots(text, &self.dict);
        add_all_links(text, &self.dict);
    }

    /// Adds the document of what the file has.
    fn add_document<S: TextWriter>(&self, text: &mut S)
        ensures { Adds S.added text.old (show_json_of self.now) text.new }
    {
        add_order_member(text, self.order);
        add_slot_items(text, &self.dict);
        text.add(b"\n]}\n");
    }
}

/// What a code file has: the lines that `show_text` describes, or one JSON document of the same values,
/// which has of each name the eight characters and all its bytes in hexadecimal digits.
#[derive(Drop)]
pub struct Show<'f, 'a> {
    /// Lines, or a document.
    pub form: Form,
    pub file: &'f ShownFile<'a>,
}

impl Text for Show<'_, '_> {
    ghost use Rattle.ps_linkfile.specs.ShowJson.{show_as};

    ghost bytes = { λ s. show_as s.form s.file.now };

    fn add_to<S: TextWriter>(&self, text: &mut S) {
        match self.form {
            Form::Lines => self.file.add_lines(text),
            Form::Json => self.file.add_document(text),
        }
    }
}

/// Adds the line of the byte order.
fn add_order<S: TextWriter>(text: &mut S, order: Option<Order>)
    ensures { Adds S.added text.old (line (order_words (order_shown order)))
        text.new }
{
    match order {
        None => text.add(b"order unknown\n"),
        Some(Order::Little) => text.add(b"order little\n"),
        Some(Order::Big) => text.add(b"order big\n"),
    }
}

/// How many bytes the line of a slot has at most.
const SLOT_LINE_LEN: usize = 66;

/// Adds the line of an entry, as one piece.
fn add_entry_line<S: TextWriter>(text: &mut S, slot: u8, entry: Entry)
    ensures { Adds S.added text.old (entry_in Lines slot entry) text.new }
{
    let mut line: PrependBuffer<SLOT_LINE_LEN> = PrependBuffer::new();
    line.prepend(b"\n");
    line.prepend_field(b"text", entry.text);
    line.prepend_field(b"length", entry.length);
    line.prepend_field(b"address", entry.address);
    line.prepend_field(b"kind", entry.kind);
    line.prepend(&shown_codes(entry.name));
    line.prepend(b" ");
    line.prepend(&two_digits(slot));
    line.prepend(b"slot ");
    text.add(line.as_slice());
}

#[tactic(auto, unfolding(crate::specs::ShowText::slot_line))]
fn add_slot<S: TextWriter>(text: &mut S, dict: &Dict, slot: u8)
    requires { slot < SLOTS }
    ensures { Adds S.added text.old
        (slot_line dict.now.order dict.now.file slot) text.new }
{
    add_entry_line(text, slot, dict.entry(slot));
}

fn add_slots<S: TextWriter>(text: &mut S, dict: &Dict)
    ensures { Adds S.added text.old
        (flat_map (slot_line dict.now.order dict.now.file) slots) text.new }
{
    add_each_slot(text, SLOTS, |text, slot| add_slot(text, dict, slot));
}

/// The slot has a unit, in place or wanted.
fn is_unit(dict: &Dict, slot: u8) -> bool
    requires { slot < SLOTS }
    ensures { result ≡ is_role is_unit_role dict.now.order dict.now.file slot }
{
    matches!(dict.role(slot), Ok(Role::Unit | Role::Wanted))
}

/// Adds the name of the slot after the others, where it has a unit.
fn add_unit(dict: &Dict, names: &mut ArrayVec<Name, SLOT_COUNT>, slot: u8)
    requires in_range { slot < SLOTS }
    requires room { array_vec_len names.old < SLOT_COUNT }
    ensures { names.new.items ≡ names.old.items
        ++ (if is_role is_unit_role dict.now.order dict.now.file slot
        then (entry_at dict.now.order dict.now.file slot).name ∷ [] else []) }
{
    if is_unit(dict, slot) {
        names.push(dict.entry(slot).name);
    }
}

/// The names of the units of a file, in place or wanted, by slot.
pub(crate) fn unit_names(dict: &Dict) -> ArrayVec<Name, SLOT_COUNT>
    ensures { result.items ≡ unit_names_spec dict.now.order dict.now.file }
{
    let mut names: ArrayVec<Name, SLOT_COUNT> = ArrayVec::new();
    for slot in 0..SLOTS {
        add_unit(dict, &mut names, slot);
    }
    names
}

/// A unit of these has the name.
pub(crate) fn is_listed(units: &[Name], name: Name) -> bool
    ensures { result ≡ is_listed_spec units.now name }
{
    units.iter().any(|unit| *unit == name)
}

/// Adds what a record of this name says beside its kind, in a file with these units.
fn add_body<S: TextWriter>(text: &mut S, form: Form, units: &[Name], name: Name, body: &Body)
    ensures { Adds S.added text.old (values_in form (body_row units.now name body.now)) text.new }
{
    match body {
        Body::UnitRef(refs) => {
            add_part(text, form, Named(name));
            add_part(text, form, References(refs));
            add_part(text, form, Flag(b"unlisted", !is_listed(units, name)));
        }
        Body::PublRef(refs) => {
            add_part(text, form, Named(name));
            add_part(text, form, References(refs));
        }
        Body::PrivRef { words, refs } => {
            add_part(text, form, Named(name));
            add_part(text, form, Number(b"words", *words as usize));
            add_part(text, form, References(refs));
        }
        Body::PublDef(value) | Body::ConstDef(value) => {
            add_part(text, form, Named(name));
            add_part(text, form, Number(b"value", *value as usize));
        }
        Body::Eof(next) => add_part(text, form, Number(b"next", *next as usize)),
    }
}

/// Adds the row of a record, which has the index `rec` in its segment's link information, in a
/// file with these units.
fn add_record<S: TextWriter>(
    text: &mut S,
    form: Form,
    units: &[Name],
    rec: usize,
    entry: &LinkRecord,
)
    ensures { Adds S.added text.old (record_in form units.now (rec, entry.now)) text.new }
{
    begin_row(text, form, rec);
    add_part(text, form, Record(rec));
    add_part(text, form, Kind(entry.body.kind().word().as_bytes()));
    add_body(text, form, units, entry.name, &entry.body);
    end_row(text, form);
}

/// Adds the row of a fault that occurs in place of the record of index `rec` of the segment in a slot,
/// which has this name.
fn add_record_fault<S: TextWriter>(
    text: &mut S,
    form: Form,
    slot: u8,
    name: Name,
    rec: usize,
    reason: Reason,
)
    ensures { Adds S.added text.old (record_fault_in form slot name rec (Some reason)) text.new }
{
    begin_row(text, form, rec);
    add_part(text, form, Record(rec));
    let fault = Fault::in_record(0, slot, rec, reason);
    add_part(text, form, RowPart::Refused(fault, name));
    end_row(text, form);
}

/// Adds the rows of the link information of the segment in a slot, which has this name, in a file with
/// these units: of each record up to its end, or up to the first fault and that fault.
#[tactic(auto, using(ps_writing::proofs::Written::some_more, ps_writing::proofs::Written::all_written, crate::proofs::Walks::walked, crate::proofs::Walks::record_next, crate::proofs::Walks::fault_next))]
fn add_records<S: TextWriter>(
    text: &mut S,
    form: Form,
    units: &[Name],
    slot: u8,
    name: Name,
    order: Order,
    information: &[u8],
)
    ensures { Adds S.added text.old
        (records_in form units.now slot name (reading order information.now)) text.new }
{
    walk_from_start();
    let mut rec = 0;
    for item in Records::new(order, information) {
        if text.has_failed() {
            return;
        }
        match item {
            Ok(entry) => {
                add_record(text, form, units, rec, &entry);
                rec += 1;
            }
            Err(reason) => add_record_fault(text, form, slot, name, rec, reason),
        }
    }
}

/// The slot has a host segment or a unit, with a code in this file.
pub(crate) fn has_links(dict: &Dict, slot: u8) -> bool
    requires { slot < SLOTS }
    ensures { result ≡ has_links_spec (entry_at dict.now.order dict.now.file slot) }
{
    matches!(dict.role(slot), Ok(Role::Host | Role::Unit))
}

/// Adds what the lines of the link information of a slot begin with.
fn add_links_head<S: TextWriter>(text: &mut S, form: Form, slot: u8)
    ensures { Adds S.added text.old (links_head form slot) text.new }
{
    match form {
        Form::Lines => {
            text.add(b"links ");
            text.add(&two_digits(slot));
            text.add(b"\n");
        }
        Form::Json => text.add(b""),
    }
}

/// Adds the link information of a slot, where it has a segment with one, in a file with these
/// units.
#[tactic(auto, unfolding(crate::specs::ShowText::links_in))]
pub(crate) fn add_links<S: TextWriter>(
    text: &mut S,
    form: Form,
    dict: &Dict,
    units: &[Name],
    slot: u8,
)
    requires in_range { slot < SLOTS }
    requires units { units.now ≡ unit_names_spec dict.now.order dict.now.file }
    ensures { Adds S.added text.old
        (links_in form dict.now.order dict.now.file slot) text.new }
{
    if !has_links(dict, slot) {
        add_by_form(text, form, b"", b",\"fault\":null,\"records\":null");
        return;
    }
    add_links_head(text, form, slot);
    let name = dict.entry(slot).name;
    match dict.code(slot) {
        Err(reason) => {
            add_by_form(text, form, b"", b",\"fault\":");
            add_fault(text, form, Fault::in_slot(0, slot, reason), name);
            add_by_form(text, form, b"\n", b",\"records\":[]");
        }
        Ok(_) => {
            add_by_form(text, form, b"", b",\"fault\":null,\"records\":[");
            let information = dict.after(slot);
            add_records(text, form, units, slot, name, dict.order(), information);
            add_by_form(text, form, b"", b"\n]");
        }
    }
}

/// Adds the link information of each slot.
fn add_all_links<S: TextWriter>(text: &mut S, dict: &Dict)
    ensures { Adds S.added text.old
        (flat_map (links_in Lines dict.now.order dict.now.file) slots) text.new }
{
    let names = unit_names(dict);
    let units = names.as_slice();
    add_each_slot(text, SLOTS, |text, slot| {
        add_links(text, Form::Lines, dict, units, slot);
    });
}

/// What a code file has, as ASCII lines: its byte order; its sixteen slots; and for each slot with
/// a host segment or a unit, whose code is in the file, the records of its link information. The
/// line of a UNITREF record ends with `unlisted` where no slot of the file has a unit of its name,
/// in place or wanted.
///
/// `file` is a whole code file, of any contents. Its words are read in the byte order that its kind
/// words show, and as little-endian where all of these are 0, which the first line then calls
/// `unknown`. Where a code is refused (`BadLength`, `BadAddress` or `Truncated`), a line of that
/// fault is in place of its records; where a record cannot be read, a line of that fault, as
/// [`LinkInformation::read`](ps_linkinfo::LinkInformation::read) lists them, is the last of the
/// segment. Nothing else is checked.
///
/// Refuses `Refused` with `ShortFile` for a file of fewer than 512 bytes, and with `NoOrder` where
/// the kind words fit neither byte order, each of file 0, also where there is no memory; and
/// `Memory` where memory was refused. Never returns `Write`.
/// Source: UCSD Pascal II.0 manual, code file format; the text is this project's profile.
pub fn show_text<A: Allocator + Copy>(alloc: A, file: &[u8]) -> Result<Vec<u8, A>, LinkError>
    ensures text { IfOk result (λ text. text.items ≡ show_of file.now) }
    ensures sound { IfOk result (λ _. show_fault file.now ≡ None) }
    ensures error { IfErr result (IsUnshown file.now) }
{
    let form = Form::Lines;
    let file = &ShownFile::read(file)?;
    Ok(in_memory(alloc, &Show { form, file })?)
}
