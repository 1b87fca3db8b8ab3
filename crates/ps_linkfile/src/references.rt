//! The references of a link, after its map.
ghost use Rattle.std.specs.Prelude.{◌≡◌, ◌<◌, ◌+◌, ◌*◌, ◌++◌, List, ℕ, length, IfOk, IfErr, Some};
ghost use Rattle.std.specs.List.{enumerate_from, flat_map};
ghost use Rattle.ps_writing.specs.Adding.{Adds};
ghost use Rattle.ps_resolve.specs.Plans.{IsStopped};
ghost use Rattle.ps_resolve.specs.Sources.{contents};
ghost use Rattle.ps_resolve.specs.Standing.{NoneStands};
ghost use Rattle.ps_linkfile.specs.LinkedFile.{LinkedFile};
ghost use Rattle.ps_linkfile.specs.MapText.{map_of};
ghost use Rattle.ps_linkfile.specs.Outcomes.{HasUsedNumber, NamesFirst, error_of};
ghost use Rattle.ps_linkfile.specs.ReferencesJson.{IsReferencesJson, referenced_json, references_text};
ghost use Rattle.ps_linkfile.specs.Writing.{StandsFor};
ghost use Rattle.ps_linkfile.specs.declared.cause.Cause.TheVariants.{Reference};
ghost use Rattle.ps_linkfile.specs.ReferencesText.{bytes_at as bytes_at_spec, item_end as item_end_spec, stored_rows, place_in, record_in, references_in, references_of};

use crate::cause::Cause;
use crate::linked::{Linked, prepare_files};
use crate::stored_places::{StoredPlaces, stored_in_segments};
use ps_laws::first_of_all;
use ps_linkinfo::Kind;
use ps_resolve::Stop;
use ps_words::{BLOCK_SIZE, Name};
use ps_writing::RowPart::{Bytes, Named, Number, Stored};
use ps_writing::{Form, Text, TextWriter, add_by_form, add_each_row, add_part, by_form, separator};
use std::alloc::{Allocator, Global};
use std::marker::Model;

/// The bytes of a code from a place on, `width` of them, or those that are there.
fn bytes_at(code: &[u8], place: usize, width: usize) -> &[u8]
    ensures { result.now ≡ bytes_at_spec code.now place width }
{
    let rest = &code[place.min(code.len())..];
    &rest[..width.min(rest.len())]
}

/// Where a place of a code is in the linked file, whose block the code begins in.
fn file_offset(block: u16, place: usize) -> usize
    requires { place < 9223372036854775808 }
    ensures { result ≡ 512 * block + place }
{
    BLOCK_SIZE * block as usize + place
}

/// What is after the item of a place. The number of a segment is the last that a link stores there.
fn item_end(cause: Cause) -> &'static [u8]
    ensures { result.now ≡ item_end_spec cause }
{
    match cause {
        Cause::Number => b"}",
        Cause::DataSize => b"},\n",
        Cause::Reference { .. } => b"},\n",
    }
}

/// Adds the kind, the name and the index of the record of a reference.
fn add_reference<S: TextWriter>(text: &mut S, form: Form, kind: Kind, name: Name, index: usize)
    ensures { Adds S.added text.old (record_in form (Reference kind name index)) text.new }
{
    add_by_form(text, form, b" ", b",\"record\":{\"kind\":\"");
    text.add(kind.word().as_bytes());
    add_by_form(text, form, b"", b"\"");
    add_part(text, form, Named(name));
    let word = by_form(form, b"record", b"index");
    add_part(text, form, Number(word, index));
    add_by_form(text, form, b"", b"}");
}

fn add_record<S: TextWriter>(text: &mut S, form: Form, cause: Cause)
    ensures { Adds S.added text.old (record_in form cause) text.new }
{
    match cause {
        Cause::Number | Cause::DataSize => add_by_form(text, form, b"", b",\"record\":null"),
        Cause::Reference { kind, name, index } => {
            add_reference(text, form, kind, name, index);
        }
    }
}

/// Adds the row of a place at which a link stores bytes for this cause.
fn add_place<S: TextWriter, A: Allocator>(
    text: &mut S,
    form: Form,
    stored: &StoredPlaces<'_, A>,
    place: usize,
    cause: Cause,
)
    requires { place < length stored.now.causes }
    ensures { Adds S.added text.old (place_in form stored.now (place, Some cause)) text.new }
{
    let width = cause.width();
    add_part(text, form, Stored(cause.word(), stored.slot, stored.name));
    add_part(text, form, Number(b"at", place));
    let word = by_form(form, b"file", b"offset");
    add_part(text, form, Number(word, file_offset(stored.block, place)));
    let was = bytes_at(stored.code, place, width);
    add_part(text, form, Bytes(b"was", was));
    let is = bytes_at(stored.linked.as_slice(), place, width);
    add_part(text, form, Bytes(b"is", is));
    add_record(text, form, cause);
    add_by_form(text, form, b"\n", item_end(cause));
}

/// Adds a row for each place of a code at which a link stores bytes, as those of this index.
fn add_stored_segment<S: TextWriter, A: Allocator>(
    text: &mut S,
    form: Form,
    index: usize,
    stored: &StoredPlaces<'_, A>,
)
    ensures { Adds S.added text.old (stored_rows form (index, stored.now)) text.new }
{
    add_by_form(text, form, b"", separator(index == 0));
    add_each_row(text, stored.causes.as_slice(), |text, place, cause| {
        if let Some(cause) = cause {
            add_place(text, form, stored, place, *cause);
        }
    });
}

/// Adds the rows of all segments, by slot.
fn add_stored_segments<S: TextWriter, A: Allocator>(
    text: &mut S,
    form: Form,
    all_stored: &[StoredPlaces<'_, A>],
)
    ensures { Adds S.added text.old
        (flat_map (stored_rows form) (enumerate_from 0 all_stored.now)) text.new }
{
    add_each_row(text, all_stored, |text, index, stored| {
        add_stored_segment(text, form, index, stored)
    });
}

/// Adds what a link stores; in a document it is after the members of the map.
fn add_references<S: TextWriter, A: Allocator>(
    text: &mut S,
    form: Form,
    all_stored: &[StoredPlaces<'_, A>],
)
    ensures { Adds S.added text.old (references_in form all_stored.now) text.new }
{
    add_by_form(text, form, b"", b",\"references\":[");
    add_stored_segments(text, form, all_stored);
    add_by_form(text, form, b"", b"\n]}\n");
}

/// The map of a link that was checked, and what the link stores: each operand, number and data size.
#[derive(Drop)]
pub struct ReferenceMap<'a, A: Allocator + Copy = Global> {
    linked: Linked<'a, A>,
    all_stored: Vec<StoredPlaces<'a, A>, A>,
}

impl<'a, A: Allocator + Copy> Model for ReferenceMap<'a, A> {
    ghost use Rattle.ps_linkfile.specs.ReferencesJson.{Referenced};

    ghost Value = { Referenced };

    ghost view = { λ m. record { plan = m.linked; all_stored = m.all_stored.items } };
}

impl<'a, A: Allocator + Copy> ReferenceMap<'a, A> {
    /// The link itself, whose linked file can be written too.
    pub fn linked(&self) -> &Linked<'a, A>
        ensures { result.now ≡ self.now.plan }
    {
        &self.linked
    }
}

/// The map of a link and its references: its lines and those of the references, or one JSON document of
/// the same values, which has of each name the eight characters and all its bytes in hexadecimal digits.
#[derive(Drop)]
pub struct References<'m, 'a, A: Allocator + Copy = Global> {
    /// Lines, or a document.
    pub form: Form,
    pub map: &'m ReferenceMap<'a, A>,
}

impl<A: Allocator + Copy> Text for References<'_, '_, A> {
    ghost use Rattle.ps_linkfile.specs.ReferencesJson.{referenced_in};

    ghost bytes = { λ r. referenced_in r.form r.map.now };

    fn add_to<S: TextWriter>(&self, text: &mut S) {
        let map = self.map;
        map.linked.add_map(text, self.form);
        add_references(text, self.form, map.all_stored.as_slice());
    }
}

/// Checks a host and the libraries of its units, and prepares the map of their link with its
/// references, whose text is `References`: after the lines of `map_text`, by slot and then by place, a
/// line for each operand, number and data size that the link stores. Such a line has
/// the slot and the name of the segment, the place in its code and in the linked file, from 0, the
/// bytes there before and after the link, and for an operand the kind, the name and the index of
/// the record whose reference it is, from 0.
///
/// The call takes the memory of a link, and for each segment whose references are resolved one byte
/// and at most 32 more for each byte of its code.
///
/// `host` and each of `libs` are whole code files; of the libraries that have a unit, the first is
/// used. Refuses what `prepare_files` refuses: `Refused` with the first fault of all, and `Memory` where
/// memory was refused, which is requested only once the files were read and have no fault.
pub fn prepare_references<'a, A: Allocator + Copy>(
    alloc: A,
    host: &'a [u8],
    libs: &'a [&'a [u8]],
) -> Result<ReferenceMap<'a, A>, Stop>
    ensures text { IfOk result (λ map. references_text map ≡ map_of host.now (contents libs.now)
        ++ references_of host.now (contents libs.now)) }
    ensures json { IfOk result (λ map. IsReferencesJson host.now (contents libs.now)
        (referenced_json map)) }
    ensures accepted { IfOk result (λ _. NoneStands host.now (contents libs.now)) }
    ensures stands { IfOk result (λ map. StandsFor host.now (contents libs.now) map.plan) }
    ensures linked { IfOk result (λ _. (file : List ℕ)
        × LinkedFile host.now (contents libs.now) file) }
    ensures stop { IfErr result (IsStopped host.now (contents libs.now)) }
    ensures first { IfErr result (λ stop. NamesFirst host.now (contents libs.now)
        (error_of stop)) }
    ensures used { IfErr result (λ stop. HasUsedNumber (error_of stop)) }
{
    first_of_all();
    let linked = prepare_files(alloc, host, libs)?;
    let all_stored = stored_in_segments(alloc, linked.plan())?;
    Ok(ReferenceMap { linked, all_stored })
}
