//! The map of a link, as text and as JSON.
ghost use Rattle.std.specs.Prelude.{◌≡◌, None, IfOk, IfErr};
ghost use Rattle.ps_writing.specs.Adding.{Adds};
ghost use Rattle.ps_resolve.specs.AllFaults.{first_fault};
ghost use Rattle.ps_resolve.specs.Sources.{contents};
ghost use Rattle.ps_resolve.specs.Standing.{NoneStands};
ghost use Rattle.ps_linkfile.specs.Writing.{starts_of, IsReady};
ghost use Rattle.ps_linkfile.specs.Outcomes.{HasUsedNumber, IsUnprepared, NamesFirst};
ghost use Rattle.ps_linkfile.specs.MapText.{row_among, segment_row, kind_word as kind_word_spec, definition_row, private_row, last_row, plan_rows, map_in, map_of};
ghost use Rattle.ps_writing.specs.Rows.{row_in, rows_in, values_in};

use crate::block_layout::lay_out;
use crate::error::LinkError;
use crate::linked::{Linked, prepare};
use ps_laws::first_of_all;
use ps_resolve::{Def, DefKind, Definitions, Plan, Private, Segment};
use ps_words::Name;
use ps_writing::RowPart::{Flag, InSlot, Named, Number, OfKind, Short, Total};
use ps_writing::{
    Form, Text, TextWriter, add_by_form, add_each_row, add_part, begin_row, end_row, in_memory,
};
use std::alloc::{AllocError, Allocator, Global};

/// Adds the row of a segment, whose code begins in this block.
fn add_segment<S: TextWriter>(text: &mut S, form: Form, index: usize, segment: &Segment, block: u16)
    ensures { Adds S.added text.old
        (row_in form index (segment_row block segment.now)) text.new }
{
    begin_row(text, form, index);
    add_part(
        text,
        form,
        InSlot(b"segment ", segment.slot(), segment.name()),
    );
    add_part(text, form, Number(b"file", segment.file()));
    add_part(text, form, Short(b"entry", segment.index()));
    add_part(text, form, Number(b"block", block as usize));
    add_part(text, form, Number(b"length", segment.code().len()));
    add_part(text, form, Flag(b"added", segment.added()));
    end_row(text, form);
}

/// Adds a row for each segment, by slot. Their codes begin in these blocks.
fn add_segments<A: Allocator + Copy, S: TextWriter>(
    text: &mut S,
    form: Form,
    plan: &Plan<'_, A>,
    starts: &[u16],
)
    requires { starts.now ≡ starts_of plan.now.sources }
    ensures { Adds S.added text.old
        (rows_in form (row_among plan.now.sources) plan.now.sources) text.new }
{
    add_each_row(text, plan.sources(), |text, k, segment| {
        add_segment(text, form, k, segment, starts[k]);
    });
}

/// What the map calls a definition.
fn kind_word(kind: DefKind) -> &'static [u8]
    ensures { result.now ≡ kind_word_spec kind }
{
    match kind {
        DefKind::Public => b"public",
        DefKind::Constant => b"constant",
    }
}

fn add_definition<S: TextWriter>(text: &mut S, form: Form, index: usize, name: Name, def: Def)
    ensures { Adds S.added text.old (row_in form index (definition_row (name, def))) text.new }
{
    begin_row(text, form, index);
    add_part(text, form, OfKind(kind_word(def.kind)));
    add_part(text, form, Named(name));
    add_part(text, form, Number(b"value", def.value as usize));
    end_row(text, form);
}

/// Adds a row for each definition, in record order.
fn add_definitions<A: Allocator + Copy, S: TextWriter>(
    text: &mut S,
    form: Form,
    definitions: &Definitions<A>,
)
    ensures { Adds S.added text.old (rows_in form definition_row definitions.now) text.new }
{
    for i in 0..definitions.len() {
        if text.has_failed() {
            return;
        }
        let (name, def) = definitions.at(i);
        add_definition(text, form, i, name, def);
    }
}

/// Adds the row of a private variable.
fn add_private<S: TextWriter>(text: &mut S, form: Form, index: usize, private: &Private)
    ensures { Adds S.added text.old (row_in form index (private_row private.now)) text.new }
{
    begin_row(text, form, index);
    add_part(text, form, InSlot(b"private ", private.slot, private.name));
    add_part(text, form, Number(b"offset", private.offset as usize));
    add_part(text, form, Number(b"words", private.words as usize));
    end_row(text, form);
}

/// Adds a row for each private variable, by slot and then by record.
fn add_privates<S: TextWriter>(text: &mut S, form: Form, privates: &[Private])
    ensures { Adds S.added text.old (rows_in form private_row privates.now) text.new }
{
    add_each_row(text, privates, |text, i, private| {
        add_private(text, form, i, private)
    });
}

/// Adds the last row: what is free after the private variables, the data size, and the blocks.
fn add_last<A: Allocator + Copy, S: TextWriter>(
    text: &mut S,
    form: Form,
    plan: &Plan<'_, A>,
    blocks: usize,
)
    ensures { Adds S.added text.old
        (values_in form (last_row plan.now.next_free plan.now.data_size blocks)) text.new }
{
    add_part(text, form, Total(b"next", plan.next_free() as usize));
    add_part(text, form, Number(b"data", plan.data_size() as usize));
    add_part(text, form, Number(b"blocks", blocks));
}

/// Adds the map of a plan that can be written, but for the end of a document.
pub(crate) fn add_map<A: Allocator + Copy, S: TextWriter>(
    text: &mut S,
    form: Form,
    plan: &Plan<'_, A>,
)
    requires { IsReady plan.now }
    ensures { Adds S.added text.old (plan_rows form plan.now) text.new }
{
    let layout = lay_out(plan);
    add_by_form(text, form, b"", b"{\"segments\":[");
    add_segments(text, form, plan, layout.starts.as_slice());
    add_by_form(text, form, b"", b"\n],\"definitions\":[");
    add_definitions(text, form, plan.definitions());
    add_by_form(text, form, b"", b"\n],\"privates\":[");
    add_privates(text, form, plan.allotment().privates());
    add_by_form(text, form, b"", b"\n]");
    add_last(text, form, plan, layout.blocks);
    add_by_form(text, form, b"\n", b"");
}

/// The map of a link that was checked: the lines that `map_text` describes, or one JSON document of the
/// same values, which has of each name the eight characters and all its bytes in hexadecimal digits.
#[derive(Drop)]
pub struct LinkMap<'l, 'a, A: Allocator + Copy = Global> {
    /// Lines, or a document.
    pub form: Form,
    pub linked: &'l Linked<'a, A>,
}

impl<A: Allocator + Copy> Text for LinkMap<'_, '_, A> {
    ghost use Rattle.ps_linkfile.specs.MapText.{map_as};

    ghost bytes = { λ m. map_as m.form m.linked.now };

    fn add_to<S: TextWriter>(&self, text: &mut S) {
        self.linked.add_map(text, self.form);
        if let Form::Json = self.form {
            text.add(b"}\n");
        }
    }
}

/// The map of a link, as lines of ASCII text, each ended by a byte 10: for each segment of the
/// linked file, by slot, its slot and its name, the file and the entry that its code comes from,
/// its first block and its length in bytes, and after them `added` where it was added in an empty
/// slot of the host, for a unit that only a UNITREF record names; for each definition of the host's
/// segment, in record order, its name and its value; for each private variable, by slot and then by
/// record, its slot and its name, its base offset and its size in words; and at last the next free
/// base offset in words, the data size of the host's outer block in bytes, and how many blocks the
/// linked file has.
///
/// Numbers are decimal; slots and entries have two digits. A byte of a name that ASCII does not
/// print is shown as `?`.
///
/// `host` and each of `libs` are whole code files; of the libraries that have a unit, the first is
/// used. Refuses what `link` refuses: `Refused` with the first fault of all, and `Memory` where
/// memory was refused, which is requested only once the files were read and have no fault.
pub fn map_text<'a, A: Allocator + Copy>(
    alloc: A,
    host: &'a [u8],
    libs: &'a [&'a [u8]],
) -> Result<Vec<u8, A>, LinkError>
    ensures text { IfOk result (λ text. text.items ≡ map_of host.now (contents libs.now)) }
    ensures sound { IfOk result (λ _. first_fault host.now (contents libs.now) ≡ None) }
    ensures accepted { IfOk result (λ _. NoneStands host.now (contents libs.now)) }
    ensures error { IfErr result (IsUnprepared host.now (contents libs.now)) }
    ensures first { IfErr result (NamesFirst host.now (contents libs.now)) }
    ensures used { IfErr result HasUsedNumber }
{
    first_of_all();
    let linked = prepare(alloc, host, libs)?;
    Ok(lines_of(alloc, &linked)?)
}

/// The lines of the map of a link that was checked.
fn lines_of<A: Allocator + Copy>(alloc: A, linked: &Linked<'_, A>) -> Result<Vec<u8, A>, AllocError>
    ensures { IfOk result (λ lines. lines.items ≡ map_in linked.now) }
{
    let form = Form::Lines;
    in_memory(alloc, &LinkMap { form, linked })
}
