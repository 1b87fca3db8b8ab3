//! What a code file has, as JSON.
ghost use Rattle.std.specs.Prelude.{◌≡◌, ◌<◌, flat_map};
ghost use Rattle.ps_codefile.specs.Dictionary.{slots};
ghost use Rattle.ps_writing.specs.Adding.{Adds};
ghost use Rattle.ps_linkfile.specs.ShowJson.{order_member, slot_item};
ghost use Rattle.ps_writing.specs.declared.rows.Form.TheVariants.{Json};
ghost use Rattle.ps_linkfile.specs.ShowText.{entry_in, order_shown, unit_names as unit_names_spec};

use crate::show::{add_links, unit_names};
use ps_codefile::dictionary_layout::SLOTS;
use ps_codefile::{Dict, Entry};
use ps_words::{Name, Order};
use ps_writing::RowPart::{InSlot, Number};
use ps_writing::{Form, TextWriter, add_each_slot, add_part, begin_row};

/// Adds the byte order, and what is before the slots.
pub(crate) fn add_order_member<S: TextWriter>(text: &mut S, order: Option<Order>)
    ensures { Adds S.added text.old (order_member (order_shown order)) text.new }
{
    match order {
        None => text.add(b"{\"order\":\"unknown\",\"slots\":["),
        Some(Order::Little) => text.add(b"{\"order\":\"little\",\"slots\":["),
        Some(Order::Big) => text.add(b"{\"order\":\"big\",\"slots\":["),
    }
}

pub(crate) fn add_slot_items<S: TextWriter>(text: &mut S, dict: &Dict)
    ensures { Adds S.added text.old
        (flat_map (slot_item dict.now.order dict.now.file) slots) text.new }
{
    let names = unit_names(dict);
    let units = names.as_slice();
    add_each_slot(text, SLOTS, |text, slot| {
        add_slot(text, dict, units, slot);
    });
}

/// Adds the item of an entry, but for its end.
fn add_entry_item<S: TextWriter>(text: &mut S, slot: u8, entry: Entry)
    ensures { Adds S.added text.old (entry_in Json slot entry) text.new }
{
    begin_row(text, Form::Json, slot as usize);
    add_part(text, Form::Json, InSlot(b"slot ", slot, entry.name));
    add_part(text, Form::Json, Number(b"kind", entry.kind as usize));
    add_part(text, Form::Json, Number(b"address", entry.address as usize));
    add_part(text, Form::Json, Number(b"length", entry.length as usize));
    add_part(text, Form::Json, Number(b"text", entry.text as usize));
}

/// Adds the item of a slot, in a file with these units.
#[tactic(auto, unfolding(crate::specs::ShowJson::slot_item))]
fn add_slot<S: TextWriter>(text: &mut S, dict: &Dict, units: &[Name], slot: u8)
    requires in_range { slot < SLOTS }
    requires units { units.now ≡ unit_names_spec dict.now.order dict.now.file }
    ensures { Adds S.added text.old
        (slot_item dict.now.order dict.now.file slot) text.new }
{
    add_entry_item(text, slot, dict.entry(slot));
    add_links(text, Form::Json, dict, units, slot);
    text.add(b"}");
}
