//! The records that are not linked as JSON.
ghost use Rattle.ps_writing.specs.Adding.{Adds};
ghost use Rattle.ps_report.specs.UnsupportedJson.{unsupported_item, unsupported_json, unsupported_items};

use ps_explained::UnsupportedRecord;
use ps_writing::{
    TextWriter, add_each_row, add_json_name, add_json_text, add_name_or_null, add_number_or_null,
    comma,
};

/// Adds the item of this index, and what is before it: where the record is, and what it is.
fn add_item<S: TextWriter>(text: &mut S, index: usize, found: &UnsupportedRecord<'_>)
    ensures { Adds S.added text.old (unsupported_item (index, found.now)) text.new }
{
    let place = found.place;
    text.add(comma(index == 0));
    text.add(b"\n{\"path\":\"");
    add_json_text(text, place.path);
    text.add(b"\",\"segment\":");
    add_name_or_null(text, place.segment);
    add_number_or_null(text, b",\"record\":", place.rec);
    text.add(b",\"kind\":\"");
    text.add(found.kind.as_bytes());
    add_number_or_null(text, b"\",\"format\":", found.format.map(usize::from));
    text.add(b",");
    add_json_name(text, found.name);
    text.add(b"}");
}

/// Adds the items of records that are not linked.
fn add_items<S: TextWriter>(text: &mut S, records: &[UnsupportedRecord<'_>])
    ensures { Adds S.added text.old (unsupported_items records.now) text.new }
{
    add_each_row(text, records, |text, index, found| {
        add_item(text, index, found)
    });
}

/// Adds the list of records that are not linked.
pub(crate) fn add_unsupported<S: TextWriter>(text: &mut S, records: &[UnsupportedRecord<'_>])
    ensures { Adds S.added text.old (unsupported_json records.now) text.new }
{
    text.add(b"\"unsupported\":[");
    add_items(text, records);
    text.add(b"\n]");
}
