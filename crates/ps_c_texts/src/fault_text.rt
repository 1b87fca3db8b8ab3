//! The text of the fault that an answer reports.
ghost use Rattle.std.specs.Prelude.{◌≡◌, ◌≤◌, ◌<◌, ◌+◌, ◌++◌, length, codes, decimal};
ghost use Rattle.arrayvec.specs.ArrayString.{array_string_len};
ghost use Rattle.ps_words.specs.FaultText.{name_of, number_of, part_text, kind_of as kind_of_spec};
ghost use Rattle.ps_c_link.specs.Answers.{closed_text};
ghost use Rattle.ps_c_link.specs.Rooms.{RoomBeginsWith};

use crate::room::put;
use arrayvec::ArrayString;
use itoa::Buffer;
use ps_words::{Fault, Reason};

/// How many bytes the text of a fault has at most, the closing 0 counted.
pub const FAULT_TEXT_MAX: usize = 160;

/// A text with room for the longest.
pub(crate) type Text = ArrayString<FAULT_TEXT_MAX>;

/// The name of a reason, which has 17 bytes at most.
fn name(reason: Reason) -> &'static str
    ensures name { result.now ≡ name_of reason }
    ensures short { length result.now ≤ 17 }
{
    reason.name()
}

/// Adds a label and a number, of 20 digits at most, as ` slot 7`; nothing where there is no number.
fn push_part(text: &mut Text, label: &str, number: Option<usize>)
    requires { array_string_len text.old + (length label.now + 22) ≤ FAULT_TEXT_MAX }
    ensures bytes { text.new.bytes ≡ text.old.bytes ++ part_text label.now number }
    ensures most { array_string_len text.new ≤ array_string_len text.old + (length label.now + 22) }
{
    match number {
        Some(number) => {
            text.push_str(" ");
            text.push_str(label);
            text.push_str(" ");
            text.push_str(Buffer::new().format(number));
        }
        None => (),
    }
}

/// Adds the kind word of an entry that is no unit, of 5 digits at most; nothing of another reason.
fn push_kind(text: &mut Text, reason: Reason)
    requires { array_string_len text.old + 11 ≤ FAULT_TEXT_MAX }
    ensures bytes { text.new.bytes
        ≡ text.old.bytes ++ part_text (codes "kind") (kind_of_spec reason) }
    ensures most { array_string_len text.new ≤ array_string_len text.old + 11 }
{
    match reason.kind() {
        Some(kind) => {
            text.push_str(" kind ");
            text.push_str(Buffer::new().format(kind));
        }
        None => (),
    }
}

/// The text of a fault as far as its file, which has 66 bytes at most.
fn front(fault: Fault) -> Text
    ensures bytes { result.bytes ≡ codes "refused " ++ (decimal (number_of fault.reason)
        ++ (codes " " ++ (name_of fault.reason ++ (part_text (codes "kind")
        (kind_of_spec fault.reason) ++ (codes " file " ++ decimal fault.file))))) }
    ensures most { array_string_len result ≤ 66 }
{
    let mut text = Text::new();
    text.push_str("refused ");
    text.push_str(Buffer::new().format(fault.reason.number()));
    text.push_str(" ");
    text.push_str(name(fault.reason));
    push_kind(&mut text, fault.reason);
    text.push_str(" file ");
    text.push_str(Buffer::new().format(fault.file));
    text
}

/// The text of a fault, with a closing 0.
fn text_of(fault: Fault) -> Text
    ensures { result.bytes ≡ closed_text fault }
{
    let mut text = front(fault);
    push_part(&mut text, "slot", fault.slot.map(usize::from));
    push_part(&mut text, "record", fault.rec);
    push_part(&mut text, "reference", fault.reference);
    text.push_str("\0");
    text
}

/// Puts the text of a fault in the room where it fits, with a closing 0, and writes nothing where it
/// does not. Returns how many bytes it has, the closing 0 counted, at most `FAULT_TEXT_MAX`.
pub fn put_fault(fault: Fault, room: &mut [u8]) -> usize
    ensures size { result ≡ length (closed_text fault) }
    ensures most { result ≤ FAULT_TEXT_MAX }
    ensures text { result ≤ length room.old
        → RoomBeginsWith (closed_text fault) room.old room.new }
    ensures short { length room.old < result → room.new ≡ room.old }
{
    let text = text_of(fault);
    // Nothing is put where the text does not fit.
    let _ = put(text.as_bytes(), room);
    text.len()
}
