//! Texts that are not ASCII throughout, in a line.
ghost use Rattle.ps_writing.specs.Adding.{Adds};
ghost use Rattle.ps_listing.specs.ListText.{question_marked_path, shown_char};

use ps_filetype::is_hidden;
use ps_writing::TextWriter;

/// Adds a character of a path: a question mark for a hidden one, as one that could end the line.
fn add_char<S: TextWriter>(text: &mut S, c: char)
    ensures { Adds S.added text.old (shown_char c) text.new }
{
    if is_hidden(c) {
        text.add(b"?");
    } else {
        let mut room = [0u8; 4];
        text.add(c.encode_utf8(&mut room).as_bytes());
    }
}

/// Adds a path in a line.
pub(crate) fn add_path<S: TextWriter>(text: &mut S, path: &str)
    ensures { Adds S.added text.old (question_marked_path path.now) text.new }
{
    for c in path.chars() {
        add_char(text, c);
    }
}
