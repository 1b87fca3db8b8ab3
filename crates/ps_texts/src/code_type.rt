//! What a file is for, with its byte order, in a line that a program compares.
ghost use Rattle.std.specs.Prelude.{◌≡◌};
ghost use Rattle.ps_writing.specs.Adding.{Adds};
ghost use Rattle.ps_texts.specs.CodeTypes.{code_type, order_word as order_word_spec, type_line};

use ps_codefile::open;
use ps_filetype::{CodeFile, is_code_type};
use ps_words::Order;
use ps_writing::TextWriter;

/// What a code file is for, and its byte order.
#[derive(Clone, Copy)]
pub struct CodeType {
    pub purpose: CodeFile,
    /// The order of its kind words, and where these are all 0 that in which it has a code.
    pub order: Order,
}

/// What a file is for, and its byte order; none where it is no code file as it ought to be. A function
/// by itself, so that the other texts of a host do not clear its locals.
#[inline(never)]
pub(crate) fn code_type_of(file: &[u8]) -> Option<CodeType>
    ensures { result ≡ code_type file.now }
{
    if !is_code_type(file) {
        return None;
    }
    let Ok(dict) = open(file) else {
        return None;
    };
    let purpose = CodeFile::of(&dict)?;
    Some(CodeType {
        purpose,
        order: dict.order(),
    })
}

/// The word for a byte order: `little` or `big`.
fn order_word(order: Order) -> &'static str
    ensures { result.now ≡ order_word_spec order }
{
    match order {
        Order::Little => "little",
        Order::Big => "big",
    }
}

/// Adds the line of a file of this type, as `library little`; `other` for one that is no code file as it
/// ought to be.
pub(crate) fn add_type_line<S: TextWriter>(text: &mut S, found: Option<CodeType>)
    ensures { Adds S.added text.old (type_line found) text.new }
{
    match found {
        None => text.add(b"other\n"),
        Some(code_type) => {
            text.add(code_type.purpose.word().as_bytes());
            text.add(b" ");
            text.add(order_word(code_type.order).as_bytes());
            text.add(b"\n");
        }
    }
}
