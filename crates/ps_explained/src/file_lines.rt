//! The lines of files.
ghost use Rattle.std.specs.Prelude.{◌≡◌, ◌∷◌, ◌++◌, [], IfOk, OnOk, Some, length, string_bytes};
ghost use Rattle.ps_resolve.specs.Sources.{contents};
ghost use Rattle.ps_explained.specs.FileLines.{AreFileLines, IsByteOrder, file_words, uneven_words};
ghost use Rattle.ps_explained.specs.SlotLines.{AddsSlotLines};
ghost use Rattle.ps_explained.specs.declared.orders.ByteOrder.{ByteOrder as Order};

use crate::orders::ByteOrder;
use ps_check_segments::NamedFiles;
use ps_filetype::ShownPath;
use ps_words::BLOCK_SIZE;
use std::alloc::{AllocError, Allocator};
use std::fmt::{self, Formatter, Write as _};

/// The words for a length that is no multiple of a block; none for another.
fn uneven(size: usize) -> &'static str
    ensures { result.now ≡ uneven_words size }
{
    if size % BLOCK_SIZE == 0 {
        ""
    } else {
        "no multiple of 512, "
    }
}

/// The line of a file.
#[derive(Clone, Copy)]
struct FileLine<'p> {
    number: usize,
    path: &'p str,
    size: usize,
    order: ByteOrder,
}

impl fmt::Display for FileLine<'_> {
    ghost output = { λ line. Some (file_words line.number line.path.now line.size line.order) };

    fn fmt<W: fmt::Write>(&self, f: &mut Formatter<W>) -> fmt::Result {
        let number = self.number;
        let path = ShownPath(self.path);
        let (size, order) = (self.size, self.order);
        let uneven = uneven(size);
        write!(f, "file {number} {path}: {size} bytes, {uneven}{order}")
    }
}

/// Adds a line.
fn push_line<A: Allocator>(text: &mut String<A>, line: FileLine<'_>) -> Result<(), AllocError>
    ensures { OnOk result (string_bytes text.new ≡ string_bytes text.old
        ++ (file_words line.entry.number line.entry.path.now line.entry.size line.entry.order
        ++ 10 ∷ [])) }
{
    writeln!(text, "{line}")
}

/// Adds the line of the file of this number.
fn add_file<A: Allocator>(
    text: &mut String<A>,
    number: usize,
    path: &str,
    file: &[u8],
) -> Result<(), AllocError>
    ensures line { OnOk result ((order : Order) × IsByteOrder file.now order
        × (string_bytes text.new ≡ string_bytes text.old
        ++ (file_words number path.now (length file.now) order ++ 10 ∷ []))) }
    ensures silent { OnOk result (AddsSlotLines (string_bytes text.old) []
        (string_bytes text.new)) }
{
    let size = file.len();
    let order = ByteOrder::of(file);
    push_line(
        text,
        FileLine {
            number,
            path,
            size,
            order,
        },
    )
}

/// The line of each file: its number, its path, its length, and its byte order.
pub(crate) fn file_lines<A: Allocator>(
    alloc: A,
    inputs: &NamedFiles<'_>,
) -> Result<String<A>, AllocError>
    ensures lines { IfOk result (λ lines. AreFileLines
        (inputs.now.host_path.now ∷ contents inputs.now.paths.now) 0
        (inputs.now.host.now ∷ contents inputs.now.libs.now) (string_bytes lines)) }
    ensures silent { IfOk result (λ lines. AddsSlotLines [] [] (string_bytes lines)) }
{
    let mut text = String::new(alloc);
    add_file(&mut text, 0, inputs.path(0), inputs.host)?;
    for index in 0..inputs.libs.len() {
        let path = inputs.path(index + 1);
        add_file(&mut text, index + 1, path, inputs.libs[index])?;
    }
    Ok(text)
}
