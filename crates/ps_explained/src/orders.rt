//! What a file says of its byte order.
ghost use Rattle.std.specs.Prelude.{Some};
ghost use Rattle.ps_explained.specs.FileLines.{IsByteOrder, order_words};

use ps_codefile::Dict;
use ps_filetype::FileType;
use ps_words::Order;
use std::fmt::{self, Display, Formatter};

/// What a file says of its byte order, or what it is where it cannot be opened. Its text is a phrase,
/// as `little-endian`.
#[derive(Clone, Copy)]
pub enum ByteOrder {
    Known(Order),
    /// All kinds of the code file are 0.
    NoKind,
    /// The file cannot be opened and is no code file, but this.
    NotOpened(FileType),
}

impl ByteOrder {
    /// The byte order of a whole file.
    pub fn of(file: &[u8]) -> ByteOrder
        ensures { IsByteOrder file.now result }
    {
        match Dict::read(file) {
            Ok(dict) => ByteOrder::Known(dict.order()),
            Err(_) => {
                let file_type = FileType::of(file);
                if file_type.is_code() {
                    ByteOrder::NoKind
                } else {
                    ByteOrder::NotOpened(file_type)
                }
            }
        }
    }
}

impl fmt::Display for ByteOrder {
    ghost output = { λ order. Some (order_words order) };

    fn fmt<W: fmt::Write>(&self, f: &mut Formatter<W>) -> fmt::Result {
        match *self {
            ByteOrder::Known(Order::Little) => f.write_str("little-endian"),
            ByteOrder::Known(Order::Big) => f.write_str("big-endian"),
            ByteOrder::NoKind => f.write_str("no byte order, since no segment has a kind"),
            ByteOrder::NotOpened(file_type) => file_type.fmt(f),
        }
    }
}
