//! A code file read by itself.
ghost use Rattle.std.specs.Prelude.{◌≡◌, ◌<◌, ◌≤◌};
ghost use Rattle.std.specs.List.{list_any, range_with_len};
ghost use Rattle.std.specs.Result.{is_ok};
ghost use Rattle.ps_codefile.specs.Dictionary.{code_of, entry_at};
ghost use Rattle.ps_codefile.specs.Opened.{has_code as has_code_spec, has_code_beside, is_whole as is_whole_spec, opened, order_by_codes as order_by_codes_spec};

use crate::dictionary::Dict;
use crate::dictionary_layout::SLOTS;
use crate::entry::is_nameless;
use ps_words::{Order, Reason};

impl Dict<'_> {
    /// The code of a slot is in the file, from its first byte to its last.
    pub fn is_in_file(&self, slot: u8) -> bool
        requires { slot < SLOTS }
        ensures { result ≡ is_ok (code_of self.now.file
            (entry_at self.now.order self.now.file slot)) }
    {
        match self.code(slot) {
            Ok(_) => true,
            Err(_) => false,
        }
    }

    /// The slot is filled, its entry has a name, and its code is in the file.
    pub fn is_whole(&self, slot: u8) -> bool
        requires { slot < SLOTS }
        ensures { result ≡ is_whole_spec self.now.order self.now.file slot }
    {
        self.filled(slot) && !is_nameless(&self.entry(slot).name) && self.is_in_file(slot)
    }

    /// One of the slots below `end` is whole: filled, named, and its code is in the file.
    fn has_code_below(&self, end: u8) -> bool
        requires { end ≤ SLOTS }
        ensures { result ≡ list_any (is_whole_spec self.now.order self.now.file)
            (range_with_len 0 end) }
    {
        (0..end).any(|slot| self.is_whole(slot))
    }

    /// Some slot is filled, with a name, and has its code in the file.
    pub fn has_code(&self) -> bool
        ensures { result ≡ has_code_spec self.now.order self.now.file }
    {
        self.has_code_below(SLOTS)
    }
}

/// An entry with a name has its code in the file, whose words are read in this order.
fn has_code_in(bytes: &[u8], order: Order) -> bool
    ensures { result ≡ has_code_beside order bytes.now }
{
    match Dict::read_beside(bytes, order) {
        Ok(dict) => dict.has_code(),
        Err(_) => false,
    }
}

/// The order in which an entry with a name has its code in the file.
fn order_by_codes(file: &[u8]) -> Order
    ensures { result ≡ order_by_codes_spec file.now }
{
    if !has_code_in(file, Order::Little) && has_code_in(file, Order::Big) {
        Order::Big
    } else {
        Order::Little
    }
}

/// Reads a code file by itself: in the byte order that its kind words show, or, where all of these
/// are 0, in the order in which an entry with a name has its code in the file, which is
/// little-endian if both have one or none has.
///
/// Refuses `ShortFile` under 512 bytes, and `NoOrder` where the kind words show both orders.
#[tactic(auto, unfolding(crate::specs::Opened::opened))]
pub fn open(file: &[u8]) -> Result<Dict<'_>, Reason>
    ensures { result ≡ opened file.now }
{
    match Dict::read(file) {
        Ok(dict) => Ok(dict),
        Err(Reason::NoHost) => Dict::read_beside(file, order_by_codes(file)),
        Err(reason) => Err(reason),
    }
}
