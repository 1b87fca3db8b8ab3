ghost use Rattle.std.specs.Prelude.{◌≡◌, ◌<◌, ◌≤◌, ◌+◌, ◌*◌, ◌==◌, length, slice_index};
ghost use Rattle.std.specs.List.{list_all};
ghost use Rattle.ps_codefile.specs.Dictionary.{slots, OpenedFile, opened_alone, opened_beside, entry_at, name_at, names_of, tail_of, role_of, is_filled, code_of, information_of, IsViewOf};

use crate::dictionary_layout::{KINDS, NAMES, PAIR, SLOT_COUNT, SLOTS, TAIL, TEXTS};
use crate::entry::{Entry, Role};
use ps_words::{BLOCK_SIZE, NAME_LEN, Name, Order, Reason, WORD_LEN, blocks_of, get};
use std::marker::Model;

/// A code file seen through its segment dictionary, the sixteen slots in block 0.
///
/// A view: it borrows the file and copies none of it. The layout is that of the
/// UCSD Pascal II.0 manual; how the byte order and the roles are found is this
/// project's profile.
#[derive(Drop)]
pub struct Dict<'a> {
    order: Order,
    file: &'a [u8],
}

impl<'a> Model for Dict<'a> {
    ghost use Rattle.std.specs.Prelude.{◌≤◌, length};
    ghost use Rattle.ps_codefile.specs.Dictionary.{OpenedFile};

    ghost Value = { OpenedFile };

    ghost view = { λ d. record { order = d.order; file = d.file.now } };

    ghost invariant = { λ d. 512 ≤ length d.file.now };
}

#[inline(always)]
fn name_of(file: &[u8], slot: usize) -> Name
    requires in_range { slot < SLOTS }
    requires whole { 512 ≤ length file.now }
    ensures { result ≡ name_at file.now slot }
{
    let at = NAMES + NAME_LEN * slot;
    [
        file[at],
        file[at + 1],
        file[at + 2],
        file[at + 3],
        file[at + 4],
        file[at + 5],
        file[at + 6],
        file[at + 7],
    ]
}

/// Each byte of the kind words that lies an even number of bytes past `first` is 0.
fn is_zero_from(file: &[u8], first: usize) -> bool
    requires { first + 31 ≤ length file.now }
    ensures { result ≡ list_all (λ i. slice_index file.now (first + 2 * i) == 0) slots }
{
    (0..SLOT_COUNT).all(|i| file[first + WORD_LEN * i] == 0)
}

impl<'a> Dict<'a> {
    /// Reads a host file, or any other by itself, in the byte order that its kind words show.
    ///
    /// Refuses `ShortFile` under 512 bytes, `NoOrder` where the kind words show both
    /// orders, and `NoHost` where all of them are 0, so that no slot has a host segment.
    pub fn read(file: &'a [u8]) -> Result<Dict<'a>, Reason>
        ensures { result ≡ opened_alone file.now }
    {
        if file.len() < BLOCK_SIZE {
            return Err(Reason::ShortFile);
        }
        match (is_zero_from(file, KINDS), is_zero_from(file, KINDS + 1)) {
            (true, true) => Err(Reason::NoHost),
            (true, false) => Ok(Dict {
                order: Order::Big,
                file,
            }),
            (false, true) => Ok(Dict {
                order: Order::Little,
                file,
            }),
            (false, false) => Err(Reason::NoOrder),
        }
    }

    /// Reads a library in the byte order of its host.
    ///
    /// Refuses `ShortFile` under 512 bytes, `NoOrder` where the kind words show both
    /// orders, and `OrderMismatch` where they show the order that is not the host's.
    /// A file whose kind words are all 0 takes the host's order.
    pub fn read_beside(file: &'a [u8], host: Order) -> Result<Dict<'a>, Reason>
        ensures { result ≡ opened_beside host file.now }
    {
        if file.len() < BLOCK_SIZE {
            return Err(Reason::ShortFile);
        }
        match (
            is_zero_from(file, KINDS),
            is_zero_from(file, KINDS + 1),
            host,
        ) {
            (false, false, _) => Err(Reason::NoOrder),
            (true, false, Order::Little) | (false, true, Order::Big) => Err(Reason::OrderMismatch),
            _ => Ok(Dict { order: host, file }),
        }
    }

    /// A copy, which borrows the same file.
    pub fn copy(&self) -> Dict<'a>
        ensures { result ≡ self.now }
    {
        Dict {
            order: self.order,
            file: self.file,
        }
    }

    /// The byte order in which the file's words are read.
    /// Source: UCSD Pascal II.0 manual, code file format.
    pub fn order(&self) -> Order
        ensures { result ≡ self.now.order }
    {
        self.order
    }

    /// What the dictionary says of a slot. It stands in the body of its caller, so that only what is
    /// looked at is read.
    /// Source: UCSD Pascal II.0 manual, code file format.
    #[inline(always)]
    pub fn entry(&self, slot: u8) -> Entry
        requires { slot < SLOTS }
        ensures { result ≡ entry_at self.now.order self.now.file slot }
    {
        let i = slot as usize;
        Entry {
            address: get(self.order, self.file, PAIR * i),
            length: get(self.order, self.file, PAIR * i + WORD_LEN),
            name: name_of(self.file, i),
            kind: get(self.order, self.file, KINDS + WORD_LEN * i),
            text: get(self.order, self.file, TEXTS + WORD_LEN * i),
        }
    }

    /// The names of all slots, eight bytes each.
    /// Source: UCSD Pascal II.0 manual, code file format.
    pub fn names(&self) -> [Name; SLOT_COUNT]
        ensures { result ≡ names_of self.now.file }
    {
        let mut names = [[0; NAME_LEN]; SLOT_COUNT];
        for i in 0..SLOT_COUNT {
            names[i] = name_of(self.file, i);
        }
        names
    }

    /// Bytes 256 to 511, which a linked file takes unread from its host.
    pub fn tail(&self) -> &'a [u8]
        ensures { result.now ≡ tail_of self.now.file }
    {
        &self.file[TAIL..BLOCK_SIZE]
    }

    /// What a slot of a host is for.
    ///
    /// A slot of kind 3 (UNITSEG) with address 0 or length 0 is `Wanted` if it has a name,
    /// and `Empty` if it has none, which is eight blanks or eight zero bytes. Any other slot
    /// of length 0 is `Empty`. The rest are filled, and their kind decides: 0 `Plain`,
    /// 1 `Host`, 3 `Unit`. Refuses `SegmentProcedure` for kind 2, `NativeSegment` for 4,
    /// `Intrinsic` for 5 to 7 and `UnknownKind` above.
    #[inline(always)]
    pub fn role(&self, slot: u8) -> Result<Role, Reason>
        requires { slot < SLOTS }
        ensures { result ≡ role_of (entry_at self.now.order self.now.file slot) }
    {
        self.entry(slot).role()
    }

    /// The slot is neither wanted nor empty, whatever its kind: its length is not 0, nor its
    /// address where its kind is 3. Whether its code can be read is another question, which
    /// `code` answers.
    #[inline(always)]
    pub fn filled(&self, slot: u8) -> bool
        requires { slot < SLOTS }
        ensures { result ≡ is_filled (entry_at self.now.order self.now.file slot) }
    {
        self.entry(slot).is_filled()
    }

    /// The code of a filled slot.
    ///
    /// Refuses, in this order, `BadLength` over `MAX_CODE_LEN` bytes, or for kinds 1 and 3 where
    /// the length is odd or under 4; `BadAddress` at address 0; `Truncated` where the file ends
    /// before the code does.
    /// Source: UCSD Pascal II.0 manual, code file format.
    pub fn code(&self, slot: u8) -> Result<&'a [u8], Reason>
        requires { slot < SLOTS }
        ensures { IsViewOf (λ code. code.now) result
            (code_of self.now.file (entry_at self.now.order self.now.file slot)) }
    {
        let entry = self.entry(slot);
        if entry.has_bad_length() {
            return Err(Reason::BadLength);
        }
        if entry.address == 0 {
            return Err(Reason::BadAddress);
        }
        let start = BLOCK_SIZE * entry.address as usize;
        let end = start + entry.length as usize;
        if self.file.len() < end {
            return Err(Reason::Truncated);
        }
        Ok(&self.file[start..end])
    }

    /// The file from the block after a slot's code, where the link information of a segment
    /// that is to be linked begins; empty if that block is past the end of the file.
    /// Source: UCSD Pascal II.0 manual, code file format.
    pub fn after(&self, slot: u8) -> &'a [u8]
        requires { slot < SLOTS }
        ensures { result.now ≡ information_of self.now.file
            (entry_at self.now.order self.now.file slot) }
    {
        let entry = self.entry(slot);
        let start = BLOCK_SIZE * (entry.address as usize + blocks_of(entry.length as usize));
        self.file.get(start..).unwrap_or(&[])
    }
}
