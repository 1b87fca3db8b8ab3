ghost use Rattle.std.specs.Prelude.{◌≡◌, Some};
ghost use Rattle.ps_words.specs.FaultPlaces.{in_file as in_file_spec, in_record as in_record_spec, in_reference as in_reference_spec, in_slot as in_slot_spec, read_record as read_record_spec};
ghost use Rattle.ps_words.specs.FaultText.{fault_text, kind_of, name_of, number_of, part_text, reason_of};

use std::fmt;

/// Why files are refused: each reason has a number, 1 to 35, and a name, that of its variant.
///
/// The reason's text is its name.
#[derive(Clone, Copy, Debug, PartialEq, Eq)]
pub enum Reason {
    /// 1: the file has fewer than 512 bytes, so it has no whole segment dictionary.
    ShortFile,
    /// 2: the kind words of the segment dictionary fit neither byte order.
    NoOrder,
    /// 3: a library's byte order is not the host's.
    OrderMismatch,
    /// 4: the host file has no segment of kind HOSTSEG, the program's own.
    NoHost,
    /// 5: the host file has a second segment of kind HOSTSEG.
    TwoHosts,
    /// 6: a unit has the name of an earlier unit of the host file.
    DoubledSegment,
    /// 7: a segment of the host file is a segment procedure, kind SEGPROC.
    SegmentProcedure,
    /// 8: a segment of the host file is a separate segment, kind SEPRTSEG.
    NativeSegment,
    /// 9: a segment of the host file is an intrinsic unit or a data segment, kinds 5 to 7.
    Intrinsic,
    /// 10: a segment of the host file has a kind above 7.
    UnknownKind,
    /// 11: the code has more than 32767 bytes, or that of a segment to be linked fewer than 4 or an
    /// odd number.
    BadLength,
    /// 12: the code's address is block 0, where the segment dictionary is.
    BadAddress,
    /// 13: no library has an entry, with code, of the name of a unit that a slot of the host wants
    /// or a UNITREF record requests, or the record's name is no name.
    MissingUnit,
    /// 14: the library's entry of a wanted unit's name is no unit.
    NotAUnit {
        /// The entry's kind word, any but 3.
        kind: u16,
    },
    /// 15: the library has more than one entry, with code, of a wanted unit's name.
    DoubledUnit,
    /// 16: the code is not whole in the file.
    Truncated,
    /// 17: the procedure dictionary or an attribute table does not lie inside the code, or the
    /// host segment has no body for procedure 1.
    BadProcDict,
    /// 18: the attribute table of a procedure says that it is native code.
    NativeProcedure,
    /// 19: the link information ends before its EOFMARK record, or within a record.
    RecordsTruncated,
    /// 20: a link record's type is above 14.
    UnknownRecord,
    /// 21: a link record is of a type or a format that native code alone has.
    NativeRecord,
    /// 22: a link record is of a separate procedure or function.
    SeparateRecord,
    /// 23: a reference record's format is not that of its type.
    BadFormat,
    /// 24: a definition has the name of an earlier one.
    DoubledDefinition,
    /// 25: a private variable has the name of an earlier one of its segment.
    DoubledPrivate,
    /// 26: the next free base offset after a private variable is above 32767.
    NoRoom,
    /// 27: the host segment's data size, grown by the private words, is above 65535 bytes.
    DataTooLarge,
    /// 28: a public reference's name has no definition.
    MissingDefinition,
    /// 29: a public reference's definition is a constant.
    IllKind,
    /// 30: no longer returned: a unit that no slot of the host has is looked up in the libraries.
    MissingUnitRef,
    /// 31: an operand does not lie inside the code.
    OutsideCode,
    /// 32: an operand lies in the procedure dictionary or in an attribute table.
    ReservedPlace,
    /// 33: an operand shares a byte with that of an earlier reference of its segment.
    Overlap,
    /// 34: an operand's displacement plus the value is above 32767.
    OperandTooLarge,
    /// 35: no empty slot from 7 to 15 is left for a unit that a UNITREF record requests.
    NoSlot,
}

impl Reason {
    /// The reason's number, 1 to 35.
    pub fn number(self) -> u8
        ensures { result ≡ number_of self }
    {
        match self {
            Reason::ShortFile => 1,
            Reason::NoOrder => 2,
            Reason::OrderMismatch => 3,
            Reason::NoHost => 4,
            Reason::TwoHosts => 5,
            Reason::DoubledSegment => 6,
            Reason::SegmentProcedure => 7,
            Reason::NativeSegment => 8,
            Reason::Intrinsic => 9,
            Reason::UnknownKind => 10,
            Reason::BadLength => 11,
            Reason::BadAddress => 12,
            Reason::MissingUnit => 13,
            Reason::NotAUnit { .. } => 14,
            Reason::DoubledUnit => 15,
            Reason::Truncated => 16,
            Reason::BadProcDict => 17,
            Reason::NativeProcedure => 18,
            Reason::RecordsTruncated => 19,
            Reason::UnknownRecord => 20,
            Reason::NativeRecord => 21,
            Reason::SeparateRecord => 22,
            Reason::BadFormat => 23,
            Reason::DoubledDefinition => 24,
            Reason::DoubledPrivate => 25,
            Reason::NoRoom => 26,
            Reason::DataTooLarge => 27,
            Reason::MissingDefinition => 28,
            Reason::IllKind => 29,
            Reason::MissingUnitRef => 30,
            Reason::OutsideCode => 31,
            Reason::ReservedPlace => 32,
            Reason::Overlap => 33,
            Reason::OperandTooLarge => 34,
            Reason::NoSlot => 35,
        }
    }

    /// The reason's name, which is that of its variant.
    pub fn name(self) -> &'static str
        ensures { result.now ≡ name_of self }
    {
        match self {
            Reason::ShortFile => "ShortFile",
            Reason::NoOrder => "NoOrder",
            Reason::OrderMismatch => "OrderMismatch",
            Reason::NoHost => "NoHost",
            Reason::TwoHosts => "TwoHosts",
            Reason::DoubledSegment => "DoubledSegment",
            Reason::SegmentProcedure => "SegmentProcedure",
            Reason::NativeSegment => "NativeSegment",
            Reason::Intrinsic => "Intrinsic",
            Reason::UnknownKind => "UnknownKind",
            Reason::BadLength => "BadLength",
            Reason::BadAddress => "BadAddress",
            Reason::MissingUnit => "MissingUnit",
            Reason::NotAUnit { .. } => "NotAUnit",
            Reason::DoubledUnit => "DoubledUnit",
            Reason::Truncated => "Truncated",
            Reason::BadProcDict => "BadProcDict",
            Reason::NativeProcedure => "NativeProcedure",
            Reason::RecordsTruncated => "RecordsTruncated",
            Reason::UnknownRecord => "UnknownRecord",
            Reason::NativeRecord => "NativeRecord",
            Reason::SeparateRecord => "SeparateRecord",
            Reason::BadFormat => "BadFormat",
            Reason::DoubledDefinition => "DoubledDefinition",
            Reason::DoubledPrivate => "DoubledPrivate",
            Reason::NoRoom => "NoRoom",
            Reason::DataTooLarge => "DataTooLarge",
            Reason::MissingDefinition => "MissingDefinition",
            Reason::IllKind => "IllKind",
            Reason::MissingUnitRef => "MissingUnitRef",
            Reason::OutsideCode => "OutsideCode",
            Reason::ReservedPlace => "ReservedPlace",
            Reason::Overlap => "Overlap",
            Reason::OperandTooLarge => "OperandTooLarge",
            Reason::NoSlot => "NoSlot",
        }
    }
}

impl Reason {
    /// The reason that has this number: the inverse of [`number`](Reason::number). `NotAUnit` has
    /// this kind word, which is that of an entry, and any other reason has none.
    ///
    /// `None` where no reason has the number.
    pub fn from_number(number: u8, kind: u16) -> Option<Reason>
        ensures { result ≡ reason_of number kind }
    {
        [
            Reason::ShortFile,
            Reason::NoOrder,
            Reason::OrderMismatch,
            Reason::NoHost,
            Reason::TwoHosts,
            Reason::DoubledSegment,
            Reason::SegmentProcedure,
            Reason::NativeSegment,
            Reason::Intrinsic,
            Reason::UnknownKind,
            Reason::BadLength,
            Reason::BadAddress,
            Reason::MissingUnit,
            Reason::NotAUnit { kind },
            Reason::DoubledUnit,
            Reason::Truncated,
            Reason::BadProcDict,
            Reason::NativeProcedure,
            Reason::RecordsTruncated,
            Reason::UnknownRecord,
            Reason::NativeRecord,
            Reason::SeparateRecord,
            Reason::BadFormat,
            Reason::DoubledDefinition,
            Reason::DoubledPrivate,
            Reason::NoRoom,
            Reason::DataTooLarge,
            Reason::MissingDefinition,
            Reason::IllKind,
            Reason::MissingUnitRef,
            Reason::OutsideCode,
            Reason::ReservedPlace,
            Reason::Overlap,
            Reason::OperandTooLarge,
            Reason::NoSlot,
        ]
        .iter()
        .copied()
        .find(|reason| reason.number() == number)
    }

    /// The kind word that the reason carries: that of an entry that is no unit, any but 3. `None`
    /// of every reason but `NotAUnit`.
    pub fn kind(self) -> Option<u16>
        ensures { result ≡ kind_of self }
    {
        match self {
            Reason::NotAUnit { kind } => Some(kind),
            _ => None,
        }
    }
}

impl fmt::Display for Reason {
    ghost output = { λ reason. Some (name_of reason) };

    fn fmt<W: fmt::Write>(&self, f: &mut fmt::Formatter<W>) -> fmt::Result {
        f.write_str(self.name())
    }
}

/// A reason for which files are refused, and where it occurs.
///
/// The text of a fault is `refused N NAME`, then ` kind K` for an entry that is no unit, then
/// ` file F`, and then ` slot S`, ` record R` and ` reference I`, each where the fault has it. All
/// numbers are plain decimal.
#[derive(Clone, Copy, Debug, PartialEq, Eq)]
pub struct Fault {
    /// Why the files are refused.
    pub reason: Reason,
    /// The file at fault: 0 is the host file, k the k-th library, from 1.
    pub file: usize,
    /// The slot of the host's segment dictionary, 0 to 15, where the reason is of a segment.
    pub slot: Option<u8>,
    /// The index, from 0, of the record in its segment's link information, where the reason is
    /// of a record.
    pub rec: Option<usize>,
    /// The index, from 0, of the reference in its record, where the reason is of a reference.
    pub reference: Option<usize>,
}

impl Fault {
    /// A fault of a file as a whole: 0 is the host file, k the k-th library, from 1.
    pub fn in_file(file: usize, reason: Reason) -> Fault
        ensures { result ≡ in_file_spec file reason }
    {
        Fault {
            reason,
            file,
            slot: None,
            rec: None,
            reference: None,
        }
    }

    /// A fault of a segment of the file, by its slot in the host's segment dictionary, 0 to 15.
    pub fn in_slot(file: usize, slot: u8, reason: Reason) -> Fault
        ensures { result ≡ in_slot_spec file slot reason }
    {
        Fault {
            slot: Some(slot),
            ..Fault::in_file(file, reason)
        }
    }

    /// A fault of the record of this index, from 0, in the link information of the slot's segment.
    pub fn in_record(file: usize, slot: u8, rec: usize, reason: Reason) -> Fault
        ensures { result ≡ in_record_spec file slot rec reason }
    {
        Fault {
            rec: Some(rec),
            ..Fault::in_slot(file, slot, reason)
        }
    }

    /// A fault of the reference of this index, from 0, of a record.
    pub fn in_reference(
        file: usize,
        slot: u8,
        rec: usize,
        reference: usize,
        reason: Reason,
    ) -> Fault
        ensures { result ≡ in_reference_spec file slot rec reference reason }
    {
        Fault {
            reference: Some(reference),
            ..Fault::in_record(file, slot, rec, reason)
        }
    }

    /// The index, from 0, of the fault's record, where that record could be read.
    ///
    /// `None` of a fault that has no record, and of those that say why a record cannot be read.
    pub fn read_record(self) -> Option<usize>
        ensures { result ≡ read_record_spec self }
    {
        match self.reason {
            Reason::RecordsTruncated
            | Reason::UnknownRecord
            | Reason::NativeRecord
            | Reason::SeparateRecord
            | Reason::BadFormat => None,
            _ => self.rec,
        }
    }
}

impl fmt::Display for Fault {
    ghost output = { λ fault. Some (fault_text fault) };

    fn fmt<W: fmt::Write>(&self, f: &mut fmt::Formatter<W>) -> fmt::Result {
        let Fault { reason, file, .. } = *self;
        let number = reason.number();
        let kind = Labelled::new("kind", reason.kind().map(usize::from));
        let slot = Labelled::new("slot", self.slot.map(usize::from));
        let rec = Labelled::new("record", self.rec);
        let reference = Labelled::new("reference", self.reference);
        write!(
            f,
            "refused {number} {reason}{kind} file {file}{slot}{rec}{reference}"
        )
    }
}

/// A part of a fault's text: a label and a number, or nothing where there is no number.
#[derive(Clone, Copy)]
struct Labelled {
    label: &'static str,
    number: Option<usize>,
}

impl Labelled {
    fn new(label: &'static str, number: Option<usize>) -> Self
        ensures label { result.label.now ≡ label.now }
        ensures number { result.number ≡ number }
    {
        Labelled { label, number }
    }
}

impl fmt::Display for Labelled {
    ghost output = { λ part. Some (part_text part.label.now part.number) };

    fn fmt<W: fmt::Write>(&self, f: &mut fmt::Formatter<W>) -> fmt::Result {
        match self.number {
            Some(number) => {
                let label = self.label;
                write!(f, " {label} {number}")
            }
            None => Ok(()),
        }
    }
}
