//! What each fault is, and what to do about it: the one home of these sentences. In a remedy
//! `the file` is the file at fault: a report has its path there. `man/make_fault_table.py` makes the
//! table in LINKING.md from the two tables here.
ghost use Rattle.std.specs.Prelude.{◌≡◌, ◌≤◌, [], get_or, length, map, true};
ghost use Rattle.std.specs.List.{list_all};
ghost use Rattle.ps_explained.specs.Sentences.{is_printed, remedy_of as remedy_of_spec, meaning_of as meaning_of_spec};

/// The rows of a table: none for the number 0, and one for each fault.
const ROWS: usize = 1 + 35;

/// How many bytes a sentence has at most.
pub const SENTENCE_LEN: usize = 200;

/// What is wrong, by the number of the fault.
const MEANINGS: [&str; ROWS] = [
    // 0
    "",
    // 1 ShortFile
    "The file has less than the 512 bytes of a segment dictionary.",
    // 2 NoOrder
    "The segment kinds are neither little-endian nor big-endian.",
    // 3 OrderMismatch
    "The library's byte order is not the host's.",
    // 4 NoHost
    "No segment of the file is a host program.",
    // 5 TwoHosts
    "A second segment is a host program.",
    // 6 DoubledSegment
    "A second slot has or wants a unit of this name.",
    // 7 SegmentProcedure
    "The slot has a segment procedure that is still to be linked. Such hosts are not supported.",
    // 8 NativeSegment
    "The slot has a separate segment, of kind 4. Such segments are not supported.",
    // 9 Intrinsic
    "The slot has an intrinsic unit or its data, of another release.",
    // 10 UnknownKind
    "The slot's kind is none of II.0.",
    // 11 BadLength
    "The code is longer than 32767 bytes, or that of the host program or of a unit has an odd length or one under 4.",
    // 12 BadAddress
    "The code would be in block 0, where the segment dictionary is.",
    // 13 MissingUnit
    "No library has the unit that the slot wants or, if a record is reported, that the UNITREF in this record requests.",
    // 14 NotAUnit
    "The first library that has a segment of the name has no unit there: the segment is of the kind that is reported.",
    // 15 DoubledUnit
    "The library has two segments of the name.",
    // 16 Truncated
    "The file ends before the code does.",
    // 17 BadProcDict
    "The procedure dictionary or a procedure's table is outside the code, or the host program has no outer block.",
    // 18 NativeProcedure
    "A procedure of the segment is native code, which is not supported.",
    // 19 RecordsTruncated
    "The file ends before the link information does.",
    // 20 UnknownRecord
    "The link record's type is none of II.0.",
    // 21 NativeRecord
    "The link record belongs to native code, which is not supported.",
    // 22 SeparateRecord
    "The link record belongs to a separate procedure, which is not supported.",
    // 23 BadFormat
    "The operands of the reference record have a format that its type cannot have.",
    // 24 DoubledDefinition
    "The host program defines the name twice.",
    // 25 DoubledPrivate
    "The segment has the private variable twice.",
    // 26 NoRoom
    "The private variables end past word 32767 of the host program's data.",
    // 27 DataTooLarge
    "The host program's data would exceed 65535 bytes.",
    // 28 MissingDefinition
    "The host program defines no such name.",
    // 29 IllKind
    "The segment uses the name as a variable, and the host program defines a constant.",
    // 30 MissingUnitRef
    "No longer used.",
    // 31 OutsideCode
    "The reference is past the end of the segment's code.",
    // 32 ReservedPlace
    "The reference is in a procedure's table or in the procedure dictionary.",
    // 33 Overlap
    "The reference shares a byte with an earlier one.",
    // 34 OperandTooLarge
    "The operand's displacement plus the value exceeds 32767.",
    // 35 NoSlot
    "The host has no empty slot from 7 to 15 left for the unit that the UNITREF in this record requests.",
];

/// What to do about it, by the number of the fault.
const REMEDIES: [&str; ROWS] = [
    // 0
    "",
    // 1 ShortFile
    "The file is truncated, or no code file. Copy it again, as binary, or give the code file.",
    // 2 NoOrder
    "The file is damaged, or no code file: see DAMAGED FILES in pslink(1). Give the code file, or compile it again.",
    // 3 OrderMismatch
    "Compile the file for the machine of the host. If it was, the bytes of one of the two files are swapped: see DAMAGED FILES in pslink(1).",
    // 4 NoHost
    "The file may be a library, or linked already. Give the compiled program as the host. If it is one, see DAMAGED FILES in pslink(1).",
    // 5 TwoHosts
    "Keep one of them in the file.",
    // 6 DoubledSegment
    "Keep one of them in the file.",
    // 7 SegmentProcedure
    "Make it a procedure of the program or of a unit, and compile the file again.",
    // 8 NativeSegment
    "Put what it does into a Pascal unit, and compile the file again.",
    // 9 Intrinsic
    "Compile it as a unit of II.0, and then the file again.",
    // 10 UnknownKind
    "The dictionary of the file is damaged, or of another release. Copy the file again, or compile the program again.",
    // 11 BadLength
    "Split a unit that is too long. Otherwise the dictionary of the file is damaged: copy the file again, or compile it again.",
    // 12 BadAddress
    "The dictionary of the file is damaged. Copy the file again, or compile it again.",
    // 13 MissingUnit
    "Give the library that has it. If you gave it, see DAMAGED FILES in pslink(1).",
    // 14 NotAUnit
    "Give the unit's library before the file, or remove that segment from the file. Kind 0 is a linked file: leave it out.",
    // 15 DoubledUnit
    "Remove one of the two from the file.",
    // 16 Truncated
    "Copy the file again, as binary.",
    // 17 BadProcDict
    "The code is damaged, as by a conversion of line ends or a lost block: see DAMAGED FILES in pslink(1). Copy the file again, or compile it again. If it is whole, its compiler's format may differ.",
    // 18 NativeProcedure
    "Use the procedure as the compiler left it, in P-code. If it is P-code, the bytes of the file are swapped: see DAMAGED FILES in pslink(1).",
    // 19 RecordsTruncated
    "Copy the file again, as binary. If it is whole, it was made without link information: compile it again.",
    // 20 UnknownRecord
    "The link information is damaged, as by a lost, repeated or exchanged block: see DAMAGED FILES in pslink(1). Copy the file again, or compile it again. If it is whole, its compiler's format may differ.",
    // 21 NativeRecord
    "Write the external procedure in Pascal, in a unit, and compile the file again.",
    // 22 SeparateRecord
    "Put the procedure into a unit, and compile the file again.",
    // 23 BadFormat
    "The link information is damaged. Copy the file again, or compile it again. If it is whole, its compiler's format may differ.",
    // 24 DoubledDefinition
    "Rename one of the two, and compile the file again. A name has eight characters.",
    // 25 DoubledPrivate
    "Rename one of the two, and compile the file again. A name has eight characters.",
    // 26 NoRoom
    "Make one of them smaller, and compile the file again.",
    // 27 DataTooLarge
    "Make the variables of the file or of its units smaller, and compile it again.",
    // 28 MissingDefinition
    "Compile the unit in the file and the host program against the same declarations. An older library may come before the one that you meant: see DAMAGED FILES in pslink(1).",
    // 29 IllKind
    "Compile the unit in the file and the host program against the same declarations.",
    // 30 MissingUnitRef
    "A unit for which the host has no slot is looked for in the libraries: see 13 and 35.",
    // 31 OutsideCode
    "The link information does not belong to this code. Copy the file again, or compile it again. If it is whole, its compiler's format may differ.",
    // 32 ReservedPlace
    "The link information does not belong to this code. Copy the file again, or compile it again. If it is whole, its compiler's format may differ.",
    // 33 Overlap
    "The link information does not belong to this code. Copy the file again, or compile it again. If it is whole, its compiler's format may differ.",
    // 34 OperandTooLarge
    "Make the host program's data before this variable smaller, and compile the program and the file again.",
    // 35 NoSlot
    "Join two units into one, or take linked segments out of the host.",
];

/// What a remedy ends with where the object format of a whole file may be that of another compiler.
pub(crate) const OTHER_FORMAT: &str = " If it is whole, its compiler's format may differ.";

/// The row of this number in a table; nothing past its end.
fn row(table: &[&'static str], number: u8) -> &'static str
    ensures { result.now ≡ get_or (map (λ text. text.now) table.now) number [] }
{
    match table.get(usize::from(number)) {
        Some(text) => text,
        None => "",
    }
}

/// What is wrong where files are refused for the fault of this number, in a sentence of ASCII; nothing
/// where there is no such fault.
pub fn meaning_of(number: u8) -> &'static str
    ensures sentence { result.now ≡ meaning_of_spec number }
    ensures short { length result.now ≤ SENTENCE_LEN }
    ensures printed { list_all is_printed result.now ≡ true }
{
    row(&MEANINGS, number)
}

/// What to do about the fault of this number, in sentences of ASCII; nothing where there is no such
/// fault.
pub fn remedy_of(number: u8) -> &'static str
    ensures sentence { result.now ≡ remedy_of_spec number }
    ensures short { length result.now ≤ SENTENCE_LEN }
    ensures printed { list_all is_printed result.now ≡ true }
{
    row(&REMEDIES, number)
}
