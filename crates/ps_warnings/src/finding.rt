//! What is found in files and is no fault: the one home of these sentences. `man/make_fault_table.py`
//! makes the tables of warnings and of notes in USING.md from the enums here: what each finding means
//! and what to do about it is above it, and its weight is in `weight`.
ghost use Rattle.std.specs.Prelude.{◌≡◌, Some, false};
ghost use Rattle.std.specs.Fmt.{WritesOnOk};
ghost use Rattle.ps_warnings.specs.Places.{place_text, record_words, segment_words};
ghost use Rattle.ps_warnings.specs.FindingTexts.{byte_digits, code_text, dictionary_text, entry_text, file_text, finding_text, link_text, name_text, octal_digits, operand_text, procedure_text, record_text};
ghost use Rattle.ps_warnings.specs.Found.{is_about_link};
ghost use Rattle.ps_warnings.specs.Weights.{is_certain as is_certain_spec, weight_of};

use crate::counting::Counting;
use crate::weight::Weight;
use ps_filetype::{FileType, LineEnds, Oddity, ShownName, ShownPath, ShownSlot};
use ps_words::Name;
use std::fmt::{self, Display, Formatter};

/// A byte in two hexadecimal digits.
#[derive(Clone, Copy)]
struct ByteDigits(u8);

impl fmt::Display for ByteDigits {
    ghost output = { λ byte. Some (byte_digits byte.0) };

    #[tactic(auto, using(std::proofs::lemmas::Fmt::hex_byte))]
    fn fmt<W: fmt::Write>(&self, f: &mut Formatter<W>) -> fmt::Result {
        let byte = self.0;
        write!(f, "{byte:02X}")
    }
}

/// A byte as `printf` of a shell takes it: in three octal digits.
#[derive(Clone, Copy)]
struct OctalByte(u8);

impl fmt::Display for OctalByte {
    ghost output = { λ byte. Some (octal_digits byte.0) };

    #[tactic(auto, unfolding(crate::specs::FindingTexts::octal_digits))]
    fn fmt<W: fmt::Write>(&self, f: &mut Formatter<W>) -> fmt::Result {
        let byte = self.0;
        let (high, middle, low) = (byte / 64, byte / 8 % 8, byte % 8);
        write!(f, "\\{high}{middle}{low}")
    }
}

/// What looks wrong in a file as a whole.
#[derive(Clone, Copy)]
pub enum FileFinding {
    /// A library that is no code file gives no unit. Give the code file.
    NoCodeFile { file_type: FileType },
    /// A transfer padded the file. The link does not read these bytes.
    Padded { bytes: usize },
    /// A part of the medium may have been read twice, in place of another part. Copy the file again.
    Doubled { start: usize, end: usize },
    /// A transfer may have converted the file as if it were a text. Copy it again, as binary.
    Converted { line_ends: LineEnds },
    /// A transfer of 7 bits may have cleared bit 7 of each byte. Copy it again, as binary.
    SevenBits,
}

impl fmt::Display for FileFinding {
    ghost output = { λ finding. Some (file_text finding) };

    #[tactic(auto, unfolding(crate::specs::FindingTexts::file_text))]
    fn fmt<W: fmt::Write>(&self, f: &mut Formatter<W>) -> fmt::Result {
        match *self {
            FileFinding::NoCodeFile { file_type } => write!(f, "it may be {file_type}"),
            FileFinding::Padded { bytes } => {
                write!(
                    f,
                    "its last {bytes} bytes are 1A: it was padded, as by CP/M"
                )
            }
            FileFinding::Doubled { start, end } => {
                write!(
                    f,
                    "bytes {start} to {end} are there twice, one after the other: they may have been read twice"
                )
            }
            FileFinding::Converted { line_ends } => {
                write!(f, "{line_ends}: its line ends may have been converted")
            }
            FileFinding::SevenBits => {
                f.write_str("none of its bytes is above 7F: it may have been sent as 7 bits")
            }
        }
    }
}

/// What looks wrong in a dictionary.
#[derive(Clone, Copy)]
pub enum DictionaryFinding {
    /// A part of the dictionary may not have been read, which a link copies. Copy the file again.
    DeadTail {
        start: usize,
        end: usize,
        byte: u8,
    },
    /// Apple Pascal's intrinsic units are not linked. The link passes them over.
    IntrinsicKind {
        slot: u8,
        kind: u16,
    },
    /// A program of Apple Pascal needs these units when it runs. A link copies the host's set.
    IntrinsicSet,
    /// A link copies the words of the host alone. Set the word in the linked file, as the command says.
    LeftOutWord {
        /// The place of the word in the linked file.
        place: usize,
        /// The bytes of the word in the file of the unit.
        high: u8,
        low: u8,
        /// What the two bytes at the place are to be.
        first: u8,
        second: u8,
    },
}

impl fmt::Display for DictionaryFinding {
    ghost output = { λ finding. Some (dictionary_text finding) };

    #[tactic(auto, unfolding(crate::specs::FindingTexts::dictionary_text))]
    fn fmt<W: fmt::Write>(&self, f: &mut Formatter<W>) -> fmt::Result {
        match *self {
            DictionaryFinding::DeadTail { start, end, byte } => {
                let byte = ByteDigits(byte);
                write!(
                    f,
                    "bytes {start} to {end} of its dictionary are all {byte}: they may not have been read"
                )
            }
            DictionaryFinding::IntrinsicKind { slot, kind } => {
                let slot = ShownSlot(slot);
                write!(
                    f,
                    "slot {slot} is of kind {kind}, an intrinsic unit of Apple Pascal or its data"
                )
            }
            DictionaryFinding::IntrinsicSet => f.write_str(
                "bytes 288 to 291 of its dictionary are not 0: Apple Pascal keeps there which intrinsic units a program uses",
            ),
            DictionaryFinding::LeftOutWord {
                place,
                high,
                low,
                first,
                second,
            } => {
                let (high, low) = (ByteDigits(high), ByteDigits(low));
                let (first, second) = (OctalByte(first), OctalByte(second));
                write!(
                    f,
                    "the linked file has 0 for it at byte {place}, and its own file has {high}{low}: a system of II.1 may not start it; set it by printf '{first}{second}' | dd of=LINKED bs=1 seek={place} conv=notrunc"
                )
            }
        }
    }
}

/// What looks wrong in an entry, by what a link does with it.
#[derive(Clone, Copy)]
pub enum EntryFinding {
    /// The slot's kind or its length was lost, so nothing is linked into it. Compile the host
    /// again.
    EmptySlot { slot: u8, name: Name, kind: u16 },
    /// Two segments are taken from the same bytes. One of the entries is damaged: copy it again.
    Overlap { other: u8 },
}

impl fmt::Display for EntryFinding {
    ghost output = { λ finding. Some (entry_text finding) };

    #[tactic(auto, unfolding(crate::specs::FindingTexts::entry_text))]
    fn fmt<W: fmt::Write>(&self, f: &mut Formatter<W>) -> fmt::Result {
        match *self {
            EntryFinding::EmptySlot { slot, name, kind } => {
                let (slot, name) = (ShownSlot(slot), ShownName(name));
                write!(
                    f,
                    "slot {slot} has the name {name}, kind {kind} and no code: no segment is linked there"
                )
            }
            EntryFinding::Overlap { other } => {
                let other = ShownSlot(other);
                write!(f, "its bytes in the file overlap those of slot {other}")
            }
        }
    }
}

/// What looks wrong in the name of a segment or of a record.
#[derive(Clone, Copy)]
pub enum NameFinding {
    /// Names are compared byte for byte, so it may not be found. Correct what made the file.
    OddName { name: Name, oddity: Oddity },
}

impl fmt::Display for NameFinding {
    ghost output = { λ finding. Some (name_text finding) };

    #[tactic(auto, unfolding(crate::specs::FindingTexts::name_text))]
    fn fmt<W: fmt::Write>(&self, f: &mut Formatter<W>) -> fmt::Result {
        match *self {
            NameFinding::OddName { name, oddity } => {
                let name = ShownName(name);
                write!(f, "the name {name} {oddity}: it may not be found")
            }
        }
    }
}

/// What looks wrong in a code, or in the numbers at its end.
#[derive(Clone, Copy)]
pub enum CodeFinding {
    /// The code may never have been written, or was lost. Copy the file again.
    OneByte { byte: u8 },
    /// A part of the medium may not have been read, or never written. Copy the file again.
    DeadRun { start: usize, end: usize, byte: u8 },
    /// The end of the code may have been lost. Copy the file again.
    ZeroEnd,
    /// The code may be that of another slot. Compile the host again.
    OtherNumber { found: u8, slot: u8 },
    /// The addresses of two entries may have been exchanged. Copy the file again.
    ExchangedNumber { found: u8, slot: u8 },
    /// The code may be that of another slot. Copy the file again.
    OtherInfo { found: u8, number: u8 },
}

impl fmt::Display for CodeFinding {
    ghost output = { λ finding. Some (code_text finding) };

    #[tactic(auto, unfolding(crate::specs::FindingTexts::code_text))]
    fn fmt<W: fmt::Write>(&self, f: &mut Formatter<W>) -> fmt::Result {
        match *self {
            CodeFinding::OneByte { byte } => {
                let byte = ByteDigits(byte);
                write!(
                    f,
                    "each byte of its code is {byte}: it may never have been written"
                )
            }
            CodeFinding::DeadRun { start, end, byte } => {
                let byte = ByteDigits(byte);
                write!(
                    f,
                    "bytes {start} to {end} of its code are all {byte}: they may not have been read"
                )
            }
            CodeFinding::ZeroEnd => f.write_str(
                "its code ends with zeros, so it has no procedure and no segment number: its end may be lost",
            ),
            CodeFinding::OtherNumber { found, slot } => {
                write!(
                    f,
                    "its code has segment number {found}, and its slot is {slot}: the code may be another one"
                )
            }
            CodeFinding::ExchangedNumber { found, slot } => {
                write!(
                    f,
                    "its code has segment number {found}, and that of slot {found} has {slot}: the two may be exchanged"
                )
            }
            CodeFinding::OtherInfo { found, number } => {
                write!(
                    f,
                    "its code has segment number {found}, and bytes 256 to 287 of the dictionary have {number} for it: the code may be another one"
                )
            }
        }
    }
}

/// What looks wrong in the procedures of a code.
#[derive(Clone, Copy)]
pub enum ProcedureFinding {
    /// The code may be damaged, or another file's. Copy the file again, or compile it again.
    OtherProcedure { procedure: usize, found: u8 },
    /// The end of the code may be damaged. Copy the file again.
    LostTables,
    /// A part of the code may stand in another place, or be another's. Compare two copies of the file.
    Misfit { procedure: usize },
    /// A byte of the table may have been changed, as where line ends were converted. Copy the file again.
    OddData { data: u16 },
}

impl fmt::Display for ProcedureFinding {
    ghost output = { λ finding. Some (procedure_text finding) };

    #[tactic(auto, unfolding(crate::specs::FindingTexts::procedure_text))]
    fn fmt<W: fmt::Write>(&self, f: &mut Formatter<W>) -> fmt::Result {
        match *self {
            ProcedureFinding::OtherProcedure { procedure, found } => {
                write!(
                    f,
                    "the attribute table of procedure {procedure} says that it is procedure {found}: the code may be damaged"
                )
            }
            ProcedureFinding::LostTables => f.write_str(
                "it does not end with a procedure dictionary: the end of its code may be lost",
            ),
            ProcedureFinding::Misfit { procedure } => {
                write!(
                    f,
                    "procedure {procedure} may be damaged: its instructions do not fit together, as those of the others do"
                )
            }
            ProcedureFinding::OddData { data } => {
                write!(
                    f,
                    "its data size of {data} bytes is odd, and the program is entered or left before its code: its table may be damaged"
                )
            }
        }
    }
}

/// What looks wrong in references: in the operands that they name, or where they may be lost.
#[derive(Clone, Copy)]
pub enum OperandFinding {
    /// A link sets the bit, and reads the operand without it. Compare two copies of the file.
    ClearMark {
        place: usize,
    },
    /// Without references each such operand stays as it is, for another variable. Copy the file again.
    NoReferences {
        operands: usize,
    },
    /// The records before it may be lost, and a link stops at the zeros. Copy the file again.
    ZeroMark {
        name: Name,
    },
    /// The compiler may count the places of its references otherwise, and the file be whole. Ask what
    /// its compiler is: pslink cannot link such a file.
    OtherCount {
        references: usize,
        operands: usize,
        counting: Counting,
        counted: usize,
    },
}

impl fmt::Display for OperandFinding {
    ghost output = { λ finding. Some (operand_text finding) };

    #[tactic(auto, unfolding(crate::specs::FindingTexts::operand_text))]
    fn fmt<W: fmt::Write>(&self, f: &mut Formatter<W>) -> fmt::Result {
        match *self {
            OperandFinding::ClearMark { place } => {
                write!(
                    f,
                    "the operand at byte {place} may be damaged: its bit 7 is clear, and a compiler sets it"
                )
            }
            OperandFinding::NoReferences { operands } => {
                write!(
                    f,
                    "it has no reference, and {operands} operands of two bytes for variables of the program: its references may be lost"
                )
            }
            OperandFinding::ZeroMark { name } => {
                let name = ShownName(name);
                write!(
                    f,
                    "its end mark is zeros, and a record of {name} is behind it: records may be lost"
                )
            }
            OperandFinding::OtherCount {
                references,
                operands,
                counting,
                counted,
            } => {
                write!(
                    f,
                    "{counted} of its {references} references lead to operands if they are counted {counting}, and {operands} as pslink counts them: its compiler may count otherwise; see WARNINGS in pslink(1)"
                )
            }
        }
    }
}

/// What looks wrong in link information, by what a link does with it.
#[derive(Clone, Copy)]
pub enum RecordFinding {
    /// The operand is outside the variable. Compile the unit again.
    PastPrivate {
        place: usize,
        displacement: u16,
        words: u16,
    },
    /// The operand is outside the program's variables. Compile the host and the unit again.
    PastPublic {
        place: usize,
        name: Name,
        displacement: u16,
        value: u16,
        next: u16,
    },
    /// Only the host program's definitions count. The link passes it over.
    UnitDefinition {
        name: Name,
    },
    /// Only the host program's definitions count. Define the name there.
    OwnDefinition {
        name: Name,
    },
    /// The private variables of units may overlap the program's own. Compile the host again.
    LowMark {
        next: u16,
        data: u16,
    },
    /// The variable may overlap a private variable of a unit. Compile the host again.
    HighDefinition {
        name: Name,
        value: u16,
        next: u16,
    },
}

impl fmt::Display for RecordFinding {
    ghost output = { λ finding. Some (record_text finding) };

    #[tactic(auto, unfolding(crate::specs::FindingTexts::record_text))]
    fn fmt<W: fmt::Write>(&self, f: &mut Formatter<W>) -> fmt::Result {
        match *self {
            RecordFinding::PastPrivate {
                place,
                displacement,
                words,
            } => {
                write!(
                    f,
                    "the operand at byte {place} is word {displacement} of a variable that has {words}"
                )
            }
            RecordFinding::PastPublic {
                place,
                name,
                displacement,
                value,
                next,
            } => {
                let name = ShownName(name);
                write!(
                    f,
                    "the operand at byte {place} is word {displacement} of {name} at base offset {value}, and the end mark says that {next} is free"
                )
            }
            RecordFinding::UnitDefinition { name } => {
                let name = ShownName(name);
                write!(
                    f,
                    "the unit defines {name}, which has no effect: only the host program defines variables"
                )
            }
            RecordFinding::OwnDefinition { name } => {
                let name = ShownName(name);
                write!(
                    f,
                    "the unit refers to {name} and defines it itself: only the host program defines variables"
                )
            }
            RecordFinding::LowMark { next, data } => {
                write!(
                    f,
                    "the end mark {next} is below half the data size of {data} bytes"
                )
            }
            RecordFinding::HighDefinition { name, value, next } => {
                let name = ShownName(name);
                write!(
                    f,
                    "{name} has base offset {value}, and the end mark says that {next} is free"
                )
            }
        }
    }
}

/// What looks wrong in the link as a whole.
#[derive(Clone, Copy)]
pub enum LinkFinding {
    /// The unit takes a slot that the host has for another one, whose calls go to it. Compile the
    /// host again.
    TakenSlot { slot: u8, name: Name },
    /// The two names may mean one unit. Write the name in one way.
    OtherSpelling { name: Name },
}

impl fmt::Display for LinkFinding {
    ghost output = { λ finding. Some (link_text finding) };

    #[tactic(auto, unfolding(crate::specs::FindingTexts::link_text))]
    fn fmt<W: fmt::Write>(&self, f: &mut Formatter<W>) -> fmt::Result {
        match *self {
            LinkFinding::TakenSlot { slot, name } => {
                let (slot, name) = (ShownSlot(slot), ShownName(name));
                write!(
                    f,
                    "it is added in slot {slot}, which the host has for {name}: calls of {name} go to it"
                )
            }
            LinkFinding::OtherSpelling { name } => {
                let name = ShownName(name);
                write!(
                    f,
                    "another unit of the link is {name}, nearly the same name"
                )
            }
        }
    }
}

/// What is found in files and is no fault, by its subject. Its text is half a sentence.
///
/// Of an entry, a record and the link as a whole each finding has its definition. Of the other
/// subjects a finding is a guess.
#[derive(Clone, Copy)]
pub enum Finding {
    File(FileFinding),
    Dictionary(DictionaryFinding),
    Entry(EntryFinding),
    Name(NameFinding),
    Code(CodeFinding),
    Procedure(ProcedureFinding),
    Operand(OperandFinding),
    Record(RecordFinding),
    Link(LinkFinding),
}

impl Finding {
    /// How much it weighs. A finding that has its definition is certain: a warning, but for a
    /// definition in a unit that has no effect. Each other finding is a note, but for what a link
    /// passes over.
    pub fn weight(&self) -> Weight
        ensures { result ≡ weight_of self.now }
    {
        match *self {
            Finding::Record(RecordFinding::UnitDefinition { .. })
            | Finding::File(FileFinding::Padded { .. })
            | Finding::Dictionary(
                DictionaryFinding::IntrinsicKind { .. } | DictionaryFinding::IntrinsicSet,
            ) => Weight::Harmless,
            Finding::Entry(_)
            | Finding::Link(_)
            | Finding::Record(
                RecordFinding::PastPrivate { .. }
                | RecordFinding::PastPublic { .. }
                | RecordFinding::OwnDefinition { .. }
                | RecordFinding::LowMark { .. }
                | RecordFinding::HighDefinition { .. },
            ) => Weight::Warning,
            Finding::File(
                FileFinding::NoCodeFile { .. }
                | FileFinding::Doubled { .. }
                | FileFinding::Converted { .. }
                | FileFinding::SevenBits,
            )
            | Finding::Dictionary(
                DictionaryFinding::DeadTail { .. } | DictionaryFinding::LeftOutWord { .. },
            )
            | Finding::Name(_)
            | Finding::Code(_)
            | Finding::Procedure(_)
            | Finding::Operand(_) => Weight::Note,
        }
    }

    /// The finding is a warning.
    pub fn is_certain(&self) -> bool
        ensures { result ≡ is_certain_spec self.now }
    {
        matches!(self.weight(), Weight::Warning)
    }
}

impl fmt::Display for Finding {
    ghost output = { λ finding. Some (finding_text finding) };

    #[tactic(auto, unfolding(crate::specs::FindingTexts::finding_text))]
    fn fmt<W: fmt::Write>(&self, f: &mut Formatter<W>) -> fmt::Result {
        match *self {
            Finding::File(finding) => finding.fmt(f),
            Finding::Dictionary(finding) => finding.fmt(f),
            Finding::Entry(finding) => finding.fmt(f),
            Finding::Name(finding) => finding.fmt(f),
            Finding::Code(finding) => finding.fmt(f),
            Finding::Procedure(finding) => finding.fmt(f),
            Finding::Operand(finding) => finding.fmt(f),
            Finding::Record(finding) => finding.fmt(f),
            Finding::Link(finding) => finding.fmt(f),
        }
    }
}

/// A finding that no definition gives.
pub(crate) trait Unsure {
    /// The finding, with its subject.
    fn finding(self) -> Finding
        ensures { is_about_link result ≡ false };
}

impl Unsure for FileFinding {
    fn finding(self) -> Finding {
        Finding::File(self)
    }
}

impl Unsure for DictionaryFinding {
    fn finding(self) -> Finding {
        Finding::Dictionary(self)
    }
}

impl Unsure for NameFinding {
    fn finding(self) -> Finding {
        Finding::Name(self)
    }
}

impl Unsure for CodeFinding {
    fn finding(self) -> Finding {
        Finding::Code(self)
    }
}

impl Unsure for ProcedureFinding {
    fn finding(self) -> Finding {
        Finding::Procedure(self)
    }
}

impl Unsure for OperandFinding {
    fn finding(self) -> Finding {
        Finding::Operand(self)
    }
}

/// Where something looks wrong: in a file, in a segment of it, or in a record of that.
#[derive(Clone, Copy)]
pub struct Place<'a> {
    pub path: &'a str,
    pub segment: Option<Name>,
    /// The record's index in the link information of the segment, from 0.
    pub rec: Option<usize>,
}

/// Writes the segment in which something looks wrong, if it is in one.
fn write_segment<W: fmt::Write>(f: &mut Formatter<W>, segment: Option<Name>) -> fmt::Result
    ensures { WritesOnOk W.write_str_gives f.old result (segment_words segment) f.new }
{
    match segment {
        Some(name) => {
            let name = ShownName(name);
            write!(f, ", segment {name}")
        }
        None => Ok(()),
    }
}

/// Writes the record in which something looks wrong, if it is in one.
fn write_record<W: fmt::Write>(f: &mut Formatter<W>, rec: Option<usize>) -> fmt::Result
    ensures { WritesOnOk W.write_str_gives f.old result (record_words rec) f.new }
{
    match rec {
        Some(rec) => write!(f, ", record {rec}"),
        None => Ok(()),
    }
}

impl fmt::Display for Place<'_> {
    ghost output = { λ place. Some (place_text place) };

    #[tactic(auto, unfolding(crate::specs::Places::place_text))]
    fn fmt<W: fmt::Write>(&self, f: &mut Formatter<W>) -> fmt::Result {
        let path = ShownPath(self.path);
        write!(f, "{path}")?;
        write_segment(f, self.segment)?;
        write_record(f, self.rec)
    }
}

/// What is found in files and is no fault, and where.
#[derive(Clone, Copy)]
pub struct FindingAt<'a> {
    pub place: Place<'a>,
    pub finding: Finding,
}
