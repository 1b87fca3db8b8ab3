//! The table of the instructions of P-code. The releases differ in six opcodes: both forms are here.
//! `man/make_instructions.py` makes the page of FORMAT.md from it.
//!
//! Source: P-code of II.0, *(open)* in FORMAT.md.
use Effect::{Compares, Loads, Stores, Unknown, Words};
use Operands::{
    Big, Byte, ByteAndBig, Call, Case, Exit, Jump, Nothing, Return, Text, TwoBytes, Type, Variable,
    WordList,
};

/// What follows the opcode of an instruction.
#[derive(Clone, Copy)]
pub(crate) enum Operands {
    Nothing,
    Byte,
    TwoBytes,
    /// One byte below 128, or two of which bit 7 is set.
    Big,
    ByteAndBig,
    /// The base offset of a variable of the program, BIG: a link fills it in.
    Variable,
    /// The number of a segment, a byte that a link fills in, and that of a procedure.
    Call,
    /// How many bytes a jump goes on; above 127 by the jump table.
    Jump,
    /// How many words a function gives back, a byte; the procedure is left.
    Return,
    /// Nothing; the program is left.
    Exit,
    /// How many bytes follow, and these.
    Text,
    /// How many words follow, and these from an even place on.
    WordList,
    /// A type, a byte; of arrays, then their length, BIG.
    Type,
    /// From an even place on the least and the greatest index of a case, a jump, and a word for each
    /// index.
    Case,
}

/// What an instruction does to the words of the evaluation stack.
#[derive(Clone, Copy)]
pub(crate) enum Effect {
    /// The instruction takes so many, and then puts so many there.
    Words(u8, u8),
    /// The instruction takes so many, and then puts as many there as its first operand says.
    Loads(u8),
    /// The instruction takes as many as its first operand says, and so many more.
    Stores(u8),
    /// The instruction takes two values of the type that its first operand says, and puts a word
    /// there.
    Compares,
    /// As many as a set has, or a procedure says that is not looked at.
    Unknown,
}

/// An instruction: its opcode, its mnemonic, what follows the opcode, and what it does to the
/// evaluation stack.
#[derive(Clone, Copy)]
pub(crate) struct Row(
    pub(crate) u8,
    pub(crate) &'static str,
    pub(crate) Operands,
    pub(crate) Effect,
);

/// The first opcode that has a row of its own.
const FIRST: u8 = 0x80;

/// The instructions from `FIRST` on, in the order of their opcodes.
static TABLE: [Row; 88] = [
    Row(0x80, "ABI", Nothing, Words(1, 1)),
    Row(0x81, "ABR", Nothing, Words(2, 2)),
    Row(0x82, "ADI", Nothing, Words(2, 1)),
    Row(0x83, "ADR", Nothing, Words(4, 2)),
    Row(0x84, "LAND", Nothing, Words(2, 1)),
    Row(0x85, "DIF", Nothing, Unknown),
    Row(0x86, "DVI", Nothing, Words(2, 1)),
    Row(0x87, "DVR", Nothing, Words(4, 2)),
    Row(0x88, "CHK", Nothing, Words(3, 1)),
    Row(0x89, "FLO", Nothing, Words(3, 4)),
    Row(0x8A, "FLT", Nothing, Words(1, 2)),
    Row(0x8B, "INN", Nothing, Unknown),
    Row(0x8C, "INT", Nothing, Unknown),
    Row(0x8D, "LOR", Nothing, Words(2, 1)),
    Row(0x8E, "MODI", Nothing, Words(2, 1)),
    Row(0x8F, "MPI", Nothing, Words(2, 1)),
    Row(0x90, "MPR", Nothing, Words(4, 2)),
    Row(0x91, "NGI", Nothing, Words(1, 1)),
    Row(0x92, "NGR", Nothing, Words(2, 2)),
    Row(0x93, "LNOT", Nothing, Words(1, 1)),
    Row(0x94, "SRS", Nothing, Unknown),
    Row(0x95, "SBI", Nothing, Words(2, 1)),
    Row(0x96, "SBR", Nothing, Words(4, 2)),
    Row(0x97, "SGS", Nothing, Unknown),
    Row(0x98, "SQI", Nothing, Words(1, 1)),
    Row(0x99, "SQR", Nothing, Words(2, 2)),
    Row(0x9A, "STO", Nothing, Words(2, 0)),
    Row(0x9B, "IXS", Nothing, Words(2, 2)),
    Row(0x9C, "UNI", Nothing, Unknown),
    Row(0x9D, "LDE", ByteAndBig, Words(0, 1)),
    Row(0x9E, "CSP", Byte, Unknown),
    Row(0x9F, "LDCN", Nothing, Words(0, 1)),
    Row(0xA0, "ADJ", Byte, Unknown),
    Row(0xA1, "FJP", Jump, Words(1, 0)),
    Row(0xA2, "INC", Big, Words(1, 1)),
    Row(0xA3, "IND", Big, Words(1, 1)),
    Row(0xA4, "IXA", Big, Words(2, 1)),
    Row(0xA5, "LAO", Variable, Words(0, 1)),
    Row(0xA6, "LCA", Text, Words(0, 1)),
    Row(0xA7, "LAE", ByteAndBig, Words(0, 1)),
    Row(0xA8, "MOV", Big, Words(2, 0)),
    Row(0xA9, "LDO", Variable, Words(0, 1)),
    Row(0xAA, "SAS", Byte, Words(2, 0)),
    Row(0xAB, "SRO", Variable, Words(1, 0)),
    Row(0xAC, "XJP", Case, Words(1, 0)),
    Row(0xAD, "RNP", Return, Unknown),
    Row(0xAE, "CIP", Byte, Unknown),
    Row(0xAF, "EQU", Type, Compares),
    Row(0xB0, "GEQ", Type, Compares),
    Row(0xB1, "GRT", Type, Compares),
    Row(0xB2, "LDA", ByteAndBig, Words(0, 1)),
    Row(0xB3, "LDC", WordList, Loads(0)),
    Row(0xB4, "LEQ", Type, Compares),
    Row(0xB5, "LES", Type, Compares),
    Row(0xB6, "LOD", ByteAndBig, Words(0, 1)),
    Row(0xB7, "NEQ", Type, Compares),
    Row(0xB8, "STR", ByteAndBig, Words(1, 0)),
    Row(0xB9, "UJP", Jump, Words(0, 0)),
    Row(0xBA, "LDP", Nothing, Words(3, 1)),
    Row(0xBB, "STP", Nothing, Words(4, 0)),
    Row(0xBC, "LDM", Byte, Loads(1)),
    Row(0xBD, "STM", Byte, Stores(1)),
    Row(0xBE, "LDB", Nothing, Words(2, 1)),
    Row(0xBF, "STB", Nothing, Words(3, 0)),
    Row(0xC0, "IXP", TwoBytes, Words(2, 3)),
    Row(0xC1, "RBP", Return, Unknown),
    Row(0xC2, "CBP", Byte, Unknown),
    Row(0xC3, "EQUI", Nothing, Words(2, 1)),
    Row(0xC4, "GEQI", Nothing, Words(2, 1)),
    Row(0xC5, "GRTI", Nothing, Words(2, 1)),
    Row(0xC6, "LLA", Big, Words(0, 1)),
    Row(0xC7, "LDCI", TwoBytes, Words(0, 1)),
    Row(0xC8, "LEQI", Nothing, Words(2, 1)),
    Row(0xC9, "LESI", Nothing, Words(2, 1)),
    Row(0xCA, "LDL", Big, Words(0, 1)),
    Row(0xCB, "NEQI", Nothing, Words(2, 1)),
    Row(0xCC, "STL", Big, Words(1, 0)),
    Row(0xCD, "CXP", Call, Unknown),
    Row(0xCE, "CLP", Byte, Unknown),
    Row(0xCF, "CGP", Byte, Unknown),
    Row(0xD0, "LPA", Text, Words(0, 1)),
    Row(0xD1, "STE", ByteAndBig, Words(1, 0)),
    Row(0xD2, "NOP", Nothing, Words(0, 0)),
    Row(0xD3, "EFJ", Jump, Words(2, 0)),
    Row(0xD4, "NFJ", Jump, Words(2, 0)),
    Row(0xD5, "BPT", Big, Unknown),
    Row(0xD6, "XIT", Exit, Unknown),
    Row(0xD7, "NOP", Nothing, Words(0, 0)),
];

/// The instructions that have their operand in the opcode: each opcode from this one up to the next
/// row of either table.
static SHORT: [Row; 4] = [
    Row(0x00, "SLDC", Nothing, Words(0, 1)),
    Row(0xD8, "SLDL", Nothing, Words(0, 1)),
    Row(0xE8, "SLDO", Nothing, Words(0, 1)),
    Row(0xF8, "SIND", Nothing, Words(1, 1)),
];

/// The instructions that earlier releases have in place of those of these opcodes.
static EARLIER: [Row; 6] = [
    Row(0x9D, "S2P", Nothing, Unknown),
    Row(0xA7, "LDO", Variable, Words(0, 1)),
    Row(0xA9, "MVB", Big, Words(2, 0)),
    Row(0xD0, "S1P", Nothing, Unknown),
    Row(0xD1, "IXB", Nothing, Unknown),
    Row(0xD2, "BYT", Nothing, Unknown),
];

/// The releases whose opcodes differ.
#[derive(Clone, Copy)]
pub(crate) enum Release {
    Later,
    Earlier,
}

impl Row {
    pub(crate) fn of(opcode: u8, release: Release) -> Row {
        if matches!(release, Release::Earlier) {
            if let Some(row) = row_in(&EARLIER, opcode) {
                return row;
            }
        }
        if FIRST <= opcode {
            if let Some(row) = TABLE.get(usize::from(opcode - FIRST)) {
                return *row;
            }
        }
        let mut last = SHORT[0];
        for row in &SHORT {
            if row.0 <= opcode {
                last = *row;
            }
        }
        last
    }
}

/// The row of an opcode in a table, if it has one.
fn row_in(rows: &[Row], opcode: u8) -> Option<Row> {
    for row in rows {
        if row.0 == opcode {
            return Some(*row);
        }
    }
    None
}
