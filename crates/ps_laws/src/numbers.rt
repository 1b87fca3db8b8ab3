ghost use Rattle.std.specs.Prelude.{◌≡◌};

use ps_codefile::code_layout::{
    DATA_SIZE_BEFORE_TABLE, MAX_CODE_BLOCKS, MAX_CODE_LEN, NUMBERS, TABLE_NUMBERS, TABLE_WORDS,
};
use ps_codefile::dictionary_layout::{
    FIRST_ADDED, KINDS, NAMES, PAIR, SLOT_COUNT, SLOTS, TAIL, TEXTS,
};
use ps_codefile::kinds::{
    FIRST_INTRINSIC, HOSTSEG, LAST_INTRINSIC, LINKED, SEGPROC, SEPRTSEG, UNITSEG,
};
use ps_linkinfo::record_layout::{MAX_LIST_LEN, MAX_REFERENCES, RECORD_LEN};
use ps_reading::{MAX_ADDED, MAX_REQUESTED};
use ps_resolve::{MAX_DATA_SIZE, MAX_NEXT_FREE};
use ps_words::{BLOCK_SIZE, MAX_OPERAND, MAX_WORD, NAME_LEN, WORD_LEN};

/// The numbers that definitions cite by their names, as numbers.
///
/// Source: the dictionary and the procedure tables, the UCSD Pascal II.0 manual; the records, the
/// published II.0 Linker source.
pub fn numbers_of_the_format()
    ensures words { (WORD_LEN ≡ 2) × (MAX_WORD ≡ 65535) × (MAX_OPERAND ≡ 32767) }
    ensures block { BLOCK_SIZE ≡ 512 }
    ensures names { NAME_LEN ≡ 8 }
    ensures slots { (SLOTS ≡ 16) × (SLOT_COUNT ≡ 16) }
    ensures dictionary { (PAIR ≡ 4) × (NAMES ≡ 64) × (KINDS ≡ 192) × (TEXTS ≡ 224) × (TAIL ≡ 256) }
    ensures kinds { (LINKED ≡ 0) × (HOSTSEG ≡ 1) × (SEGPROC ≡ 2) × (UNITSEG ≡ 3) × (SEPRTSEG ≡ 4)
        × (FIRST_INTRINSIC ≡ 5) × (LAST_INTRINSIC ≡ 7) }
    ensures added { (FIRST_ADDED ≡ 7) × (MAX_ADDED ≡ 9) × (MAX_REQUESTED ≡ 10) }
    ensures code { (MAX_CODE_LEN ≡ 32767) × (MAX_CODE_BLOCKS ≡ 64) × (NUMBERS ≡ 2) }
    ensures tables { (TABLE_WORDS ≡ 8) × (TABLE_NUMBERS ≡ 2) × (DATA_SIZE_BEFORE_TABLE ≡ 8) }
    ensures records { (RECORD_LEN ≡ 16) × (MAX_REFERENCES ≡ 65535) × (MAX_LIST_LEN ≡ 131072) }
    ensures data { (MAX_NEXT_FREE ≡ 32767) × (MAX_DATA_SIZE ≡ 65535) }
{}
