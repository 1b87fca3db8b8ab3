//! A host that wants its unit from a library, and why the two are refused.
use super::host_faults::DEFINITIONS;
use super::rows::{check_each, check_rows};

static ROWS: &str = "files pair, no allocation
# segment dictionaries of the library
kind 2 | - | slot 2 kind 2 | refused 14 NotAUnit kind 2 file 1 slot 7
kind 5 | - | slot 2 kind 5 | refused 14 NotAUnit kind 5 file 1 slot 7
kind 5 and address 0 | - | slot 2 kind 5 address 0 | refused 14 NotAUnit kind 5 file 1 slot 7
kind 7 | - | slot 2 kind 7 | refused 14 NotAUnit kind 7 file 1 slot 7
two entries of the name | - | slot 3 name UTIL kind 3 address 1 length 24 \
| refused 15 DoubledUnit file 1 slot 7
# codes of the library
native code | - | code 1 18 00 | refused 18 NativeProcedure file 1 slot 7
# link information of the library
type 15 | - | at 1032 0F | refused 20 UnknownRecord file 1 slot 7 record 0
type 9 | - | at 1032 09 | refused 21 NativeRecord file 1 slot 7 record 0
type 13 | - | at 1032 0D | refused 22 SeparateRecord file 1 slot 7 record 0
PUBLREF of format 0 | - | at 1034 00 | refused 21 NativeRecord file 1 slot 7 record 0
PUBLREF of format 1 | - | at 1034 01 | refused 23 BadFormat file 1 slot 7 record 0
UNITREF of format 2 | - | at 1032 01 | refused 23 BadFormat file 1 slot 7 record 0
# the name of a unit that no slot has and no library
a unit that is not there | - | records 2; UNITREF NOBODY at 1; EOFMARK next 0 \
| refused 13 MissingUnit file 1 slot 7 record 0
files host-alone, no allocation
a unit that no library has | - | - | refused 13 MissingUnit file 0 slot 7
files turned-library, no allocation
# a library whose words are in the other byte order
the other byte order | - | - | refused 3 OrderMismatch file 1
files big turned-library, no allocation
the other byte order | - | - | refused 3 OrderMismatch file 1
files pair, each allocation refused
# names of private variables and of what is referred to
two private variables | - | records 2; PUBLREF COUNT at 1; PRIVREF STATE words 4 at 4; \
PRIVREF STATE words 4 at; EOFMARK next 0 | refused 25 DoubledPrivate file 1 slot 7 record 2
a name with no definition | - | names 1024 CUONT \
| refused 28 MissingDefinition file 1 slot 7 record 0
a constant | records 2; CONSTDEF COUNT value 3; EOFMARK next 8 | - \
| refused 29 IllKind file 1 slot 7 record 0
# sizes
one private word too many | records 2; PUBLDEF COUNT value 3; EOFMARK next 32760 | at 1070 08 \
| refused 26 NoRoom file 1 slot 7 record 1
65536 bytes of data | code 1 4 F8FF | - | refused 27 DataTooLarge file 0 slot 1
an operand of 32768 | records 2; PUBLDEF COUNT value 32767; EOFMARK next 8 | code 1 2 01 \
| refused 34 OperandTooLarge file 1 slot 7 record 0 reference 0
# places of operands
the last byte | - | at 1040 17 | refused 31 OutsideCode file 1 slot 7 record 0 reference 0
the last byte before a table | - | at 1040 09 \
| refused 32 ReservedPlace file 1 slot 7 record 0 reference 0
an operand that begins in another | - | at 1072 02 \
| refused 33 Overlap file 1 slot 7 record 1 reference 0
an operand over the byte of a unit's number | - | records 2; UNITREF UTIL at 2; \
PUBLREF COUNT at 1; EOFMARK next 0 | refused 33 Overlap file 1 slot 7 record 1 reference 0
# the table is at 16, so that its last byte is 17, and bytes 18 and 19 are not reserved
an operand whose first byte is the last of a table | - | word 1 20 4; records 2; \
PUBLREF COUNT at 17; EOFMARK next 0 | refused 32 ReservedPlace file 1 slot 7 record 0 reference 0
the last byte of a table alone | - | word 1 20 4; records 2; UNITREF UTIL at 17; \
EOFMARK next 0 | refused 32 ReservedPlace file 1 slot 7 record 0 reference 0";

#[test]
fn faults_of_a_pair(rt: HostRuntime) {
    check_rows(&rt, ROWS);
    check_each(&rt, "pair, each allocation refused", DEFINITIONS)
}
