//! A host that holds its unit itself, and why it is refused.
use super::host_faults::DEFINITIONS;
use super::rows::{check_each, check_rows};

static ROWS: &str = "files in-place, no allocation
# procedure dictionaries and attribute tables
native code | code 3 18 00 | - | refused 18 NativeProcedure file 0 slot 7
# link information
type 15 | records 4; TYPE 15 COUNT 2 0 0 | - | refused 20 UnknownRecord file 0 slot 7 record 0
type 9 | records 4; TYPE 9 COUNT 2 0 0 | - | refused 21 NativeRecord file 0 slot 7 record 0
type 13 | records 4; TYPE 13 COUNT 2 0 0 | - | refused 22 SeparateRecord file 0 slot 7 record 0
PUBLREF of format 1 | records 4; TYPE 3 COUNT 1 0 0 | - \
| refused 23 BadFormat file 0 slot 7 record 0
files in-place, each allocation refused
# names of private variables and of what is referred to
two private variables | records 4; PUBLREF COUNT at 1; PRIVREF STATE words 4 at 4; \
PRIVREF STATE words 4 at; EOFMARK next 0 | - | refused 25 DoubledPrivate file 0 slot 7 record 2
a name with no definition, and no references | records 4; PUBLREF CUONT at; EOFMARK next 0 \
| - | refused 28 MissingDefinition file 0 slot 7 record 0
a constant | records 2; CONSTDEF COUNT value 3; EOFMARK next 8 | - \
| refused 29 IllKind file 0 slot 7 record 0
# sizes
one private word too many | records 2; PUBLDEF COUNT value 3; EOFMARK next 32760; records 4; \
PUBLREF COUNT at 1; PRIVREF STATE words 8 at 4; EOFMARK next 0 | - \
| refused 26 NoRoom file 0 slot 7 record 1
no private words, past the last offset | records 2; PUBLDEF COUNT value 3; EOFMARK next 40000; \
records 4; PUBLREF COUNT at 1; PRIVREF STATE words 0 at 4; EOFMARK next 0 | - \
| refused 26 NoRoom file 0 slot 7 record 1
65536 bytes of data | code 1 4 F8FF; records 4; PUBLREF COUNT at 1; PRIVREF STATE words 4 at 4; \
EOFMARK next 0 | - | refused 27 DataTooLarge file 0 slot 1
an operand of 32768 | records 2; PUBLDEF COUNT value 32767; EOFMARK next 8; code 3 2 01 | - \
| refused 34 OperandTooLarge file 0 slot 7 record 0 reference 0
# places of operands
the last two bytes | records 4; PUBLREF COUNT at 22; EOFMARK next 0 | - \
| refused 32 ReservedPlace file 0 slot 7 record 0 reference 0
the last byte | records 4; PUBLREF COUNT at 23; EOFMARK next 0 | - \
| refused 31 OutsideCode file 0 slot 7 record 0 reference 0
behind the code | records 4; PUBLREF COUNT at 24; EOFMARK next 0 | - \
| refused 31 OutsideCode file 0 slot 7 record 0 reference 0
the host segment's table | records 2; PUBLDEF COUNT value 3; PUBLREF COUNT at 3; \
EOFMARK next 8 | - | refused 32 ReservedPlace file 0 slot 1 record 1 reference 0
one place twice | records 4; PUBLREF COUNT at 1 1; EOFMARK next 0 | - \
| refused 33 Overlap file 0 slot 7 record 0 reference 1
an operand that begins in another | records 4; PUBLREF COUNT at 1 2; EOFMARK next 0 | - \
| refused 33 Overlap file 0 slot 7 record 0 reference 1
one place in two records | records 4; PUBLREF COUNT at 1; PUBLREF COUNT at 2; EOFMARK next 0 \
| - | refused 33 Overlap file 0 slot 7 record 1 reference 0";

#[test]
fn faults_of_a_unit_in_place(rt: HostRuntime) {
    check_rows(&rt, ROWS);
    check_each(&rt, "in-place, each allocation refused", DEFINITIONS)
}
