//! Files with several faults, of which the first in the order of the checks is answered.
use super::rows::check_rows;

static ROWS: &str = "files pair, ample memory
# dictionaries
a kind in slot 8 and a second host segment in slot 9 \
| slot 8 name - kind 8 address 1 length 18; slot 9 name - kind 1 address 1 length 18 | - \
| refused 10 UnknownKind file 0 slot 8
a short library and a length in the host | slot 1 length 17 | size 511 \
| refused 1 ShortFile file 1
# entries, codes and procedures
two entries of the name, one of kind 5 | - | slot 2 kind 5; \
slot 3 name UTIL kind 3 address 1 length 24 | refused 15 DoubledUnit file 1 slot 7
a table past the dictionary and native code | - | code 1 18 00; code 1 23 02 \
| refused 17 BadProcDict file 1 slot 7
# names and sizes
a missing definition of the library and a duplicate one | records 2; PUBLDEF COUNT value 3; \
PUBLDEF COUNT value 4; EOFMARK next 8 | names 1024 CUONT \
| refused 24 DoubledDefinition file 0 slot 1 record 1
a missing definition and a duplicate one | records 2; PUBLDEF COUNT value 3; PUBLREF CUONT at; \
PUBLDEF COUNT value 4; EOFMARK next 8 | - | refused 24 DoubledDefinition file 0 slot 1 record 2
no room and a data size | records 2; PUBLDEF COUNT value 3; EOFMARK next 32760; code 1 4 F8FF \
| at 1070 08 | refused 26 NoRoom file 1 slot 7 record 1
a data size and a missing definition | code 1 4 F8FF | names 1024 CUONT \
| refused 27 DataTooLarge file 0 slot 1
# references
an operand that is too large and the same again | records 2; PUBLDEF COUNT value 32767; \
EOFMARK next 8 | code 1 2 01; records 2; PUBLREF COUNT at 1 1; EOFMARK next 0 \
| refused 34 OperandTooLarge file 1 slot 7 record 0 reference 0
a reserved place and an overlap in the next record | - | records 2; PUBLREF COUNT at 1 4 10; \
PUBLREF COUNT at 2; EOFMARK next 0 | refused 32 ReservedPlace file 1 slot 7 record 0 reference 2
a reserved place and a missing definition in the next record | - | records 2; \
PUBLREF COUNT at 1 4 10; PUBLREF CUONT at; EOFMARK next 0 \
| refused 32 ReservedPlace file 1 slot 7 record 0 reference 2
# one reference, whose number is 3: of the unit's bytes 8 to 10 the last is reserved; bytes 9 and 10,
# and bytes 2 and 3, are the displacement 32767
a reserved place and an overlap | - | records 2; PUBLREF COUNT at 8 9; EOFMARK next 0 \
| refused 32 ReservedPlace file 1 slot 7 record 0 reference 1
a reserved place and an operand that is too large | - | code 1 9 7FFF; records 2; \
PUBLREF COUNT at 9; EOFMARK next 0 | refused 32 ReservedPlace file 1 slot 7 record 0 reference 0
an overlap and an operand that is too large | - | code 1 2 7FFF; records 2; \
PUBLREF COUNT at 1 2; EOFMARK next 0 | refused 33 Overlap file 1 slot 7 record 0 reference 1
all three | - | code 1 9 7FFF; records 2; PUBLREF COUNT at 8 9; EOFMARK next 0 \
| refused 32 ReservedPlace file 1 slot 7 record 0 reference 1
files short-and-turned, ample memory
a short library | - | - | refused 1 ShortFile file 2
files other-kind-second, ample memory
a library with the name | - | - | refused 14 NotAUnit kind 5 file 2 slot 7
files linked-first, ample memory
a linked library | - | - | refused 14 NotAUnit kind 0 file 1 slot 7
files turned-second, ample memory
an order of a library and a length of the host | slot 1 length 17 | - \
| refused 3 OrderMismatch file 2";

#[test]
fn the_first_of_several_faults(rt: HostRuntime) {
    check_rows(&rt, ROWS)
}
