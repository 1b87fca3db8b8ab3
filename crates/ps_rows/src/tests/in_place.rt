//! A host that holds its unit itself, and the files that it is linked to.
use super::rows::check_rows;

static ROWS: &str = "files in-place, ample memory
# nothing is changed
one reference | - | - | - | segments 2 private words 0 blocks 3
files big in-place, ample memory
one reference | - | - | - | segments 2 private words 0 blocks 3
# the dictionary's words have their high bytes first
a linked dictionary has the host's byte order | - | - | fill 4 4 00; at 4 00010012; \
fill 28 4 00; at 28 00020018 | segments 2 private words 0 blocks 3
files like-the-library, ample memory
the base library's unit, and no library | - | - | - | segments 2 private words 4 blocks 3
files big like-the-library, ample memory
the base library's unit, and no library | - | - | - | segments 2 private words 4 blocks 3
files in-place, each allocation refused
# operands
a displacement of 5 and the value 3 | code 3 2 05 | - | code 2 2 08 \
| segments 2 private words 0 blocks 3
bit 7 of the operand is not looked at | code 3 1 00 | - | - | segments 2 private words 0 blocks 3
the largest operand | records 2; PUBLDEF COUNT value 32767; EOFMARK next 8 | - \
| code 2 1 FFFF | segments 2 private words 0 blocks 3
a value above every operand, and no references | records 2; PUBLDEF COUNT value 65535; \
EOFMARK next 8; records 4; PUBLREF COUNT at; EOFMARK next 0 | - | code 2 2 00 \
| segments 2 private words 0 blocks 3
# references
two references in a record | records 4; PUBLREF COUNT at 1 4; EOFMARK next 0 | - \
| code 2 5 05 | segments 2 private words 0 blocks 3
a record of none | records 4; PUBLREF COUNT at; EOFMARK next 0 | - | code 2 2 00 \
| segments 2 private words 0 blocks 3
a reference of the host segment | records 2; PUBLDEF COUNT value 3; PUBLREF COUNT at 2; \
EOFMARK next 8 | - | code 1 3 03 | segments 2 private words 0 blocks 3
# private variables
4 words from 8 on, by the library's own records in code of number 7 | records 4; \
PUBLREF COUNT at 1; PRIVREF STATE words 4 at 4; EOFMARK next 0 | - | word 1 4 18; code 2 5 0A \
| segments 2 private words 4 blocks 3
4 words from 8 on, by the library's own code and records | code 3 22 02; records 4; \
PUBLREF COUNT at 1; PRIVREF STATE words 4 at 4; EOFMARK next 0 | - | word 1 4 18; code 2 5 0A \
| segments 2 private words 4 blocks 3
the last that has room | records 2; PUBLDEF COUNT value 3; EOFMARK next 32760; records 4; \
PUBLREF COUNT at 1; PRIVREF STATE words 7 at 4; EOFMARK next 0 | - | word 1 4 24; \
code 2 4 FFFA | segments 2 private words 7 blocks 3
none, behind the last offset | records 2; PUBLDEF COUNT value 3; EOFMARK next 40000 | - | - \
| segments 2 private words 0 blocks 3
the largest data size | word 1 4 65527; records 4; PUBLREF COUNT at 1; \
PRIVREF STATE words 4 at 4; EOFMARK next 0 | - | word 1 4 65535; code 2 5 0A \
| segments 2 private words 4 blocks 3
files in-place, ample memory
# slots
a segment that is linked already is copied | size 2565; \
slot 8 name TOOLS kind 0 address 5 length 5; code 5 0 0102030405 | - | size 2048; \
slot 8 name TOOLS kind 0 address 3 length 5; code 3 0 0102030405 \
| segments 3 private words 0 blocks 4
a slot of kind 0 with no code | slot 7 name UTIL kind 0 address 0 length 0 | - \
| slot 7 name UTIL kind 0 address 0 length 0; size 1024 | segments 1 private words 0 blocks 2";

#[test]
fn links_of_a_unit_in_place(rt: HostRuntime) {
    check_rows(&rt, ROWS)
}
