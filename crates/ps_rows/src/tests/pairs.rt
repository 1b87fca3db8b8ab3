//! A host that wants its unit from a library, and the files that the two are linked to; linked files
//! as hosts.
use super::rows::check_rows;

static ROWS: &str = "files pair, ample memory
the base pair | - | - | - | segments 2 private words 4 blocks 3
files big pair, ample memory
the base pair | - | - | - | segments 2 private words 4 blocks 3
# the unit is in block 1 of the linked file, and the host segment in block 2
the host segment in the last slot | slot 1 name - kind 0 address 0 length 0; \
slot 15 name DEMO kind 1 address 1 length 18 | - | slot 1 name - address 0 length 0; \
slot 7 address 1; slot 15 name DEMO address 2 length 18; fill 512 512 00; fill 1024 24 00; \
util-code 1 7; code 1 1 8003; code 1 4 800A; demo-code 2; word 2 4 18; code 2 16 0F \
| segments 2 private words 4 blocks 3
files pair, each allocation refused
# link information
a definition, a reference to it and a private variable | - | - | - \
| segments 2 private words 4 blocks 3
the largest operand | records 2; PUBLDEF COUNT value 32767; EOFMARK next 8 | - \
| code 2 1 FFFF | segments 2 private words 4 blocks 3
an EOFMARK alone | - | records 2; EOFMARK next 0 | word 1 4 10; code 2 2 00; code 2 5 02 \
| segments 2 private words 0 blocks 3
the last private variable that has room | records 2; PUBLDEF COUNT value 3; \
EOFMARK next 32760 | records 2; PUBLREF COUNT at 1; PRIVREF STATE words 7 at 4; \
EOFMARK next 0 | word 1 4 24; code 2 4 FFFA | segments 2 private words 7 blocks 3
both files cut behind the last record | size 1056 | size 1104 | - | segments 2 private words 4 blocks 3
files pair, ample memory
# slots of the host
a wanted unit with a length and no address | slot 7 length 24 | - | - \
| segments 2 private words 4 blocks 3
a wanted unit with an address and no length | slot 7 address 1 | - | - \
| segments 2 private words 4 blocks 3
a blank slot of kind 3 with a length | slot 8 kind 3 length 24 | - | - \
| segments 2 private words 4 blocks 3
a segment that is linked already | size 1541; slot 8 name TOOLS kind 0 address 3 length 5; \
code 3 0 0102030405 | - | size 2048; slot 8 name TOOLS kind 0 address 3 length 5; \
code 3 0 0102030405 | segments 3 private words 4 blocks 4
entries of the name without code | - | slot 1 name UTIL kind 3 length 24; \
slot 3 name UTIL kind 3 address 1; slot 4 name UTIL address 1 | - \
| segments 2 private words 4 blocks 3
a unit that is not wanted | slot 7 kind 0 | - | word 1 4 10; slot 7 address 0 length 0; \
size 1024 | segments 1 private words 0 blocks 2
files host-alone, ample memory
a unit that is not wanted | slot 7 kind 0 | - | word 1 4 10; slot 7 address 0 length 0; \
size 1024 | segments 1 private words 0 blocks 2
files nine-references, each allocation refused
nine references of one record | - | - | - | segments 2 private words 0 blocks 3
files long-unit, ample memory
an operand in two blocks, which are the last byte of one and the first of the next | - | - \
| fill 1535 2 00; at 1535 8102 | segments 2 private words 0 blocks 4
files before-a-linked-file, ample memory
the base pair | - | - | - | segments 2 private words 4 blocks 3
files big before-a-linked-file, ample memory
the base pair | - | - | - | segments 2 private words 4 blocks 3
files before-another, ample memory
the base pair | - | - | - | segments 2 private words 4 blocks 3
files behind-another, ample memory
the base pair | - | - | - | segments 2 private words 4 blocks 3
files linked-host, ample memory
a linked file | - | - | refused 4 NoHost file 0
files linked-host-alone, ample memory
a linked file | - | - | refused 4 NoHost file 0
files linked-in-place, ample memory
a linked file | - | - | refused 4 NoHost file 0
files big linked-host, ample memory
a linked file | - | - | refused 4 NoHost file 0
files big linked-host-alone, ample memory
a linked file | - | - | refused 4 NoHost file 0
files big linked-in-place, ample memory
a linked file | - | - | refused 4 NoHost file 0";

#[test]
fn links_of_a_pair(rt: HostRuntime) {
    check_rows(&rt, ROWS)
}
