//! Units that only a unit names: they are looked up in the libraries and added in empty slots of
//! the host.
use super::rows::check_rows;

static ROWS: &str = "files used-unit, each allocation refused
a unit that only a unit names | - | - | - | segments 3 private words 4 blocks 4
files big used-unit, ample memory
a unit that only a unit names | - | - | - | segments 3 private words 4 blocks 4
files used-unit, ample memory
an empty slot with an address | slot 8 address 9 | - | - | segments 3 private words 4 blocks 4
an empty slot with a name, a kind and an address | slot 8 name TOOLS kind 5 address 9 | - | - \
| segments 3 private words 4 blocks 4
an empty slot of kind 3 with an address | slot 8 kind 3 address 9 | - | - \
| segments 3 private words 4 blocks 4
units that name each other and themselves | - | records 4; UNITREF AUX at 2; UNITREF UTIL at 5; \
EOFMARK next 0 | word 1 4 10; code 3 0 A58008AB8007 | segments 3 private words 0 blocks 4
an empty slot below the unit that names it | slot 7 name - kind 0 address 0 length 0; \
slot 9 name UTIL kind 3 address 0 length 0 | records 2; UNITREF AUX at 2; \
PRIVREF STATE words 4 at 4; EOFMARK next 0 | word 1 4 26; \
slot 7 name AUX kind 0 address 2 length 24; code 2 0 A58003AB800A; \
slot 8 name - kind 0 address 0 length 0; slot 9 name UTIL kind 0 address 3 length 24; \
code 3 0 A58007AB800E; code 3 22 09 | segments 3 private words 8 blocks 4
a unit that an added unit names | - | slot 4 name THIRD kind 3 address 3 length 24; records 4; \
UNITREF THIRD at 2; EOFMARK next 0 | size 2560; word 1 4 10; code 3 0 A58009AB8002; \
slot 9 name THIRD kind 0 address 4 length 24; code 4 0 A58009AB8002D7D7AD; \
code 4 14 06001000010002000901 | segments 4 private words 0 blocks 5
files filled, ample memory
# the linked base pair with the added unit in slot 15, and a block for each segment
the last slot | - | - | size 5632; code 2 2 0F; \
code 3 0 000000000000000000000000000000000000000000000000; \
slot 8 name TOOLS kind 0 address 3 length 5; code 3 0 0102030405; \
slot 9 name TOOLS kind 0 address 4 length 5; code 4 0 0102030405; \
slot 10 name TOOLS kind 0 address 5 length 5; code 5 0 0102030405; \
slot 11 name TOOLS kind 0 address 6 length 5; code 6 0 0102030405; \
slot 12 name TOOLS kind 0 address 7 length 5; code 7 0 0102030405; \
slot 13 name TOOLS kind 0 address 8 length 5; code 8 0 0102030405; \
slot 14 name TOOLS kind 0 address 9 length 5; code 9 0 0102030405; \
slot 15 name AUX kind 0 address 10 length 24; util-code 10 15; code 10 2 03; code 10 5 0A \
| segments 10 private words 4 blocks 11
files eleven, ample memory
nine names | fill 1184 32 00 | - | - | segments 10 private words 0 blocks 11
files used-unit, no allocation
# units that are missing, or of another kind: none of these links grows
a library's entry with no code | - | slot 3 length 0 \
| refused 13 MissingUnit file 1 slot 7 record 0
a name of blanks | - | slot 3 name -; records 2; UNITREF - at 2; EOFMARK next 0 \
| refused 13 MissingUnit file 1 slot 7 record 0
a name of zeros | - | at 88 0000000000000000; records 2; UNITREF \0\0\0\0\0\0\0\0 at 2; \
EOFMARK next 0 | refused 13 MissingUnit file 1 slot 7 record 0
a library's entry of another kind | - | slot 3 kind 5 | refused 14 NotAUnit kind 5 file 1 slot 8
files two-libraries, no allocation
# the unit that is added is in a second library
a unit that an added unit names, and that no library has | - | - \
| refused 13 MissingUnit file 2 slot 8 record 1
files filled, no allocation
# the added unit takes the last slot; and then slot 15 is filled too
a unit that the unit in the last slot names | - | slot 4 name THIRD kind 3 address 3 length 24; \
records 4; PUBLREF COUNT at; UNITREF THIRD at 2; EOFMARK next 0 \
| refused 35 NoSlot file 1 slot 15 record 1
sixteen segments, and two entries of the unit's name \
| slot 15 name TOOLS kind 0 address 3 length 5 | slot 4 name AUX kind 3 address 3 length 24 \
| refused 35 NoSlot file 1 slot 7 record 0
sixteen segments | slot 15 name TOOLS kind 0 address 3 length 5 | - \
| refused 35 NoSlot file 1 slot 7 record 0
sixteen segments, and no unit | slot 15 name TOOLS kind 0 address 3 length 5 \
| slot 3 length 0 | refused 13 MissingUnit file 1 slot 7 record 0
files eleven, ample memory
# a host that names ten or eleven units, of which the library has not all
eleven | - | - | refused 35 NoSlot file 0 slot 1 record 10
the last missing | - | slot 10 name - kind 0 address 0 length 0 \
| refused 35 NoSlot file 0 slot 1 record 10
ten missing | - | slot 9 name - kind 0 address 0 length 0; \
slot 10 name - kind 0 address 0 length 0 | refused 13 MissingUnit file 0 slot 1 record 10
nine missing | - | slot 8 name - kind 0 address 0 length 0; \
slot 9 name - kind 0 address 0 length 0; slot 10 name - kind 0 address 0 length 0 \
| refused 13 MissingUnit file 0 slot 1 record 9
ten | fill 1200 16 00 | - | refused 35 NoSlot file 0 slot 1 record 10";

#[test]
fn added_units(rt: HostRuntime) {
    check_rows(&rt, ROWS)
}
