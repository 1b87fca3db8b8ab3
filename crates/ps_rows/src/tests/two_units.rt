//! A host that wants two units.
use super::rows::check_rows;

static ROWS: &str = "files two-units, each allocation refused
a private variable of each, of one name | - | - | word 1 4 26; code 3 2 03; code 3 5 0E \
| segments 3 private words 8 blocks 4
a reference to the first unit | - | code 3 0 CD0502D7D7D7D7D7AD000000000006001000010002000301; \
records 4; UNITREF UTIL at 1; EOFMARK next 0 \
| code 3 0 CD0502D7D7D7D7D7AD000000000006001000010002000301; code 3 1 07; code 3 22 08 \
| segments 3 private words 4 blocks 4";

#[test]
fn two_units(rt: HostRuntime) {
    check_rows(&rt, ROWS)
}
