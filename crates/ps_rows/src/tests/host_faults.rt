//! Why a host is refused, whatever units it has.
use super::rows::check_each;

/// The refusals that are found before anything grows.
static ROWS: &str = "# segment dictionaries
no whole block | size 511 | - | refused 1 ShortFile file 0
a byte of either order | at 193 01 | - | refused 2 NoOrder file 0
a host segment with no code | slot 1 length 0 | - | refused 4 NoHost file 0
a second host segment | slot 2 name - kind 1 address 1 length 18 | - \
| refused 5 TwoHosts file 0 slot 2
a unit and a wanted unit of one name | slot 8 name UTIL kind 3 address 0 length 0 | - \
| refused 6 DoubledSegment file 0 slot 8
kind 2 | slot 8 name - kind 2 address 1 length 18 | - | refused 7 SegmentProcedure file 0 slot 8
kind 4 | slot 8 name - kind 4 address 1 length 18 | - | refused 8 NativeSegment file 0 slot 8
kind 6 | slot 8 name - kind 6 address 1 length 18 | - | refused 9 Intrinsic file 0 slot 8
kind 8 | slot 8 name - kind 8 address 1 length 18 | - | refused 10 UnknownKind file 0 slot 8
# codes
an odd length | slot 1 length 17 | - | refused 11 BadLength file 0 slot 1
a length of 2 | slot 1 length 2 | - | refused 11 BadLength file 0 slot 1
address 0 | slot 1 address 0 | - | refused 12 BadAddress file 0 slot 1
17 bytes of 18 | size 529 | - | refused 16 Truncated file 0 slot 1
# procedure dictionaries and attribute tables
no body of procedure 1 | code 1 14 00 | - | refused 17 BadProcDict file 0 slot 1
# the table of procedure 2 is at 10, of the number 0
no body of procedure 1, and native code in procedure 2 | code 1 10 0000020000000102 | - \
| refused 17 BadProcDict file 0 slot 1
# link information
no information | size 530 | - | refused 19 RecordsTruncated file 0 slot 1 record 0
a file that ends before it | size 1023 | - | refused 19 RecordsTruncated file 0 slot 1 record 0";

/// Definitions, for which memory is taken.
pub(crate) static DEFINITIONS: &str =
    "two definitions | records 2; PUBLDEF COUNT value 3; PUBLDEF COUNT value 4; EOFMARK next 8 | - \
| refused 24 DoubledDefinition file 0 slot 1 record 1
a constant and a definition | records 2; CONSTDEF COUNT value 3; PUBLDEF COUNT value 4; \
EOFMARK next 8 | - | refused 24 DoubledDefinition file 0 slot 1 record 1";

/// The hosts: with the unit in place, in a library and nowhere.
#[test]
fn faults_of_hosts(rt: HostRuntime) {
    check_each(&rt, "in-place, no allocation", ROWS);
    check_each(&rt, "pair, no allocation", ROWS);
    check_each(&rt, "host-alone, no allocation", ROWS)
}
