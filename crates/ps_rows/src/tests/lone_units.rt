//! A unit by itself: what refuses it in a link with a host that would define each name.
ghost use Rattle.std.specs.Prelude.{◌<◌};

use super::answers::{LITTLE, is, text_of_fault};
use super::rows::{Row, changes, check_all, field};
use super::tables::{HOST_TEXTS, LIBRARY_TEXTS};
use crate::code_file::{Changes, CodeFile};
use ps_codefile::dictionary_layout::SLOTS;
use ps_resolve::{lone_fault, read};
use ps_words::Order;
use std::process::Abort;

/// What a row shows, the changes of the base library, and the first fault of its unit, in slot 2.
static ROWS: &str = "the unit of the base library | - | no fault
a unit that no one has | records 2; UNITREF NOBODY at 2; EOFMARK next 0 | no fault
a code that is cut | slot 2 length 17 | refused 11 BadLength file 0 slot 2
a record of an unknown type | at 1032 0F | refused 20 UnknownRecord file 0 slot 2 record 0
an operand that ends behind the code | records 2; PUBLREF COUNT at 1 23; EOFMARK next 0 \
| refused 31 OutsideCode file 0 slot 2 record 0 reference 1
an operand in the procedure dictionary | records 2; UNITREF NOBODY at 22; EOFMARK next 0 \
| refused 32 ReservedPlace file 0 slot 2 record 0 reference 0
an operand that begins in another | records 2; PUBLREF COUNT at 1; \
PRIVREF STATE words 4 at 4 2; EOFMARK next 0 \
| refused 33 Overlap file 0 slot 2 record 1 reference 1
the greatest displacement of a public | code 1 1 FFFE | no fault
a displacement of a public above it | code 1 1 FFFF \
| refused 34 OperandTooLarge file 0 slot 2 record 0 reference 0
the greatest displacement of a private | code 1 4 FFFE | no fault
a displacement of a private above it | code 1 4 FFFF \
| refused 34 OperandTooLarge file 0 slot 2 record 1 reference 0
a private after another | code 1 4 FFFE; records 2; PRIVREF COUNT words 1 at 1; \
PRIVREF STATE words 4 at 4; EOFMARK next 0 \
| refused 34 OperandTooLarge file 0 slot 2 record 1 reference 0
two privates of one name | records 2; PRIVREF STATE words 4 at 24; PRIVREF STATE words 4 at 4; \
EOFMARK next 0 | refused 25 DoubledPrivate file 0 slot 2 record 1
the largest private | records 2; PRIVREF STATE words 32766 at 4; EOFMARK next 0 | no fault
a private that is larger | records 2; PRIVREF STATE words 32767 at 4; EOFMARK next 0 \
| refused 26 NoRoom file 0 slot 2 record 0";

/// Checks the first fault of the segment in a slot of a file, beside libraries.
fn has_fault(
    rt: &(impl Abort + AllocGlobal),
    files: (&[u8], &[&[u8]]),
    slot: u8,
    what: &str,
    wanted: &str,
)
    requires { slot < SLOTS }
{
    let alloc = rt.alloc();
    let (file, libraries) = files;
    let reading = read(file, libraries);
    let host = reading.host().expect(rt, "the file cannot be opened");
    let found = lone_fault(alloc, host, slot).expect(rt, "no memory");
    is(rt, what, text_of_fault(alloc, found), wanted)
}

/// The unit of the base library in a byte order.
struct UnitRows {
    order: Order,
}

impl Row for UnitRows {
    fn check<R: Abort + AllocGlobal>(&self, rt: &R, row: &str) {
        let (what, rest) = field(rt, row);
        let (changes, wanted) = changes(rt, rest);
        let file = CodeFile::of(rt, self.order, LIBRARY_TEXTS, changes);
        has_fault(rt, (file.as_slice(), &[]), 2, what, wanted)
    }
}

#[test]
fn units_by_themselves(rt: HostRuntime) {
    check_all(
        &rt,
        &UnitRows {
            order: Order::Little,
        },
        ROWS,
    );
    check_all(&rt, &UnitRows { order: Order::Big }, ROWS)
}

/// Checks the first fault of the segment in a slot of the base host with changes.
fn host_has_fault(
    rt: &(impl Abort + AllocGlobal),
    changes: Changes<'_>,
    slot: u8,
    what: &str,
    wanted: &str,
)
    requires { slot < SLOTS }
{
    let host = CodeFile::of(rt, LITTLE, HOST_TEXTS, changes);
    has_fault(rt, (host.as_slice(), &[]), slot, what, wanted)
}

/// The base host with a segment that is linked already.
const WITH_TOOLS: Changes<'static> =
    "size 1541; code 3 0 0102030405; slot 8 name TOOLS kind 0 address 3 length 5";

const WITH_CUONT: Changes<'static> = "records 2; PUBLREF CUONT at 4; EOFMARK next 8";

#[test]
fn segments_that_are_no_units_of_the_file(rt: HostRuntime) {
    host_has_fault(&rt, "", 0, "an empty slot", "no fault");
    host_has_fault(&rt, "", 1, "a host", "no fault");
    host_has_fault(&rt, WITH_CUONT, 1, "a name of no definition", "no fault");
    host_has_fault(&rt, WITH_TOOLS, 8, "a plain segment", "no fault");
    let wanted = "refused 13 MissingUnit file 0 slot 7";
    host_has_fault(&rt, "", 7, "a wanted unit", wanted)
}

#[test]
fn a_wanted_unit_of_a_library(rt: HostRuntime) {
    let host = CodeFile::new(&rt, LITTLE, HOST_TEXTS);
    let library = CodeFile::new(&rt, LITTLE, LIBRARY_TEXTS);
    let files: (&[u8], &[&[u8]]) = (host.as_slice(), &[library.as_slice()]);
    has_fault(&rt, files, 7, "a wanted unit that is there", "no fault")
}
