//! The code files that the tests run on, and the texts that are wanted of them.
use super::outcome::says;
use ps_words::Order;
use sample_files::{CodeFile, behind_name};
use std::fs;
use std::process::Abort;
use std::rt::Files;

/// The code file of this name.
pub fn file_of<R: AllocGlobal + Abort>(rt: &R, name: &str) -> CodeFile {
    let image = behind_name(IMAGES, ": ", name).expect(rt, name);
    let (texts, changes) = image.split_once(" |").expect(rt, name);
    let (order, texts) = match texts.strip_prefix("big ") {
        None => (Order::Little, texts),
        Some(texts) => (Order::Big, texts),
    };
    let mut file = CodeFile::new(rt.alloc(), order, texts);
    file.change(rt.alloc(), changes);
    says(rt, file.is_right(), &name);
    file
}

/// Writes the files of a table, which has a line for each: its path, and the name of the code file.
pub fn save_all<R: Files + AllocGlobal + Abort>(rt: &R, files: &str) {
    for line in files.lines() {
        let (path, name) = line.split_once(' ').expect(rt, line);
        save(rt, path, file_of(rt, name).as_slice());
    }
}

pub fn save<R: Files + Abort>(rt: &R, path: &str, bytes: &[u8]) {
    says(rt, fs::write(rt, path, bytes).is_ok(), &path)
}

/// Writes a file that is no code file.
pub fn save_text<R: Files + Abort>(rt: &R, path: &str, text: &str) {
    save(rt, path, text.as_bytes())
}

/// The code files, each a line: its name, the names of the texts that it is made of, and changes of it.
/// One whose texts have `big` before them is big-endian.
static IMAGES: &str = "# a host with its unit in place, and what it is linked to
HOST_IN_PLACE: HOST HAS_UNIT |
LINKED_HOST_IN_PLACE: LINKED_SEGMENTS LINKED_REFERENCE |
# a host that wants its unit, a library that has it, and what the two are linked to
HOST: HOST |
LIBRARY: LIBRARY |
LINKED_PAIR: LINKED_SEGMENTS LINKED_OPERANDS |
# the host and the library truncated after their end marks, and the library truncated before its last byte
# and in its unit's code
ENDING_HOST: HOST | size 1056
ENDING_LIBRARY: LIBRARY | size 1104
CUT_LIBRARY: LIBRARY | size 1103
LIBRARY_CUT_IN_CODE: LIBRARY | size 535
# the library where two bytes of its unit's code are other ones, and what the host is linked to with it
OTHER_LIBRARY: LIBRARY ZEROS_IN_THE_CODE |
LINKED_WITH_OTHER: LINKED_SEGMENTS LINKED_OPERANDS ZEROS_IN_THE_LINKED_CODE |
# the library where its unit has another name, and the library in the other byte order
LIBRARY_WITHOUT_UNIT: LIBRARY | slot 2 name OTHER
BIG_ENDIAN_LIBRARY: big LIBRARY |
# the host with a constant more
HOST_WITH_CONSTANT: HOST | records 2; PUBLDEF COUNT value 3; CONSTDEF LIMIT value 9; EOFMARK next 8
# libraries with a unit that names a second one: at a place in its code, at none, and where the second is
# there too
USING_LIBRARY: LIBRARY USES_AUX |
NAMING_LIBRARY: LIBRARY | records 2; UNITREF AUX at; EOFMARK next 0
LIBRARY_OF_BOTH: LIBRARY HAS_AUX USES_AUX |
# zeros, one byte less than a dictionary; and a dictionary whose kinds are in no byte order
SHORT_FILE:  | fill 64 128 00; size 511
MIXED_FILE:  | at 192 0101; size 512";

// What is printed of the links of the two hosts.
pub const SUMMARY_IN_PLACE: &str = "segments 2 private words 0 blocks 3\n";

pub const SUMMARY_OF_PAIR: &str = "segments 2 private words 4 blocks 3\n";

/// The map of the host and its library.
pub const MAP_OF_PAIR: &str = "segment 01 DEMO     file 0 entry 01 block 1 length 18
segment 07 UTIL     file 1 entry 02 block 2 length 24
public COUNT    value 3
private 07 STATE    offset 8 words 4
next 12 data 18 blocks 3
";

/// The map of the pair with its references: the data size grows by 8 bytes, COUNT has the value 3
/// and STATE the base offset 8.
pub const REFERENCES_OF_PAIR: &str = "segment 01 DEMO     file 0 entry 01 block 1 length 18
segment 07 UTIL     file 1 entry 02 block 2 length 24
public COUNT    value 3
private 07 STATE    offset 8 words 4
next 12 data 18 blocks 3
data size 01 DEMO     at 4 file 516 was 0A00 is 1200
number 01 DEMO     at 16 file 528 was 01 is 01
reference 07 UTIL     at 1 file 1025 was 8000 is 8003 PUBLREF COUNT    record 0
reference 07 UTIL     at 4 file 1028 was 8002 is 800A PRIVREF STATE    record 1
number 07 UTIL     at 22 file 1046 was 02 is 07
";

/// The map of the pair with its references, as JSON.
pub const JSON_OF_PAIR: &str = "{\"segments\":[
{\"slot\":1,\"name\":\"DEMO    \",\"name_hex\":\"44454D4F20202020\",\"file\":0,\"entry\":1,\"block\":1,\"length\":18,\"added\":false},
{\"slot\":7,\"name\":\"UTIL    \",\"name_hex\":\"5554494C20202020\",\"file\":1,\"entry\":2,\"block\":2,\"length\":24,\"added\":false}
],\"definitions\":[
{\"kind\":\"public\",\"name\":\"COUNT   \",\"name_hex\":\"434F554E54202020\",\"value\":3}
],\"privates\":[
{\"slot\":7,\"name\":\"STATE   \",\"name_hex\":\"5354415445202020\",\"offset\":8,\"words\":4}
],\"next\":12,\"data\":18,\"blocks\":3,\"references\":[
{\"stores\":\"data size\",\"slot\":1,\"name\":\"DEMO    \",\"name_hex\":\"44454D4F20202020\",\"at\":4,\"offset\":516,\"was\":\"0A00\",\"is\":\"1200\",\"record\":null},
{\"stores\":\"number\",\"slot\":1,\"name\":\"DEMO    \",\"name_hex\":\"44454D4F20202020\",\"at\":16,\"offset\":528,\"was\":\"01\",\"is\":\"01\",\"record\":null},
{\"stores\":\"reference\",\"slot\":7,\"name\":\"UTIL    \",\"name_hex\":\"5554494C20202020\",\"at\":1,\"offset\":1025,\"was\":\"8000\",\"is\":\"8003\",\"record\":{\"kind\":\"PUBLREF\",\"name\":\"COUNT   \",\"name_hex\":\"434F554E54202020\",\"index\":0}},
{\"stores\":\"reference\",\"slot\":7,\"name\":\"UTIL    \",\"name_hex\":\"5554494C20202020\",\"at\":4,\"offset\":1028,\"was\":\"8002\",\"is\":\"800A\",\"record\":{\"kind\":\"PRIVREF\",\"name\":\"STATE   \",\"name_hex\":\"5354415445202020\",\"index\":1}},
{\"stores\":\"number\",\"slot\":7,\"name\":\"UTIL    \",\"name_hex\":\"5554494C20202020\",\"at\":22,\"offset\":1046,\"was\":\"02\",\"is\":\"07\",\"record\":null}
]}
";

/// The map of the pair where the host has a constant more.
pub const MAP_WITH_CONSTANT: &str = "segment 01 DEMO     file 0 entry 01 block 1 length 18
segment 07 UTIL     file 1 entry 02 block 2 length 24
public COUNT    value 3
constant LIMIT    value 9
private 07 STATE    offset 8 words 4
next 12 data 18 blocks 3
";

/// The show of a file of this byte order: its slots, of which those in brackets are empty, and the
/// lines of link information.
macro_rules! show {
    ($order:literal, $([$($empty:literal)*] $($slot:literal)?)*; $($line:literal,)*) => {
        concat!(
            "order ",
            $order,
            "\n",
            $(
                $("slot ", $empty, "          kind 0 address 0 length 0 text 0\n",)*
                $("slot ", $slot, "\n",)?
            )*
            $($line, "\n",)*
        )
    };
}

/// The show of the library, up to its link information.
pub const LIBRARY_SLOTS: &str = show!(
    "little",
    ["00" "01"]
    "02 UTIL     kind 3 address 1 length 24 text 0"
    ["03" "04" "05" "06" "07" "08" "09" "10" "11" "12" "13" "14" "15"];
);

/// The show of the library.
pub const SHOWN_LIBRARY: &str = show!(
    "little",
    ["00" "01"]
    "02 UTIL     kind 3 address 1 length 24 text 0"
    ["03" "04" "05" "06" "07" "08" "09" "10" "11" "12" "13" "14" "15"];
    "links 02",
    "0 PUBLREF COUNT    at 1",
    "1 PRIVREF STATE    words 4 at 4",
    "2 EOFMARK next 0",
);

/// The show of the big-endian library.
pub const SHOWN_BIG_ENDIAN: &str = show!(
    "big",
    ["00" "01"]
    "02 UTIL     kind 3 address 1 length 24 text 0"
    ["03" "04" "05" "06" "07" "08" "09" "10" "11" "12" "13" "14" "15"];
    "links 02",
    "0 PUBLREF COUNT    at 1",
    "1 PRIVREF STATE    words 4 at 4",
    "2 EOFMARK next 0",
);

/// The show of the host, up to its link information.
pub const HOST_SLOTS: &str = show!(
    "little",
    ["00"]
    "01 DEMO     kind 1 address 1 length 18 text 0"
    ["02" "03" "04" "05" "06"]
    "07 UTIL     kind 3 address 0 length 0 text 0"
    ["08" "09" "10" "11" "12" "13" "14" "15"];
);

/// The show of what the host and its library are linked to.
pub const SHOWN_LINKED: &str = show!(
    "unknown",
    ["00"]
    "01 DEMO     kind 0 address 1 length 18 text 0"
    ["02" "03" "04" "05" "06"]
    "07 UTIL     kind 0 address 2 length 24 text 0"
    ["08" "09" "10" "11" "12" "13" "14" "15"];
);

/// The show of zeros alone.
pub const SHOWN_ZEROS: &str = "order unknown
slot 00 ???????? kind 0 address 0 length 0 text 0
slot 01 ???????? kind 0 address 0 length 0 text 0
slot 02 ???????? kind 0 address 0 length 0 text 0
slot 03 ???????? kind 0 address 0 length 0 text 0
slot 04 ???????? kind 0 address 0 length 0 text 0
slot 05 ???????? kind 0 address 0 length 0 text 0
slot 06 ???????? kind 0 address 0 length 0 text 0
slot 07 ???????? kind 0 address 0 length 0 text 0
slot 08 ???????? kind 0 address 0 length 0 text 0
slot 09 ???????? kind 0 address 0 length 0 text 0
slot 10 ???????? kind 0 address 0 length 0 text 0
slot 11 ???????? kind 0 address 0 length 0 text 0
slot 12 ???????? kind 0 address 0 length 0 text 0
slot 13 ???????? kind 0 address 0 length 0 text 0
slot 14 ???????? kind 0 address 0 length 0 text 0
slot 15 ???????? kind 0 address 0 length 0 text 0
";

/// The map of the host and the library with both units.
pub const MAP_OF_AN_ADDED_UNIT: &str = "segment 01 DEMO     file 0 entry 01 block 1 length 18
segment 07 UTIL     file 1 entry 02 block 2 length 24
segment 08 AUX      file 1 entry 03 block 3 length 24 added
public COUNT    value 3
private 08 STATE    offset 8 words 4
next 12 data 18 blocks 4
";

/// The show of that library.
pub const SHOW_OF_BOTH_UNITS: &str = show!(
    "little",
    ["00" "01"]
    "02 UTIL     kind 3 address 1 length 24 text 0"
    []
    "03 AUX      kind 3 address 3 length 24 text 0"
    ["04" "05" "06" "07" "08" "09" "10" "11" "12" "13" "14" "15"];
    "links 02",
    "0 UNITREF AUX      at 2",
    "1 EOFMARK next 0",
    "links 03",
    "0 PUBLREF COUNT    at 1",
    "1 PRIVREF STATE    words 4 at 4",
    "2 EOFMARK next 0",
);
