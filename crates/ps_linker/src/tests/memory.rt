//! Memory that is refused.
use super::args::HELP;
use super::faulty::NO_FAULTS;
use super::inputs::{save_all, save_text};
use super::outcome::{clean, done_refused, done_with, holds, holds_image, says};
use super::wanted::Text;
use refusing::Refusing;
use std::process::Abort;
use std::rt::Files;

const NO_MEMORY: &str = "pslink: out of memory\n";

/// The report of a check of the pair.
pub const REPORT: &str = "file 0 memory-host: 1536 bytes, little-endian
file 1 memory-library: 1536 bytes, little-endian
slot 01 DEMO: the host program, from memory-host entry 01, 18 bytes
slot 07 UTIL: a unit that the host wants, from memory-library entry 02, 24 bytes
slots without a segment: 00 02 03 04 05 06 08 09 10 11 12 13 14 15
links: segments 2 private words 4 blocks 3
references of UTIL: 2 of 2 lead to operands, 1 of them to 80 00
";

/// The report as JSON.
pub const JSON_REPORT: &str =
    "{\"links\":true,\"segments\":2,\"private_words\":4,\"blocks\":3,\"fault\":null,\"findings\":[
],\"unsupported\":[
],\"references\":[
{\"path\":\"memory-library\",\"segment\":{\"name\":\"UTIL    \",\"name_hex\":\"5554494C20202020\"},\"references\":2,\"operands\":2,\"zeros\":1}
],\"report\":\"file 0 memory-host: 1536 bytes, little-endian\\nfile 1 memory-library: 1536 bytes, little-endian\\nslot 01 DEMO: the host program, from memory-host entry 01, 18 bytes\\nslot 07 UTIL: a unit that the host wants, from memory-library entry 02, 24 bytes\\nslots without a segment: 00 02 03 04 05 06 08 09 10 11 12 13 14 15\\nlinks: segments 2 private words 4 blocks 3\\nreferences of UTIL: 2 of 2 lead to operands, 1 of them to 80 00\\n\"}
";

/// Where a link writes in these tests. The other commands write nothing there.
const OUT: &str = "memory-out";

/// Refuses the allocation of this number in the args' run. Returns whether there was one: then
/// nothing is printed, and no file is opened to be written. Else OUT is the linked file, where the
/// command links, and no other command opens a file to be written.
fn is_refused<R: Files + AllocGlobal + Abort>(
    rt: &R,
    number: u64,
    args: &str,
    was_there: bool,
    printed: &str,
    linked: Option<&str>,
) -> bool {
    clean(rt, OUT);
    if was_there {
        save_text(rt, OUT, "as before");
    }
    let heap = Refusing::once(rt.alloc(), number);
    let (run, created) = done_refused(rt, &heap, NO_FAULTS, args);
    if heap.has_refused() {
        run.is(rt, (args, number), 4, "", NO_MEMORY);
        says(rt, created == 0, &(args, number));
        if was_there {
            holds(rt, OUT, b"as before", args);
        }
        return true;
    }
    run.is(rt, (args, number), 0, printed, "");
    match linked {
        Some(image) => holds_image(rt, OUT, image, args),
        None => says(rt, created == 0, &args),
    }
    false
}

/// Has each allocation of the args' run refused in turn, until none is: how many were.
fn refused_allocations<R: Files + AllocGlobal + Abort>(
    rt: &R,
    args: &str,
    was_there: bool,
    printed: &str,
    linked: Option<&str>,
) -> u64 {
    for number in 1..1000 {
        if !is_refused(rt, number, args, was_there, printed, linked) {
            return number - 1;
        }
    }
    1000
}

static FILES: &str = "\
memory-in-place HOST_IN_PLACE
memory-host HOST
memory-library LIBRARY";

const LINK_IN_PLACE: &str = "pslink link memory-in-place memory-out";

/// The args, whether OUT is there before, what is printed, what OUT then has, and how many
/// allocations are refused at least.
static ROWS: [(&str, bool, Text, Option<&str>, u64); 10] = [
    (
        LINK_IN_PLACE,
        false,
        Text::SummaryInPlace,
        Some("LINKED_HOST_IN_PLACE"),
        5,
    ),
    (
        "pslink link memory-host memory-out memory-library",
        true,
        Text::SummaryOfPair,
        Some("LINKED_PAIR"),
        5,
    ),
    (
        "pslink link -o memory-out --json memory-host memory-library",
        true,
        Text::JsonSummary,
        Some("LINKED_PAIR"),
        5,
    ),
    (
        "pslink link -o memory-out --map memory-map --references memory-host memory-library",
        true,
        Text::SummaryOfPair,
        Some("LINKED_PAIR"),
        10,
    ),
    (
        "pslink map memory-host memory-library",
        false,
        Text::MapOfPair,
        None,
        5,
    ),
    (
        "pslink map --references memory-host memory-library",
        false,
        Text::ReferencesOfPair,
        None,
        10,
    ),
    (
        "pslink map --json --references memory-host memory-library",
        false,
        Text::JsonOfPair,
        None,
        10,
    ),
    (
        "pslink show memory-library",
        false,
        Text::ShownLibrary,
        None,
        1,
    ),
    (
        "pslink check memory-host memory-library",
        false,
        Text::ReportOfPair,
        None,
        8,
    ),
    (
        "pslink check --json memory-host memory-library",
        false,
        Text::JsonReportOfPair,
        None,
        9,
    ),
];

#[test]
fn each_allocation_is_refused(rt: HostRuntime) {
    save_all(&rt, FILES);
    for (args, was_there, printed, linked, least) in &ROWS {
        let refused = refused_allocations(&rt, *args, *was_there, printed.text(), *linked);
        says(&rt, (*least..1000).contains(&refused), &(*args, refused));
    }
    clean(
        &rt,
        "memory-in-place memory-host memory-library memory-out memory-map",
    );
}

static LISTED_FILE: &str = "memory-listed LIBRARY";

const LISTED: &str = "memory-listed: little-endian, 1536 bytes, library
memory-listed: slot 02 UTIL     unit, 24 bytes
";

const LISTED_UNITS: &str = "memory-listed: little-endian, 1536 bytes, library
memory-listed: slot 02 UTIL     unit, 24 bytes
memory-listed: slot 02 UTIL     by itself, no fault
";

const JSON_LISTED: &str = "{\"files\":[
{\"path\":\"memory-listed\",\"length\":1536,\"type\":null,\"order\":\"little\",\"contents\":\"library\",\"fault\":null,\"segments\":[
{\"slot\":2,\"name\":\"UTIL    \",\"name_hex\":\"5554494C20202020\",\"kind\":3,\"role\":\"unit\",\"length\":24,\"fault\":null,\"uses\":[]}
]}
]}
";

const JSON_LISTED_UNITS: &str = "{\"files\":[
{\"path\":\"memory-listed\",\"length\":1536,\"type\":null,\"order\":\"little\",\"contents\":\"library\",\"fault\":null,\"segments\":[
{\"slot\":2,\"name\":\"UTIL    \",\"name_hex\":\"5554494C20202020\",\"kind\":3,\"role\":\"unit\",\"length\":24,\"fault\":null,\"uses\":[]}
],\"units\":[
{\"slot\":2,\"name\":\"UTIL    \",\"name_hex\":\"5554494C20202020\",\"fault\":null}
]}
]}
";

const JSON_UNLISTED: &str = "{\"files\":[
{\"path\":\"memory-listed\",\"length\":null,\"type\":null,\"order\":null,\"contents\":null,\"fault\":null,\"segments\":[
]}
]}
";

const UNLISTED: &str = "pslink: cannot read memory-listed (out of memory)\n";

/// The args, what is printed of the file, and what is printed where there is no memory for it.
static LISTS: [(&str, &str, &str); 4] = [
    ("pslink list memory-listed", LISTED, ""),
    (
        "pslink list --json memory-listed",
        JSON_LISTED,
        JSON_UNLISTED,
    ),
    ("pslink check --unit memory-listed", LISTED_UNITS, ""),
    (
        "pslink check --unit --json memory-listed",
        JSON_LISTED_UNITS,
        JSON_UNLISTED,
    ),
];

/// Refuses the allocation of this number in the run of a list. Returns its status, which is 0 exactly
/// where there was none: it is 4 before a file is read, and 3 where the file or its list has no memory.
fn status_of_list<R: Files + AllocGlobal + Abort>(
    rt: &R,
    number: u64,
    (args, listed, unlisted): (&str, &str, &str),
) -> u8 {
    let heap = Refusing::once(rt.alloc(), number);
    let (run, _) = done_refused(rt, &heap, NO_FAULTS, args);
    match (heap.has_refused(), run.status) {
        (false, _) => run.is(rt, (args, number), 0, listed, ""),
        (true, 4) => run.is(rt, (args, number), 4, "", NO_MEMORY),
        (true, _) => run.is(rt, (args, number), 3, unlisted, UNLISTED),
    }
    run.status
}

/// Has each allocation of a list refused in turn, until none is: how many lists end with status 3.
fn unread_lists<R: Files + AllocGlobal + Abort>(rt: &R, row: (&str, &str, &str)) -> u64 {
    let mut unread = 0u64;
    for number in 1..1000 {
        match status_of_list(rt, number, row) {
            0 => return unread,
            3 => unread = unread.saturating_add(1),
            _ => {}
        }
    }
    1000
}

/// Refuses each allocation of each list of the library: at least one ends with status 3.
fn lacks_memory<R: Files + AllocGlobal + Abort>(rt: &R) {
    save_all(rt, LISTED_FILE);
    for row in &LISTS {
        let unread = unread_lists(rt, *row);
        says(rt, (1..1000).contains(&unread), &(row.0, unread));
    }
    clean(rt, "memory-listed");
}

#[test]
fn a_list_lacks_memory_only_where_it_is_refused(rt: HostRuntime) {
    lacks_memory(&rt)
}

#[test]
fn help_without_memory(rt: HostRuntime) {
    let heap = Refusing::from(rt.alloc(), 1);
    let help = done_with(&rt, &heap, "pslink --help");
    help.is(&rt, "help", 0, HELP, "");
    says(&rt, heap.allocations() == 0, &heap.allocations())
}
