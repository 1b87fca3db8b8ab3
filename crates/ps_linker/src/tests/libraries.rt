//! Many libraries: each is read whole, and the first that has the unit is used.
use super::inputs::{SUMMARY_OF_PAIR, save_all, save_text};
use super::outcome::{clean, clean_all, gives, holds_image};
use std::process::Abort;
use std::rt::Files;

/// The arguments of a link before its libraries.
const LINK: &str = "pslink link forty-host forty-out";

/// How many libraries it has, and where the first is among them, the seventeenth and the last.
const LIBRARIES: usize = 40;

const FIRST: usize = 0;

const SEVENTEENTH: usize = 16;

const LAST: usize = 39;

const REFUSED: &str = "pslink: refused 13 MissingUnit file 0 slot 7\n";

const LAST_SHORT: &str = "pslink: refused 1 ShortFile file 40\n";

const SEVENTEENTH_SHORT: &str = "pslink: refused 1 ShortFile file 17\n";

static FILES: &str = "\
forty-host HOST
forty-library LIBRARY
forty-other OTHER_LIBRARY
forty-without LIBRARY_WITHOUT_UNIT";

/// Where another library is among the forty, its name, the status and the two texts, and what
/// OUT then has. It stays there in the rows below.
static ROWS: [(usize, &str, u8, &str, &str, &str); 5] = [
    (LAST, "forty-library", 0, SUMMARY_OF_PAIR, "", "LINKED_PAIR"),
    (
        SEVENTEENTH,
        "forty-other",
        0,
        SUMMARY_OF_PAIR,
        "",
        "LINKED_WITH_OTHER",
    ),
    (
        FIRST,
        "forty-library",
        0,
        SUMMARY_OF_PAIR,
        "",
        "LINKED_PAIR",
    ),
    (LAST, "forty-short", 1, "", LAST_SHORT, "LINKED_PAIR"),
    (
        SEVENTEENTH,
        "forty-short",
        1,
        "",
        SEVENTEENTH_SHORT,
        "LINKED_PAIR",
    ),
];

/// The arguments with these libraries.
fn args_with<R: AllocGlobal + Abort>(rt: &R, libraries: &[&str; LIBRARIES]) -> String {
    let mut args = String::from_str(rt.alloc(), LINK).expect(rt, "no memory");
    for library in libraries {
        args.push_str(" ").expect(rt, "no memory");
        args.push_str(*library).expect(rt, "no memory");
    }
    args
}

/// Links with forty libraries, of which all but those of the rows so far have no unit.
fn links_each_row<R: Files + AllocGlobal + Abort>(
    rt: &R,
    libraries: &mut [&'static str; LIBRARIES],
) {
    for (place, library, status, printed, complained, wanted) in &ROWS {
        libraries[*place] = *library;
        let args = args_with(rt, libraries);
        gives(rt, args.as_str(), *status, *printed, *complained);
        holds_image(rt, "forty-out", *wanted, *library);
    }
}

/// Links with forty libraries, of which none has the unit, and then as the rows say.
fn links_forty<R: Files + AllocGlobal + Abort>(rt: &R) {
    save_all(rt, FILES);
    save_text(rt, "forty-short", "a library under 512 bytes");
    save_text(rt, "forty-out", "as before");
    let mut libraries = ["forty-without"; LIBRARIES];
    let args = args_with(rt, &libraries);
    gives(rt, args.as_str(), 1, "", REFUSED);
    links_each_row(rt, &mut libraries);
    clean_all(rt, FILES);
    clean(rt, "forty-out forty-short");
}

#[test]
fn forty_libraries(rt: HostRuntime) {
    links_forty(&rt)
}
