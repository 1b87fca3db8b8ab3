//! Every type of link record and every format of a reference record.
use super::record_rows::Reader;
use super::rows::check_all;

/// A record of each type and of each format with an EOFMARK after it, and what they are read as, or
/// how the record is refused.
static ROWS: &str = "TYPE 0 COUNT 2 0 5; EOFMARK next 0 | 32 | EOFMARK next 2
TYPE 1 COUNT 2 0 5; EOFMARK next 0 | 32 | BadFormat at record 0
TYPE 2 COUNT 2 0 5; EOFMARK next 0 | 32 | NativeRecord at record 0
TYPE 3 COUNT 2 0 5; EOFMARK next 0 | 32 | PUBLREF COUNT    at; EOFMARK next 0
TYPE 4 COUNT 2 0 5; EOFMARK next 0 | 32 | PRIVREF COUNT    words 5 at; EOFMARK next 0
TYPE 5 COUNT 2 0 5; EOFMARK next 0 | 32 | NativeRecord at record 0
TYPE 6 COUNT 2 0 5; EOFMARK next 0 | 32 | NativeRecord at record 0
TYPE 7 COUNT 2 0 5; EOFMARK next 0 | 32 | PUBLDEF COUNT    value 2; EOFMARK next 0
TYPE 8 COUNT 2 0 5; EOFMARK next 0 | 32 | CONSTDEF COUNT    value 2; EOFMARK next 0
TYPE 9 COUNT 2 0 5; EOFMARK next 0 | 32 | NativeRecord at record 0
TYPE 10 COUNT 2 0 5; EOFMARK next 0 | 32 | NativeRecord at record 0
TYPE 11 COUNT 2 0 5; EOFMARK next 0 | 32 | SeparateRecord at record 0
TYPE 12 COUNT 2 0 5; EOFMARK next 0 | 32 | SeparateRecord at record 0
TYPE 13 COUNT 2 0 5; EOFMARK next 0 | 32 | SeparateRecord at record 0
TYPE 14 COUNT 2 0 5; EOFMARK next 0 | 32 | SeparateRecord at record 0
TYPE 15 COUNT 2 0 5; EOFMARK next 0 | 32 | UnknownRecord at record 0
TYPE 65535 COUNT 2 0 5; EOFMARK next 0 | 32 | UnknownRecord at record 0
TYPE 1 COUNT 0 0 0; EOFMARK next 0 | 32 | NativeRecord at record 0
TYPE 1 COUNT 1 0 0; EOFMARK next 0 | 32 | UNITREF COUNT    at; EOFMARK next 0
TYPE 1 COUNT 2 0 0; EOFMARK next 0 | 32 | BadFormat at record 0
TYPE 1 COUNT 3 0 0; EOFMARK next 0 | 32 | BadFormat at record 0
TYPE 3 COUNT 0 0 0; EOFMARK next 0 | 32 | NativeRecord at record 0
TYPE 3 COUNT 1 0 0; EOFMARK next 0 | 32 | BadFormat at record 0
TYPE 3 COUNT 2 0 0; EOFMARK next 0 | 32 | PUBLREF COUNT    at; EOFMARK next 0
TYPE 3 COUNT 3 0 0; EOFMARK next 0 | 32 | BadFormat at record 0
TYPE 4 COUNT 0 0 0; EOFMARK next 0 | 32 | NativeRecord at record 0
TYPE 4 COUNT 1 0 0; EOFMARK next 0 | 32 | BadFormat at record 0
TYPE 4 COUNT 2 0 0; EOFMARK next 0 | 32 | PRIVREF COUNT    words 0 at; EOFMARK next 0
TYPE 4 COUNT 3 0 0; EOFMARK next 0 | 32 | BadFormat at record 0";

#[test]
fn each_type_and_each_format_in_either_byte_order(rt: HostRuntime) {
    check_all(&rt, &Reader::List, ROWS)
}

/// PUBLREF records whose lists have one reference and are truncated, and how they are refused: a
/// wrong format is named before the list.
static CUT_LISTS: &str = "TYPE 3 COUNT 0 1 0 | 16 | NativeRecord at record 0
TYPE 3 COUNT 1 1 0 | 16 | BadFormat at record 0
TYPE 3 COUNT 2 1 0 | 16 | RecordsTruncated at record 0";

#[test]
fn a_wrong_format_is_named_before_a_list_that_is_cut(rt: HostRuntime) {
    check_all(&rt, &Reader::List, CUT_LISTS)
}
