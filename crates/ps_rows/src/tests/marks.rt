//! What show says of UNITREF records whose unit the file has, and of those whose unit it has not.
use super::texts::shows_each;
use ps_words::Order;

/// What slot 3 is said to have, the names of the texts of a library and its changes, and the lines of
/// its link information.
static ROWS: &str = "|LIBRARY|records 2; UNITREF \0\0\0\0\0\0\0\0 at 2; EOFMARK next 0\
|links 02;0 UNITREF ???????? at 2 unlisted;1 EOFMARK next 0
|LIBRARY|records 2; UNITREF AUX at 2; EOFMARK next 0\
|links 02;0 UNITREF AUX      at 2 unlisted;1 EOFMARK next 0
|LIBRARY|records 2; UNITREF AUX at; EOFMARK next 0\
|links 02;0 UNITREF AUX      at unlisted;1 EOFMARK next 0
|LIBRARY|records 2; UNITREF AUX at 2 5; EOFMARK next 0\
|links 02;0 UNITREF AUX      at 2 5 unlisted;1 EOFMARK next 0
AUX      kind 3 address 3 length 24 text 0|LIBRARY HAS_AUX USES_AUX|\
|links 02;0 UNITREF AUX      at 2;1 EOFMARK next 0\
;links 03;0 PUBLREF COUNT    at 1;1 PRIVREF STATE    words 4 at 4;2 EOFMARK next 0";

const BIG_ROW: &str = "|LIBRARY|records 2; UNITREF UTIL at 2; UNITREF AUX at 2 5; EOFMARK next 0\
|links 02;0 UNITREF UTIL     at 2;1 UNITREF AUX      at 2 5 unlisted;2 EOFMARK next 0";

#[test]
fn the_show_of_units_that_a_file_has_and_has_not(rt: HostRuntime) {
    shows_each(&rt, Order::Little, ROWS);
    shows_each(&rt, Order::Big, BIG_ROW)
}
