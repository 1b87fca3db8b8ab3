//! What is said of private variables that do not fit.
use crate::cases::Case;
use ps_check_segments::host_of;
use std::fmt::{self, Formatter, Write};

/// How many words there are already, and how many the variable takes; or the sizes that together
/// are too large.
pub(super) fn write_words<W: Write>(f: &mut Formatter<W>, case: &Case<'_, '_>) -> fmt::Result {
    if host_of(case.list).is_none() {
        return Ok(());
    }
    if let Some(own) = case.private_words() {
        let first = case.base_offset();
        return writeln!(f, "  it takes {own} words from base offset {first} on");
    }
    let size = case.data_size().unwrap_or(0);
    let bytes = case.words.saturating_mul(2);
    writeln!(
        f,
        "  the program's own data have {size} bytes, and the private variables {bytes}"
    )
}
