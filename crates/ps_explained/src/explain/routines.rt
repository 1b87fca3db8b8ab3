//! The routines that a compiler leaves to the library of the p-System.
use crate::cases::Case;
use crate::record_head::RecordHead;
use ps_words::{Name, Reason};

/// What to do about a routine for SEEK.
const SEEK: &str =
    "The compiler left SEEK to SYSTEM.LIBRARY, and pslink does not link that. Link this program by the p-System's Linker, or write it without.";

/// What to do about a routine for real numbers.
const REALS: &str =
    "The compiler left the reading and writing of real numbers to SYSTEM.LIBRARY, and pslink does not link that. Link this program by the p-System's Linker, or write it without.";

/// What to do about a routine for long integers.
const LONG_INTEGERS: &str =
    "The compiler left long integers to SYSTEM.LIBRARY, and pslink does not link that. Link this program by the p-System's Linker, or write it without.";

/// The names of the routines, by eight characters, and what to do about each.
const ROUTINES: [(Name, &str); 6] = [
    (*b"FSEEK   ", SEEK),
    (*b"FREADREA", REALS),
    (*b"FWRITERE", REALS),
    (*b"FREADDEC", LONG_INTEGERS),
    (*b"FWRITEDE", LONG_INTEGERS),
    (*b"DECOPS  ", LONG_INTEGERS),
];

/// What to do about the routine of this name.
fn remedy_for(name: &Name) -> Option<&'static str> {
    for (routine, remedy) in &ROUTINES {
        if routine == name {
            return Some(*remedy);
        }
    }
    None
}

/// What to do about a record that pslink does not link, where it is of a routine that the compiler
/// itself left to the library of the p-System: nobody wrote it.
pub(super) fn remedy_of_routine(case: &Case<'_, '_>) -> Option<&'static str> {
    match case.fault.reason {
        Reason::NativeRecord | Reason::SeparateRecord => {
            let (order, rest) = case.unread()?;
            remedy_for(&RecordHead::first_in(order, rest)?.name)
        }
        _ => None,
    }
}
