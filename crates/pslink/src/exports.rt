//! What `library/pslink.c` calls, and the release, which the library exports too. C hands a slice
//! over as a pointer and then a length, and a `Global` as nothing; an `Answer` is its
//! `pslink_answer`.
ghost use Rattle.std.specs.Prelude.{◌≡◌, ◌≢◌, ◌≤◌, ◌<◌, length, sum, IfNone, IfSome};
ghost use Rattle.ps_resolve.specs.Standing.{NoneStandsInReading};
ghost use Rattle.ps_c_link.specs.Libraries.{split};
ghost use Rattle.ps_c_link.specs.Answers.{bare, closed_text, fault_told, IsStatus, IsTextStatus};
ghost use Rattle.ps_c_link.specs.Rooms.{RoomBeginsWith};
ghost use Rattle.ps_c_texts.specs.Kinds.{text_kind as text_kind_spec};
ghost use Rattle.ps_c_texts.specs.Calls.{IsAnswered, Links, LinkNeeds, Refuses};

use ps_c_link::{
    Answer, DONE, LIBRARIES_IN_PLACE, LINKED_MAX, MISUSE, NO_MEMORY, REFUSED, TOO_SMALL, link,
};
use ps_c_texts::{FAULT_TEXT_MAX, put_fault, text, text_kind};
use std::alloc::Global;

/// The release of pslink as a number: 10000 times its first part, 100 times its second, and its
/// third.
pub const RELEASE_NUMBER: u32 = 400;

/// Links a host with the units that it uses into `out`, and answers how it went.
///
/// `host` is a whole code file. `libs` has whole code files, one after another, and `lengths` the
/// length of each; of the libraries that have a unit, the first is used. Answers `DONE`, and `out`
/// then begins with the linked file; `REFUSED` with the first fault of all; `MISUSE` where
/// `lengths` do not add up to the length of `libs`; `NO_MEMORY` where memory was refused, which is
/// requested only once the files were read and have no fault, unless there are more than
/// `LIBRARIES_IN_PLACE` libraries; and `TOO_SMALL` where `out` is shorter than the linked file.
/// Source: UCSD Pascal II.0 manual, code file format; the published II.0 Linker source; the layout
/// and the interface are this project's profile.
#[unsafe(no_mangle)]
pub extern "C" fn pslink_link_nonnull(
    alloc: Global,
    host: &[u8],
    libs: &[u8],
    lengths: &[usize],
    out: &mut [u8],
    answer: &mut Answer,
) -> u32
    ensures status { answer.new.status ≡ result }
    ensures known { IsStatus result }

    // What is done, and what is refused.
    ensures linked { result ≡ DONE
        → Links host.now (split libs.now lengths.now) out.old out.new answer.new }
    ensures refused { result ≡ REFUSED
        → Refuses host.now (split libs.now lengths.now) answer.new }

    // Why else nothing is done.
    ensures wrong { result ≡ MISUSE → sum lengths.now ≢ length libs.now }
    ensures right { result ≢ MISUSE → sum lengths.now ≡ length libs.now }
    ensures memory { result ≡ NO_MEMORY → length lengths.now ≤ LIBRARIES_IN_PLACE
        → NoneStandsInReading host.now (split libs.now lengths.now) }
    ensures small { result ≡ TOO_SMALL
        → LinkNeeds host.now (split libs.now lengths.now) out.old answer.new }
    ensures enough { LINKED_MAX ≤ length out.old → result ≢ TOO_SMALL }

    // What stays as it was, and what is not said.
    ensures untouched { result ≢ DONE → out.new ≡ out.old }
    ensures bare_wrong { result ≡ MISUSE → answer.new ≡ bare MISUSE }
    ensures bare_memory { result ≡ NO_MEMORY → answer.new ≡ bare NO_MEMORY }
{
    *answer = match link(alloc, host, libs, lengths, out) {
        Ok(done) => Answer::of(Ok(done)),
        Err(error) => Answer::of(Err(error.into())),
    };
    answer.status
}

/// Puts a text of a host and its libraries in `out`, as the program prints it, or names of units,
/// and answers how it went.
///
/// `what` is the number of the text, of those of `kinds`, and `JSON` more where it is a document,
/// which names of units have not. `host`, `libs` and `lengths` are those of
/// `pslink_link_nonnull`. `names` has the names of the files in the text, UTF-8, one after another,
/// and `name_lengths` the length of each, that of the host first; of a text in which the files have
/// no names, these two are not looked at. Answers `DONE`, and `out` then begins with the text, and
/// the answer of a report, or of what it finds, has its verdict and how many warnings it has;
/// `MISUSE` where there is no such text, where `lengths` do not add up to the length of `libs` or `name_lengths` to that of
/// `names`, and where there is not one name for each file; `WRONG_NAMES` where all that is right
/// and a name is no UTF-8; `REFUSED` with the first fault of all, of a map, and where `host` cannot
/// be read, of what it has and of names of units; `NO_MEMORY` where memory was refused; and
/// `TOO_SMALL` where `out` is shorter than the text.
/// Source: UCSD Pascal II.0 manual, code file format; the texts are this project's profile.
#[unsafe(no_mangle)]
pub extern "C" fn pslink_text_nonnull(
    alloc: Global,
    what: u32,
    host: &[u8],
    libs: &[u8],
    lengths: &[usize],
    names: &[u8],
    name_lengths: &[usize],
    out: &mut [u8],
    answer: &mut Answer,
) -> u32
    ensures status { answer.new.status ≡ result }
    ensures known { IsTextStatus result }
    ensures answered { IsAnswered (text_kind_spec what) host.now libs.now lengths.now
        names.now name_lengths.now out.old out.new answer.new }
    ensures untouched { result ≢ DONE → out.new ≡ out.old }
{
    *answer = match text_kind(what) {
        Some(kind) => Answer::of(text(alloc, kind, host, libs, lengths, names, name_lengths, out)),
        None => Answer::bare(MISUSE),
    };
    answer.status
}

/// Puts the text of the fault that an answer has in `out`, with a closing 0, and returns how many
/// bytes it has, at most `FAULT_TEXT_MAX`.
///
/// Where `out` is shorter, nothing is written. Returns 0, and writes nothing, where the answer has
/// no fault.
#[unsafe(no_mangle)]
pub extern "C" fn pslink_fault_text_nonnull(answer: &Answer, out: &mut [u8]) -> usize
    ensures size { IfSome (fault_told answer.now) (λ fault. result ≡ length (closed_text fault)) }
    ensures most { result ≤ FAULT_TEXT_MAX }
    ensures text { IfSome (fault_told answer.now) (λ fault. result ≤ length out.old
        → RoomBeginsWith (closed_text fault) out.old out.new) }
    ensures short { length out.old < result → out.new ≡ out.old }
    ensures untold { IfNone (fault_told answer.now) (result ≡ 0) }
    ensures nothing { result ≡ 0 → out.new ≡ out.old }
{
    match answer.fault() {
        Some(fault) => put_fault(fault, out),
        None => 0,
    }
}

/// The release of pslink as a number: 10000 times its first part, 100 times its second, and its
/// third.
#[unsafe(no_mangle)]
pub extern "C" fn pslink_release_number() -> u32
    ensures named { result ≡ RELEASE_NUMBER }
    ensures number { result ≡ 400 }
{
    RELEASE_NUMBER
}
