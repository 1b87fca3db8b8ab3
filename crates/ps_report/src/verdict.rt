//! The verdict: whether the files are linked.
ghost use Rattle.std.specs.Prelude.{◌≡◌, IfErr, IfOk, None, Some};
ghost use Rattle.ps_resolve.specs.AllFaults.{reading_fault};
ghost use Rattle.ps_report.specs.Verdicts.{IsVerdict, fault_of, verdict_line};

use ps_linkfile::{Summary, prepare_reading};
use ps_resolve::{Reading, Stop};
use ps_words::Fault;
use std::alloc::{AllocError, Allocator};
use std::fmt::{self, Formatter};

/// Whether a link of the files is done.
///
/// The text of a verdict is one line: `links: ` and the summary, or the line of the refusal.
#[derive(Clone, Copy, Debug, PartialEq, Eq)]
pub enum Verdict {
    /// The files are linked, and their linked file has so much.
    Links(Summary),
    /// The files are refused for this fault, the first of all.
    Refused(Fault),
}

impl Verdict {
    /// The fault for which the files are refused.
    pub fn fault(&self) -> Option<Fault>
        ensures { result ≡ fault_of self.now }
    {
        match *self {
            Verdict::Links(_) => None,
            Verdict::Refused(fault) => Some(fault),
        }
    }
}

impl fmt::Display for Verdict {
    ghost output = { λ verdict. Some (verdict_line verdict) };

    fn fmt<W: fmt::Write>(&self, f: &mut Formatter<W>) -> fmt::Result {
        match *self {
            Verdict::Links(summary) => {
                let Summary {
                    segments,
                    private_words,
                    blocks,
                } = summary;
                writeln!(
                    f,
                    "links: segments {segments} private words {private_words} blocks {blocks}"
                )
            }
            Verdict::Refused(fault) => writeln!(f, "pslink: {fault}"),
        }
    }
}

/// The verdict on a host and its libraries, which were read, and are prepared and not written: that
/// of `ps_linkfile::link`.
///
/// Returns an error only where memory was refused, which is requested only where the files have no
/// fault in reading: of files that have one the verdict is never an error. A function by itself, so
/// that the plan takes room of the stack only until it returns.
#[inline(never)]
pub fn verdict_of<A: Allocator + Copy>(
    alloc: A,
    reading: &Reading<'_>,
) -> Result<Verdict, AllocError>
    ensures right { IfOk result (IsVerdict reading.now.host reading.now.libs) }
    ensures memory { IfErr result (λ _. reading_fault reading.now.host reading.now.libs ≡ None) }
{
    match prepare_reading(alloc, reading) {
        Ok(linked) => Ok(Verdict::Links(linked.summary())),
        Err(Stop::Refused(fault)) => Ok(Verdict::Refused(fault)),
        Err(Stop::Memory) => Err(AllocError),
    }
}
