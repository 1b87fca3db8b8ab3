//! The name of what the fault of a verdict is about.
ghost use Rattle.std.specs.Prelude.{◌≡◌};
ghost use Rattle.ps_report.specs.Verdicts.{verdict_name as verdict_name_spec};

use crate::verdict::Verdict;
use ps_resolve::{Reading, fault_name_in};
use ps_words::Name;

/// The name of what the fault of a verdict on files that were read is about.
pub(crate) fn verdict_name(reading: &Reading<'_>, verdict: Verdict) -> Option<Name>
    ensures { result ≡ verdict_name_spec reading.now.host reading.now.libs verdict }
{
    match verdict {
        Verdict::Links(_) => None,
        Verdict::Refused(fault) => fault_name_in(reading, fault),
    }
}
