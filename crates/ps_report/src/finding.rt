//! Findings with the words for them.
ghost use Rattle.std.specs.Prelude.{◌≡◌, IfOk, map, string_bytes};
ghost use Rattle.ps_warnings.specs.FindingTexts.{finding_text};
ghost use Rattle.ps_warnings.specs.Places.{place_text};
ghost use Rattle.ps_report.specs.Reported.{ArePlaced, AreWorded, findings_in, said};

use ps_warnings::FindingAt;
use std::alloc::{AllocError, Allocator};

/// A finding with the words for it, which are made once.
#[derive(Drop)]
pub struct SaidFinding<'a, A: Allocator> {
    pub at: FindingAt<'a>,
    /// Where the finding is, as `UTIL.CODE, segment UTIL, record 1`.
    pub place: String<A>,
    /// What the finding is, as half a sentence.
    pub words: String<A>,
}

/// A finding with its words.
fn said_finding<'a, A: Allocator + Copy>(
    alloc: A,
    at: FindingAt<'a>,
) -> Result<SaidFinding<'a, A>, AllocError>
    ensures finding { IfOk result (λ f. f.at ≡ at.entry) }
    ensures place { IfOk result (λ f. string_bytes f.place ≡ place_text at.entry.place) }
    ensures words { IfOk result (λ f. string_bytes f.words ≡ finding_text at.entry.finding) }
{
    let FindingAt { place, finding } = at;
    let place = format!(in alloc; "{place}")?;
    let words = format!(in alloc; "{finding}")?;
    Ok(SaidFinding { at, place, words })
}

/// The findings with their words, in their order.
pub(crate) fn said_findings<'a, A: Allocator + Copy>(
    alloc: A,
    findings: &[FindingAt<'a>],
) -> Result<Vec<SaidFinding<'a, A>, A>, AllocError>
    ensures findings { IfOk result (λ found. findings_in (map said found.items) ≡ findings.now) }
    ensures places { IfOk result (λ found. ArePlaced (map said found.items)) }
    ensures worded { IfOk result (λ found. AreWorded (map said found.items)) }
{
    let mut found = Vec::new(alloc);
    for at in findings {
        let finding = said_finding(alloc, *at)?;
        found.push(finding)?;
    }
    Ok(found)
}
