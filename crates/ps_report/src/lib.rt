//! The report of a check: whether a host and its libraries are linked, and what is said of them in
//! words: the files, the segments with where each comes from, and the explanation of a fault.
#![tactic(auto)]

mod finding;
mod finding_lines;
mod inspection;
mod json;
mod json_unsupported;
mod kept;
mod last_line;
mod lines;
mod names;
mod printed;
mod reference_json;
mod report;
mod verdict;
mod without_host;

pub use finding::SaidFinding;
pub use printed::{PrintedFindings, PrintedReport};
pub use ps_explained::UnsupportedRecord;
pub use ps_filetype::Oddity;
pub use ps_warnings::{Finding, FindingAt, Place, SegmentReferences, Weight};
pub use report::{Report, check};
pub use verdict::{Verdict, verdict_of};
