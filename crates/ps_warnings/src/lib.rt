//! What is found in the files of a check, in their segments and in their link, and is no fault, as
//! values with their texts.
#![tactic(auto)]

mod counting;
mod dead;
mod finding;
mod findings;
mod laws;
mod references;
mod weight;

pub use counting::Counting;
pub use dead::dead_run;
pub use finding::{
    CodeFinding, DictionaryFinding, EntryFinding, FileFinding, Finding, FindingAt, LinkFinding,
    NameFinding, OperandFinding, Place, ProcedureFinding, RecordFinding,
};
pub use findings::{Findings, add_other_counts, findings_of};
pub use laws::{
    each_warning_is_found_once, each_warning_of_slots_is_found_once, end_marks_are_read,
    high_definitions_are_told, low_marks_are_told, named_slots_are_told, near_names_are_told,
    nothing_is_found_in_good_files, overlaps_are_told, own_definitions_are_told,
    past_privates_are_told, past_publics_are_told, warnings_are_of_things,
};
pub use references::{SegmentReferences, references_of};
pub use weight::Weight;
