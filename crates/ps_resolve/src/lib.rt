//! What a link means: what the references of its segments become, which fault comes first, and the
//! plan of edits that links it. What is read of its files is passed on from `ps_reading`.
#![tactic(auto)]

mod allotment;
mod causes;
mod definitions;
mod edit_table;
mod edits;
mod from_reading;
mod host_segment;
mod linkage;
mod linking;
mod links;
mod lone;
mod name_hasher;
mod namesakes;
mod plan;
mod references;
mod resolving;
mod segments;

pub use allotment::{Allotment, MAX_NEXT_FREE, Private};
pub use causes::{covering_reference, words_before};
pub use definitions::{Def, DefKind, Definitions};
pub use edits::data_size::MAX_DATA_SIZE;
pub use from_reading::resolve_reading;
pub use linkage::{Linkage, Stop};
pub use lone::lone_fault;
pub use plan::Plan;
pub use ps_reading::{
    Absent, EntryAt, HostReading, Reading, RecordAt, ReferenceAt, Request, Requester, Segment,
    Segment as Source, SegmentAt, SlotReading, UnitReference, fault_name, fault_name_in, read,
    read_linked, slot_names_are_whole,
};
pub use resolving::resolve;
