//! The files of a check, with their paths, and the segments of a link as they were read, also where
//! they are refused.
#![tactic(auto)]

mod laws;
mod named_files;
mod segments;

pub use laws::segments_are_seen;
pub use named_files::NamedFiles;
pub use segments::{
    ReadSegment, SegmentPart, Source, host_of, in_slot, length_of, segments_of, words_of,
};
