//! The linked file as bytes: the segment dictionary in block 0, and after it the code of each
//! segment, with its edits, in whole blocks. And the map of a link, what it stores, and the show of a
//! file, as lines and as JSON.
#![tactic(auto)]

mod block_layout;
mod cause;
mod dictionary;
mod error;
mod linked;
mod linked_file_law;
mod map;
mod references;
mod show;
mod show_json;
mod stored_places;
mod summary;
mod unmade;
mod writing;

pub use block_layout::MAX_FILE_BLOCKS;
pub use error::LinkError;
pub use linked::{Linked, link, prepare, prepare_files, prepare_reading};
pub use linked_file_law::linked_file_is_one;
pub use map::{LinkMap, map_text};
pub use ps_writing::{Counting, ToldWriter, WriteFault};
pub use references::{ReferenceMap, References, prepare_references};
pub use show::{Show, ShownFile, show_text};
pub use summary::Summary;
pub use unmade::{Refusal, Unmade};
