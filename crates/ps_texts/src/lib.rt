//! What pslink prints of files: which texts there are, each in the form of lines or of a document, and
//! what each is of a host and its libraries. `text_of` makes one as a value, which `write_text` writes
//! and `in_memory` keeps.
#![tactic(auto)]

mod code_type;
mod kinds;
mod texts;
mod units;
mod wanted_law;

pub use code_type::CodeType;
pub use kinds::{HostText, LinkText, NamedText, ReportText, TextKind};
pub use ps_check_segments::NamedFiles;
pub use ps_linkfile::{Refusal, Unmade};
pub use ps_listing::ListForm;
pub use ps_writing::Form;
pub use texts::{FilesText, PrintedOfReport, text_of};
pub use units::{units_had, units_wanted};
pub use wanted_law::wanted_units;
