//! What a link reads: of each slot of the host its segment or its fault, the units that are requested
//! and added, the first fault of the files, and the name of what a fault is about.
#![tactic(auto)]

mod fault_names;
mod locations;
mod reading;
mod slot_name_law;
mod slot_reading;

pub use fault_names::{fault_name, fault_name_in};
pub use locations::{EntryAt, RecordAt, ReferenceAt, SegmentAt};
pub use reading::added::{AddedUnits, MAX_ADDED, MAX_REQUESTED, UnitReference};
pub use reading::entries::read_linked;
pub use reading::request::{Request, Requester};
pub use reading::segment::{Resolvable, Segment};
pub use reading::slots::{HOST_FILE, HostSlots};
pub use reading::unit_slots::{UnitSlots, is_same_name};
pub use reading::{HostReading, Reading, read, read_to_fault, slot_names};
pub use slot_name_law::slot_names_are_whole;
pub use slot_reading::{Absent, SlotReading};
