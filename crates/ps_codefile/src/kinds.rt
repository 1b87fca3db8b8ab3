//! The kinds of segments.
//!
//! Source: UCSD Pascal II.0 manual, code file format; Apple's kinds are those of Apple Pascal.

/// A segment that is linked already, or that needs no linking.
pub const LINKED: u16 = 0;
/// The host segment of a program that is to be linked.
pub const HOSTSEG: u16 = 1;
/// A segment procedure that is not linked yet.
pub const SEGPROC: u16 = 2;
/// A unit.
pub const UNITSEG: u16 = 3;
/// A separate segment, which has native code.
pub const SEPRTSEG: u16 = 4;
/// The first kind of Apple's intrinsic units and data segments.
pub const FIRST_INTRINSIC: u16 = 5;
/// The last kind of Apple's intrinsic units and data segments.
pub const LAST_INTRINSIC: u16 = 7;
