//! The command line of `pslink`: what a program's arguments ask it to do, the help, and wrong usage.
//! `parse` reads arguments, and `given_args` collects those of a process. No other crate calls clap.
#![tactic(auto)]

mod command_line;
mod found;
mod given;
mod outputs;
mod request;
mod same_file;
mod tips;
mod usage;
mod wrong;

pub use given::given_args;
pub use outputs::{LinkOptions, MapContent, OutBy, Outputs, Telling, form_of};
pub use request::{Inputs, Link, Request, Task, parse};
pub use same_file::SameFile;
pub use usage::{UsageError, UsageText, WrongArgument};
