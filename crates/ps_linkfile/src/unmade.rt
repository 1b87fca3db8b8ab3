//! Why nothing is made of files, with the name of what a fault is about.
ghost use Rattle.std.specs.Prelude.{◌≡◌};
ghost use Rattle.ps_resolve.specs.Sources.{contents};
ghost use Rattle.ps_linkfile.specs.Refusals.{refusal_of, unmade_of};
ghost use Rattle.ps_linkfile.specs.declared.unmade.Unmade.TheVariants.{Memory};

use ps_resolve::{Stop, fault_name};
use ps_words::{Fault, Name};
use std::alloc::AllocError;

/// Why files are refused.
#[derive(Clone, Copy, Debug, PartialEq, Eq)]
pub struct Refusal {
    /// The fault.
    pub fault: Fault,
    /// The name of what it is about, where it has one.
    pub name: Option<Name>,
}

impl Refusal {
    /// The refusal of these files for this fault.
    // A function by itself, so that only a call that is refused has what it needs of the stack.
    #[inline(never)]
    pub fn of(host: &[u8], libs: &[&[u8]], fault: Fault) -> Refusal
        ensures { result ≡ refusal_of host.now (contents libs.now) fault }
    {
        Refusal {
            fault,
            name: fault_name(host, libs, fault),
        }
    }
}

/// Why nothing is made of files in memory.
#[derive(Clone, Copy, Debug, PartialEq, Eq)]
pub enum Unmade {
    /// The files are refused for this.
    Refused(Refusal),
    /// Memory was refused.
    Memory,
}

impl Unmade {
    /// Why nothing is made of these files, whose link was stopped.
    pub fn of(host: &[u8], libs: &[&[u8]], stop: Stop) -> Unmade
        ensures { result ≡ unmade_of host.now (contents libs.now) stop }
    {
        match stop {
            Stop::Refused(fault) => Unmade::Refused(Refusal::of(host, libs, fault)),
            Stop::Memory => Unmade::Memory,
        }
    }
}

impl From<AllocError> for Unmade {
    ghost from_gives = { λ _ why. why ≡ Memory };

    fn from(_error: AllocError) -> Unmade {
        Unmade::Memory
    }
}
