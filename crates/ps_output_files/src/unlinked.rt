//! Why files were not linked.
ghost use Rattle.std.specs.Prelude.{◌≡◌};
ghost use Rattle.ps_output_files.specs.Links.{unlinked_of};
ghost use Rattle.ps_output_files.specs.declared.unlinked.Unlinked.TheVariants.{Memory, StandardOutput};

use ps_resolve::Stop;
use ps_words::Fault;
use ps_writing::WriteFault;
use std::alloc::AllocError;

/// Why files were not linked, or not all of it was written.
#[derive(Clone, Copy)]
pub enum Unlinked<'a> {
    /// The files are refused for this fault, the first of all.
    Refused(Fault),
    /// Memory was refused. No file was created.
    Memory,
    /// The file at this path, OUT or that of the map, cannot be written.
    Write { path: &'a str },
    /// OUT and the map are written, and the summary is not.
    StandardOutput,
}

impl From<AllocError> for Unlinked<'_> {
    ghost from_gives = { λ _ e. e ≡ Memory };

    fn from(_error: AllocError) -> Self {
        Unlinked::Memory
    }
}

impl From<WriteFault> for Unlinked<'_> {
    ghost from_gives = { λ _ e. e ≡ StandardOutput };

    /// What could not be written is standard output, since a file is named where it is written.
    fn from(_fault: WriteFault) -> Self {
        Unlinked::StandardOutput
    }
}

impl From<Stop> for Unlinked<'_> {
    ghost from_gives = { λ stop e. e ≡ unlinked_of stop };

    fn from(stop: Stop) -> Self {
        match stop {
            Stop::Refused(fault) => Unlinked::Refused(fault),
            Stop::Memory => Unlinked::Memory,
        }
    }
}
