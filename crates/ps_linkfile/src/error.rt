ghost use Rattle.std.specs.Prelude.{◌≡◌};
ghost use Rattle.ps_linkfile.specs.Outcomes.{error_of};
ghost use Rattle.ps_linkfile.specs.declared.error.LinkError.TheVariants.{Memory, Refused, Write};

use ps_resolve::Stop;
use ps_words::Fault;
use ps_writing::WriteFault;
use std::alloc::AllocError;
use thiserror::Error;

/// Why there is no linked file, or only a prefix of it.
#[derive(Debug, Drop, Error)]
pub enum LinkError {
    /// The files are refused for this fault, the first of all. Nothing was written.
    #[error("{0}")]
    Refused(Fault),
    /// Memory was refused. Nothing was written.
    #[error("out of memory")]
    Memory,
    /// The writer failed. It has a prefix of the linked file.
    #[error("{0}")]
    Write(WriteFault),
}

impl From<Stop> for LinkError {
    ghost from_gives = { λ stop error. error ≡ error_of stop };

    fn from(stop: Stop) -> LinkError {
        match stop {
            Stop::Refused(fault) => LinkError::Refused(fault),
            Stop::Memory => LinkError::Memory,
        }
    }
}

impl From<Fault> for LinkError {
    ghost from_gives = { λ fault error. error ≡ Refused fault };

    fn from(fault: Fault) -> LinkError {
        LinkError::Refused(fault)
    }
}

impl From<WriteFault> for LinkError {
    ghost from_gives = { λ fault error. error ≡ Write fault };

    fn from(fault: WriteFault) -> LinkError {
        LinkError::Write(fault)
    }
}

impl From<AllocError> for LinkError {
    ghost from_gives = { λ _ error. error ≡ Memory };

    fn from(_error: AllocError) -> LinkError {
        LinkError::Memory
    }
}
