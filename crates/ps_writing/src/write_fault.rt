use std::io;
use thiserror::Error;

/// Why a writer did not take all that was written to it.
#[derive(Debug, Drop, Error)]
pub enum WriteFault {
    /// A write returned this error, of whatever kind. It was not repeated.
    #[error("{0}")]
    Device(io::Error),
    /// A write of at least one byte took none.
    #[error("the writer takes no more bytes")]
    Stalled,
}
