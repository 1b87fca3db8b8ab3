ghost use Rattle.std.specs.Prelude.{◌≡◌};
ghost use Rattle.ps_codefile.specs.ProcedureFaults.{reason_of};

use ps_words::Reason;
use std::fmt::{self, Formatter};

/// What is wrong with the procedure dictionary of a code, or with an attribute table, and of which
/// procedure. Its text is half a sentence.
///
/// Source: UCSD Pascal II.0 manual, code file format; which fault is first is this project's
/// profile.
#[derive(Clone, Copy, Debug, PartialEq, Eq)]
pub enum ProcedureFault {
    /// The procedure dictionary would have so many bytes, more than the code.
    LongDictionary { bytes: usize },
    /// The attribute table of this procedure, from 1, does not lie in the code before the
    /// procedure dictionary.
    Outside { procedure: usize },
    /// The host program has no body of procedure 1, its outer block.
    NoOuterBlock,
    /// The attribute table of this procedure, from 1, has the procedure number 0.
    Native { procedure: usize },
}

impl ProcedureFault {
    /// The reason of the refusal: `NativeProcedure` of a native procedure, else `BadProcDict`.
    pub fn reason(self) -> Reason
        ensures { result ≡ reason_of self }
    {
        match self {
            ProcedureFault::LongDictionary { .. }
            | ProcedureFault::Outside { .. }
            | ProcedureFault::NoOuterBlock => Reason::BadProcDict,
            ProcedureFault::Native { .. } => Reason::NativeProcedure,
        }
    }
}

impl fmt::Display for ProcedureFault {
    fn fmt<W: fmt::Write>(&self, f: &mut Formatter<W>) -> fmt::Result {
        match *self {
            ProcedureFault::LongDictionary { bytes } => {
                write!(f, "its procedure dictionary would have {bytes} bytes")
            }
            ProcedureFault::Outside { procedure } => {
                write!(
                    f,
                    "the table of procedure {procedure} lies outside the code"
                )
            }
            ProcedureFault::NoOuterBlock => f.write_str(
                "it has no table of procedure 1, the outer block",
            ),
            ProcedureFault::Native { procedure } => {
                write!(
                    f,
                    "the table of procedure {procedure} has the number 0, native code"
                )
            }
        }
    }
}
