ghost use Rattle.std.specs.Prelude.{◌≡◌, IfOk, IfErr, Err, None};
ghost use Rattle.ps_linkinfo.specs.Records.{bad, IsReading, IsReadStop};
ghost use Rattle.ps_linkinfo.specs.declared.reader.ReadStop.TheVariants.{Memory};

use crate::record::LinkRecord;
use crate::records::Records;
use ps_words::{Order, Reason};
use std::alloc::{AllocFailed, Allocator};

/// Why no list of records was read.
#[derive(Clone, Copy, Debug, PartialEq, Eq)]
pub enum ReadStop {
    /// A fault occurs in place of a record. `rec` records precede it, so `rec` is the index, from
    /// 0, of the record that could not be read. `reason` is one of those that
    /// [`LinkInformation::read`](crate::LinkInformation::read) lists.
    Refused { rec: usize, reason: Reason },
    /// An allocation of the list was refused.
    Memory,
}

impl<T: Drop> From<AllocFailed<T>> for ReadStop {
    ghost from_gives = { λ _ e. e ≡ Memory };

    fn from(_e: AllocFailed<T>) -> ReadStop {
        ReadStop::Memory
    }
}

/// The records up to the EOFMARK, which is the last item; what follows it is not read. The bytes
/// spell this list, and no other.
///
/// `Refused` at the first record that cannot be read, for the reason for which
/// [`LinkInformation::read`](crate::LinkInformation::read) refuses it.
///
/// `Memory` where an allocation of the list was refused, which happens only if there is a record.
/// Nothing is reserved from a count that a record claims: the list grows by a record that was read.
///
/// Source: the published II.0 Linker source; the reasons and the pieces of a list are this
/// project's profile.
pub fn read_records<A: Allocator + Copy>(
    alloc: A,
    order: Order,
    bytes: &[u8],
) -> Result<Vec<LinkRecord<'_>, A>, ReadStop>
    ensures ok { IfOk result (λ records. IsReading order bytes.now records.items) }
    ensures stops { IfErr result (IsReadStop order bytes.now) }
    ensures memory { result ≡ Err Memory → bad order bytes.now ≡ None }
{
    let mut records = Vec::new(alloc);
    for item in Records::new(order, bytes) {
        match item {
            Err(reason) => {
                return Err(ReadStop::Refused {
                    rec: records.len(),
                    reason,
                });
            }
            Ok(record) => records.push(record)?,
        }
    }
    Ok(records)
}
