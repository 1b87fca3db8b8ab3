ghost use Rattle.std.specs.Prelude.{◌≡◌, ◌∷◌, [], None, IfOk, IfErr};
ghost use Rattle.ps_words.specs.declared.edit.Edit.TheVariants.{Word};
ghost use Rattle.ps_resolve.specs.Edits.{IsOfSize, IsOfTable};
ghost use Rattle.ps_resolve.specs.Faults.{size_fault};
ghost use Rattle.ps_resolve.specs.Linking.{data_edits, data_size_of};
ghost use Rattle.ps_resolve.specs.Linkable.{IsHost};

use crate::host_segment::HostSegment;
use crate::linkage::Stop;
use ps_codefile::code_layout::DATA_SIZE_BEFORE_TABLE;
use ps_reading::HOST_FILE;
use ps_words::{Edit, Fault, MAX_WORD, Order, Reason, WORD_LEN, get};

/// The greatest data size of an outer block, in bytes: the greatest word.
/// Source: UCSD Pascal II.0 manual, code file format.
pub const MAX_DATA_SIZE: usize = MAX_WORD as usize;

/// The data size of the host's outer block, grown by the private words.
#[derive(Clone, Copy)]
pub(crate) struct DataSize {
    /// Where the data size is in the code of the host's segment.
    pub(crate) place: usize,
    /// In bytes.
    pub(crate) size: u16,
}

impl DataSize {
    /// What stores it.
    pub(crate) fn edit(self) -> Edit
        ensures { result ≡ Word self.size self.place }
    {
        Edit::Word {
            place: self.place,
            value: self.size,
        }
    }
}

/// The data size of the outer block of the host's segment, grown by two bytes for each private
/// word.
/// Refuses `DataTooLarge` where it is over `MAX_DATA_SIZE`.
pub(crate) fn grown_data_size(
    order: Order,
    host: &HostSegment,
    words: u16,
) -> Result<DataSize, Stop>
    requires { IsHost order host.now }
    ensures edit { IfOk result (λ d. data_edits order words host.now.segment.now.code
        ≡ Word d.size d.place ∷ []) }
    ensures size { IfOk result (λ d. d.size ≡ data_size_of order words host.now.segment.now.code) }
    ensures table { IfOk result (λ d. IsOfTable order host.now.segment.now.code
        (Word d.size d.place)) }
    ensures fits { IfOk result (λ _. size_fault order words host.now.segment.now ≡ None) }
    ensures stop { IfErr result (IsOfSize order words host.now.segment.now) }
{
    let place = host.outer_block - DATA_SIZE_BEFORE_TABLE;
    let size = get(order, host.segment.code(), place) as usize + WORD_LEN * words as usize;
    if size > MAX_DATA_SIZE {
        let slot = host.segment.slot();
        let fault = Fault::in_slot(HOST_FILE, slot, Reason::DataTooLarge);
        return Err(Stop::Refused(fault));
    }
    Ok(DataSize {
        place,
        size: size as u16,
    })
}
