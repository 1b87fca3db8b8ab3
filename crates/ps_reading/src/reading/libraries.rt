ghost use Rattle.std.specs.Prelude.{◌≡◌};
ghost use Rattle.ps_reading.specs.Sources.{contents};
ghost use Rattle.ps_reading.specs.Faults.{libraries_fault as libraries_fault_spec};

use crate::reading::slots::library_file;
use ps_codefile::Dict;
use ps_words::{Fault, Order};

/// The first fault of the libraries, each of which is read in the host's byte order.
#[tactic(auto, using(crate::proofs::ReadingLibraries::rest_at, crate::proofs::ReadingLibraries::rest_of), unfolding(crate::specs::Faults::libraries_fault))]
pub(crate) fn libraries_fault(order: Order, libs: &[&[u8]]) -> Option<Fault>
    ensures { result ≡ libraries_fault_spec order (contents libs.now) }
{
    for (i, lib) in libs.iter().enumerate() {
        if let Err(reason) = Dict::read_beside(lib, order) {
            return Some(Fault::in_file(library_file(i), reason));
        }
    }
    None
}
