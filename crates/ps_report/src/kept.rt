//! A text that is kept.
ghost use Rattle.std.specs.Prelude.{◌≡◌, IfOk, string_bytes};

use ps_writing::{Text, in_memory};
use std::alloc::{AllocError, Allocator};

/// The text, in memory. Paths and sentences are UTF-8, and names are shown in ASCII, so only want of
/// memory is an error.
pub(crate) fn string_of<A: Allocator + Copy, T: Text>(
    alloc: A,
    text: &T,
) -> Result<String<A>, AllocError>
    ensures { IfOk result (λ made. string_bytes made ≡ T.bytes text.now) }
{
    match String::from_utf8(in_memory(alloc, text)?) {
        Ok(made) => Ok(made),
        Err(_) => Err(AllocError),
    }
}
