//! Text that is kept in memory.
ghost use Rattle.std.specs.Prelude.{◌≡◌, IfOk};

use crate::text_writer::{Text, TextWriter};
use std::alloc::{AllocError, Allocator};

/// The text so far, unless memory was refused.
struct InMemory<A: Allocator> {
    bytes: Vec<u8, A>,
    error: Option<AllocError>,
}

impl<A: Allocator + Copy> TextWriter for InMemory<A> {
    ghost use Rattle.ps_writing.specs.Adding.{IsKept};

    ghost added = { λ first text now. IsKept first.bytes.items text now.bytes.items now.error };

    fn add(&mut self, bytes: &[u8]) {
        if self.error.is_some() {
            return;
        }
        match self.bytes.extend_from_slice(bytes) {
            Ok(()) => {}
            Err(error) => self.error = Some(error),
        }
    }

    fn has_failed(&self) -> bool {
        self.error.is_some()
    }
}

/// The text, in memory. Returns an error where memory was refused, and then keeps none.
pub fn in_memory<A: Allocator + Copy, T: Text>(alloc: A, text: &T) -> Result<Vec<u8, A>, AllocError>
    ensures { IfOk result (λ made. made.items ≡ T.bytes text.now) }
{
    let mut memory = InMemory {
        bytes: Vec::new(alloc),
        error: None,
    };
    text.add_to(&mut memory);
    let InMemory { bytes, error } = memory;
    match error {
        Some(error) => Err(error),
        None => Ok(bytes),
    }
}
