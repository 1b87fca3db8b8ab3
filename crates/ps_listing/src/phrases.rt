//! What a file is that is no code file as it ought to be.
ghost use Rattle.std.specs.Prelude.{IfOk, string_bytes};
ghost use Rattle.ps_listing.specs.Phrases.{IsPhrase};

use ps_filetype::FileType;
use std::alloc::{AllocError, Allocator};

/// What the file with these bytes is, as `a gzip file`; nothing where it is a code file as it ought
/// to be.
///
/// Refused where memory was.
pub fn phrase<A: Allocator + Copy>(alloc: A, file: &[u8]) -> Result<String<A>, AllocError>
    ensures { IfOk result (λ phrase. IsPhrase file.now (string_bytes phrase)) }
{
    let file_type = FileType::of(file);
    if file_type.is_code() {
        return Ok(String::new(alloc));
    }
    format!(in alloc; "{file_type}")
}
