//! Bytes that are all the same.
ghost use Rattle.std.specs.Prelude.{◌≡◌, ◌==◌};
ghost use Rattle.std.specs.List.{list_all};
ghost use Rattle.ps_filetype.specs.CodeTypes.{is_one_byte as is_one_byte_spec};

/// Each of the bytes is this one.
fn are_all(bytes: &[u8], byte: u8) -> bool
    ensures { result ≡ list_all (λ c. c == byte) bytes.now }
{
    bytes.iter().all(|other| *other == byte)
}

/// There are bytes, and all of them are one.
pub(crate) fn is_one_byte(bytes: &[u8]) -> bool
    ensures { result ≡ is_one_byte_spec bytes.now }
{
    if bytes.is_empty() {
        return false;
    }
    are_all(bytes, bytes[0])
}

/// The byte that bytes are throughout, if there is one.
pub fn only_byte(bytes: &[u8]) -> Option<u8> {
    if is_one_byte(bytes) {
        bytes.first().copied()
    } else {
        None
    }
}
