//! Whether the names of files are in small letters.
use ps_check_segments::NamedFiles;
use ps_codefile::Dict;
use ps_codefile::dictionary_layout::SLOTS;
use ps_filetype::has_any;

/// The name of an entry that is filled has a capital letter.
fn has_capital(dict: &Dict<'_>) -> bool {
    for slot in 0..SLOTS {
        if dict.filled(slot) && has_any(&dict.entry(slot).name, b'A'..=b'Z') {
            return true;
        }
    }
    false
}

/// No name of an entry that is filled has a capital letter.
pub(super) fn are_small(inputs: &NamedFiles<'_>) -> bool {
    for file in 0..=inputs.libs.len() {
        if let Some(dict) = inputs.dict(file) {
            if has_capital(&dict) {
                return false;
            }
        }
    }
    true
}
