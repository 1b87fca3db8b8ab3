//! The words of the texts by which tests describe files and records.
use std::fmt::Debug;
use std::process::Abort;
use std::str::SplitWhitespace;

/// Checks what has to be right of this, which is printed where it is not.
pub fn holds(rt: &impl Abort, is_right: bool, what: &str) {
    assert!(rt; is_right, "{what}");
}

/// Asserts of a value what has to be right of it.
pub fn holds_of<D: Debug>(rt: &impl Abort, is_right: bool, value: &D) {
    assert!(rt; is_right, "{value:?}");
}

/// The next word as a number.
pub fn number(rt: &impl Abort, words: &mut SplitWhitespace<'_>) -> usize {
    number_of(rt, words.next().unwrap_or("a number that is not there"))
}

/// A number.
pub fn number_of(rt: &impl Abort, word: &str) -> usize {
    word.parse().expect(rt, word)
}

/// A byte in two hexadecimal digits.
pub fn byte(rt: &impl Abort, digits: &str) -> u8 {
    holds(rt, digits.len() == 2, digits);
    u8::from_str_radix(digits, 16).expect(rt, digits)
}

/// The bytes of words of two hexadecimal digits each.
pub fn hex(rt: &(impl Abort + AllocGlobal), words: &str) -> Vec<u8> {
    let mut bytes = Vec::new(rt.alloc());
    for digits in words.split_whitespace() {
        bytes.push(byte(rt, digits)).expect(rt, "no memory");
    }
    bytes
}

/// Checks that no word of a text is left.
pub fn ends(rt: &impl Abort, words: &mut SplitWhitespace<'_>, text: &str) {
    holds(rt, words.next().is_none(), text);
}
