//! Short texts that are made from their end to their beginning, so that a writer takes each as one
//! piece.
ghost use Rattle.std.specs.Prelude.{◌≡◌, ◌≤◌, ◌+◌, ◌++◌, [], length};
ghost use Rattle.ps_writing.specs.Lines.{field, reference};

use itoa::write_digits;
use std::marker::Model;

/// A text of at most `N` bytes, which are in the value itself.
#[derive(Drop)]
pub struct PrependBuffer<const N: usize> {
    bytes: [u8; N],
    start: usize,
}

impl<const N: usize> Model for PrependBuffer<N> {
    ghost use Rattle.std.specs.Prelude.{List, ℕ, ◌≤◌, drop};

    ghost Value = { List ℕ };

    ghost view = { λ buffer. drop buffer.start buffer.bytes };

    ghost invariant = { λ buffer. buffer.start ≤ N };
}

impl<const N: usize> PrependBuffer<N> {
    /// An empty text.
    #[inline(always)]
    pub fn new() -> PrependBuffer<N>
        ensures { result ≡ [] }
    {
        PrependBuffer {
            bytes: [0; N],
            start: N,
        }
    }

    /// Puts these bytes before the text.
    #[inline(always)]
    pub fn prepend(&mut self, bytes: &[u8])
        requires { length bytes.now + length self.old ≤ N }
        ensures { self.new ≡ bytes.now ++ self.old }
    {
        let end = self.start;
        self.start -= bytes.len();
        let room = &mut self.bytes[..];
        room[self.start..end].copy_from_slice(bytes);
    }

    /// Puts a blank and a number before the text.
    #[inline(always)]
    pub fn prepend_number(&mut self, number: u16)
        requires { 6 + length self.old ≤ N }
        ensures text { self.new ≡ reference number ++ self.old }
        ensures most { length self.new ≤ 6 + length self.old }
    {
        self.start = write_digits(number as u64, &mut self.bytes, self.start);
        self.prepend(b" ");
    }

    /// Puts a word and a number before the text, each after a blank.
    #[inline(always)]
    pub fn prepend_field(&mut self, word: &[u8], number: u16)
        requires { 7 + length word.now + length self.old ≤ N }
        ensures text { self.new ≡ field word.now number ++ self.old }
        ensures most { length self.new ≤ 7 + length word.now + length self.old }
    {
        self.prepend_number(number);
        self.prepend(word);
        self.prepend(b" ");
    }

    /// The text.
    #[inline(always)]
    pub fn as_slice(&self) -> &[u8]
        ensures { result.now ≡ self.now }
    {
        let room = &self.bytes[..];
        &room[self.start..]
    }
}
