//! Sets of places of a procedure's code.

/// The bits of a word of a set.
const BITS: usize = 64;

const WORDS: usize = 128;

/// How many places a set may have, in bytes from where a procedure is entered. A procedure is
/// shorter: a compiler's buffer has some 1300 bytes.
pub(crate) const MOST: usize = BITS * WORDS;

/// Some of the first places of a procedure, each a bit.
#[derive(Clone, Copy)]
pub(crate) struct Places {
    words: [u64; WORDS],
    /// No word from this one on has a bit.
    used: usize,
}

impl Places {
    pub(crate) const NONE: Places = Places {
        words: [0; WORDS],
        used: 0,
    };

    /// Takes all places out.
    pub(crate) fn clear(&mut self) {
        for word in self.words.iter_mut().take(self.used) {
            *word = 0;
        }
        self.used = 0;
    }

    /// Adds a place, if it is one of the first.
    pub(crate) fn add(&mut self, place: usize) {
        let index = place / BITS;
        if index < WORDS {
            self.words[index] |= 1 << (place % BITS);
            self.used = self.used.max(index + 1);
        }
    }

    /// The place is in the set.
    pub(crate) fn has(&self, place: usize) -> bool {
        match self.words.get(place / BITS) {
            Some(word) => *word >> (place % BITS) & 1 == 1,
            None => false,
        }
    }

    /// The first place of this set that is none of those.
    pub(crate) fn first_beside(&self, those: &Places) -> Option<usize> {
        for (index, word) in self.words.iter().enumerate().take(self.used) {
            let rest = *word & !those.words.get(index).copied().unwrap_or(0);
            if rest != 0 {
                return Some(index * BITS + rest.trailing_zeros() as usize);
            }
        }
        None
    }
}
