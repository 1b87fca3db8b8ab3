/// What a linked file has, in numbers.
#[derive(Clone, Copy, Debug, PartialEq, Eq)]
pub struct Summary {
    /// How many segments it has: slots of the host that have a code, at most 16.
    pub segments: usize,
    /// How many words all private variables of its segments take together, 0 to `MAX_NEXT_FREE`.
    pub private_words: u16,
    /// How many blocks of 512 bytes it has, the segment dictionary's block counted.
    pub blocks: usize,
}
