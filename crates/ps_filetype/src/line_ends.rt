//! Line ends that a transfer has converted.
ghost use Rattle.std.specs.Prelude.{◌≡◌, Some};
ghost use Rattle.ps_filetype.specs.TypeWords.{line_end_words};

use std::fmt::{self, Formatter};

/// How many line feeds or carriage returns cannot be there by chance.
const MANY: usize = 3;

/// How many carriage returns cannot be there by chance, where there is no line feed.
const MANY_RETURNS: usize = 8;

/// How many line feeds cannot be there by chance, where there is no carriage return.
const MANY_FEEDS: usize = 16;

/// How the bytes 0A and 0D of a file stand as if they were the ends of lines.
#[derive(Clone, Copy)]
pub enum LineEnds {
    /// Each 0A comes after a 0D.
    Pairs,
    /// There is no 0A, and many a 0D.
    Returns,
    /// There is no 0D, and many a 0A.
    Feeds,
}

/// How many bytes are counted at once: few enough that their number is a byte.
const COUNTED: usize = 128;

/// How many of at most 255 bytes are this one.
fn count_in(bytes: &[u8], wanted: u8) -> u8 {
    let mut count = 0u8;
    for byte in bytes {
        count = count.wrapping_add(u8::from(*byte == wanted));
    }
    count
}

/// How many bytes are this one.
fn count_of(bytes: &[u8], wanted: u8) -> usize {
    let mut count = 0usize;
    for part in bytes.chunks(COUNTED) {
        count = count.saturating_add(usize::from(count_in(part, wanted)));
    }
    count
}

/// How many 0A come after a 0D.
fn pairs_of(bytes: &[u8]) -> usize {
    let (mut pairs, mut last) = (0usize, 0u8);
    for byte in bytes {
        pairs = pairs.saturating_add(usize::from(last == b'\r' && *byte == b'\n'));
        last = *byte;
    }
    pairs
}

impl LineEnds {
    /// How the line ends of a file were converted, if its bytes look so.
    pub fn of(bytes: &[u8]) -> Option<LineEnds> {
        let (feeds, returns) = (count_of(bytes, b'\n'), count_of(bytes, b'\r'));
        if MANY <= feeds && feeds <= returns && feeds == pairs_of(bytes) {
            Some(LineEnds::Pairs)
        } else if feeds == 0 && MANY_RETURNS <= returns {
            Some(LineEnds::Returns)
        } else if returns == 0 && MANY_FEEDS <= feeds {
            Some(LineEnds::Feeds)
        } else {
            None
        }
    }
}

impl LineEnds {
    /// How they were converted.
    fn words(self) -> &'static str
        ensures { result.now ≡ line_end_words self }
    {
        match self {
            LineEnds::Pairs => "each 0A in it comes after a 0D",
            LineEnds::Returns => "it has bytes 0D and none 0A",
            LineEnds::Feeds => "it has bytes 0A and none 0D",
        }
    }
}

impl fmt::Display for LineEnds {
    ghost output = { λ ends. Some (line_end_words ends) };

    fn fmt<W: fmt::Write>(&self, f: &mut Formatter<W>) -> fmt::Result {
        f.write_str(self.words())
    }
}
