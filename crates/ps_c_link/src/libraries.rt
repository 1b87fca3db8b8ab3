//! The libraries of a call: one after another in one buffer, with their lengths beside.
ghost use Rattle.std.specs.Prelude.{◌≡◌, ◌<◌, ◌↔◌, length, sum, IfOk, IsTrue, OnErr};
ghost use Rattle.ps_resolve.specs.Sources.{contents};
ghost use Rattle.ps_c_link.specs.Libraries.{split as split_spec};

use smallvec::SmallVec;
use std::alloc::{AllocError, Allocator};

/// How many libraries have a place on the stack. More of them request memory before they are read.
pub const LIBRARIES_IN_PLACE: usize = 256;

/// How many libraries are few: a call with no more of them has a smaller table of them, and one with
/// a single library has the smallest.
pub const FEW_LIBRARIES: usize = 16;

/// The parts of a buffer, each as a slice, of which so many have a place on the stack.
pub type Parts<'a, const N: usize, A> = SmallVec<&'a [u8], N, A>;

/// Whether the lengths add up to this total.
pub fn add_up(lengths: &[usize], total: usize) -> bool
    ensures { IsTrue result ↔ (sum lengths.now ≡ total) }
{
    let mut left = total;
    for length in lengths {
        if left < *length {
            return false;
        }
        left -= *length;
    }
    left == 0
}

/// The parts that are one after another in `bytes`, with these lengths: libraries, or names.
///
/// As many as `N` of them have a place on the stack, and more are listed in memory. With an `N` of 0
/// each list is in memory, and a long one takes no more of the stack than a short one. Memory is
/// requested only for more than `N` parts.
pub fn split<'a, const N: usize, A: Allocator + Copy>(
    alloc: A,
    bytes: &'a [u8],
    lengths: &[usize],
) -> Result<Parts<'a, N, A>, AllocError>
    requires { sum lengths.now ≡ length bytes.now }
    ensures ok { IfOk result (λ parts. contents parts.items ≡ split_spec bytes.now lengths.now) }
    ensures err { OnErr result (N < length lengths.now) }
{
    let mut parts = SmallVec::new(alloc);
    parts.reserve(lengths.len())?;
    let mut rest = bytes;
    for length in lengths {
        let (part, behind) = rest.split_at(*length);
        parts.push_reserved(part);
        rest = behind;
    }
    Ok(parts)
}
