//! Checks of bytes in vectors (SIMD).

ghost use Rattle.std.specs.Prelude.{◌≡◌, ◌&&◌, nat_le};
ghost use Rattle.std.specs.List.{list_all};
ghost use Rattle.fq_text.specs.Scores.{is_from};

use std::simd::prelude::*;

// How many bytes a vector has.
const WIDTH: usize = 32;

/// Whether every byte is from `lowest` to 126. The least and the greatest byte at each index of a
/// vector are kept, and checked at the end. The last vector is read first. The vector before it may
/// overlap it, so that no bytes are left over.
pub(crate) fn are_from(lowest: u8, bytes: &[u8]) -> bool
    ensures { result ≡ list_all (is_from lowest) bytes.now }
{
    if bytes.len() < WIDTH {
        return each_is_from(lowest, bytes);
    }
    let last = bytes.len() - WIDTH;
    let mut least = u8x32::from_slice(&bytes[last..]);
    let mut most = least;
    let mut start = 0;
    while start < last {
        let next = u8x32::from_slice(&bytes[start..]);
        least = least.simd_min(next);
        most = most.simd_max(next);
        start += WIDTH;
    }
    are_between(lowest, least, most)
}

// Whether all bytes of `least` are at least `lowest`, and all of `most` at most 126.
#[inline(always)]
fn are_between(lowest: u8, least: u8x32, most: u8x32) -> bool
    ensures { result ≡ list_all (λ b. nat_le lowest b) least && list_all (λ b. nat_le b 126) most }
{
    let below = least.simd_lt(u8x32::splat(lowest));
    let above = most.simd_gt(u8x32::splat(126));
    !below.any() & !above.any()
}

#[tactic(auto, using(std::proofs::lemmas::List::Folds::list_all_more, std::proofs::lemmas::List::take_all))]
fn each_is_from(lowest: u8, bytes: &[u8]) -> bool
    ensures { result ≡ list_all (is_from lowest) bytes.now }
{
    let mut all = true;
    for byte in bytes {
        all = all & ((lowest <= *byte) & (*byte <= 126));
    }
    all
}
