//! Low scores at the end of a read.

ghost use Rattle.std.specs.Prelude.{true, ◌≡◌, ℕ, ◌-◌, ◌<◌, ◌≤◌, length, slice_index};
ghost use Rattle.std.specs.List.{list_all};
ghost use Rattle.fq_text.specs.Scores.{is_scored};
ghost use Rattle.fq_trim.specs.Keeping.{scores};
ghost use Rattle.fq_trim.specs.Windows.{distances, IsLowEnd};

use crate::vectors::less_16;
use fq_text::Encoding;
use std::simd::prelude::*;

// How many scores are compared at once, each in a byte of a vector.
const TOGETHER: usize = 16;

/// The index after the last base with a score of at least `score`, or 0 if there is none.
#[inline(always)]
pub(crate) fn after_last(encoding: Encoding, score: u32, qual: &[u8]) -> usize
    requires { list_all (is_scored encoding) qual.now ≡ true }
    ensures within { result ≤ length qual.now }
    ensures high { 0 < result → score ≤ slice_index (scores encoding qual.now) (result - 1) }
    ensures low { (k : ℕ) → result ≤ k → k < length qual.now
        → slice_index (scores encoding qual.now) k < score }
{
    let stop = match encoding.offset() {
        Some(offset) if score <= 255 => low_from(offset, score as u8, qual),
        _ => qual.len(),
    };
    for i in (0..stop).rev() {
        if score <= u32::from(encoding.phred(qual[i])) {
            return i + 1;
        }
    }
    0
}

// An index from which on every score is below `score`. It is the lowest such index if a whole
// vector of scores is before it.
#[inline(always)]
fn low_from(offset: u8, score: u8, qual: &[u8]) -> usize
    ensures within { result ≤ length qual.now }
    ensures low { (k : ℕ) → result ≤ k → k < length qual.now
        → slice_index (distances offset qual.now) k < score }
{
    let mut stop = qual.len();
    while TOGETHER <= stop {
        let low = low_after(
            less_16(u8x16::from_slice(&qual[stop - TOGETHER..]), offset),
            score,
        );
        if low < TOGETHER {
            return stop - low;
        }
        stop -= TOGETHER;
    }
    stop
}

// How many scores are after the last that is at least `score`.
#[inline(always)]
fn low_after(scores: u8x16, score: u8) -> usize
    ensures { IsLowEnd score scores result }
{
    let high = turned(scores).simd_ge(u8x16::splat(score)).to_bitmask();
    if high == 0 {
        TOGETHER
    } else {
        high.trailing_zeros() as usize
    }
}

// The scores in reverse order.
#[inline(always)]
#[tactic(auto, using(crate::proofs::LowEndLemmas::turned_at))]
fn turned(scores: u8x16) -> u8x16
    ensures long { length result ≡ TOGETHER }
    ensures each { (k : ℕ) → k < TOGETHER
        → slice_index result k ≡ slice_index scores (TOGETHER - 1 - k) }
{
    scores.reverse()
}
