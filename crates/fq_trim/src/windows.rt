//! The windows of a read, and where the first bad one ends. A window is bad if its scores sum to
//! less than its width times the score asked for; otherwise it is good.

ghost use Rattle.std.specs.Prelude.{true, ◌≡◌, ℕ, ◌+◌, ◌-◌, ◌*◌, ◌<◌, ◌≤◌, ◌^◌, nat_le, length, min, sum, take, drop, slice_index, IfOk, IfErr};
ghost use Rattle.std.specs.List.{list_all};
ghost use Rattle.fq_text.specs.Scores.{is_scored};
ghost use lib.Lanes.{zip2};
ghost use Rattle.fq_trim.specs.Keeping.{scores};
ghost use Rattle.fq_trim.specs.Windows.{distances, IsGoodStop, IsFirstBelow};

use crate::scoring::total_of;
use crate::vectors::{less_16, less_32};
use fq_text::Encoding;
use std::simd::prelude::*;

// How many windows are compared at once, each in a byte of a vector.
const TOGETHER: usize = 32;

// The widest windows that are summed in vectors: each base of a window costs a turn of a loop.
const WIDEST: usize = 16;

// How many bases are compared at once to find a low score.
const HIGH_CHUNK: usize = 16;

/// The index of the last base of the first bad window, or the length of the read if every window is
/// good.
#[inline(always)]
pub(crate) fn good_stop(encoding: Encoding, width: usize, score: u32, qual: &[u8]) -> usize
    requires window { 0 < width }
    requires fits { width ≤ length qual.now }
    requires narrow { width < 2 ^ 32 }
    requires scored { list_all (is_scored encoding) qual.now ≡ true }
    ensures { IsGoodStop width (width * score) (scores encoding qual.now) result }
{
    let least = width as u64 * u64::from(score);
    match encoding.offset() {
        Some(offset) if least <= 255 && width <= WIDEST && width + TOGETHER <= qual.len() + 1 => {
            stop_together(offset, width, score as u8, least as u8, qual)
        }
        _ => stop_one_by_one(encoding, width, score, least, qual),
    }
}

// `good_stop` by vectors. The last vector of windows may overlap the one before, whose windows are
// known to be good.
#[inline(always)]
fn stop_together(offset: u8, width: usize, score: u8, least: u8, qual: &[u8]) -> usize
    requires window { 0 < width }
    requires narrow { width ≤ WIDEST }
    requires least { least ≡ width * score }
    requires fits { width + TOGETHER ≤ length qual.now + 1 }
    ensures { IsGoodStop width least (distances offset qual.now) result }
{
    let last = qual.len() - width;
    let mut start = 0;
    loop {
        let next = match pass_good(offset, width, score, least, start, qual) {
            Ok(next) => next,
            Err(stop) => return stop,
        };
        if last < next {
            return qual.len();
        }
        start = next.min(qual.len() - TOGETHER);
    }
}

// An index after `start` such that each window that begins before it is good (those that begin
// before `start` are known to be); or the index of the last base of the first bad window.
//
// If the scores in a vector are all high, every window of them alone is good, and none is summed.
#[inline(always)]
fn pass_good(
    offset: u8,
    width: usize,
    score: u8,
    least: u8,
    start: usize,
    qual: &[u8],
) -> Result<usize, usize>
    requires window { 0 < width }
    requires narrow { width ≤ WIDEST }
    requires least { least ≡ width * score }
    requires fits { start + TOGETHER ≤ length qual.now }
    requires long { width + TOGETHER ≤ length qual.now + 1 }
    requires good { (s : ℕ) → s < start
        → least ≤ sum (take width (drop s (distances offset qual.now))) }
    ensures next { IfOk result (λ next. (start < next)
        × (length qual.now ≤ start + TOGETHER → length qual.now < next + width)
        × ((s : ℕ) → s < next → least ≤ sum (take width (drop s (distances offset qual.now))))) }
    ensures stop { IfErr result (λ stop. IsGoodStop width least (distances offset qual.now) stop) }
{
    if are_all_high(offset, score, &qual[start..]) {
        return Ok(start + TOGETHER + 1 - width);
    }
    let from = start.min(qual.len() + 1 - width - TOGETHER);
    let good = first_below(sums_of(offset, width, &qual[from..]), least);
    if good < TOGETHER {
        return Err(from + good + width - 1);
    }
    Ok(from + TOGETHER)
}

// Whether each of the first 32 bytes has a score of at least `score`. Of two bytes that are 16
// apart, only the lower is compared.
#[inline(always)]
fn are_all_high(offset: u8, score: u8, qual: &[u8]) -> bool
    requires long { TOGETHER ≤ length qual.now }
    ensures { result ≡ list_all (nat_le score) (take TOGETHER (distances offset qual.now)) }
{
    let lower = lower_of(u8x16::from_slice(qual), u8x16::from_slice(&qual[16..]));
    are_at_least(score, less_16(lower, offset))
}

// The lower of the two bytes at each index.
#[inline(always)]
fn lower_of(left: u8x16, right: u8x16) -> u8x16
    ensures { result ≡ zip2 min left right }
{
    left.simd_min(right)
}

// Whether no score is below `score`.
#[inline(always)]
#[tactic(auto, using(std::proofs::lemmas::Simd::zip2_splat_left, crate::proofs::WindowLemmas::all_pass))]
fn are_at_least(score: u8, scores: u8x16) -> bool
    ensures { result ≡ list_all (nat_le score) scores }
{
    scores.simd_ge(u8x16::splat(score)).all()
}

// The sums of the scores of 32 windows, each of which begins one base after the one before. Sums
// saturate at 255.
#[inline(always)]
fn sums_of(offset: u8, width: usize, qual: &[u8]) -> u8x32
    requires fits { width + TOGETHER ≤ length qual.now + 1 }
    ensures long { length result ≡ TOGETHER }
    ensures each { (k : ℕ) → k < TOGETHER → slice_index result k
        ≡ min 255 (sum (take width (drop k (distances offset qual.now)))) }
{
    let mut sums = u8x32::splat(0);
    for i in 0..width {
        let scores = less_32(u8x32::from_slice(&qual[i..]), offset);
        sums = plus(sums, scores);
    }
    sums
}

// The sum of the two bytes at each index. Sums saturate at 255.
#[inline(always)]
#[tactic(auto, using(crate::proofs::WindowLemmas::each_plus))]
fn plus(left: u8x32, right: u8x32) -> u8x32
    ensures { result ≡ zip2 (λ x y. min 255 (x + y)) left right }
{
    left.saturating_add(right)
}

// How many sums are before the first that is below `least`, or all if there is none.
#[inline(always)]
fn first_below(sums: u8x32, least: u8) -> usize
    ensures { IsFirstBelow least sums result }
{
    let below = sums.simd_lt(u8x32::splat(least)).to_bitmask();
    if below == 0 {
        TOGETHER
    } else {
        below.trailing_zeros() as usize
    }
}

// `good_stop` window by window.
//
// If a read begins with high scores, the windows of these alone are good, so the first window that
// is summed is the last of them.
#[tactic(auto, using(crate::proofs::PlaceLemmas::all_taken, crate::proofs::PlaceLemmas::all_dropped))]
fn stop_one_by_one(encoding: Encoding, width: usize, score: u32, least: u64, qual: &[u8]) -> usize
    requires window { 0 < width }
    requires fits { width ≤ length qual.now }
    requires narrow { width < 2 ^ 32 }
    requires least { least ≡ width * score }
    requires scored { list_all (is_scored encoding) qual.now ≡ true }
    ensures { IsGoodStop width least (scores encoding qual.now) result }
{
    let from = high_stop(encoding, score, qual).max(width);
    let first = total_of(encoding, &qual[from - width..from]) as u64;
    if first < least {
        return width - 1;
    }
    stop_from(encoding, width, from, first, least, qual)
}

// `good_stop` if each window that ends at or before `from` is known to be good.
//
// The sum of a window is that of the window before, with one score added and one subtracted.
fn stop_from(
    encoding: Encoding,
    width: usize,
    from: usize,
    first: u64,
    least: u64,
    qual: &[u8],
) -> usize
    requires window { 0 < width }
    requires reaches { width ≤ from }
    requires fits { from ≤ length qual.now }
    requires narrow { width < 2 ^ 32 }
    requires sum { first ≡ sum (take width (drop (from - width) (scores encoding qual.now))) }
    requires good { (s : ℕ) → s + width ≤ from
        → least ≤ sum (take width (drop s (scores encoding qual.now))) }
    requires scored { list_all (is_scored encoding) qual.now ≡ true }
    ensures { IsGoodStop width least (scores encoding qual.now) result }
{
    let mut sum = first;
    for end in from..qual.len() {
        let entering = encoding.phred(qual[end]);
        let leaving = encoding.phred(qual[end - width]);
        sum = sum + u64::from(entering) - u64::from(leaving);
        if sum < least {
            return end;
        }
    }
    qual.len()
}

// An index before which each base has a score of at least `score`, so no window that ends at or
// before it is bad.
//
// Whole chunks are compared, so more such bases may follow.
#[tactic(auto, using(crate::proofs::PlaceLemmas::all_taken, crate::proofs::PlaceLemmas::all_dropped))]
fn high_stop(encoding: Encoding, score: u32, qual: &[u8]) -> usize
    requires { list_all (is_scored encoding) qual.now ≡ true }
    ensures within { result ≤ length qual.now }
    ensures high { list_all (nat_le score) (take result (scores encoding qual.now)) ≡ true }
{
    let mut stop = 0;
    while HIGH_CHUNK <= qual.len() - stop
        && are_high(encoding, score, &qual[stop..stop + HIGH_CHUNK])
    {
        stop += HIGH_CHUNK;
    }
    stop
}

// Whether each base has a score of at least `score`.
fn are_high(encoding: Encoding, score: u32, qual: &[u8]) -> bool
    requires { list_all (is_scored encoding) qual.now ≡ true }
    ensures { result ≡ list_all (nat_le score) (scores encoding qual.now) }
{
    let mut all = true;
    for byte in qual {
        all = all & (score <= u32::from(encoding.phred(*byte)));
    }
    all
}
