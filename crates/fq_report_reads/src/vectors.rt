//! Counts of bytes by vectors (SIMD).

ghost use Rattle.std.specs.Prelude.{◌≡◌, ◌+◌, ◌-◌, ◌≤◌, ◌++◌, length, take, drop, replicate};
ghost use Rattle.std.specs.Prelude.{count_by, map, nat_le, sum, ◌==◌, ◌||◌};
ghost use Rattle.fq_report_reads.specs.Vectors.{Holds};
ghost use Rattle.fq_report_reads.specs.Letters.{is_gc, is_n};
ghost use Rattle.fq_report_reads.specs.Counting.{one_if, AtMost};

use std::simd::prelude::*;

// The number of bytes in a vector.
pub(crate) const WIDTH: usize = 32;

// 32 zeros and 32 bytes 255, which keep all bits. A vector of this that begins in the first half is
// a mask of the last bytes.
const KEEPS_LAST: [u8; 2 * WIDTH] = [
    0, 0, 0, 0, 0, 0, 0, 0, 0, 0, 0, 0, 0, 0, 0, 0, 0, 0, 0, 0, 0, 0, 0, 0, 0, 0, 0, 0, 0, 0, 0, 0,
    255, 255, 255, 255, 255, 255, 255, 255, 255, 255, 255, 255, 255, 255, 255, 255, 255, 255, 255,
    255, 255, 255, 255, 255, 255, 255, 255, 255, 255, 255, 255, 255,
];

// The bytes from `at` up to `stop`, with zeros in the place of other bytes.
#[inline(always)]
pub(crate) fn vector_of(bytes: &[u8], at: usize, stop: usize) -> u8x32
    requires order { at ≤ stop }
    requires within { stop ≤ length bytes.now }
    requires few { stop ≤ at + 32 }
    ensures { Holds (take (stop - at) (drop at bytes.now)) result }
{
    if WIDTH <= stop - at {
        return u8x32::from_slice(&bytes[at..]);
    }
    if WIDTH <= stop {
        return last_of(&bytes[stop - WIDTH..stop], stop - at);
    }
    all_of(&bytes[at..stop])
}

// The last `count` of 32 bytes, after zeros.
#[inline(always)]
pub(crate) fn last_of(bytes: &[u8], count: usize) -> u8x32
    requires few { count ≤ 32 }
    requires all { length bytes.now ≡ 32 }
    ensures { result ≡ replicate (32 - count) 0 ++ drop (32 - count) bytes.now }
{
    u8x32::from_slice(bytes) & keeps_last(count)
}

// A mask of the last `count` bytes.
#[inline(always)]
fn keeps_last(count: usize) -> u8x32
    requires { count ≤ 32 }
    ensures { result ≡ replicate (32 - count) 0 ++ replicate count 255 }
{
    u8x32::from_slice(&KEEPS_LAST[count..])
}

// At most 32 bytes, from memory that may end after them, and then zeros.
pub(crate) fn all_of(bytes: &[u8]) -> u8x32
    requires { length bytes.now ≤ 32 }
    ensures { result ≡ bytes.now ++ replicate (32 - length bytes.now) 0 }
{
    let mut filled = [0; WIDTH];
    filled[..bytes.len()].copy_from_slice(bytes);
    u8x32::from_array(filled)
}

// The number of bases G or C, in either case.
#[inline(always)]
pub(crate) fn gc_in(bases: u8x32) -> u32
    ensures { result ≡ count_by is_gc bases }
{
    let upper = bases.simd_eq(u8x32::splat(b'G')) | bases.simd_eq(u8x32::splat(b'C'));
    let lower = bases.simd_eq(u8x32::splat(b'g')) | bases.simd_eq(u8x32::splat(b'c'));
    (upper | lower).to_bitmask().count_ones()
}

// The number of bases N, in either case.
#[inline(always)]
pub(crate) fn n_in(bases: u8x32) -> u32
    ensures { result ≡ count_by is_n bases }
{
    (bases.simd_eq(u8x32::splat(b'N')) | bases.simd_eq(u8x32::splat(b'n')))
        .to_bitmask()
        .count_ones()
}

// The number of bytes that are at least `limit`.
#[inline(always)]
pub(crate) fn at_least(bytes: u8x32, limit: u8) -> u32
    ensures { result ≡ count_by (nat_le limit) bytes }
{
    bytes.simd_ge(u8x32::splat(limit)).to_bitmask().count_ones()
}

// The sum of the bytes.
#[inline(always)]
pub(crate) fn sum_of(bytes: u8x32) -> u16
    ensures { result ≡ sum bytes }
{
    bytes.cast::<u16>().strict_reduce_sum()
}

// 1 for each base that is this letter in either case, and 0 for the others. The letter is given in
// lower case, which differs from upper case by one bit.
#[inline(always)]
pub(crate) fn ones_of(bases: u8x32, letter: u8) -> u8x32
    requires from_a { 97 ≤ letter }
    requires to_z { letter ≤ 122 }
    ensures ones { AtMost 1 result }
    ensures each { result ≡ map (one_if (λ base. base == letter - 32 || base == letter)) bases }
{
    let lower = bases | u8x32::splat(0x20);
    lower
        .simd_eq(u8x32::splat(letter))
        .select(u8x32::splat(1), u8x32::splat(0))
}

// 1 for each byte that is at least `least`, and 0 for the others.
#[inline(always)]
pub(crate) fn ones_from(bytes: u8x32, least: u8) -> u8x32
    ensures ones { AtMost 1 result }
    ensures each { result ≡ map (one_if (nat_le least)) bytes }
{
    bytes
        .simd_ge(u8x32::splat(least))
        .select(u8x32::splat(1), u8x32::splat(0))
}

// The bytes less `offset`. A byte that is smaller becomes 0.
#[inline(always)]
pub(crate) fn less(bytes: u8x32, offset: u8) -> u8x32
    ensures { result ≡ map (λ byte. byte - offset) bytes }
{
    bytes.saturating_sub(u8x32::splat(offset))
}
