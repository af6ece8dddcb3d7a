//! Counts of a few reads, in 8 or 16 bits each, to which vectors (SIMD) are added.

ghost use Rattle.std.specs.Prelude.{◌≡◌, ◌+◌, ◌≤◌, ℕ, ◌++◌, length, get_or, replicate};
ghost use Rattle.fq_report_reads.specs.Rows.{rows_plus};
ghost use Rattle.fq_report_reads.specs.Counting.{most_reads, word_before_byte, AtMost};

use std::simd::prelude::*;

// Adds a vector to counts of 8 bits from `at` on.
#[inline(always)]
pub(crate) fn add_bytes(counts: &mut [u8], at: usize, more: u8x32)
    requires room { at + 32 ≤ length counts.old }
    requires few { AtMost most_reads counts.old }
    requires ones { AtMost 1 more }
    ensures { counts.new ≡ rows_plus counts.old (replicate at 0 ++ more) }
{
    let sums = u8x32::from_slice(&counts[at..]).strict_add(more);
    sums.copy_to_slice(&mut counts[at..]);
}

// Adds a vector to counts of 16 bits from `at` on.
#[inline(always)]
pub(crate) fn add_words(counts: &mut [u16], at: usize, more: u8x32)
    requires room { at + 32 ≤ length counts.old }
    requires few { AtMost word_before_byte counts.old }
    ensures { counts.new ≡ rows_plus counts.old (replicate at 0 ++ more) }
{
    let sums = u16x32::from_slice(&counts[at..]).strict_add(more.cast::<u16>());
    sums.copy_to_slice(&mut counts[at..]);
}

// Sets the first counts to zero. Those after them are zero already.
pub(crate) fn clear<C: Copy>(counts: &mut [C], zero: C, count: usize)
    requires within { count ≤ length counts.old }
    requires after { (k : ℕ) → count ≤ k → get_or counts.old k zero ≡ zero }
    ensures size { length counts.new ≡ length counts.old }
    ensures none { (k : ℕ) → get_or counts.new k zero ≡ zero }
{
    for i in 0..count {
        counts[i] = zero;
    }
}
