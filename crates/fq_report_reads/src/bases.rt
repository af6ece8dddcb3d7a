//! Counts of bases and of their scores.

ghost use Rattle.std.specs.Prelude.{◌≡◌, ◌≤◌, true, ◌-◌, length, take, drop};
ghost use Rattle.std.specs.Prelude.{sum};
ghost use Rattle.std.specs.List.{list_all};
ghost use Rattle.fq_text.specs.Grammar.{limit};
ghost use Rattle.fq_text.specs.Scores.{is_scored};
ghost use Rattle.fq_text.specs.declared.encoding.Encoding.TheVariants.{Solexa};
ghost use Rattle.fq_trim.specs.Keeping.{scores};
ghost use Rattle.fq_report_reads.specs.Parts.{IsCount, CountsOn};

use crate::vectors::{WIDTH, at_least, gc_in, n_in, sum_of, vector_of};
use fq_text::Encoding;
use std::simd::prelude::*;

/// Counts of bases and of their scores. Sums saturate at `u64::MAX`.
#[derive(Clone, Copy, Debug, PartialEq, Eq)]
pub struct BaseTally {
    /// All bases.
    pub bases: u64,
    /// Bases with a Phred score of at least 20.
    pub at_least_20: u64,
    /// Bases with a Phred score of at least 30.
    pub at_least_30: u64,
    /// The sum of the Phred scores of all bases.
    pub score_sum: u64,
    /// Bases G or C, in either case.
    pub gc: u64,
    /// Bases N, in either case.
    pub n: u64,
}

impl BaseTally {
    ghost use Rattle.fq_report_reads.specs.Parts.{HasPart, part_between};
    ghost use Rattle.fq_report_reads.specs.SideTallies.{no_bases, bases_of, bases_plus, mean_score, gc_percent};

    // No bases.
    pub(crate) fn zero() -> BaseTally
        ensures { result ≡ no_bases }
    {
        BaseTally {
            bases: 0,
            at_least_20: 0,
            at_least_30: 0,
            score_sum: 0,
            gc: 0,
            n: 0,
        }
    }

    // The counts of the bases from `from` up to `to`, and of their quality bytes.
    // Inlined, since the counts would be copied otherwise.
    #[inline(always)]
    pub(crate) fn of(
        encoding: Encoding,
        seq: &[u8],
        qual: &[u8],
        from: usize,
        to: usize,
    ) -> BaseTally
        requires { HasPart encoding seq.now qual.now from to }
        ensures { result ≡ bases_of (part_between encoding seq.now qual.now from to) }
    {
        let low = encoding.least_byte(20);
        let high = encoding.least_byte(30);
        let counted = count_of(seq, qual, from, to, low, high);
        let sum = score_sum(encoding, &qual[from..to], counted.sum);
        BaseTally {
            bases: (to - from) as u64,
            at_least_20: counted.at_least_low,
            at_least_30: counted.at_least_high,
            score_sum: sum,
            gc: counted.gc,
            n: counted.n,
        }
    }

    // Does what `of` does, for bases that few reads have. It is not inlined, so its code is in the
    // program only once.
    #[inline(never)]
    pub(crate) fn of_rare(
        encoding: Encoding,
        seq: &[u8],
        qual: &[u8],
        from: usize,
        to: usize,
    ) -> BaseTally
        requires { HasPart encoding seq.now qual.now from to }
        ensures { result ≡ bases_of (part_between encoding seq.now qual.now from to) }
    {
        BaseTally::of(encoding, seq, qual, from, to)
    }

    // Adds the counts of the bases from `from` up to `to`.
    #[inline(always)]
    pub(crate) fn with(
        self,
        encoding: Encoding,
        seq: &[u8],
        qual: &[u8],
        from: usize,
        to: usize,
    ) -> BaseTally
        requires { HasPart encoding seq.now qual.now from to }
        ensures { result
            ≡ bases_plus self (bases_of (part_between encoding seq.now qual.now from to)) }
    {
        if from == to {
            return self;
        }
        self.plus(BaseTally::of(encoding, seq, qual, from, to))
    }

    // Adds the counts of other bases.
    pub(crate) fn plus(self, other: BaseTally) -> BaseTally
        ensures { result ≡ bases_plus self other }
    {
        BaseTally {
            bases: self.bases.saturating_add(other.bases),
            at_least_20: self.at_least_20.saturating_add(other.at_least_20),
            at_least_30: self.at_least_30.saturating_add(other.at_least_30),
            score_sum: self.score_sum.saturating_add(other.score_sum),
            gc: self.gc.saturating_add(other.gc),
            n: self.n.saturating_add(other.n),
        }
    }

    // The whole part of the mean Phred score of the bases of a read.
    #[inline(always)]
    pub(crate) fn mean_score(self) -> usize
        requires { 1 ≤ self.bases }
        ensures { result ≡ mean_score self }
    {
        (self.score_sum / self.bases) as usize
    }

    // The percentage of a read's bases that are G or C, to the nearest whole number, halves up.
    #[inline(always)]
    pub(crate) fn gc_percent(self) -> usize
        requires some { 1 ≤ self.bases }
        requires few { self.bases ≤ limit }
        requires among { self.gc ≤ self.bases }
        ensures { result ≡ gc_percent self }
    {
        ((200 * self.gc + self.bases) / (2 * self.bases)) as usize
    }
}

// What is counted of bases and of their quality bytes.
#[derive(Drop)]
struct Counted {
    gc: u64,
    n: u64,
    at_least_low: u64,
    at_least_high: u64,
    sum: u64,
}

impl Counted {
    // Adds the counts of one more vector.
    #[inline(always)]
    fn with(self, bases: u8x32, bytes: u8x32, low: u8, high: u8) -> Counted
        requires gc { self.gc ≤ limit }
        requires n { self.n ≤ limit }
        requires low { self.at_least_low ≤ limit }
        requires high { self.at_least_high ≤ limit }
        requires sum { self.sum ≤ 68719476736 }
        ensures { CountsOn low high bases bytes self result }
    {
        Counted {
            gc: self.gc + u64::from(gc_in(bases)),
            n: self.n + u64::from(n_in(bases)),
            at_least_low: self.at_least_low + u64::from(at_least(bytes, low)),
            at_least_high: self.at_least_high + u64::from(at_least(bytes, high)),
            sum: self.sum + u64::from(sum_of(bytes)),
        }
    }
}

// Counts the bases from `from` up to `to`: G or C, N, and of their quality bytes the sum and those
// that are at least `low` and at least `high`.
#[inline(always)]
fn count_of(seq: &[u8], qual: &[u8], from: usize, to: usize, low: u8, high: u8) -> Counted
    requires few { length qual.now ≤ limit }
    requires same { length qual.now ≡ length seq.now }
    requires order { from ≤ to }
    requires within { to ≤ length seq.now }
    requires low { 1 ≤ low }
    requires high { 1 ≤ high }
    ensures { IsCount low high
        (take (to - from) (drop from seq.now)) (take (to - from) (drop from qual.now)) result }
{
    let mut counted = Counted {
        gc: 0,
        n: 0,
        at_least_low: 0,
        at_least_high: 0,
        sum: 0,
    };
    let mut at = from;
    while WIDTH <= to - at {
        let stop = at + WIDTH;
        let bases = vector_of(seq, at, stop);
        let bytes = vector_of(qual, at, stop);
        counted = counted.with(bases, bytes, low, high);
        at = stop;
    }
    if at < to {
        let bases = vector_of(seq, at, to);
        let bytes = vector_of(qual, at, to);
        counted = counted.with(bases, bytes, low, high);
    }
    counted
}

// The sum of the scores. If a score is a difference of bytes, it comes from the sum of the bytes.
fn score_sum(encoding: Encoding, qual: &[u8], bytes: u64) -> u64
    requires few { length qual.now ≤ limit }
    requires scored { list_all (is_scored encoding) qual.now ≡ true }
    requires bytes { bytes ≡ sum qual.now }
    ensures { result ≡ sum (scores encoding qual.now) }
{
    match encoding.offset() {
        Some(offset) => bytes - u64::from(offset) * qual.len() as u64,
        None => solexa_sum(qual),
    }
}

// The sum of the Phred scores of Solexa's quality bytes, each converted by itself.
fn solexa_sum(qual: &[u8]) -> u64
    requires few { length qual.now ≤ limit }
    requires scored { list_all (is_scored Solexa) qual.now ≡ true }
    ensures { result ≡ sum (scores Solexa qual.now) }
{
    let mut sum = 0;
    for byte in qual {
        sum += u64::from(Encoding::Solexa.phred(*byte));
    }
    sum
}
