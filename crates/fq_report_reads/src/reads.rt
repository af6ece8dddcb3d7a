//! Counts of reads.

ghost use Rattle.std.specs.Prelude.{◌≡◌, ◌≤◌, IfOk};
ghost use Rattle.fq_text.specs.Grammar.{limit};

use crate::bases::BaseTally;
use crate::rows::Rows;
use fq_text::OutOfMemory;
use std::alloc::Global;

/// Counts of reads and of their bases, and histograms of the reads by length, mean score and GC.
/// Sums saturate at `u64::MAX`.
#[derive(Drop)]
pub struct ReadsTally {
    /// All reads.
    pub reads: u64,
    /// Their bases.
    pub bases: BaseTally,
    /// The bases of the shortest read, `u64::MAX` if there is no read.
    pub shortest: u64,
    /// The bases of the longest read, 0 if there is no read.
    pub longest: u64,
    /// The reads by their number of bases.
    pub lengths: Rows,
    /// The reads by the whole part of their mean Phred score. Reads without bases are left out,
    /// as FastQC does.
    pub mean_scores: Rows,
    /// The reads by the percentage of their bases that are G or C, to the nearest whole number,
    /// halves up. N is among the bases. Reads without bases are left out.
    pub gc_percents: Rows,
}

impl ReadsTally {
    ghost use Rattle.fq_report_reads.specs.SideTallies.{no_reads, with_bases, reads_plus};

    // No reads.
    pub(crate) fn new(alloc: Global) -> Result<ReadsTally, OutOfMemory>
        ensures { IfOk result (λ t. t ≡ no_reads) }
    {
        Ok(ReadsTally {
            reads: 0,
            bases: BaseTally::zero(),
            shortest: u64::MAX,
            longest: 0,
            lengths: Rows::new(alloc)?,
            mean_scores: Rows::new(alloc)?,
            gc_percents: Rows::new(alloc)?,
        })
    }

    // Counts one more read. `bases` has the counts of its `length` bases.
    // Inlined, since the counts would be copied otherwise.
    #[inline(always)]
    pub(crate) fn add(&mut self, bases: BaseTally, length: usize)
        requires length { length ≡ bases.bases }
        requires few { bases.bases ≤ limit }
        requires among { bases.gc ≤ bases.bases }
        ensures { self.new ≡ with_bases bases self.old }
    {
        self.reads = self.reads.saturating_add(1);
        self.bases = self.bases.plus(bases);
        self.shortest = self.shortest.min(bases.bases);
        self.longest = self.longest.max(bases.bases);
        self.lengths.count(length);
        if length > 0 {
            self.mean_scores.count(bases.mean_score());
            self.gc_percents.count(bases.gc_percent());
        }
    }

    // Adds the counts of other reads.
    pub(crate) fn add_all(&mut self, other: &ReadsTally)
        ensures { self.new ≡ reads_plus self.old other.now }
    {
        self.reads = self.reads.saturating_add(other.reads);
        self.bases = self.bases.plus(other.bases);
        self.shortest = self.shortest.min(other.shortest);
        self.longest = self.longest.max(other.longest);
        self.lengths.add_all(&other.lengths);
        self.mean_scores.add_all(&other.mean_scores);
        self.gc_percents.add_all(&other.gc_percents);
    }
}
