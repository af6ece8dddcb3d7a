//! Counts of the bases of one side by their position in the read, before and after trimming.

ghost use Rattle.std.specs.Prelude.{◌≡◌, ◌≤◌, false, [], Some, length, IfOk};
ghost use Rattle.fq_trim.specs.KeptPlaces.{places_of};
ghost use Rattle.fq_report_reads.specs.Courses.{part_at, whole};
ghost use Rattle.fq_report_reads.specs.Columns.{no_columns};

use crate::columns::Columns;
use crate::positions::Positions;
use fq_text::{Encoding, OutOfMemory, ReadView};
use fq_trim::Kept;
use std::alloc::Global;
use std::marker::Model;

/// Counts of the bases of one side by their position in the read, before and after trimming.
///
/// A base of a read that lost nothing at its start has the same position before and after, and is
/// counted once. The counters are on the heap, so that a value has few parts: the proof of a
/// function that moves one goes through all of them.
#[derive(Drop)]
pub struct SidePositions {
    // What is left of reads that lost nothing at their start, and survive with their mate or alone.
    paired: Box<Positions>,
    unpaired: Box<Positions>,
    // All other bases, at their positions before trimming.
    rest: Box<Positions>,
    // What is left of reads that lost bases at their start, at the positions after trimming.
    paired_moved: Box<Positions>,
    unpaired_moved: Box<Positions>,
}

impl Model for SidePositions {
    ghost use Rattle.fq_report_reads.specs.Columns.{columns_plus};
    ghost use Rattle.fq_report_reads.specs.SideColumns.{SideColumns};

    ghost Value = { SideColumns };

    ghost view = { λ p. record {
      before = columns_plus p.rest.value (columns_plus p.paired.value p.unpaired.value);
      paired = columns_plus p.paired.value p.paired_moved.value;
      unpaired = columns_plus p.unpaired.value p.unpaired_moved.value;
    } };
}

impl SidePositions {
    ghost use Rattle.fq_report_reads.specs.Columns.{columns_from};
    ghost use Rattle.fq_report_reads.specs.SideColumns.{no_side_columns, with_before, with_after, with_columns, side_columns_plus};
    ghost use Rattle.fq_report_reads.specs.Parts.{AreBases};

    // No bases.
    pub(crate) fn new(alloc: Global) -> Result<SidePositions, OutOfMemory>
        ensures { IfOk result (λ p. p ≡ no_side_columns) }
    {
        Ok(SidePositions {
            paired: no_positions(alloc)?,
            unpaired: no_positions(alloc)?,
            rest: no_positions(alloc)?,
            paired_moved: no_positions(alloc)?,
            unpaired_moved: no_positions(alloc)?,
        })
    }

    /// The bases of all reads, as they were read. Memory may be refused.
    #[tactic(auto, using(std::proofs::lemmas::Grind::common_steps, crate::proofs::ColumnLemmas::columns_assoc))]
    pub fn before(&self, alloc: Global) -> Result<Columns, OutOfMemory>
        ensures { IfOk result (λ columns. columns ≡ self.now.before) }
    {
        let mut columns = Columns::new(alloc)?;
        self.rest.add_to(&mut columns);
        self.paired.add_to(&mut columns);
        self.unpaired.add_to(&mut columns);
        Ok(columns)
    }

    /// What is left of the reads that survive with their mate. Memory may be refused.
    #[tactic(auto, using(std::proofs::lemmas::Grind::common_steps, crate::proofs::SideColumnLemmas::both_added))]
    pub fn paired(&self, alloc: Global) -> Result<Columns, OutOfMemory>
        ensures { IfOk result (λ columns. columns ≡ self.now.paired) }
    {
        let mut columns = Columns::new(alloc)?;
        self.paired.add_to(&mut columns);
        self.paired_moved.add_to(&mut columns);
        Ok(columns)
    }

    /// What is left of the reads that survive alone. Memory may be refused.
    #[tactic(auto, using(std::proofs::lemmas::Grind::common_steps, crate::proofs::SideColumnLemmas::both_added))]
    pub fn unpaired(&self, alloc: Global) -> Result<Columns, OutOfMemory>
        ensures { IfOk result (λ columns. columns ≡ self.now.unpaired) }
    {
        let mut columns = Columns::new(alloc)?;
        self.unpaired.add_to(&mut columns);
        self.unpaired_moved.add_to(&mut columns);
        Ok(columns)
    }

    // Counts the bases of one more read that keeps no base.
    pub(crate) fn add_dropped(&mut self, read: &ReadView<'_>)
        ensures { self.new ≡ with_columns read.now (part_at [] (whole read.now)) false self.old }
    {
        let _ = read.title(); // The proof learns that the read is valid.
        self.add_rest(read.encoding(), read.seq(), read.qual(), 0);
    }

    // Counts the bases of one more read that keeps bases.
    #[tactic(auto, using(crate::proofs::SideColumnLemmas::kept_are_bases, crate::proofs::SideColumnLemmas::between_are_bases, crate::proofs::SideColumnLemmas::left_counted))]
    pub(crate) fn add_survivor(&mut self, read: &ReadView<'_>, kept: Kept, mate_survives: bool)
        requires { kept.stop ≤ length read.now.seq }
        ensures { self.new ≡ with_columns read.now
            (part_at (places_of (Some kept)) (whole read.now)) mate_survives self.old }
    {
        let _ = read.title(); // The proof learns that the read is valid.
        let encoding = read.encoding();
        let (start, stop) = (kept.start, kept.stop);
        let (seq, qual) = (read.seq(), read.qual());
        let (left, left_qual) = (&seq[start..stop], &qual[start..stop]);
        if start > 0 {
            self.add_rest(encoding, seq, qual, 0);
            self.add_moved(encoding, left, left_qual, mate_survives);
        } else if stop < seq.len() {
            self.add_rest(encoding, &seq[stop..], &qual[stop..], stop);
            self.add_in_place(encoding, left, left_qual, mate_survives);
        } else {
            self.add_in_place(encoding, left, left_qual, mate_survives);
        }
    }

    // Counts bases as they were read. The first is at index `at` of its read.
    fn add_rest(&mut self, encoding: Encoding, seq: &[u8], qual: &[u8], at: usize)
        requires { AreBases encoding seq.now qual.now at }
        ensures { self.new ≡ with_before (columns_from at encoding seq.now qual.now) self.old }
    {
        self.rest.add(encoding, seq, qual, at);
    }

    // Counts what is left of a read that lost bases at its start.
    fn add_moved(&mut self, encoding: Encoding, seq: &[u8], qual: &[u8], mate_survives: bool)
        requires { AreBases encoding seq.now qual.now 0 }
        ensures { self.new
            ≡ with_after (columns_from 0 encoding seq.now qual.now) mate_survives self.old }
    {
        if mate_survives {
            self.paired_moved.add(encoding, seq, qual, 0);
        } else {
            self.unpaired_moved.add(encoding, seq, qual, 0);
        }
    }

    // Counts what is left of a read that lost nothing at its start, both before and after.
    fn add_in_place(&mut self, encoding: Encoding, seq: &[u8], qual: &[u8], mate_survives: bool)
        requires { AreBases encoding seq.now qual.now 0 }
        ensures { self.new ≡ with_before (columns_from 0 encoding seq.now qual.now)
            (with_after (columns_from 0 encoding seq.now qual.now) mate_survives self.old) }
    {
        if mate_survives {
            self.paired.add(encoding, seq, qual, 0);
        } else {
            self.unpaired.add(encoding, seq, qual, 0);
        }
    }

    // Adds the counts of other reads.
    #[tactic(auto, using(std::proofs::lemmas::Grind::common_steps, crate::proofs::SideColumnLemmas::side_of_both))]
    pub(crate) fn add_all(&mut self, other: &SidePositions)
        ensures { self.new ≡ side_columns_plus self.old other.now }
    {
        self.paired.add_all(&other.paired);
        self.unpaired.add_all(&other.unpaired);
        self.rest.add_all(&other.rest);
        self.paired_moved.add_all(&other.paired_moved);
        self.unpaired_moved.add_all(&other.unpaired_moved);
    }
}

// A counter of no bases.
fn no_positions(alloc: Global) -> Result<Box<Positions>, OutOfMemory>
    ensures { IfOk result (λ positions. positions.value ≡ no_columns) }
{
    let positions = Positions::new(alloc)?;
    Ok(Box::new(alloc, positions)?)
}
