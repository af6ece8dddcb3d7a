//! Counts of bases by their positions in reads, as they are counted.

ghost use Rattle.std.specs.Prelude.{◌≡◌, ◌≤◌, ℕ, IfOk};
ghost use Rattle.fq_report_reads.specs.Counting.{last_position, most_reads};
ghost use Rattle.fq_report_reads.specs.Columns.{no_columns, columns_from, columns_plus, first_rows, AreFew};
ghost use Rattle.fq_report_reads.specs.Parts.{AreBases};

use crate::columns::{Columns, LAST_POSITION};
use crate::narrow_columns::NarrowColumns;
use crate::vectors::WIDTH;
use fq_text::{Encoding, OutOfMemory};
use std::alloc::Global;
use std::marker::Model;

// After this many reads the counts in `narrow` are added to the totals, so that none of its 8-bit
// counts overflows. It is less than 255, because the last vector of a read covers positions again
// that its other vectors have counted: it adds 0 there, but the bound is that of adding 1.
const MOST_READS: usize = 254;

// `narrow` gets rows for so many positions at a time.
const MORE_POSITIONS: usize = 256;

// A counter of bases by their positions. Reads that end at position 10,000 or before are counted
// in `narrow`, which is added to `totals` from time to time. Longer reads go to `totals` at once,
// and so do all reads that `narrow` has no memory for.
#[derive(Drop)]
pub(crate) struct Positions {
    alloc: Global,
    totals: Columns,
    narrow: NarrowColumns,
    // The last position that has a row in `narrow`. A vector has room after it.
    last: usize,
    // The rows of `narrow` that were reached.
    reached: usize,
    // The reads in `narrow`.
    reads: usize,
}

impl Model for Positions {
    ghost use Rattle.fq_report_reads.specs.declared.columns.Columns.{Columns};
    ghost use Rattle.fq_report_reads.specs.Columns.{columns_plus, first_rows, HoldsFew};

    ghost Value = { Columns };

    ghost view = { λ p. columns_plus p.totals (first_rows p.reached p.narrow) };

    ghost invariant = { λ p. HoldsFew p.last p.reached p.reads p.narrow };
}

impl Positions {
    // No bases. Takes the memory for the totals, which may be refused.
    pub(crate) fn new(alloc: Global) -> Result<Positions, OutOfMemory>
        ensures { IfOk result (λ p. p ≡ no_columns) }
    {
        let totals = Columns::new(alloc)?;
        let narrow = NarrowColumns::new(alloc, WIDTH)?;
        Ok(Positions {
            alloc,
            totals,
            narrow,
            last: 0,
            reached: 0,
            reads: 0,
        })
    }

    // Counts bases. The first is at index `at` of its read. `narrow` gets more rows if memory is
    // given.
    pub(crate) fn add(&mut self, encoding: Encoding, seq: &[u8], qual: &[u8], at: usize)
        requires { AreBases encoding seq.now qual.now at }
        ensures { self.new ≡ columns_plus self.old (columns_from at encoding seq.now qual.now) }
    {
        let end = at + seq.len();
        if end > self.last {
            self.reach(end);
        }
        self.count(encoding, seq, qual, at);
    }

    // Counts bases, in `narrow` if it reaches so far. Takes no memory.
    fn count(&mut self, encoding: Encoding, seq: &[u8], qual: &[u8], at: usize)
        requires { AreBases encoding seq.now qual.now at }
        ensures { self.new ≡ columns_plus self.old (columns_from at encoding seq.now qual.now) }
    {
        let end = at + seq.len();
        if end > self.last {
            self.totals.count(encoding, seq, qual, at);
            return;
        }
        self.narrow.count(encoding, seq, qual, at);
        self.reached = self.reached.max(end);
        self.reads += 1;
        if self.reads == MOST_READS {
            empty(&mut self.narrow, &mut self.totals, self.reached);
            self.reached = 0;
            self.reads = 0;
        }
    }

    // Gives `narrow` a row for each position up to this one, if it may have it and memory is given.
    #[tactic(auto, using(std::proofs::lemmas::Grind::common_steps, crate::proofs::ColumnLemmas::columns_none))]
    #[inline(never)]
    fn reach(&mut self, end: usize)
        ensures { self.new ≡ self.old }
    {
        if end > LAST_POSITION {
            return;
        }
        let last = (end + MORE_POSITIONS - end % MORE_POSITIONS).min(LAST_POSITION);
        if let Ok(narrow) = NarrowColumns::new(self.alloc, last + WIDTH) {
            self.narrow.add_to(&mut self.totals, self.reached);
            self.narrow = narrow;
            self.last = last;
            self.reached = 0;
            self.reads = 0;
        }
    }

    // Adds these counts to others.
    pub(crate) fn add_to(&self, columns: &mut Columns)
        ensures { columns.new ≡ columns_plus columns.old self.now }
    {
        columns.add_all(&self.totals);
        self.narrow.add_to(columns, self.reached);
    }

    // Adds the counts of other bases.
    pub(crate) fn add_all(&mut self, other: &Positions)
        ensures { self.new ≡ columns_plus self.old other.now }
    {
        self.totals.add_all(&other.totals);
        other.narrow.add_to(&mut self.totals, other.reached);
    }
}

// Moves counts of a few reads to the totals.
fn empty(narrow: &mut NarrowColumns, totals: &mut Columns, reached: usize)
    requires few { AreFew reached reached most_reads narrow.old }
    requires near { reached ≤ last_position }
    ensures moved { totals.new ≡ columns_plus totals.old (first_rows reached narrow.old) }
    ensures none { (n : ℕ) → AreFew n reached most_reads narrow.old → AreFew n 0 0 narrow.new }
{
    narrow.add_to(totals, reached);
    narrow.clear(reached);
}
