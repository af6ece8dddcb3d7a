//! Counts of bases by their positions in reads.

ghost use Rattle.std.specs.Prelude.{◌≡◌, ◌+◌, ◌≤◌, IfOk};
ghost use Rattle.fq_report_reads.specs.Counting.{last_position};
ghost use Rattle.fq_report_reads.specs.Columns.{no_columns, columns_from, columns_plus, empty_rows, one_in};
ghost use Rattle.fq_report_reads.specs.Parts.{AreBases};

use crate::rows::Rows;
use fq_text::{Encoding, OutOfMemory};
use std::alloc::Global;

/// The largest position that has a row of its own.
pub const LAST_POSITION: usize = 10_000;

/// Counts of bases by their positions in reads. A read's first base is at position 1.
///
/// In each column, row n (counted from 0) is that of position n + 1, and row 10,000 is that of all
/// positions above [`LAST_POSITION`]. There are as many rows as the longest read has bases, but at
/// most 10,001. Sums saturate at `u64::MAX`.
#[derive(Drop)]
pub struct Columns {
    /// All bases: up to position 10,000, as many as there are reads that have the position.
    pub bases: Rows,
    /// The sum of the Phred scores of the bases.
    pub score_sum: Rows,
    /// Bases with a Phred score of at least 30.
    pub q30_bases: Rows,
    /// Bases A, in either case.
    pub a: Rows,
    /// Bases C, in either case.
    pub c: Rows,
    /// Bases G, in either case.
    pub g: Rows,
    /// Bases T, in either case.
    pub t: Rows,
    /// Bases N, in either case.
    pub n: Rows,
}

impl Columns {
    // No rows.
    pub(crate) fn new(alloc: Global) -> Result<Columns, OutOfMemory>
        ensures { IfOk result (λ columns. columns ≡ no_columns) }
    {
        Ok(Columns {
            bases: Rows::new(alloc)?,
            score_sum: Rows::new(alloc)?,
            q30_bases: Rows::new(alloc)?,
            a: Rows::new(alloc)?,
            c: Rows::new(alloc)?,
            g: Rows::new(alloc)?,
            t: Rows::new(alloc)?,
            n: Rows::new(alloc)?,
        })
    }

    // Counts bases. The first is at index `at` of its read.
    pub(crate) fn count(&mut self, encoding: Encoding, seq: &[u8], qual: &[u8], at: usize)
        requires { AreBases encoding seq.now qual.now at }
        ensures { self.new ≡ columns_plus self.old (columns_from at encoding seq.now qual.now) }
    {
        let rows = at.min(LAST_POSITION + 1);
        self.grow(rows);
        for i in 0..seq.len() {
            let row = (at + i).min(LAST_POSITION);
            let score = encoding.phred(qual[i]);
            self.count_one(row, seq[i], score);
        }
    }

    // Gives each column at least this many rows. New rows count 0.
    fn grow(&mut self, rows: usize)
        requires { rows ≤ last_position + 1 }
        ensures { self.new ≡ columns_plus self.old (empty_rows rows) }
    {
        self.bases.grow(rows);
        self.score_sum.grow(rows);
        self.q30_bases.grow(rows);
        self.a.grow(rows);
        self.c.grow(rows);
        self.g.grow(rows);
        self.t.grow(rows);
        self.n.grow(rows);
    }

    // Counts one base in a row.
    fn count_one(&mut self, row: usize, base: u8, score: u8)
        requires { row ≤ last_position }
        ensures { self.new ≡ columns_plus self.old (one_in row base score) }
    {
        self.bases.add_to(row, 1);
        self.score_sum.add_to(row, u64::from(score));
        self.q30_bases.add_to(row, u64::from(score >= 30));
        self.a.add_to(row, u64::from(matches!(base, b'A' | b'a')));
        self.c.add_to(row, u64::from(matches!(base, b'C' | b'c')));
        self.g.add_to(row, u64::from(matches!(base, b'G' | b'g')));
        self.t.add_to(row, u64::from(matches!(base, b'T' | b't')));
        self.n.add_to(row, u64::from(matches!(base, b'N' | b'n')));
    }

    // Adds the counts of other bases.
    pub(crate) fn add_all(&mut self, other: &Columns)
        ensures { self.new ≡ columns_plus self.old other.now }
    {
        self.bases.add_all(&other.bases);
        self.score_sum.add_all(&other.score_sum);
        self.q30_bases.add_all(&other.q30_bases);
        self.a.add_all(&other.a);
        self.c.add_all(&other.c);
        self.g.add_all(&other.g);
        self.t.add_all(&other.t);
        self.n.add_all(&other.n);
    }
}
