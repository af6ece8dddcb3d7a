//! Rows of counts, such as a histogram of reads.

ghost use Rattle.std.specs.Prelude.{◌≡◌, ◌≤◌, ℕ, length, get_or};

use crate::table::Table;
use fq_text::OutOfMemory;
use std::alloc::Global;
use std::marker::Model;

/// The index of the last row of a histogram, which counts all numbers above 10,000.
pub const LAST_ROW: usize = 10_001;

// How many rows there can be.
const ROWS: usize = LAST_ROW + 1;

/// Rows of counts. In a histogram, row n (counted from 0) counts the reads with the number n, such
/// as a length, up to [`LAST_ROW`]. In [`Columns`](crate::Columns) the rows are those of positions.
/// There are as many rows as the largest number needs, and none if nothing was counted. Counts
/// saturate at `u64::MAX`.
///
/// Memory for all rows is taken by `new`, so counting takes none.
#[derive(Drop)]
pub struct Rows {
    counts: Vec<u64>,
}

impl Model for Rows {
    ghost use Rattle.std.specs.Prelude.{List, ℕ, vec_capacity};

    ghost Value = { List ℕ };

    ghost use Rattle.fq_report_reads.specs.Rows.{HasRoom};

    ghost view = { λ r. r.counts.items };

    ghost invariant = { λ r. HasRoom r.counts.items (vec_capacity r.counts) };
}

impl Rows {
    ghost use Rattle.std.specs.Prelude.{◌≡◌, ◌≤◌, [], ◌∷◌, ◌++◌, length, replicate, IfOk};
    ghost use Rattle.fq_report_reads.specs.Tables.{counts_of};
    ghost use Rattle.fq_report_reads.specs.Rows.{last_row, most_rows, counted, rows_plus};

    // No rows.
    pub(crate) fn new(alloc: Global) -> Result<Rows, OutOfMemory>
        ensures { IfOk result (λ rows. rows ≡ []) }
    {
        let counts = Vec::with_capacity(alloc, ROWS)?;
        Ok(Rows { counts })
    }

    /// The rows, from that of the number 0 on.
    pub fn as_slice(&self) -> &[u64]
        ensures { result.now ≡ self.now }
    {
        &self.counts
    }

    // Counts one more read with a number.
    pub(crate) fn count(&mut self, number: usize)
        ensures { self.new ≡ counted number self.old }
    {
        self.add_to(number.min(LAST_ROW), 1);
    }

    // Grows to at least this many rows. New rows count 0.
    #[tactic(auto, using(std::proofs::lemmas::Grind::common_steps, std::proofs::lemmas::List::take_all, crate::proofs::PositionLemmas::grown_behind, crate::proofs::PositionLemmas::grown_within))]
    pub(crate) fn grow(&mut self, rows: usize)
        requires { rows ≤ most_rows }
        ensures { self.new ≡ rows_plus self.old (replicate rows 0) }
    {
        if length_of(&self.counts) < rows {
            self.counts.resize(rows, 0).unwrap();
        }
    }

    // Adds to one row.
    #[tactic(auto, using(std::proofs::lemmas::Grind::common_steps, crate::proofs::RowLemmas::grown_row, crate::proofs::PositionLemmas::more_in))]
    pub(crate) fn add_to(&mut self, row: usize, count: u64)
        requires { row ≤ last_row }
        ensures { self.new ≡ rows_plus self.old (replicate row 0 ++ (count ∷ [])) }
    {
        self.grow(row + 1);
        self.counts[row] = self.counts[row].saturating_add(count);
    }

    // Adds the counts of other reads.
    pub(crate) fn add_all(&mut self, other: &Rows)
        ensures { self.new ≡ rows_plus self.old other.now }
    {
        self.add_table(Table::Longs(&other.counts));
    }

    // Adds the counts of a table.
    #[tactic(auto, using(std::proofs::lemmas::Grind::common_steps, crate::proofs::RowLemmas::plus_none, crate::proofs::RowLemmas::grown_long, crate::proofs::RowLemmas::grown_next, crate::proofs::RowLemmas::grown_plus, std::proofs::lemmas::List::get_or_past, std::proofs::lemmas::Bool::cases_lt))]
    pub(crate) fn add_table(&mut self, table: Table<'_>)
        requires { length (counts_of table) ≤ most_rows }
        ensures { self.new ≡ rows_plus self.old (counts_of table.entry) }
    {
        let rows = table.rows();
        self.grow(rows);
        for i in 0..rows {
            self.counts[i] = self.counts[i].saturating_add(table.count(i));
        }
    }
}

// The number of rows. None counts more than a `u64` can hold.
#[inline(always)]
fn length_of(counts: &[u64]) -> usize
    ensures length { result ≡ length counts.now }
    ensures counts { (k : ℕ) → get_or counts.now k 0 ≤ 18446744073709551615 }
{
    counts.len()
}
