//! Counts of the reads of one side, before and after trimming: bases, scores, lengths, bases by
//! their position, and what each step did. The `Tally` of `fq_report_pairs` has them for both
//! sides.
//!
//! The steps of a list are taken in turn, and what each does is counted by its place in the list.
//! [`Trimmed`] holds what the steps do to a read before anything is counted, so a read that is also
//! written is trimmed once.
//!
//! Which type has which:
//!
//! ```text
//! SideCounts              counts of the reads of one side, on the heap
//! └ SideTally
//!   ├ ReadsTally          of all reads, and of what is left of them with and without their mate
//!   │ ├ BaseTally         numbers of bases, and the sum of scores
//!   │ └ Rows              histograms of reads
//!   ├ Rows                histograms of removed bases
//!   ├ SidePositions       of bases by their position
//!   │ └ Positions         five counters, so that most bases are counted once
//!   │   ├ Columns         the totals: a `Rows` for each column
//!   │   └ NarrowColumns   at most 254 reads, in 8 or 16 bits each, added by vectors
//!   └ StepsTally          of steps
//! ```
#![tactic(auto)]

mod bases;
mod columns;
mod narrow_columns;
mod narrow_rows;
mod positions;
mod reads;
mod rows;
mod side;
mod side_counts;
mod side_positions;
mod steps;
mod table;
mod trimmed;
mod vectors;

pub use bases::BaseTally;
pub use columns::{Columns, LAST_POSITION};
pub use reads::ReadsTally;
pub use rows::{LAST_ROW, Rows};
pub use side::SideTally;
pub use side_counts::SideCounts;
pub use side_positions::SidePositions;
pub use steps::StepsTally;
pub use trimmed::Trimmed;
