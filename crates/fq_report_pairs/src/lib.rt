//! Counts of the pairs of a run, before and after trimming, for a report, and what becomes of the
//! pairs of a block.
//!
//! A [`Tally`] takes pairs one after the other by [`add`](Tally::add), and other tallies by
//! [`add_all`](Tally::add_all). Pairs that are tallied apart and added up give the tally of all.
//!
//! A pair that is also written is trimmed once, by [`Trimmed`]. [`Done`] has the texts of a block's
//! pairs, and counts each pair in a tally of its caller's, if one is asked for.
//!
//! Which type has which:
//!
//! ```text
//! Done             the result of a block: its texts
//! Tally            what is counted of pairs
//! └ SideCounts     of the reads of one side: see `fq_report_reads`
//! ```
#![tactic(auto)]

mod done;
pub mod laws;
mod tally;

pub use done::Done;
pub use fq_report_reads::{
    BaseTally, Columns, LAST_POSITION, LAST_ROW, ReadsTally, Rows, SideCounts, SidePositions,
    SideTally, StepsTally, Trimmed,
};
pub use tally::Tally;
