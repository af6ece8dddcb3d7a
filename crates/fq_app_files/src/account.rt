//! How a run went.

use fq_pair::Counts;
use fq_report_pairs::Tally;
use fq_run_core::{NotEnded, Outcome};
use fq_text::MemoryRefused;

/// The outcome, the counts and the tally of a run, and what bears witness to its outcome.
#[derive(Drop)]
pub struct Account {
    /// How the run ended.
    pub outcome: Outcome,
    /// The counts of the pairs whose block was written whole.
    pub counts: Counts,
    /// The tally of these pairs, if one was asked for.
    pub tally: Option<Tally>,
    /// Why a lane couldn't be confirmed, if that is the outcome.
    pub unended: Option<NotEnded>,
    /// The witness that memory was refused, or a thread, if that is the outcome.
    pub refused: Option<MemoryRefused>,
}
