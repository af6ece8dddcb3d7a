//! What a run on several threads returns, over any source of pairs.

use fq_lane::NotEnded;
use fq_run_core::Outcome;
use fq_run_core::shared::Total;
use fq_text::MemoryRefused;

/// How a run on several threads ended, and what it returns.
#[derive(Drop)]
pub(crate) struct Conclusion<S> {
    /// How the run ended.
    pub(crate) outcome: Outcome,
    /// The counts of the pairs whose block was written completely, and the tally of the same pairs
    /// if one is asked for and the run ended whole.
    pub(crate) total: Total,
    /// The source of the pairs, as the run left it. `None` if it was lost.
    pub(crate) source: Option<S>,
    /// Why a lane couldn't be confirmed, if one couldn't.
    pub(crate) unended: Option<NotEnded>,
    /// The witness of the refusal, if the outcome is that memory or a thread was refused.
    pub(crate) refused: Option<MemoryRefused>,
}

impl<S> Conclusion<S> {
    ghost use Rattle.std.specs.Prelude.{◌≡◌, false, Some, None};
    ghost use Rattle.fq_run_core.specs.Totals.{no_total};

    /// The conclusion of a run whose threads were not all started, because memory or a thread was
    /// refused.
    pub(crate) fn unstarted(
        outcome: Outcome,
        source: Option<S>,
        refused: MemoryRefused,
    ) -> Conclusion<S>
        ensures { result ≡ record {
          outcome = outcome;
          total = no_total false;
          source = source;
          unended = None;
          refused = Some refused;
        } }
    {
        Conclusion {
            outcome,
            total: Total::without_tally(),
            source,
            unended: None,
            refused: Some(refused),
        }
    }
}
