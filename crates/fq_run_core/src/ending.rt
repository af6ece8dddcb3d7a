//! What a run returns.

ghost use Rattle.std.specs.Prelude.{◌≡◌, true, None, IsSome, MatchResult};
ghost use Rattle.fq_run_core.specs.Outcomes.{is_unmatched};

use crate::outcome::Outcome;
use fq_lane::NotEnded;
use fq_pair::{Counts, InputFault, UnmatchedNames};
use fq_report_pairs::Tally;
use fq_text::{MemoryRefused, OutOfMemory};

/// How a run over two inputs ended, and what it returns.
#[derive(Drop)]
pub struct Ending<F, G> {
    /// How the run ended.
    pub outcome: Outcome,
    /// The counts of the pairs whose block was written completely.
    pub counts: Counts,
    /// The tally of the same pairs, if the settings ask for one and the outcome is `Input` or
    /// `Finished`. `None` at all other outcomes.
    pub tally: Option<Tally>,
    /// The feed of the forward input, as the run left it. `None` if it was lost because a thread
    /// couldn't be started.
    pub forward: Option<F>,
    /// The feed of the reverse input. `None` exactly when `forward` is.
    pub reverse: Option<G>,
    /// Why a lane couldn't be confirmed: `Some` exactly when the outcome is [`Outcome::Lane`].
    pub unended: Option<NotEnded>,
    /// The witness that memory was refused, or a thread: `Some` whenever the outcome is
    /// [`Outcome::Memory`] or [`Outcome::Spawn`], or `unmatched` lacks names.
    pub refused: Option<MemoryRefused>,
    /// The names of the mates at which the run ended: `Some` only if the outcome is
    /// [`Outcome::Input`] with [`InputFault::NamesDiffer`]. `None` also if memory for them was
    /// refused; `refused` is then the witness.
    pub unmatched: Option<UnmatchedNames>,
}

/// How a run over one interleaved input ended, and what it returns.
#[derive(Drop)]
pub struct MixedEnding<F> {
    /// How the run ended.
    pub outcome: Outcome,
    /// The counts of the pairs whose block was written completely.
    pub counts: Counts,
    /// The tally of the same pairs, if the settings ask for one and the outcome is `Input` or
    /// `Finished`. `None` at all other outcomes.
    pub tally: Option<Tally>,
    /// The feed, as the run left it. `None` if it was lost because a thread couldn't be started.
    pub feed: Option<F>,
    /// Why a lane couldn't be confirmed: `Some` exactly when the outcome is [`Outcome::Lane`].
    pub unended: Option<NotEnded>,
    /// The witness that memory was refused, or a thread: `Some` whenever the outcome is
    /// [`Outcome::Memory`] or [`Outcome::Spawn`], or `unmatched` lacks names.
    pub refused: Option<MemoryRefused>,
    /// The names of the mates at which the run ended: `Some` only if the outcome is
    /// [`Outcome::Input`] with [`InputFault::NamesDiffer`]. `None` also if memory for them was
    /// refused; `refused` is then the witness.
    pub unmatched: Option<UnmatchedNames>,
}

/// Returns these names if the outcome is that a pair has names that don't match, and the witness
/// that memory was refused, to the run or for the names.
pub fn names_at(
    outcome: Outcome,
    names: Result<Option<UnmatchedNames>, OutOfMemory>,
    refused: Option<MemoryRefused>,
) -> (Option<UnmatchedNames>, Option<MemoryRefused>)
    ensures only { IsSome result.0 → is_unmatched outcome ≡ true }
    ensures told { is_unmatched outcome ≡ true →
        MatchResult names (λ x. result.0 ≡ x) (λ e. (result.0 ≡ None) × IsSome result.1) }
    ensures refused { IsSome refused → IsSome result.1 }
{
    match (outcome, names) {
        (Outcome::Input(InputFault::NamesDiffer(_)), Ok(names)) => (names, refused),
        (Outcome::Input(InputFault::NamesDiffer(_)), Err(e)) => {
            (None, Some(MemoryRefused::from(e)))
        }
        _ => (None, refused),
    }
}
