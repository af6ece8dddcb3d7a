//! What a run read and wrote.

ghost use Rattle.std.specs.Prelude.{◌≡◌};

use crate::reading_end::ReadingEnd;
use crate::total::Total;
use fq_pair::{Out, UnmatchedNames};
use fq_text::OutOfMemory;

/// What became of the pairs of a run.
pub(crate) struct Written {
    /// The counts and the tally of the pairs whose block was written completely.
    pub(crate) total: Total,
    /// Why reading stopped. `None` if a write failed before that.
    pub(crate) why: Option<ReadingEnd>,
    /// The outlet whose write failed.
    pub(crate) failed: Option<Out>,
}

/// What became of the pairs of a run, and the feeds as the run left them.
pub(crate) struct Pass<T> {
    pub(crate) written: Written,
    /// The names of the mates at which reading stopped, if they don't match.
    pub(crate) unmatched: Result<Option<UnmatchedNames>, OutOfMemory>,
    pub(crate) feeds: T,
}

impl Written {
    ghost use Rattle.std.specs.Prelude.{◌≡◌};
    ghost use Rattle.fq_run_core.specs.Writing.{nothing_written};

    /// Nothing was read or written, for this reason if there is one.
    pub(crate) fn nothing(why: Option<ReadingEnd>) -> Written
        ensures { result ≡ nothing_written why }
    {
        Written {
            total: Total::without_tally(),
            why,
            failed: None,
        }
    }
}
