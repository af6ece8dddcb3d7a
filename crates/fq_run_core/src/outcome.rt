//! How a run ended.

ghost use Rattle.std.specs.Prelude.{◌≡◌};
ghost use Rattle.fq_run_core.specs.Endings.{ends_whole};

use fq_pair::{InputFault, Out, Side};

/// How a run ended. If several of these occurred, the run returns the first in this order.
///
/// At `Input` and `Finished` all pairs are written that come before the fault or the end of the
/// input.
#[derive(Clone, Copy, Debug, PartialEq, Eq)]
pub enum Outcome {
    /// A thread couldn't be started. Nothing was written, and nothing was read from the feeds that
    /// are handed back.
    Spawn,
    /// A lane (a queue between two threads) couldn't be confirmed.
    Lane,
    /// A gate didn't let a block pass.
    Gate,
    /// Memory was refused.
    Memory,
    /// A write to this outlet failed, or its flush.
    Write(Out),
    /// A read call on the input of this side failed.
    Read(Side),
    /// The input of this side didn't end within the allowed number of read calls.
    Endless(Side),
    /// The inputs have a fault. The pairs before it are written.
    Input(InputFault),
    /// All pairs are written.
    Finished,
}

impl Outcome {
    /// Whether the run ended at the end of the input, or at a fault in it.
    pub fn is_whole(self) -> bool
        ensures { result ≡ ends_whole self }
    {
        matches!(self, Outcome::Input(_) | Outcome::Finished)
    }
}
