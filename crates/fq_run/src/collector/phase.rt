//! What a collector is doing.

use fq_pair::Out;

/// What a collector is doing, or why it stopped writing.
#[derive(Clone, Copy, Debug, PartialEq, Eq)]
pub(crate) enum Phase {
    /// Replies are written in turn.
    Writing,
    /// The lane whose turn it was came to its mark, the last thing that a lane carries.
    AtMark,
    /// The next reply in turn was a stop.
    Stopped,
    /// A write to this outlet failed.
    WriteFailed(Out),
}

impl Phase {
    ghost use Rattle.std.specs.Prelude.{◌≡◌};
    ghost use Rattle.fq_run.specs.collector.Collecting.{failed_in};

    /// The outlet to which a write failed.
    pub(crate) fn failed(self) -> Option<Out>
        ensures { result ≡ failed_in self }
    {
        match self {
            Phase::WriteFailed(out) => Some(out),
            Phase::Writing | Phase::AtMark | Phase::Stopped => None,
        }
    }
}
