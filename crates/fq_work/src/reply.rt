//! What a worker replies.

ghost use Rattle.std.specs.Prelude.{◌≡◌};

use fq_report_pairs::Done;
use fq_text::MemoryRefused;

/// Why a worker stopped.
#[derive(Clone, Copy, Debug, PartialEq, Eq)]
pub enum Cause {
    /// Memory was refused for the texts of a block.
    Memory(MemoryRefused),
    /// The gate refused a block as often as it was asked.
    Gate,
}

/// The reply of a worker to a block.
#[derive(Drop)]
pub enum Reply {
    /// All pairs of the block were trimmed.
    Done(Done),
    /// They were not, and no later block gets a reply.
    Stop(Cause),
}

impl Reply {
    ghost use Rattle.fq_work.specs.Waiting.{cause_of};

    /// The cause, if this is a stop.
    pub(crate) fn cause(&self) -> Option<Cause>
        ensures { result ≡ cause_of self.now }
    {
        match self {
            Reply::Done(_) => None,
            Reply::Stop(cause) => Some(*cause),
        }
    }
}
