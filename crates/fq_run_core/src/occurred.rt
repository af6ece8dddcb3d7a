//! What occurred in a run.

ghost use Rattle.std.specs.Prelude.{◌≡◌};
ghost use Rattle.fq_run_core.specs.Outcomes.{end_of};

use crate::halt::Halt;
use crate::outcome::Outcome;
use crate::reading_end::ReadingEnd;
use crate::refused::refused_by;
use fq_pair::{InputFault, Out};
use fq_text::{MemoryRefused, TextFault};

/// What occurred in a run.
#[derive(Clone, Copy, Debug, PartialEq, Eq)]
pub struct Occurred {
    /// A gate didn't let a block pass.
    pub gate: bool,
    /// The witness that memory was refused, unless that is the fault.
    pub memory: Option<MemoryRefused>,
    /// The outlet whose write or flush failed.
    pub failed: Option<Out>,
    /// The fault that ended the reading.
    pub fault: Option<InputFault>,
}

impl Occurred {
    ghost use Rattle.std.specs.Prelude.{IsSome};
    ghost use Rattle.fq_run_core.specs.Outcomes.{outcome_of};
    ghost use Rattle.fq_run_core.specs.Writing.{occurred};

    /// Combines why workers stopped, why reading stopped, and which outlet failed.
    pub fn new(halt: Halt, why: Option<ReadingEnd>, failed: Option<Out>) -> Occurred
        ensures { result ≡ occurred halt why failed }
    {
        Occurred {
            gate: halt.gate,
            memory: halt.memory.or(match why {
                Some(ReadingEnd::Memory(refused)) => Some(refused),
                _ => None,
            }),
            failed,
            fault: match why {
                Some(ReadingEnd::Fault(fault)) => Some(fault),
                _ => None,
            },
        }
    }

    /// Returns what occurred; of several, the first in the order of [`Outcome`].
    pub fn outcome(self) -> Outcome
        ensures { result ≡ outcome_of self }
    {
        if self.gate {
            return Outcome::Gate;
        }
        let ended = end_outcome(self.fault);
        if self.memory.is_some() || matches!(ended, Outcome::Memory) {
            return Outcome::Memory;
        }
        match self.failed {
            Some(out) => Outcome::Write(out),
            None => ended,
        }
    }

    /// Returns the witness that memory was refused, if it was.
    pub fn refused(self) -> Option<MemoryRefused>
        ensures { outcome_of self ≡ Outcome.Memory → IsSome result }
    {
        self.memory.or(refused_by(self.fault))
    }
}

/// The outcome of a run in which nothing occurred but this fault, or no fault. A text that could
/// not be read to its end is a failed read, an endless input or memory that was refused.
pub fn end_outcome(fault: Option<InputFault>) -> Outcome
    ensures { result ≡ end_of fault }
{
    match fault {
        None => Outcome::Finished,
        Some(InputFault::Text(side, TextFault::Read)) => Outcome::Read(side),
        Some(InputFault::Text(side, TextFault::Endless)) => Outcome::Endless(side),
        Some(InputFault::Text(_, TextFault::OutOfMemory)) => Outcome::Memory,
        Some(fault) => Outcome::Input(fault),
    }
}
