//! The witness of a refusal that `fq_text` reports without one.

ghost use Rattle.std.specs.Prelude.{◌≡◌, is_some};
ghost use Rattle.fq_run_core.specs.Outcomes.{end_of, is_memory};

use fq_pair::InputFault;
use fq_text::{MemoryRefused, NoSource, OutOfMemory, TextFault};

/// The witness of a text whose reading ended because memory was refused, if this is the fault.
pub(crate) fn refused_by(fault: Option<InputFault>) -> Option<MemoryRefused>
    ensures { is_some result ≡ is_memory (end_of fault) }
{
    match fault {
        Some(InputFault::Text(_, TextFault::OutOfMemory)) => Some(witness()),
        _ => None,
    }
}

/// The feed of a source for which memory was refused, and the witness of that.
pub(crate) fn refused_over<F>(refused: NoSource<F>) -> (F, MemoryRefused)
    ensures { result.0 ≡ refused.feed }
{
    (refused.feed, witness())
}

// A fault, or a source that was not made, stands for the error of std.
fn witness() -> MemoryRefused {
    MemoryRefused::from(OutOfMemory)
}
