//! Why workers stopped.

ghost use Rattle.std.specs.Prelude.{◌≡◌};
ghost use Rattle.fq_run.specs.collector.Stops.{with_stop};

use fq_run_core::shared::Halt;
use fq_work::Cause;

/// Adds the cause for which one more worker stopped.
pub(crate) fn add_stop(halt: Halt, cause: Cause) -> Halt
    ensures { result ≡ with_stop cause halt }
{
    match cause {
        Cause::Gate => Halt { gate: true, ..halt },
        Cause::Memory(refused) => Halt {
            memory: Some(refused),
            ..halt
        },
    }
}
