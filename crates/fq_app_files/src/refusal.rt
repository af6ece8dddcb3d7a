//! Why the program did not do what it was asked to do.

ghost use Rattle.std.specs.Prelude.{◌≡◌, ◌≢◌, ◌⊎◌};
ghost use Rattle.fq_app_files.specs.Refusals.{status_of, IsMemory};

use fq_files::{Cause, FileFault};
use fq_pair::{Out, Side};
use fq_run_core::BadSetting;
use fq_text::{MemoryRefused, OutOfMemory};
use fq_trim::StepFault;

/// Why the program did not do what it was asked to do. Each variant has an exit status and a line
/// on standard error.
#[derive(Clone, Copy, Debug, PartialEq, Eq)]
pub enum Refusal {
    /// No encoding has this name.
    Encoding,
    /// The arguments for the steps are invalid.
    Step(StepFault),
    /// A setting is out of its range.
    Setting(BadSetting),
    /// This output has the name of an input.
    SameName(Out),
    /// The input of this side can't be read.
    Source(Side, Cause),
    /// This output can't be written.
    Target(Out, Cause),
    /// The report has the name of an input.
    SameReport,
    /// The report can't be written.
    Report(Cause),
    /// Memory was refused.
    Memory(MemoryRefused),
}

impl From<OutOfMemory> for Refusal {
    ghost use Rattle.fq_app_files.specs.Refusals.{IsMemory};

    ghost from_gives = { λ _ e. IsMemory e };

    fn from(e: OutOfMemory) -> Refusal {
        Refusal::Memory(MemoryRefused::from(e))
    }
}

/// The refusal of the input of this side.
pub(crate) fn source_refused(fault: FileFault, side: Side) -> Refusal
    ensures why { IsMemory result ⊎ ((cause : Cause) × (fault ≡ FileFault.Refused cause)
        × (result ≡ Refusal.Source side cause)) }
    ensures late { status_of result ≢ 2 }
{
    match fault {
        FileFault::Refused(cause) => Refusal::Source(side, cause),
        FileFault::OutOfMemory(refused) => Refusal::Memory(refused),
    }
}

/// The refusal of this output.
pub(crate) fn target_refused(fault: FileFault, out: Out) -> Refusal
    ensures why { ((cause : Cause) × (fault ≡ FileFault.Refused cause)
        × (result ≡ Refusal.Target out cause)) ⊎ IsMemory result }
    ensures late { status_of result ≢ 2 }
{
    match fault {
        FileFault::Refused(cause) => Refusal::Target(out, cause),
        FileFault::OutOfMemory(refused) => Refusal::Memory(refused),
    }
}

/// The refusal of the report.
pub(crate) fn report_refused(fault: FileFault) -> Refusal
    ensures why { ((cause : Cause) × (fault ≡ FileFault.Refused cause)
        × (result ≡ Refusal.Report cause)) ⊎ IsMemory result }
{
    match fault {
        FileFault::Refused(cause) => Refusal::Report(cause),
        FileFault::OutOfMemory(refused) => Refusal::Memory(refused),
    }
}
