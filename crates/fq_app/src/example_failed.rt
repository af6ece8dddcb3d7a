//! Why the example is not shown.

use fq_app_files::Account;
use fq_text::MemoryRefused;

/// Why the example is not shown.
#[derive(Drop)]
pub(crate) enum ExampleFailed {
    /// A thread was refused, or a lane could not be confirmed.
    Unrun(Account),
    /// Memory was refused.
    Memory(MemoryRefused),
}
