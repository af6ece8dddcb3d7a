//! Why workers stopped early.

use fq_text::MemoryRefused;

/// Why workers stopped before their last block, if any did.
#[derive(Clone, Copy, Debug, PartialEq, Eq)]
pub struct Halt {
    /// The gate didn't let a block pass.
    pub gate: bool,
    /// The witness that memory was refused to a worker, if it was.
    pub memory: Option<MemoryRefused>,
}

impl Halt {
    /// No worker stopped early.
    pub const NONE: Halt = Halt {
        gate: false,
        memory: None,
    };
}
