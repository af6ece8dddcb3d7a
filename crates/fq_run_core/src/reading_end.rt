//! Why reading stopped.

use fq_pair::InputFault;
use fq_text::MemoryRefused;

/// Why no further pair is read.
#[derive(Clone, Copy, Debug, PartialEq, Eq)]
pub enum ReadingEnd {
    /// The inputs have ended.
    End,
    /// The inputs have a fault.
    Fault(InputFault),
    /// Memory was refused: for a pair, which is lost with all later ones, or before the first pair.
    Memory(MemoryRefused),
}
