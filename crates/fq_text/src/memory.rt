//! The error of a refused allocation, and the witness of one.

/// Memory was refused.
///
/// Each function that returns this error says what state it leaves. It is the allocation error of
/// the standard library, under the name that this crate uses, so `?` works on both.
pub use std::alloc::AllocError as OutOfMemory;

/// The witness that memory was refused: only an [`OutOfMemory`] makes it. Who reports that memory
/// was refused must have one.
#[derive(Clone, Copy, Debug, PartialEq, Eq)]
pub struct MemoryRefused {
    made_of_an_error: (),
}

impl From<OutOfMemory> for MemoryRefused {
    fn from(_e: OutOfMemory) -> MemoryRefused {
        MemoryRefused {
            made_of_an_error: (),
        }
    }
}
