//! Parts that runs on several threads are made of, too. They are for `fq_run`; to trim, call a run.

pub use crate::ending::names_at;
pub use crate::halt::Halt;
pub use crate::occurred::Occurred;
pub use crate::opening::{open, open_interleaved};
pub use crate::reading_end::ReadingEnd;
pub use crate::total::Total;
