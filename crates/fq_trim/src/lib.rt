//! Trims a read by a list of steps.
//!
//! [`Steps::parse`] reads the list from arguments such as `LEADING:3` and `SLIDINGWINDOW:4:15`,
//! whose names are those of the Trimmomatic manual. [`Steps::trim`] returns which bases of a read
//! the list keeps, from the quality bytes alone. The bases kept are always consecutive, so the
//! result is the index of the first and the index after the last. Nothing here takes memory.
#![tactic(auto)]

mod fault;
mod keeping;
mod low_end;
mod scoring;
mod step;
mod steps;
mod trimming;
mod vectors;
mod windows;
mod words;

pub use fault::{StepFault, StepFaultKind};
pub use step::Step;
pub use steps::{MAX_STEPS, Steps};
pub use trimming::Kept;
