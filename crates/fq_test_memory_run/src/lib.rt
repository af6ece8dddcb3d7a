//! Runs over texts in memory, for the tests and the worked rows of runs.
#![tactic(auto)]

mod memory_run;

pub use memory_run::{Left, MemoryRun, in_order};
