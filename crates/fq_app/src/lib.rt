//! The program, apart from where its arguments and files come from and where its texts go:
//! [`program`] takes the arguments of a call, writes files and output, and returns an exit status.
//!
//! This is an inner layer of the program `fq_prog`, whose crate passes it the system's arguments,
//! files and outputs. `fq_test_rows` passes it others, in memory.
#![tactic(auto)]

mod answering;
mod example;
mod example_failed;
mod refusal_line;
mod telling;
mod trimming;
mod usage;

pub use answering::program;
pub use telling::out_of_memory;
