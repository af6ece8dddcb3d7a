//! Why a request was refused, and why a run ended early, in words that say what to change. The
//! option `--explain` asks for these reasons.
//!
//! This is an inner layer of the program `fq_prog`, between `fq_app_files`, which knows what was
//! refused or went wrong, and `fq_app`, which reports it. A reason is made of the fault, the
//! arguments, and what the device said that failed.
#![tactic(auto)]

mod causes;
mod ended;
mod lines;
mod refused;

pub use lines::{
    REPORT_LINE, ending_line, explained_refusal, lane_line, report_line, report_memory_line,
};
