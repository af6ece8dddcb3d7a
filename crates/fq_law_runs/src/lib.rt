//! The laws of `fq_law_in_step`, of runs: what outlets have taken is in step. Those of files are
//! fields of `RequestAnswered` in `fq_app`. And the laws of what a run leaves that is killed, and
//! that a sample may be trimmed in parts.
//!
//! Each function of this crate has no parameters and does nothing. Its contract is a law about the
//! definitions that the contracts of the other crates use, so it holds for every run. The laws of
//! runs have only these premises, beside those of `fq_law_in_step`:
//!
//! - Of each outlet: that its bytes are known to the proof, as those of memory are, and that it
//!   began empty. For endings that aren't whole, the bytes of feeds are known, too.
#![tactic(auto)]

mod parts;
mod runs;

pub use parts::parts_may_be_trimmed_apart;
pub use runs::{endings_are_in_step, kills_leave_first_parts, whole_runs_are_in_step};
