//! The worker of a threaded run: it takes blocks of pairs from one lane, and sends a reply to each
//! through another, in order.
//!
//! [`work_block`] trims the pairs of one block, and counts them for a report if a tally is asked
//! for. [`work`] does so block by block, asks a [`Gate`] before each, and stops if memory is
//! refused or the gate does not let a block pass. Its contract says what was sent for what was
//! taken: one [`Done`] for each block, in order, or for the first of them, and then one
//! [`Reply::Stop`]. The tally stays with the worker, which hands it back at the end.
#![tactic(auto)]

mod ends;
mod gate;
mod reply;
mod returns;
mod trimming;
mod waiting;
mod worker;

pub use ends::{WorkEnds, Worked};
pub use fq_report_pairs::Done;
pub use gate::{Gate, OpenGate};
pub use reply::{Cause, Reply};
pub use trimming::work_block;
pub use worker::work;
