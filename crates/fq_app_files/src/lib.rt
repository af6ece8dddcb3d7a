//! What the program does with files before and after a run: it checks the request, opens the
//! inputs, makes the outputs, and then stores what was written.
//!
//! This is an inner layer of the program `fq_prog`. `fq_app` above it reads the arguments,
//! trims the pairs in between, and reports how the run ended. To trim from a program of your own,
//! begin with `fq_run`.
#![tactic(auto)]

mod account;
mod feeds;
mod judging;
mod opening;
mod outcome_line;
mod outputs;
mod refusal;
mod reporting;
mod seeing;

pub use account::Account;
pub use feeds::{Feeds, InputsSeen, inputs_done};
pub use judging::judge;
pub use opening::{Devices, open};
pub use outcome_line::{LANE_LINE, MEMORY_LINE, fault_line, settled, status_of};
pub use outputs::store;
pub use refusal::Refusal;
pub use reporting::{Reported, store_report, without_end};
pub use seeing::{EndingSeen, seen_of};
