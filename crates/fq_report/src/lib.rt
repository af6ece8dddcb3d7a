//! The report of a run as JSON text.
//!
//! [`report_text`] makes the text of a [`Report`]: what was asked, how the run ended, and what was
//! counted of its pairs.
#![tactic(auto)]

mod counted;
mod report;

pub use report::{Report, report_text};
