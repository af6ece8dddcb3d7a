//! Runs of the trimmer: from two texts, or one interleaved text, to the texts of the trimmed pairs,
//! their log and their counts.
//!
//! A run on several threads has a dealer (the thread that reads), workers (threads that trim) and a
//! collector (the calling thread, which writes). They are connected by lanes, which are queues
//! between two threads.
#![tactic(auto)]

// A run, by the form of its input.
mod interleaved;
mod two_texts;

// What a run needs before its threads start.
mod lanes;

// The threads of a run, in the order in which a block passes them.
mod collector;
mod crew;
mod dealer;
mod threads;
mod turns;
mod waiting;

// What a run returns.
mod conclusion;
mod confirming;
pub mod laws;

pub use fq_run_core::{
    BadSetting, CALL_LIMIT, Ending, MixedEnding, Outcome, Outlets, Settings, SettingsBuilder,
    run_serial, run_serial_mixed,
};
pub use fq_text::{Encoding, Feed, FromRead, FromWrite, Outlet, ScriptFeed, ScriptOutlet};
pub use fq_trim::Steps;
pub use fq_work::{Gate, OpenGate};
pub use interleaved::run_threads_mixed;
pub use two_texts::run_threads;
