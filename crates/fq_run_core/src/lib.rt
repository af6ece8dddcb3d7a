//! Runs of the trimmer on one thread, and the parts that runs on several threads share with them.
//!
//! [`run_serial`] trims the pairs of two inputs and [`run_serial_mixed`] those of an interleaved
//! one. [`Settings`] say how, five outlets ([`Outlets`]) get the texts and the trim log, and the
//! result is an [`Ending`] or a [`MixedEnding`]: the [`Outcome`], the counts, and the feeds.
//!
//! What every run promises, those of `fq_run` included, is in `specs/Endings.antt`. If it ends at
//! the end of its input or at a fault in it, the outlets have the texts, and the result the counts,
//! of all pairs before that, trimmed as the definitions say (`IsTrimmed`). After every other ending
//! they have those of the first pairs, and at most a part of one more block (`EveryEnding`). Both
//! hold for devices whose bytes the proof knows. If several things went wrong, the outcome is the
//! first in the order of [`Outcome`].
#![tactic(auto)]

// A run on one thread, by the form of its input.
mod interleaved;
mod two_texts;

// Its steps: open the sources, gather the pairs of each block, and write them.
mod gathering;
mod opening;
mod writing;
mod written;

// Shared with runs on several threads.
mod halt;
mod occurred;
mod reading_end;
mod refused;
pub mod shared;
mod total;

// What a run is given, and what it returns.
mod ending;
mod outcome;
mod outlets;
mod settings;
mod settings_builder;

pub use ending::{Ending, MixedEnding};
pub use fq_lane::NotEnded;
pub use interleaved::run_serial_mixed;
pub use occurred::end_outcome;
pub use outcome::Outcome;
pub use outlets::Outlets;
pub use settings::{
    BadSetting, CALL_LIMIT, MOST_BYTES, MOST_DEPTH, MOST_PAIRS, MOST_WORKERS, Settings,
};
pub use settings_builder::SettingsBuilder;
pub use two_texts::run_serial;
