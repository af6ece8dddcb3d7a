//! Worked texts: pairs whose trimmed bases were counted by hand. The tests of the other crates use
//! them, each at its own level.
#![tactic(auto)]

mod fronts;
mod gate;
mod read;
mod seven;
mod source;
mod two;
mod written;

pub use fronts::{Front, front_in_order};
pub use gate::ScriptGate;
pub use read::lawful_read;
pub use seven::{
    ELEVEN_INTERLEAVED, FIVE_REVERSE, FIVE_WRITTEN, SEVEN_FORWARD, SEVEN_REVERSE, SEVEN_STEPS,
    SEVEN_WRITTEN, SIX_FORWARD,
};
pub use source::source_of;
pub use two::{
    FIRST_FORWARD, FIRST_REVERSE, FIRST_WRITTEN, SECOND_FORWARD, SECOND_REVERSE, SECOND_WRITTEN,
    TWO_FORWARD, TWO_INTERLEAVED, TWO_REVERSE, TWO_STEPS, TWO_WRITTEN,
};
pub use written::Written;
