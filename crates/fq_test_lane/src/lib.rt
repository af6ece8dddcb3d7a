//! Tests of the public calls of `fq_lane`: lanes on one thread and between two, and ends that
//! sleep. They are a crate of their own, like the `tests/` directory of a Rust crate, so that they
//! are proved without proving `fq_lane` again.
#![tactic(auto)]

#[cfg(test)]
mod frame;
#[cfg(test)]
mod lanes;
#[cfg(test)]
mod model;
#[cfg(test)]
mod waking;
