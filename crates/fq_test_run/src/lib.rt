//! Tests of the public functions of `fq_run`: runs whose threads must see each other, and how far a
//! run reads ahead. What runs leave is in the worked rows. The tests are a crate of their own, like
//! Rust's `tests/` folders, so that `fq_run` isn't proved again for them.
#![tactic(auto)]

#[cfg(test)]
mod ahead;
#[cfg(test)]
mod frame;
#[cfg(test)]
mod samples;
#[cfg(test)]
mod seeing;
