//! Tests of `fq_text` by its public interface: its devices, and a plain reader to compare it with.
//! They are a crate of their own, like the `tests/` directory of a Rust crate, so that they are
//! proved without proving `fq_text` again. Worked texts are rows of `fq_test_rows`.
#![tactic(auto)]

#[cfg(test)]
mod devices;
#[cfg(test)]
mod frame;
#[cfg(test)]
mod plain;
