//! Numbered blocks of pairs, packed into one buffer, in which a run deals pairs to its workers.
//!
//! A run appends pairs to a [`Block`] by [`push_named`](Block::push_named), and
//! [`pair`](Block::pair) lends them out of its buffer without a copy. [`reset`](Block::reset)
//! empties a block, which is then reused with its memory.
#![tactic(auto)]

mod block;
mod packing;

pub use block::Block;
