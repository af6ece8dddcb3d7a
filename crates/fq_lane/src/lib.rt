//! Lanes: queues that deliver items in order from one thread to another, with a proof of receipt.
//!
//! [`lane`] returns two ends, which can live on two threads. The sender [`Tx`] puts items in, and
//! closes the lane by a mark after the last one. The receiver [`Rx`] takes them out, in order, up
//! to that mark. Closing returns an [`End`], and [`Rx::confirm`] with that end shows that what was
//! got is what was sent: each item once, in order, and nothing else.
//!
//! Contracts see each end as a `History` (`specs/History.antt`): the lane's name, the items that
//! went through this end, in order, and whether the mark did. While both ends run, neither knows
//! the history of the other.
//!
//! No contract says that a lane has room, that an item is there, or that a call that waits returns;
//! tests check this.
#![tactic(auto)]

ghost use Rattle.std.specs.Prelude.{◌≡◌, ◌≤◌, false, [], IfOk};

pub mod laws;
mod parkers;
mod ring;
mod rx;
mod slot;
mod taken;
#[cfg(test)]
mod tests;
mod tx;

use parkers::Parkers;
use rtrb::RingBuffer;
pub use rx::Rx;
use std::alloc::{AllocError, Global};
use std::sync::Arc;
pub use taken::Taken;
pub use tx::{End, Full, NotEnded, Tx};

/// Makes a lane with room for `depth` items, 1 to 64, and returns its sender and its receiver.
///
/// The ring has one more slot, which is kept for the closing mark, so closing never finds the lane
/// full. All memory that a lane needs is allocated here.
pub fn lane<T: Drop>(alloc: Global, depth: usize) -> Result<(Tx<T>, Rx<T>), AllocError>
    requires { (1 ≤ depth) × (depth ≤ 64) }
    ensures sender { IfOk result (λ ends. (ends.0.items ≡ []) × (ends.0.marked ≡ false)) }
    ensures receiver { IfOk result (λ ends. (ends.1.items ≡ []) × (ends.1.marked ≡ false)) }
    ensures one_lane { IfOk result (λ ends. ends.1.name ≡ ends.0.name) }
{
    let parkers = Arc::new(alloc, Parkers::new())?;
    let shared = Arc::try_clone(&parkers)?;
    let (producer, consumer) = RingBuffer::new(alloc, depth + 1)?;
    Ok((Tx::over(producer, parkers), Rx::over(consumer, shared)))
}
