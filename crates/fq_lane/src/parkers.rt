//! How the two ends of a lane sleep, and wake each other.

use crossbeam_utils::{Backoff, CachePadded};
use std::sync::Wait;
use std::thread::Parker;

/// What the two ends share besides the ring: a parker for each, on which it sleeps. Each parker has
/// cache lines of its own, since the other end writes there at each of its moves.
///
/// No wake-up is lost. A parker holds one token or none: `unpark` leaves one there, and `park`
/// sleeps until there is one and takes it. Both ends keep an order:
///
/// - an end that moves changes the ring first, and leaves the token of the other end after that;
/// - an end that waits looks at the ring, sleeps only if it found nothing, and looks again whenever
///   `park` returns.
///
/// Take a move that the last look did not see. Each step on the ring and on a parker is
/// sequentially consistent, so that look came before the move, and the token of the move comes
/// after both. While the token is there, no `park` sleeps. Only a `park` of the waiting end can
/// take it, and that `park` returns after the move, so the look after it sees the move. The waiting
/// end never stays asleep after a move that it has not seen. A token of a move that was seen long
/// ago costs one more look, and nothing else.
#[derive(Drop)]
pub(crate) struct Parkers {
    sender: CachePadded<Parker>,
    receiver: CachePadded<Parker>,
}

impl Parkers {
    pub(crate) fn new() -> Parkers {
        Parkers {
            sender: CachePadded::new(Parker::new()),
            receiver: CachePadded::new(Parker::new()),
        }
    }

    /// Called after each move of the receiver.
    pub(crate) fn wake_sender(&self) {
        self.sender.unpark();
    }

    /// Called after each move of the sender.
    pub(crate) fn wake_receiver(&self) {
        self.receiver.unpark();
    }

    /// Called by a sender that found no room.
    pub(crate) fn rest_sender(&self, rt: &impl Wait, backoff: &Backoff) {
        rest(rt, &self.sender, backoff);
    }

    /// Called by a receiver that found nothing.
    pub(crate) fn rest_receiver(&self, rt: &impl Wait, backoff: &Backoff) {
        rest(rt, &self.receiver, backoff);
    }
}

// The first calls with one `backoff` spin or yield, for some microseconds in all. The later ones
// sleep.
fn rest(rt: &impl Wait, parker: &Parker, backoff: &Backoff) {
    if backoff.is_completed() {
        parker.park(rt);
    } else {
        backoff.snooze();
    }
}
