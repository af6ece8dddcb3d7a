//! What the tests call. Each function passes on only the part of a contract that a later call
//! requires, so no test is proved with more than it needs.

ghost use Rattle.std.specs.Prelude.{◌≡◌, ◌≤◌, true, IfOk};

use fq_lane::{End, Full, NotEnded, Rx, Taken, Tx, lane};
use std::alloc::{AllocError, Global};
use std::process::Abort;
use std::sync::Wait;

pub const DEPTHS: [usize; 3] = [1, 2, 64];

/// A lane of numbers that no test confirms.
pub fn lane_of(alloc: Global, depth: usize) -> Result<(Tx<u64>, Rx<u64>), AllocError>
    requires { (1 ≤ depth) × (depth ≤ 64) }
{
    lane(alloc, depth)
}

/// The ends of two lanes, for two threads: the sender of one, and the receiver of the other.
pub type TwoLanes = ((Tx<u64>, Rx<u64>), (Tx<u64>, Rx<u64>));

/// Makes two lanes with room for one item each.
pub fn two_lanes(alloc: Global) -> Result<TwoLanes, AllocError> {
    let (one_tx, one_rx) = lane_of(alloc, 1)?;
    let (other_tx, other_rx) = lane_of(alloc, 1)?;
    Ok(((one_tx, other_rx), (other_tx, one_rx)))
}

/// Whether there is room for the item, which is then sent.
pub fn accepts(tx: &mut Tx<u64>, item: u64) -> bool
    ensures { tx.new.name ≡ tx.old.name }
{
    tx.offer(item) == Ok(())
}

/// Whether the item is returned.
pub fn refuses(tx: &mut Tx<u64>, item: u64) -> bool
    ensures { tx.new.name ≡ tx.old.name }
{
    tx.offer(item) == Err(Full { item })
}

/// Returns what comes next.
pub fn take(rx: &mut Rx<u64>) -> Taken<u64>
    ensures { rx.new.name ≡ rx.old.name }
{
    rx.take()
}

/// Whether this item comes next.
pub fn gives(rx: &mut Rx<u64>, item: u64) -> bool
    ensures { rx.new.name ≡ rx.old.name }
{
    take(rx) == Taken::Item(item)
}

/// Whether the mark comes next, or came before.
pub fn finds_mark(rx: &mut Rx<u64>) -> bool
    ensures { rx.new.name ≡ rx.old.name }
{
    take(rx) == Taken::Closed
}

/// Asserts that the mark comes, now or again.
pub fn assert_mark(rt: &impl Abort, rx: &mut Rx<u64>)
    ensures name { rx.new.name ≡ rx.old.name }
    ensures closed { rx.new.marked ≡ true }
{
    assert!(rt; finds_mark(rx));
    assert!(rt; rx.is_closed());
}

/// Sends the item as soon as there is room.
pub fn put(rt: &impl Wait, tx: &mut Tx<u64>, item: u64) {
    tx.put(rt, item);
}

/// Returns the next item as soon as it is there.
pub fn take_wait(rt: &impl Wait, rx: &mut Rx<u64>) -> Option<u64> {
    rx.take_wait(rt)
}

/// Closes a lane whose receiver still exists.
pub fn close(rt: &impl Abort, tx: Tx<u64>) -> End<u64>
    ensures { result.name ≡ tx.name }
{
    tx.close().expect(rt, "the receiver is there")
}

/// Whether closing returns an end.
pub fn gives_an_end(tx: Tx<u64>) -> bool {
    tx.close().is_ok()
}

/// Puts 1 to `last`, and closes the lane.
pub fn put_all(rt: &impl Wait, tx: Tx<u64>, last: u64) -> Result<End<u64>, NotEnded>
    ensures { IfOk result (λ end. end.name ≡ tx.name) }
{
    let mut tx = tx;
    for n in 1..=last {
        tx.put(rt, n);
    }
    tx.close()
}

/// Takes items up to the mark, into a vector. An item for which memory is refused is left out, and
/// the receiver goes on: if it stopped, the sender would wait for ever.
pub fn take_all(rt: &impl Wait, alloc: Global, rx: Rx<u64>) -> (Vec<u64>, Rx<u64>)
    ensures name { result.1.name ≡ rx.name }
    ensures closed { result.1.marked ≡ true }
{
    let mut rx = rx;
    let mut items = Vec::new(alloc);
    for _ in rt.forever() {
        match rx.take_wait(rt) {
            Some(item) => {
                let _ = items.push(item);
            }
            None => return (items, rx),
        }
    }
    unreachable!()
}

/// Whether these are the numbers from 1 to `last`.
pub fn are_up_to(items: &[u64], last: u64) -> bool {
    items.iter().copied().eq(1..=last)
}
