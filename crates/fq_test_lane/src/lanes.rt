//! Lanes on one thread and between two: when there is no room, in which order items come, and what
//! is left if one end is dropped.

ghost use Rattle.std.specs.Prelude.{◌≡◌, true};

use super::frame::{
    DEPTHS, TwoLanes, accepts, are_up_to, assert_mark, close, finds_mark, gives, gives_an_end,
    lane_of, put_all, refuses, take, take_all, two_lanes,
};
use fq_lane::{End, Rx, Taken, Tx, lane};
use std::alloc::Global;
use std::process::Abort;
use std::sync::{Arc, Wait};
use std::test::Fail;
use std::thread::Threads;
use std::{hint, thread};

// Fills a lane of one with 7, and closes it.
fn send_seven(rt: &impl Abort, mut tx: Tx<u64>) -> End<u64>
    ensures { result.name ≡ tx.name }
{
    assert!(rt; accepts(&mut tx, 7));
    assert!(rt; refuses(&mut tx, 8));
    close(rt, tx)
}

// Asserts that the 7 comes, and then only the mark.
fn assert_seven(rt: &impl Abort, rx: &mut Rx<u64>)
    ensures name { rx.new.name ≡ rx.old.name }
    ensures closed { rx.new.marked ≡ true }
{
    assert!(rt; !rx.is_closed());
    assert!(rt; gives(rx, 7));
    assert!(rt; !rx.is_closed());
    assert_mark(rt, rx);
    assert_mark(rt, rx);
}

// Confirms the lane, after which the mark still comes.
fn confirm(rt: &impl Abort, rx: &mut Rx<u64>, end: End<u64>)
    requires closed { rx.old.marked ≡ true }
    requires one_lane { end.name ≡ rx.old.name }
{
    rx.confirm(end);
    assert!(rt; finds_mark(rx));
}

#[test]
fn a_lane_of_one_refuses_a_second_item_and_ends_with_the_mark(rt: HostRuntime) -> Result<(), Fail> {
    let (tx, mut rx) = lane(rt.alloc(), 1)?;
    let end = send_seven(&rt, tx);
    assert_seven(&rt, &mut rx);
    confirm(&rt, &mut rx, end);
    Ok(())
}

#[test]
fn a_lane_closed_at_once_has_the_mark_alone(rt: HostRuntime) -> Result<(), Fail> {
    let (tx, mut rx) = lane(rt.alloc(), 2)?;
    let end = close(&rt, tx);
    assert_mark(&rt, &mut rx);
    assert_mark(&rt, &mut rx);
    rx.confirm(end);
    Ok(())
}

// A move of one end, and what comes of it.
#[derive(Clone, Copy)]
enum Move {
    Sends(u64),
    Gives(u64),
    FindsNothing,
}

// Moves in a lane of two, in order.
const IN_TURN: [Move; 8] = [
    Move::FindsNothing,
    Move::Sends(1),
    Move::Sends(2),
    Move::Gives(1),
    Move::Gives(2),
    Move::FindsNothing,
    Move::Sends(3),
    Move::Gives(3),
];

// Whether the move has this outcome.
fn goes(step: Move, tx: &mut Tx<u64>, rx: &mut Rx<u64>) -> bool {
    match step {
        Move::Sends(item) => accepts(tx, item),
        Move::Gives(item) => gives(rx, item),
        Move::FindsNothing => take(rx) == Taken::Empty,
    }
}

fn assert_in_turn(rt: &impl Abort, tx: &mut Tx<u64>, rx: &mut Rx<u64>) {
    for (place, step) in IN_TURN.iter().enumerate() {
        assert!(rt; goes(*step, tx, rx), "move {place}");
    }
}

#[test]
fn items_taken_between_offers_come_in_order(rt: HostRuntime) -> Result<(), Fail> {
    let (mut tx, mut rx) = lane_of(rt.alloc(), 2)?;
    assert_in_turn(&rt, &mut tx, &mut rx);
    Ok(())
}

// Whether a new lane takes `depth` items and no more, and one more once one was taken.
fn holds_just(tx: &mut Tx<u64>, rx: &mut Rx<u64>, depth: u64) -> bool {
    for item in 0..depth {
        if !accepts(tx, item) {
            return false;
        }
    }
    refuses(tx, depth) && gives(rx, 0) && accepts(tx, depth) && refuses(tx, depth)
}

// Whether the items from 1 to `depth` come, and the mark after them.
fn comes_to_the_mark(rx: &mut Rx<u64>, depth: u64) -> bool {
    for item in 1..=depth {
        if !gives(rx, item) {
            return false;
        }
    }
    finds_mark(rx)
}

// Whether both hold for a lane that is closed when it is full.
fn is_held_and_given(mut tx: Tx<u64>, mut rx: Rx<u64>, depth: u64) -> bool {
    holds_just(&mut tx, &mut rx, depth) && gives_an_end(tx) && comes_to_the_mark(&mut rx, depth)
}

#[test]
fn a_lane_holds_just_its_depth_and_closes_when_full(rt: HostRuntime) -> Result<(), Fail> {
    for depth in DEPTHS {
        let (tx, rx) = lane_of(rt.alloc(), depth)?;
        assert!(rt; is_held_and_given(tx, rx, depth as u64), "at depth {depth}");
    }
    Ok(())
}

// Asserts that after the mark no item comes, and that none is waited for. Confirms the lane.
fn assert_whole<R: Abort + Wait>(rt: &R, rx: &mut Rx<u64>, end: End<u64>)
    requires closed { rx.old.marked ≡ true }
    requires one_lane { end.name ≡ rx.old.name }
{
    assert!(rt; rx.take_wait(rt).is_none());
    rx.confirm(end);
}

// Takes all items, and confirms the lane. Whether the items were 1 to 64.
fn gives_all<R: Abort + Wait>(rt: &R, alloc: Global, rx: Rx<u64>, end: End<u64>) -> bool
    requires { end.name ≡ rx.name }
{
    let (items, mut rx) = take_all(rt, alloc, rx);
    assert_whole(rt, &mut rx, end);
    are_up_to(&items, 64)
}

#[test]
fn one_end_after_the_other_on_one_thread(rt: HostRuntime) -> Result<(), Fail> {
    let (tx, rx) = lane(rt.alloc(), 64)?;
    let end = put_all(&rt, tx, 64).expect(&rt, "the receiver is there");
    assert!(rt; gives_all(&rt, rt.alloc(), rx, end));
    Ok(())
}

// Whether 1 to 1,000 come from one thread to another. Confirms the lane.
fn delivers<R: Abort + Threads + Wait + Copy + Send + 'static>(
    rt: R,
    alloc: Global,
    tx: Tx<u64>,
    rx: Rx<u64>,
) -> bool
    requires { rx.name ≡ tx.name }
{
    let (closing, (items, mut rx)) = thread::join(
        &rt,
        move || put_all(&rt, tx, 1000),
        move || take_all(&rt, alloc, rx),
    );
    rx.confirm(closing.expect(&rt, "the receiver is there"));
    are_up_to(&items, 1000)
}

#[test]
fn a_lane_between_two_threads_delivers_in_order_and_is_confirmed(
    rt: HostRuntime,
) -> Result<(), Fail> {
    for depth in DEPTHS {
        let (tx, rx) = lane(rt.alloc(), depth)?;
        assert!(rt; delivers(rt, rt.alloc(), tx, rx), "at depth {depth}");
    }
    Ok(())
}

// Takes up to `tries` times, until something comes.
fn take_soon(rx: Rx<u64>, tries: u64) -> (Taken<u64>, Rx<u64>) {
    let mut rx = rx;
    for _ in 0..tries {
        let taken = take(&mut rx);
        if taken != Taken::Empty {
            return (taken, rx);
        }
        hint::spin_loop();
    }
    (Taken::Empty, rx)
}

// Sends a 1, and takes what comes from the other thread.
// `cross` checks that the 1 comes, so the result of `offer` is ignored.
fn exchange(mut tx: Tx<u64>, rx: Rx<u64>) -> (Taken<u64>, Rx<u64>) {
    let _ = tx.offer(1);
    take_soon(rx, 1_000_000_000)
}

// Whether each of two threads gets the other's 1.
fn cross<R: Threads + Wait + Copy + Send + 'static>(rt: R, lanes: TwoLanes) -> bool {
    let ((one_tx, other_rx), (other_tx, one_rx)) = lanes;
    let ((one_taken, _other_rx), (other_taken, _one_rx)) = thread::join(
        &rt,
        move || exchange(one_tx, other_rx),
        move || exchange(other_tx, one_rx),
    );
    one_taken == Taken::Item(1) && other_taken == Taken::Item(1)
}

#[test]
fn two_lanes_crosswise_between_two_threads(rt: HostRuntime) -> Result<(), Fail> {
    let lanes = two_lanes(rt.alloc())?;
    assert!(rt; cross(rt, lanes));
    Ok(())
}

// What closing reports if it returns no end.
fn refusal(alloc: Global, tx: Tx<u64>) -> Result<String, Fail> {
    let refused = tx.close().err().ok_or("the receiver is gone")?;
    Ok(refused.to_string(alloc)?)
}

// The sender of a lane of one whose receiver was dropped.
fn left_alone(alloc: Global) -> Result<Tx<u64>, Fail> {
    let (tx, _rx) = lane(alloc, 1)?;
    Ok(tx)
}

#[test]
fn a_lane_whose_receiver_is_gone_has_no_end(rt: HostRuntime) -> Result<(), Fail> {
    let mut tx = left_alone(rt.alloc())?;
    assert!(rt; accepts(&mut tx, 1) && refuses(&mut tx, 2));
    let text = refusal(rt.alloc(), tx)?;
    assert_eq!(rt;
        text.as_str(),
        "the lane's receiver was dropped before the lane was closed"
    );
    Ok(())
}

// Sends one more reference to the item.
fn send_shared(tx: &mut Tx<Arc<u64>>, item: &Arc<u64>) -> Result<(), Fail> {
    Ok(tx.offer(Arc::try_clone(item)?).ok().ok_or("there is room")?)
}

// A receiver of two items whose sender was dropped.
fn left_behind(alloc: Global, item: &Arc<u64>) -> Result<Rx<Arc<u64>>, Fail> {
    let (mut tx, rx) = lane(alloc, 2)?;
    send_shared(&mut tx, item)?;
    send_shared(&mut tx, item)?;
    Ok(rx)
}

// Whether one of the two items comes, and is dropped. The receiver is dropped after it.
fn gives_one(mut rx: Rx<Arc<u64>>, item: &Arc<u64>) -> bool {
    let came = matches!(rx.take(), Taken::Item(_));
    came && Arc::strong_count(item) == 2
}

#[test]
fn items_of_a_sender_that_is_gone_can_be_taken(rt: HostRuntime) -> Result<(), Fail> {
    let item = Arc::new(rt.alloc(), 5u64)?;
    let rx = left_behind(rt.alloc(), &item)?;
    assert!(rt; Arc::strong_count(&item) == 3);
    assert!(rt; gives_one(rx, &item));
    assert!(rt; Arc::strong_count(&item) == 1);
    Ok(())
}
