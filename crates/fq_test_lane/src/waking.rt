//! No wake-up is lost. If one is lost, the test does not end, and fails when its time is up.

use super::frame::{TwoLanes, accepts, gives_an_end, lane_of, put, take, take_wait, two_lanes};
use fq_lane::{Rx, Taken, Tx};
use std::sync::Wait;
use std::test::Fail;
use std::thread::Threads;
use std::time::{Clock, CpuClock, Duration};
use std::{hint, thread};

// Long enough for the other end to have gone to sleep.
const NAP_MILLISECONDS: u64 = 20;

fn nap(clock: &impl Clock) {
    thread::sleep(clock, Duration::from_millis(NAP_MILLISECONDS));
}

// Waits for a time that differs from round to round: it spins, for up to some microseconds longer
// than a waiting end spins, or it sleeps, so that the other end goes to sleep even on a single
// processor.
fn dawdle(clock: &impl Clock, round: u64) {
    let chance = round.wrapping_mul(0x9e37_79b9_7f4a_7c15) >> 54;
    if chance % 16 == 0 {
        thread::sleep(clock, Duration::from_micros(1));
        return;
    }
    for _ in 0..chance {
        hint::spin_loop();
    }
}

// Sends 1 by `offer` and 2 by `put`, and closes, each after a nap. Returns whether there is an end.
fn send_seldom<R: Wait + Clock>(rt: &R, mut tx: Tx<u64>) -> bool {
    nap(rt);
    let _ = tx.offer(1);
    nap(rt);
    put(rt, &mut tx, 2);
    nap(rt);
    gives_an_end(tx)
}

fn take_three(rt: &impl Wait, mut rx: Rx<u64>) -> (Option<u64>, Option<u64>, Option<u64>) {
    (
        take_wait(rt, &mut rx),
        take_wait(rt, &mut rx),
        take_wait(rt, &mut rx),
    )
}

// Whether a receiver gets what is sent in this way, and the mark.
fn is_woken_by_each_send<R: Threads + Wait + Clock + Copy + Send + 'static>(
    rt: R,
    tx: Tx<u64>,
    rx: Rx<u64>,
) -> bool {
    let (closed, taken) = thread::join(
        &rt,
        move || send_seldom(&rt, tx),
        move || take_three(&rt, rx),
    );
    closed && taken == (Some(1), Some(2), None)
}

#[test]
fn a_receiver_that_sleeps_is_woken_by_offer_put_and_close(rt: HostRuntime) -> Result<(), Fail> {
    let (tx, rx) = lane_of(rt.alloc(), 1)?;
    assert!(rt; is_woken_by_each_send(rt, tx, rx));
    Ok(())
}

fn put_three(rt: &impl Wait, mut tx: Tx<u64>) {
    for n in 1..=3u64 {
        put(rt, &mut tx, n);
    }
}

// Takes by `take` after a nap, and after another one for as long as the sender is late.
fn take_late<R: Wait + Clock>(rt: &R, rx: &mut Rx<u64>) -> Taken<u64> {
    for _ in 0..500u64 {
        nap(rt);
        match take(rx) {
            Taken::Empty => {}
            taken => return taken,
        }
    }
    Taken::Empty
}

// Takes by `take` and by `take_wait`, each after a nap, and once more.
fn take_seldom<R: Wait + Clock>(rt: &R, mut rx: Rx<u64>) -> (Taken<u64>, Option<u64>, Option<u64>) {
    let taken = take_late(rt, &mut rx);
    nap(rt);
    let waited = take_wait(rt, &mut rx);
    (taken, waited, take_wait(rt, &mut rx))
}

// Whether a sender whose items are taken in this way sends all three.
fn is_woken_by_each_take<R: Threads + Wait + Clock + Copy + Send + 'static>(
    rt: R,
    tx: Tx<u64>,
    rx: Rx<u64>,
) -> bool {
    let ((), taken) = thread::join(
        &rt,
        move || put_three(&rt, tx),
        move || take_seldom(&rt, rx),
    );
    taken == (Taken::Item(1), Some(2), Some(3))
}

#[test]
fn a_sender_that_sleeps_is_woken_by_take_and_take_wait(rt: HostRuntime) -> Result<(), Fail> {
    let (tx, rx) = lane_of(rt.alloc(), 1)?;
    assert!(rt; is_woken_by_each_take(rt, tx, rx));
    Ok(())
}

// Waits for room in a full lane, and then for an item of an empty one.
fn wait_twice(rt: &impl Wait, mut full_tx: Tx<u64>, mut empty_rx: Rx<u64>) -> Option<u64> {
    put(rt, &mut full_tx, 2);
    take_wait(rt, &mut empty_rx)
}

// Makes room in the full lane, and sends an item into the empty one, each after 200 ms.
// Only the time of waiting is measured, so the results are ignored.
fn move_late(clock: &impl Clock, mut full_rx: Rx<u64>, mut empty_tx: Tx<u64>) {
    thread::sleep(clock, Duration::from_millis(200));
    let _ = take(&mut full_rx);
    thread::sleep(clock, Duration::from_millis(200));
    let _ = empty_tx.offer(3);
}

// Lets both ends wait: the sender of one lane, which is full, and the receiver of the other, which
// is empty.
fn wait_for_each_other<R: Threads + Wait + Clock + Copy + Send + 'static>(rt: R, lanes: TwoLanes) {
    let ((one_tx, other_rx), (other_tx, one_rx)) = lanes;
    thread::join(
        &rt,
        move || wait_twice(&rt, one_tx, other_rx),
        move || move_late(&rt, one_rx, other_tx),
    );
}

// The processor time that the process uses while both ends wait.
fn time_of_waiting<R: Threads + Wait + Clock + CpuClock + Copy + Send + 'static>(
    rt: R,
    lanes: TwoLanes,
) -> Result<Duration, Fail> {
    let before = rt.process_cpu_time()?;
    wait_for_each_other(rt, lanes);
    Ok(rt.process_cpu_time()?.saturating_sub(before))
}

#[test]
fn an_end_that_waits_sleeps(rt: HostRuntime) -> Result<(), Fail> {
    let mut lanes = two_lanes(rt.alloc())?;
    assert!(rt; accepts(&mut lanes.0.0, 1));
    let used = time_of_waiting(rt, lanes)?;
    assert!(rt; used < Duration::from_millis(100), "{used:?} of 400 ms");
    Ok(())
}

// Sends 1 to `last`, at uneven times, by `put` and by `offer` in turn, and closes.
fn send_unevenly<R: Wait + Clock>(rt: &R, tx: Tx<u64>, last: u64, round: u64) -> bool {
    let mut tx = tx;
    for n in 1..=last {
        dawdle(rt, round.wrapping_add(n));
        if n % 2 == 0 || !accepts(&mut tx, n) {
            put(rt, &mut tx, n);
        }
    }
    dawdle(rt, round);
    gives_an_end(tx)
}

// The next item, by `take_wait` alone or by `take` first.
fn take_somehow(rt: &impl Wait, rx: &mut Rx<u64>, at_once: bool) -> Option<u64> {
    if !at_once {
        return take_wait(rt, rx);
    }
    match take(rx) {
        Taken::Item(item) => Some(item),
        Taken::Closed => None,
        Taken::Empty => take_wait(rt, rx),
    }
}

// Takes up to the mark, at uneven times, by `take_wait` and by `take` in turn. Returns how many
// items came in order, and the receiver: closing gives an end only while the receiver exists.
fn take_unevenly<R: Wait + Clock>(rt: &R, rx: Rx<u64>, round: u64) -> (u64, Rx<u64>) {
    let mut rx = rx;
    let mut last = 0u64;
    for turn in 0..u64::MAX {
        dawdle(rt, round.wrapping_mul(3).wrapping_add(turn));
        match take_somehow(rt, &mut rx, turn % 2 == 0) {
            Some(item) if item == last.wrapping_add(1) => last = item,
            _ => return (last, rx),
        }
    }
    (last, rx)
}

// Whether 1 to 12 come through a lane, at times that depend on the round.
fn comes_through<R: Threads + Wait + Clock + Copy + Send + 'static>(
    rt: R,
    tx: Tx<u64>,
    rx: Rx<u64>,
    round: u64,
) -> bool {
    let (closed, (last, rx)) = thread::join(
        &rt,
        move || send_unevenly(&rt, tx, 12, round),
        move || take_unevenly(&rt, rx, round),
    );
    closed && rx.is_closed() && last == 12
}

#[test]
fn many_small_lanes_at_uneven_times(rt: HostRuntime) -> Result<(), Fail> {
    for round in 0..3000u64 {
        let depth = if round % 3 == 0 { 2 } else { 1 };
        let (tx, rx) = lane_of(rt.alloc(), depth)?;
        assert!(rt; comes_through(rt, tx, rx, round), "in round {round}");
    }
    Ok(())
}

const TURNS: u64 = 10_000;

// Sends each number, and waits for it to come back. Returns how many did.
fn ask<R: Wait + Clock>(rt: &R, mut there: Tx<u64>, mut back: Rx<u64>) -> u64 {
    let mut answered = 0u64;
    for n in 1..=TURNS {
        dawdle(rt, n);
        put(rt, &mut there, n);
        if take_wait(rt, &mut back) == Some(n) {
            answered = answered.wrapping_add(1);
        }
    }
    answered
}

// Sends each number back.
fn answer<R: Wait + Clock>(rt: &R, mut there: Rx<u64>, mut back: Tx<u64>) {
    for n in 1..=TURNS {
        if let Some(item) = take_wait(rt, &mut there) {
            dawdle(rt, n.wrapping_mul(5));
            put(rt, &mut back, item);
        }
    }
}

// How many numbers come back through the second lane.
fn answered<R: Threads + Wait + Clock + Copy + Send + 'static>(rt: R, lanes: TwoLanes) -> u64 {
    let ((one_tx, other_rx), (other_tx, one_rx)) = lanes;
    let (answered, ()) = thread::join(
        &rt,
        move || ask(&rt, one_tx, other_rx),
        move || answer(&rt, one_rx, other_tx),
    );
    answered
}

#[test]
fn two_threads_answer_each_other_many_times(rt: HostRuntime) -> Result<(), Fail> {
    let lanes = two_lanes(rt.alloc())?;
    assert_eq!(rt; answered(rt, lanes), TURNS);
    Ok(())
}
