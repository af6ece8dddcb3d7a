//! Each move of an end wakes the other. These tests look at what both ends sleep on, which is
//! private; all other tests are in `fq_test_lane`.

ghost use Rattle.std.specs.Prelude.{◌<◌};

use super::*;
use crossbeam_utils::Backoff;
use std::process::Abort;
use std::sync::Wait;
use std::test::Fail;

// A backoff that has spun long enough, so that the next rest sleeps.
fn spun() -> Backoff {
    let backoff = Backoff::new();
    for _ in 0..32u32 {
        backoff.snooze();
    }
    backoff
}

// The two ends of a lane, and what they sleep on.
fn open_lane(alloc: Global, depth: usize) -> Result<(Tx<u64>, Rx<u64>, Arc<Parkers>), AllocError>
    requires { depth < 64 }
{
    let parkers = Arc::new(alloc, Parkers::new())?;
    let (producer, consumer) = RingBuffer::new(alloc, depth + 1)?;
    let tx = Tx::over(producer, Arc::try_clone(&parkers)?);
    let rx = Rx::over(consumer, Arc::try_clone(&parkers)?);
    Ok((tx, rx, parkers))
}

fn offers(tx: &mut Tx<u64>, item: u64) -> bool {
    tx.offer(item).is_ok()
}

fn put(rt: &impl Wait, tx: &mut Tx<u64>, item: u64) {
    tx.put(rt, item);
}

fn take(rx: &mut Rx<u64>) -> Taken<u64> {
    rx.take()
}

fn take_wait(rt: &impl Wait, rx: &mut Rx<u64>) -> Option<u64> {
    rx.take_wait(rt)
}

// Each move wakes the other end in a new lane of one, by the calls that never wait and by those
// that wait.
fn assert_wakes<R: Abort + Wait>(rt: &R, tx: &mut Tx<u64>, rx: &mut Rx<u64>, parkers: &Parkers) {
    let spun = spun();
    assert!(rt; offers(tx, 1));
    parkers.rest_receiver(rt, &spun);
    assert_eq!(rt; take(rx), Taken::Item(1));
    parkers.rest_sender(rt, &spun);
    put(rt, tx, 2);
    parkers.rest_receiver(rt, &spun);
    assert_eq!(rt; take_wait(rt, rx), Some(2));
    parkers.rest_sender(rt, &spun);
}

// Closing wakes the receiver.
fn assert_close_wakes<R: Abort + Wait>(rt: &R, tx: Tx<u64>, parkers: &Parkers) {
    assert!(rt; tx.close().is_ok());
    parkers.rest_receiver(rt, &spun());
}

#[test]
fn each_move_of_an_end_wakes_the_other(rt: HostRuntime) -> Result<(), Fail> {
    let (mut tx, mut rx, parkers) = open_lane(rt.alloc(), 1)?;
    assert_wakes(&rt, &mut tx, &mut rx, &parkers);
    assert_close_wakes(&rt, tx, &parkers);
    Ok(())
}

// Each move wakes the other end in a new lane of two, which is filled and emptied.
fn assert_two_wake<R: Abort + Wait>(rt: &R, tx: &mut Tx<u64>, rx: &mut Rx<u64>, parkers: &Parkers) {
    let spun = spun();
    for n in 1..=2u64 {
        assert!(rt; offers(tx, n));
        parkers.rest_receiver(rt, &spun);
    }
    for n in 1..=2u64 {
        assert_eq!(rt; take(rx), Taken::Item(n));
        parkers.rest_sender(rt, &spun);
    }
}

#[test]
fn each_move_in_a_lane_of_two_wakes_the_other(rt: HostRuntime) -> Result<(), Fail> {
    let (mut tx, mut rx, parkers) = open_lane(rt.alloc(), 2)?;
    assert_two_wake(&rt, &mut tx, &mut rx, &parkers);
    Ok(())
}
