//! How far a run reads ahead.

ghost use Rattle.std.specs.Prelude.{false, []};

use super::frame::{SEVEN_COUNTS, assert_ended, forward_feed, outlets, seven_pairs};
use fq_run::Outcome;
use fq_test_texts::SEVEN_STEPS;
use fq_text::{Feed, FeedFailed, ScriptFeed};
use fq_trim::Steps;
use fq_work::Gate;
use std::alloc::Global;
use std::hint;
use std::process::Abort;
use std::sync::atomic::{AtomicU64, Ordering};
use std::sync::{Arc, Wait};
use std::test::Fail;
use std::thread::Threads;

/// A feed that counts its read calls.
#[derive(Drop)]
struct CountedFeed {
    feed: ScriptFeed,
    reads: Arc<AtomicU64>,
    failures: u64,
}

impl Feed for CountedFeed {
    ghost state = { λ f. record { tells = false; to_come = []; failures = f.failures } };

    fn read(&mut self, buf: &mut [u8]) -> Result<usize, FeedFailed> {
        self.reads.fetch_add(1, Ordering::SeqCst);
        if self.feed.failures() == 0 {
            if let Ok(n) = self.feed.read(buf) {
                return Ok(n);
            }
        }
        self.failures += 1;
        Err(FeedFailed)
    }

    fn failures(&self) -> u64 {
        self.failures
    }
}

// How often a gate looks for a read call, and how often for one too many after it.
const LOOKS: u64 = 1_000_000_000;

const MORE_LOOKS: u64 = 3_000_000;

/// A gate that lets the first block pass only if exactly `wanted` read calls are made meanwhile.
#[derive(Drop)]
struct JustSoManyReads {
    wanted: u64,
    reads: Arc<AtomicU64>,
}

impl JustSoManyReads {
    // Looks up to `looks` times whether `reads` read calls were made.
    fn sees(&self, reads: u64, looks: u64) -> bool {
        for _ in 0..looks {
            if reads <= self.reads.load(Ordering::SeqCst) {
                return true;
            }
            hint::spin_loop();
        }
        false
    }
}

impl Gate for JustSoManyReads {
    ghost use Rattle.std.specs.Prelude.{true};

    ghost holds = { λ _. true };

    fn may_hold(&self) -> bool {
        true
    }

    fn passes(&self, number: u64) -> bool {
        let one_more = self.wanted.saturating_add(1);
        number > 0 || (self.sees(self.wanted, LOOKS) && !self.sees(one_more, MORE_LOOKS))
    }
}

// A run through lanes of this depth, in which exactly `wanted` read calls are made while its first
// block waits.
fn assert_reads_ahead<R: Abort + Threads + Wait + Copy + Send + 'static>(
    rt: &R,
    alloc: Global,
    depth: u64,
    wanted: u64,
) -> Result<(), Fail> {
    let run = seven_pairs(depth, Steps::parse(SEVEN_STEPS)?);
    let reads = Arc::new(alloc, AtomicU64::new(0))?;
    let gate = JustSoManyReads {
        wanted,
        reads: Arc::try_clone(&reads)?,
    };
    let forward = CountedFeed {
        feed: forward_feed(alloc, &run)?,
        reads,
        failures: 0,
    };
    let mut outlets = outlets(alloc, &run)?;
    let left = run
        .go_over(rt, alloc, gate, forward, &mut outlets)?
        .ok_or("no memory")?;
    assert_ended(rt, &left, Outcome::Finished, SEVEN_COUNTS);
    Ok(())
}

// While the one worker has block 0, there are `depth` blocks in its lane, and the dealer has one
// more. Each record takes one read call.
#[test]
fn just_as_much_is_read_ahead_as_the_lanes_hold(rt: HostRuntime) -> Result<(), Fail> {
    for depth in 1..4u64 {
        assert_reads_ahead(&rt, rt.alloc(), depth, depth + 2)?;
    }
    Ok(())
}
