//! Threads that must see each other.

ghost use Rattle.std.specs.Prelude.{◌≡◌, None, false, [], IfOk};
ghost use Rattle.fq_run_core.specs.Devices.{outlet_states, AreHealthy};

use super::frame::{
    SEVEN_COUNTS, TWO_COUNTS, assert_ended, assert_texts, assert_written, forward_feed, outlets,
    seven_pairs, two_pairs,
};
use fq_pair::Counts;
use fq_run::{Outcome, Outlets};
use fq_test_memory_run::{MemoryRun, in_order};
use fq_test_texts::{SEVEN_STEPS, SEVEN_WRITTEN, TWO_STEPS, TWO_WRITTEN, Written};
use fq_text::{Feed, FeedFailed, Outlet, OutletFailed, ScriptFeed, ScriptOutlet};
use fq_trim::Steps;
use fq_work::{Gate, OpenGate};
use std::alloc::Global;
use std::hint;
use std::sync::Arc;
use std::sync::atomic::{AtomicBool, Ordering};
use std::test::Fail;

// How often a thread looks for another one that comes.
const LOOKS: u64 = 1_000_000_000;

// How often a thread looks for another one that does not come.
const FEW_LOOKS: u64 = 1_000_000;

/// Two threads that must see each other.
#[derive(Drop)]
struct Meeting {
    first: AtomicBool,
    second: AtomicBool,
    looks: u64,
}

impl Meeting {
    fn new(looks: u64) -> Meeting {
        Meeting {
            first: AtomicBool::new(false),
            second: AtomicBool::new(false),
            looks,
        }
    }

    // Shows that this thread is there, and looks for the other one.
    fn meet(&self, first: bool) -> bool {
        let (own, other) = if first {
            (&self.first, &self.second)
        } else {
            (&self.second, &self.first)
        };
        own.store(true, Ordering::SeqCst);
        for _ in 0..self.looks {
            if other.load(Ordering::SeqCst) {
                return true;
            }
            hint::spin_loop();
        }
        false
    }
}

/// A gate that lets blocks 0 and 1 pass only if it is asked for both at the same time.
#[derive(Drop)]
struct BothAtOnce {
    meeting: Meeting,
}

impl Gate for BothAtOnce {
    ghost use Rattle.std.specs.Prelude.{true};

    ghost holds = { λ _. true };

    fn may_hold(&self) -> bool {
        true
    }

    fn passes(&self, number: u64) -> bool {
        match number {
            0 => self.meeting.meet(true),
            1 => self.meeting.meet(false),
            _ => true,
        }
    }
}

#[test]
fn two_workers_see_each_other_through_the_gate(rt: HostRuntime) -> Result<(), Fail> {
    let run = two_pairs(2, Steps::parse(TWO_STEPS)?);
    let mut outlets = outlets(rt.alloc(), &run)?;
    let gate = BothAtOnce {
        meeting: Meeting::new(LOOKS),
    };
    let left = run
        .go(&rt, rt.alloc(), gate, &mut outlets)?
        .ok_or("no memory")?;
    assert_ended(&rt, &left, Outcome::Finished, TWO_COUNTS);
    assert_written(&rt, &outlets, &TWO_WRITTEN)
}

#[test]
fn one_worker_sees_no_other(rt: HostRuntime) -> Result<(), Fail> {
    let run = two_pairs(1, Steps::parse(TWO_STEPS)?);
    let mut outlets = outlets(rt.alloc(), &run)?;
    let gate = BothAtOnce {
        meeting: Meeting::new(FEW_LOOKS),
    };
    let left = run
        .go(&rt, rt.alloc(), gate, &mut outlets)?
        .ok_or("no memory")?;
    assert_ended(&rt, &left, Outcome::Gate, Counts::ZERO);
    assert_written(&rt, &outlets, &Written::NOTHING)
}

/// A feed whose fifth read call must see a write.
#[derive(Drop)]
struct SeeingFeed {
    feed: ScriptFeed,
    reads: u64,
    meeting: Arc<Meeting>,
    failures: u64,
}

/// An outlet whose first write call must see a read, if it has a meeting.
#[derive(Drop)]
struct SeeingOutlet {
    outlet: ScriptOutlet,
    meeting: Option<Arc<Meeting>>,
    failures: u64,
    // Whether the last of the writes and flushes was a flush.
    is_flushed: bool,
}

impl Feed for SeeingFeed {
    ghost state = { λ f. record { tells = false; to_come = []; failures = f.failures } };

    fn read(&mut self, buf: &mut [u8]) -> Result<usize, FeedFailed> {
        self.reads = self.reads.saturating_add(1);
        let seen = self.reads != 5 || self.meeting.meet(true);
        if seen && self.feed.failures() == 0 {
            if let Ok(n) = self.feed.read(buf) {
                return Ok(n);
            }
        }
        self.failures += 1;
        Err(FeedFailed)
    }

    fn failures(&self) -> u64 {
        self.failures
    }
}

impl Outlet for SeeingOutlet {
    ghost state = { λ o. record {
      file = None;
      taken = [];
      failures = o.failures;
      is_flushed = o.is_flushed;
    } };

    fn write(&mut self, bytes: &[u8]) -> Result<usize, OutletFailed> {
        self.is_flushed = false;
        let seen = match self.meeting.take() {
            Some(meeting) => meeting.meet(false),
            None => true,
        };
        if seen && self.outlet.failures() == 0 {
            if let Ok(n) = self.outlet.write(bytes) {
                return Ok(n);
            }
        }
        self.failures += 1;
        Err(OutletFailed)
    }

    fn flush(&mut self) -> Result<(), OutletFailed> {
        self.is_flushed = true;
        Ok(())
    }

    fn failures(&self) -> u64 {
        self.failures
    }
}

fn seeing_outlet(alloc: Global, meeting: Option<Arc<Meeting>>) -> SeeingOutlet
    ensures { result.failures ≡ 0 }
{
    SeeingOutlet {
        outlet: ScriptOutlet::new(alloc, 1000, 0, false),
        meeting,
        failures: 0,
        is_flushed: false,
    }
}

// A feed and outlets: the fifth read call must see the first write to forward paired.
fn seeing(alloc: Global, run: &MemoryRun<'_>) -> Result<(SeeingFeed, Outlets<SeeingOutlet>), Fail>
    ensures feed { IfOk result (λ devices. devices.0.failures ≡ 0) }
    ensures outlets { IfOk result (λ devices. AreHealthy
        (outlet_states ⟦<SeeingOutlet as Outlet>⟧.state devices.1)) }
{
    let meeting = Arc::new(alloc, Meeting::new(LOOKS))?;
    let forward = SeeingFeed {
        feed: forward_feed(alloc, run)?,
        reads: 0,
        meeting: Arc::try_clone(&meeting)?,
        failures: 0,
    };
    let outlets = Outlets {
        forward_paired: seeing_outlet(alloc, Some(meeting)),
        forward_unpaired: seeing_outlet(alloc, None),
        reverse_paired: seeing_outlet(alloc, None),
        reverse_unpaired: seeing_outlet(alloc, None),
        log: Some(seeing_outlet(alloc, None)),
    };
    Ok((forward, outlets))
}

#[test]
fn a_reader_and_a_writer_see_each_other(rt: HostRuntime) -> Result<(), Fail> {
    let run = seven_pairs(1, Steps::parse(SEVEN_STEPS)?);
    let (forward, mut outlets) = seeing(rt.alloc(), &run)?;
    let left = run
        .go_over(&rt, rt.alloc(), OpenGate, forward, &mut outlets)?
        .ok_or("no memory")?;
    assert_ended(&rt, &left, Outcome::Finished, SEVEN_COUNTS);
    let log = outlets.log.as_ref().ok_or("a log")?;
    let taken = in_order(&outlets, log).map(|outlet| &outlet.outlet);
    assert_texts(&rt, taken, &SEVEN_WRITTEN);
    Ok(())
}
