//! What the tests of runs share.

ghost use Rattle.std.specs.Prelude.{◌≡◌, IfOk};
ghost use Rattle.fq_run_core.specs.Devices.{outlet_states, AreHealthy};

use fq_pair::Counts;
use fq_run::{Outcome, Outlets};
use fq_test_memory_run::{Left, MemoryRun, in_order};
use fq_test_texts::{SEVEN_FORWARD, SEVEN_REVERSE, TWO_FORWARD, TWO_REVERSE, Written};
use fq_text::{Outlet, ScriptFeed, ScriptOutlet};
use fq_trim::Steps;
use std::alloc::Global;
use std::process::Abort;
use std::test::Fail;

/// The counts of the two pairs.
pub const TWO_COUNTS: Counts = Counts {
    pairs: 2,
    both: 1,
    forward_only: 1,
    reverse_only: 0,
    dropped: 0,
};

/// The counts of the seven pairs.
pub const SEVEN_COUNTS: Counts = Counts {
    pairs: 7,
    both: 5,
    forward_only: 2,
    reverse_only: 0,
    dropped: 0,
};

/// The two pairs by these workers and steps, in blocks of one, through lanes of one. The gate is
/// asked once about a block.
pub fn two_pairs(workers: u64, steps: Steps) -> MemoryRun<'static> {
    MemoryRun {
        workers,
        block_pairs: 1,
        depth: 1,
        gate_turns: 1,
        ..MemoryRun::new(TWO_FORWARD, Some(TWO_REVERSE), steps)
    }
}

/// The seven pairs by one worker and these steps, in blocks of one, through lanes of this depth.
/// Each read call gives a record.
pub fn seven_pairs(depth: u64, steps: Steps) -> MemoryRun<'static> {
    MemoryRun {
        workers: 1,
        block_pairs: 1,
        depth,
        chunk: 18,
        gate_turns: 1,
        ..MemoryRun::new(SEVEN_FORWARD, Some(SEVEN_REVERSE), steps)
    }
}

/// The feed of the forward text.
pub fn forward_feed(alloc: Global, run: &MemoryRun<'_>) -> Result<ScriptFeed, Fail>
    ensures { IfOk result (λ feed. feed.failures ≡ 0) }
{
    Ok(ScriptFeed::new(alloc, run.forward, 1000, 0)?)
}

/// Empty outlets in memory.
pub fn outlets(alloc: Global, run: &MemoryRun<'_>) -> Result<Box<Outlets<ScriptOutlet>>, Fail>
    ensures { IfOk result (λ outlets. AreHealthy
        (outlet_states ⟦<ScriptOutlet as Outlet>⟧.state outlets.value)) }
{
    match run.outlets(alloc) {
        Some(outlets) => Ok(outlets),
        None => Err("no memory for outlets")?,
    }
}

/// Compares how a run ended.
pub fn assert_ended(rt: &impl Abort, left: &Left, outcome: Outcome, counts: Counts) {
    assert_eq!(rt; (left.outcome, left.counts), (outcome, counts));
    assert!(rt; left.is_intact());
}

/// Compares what outlets took.
pub fn assert_written(
    rt: &impl Abort,
    outlets: &Outlets<ScriptOutlet>,
    written: &Written,
) -> Result<(), Fail> {
    let log = outlets.log.as_ref().ok_or("a log")?;
    assert_texts(rt, in_order(outlets, log), written);
    Ok(())
}

/// Compares what these outlets took.
pub fn assert_texts(rt: &impl Abort, outlets: [&ScriptOutlet; 5], written: &Written) {
    for (outlet, text) in outlets.iter().zip(written.in_order()) {
        assert_eq!(rt; outlet.bytes(), text);
    }
}
