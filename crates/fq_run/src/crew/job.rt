//! What a worker is started with.

use fq_block::Block;
use fq_lane::{Rx, Tx};
use fq_report_pairs::Tally;
use fq_trim::Steps;
use fq_work::{Reply, Worked};
use std::snapshot::Snapshot;
use std::thread::Promise;

/// What a worker is started with: the steps, its two lanes, its tally, whether its gate may hold
/// back a block, and how often it asks the gate about one.
/// `kept_by` says, in terms of these, what joining the worker returns.
#[derive(Drop)]
pub(crate) struct Job {
    pub(crate) steps: Steps,
    pub(crate) rx: Snapshot<Rx<Block>>,
    pub(crate) tx: Snapshot<Tx<Reply>>,
    pub(crate) tally: Snapshot<Option<Tally>>,
    pub(crate) holds: bool,
    pub(crate) gate_turns: u64,
}

impl Promise<Worked> for Job {
    ghost use Rattle.std.specs.Prelude.{◌≡◌, Some};
    ghost use Rattle.fq_work.specs.Work.{IsWork, MayShut};
    ghost use Rattle.fq_work.specs.declared.reply.Cause.TheVariants.{Gate};

    ghost kept_by = { λ job worked.
        IsWork job.steps job.tally.value job.rx.value job.tx.value worked
        × (worked.cause ≡ Some Gate → MayShut job.holds job.gate_turns) };
}
