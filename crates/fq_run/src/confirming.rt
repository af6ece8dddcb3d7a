//! Confirms each lane, after the threads are joined.

ghost use Rattle.std.specs.Prelude.{◌≡◌, true, IfOk, OnOk, IsOkAnd};
ghost use Rattle.fq_run.specs.Each.{Each3};
ghost use Rattle.fq_run.specs.Confirming.{CanConfirm, Confirmed};

use crate::collector::ends::CollectorEnds;
use fq_block::Block;
use fq_lane::{End, NotEnded, Rx};
use fq_work::Worked;

/// Confirms the start lane and the lanes of all workers, up to the first that cannot be confirmed.
pub(crate) fn confirm(
    started: Result<End<()>, NotEnded>,
    start: Rx<()>,
    closings: Vec<Result<End<Block>, NotEnded>>,
    worked: Vec<Worked>,
    replies: Vec<CollectorEnds>,
) -> Result<(), NotEnded>
    requires start { IfOk started (λ e. e.name ≡ start.name) × (start.marked ≡ true) }
    requires workers { Each3 CanConfirm closings.items worked.items replies.items }
    ensures start { OnOk result (IsOkAnd started (λ e. start ≡ e)) }
    ensures workers { OnOk result (Each3 Confirmed closings.items worked.items replies.items) }
{
    confirm_start(started, start)?;
    confirm_workers(closings, worked, replies)
}

// Confirms the start lane.
fn confirm_start(started: Result<End<()>, NotEnded>, start: Rx<()>) -> Result<(), NotEnded>
    requires name { IfOk started (λ e. e.name ≡ start.name) }
    requires came { start.marked ≡ true }
    ensures { OnOk result (IsOkAnd started (λ e. start ≡ e)) }
{
    let mut start = start;
    start.confirm(started?);
    Ok(())
}

// Confirms the two lanes of each worker.
#[tactic(auto, using(std::proofs::lemmas::Grind::common_steps, crate::proofs::EachLemmas::nothing_left))]
fn confirm_workers(
    closings: Vec<Result<End<Block>, NotEnded>>,
    worked: Vec<Worked>,
    replies: Vec<CollectorEnds>,
) -> Result<(), NotEnded>
    requires { Each3 CanConfirm closings.items worked.items replies.items }
    ensures { OnOk result (Each3 Confirmed closings.items worked.items replies.items) }
{
    let mut closings = closings;
    let mut worked = worked;
    for ends in replies {
        confirm_worker(closings.remove(0), worked.remove(0), ends)?;
    }
    Ok(())
}

// Confirms the two lanes of one worker.
fn confirm_worker(
    closing: Result<End<Block>, NotEnded>,
    worked: Worked,
    ends: CollectorEnds,
) -> Result<(), NotEnded>
    requires { CanConfirm closing worked ends }
    ensures { OnOk result (Confirmed closing worked ends) }
{
    let Worked {
        mut rx,
        closing: replied,
        cause: _,
        tally: _,
    } = worked;
    let mut replies = ends.replies;
    let blocks = closing?;
    let replied = replied?;
    rx.confirm(blocks);
    replies.confirm(replied);
    Ok(())
}
