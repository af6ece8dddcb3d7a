//! Starts the workers, and waits for them.

ghost use Rattle.std.specs.Prelude.{◌≡◌, ◌≤◌, [], IfOk, IfErr, vec_len, vec_capacity};
ghost use Rattle.std.specs.Arc.{arc_value};
ghost use Rattle.std.specs.List.{AllZip};
ghost use Rattle.fq_run.specs.Doing.{awaits_workers};
ghost use Rattle.fq_run.specs.crew.Workers.{Seated, Joined};

use crate::crew::job::Job;
use crate::waiting::CallerWaits;
use fq_run_core::Settings;
use fq_text::{MemoryRefused, OutOfMemory};
use fq_work::{Gate, WorkEnds, Worked, work};
use std::alloc::Global;
use std::snapshot::Snapshot;
use std::sync::{Arc, Wait};
use std::thread;
use std::thread::{PromisedHandle, Threads};

/// Starts a worker for each seat, and returns their handles. If one was refused, returns the
/// handles of those that were started before it, and the witness of that.
#[tactic(auto, using(std::proofs::lemmas::Grind::common_steps, crate::proofs::EachLemmas::one_counted, crate::proofs::EachLemmas::zip_push))]
pub(crate) fn start_workers<R: Threads + Wait + Copy + Send + 'static, H: Gate + 'static>(
    alloc: Global,
    rt: &R,
    settings: &Settings,
    gate: &Arc<H>,
    seats: Vec<WorkEnds>,
    hands: Vec<PromisedHandle<Worked, Job>>,
) -> Result<Vec<PromisedHandle<Worked, Job>>, (Vec<PromisedHandle<Worked, Job>>, MemoryRefused)>
    requires { (hands.items ≡ []) × (vec_len seats ≤ vec_capacity hands) }
    ensures all { IfOk result (λ hands.
        AllZip (Seated settings.now.steps (H.holds (arc_value gate.now)))
        seats.items hands.items) }
    ensures few { (IfOk result (λ hands. vec_len hands ≤ vec_len seats))
        × (IfErr result (λ started. vec_len started.0 ≤ vec_len seats)) }
{
    let mut hands = hands;
    for ends in seats {
        let gate = match Arc::try_clone(gate) {
            Ok(gate) => gate,
            Err(e) => return Err((hands, MemoryRefused::from(e))),
        };
        let hand = match start_worker(alloc, rt, settings, gate, ends) {
            Ok(hand) => hand,
            Err(refused) => return Err((hands, refused)),
        };
        hands.push_reserved(hand);
    }
    Ok(hands)
}

// Starts one worker. If its thread was refused, returns the witness of that.
fn start_worker<R: Threads + Wait + Copy + Send + 'static, H: Gate + 'static>(
    alloc: Global,
    rt: &R,
    settings: &Settings,
    gate: Arc<H>,
    ends: WorkEnds,
) -> Result<PromisedHandle<Worked, Job>, MemoryRefused>
    ensures { IfOk result (Seated settings.now.steps (H.holds (arc_value gate)) ends) }
{
    let job = Job {
        steps: *settings.steps(),
        rx: Snapshot::of(&ends.rx),
        tx: Snapshot::of(&ends.tx),
        tally: Snapshot::of(&ends.tally),
        holds: (*gate).may_hold(),
        gate_turns: settings.gate_turns(),
    };
    let own = *rt;
    let steps = *settings.steps();
    let gate_turns = settings.gate_turns();
    let spawned = thread::spawn_with(rt, job, move || {
        work(alloc, &own, ends, steps, gate, gate_turns)
    });
    match spawned {
        Ok(hand) => Ok(hand),
        Err(e) => Err(MemoryRefused::from(OutOfMemory::from(e))),
    }
}

/// Waits for all workers.
#[tactic(auto, using(std::proofs::lemmas::Grind::common_steps, crate::proofs::EachLemmas::one_counted, crate::proofs::EachLemmas::zip_push))]
pub(crate) fn join_workers<R: Threads>(
    waits: &mut CallerWaits<'_, R>,
    hands: Vec<PromisedHandle<Worked, Job>>,
    worked: Vec<Worked>,
) -> Vec<Worked>
    requires next { waits.old ≡ awaits_workers 0 }
    requires room { (worked.items ≡ []) × (vec_len hands ≤ vec_capacity worked) }
    ensures joined { AllZip Joined hands.items result.items }
    ensures next { waits.new ≡ awaits_workers (vec_len result) }
{
    let mut worked = worked;
    for hand in hands {
        let one = waits.join_worker(worked.len(), hand);
        worked.push_reserved(one);
    }
    worked
}
