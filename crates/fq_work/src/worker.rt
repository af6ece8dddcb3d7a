//! The worker of a threaded run.

ghost use Rattle.std.specs.Prelude.{◌≡◌, ◌⊎◌, Some, None, Ok, Err, false, IsTrue, OnOk};
ghost use Rattle.std.specs.Arc.{arc_value};
ghost use Rattle.fq_report_pairs.specs.Results.{tally_with};
ghost use Rattle.fq_work.specs.Replies.{done_of, reply_to};
ghost use Rattle.fq_work.specs.Doing.{Reply as Word, does};
ghost use Rattle.fq_work.specs.Waiting.{cause_of, cause_in, cause_after, doing_of, move_of, Follows};
ghost use Rattle.fq_work.specs.Work.{IsWork, MayShut};

use crate::ends::{WorkEnds, Worked};
use crate::gate::Gate;
use crate::reply::{Cause, Reply};
use crate::returns::Returns;
use crate::trimming::work_block;
use crate::waiting::{Action, Event, perform};
use fq_block::Block;
use fq_report_pairs::{Done, Tally};
use fq_text::MemoryRefused;
use fq_trim::Steps;
use std::alloc::Global;
use std::sync::{Arc, Wait};

/// Replies to each block that comes, in order, until the lane of the blocks is closed, and then
/// closes the lane of the replies.
///
/// Before each block the worker asks the gate until the gate lets the block pass, at most
/// `gate_turns` times. If the gate does not, or if memory is refused for the texts of a block, the
/// reply is a [`Reply::Stop`], and no later block gets a reply. The worker still takes all blocks,
/// up to the closing mark, so that their sender does not wait for ever.
///
/// Used blocks go back through `blocks_back`, and used texts come from `texts_back`, if there are
/// any. The worker waits for neither lane.
///
/// The pairs of each block are added to the tally of `ends`, if there is one, which is handed back
/// at the end.
///
/// The worker waits for a block, and for room for a reply. So it does not return if nobody closes
/// the lane of the blocks, or if nobody takes the replies.
pub fn work<R: Wait, G: Gate>(
    alloc: Global,
    rt: &R,
    ends: WorkEnds,
    steps: Steps,
    gate: Arc<G>,
    gate_turns: u64,
) -> Worked
    ensures work { IsWork steps ends.tally ends.rx ends.tx result }
    // It stops at the gate only if the gate may hold back a block, or if it may not ask.
    ensures gate { result.cause ≡ Some Cause.Gate
        → MayShut (G.holds (arc_value gate)) gate_turns }
{
    let WorkEnds {
        mut rx,
        mut tx,
        blocks_back,
        texts_back,
        mut tally,
    } = ends;
    let mut returns = Returns::new(blocks_back, texts_back);
    let making = Making { steps, gate_turns };
    let mut action = Action::Take(None);
    for _ in rt.forever() {
        match perform(rt, &mut rx, &mut tx, action) {
            Ok(event) => {
                action = after(alloc, event, &mut returns, &mut tally, &making, &*gate);
            }
            Err(cause) => {
                return Worked {
                    rx,
                    closing: tx.close(),
                    cause,
                    tally,
                };
            }
        }
    }
    unreachable!()
}

// What the worker does with each block, and how often it asks the gate about one.
#[derive(Clone, Copy)]
struct Making {
    steps: Steps,
    gate_turns: u64,
}

// What the worker does after a wait that ended so. After its stop it only gives blocks back.
fn after<G: Gate>(
    alloc: Global,
    event: Event,
    returns: &mut Returns,
    tally: &mut Option<Tally>,
    making: &Making,
    gate: &G,
) -> Action
    ensures follows { Follows making.now.steps event tally.old tally.new result }
    // It is what a worker of the model does after the move that the wait was.
    ensures does { (reply : Word) × (doing_of result ≡ does (move_of (Ok event) reply)) }
    ensures gate { cause_in result ≡ Some Cause.Gate
        → (cause_after (Ok event) ≡ Some Cause.Gate)
        ⊎ MayShut (G.holds gate.now) making.now.gate_turns }
{
    match event {
        Event::Got(block, cause) => match cause {
            None => Action::Put(answer(alloc, block, returns, tally, making, gate)),
            Some(cause) => {
                returns.give_back(block);
                Action::Take(Some(cause))
            }
        },
        Event::Sent(cause) => Action::Take(cause),
    }
}

// The reply to a block, which is given back. The loop over its pairs takes fewer instructions if
// this is not inlined.
#[inline(never)]
fn answer<G: Gate>(
    alloc: Global,
    block: Block,
    returns: &mut Returns,
    tally: &mut Option<Tally>,
    making: &Making,
    gate: &G,
) -> Reply
    ensures reply { result ≡ reply_to making.now.steps block (cause_of result) }
    ensures tally { cause_of result ≡ None
        → tally.new ≡ tally_with making.now.steps tally.old block.pairs }
    ensures gate { cause_of result ≡ Some Cause.Gate
        → MayShut (G.holds gate.now) making.now.gate_turns }
{
    let mut done = returns.used_texts(alloc);
    let worked = work_on(&block, making, gate, &mut done, tally);
    returns.give_back(block);
    match worked {
        Ok(()) => Reply::Done(done),
        Err(cause) => Reply::Stop(cause),
    }
}

// Trims a block into these texts. Returns the cause if the gate or memory refused it.
fn work_on<G: Gate>(
    block: &Block,
    making: &Making,
    gate: &G,
    done: &mut Done,
    tally: &mut Option<Tally>,
) -> Result<(), Cause>
    ensures ok { OnOk result (done.new ≡ done_of making.now.steps block.now) }
    ensures tally { OnOk result
        (tally.new ≡ tally_with making.now.steps tally.old block.now.pairs) }
    ensures gate { result ≡ Err Cause.Gate
        → MayShut (G.holds gate.now) making.now.gate_turns }
{
    if !passes(gate, block.number(), making.gate_turns) {
        return Err(Cause::Gate);
    }
    work_block(block, &making.steps, done, tally).map_err(|error| Cause::Memory(MemoryRefused::from(
        error,
    )))
}

// Asks the gate until it lets the block pass, at most `gate_turns` times.
fn passes<G: Gate>(gate: &G, number: u64, gate_turns: u64) -> bool
    ensures { result ≡ false → (gate_turns ≡ 0) ⊎ IsTrue (G.holds gate.now) }
{
    for _asked in 0..gate_turns {
        if gate.passes(number) {
            return true;
        }
    }
    false
}
