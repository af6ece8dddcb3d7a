//! The lanes of all workers, before the threads start.

ghost use Rattle.std.specs.Prelude.{◌≡◌, ◌≤◌, IfOk};
ghost use Rattle.fq_report_pairs.specs.Results.{none_counted};
ghost use Rattle.fq_run.specs.lanes.Laying.{IsLaid, AreFor};

use crate::collector::ends::CollectorEnds;
use crate::dealer::ends::DealerEnds;
use crate::lanes::used::{UsedBlocks, UsedTexts};
use fq_lane::lane;
use fq_report_pairs::Tally;
use fq_text::OutOfMemory;
use fq_work::WorkEnds;
use std::alloc::Global;

/// The ends of the lanes of all workers, one per worker: for the dealer, the workers and the
/// collector. The workers' ends have a tally each, if one is asked for.
#[derive(Drop)]
pub(crate) struct Seats {
    pub(crate) to: Vec<DealerEnds>,
    pub(crate) ends: Vec<WorkEnds>,
    pub(crate) replies: Vec<CollectorEnds>,
}

// The largest room of a lane, in items.
const MOST_ROOM: usize = 64;

// The room of a lane that takes blocks or texts back, if the other lanes have room for `depth`
// items. A block or a text is made only if none has come back, so each worker has at most `depth`
// of them in a lane, one in use, and one at the thread at the other end. The lane back has room for
// all of these, so none is dropped and made again, unless `MOST_ROOM` limits it.
fn room_back(depth: usize) -> usize
    requires depth { (1 ≤ depth) × (depth ≤ MOST_ROOM) }
    ensures { (1 ≤ result) × (result ≤ MOST_ROOM) }
{
    (depth + 2).min(MOST_ROOM)
}

// The tally of no pairs, if one is asked for.
fn tally_of_none(alloc: Global, tallied: bool) -> Result<Option<Tally>, OutOfMemory>
    ensures { IfOk result (λ tally. tally ≡ none_counted tallied) }
{
    if !tallied {
        return Ok(None);
    }
    Ok(Some(Tally::new(alloc)?))
}

/// Makes the lanes of all workers, and their tallies if they are asked for. Lanes of blocks and of
/// replies have room for `depth` items.
pub(crate) fn lay(
    alloc: Global,
    workers: usize,
    depth: usize,
    tallied: bool,
) -> Result<Seats, OutOfMemory>
    requires depth { (1 ≤ depth) × (depth ≤ MOST_ROOM) }
    ensures laid { IfOk result (IsLaid tallied) }
    ensures all { IfOk result (AreFor workers) }
{
    let mut seats = Seats::new(alloc, workers)?;
    for _ in 0..workers {
        seats.add(alloc, depth, tallied)?;
    }
    Ok(seats)
}

impl Seats {
    ghost use Rattle.std.specs.Prelude.{◌≤◌, ◌+◌, Bool, IfOk, OnOk, vec_len};
    ghost use Rattle.fq_run.specs.lanes.Laying.{IsLaid, AreFor, HaveRoom, KeepRoom};

    // No lanes yet, but room for those of this number of workers.
    fn new(alloc: Global, workers: usize) -> Result<Seats, OutOfMemory>
        ensures laid { (tallied : Bool) → IfOk result (IsLaid tallied) }
        ensures none { IfOk result (AreFor 0) }
        ensures room { IfOk result (HaveRoom workers) }
    {
        Ok(Seats {
            to: Vec::with_capacity(alloc, workers)?,
            ends: Vec::with_capacity(alloc, workers)?,
            replies: Vec::with_capacity(alloc, workers)?,
        })
    }

    // Adds the lanes of one more worker, and its tally.
    #[tactic(auto, using(std::proofs::lemmas::Grind::common_steps, crate::proofs::EachLemmas::each3_push, crate::proofs::EachLemmas::fresh_is))]
    fn add(&mut self, alloc: Global, depth: usize, tallied: bool) -> Result<(), OutOfMemory>
        requires depth { (1 ≤ depth) × (depth ≤ MOST_ROOM) }
        requires laid { IsLaid tallied self.old }
        requires all { AreFor (vec_len self.old.to) self.old }
        requires room { HaveRoom (vec_len self.old.to + 1) self.old }
        ensures laid { IsLaid tallied self.new }
        ensures room { KeepRoom self.old self.new }
        ensures more { OnOk result (AreFor (vec_len self.old.to + 1) self.new) }
    {
        let (to, rx) = lane(alloc, depth)?;
        let (tx, replies) = lane(alloc, depth)?;
        let (blocks_back, blocks) = lane(alloc, room_back(depth))?;
        let (texts, texts_back) = lane(alloc, room_back(depth))?;
        let tally = tally_of_none(alloc, tallied)?;
        self.to.push_reserved(DealerEnds {
            to,
            back: UsedBlocks::over(blocks),
        });
        self.ends.push_reserved(WorkEnds {
            rx,
            tx,
            blocks_back,
            texts_back,
            tally,
        });
        self.replies.push_reserved(CollectorEnds {
            replies,
            back: UsedTexts::over(texts),
        });
        Ok(())
    }
}
