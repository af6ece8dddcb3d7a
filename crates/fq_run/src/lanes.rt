//! The lanes of a run, before its threads start.

pub(crate) mod seats;
pub(crate) mod used;

use crate::crew::job::Job;
use fq_block::Block;
use fq_lane::{End, NotEnded, Rx, Tx, lane};
use fq_run_core::Settings;
use fq_run_core::shared::Total;
use fq_text::MemoryRefused;
use fq_work::Worked;
use seats::{Seats, lay};
use std::alloc::Global;
use std::thread::PromisedHandle;

/// The lanes of a run, room for what its threads hand back, and the total.
#[derive(Drop)]
pub(crate) struct Lanes {
    pub(crate) starter: Tx<()>,
    pub(crate) start: Rx<()>,
    pub(crate) seats: Seats,
    pub(crate) closings: Vec<Result<End<Block>, NotEnded>>,
    pub(crate) hands: Vec<PromisedHandle<Worked, Job>>,
    pub(crate) worked: Vec<Worked>,
    pub(crate) total: Total,
}

impl Lanes {
    ghost use Rattle.std.specs.Prelude.{◌≡◌, IfOk};
    ghost use Rattle.fq_run.specs.Threads.{AreLaidOut};
    ghost use Rattle.fq_run_core.specs.Totals.{no_total};

    /// Makes all lanes, and allocates the total.
    pub(crate) fn new(alloc: Global, settings: &Settings) -> Result<Lanes, MemoryRefused>
        ensures lanes { IfOk result (AreLaidOut settings.now.tallied settings.now.workers) }
        ensures total { IfOk result (λ lanes. lanes.total ≡ no_total settings.now.tallied) }
    {
        let workers = settings.workers() as usize;
        let (starter, start) = lane(alloc, 1)?;
        Ok(Lanes {
            starter,
            start,
            seats: lay(
                alloc,
                workers,
                settings.depth() as usize,
                settings.tallied(),
            )?,
            closings: Vec::with_capacity(alloc, workers)?,
            hands: Vec::with_capacity(alloc, workers)?,
            worked: Vec::with_capacity(alloc, workers)?,
            total: Total::new(alloc, settings.tallied())?,
        })
    }
}
