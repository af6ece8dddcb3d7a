//! The threads of a run: the dealer and the workers.

pub(crate) mod job;
pub(crate) mod workers;

use crate::dealer::dealing::Dealing;
use crate::dealer::dealt::Dealt;
use fq_lane::Tx;
use fq_pair::PairReader;
use fq_work::Worked;
use job::Job;
use std::thread::PromisedHandle;

/// The threads of a run, which wait for the start item.
#[derive(Drop)]
pub(crate) struct Crew<S: PairReader> {
    /// The sender of the start lane.
    pub(crate) starter: Tx<()>,
    /// The dealer.
    pub(crate) dealer: PromisedHandle<Dealt<S>, Dealing<S>>,
    /// The workers.
    pub(crate) hands: Vec<PromisedHandle<Worked, Job>>,
    /// Whether the gate of the workers may hold back a block.
    pub(crate) holds: bool,
    /// Room for what the workers hand back.
    pub(crate) worked: Vec<Worked>,
}
