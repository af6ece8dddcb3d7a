//! What a worker gets, and what it leaves.

use crate::reply::{Cause, Reply};
use fq_block::Block;
use fq_lane::{End, NotEnded, Rx, Tx};
use fq_report_pairs::{Done, Tally};

/// The worker's ends of its four lanes, and its tally.
///
/// The two return lanes carry used blocks and used texts, whose memory is reused.
/// Blocks and texts are emptied before they are used again. The return lanes take what they have
/// room for, may be cut off at any time, and are never confirmed.
#[derive(Drop)]
pub struct WorkEnds {
    /// The blocks from the dealer.
    pub rx: Rx<Block>,
    /// The replies to the collector.
    pub tx: Tx<Reply>,
    /// Used blocks, back to the dealer.
    pub blocks_back: Tx<Block>,
    /// Written texts, back from the collector.
    pub texts_back: Rx<Done>,
    /// The tally to which the worker adds the pairs of its blocks. `None` if none is asked for.
    pub tally: Option<Tally>,
}

/// What is left of a worker: what is needed to confirm both its lanes, why it stopped, and its
/// tally.
#[derive(Drop)]
pub struct Worked {
    /// The receiver of the blocks, which has got the mark.
    pub rx: Rx<Block>,
    /// The end of the lane of the replies, which is closed. `NotEnded` if the receiver of the
    /// replies was dropped before.
    pub closing: Result<End<Reply>, NotEnded>,
    /// Why the worker stopped. `None` if it finished every block.
    pub cause: Option<Cause>,
    /// The tally, with the pairs of all blocks that the worker took. If it stopped, nothing is said
    /// of the tally.
    pub tally: Option<Tally>,
}
