//! The lanes that lead back, for which nobody waits.

use fq_block::Block;
use fq_lane::{Rx, Taken, Tx};
use fq_work::Done;

/// Used blocks, back from a worker. Nothing here can wait.
#[derive(Drop)]
pub(crate) struct UsedBlocks {
    lane: Rx<Block>,
}

impl UsedBlocks {
    pub(crate) fn over(lane: Rx<Block>) -> UsedBlocks {
        UsedBlocks { lane }
    }

    /// Takes a block, if one has come back.
    pub(crate) fn take(&mut self) -> Taken<Block> {
        self.lane.take()
    }
}

/// Written texts, back to a worker. Nothing here can wait.
#[derive(Drop)]
pub(crate) struct UsedTexts {
    lane: Tx<Done>,
}

impl UsedTexts {
    pub(crate) fn over(lane: Tx<Done>) -> UsedTexts {
        UsedTexts { lane }
    }

    /// Gives texts back. Without room in the lane they are dropped.
    pub(crate) fn give_back(&mut self, done: Done) {
        let _ = self.lane.offer(done);
    }
}
