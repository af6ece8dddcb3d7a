//! The worker's ends of its two return lanes, for which it never waits.

use fq_block::Block;
use fq_lane::{Rx, Taken, Tx};
use fq_report_pairs::Done;
use std::alloc::Global;

/// What is sent back for reuse, and what comes back. Nothing here can wait.
#[derive(Drop)]
pub(crate) struct Returns {
    blocks_back: Tx<Block>,
    texts_back: Rx<Done>,
}

impl Returns {
    pub(crate) fn new(blocks_back: Tx<Block>, texts_back: Rx<Done>) -> Returns {
        Returns {
            blocks_back,
            texts_back,
        }
    }

    /// Returns used texts that came back, which are not emptied yet, or new ones.
    pub(crate) fn used_texts(&mut self, alloc: Global) -> Done {
        match self.texts_back.take() {
            Taken::Item(done) => done,
            Taken::Empty | Taken::Closed => Done::new(alloc, 0),
        }
    }

    /// Sends a block back for reuse if the lane has room, and drops it otherwise. Reuse only saves
    /// memory, so the result of `offer` is ignored.
    pub(crate) fn give_back(&mut self, block: Block) {
        let _ = self.blocks_back.offer(block);
    }
}
