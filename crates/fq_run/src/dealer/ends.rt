//! The dealer's ends of lanes.

use crate::lanes::used::UsedBlocks;
use fq_block::Block;
use fq_lane::Tx;
use std::marker::Model;

/// The dealer's ends of the lanes of one worker. Contracts see the lane of blocks alone.
#[derive(Drop)]
pub(crate) struct DealerEnds {
    /// The blocks to the worker.
    pub(crate) to: Tx<Block>,
    /// Used blocks, back from the worker.
    pub(crate) back: UsedBlocks,
}

impl Model for DealerEnds {
    ghost use Rattle.fq_lane.specs.History.{History};
    ghost use Rattle.fq_block.specs.Blocks.{Numbered};

    ghost Value = { History Numbered };

    ghost view = { λ e. e.to };
}
