//! The collector's ends of lanes.

use crate::lanes::used::UsedTexts;
use fq_lane::Rx;
use fq_work::Reply;
use std::marker::Model;

/// The collector's ends of the lanes of one worker. Contracts see the lane of replies alone.
#[derive(Drop)]
pub(crate) struct CollectorEnds {
    /// The replies of the worker.
    pub(crate) replies: Rx<Reply>,
    /// Written texts, back to the worker.
    pub(crate) back: UsedTexts,
}

impl Model for CollectorEnds {
    ghost use Rattle.fq_lane.specs.History.{History};
    ghost use Rattle.fq_work.specs.declared.reply.Reply.{Reply};

    ghost Value = { History Reply };

    ghost view = { λ e. e.replies };
}
