//! What a dealer hands back.

ghost use Rattle.std.specs.Prelude.{◌≡◌, None, IfSome};

use fq_block::Block;
use fq_lane::{End, NotEnded, Rx};
use fq_run_core::shared::ReadingEnd;

/// What a dealer hands back: what is needed to confirm its lanes, why reading stopped, and the
/// source.
#[derive(Drop)]
pub(crate) struct Dealt<S> {
    /// The receiver of the start lane, which was taken to its mark.
    pub(crate) start: Rx<()>,
    /// The ends of the lanes of blocks, one per worker.
    pub(crate) closings: Vec<Result<End<Block>, NotEnded>>,
    /// Why no further pair was read. `None` if no start item came.
    pub(crate) why: Option<ReadingEnd>,
    /// The source, with the pairs that were not read.
    pub(crate) source: S,
}

impl<S: Drop> Dealt<S> {
    /// The source of a dealer that got no start item, from which nothing was read. `None` if it got
    /// one.
    pub(crate) fn into_unread(self) -> Option<S>
        ensures { IfSome result (λ source. (source ≡ self.source) × (self.why ≡ None)) }
    {
        let Dealt { why, source, .. } = self;
        match why {
            None => Some(source),
            Some(_) => None,
        }
    }
}
