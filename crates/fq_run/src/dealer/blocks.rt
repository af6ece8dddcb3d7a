//! Fills blocks, and deals them out in turn.

ghost use Rattle.std.specs.Prelude.{◌≡◌, Some, [], vec_len};
ghost use Rattle.fq_run.specs.Doing.{deals, passes_start};
ghost use Rattle.fq_run.specs.dealer.DealingOut.{MayDeal, DealsOut, SendsFilled};

use crate::dealer::ends::DealerEnds;
use crate::dealer::filling::fill;
use crate::dealer::waiting::DealerWaits;
use crate::turns::next_turn;
use fq_block::Block;
use fq_lane::Taken;
use fq_pair::PairReader;
use fq_run_core::Settings;
use fq_run_core::shared::ReadingEnd;
use fq_text::Encoding;
use std::alloc::Global;
use std::sync::Wait;

/// Reads blocks and deals them out in turn, until reading stops. Returns why it stopped.
pub(crate) fn deal_blocks<R: Wait, S: PairReader>(
    alloc: Global,
    waits: &mut DealerWaits<'_, R>,
    settings: &Settings,
    source: &mut S,
    to: &mut Vec<DealerEnds>,
) -> ReadingEnd
    requires next { waits.old ≡ deals }
    requires deals { MayDeal settings.now (S.state source.old) (vec_len to.old) to.old.items }
    ensures deals { DealsOut settings.now (S.state source.old)
        (S.state source.new) to.old.items to.new.items (Some result) }
    ensures next { waits.new ≡ passes_start }
{
    let lanes = to.len();
    let mut turn = 0;
    let mut number = 0;
    // The label is the loop's name in its proof.
    'dealing: loop {
        let ends = &mut to[turn];
        let mut block = ready_block(alloc, ends, number, settings.encoding());
        let why = fill(source, settings.block_pairs(), &mut block);
        put_filled(waits, ends, block);
        if let Some(why) = why {
            waits.end_reading();
            return why;
        }
        turn = next_turn(turn, lanes);
        number += 1;
    }
}

// An empty block with this number: one that came back, or a new one. A block in another encoding is
// dropped.
fn ready_block(alloc: Global, ends: &mut DealerEnds, number: u64, encoding: Encoding) -> Block
    ensures block { result ≡ record { number = number; encoding = encoding; pairs = [] } }
    ensures unsent { ends.new ≡ ends.old }
{
    match ends.back.take() {
        Taken::Item(mut block) if block.encoding() == encoding => {
            block.reset(number);
            block
        }
        _ => Block::new(alloc, number, encoding),
    }
}

// Sends a block to a worker, and waits for room. An empty block is dropped.
fn put_filled<R: Wait>(waits: &mut DealerWaits<'_, R>, ends: &mut DealerEnds, block: Block)
    requires next { waits.old ≡ deals }
    ensures sends { SendsFilled block ends.old ends.new }
    ensures next { waits.new ≡ deals }
{
    if !block.is_empty() {
        waits.put_block(ends, block);
    }
}
