//! The work on one block.

ghost use Rattle.std.specs.Prelude.{◌≡◌, [], OnOk, OnErr};
ghost use Rattle.fq_report_pairs.specs.Results.{made_of, tally_with};
ghost use Rattle.fq_work.specs.Replies.{done_of};

use fq_block::Block;
use fq_report_pairs::{Done, Tally};
use fq_text::OutOfMemory;
use fq_trim::Steps;

/// Trims the pairs of a block, and counts them if there is a tally. Afterwards `done` holds only
/// this block's number and the texts, the log and the counts of its pairs. Texts keep their memory.
///
/// If memory is refused, `done` holds the block's number and empty texts. The tally may then have
/// some of the pairs.
pub fn work_block(
    block: &Block,
    steps: &Steps,
    done: &mut Done,
    tally: &mut Option<Tally>,
) -> Result<(), OutOfMemory>
    ensures ok { OnOk result (done.new ≡ done_of steps.now block.now) }
    ensures tally { OnOk result (tally.new ≡ tally_with steps.now tally.old block.now.pairs) }
    ensures err { OnErr result (done.new ≡ made_of steps.now block.now.number []) }
{
    done.number = block.number();
    done.clear();
    let added = add_pairs(block, steps, done, tally);
    if added.is_err() {
        done.clear();
    }
    added
}

// Adds what is made of each pair to a `done` that holds nothing yet but the block's number.
fn add_pairs(
    block: &Block,
    steps: &Steps,
    done: &mut Done,
    tally: &mut Option<Tally>,
) -> Result<(), OutOfMemory>
    requires { done.old ≡ made_of steps.now block.now.number [] }
    ensures ok { OnOk result (done.new ≡ done_of steps.now block.now) }
    ensures tally { OnOk result (tally.new ≡ tally_with steps.now tally.old block.now.pairs) }
    ensures err { OnErr result (done.new.number ≡ block.now.number) }
{
    for i in 0..block.len() {
        done.add(block.pair(i), block.names(i), steps, tally)?;
    }
    Ok(())
}
