//! Reads the pairs of a block.

ghost use Rattle.std.specs.Prelude.{◌≡◌, ◌≤◌, []};
ghost use Rattle.fq_pair.specs.Walks.{GoesOn};
ghost use Rattle.fq_run.specs.dealer.Filling.{Fills};

use fq_block::Block;
use fq_pair::PairReader;
use fq_run_core::shared::ReadingEnd;
use fq_text::MemoryRefused;

/// Fills a block with the next pairs, up to `most`.
///
/// Returns why reading stopped, or `None` if the block has `most` pairs. If memory for a pair is
/// refused, that pair is lost; the pairs before it stay in the block.
#[tactic(auto, using(std::proofs::lemmas::Grind::common_steps, fq_run_core::proofs::WalkLemmas::is_in_hand, fq_run_core::proofs::WalkLemmas::if_in_hand, crate::proofs::dealer::DealerLemmas::filled_none, crate::proofs::dealer::DealerLemmas::filled_encoding, crate::proofs::dealer::DealerLemmas::fills_stopped, crate::proofs::dealer::DealerLemmas::fills_full))]
pub(crate) fn fill<S: PairReader>(
    source: &mut S,
    most: u64,
    block: &mut Block,
) -> Option<ReadingEnd>
    requires goes { GoesOn (S.state source.old) }
    requires some { 1 ≤ most }
    requires few { most ≤ 65536 }
    requires clear { block.old.pairs ≡ [] }
    requires encoding { block.old.encoding ≡ (S.state source.old).encoding }
    ensures { Fills (S.state source.old)
        (S.state source.new) most block.old block.new result }
{
    for _ in 0..most {
        match source.advance_pair() {
            Ok(true) => {
                let pair = source.pair_in_hand();
                let names = source.names_in_hand();
                if let Err(e) = block.push_named(&pair, names) {
                    return Some(ReadingEnd::Memory(MemoryRefused::from(e)));
                }
            }
            Ok(false) => return Some(ReadingEnd::End),
            Err(fault) => return Some(ReadingEnd::Fault(fault)),
        }
    }
    None
}
