//! Reads and trims the pairs of a block.

ghost use Rattle.std.specs.Prelude.{◌≡◌, ◌≤◌, []};
ghost use Rattle.fq_pair.specs.Walks.{GoesOn};
ghost use Rattle.fq_report_pairs.specs.Results.{made_of};
ghost use Rattle.fq_run_core.specs.Gathering.{Gathers};

use crate::reading_end::ReadingEnd;
use fq_pair::PairReader;
use fq_report_pairs::{Done, Tally};
use fq_text::MemoryRefused;
use fq_trim::Steps;

/// Reads and trims the next pairs, up to `most`, adds their texts to `done`, and counts them if
/// there is a tally.
///
/// Returns why reading stopped, or `None` after `most` pairs.
#[tactic(auto, using(std::proofs::lemmas::Grind::common_steps, crate::proofs::WalkLemmas::is_in_hand, crate::proofs::WalkLemmas::if_in_hand, crate::proofs::GatherLemmas::gathered_none, crate::proofs::GatherLemmas::gathered_few, crate::proofs::GatherLemmas::gathers_stopped, crate::proofs::GatherLemmas::gathers_full))]
pub(crate) fn gather<S: PairReader>(
    source: &mut S,
    steps: &Steps,
    most: u64,
    done: &mut Done,
    tally: &mut Option<Tally>,
) -> Option<ReadingEnd>
    requires goes { GoesOn (S.state source.old) }
    requires some { 1 ≤ most }
    requires few { most ≤ 65536 }
    requires clear { done.old ≡ made_of steps.now done.old.number [] }
    ensures { Gathers (S.state source.old)
        (S.state source.new) steps.now most tally.old tally.new done.new result }
{
    for _ in 0..most {
        match source.advance_pair() {
            Ok(true) => {
                let pair = source.pair_in_hand();
                let names = source.names_in_hand();
                if let Err(e) = done.add(pair, names, steps, tally) {
                    return Some(ReadingEnd::Memory(MemoryRefused::from(e)));
                }
            }
            Ok(false) => return Some(ReadingEnd::End),
            Err(fault) => return Some(ReadingEnd::Fault(fault)),
        }
    }
    None
}
