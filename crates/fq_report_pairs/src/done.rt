//! The result of the work on a block.

ghost use Rattle.std.specs.Prelude.{◌≡◌, ◌<◌, ◌∷◌, [], OnOk, OnErr};
ghost use Rattle.fq_pair.specs.Mates.{mates_in, name_lengths};
ghost use Rattle.fq_pair.specs.Outputs.{joined, texts_of};
ghost use Rattle.fq_report_reads.specs.Courses.{alone};
ghost use Rattle.fq_report_pairs.specs.Tallies.{with_pair};

use crate::tally::Tally;
use fq_pair::{NameLengths, PairView, Texts};
use fq_report_reads::Trimmed;
use fq_text::{OutOfMemory, ReadView};
use fq_trim::Steps;
use std::alloc::Global;

/// What is written for the pairs of a block. Its memory is reused for other blocks.
#[derive(Drop)]
pub struct Done {
    /// The number of the block.
    pub number: u64,
    /// The texts, the trim log and the counts of the block's pairs.
    pub texts: Texts,
}

impl Done {
    ghost use Rattle.std.specs.Prelude.{◌≡◌, ◌<◌, OnOk, OnErr};
    ghost use Rattle.fq_pair.specs.Outputs.{no_texts};
    ghost use Rattle.fq_report_pairs.specs.Results.{emptied, tally_with, with_mates};

    /// Makes a `Done` with this number and empty texts. It allocates nothing.
    pub fn new(alloc: Global, number: u64) -> Done
        ensures { result ≡ record { number = number; texts = no_texts } }
    {
        Done {
            number,
            texts: Texts::new(alloc),
        }
    }

    /// Removes what was made of the pairs. The number stays, and the texts keep their memory.
    pub fn clear(&mut self)
        ensures { self.new ≡ emptied self.old }
    {
        self.texts.clear();
    }

    /// Adds what is written for one pair, and counts the pair if there is a tally. If memory is
    /// refused, nothing has changed. The count of pairs must be below `u64::MAX`, and `names` must
    /// be the lengths of the names of the mates.
    #[inline(always)]
    pub fn add(
        &mut self,
        pair: PairView<'_>,
        names: NameLengths,
        steps: &Steps,
        tally: &mut Option<Tally>,
    ) -> Result<(), OutOfMemory>
        requires room { self.old.texts.counts.pairs < u64.MAX }
        requires names { names ≡ name_lengths (mates_in pair.forward pair.reverse) }
        ensures ok { OnOk result
            (self.new ≡ with_mates steps.now self.old
            (mates_in pair.entry.forward pair.entry.reverse)) }
        ensures tally { OnOk result
            (tally.new ≡ tally_with steps.now tally.old
            (mates_in pair.entry.forward pair.entry.reverse ∷ [])) }
        ensures err { OnErr result (self.new ≡ self.old) }
        ensures kept { OnErr result (tally.new ≡ tally.old) }
    {
        match tally {
            None => self.texts.add_named(pair, names, steps),
            Some(tally) => add_counted(&mut self.texts, tally, pair, names, steps),
        }
    }
}

// Adds what is written for one pair, and counts it. It is not inlined, so that a run without a
// tally doesn't pay for what counting needs.
#[inline(never)]
fn add_counted(
    texts: &mut Texts,
    tally: &mut Tally,
    pair: PairView<'_>,
    names: NameLengths,
    steps: &Steps,
) -> Result<(), OutOfMemory>
    requires room { texts.old.counts.pairs < u64.MAX }
    requires names { names ≡ name_lengths (mates_in pair.forward pair.reverse) }
    ensures texts { OnOk result
        (texts.new ≡ joined texts.old
        (texts_of steps.now (mates_in pair.entry.forward pair.entry.reverse ∷ []))) }
    ensures tally { OnOk result
        (tally.new ≡ with_pair (alone steps.now) tally.old
        (mates_in pair.entry.forward pair.entry.reverse)) }
    ensures kept_texts { OnErr result (texts.new ≡ texts.old) }
    ensures kept_tally { OnErr result (tally.new ≡ tally.old) }
{
    let counted = PairView {
        forward: again(&pair.forward),
        reverse: again(&pair.reverse),
    };
    let forward = Trimmed::new(&counted.forward, steps);
    let reverse = Trimmed::new(&counted.reverse, steps);
    texts.add_kept(pair, names, steps, forward.kept(), reverse.kept())?;
    tally.add_trimmed(counted, steps, &forward, &reverse);
    Ok(())
}

// Lends the same read once more. Counting gets this view and never the first one, so if nothing is
// counted, the compiler copies no view to memory.
#[inline(always)]
fn again<'a>(read: &ReadView<'a>) -> ReadView<'a>
    ensures { result ≡ read.now }
{
    ReadView::new(read.encoding(), read.title(), read.seq(), read.qual())
}
