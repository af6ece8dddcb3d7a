//! Counts of pairs.

ghost use Rattle.std.specs.Prelude.{◌≡◌, List, ◌++◌, IfOk};
ghost use Rattle.fq_trim.specs.declared.step.Step.{Step};
ghost use Rattle.fq_pair.specs.Mates.{Mates, mates_in};

use fq_pair::PairView;
use fq_report_reads::{SideCounts, Trimmed};
use fq_text::OutOfMemory;
use fq_trim::Steps;
use std::alloc::Global;

/// Counts of the reads of pairs, before and after trimming, for each side.
#[derive(Drop)]
pub struct Tally {
    /// The forward reads.
    pub forward: SideCounts,
    /// The reverse reads.
    pub reverse: SideCounts,
}

impl Tally {
    ghost use Rattle.fq_report_reads.specs.Courses.{alone, passage};
    ghost use Rattle.fq_report_pairs.specs.Tallies.{no_tally, with_pair, tally_of, plus};

    /// The counts of no pairs. Takes the memory that counting can't do without, which may be
    /// refused.
    pub fn new(alloc: Global) -> Result<Tally, OutOfMemory>
        ensures { IfOk result (λ t. t ≡ no_tally) }
    {
        let forward = SideCounts::new(alloc)?;
        let reverse = SideCounts::new(alloc)?;
        Ok(Tally { forward, reverse })
    }

    /// Counts one pair before and after trimming. The steps are taken in turn, each on what the
    /// step before left. A pair that has a longer read than those before may take memory, and is
    /// counted without it too.
    pub fn add(&mut self, pair: PairView<'_>, steps: &Steps)
        ensures { self.new ≡ with_pair (alone steps.now) self.old
            (mates_in pair.entry.forward pair.entry.reverse) }
    {
        let forward = Trimmed::new(&pair.forward, steps);
        let reverse = Trimmed::new(&pair.reverse, steps);
        self.add_trimmed(pair, steps, &forward, &reverse);
    }

    /// Counts one pair as [`add`](Tally::add) does, given what the steps do to each mate.
    #[tactic(auto, using(fq_report_reads::proofs::LeftLaws::survives_as_kept))]
    pub fn add_trimmed(
        &mut self,
        pair: PairView<'_>,
        steps: &Steps,
        forward: &Trimmed,
        reverse: &Trimmed,
    )
        requires forward { forward.now ≡ passage steps.now pair.forward }
        requires reverse { reverse.now ≡ passage steps.now pair.reverse }
        ensures { self.new ≡ with_pair (alone steps.now) self.old
            (mates_in pair.entry.forward pair.entry.reverse) }
    {
        let has_reverse = reverse.survives();
        let has_forward = forward.survives();
        self.forward.add(&pair.forward, steps, forward, has_reverse);
        self.reverse.add(&pair.reverse, steps, reverse, has_forward);
    }

    /// Adds the counts of other pairs. So a list of pairs can be cut at any place, and the counts
    /// of its parts added up in their order.
    pub fn add_all(&mut self, other: &Tally)
        ensures sum { self.new ≡ plus self.old other.now }
        ensures cut { (lists : List (List Step)) (front behind : List Mates)
            → self.old ≡ tally_of lists front → other.now ≡ tally_of lists behind
            → self.new ≡ tally_of lists (front ++ behind) }
    {
        self.forward.add_all(&other.forward);
        self.reverse.add_all(&other.reverse);
    }
}
