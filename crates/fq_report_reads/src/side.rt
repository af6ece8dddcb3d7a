//! Counts of the reads of one side.

ghost use Rattle.std.specs.Prelude.{◌≡◌, ◌≤◌, false, [], Some, length, IfOk};
ghost use Rattle.fq_text.specs.Grammar.{IsLawful};
ghost use Rattle.fq_trim.specs.KeptPlaces.{places_of};
ghost use Rattle.fq_report_reads.specs.Courses.{alone, course, passage, part_at, whole};
ghost use Rattle.fq_report_reads.specs.SideTallies.{bases_of};

use crate::bases::BaseTally;
use crate::reads::ReadsTally;
use crate::rows::Rows;
use crate::side_positions::SidePositions;
use crate::steps::StepsTally;
use crate::trimmed::Trimmed;
use fq_text::{OutOfMemory, ReadView};
use fq_trim::{Kept, Steps};
use std::alloc::Global;

/// Counts of the reads of one side, before and after trimming.
#[derive(Drop)]
pub struct SideTally {
    /// All reads, as they were read.
    pub before: ReadsTally,
    /// What is left of the reads that survive with their mate.
    pub paired: ReadsTally,
    /// What is left of the reads that survive alone.
    pub unpaired: ReadsTally,
    /// The bases removed before the first kept base of each read that survives.
    pub front: u64,
    /// The bases removed after the last kept base of each read that survives.
    pub behind: u64,
    /// The reads that survive by their number of bases removed before the first kept base.
    pub removed_front: Rows,
    /// The reads that survive by their number of bases removed after the last kept base.
    pub removed_behind: Rows,
    /// The bases by their position in the read, before and after trimming.
    pub positions: SidePositions,
    /// What each step did.
    pub steps: StepsTally,
}

impl SideTally {
    ghost use Rattle.fq_report_reads.specs.SideTallies.{no_side, with_left, with_read, side_plus};

    // No reads.
    pub(crate) fn new(alloc: Global) -> Result<SideTally, OutOfMemory>
        ensures { IfOk result (λ t. t ≡ no_side) }
    {
        Ok(SideTally {
            before: ReadsTally::new(alloc)?,
            paired: ReadsTally::new(alloc)?,
            unpaired: ReadsTally::new(alloc)?,
            front: 0,
            behind: 0,
            removed_front: Rows::new(alloc)?,
            removed_behind: Rows::new(alloc)?,
            positions: SidePositions::new(alloc)?,
            steps: StepsTally::new(alloc)?,
        })
    }

    // Counts one more read and what the steps do to it.
    #[tactic(auto, using(crate::proofs::LeftLaws::left_as_kept))]
    pub(crate) fn add(
        &mut self,
        read: &ReadView<'_>,
        steps: &Steps,
        trimmed: &Trimmed,
        mate_survives: bool,
    )
        requires { trimmed.now ≡ passage steps.now read.now }
        ensures added { self.new
            ≡ with_read read.now (course (alone steps.now) read.now) mate_survives self.old }
        ensures lawful { IsLawful read.now }
    {
        let _ = read.title(); // The proof learns that the read is valid.
        self.steps.add(trimmed);
        match trimmed.kept() {
            Some(kept) => self.add_survivor(read, kept, mate_survives),
            None => self.add_dropped(read),
        }
    }

    // Counts one more read that keeps no base.
    fn add_dropped(&mut self, read: &ReadView<'_>)
        ensures { self.new ≡ with_left read.now (part_at [] (whole read.now)) 0 false self.old }
    {
        let _ = read.title(); // The proof learns that the read is valid.
        let len = read.seq().len();
        let bases = BaseTally::of_rare(read.encoding(), read.seq(), read.qual(), 0, len);
        self.before.add(bases, len);
        self.positions.add_dropped(read);
    }

    // Counts one more read that keeps bases.
    #[tactic(auto, using(std::proofs::lemmas::Grind::common_steps, crate::proofs::SideLemmas::few_bases))]
    fn add_survivor(&mut self, read: &ReadView<'_>, kept: Kept, mate_survives: bool)
        requires { kept.stop ≤ length read.now.seq }
        ensures { self.new ≡ with_left read.now
            (part_at (places_of (Some kept)) (whole read.now)) kept.start mate_survives self.old }
    {
        let _ = read.title(); // The proof learns that the read is valid.
        let seq = read.seq();
        let len = kept.stop - kept.start;
        let left = kept_bases(read, kept);
        let whole = whole_bases(read, kept, left);
        self.before.add(whole, seq.len());
        if mate_survives {
            self.paired.add(left, len);
        } else {
            self.unpaired.add(left, len);
        }
        let behind = seq.len() - kept.stop;
        self.front = self.front.saturating_add(kept.start as u64);
        self.behind = self.behind.saturating_add(behind as u64);
        self.removed_front.count(kept.start);
        self.removed_behind.count(behind);
        self.positions.add_survivor(read, kept, mate_survives);
    }

    // Adds the counts of other reads.
    pub(crate) fn add_all(&mut self, other: &SideTally)
        ensures { self.new ≡ side_plus self.old other.now }
    {
        self.before.add_all(&other.before);
        self.paired.add_all(&other.paired);
        self.unpaired.add_all(&other.unpaired);
        self.front = self.front.saturating_add(other.front);
        self.behind = self.behind.saturating_add(other.behind);
        self.removed_front.add_all(&other.removed_front);
        self.removed_behind.add_all(&other.removed_behind);
        self.positions.add_all(&other.positions);
        self.steps.add_all(&other.steps);
    }
}

// The quality bytes of a read, cut to the number of its bases: the compiler then checks one length.
#[inline(always)]
fn qual_of<'a>(read: &'a ReadView<'_>) -> &'a [u8]
    ensures { result.now ≡ read.now.qual }
{
    let _ = read.title(); // The proof learns that the read is valid.
    &read.qual()[..read.seq().len()]
}

// The counts of the bases that are kept of a read.
#[tactic(auto, using(crate::proofs::SideLemmas::kept_part))]
#[inline(always)]
fn kept_bases(read: &ReadView<'_>, kept: Kept) -> BaseTally
    requires { kept.stop ≤ length read.now.seq }
    ensures { result ≡ bases_of (part_at (places_of (Some kept)) (whole read.now)) }
{
    let _ = read.title(); // The proof learns that the read is valid.
    BaseTally::of(
        read.encoding(),
        read.seq(),
        qual_of(read),
        kept.start,
        kept.stop,
    )
}

// The counts of all bases of a read, from those of its kept bases: each base is counted once.
#[inline(always)]
fn whole_bases(read: &ReadView<'_>, kept: Kept, left: BaseTally) -> BaseTally
    requires within { kept.stop ≤ length read.now.seq }
    requires left { left ≡ bases_of (part_at (places_of (Some kept)) (whole read.now)) }
    ensures { result ≡ bases_of (whole read.now) }
{
    let _ = read.title(); // The proof learns that the read is valid.
    let encoding = read.encoding();
    let (seq, qual) = (read.seq(), qual_of(read));
    let front = if kept.start == 0 {
        BaseTally::zero()
    } else {
        BaseTally::of_rare(encoding, seq, qual, 0, kept.start)
    };
    left.plus(front)
        .with(encoding, seq, qual, kept.stop, seq.len())
}
