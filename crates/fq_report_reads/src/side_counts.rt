//! Counts of the reads of one side, on the heap.

ghost use Rattle.std.specs.Prelude.{◌≡◌, IfOk};
ghost use Rattle.fq_text.specs.Grammar.{IsLawful};
ghost use Rattle.fq_report_reads.specs.Courses.{alone, course, passage};

use crate::side::SideTally;
use crate::trimmed::Trimmed;
use fq_text::{OutOfMemory, ReadView};
use fq_trim::Steps;
use std::alloc::Global;
use std::marker::Model;

/// Counts of the reads of one side, as [`counts`](SideCounts::counts) lends them. They are on the
/// heap, so that a tally has few parts: the proof of a function that moves one goes through all of
/// them.
#[derive(Drop)]
pub struct SideCounts {
    inside: Box<SideTally>,
}

impl Model for SideCounts {
    ghost use Rattle.fq_report_reads.specs.declared.side.SideTally.{SideTally};

    ghost Value = { SideTally };

    ghost view = { λ s. s.inside.value };
}

impl SideCounts {
    ghost use Rattle.fq_report_reads.specs.SideTallies.{no_side, with_read, side_plus};

    /// The counts of no reads. Takes the memory that counting can't do without, which may be
    /// refused.
    pub fn new(alloc: Global) -> Result<SideCounts, OutOfMemory>
        ensures { IfOk result (λ t. t ≡ no_side) }
    {
        let counts = SideTally::new(alloc)?;
        let inside = Box::new(alloc, counts)?;
        Ok(SideCounts { inside })
    }

    /// The counts.
    pub fn counts(&self) -> &SideTally
        ensures { result.now ≡ self.now }
    {
        &self.inside
    }

    /// Counts one more read and what the steps do to it.
    pub fn add(
        &mut self,
        read: &ReadView<'_>,
        steps: &Steps,
        trimmed: &Trimmed,
        mate_survives: bool,
    )
        requires { trimmed.now ≡ passage steps.now read.now }
        ensures added { self.new
            ≡ with_read read.now (course (alone steps.now) read.now) mate_survives self.old }
        ensures lawful { IsLawful read.now }
    {
        self.inside.add(read, steps, trimmed, mate_survives);
    }

    /// Adds the counts of other reads.
    pub fn add_all(&mut self, other: &SideCounts)
        ensures { self.new ≡ side_plus self.old other.now }
    {
        self.inside.add_all(&other.inside);
    }
}
