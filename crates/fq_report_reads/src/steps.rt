//! Counts of what the steps did to reads.

ghost use Rattle.std.specs.Prelude.{◌≡◌, IfOk};
ghost use Rattle.fq_report_reads.specs.Rows.{counted_all};

use crate::rows::Rows;
use crate::trimmed::Trimmed;
use fq_text::OutOfMemory;
use std::alloc::Global;

/// What the steps did to reads, by the number of the step, counted from 0.
#[derive(Drop)]
pub struct StepsTally {
    /// The reads that a step shortened: it kept some of the bases that it was given, and not all.
    pub shortened: Rows,
    /// The reads that a step dropped: it kept none of the bases that it was given. Each dropped
    /// read counts once. A read without bases counts at the first step.
    pub dropped: Rows,
}

impl StepsTally {
    ghost use Rattle.fq_report_reads.specs.SideTallies.{no_steps, steps_plus};

    // No reads.
    pub(crate) fn new(alloc: Global) -> Result<StepsTally, OutOfMemory>
        ensures { IfOk result (λ t. t ≡ no_steps) }
    {
        Ok(StepsTally {
            shortened: Rows::new(alloc)?,
            dropped: Rows::new(alloc)?,
        })
    }

    // Counts what the steps did to one more read.
    pub(crate) fn add(&mut self, trimmed: &Trimmed)
        ensures { self.new ≡ record {
          shortened = counted_all trimmed.now.shortened self.old.shortened;
          dropped = counted_all trimmed.now.dropped self.old.dropped;
        } }
    {
        for number in trimmed.shortened() {
            self.shortened.count(usize::from(*number));
        }
        if let Some(number) = trimmed.dropped() {
            self.dropped.count(number);
        }
    }

    // Adds the counts of other reads.
    pub(crate) fn add_all(&mut self, other: &StepsTally)
        ensures { self.new ≡ steps_plus self.old other.now }
    {
        self.shortened.add_all(&other.shortened);
        self.dropped.add_all(&other.dropped);
    }
}
