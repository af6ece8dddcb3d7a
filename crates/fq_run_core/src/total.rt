//! What a run counts.

use crate::outcome::Outcome;
use fq_pair::Counts;
use fq_report_pairs::{Done, Tally};
use fq_text::OutOfMemory;
use std::alloc::Global;

/// The counts of the pairs whose block was written completely, and the tally of the pairs that were
/// trimmed.
#[derive(Drop)]
pub struct Total {
    /// The number of pairs, and of those in which both, one or none of the mates survived.
    pub counts: Counts,
    /// The tally. `None` if none is asked for.
    pub tally: Option<Tally>,
}

impl Total {
    ghost use Rattle.std.specs.Prelude.{◌≡◌, false, IfOk, OnOk, OnErr};
    ghost use Rattle.fq_run_core.specs.Totals.{no_total, total_plus, tally_plus, ended};

    /// The total of no pairs. Allocates a tally if one is asked for; the memory may be refused.
    pub fn new(alloc: Global, tallied: bool) -> Result<Total, OutOfMemory>
        ensures { IfOk result (λ total. total ≡ no_total tallied) }
    {
        let mut total = Total::without_tally();
        total.ask(alloc, tallied)?;
        Ok(total)
    }

    // Allocates a tally if one is asked for. The memory may be refused.
    pub(crate) fn ask(&mut self, alloc: Global, tallied: bool) -> Result<(), OutOfMemory>
        requires { self.old ≡ no_total false }
        ensures ok { OnOk result (self.new ≡ no_total tallied) }
        ensures err { OnErr result (self.new ≡ self.old) }
    {
        if tallied {
            self.tally = Some(Tally::new(alloc)?);
        }
        Ok(())
    }

    /// The total of no pairs, without a tally.
    pub fn without_tally() -> Total
        ensures { result ≡ no_total false }
    {
        Total {
            counts: Counts::ZERO,
            tally: None,
        }
    }

    /// Adds the counts of a block. The tally stays.
    pub fn add(&mut self, done: &Done)
        ensures { self.new ≡ total_plus self.old done.now }
    {
        self.counts = self.counts.plus(done.texts.counts());
    }

    /// Adds the tally of a worker, if both have one. The counts stay.
    pub fn add_tally(&mut self, more: &Option<Tally>)
        ensures counts { self.new.counts ≡ self.old.counts }
        ensures tally { self.new.tally ≡ tally_plus self.old.tally more.now }
    {
        if let Some(tally) = &mut self.tally {
            if let Some(more) = more {
                tally.add_all(more);
            }
        }
    }

    /// What a run with this outcome returns: its tally goes unless the run ended whole, since it
    /// may then have pairs that were not written.
    pub fn at_end(self, outcome: Outcome) -> Total
        ensures { result ≡ ended outcome self }
    {
        let mut total = self;
        if !outcome.is_whole() {
            total.tally = None;
        }
        total
    }
}
