//! What the steps do to a read.

ghost use Rattle.std.specs.Prelude.{◌≡◌};

use fq_text::ReadView;
use fq_trim::{Kept, MAX_STEPS, Steps};
use std::marker::Model;

/// What the steps do to a read: which bases they keep, which steps shorten it, and which drops it.
///
/// A pair that is both written and counted is trimmed once, by this. It takes no memory of its own.
#[derive(Drop)]
pub struct Trimmed {
    // The first kept place and the place after the last, equal if the read is dropped.
    start: usize,
    stop: usize,
    // The numbers of the steps that shortened the read, `count` of them.
    shortened: [u8; MAX_STEPS],
    count: usize,
    dropped: Option<usize>,
}

impl Model for Trimmed {
    ghost use Rattle.std.specs.Prelude.{◌-◌, ◌≤◌, length, take};
    ghost use Rattle.fq_trim.specs.Keeping.{places};
    ghost use Rattle.fq_report_reads.specs.Courses.{Passage, numbers_of};

    ghost Value = { Passage };

    ghost view = { λ t. record {
      kept = places t.start (t.stop - t.start);
      front = t.start;
      shortened = take t.count t.shortened;
      dropped = numbers_of t.dropped;
    } };

    ghost invariant = { λ t. (t.start ≤ t.stop) × (t.count ≤ length t.shortened) };
}

impl Trimmed {
    ghost use Rattle.std.specs.Prelude.{not, IfSome};
    ghost use Rattle.fq_trim.specs.KeptPlaces.{is_empty, places_of};
    ghost use Rattle.fq_report_reads.specs.Courses.{passage, numbers_of};

    /// Takes the steps in turn, each on what the step before left.
    pub fn new(read: &ReadView<'_>, steps: &Steps) -> Trimmed
        ensures { result ≡ passage steps.now read.now }
    {
        let _ = read.title(); // The proof learns that the read is valid.
        let encoding = read.encoding();
        let qual = read.qual();
        let mut shortened = [0; MAX_STEPS];
        let mut count = 0;
        let mut start = 0;
        let mut stop = qual.len();
        // `trim_by` of `fq_trim` takes the same steps in the same way, and counts nothing.
        for number in 0..steps.as_slice().len() {
            match steps.trim_at(number, encoding, &qual[start..stop]) {
                Some(kept) => {
                    if kept.stop - kept.start < stop - start {
                        shortened[count] = number as u8;
                        count += 1;
                    }
                    stop = start + kept.stop;
                    start += kept.start;
                }
                None => {
                    return Trimmed {
                        start,
                        stop: start,
                        shortened,
                        count,
                        dropped: Some(number),
                    };
                }
            }
        }
        Trimmed {
            start,
            stop,
            shortened,
            count,
            dropped: None,
        }
    }

    /// The places of the kept bases, 0-based, or `None` if the read is dropped.
    pub fn kept(&self) -> Option<Kept>
        ensures kept { places_of result ≡ self.now.kept }
        ensures front { IfSome result (λ k. k.start ≡ self.now.front) }
    {
        if self.start < self.stop {
            Some(Kept {
                start: self.start,
                stop: self.stop,
            })
        } else {
            None
        }
    }

    /// Whether a base is kept.
    pub fn survives(&self) -> bool
        ensures { result ≡ not (is_empty self.now.kept) }
    {
        self.start < self.stop
    }

    // The numbers of the steps that shortened the read, in rising order.
    pub(crate) fn shortened(&self) -> &[u8]
        ensures { result.now ≡ self.now.shortened }
    {
        &self.shortened[..self.count]
    }

    // The number of the step that dropped the read.
    pub(crate) fn dropped(&self) -> Option<usize>
        ensures { numbers_of result ≡ self.now.dropped }
    {
        self.dropped
    }
}
