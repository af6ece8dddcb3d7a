//! Lists of trimming steps.

ghost use Rattle.std.specs.Prelude.{◌≡◌, ◌<◌, ◌≤◌, ◌-◌, MatchOption, IfSome, IfOk, IfErr, [], length, map, true};
ghost use Rattle.std.specs.List.{list_all};
ghost use Rattle.fq_text.specs.Scores.{is_scored};

use crate::fault::{StepFault, StepFaultKind};
use crate::keeping::kept_by;
use crate::step::Step;
use crate::trimming::{Kept, kept_between, trim_by};
use crate::words::parse_word;
use fq_text::Encoding;
use std::marker::Model;

/// The most steps that a list can have.
pub const MAX_STEPS: usize = 64;

/// A list of 1 to 64 trimming steps. Each is applied to the bases that the step before it kept.
///
/// The numbers of its steps are at most 999,999,999, and a window has at least one base. A list is
/// stored inline, and copied without taking memory.
#[derive(Clone, Copy, Debug, PartialEq, Eq)]
pub struct Steps {
    held: [Step; MAX_STEPS],
    count: usize,
}

impl Model for Steps {
    ghost use Rattle.std.specs.Prelude.{List, ◌++◌, ◌-◌, length, take, replicate};
    ghost use Rattle.fq_trim.specs.declared.step.Step.{Step};
    ghost use Rattle.fq_trim.specs.declared.step.Step.TheVariants.{ToPhred33};

    ghost Value = { List Step };

    ghost use Rattle.fq_trim.specs.Keeping.{most_steps};
    ghost use Rattle.fq_trim.specs.Steps.{IsHeld, inverse_view};

    ghost view = { λ s. take s.count s.held };

    ghost invariant = { λ s. IsHeld s.held s.count };

    ghost inverse = { λ steps. record {
      held = steps ++ replicate (most_steps - length steps) ToPhred33;
      count = length steps;
    } };

    ghost inverse_ok = { inverse_view };
}

impl Steps {
    ghost use Rattle.fq_trim.specs.Keeping.{kept, only, scores, places, recodes, is_in_range, most_steps};
    ghost use Rattle.fq_trim.specs.Words.{step_of, steps_of, IsFault};

    /// Reads a list of steps, one from each of `words` (command-line arguments), in their order. It
    /// takes no memory.
    ///
    /// An argument is split at its colons. The first piece is the name of a step, in capitals. The
    /// others are its numbers, as many as the step takes: one threshold or length; for
    /// SLIDINGWINDOW the window and the threshold; for TOPHRED33 none. A number has 1 to 9 ASCII
    /// digits, so no sign; leading zeros are allowed. A window is at least 1.
    ///
    /// # Errors
    ///
    /// [`NoSteps`](StepFaultKind::NoSteps) at place 0 if there is no argument, and
    /// [`TooMany`](StepFaultKind::TooMany) at place 65 if there are more than 64. Otherwise the
    /// place of the first faulty argument, counted from 1, with the first of its faults in the
    /// order `Unknown`, `WrongCount`, `BadNumber`, `OutOfRange`.
    pub fn parse(words: &[&str]) -> Result<Steps, StepFault>
        ensures value { result ≡ steps_of (map (λ word. word.now) words.now) }

        // This follows from the clause above: each argument is its step, or the fault is the first.
        ensures all { IfOk result (λ steps.
            map Ok steps ≡ map step_of (map (λ word. word.now) words.now)) }
        ensures first { IfErr result (λ fault.
            IsFault fault.kind fault.place (map (λ word. word.now) words.now)) }
    {
        if words.is_empty() {
            return Err(StepFault {
                place: 0,
                kind: StepFaultKind::NoSteps,
            });
        }
        if words.len() > MAX_STEPS {
            return Err(StepFault {
                place: MAX_STEPS + 1,
                kind: StepFaultKind::TooMany,
            });
        }
        let mut held = [Step::ToPhred33; MAX_STEPS];
        for (i, word) in words.iter().enumerate() {
            match parse_word(word) {
                Ok(step) => held[i] = step,
                Err(kind) => return Err(StepFault { place: i + 1, kind }),
            }
        }
        Ok(Steps {
            held,
            count: words.len(),
        })
    }

    /// The steps in their order: 1 to 64, with their numbers within the limits.
    pub fn as_slice(&self) -> &[Step]
        ensures steps { result.now ≡ self.now }
        ensures some { 0 < length self.now }
        ensures few { length self.now ≤ most_steps }
        ensures in_range { list_all is_in_range self.now ≡ true }
    {
        &self.held[..self.count]
    }

    /// The bases that the steps keep of a read with these quality bytes, or `None` if they keep
    /// none and the read is dropped. Each byte must have a score in the encoding.
    ///
    /// Each step is applied to the bases that the step before it kept, so the order matters. Every
    /// list drops a read without bases. It takes no memory, and a read may have any length.
    #[inline(always)]
    pub fn trim(&self, encoding: Encoding, qual: &[u8]) -> Option<Kept>
        requires { list_all (is_scored encoding) qual.now ≡ true }
        ensures kept { MatchOption result (kept self.now (scores encoding qual.now) ≡ [])
            (λ k. kept self.now (scores encoding qual.now) ≡ places k.start (k.stop - k.start)) }
        ensures within { IfSome result (λ k. k.stop ≤ length qual.now) }
    {
        let kept = trim_by(self.as_slice(), encoding, qual);
        kept_between(kept.start, kept.stop)
    }

    /// [`Steps::trim`] by only one step of the list: the one at index `place`, counted from 0.
    pub fn trim_at(&self, place: usize, encoding: Encoding, qual: &[u8]) -> Option<Kept>
        requires within { place < length self.now }
        requires scored { list_all (is_scored encoding) qual.now ≡ true }
        ensures kept { MatchOption result
            (kept (only place self.now) (scores encoding qual.now) ≡ [])
            (λ k. kept (only place self.now) (scores encoding qual.now)
            ≡ places k.start (k.stop - k.start)) }
        ensures within { IfSome result (λ k. k.stop ≤ length qual.now) }
    {
        let left = kept_by(self.as_slice()[place], encoding, qual);
        kept_between(left.start, left.stop)
    }

    /// Whether TOPHRED33 is in the list, so that the quality must be written as score + 33.
    pub fn reencodes(&self) -> bool
        ensures { result ≡ recodes self.now }
    {
        self.as_slice().contains(&Step::ToPhred33)
    }
}
