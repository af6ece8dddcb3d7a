//! The bases of a read that a list of steps keeps.

ghost use Rattle.std.specs.Prelude.{true, ◌≡◌, ◌-◌, ◌<◌, ◌≤◌, [], length, MatchOption, IfSome};
ghost use Rattle.std.specs.List.{list_all};
ghost use Rattle.fq_text.specs.Scores.{is_scored};
ghost use Rattle.fq_trim.specs.Keeping.{places, scores, kept, is_in_range};

use crate::keeping::{Span, kept_by};
use crate::step::Step;
use fq_text::Encoding;

/// The bases of a read that stay: those from index `start` up to, not including, `stop`. There is
/// at least one.
#[derive(Clone, Copy, Debug, PartialEq, Eq)]
pub struct Kept {
    /// The index of the first base that stays, counted from 0.
    pub start: usize,
    /// The index after the last base that stays.
    pub stop: usize,
    ghost some: { start < stop },
}

/// The bases that a list of steps keeps. Each step is applied to the bases that the step before it
/// kept. The result is a `Span` and not an `Option`, since its two numbers are returned in
/// registers; with a tag they would go through memory. `Trimmed::new` of `fq_report_reads` walks
/// the same steps, and notes which of them shorten or drop the read.
#[tactic(auto, using(crate::proofs::PlaceLemmas::all_taken, crate::proofs::PlaceLemmas::all_dropped))]
pub(crate) fn trim_by(steps: &[Step], encoding: Encoding, qual: &[u8]) -> Span
    requires in_range { list_all is_in_range steps.now ≡ true }
    requires scored { list_all (is_scored encoding) qual.now ≡ true }
    ensures kept { kept steps.now (scores encoding qual.now)
        ≡ places result.start (result.stop - result.start) }
    ensures within { result.stop ≤ length qual.now }
{
    let mut start = 0;
    let mut stop = qual.len();
    for step in steps {
        let left = kept_by(*step, encoding, &qual[start..stop]);
        stop = start + left.stop;
        start += left.start;
    }
    Span { start, stop }
}

/// The bases from `start` up to, not including, `stop`, or `None` if there are none.
#[inline(always)]
pub(crate) fn kept_between(start: usize, stop: usize) -> Option<Kept>
    ensures kept { MatchOption result (places start (stop - start) ≡ [])
        (λ k. places start (stop - start) ≡ places k.start (k.stop - k.start)) }
    ensures within { IfSome result (λ k. k.stop ≡ stop) }
{
    if start < stop {
        Some(Kept { start, stop })
    } else {
        None
    }
}
