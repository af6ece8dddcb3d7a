//! Which bases a step keeps.

ghost use Rattle.std.specs.Prelude.{true, ◌≡◌, ◌<◌, length};
ghost use Rattle.std.specs.List.{list_all};
ghost use Rattle.fq_text.specs.Scores.{is_scored};
ghost use Rattle.fq_trim.specs.Keeping.{scores, keeps, IsBetween, is_in_range};
ghost use Rattle.fq_trim.specs.declared.step.Step.TheVariants.{Leading, Trailing, Crop, HeadCrop, SlidingWindow, AverageQuality, MinLen};

use crate::low_end::after_last;
use crate::scoring::total_of;
use crate::step::Step;
use crate::windows::good_stop;
use fq_text::Encoding;

/// The bases that one step keeps: those from index `start` up to, not including, `stop`. There may
/// be none.
#[derive(Clone, Copy)]
pub(crate) struct Span {
    pub(crate) start: usize,
    pub(crate) stop: usize,
}

/// The bases that a step keeps.
// It is inlined because two functions call it: without the hint, here and at the sliding window,
// each of them would make more calls for every step.
#[inline(always)]
pub(crate) fn kept_by(step: Step, encoding: Encoding, qual: &[u8]) -> Span
    requires in_range { is_in_range step ≡ true }
    requires scored { list_all (is_scored encoding) qual.now ≡ true }
    ensures { IsBetween (keeps step (scores encoding qual.now))
        (length qual.now) result.start result.stop }
{
    match step {
        Step::Leading(score) => leading(encoding, score, qual),
        Step::Trailing(score) => trailing(encoding, score, qual),
        Step::Crop(bases) => crop(bases, qual),
        Step::HeadCrop(bases) => head_crop(bases, qual),
        Step::SlidingWindow { width, score } => sliding_window(encoding, width, score, qual),
        Step::AverageQuality(score) => average_quality(encoding, score, qual),
        Step::MinLen(bases) => min_len(bases, qual),
        Step::ToPhred33 => whole(qual),
    }
}

// All bases.
fn whole(qual: &[u8]) -> Span
    ensures { result ≡ record { start = 0; stop = length qual.now } }
{
    stop_at(qual.len())
}

// The bases before an index.
fn stop_at(stop: usize) -> Span
    ensures { result ≡ record { start = 0; stop = stop } }
{
    Span { start: 0, stop }
}

// The bases from an index on.
fn start_at(start: usize, qual: &[u8]) -> Span
    ensures { result ≡ record { start = start; stop = length qual.now } }
{
    Span {
        start,
        stop: qual.len(),
    }
}

// The bases from the first with a score of at least `score` on.
fn leading(encoding: Encoding, score: u32, qual: &[u8]) -> Span
    requires { list_all (is_scored encoding) qual.now ≡ true }
    ensures { IsBetween (keeps (Leading score) (scores encoding qual.now))
        (length qual.now) result.start result.stop }
{
    for (i, byte) in qual.iter().enumerate() {
        if score <= u32::from(encoding.phred(*byte)) {
            return start_at(i, qual);
        }
    }
    start_at(qual.len(), qual)
}

// The bases up to the last with a score of at least `score`.
fn trailing(encoding: Encoding, score: u32, qual: &[u8]) -> Span
    requires { list_all (is_scored encoding) qual.now ≡ true }
    ensures { IsBetween (keeps (Trailing score) (scores encoding qual.now))
        (length qual.now) result.start result.stop }
{
    stop_at(after_last(encoding, score, qual))
}

// The first bases.
fn crop(bases: u32, qual: &[u8]) -> Span
    ensures { (encoding : Encoding) → IsBetween (keeps (Crop bases) (scores encoding qual.now))
        (length qual.now) result.start result.stop }
{
    stop_at(qual.len().min(bases as usize))
}

// All but the first bases.
fn head_crop(bases: u32, qual: &[u8]) -> Span
    ensures { (encoding : Encoding) → IsBetween (keeps (HeadCrop bases) (scores encoding qual.now))
        (length qual.now) result.start result.stop }
{
    start_at(qual.len().min(bases as usize), qual)
}

// The bases up to the last with a score of at least `score` that is before the end of the first bad
// window. A window is bad if its scores sum to less than `width * score`.
#[tactic(auto, using(crate::proofs::PlaceLemmas::all_taken))]
#[inline(always)]
fn sliding_window(encoding: Encoding, width: u32, score: u32, qual: &[u8]) -> Span
    requires window { 0 < width }
    requires scored { list_all (is_scored encoding) qual.now ≡ true }
    ensures { IsBetween (keeps (SlidingWindow width score) (scores encoding qual.now))
        (length qual.now) result.start result.stop }
{
    let width = width as usize;
    if qual.len() < width {
        return stop_at(0);
    }
    let good = good_stop(encoding, width, score, qual);
    if good < width {
        return stop_at(0);
    }
    stop_at(after_last(encoding, score, &qual[..good]))
}

// All bases if the scores sum to at least `score` times their number, otherwise none.
fn average_quality(encoding: Encoding, score: u32, qual: &[u8]) -> Span
    requires { list_all (is_scored encoding) qual.now ≡ true }
    ensures { IsBetween (keeps (AverageQuality score) (scores encoding qual.now))
        (length qual.now) result.start result.stop }
{
    let least = u128::from(score) * qual.len() as u128;
    if least <= total_of(encoding, qual) {
        whole(qual)
    } else {
        stop_at(0)
    }
}

// All bases if there are at least `bases`, otherwise none.
fn min_len(bases: u32, qual: &[u8]) -> Span
    ensures { (encoding : Encoding) → IsBetween (keeps (MinLen bases) (scores encoding qual.now))
        (length qual.now) result.start result.stop }
{
    if bases as usize <= qual.len() {
        whole(qual)
    } else {
        stop_at(0)
    }
}
