//! Sums of scores.

ghost use Rattle.std.specs.Prelude.{true, ◌≡◌, ◌*◌, ◌≤◌, length, sum};
ghost use Rattle.std.specs.List.{list_all};
ghost use Rattle.fq_text.specs.Scores.{is_scored};
ghost use Rattle.fq_trim.specs.Keeping.{scores};

use fq_text::Encoding;

// So few scores that their sum always fits in a u32. A longer read is summed in parts.
const CHUNK: usize = 1 << 24;

/// The sum of the scores.
#[tactic(auto, using(crate::proofs::PlaceLemmas::sum_small))]
pub(crate) fn total_of(encoding: Encoding, qual: &[u8]) -> u128
    requires { list_all (is_scored encoding) qual.now ≡ true }
    ensures sum { result ≡ sum (scores encoding qual.now) }
    ensures bound { result ≤ 126 * length qual.now }
{
    let mut total = 0;
    for chunk in qual.chunks(CHUNK) {
        total += u128::from(sum_of(encoding, chunk));
    }
    total
}

// The sum of the scores of a chunk.
#[tactic(auto, using(std::proofs::lemmas::Grind::common_steps, fq_text::proofs::ScoreLemmas::at_place, fq_text::proofs::ScoreLemmas::value_small))]
fn sum_of(encoding: Encoding, qual: &[u8]) -> u32
    requires few { length qual.now ≤ CHUNK }
    requires scored { list_all (is_scored encoding) qual.now ≡ true }
    ensures { result ≡ sum (scores encoding qual.now) }
{
    let mut total = 0u32;
    for byte in qual {
        total += u32::from(encoding.phred(*byte));
    }
    total
}
