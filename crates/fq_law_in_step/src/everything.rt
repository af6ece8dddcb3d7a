//! The pairs of inputs are made of their records.

ghost use Rattle.fq_law_in_step.specs.Everything.{NothingIsLost, NothingIsLostOfOne};

/// Nothing is lost, and nothing is invented.
///
/// The mates of the pairs are the first records of their text, in its order. If no fault ends the
/// pairs, as at status 0, they are all its records, and no fault follows these. In an interleaved
/// text the mates of a pair are two records, one after the other.
pub fn nothing_is_lost()
    ensures two_texts { NothingIsLost }
    ensures interleaved { NothingIsLostOfOne }
{}
