//! Laws of one read.

ghost use Rattle.fq_law_in_step.specs.Pieces.{ReadsStayInOnePiece, LettersArePlain};

/// What is left of a read is one piece without a gap, the same piece of its bases and of its
/// quality.
///
/// Each quality byte is written as it was, or under `TOPHRED33` as its score plus 33. The title is
/// kept. A read that survives has at least one base. The numbers of its log line are those of the
/// piece; those of a dropped read are `0 0 0 0`.
#[tactic(auto, using(crate::proofs::PieceLemmas::one_piece))]
pub fn reads_stay_in_one_piece()
    ensures { ReadsStayInOnePiece }
{}

/// A read whose bases are letters, and whose title doesn't end in CR, is plain: what the steps
/// leave of it can be read again.
pub fn letters_are_plain()
    ensures { LettersArePlain }
{}
