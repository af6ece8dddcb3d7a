//! Laws of the texts that are written for pairs.

ghost use Rattle.fq_law_in_step.specs.FourLines.{OutputsAreFourLinesEach};
ghost use Rattle.fq_law_in_step.specs.InStep.{InputsGivePairs, TextsAreInStep, PairsGoOneWay, TextsAreJoined, JoinedInAnyGroups};

/// Mates stay in step.
///
/// Each of the four outputs, read again as FASTQ, gives exactly its trimmed reads, in the order of
/// the input and without a fault. The two paired outputs, read together with names checked as in
/// the run, give exactly the trimmed pairs in which both mates survive. Their number is
/// `Both Surviving` in the summary, and each unpaired output has as many reads as its line in the
/// summary says. The log has two lines for each pair, and each pair is counted once.
///
/// This holds for all pairs that inputs can give ([`inputs_give_pairs`]), if the reads of each
/// output are plain.
pub fn mates_stay_in_step()
    ensures { TextsAreInStep }
{}

/// Two texts, or one interleaved text, give pairs of valid reads in one encoding. The names of
/// mates match if names are checked.
pub fn inputs_give_pairs()
    ensures { InputsGivePairs }
{}

/// Each pair goes exactly one of four ways: both mates go to the paired outputs, the forward or the
/// reverse mate goes alone to its unpaired output, or neither mate is written.
#[tactic(auto, using(crate::proofs::CountLemmas::one_way))]
pub fn pairs_go_one_way()
    ensures { PairsGoOneWay }
{}

/// If the pairs are split anywhere, the text for all of them is the text for the first part
/// followed by the text for the rest.
#[tactic(auto, using(fq_pair::proofs::OutputLaws::joined_assoc))]
pub fn texts_are_joined()
    ensures texts { TextsAreJoined }
    ensures groups { JoinedInAnyGroups }
{}

/// Each of the four outputs has four lines for each of its trimmed reads, in the order of the
/// input, and no other line. So a program that takes four lines for a record gets exactly these
/// reads, whatever their bases are.
///
/// The pairs must come from inputs ([`inputs_give_pairs`]). A CR at the end of a title is a part of
/// its line.
pub fn outputs_have_four_lines_each()
    ensures { OutputsAreFourLinesEach }
{}
