//! Arguments that name steps.

ghost use Rattle.std.specs.Prelude.{true, ◌≡◌, ◌∷◌, [], ◌≤◌, IfOk, slice_index, if◌then◌else◌};
ghost use Rattle.std.specs.Char.{is_ascii_digit};
ghost use Rattle.std.specs.List.{list_all};
ghost use Rattle.fq_trim.specs.Keeping.{is_in_range, largest_number};
ghost use Rattle.fq_trim.specs.Words.{pieces, pieces_in, is_number, number_of, numbers_of, result_map, step_of, step_of_kind, kind_of};
ghost use Rattle.fq_trim.specs.declared.step.Step.TheVariants.{SlidingWindow};

use crate::fault::StepFaultKind;
use crate::step::Step;

/// The step that an argument names, or its first fault.
pub(crate) fn parse_word(word: &str) -> Result<Step, StepFaultKind>
    ensures value { result ≡ step_of word.now }
    ensures in_range { IfOk result (λ step. is_in_range step ≡ true) }
{
    let (name, numbers) = cut_piece(word);
    parse_step(name, numbers)
}

// The first piece of a text, and the text after its colon.
#[tactic(auto, using(std::proofs::lemmas::Grind::common_steps, crate::proofs::WordLemmas::pieces_none, std::proofs::lemmas::List::Splits::slice_split_first))]
fn cut_piece(text: &str) -> (&str, Option<&str>)
    ensures { pieces text.now ≡ result.0.now ∷ pieces_in result.1 }
{
    match text.split_once(':') {
        Some((piece, rest)) => (piece, Some(rest)),
        None => (text, None),
    }
}

// The step of a name and the text of its numbers, or the first fault.
#[tactic(auto, using(std::proofs::lemmas::Grind::common_steps, crate::proofs::WordLemmas::pieces_behind, crate::proofs::WordLemmas::wrong_count))]
fn parse_step(name: &str, numbers: Option<&str>) -> Result<Step, StepFaultKind>
    ensures value { result ≡ step_of_kind (kind_of name.now) (pieces_in numbers.entry) }
    ensures in_range { IfOk result (λ step. is_in_range step ≡ true) }
{
    match name {
        "LEADING" => one_number(numbers).map(Step::Leading),
        "TRAILING" => one_number(numbers).map(Step::Trailing),
        "CROP" => one_number(numbers).map(Step::Crop),
        "HEADCROP" => one_number(numbers).map(Step::HeadCrop),
        "SLIDINGWINDOW" => sliding_window(numbers),
        "AVGQUAL" => one_number(numbers).map(Step::AverageQuality),
        "MINLEN" => one_number(numbers).map(Step::MinLen),
        "TOPHRED33" => match numbers {
            None => Ok(Step::ToPhred33),
            Some(_) => Err(StepFaultKind::WrongCount),
        },
        _ => Err(StepFaultKind::Unknown),
    }
}

// The one number of a step.
#[tactic(auto, using(std::proofs::lemmas::Grind::common_steps, crate::proofs::WordLemmas::pieces_behind, crate::proofs::WordLemmas::wrong_count))]
fn one_number(numbers: Option<&str>) -> Result<u32, StepFaultKind>
    ensures value { result ≡ result_map (λ values. slice_index values 0)
        (numbers_of (0 ∷ []) (pieces_in numbers.entry)) }
    ensures small { IfOk result (λ n. n ≤ largest_number) }
{
    let Some(text) = numbers else {
        return Err(StepFaultKind::WrongCount);
    };
    let (piece, rest) = cut_piece(text);
    if rest.is_some() {
        return Err(StepFaultKind::WrongCount);
    }
    number(piece)
}

// The sliding window step with the width and the score in this text.
#[tactic(auto, using(std::proofs::lemmas::Grind::common_steps, crate::proofs::WordLemmas::pieces_behind, crate::proofs::WordLemmas::wrong_count))]
fn sliding_window(numbers: Option<&str>) -> Result<Step, StepFaultKind>
    ensures value { result
        ≡ result_map (λ values. SlidingWindow (slice_index values 0) (slice_index values 1))
        (numbers_of (1 ∷ 0 ∷ []) (pieces_in numbers.entry)) }
    ensures in_range { IfOk result (λ step. is_in_range step ≡ true) }
{
    let Some(text) = numbers else {
        return Err(StepFaultKind::WrongCount);
    };
    let (width, rest) = cut_piece(text);
    let Some(text) = rest else {
        return Err(StepFaultKind::WrongCount);
    };
    let (score, rest) = cut_piece(text);
    if rest.is_some() {
        return Err(StepFaultKind::WrongCount);
    }
    let width = number(width)?;
    let score = number(score)?;
    if width == 0 {
        return Err(StepFaultKind::OutOfRange);
    }
    Ok(Step::SlidingWindow { width, score })
}

// The number that a piece of text writes.
#[tactic(auto, using(std::proofs::lemmas::Grind::common_steps, crate::proofs::WordLemmas::number_read, crate::proofs::WordLemmas::number_small))]
fn number(piece: &str) -> Result<u32, StepFaultKind>
    ensures value { result
        ≡ (if is_number piece.now then Ok (number_of piece.now) else Err StepFaultKind.BadNumber) }
    ensures small { IfOk result (λ n. n ≤ largest_number) }
{
    if has_number(piece) {
        piece.parse().map_err(|_| StepFaultKind::BadNumber)
    } else {
        Err(StepFaultKind::BadNumber)
    }
}

// Whether a piece is 1 to 9 ASCII digits.
fn has_number(piece: &str) -> bool
    ensures { result ≡ is_number piece.now }
{
    !piece.is_empty() && piece.len() <= 9 && all_digits(piece.as_bytes())
}

// Whether all bytes are ASCII digits.
fn all_digits(bytes: &[u8]) -> bool
    ensures { result ≡ list_all is_ascii_digit bytes.now }
{
    bytes.iter().all(|b| b.is_ascii_digit())
}
