//! Worked rows: the format of their files, and the answers of the crates below to each row. The
//! program `fq_test_rows` reads the files, computes the answers and compares them with the expected
//! ones. A row is data, so it costs no proof: only the code that computes its answers is proved,
//! once.
#![tactic(auto)]

mod answers;
mod blocks;
mod mates;
mod names;
mod pairs;
mod reads;
mod reports;
mod row;
mod scores;
mod settings;
mod steps;
mod tallies;
mod words;
mod work;

pub use answers::{Answers, compare};
use anyhow::{Context, Result, bail};
use fq_text::Encoding;
pub use mates::put_counts;
pub use names::{Names, decode};
pub use pairs::{OUTPUTS, out_of};
pub use row::{Given, Row, read_block};
use std::alloc::{AllocError, Global};
use std::sync::Wait;
pub use tallies::put_tally;

/// Puts the answers to a row with `do: WORD`. It is an error if no function here handles the word.
pub fn answer<R: Wait>(
    rt: &R,
    alloc: Global,
    word: &str,
    given: &Given<'_>,
    answers: &mut Answers,
) -> Result<()> {
    match word {
        "read" => reads::answer(alloc, given, answers),
        "score" => scores::answer(alloc, given, answers),
        "write" => scores::answer_written(alloc, given, answers),
        "trim" => steps::answer(alloc, given, answers),
        "steps" => steps::answer_parsed(alloc, given, answers),
        "mates" => mates::answer(alloc, given, answers),
        "printed" => mates::answer_printed(alloc, given, answers),
        "sum" => mates::answer_sum(alloc, given, answers),
        "pairs" => pairs::answer(alloc, given, answers),
        "tally" => tallies::answer(alloc, given, answers),
        "report" => reports::answer(alloc, given, answers),
        "block" => blocks::answer(alloc, given, answers),
        "done" => work::answer_done(alloc, given, answers),
        "work" => work::answer(rt, alloc, given, answers),
        "settings" => settings::answer(alloc, given, answers),
        "words" => words::answer(alloc, given, answers),
        _ => bail!("nobody answers {word:?}"),
    }
}

/// Returns the encoding of a row: Sanger's (Phred+33) if the row names none.
pub fn encoding_in(given: &Given<'_>) -> Result<Encoding> {
    match given.text("encoding")? {
        "" => Ok(Encoding::Sanger),
        name => Encoding::of_name(name).context("no such encoding"),
    }
}

/// Returns the words of a text, which are separated by single spaces.
pub fn words_of<'a>(alloc: Global, text: &'a str) -> Result<Vec<&'a str>, AllocError> {
    if text.is_empty() {
        return Ok(Vec::new(alloc));
    }
    text.split(' ').collect(alloc)
}
