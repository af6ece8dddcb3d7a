//! `do: mates` takes the titles `forward` and `reverse`. Answers: `forward` and `reverse`, the
//! names in them; `match`, whether mates with these titles have one name.
//!
//! `do: printed` prints faults of inputs. Answers: `text`, `missing` and `names`.
//!
//! `do: sum` adds the counts `first` and `second`, five numbers each in the order of a summary.
//! Answer: `sum`.

use crate::answers::Answers;
use crate::row::Given;
use anyhow::{Context, Result, bail};
use fq_pair::{Counts, InputFault, Side, name_of, names_match};
use fq_text::TextFault;
use std::alloc::Global;

/// Puts the answers to a `do: mates` row.
pub fn answer(_alloc: Global, given: &Given<'_>, answers: &mut Answers) -> Result<()> {
    given.allow(&["forward", "reverse"])?;
    let (forward, reverse) = (given.bytes("forward"), given.bytes("reverse"));
    answers.put("forward", name_of(forward, Side::Forward))?;
    answers.put("reverse", name_of(reverse, Side::Reverse))?;
    answers.put_yes("match", names_match(forward, reverse))?;
    Ok(())
}

fn put_fault(alloc: Global, answers: &mut Answers, key: &str, fault: InputFault) -> Result<()> {
    answers.put(key, format!(in alloc; "{fault}")?.as_bytes())?;
    Ok(())
}

/// Puts the answers to a `do: printed` row.
pub fn answer_printed(alloc: Global, given: &Given<'_>, answers: &mut Answers) -> Result<()> {
    given.allow(&[])?;
    put_fault(
        alloc,
        answers,
        "text",
        InputFault::Text(Side::Reverse, TextFault::NoPlus(2)),
    )?;
    put_fault(
        alloc,
        answers,
        "missing",
        InputFault::MateMissing(Side::Forward, 6),
    )?;
    put_fault(alloc, answers, "names", InputFault::NamesDiffer(3))
}

/// Reads counts as a row writes them.
pub fn counts_of(alloc: Global, text: &str) -> Result<Counts> {
    let mut numbers = Vec::new(alloc);
    for word in text.split(' ') {
        numbers.push(word.parse::<u64>().context("a number")?)?;
    }
    let [pairs, both, forward_only, reverse_only, dropped] = *numbers.as_slice() else {
        bail!("not five numbers: {text:?}");
    };
    Ok(Counts {
        pairs,
        both,
        forward_only,
        reverse_only,
        dropped,
    })
}

/// Puts counts as an answer.
pub fn put_counts(alloc: Global, answers: &mut Answers, key: &str, counts: Counts) -> Result<()> {
    let Counts {
        pairs,
        both,
        forward_only,
        reverse_only,
        dropped,
    } = counts;
    let text = format!(in alloc; "{pairs} {both} {forward_only} {reverse_only} {dropped}")?;
    answers.put(key, text.as_bytes())?;
    Ok(())
}

/// Puts the answers to a `do: sum` row.
pub fn answer_sum(alloc: Global, given: &Given<'_>, answers: &mut Answers) -> Result<()> {
    given.allow(&["first", "second"])?;
    let first = counts_of(alloc, given.text("first")?)?;
    let second = counts_of(alloc, given.text("second")?)?;
    put_counts(alloc, answers, "sum", first.plus(second))
}
