//! `do: outcomes` shows how each outcome of a run is reported. Answers: for each outcome, its exit
//! status, a space, and its line.

use anyhow::Result;
use fq_app_files::{fault_line, status_of};
use fq_pair::{InputFault, Out, Side};
use fq_run::Outcome;
use fq_test_worked::{Answers, Given};
use fq_text::TextFault;
use std::alloc::Global;

const OUTCOMES: [Outcome; 10] = [
    Outcome::Gate,
    Outcome::Lane,
    Outcome::Spawn,
    Outcome::Memory,
    Outcome::Write(Out::Log),
    Outcome::Read(Side::Forward),
    Outcome::Endless(Side::Reverse),
    Outcome::Input(InputFault::Text(Side::Forward, TextFault::Endless)),
    Outcome::Input(InputFault::NamesDiffer(2)),
    Outcome::Finished,
];

fn put_outcome(alloc: Global, answers: &mut Answers, outcome: Outcome) -> Result<()> {
    let status = status_of(outcome);
    let mut text = format!(in alloc; "{status} ")?;
    fault_line(alloc, &mut text, outcome)?;
    answers.put(&format!(in alloc; "{outcome:?}")?, text.as_bytes())?;
    Ok(())
}

/// Puts the answers to a `do: outcomes` row.
pub fn answer(alloc: Global, given: &Given<'_>, answers: &mut Answers) -> Result<()> {
    given.allow(&[])?;
    for outcome in OUTCOMES {
        put_outcome(alloc, answers, outcome)?;
    }
    Ok(())
}
