//! `do: trim` trims a read with the quality bytes `qual`, in `encoding`, by the arguments `steps`.
//! Answer: `kept`, the place of the first base that is kept, counted from 0, and the place after
//! the last one.
//!
//! `do: steps` reads the arguments `words`. Answers: `fault` and `place` if there is a fault, and
//! otherwise `steps`, `number` and `recodes` (whether they recode qualities).

use crate::answers::Answers;
use crate::row::Given;
use crate::{encoding_in, words_of};
use anyhow::{Result, bail};
use fq_text::Encoding;
use fq_trim::Steps;
use std::alloc::Global;

/// Returns the steps of a row.
pub fn steps_in(alloc: Global, given: &Given<'_>) -> Result<Steps> {
    let words = words_of(alloc, given.text("steps")?)?;
    Ok(Steps::parse(&words)?)
}

// Returns what the steps keep of a read: the place of its first base, and the place after its last
// one.
fn kept(steps: &Steps, encoding: Encoding, qual: &[u8]) -> Result<Option<(usize, usize)>> {
    if !encoding.all_scored(qual) {
        bail!("a byte without a score");
    }
    Ok(
        steps
            .trim(encoding, qual)
            .map(|kept| (kept.start, kept.stop)),
    )
}

/// Puts the answers to a `do: trim` row.
pub fn answer(alloc: Global, given: &Given<'_>, answers: &mut Answers) -> Result<()> {
    given.allow(&["steps", "encoding", "qual"])?;
    let steps = steps_in(alloc, given)?;
    match kept(&steps, encoding_in(given)?, given.bytes("qual"))? {
        Some((start, stop)) => answers.put(
            "kept",
            format!(in alloc; "{start} {stop}")?.as_bytes(),
        )?,
        None => answers.put("kept", b"nothing")?,
    }
    Ok(())
}

fn put_steps(alloc: Global, steps: &Steps, answers: &mut Answers) -> Result<()> {
    let list = steps.as_slice();
    answers.put("steps", format!(in alloc; "{list:?}")?.as_bytes())?;
    let number = list.len();
    answers.put("number", format!(in alloc; "{number}")?.as_bytes())?;
    answers.put_yes("recodes", steps.reencodes())?;
    Ok(())
}

/// Puts the answers to a `do: steps` row.
pub fn answer_parsed(alloc: Global, given: &Given<'_>, answers: &mut Answers) -> Result<()> {
    given.allow(&["words"])?;
    let words = words_of(alloc, given.text("words")?)?;
    match Steps::parse(&words) {
        Ok(steps) => put_steps(alloc, &steps, answers),
        Err(fault) => {
            answers.put("fault", format!(in alloc; "{fault}")?.as_bytes())?;
            let place = fault.place;
            answers.put("place", format!(in alloc; "{place}")?.as_bytes())?;
            Ok(())
        }
    }
}
