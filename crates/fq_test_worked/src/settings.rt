//! `do: settings` makes settings with six numbers: `workers`, `block`, `depth`, `chunk`,
//! `max reads` and `gate turns`. Answer: `bad`, the first of them that is out of range.

use crate::answers::Answers;
use crate::row::Given;
use anyhow::Result;
use fq_run_core::{BadSetting, Settings};
use fq_text::Encoding;
use fq_trim::Steps;
use std::alloc::Global;

// Returns the first of the numbers that is out of range.
fn bad(given: &Given<'_>) -> Result<Option<BadSetting>> {
    let steps = Steps::parse(&["LEADING:3"])?;
    Ok(Settings::new(
        Encoding::Sanger,
        steps,
        true,
        given.number("workers", 0)?,
        given.number("block", 0)?,
        given.number("depth", 0)?,
        given.number("chunk", 0)?,
        given.number("max reads", 0)?,
        given.number("gate turns", 0)?,
    )
    .err())
}

/// Puts the answers to a `do: settings` row.
pub fn answer(alloc: Global, given: &Given<'_>, answers: &mut Answers) -> Result<()> {
    given.allow(&[
        "workers",
        "block",
        "depth",
        "chunk",
        "max reads",
        "gate turns",
    ])?;
    let bad = bad(given)?;
    answers.put("bad", format!(in alloc; "{bad:?}")?.as_bytes())?;
    Ok(())
}
