//! `do: report` reports pairs, which are given as in a `do: tally` row, with `counts` (five
//! numbers, in the order of a summary) and `version`. With a line `interleaved`, that is the name
//! of the one input, there is no log, and names are not compared. `fault` is the reported fault.
//! Answer: `report`.

use crate::answers::Answers;
use crate::mates::counts_of;
use crate::row::Given;
use crate::tallies::tally_in;
use crate::{encoding_in, words_of};
use anyhow::Result;
use fq_pair::Inputs;
use fq_report::{Report, report_text};
use std::alloc::Global;
use std::str;

// The text of a report.
fn text_of(alloc: Global, report: &Report<'_>) -> Result<String> {
    Ok(report_text(alloc, report)?)
}

/// Puts the answers to a `do: report` row.
pub fn answer(alloc: Global, given: &Given<'_>, answers: &mut Answers) -> Result<()> {
    given.allow(&[
        "steps",
        "encoding",
        "pair",
        "other pair",
        "counts",
        "version",
        "interleaved",
        "fault",
    ])?;
    let tally = tally_in(alloc, given)?;
    let steps = words_of(alloc, given.text("steps")?)?;
    let interleaved = given.find("interleaved");
    let inputs = match interleaved {
        Some(name) => Inputs::Interleaved(str::from_utf8(name)?),
        None => Inputs::Apart {
            forward: "r1.fq",
            reverse: "r2.fq",
        },
    };
    let fault = match given.find("fault") {
        Some(line) => Some(str::from_utf8(line)?),
        None => None,
    };
    let text = text_of(
        alloc,
        &Report {
            program: "fq_prog",
            version: given.text("version")?,
            inputs,
            forward_paired: "fp.fq",
            forward_unpaired: "fu.fq",
            reverse_paired: "rp.fq",
            reverse_unpaired: "ru.fq",
            log: if interleaved.is_some() {
                None
            } else {
                Some("trim.log")
            },
            encoding: encoding_in(given)?,
            check_names: interleaved.is_none(),
            steps: &steps,
            fault,
            counts: counts_of(alloc, given.text("counts")?)?,
            tally: &tally,
        },
    )?;
    answers.put("report", text.as_bytes())?;
    Ok(())
}
