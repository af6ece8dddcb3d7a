//! `do: words` reads the arguments `words`, the first of which is the program's name. Answers:
//! `kind` and `text` of `clap`'s error if the arguments are refused, and otherwise what they ask
//! for: `threads`, `block`, `depth`, `chunk`, `encoding`, `names` (whether they are compared),
//! `sync`, `explain`, `log`, `report`, `steps`, `same name` (the output that has the name of an
//! input) and `report is input`.

use crate::answers::Answers;
use crate::row::Given;
use crate::words_of;
use anyhow::Result;
use fq_app_words::{Asked, Request, read_words, report_is_input, same_name};
use std::alloc::Global;

fn put_request(alloc: Global, answers: &mut Answers, request: &Request<'_>) -> Result<()> {
    for (key, number) in [
        ("threads", request.threads),
        ("block", request.block),
        ("depth", request.depth),
        ("chunk", request.chunk),
    ] {
        answers.put(key, format!(in alloc; "{number}")?.as_bytes())?;
    }
    answers.put("encoding", request.encoding.as_bytes())?;
    answers.put_yes("names", request.check_names)?;
    answers.put_yes("sync", request.sync)?;
    answers.put_yes("explain", request.explain)?;
    answers.put("log", request.log.unwrap_or("none").as_bytes())?;
    answers.put("report", request.report.unwrap_or("none").as_bytes())?;
    let steps = request.steps.as_slice();
    answers.put("steps", format!(in alloc; "{steps:?}")?.as_bytes())?;
    let same = same_name(request);
    answers.put("same name", format!(in alloc; "{same:?}")?.as_bytes())?;
    answers.put_yes("report is input", report_is_input(request))?;
    Ok(())
}

/// Puts the answers to a `do: words` row.
pub fn answer(alloc: Global, given: &Given<'_>, answers: &mut Answers) -> Result<()> {
    given.allow(&["words"])?;
    let words = words_of(alloc, given.text("words")?)?;
    match read_words(alloc, &words) {
        Ok(Asked::Pairs(request)) => put_request(alloc, answers, &request)?,
        Ok(Asked::Example) => answers.put("kind", b"the example")?,
        Err(error) => {
            let kind = error.kind();
            answers.put("kind", format!(in alloc; "{kind:?}")?.as_bytes())?;
            answers.put("text", format!(in alloc; "{error}")?.as_bytes())?;
        }
    }
    Ok(())
}
