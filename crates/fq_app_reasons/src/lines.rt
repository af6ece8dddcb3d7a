//! Lines on standard error, with a reason if one is asked for and known.

ghost use Rattle.std.specs.Prelude.{◌≡◌, ◌++◌, ℕ, List, Some, IfOk, codes};
ghost use Rattle.std.specs.String.{string_bytes};
ghost use Rattle.fq_text.specs.Written.{line};
ghost use Rattle.fq_app_words.specs.Requests.{asking_of};
ghost use Rattle.fq_app_files.specs.Refusals.{words_of};
ghost use Rattle.fq_app_reasons.specs.Lines.{line_of, ending_line, report_line, report_memory_line};

use crate::ended::{ending_reason, written_reason};
use crate::refused::refusal_reason;
use fq_app_files::{EndingSeen, LANE_LINE, MEMORY_LINE, Refusal, fault_line, settled, without_end};
use fq_app_words::Request;
use fq_run_core::Outcome;
use fq_text::{OutOfMemory, SystemError};
use std::alloc::Global;

/// The line of a report that could not be written, with its line end and without a reason.
pub const REPORT_LINE: &str = "write failed: report\n";

/// Adds the reason to the line of a refusal of this request, if it is asked for and known.
pub fn explained_refusal(
    alloc: Global,
    request: &Request<'_>,
    refusal: Refusal,
    plain: String,
) -> Result<String, OutOfMemory>
    requires { string_bytes plain ≡ line (words_of (asking_of request.now) refusal) }
    ensures { IfOk result (λ text. string_bytes text ≡ line_of (asking_of request.now) refusal) }
{
    if !request.explain {
        return Ok(plain);
    }
    match refusal_reason(alloc, request, refusal)? {
        Some(reason) => with_reason(alloc, plain.as_str(), reason.as_str()),
        None => Ok(plain),
    }
}

/// The line of an outcome of this request, with its line end and, if it is asked for and known,
/// the reason. It is empty if the run finished. `seen` is what can be said of the outcome.
pub fn ending_line(
    alloc: Global,
    request: &Request<'_>,
    seen: &EndingSeen,
    outcome: Outcome,
) -> Result<String, OutOfMemory>
    ensures { IfOk result (λ text. string_bytes text
        ≡ ending_line (asking_of request.now) seen.now outcome) }
{
    let mut line = String::new(alloc);
    fault_line(alloc, &mut line, outcome)?;
    if !request.explain {
        return Ok(line);
    }
    match ending_reason(alloc, request, seen, settled(outcome))? {
        Some(reason) => with_reason(alloc, line.as_str(), reason.as_str()),
        None => Ok(line),
    }
}

/// The line of a report that could not be written, with its line end and, if it is asked for, the
/// reason.
pub fn report_line(
    alloc: Global,
    request: &Request<'_>,
    error: Option<SystemError>,
) -> Result<String, OutOfMemory>
    ensures { IfOk result (λ text. string_bytes text
        ≡ report_line (asking_of request.now) (Some error)) }
{
    if !request.explain {
        return String::from_str(alloc, REPORT_LINE);
    }
    let reason = written_reason(alloc, request.report.unwrap_or(""), error)?;
    explained(alloc, "write failed: report", reason.as_str())
}

/// The line of a lane that is not confirmed, with its line end and, if it is asked for, the reason.
/// It takes no memory.
pub fn lane_line(request: &Request<'_>) -> &'static str
    ensures { (seen : EndingSeen)
        → result.now ≡ ending_line (asking_of request.now) seen Outcome.Lane }
{
    if request.explain {
        "lane not confirmed: the outputs may lack pairs\n"
    } else {
        LANE_LINE
    }
}

/// The line of a report for which memory was refused, with its line end and, if it is asked for,
/// the reason. It takes no memory.
pub fn report_memory_line(request: &Request<'_>) -> &'static str
    ensures { result.now ≡ report_memory_line (asking_of request.now) }
{
    if request.explain {
        "out of memory: it was refused for the report; the outputs are written\n"
    } else {
        MEMORY_LINE
    }
}

// A line with this reason after its words.
fn with_reason(alloc: Global, text: &str, reason: &str) -> Result<String, OutOfMemory>
    ensures { (words : List ℕ) → text.now ≡ line words → IfOk result
        (λ explained. string_bytes explained ≡ line (words ++ codes ": " ++ reason.now)) }
{
    match without_end(text) {
        Some(words) => explained(alloc, words, reason),
        None => String::from_str(alloc, text),
    }
}

// The line of these words and this reason.
fn explained(alloc: Global, words: &str, reason: &str) -> Result<String, OutOfMemory>
    ensures { IfOk result (λ text. string_bytes text
        ≡ line (words.now ++ codes ": " ++ reason.now)) }
{
    format!(in alloc; "{words}: {reason}\n")
}
