//! The exit status and the line on standard error for each refusal.

ghost use Rattle.std.specs.Prelude.{◌≡◌, ◌++◌, [], IfOk, codes, decimal, unwrap_or};
ghost use Rattle.fq_text.specs.Written.{line};
ghost use Rattle.std.specs.String.{string_bytes};
ghost use Rattle.fq_app_words.specs.Requests.{asking_of, output_name};
ghost use Rattle.fq_app_files.specs.Refusals.{status_of, words_of, step_fault_name, setting_name};
ghost use Rattle.fq_app_reasons.specs.Lines.{line_of};

use fq_app_files::{MEMORY_LINE, Refusal};
use fq_app_reasons::explained_refusal;
use fq_app_words::Request;
use fq_pair::Out;
use fq_run::BadSetting;
use fq_text::OutOfMemory;
use fq_trim::StepFaultKind;
use std::alloc::Global;

/// Returns the exit status of a refusal.
pub(crate) fn refusal_status(refusal: Refusal) -> u8
    ensures { result ≡ status_of refusal }
{
    match refusal {
        Refusal::Encoding
        | Refusal::Step(_)
        | Refusal::Setting(_)
        | Refusal::SameName(_)
        | Refusal::SameReport => 2,
        Refusal::Source(..) | Refusal::Target(..) | Refusal::Report(_) => 4,
        Refusal::Memory(_) => 5,
    }
}

/// Returns the line of a refusal of this request, with its line end and, if it is asked for and
/// known, the reason.
pub(crate) fn refusal_line(
    alloc: Global,
    request: &Request<'_>,
    refusal: Refusal,
) -> Result<String, OutOfMemory>
    ensures { IfOk result (λ text. string_bytes text ≡ line_of (asking_of request.now) refusal) }
{
    let line = plain_line(alloc, request, refusal)?;
    explained_refusal(alloc, request, refusal, line)
}

// The line of a refusal without a reason.
fn plain_line(alloc: Global, request: &Request<'_>, refusal: Refusal) -> Result<String, OutOfMemory>
    ensures { IfOk result (λ text. string_bytes text
        ≡ line (words_of (asking_of request.now) refusal)) }
{
    match refusal {
        Refusal::Encoding => {
            let name = request.encoding;
            format!(in alloc; "bad encoding: {name}\n")
        }
        Refusal::Step(fault) => step_line(alloc, fault.place, step_fault_name(fault.kind)),
        Refusal::Setting(bad) => {
            let name = setting_name(bad);
            format!(in alloc; "bad setting: {name}\n")
        }
        Refusal::SameName(out) => same_name_line(alloc, output_name(request, out)),
        Refusal::Source(side, _) => {
            let name = request.input_name(side);
            format!(in alloc; "cannot read {name}\n")
        }
        Refusal::Target(out, _) => unwritten_line(alloc, output_name(request, out)),
        Refusal::SameReport => same_name_line(alloc, report_name(request)),
        Refusal::Report(_) => unwritten_line(alloc, report_name(request)),
        Refusal::Memory(_) => String::from_str(alloc, MEMORY_LINE),
    }
}

// The name of an output. It is empty for a log that is not written, which is never refused.
fn output_name<'a>(request: &'a Request<'a>, out: Out) -> &'a str
    ensures { result.now ≡ unwrap_or (output_name (asking_of request.now) out) [] }
{
    request.output_name(out).unwrap_or("")
}

// The name of the report. It is empty if no report is asked for: then none is refused.
fn report_name<'a>(request: &Request<'a>) -> &'a str
    ensures { result.now ≡ unwrap_or (asking_of request.now).report [] }
{
    request.report.unwrap_or("")
}

// The line for an output or report that has the name of an input.
fn same_name_line(alloc: Global, name: &str) -> Result<String, OutOfMemory>
    ensures { IfOk result (λ text. string_bytes text ≡ line (codes "same name: " ++ name.now)) }
{
    format!(in alloc; "same name: {name}\n")
}

// The line for a file that can't be made.
fn unwritten_line(alloc: Global, name: &str) -> Result<String, OutOfMemory>
    ensures { IfOk result (λ text. string_bytes text ≡ line (codes "cannot write " ++ name.now)) }
{
    format!(in alloc; "cannot write {name}\n")
}

// The line for a fault in the arguments of the steps.
fn step_line(alloc: Global, place: usize, kind: &str) -> Result<String, OutOfMemory>
    ensures { IfOk result (λ text. string_bytes text
        ≡ line (codes "bad step " ++ decimal place ++ codes ": " ++ kind.now)) }
{
    format!(in alloc; "bad step {place}: {kind}\n")
}

// The name of a kind of fault in a step.
fn step_fault_name(kind: StepFaultKind) -> &'static str
    ensures { result.now ≡ step_fault_name kind }
{
    match kind {
        StepFaultKind::NoSteps => "NoSteps",
        StepFaultKind::TooMany => "TooMany",
        StepFaultKind::Unknown => "Unknown",
        StepFaultKind::WrongCount => "WrongCount",
        StepFaultKind::BadNumber => "BadNumber",
        StepFaultKind::OutOfRange => "OutOfRange",
    }
}

// The name of a setting.
fn setting_name(bad: BadSetting) -> &'static str
    ensures { result.now ≡ setting_name bad }
{
    match bad {
        BadSetting::Workers => "workers",
        BadSetting::BlockPairs => "block",
        BadSetting::Depth => "depth",
        BadSetting::Chunk => "chunk",
        BadSetting::MaxReads => "reads",
        BadSetting::GateTurns => "gate",
    }
}
