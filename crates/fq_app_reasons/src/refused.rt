//! Why a request was refused.

ghost use Rattle.std.specs.Prelude.{◌≡◌, ◌++◌, IfOk, codes, decimal};
ghost use Rattle.std.specs.Option.{option_map};
ghost use Rattle.std.specs.String.{string_bytes};
ghost use Rattle.fq_app_words.specs.Requests.{asking_of};
ghost use Rattle.fq_app_reasons.specs.Refused.{step_word, step_name, step_names, numbers_of, example_of, is_like_file, too_many_files, must_have, step_reason, range_words, setting_reason, role_of, refusal_reason};

use crate::causes::{source_reason, target_reason};
use fq_app_files::Refusal;
use fq_app_words::Request;
use fq_pair::Out;
use fq_run_core::{BadSetting, MOST_BYTES, MOST_DEPTH, MOST_PAIRS, MOST_WORKERS};
use fq_text::OutOfMemory;
use fq_trim::{MAX_STEPS, StepFault, StepFaultKind};
use std::alloc::Global;

/// The names of steps, as a reason lists them.
pub(crate) const STEP_NAMES: &str =
    "LEADING, TRAILING, SLIDINGWINDOW, CROP, HEADCROP, AVGQUAL, MINLEN, TOPHRED33";

/// Why the request was refused.
pub(crate) fn refusal_reason(
    alloc: Global,
    request: &Request<'_>,
    refusal: Refusal,
) -> Result<Option<String>, OutOfMemory>
    ensures { IfOk result (λ reason. option_map string_bytes reason
        ≡ refusal_reason (asking_of request.now) refusal) }
{
    match refusal {
        Refusal::Encoding => {
            let words = "it can be sanger (Phred+33), illumina13 (Phred+64) or solexa";
            Ok(Some(String::from_str(alloc, words)?))
        }
        Refusal::Step(fault) => Ok(Some(step_fault_reason(alloc, request, fault)?)),
        Refusal::Setting(bad) => setting_reason(alloc, request, bad),
        Refusal::SameName(out) => Ok(Some(same_reason(alloc, role_of(out))?)),
        Refusal::Source(_, cause) => Ok(Some(source_reason(alloc, cause)?)),
        Refusal::SameReport => {
            Ok(Some(String::from_str(alloc, "it is an input and the report")?))
        }
        Refusal::Target(_, cause) | Refusal::Report(cause) => {
            Ok(Some(target_reason(alloc, request.inputs, cause)?))
        }
        Refusal::Memory(_) => {
            Ok(Some(String::from_str(alloc, "it was refused before a pair was trimmed")?))
        }
    }
}

// Why an output must not be an input.
fn same_reason(alloc: Global, role: &str) -> Result<String, OutOfMemory>
    ensures { IfOk result (λ text. string_bytes text ≡ codes "it is an input and " ++ role.now) }
{
    format!(in alloc; "it is an input and {role}")
}

// What an output is for.
fn role_of(out: Out) -> &'static str
    ensures { result.now ≡ role_of out }
{
    match out {
        Out::ForwardPaired => "the output of forward paired reads",
        Out::ForwardUnpaired => "the output of forward unpaired reads",
        Out::ReversePaired => "the output of reverse paired reads",
        Out::ReverseUnpaired => "the output of reverse unpaired reads",
        Out::Log => "the trim log",
    }
}

// The option that is out of its range, and the range. No option changes the last two settings.
fn setting_reason(
    alloc: Global,
    request: &Request<'_>,
    bad: BadSetting,
) -> Result<Option<String>, OutOfMemory>
    ensures { IfOk result (λ reason. option_map string_bytes reason
        ≡ setting_reason (asking_of request.now) bad) }
{
    let reason = match bad {
        BadSetting::Workers => range_words(alloc, "threads", request.threads, MOST_WORKERS)?,
        BadSetting::BlockPairs => range_words(alloc, "block", request.block, MOST_PAIRS)?,
        BadSetting::Depth => range_words(alloc, "depth", request.depth, MOST_DEPTH)?,
        BadSetting::Chunk => range_words(alloc, "chunk", request.chunk, MOST_BYTES)?,
        BadSetting::MaxReads | BadSetting::GateTurns => return Ok(None),
    };
    Ok(Some(reason))
}

// The value of an option, and its range.
fn range_words(alloc: Global, option: &str, value: u64, most: u64) -> Result<String, OutOfMemory>
    ensures { IfOk result (λ text. string_bytes text ≡ range_words option.now value most) }
{
    format!(in alloc; "--{option} is {value}, and can be 1 to {most}")
}

// What is wrong with the arguments of the steps.
fn step_fault_reason(
    alloc: Global,
    request: &Request<'_>,
    fault: StepFault,
) -> Result<String, OutOfMemory>
    ensures { IfOk result (λ text. string_bytes text ≡ step_reason (asking_of request.now)
        fault.kind (step_word (asking_of request.now) fault.place)) }
{
    let word = step_word(request, fault.place);
    step_reason(alloc, request, fault.kind, word)
}

// The argument for the step with this number, counted from 1. It is empty if there is none.
fn step_word<'a>(request: &Request<'a>, place: usize) -> &'a str
    ensures { result.now ≡ step_word (asking_of request.now) place }
{
    match request.steps.get(place.saturating_sub(1)) {
        Some(word) => word,
        None => "",
    }
}

// What is wrong with this argument, or with the number of arguments.
fn step_reason(
    alloc: Global,
    request: &Request<'_>,
    kind: StepFaultKind,
    word: &str,
) -> Result<String, OutOfMemory>
    ensures { IfOk result (λ text. string_bytes text
        ≡ step_reason (asking_of request.now) kind word.now) }
{
    match kind {
        StepFaultKind::NoSteps => String::from_str(
            alloc,
            "the files must be followed by one step or more, as MINLEN:36",
        ),
        StepFaultKind::TooMany => many_words(alloc, request.steps.len(), MAX_STEPS),
        StepFaultKind::Unknown => unknown_words(alloc, word),
        StepFaultKind::WrongCount => must_have(alloc, word, numbers_of(step_name(word))),
        StepFaultKind::BadNumber => must_have(alloc, word, "numbers of 1 to 9 digits"),
        StepFaultKind::OutOfRange => must_have(alloc, word, "a window of 1 base or more"),
    }
}

// How many steps there are, and can be.
fn many_words(alloc: Global, count: usize, most: usize) -> Result<String, OutOfMemory>
    ensures { IfOk result (λ text. string_bytes text
        ≡ codes "there are " ++ decimal count ++ codes " steps, and there can be 1 to "
        ++ decimal most) }
{
    format!(in alloc; "there are {count} steps, and there can be 1 to {most}")
}

// That the argument names no step, and whether it may be the name of a file.
fn unknown_words(alloc: Global, word: &str) -> Result<String, OutOfMemory>
    ensures { IfOk result (λ text. string_bytes text ≡ codes "'" ++ word.now
        ++ codes "' is no step (" ++ step_names ++ codes ")"
        ++ too_many_files (is_like_file word.now)) }
{
    no_step(alloc, word, STEP_NAMES, question(word))
}

// That a word is none of these names, and a question about it.
fn no_step(alloc: Global, word: &str, names: &str, more: &str) -> Result<String, OutOfMemory>
    ensures { IfOk result (λ text. string_bytes text ≡ codes "'" ++ word.now
        ++ codes "' is no step (" ++ names.now ++ codes ")" ++ more.now) }
{
    format!(in alloc; "'{word}' is no step ({names}){more}")
}

// What to ask about an argument that names no step.
fn question(word: &str) -> &'static str
    ensures { result.now ≡ too_many_files (is_like_file word.now) }
{
    if is_like_file(word) {
        ". Is there one file name too many?"
    } else {
        ""
    }
}

// What the argument must have, with an example of its step.
fn must_have(alloc: Global, word: &str, what: &str) -> Result<String, OutOfMemory>
    ensures { IfOk result (λ text. string_bytes text ≡ must_have word.now what.now) }
{
    let name = step_name(word);
    as_example(alloc, word, what, example_of(name))
}

// What a word must have, with an example.
fn as_example(alloc: Global, word: &str, what: &str, example: &str) -> Result<String, OutOfMemory>
    ensures { IfOk result (λ text. string_bytes text ≡ codes "'" ++ word.now
        ++ codes "' must have " ++ what.now ++ codes ", as " ++ example.now) }
{
    format!(in alloc; "'{word}' must have {what}, as {example}")
}

// Whether the argument has a slash, or ends as the names of FASTQ files do.
fn is_like_file(word: &str) -> bool
    ensures { result ≡ is_like_file word.now }
{
    let bytes = word.as_bytes();
    bytes.contains(&b'/')
        || bytes.ends_with(b".fq")
        || bytes.ends_with(b".fastq")
        || bytes.ends_with(b".gz")
}

// The name of a step: its argument up to the first colon.
fn step_name(word: &str) -> &str
    ensures { result.now ≡ step_name word.now }
{
    match word.split_once(':') {
        Some((name, _)) => name,
        None => word,
    }
}

// How many numbers the step with this name takes.
fn numbers_of(name: &str) -> &'static str
    ensures { result.now ≡ numbers_of name.now }
{
    match name {
        "SLIDINGWINDOW" => "two numbers",
        "TOPHRED33" => "no number",
        _ => "one number",
    }
}

// An example of the step with this name.
fn example_of(name: &str) -> &'static str
    ensures { result.now ≡ example_of name.now }
{
    match name {
        "LEADING" => "LEADING:3",
        "TRAILING" => "TRAILING:3",
        "CROP" => "CROP:100",
        "HEADCROP" => "HEADCROP:10",
        "SLIDINGWINDOW" => "SLIDINGWINDOW:4:15",
        "AVGQUAL" => "AVGQUAL:20",
        "MINLEN" => "MINLEN:36",
        _ => "TOPHRED33",
    }
}
