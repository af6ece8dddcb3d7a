//! Why a run ended before all pairs were trimmed.

ghost use Rattle.std.specs.Prelude.{◌≡◌, ◌<◌, ◌++◌, ℕ, IfOk, Some, codes, decimal};
ghost use Rattle.std.specs.Option.{option_map};
ghost use Rattle.std.specs.String.{string_bytes};
ghost use Rattle.fq_app_words.specs.Requests.{asking_of, names_of};
ghost use Rattle.fq_app_reasons.specs.Ended.{file_reason, written_reason, record_reason, missing_reason, names_reason, unmatched_reason, differ_reason, shown_name, shown_byte, whole_name, cut_name, quoted_name, title_reason, title_line, sequence_reason, look_words, input_reason, spawn_reason, ending_reason};

use crate::causes::device_words;
use fq_app_files::EndingSeen;
use fq_app_words::{Inputs, Request};
use fq_pair::{InputFault, Side, UnmatchedNames};
use fq_run_core::{CALL_LIMIT, Outcome};
use fq_text::{Look, OutOfMemory, SystemError, TextFault};
use std::alloc::Global;

/// What was known when memory was refused in a run.
pub(crate) const MEMORY_REASON: &str =
    "it was refused while pairs were trimmed; smaller --threads, --block or --depth take less";

/// What is known of a read that failed, if the system gives no error.
pub(crate) const NOT_READ: &str = "it could not be read to its end";

/// The most bytes of a name that a reason shows.
pub(crate) const NAME_BYTES: usize = 100;

/// Why the run ended so. `seen` is what can be said of the outcome.
pub(crate) fn ending_reason(
    alloc: Global,
    request: &Request<'_>,
    seen: &EndingSeen,
    outcome: Outcome,
) -> Result<Option<String>, OutOfMemory>
    ensures { IfOk result (λ reason. option_map string_bytes reason
        ≡ ending_reason (asking_of request.now) seen.now outcome) }
{
    match outcome {
        Outcome::Write(out) => {
            let name = request.output_name(out).unwrap_or("");
            Ok(Some(written_reason(alloc, name, seen.error)?))
        }
        Outcome::Read(side) => {
            let words = device_words(alloc, seen.error, NOT_READ)?;
            Ok(Some(file_reason(alloc, request.input_name(side), words.as_str())?))
        }
        Outcome::Endless(side) => {
            let words = endless_words(alloc)?;
            Ok(Some(file_reason(alloc, request.input_name(side), words.as_str())?))
        }
        Outcome::Input(fault) => Ok(Some(input_reason(alloc, request, seen, fault)?)),
        Outcome::Spawn => Ok(Some(spawn_reason(alloc, request.threads)?)),
        Outcome::Memory => Ok(Some(String::from_str(alloc, MEMORY_REASON)?)),
        Outcome::Lane => Ok(Some(String::from_str(alloc, "the outputs may lack pairs")?)),
        Outcome::Gate | Outcome::Finished => Ok(None),
    }
}

// How often an input was read that has not ended.
fn endless_words(alloc: Global) -> Result<String, OutOfMemory>
    ensures { IfOk result (λ text. string_bytes text
        ≡ codes "it has not ended after " ++ decimal CALL_LIMIT ++ codes " read calls") }
{
    format!(in alloc; "it has not ended after {CALL_LIMIT} read calls")
}

// The threads that a run starts.
fn spawn_reason(alloc: Global, threads: u64) -> Result<String, OutOfMemory>
    ensures { IfOk result (λ text. string_bytes text ≡ spawn_reason threads) }
{
    format!(in alloc; "--threads is {threads}, and one more thread reads")
}

/// Why a file was not written.
pub(crate) fn written_reason(
    alloc: Global,
    name: &str,
    error: Option<SystemError>,
) -> Result<String, OutOfMemory>
    ensures { IfOk result (λ text. string_bytes text ≡ written_reason name.now error) }
{
    let words = device_words(alloc, error, "not all of it could be written")?;
    file_reason(alloc, name, words.as_str())
}

// What is wrong with a file.
fn file_reason(alloc: Global, name: &str, words: &str) -> Result<String, OutOfMemory>
    ensures { IfOk result (λ text. string_bytes text ≡ file_reason name.now words.now) }
{
    format!(in alloc; "{name}: {words}")
}

// What is wrong with the inputs.
fn input_reason(
    alloc: Global,
    request: &Request<'_>,
    seen: &EndingSeen,
    fault: InputFault,
) -> Result<String, OutOfMemory>
    ensures { IfOk result (λ text. string_bytes text
        ≡ input_reason (asking_of request.now) seen.now fault) }
{
    match fault {
        InputFault::Text(side, fault) => {
            let words = record_reason(alloc, request.encoding, seen.look, fault)?;
            file_reason(alloc, request.input_name(side), words.as_str())
        }
        InputFault::MateMissing(side, _) => missing_reason(alloc, request.inputs, side),
        InputFault::NamesDiffer(_) => match &seen.unmatched {
            Some(names) => differ_reason(alloc, request.inputs, names),
            None => names_reason(alloc, request.inputs),
        },
    }
}

// What is wrong with a record of a FASTQ file whose qualities have this encoding, and whose first
// bytes look so.
fn record_reason(
    alloc: Global,
    encoding: &str,
    look: Look,
    fault: TextFault,
) -> Result<String, OutOfMemory>
    ensures { IfOk result (λ text. string_bytes text ≡ record_reason encoding.now look fault) }
{
    let words = match fault {
        TextFault::BadQuality(_) => return quality_reason(alloc, encoding),
        TextFault::NoTitle(k) => return title_reason(alloc, look_words(k, look)),
        TextFault::BadSequence(k) => return sequence_reason(alloc, title_line(k)),
        TextFault::NoPlus(_) => "the file ends before the line that begins with +",
        TextFault::PlusDiffers(_) => "the line that begins with + holds another title",
        TextFault::QualityLong(_) => "the quality is longer than the sequence",
        TextFault::QualityShort(_) => {
            "the file ends before the quality is as long as the sequence"
        }
        TextFault::TooLong(_) => "a line or the sequence has more than 1048576 bytes",
        TextFault::Read => NOT_READ,
        TextFault::Endless => "it does not end",
        TextFault::OutOfMemory => "memory was refused",
    };
    String::from_str(alloc, words)
}

// That a record does not begin as it must, and what the file looks like.
fn title_reason(alloc: Global, look: &str) -> Result<String, OutOfMemory>
    ensures { IfOk result (λ text. string_bytes text ≡ title_reason look.now) }
{
    format!(in alloc; "the record does not begin with @{look}")
}

// What a file looks like whose first record does not begin as it must.
fn look_words(k: u64, look: Look) -> &'static str
    ensures { result.now ≡ look_words k look }
{
    match (k, look) {
        (1, Look::Gzip) => ". The file looks compressed, by gzip or as BAM",
        (1, Look::Bam) => ". The file looks like BAM",
        (1, Look::Fasta) => ". The file looks like FASTA",
        _ => "",
    }
}

// What is wrong with a sequence line. It is that of the record whose title is at this line, if each
// record has four lines.
fn sequence_reason(alloc: Global, line: u64) -> Result<String, OutOfMemory>
    ensures { (k : ℕ) → line ≡ title_line k
        → IfOk result (λ text. string_bytes text ≡ sequence_reason k) }
{
    format!(in alloc;
        "a sequence line begins with @ (is a + line missing?), or holds a space or an unprintable \
         byte; if records have four lines, this one begins at line {line}"
    )
}

// The line of the title of record `k`, if each record before has four lines.
fn title_line(k: u64) -> u64
    ensures { result ≡ title_line k }
{
    k.saturating_mul(4).saturating_sub(3)
}

// What is wrong with a quality byte.
fn quality_reason(alloc: Global, encoding: &str) -> Result<String, OutOfMemory>
    ensures { IfOk result (λ text. string_bytes text
        ≡ codes "a quality byte has no score in the encoding " ++ encoding.now
        ++ codes " (see --encoding)") }
{
    format!(in alloc; "a quality byte has no score in the encoding {encoding} (see --encoding)")
}

// Which file ends too early.
fn missing_reason(alloc: Global, inputs: Inputs<'_>, side: Side) -> Result<String, OutOfMemory>
    ensures { IfOk result (λ text. string_bytes text
        ≡ missing_reason (names_of inputs.entry) (names_of inputs.entry).form side) }
{
    match (inputs, side) {
        (Inputs::Apart { forward, reverse }, Side::Forward) => ends_first(alloc, forward, reverse),
        (Inputs::Apart { forward, reverse }, Side::Reverse) => ends_first(alloc, reverse, forward),
        (Inputs::Interleaved(both), _) => {
            file_reason(alloc, both, "the file ends after a forward read")
        }
    }
}

// That one file ends before another.
fn ends_first(alloc: Global, short: &str, long: &str) -> Result<String, OutOfMemory>
    ensures { IfOk result (λ text. string_bytes text ≡ short.now
        ++ codes ": the file ends before this record, and " ++ long.now ++ codes " has it") }
{
    format!(in alloc; "{short}: the file ends before this record, and {long} has it")
}

// That names differ. Names that are the same are never shown.
fn differ_reason(
    alloc: Global,
    inputs: Inputs<'_>,
    names: &UnmatchedNames,
) -> Result<String, OutOfMemory>
    ensures { IfOk result (λ text. string_bytes text
        ≡ differ_reason (names_of inputs.entry) (Some names.now)) }
{
    if names.forward() == names.reverse() {
        return names_reason(alloc, inputs);
    }
    unmatched_reason(alloc, inputs, names)
}

// Which names the mates have.
fn unmatched_reason(
    alloc: Global,
    inputs: Inputs<'_>,
    names: &UnmatchedNames,
) -> Result<String, OutOfMemory>
    ensures { IfOk result (λ text. string_bytes text
        ≡ unmatched_reason (names_of inputs.entry) (names_of inputs.entry).form names.now) }
{
    let first = quoted_name(alloc, names.forward())?;
    let second = quoted_name(alloc, names.reverse())?;
    match inputs {
        Inputs::Apart { forward, reverse } => {
            names_apart(alloc, forward, first.as_str(), reverse, second.as_str())
        }
        Inputs::Interleaved(both) => names_together(alloc, both, first.as_str(), second.as_str()),
    }
}

// The names of two mates in two files.
fn names_apart(
    alloc: Global,
    forward: &str,
    first: &str,
    reverse: &str,
    second: &str,
) -> Result<String, OutOfMemory>
    ensures { IfOk result (λ text. string_bytes text
        ≡ forward.now ++ codes " has " ++ first.now ++ codes " and " ++ reverse.now
        ++ codes " has " ++ second.now ++ codes " (see --no-name-check)") }
{
    format!(in alloc; "{forward} has {first} and {reverse} has {second} (see --no-name-check)")
}

// The names of two mates in one file.
fn names_together(
    alloc: Global,
    both: &str,
    first: &str,
    second: &str,
) -> Result<String, OutOfMemory>
    ensures { IfOk result (λ text. string_bytes text
        ≡ both.now ++ codes ": the pair has the names " ++ first.now ++ codes " and "
        ++ second.now ++ codes " (see --no-name-check)") }
{
    format!(in alloc; "{both}: the pair has the names {first} and {second} (see --no-name-check)")
}

// The first bytes of a name in quotes, and whether it has more, since two names may differ only
// after these.
fn quoted_name(alloc: Global, name: &[u8]) -> Result<String, OutOfMemory>
    ensures { IfOk result (λ text. string_bytes text ≡ quoted_name name.now) }
{
    let shown = shown_name(alloc, name)?;
    if name.len() > NAME_BYTES {
        return cut_name(alloc, shown.as_str(), NAME_BYTES, name.len());
    }
    whole_name(alloc, shown.as_str())
}

// The first bytes of a name that has more, in quotes.
fn cut_name(alloc: Global, shown: &str, count: usize, bytes: usize) -> Result<String, OutOfMemory>
    ensures { IfOk result (λ text. string_bytes text ≡ cut_name shown.now count bytes) }
{
    format!(in alloc; "'{shown}' ({count} of {bytes} bytes)")
}

// A name that is shown whole, in quotes.
fn whole_name(alloc: Global, shown: &str) -> Result<String, OutOfMemory>
    ensures { IfOk result (λ text. string_bytes text ≡ whole_name shown.now) }
{
    format!(in alloc; "'{shown}'")
}

// The first bytes of a name. A name comes from a file, so it may be long, and may have bytes that
// don't print.
fn shown_name(alloc: Global, name: &[u8]) -> Result<String, OutOfMemory>
    ensures { IfOk result (λ text. string_bytes text ≡ shown_name name.now) }
{
    let front = &name[..name.len().min(NAME_BYTES)];
    let mut text = String::new(alloc);
    for byte in front.iter() {
        text.push(shown_byte(*byte))?;
    }
    Ok(text)
}

// A byte of a name, or a question mark if it doesn't print.
fn shown_byte(byte: u8) -> char
    ensures value { result ≡ shown_byte byte }
    ensures ascii { result < 128 }
{
    if byte.is_ascii_graphic() {
        char::from(byte)
    } else {
        '?'
    }
}

// Which files don't belong to each other.
fn names_reason(alloc: Global, inputs: Inputs<'_>) -> Result<String, OutOfMemory>
    ensures { IfOk result (λ text. string_bytes text
        ≡ names_reason (names_of inputs.entry) (names_of inputs.entry).form) }
{
    match inputs {
        Inputs::Apart { forward, reverse } => names_differ(alloc, forward, reverse),
        Inputs::Interleaved(both) => file_reason(
            alloc,
            both,
            "the reads of the pair have different names (see --no-name-check)",
        ),
    }
}

// That the reads of two files don't belong to each other.
fn names_differ(alloc: Global, forward: &str, reverse: &str) -> Result<String, OutOfMemory>
    ensures { IfOk result (λ text. string_bytes text
        ≡ codes "the reads of " ++ forward.now ++ codes " and " ++ reverse.now
        ++ codes " have different names (see --no-name-check)") }
{
    format!(in alloc;
        "the reads of {forward} and {reverse} have different names (see --no-name-check)"
    )
}
