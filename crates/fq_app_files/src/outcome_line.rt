//! The exit status and the line on standard error for each outcome of a run.

ghost use Rattle.std.specs.Prelude.{◌≡◌, ◌++◌, OnOk, OnErr, IfOk, codes, decimal};
ghost use Rattle.std.specs.String.{string_bytes};
ghost use Rattle.fq_text.specs.Written.{line};
ghost use Rattle.fq_app_files.specs.Faults.{settled, outcome_status, at_record, line_when, outcome_line};

use fq_pair::{InputFault, Side};
use fq_run_core::{Outcome, end_outcome};
use fq_text::OutOfMemory;
use std::alloc::Global;

/// The line for running out of memory, anywhere in the program, with its line end.
pub const MEMORY_LINE: &str = "out of memory\n";

/// The line for a lane that was not confirmed, with its line end.
pub const LANE_LINE: &str = "lane not confirmed\n";

/// The outcome to report: a text that could not be read to its end is a failed read, an endless
/// input or memory that was refused, and not a fault of the text.
pub fn settled(outcome: Outcome) -> Outcome
    ensures { result ≡ settled outcome }
{
    match outcome {
        Outcome::Input(fault) => end_outcome(Some(fault)),
        _ => outcome,
    }
}

/// Returns the exit status of a run with this outcome.
///
/// 0 if all pairs were written, 3 for a fault in the input, 4 if a device failed or an input
/// doesn't end, 5 if memory was refused, and 6 if threads failed. A text that could not be read to
/// its end counts as the failed read, the endless input or the refused memory that stopped it.
/// `status_of` allocates nothing.
pub fn status_of(outcome: Outcome) -> u8
    ensures { result ≡ outcome_status outcome }
{
    match settled(outcome) {
        Outcome::Finished => 0,
        Outcome::Input(_) => 3,
        Outcome::Write(_) | Outcome::Read(_) | Outcome::Endless(_) => 4,
        Outcome::Memory => 5,
        Outcome::Spawn | Outcome::Lane | Outcome::Gate => 6,
    }
}

/// Appends the line for this outcome and its line end, such as
/// `input: reverse record 6: MateMissing`. It appends nothing if the run finished.
///
/// If memory is refused, `text` is unchanged.
pub fn fault_line(alloc: Global, text: &mut String, outcome: Outcome) -> Result<(), OutOfMemory>
    ensures ok { OnOk result (string_bytes text.new
        ≡ string_bytes text.old ++ outcome_line outcome) }
    ensures err { OnErr result (string_bytes text.new ≡ string_bytes text.old) }
{
    let line = made_line(alloc, settled(outcome))?;
    text.push_str(line.as_str())
}

// The line of an outcome that `settled` has returned.
fn made_line(alloc: Global, outcome: Outcome) -> Result<String, OutOfMemory>
    ensures { IfOk result (λ line. string_bytes line ≡ line_when outcome) }
{
    match outcome {
        Outcome::Spawn => String::from_str(alloc, "cannot start a thread\n"),
        Outcome::Lane => String::from_str(alloc, LANE_LINE),
        Outcome::Gate => String::from_str(alloc, "gate closed\n"),
        Outcome::Memory => String::from_str(alloc, MEMORY_LINE),
        Outcome::Write(out) => format!(in alloc; "write failed: {out}\n"),
        Outcome::Read(side) => format!(in alloc; "read failed: {side}\n"),
        Outcome::Endless(side) => format!(in alloc; "endless input: {side}\n"),
        Outcome::Input(fault) => input_line(alloc, fault),
        Outcome::Finished => Ok(String::new(alloc)),
    }
}

// The line of a fault in the input.
fn input_line(alloc: Global, fault: InputFault) -> Result<String, OutOfMemory>
    ensures { IfOk result (λ line. string_bytes line ≡ line_when (Outcome.Input fault)) }
{
    match fault {
        InputFault::Text(side, fault) => {
            let k = fault.record().unwrap_or(0);
            record_line(alloc, side, k, fault.name())
        }
        InputFault::MateMissing(side, k) => record_line(alloc, side, k, "MateMissing"),
        InputFault::NamesDiffer(k) => names_line(alloc, k),
    }
}

// The line for names that differ.
fn names_line(alloc: Global, k: u64) -> Result<String, OutOfMemory>
    ensures { IfOk result (λ text. string_bytes text
        ≡ line (codes "input: record " ++ decimal k ++ codes ": NamesDiffer")) }
{
    format!(in alloc; "input: record {k}: NamesDiffer\n")
}

// The line of a fault in one side's record.
fn record_line(alloc: Global, side: Side, k: u64, kind: &str) -> Result<String, OutOfMemory>
    ensures { IfOk result (λ text. string_bytes text ≡ line (at_record side k kind.now)) }
{
    format!(in alloc; "input: {side} record {k}: {kind}\n")
}
