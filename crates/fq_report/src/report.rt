//! The report of a run.

ghost use Rattle.std.specs.Prelude.{◌≡◌, IfOk, option_map};
ghost use Rattle.std.specs.String.{string_bytes};
ghost use Rattle.serde_json.specs.View.{view};
ghost use Rattle.fq_report.specs.Values.{optional_text};
ghost use Rattle.fq_pair.specs.Inputs.{names_of};
ghost use Rattle.fq_report.specs.Facts.{facts_of};
ghost use Rattle.fq_report.specs.Reports.{command_of, outcome_of};
ghost use Rattle.fq_report.specs.Reports.{inputs_value, outputs_value, report_value, text_of};
ghost use Rattle.fq_report.specs.Parts.{ArePartsOf};

use crate::counted::{pairs_value, sides_value, steps_value};
use fq_pair::{Counts, Inputs};
use fq_report_pairs::Tally;
use fq_text::{Encoding, OutOfMemory};
use serde_json::{Value, json};
use std::alloc::Global;

/// The facts of a run that reached the end of its inputs, or a fault of its inputs.
#[derive(Clone, Copy)]
pub struct Report<'a> {
    /// The name of the program.
    pub program: &'a str,
    /// Its version.
    pub version: &'a str,
    /// The names of the inputs.
    pub inputs: Inputs<'a>,
    /// The name of the output of forward reads whose mate also survives.
    pub forward_paired: &'a str,
    /// The name of the output of forward reads whose mate is dropped.
    pub forward_unpaired: &'a str,
    /// The name of the output of reverse reads whose mate also survives.
    pub reverse_paired: &'a str,
    /// The name of the output of reverse reads whose mate is dropped.
    pub reverse_unpaired: &'a str,
    /// The name of the trim log, if one was asked for.
    pub log: Option<&'a str>,
    /// The encoding of the inputs.
    pub encoding: Encoding,
    /// Whether the names of mates had to match.
    pub check_names: bool,
    /// The arguments that name the steps, such as `LEADING:3`, in their order.
    pub steps: &'a [&'a str],
    /// The line that standard error got for a fault of the inputs, without its line end. `None` if
    /// all pairs were trimmed.
    pub fault: Option<&'a str>,
    /// What became of the pairs.
    pub counts: Counts,
    /// The counts of their reads. Step n there is step n of `steps`.
    pub tally: &'a Tally,
}

/// The text of a report: one line of JSON, with its line feed. Memory may be refused.
pub fn report_text(alloc: Global, report: &Report<'_>) -> Result<String, OutOfMemory>
    ensures { IfOk result (λ text. string_bytes text ≡ text_of (facts_of report.now)) }
{
    let value = report_value(alloc, report)?;
    let mut text = value.to_string(alloc)?;
    text.push_str("\n")?;
    Ok(text)
}

// The values of a report that are built from others.
#[derive(Drop)]
struct Parts {
    inputs: Value,
    outputs: Value,
    fault: Value,
    pairs: Value,
    reads: Value,
    steps: Value,
}

// Builds the parts of a report.
fn parts_of(alloc: Global, report: &Report<'_>) -> Result<Parts, OutOfMemory>
    ensures { IfOk result (λ parts. ArePartsOf (facts_of report.now) parts) }
{
    let inputs = inputs_value(alloc, report.inputs)?;
    let outputs = outputs_value(alloc, report)?;
    let fault = optional_text(alloc, report.fault)?;
    let pairs = pairs_value(alloc, &report.counts)?;
    let reads = sides_value(alloc, report.tally)?;
    let steps = steps_value(alloc, report.steps, report.tally)?;
    Ok(Parts {
        inputs,
        outputs,
        fault,
        pairs,
        reads,
        steps,
    })
}

// The whole report.
#[tactic(auto, unfolding(crate::specs::Reports::report_value))]
fn report_value(alloc: Global, report: &Report<'_>) -> Result<Value, OutOfMemory>
    ensures { IfOk result (λ v. view v ≡ report_value (facts_of report.now)) }
{
    let parts = parts_of(alloc, report)?;
    json!(in alloc; {
        "schema": 2u64,
        "program": report.program,
        "version": report.version,
        "command": command_of(report.inputs),
        "inputs": parts.inputs,
        "outputs": parts.outputs,
        "encoding": report.encoding.name(),
        "name_check": report.check_names,
        "outcome": outcome_of(report.fault),
        "fault": parts.fault,
        "pairs": parts.pairs,
        "reads": parts.reads,
        "steps": parts.steps,
    })
}

// The command that takes these inputs.
fn command_of(inputs: Inputs<'_>) -> &'static str
    ensures { result.now ≡ command_of (names_of inputs.entry).form }
{
    match inputs {
        Inputs::Apart { .. } => "PE",
        Inputs::Interleaved(_) => "IL",
    }
}

// How the run ended.
fn outcome_of(fault: Option<&str>) -> &'static str
    ensures { result.now ≡ outcome_of (option_map (λ line. line.now) fault.entry) }
{
    match fault {
        Some(_) => "fault",
        None => "finished",
    }
}

// The names of the inputs.
#[tactic(auto, unfolding(crate::specs::Reports::inputs_value))]
fn inputs_value(alloc: Global, inputs: Inputs<'_>) -> Result<Value, OutOfMemory>
    ensures { IfOk result (λ v. view v
        ≡ inputs_value (names_of inputs.entry) (names_of inputs.entry).form) }
{
    match inputs {
        Inputs::Apart { forward, reverse } => {
            json!(in alloc; {"forward": forward, "reverse": reverse})
        }
        Inputs::Interleaved(both) => json!(in alloc; {"interleaved": both}),
    }
}

// The names of the outputs.
#[tactic(auto, unfolding(crate::specs::Reports::outputs_value))]
fn outputs_value(alloc: Global, report: &Report<'_>) -> Result<Value, OutOfMemory>
    ensures { IfOk result (λ v. view v ≡ outputs_value (facts_of report.now)) }
{
    json!(in alloc; {
        "forward_paired": report.forward_paired,
        "forward_unpaired": report.forward_unpaired,
        "reverse_paired": report.reverse_paired,
        "reverse_unpaired": report.reverse_unpaired,
        "trim_log": optional_text(alloc, report.log)?,
    })
}

// A text, if there is one.
fn optional_text(alloc: Global, text: Option<&str>) -> Result<Value, OutOfMemory>
    ensures { IfOk result (λ v. view v
        ≡ optional_text (option_map (λ bytes. bytes.now) text.entry)) }
{
    match text {
        Some(text) => Value::try_from_str(alloc, text),
        None => Ok(Value::Null),
    }
}
