//! Counts as values of JSON.

ghost use Rattle.std.specs.Prelude.{◌≡◌, IfOk, map, get_or};
ghost use Rattle.serde_json.specs.View.{view};
ghost use Rattle.fq_report.specs.Values.{list};
ghost use Rattle.fq_report.specs.Reports.{pairs_value, length_value, rows_from};
ghost use Rattle.fq_report.specs.Reports.{counts, positions_value, reads_value};
ghost use Rattle.fq_report.specs.Reports.{removed_value, side_value, sides_value};
ghost use Rattle.fq_report.specs.Reports.{done_value, step_value, steps_from};
ghost use Rattle.fq_report.specs.Parts.{AreReadsParts, AreSideParts};

use fq_pair::Counts;
use fq_report_pairs::{Columns, ReadsTally, Rows, SideTally, StepsTally, Tally};
use fq_text::OutOfMemory;
use serde_json::{Value, json};
use std::alloc::Global;

// How many pairs there were, and what became of them.
#[tactic(auto, unfolding(crate::specs::Reports::pairs_value))]
pub(crate) fn pairs_value(alloc: Global, counts: &Counts) -> Result<Value, OutOfMemory>
    ensures { IfOk result (λ v. view v ≡ pairs_value counts.now) }
{
    json!(in alloc; {
        "input": counts.pairs,
        "both_surviving": counts.both,
        "forward_only_surviving": counts.forward_only,
        "reverse_only_surviving": counts.reverse_only,
        "dropped": counts.dropped,
    })
}

// The reads of both sides.
#[tactic(auto, unfolding(crate::specs::Reports::sides_value))]
pub(crate) fn sides_value(alloc: Global, tally: &Tally) -> Result<Value, OutOfMemory>
    ensures { IfOk result (λ v. view v ≡ sides_value tally.now) }
{
    json!(in alloc; {
        "forward": side_value(alloc, tally.forward.counts())?,
        "reverse": side_value(alloc, tally.reverse.counts())?,
    })
}

// The reads of one side.
#[tactic(auto, unfolding(crate::specs::Reports::side_value))]
fn side_value(alloc: Global, side: &SideTally) -> Result<Value, OutOfMemory>
    ensures { IfOk result (λ v. view v ≡ side_value side.now) }
{
    let parts = side_parts(alloc, side)?;
    json!(in alloc; {
        "before": parts.before,
        "paired": parts.paired,
        "unpaired": parts.unpaired,
        "removed_bases": removed_value(alloc, side)?,
        "removed_front": rows_value(alloc, &side.removed_front)?,
        "removed_behind": rows_value(alloc, &side.removed_behind)?,
    })
}

// The reads of one side, before and after trimming.
#[derive(Drop)]
struct SideParts {
    before: Value,
    paired: Value,
    unpaired: Value,
}

// Builds the reads of one side. The columns of each kind of reads are dropped before the next.
fn side_parts(alloc: Global, side: &SideTally) -> Result<SideParts, OutOfMemory>
    ensures { IfOk result (λ parts. AreSideParts side.now parts) }
{
    let before = {
        let columns = side.positions.before(alloc)?;
        reads_value(alloc, &side.before, &columns)?
    };
    let paired = {
        let columns = side.positions.paired(alloc)?;
        reads_value(alloc, &side.paired, &columns)?
    };
    let unpaired = {
        let columns = side.positions.unpaired(alloc)?;
        reads_value(alloc, &side.unpaired, &columns)?
    };
    Ok(SideParts {
        before,
        paired,
        unpaired,
    })
}

// The bases removed from the reads that survive.
#[tactic(auto, unfolding(crate::specs::Reports::removed_value))]
fn removed_value(alloc: Global, side: &SideTally) -> Result<Value, OutOfMemory>
    ensures { IfOk result (λ v. view v ≡ removed_value side.now) }
{
    json!(in alloc; {"front": side.front, "behind": side.behind})
}

// Counts of reads and of their bases, histograms of the reads, and their bases by position.
#[tactic(auto, unfolding(crate::specs::Reports::reads_value))]
fn reads_value(alloc: Global, tally: &ReadsTally, columns: &Columns) -> Result<Value, OutOfMemory>
    ensures { IfOk result (λ v. view v ≡ reads_value tally.now columns.now) }
{
    let parts = reads_parts(alloc, tally, columns)?;
    let bases = tally.bases;
    json!(in alloc; {
        "lengths": parts.lengths,
        "mean_scores": parts.mean_scores,
        "gc_percents": parts.gc_percents,
        "positions": parts.positions,
        "reads": tally.reads,
        "bases": bases.bases,
        "q20_bases": bases.at_least_20,
        "q30_bases": bases.at_least_30,
        "score_sum": bases.score_sum,
        "gc_bases": bases.gc,
        "n_bases": bases.n,
        "shortest": length_value(tally.reads, tally.shortest),
        "longest": length_value(tally.reads, tally.longest),
    })
}

// The lists of counts of reads.
#[derive(Drop)]
struct ReadsParts {
    lengths: Value,
    mean_scores: Value,
    gc_percents: Value,
    positions: Value,
}

// Builds the lists of counts of reads.
fn reads_parts(
    alloc: Global,
    tally: &ReadsTally,
    columns: &Columns,
) -> Result<ReadsParts, OutOfMemory>
    ensures { IfOk result (λ parts. AreReadsParts tally.now columns.now parts) }
{
    let lengths = rows_value(alloc, &tally.lengths)?;
    let mean_scores = rows_value(alloc, &tally.mean_scores)?;
    let gc_percents = rows_value(alloc, &tally.gc_percents)?;
    let positions = positions_value(alloc, columns)?;
    Ok(ReadsParts {
        lengths,
        mean_scores,
        gc_percents,
        positions,
    })
}

// The bases of reads by their position.
#[tactic(auto, unfolding(crate::specs::Reports::positions_value))]
fn positions_value(alloc: Global, columns: &Columns) -> Result<Value, OutOfMemory>
    ensures { IfOk result (λ v. view v ≡ positions_value columns.now) }
{
    json!(in alloc; {
        "bases": counts_value(alloc, &columns.bases)?,
        "score_sum": counts_value(alloc, &columns.score_sum)?,
        "q30_bases": counts_value(alloc, &columns.q30_bases)?,
        "a": counts_value(alloc, &columns.a)?,
        "c": counts_value(alloc, &columns.c)?,
        "g": counts_value(alloc, &columns.g)?,
        "t": counts_value(alloc, &columns.t)?,
        "n": counts_value(alloc, &columns.n)?,
    })
}

// The numbers of rows.
fn counts_value(alloc: Global, rows: &Rows) -> Result<Value, OutOfMemory>
    ensures { IfOk result (λ v. view v ≡ counts rows.now) }
{
    let mut values = Vec::new(alloc);
    for number in rows.as_slice() {
        values.push(Value::from(*number))?;
    }
    Ok(Value::Array(values))
}

// The length of the shortest or the longest of these reads, null if there is no read.
fn length_value(reads: u64, bases: u64) -> Value
    ensures { view result ≡ length_value reads bases }
{
    if reads == 0 {
        Value::Null
    } else {
        Value::from(bases)
    }
}

// Each number that reads have, with the number of these reads.
fn rows_value(alloc: Global, rows: &Rows) -> Result<Value, OutOfMemory>
    ensures { IfOk result (λ v. view v ≡ list (rows_from 0 rows.now)) }
{
    let mut values = Vec::new(alloc);
    for (number, reads) in rows.as_slice().iter().enumerate() {
        if *reads > 0 {
            let row = json!(in alloc; [number, *reads])?;
            values.push(row)?;
        }
    }
    Ok(Value::Array(values))
}

// What each step did.
pub(crate) fn steps_value(
    alloc: Global,
    words: &[&str],
    tally: &Tally,
) -> Result<Value, OutOfMemory>
    ensures { IfOk result (λ v. view v
        ≡ list (steps_from 0 (map (λ word. word.now) words.now) tally.now)) }
{
    let mut steps = Vec::new(alloc);
    for (number, word) in words.iter().enumerate() {
        let step = step_value(alloc, number, word, tally)?;
        steps.push(step)?;
    }
    Ok(Value::Array(steps))
}

// What the step of a number did.
#[tactic(auto, unfolding(crate::specs::Reports::step_value))]
fn step_value(alloc: Global, number: usize, word: &str, tally: &Tally) -> Result<Value, OutOfMemory>
    ensures { IfOk result (λ v. view v ≡ step_value number word.now tally.now) }
{
    json!(in alloc; {
        "step": word,
        "forward": done_value(alloc, number, &tally.forward.counts().steps)?,
        "reverse": done_value(alloc, number, &tally.reverse.counts().steps)?,
    })
}

// What the step of a number did to the reads of a side.
#[tactic(auto, unfolding(crate::specs::Reports::done_value))]
fn done_value(alloc: Global, number: usize, steps: &StepsTally) -> Result<Value, OutOfMemory>
    ensures { IfOk result (λ v. view v ≡ done_value number steps.now) }
{
    json!(in alloc; {
        "shortened": reads_in(&steps.shortened, number),
        "dropped": reads_in(&steps.dropped, number),
    })
}

// How many reads a row has: none if there is no such row.
fn reads_in(rows: &Rows, row: usize) -> u64
    ensures { result ≡ get_or rows.now row 0 }
{
    rows.as_slice().get(row).copied().unwrap_or(0)
}
