//! `do: run` runs over the texts `forward` and `reverse`, or over the text `interleaved`, in
//! `encoding`, by `steps`. The run is on one thread if `workers` is 0, and otherwise on that many
//! worker threads. `block`, `depth`, `chunk`, `max reads` and `gate turns` are numbers of the
//! settings. Names are compared unless `names` is `unchecked`; pairs are tallied if `tally` is
//! `yes`; there is no log if `without log` is `yes`. A read or write call moves at most `cut`
//! bytes. Read call `fails at read` of the forward or the interleaved text fails, and read call
//! `reverse fails at read` of the reverse text. `fails at write: OUTPUT NUMBER` has that write to
//! this output fail, and `fails at flush` names the output whose flush fails. With `gate refuses`
//! the gate refuses so many times, and otherwise never.
//!
//! Answers: `outcome`, `counts`, the outputs `fp`, `fu`, `rp`, `ru` and `log`, `failed` (which of
//! these failed, and how often), `intact` (whether each feed came back, and each lane was
//! confirmed), `tallied`, and the answers of a `do: tally` row. For a run over the first of the
//! seven pairs: `front`, how many of them, from the first on, are written and counted; and
//! `breaks off`, the output in which the text of a further block breaks off, while those before it
//! have it whole. Instead of both, `amiss` says why the outputs are not those of the first pairs.

use anyhow::{Context, Result, bail};
use fq_pair::Out;
use fq_run::Outlets;
use fq_test_memory_run::{Left, MemoryRun, in_order};
use fq_test_texts::{ScriptGate, front_in_order};
use fq_test_worked::{
    Answers, Given, OUTPUTS, encoding_in, out_of, put_counts, put_tally, words_of,
};
use fq_text::{Outlet, ScriptOutlet};
use fq_trim::Steps;
use fq_work::OpenGate;
use std::alloc::Global;
use std::fmt::Write;
use std::sync::Wait;
use std::thread::Threads;

// The output, and the number of the write to it, that fails.
fn failing_write(given: &Given<'_>) -> Result<Option<(Out, u64)>> {
    match given.text("fails at write")?.split_once(' ') {
        Some((key, number)) => Ok(Some((out_of(key)?, number.parse::<u64>().context("a number")?))),
        None => Ok(None),
    }
}

// The output whose flush fails.
fn failing_flush(given: &Given<'_>) -> Result<Option<Out>> {
    match given.text("fails at flush")? {
        "" => Ok(None),
        key => Ok(Some(out_of(key)?)),
    }
}

// The run of a row with these steps, before its settings.
fn plain_run<'a>(given: &'a Given<'_>, steps: Steps) -> MemoryRun<'a> {
    match given.find("interleaved") {
        Some(text) => MemoryRun::new(text, None, steps),
        None => MemoryRun::new(given.bytes("forward"), Some(given.bytes("reverse")), steps),
    }
}

// Gives a run the settings of a row.
fn put_settings(given: &Given<'_>, run: &mut MemoryRun<'_>) -> Result<()> {
    run.encoding = encoding_in(given)?;
    run.check_names = given.text("names")? != "unchecked";
    run.workers = given.number("workers", run.workers)?;
    run.block_pairs = given.number("block", run.block_pairs)?;
    run.depth = given.number("depth", run.depth)?;
    run.chunk = given.number("chunk", run.chunk)?;
    run.max_reads = given.number("max reads", run.max_reads)?;
    run.gate_turns = given.number("gate turns", run.gate_turns)?;
    run.tallied = given.text("tally")? == "yes";
    run.cut = given.number("cut", 1000)? as usize;
    run.fails_at_read = given.number("fails at read", 0)?;
    run.reverse_fails_at_read = given.number("reverse fails at read", 0)?;
    run.fails_at_write = failing_write(given)?;
    run.fails_at_flush = failing_flush(given)?;
    run.logs = given.text("without log")? != "yes";
    Ok(())
}

// Runs as a row says, and puts what the run left.
fn put_run<R: Threads + Wait + Copy + Send + 'static>(
    rt: &R,
    alloc: Global,
    given: &Given<'_>,
    run: &MemoryRun<'_>,
    answers: &mut Answers,
) -> Result<()> {
    let Some(mut outlets) = run.outlets(alloc) else {
        bail!("no memory for outlets");
    };
    let left = if given.find("gate refuses").is_some() {
        let gate = ScriptGate::new(given.number("gate refuses", 0)?, None);
        run.go(rt, alloc, gate, &mut outlets)?
    } else {
        run.go(rt, alloc, OpenGate, &mut outlets)?
    };
    let left = left.context("memory was refused")?;
    put_left(alloc, answers, &left)?;
    put_outlets(alloc, answers, &outlets)?;
    put_front(alloc, answers, run, &left, &outlets)
}

fn put_left(alloc: Global, answers: &mut Answers, left: &Left) -> Result<()> {
    let outcome = left.outcome;
    answers.put("outcome", format!(in alloc; "{outcome:?}")?.as_bytes())?;
    put_counts(alloc, answers, "counts", left.counts)?;
    answers.put_yes("intact", left.is_intact())?;
    answers.put_yes("tallied", left.tally.is_some())?;
    match &left.tally {
        Some(tally) => put_tally(alloc, answers, tally),
        None => Ok(()),
    }
}

fn put_failures(failed: &mut String, key: &str, failures: u64) -> Result<()> {
    if failures > 0 {
        write!(failed, " {key} {failures}")?;
    }
    Ok(())
}

fn put_outlets(
    alloc: Global,
    answers: &mut Answers,
    outlets: &Outlets<ScriptOutlet>,
) -> Result<()> {
    let mut failed = String::new(alloc);
    for (key, outlet) in [
        ("fp", Some(&outlets.forward_paired)),
        ("fu", Some(&outlets.forward_unpaired)),
        ("rp", Some(&outlets.reverse_paired)),
        ("ru", Some(&outlets.reverse_unpaired)),
        ("log", outlets.log.as_ref()),
    ] {
        match outlet {
            Some(outlet) => {
                answers.put(key, outlet.bytes())?;
                put_failures(&mut failed, key, outlet.failures())?;
            }
            None => answers.put(key, b"none")?,
        }
    }
    answers.put("failed", failed.trim_start().as_bytes())?;
    Ok(())
}

// The key of the output that failed, if one did.
fn key_of(failed: Option<Out>) -> &'static str {
    for (key, out) in OUTPUTS {
        if failed == Some(out) {
            return key;
        }
    }
    "none"
}

// Puts how many of the seven pairs are written, or why the outputs are not those of first pairs.
fn put_front(
    alloc: Global,
    answers: &mut Answers,
    run: &MemoryRun<'_>,
    left: &Left,
    outlets: &Outlets<ScriptOutlet>,
) -> Result<()> {
    let Some(log) = &outlets.log else {
        return Ok(());
    };
    match front_in_order(
        in_order(outlets, log),
        left.counts,
        run.block_pairs as usize,
    ) {
        Ok(front) => {
            let pairs = front.pairs;
            answers.put("front", format!(in alloc; "{pairs}")?.as_bytes())?;
            answers.put("breaks off", key_of(front.failed).as_bytes())?;
        }
        Err(why) => answers.put("amiss", why.as_bytes())?,
    }
    Ok(())
}

// The keys that a `do: run` row may have.
const RUN_KEYS: &[&str] = &[
    "forward",
    "reverse",
    "interleaved",
    "encoding",
    "steps",
    "workers",
    "block",
    "depth",
    "chunk",
    "max reads",
    "gate turns",
    "gate refuses",
    "names",
    "tally",
    "without log",
    "cut",
    "fails at read",
    "reverse fails at read",
    "fails at write",
    "fails at flush",
];

/// Puts the answers to a `do: run` row.
pub fn answer<R: Threads + Wait + Copy + Send + 'static>(
    rt: &R,
    alloc: Global,
    given: &Given<'_>,
    answers: &mut Answers,
) -> Result<()> {
    given.allow(RUN_KEYS)?;
    let steps = Steps::parse(&words_of(alloc, given.text("steps")?)?)?;
    let mut run = plain_run(given, steps);
    put_settings(given, &mut run)?;
    if run.cut == 0 {
        bail!("no such cut");
    }
    put_run(rt, alloc, given, &run, answers)
}
