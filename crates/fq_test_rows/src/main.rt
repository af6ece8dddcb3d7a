//! Runs worked rows: `fq_test_rows FILE ..` reads the rows of these files, computes their answers
//! and compares them with the expected ones. It prints a line for each row that differs, and how
//! many rows passed. The format of rows is described in `fq_test_worked`.
//!
//! `fq_test_rows judge` runs on seven pairs, and checks what the run leaves if memory or a thread
//! is refused.
#![tactic(auto)]

mod call;
mod disk;
mod judge;
mod outcomes;
mod run;

use anyhow::{Context, Result};
use fq_test_worked::{Answers, Given, Names, Row, compare, read_block};
use std::alloc::Global;
use std::process::ExitCode;
use std::rt::Files;
use std::sync::Wait;
use std::thread::Threads;
use std::{env, fs};

// How many rows passed, and how many failed.
#[derive(Clone, Copy)]
struct Score {
    passed: u64,
    failed: u64,
}

// Returns the answers to a row.
fn answer<R: Threads + Wait + Print + AllocGlobal + Files + Copy + Send + 'static>(
    rt: &R,
    alloc: Global,
    given: &Given<'_>,
) -> Result<Answers> {
    let mut answers = Answers::new(alloc);
    match given.text("do")? {
        "call" => call::answer(rt, alloc, given, &mut answers)?,
        "disk" => disk::answer(rt, alloc, given, &mut answers)?,
        "outcomes" => outcomes::answer(alloc, given, &mut answers)?,
        "run" => run::answer(rt, alloc, given, &mut answers)?,
        word => fq_test_worked::answer(rt, alloc, word, given, &mut answers)?,
    }
    Ok(answers)
}

// Runs a row once. Returns what differs, or an empty text.
fn run_once<R: Threads + Wait + Print + AllocGlobal + Files + Copy + Send + 'static>(
    rt: &R,
    names: &Names<'_>,
    row: &Row<'_>,
) -> Result<String> {
    let alloc = rt.alloc();
    let given = Given::new(alloc, names, row)?;
    let answers = answer(rt, alloc, &given)?;
    compare(alloc, &given, &answers)
}

// Runs a row once. Returns what differs or what is wrong with the row, or an empty text.
fn said_of<R: Threads + Wait + Print + AllocGlobal + Files + Copy + Send + 'static>(
    rt: &R,
    names: &Names<'_>,
    row: &Row<'_>,
) -> Result<String> {
    match run_once(rt, names, row) {
        Ok(said) => Ok(said),
        Err(error) => Ok(format!(in rt.alloc(); " {error:#};")?),
    }
}

// Runs a row once for each of its turns. Returns whether all answers were as expected.
fn run_row<'a, R: Threads + Wait + Print + AllocGlobal + Files + Copy + Send + 'static>(
    rt: &R,
    names: &mut Names<'a>,
    row: &Row<'a>,
) -> Result<bool> {
    let mut fits = true;
    let count = names.count();
    for turn in 0..row.turns() {
        let words = row.put_words(rt.alloc(), names, turn)?;
        let said = said_of(rt, names, row)?;
        names.keep(count);
        if !said.is_empty() {
            fits = false;
            let name = row.name;
            println!(rt; "{name} ({words}):{said}")?;
        }
    }
    Ok(fits)
}

// Runs the rows of a text.
fn run_rows<R: Threads + Wait + Print + AllocGlobal + Files + Copy + Send + 'static>(
    rt: &R,
    text: &str,
    score: &mut Score,
) -> Result<()> {
    let mut names = Names::new(rt.alloc());
    for block in text.split("\n\n") {
        for row in read_block(rt.alloc(), &mut names, block)?.iter() {
            if run_row(rt, &mut names, row)? {
                score.passed = score.passed.saturating_add(1);
            } else {
                score.failed = score.failed.saturating_add(1);
            }
        }
    }
    Ok(())
}

// Runs the rows of files, as if these were one file.
fn run_files<R: Threads + Wait + Print + AllocGlobal + Files + Copy + Send + 'static>(
    rt: &R,
    files: &[String],
) -> Result<ExitCode> {
    let mut score = Score {
        passed: 0,
        failed: 0,
    };
    let mut text = String::new(rt.alloc());
    for name in files {
        let file = fs::read_to_string(rt, name).context(format_args!("reading {name}"))?;
        text.push_str(&file)?;
        text.push_str("\n")?;
    }
    run_rows(rt, &text, &mut score)?;
    let Score { passed, failed } = score;
    println!(rt; "{passed} rows passed")?;
    if failed > 0 {
        println!(rt; "{failed} rows FAILED")?;
        return Ok(ExitCode::from(1));
    }
    Ok(ExitCode::from(0))
}

// Returns the arguments of the call. `None` if memory is refused.
fn words_of(rt: &HostRuntime) -> Option<Vec<String>> {
    let mut words = Vec::new(rt.alloc());
    for word in env::args(rt).ok()? {
        words.push(word).ok()?;
    }
    Some(words)
}

fn main(rt: HostRuntime) -> Result<ExitCode> {
    let Some(words) = words_of(&rt) else {
        judge::refused(&rt)?;
        return Ok(ExitCode::from(0));
    };
    let files = words.get(1..).unwrap_or(&[]);
    if files.first().is_some_and(|word| word.as_str() == "judge") {
        judge::judge_words(rt.alloc(), &rt, words.get(2..).unwrap_or(&[]))?;
        return Ok(ExitCode::from(0));
    }
    run_files(&rt, files)
}
