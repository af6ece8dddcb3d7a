//! `do: tally` counts pairs under `steps`, in `encoding`. Each is a line `pair:
//! SEQUENCE|QUALITY|SEQUENCE|QUALITY`; those of lines `other pair:` are counted apart and then
//! added.
//!
//! Answers, for `forward` and `reverse`:
//! - `before`, `paired` and `unpaired`, each with nine numbers: reads, bases, bases with a score of
//!   at least 20 and of at least 30, the sum of the scores, G or C, N, the shortest and the longest
//!   read;
//! - `removed`, the bases removed at the start and at the end; `shortened` and `dropped`, by each
//!   step;
//! - `lengths before`, `lengths paired` and `lengths unpaired`, how many reads have which length;
//!   `means before` and so on, how many have which mean score; `percents before` and so on, how
//!   many have which percentage of G and C;
//! - `front` and `behind`, how many of the reads that survive lost how many bases there;
//! - `rows`, the number of rows of `lengths before`; `limits`, the shortest and the longest read
//!   before trimming; `scores`, for the paired reads, the sum of the scores and how many are at
//!   least 20 and 30;
//! - `kept`, what the steps keep of each mate of the first pair: the first place and the one after
//!   the last.

use crate::answers::Answers;
use crate::encoding_in;
use crate::row::Given;
use crate::steps::steps_in;
use anyhow::{Context, Result};
use fq_pair::PairView;
use fq_report_pairs::{ReadsTally, Rows, SideTally, Tally, Trimmed};
use fq_test_texts::lawful_read;
use fq_text::{Encoding, ReadView};
use fq_trim::Steps;
use std::alloc::{AllocError, Global};
use std::fmt::Write;
use std::str;

// A tally is handed on in a `Box`: it has so many parts that the proof of a function which owns one
// on its stack is long.
fn no_pairs(alloc: Global) -> Result<Box<Tally>, AllocError> {
    Ok(Box::new(alloc, Tally::new(alloc)?)?)
}

fn add_pair(tally: &mut Tally, pair: PairView<'_>, steps: &Steps) {
    tally.add(pair, steps);
}

fn add_tally(tally: &mut Tally, other: &Tally) {
    tally.add_all(other);
}

fn read_of<'a>(encoding: Encoding, seq: &'a str, qual: &'a str) -> Result<ReadView<'a>> {
    lawful_read(encoding, b"r", seq.as_bytes(), qual.as_bytes()).context("no lawful read")
}

// The pair of a line.
fn pair_of(encoding: Encoding, line: &str) -> Result<PairView<'_>> {
    let (seq, line) = line.split_once('|').context("a quality")?;
    let (qual, line) = line.split_once('|').context("a mate")?;
    let (mate, mate_qual) = line.split_once('|').context("its quality")?;
    Ok(PairView {
        forward: read_of(encoding, seq, qual)?,
        reverse: read_of(encoding, mate, mate_qual)?,
    })
}

// Counts the pairs of the lines of a key.
fn add_lines(
    tally: &mut Tally,
    given: &Given<'_>,
    wanted: &str,
    encoding: Encoding,
    steps: &Steps,
) -> Result<()> {
    for (key, line) in given.lines() {
        if *key == wanted {
            add_pair(tally, pair_of(encoding, str::from_utf8(line)?)?, steps);
        }
    }
    Ok(())
}

/// The tally of a row.
pub fn tally_in(alloc: Global, given: &Given<'_>) -> Result<Box<Tally>> {
    let encoding = encoding_in(given)?;
    let steps = steps_in(alloc, given)?;
    let mut tally = no_pairs(alloc)?;
    add_lines(&mut tally, given, "pair", encoding, &steps)?;
    let mut other = no_pairs(alloc)?;
    add_lines(&mut other, given, "other pair", encoding, &steps)?;
    add_tally(&mut tally, &other);
    Ok(tally)
}

fn put_key(alloc: Global, answers: &mut Answers, side: &str, key: &str, text: &str) -> Result<()> {
    let key = format!(in alloc; "{side} {key}")?;
    answers.put(&key, text.as_bytes())?;
    Ok(())
}

// How many reads have which number.
fn put_rows(
    alloc: Global,
    answers: &mut Answers,
    side: &str,
    key: &str,
    rows: &Rows,
) -> Result<()> {
    let mut text = String::new(alloc);
    for (number, count) in rows.as_slice().iter().enumerate() {
        if *count > 0 {
            write!(text, " {number}:{count}")?;
        }
    }
    put_key(alloc, answers, side, key, text.trim_start())
}

// The nine numbers of some reads, and how many have which length, mean score and percentage.
fn put_reads(
    alloc: Global,
    answers: &mut Answers,
    side: &str,
    key: &str,
    reads: &ReadsTally,
) -> Result<()> {
    let bases = reads.bases;
    let text = format!(in alloc;
        "{} {} {} {} {} {} {} {} {}",
        reads.reads,
        bases.bases,
        bases.at_least_20,
        bases.at_least_30,
        bases.score_sum,
        bases.gc,
        bases.n,
        reads.shortest,
        reads.longest
    )?;
    put_key(alloc, answers, side, key, &text)?;
    let lengths = format!(in alloc; "lengths {key}")?;
    put_rows(alloc, answers, side, &lengths, &reads.lengths)?;
    let means = format!(in alloc; "means {key}")?;
    put_rows(alloc, answers, side, &means, &reads.mean_scores)?;
    let percents = format!(in alloc; "percents {key}")?;
    put_rows(alloc, answers, side, &percents, &reads.gc_percents)
}

fn put_side(alloc: Global, answers: &mut Answers, name: &str, side: &SideTally) -> Result<()> {
    put_reads(alloc, answers, name, "before", &side.before)?;
    put_reads(alloc, answers, name, "paired", &side.paired)?;
    put_reads(alloc, answers, name, "unpaired", &side.unpaired)?;
    let rows = format!(in alloc; "{}", side.before.lengths.as_slice().len())?;
    put_key(alloc, answers, name, "rows", &rows)?;
    let limits = format!(in alloc; "{} {}", side.before.shortest, side.before.longest)?;
    put_key(alloc, answers, name, "limits", &limits)?;
    let bases = side.paired.bases;
    let scores = format!(in alloc;
        "{} {} {}",
        bases.score_sum, bases.at_least_20, bases.at_least_30
    )?;
    put_key(alloc, answers, name, "scores", &scores)?;
    let removed = format!(in alloc; "{} {}", side.front, side.behind)?;
    put_key(alloc, answers, name, "removed", &removed)?;
    put_rows(alloc, answers, name, "front", &side.removed_front)?;
    put_rows(alloc, answers, name, "behind", &side.removed_behind)?;
    let shortened = format!(in alloc; "{:?}", side.steps.shortened.as_slice())?;
    put_key(alloc, answers, name, "shortened", &shortened)?;
    let dropped = format!(in alloc; "{:?}", side.steps.dropped.as_slice())?;
    put_key(alloc, answers, name, "dropped", &dropped)
}

/// Puts what was counted as answers.
pub fn put_tally(alloc: Global, answers: &mut Answers, tally: &Tally) -> Result<()> {
    put_side(alloc, answers, "forward", tally.forward.counts())?;
    put_side(alloc, answers, "reverse", tally.reverse.counts())
}

fn put_kept(
    alloc: Global,
    answers: &mut Answers,
    side: &str,
    read: &ReadView<'_>,
    steps: &Steps,
) -> Result<()> {
    match Trimmed::new(read, steps).kept() {
        Some(kept) => {
            let text = format!(in alloc; "{} {}", kept.start, kept.stop)?;
            put_key(alloc, answers, side, "kept", &text)
        }
        None => put_key(alloc, answers, side, "kept", "nothing"),
    }
}

/// Puts the answers to a row of pairs that are counted.
pub fn answer(alloc: Global, given: &Given<'_>, answers: &mut Answers) -> Result<()> {
    given.allow(&["steps", "encoding", "pair", "other pair"])?;
    let steps = steps_in(alloc, given)?;
    let pair = pair_of(encoding_in(given)?, given.text("pair")?)?;
    put_kept(alloc, answers, "forward", &pair.forward, &steps)?;
    put_kept(alloc, answers, "reverse", &pair.reverse, &steps)?;
    let tally = tally_in(alloc, given)?;
    put_tally(alloc, answers, &tally)
}
