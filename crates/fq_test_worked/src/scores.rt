//! `do: score` judges the quality bytes `qual` in `encoding`, and the read of `title`, `seq` and
//! `qual`. Answers: `scores`, one for each byte; `all`, whether each byte has a score; `phred`, the
//! scores if each byte has one; `written`, these at offset 33; `lawful`, whether a FASTQ text can
//! hold the read.
//!
//! `do: write` writes records after the text `before`. Each is a line
//! `record: RECODED|TITLE|SEQUENCE|QUALITY`. The quality bytes are recoded from the encoding that
//! is named, or written as they are if none is named. Answer: `text`.

use crate::answers::Answers;
use crate::encoding_in;
use crate::row::Given;
use anyhow::{Context, Result, bail};
use fq_text::{Encoding, from_score33, is_lawful, put_record};
use std::alloc::Global;
use std::fmt::Write;
use std::str;

// Returns the Phred score of a byte that has one.
fn phred_of(encoding: Encoding, byte: u8) -> Result<u8> {
    if !encoding.all_scored(&[byte]) {
        bail!("a byte without a score");
    }
    Ok(encoding.phred(byte))
}

// Returns the quality byte of a score at offset 33.
fn byte_of(score: u8) -> Result<u8> {
    if score > 93 {
        bail!("a score that is too high");
    }
    Ok(from_score33(score))
}

// Appends the scores of quality bytes that all have one, and their bytes at offset 33.
fn put_phred(
    encoding: Encoding,
    qual: &[u8],
    phred: &mut String,
    written: &mut Vec<u8>,
) -> Result<()> {
    for byte in qual {
        let score = phred_of(encoding, *byte)?;
        write!(phred, " {score}")?;
        written.push(byte_of(score)?)?;
    }
    Ok(())
}

// Appends the scores of quality bytes.
fn put_scores(encoding: Encoding, qual: &[u8], scores: &mut String) -> Result<()> {
    for byte in qual {
        match encoding.score(*byte) {
            Some(score) => write!(scores, " {score}")?,
            None => scores.push_str(" none")?,
        }
    }
    Ok(())
}

/// Puts the answers to a `do: score` row.
pub fn answer(alloc: Global, given: &Given<'_>, answers: &mut Answers) -> Result<()> {
    given.allow(&["encoding", "title", "seq", "qual"])?;
    let encoding = encoding_in(given)?;
    let qual = given.bytes("qual");
    let mut scores = String::new(alloc);
    put_scores(encoding, qual, &mut scores)?;
    answers.put("scores", scores.trim_start().as_bytes())?;
    let all = encoding.all_scored(qual);
    answers.put_yes("all", all)?;
    answers.put_yes(
        "lawful",
        is_lawful(encoding, given.bytes("title"), given.bytes("seq"), qual),
    )?;
    if all {
        let mut phred = String::new(alloc);
        let mut written = Vec::new(alloc);
        put_phred(encoding, qual, &mut phred, &mut written)?;
        answers.put("phred", phred.trim_start().as_bytes())?;
        answers.put("written", &written)?;
    }
    Ok(())
}

// Appends a record whose qualities are recoded.
fn put_recoded(
    out: &mut Vec<u8>,
    title: &[u8],
    seq: &[u8],
    qual: &[u8],
    encoding: Encoding,
) -> Result<()> {
    if !encoding.all_scored(qual) {
        bail!("a byte without a score");
    }
    put_record(out, title, seq, qual, Some(encoding))?;
    Ok(())
}

// Appends the record of a line.
fn put_line(out: &mut Vec<u8>, line: &str) -> Result<()> {
    let (recoded, line) = line.split_once('|').context("a title")?;
    let (title, line) = line.split_once('|').context("a sequence")?;
    let (seq, qual) = line.split_once('|').context("a quality")?;
    match Encoding::of_name(recoded) {
        Some(encoding) => put_recoded(
            out,
            title.as_bytes(),
            seq.as_bytes(),
            qual.as_bytes(),
            encoding,
        ),
        None => Ok(put_record(out, title.as_bytes(), seq.as_bytes(), qual.as_bytes(), None)?),
    }
}

/// Puts the answers to a `do: write` row.
pub fn answer_written(alloc: Global, given: &Given<'_>, answers: &mut Answers) -> Result<()> {
    given.allow(&["before", "record"])?;
    let mut out = Vec::from_slice(alloc, given.bytes("before"))?;
    for (key, line) in given.lines() {
        if *key == "record" {
            put_line(&mut out, str::from_utf8(line)?)?;
        }
    }
    answers.put("text", &out)?;
    Ok(())
}
