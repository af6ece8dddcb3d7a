//! `do: read` reads the records of `text`, in `encoding`, by at most `max reads` read calls of at
//! most `chunk` bytes. Read call `fails at read` fails. The records are lent if `form` is `lent`,
//! and owned otherwise.
//!
//! Answers: `records`, each as `(title|sequence|quality)`; `end`, what the source returns after the
//! records, each time it is asked; `reads`, the number of read calls so far, after each record and
//! after the end. `failures` has how often the feed failed, asked in the source and after it is
//! taken out of it.

ghost use Rattle.std.specs.Prelude.{◌≡◌, false, [], IfOk};

use crate::answers::Answers;
use crate::blocks::put_read;
use crate::encoding_in;
use crate::row::Given;
use anyhow::{Result, bail};
use fq_run_core::CALL_LIMIT;
use fq_text::{Feed, FeedFailed, ScriptFeed, Source, TextFault};
use std::alloc::Global;
use std::fmt::Write;

/// A feed that counts its read calls.
#[derive(Drop)]
struct Counting {
    feed: ScriptFeed,
    reads: u64,
}

impl Feed for Counting {
    ghost state = { λ f. record { tells = false; to_come = []; failures = f.feed.failures } };

    fn read(&mut self, buf: &mut [u8]) -> std::result::Result<usize, FeedFailed> {
        self.reads = self.reads.saturating_add(1);
        self.feed.read(buf)
    }

    fn failures(&self) -> u64 {
        self.feed.failures()
    }
}

fn feed_of(alloc: Global, given: &Given<'_>) -> Result<Counting>
    ensures { IfOk result (λ feed. feed.feed.failures ≡ 0) }
{
    let fails_at = given.number("fails at read", 0)?;
    let feed = ScriptFeed::new(alloc, given.bytes("text"), 1 << 30, fails_at)?;
    Ok(Counting { feed, reads: 0 })
}

// Makes the source of a row.
fn source_of(alloc: Global, given: &Given<'_>) -> Result<Source<Counting>> {
    let chunk = given.number("chunk", 1000)? as usize;
    let max_reads = given.number("max reads", CALL_LIMIT)?;
    if chunk == 0 || chunk > 1_048_576 || max_reads == 0 || max_reads > CALL_LIMIT {
        bail!("no such reads");
    }
    let encoding = encoding_in(given)?;
    let feed = feed_of(alloc, given)?;
    let Ok(source) = Source::new(alloc, feed, encoding, chunk, max_reads) else {
        bail!("no memory for a source");
    };
    Ok(source)
}

// Whether a record came, or the fault.
type Came = std::result::Result<bool, TextFault>;

fn put_given(records: &mut Vec<u8>, source: &mut Source<Counting>) -> Result<Came> {
    match source.next() {
        Ok(Some(record)) => {
            put_read(records, &record.view())?;
            Ok(Ok(true))
        }
        Ok(None) => Ok(Ok(false)),
        Err(fault) => Ok(Err(fault)),
    }
}

fn put_lent(records: &mut Vec<u8>, source: &mut Source<Counting>) -> Result<Came> {
    let came = source.advance();
    if let Ok(true) = came {
        put_read(records, &source.record())?;
    }
    Ok(came)
}

// Appends the next record, if there is one.
fn put_next(records: &mut Vec<u8>, source: &mut Source<Counting>, lent: bool) -> Result<Came> {
    if lent {
        put_lent(records, source)
    } else {
        put_given(records, source)
    }
}

// Appends the records, and after each of them and after the end the number of read calls so far.
// Returns what comes after the records.
fn put_records(
    records: &mut Vec<u8>,
    reads: &mut String,
    source: &mut Source<Counting>,
    lent: bool,
) -> Result<Came> {
    for _ in 0..100u8 {
        let came = put_next(records, source, lent)?;
        write!(reads, " {}", source.feed().reads)?;
        if came != Ok(true) {
            return Ok(came);
        }
    }
    bail!("more than 100 records")
}

// Appends the records. It is an error if the source does not return what comes after them each
// time.
fn put_all(
    records: &mut Vec<u8>,
    reads: &mut String,
    source: &mut Source<Counting>,
    lent: bool,
) -> Result<Came> {
    let last = put_records(records, reads, source, lent)?;
    for _ in 0..2u8 {
        if put_next(records, source, lent)? != last {
            bail!("the last answer does not stay");
        }
    }
    Ok(last)
}

// How often the feed of a source failed, asked within the source and after it is taken out.
fn failures(source: Source<Counting>) -> (u64, u64) {
    (source.feed().failures(), source.into_feed().failures())
}

// Puts the records of a source.
fn put_source(
    alloc: Global,
    answers: &mut Answers,
    source: &mut Source<Counting>,
    lent: bool,
) -> Result<()> {
    let mut records = Vec::new(alloc);
    let mut reads = String::new(alloc);
    match put_all(&mut records, &mut reads, source, lent)? {
        Ok(_) => answers.put("end", b"the end")?,
        Err(fault) => answers.put("end", format!(in alloc; "{fault:?}")?.as_bytes())?,
    }
    answers.put("records", &records)?;
    answers.put("reads", reads.trim_start().as_bytes())?;
    Ok(())
}

/// Puts the answers to a `do: read` row.
pub fn answer(alloc: Global, given: &Given<'_>, answers: &mut Answers) -> Result<()> {
    given.allow(&[
        "text",
        "encoding",
        "chunk",
        "max reads",
        "fails at read",
        "form",
    ])?;
    let lent = given.text("form")? == "lent";
    let mut source = source_of(alloc, given)?;
    put_source(alloc, answers, &mut source, lent)?;
    let (within, behind) = failures(source);
    answers.put(
        "failures",
        format!(in alloc; "{within} {behind}")?.as_bytes(),
    )?;
    Ok(())
}
