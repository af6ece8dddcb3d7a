//! A plain reader of a whole text, which follows the rules of the format one after the other, to
//! compare the streaming reader with.

ghost use Rattle.std.specs.Prelude.{◌<◌, ◌≤◌};
ghost use Rattle.fq_text.specs.Reading.{chunk_limit};

use super::frame::{InMemory, ends, faults, next, source};
use fq_text::*;
use std::alloc::Global;
use std::process::Abort;
use std::test::Fail;

const LIMIT: usize = 1_048_576;

/// A record, and the number of its lines.
#[derive(Drop)]
struct Plain {
    title: Vec<u8>,
    seq: Vec<u8>,
    qual: Vec<u8>,
    lines: usize,
}

/// What a text begins with: a record, the end or a fault.
type Front = Result<Option<Plain>, TextFault>;

// The lines of a text, each without its line end and without one CR before that.
fn lines(alloc: Global, text: &[u8]) -> Result<Vec<Vec<u8>>, Fail> {
    let mut lines = Vec::new(alloc);
    let mut line = Vec::new(alloc);
    for byte in text {
        if *byte == b'\n' {
            lines.push(without_cr(line))?;
            line = Vec::new(alloc);
        } else {
            line.push(*byte)?;
        }
    }
    if !line.is_empty() {
        lines.push(without_cr(line))?;
    }
    Ok(lines)
}

fn without_cr(mut line: Vec<u8>) -> Vec<u8> {
    if line.last() == Some(&b'\r') {
        line.pop();
    }
    line
}

fn begins(line: &[u8], mark: u8) -> bool {
    line.first() == Some(&mark)
}

fn title_fault(title: &[u8], k: u64) -> Option<TextFault> {
    if title.len() > LIMIT {
        return Some(TextFault::TooLong(k));
    }
    if !begins(title, b'@') {
        return Some(TextFault::NoTitle(k));
    }
    None
}

// The text after the first byte of a title line or a plus line.
fn name(line: &[u8]) -> &[u8] {
    line.get(1..).unwrap_or(&[])
}

fn plus_fault(title: &[u8], plus: &[u8], k: u64) -> Option<TextFault> {
    if plus.len() > LIMIT {
        return Some(TextFault::TooLong(k));
    }
    if !name(plus).is_empty() && name(plus) != name(title) {
        return Some(TextFault::PlusDiffers(k));
    }
    None
}

// Whether a byte is below `lowest` or above `~`.
fn has_byte_outside(line: &[u8], lowest: u8) -> bool {
    line.iter().any(|byte| *byte < lowest || *byte > 126)
}

fn sequence_fault(line: &[u8], before: usize, k: u64) -> Option<TextFault> {
    if line.len() > LIMIT {
        return Some(TextFault::TooLong(k));
    }
    if begins(line, b'@') {
        return Some(TextFault::BadSequence(k));
    }
    if before.saturating_add(line.len()) > LIMIT {
        return Some(TextFault::TooLong(k));
    }
    if has_byte_outside(line, 33) {
        return Some(TextFault::BadSequence(k));
    }
    None
}

fn quality_fault(
    encoding: Encoding,
    line: &[u8],
    before: usize,
    bases: usize,
    k: u64,
) -> Option<TextFault> {
    let lowest = match encoding {
        Encoding::Sanger => 33,
        Encoding::Illumina13 => 64,
        Encoding::Solexa => 59,
    };
    if line.len() > LIMIT {
        return Some(TextFault::TooLong(k));
    }
    if before.saturating_add(line.len()) > bases {
        return Some(TextFault::QualityLong(k));
    }
    if has_byte_outside(line, lowest) {
        return Some(TextFault::BadQuality(k));
    }
    None
}

// How many lines are before the first that is not empty.
fn empty_lines(lines: &[Vec<u8>]) -> usize {
    let first = lines.iter().position(|line| !line.is_empty());
    first.unwrap_or(lines.len())
}

// How many lines are before the plus line.
fn sequence_lines(lines: &[Vec<u8>]) -> usize {
    let plus = lines.iter().position(|line| begins(line, b'+'));
    plus.unwrap_or(lines.len())
}

// The sequence that these lines make.
fn sequence(alloc: Global, lines: &[Vec<u8>], k: u64) -> Result<Result<Vec<u8>, TextFault>, Fail> {
    let mut seq = Vec::new(alloc);
    for line in lines {
        if let Some(fault) = sequence_fault(line, seq.len(), k) {
            return Ok(Err(fault));
        }
        seq.extend_from_slice(line)?;
    }
    Ok(Ok(seq))
}

// The quality at the front of these lines, for `bases` bases, and the number of its lines.
fn quality(
    alloc: Global,
    encoding: Encoding,
    lines: &[Vec<u8>],
    bases: usize,
    k: u64,
) -> Result<Result<(Vec<u8>, usize), TextFault>, Fail> {
    let mut qual = Vec::new(alloc);
    let mut scores = 0usize;
    for line in lines {
        if qual.len() >= bases {
            break;
        }
        if let Some(fault) = quality_fault(encoding, line, qual.len(), bases, k) {
            return Ok(Err(fault));
        }
        qual.extend_from_slice(line)?;
        scores = scores.saturating_add(1);
    }
    if qual.len() < bases {
        return Ok(Err(TextFault::QualityShort(k)));
    }
    Ok(Ok((qual, scores)))
}

// The lines from this one on.
fn after(lines: &[Vec<u8>], first: usize) -> &[Vec<u8>] {
    lines.get(first..).unwrap_or(&[])
}

// The lines before this one.
fn before(lines: &[Vec<u8>], end: usize) -> &[Vec<u8>] {
    lines.get(..end).unwrap_or(lines)
}

// The record at the front of the lines, which has number k, or `None` at the end.
fn front(alloc: Global, encoding: Encoding, lines: &[Vec<u8>], k: u64) -> Result<Front, Fail> {
    let skipped = empty_lines(lines);
    let Some((title, rest)) = after(lines, skipped).split_first() else {
        return Ok(Ok(None));
    };
    if let Some(fault) = title_fault(title, k) {
        return Ok(Err(fault));
    }
    let bases = sequence_lines(rest);
    let seq = match sequence(alloc, before(rest, bases), k)? {
        Ok(seq) => seq,
        Err(fault) => return Ok(Err(fault)),
    };
    let Some((plus, rest)) = after(rest, bases).split_first() else {
        return Ok(Err(TextFault::NoPlus(k)));
    };
    if let Some(fault) = plus_fault(title, plus, k) {
        return Ok(Err(fault));
    }
    let (qual, scores) = match quality(alloc, encoding, rest, seq.len(), k)? {
        Ok(found) => found,
        Err(fault) => return Ok(Err(fault)),
    };
    Ok(Ok(Some(Plain {
        title: Vec::from_slice(alloc, name(title))?,
        seq,
        qual,
        lines: skipped
            .saturating_add(bases)
            .saturating_add(scores)
            .saturating_add(2),
    })))
}

fn is_plain(record: &FastqRecord, plain: &Plain) -> bool {
    record.title() == plain.title.as_slice()
        && record.seq() == plain.seq.as_slice()
        && record.qual() == plain.qual.as_slice()
}

// Whether the source returns this record next.
fn gives(source: &mut InMemory, plain: &Plain) -> bool {
    match next(source) {
        Ok(Some(record)) => is_plain(&record, plain),
        _ => false,
    }
}

// Whether the source returns next what the plain reader found.
fn answers(source: &mut InMemory, front: &Front) -> bool {
    match front {
        Ok(Some(plain)) => gives(source, plain),
        Ok(None) => ends(source),
        Err(fault) => faults(source, *fault),
    }
}

// The number of lines of a record. `None` if there is none.
fn lines_of(front: &Front) -> Option<usize> {
    match front {
        Ok(Some(plain)) => Some(plain.lines),
        _ => None,
    }
}

// Asserts that both readers find the same next. Returns the number of its lines, or `None` after
// the last record.
fn same_next(
    rt: &impl Abort,
    alloc: Global,
    lines: &[Vec<u8>],
    k: u64,
    source: &mut InMemory,
    encoding: Encoding,
) -> Result<Option<usize>, Fail> {
    let front = front(alloc, encoding, lines, k)?;
    assert!(rt; answers(source, &front));
    Ok(lines_of(&front))
}

// Asserts that both readers find the same records and end in the same way. Returns the number of
// records.
fn same_records(
    rt: &impl Abort,
    alloc: Global,
    lines: &[Vec<u8>],
    source: &mut InMemory,
    encoding: Encoding,
) -> Result<usize, Fail> {
    let mut rest = lines;
    let mut records = 0usize;
    for k in 1..u64::MAX {
        let Some(taken) = same_next(rt, alloc, rest, k, source, encoding)? else {
            break;
        };
        rest = after(rest, taken);
        records = records.saturating_add(1);
    }
    Ok(records)
}

// Asserts that both readers read this text alike. Returns the number of records.
fn same(
    rt: &impl Abort,
    alloc: Global,
    text: &[u8],
    encoding: Encoding,
    chunk: usize,
) -> Result<usize, Fail>
    requires some { 0 < chunk }
    requires small { chunk ≤ chunk_limit }
{
    let lines = lines(alloc, text)?;
    let mut source = source(alloc, text, encoding, 1 << 20, chunk)?;
    same_records(rt, alloc, &lines, &mut source, encoding)
}

// A pseudo-random generator, whose numbers are the same in each run.
#[derive(Drop)]
struct Draws(u64);

impl Draws {
    fn below(&mut self, n: u64) -> u64
        requires { 0 < n }
    {
        self.0 = self
            .0
            .wrapping_mul(6_364_136_223_846_793_005)
            .wrapping_add(1_442_695_040_888_963_407);
        (self.0 >> 33) % n
    }
}

const BYTES: [u8; 9] = [b'@', b'+', b'\n', b'\r', b' ', b'A', b'I', 0, 255];

const PARTS: [&[u8]; 14] = [
    b"@r\n", b"@\n", b"ACGT\n", b"AC\n", b"A", b"\n", b"\r\n", b"+\n", b"+r\n", b"IIII\n", b"@I\n",
    b"+I\n", b"I", b"h",
];

// Half of the texts are random bytes, the others random lines and parts of lines.
fn drawn(alloc: Global, draws: &mut Draws, number: u32) -> Result<Vec<u8>, Fail> {
    let mut text = Vec::new(alloc);
    let len = draws.below(201);
    for _ in 0..len {
        if number % 2 == 0 {
            text.push(BYTES[draws.below(9) as usize % 9])?;
        } else if text.len() < 200 {
            text.extend_from_slice(PARTS[draws.below(14) as usize % 14])?;
        }
    }
    Ok(text)
}

fn encoding_of(number: u32) -> Encoding {
    match number % 3 {
        0 => Encoding::Illumina13,
        1 => Encoding::Solexa,
        _ => Encoding::Sanger,
    }
}

#[test]
fn drawn_texts_read_as_the_plain_reader_reads_them(rt: HostRuntime) -> Result<(), Fail> {
    let mut draws = Draws(20_100_101);
    let mut records = 0usize;
    for number in 0..20_000u32 {
        let text = drawn(rt.alloc(), &mut draws, number)?;
        let encoding = encoding_of(number);
        for chunk in [1, 2, 3, 7, 64] {
            records = records.saturating_add(same(&rt, rt.alloc(), &text, encoding, chunk)?);
        }
    }
    assert!(rt; records > 1000, "{records} records were drawn");
    Ok(())
}
