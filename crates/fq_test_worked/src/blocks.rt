//! `do: block` pushes the first `pairs` pairs of the texts `forward` and `reverse` into a block
//! with the number `number`, in `encoding`. With a line `reset`, all pairs are pushed first, and
//! the block is then reset to that number.
//!
//! Answers: `number`, `encoding`, `length`, `empty`, `bytes` (the packed pairs, byte by byte),
//! `reads`, each as `(title|sequence|quality)`.

use crate::answers::Answers;
use crate::encoding_in;
use crate::row::Given;
use anyhow::{Result, bail};
use fq_block::Block;
use fq_pair::{Pair, PairSource};
use fq_test_texts::source_of;
use fq_text::{Encoding, ReadView, ScriptFeed};
use std::alloc::Global;
use std::fmt::Write;

// The most pairs of a block.
const MOST_PAIRS: usize = 65_536;

fn push(block: &mut Block, pair: &Pair) -> Result<()> {
    if pair.encoding() != block.encoding() || block.len() >= MOST_PAIRS {
        bail!("no room");
    }
    block.push(pair)?;
    Ok(())
}

/// The pairs of the texts `forward` and `reverse` of a row. Functions pass a source or a block in a
/// `Box`: these have many parts, and each function that owns one on its stack has a long proof.
pub fn pairs_in(
    alloc: Global,
    given: &Given<'_>,
    encoding: Encoding,
) -> Result<Box<PairSource<ScriptFeed, ScriptFeed>>> {
    let forward = source_of(alloc, given.bytes("forward"), encoding)?;
    let reverse = source_of(alloc, given.bytes("reverse"), encoding)?;
    Ok(Box::new(alloc, PairSource::new(forward, reverse, true))?)
}

/// Pushes the next pair, if there is one. Returns whether there was.
pub fn push_next(
    block: &mut Block,
    pairs: &mut PairSource<ScriptFeed, ScriptFeed>,
) -> Result<bool> {
    match pairs.next()? {
        Some(pair) => push(block, &pair)?,
        None => return Ok(false),
    }
    Ok(true)
}

/// Pushes the pairs of a row, at most `most` of them.
pub fn push_row(alloc: Global, block: &mut Block, given: &Given<'_>, most: u64) -> Result<()> {
    let mut pairs = pairs_in(alloc, given, block.encoding())?;
    for _ in 0..most {
        if !push_next(block, &mut pairs)? {
            break;
        }
    }
    Ok(())
}

/// Appends a read as `(title|sequence|quality)`.
pub fn put_read(reads: &mut Vec<u8>, read: &ReadView<'_>) -> Result<()> {
    for (open, part) in [
        (b'(', read.title()),
        (b'|', read.seq()),
        (b'|', read.qual()),
    ] {
        reads.push(open)?;
        reads.extend_from_slice(part)?;
    }
    reads.push(b')')?;
    Ok(())
}

fn put_block(alloc: Global, answers: &mut Answers, block: &Block) -> Result<()> {
    let (number, encoding, len) = (block.number(), block.encoding(), block.len());
    answers.put("number", format!(in alloc; "{number}")?.as_bytes())?;
    answers.put("encoding", format!(in alloc; "{encoding:?}")?.as_bytes())?;
    answers.put("length", format!(in alloc; "{len}")?.as_bytes())?;
    answers.put_yes("empty", block.is_empty())?;
    let mut bytes = String::new(alloc);
    for byte in block.packed() {
        write!(bytes, " {byte:02x}")?;
    }
    answers.put("bytes", bytes.trim_start().as_bytes())?;
    let mut reads = Vec::new(alloc);
    for place in 0..len {
        let pair = block.pair(place);
        put_read(&mut reads, &pair.forward)?;
        put_read(&mut reads, &pair.reverse)?;
    }
    answers.put("reads", &reads)?;
    Ok(())
}

// Pushes the pairs of the row into a block, and puts the answers.
fn fill(alloc: Global, given: &Given<'_>, answers: &mut Answers, block: &mut Block) -> Result<()> {
    if given.find("reset").is_some() {
        push_row(alloc, block, given, 100)?;
        block.reset(given.number("reset", 0)?);
    }
    push_row(alloc, block, given, given.number("pairs", 0)?)?;
    put_block(alloc, answers, block)
}

/// Puts the answers to a `do: block` row.
pub fn answer(alloc: Global, given: &Given<'_>, answers: &mut Answers) -> Result<()> {
    given.allow(&["forward", "reverse", "encoding", "number", "pairs", "reset"])?;
    let number = given.number("number", 0)?;
    let encoding = encoding_in(given)?;
    let mut block = Block::new(alloc, number, encoding);
    fill(alloc, given, answers, &mut block)
}
