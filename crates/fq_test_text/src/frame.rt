//! The functions of `fq_text` that the tests call. Their contracts are not repeated here, so that a
//! test is proved without what it does not need.

ghost use Rattle.std.specs.Prelude.{◌<◌, ◌≤◌};
ghost use Rattle.fq_text.specs.Reading.{chunk_limit};

use fq_text::*;
use std::alloc::Global;
use std::test::Fail;

const LONG: u64 = 1 << 40;

pub type InMemory = Source<ScriptFeed>;

/// A source of a text in memory, of which each read call moves at most `cut` bytes.
pub fn source(
    alloc: Global,
    text: &[u8],
    encoding: Encoding,
    cut: usize,
    chunk: usize,
) -> Result<InMemory, Fail>
    requires cut { 0 < cut }
    requires some { 0 < chunk }
    requires small { chunk ≤ chunk_limit }
{
    let feed = ScriptFeed::new(alloc, text, cut, 0)?;
    match Source::new(alloc, feed, encoding, chunk, LONG) {
        Ok(source) => Ok(source),
        Err(_) => Err("no memory for a source")?,
    }
}

/// The next record.
pub fn next(source: &mut InMemory) -> Result<Option<FastqRecord>, TextFault> {
    source.next()
}

/// Whether the text is at its end.
pub fn ends(source: &mut InMemory) -> bool {
    matches!(next(source), Ok(None))
}

/// Whether this fault is returned next.
pub fn faults(source: &mut InMemory, wanted: TextFault) -> bool {
    match next(source) {
        Ok(_) => false,
        Err(fault) => fault == wanted,
    }
}
