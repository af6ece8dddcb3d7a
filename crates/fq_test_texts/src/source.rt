//! A source of a text in memory.

ghost use Rattle.std.specs.Prelude.{◌≡◌, None, [], IfOk};

use fq_text::{Encoding, OutOfMemory, ScriptFeed, Source};
use std::alloc::Global;

// The most bytes of a read call. A source makes at most `READS` calls.
const CHUNK: usize = 1000;

const READS: u64 = 1000;

/// A source of the records of a text. It reads at most 1000 times 1000 bytes.
pub fn source_of(
    alloc: Global,
    text: &[u8],
    encoding: Encoding,
) -> Result<Source<ScriptFeed>, OutOfMemory>
    ensures text { IfOk result (λ source. source.feed.bytes ≡ text.now) }
    ensures encoding { IfOk result (λ source. source.encoding ≡ encoding) }
    ensures in_hand { IfOk result (λ source. source.in_hand ≡ []) }
    ensures taken { IfOk result (λ source. source.taken ≡ 0) }
    ensures given { IfOk result (λ source. source.given ≡ 0) }
    ensures last { IfOk result (λ source. source.last ≡ None) }
{
    let feed = ScriptFeed::new(alloc, text, CHUNK, 0)?;
    Source::new(alloc, feed, encoding, CHUNK, READS).map_err(|_| OutOfMemory)
}
