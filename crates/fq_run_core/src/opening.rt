//! Opens the sources of the pairs of a run.

ghost use Rattle.std.specs.Prelude.{◌≡◌, ◌≤◌, ◌*◌, [], false, None, IfOk, IfErr};
ghost use Rattle.fq_text.specs.Reading.{text_limit};
ghost use Rattle.fq_pair.specs.Forms.{TwoTexts, InterleavedText};
ghost use Rattle.fq_pair.specs.Walks.{source_state, interleaved_state};
ghost use Rattle.fq_run_core.specs.PairsRead.{fresh_source};

use crate::refused::refused_over;
use crate::settings::Settings;
use fq_pair::{MixedSource, PairSource};
use fq_text::{Feed, MemoryRefused, Source};
use std::alloc::Global;

// Returns the source of the records of a feed, or the feed and the witness that memory was refused.
fn source_of<F: Feed>(
    alloc: Global,
    settings: &Settings,
    feed: F,
) -> Result<Source<F>, (F, MemoryRefused)>
    requires { (F.state feed).failures ≡ 0 }
    ensures ok { IfOk result (λ source. source ≡ record {
      feed = feed;
      encoding = settings.now.encoding;
      chunk = settings.now.chunk;
      max_reads = settings.now.max_reads;
      in_hand = [];
      ended = false;
      taken = 0;
      given = 0;
      last = None;
      current = None;
    }) }
    ensures few { IfOk result (λ source. source.max_reads * source.chunk ≤ text_limit) }
    ensures err { IfErr result (λ back. back.0 ≡ feed) }
{
    let encoding = settings.encoding();
    let chunk = settings.chunk();
    let max_reads = settings.max_reads();
    Source::new(alloc, feed, encoding, chunk, max_reads).map_err(refused_over)
}

/// Returns the source of the pairs of two feeds, or both feeds and the witness that memory was
/// refused.
pub fn open<F: Feed, G: Feed>(
    alloc: Global,
    settings: &Settings,
    forward: F,
    reverse: G,
) -> Result<PairSource<F, G>, (F, G, MemoryRefused)>
    requires forward { (F.state forward).failures ≡ 0 }
    requires reverse { (G.state reverse).failures ≡ 0 }
    ensures ok { IfOk result (λ source. source_state F.state G.state source
        ≡ fresh_source TwoTexts settings.now (F.state forward) (G.state reverse)) }
    ensures few { IfOk result (λ source.
        source.forward.max_reads * source.forward.chunk ≤ text_limit) }
    ensures err { IfErr result (λ feeds. (feeds.0 ≡ forward) × (feeds.1 ≡ reverse)) }
{
    let forward = match source_of(alloc, settings, forward) {
        Ok(source) => source,
        Err((forward, refused)) => return Err((forward, reverse, refused)),
    };
    match source_of(alloc, settings, reverse) {
        Ok(reverse) => Ok(PairSource::new(forward, reverse, settings.check_names())),
        Err((reverse, refused)) => Err((forward.into_feed(), reverse, refused)),
    }
}

/// Returns the source of the pairs of an interleaved feed, or the feed and the witness that memory
/// was refused.
pub fn open_interleaved<F: Feed>(
    alloc: Global,
    settings: &Settings,
    feed: F,
) -> Result<MixedSource<F>, (F, MemoryRefused)>
    requires { (F.state feed).failures ≡ 0 }
    ensures ok { IfOk result (λ source. interleaved_state F.state source
        ≡ fresh_source InterleavedText settings.now (F.state feed) (F.state feed)) }
    ensures few { IfOk result (λ source.
        source.source.max_reads * source.source.chunk ≤ text_limit) }
    ensures err { IfErr result (λ back. back.0 ≡ feed) }
{
    let source = source_of(alloc, settings, feed)?;
    Ok(MixedSource::new(source, settings.check_names()))
}
