//! The lines of a feed, read as they are needed.

ghost use Rattle.std.specs.Prelude.{◌≡◌, ◌+◌, ◌*◌, ◌<◌, ◌≤◌, true, false, [], length, take, drop, IsTrue, IfOk, IfErr, IfSome, MatchResult};
ghost use Rattle.fq_text.specs.Lines.{without_cr};
ghost use Rattle.fq_text.specs.Grammar.{limit};
ghost use Rattle.fq_text.specs.Reading.{chunk_limit, Lined, IsSound, Advances, Halts, fails};

use crate::buffer::Buffer;
use crate::fault::{Fault, ReadError};
use crate::feed::Feed;
use crate::judge::LIMIT;
use memchr::memchr;
use std::marker::Model;

/// A reader of the lines of a feed.
#[derive(Drop)]
pub(crate) struct LineReader<F: Feed> {
    feed: F,
    chunk: usize,
    max_reads: u64,
    reads: u64,
    taken: u64,
    // Whether the feed has reported its end.
    ended: bool,
    buffer: Buffer,
}

impl<F: Feed> Model for LineReader<F> {
    ghost use Rattle.std.specs.Prelude.{◌≡◌, ◌*◌, ◌<◌, ◌≤◌, ◌^◌, [], IsTrue, false};
    ghost use Rattle.fq_text.specs.Reading.{chunk_limit, Lined};

    ghost Value = { Lined F };

    ghost view = { λ r. record {
      feed = r.feed;
      line = r.buffer.line;
      in_hand = r.buffer.in_hand;
      ended = r.ended;
      taken = r.taken;
      chunk = r.chunk;
      max_reads = r.max_reads;
    } };

    ghost invariant = { λ r. (0 < r.chunk) × (r.chunk ≤ chunk_limit) × (r.max_reads ≤ 2 ^ 40)
        × (r.reads ≤ r.max_reads) × (r.taken ≤ r.reads * r.chunk)
        × (r.ended ≡ false → r.reads ≤ r.taken)
        × (IsTrue r.ended → IsTrue (F.state r.feed).tells → (F.state r.feed).to_come ≡ []) };
}

impl<F: Feed> LineReader<F> {
    ghost use Rattle.std.specs.Prelude.{◌^◌};
    ghost use Rattle.fq_text.specs.Reading.{Fills, NoLf, IsLineEnd};
    ghost use Rattle.fq_text.specs.declared.fault.Fault.TheVariants.{TooLong};

    pub(crate) fn new(feed: F, buffer: Buffer, chunk: usize, max_reads: u64) -> LineReader<F>
        requires empty { buffer ≡ record { line = []; in_hand = [] } }
        requires some { 0 < chunk }
        requires small { chunk ≤ chunk_limit }
        requires few { max_reads ≤ 2 ^ 40 }
        ensures { result ≡ record {
          feed = feed;
          line = [];
          in_hand = [];
          ended = false;
          taken = 0;
          chunk = chunk;
          max_reads = max_reads;
        } }
    {
        LineReader {
            feed,
            chunk,
            max_reads,
            reads: 0,
            taken: 0,
            ended: false,
            buffer,
        }
    }

    /// The feed in its current state.
    pub(crate) fn feed(&self) -> &F
        ensures { result.now ≡ self.now.feed }
    {
        &self.feed
    }

    /// The feed in its current state.
    pub(crate) fn into_feed(self) -> F
        ensures { result ≡ self.feed }
    {
        self.feed
    }

    /// The line that was read last.
    pub(crate) fn line(&self) -> &[u8]
        ensures { result.now ≡ self.now.line }
    {
        self.buffer.line()
    }

    /// The bytes in hand: those read from the feed and not used yet.
    pub(crate) fn hand(&self) -> &[u8]
        ensures { result.now ≡ self.now.in_hand }
    {
        self.buffer.in_hand()
    }

    /// Takes the next line: the first `len` bytes in hand, without a CR at their end. `used` is its
    /// length with the line end.
    pub(crate) fn take_line(&mut self, len: usize, used: usize)
        requires within { len ≤ used }
        requires in_hand { used ≤ length self.old.in_hand }
        ensures { self.new ≡ record self.old {
          line = without_cr (take len self.old.in_hand);
          in_hand = drop used self.old.in_hand;
        } }
    {
        self.buffer.use_line(len, used);
    }

    // Makes one more read call.
    fn fill(&mut self) -> Result<(), ReadError>
        requires failures { (F.state self.old.feed).failures < u64.MAX }
        requires going { self.old.ended ≡ false }
        requires small { length self.old.in_hand ≤ limit + 1 }
        ensures fills { Fills F.state self.old self.new result }
        ensures sound { IsSound F.state self.new }
        ensures failures { (F.state self.new.feed).failures
            ≡ (F.state self.old.feed).failures + fails result }
    {
        if self.reads == self.max_reads {
            return Err(ReadError::Endless);
        }
        let n = self.buffer.read_from(&mut self.feed, self.chunk)?;
        self.reads += 1;
        self.taken += n as u64;
        self.ended = n == 0;
        Ok(())
    }

    /// Reads the next line. Returns `false` at the end of the text.
    #[tactic(auto, using(std::proofs::lemmas::Grind::common_steps, crate::proofs::AdvanceLemmas::takes_all, crate::proofs::AdvanceLemmas::judged_as, crate::proofs::AdvanceLemmas::long_taken, crate::proofs::AdvanceLemmas::long_waiting, crate::proofs::AdvanceLemmas::sound_behind))]
    pub(crate) fn advance(&mut self) -> Result<bool, ReadError>
        requires failures { (F.state self.old.feed).failures < u64.MAX }
        requires sound { IsSound F.state self.old }
        ensures step { MatchResult result (Advances F.state self.old self.new)
            (Halts F.state self.old self.new) }
        ensures sound { IsSound F.state self.new }
        ensures failures { (F.state self.new.feed).failures
            ≡ (F.state self.old.feed).failures + fails result }
    {
        // How many of the bytes in hand are known to hold no LF.
        let mut scanned = 0;
        loop {
            if let Some(at) = self.line_end_from(scanned) {
                self.take_line(at, at + 1);
                return self.judged();
            }
            scanned = self.in_hand();
            if scanned > LIMIT + 1 {
                return Err(ReadError::Fault(Fault::TooLong));
            }
            if self.ended {
                if scanned == 0 {
                    return Ok(false);
                }
                self.take_line(scanned, scanned);
                return self.judged();
            }
            self.fill()?;
        }
    }

    // How many bytes are in hand.
    fn in_hand(&self) -> usize
        ensures { result ≡ length self.now.in_hand }
    {
        self.buffer.len()
    }

    // The index of the first LF in hand. The first `scanned` bytes are known to hold none.
    fn line_end_from(&self, scanned: usize) -> Option<usize>
        requires within { scanned ≤ length self.now.in_hand }
        requires none { NoLf self.now.in_hand scanned }
        ensures place { IsLineEnd self.now.in_hand result }
        ensures fits { IfSome result (λ at. at < u64.MAX) }
    {
        let at = memchr(b'\n', &self.hand()[scanned..])?;
        Some(scanned + at)
    }

    // The result of reading the line that was just taken, which may be too long.
    fn judged(&self) -> Result<bool, ReadError>
        ensures ok { IfOk result (λ more. (more ≡ true) × (length self.now.line ≤ limit)) }
        ensures err { IfErr result (λ error. (error ≡ ReadError.Fault TooLong)
            × (limit < length self.now.line)) }
    {
        if self.line().len() > LIMIT {
            Err(ReadError::Fault(Fault::TooLong))
        } else {
            Ok(true)
        }
    }
}
