//! The buffer of bytes that were read and not used yet.

ghost use Rattle.std.specs.Prelude.{◌≡◌, ◌+◌, ◌-◌, ◌<◌, ◌≤◌, [], length, take, drop, IfOk, OnOk, MatchResult};
ghost use Rattle.fq_text.specs.Lines.{without_cr};
ghost use Rattle.fq_text.specs.Reading.{chunk_limit, Moved, MovesOr, fails};

use crate::fault::ReadError;
use crate::feed::Feed;
use std::alloc::{AllocError, Global};
use std::marker::Model;

/// The length of a piece without the one CR that it may end with.
#[tactic(auto, using(std::proofs::lemmas::Grind::common_steps, crate::proofs::LineLemmas::without_cr_yes, crate::proofs::LineLemmas::without_cr_no, std::proofs::lemmas::List::take_all))]
pub(crate) fn len_without_cr(piece: &[u8]) -> usize
    ensures within { result ≤ length piece.now }
    ensures line { without_cr piece.now ≡ take result piece.now }
{
    let len = piece.len();
    if len > 0 && piece[len - 1] == b'\r' {
        len - 1
    } else {
        len
    }
}

// Makes room for a chunk after the first `filled` bytes.
fn grow(bytes: &mut Vec<u8>, filled: usize, chunk: usize) -> Result<(), AllocError>
    requires filled { filled ≤ length bytes.old.items }
    requires room { filled + chunk < u64.MAX }
    ensures room { OnOk result (filled + chunk ≤ length bytes.new.items) }
    ensures within { filled ≤ length bytes.new.items }
    ensures kept { take filled bytes.new.items ≡ take filled bytes.old.items }
{
    if bytes.len() < filled + chunk {
        bytes.resize(filled + chunk, 0)?;
    }
    Ok(())
}

// Makes one read call, whose bytes come after the first `filled` bytes.
fn read_more<F: Feed>(
    feed: &mut F,
    bytes: &mut Vec<u8>,
    filled: usize,
    chunk: usize,
) -> Result<usize, ReadError>
    requires failures { (F.state feed.old).failures < u64.MAX }
    requires filled { filled ≤ length bytes.old.items }
    requires room { filled + chunk < u64.MAX }
    requires some { 0 < chunk }
    ensures moved { MatchResult result (λ n. Moved F.state feed.old feed.new
        (take filled bytes.old.items) (take (filled + n) bytes.new.items) chunk n)
        (MovesOr F.state feed.old feed.new (take filled bytes.old.items)
        (take filled bytes.new.items)) }
    ensures within { MatchResult result (λ n. filled + n ≤ length bytes.new.items)
        (λ _. filled ≤ length bytes.new.items) }
    ensures failures { (F.state feed.new).failures ≡ (F.state feed.old).failures + fails result }
    ensures told { (F.state feed.new).tells ≡ (F.state feed.old).tells }
{
    grow(bytes, filled, chunk)?;
    feed.read(&mut bytes[filled..filled + chunk])
        .map_err(|_| ReadError::Read)
}

/// The line that was taken last, and the bytes after it that are in hand: read and not used yet.
#[derive(Drop)]
pub(crate) struct Buffer {
    bytes: Vec<u8>,
    // The line that was taken last.
    line_start: usize,
    line_end: usize,
    // The bytes in hand.
    start: usize,
    filled: usize,
}

impl Model for Buffer {
    ghost use Rattle.std.specs.Prelude.{◌-◌, ◌≤◌, drop, take, length};
    ghost use Rattle.fq_text.specs.Reading.{Buffered};

    ghost Value = { Buffered };

    ghost view = { λ b. record {
      line = take (b.line_end - b.line_start) (drop b.line_start b.bytes.items);
      in_hand = take (b.filled - b.start) (drop b.start b.bytes.items);
    } };

    ghost invariant = { λ b. (b.line_start ≤ b.line_end) × (b.line_end ≤ b.start)
        × (b.start ≤ b.filled) × (b.filled ≤ length b.bytes.items) };
}

impl Buffer {
    /// A buffer with no bytes in hand and room for a chunk.
    pub(crate) fn new(alloc: Global, chunk: usize) -> Result<Buffer, AllocError>
        ensures { IfOk result (λ b. b ≡ record { line = []; in_hand = [] }) }
    {
        let mut bytes = Vec::new(alloc);
        bytes.resize(chunk, 0)?;
        Ok(Buffer {
            bytes,
            line_start: 0,
            line_end: 0,
            start: 0,
            filled: 0,
        })
    }

    /// The line that was taken last.
    pub(crate) fn line(&self) -> &[u8]
        ensures { result.now ≡ self.now.line }
    {
        &self.bytes[self.line_start..self.line_end]
    }

    /// The bytes in hand.
    pub(crate) fn in_hand(&self) -> &[u8]
        ensures { result.now ≡ self.now.in_hand }
    {
        &self.bytes[self.start..self.filled]
    }

    /// How many bytes are in hand.
    pub(crate) fn len(&self) -> usize
        ensures { result ≡ length self.now.in_hand }
    {
        self.filled - self.start
    }

    /// Takes the next line: the first `len` bytes in hand, without a CR at their end. `used` is its
    /// length with the line end.
    #[tactic(auto, using(std::proofs::lemmas::Grind::common_steps, crate::proofs::ReadLemmas::line_of_hand, crate::proofs::ReadLemmas::hand_used))]
    pub(crate) fn use_line(&mut self, len: usize, used: usize)
        requires within { len ≤ used }
        requires in_hand { used ≤ length self.old.in_hand }
        ensures { self.new ≡ record {
          line = without_cr (take len self.old.in_hand);
          in_hand = drop used self.old.in_hand;
        } }
    {
        let start = self.start;
        let end = start + len_without_cr(&self.bytes[start..start + len]);
        self.line_start = start;
        self.line_end = end;
        self.start = start + used;
    }

    // Moves the bytes in hand to the front of the buffer, if they are no more than the bytes before
    // them: so all moves together move no more bytes than were used.
    fn make_room(&mut self)
        ensures { self.new ≡ record { line = []; in_hand = self.old.in_hand } }
    {
        let len = self.filled - self.start;
        self.line_start = 0;
        self.line_end = 0;
        if len <= self.start {
            self.bytes.copy_within(self.start..self.filled, 0);
            self.start = 0;
            self.filled = len;
        }
    }

    /// Makes one read call, for at most `chunk` bytes.
    pub(crate) fn read_from<F: Feed>(
        &mut self,
        feed: &mut F,
        chunk: usize,
    ) -> Result<usize, ReadError>
        requires failures { (F.state feed.old).failures < u64.MAX }
        requires some { 0 < chunk }
        requires small { chunk ≤ chunk_limit }
        ensures moved { MatchResult result
            (Moved F.state feed.old feed.new self.old.in_hand self.new.in_hand chunk)
            (MovesOr F.state feed.old feed.new self.old.in_hand self.new.in_hand) }
        ensures failures { (F.state feed.new).failures
            ≡ (F.state feed.old).failures + fails result }
        ensures told { (F.state feed.new).tells ≡ (F.state feed.old).tells }
    {
        self.make_room();
        let n = read_more(feed, &mut self.bytes, self.filled, chunk)?;
        self.filled += n;
        Ok(n)
    }
}
