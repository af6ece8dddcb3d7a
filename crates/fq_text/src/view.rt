//! Reads that borrow their bytes.

ghost use Rattle.std.specs.Prelude.{true, ◌≡◌, ◌↔◌, ◌==◌, not, IsTrue};
ghost use Rattle.std.specs.List.{list_all};
ghost use Rattle.fq_text.specs.Grammar.{Read, IsLawful};
ghost use Rattle.fq_text.specs.Lines.{line_feed};

use crate::encoding::Encoding;
use crate::judge::{LIMIT, all_bases, begins_with};
use memchr::memchr;
use std::marker::Model;

// Whether a title is one line: it has no LF.
#[tactic(auto, using(crate::proofs::LineLemmas::none_found))]
fn is_one_line(title: &[u8]) -> bool
    ensures { result ≡ list_all (λ b. not (b == line_feed)) title.now }
{
    memchr(b'\n', title).is_none()
}

/// Whether these parts make a valid record, one that a FASTQ text can hold. The title has no line
/// feed and fewer than 1,048,576 bytes. The sequence has at most 1,048,576 bytes, all from 33 to
/// 126, and begins with neither `@` nor `+`. The quality has as many bytes, each with a score in
/// the encoding.
pub fn is_lawful(encoding: Encoding, title: &[u8], seq: &[u8], qual: &[u8]) -> bool
    ensures { IsTrue result ↔ IsLawful
        (record { encoding = encoding; title = title.now; seq = seq.now; qual = qual.now }) }
{
    is_one_line(title) && is_lawful_line(encoding, title, seq, qual)
}

/// [`is_lawful`] for a title that is known to be one line.
pub(crate) fn is_lawful_line(encoding: Encoding, title: &[u8], seq: &[u8], qual: &[u8]) -> bool
    requires { list_all (λ b. not (b == line_feed)) title.now ≡ true }
    ensures { IsTrue result ↔ IsLawful
        (record { encoding = encoding; title = title.now; seq = seq.now; qual = qual.now }) }
{
    if title.len() >= LIMIT {
        return false;
    }
    if seq.len() > LIMIT || !all_bases(seq) || begins_with(seq, b'@') || begins_with(seq, b'+') {
        return false;
    }
    qual.len() == seq.len() && encoding.all_scored(qual)
}

/// One read, borrowed from a record or a block: title, sequence and quality, with the same rules as
/// in a [`FastqRecord`](crate::FastqRecord).
#[derive(Drop)]
pub struct ReadView<'a> {
    encoding: Encoding,
    title: &'a [u8],
    seq: &'a [u8],
    qual: &'a [u8],
}

impl<'a> Model for ReadView<'a> {
    ghost use Rattle.fq_text.specs.Grammar.{Read, IsLawful};

    ghost Value = { Read };

    ghost view = { λ v. record {
      encoding = v.encoding;
      title = v.title.now;
      seq = v.seq.now;
      qual = v.qual.now;
    } };

    ghost invariant = { λ v. IsLawful (record {
      encoding = v.encoding;
      title = v.title.now;
      seq = v.seq.now;
      qual = v.qual.now;
    }) };
}

impl<'a> ReadView<'a> {
    ghost use Rattle.fq_text.specs.Grammar.{IsLawful};

    /// A read of these parts. They must be valid, which [`is_lawful`] tests.
    pub fn new(encoding: Encoding, title: &'a [u8], seq: &'a [u8], qual: &'a [u8]) -> ReadView<'a>
        requires { IsLawful
            (record { encoding = encoding; title = title.now; seq = seq.now; qual = qual.now }) }
        ensures { result
            ≡ record { encoding = encoding; title = title.now; seq = seq.now; qual = qual.now } }
    {
        ReadView {
            encoding,
            title,
            seq,
            qual,
        }
    }

    /// How the quality bytes stand for Phred scores.
    pub fn encoding(&self) -> Encoding
        ensures { result ≡ self.now.encoding }
    {
        self.encoding
    }

    /// The title: the title line without its `@` and its line end.
    pub fn title(&self) -> &'a [u8]
        ensures title { result.now ≡ self.now.title }
        // The type guarantees that the read is valid: a caller learns it by this call.
        ensures lawful { IsLawful self.now }
    {
        self.title
    }

    /// The sequence, one byte per base.
    pub fn seq(&self) -> &'a [u8]
        ensures { result.now ≡ self.now.seq }
    {
        self.seq
    }

    /// The quality, one byte per base.
    pub fn qual(&self) -> &'a [u8]
        ensures { result.now ≡ self.now.qual }
    {
        self.qual
    }
}
