//! Records that own their bytes.

ghost use Rattle.std.specs.Prelude.{◌≡◌, ◌++◌, [], OnOk, OnErr};

use crate::encoding::Encoding;
use crate::memory::OutOfMemory;
use crate::view::ReadView;
use std::alloc::{AllocError, Global};
use std::marker::Model;

/// The title, sequence and quality of the record that is being read, in one buffer, which is reused
/// for the next record.
#[derive(Drop)]
pub(crate) struct Parts {
    encoding: Encoding,
    bytes: Vec<u8>,
    title_len: usize,
    seq_len: usize,
}

impl Model for Parts {
    ghost use Rattle.std.specs.Prelude.{◌+◌, ◌≤◌, take, drop, length};
    ghost use Rattle.fq_text.specs.Grammar.{Read};

    ghost Value = { Read };

    ghost view = { λ p. record {
      encoding = p.encoding;
      title = take p.title_len p.bytes.items;
      seq = take p.seq_len (drop p.title_len p.bytes.items);
      qual = drop (p.title_len + p.seq_len) p.bytes.items;
    } };

    ghost invariant = { λ p. p.title_len + p.seq_len ≤ length p.bytes.items };
}

impl Parts {
    ghost use Rattle.fq_text.specs.Grammar.{IsLawful};

    /// Empty parts.
    pub(crate) fn new(alloc: Global, encoding: Encoding) -> Parts
        ensures { result ≡ record { encoding = encoding; title = []; seq = []; qual = [] } }
    {
        Parts {
            encoding,
            bytes: Vec::new(alloc),
            title_len: 0,
            seq_len: 0,
        }
    }

    /// Begins a record that has this title.
    pub(crate) fn begin(&mut self, encoding: Encoding, title: &[u8]) -> Result<(), AllocError>
        ensures { OnOk result (self.new
            ≡ record { encoding = encoding; title = title.now; seq = []; qual = [] }) }
    {
        self.encoding = encoding;
        self.title_len = 0;
        self.seq_len = 0;
        let bytes = &mut self.bytes;
        bytes.clear();
        bytes.extend_from_slice(title)?;
        self.title_len = title.len();
        Ok(())
    }

    /// Copies a read. If memory is refused, the parts are unchanged.
    pub(crate) fn copy_from(&mut self, read: &ReadView<'_>) -> Result<(), AllocError>
        ensures ok { OnOk result (self.new ≡ read.now) }
        ensures err { OnErr result (self.new ≡ self.old) }
        ensures lawful { IsLawful read.now }
    {
        let title = read.title();
        let seq = read.seq();
        let qual = read.qual();
        let len = title.len() + seq.len() + qual.len();
        self.bytes.reserve(len.saturating_sub(self.bytes.len()))?;
        self.bytes.clear();
        self.bytes.extend_from_slice(title).unwrap();
        self.bytes.extend_from_slice(seq).unwrap();
        self.bytes.extend_from_slice(qual).unwrap();
        self.encoding = read.encoding();
        self.title_len = title.len();
        self.seq_len = seq.len();
        Ok(())
    }

    pub(crate) fn push_bases(&mut self, line: &[u8]) -> Result<(), AllocError>
        requires { self.old.qual ≡ [] }
        ensures { OnOk result (self.new ≡ record self.old { seq = self.old.seq ++ line.now }) }
    {
        self.bytes.extend_from_slice(line)?;
        self.seq_len = self.bytes.len() - self.title_len;
        Ok(())
    }

    pub(crate) fn push_scores(&mut self, line: &[u8]) -> Result<(), AllocError>
        ensures { OnOk result (self.new ≡ record self.old { qual = self.old.qual ++ line.now }) }
    {
        self.bytes.extend_from_slice(line)?;
        Ok(())
    }

    pub(crate) fn encoding(&self) -> Encoding
        ensures { result ≡ self.now.encoding }
    {
        self.encoding
    }

    pub(crate) fn title(&self) -> &[u8]
        ensures { result.now ≡ self.now.title }
    {
        &self.bytes[..self.title_len]
    }

    pub(crate) fn seq(&self) -> &[u8]
        ensures { result.now ≡ self.now.seq }
    {
        &self.bytes[self.title_len..self.title_len + self.seq_len]
    }

    pub(crate) fn qual(&self) -> &[u8]
        ensures { result.now ≡ self.now.qual }
    {
        &self.bytes[self.title_len + self.seq_len..]
    }

    /// Borrows the parts as a read. They must make a valid record.
    pub(crate) fn view(&self) -> ReadView<'_>
        requires { IsLawful self.now }
        ensures { result ≡ self.now }
    {
        ReadView::new(self.encoding(), self.title(), self.seq(), self.qual())
    }
}

/// One read of a FASTQ text: its title, its sequence and its quality, one line each.
///
/// The type keeps what the format asks of each part. The title has no line feed and fewer than
/// 1,048,576 bytes. The sequence has at most 1,048,576 bytes, all printable and not blank (33 to
/// 126), and begins with neither `@` nor `+`. The quality has one byte for each base, each with a
/// score in the record's encoding.
#[derive(Drop)]
pub struct FastqRecord {
    parts: Parts,
}

impl Model for FastqRecord {
    ghost use Rattle.fq_text.specs.Grammar.{Read, IsLawful};

    ghost Value = { Read };

    ghost view = { λ r. r.parts };

    ghost invariant = { λ r. IsLawful r.parts };
}

impl FastqRecord {
    ghost use Rattle.fq_text.specs.Grammar.{IsLawful};

    /// A record whose parts are all empty, for [`copy_from`](FastqRecord::copy_from). It asks for
    /// no memory.
    pub fn empty(alloc: Global, encoding: Encoding) -> FastqRecord
        ensures { result ≡ record { encoding = encoding; title = []; seq = []; qual = [] } }
    {
        FastqRecord {
            parts: Parts::new(alloc, encoding),
        }
    }

    /// Makes this record a copy of a read. Memory is asked for only if no record that it held
    /// before was as long. If memory is refused, the record is unchanged.
    pub fn copy_from(&mut self, read: &ReadView<'_>) -> Result<(), OutOfMemory>
        ensures ok { OnOk result (self.new ≡ read.now) }
        ensures err { OnErr result (self.new ≡ self.old) }
    {
        self.parts.copy_from(read)
    }

    /// How the quality bytes stand for Phred scores.
    pub fn encoding(&self) -> Encoding
        ensures { result ≡ self.now.encoding }
    {
        self.parts.encoding()
    }

    /// The title: the title line without its `@` and its line end.
    pub fn title(&self) -> &[u8]
        ensures title { result.now ≡ self.now.title }
        // The type guarantees that the read is valid: a caller learns it by this call.
        ensures lawful { IsLawful self.now }
    {
        self.parts.title()
    }

    /// The sequence, one byte per base, with its lines joined.
    pub fn seq(&self) -> &[u8]
        ensures { result.now ≡ self.now.seq }
    {
        self.parts.seq()
    }

    /// The quality, one byte per base, with its lines joined.
    pub fn qual(&self) -> &[u8]
        ensures { result.now ≡ self.now.qual }
    {
        self.parts.qual()
    }

    /// Borrows the record as a [`ReadView`].
    pub fn view(&self) -> ReadView<'_>
        ensures { result ≡ self.now }
    {
        self.parts.view()
    }
}
