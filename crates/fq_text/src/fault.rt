//! The faults of a text, and the other reasons why reading stops.

ghost use Rattle.std.specs.Prelude.{◌≡◌};

use std::alloc::AllocError;
use thiserror::Error;

/// What is wrong with a record.
#[derive(Clone, Copy, Debug, PartialEq, Eq)]
pub(crate) enum Fault {
    NoTitle,
    BadSequence,
    NoPlus,
    PlusDiffers,
    BadQuality,
    QualityLong,
    QualityShort,
    TooLong,
}

/// Why no further record was read. A fault of the text carries the number of its record, counted
/// from 1.
///
/// The rules are those of the FASTQ format (Cock et al., Nucleic Acids Research 38(6), 1767 to
/// 1771, 2010).
#[derive(Clone, Copy, Debug, PartialEq, Eq, Error)]
pub enum TextFault {
    /// The line is expected to be a title line, but does not begin with `@`.
    #[error("record {0}: the title line doesn't begin with @")]
    NoTitle(u64),
    /// A sequence line begins with `@`, or holds a byte outside 33 to 126.
    #[error("record {0}: a sequence line has a byte that is no base")]
    BadSequence(u64),
    /// The text ends before the line that begins with `+`.
    #[error("record {0}: the text ends before the + line")]
    NoPlus(u64),
    /// The text after the `+` is neither empty nor the title.
    #[error("record {0}: the + line holds another title")]
    PlusDiffers(u64),
    /// A quality byte has no score in the encoding.
    #[error("record {0}: a quality byte has no score in this encoding")]
    BadQuality(u64),
    /// The quality has more bytes than the sequence.
    #[error("record {0}: the quality is longer than the sequence")]
    QualityLong(u64),
    /// The text ends before the quality is as long as the sequence.
    #[error("record {0}: the text ends before the quality is as long as the sequence")]
    QualityShort(u64),
    /// A line, or the joined sequence, has more than 1,048,576 bytes.
    #[error("record {0}: a line or the sequence has more than 1048576 bytes")]
    TooLong(u64),
    /// A read call on the feed failed.
    #[error("the input could not be read")]
    Read,
    /// The allowed number of read calls was made, and one more is needed.
    #[error("the input does not end")]
    Endless,
    /// Memory was refused.
    #[error("out of memory")]
    OutOfMemory,
}

impl TextFault {
    ghost use Rattle.fq_text.specs.Sources.{fault_name, faulty_record};

    /// The name of this fault in messages: that of its variant.
    pub fn name(self) -> &'static str
        ensures { result.now ≡ fault_name self }
    {
        match self {
            TextFault::NoTitle(_) => "NoTitle",
            TextFault::BadSequence(_) => "BadSequence",
            TextFault::NoPlus(_) => "NoPlus",
            TextFault::PlusDiffers(_) => "PlusDiffers",
            TextFault::BadQuality(_) => "BadQuality",
            TextFault::QualityLong(_) => "QualityLong",
            TextFault::QualityShort(_) => "QualityShort",
            TextFault::TooLong(_) => "TooLong",
            TextFault::Read => "Read",
            TextFault::Endless => "Endless",
            TextFault::OutOfMemory => "OutOfMemory",
        }
    }

    /// The number of the faulty record. `None` if the text could not be read to its end.
    pub fn record(self) -> Option<u64>
        ensures { result ≡ faulty_record self }
    {
        match self {
            TextFault::NoTitle(number)
            | TextFault::BadSequence(number)
            | TextFault::NoPlus(number)
            | TextFault::PlusDiffers(number)
            | TextFault::BadQuality(number)
            | TextFault::QualityLong(number)
            | TextFault::QualityShort(number)
            | TextFault::TooLong(number) => Some(number),
            TextFault::Read | TextFault::Endless | TextFault::OutOfMemory => None,
        }
    }
}

/// Why a record could not be read, without the record's number.
#[derive(Clone, Copy, Debug, PartialEq, Eq)]
pub(crate) enum ReadError {
    Fault(Fault),
    Read,
    Endless,
    OutOfMemory,
}

impl ReadError {
    ghost use Rattle.fq_text.specs.Sources.{text_fault};

    /// This error as a [`TextFault`] of the record with this number.
    pub(crate) fn numbered(self, number: u64) -> TextFault
        ensures { result ≡ text_fault self number }
    {
        match self {
            ReadError::Fault(Fault::NoTitle) => TextFault::NoTitle(number),
            ReadError::Fault(Fault::BadSequence) => TextFault::BadSequence(number),
            ReadError::Fault(Fault::NoPlus) => TextFault::NoPlus(number),
            ReadError::Fault(Fault::PlusDiffers) => TextFault::PlusDiffers(number),
            ReadError::Fault(Fault::BadQuality) => TextFault::BadQuality(number),
            ReadError::Fault(Fault::QualityLong) => TextFault::QualityLong(number),
            ReadError::Fault(Fault::QualityShort) => TextFault::QualityShort(number),
            ReadError::Fault(Fault::TooLong) => TextFault::TooLong(number),
            ReadError::Read => TextFault::Read,
            ReadError::Endless => TextFault::Endless,
            ReadError::OutOfMemory => TextFault::OutOfMemory,
        }
    }
}

impl From<AllocError> for ReadError {
    ghost use Rattle.std.specs.Prelude.{◌≡◌};
    ghost use Rattle.fq_text.specs.declared.fault.ReadError.TheVariants.{OutOfMemory};

    ghost from_gives = { λ _ e. e ≡ OutOfMemory };

    fn from(_e: AllocError) -> ReadError {
        ReadError::OutOfMemory
    }
}
