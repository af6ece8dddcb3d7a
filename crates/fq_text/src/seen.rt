//! What devices of the system can say after they were used: why a call failed, and what the first
//! bytes looked like.

ghost use Rattle.std.specs.Prelude.{◌≡◌, ℕ, pos, Some, None};
ghost use Rattle.std.specs.IoError.{raw_os_error};
ghost use Rattle.fq_text.specs.Looks.{look_of};

use std::io;

/// Why the system refused a call: the number that it gave (`errno`).
#[derive(Clone, Copy, Debug, PartialEq, Eq)]
pub struct SystemError {
    /// The number. It is 0 if the system gave none.
    pub number: u32,
}

impl SystemError {
    /// The number of an error of the standard library.
    pub fn of(error: io::Error) -> SystemError
        ensures number { (number : ℕ) → raw_os_error error ≡ Some (pos number)
            → result.number ≡ number }
        ensures none { raw_os_error error ≡ None → result.number ≡ 0 }
    {
        match error.raw_os_error() {
            Some(code) => SystemError {
                number: code.unsigned_abs(),
            },
            None => SystemError { number: 0 },
        }
    }
}

/// What the first bytes of a file look like, if not like FASTQ.
#[derive(Clone, Copy, Debug, PartialEq, Eq)]
pub enum Look {
    /// They are those of `gzip`, which BAM files are compressed by too.
    Gzip,
    /// They are those of an uncompressed BAM file.
    Bam,
    /// The first is `>`, as in FASTA.
    Fasta,
    /// They are none of these.
    Unknown,
}

impl Look {
    /// What a file that begins with these bytes looks like.
    pub fn of(bytes: &[u8]) -> Look
        ensures { result ≡ look_of bytes.now }
    {
        if bytes.starts_with(b"\x1f\x8b") {
            Look::Gzip
        } else if bytes.starts_with(b"BAM\x01") {
            Look::Bam
        } else if bytes.starts_with(b">") {
            Look::Fasta
        } else {
            Look::Unknown
        }
    }
}

/// What a feed can say after it was used.
#[derive(Clone, Copy, Debug, PartialEq, Eq)]
pub struct Seen {
    /// Why its last failed read call failed, if one failed.
    pub error: Option<SystemError>,
    /// What its first bytes looked like.
    pub look: Look,
}

impl Seen {
    /// What is said by a feed of which nothing is known.
    pub const NOTHING: Seen = Seen {
        error: None,
        look: Look::Unknown,
    };
}
