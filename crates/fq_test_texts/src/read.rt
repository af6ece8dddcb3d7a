//! Reads with given parts.

ghost use Rattle.std.specs.Prelude.{◌≡◌, None, IfSome};
ghost use Rattle.fq_text.specs.Grammar.{IsLawful};

use fq_text::{Encoding, ReadView, is_lawful};

/// The read with these parts, or `None` if a FASTQ text cannot hold them.
pub fn lawful_read<'a>(
    encoding: Encoding,
    title: &'a [u8],
    seq: &'a [u8],
    qual: &'a [u8],
) -> Option<ReadView<'a>>
    ensures some { IfSome result (λ read. read
        ≡ record { encoding = encoding; title = title.now; seq = seq.now; qual = qual.now }) }
    ensures none { result ≡ None → IsLawful
        (record { encoding = encoding; title = title.now; seq = seq.now; qual = qual.now }) → ⊥ }
{
    if is_lawful(encoding, title, seq, qual) {
        Some(ReadView::new(encoding, title, seq, qual))
    } else {
        None
    }
}
