//! Writes records.

ghost use Rattle.std.specs.Prelude.{◌≡◌, ◌+◌, ◌≤◌, ◌++◌, ◌∷◌, [], length, min, OnOk, OnErr, IsOk, vec_len, vec_capacity};
ghost use Rattle.fq_text.specs.Grammar.{at_sign, plus_sign};
ghost use Rattle.fq_text.specs.Lines.{line_feed};
ghost use Rattle.fq_text.specs.Written.{written, written_len, written_quality, CanRecode};

use crate::encoding::Encoding;
use crate::memory::OutOfMemory;

/// Appends a record to `out` as four unwrapped lines, each ended by LF: `@` and the title, the
/// sequence, a bare `+`, the quality (Cock, Fields, Goto, Heuer and Rice, Nucleic Acids Research
/// 38(6), 2010).
///
/// If `recode` is `None`, the quality bytes are kept. If it names their encoding, in which each
/// byte must have a score, each byte is written as its score plus 33: the written record is in
/// Sanger's encoding, as after Trimmomatic's step TOPHRED33.
///
/// Memory is asked for once, for the whole record, and only if `out` lacks the room. If memory is
/// refused, `out` is unchanged.
pub fn put_record(
    out: &mut Vec<u8>,
    title: &[u8],
    seq: &[u8],
    qual: &[u8],
    recode: Option<Encoding>,
) -> Result<(), OutOfMemory>
    requires { CanRecode recode qual.now }
    ensures ok { OnOk result (out.new.items
        ≡ out.old.items ++ written title.now seq.now (written_quality recode qual.now)) }
    ensures err { OnErr result (out.new.items ≡ out.old.items) }
    ensures room { vec_len out.old + written_len title.now seq.now qual.now ≤ vec_capacity out.old
        → IsOk result }
{
    out.reserve(len_written(title, seq, qual))?;
    append_record(out, title, seq, qual, recode);
    Ok(())
}

// The bytes of the four lines: the parts, `@`, `+` and four line ends. A sum larger than
// `usize::MAX` counts as that, and no text is that long.
fn len_written(title: &[u8], seq: &[u8], qual: &[u8]) -> usize
    ensures { result ≡ min (written_len title.now seq.now qual.now) usize.MAX }
{
    title
        .len()
        .saturating_add(seq.len())
        .saturating_add(qual.len())
        .saturating_add(6)
}

/// [`put_record`] for an `out` that has the room: the bytes of title, sequence and quality, and 6
/// more. It asks for no memory.
#[inline(always)]
pub fn append_record(
    out: &mut Vec<u8>,
    title: &[u8],
    seq: &[u8],
    qual: &[u8],
    recode: Option<Encoding>,
)
    requires scored { CanRecode recode qual.now }
    requires room { vec_len out.old + written_len title.now seq.now qual.now
        ≤ vec_capacity out.old }
    ensures { out.new.items
        ≡ out.old.items ++ written title.now seq.now (written_quality recode qual.now) }
{
    append_head(out, title, seq);
    append_quality(out, qual, recode);
    out.push(b'\n').unwrap();
}

fn append_head(out: &mut Vec<u8>, title: &[u8], seq: &[u8])
    requires { vec_len out.old + length title.now + length seq.now + 5 ≤ vec_capacity out.old }
    ensures items { out.new.items
        ≡ out.old.items ++ (at_sign ∷ title.now ++ line_feed ∷ seq.now ++ line_feed ∷ plus_sign
        ∷ line_feed ∷ []) }
    ensures capacity { vec_capacity out.old ≤ vec_capacity out.new }
{
    out.push(b'@').unwrap();
    out.extend_from_slice(title).unwrap();
    out.push(b'\n').unwrap();
    out.extend_from_slice(seq).unwrap();
    out.extend_from_slice(b"\n+\n").unwrap();
}

fn append_quality(out: &mut Vec<u8>, qual: &[u8], recode: Option<Encoding>)
    requires scored { CanRecode recode qual.now }
    requires room { vec_len out.old + length qual.now ≤ vec_capacity out.old }
    ensures items { out.new.items ≡ out.old.items ++ written_quality recode qual.now }
    ensures capacity { vec_capacity out.old ≤ vec_capacity out.new }
{
    let start = out.len();
    out.extend_from_slice(qual).unwrap();
    match recode {
        None => {}
        Some(encoding) => encoding.recode(&mut out[start..]),
    }
}
