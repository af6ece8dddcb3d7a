//! Packs reads into bytes, and unpacks them.

ghost use Rattle.std.specs.Prelude.{◌≡◌, ◌+◌, ◌≤◌, ◌^◌, ◌<◌, ◌++◌, ◌∷◌, [], Some, length, drop, slice_get, OnOk, OnErr, vec_len, vec_capacity};
ghost use Rattle.fq_text.specs.Grammar.{IsLawful};
ghost use Rattle.fq_pair.specs.Mates.{mates_in};
ghost use Rattle.fq_block.specs.Packing.{length_limit, packed_length, packed_read, packed_pair, room_of, length_in, read_in, after_read, pair_in, HoldsRead, HoldsPair};
ghost use Rattle.fq_block.specs.Blocks.{pairs_at, IsPacked};

use fq_pair::{NameLengths, PairView};
use fq_text::{Encoding, OutOfMemory, ReadView};

/// Appends a pair, the offset where it begins and the lengths of its names. Memory is reserved
/// first, so if memory is refused, nothing has changed.
#[inline(always)]
pub(crate) fn append(
    bytes: &mut Vec<u8>,
    starts: &mut Vec<usize>,
    names: &mut Vec<NameLengths>,
    pair: &PairView<'_>,
    lengths: NameLengths,
) -> Result<(), OutOfMemory>
    ensures bytes { OnOk result
        (bytes.new.items ≡ bytes.old.items
        ++ packed_pair (mates_in pair.now.forward pair.now.reverse)) }
    ensures starts { OnOk result (starts.new.items ≡ starts.old.items ++ vec_len bytes.old ∷ []) }
    ensures names { OnOk result (names.new.items ≡ names.old.items ++ lengths ∷ []) }
    ensures err_bytes { OnErr result (bytes.new.items ≡ bytes.old.items) }
    ensures err_starts { OnErr result (starts.new.items ≡ starts.old.items) }
    ensures err_names { OnErr result (names.new.items ≡ names.old.items) }
    ensures forward { IsLawful pair.now.forward }
    ensures reverse { IsLawful pair.now.reverse }
{
    let start = bytes.len();
    bytes.reserve(packed_len(pair))?;
    starts.reserve(1)?;
    names.push(lengths)?;
    starts.push(start).unwrap();
    append_pair(bytes, pair);
    Ok(())
}

// How many bytes a packed pair takes.
fn packed_len(pair: &PairView<'_>) -> usize
    ensures len { result ≡ room_of pair.now.forward + room_of pair.now.reverse }
    ensures forward { IsLawful pair.now.forward }
    ensures reverse { IsLawful pair.now.reverse }
{
    read_len(&pair.forward) + read_len(&pair.reverse)
}

// How many bytes a packed read takes.
fn read_len(read: &ReadView<'_>) -> usize
    ensures len { result ≡ room_of read.now }
    ensures small { result < 2 ^ 23 }
    ensures lawful { IsLawful read.now }
{
    read.title().len() + 2 * read.seq().len() + 8
}

// Appends a pair. `out` must have room.
fn append_pair(out: &mut Vec<u8>, pair: &PairView<'_>)
    requires { vec_len out.old + (room_of pair.now.forward + room_of pair.now.reverse)
        ≤ vec_capacity out.old }
    ensures { out.new.items ≡ out.old.items
        ++ packed_pair (mates_in pair.now.forward pair.now.reverse) }
{
    append_read(out, &pair.forward);
    append_read(out, &pair.reverse);
}

// Appends a read. `out` must have room.
// Without this hint the compiler would copy the whole view to memory.
#[inline(always)]
fn append_read(out: &mut Vec<u8>, read: &ReadView<'_>)
    requires { vec_len out.old + room_of read.now ≤ vec_capacity out.old }
    ensures items { out.new.items ≡ out.old.items ++ packed_read read.now }
    ensures len { vec_len out.new ≡ vec_len out.old + room_of read.now }
    ensures capacity { vec_capacity out.old ≤ vec_capacity out.new }
{
    append_parts(out, read.title(), read.seq(), read.qual());
}

// Appends the parts of a read. `out` must have room.
fn append_parts(out: &mut Vec<u8>, title: &[u8], seq: &[u8], qual: &[u8])
    requires title { length title.now < length_limit }
    requires bases { length seq.now < length_limit }
    requires room { vec_len out.old + (length title.now + length seq.now + length qual.now + 8)
        ≤ vec_capacity out.old }
    ensures items { out.new.items ≡ out.old.items
        ++ (packed_length (length title.now) ++ packed_length (length seq.now)
        ++ title.now ++ seq.now ++ qual.now) }
    ensures len { vec_len out.new
        ≡ vec_len out.old + (length title.now + length seq.now + length qual.now + 8) }
    ensures capacity { vec_capacity out.old ≤ vec_capacity out.new }
{
    append_lengths(out, title.len(), seq.len());
    out.extend_from_slice(title).unwrap();
    out.extend_from_slice(seq).unwrap();
    out.extend_from_slice(qual).unwrap();
}

// Appends two lengths, four bytes each. `out` must have room.
#[tactic(auto, unfolding(crate::specs::Packing::packed_length))]
fn append_lengths(out: &mut Vec<u8>, title_len: usize, bases: usize)
    requires title { title_len < length_limit }
    requires bases { bases < length_limit }
    requires room { vec_len out.old + 8 ≤ vec_capacity out.old }
    ensures items { out.new.items
        ≡ out.old.items ++ (packed_length title_len ++ packed_length bases) }
    ensures len { vec_len out.new ≡ vec_len out.old + 8 }
    ensures capacity { vec_capacity out.old ≤ vec_capacity out.new }
{
    let [a, b, c, d] = (title_len as u32).to_be_bytes();
    let [e, f, g, h] = (bases as u32).to_be_bytes();
    out.extend_from_slice(&[a, b, c, d, e, f, g, h]).unwrap();
}

/// Returns the bytes from pair `i` on.
pub(crate) fn packed_at<'a>(
    encoding: Encoding,
    bytes: &'a [u8],
    starts: &[usize],
    i: usize,
) -> &'a [u8]
    requires packed { IsPacked encoding bytes.now starts.now }
    requires within { i < length starts.now }
    ensures held { HoldsPair encoding result.now }
    ensures pair { slice_get (pairs_at encoding bytes.now starts.now) i
        ≡ Some (pair_in encoding result.now) }
{
    let (_, packed) = bytes.split_at(starts[i]);
    packed
}

/// Unpacks the pair at the front of these bytes.
pub(crate) fn unpack_pair(encoding: Encoding, packed: &[u8]) -> PairView<'_>
    requires { HoldsPair encoding packed.now }
    ensures { mates_in result.forward result.reverse ≡ pair_in encoding packed.now }
{
    let (forward, after) = unpack_read(encoding, packed);
    let (reverse, _) = unpack_read(encoding, after);
    PairView { forward, reverse }
}

// Unpacks the read at the front of these bytes, and returns the bytes after it too.
fn unpack_read(encoding: Encoding, packed: &[u8]) -> (ReadView<'_>, &[u8])
    requires { HoldsRead encoding packed.now }
    ensures read { result.0 ≡ read_in encoding packed.now }
    ensures after { result.1.now ≡ after_read packed.now }
{
    let (title_len, lengths) = unpack_length(packed);
    let (bases, parts) = unpack_length(lengths);
    let (title, scored) = parts.split_at(title_len);
    let (seq, scores) = scored.split_at(bases);
    let (qual, after) = scores.split_at(bases);
    (ReadView::new(encoding, title, seq, qual), after)
}

// Returns the length in the first four bytes, and the bytes after them.
#[tactic(auto, unfolding(crate::specs::Packing::length_in))]
fn unpack_length(packed: &[u8]) -> (usize, &[u8])
    requires { 4 ≤ length packed.now }
    ensures length { result.0 ≡ length_in packed.now }
    ensures after { result.1.now ≡ drop 4 packed.now }
{
    let (bytes, after) = packed.split_first_chunk::<4>().unwrap();
    (u32::from_be_bytes(*bytes) as usize, after)
}
