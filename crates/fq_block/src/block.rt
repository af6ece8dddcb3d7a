//! Blocks of pairs.

ghost use Rattle.std.specs.Prelude.{◌≡◌, ◌<◌, ◌≤◌, ◌++◌, ◌∷◌, [], Some, length, slice_get, IfSome, OnOk, OnErr};
ghost use Rattle.fq_pair.specs.Mates.{mates_in, name_lengths};

use crate::packing::{append, packed_at, unpack_pair};
use fq_pair::{NameLengths, Pair, PairView};
use fq_text::{Encoding, OutOfMemory};
use std::alloc::Global;
use std::marker::Model;

/// A number, an encoding, and at most 65,536 pairs, whose reads are all in that encoding.
///
/// The pairs are packed into one buffer, one after the other. Two more buffers hold where each pair
/// begins and the lengths of its names. Contracts see the number, the encoding and the list of the
/// pairs.
#[derive(Drop)]
pub struct Block {
    number: u64,
    encoding: Encoding,
    bytes: Vec<u8>,
    // Where each pair begins in `bytes`.
    starts: Vec<usize>,
    // The lengths of the names of each pair.
    names: Vec<NameLengths>,
}

impl Model for Block {
    ghost use Rattle.fq_block.specs.Blocks.{Numbered, pairs_at, IsPacked, AreNamed};

    ghost Value = { Numbered };

    ghost view = { λ b. record {
      number = b.number;
      encoding = b.encoding;
      pairs = pairs_at b.encoding b.bytes.items b.starts.items;
    } };

    ghost invariant = { λ b. IsPacked b.encoding b.bytes.items b.starts.items
        × AreNamed (pairs_at b.encoding b.bytes.items b.starts.items) b.names.items };
}

impl Block {
    ghost use Rattle.std.specs.Prelude.{◌==◌};
    ghost use Rattle.fq_block.specs.Packing.{packed_pairs};
    ghost use Rattle.fq_block.specs.Blocks.{most_pairs, IsOf};

    /// Makes a block with this number and no pairs. It allocates nothing until a pair is pushed.
    pub fn new(alloc: Global, number: u64, encoding: Encoding) -> Block
        ensures { result ≡ record { number = number; encoding = encoding; pairs = [] } }
    {
        Block {
            number,
            encoding,
            bytes: Vec::new(alloc),
            starts: Vec::new(alloc),
            names: Vec::new(alloc),
        }
    }

    /// Appends a copy of a pair. Memory is reserved before anything is written, so if memory is
    /// refused, the block has not changed.
    ///
    /// The pair must be in the encoding of the block, which must have fewer than 65,536 pairs.
    pub fn push(&mut self, pair: &Pair) -> Result<(), OutOfMemory>
        requires encoding { IsOf self.old.encoding pair.now }
        requires room { length self.old.pairs < most_pairs }
        ensures ok { OnOk result
            (self.new ≡ record self.old { pairs = self.old.pairs ++ pair.now ∷ [] }) }
        ensures err { OnErr result (self.new ≡ self.old) }
    {
        let lent = pair.view();
        self.push_view(&lent)
    }

    /// Appends a copy of a borrowed pair, as [`push`](Block::push) does and on the same conditions.
    pub fn push_view(&mut self, pair: &PairView<'_>) -> Result<(), OutOfMemory>
        requires encoding { IsOf self.old.encoding (mates_in pair.now.forward pair.now.reverse) }
        requires room { length self.old.pairs < most_pairs }
        ensures ok { OnOk result (self.new ≡ record self.old {
          pairs = self.old.pairs ++ mates_in pair.now.forward pair.now.reverse ∷ [];
        }) }
        ensures err { OnErr result (self.new ≡ self.old) }
    {
        self.push_named(pair, pair.name_lengths())
    }

    /// Appends a copy of a borrowed pair as [`push`](Block::push) does. The caller already knows
    /// the lengths of the names, so they are not searched for. If the block has grown before and
    /// has room for the pair, nothing is allocated.
    ///
    /// Both reads must be in the encoding of the block, which must have fewer than 65,536 pairs,
    /// and `names` must be the lengths of their names.
    #[inline(always)]
    pub fn push_named(&mut self, pair: &PairView<'_>, names: NameLengths) -> Result<(), OutOfMemory>
        requires encoding { IsOf self.old.encoding (mates_in pair.now.forward pair.now.reverse) }
        requires room { length self.old.pairs < most_pairs }
        requires names { names ≡ name_lengths (mates_in pair.now.forward pair.now.reverse) }
        ensures ok { OnOk result (self.new ≡ record self.old {
          pairs = self.old.pairs ++ mates_in pair.now.forward pair.now.reverse ∷ [];
        }) }
        ensures err { OnErr result (self.new ≡ self.old) }
    {
        append(
            &mut self.bytes,
            &mut self.starts,
            &mut self.names,
            pair,
            names,
        )
    }

    /// How many pairs the block has.
    pub fn len(&self) -> usize
        ensures len { result ≡ length self.now.pairs }
        ensures limit { result ≤ most_pairs }
    {
        self.starts.len()
    }

    /// Whether the block has no pairs.
    pub fn is_empty(&self) -> bool
        ensures { result ≡ (length self.now.pairs == 0) }
    {
        self.starts.is_empty()
    }

    /// The position of the block among the blocks of a run, from 0.
    pub fn number(&self) -> u64
        ensures { result ≡ self.now.number }
    {
        self.number
    }

    /// The encoding of all reads of the block.
    pub fn encoding(&self) -> Encoding
        ensures { result ≡ self.now.encoding }
    {
        self.encoding
    }

    /// Lends pair `i`, counted from 0 in the order of the pushes, out of the buffer of the block.
    /// Nothing is copied. `i` must be less than [`len`](Block::len).
    pub fn pair(&self, i: usize) -> PairView<'_>
        requires { i < length self.now.pairs }
        ensures { slice_get self.now.pairs i ≡ Some (mates_in result.forward result.reverse) }
    {
        let packed = packed_at(self.encoding, &self.bytes, &self.starts, i);
        unpack_pair(self.encoding, packed)
    }

    /// Returns the lengths in bytes of the names of pair `i`, without a search. `i` must be less
    /// than [`len`](Block::len).
    pub fn names(&self, i: usize) -> NameLengths
        requires { i < length self.now.pairs }
        ensures { IfSome (slice_get self.now.pairs i) (λ m. result ≡ name_lengths m) }
    {
        self.names[i]
    }

    /// The bytes of the pairs, one pair after the other, each with its forward read first. A read
    /// is the length of its title in bytes and its number of bases, four bytes each, most
    /// significant byte first, and then the title, the sequence and the quality. The number and the
    /// encoding of the block are not among these bytes.
    pub fn packed(&self) -> &[u8]
        ensures { result.now ≡ packed_pairs self.now.pairs }
    {
        &self.bytes
    }

    /// Removes all pairs and gives the block another number. It keeps its encoding, and its memory
    /// for the next pairs.
    pub fn reset(&mut self, number: u64)
        ensures { self.new ≡ record { number = number; encoding = self.old.encoding; pairs = [] } }
    {
        self.bytes.clear();
        self.starts.clear();
        self.names.clear();
        self.number = number;
    }
}
