//! Pairs of mates.

ghost use Rattle.std.specs.Prelude.{◌≡◌, ◌||◌, not, IfOk, IfErr, is_ok};
ghost use Rattle.fq_pair.specs.Mates.{names_match as same_names, lengths_of};

use crate::fault::InputFault;
use crate::name::{NameLengths, compare_names};
use fq_text::{Encoding, FastqRecord, ReadView};
use std::marker::Model;

/// The two reads of a pair as they were read, both in the same encoding.
#[derive(Drop)]
pub struct Pair {
    forward: FastqRecord,
    reverse: FastqRecord,
}

impl Model for Pair {
    ghost use Rattle.std.specs.Prelude.{◌≡◌};
    ghost use Rattle.fq_pair.specs.Mates.{Mates};

    ghost Value = { Mates };

    ghost view = { λ p. record { forward = p.forward; reverse = p.reverse } };

    ghost invariant = { λ p. p.forward.encoding ≡ p.reverse.encoding };
}

impl Pair {
    /// Makes a pair of two mates in the same encoding.
    pub fn new(forward: FastqRecord, reverse: FastqRecord) -> Pair
        requires { forward.encoding ≡ reverse.encoding }
        ensures { result ≡ record { forward = forward; reverse = reverse } }
    {
        Pair { forward, reverse }
    }

    /// The encoding of both mates.
    pub fn encoding(&self) -> Encoding
        ensures forward { result ≡ self.now.forward.encoding }
        ensures reverse { result ≡ self.now.reverse.encoding }
    {
        self.forward.encoding()
    }

    /// Lends both mates.
    pub fn view(&self) -> PairView<'_>
        ensures forward { result.forward ≡ self.now.forward }
        ensures reverse { result.reverse ≡ self.now.reverse }
    {
        PairView {
            forward: self.forward.view(),
            reverse: self.reverse.view(),
        }
    }
}

/// The two reads of a pair, borrowed from a [`Pair`] or another owner of their bytes.
#[derive(Drop)]
pub struct PairView<'a> {
    /// The forward mate.
    pub forward: ReadView<'a>,
    /// The reverse mate.
    pub reverse: ReadView<'a>,
}

impl PairView<'_> {
    ghost use Rattle.fq_pair.specs.Mates.{mates_in, name_lengths};

    /// Searches for the names of both mates and returns their lengths.
    #[inline(always)]
    pub fn name_lengths(&self) -> NameLengths
        ensures { result ≡ name_lengths (mates_in self.now.forward self.now.reverse) }
    {
        compare_names(self.forward.title(), self.reverse.title()).0
    }
}

/// Returns the lengths of the names in a forward and a reverse title if the names are the same or
/// aren't checked. Otherwise returns the fault of pair `number`.
#[inline(always)]
pub(crate) fn check_mates(
    check_names: bool,
    forward: &[u8],
    reverse: &[u8],
    number: u64,
) -> Result<NameLengths, InputFault>
    ensures ok { IfOk result (λ lengths. lengths ≡ lengths_of forward.now reverse.now) }
    ensures err { IfErr result (λ why. why ≡ InputFault.NamesDiffer number) }
    ensures names { is_ok result ≡ (not check_names || same_names forward.now reverse.now) }
{
    let (lengths, same) = compare_names(forward, reverse);
    if check_names && !same {
        return Err(InputFault::NamesDiffer(number));
    }
    Ok(lengths)
}
