//! The trait of all sources of pairs.

ghost use Rattle.std.specs.Prelude.{◌≡◌, ◌≤◌, true, false, Some, None, Ok, IfSome, IsSome, MatchOption};
ghost use Rattle.std.specs.Result.{result_and};
ghost use Rattle.fq_pair.specs.Mates.{mates_in, name_lengths};
ghost use Rattle.fq_pair.specs.Walks.{SourceState, Advances};

use crate::fault::InputFault;
use crate::interleaved_source::MixedSource;
use crate::name::NameLengths;
use crate::pair::PairView;
use crate::pair_source::PairSource;
use fq_text::Feed;

/// A source of pairs, in order: of two texts ([`PairSource`]), or of an interleaved one
/// ([`MixedSource`]). Each has methods that do the same (`advance`, `pair`, `names`), whose clauses
/// speak of its feeds. Those of the trait have other names, so a call shows by which clauses it
/// goes.
pub trait PairReader {
    /// The source as contracts see it: its form, the bytes in hand and to come of each side, and
    /// the counts so far.
    ghost state: { Self → SourceState };

    /// Moves to the next pair, which [`pair_in_hand`](PairReader::pair_in_hand) then lends. Returns
    /// `false` at the end. After the end or a fault there is no current pair, and every later call
    /// returns the same.
    fn advance_pair(&mut self) -> Result<bool, InputFault>
        // After the end or a fault, the same is returned again, and nothing more is read.
        ensures again { MatchOption (state self.old).last (Unit {0})
            (λ last. (result ≡ result_and last (Ok false)) × (state self.new ≡ state self.old)) }

        // Otherwise the result is what the sides begin with.
        ensures advances { (state self.old).last ≡ None →
            Advances (state self.old) (state self.new) result }
        ensures in_hand { result ≡ Ok true → IsSome (state self.new).current }

        // No more records are given than bytes can come, and mates are in the source's encoding.
        ensures within { (state self.new).forward.given ≤ (state self.new).most_bytes }
        ensures encoding { (state self.old).last ≡ None → IfSome (state self.new).current (λ m.
            (m.forward.encoding ≡ (state self.old).encoding)
            × (m.reverse.encoding ≡ (state self.old).encoding)) };

    /// Lends the current pair. There must be one: the last
    /// [`advance_pair`](PairReader::advance_pair) returned `true`.
    fn pair_in_hand(&self) -> PairView<'_>
        requires { IsSome (state self.now).current }
        ensures { (state self.now).current ≡ Some (mates_in result.forward result.reverse) };

    /// The lengths of the names of the current pair. There must be one, as for
    /// [`pair_in_hand`](PairReader::pair_in_hand).
    fn names_in_hand(&self) -> NameLengths
        requires { IsSome (state self.now).current }
        ensures { IfSome (state self.now).current (λ m. result ≡ name_lengths m) };
}

impl<F: Feed, G: Feed> PairReader for PairSource<F, G> {
    ghost use Rattle.fq_pair.specs.Walks.{source_state};

    ghost state = { λ s. source_state F.state G.state s };

    fn advance_pair(&mut self) -> Result<bool, InputFault> {
        self.advance()
    }

    fn pair_in_hand(&self) -> PairView<'_> {
        self.pair()
    }

    fn names_in_hand(&self) -> NameLengths {
        self.names()
    }
}

impl<F: Feed> PairReader for MixedSource<F> {
    ghost use Rattle.fq_pair.specs.Walks.{interleaved_state};

    ghost state = { λ s. interleaved_state F.state s };

    fn advance_pair(&mut self) -> Result<bool, InputFault> {
        self.advance()
    }

    fn pair_in_hand(&self) -> PairView<'_> {
        self.pair()
    }

    fn names_in_hand(&self) -> NameLengths {
        self.names()
    }
}
