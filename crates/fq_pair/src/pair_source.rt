//! Reads pairs from two feeds.

ghost use Rattle.std.specs.Prelude.{◌≡◌, ◌↔◌, Bool, ◌+◌, ◌≤◌, true, false, Some, None, Ok, IfOk, Err, IfErr, IfSome, IsSome, IsTrue, MatchOption, is_some};
ghost use Rattle.std.specs.Option.{IsSomeAnd};
ghost use Rattle.std.specs.Result.{result_and};
ghost use Rattle.fq_text.specs.Reading.{text_limit};
ghost use Rattle.fq_text.specs.Sources.{KeepsCount};
ghost use Rattle.fq_pair.specs.PairSources.{pair_of, asked, stopped, GivesPair, EndsPairs, StopsPairs, failed_on, IsBounded, IsReady, HasNames, KeepsUnmatched, is_unmatched, names_kept};
ghost use Rattle.fq_pair.specs.declared.side.Side.TheVariants.{Forward, Reverse};

use crate::answer::{keep, read_record};
use crate::fault::InputFault;
use crate::name::NameLengths;
use crate::pair::{Pair, PairView, check_mates};
use crate::side::Side;
use crate::unmatched::UnmatchedNames;
use fq_text::{FastqRecord, Feed, OutOfMemory, Source};
use std::alloc::Global;
use std::marker::Model;

/// Reads the pairs of two texts in order: record k of the forward text with record k of the reverse
/// text.
///
/// The names of two mates must match by [`names_match`](crate::names_match), unless the check is
/// off. Mates that are out of step are not re-paired.
#[derive(Drop)]
pub struct PairSource<F: Feed, G: Feed> {
    forward: Source<F>,
    reverse: Source<G>,
    check_names: bool,
    given: u64,
    // The end or the fault that was returned. Every later call returns it again.
    last: Option<Result<(), InputFault>>,
    // The lengths of the names of the current pair. `None` if the current records of the sources
    // are not a pair.
    names: Option<NameLengths>,
}

impl<F: Feed, G: Feed> Model for PairSource<F, G> {
    ghost use Rattle.std.specs.Prelude.{◌≡◌, ◌≤◌, None, is_some};
    ghost use Rattle.fq_text.specs.Reading.{text_limit};
    ghost use Rattle.fq_pair.specs.PairSources.{PairSourced, pair_of, IsBounded, IsReady, HasNames, KeepsUnmatched};

    ghost Value = { PairSourced F G };

    ghost view = { λ s. record {
      forward = s.forward;
      reverse = s.reverse;
      check_names = s.check_names;
      given = s.given;
      last = s.last;
      current = pair_of (is_some s.names) s.forward.current s.reverse.current;
    } };

    ghost invariant = { λ s. (s.forward.encoding ≡ s.reverse.encoding)
        × IsBounded s.forward
        × IsBounded s.reverse
        × (s.given ≤ s.forward.given)
        × (s.given ≤ s.reverse.given)
        × (s.given ≤ text_limit)
        × (s.last ≡ None → IsReady s.forward s.reverse s.given)
        × HasNames s.names (pair_of (is_some s.names) s.forward.current s.reverse.current)
        × KeepsUnmatched s.last s.forward.current s.reverse.current };
}

impl<F: Feed, G: Feed> PairSource<F, G> {
    ghost use Rattle.fq_pair.specs.Mates.{mates_in, name_lengths};
    ghost use Rattle.fq_pair.specs.PairSources.{IsUnasked, KeepsCounts};

    /// Makes a source of pairs from two sources of records in the same encoding, which have not
    /// been read from yet.
    pub fn new(forward: Source<F>, reverse: Source<G>, check_names: bool) -> PairSource<F, G>
        requires forward { IsUnasked forward }
        requires reverse { IsUnasked reverse }
        requires encoding { forward.encoding ≡ reverse.encoding }
        ensures { result ≡ record {
          forward = forward;
          reverse = reverse;
          check_names = check_names;
          given = 0;
          last = None;
          current = None;
        } }
    {
        PairSource {
            forward,
            reverse,
            check_names,
            given: 0,
            last: None,
            names: None,
        }
    }

    /// Moves to the next pair, which [`pair`](PairSource::pair) then lends. Returns `false` at the
    /// end of both texts. After the end or a fault there is no current pair, and every later call
    /// returns the same.
    ///
    /// Records are read, and faults reported, as by [`next`](PairSource::next).
    #[tactic(auto, using(std::proofs::lemmas::Grind::common_steps, crate::proofs::SourceLaws::is_pair))]
    pub fn advance(&mut self) -> Result<bool, InputFault>
        // After the end or a fault, the same is returned again, and nothing more is read.
        ensures again { MatchOption self.old.last (Unit {0})
            (λ last. (result ≡ result_and last (Ok false)) × (self.new ≡ self.old)) }

        // Otherwise the result is what the rests begin with, and a pair found is the current one.
        ensures found { self.old.last ≡ None → result ≡ Ok true →
            IsSomeAnd self.new.current (GivesPair F.state G.state self.old self.new) }
        ensures in_hand { result ≡ Ok true → IsSome self.new.current }
        ensures end { self.old.last ≡ None → result ≡ Ok false →
            EndsPairs F.state G.state self.old self.new }
        ensures fault { self.old.last ≡ None →
            IfErr result (StopsPairs F.state G.state self.old self.new) }

        // Both sources, and so both mates, are in the same encoding.
        ensures encoding { self.old.forward.encoding ≡ self.old.reverse.encoding }

        // The feeds' failed reads are those that the result reports, and their bytes are counted.
        ensures forward_failures { self.old.last ≡ None
            → (F.state self.new.forward.feed).failures
            ≡ (F.state self.old.forward.feed).failures + failed_on Forward result }
        ensures reverse_failures { self.old.last ≡ None
            → (G.state self.new.reverse.feed).failures
            ≡ (G.state self.old.reverse.feed).failures + failed_on Reverse result }
        ensures count { KeepsCounts F.state G.state self.old self.new }
        ensures forward_bound { IsBounded self.new.forward }
        ensures reverse_bound { IsBounded self.new.reverse }
        ensures pairs_bound { (self.new.given ≤ self.new.forward.given)
            × (self.new.given ≤ self.new.reverse.given) }
    {
        match self.last {
            Some(last) => last.and(Ok(false)),
            None => {
                let answer = advance_mates(
                    &mut self.forward,
                    &mut self.reverse,
                    self.check_names,
                    self.given,
                    &mut self.names,
                    &mut None,
                    &mut None,
                );
                keep(answer, &mut self.given, &mut self.last)
            }
        }
    }

    /// Lends the current pair. There must be one: the last [`advance`](PairSource::advance)
    /// returned `true`, and no [`next`](PairSource::next) was called after it.
    pub fn pair(&self) -> PairView<'_>
        requires { IsSome self.now.current }
        ensures { self.now.current ≡ Some (mates_in result.forward result.reverse) }
    {
        PairView {
            forward: self.forward.record(),
            reverse: self.reverse.record(),
        }
    }

    /// The lengths of the names of the current pair. There must be one, as for
    /// [`pair`](PairSource::pair).
    pub fn names(&self) -> NameLengths
        requires { IsSome self.now.current }
        ensures { IfSome self.now.current (λ m. result ≡ name_lengths m) }
    {
        self.names.unwrap()
    }

    /// Returns the next pair, or `None` at the end of both texts. After the end or a fault, every
    /// later call returns the same.
    ///
    /// The forward record is read first. A fault of the forward text comes before all others; then
    /// come a fault of the reverse text, a missing mate, and names that differ. A failed or endless
    /// read, and refused memory, are reported as a fault of the side that was being read. A record
    /// that makes no pair is lost.
    pub fn next(&mut self) -> Result<Option<Pair>, InputFault>
        // After the end or a fault, the same is returned again, and nothing more is read.
        ensures again { MatchOption self.old.last (Unit {0})
            (λ last. (result ≡ result_and last (Ok None)) × (self.new ≡ self.old)) }

        // Otherwise the result is what the rests begin with.
        ensures found { self.old.last ≡ None →
            IfOk result (λ o. IfSome o (GivesPair F.state G.state self.old self.new)) }
        ensures end { self.old.last ≡ None → result ≡ Ok None →
            EndsPairs F.state G.state self.old self.new }
        ensures fault { self.old.last ≡ None →
            IfErr result (StopsPairs F.state G.state self.old self.new) }
        ensures in_hand { self.old.last ≡ None → self.new.current ≡ None }

        // The feeds' failed reads are those that the result reports, and their bytes are counted.
        ensures forward_failures { self.old.last ≡ None
            → (F.state self.new.forward.feed).failures
            ≡ (F.state self.old.forward.feed).failures + failed_on Forward result }
        ensures reverse_failures { self.old.last ≡ None
            → (G.state self.new.reverse.feed).failures
            ≡ (G.state self.old.reverse.feed).failures + failed_on Reverse result }
        ensures count { KeepsCounts F.state G.state self.old self.new }
        ensures forward_bound { IsBounded self.new.forward }
        ensures reverse_bound { IsBounded self.new.reverse }
        ensures pairs_bound { (self.new.given ≤ self.new.forward.given)
            × (self.new.given ≤ self.new.reverse.given) }
    {
        match self.last {
            Some(last) => last.and(Ok(None)),
            None => {
                let mut first = Some(self.forward.empty_record());
                let mut second = Some(self.reverse.empty_record());
                let answer = advance_mates(
                    &mut self.forward,
                    &mut self.reverse,
                    self.check_names,
                    self.given,
                    &mut self.names,
                    &mut first,
                    &mut second,
                );
                if !keep(answer, &mut self.given, &mut self.last)? {
                    return Ok(None);
                }
                self.names = None;
                Ok(Some(Pair::new(first.unwrap(), second.unwrap())))
            }
        }
    }

    /// The names of the mates at which the source stopped, if its last result is
    /// [`InputFault::NamesDiffer`].
    pub fn unmatched_names(&self, alloc: Global) -> Result<Option<UnmatchedNames>, OutOfMemory>
        ensures none { result ≡ Ok None → is_unmatched self.now.last ≡ false }
        ensures names { IfOk result (λ names.
            names ≡ names_kept self.now.last self.now.forward.current self.now.reverse.current) }
    {
        match self.last {
            Some(Err(InputFault::NamesDiffer(_))) => {
                let forward = self.forward.record();
                let reverse = self.reverse.record();
                let names = UnmatchedNames::of_titles(alloc, forward.title(), reverse.title())?;
                Ok(Some(names))
            }
            _ => Ok(None),
        }
    }

    /// Returns both feeds. Bytes that were read but not used yet are dropped.
    pub fn into_feeds(self) -> (F, G)
        ensures forward { result.0 ≡ self.forward.feed }
        ensures reverse { result.1 ≡ self.reverse.feed }
    {
        let PairSource {
            forward,
            reverse,
            ..
        } = self;
        (forward.into_feed(), reverse.into_feed())
    }
}

// Moves to the next pair, whose mates stay the current records of their sources. A record in
// `forward_copy` or `reverse_copy` becomes a copy of its mate. The forward mate is copied before
// the reverse one is read.
fn advance_mates<F: Feed, G: Feed>(
    forward: &mut Source<F>,
    reverse: &mut Source<G>,
    check_names: bool,
    given: u64,
    names: &mut Option<NameLengths>,
    forward_copy: &mut Option<FastqRecord>,
    reverse_copy: &mut Option<FastqRecord>,
) -> Result<bool, InputFault>
    requires encoding { forward.old.encoding ≡ reverse.old.encoding }
    requires ready { IsReady forward.old reverse.old given }
    requires forward_bound { IsBounded forward.old }
    requires reverse_bound { IsBounded reverse.old }
    requires fits { given ≤ text_limit }
    ensures found { (lent : Bool) → result ≡ Ok true →
        IsSomeAnd (pair_of true forward.new.current reverse.new.current)
        (GivesPair F.state G.state
        (asked forward.old reverse.old check_names given (is_some names.old))
        (asked forward.new reverse.new check_names (given + 1) lent)) }
    ensures forward_copied { result ≡ Ok true →
        IsSome forward_copy.old → forward_copy.new ≡ forward.new.current }
    ensures reverse_copied { result ≡ Ok true →
        IsSome reverse_copy.old → reverse_copy.new ≡ reverse.new.current }
    ensures end { result ≡ Ok false →
        EndsPairs F.state G.state
        (asked forward.old reverse.old check_names given (is_some names.old))
        (stopped forward.new reverse.new check_names given (Ok tt)) }
    ensures fault { IfErr result (λ why.
        StopsPairs F.state G.state
        (asked forward.old reverse.old check_names given (is_some names.old))
        (stopped forward.new reverse.new check_names given (Err why)) why) }
    ensures in_hand { IsTrue (is_some names.new) ↔ result ≡ Ok true }
    ensures names { HasNames names.new
        (pair_of (is_some names.new) forward.new.current reverse.new.current) }
    ensures unmatched { IfErr result (λ why.
        KeepsUnmatched (Some (Err why)) forward.new.current reverse.new.current) }
    ensures forward_failures { (F.state forward.new.feed).failures
        ≡ (F.state forward.old.feed).failures + failed_on Forward result }
    ensures reverse_failures { (G.state reverse.new.feed).failures
        ≡ (G.state reverse.old.feed).failures + failed_on Reverse result }
    ensures forward_count { KeepsCount F.state forward.old forward.new }
    ensures reverse_count { KeepsCount G.state reverse.old reverse.new }
    ensures forward_bounded { IsBounded forward.new }
    ensures reverse_bounded { IsBounded reverse.new }
    ensures pairs_bound { (given ≤ forward.new.given) × (given ≤ reverse.new.given) }
    ensures few { result ≡ Ok true → given + 1 ≤ text_limit }
{
    *names = None;
    let has_first = read_record(forward, forward_copy).map_err(InputFault::forward)?;
    let has_second = read_record(reverse, reverse_copy).map_err(InputFault::reverse)?;
    match (has_first, has_second) {
        (true, true) => {
            let first = forward.record();
            let second = reverse.record();
            let lengths = check_mates(check_names, first.title(), second.title(), given + 1)?;
            *names = Some(lengths);
            Ok(true)
        }
        (true, false) => Err(InputFault::MateMissing(Side::Reverse, given + 1)),
        (false, true) => Err(InputFault::MateMissing(Side::Forward, given + 1)),
        (false, false) => Ok(false),
    }
}
