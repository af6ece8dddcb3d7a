//! Reads pairs from one interleaved feed, in which mates alternate.

ghost use Rattle.std.specs.Prelude.{◌≡◌, ◌↔◌, Bool, ◌+◌, ◌*◌, ◌≤◌, true, false, Some, None, Ok, Err, IfOk, IfErr, IfSome, IsSome, IsTrue, MatchOption, is_some};
ghost use Rattle.std.specs.Option.{IsSomeAnd};
ghost use Rattle.std.specs.Result.{result_and};
ghost use Rattle.fq_text.specs.Reading.{text_limit};
ghost use Rattle.fq_text.specs.Sources.{KeepsCount};
ghost use Rattle.fq_pair.specs.PairSources.{IsBounded, pair_of, HasNames, KeepsUnmatched, is_unmatched, names_kept};
ghost use Rattle.fq_pair.specs.InterleavedSources.{asked, stopped, GivesPair, EndsPairs, StopsPairs, failed_in, IsReady};

use crate::answer::{keep, read_record};
use crate::fault::InputFault;
use crate::name::NameLengths;
use crate::pair::{Pair, PairView, check_mates};
use crate::side::Side;
use crate::unmatched::UnmatchedNames;
use fq_text::{FastqRecord, Feed, OutOfMemory, Source};
use std::alloc::Global;
use std::marker::Model;
use std::mem;

/// Reads the pairs of one interleaved text in order: record 2n - 1 is the forward mate of pair n,
/// and record 2n its reverse mate. Records and pairs are numbered from 1.
///
/// The names of two mates must match by [`names_match`](crate::names_match), unless the check is
/// off. If a record is missing in the middle of the text, all later mates are out of step; they are
/// not re-paired.
#[derive(Drop)]
pub struct MixedSource<F: Feed> {
    source: Source<F>,
    check_names: bool,
    given: u64,
    // The end or the fault that was returned. Every later call returns it again.
    last: Option<Result<(), InputFault>>,
    // The forward mate that was read last. Its memory is reused.
    forward: FastqRecord,
    // The lengths of the names of the current pair: `forward` and the current record of `source`.
    // `None` if these are not a pair.
    names: Option<NameLengths>,
}

impl<F: Feed> Model for MixedSource<F> {
    ghost use Rattle.std.specs.Prelude.{◌≡◌, ◌*◌, ◌≤◌, Some, None, is_some};
    ghost use Rattle.fq_text.specs.Reading.{text_limit};
    ghost use Rattle.fq_pair.specs.PairSources.{IsBounded, pair_of, HasNames, KeepsUnmatched};
    ghost use Rattle.fq_pair.specs.InterleavedSources.{InterleavedSourced, IsReady};

    ghost Value = { InterleavedSourced F };

    ghost view = { λ s. record {
      source = s.source;
      forward = s.forward;
      check_names = s.check_names;
      given = s.given;
      last = s.last;
      current = pair_of (is_some s.names) (Some s.forward) s.source.current;
    } };

    ghost invariant = { λ s. IsBounded s.source
        × (2 * s.given ≤ s.source.given)
        × (s.given ≤ text_limit)
        × (s.last ≡ None → IsReady s.source s.given)
        × HasNames s.names (pair_of (is_some s.names) (Some s.forward) s.source.current)
        × KeepsUnmatched s.last (Some s.forward) s.source.current };
}

impl<F: Feed> MixedSource<F> {
    ghost use Rattle.fq_pair.specs.Mates.{mates_in, name_lengths};
    ghost use Rattle.fq_pair.specs.PairSources.{IsUnasked};
    ghost use Rattle.fq_pair.specs.InterleavedSources.{KeepsCounts};

    /// Makes a source of pairs from a source of records that has not been read from yet.
    pub fn new(source: Source<F>, check_names: bool) -> MixedSource<F>
        requires { IsUnasked source }
        ensures { result ≡ record {
          source = source;
          forward = result.forward;
          check_names = check_names;
          given = 0;
          last = None;
          current = None;
        } }
    {
        let forward = source.empty_record();
        MixedSource {
            source,
            check_names,
            given: 0,
            last: None,
            forward,
            names: None,
        }
    }

    /// Moves to the next pair, which [`pair`](MixedSource::pair) then lends. Returns `false` at the
    /// end of the text. After the end or a fault there is no current pair, and every later call
    /// returns the same.
    ///
    /// Records are read, and faults reported, as by [`next`](MixedSource::next).
    #[tactic(auto, using(std::proofs::lemmas::Grind::common_steps, crate::proofs::SourceLaws::is_pair))]
    pub fn advance(&mut self) -> Result<bool, InputFault>
        // After the end or a fault, the same is returned again, and nothing more is read.
        ensures again { MatchOption self.old.last (Unit {0})
            (λ last. (result ≡ result_and last (Ok false)) × (self.new ≡ self.old)) }

        // Otherwise the result is what the rest begins with, and a pair found is the current one.
        ensures found { self.old.last ≡ None → result ≡ Ok true →
            IsSomeAnd self.new.current (GivesPair F.state self.old self.new) }
        ensures in_hand { result ≡ Ok true → IsSome self.new.current }
        ensures end { self.old.last ≡ None → result ≡ Ok false →
            EndsPairs F.state self.old self.new }
        ensures fault { self.old.last ≡ None → IfErr result (StopsPairs F.state self.old self.new) }

        // The feed's failed reads are those that the result reports, and its bytes are counted.
        ensures failures { self.old.last ≡ None →
            (F.state self.new.source.feed).failures
            ≡ (F.state self.old.source.feed).failures + failed_in result }
        ensures count { KeepsCounts F.state self.old self.new }
        ensures bound { IsBounded self.new.source }
        ensures pairs_bound { 2 * self.new.given ≤ self.new.source.given }
    {
        match self.last {
            Some(last) => last.and(Ok(false)),
            None => {
                let answer = advance_mates(
                    &mut self.source,
                    &mut self.forward,
                    self.check_names,
                    self.given,
                    &mut self.names,
                    &mut None,
                );
                keep(answer, &mut self.given, &mut self.last)
            }
        }
    }

    /// Lends the current pair. There must be one: the last [`advance`](MixedSource::advance)
    /// returned `true`, and no [`next`](MixedSource::next) was called after it.
    pub fn pair(&self) -> PairView<'_>
        requires { IsSome self.now.current }
        ensures { self.now.current ≡ Some (mates_in result.forward result.reverse) }
    {
        PairView {
            forward: self.forward.view(),
            reverse: self.source.record(),
        }
    }

    /// The lengths of the names of the current pair. There must be one, as for
    /// [`pair`](MixedSource::pair).
    pub fn names(&self) -> NameLengths
        requires { IsSome self.now.current }
        ensures { IfSome self.now.current (λ m. result ≡ name_lengths m) }
    {
        self.names.unwrap()
    }

    /// Returns the next pair, or `None` at the end of the text. After the end or a fault, every
    /// later call returns the same.
    ///
    /// A fault of the text carries the side of the record that was being read, and that record's
    /// number in the text. A failed or endless read, and refused memory, carry only that side. If
    /// the text ends after a forward record, the reverse mate is missing; this fault, and names
    /// that differ, carry the number of the pair. Records that make no pair are lost.
    pub fn next(&mut self) -> Result<Option<Pair>, InputFault>
        // After the end or a fault, the same is returned again, and nothing more is read.
        ensures again { MatchOption self.old.last (Unit {0})
            (λ last. (result ≡ result_and last (Ok None)) × (self.new ≡ self.old)) }

        // Otherwise the result is what the rest begins with.
        ensures found { self.old.last ≡ None →
            IfOk result (λ o. IfSome o (GivesPair F.state self.old self.new)) }
        ensures end { self.old.last ≡ None → result ≡ Ok None →
            EndsPairs F.state self.old self.new }
        ensures fault { self.old.last ≡ None → IfErr result (StopsPairs F.state self.old self.new) }
        ensures in_hand { self.old.last ≡ None → self.new.current ≡ None }

        // The feed's failed reads are those that the result reports, and its bytes are counted.
        ensures failures { self.old.last ≡ None →
            (F.state self.new.source.feed).failures
            ≡ (F.state self.old.source.feed).failures + failed_in result }
        ensures count { KeepsCounts F.state self.old self.new }
        ensures bound { IsBounded self.new.source }
        ensures pairs_bound { 2 * self.new.given ≤ self.new.source.given }
    {
        match self.last {
            Some(last) => last.and(Ok(None)),
            None => {
                let mut second = Some(self.source.empty_record());
                let answer = advance_mates(
                    &mut self.source,
                    &mut self.forward,
                    self.check_names,
                    self.given,
                    &mut self.names,
                    &mut second,
                );
                if !keep(answer, &mut self.given, &mut self.last)? {
                    return Ok(None);
                }
                self.names = None;
                let first = mem::replace(&mut self.forward, self.source.empty_record());
                Ok(Some(Pair::new(first, second.unwrap())))
            }
        }
    }

    /// The names of the mates at which the source stopped, if its last result is
    /// [`InputFault::NamesDiffer`].
    pub fn unmatched_names(&self, alloc: Global) -> Result<Option<UnmatchedNames>, OutOfMemory>
        ensures none { result ≡ Ok None → is_unmatched self.now.last ≡ false }
        ensures names { IfOk result (λ names.
            names ≡ names_kept self.now.last (Some self.now.forward) self.now.source.current) }
    {
        match self.last {
            Some(Err(InputFault::NamesDiffer(_))) => {
                let reverse = self.source.record();
                let forward = self.forward.title();
                let names = UnmatchedNames::of_titles(alloc, forward, reverse.title())?;
                Ok(Some(names))
            }
            _ => Ok(None),
        }
    }

    /// Returns the feed. Bytes that were read but not used yet are dropped.
    pub fn into_feed(self) -> F
        ensures { result ≡ self.source.feed }
    {
        self.source.into_feed()
    }
}

// Moves to the next pair. The forward mate is copied before the reverse mate is read, which stays
// the current record of `source`. A record in `reverse_copy` becomes a copy of that.
fn advance_mates<F: Feed>(
    source: &mut Source<F>,
    forward: &mut FastqRecord,
    check_names: bool,
    given: u64,
    names: &mut Option<NameLengths>,
    reverse_copy: &mut Option<FastqRecord>,
) -> Result<bool, InputFault>
    requires ready { IsReady source.old given }
    requires bound { IsBounded source.old }
    requires fits { given ≤ text_limit }
    ensures found { (lent : Bool) → result ≡ Ok true →
        IsSomeAnd (pair_of true (Some forward.new) source.new.current)
        (GivesPair F.state (asked source.old forward.old check_names given (is_some names.old))
        (asked source.new forward.new check_names (given + 1) lent)) }
    ensures copied { result ≡ Ok true →
        IsSome reverse_copy.old → reverse_copy.new ≡ source.new.current }
    ensures end { result ≡ Ok false →
        EndsPairs F.state (asked source.old forward.old check_names given (is_some names.old))
        (stopped source.new forward.new check_names given (Ok tt)) }
    ensures fault { IfErr result (λ why.
        StopsPairs F.state (asked source.old forward.old check_names given (is_some names.old))
        (stopped source.new forward.new check_names given (Err why)) why) }
    ensures in_hand { IsTrue (is_some names.new) ↔ result ≡ Ok true }
    ensures names { HasNames names.new
        (pair_of (is_some names.new) (Some forward.new) source.new.current) }
    ensures unmatched { IfErr result (λ why.
        KeepsUnmatched (Some (Err why)) (Some forward.new) source.new.current) }
    ensures failures { (F.state source.new.feed).failures
        ≡ (F.state source.old.feed).failures + failed_in result }
    ensures count { KeepsCount F.state source.old source.new }
    ensures bounded { IsBounded source.new }
    ensures pairs_bound { 2 * given ≤ source.new.given }
    ensures few { result ≡ Ok true
        → (given + 1 ≤ text_limit) × (2 * (given + 1) ≤ source.new.given) }
{
    *names = None;
    let has_first = source.next_into(forward).map_err(InputFault::forward)?;
    if !has_first {
        return Ok(false);
    }
    let has_second = read_record(source, reverse_copy).map_err(InputFault::reverse)?;
    if !has_second {
        return Err(InputFault::MateMissing(Side::Reverse, given + 1));
    }
    let second = source.record();
    let lengths = check_mates(check_names, forward.title(), second.title(), given + 1)?;
    *names = Some(lengths);
    Ok(true)
}
