//! Reads the records of a feed.

ghost use Rattle.std.specs.Prelude.{◌≡◌, ◌+◌, ◌-◌, ◌*◌, ◌<◌, ◌≤◌, ◌^◌, [], true, false, Some, None, Ok, Err, IfOk, IfErr, IfSome, IsSome, MatchOption};

use crate::buffer::Buffer;
use crate::encoding::Encoding;
use crate::fault::TextFault;
use crate::feed::Feed;
use crate::lines::LineReader;
use crate::parse::{Place, read_record};
use crate::record::{FastqRecord, Parts};
use crate::unwrapped::view_of;
use crate::view::ReadView;
use std::alloc::Global;
use std::fmt::Debug;
use std::marker::Model;
use thiserror::Error;

/// The source could not be allocated. The feed is returned unchanged.
#[derive(Debug, Drop, Error)]
#[error_bound(F: Debug + Drop)]
#[error("out of memory")]
pub struct NoSource<F> {
    /// The feed that was passed in.
    pub feed: F,
}

/// Reads the records of a feed's text, one after the other.
#[derive(Drop)]
pub struct Source<F: Feed> {
    alloc: Global,
    encoding: Encoding,
    lines: LineReader<F>,
    parts: Parts,
    // Where the parts of the record in hand are.
    place: Option<Place>,
    given: u64,
    // The end or the fault that was returned.
    last: Option<Result<(), TextFault>>,
}

impl<F: Feed> Model for Source<F> {
    ghost use Rattle.std.specs.Prelude.{◌≡◌, ◌+◌, ◌<◌, ◌≤◌, ◌^◌, length, None, IfSome};
    ghost use Rattle.fq_text.specs.Sources.{Sourced};
    ghost use Rattle.fq_text.specs.Grammar.{IsLawful};
    ghost use Rattle.fq_text.specs.Reading.{chunk_limit, IsSound};
    ghost use Rattle.fq_text.specs.Phases.{current_at, IsPlace};

    ghost Value = { Sourced F };

    ghost view = { λ s. record {
      feed = s.lines.feed;
      encoding = s.encoding;
      chunk = s.lines.chunk;
      max_reads = s.lines.max_reads;
      in_hand = s.lines.in_hand;
      ended = s.lines.ended;
      taken = s.lines.taken;
      given = s.given;
      last = s.last;
      current = current_at s.encoding s.lines.line s.parts s.place;
    } };

    ghost invariant = { λ s. IsSound F.state s.lines
        × (s.given + length s.lines.in_hand ≤ s.lines.taken)
        × (s.lines.chunk ≤ chunk_limit) × (s.lines.max_reads ≤ 2 ^ 40)
        × (s.last ≡ None → length s.lines.in_hand < s.lines.chunk)
        × (s.last ≡ None → (F.state s.lines.feed).failures ≡ 0)
        × IfSome s.place (IsPlace s.lines.line)
        × IfSome (current_at s.encoding s.lines.line s.parts s.place) IsLawful };
}

impl<F: Feed> Source<F> {
    ghost use Rattle.fq_text.specs.Reading.{chunk_limit, text_limit};
    ghost use Rattle.fq_text.specs.Grammar.{IsLawful};
    ghost use Rattle.fq_text.specs.declared.fault.TextFault.TheVariants.{OutOfMemory};
    ghost use Rattle.fq_text.specs.Sources.{answer_of, more_of, KeepsCount, GivesRecord, EndsText, StopsText, failed_in};

    /// A source of the records of a feed's text. It makes at most `max_reads` read calls, each for
    /// at most `chunk` bytes.
    pub fn new(
        alloc: Global,
        feed: F,
        encoding: Encoding,
        chunk: usize,
        max_reads: u64,
    ) -> Result<Source<F>, NoSource<F>>
        requires some { 0 < chunk }
        requires small { chunk ≤ chunk_limit }
        requires reads { 0 < max_reads }
        requires few { max_reads ≤ 2 ^ 40 }
        requires healthy { (F.state feed).failures ≡ 0 }
        ensures ok { IfOk result (λ source. source ≡ record {
          feed = feed;
          encoding = encoding;
          chunk = chunk;
          max_reads = max_reads;
          in_hand = [];
          ended = false;
          taken = 0;
          given = 0;
          last = None;
          current = None;
        }) }
        ensures err { IfErr result (λ refused. refused.feed ≡ feed) }
    {
        let Ok(buffer) = Buffer::new(alloc, chunk) else {
            return Err(NoSource { feed });
        };
        Ok(Source {
            alloc,
            encoding,
            lines: LineReader::new(feed, buffer, chunk, max_reads),
            parts: Parts::new(alloc, encoding),
            place: None,
            given: 0,
            last: None,
        })
    }

    /// Gives the feed back in its current state. Bytes that were read and not used yet are dropped.
    pub fn into_feed(self) -> F
        ensures { result ≡ self.feed }
    {
        self.lines.into_feed()
    }

    /// The feed in its current state.
    pub fn feed(&self) -> &F
        ensures { result.now ≡ self.now.feed }
    {
        self.lines.feed()
    }

    /// A record in the source's encoding whose parts are all empty, for
    /// [`next_into`](Source::next_into). It asks for no memory.
    pub fn empty_record(&self) -> FastqRecord
        ensures { result
            ≡ record { encoding = self.now.encoding; title = []; seq = []; qual = [] } }
    {
        FastqRecord::empty(self.alloc, self.encoding)
    }

    /// Reads the next record, which is then in hand: [`record`](Source::record) borrows it. Returns
    /// `false` at the end of the text. After the end or a fault no record is in hand, and each
    /// further call returns the same again.
    ///
    /// A record that is whole in the buffer as four unwrapped lines is not copied. The lines of any
    /// other record are joined in memory that is reused.
    ///
    /// ```text
    /// while source.advance()? {
    ///     let read = source.record();
    ///     bases += read.seq().len();
    /// }
    /// ```
    pub fn advance(&mut self) -> Result<bool, TextFault>
        // After the end or a fault, the result is the same again and nothing is read.
        ensures again { MatchOption self.old.last (Unit {0})
            (λ last. (result ≡ more_of last) × (self.new ≡ self.old)) }

        // Otherwise the result is what the rest of the text begins with.
        ensures found { self.old.last ≡ None → result ≡ Ok true
            → MatchOption self.new.current ⊥ (GivesRecord F.state self.old self.new) }
        ensures in_hand { result ≡ Ok true → IsSome self.new.current }
        ensures end { self.old.last ≡ None → result ≡ Ok false
            → EndsText F.state self.old self.new }
        ensures fault { self.old.last ≡ None → IfErr result (StopsText F.state self.old self.new) }

        // The feed failed exactly if the result says so, and the bytes that it gave are counted.
        ensures failures { self.old.last ≡ None → (F.state self.new.feed).failures
            ≡ (F.state self.old.feed).failures + failed_in result }
        ensures count { KeepsCount F.state self.old self.new }
        ensures bound { self.new.given ≤ self.new.taken }
        ensures limit { self.new.taken ≤ self.new.max_reads * self.new.chunk }
        ensures fits { self.new.taken ≤ text_limit }
    {
        match self.last {
            Some(Ok(())) => Ok(false),
            Some(Err(fault)) => Err(fault),
            None => self.read_next(),
        }
    }

    /// Borrows the record in hand. There is one if [`advance`](Source::advance) or
    /// [`next_into`](Source::next_into) has just returned `true`, or [`next`](Source::next) a
    /// record.
    pub fn record(&self) -> ReadView<'_>
        requires { IsSome self.now.current }
        ensures record { self.now.current ≡ Some result }
        ensures lawful { IsLawful result }
    {
        match self.place {
            Some(Place::Unwrapped(shape)) => view_of(self.encoding, self.lines.line(), shape),
            _ => self.parts.view(),
        }
    }

    /// Reads the next record and returns a copy, or `None` at the end of the text. The record is
    /// also in hand. After the end or a fault, each further call returns the same again.
    pub fn next(&mut self) -> Result<Option<FastqRecord>, TextFault>
        // After the end or a fault, the result is the same again and nothing is read.
        ensures again { MatchOption self.old.last (Unit {0})
            (λ last. (result ≡ answer_of last) × (self.new ≡ self.old)) }

        // Otherwise the result is what the rest of the text begins with.
        ensures found { self.old.last ≡ None
            → IfOk result (λ o. IfSome o (GivesRecord F.state self.old self.new)) }
        ensures end { self.old.last ≡ None → result ≡ Ok None → EndsText F.state self.old self.new }
        ensures fault { self.old.last ≡ None → IfErr result (StopsText F.state self.old self.new) }

        // The feed failed exactly if the result says so, and the bytes that it gave are counted.
        ensures failures { self.old.last ≡ None → (F.state self.new.feed).failures
            ≡ (F.state self.old.feed).failures + failed_in result }
        ensures count { KeepsCount F.state self.old self.new }
        ensures bound { self.new.given ≤ self.new.taken }
        ensures limit { self.new.taken ≤ self.new.max_reads * self.new.chunk }
        ensures fits { self.new.taken ≤ text_limit }
    {
        let mut copy = self.empty_record();
        let found = self.next_into(&mut copy)?;
        Ok(if found { Some(copy) } else { None })
    }

    /// Reads the next record and copies it into `copy`, whose memory is reused. The record is also
    /// in hand. Returns `false` at the end of the text. At the end or a fault `copy` is unchanged,
    /// and each further call returns the same again.
    pub fn next_into(&mut self, copy: &mut FastqRecord) -> Result<bool, TextFault>
        // After the end or a fault, the result is the same again and nothing is read.
        ensures again { MatchOption self.old.last (Unit {0})
            (λ last. (result ≡ more_of last) × (self.new ≡ self.old)) }

        // Otherwise the result is what the rest of the text begins with.
        ensures found { self.old.last ≡ None → result ≡ Ok true
            → GivesRecord F.state self.old self.new copy.new }
        ensures end { self.old.last ≡ None → result ≡ Ok false
            → EndsText F.state self.old self.new }
        ensures fault { self.old.last ≡ None → IfErr result (StopsText F.state self.old self.new) }

        // If no record is returned, `copy` is unchanged.
        ensures kept_at_end { result ≡ Ok false → copy.new ≡ copy.old }
        ensures kept_at_fault { IfErr result (λ why. copy.new ≡ copy.old) }

        // The feed failed exactly if the result says so, and the bytes that it gave are counted.
        ensures failures { self.old.last ≡ None → (F.state self.new.feed).failures
            ≡ (F.state self.old.feed).failures + failed_in result }
        ensures count { KeepsCount F.state self.old self.new }
        ensures bound { self.new.given ≤ self.new.taken }
        ensures limit { self.new.taken ≤ self.new.max_reads * self.new.chunk }
        ensures fits { self.new.taken ≤ text_limit }
    {
        if self.advance()? {
            self.copied_into(copy)
        } else {
            Ok(false)
        }
    }

    // Copies the record in hand. If memory is refused, the record does not count as given.
    fn copied_into(&mut self, copy: &mut FastqRecord) -> Result<bool, TextFault>
        requires current { IsSome self.old.current }
        requires given { 0 < self.old.given }
        ensures ok { IfOk result (λ more. (more ≡ true) × (self.old.current ≡ Some copy.new)
            × (self.new ≡ self.old)) }
        ensures err { IfErr result (λ why. (why ≡ OutOfMemory) × (copy.new ≡ copy.old)
            × (self.new ≡ record self.old {
              given = self.old.given - 1;
              last = Some (Err OutOfMemory);
              current = None;
            })) }
    {
        let copied = copy.copy_from(&self.record());
        match copied {
            Ok(()) => Ok(true),
            Err(_) => {
                self.given -= 1;
                self.place = None;
                self.last = Some(Err(TextFault::OutOfMemory));
                Err(TextFault::OutOfMemory)
            }
        }
    }

    // Reads the next record, which is then in hand, or the end or the fault.
    fn read_next(&mut self) -> Result<bool, TextFault>
        requires { self.old.last ≡ None }
        ensures found { result ≡ Ok true
            → MatchOption self.new.current ⊥ (GivesRecord F.state self.old self.new) }
        ensures end { result ≡ Ok false → EndsText F.state self.old self.new }
        ensures fault { IfErr result (StopsText F.state self.old self.new) }
        ensures failures { (F.state self.new.feed).failures
            ≡ (F.state self.old.feed).failures + failed_in result }
        ensures count { KeepsCount F.state self.old self.new }
        ensures bound { self.new.given ≤ self.new.taken }
        ensures limit { self.new.taken ≤ self.new.max_reads * self.new.chunk }
        ensures fits { self.new.taken ≤ text_limit }
    {
        // No record is in hand while the next is read, which is guessed to have as many bases.
        let guess = match self.place.take() {
            Some(Place::Unwrapped(shape)) => shape.bases,
            _ => self.parts.seq().len(),
        };
        match read_record(self.encoding, guess, &mut self.lines, &mut self.parts) {
            Ok(Some(place)) => {
                self.given += 1;
                self.place = Some(place);
                Ok(true)
            }
            Ok(None) => {
                self.last = Some(Ok(()));
                Ok(false)
            }
            Err(error) => {
                let fault = error.numbered(self.given + 1);
                self.last = Some(Err(fault));
                Err(fault)
            }
        }
    }
}
