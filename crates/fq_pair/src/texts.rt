//! The texts of trimmed pairs.

ghost use Rattle.std.specs.Prelude.{◌≡◌, ◌+◌, ◌-◌, ◌*◌, ◌<◌, ◌≤◌, ◌++◌, ◌∷◌, [], Some, length, OnOk, OnErr, vec_len, vec_capacity};
ghost use Rattle.fq_text.specs.Grammar.{IsLawful};
ghost use Rattle.fq_trim.specs.KeptPlaces.{kept_places, places_of, IsWithin};
ghost use Rattle.fq_pair.specs.Mates.{mates_in, name_lengths};
ghost use Rattle.fq_pair.specs.Outputs.{record_at};

use crate::counts::Counts;
use crate::log_line::{line_room, put_line};
use crate::name::NameLengths;
use crate::out::Out;
use crate::pair::PairView;
use fq_text::{OutOfMemory, ReadView, append_record};
use fq_trim::{Kept, Steps};
use std::alloc::Global;
use std::marker::Model;

/// What a run writes for trimmed pairs: four texts of records, the trim log, and the counts. Pairs
/// are added in order, and the memory is reused after [`clear`](Texts::clear).
#[derive(Drop)]
pub struct Texts {
    forward_paired: Vec<u8>,
    forward_unpaired: Vec<u8>,
    reverse_paired: Vec<u8>,
    reverse_unpaired: Vec<u8>,
    log: Vec<u8>,
    counts: Counts,
}

impl Model for Texts {
    ghost use Rattle.std.specs.Prelude.{◌+◌, ◌≤◌};
    ghost use Rattle.fq_pair.specs.Outputs.{Outputs};

    ghost Value = { Outputs };

    ghost view = { λ t. record {
      forward_paired = t.forward_paired.items;
      forward_unpaired = t.forward_unpaired.items;
      reverse_paired = t.reverse_paired.items;
      reverse_unpaired = t.reverse_unpaired.items;
      log = t.log.items;
      counts = t.counts;
    } };

    ghost invariant = { λ t.
        t.counts.both + t.counts.forward_only + t.counts.reverse_only + t.counts.dropped
        ≤ t.counts.pairs };
}

impl Texts {
    ghost use Rattle.fq_pair.specs.Outputs.{no_texts, joined, texts_of, text_of};

    /// Makes empty texts, and counts of 0. It allocates nothing.
    pub fn new(alloc: Global) -> Texts
        ensures { result ≡ no_texts }
    {
        Texts {
            forward_paired: Vec::new(alloc),
            forward_unpaired: Vec::new(alloc),
            reverse_paired: Vec::new(alloc),
            reverse_unpaired: Vec::new(alloc),
            log: Vec::new(alloc),
            counts: Counts::ZERO,
        }
    }

    /// Adds one pair: the records of the mates that survive the steps, a log line for each mate,
    /// and the counts. Memory is reserved before anything is written, so if memory is refused,
    /// nothing has changed. The count of pairs must be below `u64::MAX`.
    ///
    /// The record of a mate goes to the paired text of its side if the other mate also survives,
    /// and otherwise to the unpaired text. If TOPHRED33 is among the steps, quality bytes are
    /// written at offset 33.
    ///
    /// A log line is `name length start last end`, the fields of the trim log in the Trimmomatic
    /// manual: the name that [`name_of`](crate::name_of) returns, the bases kept, the bases removed
    /// at the front, `start + length`, and the bases removed at the end. A dropped read has four
    /// zeros. The forward line comes first.
    pub fn add(&mut self, pair: PairView<'_>, steps: &Steps) -> Result<(), OutOfMemory>
        requires { self.old.counts.pairs < u64.MAX }
        ensures ok { OnOk result
            (self.new ≡ joined self.old
            (texts_of steps.now (mates_in pair.entry.forward pair.entry.reverse ∷ []))) }
        ensures err { OnErr result (self.new ≡ self.old) }
    {
        let names = pair.name_lengths();
        self.add_named(pair, names, steps)
    }

    /// Adds one pair as [`add`](Texts::add) does. The caller already knows the lengths of the
    /// names, so they are not searched for.
    #[inline(always)]
    pub fn add_named(
        &mut self,
        pair: PairView<'_>,
        names: NameLengths,
        steps: &Steps,
    ) -> Result<(), OutOfMemory>
        requires room { self.old.counts.pairs < u64.MAX }
        requires names { names ≡ name_lengths (mates_in pair.forward pair.reverse) }
        ensures ok { OnOk result
            (self.new ≡ joined self.old
            (texts_of steps.now (mates_in pair.entry.forward pair.entry.reverse ∷ []))) }
        ensures err { OnErr result (self.new ≡ self.old) }
    {
        let forward = trimmed(&pair.forward, steps);
        let reverse = trimmed(&pair.reverse, steps);
        self.add_kept(pair, names, steps, forward, reverse)
    }

    /// Adds one pair as [`add`](Texts::add) does. The caller already knows what the steps keep of
    /// each mate, so a caller that also counts bases trims the pair once.
    // Two functions call this one, so without the hint `add` would cost one more call.
    #[inline(always)]
    pub fn add_kept(
        &mut self,
        pair: PairView<'_>,
        names: NameLengths,
        steps: &Steps,
        forward: Option<Kept>,
        reverse: Option<Kept>,
    ) -> Result<(), OutOfMemory>
        requires room { self.old.counts.pairs < u64.MAX }
        requires names { names ≡ name_lengths (mates_in pair.forward pair.reverse) }
        requires forward { kept_places steps.now pair.forward ≡ places_of forward }
        requires reverse { kept_places steps.now pair.reverse ≡ places_of reverse }
        ensures ok { OnOk result
            (self.new ≡ joined self.old
            (texts_of steps.now (mates_in pair.entry.forward pair.entry.reverse ∷ []))) }
        ensures err { OnErr result (self.new ≡ self.old) }
    {
        let forward_title = pair.forward.title();
        let reverse_title = pair.reverse.title();
        let forward_name = &forward_title[..names.forward];
        let reverse_name = &reverse_title[..names.reverse];
        let forward_seq = pair.forward.seq();
        let reverse_seq = pair.reverse.seq();
        let recode = steps.reencodes();
        self.log
            .reserve(line_room(forward_name) + line_room(reverse_name))?;
        match (forward, reverse) {
            (Some(forward), Some(reverse)) => {
                make_room(&mut self.forward_paired, &pair.forward, forward)?;
                make_room(&mut self.reverse_paired, &pair.reverse, reverse)?;
                put_kept(&mut self.forward_paired, &pair.forward, forward, recode);
                put_kept(&mut self.reverse_paired, &pair.reverse, reverse, recode);
                self.counts.both += 1;
            }
            (Some(forward), None) => {
                make_room(&mut self.forward_unpaired, &pair.forward, forward)?;
                put_kept(&mut self.forward_unpaired, &pair.forward, forward, recode);
                self.counts.forward_only += 1;
            }
            (None, Some(reverse)) => {
                make_room(&mut self.reverse_unpaired, &pair.reverse, reverse)?;
                put_kept(&mut self.reverse_unpaired, &pair.reverse, reverse, recode);
                self.counts.reverse_only += 1;
            }
            (None, None) => self.counts.dropped += 1,
        }
        put_line(&mut self.log, forward_name, forward_seq.len(), forward);
        put_line(&mut self.log, reverse_name, reverse_seq.len(), reverse);
        self.counts.pairs += 1;
        Ok(())
    }

    /// Returns one of the texts.
    pub fn text(&self, out: Out) -> &[u8]
        ensures { result.now ≡ text_of out self.now }
    {
        match out {
            Out::ForwardPaired => &self.forward_paired,
            Out::ForwardUnpaired => &self.forward_unpaired,
            Out::ReversePaired => &self.reverse_paired,
            Out::ReverseUnpaired => &self.reverse_unpaired,
            Out::Log => &self.log,
        }
    }

    /// The counts of the pairs that were added, by the mates that survive.
    pub fn counts(&self) -> Counts
        ensures { result ≡ self.now.counts }
    {
        self.counts
    }

    /// Empties the texts, whose memory is kept for the next pairs, and sets the counts to 0.
    pub fn clear(&mut self)
        ensures { self.new ≡ no_texts }
    {
        self.forward_paired.clear();
        self.forward_unpaired.clear();
        self.reverse_paired.clear();
        self.reverse_unpaired.clear();
        self.log.clear();
        self.counts = Counts::ZERO;
    }
}

// What the steps keep of a read.
// Without this hint, here and below, the compiler would copy the whole view to memory.
#[inline(always)]
fn trimmed(read: &ReadView<'_>, steps: &Steps) -> Option<Kept>
    requires { IsLawful read.now }
    ensures places { kept_places steps.now read.now ≡ places_of result }
    ensures within { IsWithin (length read.now.seq) result }
{
    steps.trim(read.encoding(), read.qual())
}

// Reserves room for the record of the kept bases of a read.
#[inline(always)]
fn make_room(out: &mut Vec<u8>, read: &ReadView<'_>, kept: Kept) -> Result<(), OutOfMemory>
    requires { IsWithin (length read.now.seq) (Some kept) }
    ensures items { out.new.items ≡ out.old.items }
    ensures room { OnOk result
        (vec_len out.new + (length read.now.title + 2 * (kept.stop - kept.start) + 6)
        ≤ vec_capacity out.new) }
{
    out.reserve(read.title().len() + 2 * (kept.stop - kept.start) + 6)
}

// Appends the record of the kept bases of a read. The text must have room.
#[tactic(auto, using(std::proofs::lemmas::Grind::common_steps, crate::proofs::TextLemmas::can_recode, crate::proofs::TextLemmas::record_of_kept))]
#[inline(always)]
fn put_kept(out: &mut Vec<u8>, read: &ReadView<'_>, kept: Kept, recode: bool)
    requires within { IsWithin (length read.now.seq) (Some kept) }
    requires room { vec_len out.old + (length read.now.title + 2 * (kept.stop - kept.start) + 6)
        ≤ vec_capacity out.old }
    ensures { out.new.items ≡ out.old.items ++ record_at recode (places_of (Some kept)) read.now }
{
    let title = read.title();
    let seq = &read.seq()[kept.start..kept.stop];
    let qual = &read.qual()[kept.start..kept.stop];
    let recode = recode.then_some(read.encoding());
    append_record(out, title, seq, qual, recode);
}
