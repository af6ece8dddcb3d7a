//! Reads a record: as a whole if it is in hand as four unwrapped lines, otherwise line by line.

ghost use Rattle.std.specs.Prelude.{◌≡◌, ◌+◌, ◌<◌, ◌≤◌, [], length, drop, MatchResult, IfOk, IfSome, Ok, Some, None};
ghost use Rattle.fq_text.specs.Grammar.{limit, front, Found};
ghost use Rattle.fq_text.specs.Reading.{IsSound, fails};
ghost use Rattle.fq_text.specs.Unwrapped.{unwrapped, lines_len, BeginsWithRecord};
ghost use Rattle.fq_text.specs.declared.parse.Place.TheVariants.{Joined};
ghost use Rattle.fq_text.specs.declared.unwrapped.Shape.{Shape};
ghost use Rattle.fq_text.specs.Phases.{in_sequence, in_quality, Goes, Stops, FindsTitle, FindsPlus, FindsRecord, FindsRest, FindsNext, current_at, IsPlace};

use crate::encoding::Encoding;
use crate::fault::{Fault, ReadError};
use crate::feed::Feed;
use crate::judge::{begins_with, plus_fault, quality_fault, sequence_fault, title_fault};
use crate::lines::LineReader;
use crate::record::Parts;
use crate::unwrapped::{Shape, first_record};

/// Where the parts of the record that was read last are.
#[derive(Clone, Copy)]
pub(crate) enum Place {
    /// In the four lines that were taken last. They have this shape.
    Unwrapped(Shape),
    /// In the [`Parts`], with their lines joined.
    Joined,
}

// Reads up to the next title and begins the parts of its record. Returns `false` at the end of the
// text.
fn read_title<F: Feed>(
    encoding: Encoding,
    lines: &mut LineReader<F>,
    parts: &mut Parts,
) -> Result<bool, ReadError>
    requires failures { (F.state lines.old.feed).failures < u64.MAX }
    requires sound { IsSound F.state lines.old }
    ensures step { MatchResult result (FindsTitle F.state lines.old lines.new encoding parts.new)
        (Stops F.state lines.old lines.new (front encoding)) }
    ensures sound { IsSound F.state lines.new }
    ensures failures { (F.state lines.new.feed).failures
        ≡ (F.state lines.old.feed).failures + fails result }
{
    while lines.advance()? {
        let line = lines.line();
        if !line.is_empty() {
            return match title_fault(line) {
                Some(fault) => Err(ReadError::Fault(fault)),
                None => {
                    parts.begin(encoding, &line[1..])?;
                    Ok(true)
                }
            };
        }
    }
    Ok(false)
}

// Reads the sequence lines and the plus line.
fn read_sequence<F: Feed>(lines: &mut LineReader<F>, parts: &mut Parts) -> Result<(), ReadError>
    requires failures { (F.state lines.old.feed).failures < u64.MAX }
    requires sound { IsSound F.state lines.old }
    requires bases { parts.old.seq ≡ [] }
    requires scores { parts.old.qual ≡ [] }
    ensures step { MatchResult result (FindsPlus F.state lines.old lines.new parts.old parts.new)
        (Stops F.state lines.old lines.new (in_sequence parts.old.encoding parts.old.title [])) }
    ensures sound { IsSound F.state lines.new }
    ensures failures { (F.state lines.new.feed).failures
        ≡ (F.state lines.old.feed).failures + fails result }
{
    while lines.advance()? {
        let line = lines.line();
        if begins_with(line, b'+') {
            return Ok(());
        }
        match sequence_fault(parts.seq().len(), line) {
            Some(fault) => return Err(ReadError::Fault(fault)),
            None => parts.push_bases(line)?,
        }
    }
    Err(ReadError::Fault(Fault::NoPlus))
}

// Reads the quality lines.
fn read_quality<F: Feed>(lines: &mut LineReader<F>, parts: &mut Parts) -> Result<(), ReadError>
    requires failures { (F.state lines.old.feed).failures < u64.MAX }
    requires sound { IsSound F.state lines.old }
    requires bases { length parts.old.seq ≤ limit }
    requires scores { parts.old.qual ≡ [] }
    ensures step { MatchResult result (FindsRecord F.state lines.old lines.new parts.old parts.new)
        (Stops F.state lines.old lines.new
        (in_quality parts.old.encoding parts.old.title parts.old.seq [])) }
    ensures sound { IsSound F.state lines.new }
    ensures failures { (F.state lines.new.feed).failures
        ≡ (F.state lines.old.feed).failures + fails result }
{
    let bases = parts.seq().len();
    while parts.qual().len() < bases {
        if !lines.advance()? {
            return Err(ReadError::Fault(Fault::QualityShort));
        }
        let line = lines.line();
        match quality_fault(parts.encoding(), bases, parts.qual().len(), line) {
            Some(fault) => return Err(ReadError::Fault(fault)),
            None => parts.push_scores(line)?,
        }
    }
    Ok(())
}

// Takes the next record if it is whole in hand as four unwrapped lines. `guess` is the number of
// bases that is tried first.
#[tactic(auto, using(std::proofs::lemmas::Grind::common_steps, crate::proofs::UnwrappedLemmas::taken_whole))]
fn take_in_hand<F: Feed>(
    encoding: Encoding,
    guess: usize,
    lines: &mut LineReader<F>,
) -> Option<Shape>
    requires { IsSound F.state lines.old }
    ensures found { IfSome result (λ shape. Goes F.state lines.old lines.new (front encoding)
        (Found (unwrapped encoding shape (drop 1 lines.new.line)))) }
    ensures whole { IfSome result (λ shape. lines_len shape ≤ length lines.new.line) }
    ensures none { result ≡ None → lines.new ≡ lines.old }
    ensures passed_by { result ≡ None → (shape : Shape)
        → BeginsWithRecord encoding lines.old.in_hand shape → ⊥ }
    ensures sound { IsSound F.state lines.new }
    ensures feed { lines.new.feed ≡ lines.old.feed }
{
    let hand = lines.hand();
    let shape = first_record(encoding, hand, guess)?;
    let len = shape.lines_len();
    lines.take_line(len, len + shape.end);
    Some(shape)
}

// Reads the next record and returns where it is, or `None` at the end of the text. `guess` is the
// number of bases that is tried first.
pub(crate) fn read_record<F: Feed>(
    encoding: Encoding,
    guess: usize,
    lines: &mut LineReader<F>,
    parts: &mut Parts,
) -> Result<Option<Place>, ReadError>
    requires failures { (F.state lines.old.feed).failures < u64.MAX }
    requires sound { IsSound F.state lines.old }
    ensures step { MatchResult result (λ o. FindsNext F.state lines.old lines.new encoding
        (current_at encoding lines.new.line parts.new o))
        (Stops F.state lines.old lines.new (front encoding)) }
    ensures place { IfOk result (λ o. IfSome o (IsPlace lines.new.line)) }
    ensures lent { result ≡ Ok (Some Joined) → (shape : Shape)
        → BeginsWithRecord encoding lines.old.in_hand shape → ⊥ }
    ensures sound { IsSound F.state lines.new }
    ensures failures { (F.state lines.new.feed).failures
        ≡ (F.state lines.old.feed).failures + fails result }
{
    match take_in_hand(encoding, guess, lines) {
        Some(shape) => Ok(Some(Place::Unwrapped(shape))),
        None => {
            if !read_title(encoding, lines, parts)? {
                return Ok(None);
            }
            read_rest(lines, parts)?;
            Ok(Some(Place::Joined))
        }
    }
}

// Reads what follows a title: the sequence, the plus line and the quality.
fn read_rest<F: Feed>(lines: &mut LineReader<F>, parts: &mut Parts) -> Result<(), ReadError>
    requires failures { (F.state lines.old.feed).failures < u64.MAX }
    requires sound { IsSound F.state lines.old }
    requires bases { parts.old.seq ≡ [] }
    requires scores { parts.old.qual ≡ [] }
    ensures step { MatchResult result (FindsRest F.state lines.old lines.new parts.old parts.new)
        (Stops F.state lines.old lines.new (in_sequence parts.old.encoding parts.old.title [])) }
    ensures sound { IsSound F.state lines.new }
    ensures failures { (F.state lines.new.feed).failures
        ≡ (F.state lines.old.feed).failures + fails result }
{
    read_sequence(lines, parts)?;
    match plus_fault(parts.title(), lines.line()) {
        Some(fault) => Err(ReadError::Fault(fault)),
        None => read_quality(lines, parts),
    }
}
