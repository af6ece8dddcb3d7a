//! Finds a record of four unwrapped lines that is whole in hand. Most files hold no other records,
//! and such a record is borrowed from the buffer without a copy.

ghost use Rattle.std.specs.Prelude.{◌≡◌, ◌↔◌, ◌+◌, ◌≤◌, ℕ, None, take, drop, length, IsTrue, IfSome};
ghost use Rattle.fq_text.specs.Grammar.{limit, IsLawful};
ghost use Rattle.fq_text.specs.Reading.{NoLf, IsLineEnd};
ghost use Rattle.fq_text.specs.Unwrapped.{unwrapped, lines_len, plus_place, EndsAt, IsFirstLine, DoLinesEnd, IsFourLines, IsShape, BeginsWithRecord};
ghost use Rattle.fq_text.specs.declared.unwrapped.Shape.{Shape};

use crate::encoding::Encoding;
use crate::judge::{LIMIT, begins_with};
use crate::view::{ReadView, is_lawful_line};
use memchr::memchr;

/// The lengths in bytes of a record of four unwrapped lines: the title, the bases, each line end (1
/// for LF, 2 for CR and LF), and the text after the `+` of the third line (0, or the length of the
/// title).
#[derive(Clone, Copy)]
pub(crate) struct Shape {
    pub(crate) title: usize,
    pub(crate) bases: usize,
    pub(crate) end: usize,
    pub(crate) again: usize,
}

impl Shape {
    /// The length of the four lines without the last line end.
    #[inline(always)]
    pub(crate) fn lines_len(self) -> usize
        requires { lines_len self ≤ usize.MAX }
        ensures { result ≡ lines_len self }
    {
        self.title + self.bases + self.bases + self.again + 3 * self.end + 2
    }

    // Where the third line begins, with the `+`.
    #[inline(always)]
    fn plus_place(self) -> usize
        requires { plus_place self ≤ usize.MAX }
        ensures { result ≡ plus_place self }
    {
        self.title + self.bases + 2 * self.end + 1
    }
}

// The lengths in bytes of a line and of its line end: 1 for LF, 2 for CR and LF.
#[derive(Clone, Copy)]
struct FirstLine {
    len: usize,
    end: usize,
}

// Whether there is a line end of `end` bytes at this index.
fn ends_at(hand: &[u8], place: usize, end: usize) -> bool
    requires some { 1 ≤ end }
    requires within { place + end ≤ length hand.now }
    ensures { IsTrue result ↔ EndsAt hand.now place end }
{
    hand[place + end - 1] == b'\n' && (end == 1 || hand[place] == b'\r')
}

// Whether the `len` bytes at this index are those after the first byte.
fn repeats(hand: &[u8], place: usize, len: usize) -> bool
    requires some { 1 ≤ place }
    requires within { place + len ≤ length hand.now }
    ensures { IsTrue result ↔ take len (drop place hand.now) ≡ take len (drop 1 hand.now) }
{
    len == 0 || hand[place..place + len] == hand[1..1 + len]
}

// Whether each of the four line ends of this shape is at its place.
fn do_lines_end(hand: &[u8], shape: Shape) -> bool
    requires some { 1 ≤ shape.end }
    requires fits { lines_len shape + shape.end ≤ length hand.now }
    ensures { IsTrue result ↔ DoLinesEnd hand.now shape }
{
    let Shape {
        title,
        bases,
        end,
        again,
    } = shape;
    ends_at(hand, title + 1, end)
        && ends_at(hand, title + bases + end + 1, end)
        && ends_at(hand, title + bases + again + 2 * end + 2, end)
        && ends_at(hand, shape.lines_len(), end)
}

// Whether `@`, `+`, the line ends and the text after the `+` are at the places of this shape.
fn are_four_lines(hand: &[u8], shape: Shape) -> bool
    requires some { 1 ≤ shape.end }
    requires end { shape.end ≤ 2 }
    requires title { shape.title ≤ limit }
    requires bases { shape.bases ≤ limit }
    requires again { shape.again ≤ limit }
    ensures { IsTrue result ↔ IsFourLines hand.now shape }
{
    if shape.lines_len() + shape.end > hand.len() {
        return false;
    }
    let plus = shape.plus_place();
    hand[0] == b'@'
        && hand[plus] == b'+'
        && do_lines_end(hand, shape)
        && repeats(hand, plus + 1, shape.again)
}

// The title, the sequence and the quality in four lines of this shape. The last line needs no line
// end.
#[inline(always)]
fn parts_of(lines: &[u8], shape: Shape) -> (&[u8], &[u8], &[u8])
    requires { lines_len shape ≤ length lines.now }
    ensures { (encoding : Encoding) → unwrapped encoding shape (drop 1 lines.now) ≡ record {
      encoding = encoding;
      title = result.0.now;
      seq = result.1.now;
      qual = result.2.now;
    } }
{
    let Shape {
        title,
        bases,
        end,
        again,
    } = shape;
    let seq = title + end + 1;
    let qual = title + bases + again + 3 * end + 2;
    (
        &lines[1..title + 1],
        &lines[seq..seq + bases],
        &lines[qual..qual + bases],
    )
}

// Whether these bytes begin with a valid record of this shape.
fn begins_with_record(encoding: Encoding, hand: &[u8], shape: Shape) -> bool
    requires shape { IsShape shape }
    requires title { IsFirstLine (drop 1 hand.now) shape.title shape.end }
    ensures { IsTrue result ↔ BeginsWithRecord encoding hand.now shape }
{
    if shape.title >= LIMIT
        || shape.bases == 0
        || shape.bases > LIMIT
        || !are_four_lines(hand, shape)
    {
        return false;
    }
    let (title, seq, qual) = parts_of(hand, shape);
    is_lawful_line(encoding, title, seq, qual)
}

// The shape of the record that these bytes begin with, if it has this title and `bases` bases.
fn shape_of(encoding: Encoding, hand: &[u8], title: FirstLine, bases: usize) -> Option<Shape>
    requires { IsFirstLine (drop 1 hand.now) title.len title.end }
    ensures found { IfSome result (BeginsWithRecord encoding hand.now) }
    ensures none { result ≡ None → (again : ℕ)
        → BeginsWithRecord encoding hand.now
        (record { title = title.len; bases = bases; end = title.end; again = again }) → ⊥ }
{
    let FirstLine { len: title, end } = title;
    let bare = Shape {
        title,
        bases,
        end,
        again: 0,
    };
    if title >= LIMIT || bases > LIMIT || hand.get(bare.plus_place()) != Some(&b'+') {
        return None;
    }
    if begins_with_record(encoding, hand, bare) {
        return Some(bare);
    }
    let titled = Shape {
        again: title,
        ..bare
    };
    if begins_with_record(encoding, hand, titled) {
        Some(titled)
    } else {
        None
    }
}

// The index of the first LF, if there is one.
fn line_end(text: &[u8]) -> Option<usize>
    ensures { IsLineEnd text.now result }
{
    memchr(b'\n', text)
}

// The lengths of the first line and of its line end. A CR before the LF belongs to the line end.
#[tactic(auto, using(std::proofs::lemmas::Grind::common_steps, crate::proofs::UnwrappedLemmas::plain_to))]
fn first_line(text: &[u8]) -> Option<FirstLine>
    ensures found { IfSome result (λ l. IsFirstLine text.now l.len l.end) }
    ensures none { result ≡ None → NoLf text.now (length text.now) }
{
    let place = line_end(text)?;
    if 0 < place && text[place - 1] == b'\r' {
        Some(FirstLine {
            len: place - 1,
            end: 2,
        })
    } else {
        Some(FirstLine { len: place, end: 1 })
    }
}

/// The shape of the record that these bytes begin with, if it has four lines that all end in LF or
/// all in CR and LF, and a third line that is `+` alone or `+` and the title. `None` if these bytes
/// do not begin with such a record; they may begin with a record of another form.
///
/// The end of the title is searched for. The end of the sequence is searched for only if `guess`
/// bases do not make a record.
#[inline(always)]
pub(crate) fn first_record(encoding: Encoding, hand: &[u8], guess: usize) -> Option<Shape>
    ensures found { IfSome result (BeginsWithRecord encoding hand.now) }
    ensures none { result ≡ None → (shape : Shape) → BeginsWithRecord encoding hand.now shape → ⊥ }
{
    if !begins_with(hand, b'@') {
        return None;
    }
    let title = first_line(&hand[1..])?;
    if let Some(shape) = shape_of(encoding, hand, title, guess) {
        return Some(shape);
    }
    match first_line(&hand[title.len + title.end + 1..]) {
        Some(seq) if seq.end == title.end => shape_of(encoding, hand, title, seq.len),
        _ => None,
    }
}

/// Borrows the record of this shape from its four lines. The last line needs no line end.
pub(crate) fn view_of(encoding: Encoding, lines: &[u8], shape: Shape) -> ReadView<'_>
    requires lawful { IsLawful (unwrapped encoding shape (drop 1 lines.now)) }
    requires whole { lines_len shape ≤ length lines.now }
    ensures { result ≡ unwrapped encoding shape (drop 1 lines.now) }
{
    let (title, seq, qual) = parts_of(lines, shape);
    ReadView::new(encoding, title, seq, qual)
}
