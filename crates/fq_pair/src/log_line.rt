//! The lines of the trim log.

ghost use Rattle.std.specs.Prelude.{◌≡◌, ◌+◌, ◌≤◌, ◌++◌, length, drop, flat_map, vec_len, vec_capacity};
ghost use Rattle.fq_trim.specs.KeptPlaces.{places_of, IsWithin};
ghost use Rattle.fq_pair.specs.Outputs.{log_numbers, log_line_of, field};

use fq_trim::Kept;
use itoa::write_digits;

// The numbers in the log line of a read: bases kept, bases removed at the front, where the last
// kept base ends, bases removed at the end.
fn kept_numbers(bases: usize, kept: Option<Kept>) -> [usize; 4]
    requires { IsWithin bases kept }
    ensures { result ≡ log_numbers bases (places_of kept) }
{
    match kept {
        None => [0; 4],
        Some(kept) => {
            let len = kept.stop - kept.start;
            let end = bases - kept.stop;
            [len, kept.start, kept.stop, end]
        }
    }
}

// The most bytes that one number adds to a log line: a blank and 20 digits.
const FIELD_ROOM: usize = 21;

// The most bytes of a log line after the name: four numbers and LF.
const NUMBERS_ROOM: usize = 4 * FIELD_ROOM + 1;

// Writes a blank and a number that end before `end`, and returns where they begin.
#[tactic(auto, using(std::proofs::lemmas::Grind::common_steps, crate::proofs::TextLemmas::short))]
#[inline(always)]
fn put_field(text: &mut [u8], end: usize, number: usize) -> usize
    requires room { FIELD_ROOM ≤ end }
    requires within { end ≤ length text.old }
    ensures begin { result ≤ end }
    ensures room { end ≤ result + FIELD_ROOM }
    ensures text { drop result text.new ≡ field number ++ drop end text.old }
{
    let at = write_digits(number as u64, text, end) - 1;
    text[at] = b' ';
    at
}

// Writes the four numbers of a log line before its last byte, and returns where they begin.
#[inline(always)]
fn put_numbers(text: &mut [u8; NUMBERS_ROOM], numbers: [usize; 4]) -> usize
    ensures text { drop result text.new ≡ flat_map field numbers ++ drop 84 text.old }
    ensures within { result ≤ 84 }
{
    let [kept, start, stop, end] = numbers;
    let at = put_field(text, NUMBERS_ROOM - 1, end);
    let at = put_field(text, at, stop);
    let at = put_field(text, at, start);
    put_field(text, at, kept)
}

/// The most bytes of the log line of a read with this name: the name, four numbers and LF.
pub(crate) fn line_room(name: &[u8]) -> usize
    ensures { result ≡ length name.now + 85 }
{
    name.len() + NUMBERS_ROOM
}

/// Appends the log line of a read with this name and number of bases. The log must have room.
pub(crate) fn put_line(log: &mut Vec<u8>, name: &[u8], bases: usize, kept: Option<Kept>)
    requires within { IsWithin bases kept }
    requires room { vec_len log.old + (length name.now + 85) ≤ vec_capacity log.old }
    ensures items { log.new.items ≡ log.old.items ++ log_line_of name.now bases (places_of kept) }
    ensures len { vec_len log.new ≤ vec_len log.old + (length name.now + 85) }
    ensures capacity { vec_capacity log.old ≤ vec_capacity log.new }
{
    let mut text = [b'\n'; NUMBERS_ROOM];
    let at = put_numbers(&mut text, kept_numbers(bases, kept));
    log.extend_from_slice(name).unwrap();
    log.extend_from_slice(&text[at..]).unwrap();
}
