//! The names of mates.

ghost use Rattle.std.specs.Prelude.{◌≡◌, ◌-◌, ◌<◌, ◌≤◌, true, false, IsTrue, length, take, get_or};
ghost use Rattle.std.specs.List.{before_first};
ghost use Rattle.std.specs.Str.{bytes_eq};
ghost use Rattle.fq_pair.specs.declared.side.Side.TheVariants.{Forward, Reverse};
ghost use Rattle.fq_pair.specs.Mates.{is_gap as gap, mark_of as mark, without_end, name_of as name, names_match as same_names, lengths_of};

use crate::side::Side;
use memchr::memchr2;

// Whether a byte is a blank or a tab.
fn is_gap(byte: u8) -> bool
    ensures { result ≡ gap byte }
{
    byte == b' ' || byte == b'\t'
}

// A title up to its first blank or tab.
fn first_word(title: &[u8]) -> &[u8]
    ensures { result.now ≡ before_first gap title.now }
{
    let end = memchr2(b' ', b'\t', title).unwrap_or(title.len());
    &title[..end]
}

// Whether the first word of a title is as long as `word`, and differs from it at most in the last
// byte. `false` if `word` is empty.
fn begins_like(title: &[u8], word: &[u8]) -> bool
    ensures some { IsTrue result → 0 < length word.now }
    ensures within { IsTrue result → length word.now ≤ length title.now }
    ensures like { IsTrue result →
        take (length word.now - 1) title.now ≡ take (length word.now - 1) word.now }
    ensures last { IsTrue result → gap (get_or title.now (length word.now - 1) 0) ≡ false }
    ensures end { IsTrue result → length word.now < length title.now →
        gap (get_or title.now (length word.now) 0) ≡ true }
{
    let len = word.len();
    if len == 0 || len > title.len() || title[..len - 1] != word[..len - 1] {
        return false;
    }
    !is_gap(title[len - 1]) && (len == title.len() || is_gap(title[len]))
}

// Removes the mark of a side, `/1` or `/2`, from the end of a word.
fn without_mark(word: &[u8], side: Side) -> &[u8]
    ensures { result.now ≡ without_end (mark side) word.now }
{
    word.strip_suffix(mark_of(side)).unwrap_or(word)
}

/// Returns the name of a mate, by which mates are matched: its title up to the first blank or tab,
/// without a final `/1` on the forward side or `/2` on the reverse side.
///
/// At most one mark is removed, and no other ending: `a/1/1` becomes `a/1`, and a forward `a/2`
/// stays. A name may be empty.
pub fn name_of(title: &[u8], side: Side) -> &[u8]
    ensures name { result.now ≡ name side title.now }
    ensures short { length result.now ≤ length title.now }
{
    without_mark(first_word(title), side)
}

fn mark_of(side: Side) -> &'static [u8]
    ensures { result.now ≡ mark side }
{
    match side {
        Side::Forward => b"/1",
        Side::Reverse => b"/2",
    }
}

/// The lengths of the names of two mates, in bytes from the start of their titles, so that the
/// names need not be searched for again.
#[derive(Clone, Copy, Debug, PartialEq, Eq)]
pub struct NameLengths {
    /// The bytes of the forward mate's name.
    pub forward: usize,
    /// The bytes of the reverse mate's name.
    pub reverse: usize,
}

/// Whether the titles of a forward and a reverse mate have the same name, byte for byte.
pub fn names_match(forward: &[u8], reverse: &[u8]) -> bool
    ensures { result ≡ same_names forward.now reverse.now }
{
    compare_names(forward, reverse).1
}

/// Returns the lengths of the names in a forward and a reverse title, and whether the names are the
/// same. If the titles begin alike, only one of them is searched.
#[inline(always)]
pub(crate) fn compare_names(forward: &[u8], reverse: &[u8]) -> (NameLengths, bool)
    ensures lengths { result.0 ≡ lengths_of forward.now reverse.now }
    ensures same { result.1 ≡ same_names forward.now reverse.now }
{
    let word = first_word(forward);
    if begins_like(reverse, word) {
        return compare_alike(word, &reverse[..word.len()]);
    }
    let forward = without_mark(word, Side::Forward);
    let reverse = name_of(reverse, Side::Reverse);
    let lengths = NameLengths {
        forward: forward.len(),
        reverse: reverse.len(),
    };
    (lengths, forward == reverse)
}

// Compares the names in two first words that differ at most in their last bytes.
#[tactic(auto, using(std::proofs::lemmas::Grind::common_steps, crate::proofs::NameLemmas::short_names, crate::proofs::NameLemmas::whole_names))]
fn compare_alike(word: &[u8], mate: &[u8]) -> (NameLengths, bool)
    requires some { 0 < length word.now }
    requires len { length mate.now ≡ length word.now }
    requires like { take (length word.now - 1) mate.now ≡ take (length word.now - 1) word.now }
    ensures forward { result.0.forward ≡ length (without_end (mark Forward) word.now) }
    ensures reverse { result.0.reverse ≡ length (without_end (mark Reverse) mate.now) }
    ensures same { result.1 ≡ bytes_eq (without_end (mark Forward) word.now)
        (without_end (mark Reverse) mate.now) }
{
    let last = word.len() - 1;
    let forward = without_mark(word, Side::Forward).len();
    let reverse = without_mark(mate, Side::Reverse).len();
    let same = forward == reverse && (forward <= last || word[last] == mate[last]);
    (NameLengths { forward, reverse }, same)
}
