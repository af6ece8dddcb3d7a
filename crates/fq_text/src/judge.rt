//! Checks of one line of a record. The length of the line is checked where it is read.

ghost use Rattle.std.specs.Prelude.{◌≡◌, ◌≤◌, true, length};
ghost use Rattle.std.specs.List.{list_all};
ghost use Rattle.fq_text.specs.Grammar.{limit, plus_sign, is_base, begins_with as begins, title_fault as fault_of_title, sequence_fault as fault_of_sequence, plus_fault as fault_of_plus, quality_fault as fault_of_quality};

use crate::encoding::Encoding;
use crate::fault::Fault;
use crate::vectors::are_from;

/// The most bytes of a line, and of a sequence after its lines are joined.
pub(crate) const LIMIT: usize = 1_048_576;

/// Whether a line begins with this byte.
pub(crate) fn begins_with(line: &[u8], mark: u8) -> bool
    ensures { result ≡ begins mark line.now }
{
    match line {
        [] => false,
        [first, ..] => *first == mark,
    }
}

/// Whether every byte is printable and not blank: 33 to 126.
pub(crate) fn all_bases(line: &[u8]) -> bool
    ensures { result ≡ list_all is_base line.now }
{
    are_from(33, line)
}

pub(crate) fn title_fault(line: &[u8]) -> Option<Fault>
    requires { length line.now ≤ limit }
    ensures { result ≡ fault_of_title line.now }
{
    if begins_with(line, b'@') {
        None
    } else {
        Some(Fault::NoTitle)
    }
}

/// The fault of a sequence line after `bases` bases of the same record, if there is one.
pub(crate) fn sequence_fault(bases: usize, line: &[u8]) -> Option<Fault>
    requires before { bases ≤ limit }
    requires line { length line.now ≤ limit }
    ensures { result ≡ fault_of_sequence bases line.now }
{
    if begins_with(line, b'@') {
        return Some(Fault::BadSequence);
    }
    if bases + line.len() > LIMIT {
        return Some(Fault::TooLong);
    }
    if !all_bases(line) {
        return Some(Fault::BadSequence);
    }
    None
}

pub(crate) fn plus_fault(title: &[u8], line: &[u8]) -> Option<Fault>
    requires mark { begins plus_sign line.now ≡ true }
    requires line { length line.now ≤ limit }
    ensures { result ≡ fault_of_plus title.now line.now }
{
    let rest = &line[1..];
    if rest.is_empty() || rest == title {
        None
    } else {
        Some(Fault::PlusDiffers)
    }
}

/// The fault of a quality line after `before` quality bytes of the same record, which has `bases`
/// bases, if there is one.
pub(crate) fn quality_fault(
    encoding: Encoding,
    bases: usize,
    before: usize,
    line: &[u8],
) -> Option<Fault>
    requires before { before ≤ limit }
    requires line { length line.now ≤ limit }
    ensures { result ≡ fault_of_quality encoding bases before line.now }
{
    if before + line.len() > bases {
        return Some(Fault::QualityLong);
    }
    if !encoding.all_scored(line) {
        return Some(Fault::BadQuality);
    }
    None
}
