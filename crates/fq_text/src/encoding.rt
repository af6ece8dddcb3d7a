//! Quality encodings: the Phred score that each quality byte stands for.

ghost use Rattle.std.specs.Prelude.{◌≡◌, ◌≤◌, ◌+◌, ℕ, true, nat_le, map, None, IfSome};
ghost use Rattle.std.specs.List.{list_all};
ghost use Rattle.fq_text.specs.Scores.{is_scored, value_of};
ghost use Rattle.fq_text.specs.declared.encoding.Encoding.TheVariants.{Solexa};

use crate::vectors::are_from;

// The Phred scores of the bytes 59 to 126 in Solexa's encoding: of the Solexa scores -5 to 62.
const PHRED_OF_SOLEXA: [u8; 68] = [
    1, 1, 2, 2, 3, 3, 4, 4, 5, 5, 6, 7, 8, 9, 10, 10, 11, 12, 13, 14, 15, 16, 17, 18, 19, 20, 21,
    22, 23, 24, 25, 26, 27, 28, 29, 30, 31, 32, 33, 34, 35, 36, 37, 38, 39, 40, 41, 42, 43, 44, 45,
    46, 47, 48, 49, 50, 51, 52, 53, 54, 55, 56, 57, 58, 59, 60, 61, 62,
];

/// How quality bytes stand for Phred scores. Each base has one quality byte, a printable ASCII
/// character (Cock, Fields, Goto, Heuer and Rice, Nucleic Acids Research 38(6), 2010).
#[derive(Clone, Copy, Debug, PartialEq, Eq)]
pub enum Encoding {
    /// Sanger: Phred scores 0 to 93, as bytes 33 (`!`) to 126 (`~`).
    Sanger,
    /// Illumina 1.3+: Phred scores 0 to 62, as bytes 64 (`@`) to 126 (`~`).
    Illumina13,
    /// Solexa, also Illumina before 1.3: Solexa scores -5 to 62, as bytes 59 (`;`) to 126 (`~`).
    ///
    /// A Solexa score is the byte minus 64. It is not a Phred score, but 10 times the decimal
    /// logarithm of the odds that the base is right. Each Solexa score counts as the nearest Phred
    /// score:
    ///
    /// | Solexa | -5 | -4 | -3 | -2 | -1 | 0 | 1 | 2 | 3 | 4 | 5 | 6 | 7 | 8 | 9 | 10 to 62 |
    /// |---|---|---|---|---|---|---|---|---|---|---|---|---|---|---|---|---|
    /// | Phred | 1 | 1 | 2 | 2 | 3 | 3 | 4 | 4 | 5 | 5 | 6 | 7 | 8 | 9 | 10 | the same number |
    ///
    /// So two bytes can have the same score.
    Solexa,
}

impl Encoding {
    ghost use Rattle.fq_text.specs.Scores.{lowest, offset, score, recoded, encoding_name, encoding_of};

    /// The encoding with this name, as `--encoding` takes it: `sanger`, `illumina13` or `solexa`.
    pub fn of_name(name: &str) -> Option<Encoding>
        ensures { result ≡ encoding_of name.now }
    {
        match name {
            "sanger" => Some(Encoding::Sanger),
            "illumina13" => Some(Encoding::Illumina13),
            "solexa" => Some(Encoding::Solexa),
            _ => None,
        }
    }

    /// The name of this encoding, which [`Encoding::of_name`] takes.
    pub fn name(self) -> &'static str
        ensures { result.now ≡ encoding_name self }
    {
        match self {
            Encoding::Sanger => "sanger",
            Encoding::Illumina13 => "illumina13",
            Encoding::Solexa => "solexa",
        }
    }

    /// What is added to a score to get its byte: 33 (Phred+33) or 64 (Phred+64). `None` for
    /// Solexa's encoding, where no one number is added to all scores.
    #[inline(always)]
    pub fn offset(self) -> Option<u8>
        ensures is { result ≡ offset self }
        ensures low { IfSome result (λ added. added ≤ lowest self) }
        ensures none { result ≡ None → self ≡ Solexa }
    {
        match self {
            Encoding::Sanger => Some(33),
            Encoding::Illumina13 => Some(64),
            Encoding::Solexa => None,
        }
    }

    // The lowest byte that has a score.
    fn lowest(self) -> u8
        ensures { result ≡ lowest self }
    {
        match self {
            Encoding::Sanger => 33,
            Encoding::Illumina13 => 64,
            Encoding::Solexa => 59,
        }
    }

    /// The Phred score of a quality byte, or `None` if the byte has no score in this encoding.
    pub fn score(self, byte: u8) -> Option<u8>
        ensures { result ≡ score self byte }
    {
        if self.lowest() <= byte && byte <= 126 {
            Some(self.phred(byte))
        } else {
            None
        }
    }

    /// The Phred score of a quality byte that has one: [`Encoding::score`] without its test, for
    /// reads whose bytes are known to have scores.
    pub fn phred(self, byte: u8) -> u8
        requires { is_scored self byte ≡ true }
        ensures { result ≡ value_of self byte }
    {
        match self.offset() {
            Some(offset) => byte - offset,
            None => phred_of_solexa(byte),
        }
    }

    /// The least byte with a score of at least `score`. Larger bytes have no smaller scores.
    ///
    /// From 10 on, Solexa scores are the same numbers as Phred scores.
    #[inline(always)]
    pub fn least_byte(self, score: u8) -> u8
        requires low { 11 ≤ score }
        requires high { score ≤ 62 }
        ensures least { (byte : ℕ) → nat_le score (value_of self byte) ≡ nat_le result byte }
        ensures positive { 1 ≤ result }
    {
        match self.offset() {
            Some(offset) => offset + score,
            None => 64 + score,
        }
    }

    /// Whether every byte has a score in this encoding. True for an empty slice.
    pub fn all_scored(self, bytes: &[u8]) -> bool
        ensures { result ≡ list_all (is_scored self) bytes.now }
    {
        are_from(self.lowest(), bytes)
    }

    // Replaces each byte by the byte that has the same score at offset 33.
    #[tactic(auto, using(std::proofs::lemmas::Grind::common_steps, crate::proofs::ScoreLemmas::next_scored, crate::proofs::ScoreLemmas::value_small))]
    pub(crate) fn recode(self, bytes: &mut [u8])
        requires { list_all (is_scored self) bytes.old ≡ true }
        ensures { bytes.new ≡ map (recoded self) bytes.old }
    {
        for byte in bytes.iter_mut() {
            *byte = from_score33(self.phred(*byte));
        }
    }
}

// The Phred score that the table at [`Encoding::Solexa`] has for the Solexa score `byte - 64`.
#[tactic(auto, using(crate::proofs::ScoreLemmas::table_at))]
fn phred_of_solexa(byte: u8) -> u8
    requires { is_scored Solexa byte ≡ true }
    ensures { result ≡ value_of Solexa byte }
{
    PHRED_OF_SOLEXA[usize::from(byte - 59)]
}

/// The quality byte of a Phred score from 0 to 93 in Sanger's encoding: the score plus 33.
pub fn from_score33(score: u8) -> u8
    requires { score ≤ 93 }
    ensures { result ≡ score + 33 }
{
    33 + score
}
