//! The kinds of trimming step.

/// One trimming step: which of the bases that it is given it keeps.
///
/// Thresholds are Phred scores in the read's encoding. Lengths and windows are numbers of bases.
/// Every base counts with the score that its quality byte gives, also an `N`.
///
/// The names are those of the Trimmomatic manual, and so is what LEADING, TRAILING, CROP, HEADCROP,
/// MINLEN and TOPHRED33 keep. AVGQUAL, and the base at which SLIDINGWINDOW cuts, are defined by
/// this project.
#[derive(Clone, Copy, Debug, PartialEq, Eq)]
pub enum Step {
    /// `LEADING:t`: from the first base with a score of at least `t` on.
    Leading(u32),
    /// `TRAILING:t`: up to the last base with a score of at least `t`. Lower scores before that
    /// base stay.
    Trailing(u32),
    /// `CROP:m`: the first `m` bases, or all if there are fewer.
    Crop(u32),
    /// `HEADCROP:m`: all but the first `m` bases.
    HeadCrop(u32),
    /// `SLIDINGWINDOW:w:t`: nothing if there are fewer than `w` bases, or if the first `w` scores
    /// sum to less than `w * t`. Otherwise up to the last base with a score of at least `t` such
    /// that no window of `w` bases that ends at or before it sums to less than `w * t`.
    SlidingWindow {
        /// How many bases a window has: at least 1 in a list of steps.
        width: u32,
        /// The average score that each window needs.
        score: u32,
    },
    /// `AVGQUAL:t`: all bases if their scores sum to at least `t` times their number, otherwise
    /// nothing. Nothing is rounded.
    AverageQuality(u32),
    /// `MINLEN:m`: all bases if there are at least `m`, otherwise nothing.
    MinLen(u32),
    /// `TOPHRED33`: all bases. If it is in the list, the quality is written as score + 33.
    ToPhred33,
}
