//! The two sides of a pair.

ghost use Rattle.std.specs.Prelude.{Some};

use std::fmt;

/// The side of a mate: its input, or its position in the pair if both mates come from one input.
#[derive(Clone, Copy, Debug, PartialEq, Eq)]
pub enum Side {
    /// The first read of a pair.
    Forward,
    /// The second read of a pair.
    Reverse,
}

/// Prints `forward` or `reverse`.
impl fmt::Display for Side {
    ghost use Rattle.std.specs.Prelude.{Some};
    ghost use Rattle.fq_pair.specs.Summaries.{side_name};

    ghost output = { λ side. Some (side_name side) };

    fn fmt<W: fmt::Write>(&self, f: &mut fmt::Formatter<W>) -> fmt::Result {
        match self {
            Side::Forward => write!(f, "forward"),
            Side::Reverse => write!(f, "reverse"),
        }
    }
}
