//! The texts that a run writes.

use std::fmt;

/// One of the texts that a run writes. The variants are in the order of writing.
#[derive(Clone, Copy, Debug, PartialEq, Eq)]
pub enum Out {
    /// Forward reads whose mate also survives.
    ForwardPaired,
    /// Forward reads whose mate is dropped.
    ForwardUnpaired,
    /// Reverse reads whose mate also survives.
    ReversePaired,
    /// Reverse reads whose mate is dropped.
    ReverseUnpaired,
    /// The trim log, with one line for each read, kept or dropped.
    Log,
}

impl Out {
    /// All outputs, in the order of writing.
    pub const ALL: [Out; 5] = [
        Out::ForwardPaired,
        Out::ForwardUnpaired,
        Out::ReversePaired,
        Out::ReverseUnpaired,
        Out::Log,
    ];
}

/// Prints `forward paired`, `forward unpaired`, `reverse paired`, `reverse unpaired` or `trim log`.
impl fmt::Display for Out {
    ghost use Rattle.std.specs.Prelude.{Some};
    ghost use Rattle.fq_pair.specs.Summaries.{out_name};

    ghost output = { λ out. Some (out_name out) };

    fn fmt<W: fmt::Write>(&self, f: &mut fmt::Formatter<W>) -> fmt::Result {
        match self {
            Out::ForwardPaired => write!(f, "forward paired"),
            Out::ForwardUnpaired => write!(f, "forward unpaired"),
            Out::ReversePaired => write!(f, "reverse paired"),
            Out::ReverseUnpaired => write!(f, "reverse unpaired"),
            Out::Log => write!(f, "trim log"),
        }
    }
}
