//! Why the inputs give no further pair.

ghost use Rattle.std.specs.Prelude.{◌≡◌};
ghost use Rattle.fq_pair.specs.declared.fault.InputFault.TheVariants.{Text};
ghost use Rattle.fq_pair.specs.declared.side.Side.TheVariants.{Forward, Reverse};

use crate::side::Side;
use fq_text::TextFault;
use thiserror::Error;

/// Why two texts, or an interleaved one, give no further pair. Pairs are numbered from 1; records
/// are numbered from 1 in their text.
#[derive(Clone, Copy, Debug, PartialEq, Eq, Error)]
pub enum InputFault {
    /// The text of one side has a fault or could not be read. In an interleaved text, the side is
    /// that of the record that was being read.
    #[error("{0} input: {1}")]
    Text(Side, TextFault),
    /// This side has no read for the pair with this number, but the other side has one.
    #[error("{0} input: record {1} is missing")]
    MateMissing(Side, u64),
    /// The mates of the pair with this number have different names.
    #[error("record {0}: the names of the mates differ")]
    NamesDiffer(u64),
}

impl InputFault {
    // A fault of the forward text.
    pub(crate) fn forward(fault: TextFault) -> InputFault
        ensures { result ≡ Text Forward fault }
    {
        InputFault::Text(Side::Forward, fault)
    }

    // A fault of the reverse text.
    pub(crate) fn reverse(fault: TextFault) -> InputFault
        ensures { result ≡ Text Reverse fault }
    {
        InputFault::Text(Side::Reverse, fault)
    }
}
