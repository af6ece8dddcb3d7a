//! The expected outputs of a run.

/// What must be written of the pairs of a sample: the texts of the four outputs, and the trim log.
#[derive(Clone, Copy, Debug, PartialEq, Eq)]
pub struct Written {
    /// The forward reads whose mate also survives.
    pub forward_paired: &'static [u8],
    /// The forward reads whose mate is dropped.
    pub forward_unpaired: &'static [u8],
    /// The reverse reads whose mate also survives.
    pub reverse_paired: &'static [u8],
    /// The reverse reads whose mate is dropped.
    pub reverse_unpaired: &'static [u8],
    /// The trim log: two lines for each pair.
    pub log: &'static [u8],
}

impl Written {
    /// Nothing is written.
    pub const NOTHING: Written = Written {
        forward_paired: b"",
        forward_unpaired: b"",
        reverse_paired: b"",
        reverse_unpaired: b"",
        log: b"",
    };

    /// The texts, in the order of `Out::ALL`.
    pub fn in_order(&self) -> [&'static [u8]; 5] {
        [
            self.forward_paired,
            self.forward_unpaired,
            self.reverse_paired,
            self.reverse_unpaired,
            self.log,
        ]
    }
}
