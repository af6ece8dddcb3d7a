//! Rows of counts of 8, 16 or 64 bits, which are added to others.

// The counts of rows.
#[derive(Clone, Copy)]
pub(crate) enum Table<'a> {
    Bytes(&'a [u8]),
    Words(&'a [u16]),
    Longs(&'a [u64]),
}

impl<'a> Table<'a> {
    ghost use Rattle.std.specs.Prelude.{◌≡◌, ◌<◌, length, get_or};
    ghost use Rattle.fq_report_reads.specs.Tables.{counts_of};

    // How many rows it has.
    pub(crate) fn rows(self) -> usize
        ensures { result ≡ length (counts_of self.entry) }
    {
        match self {
            Table::Bytes(counts) => counts.len(),
            Table::Words(counts) => counts.len(),
            Table::Longs(counts) => counts.len(),
        }
    }

    // The count in a row.
    #[inline(always)]
    pub(crate) fn count(self, row: usize) -> u64
        requires { row < length (counts_of self) }
        ensures { result ≡ get_or (counts_of self.entry) row 0 }
    {
        match self {
            Table::Bytes(counts) => u64::from(counts[row]),
            Table::Words(counts) => u64::from(counts[row]),
            Table::Longs(counts) => counts[row],
        }
    }
}
