//! Counts of surviving pairs, and the summary of a run.

ghost use Rattle.std.specs.Prelude.{◌≡◌, ◌++◌, IfOk, OnOk};
ghost use Rattle.std.specs.String.{string_bytes};
ghost use Rattle.fq_pair.specs.Summaries.{entry, summary_of};

use fq_text::OutOfMemory;
use itoa::Buffer;
use std::alloc::Global;

/// Counts of trimmed pairs, by the mates that survive. Each pair counts once in `pairs` and once in
/// one of the other fields.
#[derive(Clone, Copy, Debug, PartialEq, Eq)]
pub struct Counts {
    /// All pairs.
    pub pairs: u64,
    /// Pairs in which both mates survive.
    pub both: u64,
    /// Pairs in which only the forward mate survives.
    pub forward_only: u64,
    /// Pairs in which only the reverse mate survives.
    pub reverse_only: u64,
    /// Pairs in which no mate survives.
    pub dropped: u64,
}

impl Counts {
    ghost use Rattle.std.specs.Prelude.{◌≡◌};
    ghost use Rattle.fq_pair.specs.Summaries.{capped};

    /// Counts of 0.
    pub const ZERO: Counts = Counts {
        pairs: 0,
        both: 0,
        forward_only: 0,
        reverse_only: 0,
        dropped: 0,
    };

    /// Adds two counts field by field. Sums saturate at `u64::MAX`.
    pub fn plus(self, other: Counts) -> Counts
        ensures { result ≡ capped self other }
    {
        Counts {
            pairs: self.pairs.saturating_add(other.pairs),
            both: self.both.saturating_add(other.both),
            forward_only: self.forward_only.saturating_add(other.forward_only),
            reverse_only: self.reverse_only.saturating_add(other.reverse_only),
            dropped: self.dropped.saturating_add(other.dropped),
        }
    }
}

/// Returns the summary of a run: five lines, each ended by LF, with the counts in plain decimal.
/// The labels are `Input Read Pairs`, `Both Surviving`, `Forward Only Surviving`,
/// `Reverse Only Surviving` and `Dropped`, in this order.
///
/// The labels are Trimmomatic's, but on a line each and without percentages. It fails if memory is
/// refused.
pub fn summary(alloc: Global, counts: &Counts) -> Result<String, OutOfMemory>
    ensures { IfOk result (λ text. string_bytes text ≡ summary_of counts.now) }
{
    let mut text = String::new(alloc);
    put_entry(&mut text, "Input Read Pairs: ", counts.pairs)?;
    put_entry(&mut text, "Both Surviving: ", counts.both)?;
    put_entry(&mut text, "Forward Only Surviving: ", counts.forward_only)?;
    put_entry(&mut text, "Reverse Only Surviving: ", counts.reverse_only)?;
    put_entry(&mut text, "Dropped: ", counts.dropped)?;
    Ok(text)
}

// Appends one line of the summary.
fn put_entry(text: &mut String, label: &str, count: u64) -> Result<(), OutOfMemory>
    ensures { OnOk result (string_bytes text.new ≡ string_bytes text.old ++ entry label.now count) }
{
    text.push_str(label)?;
    text.push_str(Buffer::new().format(count))?;
    text.push_str("\n")?;
    Ok(())
}
