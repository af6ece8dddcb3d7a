//! The law that a sample may be cut in two and its parts trimmed apart.

ghost use Rattle.fq_law_runs.specs.Parts.{PairsAreJoined, PartsAreTrimmedApart};

/// Inputs that are cut in two after a pair may be trimmed apart, whether they are two texts or an
/// interleaved one.
///
/// The pairs of the whole are those of the first part followed by those of the rest, with the fault
/// that ends the rest. So the four outputs, the log and the counts of the whole are those of the
/// parts joined, and its report has the sums of theirs. The first part must end with a line end and
/// pair up to its end without a fault. The rest may be cut again.
pub fn parts_may_be_trimmed_apart()
    ensures pairs { PairsAreJoined }
    ensures parts { PartsAreTrimmedApart }
{}
