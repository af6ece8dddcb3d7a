//! Laws of the sums in a report.

ghost use Rattle.fq_law_in_step.specs.ReportLists.{BasesAreRemovedAsLogged, ReportListsAddUp, ReportListsAreAsLong};
ghost use Rattle.fq_law_in_step.specs.Reports.{ReadsAreDroppedOnce, ReportsAddUp};

/// On each side of a report, the reads that the steps dropped and those of `paired` and `unpaired`
/// add up to those of `before`.
///
/// A read that survives is dropped by no step, and any other read by exactly one. `before` has one
/// read for each pair, `paired` one for each pair in which both mates survive, and `unpaired` one
/// for each read of the side that survives alone. The pairs must come from inputs, and a `u64` must
/// be able to count them; a run can't read more.
pub fn reports_add_up()
    ensures once { ReadsAreDroppedOnce }
    ensures sums { ReportsAddUp }
{}

/// The lists of each side of a report, before trimming and of what is paired and unpaired.
///
/// `lengths` adds up to `reads`. Each list of `positions` adds up to its total (`c` and `g`
/// together to `gc_bases`), if that total is below the largest number of 64 bits, at which sums
/// stop. Each list has as many items as the longest read has bases, but at most 10,001. The pairs
/// must come from inputs.
pub fn report_lists_add_up()
    ensures sums { ReportListsAddUp }
    ensures sizes { ReportListsAreAsLong }
{}

/// `removed_front` and `removed_behind` of a side count the second and the fourth number of the log
/// lines of its reads that survive. The pairs must come from inputs.
pub fn removed_bases_are_logged()
    ensures { BasesAreRemovedAsLogged }
{}
