//! Laws of the definitions: functions without parameters, whose contracts hold for all lists.

ghost use Rattle.fq_report_pairs.specs.Laws.{AloneAreAll, LeavesTheSame, SurvivesTheSame};

/// A tally counts what is written. A tally takes the steps of a list as lists of one step, and what
/// these leave of a read in turn is what the whole list leaves: the record that
/// [`Texts::add`](fq_pair::Texts::add) writes.
pub fn left_as_written()
    ensures alone { AloneAreAll }
    ensures left { LeavesTheSame }
    ensures survives { SurvivesTheSame }
{}
