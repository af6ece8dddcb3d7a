//! Laws of runs, on one thread or several, over two texts or one interleaved text.

ghost use Rattle.fq_law_runs.specs.Runs.{WholeRunsAreInStep, EndingsAreInStep, OutletsBeginTexts, FilesBeginTexts};

/// After a run that ended whole, what its outlets have taken is in step, with its counts.
///
/// The premise `IsTrimmed` is the clause `whole` of each run. It is said of each outlet whose bytes
/// are known to the proof and that began empty.
pub fn whole_runs_are_in_step()
    ensures { WholeRunsAreInStep }
{}

/// After a run with any other ending except an unconfirmed lane, what its outlets have taken is in
/// step for its first pairs, up to the block in which a write failed.
///
/// The premise `EveryEnding` is the clause `every` of each run. The bytes of the feeds must be
/// known.
pub fn endings_are_in_step()
    ensures { EndingsAreInStep }
{}

/// A run that is killed leaves in each output what it held before, or a first part of the text of
/// all pairs.
///
/// Outlets only append, and a regular file is emptied before its outlet is made. So each holds a
/// first part of what it would have held at the end. The clauses are about each such part, at every
/// end but an unconfirmed lane (`every` of each run), and at every status but 6
/// (`PairsAnswered.left` of `program`).
pub fn kills_leave_first_parts()
    ensures outlets { OutletsBeginTexts }
    ensures files { FilesBeginTexts }
{}
