//! A run on several threads doesn't get stuck: laws of a model of its threads and lanes.
//!
//! Each function of this crate has no parameters and does nothing. Its contract is a law of the
//! model, for every number of workers, depth of a lane and number of blocks.
//!
//! - `specs/Model.antt` has the state of a run: what the dealer, each worker and the calling thread
//!   do next, and what the lanes between them hold.
//! - `specs/Moves.antt` has the moves: when a thread can make one, and what it leaves. A thread
//!   waits while its next move can't be made.
//!
//! The laws hold whichever write fails, whichever workers stop, wherever reading ends and however
//! many workers get a thread.
//!
//! The moves of a worker are in words of `fq_work`, in which the contracts of its code are too.
//! Nothing else ties the model to the code but a reading of both. The table of
//! `docs/ARCHITECTURE.md` names the function that makes each move, and the text below it what the
//! model takes for granted.
#![tactic(auto)]

ghost use Rattle.fq_law_progress.specs.Progress.{AllIsWritten, MovesLeaveLess, NeverStuck, RunsAreShort};

/// In every state that a run can reach, some thread has a move, or all threads have returned and
/// were joined.
///
/// The reason in short: the collector waits for a block only if all blocks before it were written.
/// If the dealer then waits for room, it is in the lane of a later block. So the block that the
/// collector waits for was dealt: its worker will take it, has it in hand, or has sent its reply.
/// After a stop or a failed write, no thread waits for one lane while another is full: workers
/// empty their lanes, and the collector takes from all of them.
pub fn runs_never_get_stuck()
    ensures { NeverStuck }
{}

/// Every move leaves less to be done, in every state, reached or not.
pub fn moves_leave_less()
    ensures { MovesLeaveLess }
{}

/// A run has at most four moves for each block, three for each lane of blocks, one for each worker
/// that was started, and eight more. So it ends, whichever moves are made.
pub fn runs_are_short()
    ensures { RunsAreShort }
{}

/// If all threads were started, no write failed and no worker stopped, a run that has ended has
/// written every block.
pub fn all_is_written()
    ensures { AllIsWritten }
{}
