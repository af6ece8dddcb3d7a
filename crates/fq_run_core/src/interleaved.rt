//! A run on one thread, over one interleaved input.

ghost use Rattle.std.specs.Prelude.{◌≡◌, ◌≤◌, true, None, IsTrue, IsSome};
ghost use Rattle.fq_pair.specs.Forms.{InterleavedText};
ghost use Rattle.fq_run_core.specs.Devices.{outlet_states, AreHealthy};
ghost use Rattle.fq_run_core.specs.Writing.{Runs, no_halt};
ghost use Rattle.fq_run_core.specs.Outcomes.{rank, is_unmatched};
ghost use Rattle.fq_run_core.specs.declared.outcome.Outcome.TheVariants.{Memory};
ghost use Rattle.fq_run_core.specs.Endings.{interleaved_run_of, AreTold, ends_whole, IsTrimmed, AreItsNames, EveryEnding};

use crate::ending::{MixedEnding, names_at};
use crate::halt::Halt;
use crate::occurred::Occurred;
use crate::opening::open_interleaved;
use crate::outlets::Outlets;
use crate::reading_end::ReadingEnd;
use crate::settings::Settings;
use crate::writing::write_blocks;
use crate::written::{Pass, Written};
use fq_text::{Feed, Outlet};
use std::alloc::Global;

/// Trims the pairs of one interleaved input on this thread, in order, and writes them.
///
/// Records 2n - 1 and 2n of the input are pair n, the forward mate first. All else is as in
/// [`run_serial`](crate::run_serial). A fault in the text carries the number of its record in the
/// interleaved input, and the side of the mate that was being read; a missing mate is always a
/// reverse mate. `Read` and `Endless` also carry the side of the mate that was being read.
pub fn run_serial_mixed<F: Feed, O: Outlet>(
    alloc: Global,
    settings: &Settings,
    feed: F,
    outlets: &mut Outlets<O>,
) -> MixedEnding<F>
    requires feed { (F.state feed).failures ≡ 0 }
    requires outlets { AreHealthy (outlet_states O.state outlets.old) }
    ensures feed { IsSome result.feed }
    ensures serial { 4 ≤ rank result.outcome }
    ensures unended { result.unended ≡ None }
    ensures memory { result.outcome ≡ Memory → IsSome result.refused }
    ensures unmatched { IsSome result.unmatched → is_unmatched result.outcome ≡ true }
    ensures names { AreItsNames InterleavedText settings.now.encoding (F.state feed) (F.state feed)
        result.outcome result.unmatched result.refused }
    // At `Input` and `Finished` all pairs before the fault or the end of the input were trimmed.
    ensures whole { let run = interleaved_run_of F.state (outlet_states O.state)
        feed outlets.old outlets.new result in
        IsTrue (ends_whole run.outcome) → AreTold run → IsTrimmed settings.now run }
    // However it ended, the outlets have the texts of the first pairs, and besides at most a part
    // of the block in which a write failed.
    ensures every { let run = interleaved_run_of F.state (outlet_states O.state)
        feed outlets.old outlets.new result in
        EveryEnding settings.now run }
{
    let Pass {
        written,
        unmatched,
        feeds: feed,
    } = pass(alloc, settings, feed, outlets);
    let Written { total, why, failed } = written;
    let failed = outlets.flush_after(failed);
    let occurred = Occurred::new(Halt::NONE, why, failed);
    let outcome = occurred.outcome();
    let (unmatched, refused) = names_at(outcome, unmatched, occurred.refused());
    let total = total.at_end(outcome);
    MixedEnding {
        outcome,
        counts: total.counts,
        tally: total.tally,
        feed: Some(feed),
        unended: None,
        refused,
        unmatched,
    }
}

// Reads and writes all pairs of an interleaved input.
fn pass<F: Feed, O: Outlet>(
    alloc: Global,
    settings: &Settings,
    feed: F,
    outlets: &mut Outlets<O>,
) -> Pass<F>
    requires feed { (F.state feed).failures ≡ 0 }
    requires outlets { AreHealthy (outlet_states O.state outlets.old) }
    ensures { Runs InterleavedText settings.now (F.state feed) (F.state feed)
        (F.state result.feeds) (F.state result.feeds)
        (outlet_states O.state outlets.old) (outlet_states O.state outlets.new)
        result.written.total no_halt result.written.why result.written.failed
        result.unmatched }
{
    match open_interleaved(alloc, settings, feed) {
        Ok(mut source) => Pass {
            written: write_blocks(alloc, settings, &mut source, outlets),
            // They are only for the reason, so a run doesn't fail for want of memory for them.
            unmatched: source.unmatched_names(alloc),
            feeds: source.into_feed(),
        },
        Err((feed, refused)) => Pass {
            written: Written::nothing(Some(ReadingEnd::Memory(refused))),
            unmatched: Ok(None),
            feeds: feed,
        },
    }
}
