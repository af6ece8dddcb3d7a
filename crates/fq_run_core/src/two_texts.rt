//! A run on one thread, over two inputs.

ghost use Rattle.std.specs.Prelude.{◌≡◌, ◌≤◌, true, None, IsTrue, IsSome};
ghost use Rattle.fq_run_core.specs.Devices.{outlet_states, AreHealthy};
ghost use Rattle.fq_pair.specs.Forms.{TwoTexts};
ghost use Rattle.fq_run_core.specs.Writing.{Runs, no_halt};
ghost use Rattle.fq_run_core.specs.Outcomes.{rank, is_unmatched};
ghost use Rattle.fq_run_core.specs.declared.outcome.Outcome.TheVariants.{Memory};
ghost use Rattle.fq_run_core.specs.Endings.{run_of, AreTold, ends_whole, IsTrimmed, AreItsNames, EveryEnding};

use crate::ending::{Ending, names_at};
use crate::halt::Halt;
use crate::occurred::Occurred;
use crate::opening::open;
use crate::outlets::Outlets;
use crate::reading_end::ReadingEnd;
use crate::settings::Settings;
use crate::writing::write_blocks;
use crate::written::{Pass, Written};
use fq_text::{Feed, Outlet};
use std::alloc::Global;

/// Trims the pairs of two inputs on this thread, in order, and writes them.
///
/// Record k of the forward input and record k of the reverse input are a pair. Pairs are read,
/// trimmed and written in blocks of `settings.block_pairs()`; the last block may have fewer. The
/// texts of a block go to their outlets in the order of [`Out`]. If the inputs have a fault, the
/// pairs before it are written and the run returns the fault.
///
/// If memory for a pair is refused, reading stops: that pair and all later pairs are lost, and the
/// pairs read so far are still written. If a write fails, reading stops and nothing more goes to
/// any outlet. If no write failed, each outlet is flushed once at the end, in the order of [`Out`],
/// up to the first flush that fails.
///
/// If several of these occur, the run returns the first in the order of
/// [`Outcome`](crate::Outcome); `Spawn`, `Lane` and `Gate` don't occur. The counts cover the pairs
/// whose block was written completely. At `Input` and `Finished` so does the tally, if the settings
/// ask for one; at all other outcomes there is none. If memory for the tally is refused, nothing is
/// read. Both feeds are handed back as the run left them. The settings for threads aren't used. No
/// device may have failed before the run.
pub fn run_serial<F: Feed, G: Feed, O: Outlet>(
    alloc: Global,
    settings: &Settings,
    forward: F,
    reverse: G,
    outlets: &mut Outlets<O>,
) -> Ending<F, G>
    requires forward { (F.state forward).failures ≡ 0 }
    requires reverse { (G.state reverse).failures ≡ 0 }
    requires outlets { AreHealthy (outlet_states O.state outlets.old) }
    ensures forward { IsSome result.forward }
    ensures reverse { IsSome result.reverse }
    ensures serial { 4 ≤ rank result.outcome }
    ensures unended { result.unended ≡ None }
    ensures memory { result.outcome ≡ Memory → IsSome result.refused }
    ensures unmatched { IsSome result.unmatched → is_unmatched result.outcome ≡ true }
    ensures names { AreItsNames TwoTexts settings.now.encoding (F.state forward) (G.state reverse)
        result.outcome result.unmatched result.refused }
    // At `Input` and `Finished` all pairs before the fault or the end of the input were trimmed.
    ensures whole { let run = run_of F.state G.state (outlet_states O.state)
        forward reverse outlets.old outlets.new result in
        IsTrue (ends_whole run.outcome) → AreTold run → IsTrimmed settings.now run }
    // However it ended, the outlets have the texts of the first pairs, and besides at most a part
    // of the block in which a write failed.
    ensures every { let run = run_of F.state G.state (outlet_states O.state)
        forward reverse outlets.old outlets.new result in
        EveryEnding settings.now run }
{
    let Pass {
        written,
        unmatched,
        feeds: (forward, reverse),
    } = pass(alloc, settings, forward, reverse, outlets);
    let Written { total, why, failed } = written;
    let failed = outlets.flush_after(failed);
    let occurred = Occurred::new(Halt::NONE, why, failed);
    let outcome = occurred.outcome();
    let (unmatched, refused) = names_at(outcome, unmatched, occurred.refused());
    let total = total.at_end(outcome);
    Ending {
        outcome,
        counts: total.counts,
        tally: total.tally,
        forward: Some(forward),
        reverse: Some(reverse),
        unended: None,
        refused,
        unmatched,
    }
}

// Reads and writes all pairs of two inputs.
fn pass<F: Feed, G: Feed, O: Outlet>(
    alloc: Global,
    settings: &Settings,
    forward: F,
    reverse: G,
    outlets: &mut Outlets<O>,
) -> Pass<(F, G)>
    requires forward { (F.state forward).failures ≡ 0 }
    requires reverse { (G.state reverse).failures ≡ 0 }
    requires outlets { AreHealthy (outlet_states O.state outlets.old) }
    ensures { Runs TwoTexts settings.now (F.state forward) (G.state reverse)
        (F.state result.feeds.0) (G.state result.feeds.1)
        (outlet_states O.state outlets.old) (outlet_states O.state outlets.new)
        result.written.total no_halt result.written.why result.written.failed
        result.unmatched }
{
    match open(alloc, settings, forward, reverse) {
        Ok(mut source) => Pass {
            written: write_blocks(alloc, settings, &mut source, outlets),
            // They are only for the reason, so a run doesn't fail for want of memory for them.
            unmatched: source.unmatched_names(alloc),
            feeds: source.into_feeds(),
        },
        Err((forward, reverse, refused)) => Pass {
            written: Written::nothing(Some(ReadingEnd::Memory(refused))),
            unmatched: Ok(None),
            feeds: (forward, reverse),
        },
    }
}
