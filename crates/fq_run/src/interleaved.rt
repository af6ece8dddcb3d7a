//! A run on several threads, over one interleaved input.

ghost use Rattle.std.specs.Prelude.{◌≡◌, ◌≢◌, true, None, IsTrue, IsSome};
ghost use Rattle.std.specs.Option.{option_map};
ghost use Rattle.fq_run_core.specs.Devices.{outlet_states, AreHealthy, KeepFiles};
ghost use Rattle.fq_pair.specs.Forms.{InterleavedText};
ghost use Rattle.fq_pair.specs.Walks.{interleaved_state};
ghost use Rattle.fq_run_core.specs.Outcomes.{is_unmatched};
ghost use Rattle.fq_run_core.specs.Endings.{interleaved_run_of, AreTold, ends_whole, IsTrimmed, IsUntouched, AreItsNames, TellsNames, EveryEnding};
ghost use Rattle.fq_run.specs.Threads.{names_left, IsThreaded};
ghost use Rattle.std.specs.Arc.{arc_value};

use crate::conclusion::Conclusion;
use crate::threads::run;
use fq_pair::{Counts, MixedSource};
use fq_run_core::shared::{names_at, open_interleaved};
use fq_run_core::{MixedEnding, Outcome, Outlets, Settings};
use fq_text::{Feed, Outlet};
use fq_work::Gate;
use std::alloc::Global;
use std::sync::{Arc, Wait};
use std::thread::Threads;

/// Trims the pairs of one interleaved input on several threads. The outputs are the same as if the
/// pairs were trimmed one after the other.
///
/// Records 2n - 1 and 2n of the input are pair n, as in [`run_serial_mixed`]. All else is as in
/// [`run_threads`](crate::run_threads): the threads, the lanes, the order of writing, and how a run
/// ends.
pub fn run_threads_mixed<
    R: Threads + Wait + Copy + Send + 'static,
    F: Feed + Drop + Send + 'static,
    O: Outlet,
    H: Gate + 'static,
>(
    alloc: Global,
    rt: &R,
    settings: &Settings,
    gate: Arc<H>,
    feed: F,
    outlets: &mut Outlets<O>,
) -> MixedEnding<F>
    requires feed { (F.state feed).failures ≡ 0 }
    requires outlets { AreHealthy (outlet_states O.state outlets.old) }
    ensures lane { result.outcome ≡ Outcome.Lane → IsSome result.unended }
    ensures no_other { IsSome result.unended → result.outcome ≡ Outcome.Lane }
    ensures memory { result.outcome ≡ Outcome.Memory → IsSome result.refused }
    ensures spawn { result.outcome ≡ Outcome.Spawn → IsSome result.refused }
    ensures gate { result.outcome ≡ Outcome.Gate → IsTrue (H.holds (arc_value gate)) }
    ensures files { KeepFiles
        (outlet_states O.state outlets.old) (outlet_states O.state outlets.new) }
    ensures unmatched { IsSome result.unmatched → is_unmatched result.outcome ≡ true }
    ensures names { AreItsNames InterleavedText settings.now.encoding (F.state feed) (F.state feed)
        result.outcome result.unmatched result.refused }
    ensures feed { result.feed ≡ None → result.outcome ≡ Outcome.Spawn }
    // If a thread was refused, the outlets are unchanged, and so is the feed if it is handed back.
    ensures untouched { let run = interleaved_run_of F.state (outlet_states O.state)
        feed outlets.old outlets.new result in
        run.outcome ≡ Outcome.Spawn → IsUntouched run }
    // At `Input` and `Finished` all pairs before the fault or the end of the input were trimmed, as
    // if one after the other.
    ensures whole { let run = interleaved_run_of F.state (outlet_states O.state)
        feed outlets.old outlets.new result in
        IsTrue (ends_whole run.outcome) → AreTold run → IsTrimmed settings.now run }
    // Unless a lane couldn't be confirmed, the outlets have the texts of the first pairs, and
    // besides at most a part of the block in which a write failed.
    ensures every { let run = interleaved_run_of F.state (outlet_states O.state)
        feed outlets.old outlets.new result in
        run.outcome ≢ Outcome.Lane → EveryEnding settings.now run }
{
    begin(alloc, rt, settings, &gate, feed, outlets)
}

// Opens the source of the input, and runs over its pairs.
fn begin<
    R: Threads + Wait + Copy + Send + 'static,
    F: Feed + Drop + Send + 'static,
    O: Outlet,
    H: Gate + 'static,
>(
    alloc: Global,
    rt: &R,
    settings: &Settings,
    gate: &Arc<H>,
    feed: F,
    outlets: &mut Outlets<O>,
) -> MixedEnding<F>
    requires feed { (F.state feed).failures ≡ 0 }
    requires outlets { AreHealthy (outlet_states O.state outlets.old) }
    ensures threaded { IsThreaded settings.now (H.holds (arc_value gate.now))
        (interleaved_run_of F.state (outlet_states O.state)
        feed outlets.old outlets.new result) result.unended result.refused result.unmatched }
    ensures unmatched { IsSome result.unmatched → is_unmatched result.outcome ≡ true }
{
    match open_interleaved(alloc, settings, feed) {
        Ok(source) => ending_of(alloc, run(alloc, rt, settings, gate, source, outlets)),
        Err((feed, refused)) => {
            // Refused memory comes before a failed flush in the order of `Outcome`.
            let _ = outlets.flush_after(None);
            MixedEnding {
                outcome: Outcome::Memory,
                counts: Counts::ZERO,
                tally: None,
                feed: Some(feed),
                unended: None,
                refused: Some(refused),
                unmatched: None,
            }
        }
    }
}

// The ending of a run over an interleaved input.
fn ending_of<F: Feed>(alloc: Global, conclusion: Conclusion<MixedSource<F>>) -> MixedEnding<F>
    ensures outcome { result.outcome ≡ conclusion.outcome }
    ensures total { record { counts = result.counts; tally = result.tally } ≡ conclusion.total }
    ensures unended { result.unended ≡ conclusion.unended }
    ensures refused { IsSome conclusion.refused → IsSome result.refused }
    ensures told { is_unmatched result.outcome ≡ true →
        TellsNames (names_left (interleaved_state F.state) conclusion)
        result.unmatched result.refused }
    ensures unmatched { IsSome result.unmatched → is_unmatched result.outcome ≡ true }
    ensures feed { result.feed ≡ option_map (λ s. s.source.feed) conclusion.source }
{
    let Conclusion {
        outcome,
        total,
        source,
        unended,
        refused,
    } = conclusion;
    let (names, feed) = match source {
        Some(source) => (source.unmatched_names(alloc), Some(source.into_feed())),
        None => (Ok(None), None),
    };
    let (unmatched, refused) = names_at(outcome, names, refused);
    MixedEnding {
        outcome,
        counts: total.counts,
        tally: total.tally,
        feed,
        unended,
        refused,
        unmatched,
    }
}
