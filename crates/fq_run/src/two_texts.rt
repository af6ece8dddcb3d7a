//! A run on several threads, over two inputs.

ghost use Rattle.std.specs.Prelude.{◌≡◌, ◌≢◌, ◌↔◌, true, None, IsTrue, IsSome};
ghost use Rattle.std.specs.Option.{option_map};
ghost use Rattle.fq_run_core.specs.Devices.{outlet_states, AreHealthy, KeepFiles};
ghost use Rattle.fq_pair.specs.Forms.{TwoTexts};
ghost use Rattle.fq_pair.specs.Walks.{source_state};
ghost use Rattle.fq_run_core.specs.Outcomes.{is_unmatched};
ghost use Rattle.fq_run_core.specs.Endings.{run_of, AreTold, ends_whole, IsTrimmed, IsUntouched, AreItsNames, TellsNames, EveryEnding};
ghost use Rattle.fq_run.specs.Threads.{names_left, IsThreaded};
ghost use Rattle.std.specs.Arc.{arc_value};

use crate::conclusion::Conclusion;
use crate::threads::run;
use fq_pair::{Counts, PairSource};
use fq_run_core::shared::{names_at, open};
use fq_run_core::{Ending, Outcome, Outlets, Settings};
use fq_text::{Feed, Outlet};
use fq_work::Gate;
use std::alloc::Global;
use std::sync::{Arc, Wait};
use std::thread::Threads;

/// Trims the pairs of two inputs on several threads. The outputs are the same as if the pairs were
/// trimmed one after the other.
///
/// One thread reads pairs and deals them out in blocks of `settings.block_pairs()`, numbered from
/// 0: block n goes to worker n modulo `settings.workers()`. Each worker trims its blocks on a
/// thread of its own, in order, once `gate` lets them pass. The calling thread takes the replies in
/// the same order and writes each block's texts in the order of [`Out`]. Blocks and replies go
/// through lanes (queues between two threads) of `settings.depth()` items. If the inputs have a
/// fault, the pairs before it are written and the run returns the fault.
///
/// If a worker stops, because memory was refused to it or because the gate didn't let a block pass
/// within `settings.gate_turns()` turns, only the blocks before that one are written. After a
/// failed write nothing more goes to any outlet. In both cases the inputs are still read to their
/// end, or to a pair for which memory is refused; that pair and all later pairs are lost. If no
/// write failed, each outlet is flushed once at the end, in the order of [`Out`], up to the first
/// flush that fails.
///
/// At the end all threads are joined and all lanes are confirmed: what one end received is what the
/// other end sent. If several outcomes occurred, the run returns the first in the order of
/// [`Outcome`]. At [`Outcome::Lane`] the ending has the lane's [`NotEnded`], and nothing is known
/// of outputs and counts. At every other outcome the counts cover the pairs whose block was written
/// completely. At `Input` and `Finished` so does the tally, if the settings ask for one; at all
/// other outcomes there is none.
///
/// If memory is refused before the first thread starts, for the tally or for anything else, nothing
/// is read or written. If a thread is refused, nothing is read or written either: no outlet is
/// called, and feeds that are handed back are unchanged. Both feeds are handed back as the run left
/// them, but both are lost if the reading thread could not be started.
///
/// No device may have failed before the run.
#[tactic(auto, using(std::proofs::lemmas::Grind::common_steps, crate::proofs::StartLemmas::none_of))]
pub fn run_threads<
    R: Threads + Wait + Copy + Send + 'static,
    F: Feed + Drop + Send + 'static,
    G: Feed + Drop + Send + 'static,
    O: Outlet,
    H: Gate + 'static,
>(
    alloc: Global,
    rt: &R,
    settings: &Settings,
    gate: Arc<H>,
    forward: F,
    reverse: G,
    outlets: &mut Outlets<O>,
) -> Ending<F, G>
    requires forward { (F.state forward).failures ≡ 0 }
    requires reverse { (G.state reverse).failures ≡ 0 }
    requires outlets { AreHealthy (outlet_states O.state outlets.old) }
    ensures lane { result.outcome ≡ Outcome.Lane → IsSome result.unended }
    ensures no_other { IsSome result.unended → result.outcome ≡ Outcome.Lane }
    ensures memory { result.outcome ≡ Outcome.Memory → IsSome result.refused }
    ensures spawn { result.outcome ≡ Outcome.Spawn → IsSome result.refused }
    ensures gate { result.outcome ≡ Outcome.Gate → IsTrue (H.holds (arc_value gate)) }
    ensures files { KeepFiles
        (outlet_states O.state outlets.old) (outlet_states O.state outlets.new) }
    ensures unmatched { IsSome result.unmatched → is_unmatched result.outcome ≡ true }
    ensures names { AreItsNames TwoTexts settings.now.encoding (F.state forward) (G.state reverse)
        result.outcome result.unmatched result.refused }
    ensures forward { result.forward ≡ None → result.outcome ≡ Outcome.Spawn }
    ensures reverse { result.reverse ≡ None → result.outcome ≡ Outcome.Spawn }
    ensures together { (result.forward ≡ None) ↔ (result.reverse ≡ None) }
    // If a thread was refused, the outlets and the feeds that are handed back are unchanged.
    ensures untouched { let run = run_of F.state G.state (outlet_states O.state)
        forward reverse outlets.old outlets.new result in
        run.outcome ≡ Outcome.Spawn → IsUntouched run }
    // At `Input` and `Finished` all pairs before the fault or the end of the input were trimmed, as
    // if one after the other.
    ensures whole { let run = run_of F.state G.state (outlet_states O.state)
        forward reverse outlets.old outlets.new result in
        IsTrue (ends_whole run.outcome) → AreTold run → IsTrimmed settings.now run }
    // Unless a lane couldn't be confirmed, the outlets have the texts of the first pairs, and
    // besides at most a part of the block in which a write failed.
    ensures every { let run = run_of F.state G.state (outlet_states O.state)
        forward reverse outlets.old outlets.new result in
        run.outcome ≢ Outcome.Lane → EveryEnding settings.now run }
{
    begin(alloc, rt, settings, &gate, forward, reverse, outlets)
}

// Opens the sources of both inputs, and runs over their pairs.
fn begin<
    R: Threads + Wait + Copy + Send + 'static,
    F: Feed + Drop + Send + 'static,
    G: Feed + Drop + Send + 'static,
    O: Outlet,
    H: Gate + 'static,
>(
    alloc: Global,
    rt: &R,
    settings: &Settings,
    gate: &Arc<H>,
    forward: F,
    reverse: G,
    outlets: &mut Outlets<O>,
) -> Ending<F, G>
    requires forward { (F.state forward).failures ≡ 0 }
    requires reverse { (G.state reverse).failures ≡ 0 }
    requires outlets { AreHealthy (outlet_states O.state outlets.old) }
    ensures threaded { IsThreaded settings.now (H.holds (arc_value gate.now))
        (run_of F.state G.state (outlet_states O.state)
        forward reverse outlets.old outlets.new result) result.unended result.refused
        result.unmatched }
    ensures unmatched { IsSome result.unmatched → is_unmatched result.outcome ≡ true }
{
    match open(alloc, settings, forward, reverse) {
        Ok(source) => ending_of(alloc, run(alloc, rt, settings, gate, source, outlets)),
        Err((forward, reverse, refused)) => {
            // Refused memory comes before a failed flush in the order of `Outcome`.
            let _ = outlets.flush_after(None);
            Ending {
                outcome: Outcome::Memory,
                counts: Counts::ZERO,
                tally: None,
                forward: Some(forward),
                reverse: Some(reverse),
                unended: None,
                refused: Some(refused),
                unmatched: None,
            }
        }
    }
}

// The ending of a run over two inputs.
fn ending_of<F: Feed, G: Feed>(
    alloc: Global,
    conclusion: Conclusion<PairSource<F, G>>,
) -> Ending<F, G>
    ensures outcome { result.outcome ≡ conclusion.outcome }
    ensures total { record { counts = result.counts; tally = result.tally } ≡ conclusion.total }
    ensures unended { result.unended ≡ conclusion.unended }
    ensures refused { IsSome conclusion.refused → IsSome result.refused }
    ensures told { is_unmatched result.outcome ≡ true →
        TellsNames (names_left (source_state F.state G.state) conclusion)
        result.unmatched result.refused }
    ensures unmatched { IsSome result.unmatched → is_unmatched result.outcome ≡ true }
    ensures forward { result.forward ≡ option_map (λ s. s.forward.feed) conclusion.source }
    ensures reverse { result.reverse ≡ option_map (λ s. s.reverse.feed) conclusion.source }
{
    let Conclusion {
        outcome,
        total,
        source,
        unended,
        refused,
    } = conclusion;
    let (names, forward, reverse) = match source {
        Some(source) => {
            let names = source.unmatched_names(alloc);
            let (forward, reverse) = source.into_feeds();
            (names, Some(forward), Some(reverse))
        }
        None => (Ok(None), None, None),
    };
    let (unmatched, refused) = names_at(outcome, names, refused);
    Ending {
        outcome,
        counts: total.counts,
        tally: total.tally,
        forward,
        reverse,
        unended,
        refused,
        unmatched,
    }
}
