//! Trims pairs from input files into output files.

ghost use Rattle.std.specs.Prelude.{◌≡◌, ◌≢◌, true, Some, None, Ok, Err, IsSome, IsTrue, IsErr, IfOk, IfErr, OnErr};
ghost use Rattle.std.specs.Option.{option_map};
ghost use Rattle.fq_run.specs.Devices.{outlet_states, AreHealthy, KeepFiles};
ghost use Rattle.fq_run.specs.Endings.{ends_whole, AreTold, IsTrimmed, EveryEnding, AreItsNames};
ghost use Rattle.fq_run.specs.Outcomes.{is_unmatched};
ghost use Rattle.fq_app_files.specs.declared.refusal.Refusal.{Refusal as Refused};
ghost use Rattle.fq_app_files.specs.Refusals.{status_of};
ghost use Rattle.fq_app_words.specs.Requests.{asking_of, input_name};
ghost use Rattle.fq_app_files.specs.Judging.{settings_of, wrong_with};
ghost use Rattle.fq_app_files.specs.Trimming.{filed, KeepsUnnamed, opened_of, left_of, form_of, run_in, AreFresh};
ghost use Rattle.fq_app_files.specs.Opening.{AreReady, AreOpened, IsRefused, SparesInputs};
ghost use Rattle.fq_app_files.specs.Completing.{IsCompleted, IsWitnessed};
ghost use Rattle.fq_app_files.specs.Seeing.{IsReportError};
ghost use Rattle.fq_files.specs.Holding.{IsUnchanged};
ghost use Rattle.fq_files.specs.States.{FilesState, IsSound, OnlyStores};

use fq_app_files::{
    Account, Devices, EndingSeen, Feeds, Refusal, Reported, inputs_done, judge, open, seen_of,
    store, store_report,
};
use fq_app_words::Request;
use fq_files::Files;
use fq_pair::{Side, UnmatchedNames};
use fq_run::{Outcome, Outlets, Settings, run_threads, run_threads_mixed};
use fq_text::{Feed, MemoryRefused, OutOfMemory, Outlet, SystemError};
use fq_work::OpenGate;
use std::alloc::Global;
use std::sync::{Arc, Wait};
use std::thread::Threads;

/// A run that was made, and what became of its report.
#[derive(Drop)]
pub struct Completed {
    /// How the run went.
    pub account: Account,
    /// What became of its report.
    pub reported: Reported,
    /// What can be said of the outcome.
    pub seen: EndingSeen,
    /// Why the outlet of the report failed, if it did.
    pub report_error: Option<SystemError>,
}

/// Trims the pairs of the inputs into the outputs.
///
/// The request is checked before a file is opened. The inputs are opened before an output is made,
/// and an output or report that is an input under another name is refused before any output is
/// made. Each outlet is handed back, however the run ended. The report is made after all outputs,
/// and written after them.
pub fn trim_files<R: Threads + Wait + Copy + Send + 'static, T: Files>(
    alloc: Global,
    rt: &R,
    request: &Request<'_>,
    files: &mut T,
) -> Result<Completed, Refusal>
    ensures completed { IfOk result (λ completed. IsCompleted (asking_of request.now)
        (filed (T.state files.old) (asking_of request.now)) (T.state files.old) (T.state files.new)
        completed.account.outcome completed.account.counts completed.reported completed.seen) }
    ensures refused { IfErr result (λ why.
        IsRefused (asking_of request.now) (filed (T.state files.old) (asking_of request.now)) why
        (T.state files.old) (T.state files.new)) }
    ensures unfailed { OnErr result (IsSound (T.state files.old) (T.state files.new)) }
    ensures report_says { IfOk result (λ completed. IsReportError
        (filed (T.state files.old) (asking_of request.now))
        (T.state files.old).may_say completed.reported completed.report_error) }

    ensures rest { KeepsUnnamed (filed (T.state files.old) (asking_of request.now))
        (T.state files.old).bytes (T.state files.new).bytes }

    // Refused memory, a refused thread and an unconfirmed lane have a witness, and the gate lets
    // every block pass.
    ensures witnessed { IfOk result (λ completed. IsWitnessed completed.account) }
    ensures no_gate { IfOk result (λ completed. completed.account.outcome ≢ Outcome.Gate) }

    // If an output or the report leads to an input, no file changes.
    ensures spared { SparesInputs (filed (T.state files.old) (asking_of request.now))
        (IsErr result) (T.state files.old) (T.state files.new) }

    // If the request is wrong, no file is opened.
    ensures wrong { (why : Refused) → wrong_with (asking_of request.now) ≡ Some why
        → (result ≡ Err why) × (files.new ≡ files.old) }
    ensures right { wrong_with (asking_of request.now) ≡ None
        → IfErr result (λ why. status_of why ≢ 2) }

    // If an input does not exist, no output is made.
    ensures unopened { (side : Side) → IsTrue ((T.state files.old).tells (input_name
        (filed (T.state files.old) (asking_of request.now)).inputs side))
        → (T.state files.old).bytes (input_name
        (filed (T.state files.old) (asking_of request.now)).inputs side) ≡ None
        → IsUnchanged (T.state files.old).bytes (T.state files.new).bytes }
{
    let settings = judge(request)?;
    let gate = match Arc::new(alloc, OpenGate) {
        Ok(gate) => gate,
        Err(e) => return Err(Refusal::Memory(MemoryRefused::from(OutOfMemory::from(e)))),
    };
    let devices = open(request, files)?;
    Ok(complete(alloc, rt, request, &settings, gate, files, devices))
}

// Trims the pairs of the inputs, and hands each feed and outlet back, however the run ended. The
// report is written after all outputs.
fn complete<R: Threads + Wait + Copy + Send + 'static, T: Files>(
    alloc: Global,
    rt: &R,
    request: &Request<'_>,
    settings: &Settings,
    gate: Arc<OpenGate>,
    files: &mut T,
    devices: Devices<T::In, T::Target>,
) -> Completed
    requires ready { AreReady (filed (T.state files.old) (asking_of request.now))
        (T.state files.old) (opened_of T.In.state devices.feeds)
        (outlet_states T.Target.state devices.outlets) (option_map T.Target.state devices.report) }
    ensures completed { (start : FilesState) → IsSound start (T.state files.old)
        → AreOpened (filed start (asking_of request.now))
        start (T.state files.old) (opened_of T.In.state devices.feeds)
        (outlet_states T.Target.state devices.outlets) (option_map T.Target.state devices.report)
        → settings_of (asking_of request.now) ≡ Ok settings.now
        → IsCompleted (asking_of request.now) (filed start (asking_of request.now))
        start (T.state files.new)
        result.account.outcome result.account.counts result.reported result.seen }
    ensures report_says { IsReportError (filed (T.state files.old) (asking_of request.now))
        (T.state files.old).may_say result.reported result.report_error }
    ensures kept { OnlyStores (T.state files.old) (T.state files.new) }
    ensures witnessed { IsWitnessed result.account }
    // Names that differ are told, unless memory was refused.
    ensures names { is_unmatched result.account.outcome ≡ true →
        result.seen.unmatched ≡ None → IsSome result.account.refused }
    ensures no_gate { result.account.outcome ≢ Outcome.Gate }
{
    let Devices {
        feeds,
        mut outlets,
        report,
    } = devices;
    let Ran {
        account,
        unmatched,
        feeds,
    } = run(alloc, rt, settings, gate, feeds, &mut outlets);
    let inputs = inputs_done(request, files, feeds);
    let errors = store(request, files, outlets);
    let reported = store_report(alloc, request, files, settings.encoding(), &account, report);
    Completed {
        seen: seen_of(account.outcome, unmatched, &inputs, &errors),
        reported: reported.0,
        report_error: reported.1,
        account,
    }
}

// How a run went, the names at which it ended if they don't match, and the feeds that it returned.
#[derive(Drop)]
struct Ran<F> {
    account: Account,
    unmatched: Option<UnmatchedNames>,
    feeds: Feeds<Option<F>>,
}

// Trims the pairs of the inputs. The clauses pass on all that the run promises.
fn run<R: Threads + Wait + Copy + Send + 'static, F: Feed + Drop + Send + 'static, O: Outlet>(
    alloc: Global,
    rt: &R,
    settings: &Settings,
    gate: Arc<OpenGate>,
    feeds: Feeds<F>,
    outlets: &mut Outlets<O>,
) -> Ran<F>
    requires fresh { AreFresh (opened_of F.state feeds) }
    requires healthy { AreHealthy (outlet_states O.state outlets.old) }
    ensures whole { let run = run_in (opened_of F.state feeds)
        (outlet_states O.state outlets.old) (outlet_states O.state outlets.new)
        (left_of F.state result.feeds) result.account in
        IsTrue (ends_whole run.outcome) → AreTold run → IsTrimmed settings.now run }
    ensures every { let run = run_in (opened_of F.state feeds)
        (outlet_states O.state outlets.old) (outlet_states O.state outlets.new)
        (left_of F.state result.feeds) result.account in
        run.outcome ≢ Outcome.Lane → EveryEnding settings.now run }
    ensures files { KeepFiles
        (outlet_states O.state outlets.old) (outlet_states O.state outlets.new) }
    ensures names { let inputs = opened_of F.state feeds in
        AreItsNames inputs.form settings.now.encoding inputs.forward inputs.reverse
        result.account.outcome result.unmatched result.account.refused }
    ensures form { form_of result.feeds ≡ (opened_of F.state feeds).form }
    // A feed is lost only with its thread.
    ensures returned { (side : Side) → left_of F.state result.feeds side ≡ None
        → result.account.outcome ≡ Outcome.Spawn }
    ensures witnessed { IsWitnessed result.account }
    ensures no_gate { result.account.outcome ≢ Outcome.Gate }
{
    match feeds {
        Feeds::Apart { forward, reverse } => {
            let ending = run_threads(alloc, rt, settings, gate, forward, reverse, outlets);
            Ran {
                account: Account {
                    outcome: ending.outcome,
                    counts: ending.counts,
                    tally: ending.tally,
                    unended: ending.unended,
                    refused: ending.refused,
                },
                unmatched: ending.unmatched,
                feeds: Feeds::Apart {
                    forward: ending.forward,
                    reverse: ending.reverse,
                },
            }
        }
        Feeds::Interleaved(both) => {
            let ending = run_threads_mixed(alloc, rt, settings, gate, both, outlets);
            Ran {
                account: Account {
                    outcome: ending.outcome,
                    counts: ending.counts,
                    tally: ending.tally,
                    unended: ending.unended,
                    refused: ending.refused,
                },
                unmatched: ending.unmatched,
                feeds: Feeds::Interleaved(ending.feed),
            }
        }
    }
}
