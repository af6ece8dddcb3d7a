//! The built-in example.

ghost use Rattle.std.specs.Prelude.{◌≡◌, ◌++◌, ℕ, List, [], Some, IfOk, IfErr, IsTrue, OnOk};
ghost use Rattle.std.specs.Option.{option_map};
ghost use Rattle.fq_pair.specs.Forms.{TwoTexts};
ghost use Rattle.fq_pair.specs.Summaries.{summary_of};
ghost use Rattle.fq_run.specs.Devices.{outlet_states, AreHealthy};
ghost use Rattle.fq_run.specs.Endings.{ends_whole};
ghost use Rattle.fq_app.specs.Example.{AreEmpty, example_choices, example_text, sections};
ghost use Rattle.fq_app_files.specs.Faults.{outcome_status};
ghost use Rattle.fq_app_files.specs.Trimming.{pairs_of, TrimsPairs};
ghost use Rattle.fq_app_files.specs.declared.account.Account.{Account};
ghost use Rattle.fq_app.specs.declared.example_failed.ExampleFailed.TheVariants.{Unrun};

use crate::example_failed::ExampleFailed;
use fq_app_files::Account;
use fq_pair::{Counts, summary};
use fq_run::{CALL_LIMIT, Ending, Outcome, Outlets, Settings, run_threads};
use fq_text::{Encoding, Feed, MemoryRefused, OutOfMemory, Outlet, ScriptFeed, ScriptOutlet};
use fq_trim::Steps;
use fq_work::OpenGate;
use std::alloc::Global;
use std::sync::{Arc, Wait};
use std::thread::Threads;

const FORWARD: &[u8] = b"@p1/1\nACGT\n+\n#!II\n@p2/1\nGGCC\n+\nIIII\n";

const REVERSE: &[u8] = b"@p1/2\nTTTT\n+\nIIII\n@p2/2\nAAAA\n+\n!!!\"\n";

// The most bytes that a read or write call of the example's devices moves.
const CUT: usize = 1000;

const CHUNK: u64 = 65_536;

// The settings of the example.
fn settings() -> Settings
    ensures { result ≡ example_choices }
{
    let Ok(steps) = Steps::parse(&["LEADING:3"]) else {
        unreachable!()
    };
    let Ok(settings) = Settings::new(
        Encoding::Sanger,
        steps,
        true,
        2,
        1,
        4,
        CHUNK,
        CALL_LIMIT,
        CALL_LIMIT,
    ) else {
        unreachable!()
    };
    settings
}

// An outlet in memory that has taken nothing.
fn outlet(alloc: Global) -> ScriptOutlet
    ensures { (result.bytes ≡ []) × (result.failures ≡ 0) }
{
    ScriptOutlet::new(alloc, CUT, 0, false)
}

// The outlets of the example.
fn outlets(alloc: Global) -> Outlets<ScriptOutlet>
    ensures { AreEmpty result.forward_paired
        result.forward_unpaired result.reverse_paired result.reverse_unpaired result.log }
{
    Outlets {
        forward_paired: outlet(alloc),
        forward_unpaired: outlet(alloc),
        reverse_paired: outlet(alloc),
        reverse_unpaired: outlet(alloc),
        log: Some(outlet(alloc)),
    }
}

// Why the example has no text. The enum owns no memory, so passing it on costs little.
#[derive(Drop)]
enum Why {
    // A thread was refused, or a lane could not be confirmed: how the run ended, and the counts of
    // its pairs.
    Unrun(Outcome, Counts),
    // Memory was refused.
    Memory(MemoryRefused),
}

impl From<OutOfMemory> for Why {
    ghost use Rattle.std.specs.Prelude.{◌≡◌};
    ghost use Rattle.fq_text.specs.declared.memory.MemoryRefused.{MemoryRefused};
    ghost use Rattle.fq_app.specs.declared.example.Why.TheVariants.{Memory};

    ghost from_gives = { λ _ e. (refused : MemoryRefused) × (e ≡ Memory refused) };

    fn from(e: OutOfMemory) -> Why {
        Why::Memory(MemoryRefused::from(e))
    }
}

/// Returns what the example prints: the texts of the two pairs, each below its label. The run has
/// two workers and blocks of one pair.
pub(crate) fn example<R: Threads + Wait + Copy + Send + 'static>(
    alloc: Global,
    rt: &R,
) -> Result<Vec<u8>, ExampleFailed>
    ensures text { IfOk result (λ text. text.items ≡ example_text) }
    ensures unrun { IfErr result (λ why. (account : Account)
        → why ≡ Unrun account → outcome_status account.outcome ≡ 6) }
{
    match text(alloc, rt) {
        Ok(text) => Ok(text),
        // The example's settings ask for no tally.
        Err(Why::Unrun(outcome, counts)) => Err(ExampleFailed::Unrun(Account {
            outcome,
            counts,
            tally: None,
            unended: None,
            refused: None,
        })),
        Err(Why::Memory(refused)) => Err(ExampleFailed::Memory(refused)),
    }
}

// Returns what the example prints, or why it cannot.
fn text<R: Threads + Wait + Copy + Send + 'static>(alloc: Global, rt: &R) -> Result<Vec<u8>, Why>
    ensures text { IfOk result (λ text. text.items ≡ example_text) }
    ensures unrun { IfErr result (λ why. (outcome : Outcome)
        → (counts : Counts) → why ≡ Why.Unrun outcome counts → outcome_status outcome ≡ 6) }
{
    let mut outlets = outlets(alloc);
    text_over(alloc, rt, &mut outlets)
}

// Returns what the example prints, written to outlets that have taken nothing.
fn text_over<R: Threads + Wait + Copy + Send + 'static>(
    alloc: Global,
    rt: &R,
    outlets: &mut Outlets<ScriptOutlet>,
) -> Result<Vec<u8>, Why>
    requires { AreEmpty outlets.old.forward_paired outlets.old.forward_unpaired
        outlets.old.reverse_paired outlets.old.reverse_unpaired outlets.old.log }
    ensures text { IfOk result (λ text. text.items ≡ example_text) }
    ensures unrun { IfErr result (λ why. (outcome : Outcome)
        → (counts : Counts) → why ≡ Why.Unrun outcome counts → outcome_status outcome ≡ 6) }
{
    let gate = match Arc::new(alloc, OpenGate) {
        Ok(gate) => gate,
        Err(e) => return Err(Why::from(OutOfMemory::from(e))),
    };
    let forward = ScriptFeed::new(alloc, FORWARD, CUT, 0)?;
    let reverse = ScriptFeed::new(alloc, REVERSE, CUT, 0)?;
    let (outcome, counts) = run(alloc, rt, &settings(), gate, forward, reverse, outlets);
    shown(alloc, outcome, &counts, outlets)
}

// Returns what a run wrote, each text below its label, or why it is not shown.
fn shown(
    alloc: Global,
    outcome: Outcome,
    counts: &Counts,
    outlets: &Outlets<ScriptOutlet>,
) -> Result<Vec<u8>, Why>
    ensures text { IfOk result (λ text. (outcome ≡ Outcome.Finished)
        × ((log : List ℕ) × (option_map (λ l. l.bytes) outlets.now.log ≡ Some log)
        × (text.items ≡ sections outlets.now.forward_paired.bytes outlets.now.forward_unpaired.bytes
        outlets.now.reverse_paired.bytes outlets.now.reverse_unpaired.bytes
        log (summary_of counts.now)))) }
    ensures unrun { IfErr result (λ why. (ended : Outcome)
        → (counted : Counts) → why ≡ Why.Unrun ended counted → outcome_status ended ≡ 6) }
{
    match (outcome, &outlets.log) {
        (Outcome::Finished, Some(log)) => Ok(labelled(alloc, outlets, log.bytes(), counts)?),
        (Outcome::Spawn | Outcome::Lane, _) => Err(Why::Unrun(outcome, *counts)),
        // Outlets in memory fail only if memory is refused: they stand for the error of std.
        _ => Err(Why::from(OutOfMemory)),
    }
}

// Runs the example on its inputs. Returns how the run ended, and the counts of its pairs.
fn run<R: Threads + Wait + Copy + Send + 'static, F: Feed + Drop + Send + 'static, O: Outlet>(
    alloc: Global,
    rt: &R,
    settings: &Settings,
    gate: Arc<OpenGate>,
    forward: F,
    reverse: F,
    outlets: &mut Outlets<O>,
) -> (Outcome, Counts)
    requires forward { (F.state forward).failures ≡ 0 }
    requires reverse { (F.state reverse).failures ≡ 0 }
    requires healthy { AreHealthy (outlet_states O.state outlets.old) }
    ensures { IsTrue (ends_whole result.0) → IsTrue (F.state forward).tells
        → IsTrue (F.state reverse).tells
        → TrimsPairs settings.now
        (pairs_of settings.now TwoTexts (F.state forward).to_come (F.state reverse).to_come)
        (outlet_states O.state outlets.old) (outlet_states O.state outlets.new) result.0 result.1 }
{
    ended(run_threads(alloc, rt, settings, gate, forward, reverse, outlets))
}

// How a run ended, and the counts of its pairs.
fn ended<F: Drop>(ending: Ending<F, F>) -> (Outcome, Counts)
    ensures { (result.0 ≡ ending.outcome) × (result.1 ≡ ending.counts) }
{
    (ending.outcome, ending.counts)
}

// The texts of the outlets and the summary, each below its label.
fn labelled(
    alloc: Global,
    outlets: &Outlets<ScriptOutlet>,
    log: &[u8],
    counts: &Counts,
) -> Result<Vec<u8>, OutOfMemory>
    ensures { IfOk result (λ text. text.items
        ≡ sections outlets.now.forward_paired.bytes outlets.now.forward_unpaired.bytes
        outlets.now.reverse_paired.bytes outlets.now.reverse_unpaired.bytes
        log.now (summary_of counts.now)) }
{
    let summary = summary(alloc, counts)?;
    let forward_paired = outlets.forward_paired.bytes();
    let forward_unpaired = outlets.forward_unpaired.bytes();
    let reverse_paired = outlets.reverse_paired.bytes();
    let reverse_unpaired = outlets.reverse_unpaired.bytes();
    let mut text = Vec::new(alloc);
    put_section(&mut text, b"[forward paired]\n", forward_paired)?;
    put_section(&mut text, b"[forward unpaired]\n", forward_unpaired)?;
    put_section(&mut text, b"[reverse paired]\n", reverse_paired)?;
    put_section(&mut text, b"[reverse unpaired]\n", reverse_unpaired)?;
    put_section(&mut text, b"[trim log]\n", log)?;
    put_section(&mut text, b"[summary]\n", summary.as_bytes())?;
    Ok(text)
}

// Appends a text below its label.
fn put_section(text: &mut Vec<u8>, label: &[u8], section: &[u8]) -> Result<(), OutOfMemory>
    ensures { OnOk result (text.new.items ≡ text.old.items ++ (label.now ++ section.now)) }
{
    text.extend_from_slice(label)?;
    text.extend_from_slice(section)
}
