//! Runs on pairs while memory or a thread may be refused, and checks what the run leaves.
//! `tests/refused_growths.sh` refuses each growth and each thread in turn.
//!
//! With the argument `threads` the run has two workers; otherwise it is on one thread. With the
//! argument `interleaved` it reads one interleaved text, which ends with a forward record whose
//! mate is missing; otherwise it reads seven pairs from two texts. If what the run leaves is
//! correct, the program prints `Whole`, or, if the run did not end whole, its outcome and what
//! became of its feeds. If memory is refused before the run, it prints that. Otherwise the exit
//! status is 1.

ghost use Rattle.std.specs.Prelude.{◌≡◌, None, false, [], IfSome};
ghost use Rattle.fq_run.specs.Devices.{outlet_states, AreHealthy};

use anyhow::{Result, bail};
use fq_pair::{Counts, InputFault, Side};
use fq_run::{Outcome, Outlets};
use fq_test_memory_run::{Left, MemoryRun, in_order};
use fq_test_texts::{
    ELEVEN_INTERLEAVED, Front, SEVEN_FORWARD, SEVEN_REVERSE, SEVEN_STEPS, front_in_order,
};
use fq_text::{Outlet, OutletFailed, ScriptOutlet};
use fq_trim::Steps;
use fq_work::OpenGate;
use std::alloc::Global;
use std::sync::Wait;
use std::thread::Threads;

const BLOCK_PAIRS: usize = 2;

// The most bytes that a read or write call moves.
const CUT: usize = 5;

/// The kind of run.
#[derive(Clone, Copy, Debug)]
struct Way {
    threads: bool,
    interleaved: bool,
}

const SERIAL: Way = Way {
    threads: false,
    interleaved: false,
};

/// What became of the feeds of a run.
#[derive(Clone, Copy, Debug, PartialEq, Eq)]
enum Feeds {
    /// The run did not return them.
    Lost,
    /// The run returned them, and they can still give all their bytes.
    Unread,
    /// The run returned them, and they can give only a part of their bytes.
    Read,
}

/// What a run left, apart from its outputs.
#[derive(Clone, Copy, Debug)]
struct Ended {
    outcome: Outcome,
    counts: Counts,
    feeds: Feeds,
}

// What became of a feed of this text, of which so many bytes can still be read.
fn feed_left(left: Option<usize>, text: &[u8]) -> Feeds {
    match left {
        None => Feeds::Lost,
        Some(left) if left == text.len() => Feeds::Unread,
        Some(_) => Feeds::Read,
    }
}

// What became of both feeds. A run returns both or none.
fn feeds_left(forward: Feeds, reverse: Feeds) -> Result<Feeds> {
    match (forward, reverse) {
        (Feeds::Unread, Feeds::Unread) => Ok(Feeds::Unread),
        (Feeds::Lost, Feeds::Lost) => Ok(Feeds::Lost),
        (Feeds::Lost, _) | (_, Feeds::Lost) => bail!("one feed alone came back"),
        _ => Ok(Feeds::Read),
    }
}

/// An outlet that counts how often it is flushed.
#[derive(Drop)]
struct FlushedOutlet {
    outlet: ScriptOutlet,
    flushes: u64,
    failures: u64,
    // Whether the last of the writes and flushes was a flush.
    is_flushed: bool,
}

impl Outlet for FlushedOutlet {
    ghost state = { λ o.
        record { file = None; taken = []; failures = o.failures; is_flushed = o.is_flushed } };

    fn write(&mut self, bytes: &[u8]) -> std::result::Result<usize, OutletFailed> {
        self.is_flushed = false;
        if self.outlet.failures() == 0 {
            if let Ok(n) = self.outlet.write(bytes) {
                return Ok(n);
            }
        }
        self.failures += 1;
        Err(OutletFailed)
    }

    fn flush(&mut self) -> std::result::Result<(), OutletFailed> {
        self.flushes = self.flushes.saturating_add(1);
        self.is_flushed = true;
        Ok(())
    }

    fn failures(&self) -> u64 {
        self.failures
    }
}

fn outlet(alloc: Global) -> FlushedOutlet
    ensures { result.failures ≡ 0 }
{
    FlushedOutlet {
        outlet: ScriptOutlet::new(alloc, CUT, 0, false),
        flushes: 0,
        failures: 0,
        is_flushed: false,
    }
}

fn new_outlets(alloc: Global) -> Outlets<FlushedOutlet>
    ensures { AreHealthy (outlet_states ⟦<FlushedOutlet as Outlet>⟧.state result) }
{
    Outlets {
        forward_paired: outlet(alloc),
        forward_unpaired: outlet(alloc),
        reverse_paired: outlet(alloc),
        reverse_unpaired: outlet(alloc),
        log: Some(outlet(alloc)),
    }
}

// Makes empty outlets, in a `Box`: they have many parts, and each function that holds them on its
// stack has a long proof. `None` if memory is refused.
fn outlets(alloc: Global) -> Option<Box<Outlets<FlushedOutlet>>>
    ensures { IfSome result (λ outlets. AreHealthy
        (outlet_states ⟦<FlushedOutlet as Outlet>⟧.state outlets.value)) }
{
    Box::new(alloc, new_outlets(alloc)).ok()
}

// The run by these steps over seven pairs, or over eleven interleaved records.
fn run_of(way: Way, steps: Steps) -> MemoryRun<'static> {
    let run = if way.interleaved {
        MemoryRun::new(ELEVEN_INTERLEAVED, None, steps)
    } else {
        MemoryRun::new(SEVEN_FORWARD, Some(SEVEN_REVERSE), steps)
    };
    MemoryRun {
        workers: if way.threads { 2 } else { 0 },
        block_pairs: BLOCK_PAIRS as u64,
        cut: CUT,
        ..run
    }
}

// How a run ended. It is an error if only one feed came back.
fn ended_of(run: &MemoryRun<'_>, left: &Left) -> Result<Ended> {
    let forward = feed_left(left.forward, run.forward);
    let reverse = feed_left(left.reverse, run.reverse.unwrap_or(run.forward));
    Ok(Ended {
        outcome: left.outcome,
        counts: left.counts,
        feeds: feeds_left(forward, reverse)?,
    })
}

// How a run ends if no memory is refused, and how many pairs it has written then.
fn whole(way: Way) -> (Outcome, usize) {
    if way.interleaved {
        let fault = InputFault::MateMissing(Side::Reverse, 6);
        (Outcome::Input(fault), 5)
    } else {
        (Outcome::Finished, 7)
    }
}

// At most one growth or one thread was refused. A refused growth of an outlet is a failed write;
// any other one ends the run with `Memory`, a refused thread with `Spawn`. Each outlet is flushed
// once, or never if a write failed or a thread was refused.
fn judge(way: Way, ended: Ended, front: Front, flushes: [u64; 5]) -> Result<()> {
    let Ended { outcome, feeds, .. } = ended;
    let expected = match outcome {
        Outcome::Spawn => front.pairs == 0 && front.failed.is_none() && feeds != Feeds::Read,
        Outcome::Memory => front.failed.is_none(),
        Outcome::Write(out) => front.failed == Some(out),
        _ => (outcome, front.pairs) == whole(way) && front.failed.is_none(),
    };
    let due = match outcome {
        Outcome::Spawn | Outcome::Write(_) => 0,
        _ => 1,
    };
    if !expected || flushes != [due; 5] {
        bail!("{ended:?} with {front:?}, flushed {flushes:?} times");
    }
    Ok(())
}

// Checks the outlets and how the run ended.
fn judge_run(way: Way, ended: Ended, outlets: &Outlets<FlushedOutlet>) -> Result<()> {
    let Some(log) = &outlets.log else {
        bail!("there is no log")
    };
    let outlets = in_order(outlets, log);
    let taken = outlets.map(|outlet| &outlet.outlet);
    match front_in_order(taken, ended.counts, BLOCK_PAIRS) {
        Ok(front) => judge(way, ended, front, outlets.map(|outlet| outlet.flushes)),
        Err(why) => bail!("{why}"),
    }
}

// Runs and checks. `None` if memory was refused before the run.
fn run_and_judge<R: Threads + Wait + Copy + Send + 'static>(
    alloc: Global,
    rt: &R,
    way: Way,
) -> Result<Option<Ended>> {
    let run = run_of(way, Steps::parse(SEVEN_STEPS)?);
    let Some(mut outlets) = outlets(alloc) else {
        return Ok(None);
    };
    let Some(left) = run.go(rt, alloc, OpenGate, &mut outlets)? else {
        return Ok(None);
    };
    let ended = ended_of(&run, &left)?;
    judge_run(way, ended, &outlets)?;
    Ok(Some(ended))
}

// Reads an argument.
fn take_word(way: &mut Way, word: &str) -> Result<()> {
    match word {
        "serial" => {}
        "threads" => way.threads = true,
        "interleaved" => way.interleaved = true,
        _ => bail!("no run is {word:?}"),
    }
    Ok(())
}

// Prints how a run ended that left what it should.
fn tell<R: Print>(rt: &R, way: Way, ended: Ended) -> Result<()> {
    if ended.outcome == whole(way).0 {
        println!(rt; "Whole")?;
    } else {
        println!(rt; "{:?}({:?})", ended.outcome, ended.feeds)?;
    }
    Ok(())
}

/// Runs as these arguments say, checks what the run left, and prints how it ended.
pub fn judge_words<R: Threads + Wait + Print + Copy + Send + 'static>(
    alloc: Global,
    rt: &R,
    words: &[String],
) -> Result<()> {
    let mut way = SERIAL;
    for word in words {
        take_word(&mut way, word)?;
    }
    match run_and_judge(alloc, rt, way)? {
        Some(ended) => tell(rt, way, ended),
        None => refused(rt),
    }
}

/// Prints that memory was refused before a run.
pub fn refused<R: Print>(rt: &R) -> Result<()> {
    println!(rt; "Refused before the run")?;
    Ok(())
}
