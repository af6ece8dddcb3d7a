//! Runs over texts in memory.
//!
//! They have no guarantees: tests don't use these, and proofs get long if they are known.

ghost use Rattle.std.specs.Prelude.{◌≡◌, ◌<◌, [], IfSome};
ghost use Rattle.fq_run_core.specs.Devices.{outlet_states, AreHealthy};

use fq_pair::{Counts, Out};
use fq_report_pairs::Tally;
use fq_run::{
    BadSetting, CALL_LIMIT, Ending, MixedEnding, Outcome, Outlets, Settings, run_serial,
    run_serial_mixed, run_threads, run_threads_mixed,
};
use fq_text::{Encoding, Feed, Outlet, ScriptFeed, ScriptOutlet};
use fq_trim::Steps;
use fq_work::Gate;
use std::alloc::Global;
use std::sync::{Arc, Wait};
use std::thread::Threads;

/// The inputs of a run, its settings, and how its devices cut and fail.
#[derive(Clone, Copy)]
pub struct MemoryRun<'a> {
    /// The forward text, or the interleaved one.
    pub forward: &'a [u8],
    /// The reverse text. `None` if the mates are interleaved in one text.
    pub reverse: Option<&'a [u8]>,
    /// How the qualities are encoded.
    pub encoding: Encoding,
    /// The steps.
    pub steps: Steps,
    /// Whether the names of mates are compared.
    pub check_names: bool,
    /// How many threads trim. If none does, the run is on one thread.
    pub workers: u64,
    /// The number of pairs in a block.
    pub block_pairs: u64,
    /// How much a lane holds.
    pub depth: u64,
    /// The bytes that a read call asks for.
    pub chunk: u64,
    /// How many read calls on an input there may be.
    pub max_reads: u64,
    /// How often a gate is asked about a block.
    pub gate_turns: u64,
    /// Whether the pairs are tallied.
    pub tallied: bool,
    /// The most bytes that a read or write call moves, at least one.
    pub cut: usize,
    /// The number of the read call on `forward` that fails, or 0.
    pub fails_at_read: u64,
    /// The number of the read call on `reverse` that fails, or 0.
    pub reverse_fails_at_read: u64,
    /// An outlet, and the number of the write call to it that fails.
    pub fails_at_write: Option<(Out, u64)>,
    /// An outlet whose flush fails.
    pub fails_at_flush: Option<Out>,
    /// Whether a log is written.
    pub logs: bool,
}

/// What a run left, apart from its outputs.
#[derive(Drop)]
pub struct Left {
    /// How the run ended.
    pub outcome: Outcome,
    /// The counts of the pairs that were written.
    pub counts: Counts,
    /// Their tally, if the run has one. It is in a `Box`: it has many parts, and each function that
    /// owns one on its stack has a long proof.
    pub tally: Option<Box<Tally>>,
    /// Whether each lane was confirmed.
    pub is_confirmed: bool,
    /// How many bytes of `forward` can still be read. `None` if its feed did not come back.
    pub forward: Option<usize>,
    /// How many bytes of `reverse` can still be read. The same as `forward` if there is one text.
    pub reverse: Option<usize>,
}

impl Left {
    /// Whether each feed came back, and each lane was confirmed.
    pub fn is_intact(&self) -> bool {
        self.forward.is_some() && self.reverse.is_some() && self.is_confirmed
    }
}

// What a run takes beside its feeds and outlets.
#[derive(Drop)]
struct Means<'r, R, H> {
    rt: &'r R,
    alloc: Global,
    settings: &'r Settings,
    gate: Arc<H>,
}

impl<'a> MemoryRun<'a> {
    /// A run on one thread over these texts by these steps. Its settings are those of most tests,
    /// and no device fails.
    pub fn new(forward: &'a [u8], reverse: Option<&'a [u8]>, steps: Steps) -> MemoryRun<'a> {
        MemoryRun {
            forward,
            reverse,
            encoding: Encoding::Sanger,
            steps,
            check_names: true,
            workers: 0,
            block_pairs: 1024,
            depth: 4,
            chunk: 65_536,
            max_reads: CALL_LIMIT,
            gate_turns: CALL_LIMIT,
            tallied: false,
            cut: 1000,
            fails_at_read: 0,
            reverse_fails_at_read: 0,
            fails_at_write: None,
            fails_at_flush: None,
            logs: true,
        }
    }

    fn settings(&self) -> Result<Settings, BadSetting> {
        let settings = Settings::new(
            self.encoding,
            self.steps,
            self.check_names,
            self.workers.max(1),
            self.block_pairs,
            self.depth,
            self.chunk,
            self.max_reads,
            self.gate_turns,
        )?;
        Ok(if self.tallied {
            settings.with_tally()
        } else {
            settings
        })
    }

    fn cut(&self) -> usize
        ensures { 0 < result }
    {
        if self.cut == 0 { 1 } else { self.cut }
    }

    // A feed of this text. `None` if memory is refused.
    fn feed(&self, alloc: Global, text: &[u8], fail_at: u64) -> Option<ScriptFeed>
        ensures { IfSome result (λ feed. feed.failures ≡ 0) }
    {
        ScriptFeed::new(alloc, text, self.cut(), fail_at).ok()
    }

    fn outlet(&self, alloc: Global, out: Out) -> ScriptOutlet
        ensures { (result.bytes ≡ []) × (result.failures ≡ 0) }
    {
        let fail_at = match self.fails_at_write {
            Some((failing, fail_at)) if failing == out => fail_at,
            _ => 0,
        };
        ScriptOutlet::new(alloc, self.cut(), fail_at, self.fails_at_flush == Some(out))
    }

    // Empty outlets in memory, with one for the log if a log is written.
    fn new_outlets(&self, alloc: Global) -> Outlets<ScriptOutlet>
        ensures { AreHealthy (outlet_states ⟦<ScriptOutlet as Outlet>⟧.state result) }
    {
        Outlets {
            forward_paired: self.outlet(alloc, Out::ForwardPaired),
            forward_unpaired: self.outlet(alloc, Out::ForwardUnpaired),
            reverse_paired: self.outlet(alloc, Out::ReversePaired),
            reverse_unpaired: self.outlet(alloc, Out::ReverseUnpaired),
            log: if self.logs {
                Some(self.outlet(alloc, Out::Log))
            } else {
                None
            },
        }
    }

    /// Empty outlets in memory, with one for the log if a log is written. They are in a `Box`, as
    /// the tally of [`Left`] is. `None` if memory is refused.
    pub fn outlets(&self, alloc: Global) -> Option<Box<Outlets<ScriptOutlet>>>
        ensures { IfSome result (λ outlets. AreHealthy
            (outlet_states ⟦<ScriptOutlet as Outlet>⟧.state outlets.value)) }
    {
        Box::new(alloc, self.new_outlets(alloc)).ok()
    }

    /// Runs with this gate, which only workers ask. `None` if memory was refused before the run.
    ///
    /// # Errors
    ///
    /// The first setting that is out of range.
    pub fn go<R: Threads + Wait + Copy + Send + 'static, O: Outlet, H: Gate + 'static>(
        &self,
        rt: &R,
        alloc: Global,
        gate: H,
        outlets: &mut Outlets<O>,
    ) -> Result<Option<Left>, BadSetting>
        requires { AreHealthy (outlet_states O.state outlets.old) }
    {
        match self.feed(alloc, self.forward, self.fails_at_read) {
            Some(forward) => self.go_over(rt, alloc, gate, forward, outlets),
            None => Ok(None),
        }
    }

    /// Does what [`MemoryRun::go`] does, with this feed in place of one of the text `forward`.
    pub fn go_over<
        R: Threads + Wait + Copy + Send + 'static,
        F: Feed + Drop + Send + 'static,
        O: Outlet,
        H: Gate + 'static,
    >(
        &self,
        rt: &R,
        alloc: Global,
        gate: H,
        forward: F,
        outlets: &mut Outlets<O>,
    ) -> Result<Option<Left>, BadSetting>
        requires forward { (F.state forward).failures ≡ 0 }
        requires outlets { AreHealthy (outlet_states O.state outlets.old) }
    {
        let settings = self.settings()?;
        let Ok(gate) = Arc::new(alloc, gate) else {
            return Ok(None);
        };
        let means = Means {
            rt,
            alloc,
            settings: &settings,
            gate,
        };
        let Some(text) = self.reverse else {
            return Ok(Some(self.end_interleaved(means, forward, outlets)));
        };
        let Some(reverse) = self.feed(alloc, text, self.reverse_fails_at_read) else {
            return Ok(None);
        };
        Ok(Some(self.end_apart(means, forward, reverse, outlets)))
    }

    // Runs over two texts.
    fn end_apart<
        R: Threads + Wait + Copy + Send + 'static,
        F: Feed + Drop + Send + 'static,
        O: Outlet,
        H: Gate + 'static,
    >(
        &self,
        means: Means<'_, R, H>,
        forward: F,
        reverse: ScriptFeed,
        outlets: &mut Outlets<O>,
    ) -> Left
        requires forward { (F.state forward).failures ≡ 0 }
        requires reverse { reverse.failures ≡ 0 }
        requires outlets { AreHealthy (outlet_states O.state outlets.old) }
    {
        let Means {
            rt,
            alloc,
            settings,
            gate,
        } = means;
        if self.workers > 0 {
            left_apart(
                alloc,
                run_threads(alloc, rt, settings, gate, forward, reverse, outlets),
            )
        } else {
            left_apart(
                alloc,
                run_serial(alloc, settings, forward, reverse, outlets),
            )
        }
    }

    // Runs over one text.
    fn end_interleaved<
        R: Threads + Wait + Copy + Send + 'static,
        F: Feed + Drop + Send + 'static,
        O: Outlet,
        H: Gate + 'static,
    >(&self, means: Means<'_, R, H>, text: F, outlets: &mut Outlets<O>) -> Left
        requires text { (F.state text).failures ≡ 0 }
        requires outlets { AreHealthy (outlet_states O.state outlets.old) }
    {
        let Means {
            rt,
            alloc,
            settings,
            gate,
        } = means;
        if self.workers > 0 {
            left_interleaved(
                alloc,
                run_threads_mixed(alloc, rt, settings, gate, text, outlets),
            )
        } else {
            left_interleaved(alloc, run_serial_mixed(alloc, settings, text, outlets))
        }
    }
}

// Returns how many bytes a feed can still give.
fn bytes_left<F: Feed>(feed: &mut F) -> usize {
    let mut left = 0usize;
    let mut buf = [0; 64];
    for _ in 0..1000u64 {
        if feed.failures() > 0 {
            return left;
        }
        match feed.read(&mut buf) {
            Ok(some) if some > 0 => left = left.saturating_add(some),
            _ => return left,
        }
    }
    left
}

fn boxed(alloc: Global, tally: Option<Tally>) -> Option<Box<Tally>> {
    Box::new(alloc, tally?).ok()
}

fn left_apart<F: Feed + Drop>(alloc: Global, mut ending: Ending<F, ScriptFeed>) -> Left {
    Left {
        outcome: ending.outcome,
        counts: ending.counts,
        is_confirmed: ending.unended.is_none(),
        forward: ending.forward.as_mut().map(bytes_left),
        reverse: ending.reverse.as_mut().map(bytes_left),
        tally: boxed(alloc, ending.tally),
    }
}

fn left_interleaved<F: Feed + Drop>(alloc: Global, mut ending: MixedEnding<F>) -> Left {
    let text = ending.feed.as_mut().map(bytes_left);
    Left {
        outcome: ending.outcome,
        counts: ending.counts,
        is_confirmed: ending.unended.is_none(),
        forward: text,
        reverse: text,
        tally: boxed(alloc, ending.tally),
    }
}

/// The outlets, whose log is given, in the order of [`Out::ALL`].
pub fn in_order<'a, O: Outlet>(outlets: &'a Outlets<O>, log: &'a O) -> [&'a O; 5] {
    [
        &outlets.forward_paired,
        &outlets.forward_unpaired,
        &outlets.reverse_paired,
        &outlets.reverse_unpaired,
        log,
    ]
}
