//! Settings that are put together one by one.

ghost use Rattle.std.specs.Prelude.{◌≡◌};

use crate::settings::{BadSetting, CALL_LIMIT, Settings};
use fq_text::Encoding;
use fq_trim::Steps;
use std::marker::Model;

/// Settings that are not checked yet: [`Settings::builder`] has the defaults, each method changes
/// one of them, and [`build`](SettingsBuilder::build) checks them.
#[derive(Drop)]
pub struct SettingsBuilder {
    encoding: Encoding,
    steps: Steps,
    check_names: bool,
    workers: u64,
    block_pairs: u64,
    depth: u64,
    chunk: u64,
    max_reads: u64,
    gate_turns: u64,
}

impl Model for SettingsBuilder {
    ghost use Rattle.std.specs.Prelude.{false};
    ghost use Rattle.fq_run_core.specs.Choices.{Choices};

    ghost Value = { Choices };

    ghost view = { λ s. record {
      encoding = s.encoding;
      steps = s.steps;
      check_names = s.check_names;
      workers = s.workers;
      block_pairs = s.block_pairs;
      depth = s.depth;
      chunk = s.chunk;
      max_reads = s.max_reads;
      gate_turns = s.gate_turns;
      tallied = false;
    } };
}

impl SettingsBuilder {
    ghost use Rattle.std.specs.Prelude.{◌≡◌};
    ghost use Rattle.fq_run_core.specs.Choices.{checked, usual};

    // The program's default settings, with this encoding and these steps.
    pub(crate) fn new(encoding: Encoding, steps: Steps) -> SettingsBuilder
        ensures { result ≡ usual encoding steps }
    {
        SettingsBuilder {
            encoding,
            steps,
            check_names: true,
            workers: 4,
            block_pairs: 1024,
            depth: 4,
            chunk: 65_536,
            max_reads: CALL_LIMIT,
            gate_turns: CALL_LIMIT,
        }
    }

    /// Sets whether the names of mates are compared.
    pub fn check_names(self, check_names: bool) -> SettingsBuilder
        ensures { result ≡ record self { check_names = check_names } }
    {
        SettingsBuilder {
            check_names,
            ..self
        }
    }

    /// Sets how many threads trim in a threaded run, 1 to 64.
    pub fn workers(self, workers: u64) -> SettingsBuilder
        ensures { result ≡ record self { workers = workers } }
    {
        SettingsBuilder { workers, ..self }
    }

    /// Sets how many pairs are trimmed and written at a time, 1 to 65,536.
    pub fn block_pairs(self, block_pairs: u64) -> SettingsBuilder
        ensures { result ≡ record self { block_pairs = block_pairs } }
    {
        SettingsBuilder {
            block_pairs,
            ..self
        }
    }

    /// Sets how many blocks or replies a lane between two threads can hold, 1 to 64.
    pub fn depth(self, depth: u64) -> SettingsBuilder
        ensures { result ≡ record self { depth = depth } }
    {
        SettingsBuilder { depth, ..self }
    }

    /// Sets how many bytes one read call asks for, 1 to 1,048,576.
    pub fn chunk(self, chunk: u64) -> SettingsBuilder
        ensures { result ≡ record self { chunk = chunk } }
    {
        SettingsBuilder { chunk, ..self }
    }

    /// Sets how many read calls are made on an input before it counts as endless, 1 to 2^40.
    pub fn max_reads(self, max_reads: u64) -> SettingsBuilder
        ensures { result ≡ record self { max_reads = max_reads } }
    {
        SettingsBuilder { max_reads, ..self }
    }

    /// Sets how often a gate is asked about one block, 1 to 2^40.
    pub fn gate_turns(self, gate_turns: u64) -> SettingsBuilder
        ensures { result ≡ record self { gate_turns = gate_turns } }
    {
        SettingsBuilder { gate_turns, ..self }
    }

    /// The settings, without a tally ([`Settings::with_tally`] turns it on).
    ///
    /// # Errors
    ///
    /// Those of [`Settings::new`].
    pub fn build(self) -> Result<Settings, BadSetting>
        ensures { result ≡ checked self }
    {
        Settings::new(
            self.encoding,
            self.steps,
            self.check_names,
            self.workers,
            self.block_pairs,
            self.depth,
            self.chunk,
            self.max_reads,
            self.gate_turns,
        )
    }
}
