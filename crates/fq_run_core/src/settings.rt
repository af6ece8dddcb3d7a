//! The settings of a run.

ghost use Rattle.std.specs.Prelude.{◌≡◌, ◌≤◌, ◌^◌, true, false, OnOk, IfErr};
ghost use Rattle.fq_run_core.specs.Ranges.{within};

use crate::settings_builder::SettingsBuilder;
use fq_text::Encoding;
use fq_trim::Steps;
use std::marker::Model;
use thiserror::Error;

/// The largest number of workers.
pub const MOST_WORKERS: u64 = 64;
/// The largest number of pairs in a block.
pub const MOST_PAIRS: u64 = 65_536;
/// The largest number of items in a lane.
pub const MOST_DEPTH: u64 = 64;
/// The largest number of bytes that one read call asks for.
pub const MOST_BYTES: u64 = 1_048_576;
/// The largest number of read calls per input, and of turns at a gate: 2^40.
pub const CALL_LIMIT: u64 = 1_099_511_627_776;

/// The first setting that is out of range.
#[derive(Clone, Copy, Debug, PartialEq, Eq, Error)]
pub enum BadSetting {
    /// The number of workers isn't 1 to 64.
    #[error("the number of workers is not 1 to 64")]
    Workers,
    /// The number of pairs in a block isn't 1 to 65,536.
    #[error("the number of pairs in a block is not 1 to 65536")]
    BlockPairs,
    /// The depth of the lanes isn't 1 to 64.
    #[error("the depth of the lanes is not 1 to 64")]
    Depth,
    /// The number of bytes per read call isn't 1 to 1,048,576.
    #[error("the number of bytes per read call is not 1 to 1048576")]
    Chunk,
    /// The number of read calls per input isn't 1 to 2^40.
    #[error("the number of read calls per input is not 1 to 2^40")]
    MaxReads,
    /// The number of turns at a gate isn't 1 to 2^40.
    #[error("the number of turns at a gate is not 1 to 2^40")]
    GateTurns,
}

/// The settings of a run. Each number is in its range.
#[derive(Clone, Copy, Debug, PartialEq, Eq)]
pub struct Settings {
    encoding: Encoding,
    steps: Steps,
    check_names: bool,
    workers: u64,
    block_pairs: u64,
    depth: u64,
    chunk: u64,
    max_reads: u64,
    gate_turns: u64,
    tallied: bool,
}

impl Model for Settings {
    ghost use Rattle.fq_run_core.specs.Choices.{Choices, AreInRange};

    ghost Value = { Choices };

    ghost view = { λ s. record {
      encoding = s.encoding;
      steps = s.steps;
      check_names = s.check_names;
      workers = s.workers;
      block_pairs = s.block_pairs;
      depth = s.depth;
      chunk = s.chunk;
      max_reads = s.max_reads;
      gate_turns = s.gate_turns;
      tallied = s.tallied;
    } };

    ghost invariant = { λ s.
        AreInRange s.workers s.block_pairs s.depth s.chunk s.max_reads s.gate_turns };

    ghost inverse = { λ c. record {
      encoding = c.encoding;
      steps = c.steps;
      check_names = c.check_names;
      workers = c.workers;
      block_pairs = c.block_pairs;
      depth = c.depth;
      chunk = c.chunk;
      max_reads = c.max_reads;
      gate_turns = c.gate_turns;
      tallied = c.tallied;
    } };
}

impl Settings {
    ghost use Rattle.fq_run_core.specs.Choices.{checked, tallying, usual};

    /// The program's default settings, to change and then to [`build`](SettingsBuilder::build):
    /// names are compared; 4 workers, blocks of 1,024 pairs, lanes of 4 blocks, and read calls of
    /// 65,536 bytes, of which an input may have 2^40, as a gate may have turns.
    ///
    /// - `encoding`: how the quality bytes of both inputs encode Phred scores.
    /// - `steps`: the trimming steps.
    pub fn builder(encoding: Encoding, steps: Steps) -> SettingsBuilder
        ensures { result ≡ usual encoding steps }
    {
        SettingsBuilder::new(encoding, steps)
    }

    /// The settings of a run, without a tally.
    ///
    /// - `encoding`: how the quality bytes of both inputs encode Phred scores.
    /// - `steps`: the trimming steps.
    /// - `check_names`: whether the names of mates are compared.
    /// - `workers`: threads that trim, 1 to 64. A serial run starts none.
    /// - `block_pairs`: pairs that are trimmed and written at a time, 1 to 65,536.
    /// - `depth`: blocks or replies that a lane (a queue between two threads) can hold, 1 to 64.
    /// - `chunk`: bytes that one read call asks for, 1 to 1,048,576.
    /// - `max_reads`: read calls on an input before it counts as endless, 1 to 2^40.
    /// - `gate_turns`: how often a gate is asked about one block, 1 to 2^40.
    ///
    /// # Errors
    ///
    /// The first of the six numbers, in this order, that is out of range. No memory is allocated.
    pub fn new(
        encoding: Encoding,
        steps: Steps,
        check_names: bool,
        workers: u64,
        block_pairs: u64,
        depth: u64,
        chunk: u64,
        max_reads: u64,
        gate_turns: u64,
    ) -> Result<Settings, BadSetting>
        ensures { result ≡ checked (record {
          encoding = encoding;
          steps = steps;
          check_names = check_names;
          workers = workers;
          block_pairs = block_pairs;
          depth = depth;
          chunk = chunk;
          max_reads = max_reads;
          gate_turns = gate_turns;
          tallied = false;
        }) }
    {
        in_range(MOST_WORKERS, workers, BadSetting::Workers)?;
        in_range(MOST_PAIRS, block_pairs, BadSetting::BlockPairs)?;
        in_range(MOST_DEPTH, depth, BadSetting::Depth)?;
        in_range(MOST_BYTES, chunk, BadSetting::Chunk)?;
        in_range(CALL_LIMIT, max_reads, BadSetting::MaxReads)?;
        in_range(CALL_LIMIT, gate_turns, BadSetting::GateTurns)?;
        Ok(Settings {
            encoding,
            steps,
            check_names,
            workers,
            block_pairs,
            depth,
            chunk,
            max_reads,
            gate_turns,
            tallied: false,
        })
    }

    /// Turns the tally on: a run with these settings also tallies its pairs.
    pub fn with_tally(self) -> Settings
        ensures { result ≡ tallying self }
    {
        Settings {
            tallied: true,
            ..self
        }
    }

    /// How the quality bytes of both inputs encode Phred scores.
    pub fn encoding(&self) -> Encoding
        ensures { result ≡ self.now.encoding }
    {
        self.encoding
    }

    /// The trimming steps.
    pub fn steps(&self) -> &Steps
        ensures { result.now ≡ self.now.steps }
    {
        &self.steps
    }

    /// Whether the names of mates are compared.
    pub fn check_names(&self) -> bool
        ensures { result ≡ self.now.check_names }
    {
        self.check_names
    }

    /// Whether a run tallies its pairs.
    pub fn tallied(&self) -> bool
        ensures { result ≡ self.now.tallied }
    {
        self.tallied
    }

    /// How many threads trim in a threaded run.
    pub fn workers(&self) -> u64
        ensures workers { result ≡ self.now.workers }
        ensures some { 1 ≤ result }
        ensures most { result ≤ 64 }
    {
        self.workers
    }

    /// How many pairs are trimmed and written at a time.
    pub fn block_pairs(&self) -> u64
        ensures pairs { result ≡ self.now.block_pairs }
        ensures some { 1 ≤ result }
        ensures most { result ≤ 65536 }
    {
        self.block_pairs
    }

    /// How many items a lane between two threads can hold.
    pub fn depth(&self) -> u64
        ensures depth { result ≡ self.now.depth }
        ensures some { 1 ≤ result }
        ensures most { result ≤ 64 }
    {
        self.depth
    }

    /// How many bytes one read call asks for.
    pub fn chunk(&self) -> usize
        ensures chunk { result ≡ self.now.chunk }
        ensures some { 1 ≤ result }
        ensures most { result ≤ 1048576 }
    {
        self.chunk as usize
    }

    /// How many read calls are made on an input before it counts as endless.
    pub fn max_reads(&self) -> u64
        ensures reads { result ≡ self.now.max_reads }
        ensures some { 1 ≤ result }
        ensures most { result ≤ 2 ^ 40 }
    {
        self.max_reads
    }

    /// How often a gate is asked about one block.
    pub fn gate_turns(&self) -> u64
        ensures turns { result ≡ self.now.gate_turns }
        ensures some { 1 ≤ result }
        ensures most { result ≤ 2 ^ 40 }
    {
        self.gate_turns
    }
}

// Returns `bad` unless the number is from 1 to `most`.
fn in_range(most: u64, number: u64, bad: BadSetting) -> Result<(), BadSetting>
    ensures ok { OnOk result (within most number ≡ true) }
    ensures err { IfErr result (λ why. (why ≡ bad) × (within most number ≡ false)) }
{
    if 1 <= number && number <= most {
        Ok(())
    } else {
        Err(bad)
    }
}
