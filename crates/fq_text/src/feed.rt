//! Feeds: the devices that the bytes of a text are read from.

ghost use Rattle.std.specs.Prelude.{◌≡◌, ◌+◌, ◌-◌, ◌<◌, ◌≤◌, ◌==◌, min, true, [], ◌++◌, length, take, drop, IsTrue, IfOk, OnErr, is_ok, is_err, if◌then◌else◌};
ghost use Rattle.fq_text.specs.Devices.{FeedState};

use crate::memory::OutOfMemory;
use std::alloc::Global;
use std::marker::Model;
use thiserror::Error;

/// A read call on a feed failed. It moved no bytes.
#[derive(Clone, Copy, Debug, PartialEq, Eq, Error)]
#[error("the input could not be read")]
pub struct FeedFailed;

/// A device that the bytes of a text are read from.
///
/// The bytes of a feed are known to the proof (`tells`), as those of memory are, or not, as those
/// of a file. This never changes. Promises about bytes hold for feeds whose bytes are known.
/// Promises about lengths and the count of failures hold for all feeds.
pub trait Feed {
    /// What contracts see of the feed: whether its bytes are known to the proof, the bytes still to
    /// come, and how many read calls have failed.
    ghost state: { Self → FeedState };

    /// Moves the next bytes to the front of `buf` and returns their number. If `buf` has room, 0
    /// means that the feed is at its end. A failed call moves nothing and is counted.
    fn read(&mut self, buf: &mut [u8]) -> Result<usize, FeedFailed>
        requires { (state self.old).failures < u64.MAX }

        // The bytes moved are the next ones, and no more than `buf` holds.
        ensures within { IfOk result (λ n. n ≤ length buf.old) }
        ensures moved { IfOk result (λ n. IsTrue (state self.old).tells
            → (state self.old).to_come ≡ take n buf.new ++ (state self.new).to_come) }
        ensures end { result ≡ Ok 0 → 0 < length buf.old → IsTrue (state self.old).tells
            → (state self.old).to_come ≡ [] }

        // A failure moves nothing and is counted once.
        ensures err { OnErr result (IsTrue (state self.old).tells
            → (state self.new).to_come ≡ (state self.old).to_come) }
        ensures failures { (state self.new).failures
            ≡ (state self.old).failures + (if is_ok result then 0 else 1) }
        ensures told { (state self.new).tells ≡ (state self.old).tells };

    /// How many read calls have failed.
    fn failures(&self) -> u64
        ensures { result ≡ (state self.now).failures };
}

/// A feed of bytes in memory that limits the bytes of each read call and fails at a chosen one. Its
/// bytes are known to the proof.
#[derive(Drop)]
pub struct ScriptFeed {
    bytes: Vec<u8>,
    at: usize,
    cut: usize,
    // The number of read calls up to and including the one that fails, or 0 if none fails.
    fails_in: u64,
    failures: u64,
}

impl Model for ScriptFeed {
    ghost use Rattle.std.specs.Prelude.{◌<◌, ◌≤◌, drop, length};
    ghost use Rattle.fq_text.specs.Devices.{Coming};

    ghost Value = { Coming };

    ghost view = { λ f. record {
      bytes = drop f.at f.bytes.items;
      cut = f.cut;
      fails_in = f.fails_in;
      failures = f.failures;
    } };

    ghost invariant = { λ f. (f.at ≤ length f.bytes.items) × (0 < f.cut) };
}

impl ScriptFeed {
    /// A feed of these bytes, which moves at most `cut` bytes in each read call. The read call
    /// number `fail_at`, counted from 1, fails; if `fail_at` is 0, none fails. Returns
    /// `OutOfMemory` if memory for a copy of the bytes was refused.
    pub fn new(
        alloc: Global,
        bytes: &[u8],
        cut: usize,
        fail_at: u64,
    ) -> Result<ScriptFeed, OutOfMemory>
        requires { 0 < cut }
        ensures { IfOk result (λ feed. feed
            ≡ record { bytes = bytes.now; cut = cut; fails_in = fail_at; failures = 0 }) }
    {
        let bytes = Vec::from_slice(alloc, bytes)?;
        Ok(ScriptFeed {
            bytes,
            at: 0,
            cut,
            fails_in: fail_at,
            failures: 0,
        })
    }
}

impl Feed for ScriptFeed {
    ghost state = { λ f. record { tells = true; to_come = f.bytes; failures = f.failures } };

    #[tactic(auto, using(std::proofs::lemmas::Grind::common_steps, crate::proofs::ReadLemmas::parted))]
    fn read(&mut self, buf: &mut [u8]) -> Result<usize, FeedFailed>
        requires { self.old.failures < u64.MAX }

        // Only the chosen read call fails. Any other moves all bytes that are left, but no more
        // than `cut` and no more than `buf` holds.
        ensures fails { is_err result ≡ (self.old.fails_in == 1) }
        ensures count { IfOk result
            (λ n. n ≡ min (length self.old.bytes) (min self.old.cut (length buf.old))) }
        ensures script { (self.new.cut ≡ self.old.cut)
            × (self.new.fails_in ≡ self.old.fails_in - 1) }

        // What every feed promises.
        ensures moved { IfOk result (λ n. self.old.bytes ≡ take n buf.new ++ self.new.bytes) }
        ensures end { result ≡ Ok 0 → 0 < length buf.old → self.old.bytes ≡ [] }
        ensures err { OnErr result (self.new.bytes ≡ self.old.bytes) }
        ensures failures { self.new.failures ≡ self.old.failures + (if is_ok result then 0 else 1) }
    {
        if self.fails_in == 1 {
            self.fails_in = 0;
            self.failures += 1;
            return Err(FeedFailed);
        }
        self.fails_in = self.fails_in.saturating_sub(1);
        let left = &self.bytes[self.at..];
        let n = left.len().min(self.cut).min(buf.len());
        buf[..n].copy_from_slice(&left[..n]);
        self.at += n;
        Ok(n)
    }

    fn failures(&self) -> u64 {
        self.failures
    }
}
