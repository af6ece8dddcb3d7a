//! Where texts go: a device that takes bytes, and the sending of a whole text to it.

ghost use Rattle.std.specs.Prelude.{◌≡◌, ◌≢◌, ◌+◌, ◌-◌, ◌<◌, ◌≤◌, min, true, [], ◌++◌, length, take, false, Some, IsTrue, IsErr, IsSome, IfOk, IfErr, OnOk, OnErr, is_ok, is_err, if◌then◌else◌};
ghost use Rattle.fq_text.specs.Devices.{OutletState};

use std::alloc::Global;
use std::marker::Model;
use thiserror::Error;

/// The outlet failed in this call, and took nothing.
#[derive(Clone, Copy, Debug, PartialEq, Eq, Error)]
#[error("the outlet failed")]
pub struct OutletFailed;

/// A device that takes bytes, such as a file that is written.
///
/// The bytes of an outlet are known to the proof (it has a `file`), as those of memory are
/// ([`ScriptOutlet`]), or not, as those of a file ([`FromWrite`](crate::FromWrite)). This never
/// changes. Promises about bytes hold for outlets whose bytes are known. Promises about counts hold
/// for all outlets.
pub trait Outlet {
    /// What contracts see of the outlet: the number of the file that it writes, if its bytes are
    /// known to the proof, those taken so far, how many writes and flushes have failed, and whether
    /// the last of them was a flush that succeeded.
    ghost state: { Self → OutletState };

    /// Takes the first n of these bytes, after those taken before, and returns n: 1 or more, unless
    /// there are no bytes.
    ///
    /// A failed call takes nothing and is counted.
    fn write(&mut self, bytes: &[u8]) -> Result<usize, OutletFailed>
        requires { (state self.old).failures < u64.MAX }
        ensures within { IfOk result (λ n. n ≤ length bytes.now) }
        ensures some { IfOk result (λ n. 0 < length bytes.now → 0 < n) }
        ensures moved { IfOk result (λ n. IsSome (state self.old).file
            → (state self.new).taken ≡ (state self.old).taken ++ take n bytes.now) }
        ensures err { OnErr result (IsSome (state self.old).file
            → (state self.new).taken ≡ (state self.old).taken) }
        ensures failures { (state self.new).failures
            ≡ (state self.old).failures + (if is_ok result then 0 else 1) }
        ensures told { (state self.new).file ≡ (state self.old).file }
        ensures unflushed { (state self.new).is_flushed ≡ false };

    /// Passes on what was taken, as to a disk. It takes nothing. A failure is counted.
    fn flush(&mut self) -> Result<(), OutletFailed>
        requires { (state self.old).failures < u64.MAX }
        ensures kept { IsSome (state self.old).file
            → (state self.new).taken ≡ (state self.old).taken }
        ensures failures { (state self.new).failures
            ≡ (state self.old).failures + (if is_ok result then 0 else 1) }
        ensures told { (state self.new).file ≡ (state self.old).file }
        ensures flushed { (state self.new).is_flushed ≡ is_ok result };

    /// How many writes and flushes have failed so far.
    fn failures(&self) -> u64
        ensures { result ≡ (state self.now).failures };
}

/// An outlet into memory that limits the bytes of each write and fails at a chosen one. It shows
/// how a program behaves on such a device.
///
/// If a write needs more memory and is refused it, the write fails.
#[derive(Drop)]
pub struct ScriptOutlet {
    bytes: Vec<u8>,
    cut: usize,
    // The number of writes up to and including the one that fails, or 0 if none fails.
    fails_in: u64,
    flush_fails: bool,
    failures: u64,
    // Whether the last of the writes and flushes was a flush that succeeded.
    is_flushed: bool,
}

impl Model for ScriptOutlet {
    ghost use Rattle.std.specs.Prelude.{◌<◌, vec_capacity};
    ghost use Rattle.fq_text.specs.Devices.{Taken};

    ghost Value = { Taken };

    ghost view = { λ o. record {
      bytes = o.bytes.items;
      room = vec_capacity o.bytes;
      cut = o.cut;
      fails_in = o.fails_in;
      flush_fails = o.flush_fails;
      failures = o.failures;
      is_flushed = o.is_flushed;
    } };

    ghost invariant = { λ o. 0 < o.cut };
}

impl ScriptOutlet {
    /// An outlet that has taken nothing. It takes at most `cut` bytes (1 or more) in each write.
    ///
    /// The write number `fail_at`, counted from 1, fails; if `fail_at` is 0, none fails. Every
    /// flush fails if `flush_fails` is true.
    pub fn new(alloc: Global, cut: usize, fail_at: u64, flush_fails: bool) -> ScriptOutlet
        requires { 0 < cut }
        ensures { result ≡ record {
          bytes = [];
          room = 0;
          cut = cut;
          fails_in = fail_at;
          flush_fails = flush_fails;
          failures = 0;
          is_flushed = false;
        } }
    {
        ScriptOutlet {
            bytes: Vec::new(alloc),
            cut,
            fails_in: fail_at,
            flush_fails,
            failures: 0,
            is_flushed: false,
        }
    }

    /// The bytes taken so far.
    pub fn bytes(&self) -> &[u8]
        ensures { result.now ≡ self.now.bytes }
    {
        self.bytes.as_slice()
    }

    // One failure more.
    fn fail(&mut self) -> OutletFailed
        requires { self.old.failures < u64.MAX }
        ensures { self.new ≡ record self.old { failures = self.old.failures + 1 } }
    {
        self.failures += 1;
        OutletFailed
    }
}

impl Outlet for ScriptOutlet {
    ghost state = { λ o. record {
      file = Some 0;
      taken = o.bytes;
      failures = o.failures;
      is_flushed = o.is_flushed;
    } };

    fn write(&mut self, bytes: &[u8]) -> Result<usize, OutletFailed>
        requires { self.old.failures < u64.MAX }

        // The chosen write fails, and any other only if more memory is needed. Otherwise a write
        // takes all the bytes, but no more than `cut`.
        ensures fails { self.old.fails_in ≡ 1 → IsErr result }
        ensures full { OnErr result (self.old.fails_in ≢ 1
            → self.old.room < length self.old.bytes + min (length bytes.now) self.old.cut) }
        ensures count { IfOk result (λ n. n ≡ min (length bytes.now) self.old.cut) }
        ensures script { (self.new.cut ≡ self.old.cut) × (self.new.fails_in ≡ self.old.fails_in - 1)
            × (self.new.flush_fails ≡ self.old.flush_fails) }
        ensures room { self.old.room ≤ self.new.room }

        // What each outlet does.
        ensures some { IfOk result (λ n. 0 < length bytes.now → 0 < n) }
        ensures moved { IfOk result (λ n. self.new.bytes ≡ self.old.bytes ++ take n bytes.now) }
        ensures err { OnErr result (self.new.bytes ≡ self.old.bytes) }
        ensures failures { self.new.failures ≡ self.old.failures + (if is_ok result then 0 else 1) }
        ensures unflushed { self.new.is_flushed ≡ false }
    {
        self.is_flushed = false;
        if self.fails_in == 1 {
            self.fails_in = 0;
            return Err(self.fail());
        }
        self.fails_in = self.fails_in.saturating_sub(1);
        let n = bytes.len().min(self.cut);
        match self.bytes.extend_from_slice(&bytes[..n]) {
            Ok(()) => Ok(n),
            Err(_) => Err(self.fail()),
        }
    }

    fn flush(&mut self) -> Result<(), OutletFailed>
        requires { self.old.failures < u64.MAX }

        // It fails exactly if `flush_fails` is true, and changes nothing but the count of failures
        // and whether the outlet is flushed.
        ensures fails { is_err result ≡ self.old.flush_fails }
        ensures kept { self.new
            ≡ record self.old { failures = self.new.failures; is_flushed = self.new.is_flushed } }
        ensures failures { self.new.failures ≡ self.old.failures + (if is_ok result then 0 else 1) }
        ensures flushed { self.new.is_flushed ≡ is_ok result }
    {
        self.is_flushed = !self.flush_fails;
        if self.flush_fails {
            Err(self.fail())
        } else {
            Ok(())
        }
    }

    fn failures(&self) -> u64 {
        self.failures
    }
}

/// An outlet failed before all bytes were sent.
#[derive(Clone, Copy, Debug, PartialEq, Eq, Error)]
#[error("the outlet failed after {count} bytes")]
pub struct Sent {
    /// How many bytes went out, from the first on: fewer than were to be sent.
    pub count: usize,
}

/// Sends all bytes, by as many writes as the outlet needs. If there are no bytes, nothing is
/// written. It does not flush.
///
/// It stops at the first failure: the outlet has then taken the first `count` bytes, and has failed
/// once in this call.
#[tactic(auto, using(std::proofs::lemmas::Grind::common_steps, crate::proofs::ReadLemmas::sent_more))]
pub fn send<O: Outlet>(outlet: &mut O, bytes: &[u8]) -> Result<(), Sent>
    requires { (O.state outlet.old).failures < u64.MAX }
    ensures ok { OnOk result (IsSome (O.state outlet.old).file
        → (O.state outlet.new).taken ≡ (O.state outlet.old).taken ++ bytes.now) }
    ensures short { IfErr result (λ sent. sent.count < length bytes.now) }
    ensures err { IfErr result (λ sent. IsSome (O.state outlet.old).file
        → (O.state outlet.new).taken ≡ (O.state outlet.old).taken ++ take sent.count bytes.now) }
    ensures failures { (O.state outlet.new).failures
        ≡ (O.state outlet.old).failures + (if is_ok result then 0 else 1) }
    ensures told { (O.state outlet.new).file ≡ (O.state outlet.old).file }
    ensures empty { bytes.now ≡ [] → outlet.new ≡ outlet.old }
{
    let mut sent = 0;
    while sent < bytes.len() {
        let Ok(n) = outlet.write(&bytes[sent..]) else {
            return Err(Sent { count: sent });
        };
        sent += n;
    }
    Ok(())
}
