//! Files in memory.

use crate::files::{Cause, FileFault, Files};
use fq_text::{Feed, Look, OutOfMemory, Outlet, OutletFailed, ScriptFeed, Seen, SystemError};
use std::alloc::Global;
use std::collections::{BTreeMap, BTreeSet};

// The numbers by which Linux says that there is no such file, that a call failed, and that there is
// no memory.
pub(crate) const MISSING: SystemError = SystemError { number: 2 };

pub(crate) const FAILED: SystemError = SystemError { number: 5 };

pub(crate) const NO_MEMORY: SystemError = SystemError { number: 12 };

/// Files in memory. Their bytes are known to the proof.
///
/// A name that isn't held is refused as an input, and created as an output. A name that was opened
/// as an input is refused as a second input and as an output, as on the system; no other is refused
/// as an output unless memory is refused. No read call is cut short. A failure counts for every
/// name, and so does a target that was not flushed.
#[derive(Drop)]
pub struct MemoryFiles {
    held: BTreeMap<String, Vec<u8>>,
    // The names that were opened as inputs.
    inputs: BTreeSet<String>,
    // Whether a device that was handed back has failed.
    has_failed: bool,
    // Whether a target was handed back that was not flushed.
    has_unflushed: bool,
    alloc: Global,
}

impl MemoryFiles {
    ghost use Rattle.std.specs.Prelude.{◌≡◌, ◌≢◌, ℕ, false, Some, None, List, IsTrue, OnOk, OnErr};
    ghost use Rattle.std.specs.Option.{option_map};
    ghost use Rattle.fq_files.specs.Holding.{KeepsOthers, KeepsFiles, IsUnchanged};
    ghost use Rattle.fq_files.specs.Memory.{bytes_in, state_of};
    ghost use Rattle.fq_files.specs.States.{OnlyOpens, OnlyWrites};

    /// Files that hold no name.
    pub fn new(alloc: Global) -> MemoryFiles
        ensures nothing { (name : List ℕ) → bytes_in result name ≡ None }
        ensures unopened { (name : List ℕ) → (state_of result).is_open name ≡ false }
        ensures sound { (name : List ℕ) → (state_of result).has_failed name ≡ false }
        ensures flushed { (name : List ℕ) → (state_of result).is_unflushed name ≡ false }
    {
        MemoryFiles {
            held: BTreeMap::new(alloc),
            inputs: BTreeSet::new(alloc),
            has_failed: false,
            has_unflushed: false,
            alloc,
        }
    }

    /// Sets the bytes of a name. If memory is refused, nothing changes.
    pub fn put(&mut self, name: &str, bytes: &[u8]) -> Result<(), OutOfMemory>
        ensures ok { OnOk result (bytes_in self.new name.now ≡ Some bytes.now) }
        ensures held { KeepsFiles (bytes_in self.old) (bytes_in self.new) }
        ensures others { KeepsOthers (bytes_in self.old) (bytes_in self.new) name.now }
        ensures err { OnErr result (IsUnchanged (bytes_in self.old) (bytes_in self.new)) }
        ensures kept { OnlyWrites (state_of self.old) (state_of self.new) }
    {
        let key = String::from_str(self.alloc, name)?;
        let bytes = Vec::from_slice(self.alloc, bytes)?;
        self.held.insert(key, bytes)?;
        Ok(())
    }

    /// The bytes of a name, if it is held.
    pub fn get(&self, name: &str) -> Option<&[u8]>
        ensures { option_map (λ bytes. bytes.now) result ≡ bytes_in self.now name.now }
    {
        self.held.get(name).map(|bytes| bytes.as_slice())
    }

    // Notes that a name was opened as an input. If memory is refused, nothing changes.
    fn note_input(&mut self, name: &str) -> Result<(), OutOfMemory>
        ensures noted { OnOk result (IsTrue ((state_of self.new).is_open name.now)) }
        ensures others { (other : List ℕ) → other ≢ name.now
            → (state_of self.new).is_open other ≡ (state_of self.old).is_open other }
        ensures remains { (other : List ℕ) → IsTrue ((state_of self.old).is_open other)
            → IsTrue ((state_of self.new).is_open other) }
        ensures err { OnErr result (state_of self.new ≡ state_of self.old) }
        ensures kept { OnlyOpens (state_of self.old) (state_of self.new) }
    {
        let key = String::from_str(self.alloc, name)?;
        self.inputs.insert(key)?;
        Ok(())
    }
}

impl Files for MemoryFiles {
    ghost use Rattle.std.specs.Prelude.{◌≡◌, ◌≢◌, ℕ, Some, Err, List, IsTrue, IfOk, OnOk, OnErr};
    ghost use Rattle.fq_files.specs.Memory.{bytes_in, state_of};
    ghost use Rattle.fq_files.specs.States.{MayRefuse, MayRefuseInput, OnlyOpens};

    type In = ScriptFeed;

    type Target = MemoryTarget;

    ghost state = { state_of };

    fn source(&mut self, name: &str) -> Result<ScriptFeed, FileFault>
        // A feed of the name's bytes. No read call is cut short or fails.
        ensures given { IfOk result (λ feed. bytes_in self.old name.now ≡ Some feed.bytes) }
        ensures uncut { IfOk result (λ feed. feed
            ≡ record { bytes = feed.bytes; cut = usize.MAX; fails_in = 0; failures = 0 }) }

        // As for all files whose bytes are known to the proof.
        ensures refused { (cause : Cause) → result ≡ Err (FileFault.Refused cause)
            → MayRefuseInput (state_of self.old)
            (IsTrue ((state_of self.old).is_open name.now)) name.now cause }
        ensures kept { OnlyOpens (state_of self.old) (state_of self.new) }
        ensures opened { OnOk result (IsTrue ((state_of self.new).is_open name.now)) }
        ensures unopened { OnErr result (state_of self.new ≡ state_of self.old) }
        ensures remains { (other : List ℕ) → IsTrue ((state_of self.old).is_open other)
            → IsTrue ((state_of self.new).is_open other) }
        ensures linked { (other : List ℕ) → other ≢ name.now
            → IsTrue ((state_of self.new).is_open other)
            → MayRefuse (state_of self.old) other Cause.Input }
    {
        if self.leads_to_input(name) {
            return Err(FileFault::Refused(Cause::Input));
        }
        let missing = FileFault::Refused(Cause::System(MISSING));
        let bytes = self.held.get(name).ok_or(missing)?;
        let feed = ScriptFeed::new(self.alloc, bytes, usize::MAX, 0)?;
        self.note_input(name)?;
        Ok(feed)
    }

    fn source_done(&mut self, name: &str, feed: ScriptFeed) -> Seen {
        let look = match self.held.get(name) {
            Some(bytes) => Look::of(bytes),
            None => Look::Unknown,
        };
        let mut error = None;
        if feed.failures() > 0 {
            self.has_failed = true;
            error = Some(FAILED);
        }
        Seen { error, look }
    }

    fn leads_to_input(&self, name: &str) -> bool
        ensures { result ≡ (state_of self.now).is_open name.now }
    {
        self.inputs.contains(name)
    }

    fn target(&mut self, name: &str) -> Result<MemoryTarget, FileFault> {
        if self.leads_to_input(name) {
            return Err(FileFault::Refused(Cause::Input));
        }
        self.put(name, &[])?;
        Ok(MemoryTarget::new(self.alloc, 0, false))
    }

    fn done(&mut self, name: &str, target: MemoryTarget) -> Option<SystemError> {
        let mut error = None;
        if target.failures > 0 {
            self.has_failed = true;
            error = Some(NO_MEMORY);
        }
        if !target.is_flushed {
            self.has_unflushed = true;
        }
        if let Some(bytes) = self.held.get_mut(name) {
            *bytes = target.into_bytes();
        }
        error
    }
}

/// The outlet that a file in memory is written to.
#[derive(Drop)]
pub struct MemoryTarget {
    // The node of a disk in memory that it writes, and whether its flushes should wait.
    pub(crate) node: usize,
    pub(crate) syncs: bool,
    bytes: Vec<u8>,
    pub(crate) failures: u64,
    // Whether the last of the writes and flushes was a flush.
    pub(crate) is_flushed: bool,
}

impl MemoryTarget {
    ghost use Rattle.std.specs.Prelude.{◌≡◌, []};

    pub(crate) fn new(alloc: Global, node: usize, syncs: bool) -> MemoryTarget
        ensures node { result.node ≡ node }
        ensures syncs { result.syncs ≡ syncs }
        ensures bytes { result.bytes.items ≡ [] }
        ensures failures { result.failures ≡ 0 }
    {
        MemoryTarget {
            node,
            syncs,
            bytes: Vec::new(alloc),
            failures: 0,
            is_flushed: false,
        }
    }

    pub(crate) fn into_bytes(self) -> Vec<u8>
        ensures { result ≡ self.bytes }
    {
        let MemoryTarget {
            node: _,
            syncs: _,
            bytes,
            failures: _,
            is_flushed: _,
        } = self;
        bytes
    }
}

impl Outlet for MemoryTarget {
    ghost use Rattle.std.specs.Prelude.{◌≡◌, ◌+◌, ◌<◌, ◌++◌, Some, true, false, length, take, vec_capacity, IsOk, IfOk, OnErr, is_ok, if◌then◌else◌};

    ghost state = { λ t. record {
      file = Some t.node;
      taken = t.bytes.items;
      failures = t.failures;
      is_flushed = t.is_flushed;
    } };

    fn write(&mut self, bytes: &[u8]) -> Result<usize, OutletFailed>
        requires { self.old.failures < u64.MAX }

        // A write takes all bytes. It fails only if more memory is needed.
        ensures full { OnErr result
            (vec_capacity self.old.bytes < length self.old.bytes.items + length bytes.now) }
        ensures count { IfOk result (λ n. n ≡ length bytes.now) }

        // As for all outlets.
        ensures some { IfOk result (λ n. 0 < length bytes.now → 0 < n) }
        ensures moved { IfOk result (λ n. self.new.bytes.items
            ≡ self.old.bytes.items ++ take n bytes.now) }
        ensures err { OnErr result (self.new.bytes.items ≡ self.old.bytes.items) }
        ensures failures { self.new.failures ≡ self.old.failures + (if is_ok result then 0 else 1) }
        ensures unflushed { self.new.is_flushed ≡ false }
        ensures told { self.new.node ≡ self.old.node }
    {
        self.is_flushed = false;
        if self.bytes.extend_from_slice(bytes).is_err() {
            self.failures += 1;
            return Err(OutletFailed);
        }
        Ok(bytes.len())
    }

    fn flush(&mut self) -> Result<(), OutletFailed>
        requires { self.old.failures < u64.MAX }

        // There is nothing to wait for.
        ensures ok { IsOk result }
        ensures kept { self.new ≡ record self.old { is_flushed = true } }
    {
        self.is_flushed = true;
        Ok(())
    }

    fn failures(&self) -> u64 {
        self.failures
    }
}
