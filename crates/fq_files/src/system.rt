//! The disk of the operating system.

use crate::disk::{Closed, Disk, Facts, Kind, Opened, Written};
use fq_text::{FromRead, OutOfMemory, Outlet, OutletFailed, Seen, SystemError, write_to};
use std::fs::{self, File, Metadata, OpenFile, OpenOptions};
use std::io::Write;
use std::os::unix::fs::MetadataExt;
use std::rt;

// What the system says of a file.
fn facts_of(metadata: &Metadata) -> Facts {
    let kind = if metadata.is_file() {
        Kind::Regular
    } else if metadata.is_dir() {
        Kind::Directory
    } else {
        Kind::Device
    };
    Facts {
        inode: (metadata.dev() as u128) * (1 << 64) + (metadata.ino() as u128),
        kind,
        length: metadata.len(),
    }
}

/// The disk of the operating system. Its names and bytes are not known to the proof: that its calls
/// do what [`Disk`] says is tested. Each is one call of the standard library.
#[derive(Drop)]
pub struct SystemDisk<'a, R: rt::Files<File = File>> {
    runtime: &'a R,
}

impl<'a, R: rt::Files<File = File>> SystemDisk<'a, R> {
    /// The disk that this runtime reaches.
    pub fn new(runtime: &'a R) -> SystemDisk<'a, R> {
        SystemDisk { runtime }
    }
}

/// An open file of the system.
#[derive(Drop)]
pub struct SystemFile {
    file: File,
}

impl Opened for SystemFile {
    ghost inode = { λ _. 0 };
}

impl<'a, R: rt::Files<File = File>> Disk for SystemDisk<'a, R> {
    ghost use Rattle.std.specs.Prelude.{true, false, None};
    ghost use Rattle.std.proofs.Common.{arith};
    ghost use Rattle.fq_files.specs.Disks.{absent_inode};

    type File = SystemFile;

    type Reader = FromRead<File>;

    type Writer = SystemTarget<File>;

    ghost state = { λ _. record {
      tells = false;
      is_plain = λ _. false;
      inode_of = λ _. None;
      at = λ _. absent_inode;
      refuses = λ _ _. true;
      fails = λ _ _. true;
    } };

    ghost regular = { λ _ _ never. Prim.grind arith };

    fn open_read(&self, name: &str) -> Result<SystemFile, SystemError> {
        let file = File::open(self.runtime, name).map_err(SystemError::of)?;
        Ok(SystemFile { file })
    }

    fn open_write(&mut self, name: &str) -> Result<SystemFile, SystemError> {
        let mut options = OpenOptions::new();
        let opened = options.write(true).create(true).open(self.runtime, name);
        let file = opened.map_err(SystemError::of)?;
        Ok(SystemFile { file })
    }

    fn look(&self, file: &SystemFile) -> Result<Facts, SystemError> {
        let metadata = file.file.metadata().map_err(SystemError::of)?;
        Ok(facts_of(&metadata))
    }

    fn find(&self, name: &str) -> Option<Facts> {
        let metadata = fs::metadata(self.runtime, name).ok()?;
        Some(facts_of(&metadata))
    }

    fn empty(&mut self, file: &SystemFile) -> Result<(), SystemError> {
        file.file.set_len(0).map_err(SystemError::of)
    }

    fn reader(&self, file: SystemFile) -> Result<FromRead<File>, OutOfMemory> {
        Ok(FromRead::new(file.file))
    }

    fn seen(&self, reader: FromRead<File>) -> Seen {
        reader.seen()
    }

    fn writer(&self, file: SystemFile, syncs: bool) -> SystemTarget<File> {
        SystemTarget {
            file: file.file,
            syncs,
            failed_calls: 0,
            error: SystemError { number: 0 },
            is_flushed: false,
        }
    }

    fn close(&mut self, writer: SystemTarget<File>) -> Closed {
        let error = if writer.failed_calls > 0 {
            Some(writer.error)
        } else {
            None
        };
        Closed {
            error,
            is_flushed: writer.is_flushed,
        }
    }
}

/// The outlet that a file of the system is written to. Its bytes are not known to the proof; those
/// of another writer, which may be in its place, may be.
///
/// It is written without a buffer, so write large pieces.
///
/// A flush of a regular file waits until its bytes are on stable storage, and fails if the system
/// reports only then that some were lost. It waits if the file's device has no block device of its
/// own (its major number is 0), as on network file systems, in memory and on file systems over
/// others, and on every device after [`sync_always`](crate::Files::sync_always). Elsewhere a write
/// that succeeds has its place on the disk, and a flush does nothing.
#[derive(Drop)]
pub struct SystemTarget<W> {
    file: W,
    // Whether a flush waits. Pipes and terminals have no disk to wait for.
    syncs: bool,
    failed_calls: u64,
    // Why the last failed call failed.
    error: SystemError,
    // Whether the last of the writes and flushes was a flush that succeeded.
    is_flushed: bool,
}

impl<W> Written for SystemTarget<W> {
    ghost syncs = { λ t. t.syncs };
}

impl<W> SystemTarget<W> {
    ghost use Rattle.std.specs.Prelude.{◌≡◌, ◌<◌, ◌+◌, Ok, Err, IsErr};

    // What a call gave. If it failed, that is one more failure, and why is kept.
    fn note<T>(&mut self, called: Result<T, SystemError>) -> Result<T, OutletFailed>
        requires { self.old.failed_calls < u64.MAX }
        ensures ok { (given : T) → called ≡ Ok given
            → (result ≡ Ok given) × (self.new ≡ self.old) }
        ensures err { (error : SystemError) → called ≡ Err error → IsErr result
            × (self.new ≡ record self.old {
              failed_calls = self.old.failed_calls + 1;
              error = error;
            }) }
    {
        match called {
            Ok(given) => Ok(given),
            Err(error) => {
                self.failed_calls += 1;
                self.error = error;
                Err(OutletFailed)
            }
        }
    }
}

impl<W: Write + OpenFile> Outlet for SystemTarget<W> {
    ghost use Rattle.std.specs.Prelude.{◌≡◌, ◌<◌, ◌≤◌, ◌+◌, None, false, [], length, IfOk, is_ok, if◌then◌else◌};
    ghost use Rattle.std.specs.Io.KnownBytes.{WriteAppends};

    ghost state = { λ t. record {
      file = None;
      taken = [];
      failures = t.failed_calls;
      is_flushed = t.is_flushed;
    } };

    fn write(&mut self, bytes: &[u8]) -> Result<usize, OutletFailed>
        requires { self.old.failed_calls < u64.MAX }
        ensures within { IfOk result (λ n. n ≤ length bytes.now) }
        ensures some { IfOk result (λ n. 0 < length bytes.now → 0 < n) }
        ensures failures { self.new.failed_calls
            ≡ self.old.failed_calls + (if is_ok result then 0 else 1) }
        ensures unflushed { self.new.is_flushed ≡ false }
        // If the bytes of the writer are known, they grow as a write makes them grow.
        ensures writer { WriteAppends (W.contents self.old.file)
            (W.contents self.new.file) result bytes.now }
    {
        self.is_flushed = false;
        let taken = write_to(&mut self.file, bytes);
        self.note(taken)
    }

    fn flush(&mut self) -> Result<(), OutletFailed>
        requires { self.old.failed_calls < u64.MAX }
        ensures failures { self.new.failed_calls
            ≡ self.old.failed_calls + (if is_ok result then 0 else 1) }
        ensures flushed { self.new.is_flushed ≡ is_ok result }
        ensures writer { self.new.file ≡ self.old.file }
    {
        self.is_flushed = false;
        if self.syncs {
            let synced = self.file.sync_data().map_err(SystemError::of);
            self.note(synced)?;
        }
        self.is_flushed = true;
        Ok(())
    }

    fn failures(&self) -> u64 {
        self.failed_calls
    }
}
