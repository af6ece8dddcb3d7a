//! Readers and writers of the standard library, as devices.

ghost use Rattle.std.specs.Prelude.{◌≡◌, ◌<◌, ◌≤◌, ◌+◌, None, length, IfOk, IsSome, is_ok, if◌then◌else◌};
ghost use Rattle.std.specs.Io.KnownBytes.{Keeps, ReadConsumes, WriteAppends};

use crate::feed::{Feed, FeedFailed};
use crate::outlet::{Outlet, OutletFailed};
use crate::seen::{Look, Seen, SystemError};
use std::io::{Read, Write};
use std::marker::Model;

/// A reader as a feed, such as an opened file.
///
/// The bytes of the feed are not known to the proof, since those of a file are not. Each error
/// counts as a failed read call, also one that only says that a signal came
/// (`ErrorKind::Interrupted`). [`seen`](FromRead::seen) says why the last one failed: a read call
/// returns only that it did.
#[derive(Drop)]
pub struct FromRead<R: Read> {
    reader: R,
    failed_reads: u64,
    // Why the last failed read call failed.
    error: SystemError,
    // Whether no byte was read yet, and what the first bytes looked like.
    is_unread: bool,
    look: Look,
}

impl<R: Read> Model for FromRead<R> {
    ghost use Rattle.fq_text.specs.Devices.{Adapted};

    ghost Value = { Adapted R };

    ghost view = { λ d. record { inner = d.reader; failures = d.failed_reads } };
}

impl<R: Read> FromRead<R> {
    /// The feed of a reader, with no failures so far.
    pub fn new(reader: R) -> FromRead<R>
        ensures { result ≡ record { inner = reader; failures = 0 } }
    {
        FromRead {
            reader,
            failed_reads: 0,
            error: SystemError { number: 0 },
            is_unread: true,
            look: Look::Unknown,
        }
    }

    /// Why the last failed read call failed, if one failed, and what the first bytes looked like.
    pub fn seen(&self) -> Seen
        ensures none { self.now.failures ≡ 0 → result.error ≡ None }
        ensures some { 0 < self.now.failures → IsSome result.error }
    {
        let error = if self.failed_reads > 0 {
            Some(self.error)
        } else {
            None
        };
        Seen {
            error,
            look: self.look,
        }
    }

    /// Gives the reader back, in its current state.
    pub fn into_inner(self) -> R
        ensures { result ≡ self.inner }
    {
        let FromRead {
            reader,
            failed_reads: _,
            error: _,
            is_unread: _,
            look: _,
        } = self;
        reader
    }
}

impl<R: Read> Feed for FromRead<R> {
    ghost use Rattle.std.specs.Prelude.{false, []};

    ghost state = { λ d. record { tells = false; to_come = []; failures = d.failures } };

    fn read(&mut self, buf: &mut [u8]) -> Result<usize, FeedFailed>
        requires { self.old.failures < u64.MAX }
        ensures within { IfOk result (λ n. n ≤ length buf.old) }
        ensures failures { self.new.failures ≡ self.old.failures + (if is_ok result then 0 else 1) }
        // If the bytes of the reader are known, they move as a read call moves them.
        ensures reader { ReadConsumes (R.remaining self.old.inner)
            (R.remaining self.new.inner) result buf.new }
    {
        match self.reader.read(buf) {
            Ok(n) => {
                if self.is_unread && n > 0 {
                    self.is_unread = false;
                    self.look = Look::of(&buf[..n]);
                }
                Ok(n)
            }
            Err(e) => {
                self.failed_reads += 1;
                self.error = SystemError::of(e);
                Err(FeedFailed)
            }
        }
    }

    fn failures(&self) -> u64 {
        self.failed_reads
    }
}

/// Writes the first n of these bytes by one call of the writer, and returns n, or why it failed. A
/// write that takes none of the bytes that it is given is a failure, for which the system has no
/// number.
pub fn write_to<W: Write>(writer: &mut W, bytes: &[u8]) -> Result<usize, SystemError>
    ensures within { IfOk result (λ n. n ≤ length bytes.now) }
    ensures some { IfOk result (λ n. 0 < length bytes.now → 0 < n) }
    // If the bytes of the writer are known, they grow as a write makes them grow.
    ensures appends { WriteAppends (W.contents writer.old)
        (W.contents writer.new) result bytes.now }
{
    match writer.write(bytes) {
        Ok(0) if !bytes.is_empty() => Err(SystemError { number: 0 }),
        Ok(n) => Ok(n),
        Err(e) => Err(SystemError::of(e)),
    }
}

/// A writer as an outlet, such as a file that is written.
///
/// The bytes of the outlet are not known to the proof. Each error counts as a failure, also one
/// that only says that a signal came (`ErrorKind::Interrupted`), and so does a write that takes
/// none of the bytes that it is given.
#[derive(Drop)]
pub struct FromWrite<W: Write> {
    writer: W,
    failed_calls: u64,
    // Whether the last of the writes and flushes was a flush that succeeded.
    is_flushed: bool,
}

impl<W: Write> Model for FromWrite<W> {
    ghost use Rattle.fq_text.specs.Devices.{AdaptedWriter};

    ghost Value = { AdaptedWriter W };

    ghost view = { λ d.
        record { inner = d.writer; failures = d.failed_calls; is_flushed = d.is_flushed } };
}

impl<W: Write> FromWrite<W> {
    ghost use Rattle.std.specs.Prelude.{false};

    /// The outlet of a writer, with no failures so far.
    pub fn new(writer: W) -> FromWrite<W>
        ensures { result ≡ record { inner = writer; failures = 0; is_flushed = false } }
    {
        FromWrite {
            writer,
            failed_calls: 0,
            is_flushed: false,
        }
    }

    /// Gives the writer back, in its current state. The writer is not flushed.
    pub fn into_inner(self) -> W
        ensures { result ≡ self.inner }
    {
        let FromWrite {
            writer,
            failed_calls: _,
            is_flushed: _,
        } = self;
        writer
    }

    // One failure more.
    fn fail(&mut self) -> OutletFailed
        requires { self.old.failures < u64.MAX }
        ensures { self.new ≡ record self.old { failures = self.old.failures + 1 } }
    {
        self.failed_calls += 1;
        OutletFailed
    }
}

impl<W: Write> Outlet for FromWrite<W> {
    ghost use Rattle.std.specs.Prelude.{None, false, []};

    ghost state = { λ d.
        record { file = None; taken = []; failures = d.failures; is_flushed = d.is_flushed } };

    fn write(&mut self, bytes: &[u8]) -> Result<usize, OutletFailed>
        requires { self.old.failures < u64.MAX }
        ensures within { IfOk result (λ n. n ≤ length bytes.now) }
        ensures some { IfOk result (λ n. 0 < length bytes.now → 0 < n) }
        ensures failures { self.new.failures ≡ self.old.failures + (if is_ok result then 0 else 1) }
        ensures unflushed { self.new.is_flushed ≡ false }
        // If the bytes of the writer are known, they grow as a write makes them grow.
        ensures writer { WriteAppends (W.contents self.old.inner)
            (W.contents self.new.inner) result bytes.now }
    {
        self.is_flushed = false;
        match write_to(&mut self.writer, bytes) {
            Ok(n) => Ok(n),
            Err(_) => Err(self.fail()),
        }
    }

    fn flush(&mut self) -> Result<(), OutletFailed>
        requires { self.old.failures < u64.MAX }
        ensures failures { self.new.failures ≡ self.old.failures + (if is_ok result then 0 else 1) }
        ensures flushed { self.new.is_flushed ≡ is_ok result }
        // If the bytes of the writer are known, they stay.
        ensures writer { Keeps (W.contents self.old.inner) (W.contents self.new.inner) }
    {
        self.is_flushed = false;
        if self.writer.flush().is_err() {
            return Err(self.fail());
        }
        self.is_flushed = true;
        Ok(())
    }

    fn failures(&self) -> u64 {
        self.failed_calls
    }
}
