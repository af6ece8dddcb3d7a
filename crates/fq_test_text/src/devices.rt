//! Tests of the devices that texts are read from and written to.

use fq_text::*;
use std::io;
use std::io::{ErrorKind, Read, Write};
use std::process::Abort;
use std::test::Fail;

// A call on an outlet, with the expected result.
enum Asked<'a> {
    Send(&'a [u8], Result<(), Sent>),
    Write(&'a [u8], Result<usize, OutletFailed>),
    Flush(Result<(), OutletFailed>),
}

// The outlet returns the expected result, and has then counted `failures` failures.
fn assert_answer<O: Outlet>(rt: &impl Abort, outlet: &mut O, asked: Asked<'_>, failures: u64) {
    assert!(rt; outlet.failures() < 9);
    let is_so = match asked {
        Asked::Send(bytes, answer) => send(outlet, bytes) == answer,
        Asked::Write(bytes, answer) => outlet.write(bytes) == answer,
        Asked::Flush(answer) => outlet.flush() == answer,
    };
    assert!(rt; is_so);
    assert_eq!(rt; outlet.failures(), failures);
}

#[test]
fn a_send_stops_at_the_first_failure(rt: HostRuntime) {
    let mut outlet = ScriptOutlet::new(rt.alloc(), 2, 3, false);
    assert_answer(
        &rt,
        &mut outlet,
        Asked::Send(b"abcdef", Err(Sent { count: 4 })),
        1,
    );
    assert!(rt; outlet.bytes() == b"abcd".as_slice());

    let mut outlet = ScriptOutlet::new(rt.alloc(), 4, 0, false);
    assert_answer(&rt, &mut outlet, Asked::Send(b"abcdef", Ok(())), 0);
    assert!(rt; outlet.bytes() == b"abcdef".as_slice());
}

#[test]
fn failures_have_texts(rt: HostRuntime) -> Result<(), Fail> {
    let text = format!(in rt.alloc(); "{}", Sent { count: 4 })?;
    assert_eq!(rt; text.as_str(), "the outlet failed after 4 bytes");
    let text = format!(in rt.alloc(); "{}", OutletFailed)?;
    assert_eq!(rt; text.as_str(), "the outlet failed");
    Ok(())
}

// A reader and writer whose first call is interrupted by a signal.
#[derive(Drop)]
struct Signalled {
    calls: u8,
}

impl Signalled {
    fn answer(&mut self) -> io::Result<()> {
        if self.calls == 0 {
            self.calls = 1;
            return Err(io::Error::from(ErrorKind::Interrupted));
        }
        Ok(())
    }
}

impl Read for Signalled {
    fn read(&mut self, _buf: &mut [u8]) -> io::Result<usize> {
        self.answer()?;
        Ok(0)
    }
}

impl Write for Signalled {
    fn write(&mut self, _buf: &[u8]) -> io::Result<usize> {
        self.answer()?;
        Ok(0)
    }

    fn flush(&mut self) -> io::Result<()> {
        self.answer()
    }
}

// A read call returns this result, and the feed has then counted `failures` failures.
fn assert_read<F: Feed>(
    rt: &impl Abort,
    feed: &mut F,
    buf: &mut [u8],
    answer: Result<usize, FeedFailed>,
    failures: u64,
) {
    assert!(rt; feed.failures() < 9);
    assert_eq!(rt; feed.read(buf), answer);
    assert_eq!(rt; feed.failures(), failures);
}

#[test]
fn a_readers_error_is_a_failure(rt: HostRuntime) {
    let mut buf = [0u8; 4];
    let mut feed = FromRead::new(Signalled { calls: 0 });
    assert_read(&rt, &mut feed, &mut buf, Err(FeedFailed), 1);
    assert_read(&rt, &mut feed, &mut buf, Ok(0), 1);
    let error = Some(SystemError { number: 0 });
    assert_eq!(rt;
        feed.seen(),
        Seen {
            error,
            look: Look::Unknown
        }
    );
    assert_eq!(rt; feed.into_inner().calls, 1);
}

#[test]
fn a_reader_that_ends_has_no_error(rt: HostRuntime) {
    let mut buf = [0u8; 2];
    let mut feed = FromRead::new(b">abc".as_slice());
    assert_eq!(rt; feed.seen(), Seen::NOTHING);
    assert_read(&rt, &mut feed, &mut buf, Ok(2), 0);
    assert_read(&rt, &mut feed, &mut buf, Ok(2), 0);
    let error = None;
    assert_eq!(rt;
        feed.seen(),
        Seen {
            error,
            look: Look::Fasta
        }
    );
}

#[test]
fn errors_have_the_systems_number(rt: HostRuntime) {
    let full = io::Error::from_raw_os_error(28);
    assert_eq!(rt; SystemError::of(full), SystemError { number: 28 });
    let other = io::Error::from(ErrorKind::StorageFull);
    assert_eq!(rt; SystemError::of(other), SystemError { number: 0 });
}

#[test]
fn a_writers_error_and_a_write_of_nothing_are_failures(rt: HostRuntime) {
    let mut outlet = FromWrite::new(Signalled { calls: 0 });
    assert_answer(&rt, &mut outlet, Asked::Flush(Err(OutletFailed)), 1);
    assert_answer(&rt, &mut outlet, Asked::Write(b"a", Err(OutletFailed)), 2);
    assert_answer(&rt, &mut outlet, Asked::Write(b"", Ok(0)), 2);
    assert_answer(&rt, &mut outlet, Asked::Flush(Ok(())), 2);
    let mut outlet = FromWrite::new(Signalled { calls: 0 });
    assert_answer(&rt, &mut outlet, Asked::Write(b"a", Err(OutletFailed)), 1);
}

#[test]
fn bytes_pass_through_readers(rt: HostRuntime) {
    let mut buf = [0u8; 4];
    let mut feed = FromRead::new(b"abc".as_slice());
    assert_read(&rt, &mut feed, &mut buf, Ok(3), 0);
    assert_eq!(rt; buf[..3], b"abc"[..]);
}

#[test]
fn bytes_pass_through_writers(rt: HostRuntime) {
    let mut outlet = FromWrite::new(Vec::new(rt.alloc()));
    assert_answer(&rt, &mut outlet, Asked::Send(b"abcdef", Ok(())), 0);
    assert!(rt; outlet.into_inner().as_slice() == b"abcdef".as_slice());
}
