//! `do: call` calls the program on files in memory.
//!
//! `call: WORD ..` gives the arguments, `file NAME: TEXT` a file that exists, and
//! `trouble: NAME WHAT` what goes wrong with a file: a number (that read or write of the file
//! fails), `refused`, `twice` (it is already an input), `taken` (it is already an output), `memory`
//! (the file is refused because memory was) or `input` (the file leads to an input). The system's
//! error of a file that is refused or fails is `error` (0: none). With `print fails at: N`, write N
//! to standard output fails.
//!
//! Answers: `status`, `out`, `err`, `printed` (which of the two were written to), and each file by
//! its name.

ghost use Rattle.std.specs.Prelude.{◌≡◌, true, false, None};
ghost use Rattle.fq_files.specs.States.{TellsWhy};

use anyhow::{Context, Result};
use fq_app::program;
use fq_files::{Cause, FileFault, Files, MemoryFiles};
use fq_test_worked::{Answers, Given};
use fq_text::{Feed, Look, OutOfMemory, Outlet, ScriptFeed, ScriptOutlet, Seen, SystemError};
use std::alloc::Global;
use std::sync::Wait;
use std::thread::Threads;

/// The names of files in rows.
pub const NAMES: [&str; 9] = ["f", "r", "i", "fp", "fu", "rp", "ru", "log", "report"];

// What goes wrong with a file.
#[derive(Clone, Copy)]
enum Trouble {
    Nothing,
    // The file is refused.
    Refused(FileFault),
    // The read or write of this number fails.
    Call(u64),
    // The file leads to an input.
    Input,
}

// Files in memory; one of them may cause trouble.
#[derive(Drop)]
struct TroubledFiles<'a> {
    held: MemoryFiles,
    name: &'a str,
    trouble: Trouble,
    // The system's error of the file that fails.
    error: SystemError,
    alloc: Global,
}

impl TroubledFiles<'_> {
    // Why a device failed that has failed so often.
    fn error_of(&self, failures: u64) -> Option<SystemError>
        ensures { TellsWhy failures result }
    {
        if failures > 0 { Some(self.error) } else { None }
    }

    // Returns the number of the call of this file that fails, or 0; or why the file is refused.
    fn failing_call(&self, name: &str) -> std::result::Result<u64, FileFault> {
        if name != self.name {
            return Ok(0);
        }
        match self.trouble {
            Trouble::Refused(fault) => Err(fault),
            Trouble::Call(call) => Ok(call),
            Trouble::Input | Trouble::Nothing => Ok(0),
        }
    }
}

impl Files for TroubledFiles<'_> {
    type In = ScriptFeed;

    type Target = ScriptOutlet;

    ghost state = { λ _. record {
      leads = λ name. name;
      tells = λ _. false;
      looks = false;
      bytes = λ _. None;
      refuses = λ _ _. true;
      may_say = λ _ _. true;
      writes = λ _ _. true;
      is_open = λ _. true;
      has_failed = λ _. true;
      is_unflushed = λ _. true;
    } };

    fn source(&mut self, name: &str) -> std::result::Result<ScriptFeed, FileFault> {
        let call = self.failing_call(name)?;
        match self.held.get(name) {
            Some(bytes) => Ok(ScriptFeed::new(self.alloc, bytes, 1000, call)?),
            None => Err(FileFault::Refused(Cause::System(self.error))),
        }
    }

    fn source_done(&mut self, name: &str, feed: ScriptFeed) -> Seen {
        Seen {
            error: self.error_of(feed.failures()),
            look: Look::of(self.held.get(name).unwrap_or(b"")),
        }
    }

    fn leads_to_input(&self, name: &str) -> bool {
        name == self.name && matches!(self.trouble, Trouble::Input)
    }

    fn target(&mut self, name: &str) -> std::result::Result<ScriptOutlet, FileFault> {
        let call = self.failing_call(name)?;
        self.held.put(name, &[])?;
        Ok(ScriptOutlet::new(self.alloc, 1000, call, false))
    }

    fn done(&mut self, name: &str, target: ScriptOutlet) -> Option<SystemError> {
        // If memory is refused, the file stays empty and the row fails.
        let _ = self.held.put(name, target.bytes());
        self.error_of(target.failures())
    }
}

// The files of a row.
fn files_of(alloc: Global, given: &Given<'_>) -> Result<MemoryFiles> {
    let mut files = MemoryFiles::new(alloc);
    for (key, text) in given.lines() {
        if let Some(name) = key.strip_prefix("file ") {
            files.put(name, text)?;
        }
    }
    Ok(files)
}

// The file that causes trouble, and the kind of trouble.
fn trouble_of<'a>(given: &'a Given<'_>, error: SystemError) -> Result<(&'a str, Trouble)> {
    let Some((name, what)) = given.text("trouble")?.split_once(' ') else {
        return Ok(("", Trouble::Nothing));
    };
    let trouble = match what {
        "refused" => Trouble::Refused(FileFault::Refused(Cause::System(error))),
        "twice" => Trouble::Refused(FileFault::Refused(Cause::Input)),
        "taken" => Trouble::Refused(FileFault::Refused(Cause::Output)),
        "memory" => Trouble::Refused(FileFault::from(OutOfMemory)),
        "input" => Trouble::Input,
        _ => Trouble::Call(what.parse::<u64>().context("no such trouble")?),
    };
    Ok((name, trouble))
}

// Calls the program on files.
fn call<R: Threads + Wait + Copy + Send + 'static, T: Files>(
    rt: &R,
    alloc: Global,
    words: &[&str],
    files: &mut T,
    out: &mut ScriptOutlet,
    err: &mut ScriptOutlet,
) -> u8
    requires out { out.old.failures ≡ 0 }
    requires err { err.old.failures ≡ 0 }
{
    program(alloc, rt, words, files, out, err)
}

fn outlet(alloc: Global, fail_at: u64) -> ScriptOutlet
    ensures { result.failures ≡ 0 }
{
    ScriptOutlet::new(alloc, 1000, fail_at, false)
}

/// Calls the program on files, and puts what it printed and its status.
pub fn put_call<R: Threads + Wait + Copy + Send + 'static, T: Files>(
    rt: &R,
    alloc: Global,
    words: &[&str],
    files: &mut T,
    print_fails_at: u64,
    answers: &mut Answers,
) -> Result<()> {
    let mut out = outlet(alloc, print_fails_at);
    let mut err = outlet(alloc, 0);
    let status = call(rt, alloc, words, files, &mut out, &mut err);
    answers.put("status", format!(in alloc; "{status}")?.as_bytes())?;
    put_printed(answers, out.bytes(), err.bytes())
}

fn put_printed(answers: &mut Answers, out: &[u8], err: &[u8]) -> Result<()> {
    let printed: &str = match (out.is_empty(), err.is_empty()) {
        (true, true) => "nothing",
        (false, true) => "out",
        (true, false) => "err",
        (false, false) => "out and err",
    };
    answers.put("printed", printed.as_bytes())?;
    answers.put("out", out)?;
    answers.put("err", err)?;
    Ok(())
}

// Puts what the files hold.
fn put_files(files: &MemoryFiles, answers: &mut Answers) -> Result<()> {
    for name in NAMES {
        answers.put(name, files.get(name).unwrap_or(b"no file"))?;
    }
    Ok(())
}

// The keys that a `do: call` row may have.
const CALL_KEYS: &[&str] = &[
    "call",
    "trouble",
    "error",
    "print fails at",
    "file f",
    "file r",
    "file i",
];

/// Puts the answers to a `do: call` row.
pub fn answer<R: Threads + Wait + Copy + Send + 'static>(
    rt: &R,
    alloc: Global,
    given: &Given<'_>,
    answers: &mut Answers,
) -> Result<()> {
    given.allow(CALL_KEYS)?;
    let words: Vec<&str> = given.text("call")?.split(' ').collect(alloc)?;
    let error = SystemError {
        number: u32::try_from(given.number("error", 0)?)?,
    };
    let (name, trouble) = trouble_of(given, error)?;
    let mut files = TroubledFiles {
        held: files_of(alloc, given)?,
        name,
        trouble,
        error,
        alloc,
    };
    let print_fails_at = given.number("print fails at", 0)?;
    // If no file causes trouble, the program gets plain `MemoryFiles`.
    match files.trouble {
        Trouble::Nothing => put_call(rt, alloc, &words, &mut files.held, print_fails_at, answers)?,
        _ => put_call(rt, alloc, &words, &mut files, print_fails_at, answers)?,
    }
    put_files(&files.held, answers)
}
