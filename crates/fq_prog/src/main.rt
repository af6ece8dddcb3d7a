//! Trims pairs of reads: `PE` for two files, `IL` for an interleaved one, and `EXAMPLE`, which
//! shows what becomes of two built-in pairs.
#![tactic(auto)]

ghost use Rattle.std.specs.Prelude.{◌≡◌, ◌≢◌, Some, None, [], IsSome, map, IfOk};
ghost use Rattle.std.specs.Process.{exit_status};
ghost use Rattle.std.specs.String.{string_bytes};
ghost use Rattle.fq_app_words.specs.Requests.{Asking};
ghost use Rattle.fq_app_words.specs.Words.{AskedFor, words_fault};
ghost use Rattle.fq_app_files.specs.Judging.{wrong_with};
ghost use Rattle.fq_app.specs.Answers.{device_of, TookLines};
ghost use Rattle.fq_app.specs.Calls.{ArgumentsAnswered, ExampleAnswered, PrintsByStatus, RequestAnswered, StaysSound};

use fq_app::{out_of_memory, program};
use fq_files::{DiskFiles, Files, SystemDisk};
use fq_text::{FromWrite, MemoryRefused, Outlet, send};
use std::alloc::{AllocError, Global};
use std::env::Env;
use std::fs::File;
use std::io::{Printer, Stderr};
use std::process::ExitCode;
use std::sync::Wait;
use std::thread::Threads;
use std::{env, io, rt, str};

// Linux passes no argument that is longer than 128 KiB.
const LONGEST_WORD: usize = 1 << 17;

// The last lines of an error about the arguments, as `clap` prints them.
const MORE: &str = "\nFor more information, try '--help'.\n";

// What standard output is written to, and what standard error is. One type has the one and another
// the other, so no call of `run` can exchange them.
trait StandardOutput {}

trait StandardError {}

impl StandardOutput for FromWrite<Printer<'_, HostRuntime>> {}

impl StandardError for FromWrite<Printer<'_, Stderr>> {}

fn main(rt: HostRuntime) -> ExitCode {
    let errors = rt.stderr();
    let mut out = FromWrite::new(io::writer(&rt));
    let mut err = FromWrite::new(io::writer(&errors));
    let mut files = DiskFiles::new(rt.alloc(), SystemDisk::new(&rt));
    // An output that is the same regular file as standard output or standard error is refused.
    if let Err(e) = keep_outlets(&mut files) {
        return ExitCode::from(out_of_memory(&mut err, MemoryRefused::from(e)));
    }
    match texts_of(&rt) {
        Ok(texts) => run(rt.alloc(), &rt, &texts, &mut files, &mut out, &mut err),
        Err(error) if error.kind() == io::ErrorKind::InvalidData => {
            ExitCode::from(refuse_bytes(&rt, &mut err))
        }
        // Otherwise the words could not be collected.
        Err(_) => ExitCode::from(out_of_memory(&mut err, MemoryRefused::from(AllocError))),
    }
}

// Runs the program on these arguments. The clauses are those of `program`, of any files and
// outlets: for the system's, whose bytes no proof knows, those on bytes would say nothing.
fn run<
    R: Threads + Wait + Copy + Send + 'static,
    T: Files,
    O: Outlet + StandardOutput,
    E: Outlet + StandardError,
>(alloc: Global, rt: &R, texts: &[String], files: &mut T, out: &mut O, err: &mut E) -> ExitCode
    requires out { (O.state out.old).failures ≡ 0 }
    requires err { (E.state err.old).failures ≡ 0 }
    ensures request { (a : Asking) → AskedFor (map string_bytes texts.now) (Some a)
        → RequestAnswered a (T.state files.old) (T.state files.new)
        (device_of O.state out.old out.new)
        (device_of E.state err.old err.new) (exit_status result) }
    ensures wrong { (a : Asking) → AskedFor (map string_bytes texts.now) (Some a)
        → IsSome (wrong_with a) → files.new ≡ files.old }
    ensures example { AskedFor (map string_bytes texts.now) None
        → (files.new ≡ files.old) × ExampleAnswered
        (device_of O.state out.old out.new)
        (device_of E.state err.old err.new) (exit_status result) }
    ensures refused { words_fault (map string_bytes texts.now) ≢ []
        → (files.new ≡ files.old) × ArgumentsAnswered (words_fault (map string_bytes texts.now))
        (device_of O.state out.old out.new)
        (device_of E.state err.old err.new) (exit_status result) }
    ensures usage_only { exit_status result ≡ 1 → (words_fault (map string_bytes texts.now) ≢ [])
        × (out.new ≡ out.old) }
    ensures usage_lines { exit_status result ≡ 1 → TookLines (device_of E.state err.old err.new) }
    ensures sound { StaysSound (T.state files.old) (T.state files.new) (exit_status result) }
    ensures prints { PrintsByStatus O.state E.state out.old out.new
        err.old err.new (exit_status result) }
{
    let words = match words_of(alloc, texts) {
        Ok(words) => words,
        Err(e) => return ExitCode::from(out_of_memory(err, MemoryRefused::from(e))),
    };
    ExitCode::from(program(alloc, rt, &words, files, out, err))
}

// Keeps the files of standard output and standard error from becoming outputs.
fn keep_outlets<R: rt::Files<File = File>>(
    files: &mut DiskFiles<SystemDisk<'_, R>>,
) -> Result<(), AllocError> {
    files.keep("/dev/stdout")?;
    files.keep("/dev/stderr")
}

// Returns the arguments of the command line. The first is the program's name.
fn texts_of(rt: &HostRuntime) -> io::Result<Vec<String>> {
    let args: Vec<String> = env::args(rt)?.collect(rt.alloc())?;
    Ok(args)
}

// Borrows the arguments as `&str`.
fn words_of<'a>(alloc: Global, texts: &'a [String]) -> Result<Vec<&'a str>, AllocError>
    ensures { IfOk result (λ words. map (λ word. word.now) words.items
        ≡ map string_bytes texts.now) }
{
    let mut words = Vec::with_capacity(alloc, texts.len())?;
    for text in texts {
        words.push(text.as_str())?;
    }
    Ok(words)
}

// Reports on `err` which argument is not UTF-8, counted from 1 after the program's name. Returns
// the exit status.
fn refuse_bytes<E: Outlet>(rt: &HostRuntime, err: &mut E) -> u8
    requires { (E.state err.old).failures ≡ 0 }
{
    let text = match bytes_line(rt) {
        Ok(text) => text,
        Err(e) => return out_of_memory(err, MemoryRefused::from(e)),
    };
    // A failed write to `err` has nowhere to be reported.
    let _ = send(err, text.as_bytes());
    1
}

fn bytes_line(rt: &HostRuntime) -> Result<String, AllocError> {
    let mut word = vec![in rt.alloc(); 0; LONGEST_WORD]?;
    for place in 0..usize::MAX {
        match rt.arg(place, &mut word) {
            Ok(n) if str::from_utf8(&word[..n]).is_err() => {
                return format!(in rt.alloc(); "error: word {place} is not UTF-8\n{MORE}");
            }
            Ok(_) => {}
            Err(_) => break,
        }
    }
    format!(in rt.alloc(); "error: a word is not UTF-8\n{MORE}")
}
