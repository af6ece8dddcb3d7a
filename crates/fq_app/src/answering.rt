//! The program, apart from where its arguments and files come from and where its texts go.

ghost use Rattle.std.specs.Prelude.{◌≡◌, ◌≢◌, ◌⊎◌, Some, None, [], IsSome, map};
ghost use Rattle.fq_app_words.specs.Requests.{Asking, asking_of};
ghost use Rattle.fq_app_files.specs.Judging.{wrong_with};
ghost use Rattle.fq_app_words.specs.Words.{AskedFor, words_fault};
ghost use Rattle.fq_app.specs.Answers.{device_of, TookText, TookPart, TookLines, TookReportLine, LacksMemory, LacksPrint, Refuses, Tells, IsCall};
ghost use Rattle.fq_app.specs.Calls.{ArgumentsAnswered, ExampleAnswered, PrintsByStatus, RequestAnswered, StaysSound};
ghost use Rattle.fq_app_files.specs.Faults.{outcome_status};
ghost use Rattle.fq_app_reasons.specs.Lines.{ending_line};
ghost use Rattle.fq_pair.specs.Summaries.{summary_of};
ghost use Rattle.clap.specs.Words.{kind_of};
ghost use Rattle.clap.specs.declared.error.kind.ErrorKind.TheVariants.{DisplayHelp, DisplayVersion, OutOfMemory};

use crate::example::example;
use crate::example_failed::ExampleFailed;
use crate::refusal_line::{refusal_line, refusal_status};
use crate::telling::{cannot_print, cannot_report, lacks_report, out_of_memory, tell_account};
use crate::trimming::{Completed, trim_files};
use crate::usage::usage_lines;
use clap::Error;
use clap::error::ErrorKind;
use fq_app_files::{EndingSeen, Refusal, Reported};
use fq_app_words::{Asked, Request, read_words};
use fq_files::Files;
use fq_text::{MemoryRefused, Outlet, Seen, send};
use std::alloc::{AllocError, Global};
use std::sync::Wait;
use std::thread::Threads;

/// Runs the program on its arguments, the first of which is the program's name, and returns the
/// exit status.
///
/// `PE [options] F R FP FU RP RU STEPS..` trims the pairs of the files F and R by these steps.
/// Pairs in which both mates survive go to FP and RP; a mate that survives alone goes to FU or RU.
/// If the run reaches the end of the inputs or a fault in them, the summary goes to `out`, and the
/// report, if one is asked for, to its file. Each refusal and each fault sends one line to `err`;
/// whether that succeeds changes nothing else.
///
/// `IL [options] I FP FU RP RU STEPS..` does so with the pairs of one interleaved file I, in which
/// each forward record comes before its reverse mate.
///
/// `EXAMPLE` prints what becomes of two built-in pairs under the step `LEADING:3`: the four
/// outputs, the trim log and the summary, each below a label.
///
/// The statuses are 0 for success, help and the version, 1 for an invalid command line, and 2 for
/// an invalid encoding, step, setting or file name. 3 is for a fault in the input, 4 for a refused
/// file, a failed device or an endless input, 5 for refused memory, and 6 for failed threads.
pub fn program<'a, R: Threads + Wait + Copy + Send + 'static, T: Files, O: Outlet, E: Outlet>(
    alloc: Global,
    rt: &R,
    words: &'a [&'a str],
    files: &mut T,
    out: &mut O,
    err: &mut E,
) -> u8
    requires out { (O.state out.old).failures ≡ 0 }
    requires err { (E.state err.old).failures ≡ 0 }

    // Arguments that parse as `PE` or `IL` are carried out. A wrong request is refused before a
    // file is touched.
    ensures request { (a : Asking) → AskedFor (map (λ word. word.now) words.entry.now) (Some a)
        → RequestAnswered a (T.state files.old) (T.state files.new)
        (device_of O.state out.old out.new) (device_of E.state err.old err.new) result }
    ensures wrong { (a : Asking) → AskedFor (map (λ word. word.now) words.entry.now) (Some a)
        → IsSome (wrong_with a) → files.new ≡ files.old }

    // Other arguments touch no file: `EXAMPLE`, and those that don't parse. Status 1 comes only for
    // the latter, and nothing goes to `out` then.
    ensures example { AskedFor (map (λ word. word.now) words.entry.now) None
        → (files.new ≡ files.old) × ExampleAnswered
        (device_of O.state out.old out.new) (device_of E.state err.old err.new) result }
    ensures refused { words_fault (map (λ word. word.now) words.entry.now) ≢ []
        → (files.new ≡ files.old)
        × ArgumentsAnswered (words_fault (map (λ word. word.now) words.entry.now))
        (device_of O.state out.old out.new) (device_of E.state err.old err.new) result }
    ensures usage_only { result ≡ 1 → (words_fault (map (λ word. word.now) words.entry.now) ≢ [])
        × (out.new ≡ out.old) }
    ensures usage_lines { result ≡ 1 → TookLines (device_of E.state err.old err.new) }

    ensures sound { StaysSound (T.state files.old) (T.state files.new) result }
    ensures prints { PrintsByStatus O.state E.state out.old out.new err.old err.new result }
{
    match read_words(alloc, words) {
        Ok(Asked::Example) => print_example(alloc, rt, out, err),
        Ok(Asked::Pairs(request)) => trim_pairs(alloc, rt, &request, files, out, err),
        Err(error) => refuse_words(alloc, &error, words, out, err),
    }
}

// Trims the files, and reports how that ended.
fn trim_pairs<R: Threads + Wait + Copy + Send + 'static, T: Files, O: Outlet, E: Outlet>(
    alloc: Global,
    rt: &R,
    request: &Request<'_>,
    files: &mut T,
    out: &mut O,
    err: &mut E,
) -> u8
    requires out { (O.state out.old).failures ≡ 0 }
    requires err { (E.state err.old).failures ≡ 0 }
    ensures request { RequestAnswered (asking_of request.now) (T.state files.old)
        (T.state files.new) (device_of O.state out.old out.new)
        (device_of E.state err.old err.new) result }
    ensures wrong { IsSome (wrong_with (asking_of request.now)) → files.new ≡ files.old }
    ensures sound { StaysSound (T.state files.old) (T.state files.new) result }
    ensures prints { PrintsByStatus O.state E.state out.old out.new err.old err.new result }
{
    match trim_files(alloc, rt, request, files) {
        Ok(completed) => tell(alloc, request, &completed, out, err),
        Err(refusal) => refuse(alloc, request, refusal, err),
    }
}

// Reports how a run ended, or that its report was not written. Returns the exit status.
fn tell<O: Outlet, E: Outlet>(
    alloc: Global,
    request: &Request<'_>,
    completed: &Completed,
    out: &mut O,
    err: &mut E,
) -> u8
    requires out { (O.state out.old).failures ≡ 0 }
    requires err { (E.state err.old).failures ≡ 0 }
    ensures whole { (result ≡ 0) ⊎ (result ≡ 3)
        → outcome_status completed.now.account.outcome ≡ result }
    ensures reported { (result ≡ 0) ⊎ (result ≡ 3)
        → (completed.now.reported ≡ Reported.NotDue) ⊎ (completed.now.reported ≡ Reported.Written) }
    ensures printed { (result ≡ 0) ⊎ (result ≡ 3)
        → TookPart (device_of O.state out.old out.new) (summary_of completed.now.account.counts) }
    ensures told { (result ≡ 0) ⊎ (result ≡ 3) → TookText (device_of E.state err.old err.new)
        (ending_line (asking_of request.now) completed.now.seen completed.now.account.outcome) }
    ensures line { result ≢ 0 → Tells (asking_of request.now) completed.now.seen
        completed.now.account.outcome completed.now.reported completed.now.report_error
        (device_of O.state out.old out.new) (device_of E.state err.old err.new) result }
    ensures unreported { completed.now.reported ≡ Reported.Failed
        → TookReportLine (asking_of request.now)
        completed.now.report_error (device_of E.state err.old err.new) }
    ensures prints { PrintsByStatus O.state E.state out.old out.new err.old err.new result }
    ensures known { (result ≢ 1) × (result ≢ 2) }
{
    match completed.reported {
        Reported::NotDue | Reported::Written => {
            tell_account(
                alloc,
                Some(request),
                &completed.seen,
                &completed.account,
                out,
                err,
            )
        }
        Reported::Failed => cannot_report(alloc, request, completed.report_error, err),
        Reported::OutOfMemory(refused) => lacks_report(request, err, refused),
    }
}

// Reports why nothing was trimmed. Returns the exit status.
fn refuse<E: Outlet>(alloc: Global, request: &Request<'_>, refusal: Refusal, err: &mut E) -> u8
    requires { (E.state err.old).failures ≡ 0 }
    ensures { Refuses (asking_of request.now) refusal (device_of E.state err.old err.new) result }
{
    match refusal_line(alloc, request, refusal) {
        Ok(line) => {
            // A failed write to `err` has nowhere to be reported.
            let _ = send(err, line.as_bytes());
            refusal_status(refusal)
        }
        Err(e) => out_of_memory(err, MemoryRefused::from(e)),
    }
}

// Prints the example. Returns the exit status.
fn print_example<R: Threads + Wait + Copy + Send + 'static, O: Outlet, E: Outlet>(
    alloc: Global,
    rt: &R,
    out: &mut O,
    err: &mut E,
) -> u8
    requires out { (O.state out.old).failures ≡ 0 }
    requires err { (E.state err.old).failures ≡ 0 }
    ensures shown { ExampleAnswered
        (device_of O.state out.old out.new) (device_of E.state err.old err.new) result }
    ensures prints { PrintsByStatus O.state E.state out.old out.new err.old err.new result }
{
    match example(alloc, rt) {
        Ok(text) => match send(out, &text) {
            Ok(()) => 0,
            Err(_) => cannot_print(err),
        },
        Err(ExampleFailed::Unrun(ran)) => {
            let seen = EndingSeen::of_device(Seen::NOTHING);
            tell_account(alloc, None, &seen, &ran, out, err)
        }
        Err(ExampleFailed::Memory(refused)) => out_of_memory(err, refused),
    }
}

// Prints the help or the version, or what is wrong with the arguments. Returns the exit status.
fn refuse_words<O: Outlet, E: Outlet>(
    alloc: Global,
    error: &Error,
    words: &[&str],
    out: &mut O,
    err: &mut E,
) -> u8
    requires out { (O.state out.old).failures ≡ 0 }
    requires err { (E.state err.old).failures ≡ 0 }
    ensures status { (result ≡ 0) ⊎ ((result ≡ 1) ⊎ ((result ≡ 4) ⊎ (result ≡ 5))) }
    ensures no_memory { kind_of error.now ≡ OutOfMemory → result ≡ 5 }
    ensures usage { kind_of error.now ≢ DisplayHelp
        → kind_of error.now ≢ DisplayVersion → (result ≡ 1) ⊎ (result ≡ 5) }
    ensures called { IsCall (kind_of error.now) → result ≢ 1 }
    ensures usage_only { result ≡ 1 → (out.new ≡ out.old) × (kind_of error.now ≢ OutOfMemory) }
    ensures help { result ≡ 0 → TookLines (device_of O.state out.old out.new) }
    ensures usage_lines { result ≡ 1 → TookLines (device_of E.state err.old err.new) }
    ensures unprinted { result ≡ 4 → LacksPrint (device_of O.state out.old out.new)
        (device_of E.state err.old err.new) result }
    ensures once { result ≡ 4 → (O.state out.new).failures ≡ 1 }
    ensures unread { result ≡ 5 → LacksMemory (device_of E.state err.old err.new) result }
    ensures prints { PrintsByStatus O.state E.state out.old out.new err.old err.new result }
{
    if error.kind() == ErrorKind::OutOfMemory {
        // The kind stands for the error of std.
        return out_of_memory(err, MemoryRefused::from(AllocError));
    }
    let text = match usage_lines(alloc, error, words) {
        Ok(text) => text,
        Err(e) => return out_of_memory(err, MemoryRefused::from(e)),
    };
    if error.use_stderr() {
        // A failed write to `err` has nowhere to be reported.
        let _ = send(err, text.as_bytes());
        return 1;
    }
    match send(out, text.as_bytes()) {
        Ok(()) => 0,
        Err(_) => cannot_print(err),
    }
}
