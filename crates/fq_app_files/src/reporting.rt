//! Writes the report of a run. Its file is made after all outputs, and is written once, at the end.

ghost use Rattle.std.specs.Prelude.{◌≡◌, ℕ, List, Some, None, [], option_map, IfOk, OnOk, OnErr, IfErr};
ghost use Rattle.std.specs.String.{string_bytes};
ghost use Rattle.fq_files.specs.States.{OnlyStores, OnlyWrites, StillHeld};
ghost use Rattle.fq_text.specs.Written.{line};
ghost use Rattle.fq_report.specs.Reports.{text_of};
ghost use Rattle.fq_app_words.specs.Requests.{asking_of};
ghost use Rattle.fq_app_files.specs.Reporting.{run_facts, IsDue, IsReportOpen, IsReportWritten, IsSent, IsSentInPart, KeepsOutputs};
ghost use Rattle.fq_app_files.specs.Trimming.{filed};
ghost use Rattle.fq_app_files.specs.Opening.{IsReportMade, IsReportRefused};
ghost use Rattle.fq_app_files.specs.Completing.{IsReportStored};
ghost use Rattle.fq_app_files.specs.Seeing.{IsReportError};

use crate::account::Account;
use crate::outcome_line::{fault_line, status_of};
use crate::refusal::{Refusal, report_refused};
use fq_app_words::{Request, VERSION};
use fq_files::Files;
use fq_report::{Report, report_text};
use fq_report_pairs::Tally;
use fq_text::{Encoding, MemoryRefused, OutOfMemory, Outlet, OutletFailed, SystemError, send};
use std::alloc::Global;

/// What became of the report of a run.
#[derive(Clone, Copy, Debug, PartialEq, Eq)]
pub enum Reported {
    /// No report was due: none was asked for, or the run did not reach the end of its input or a
    /// fault in it.
    NotDue,
    /// The report was written.
    Written,
    /// A write of the report failed, or its flush.
    Failed,
    /// Memory for the report was refused.
    OutOfMemory(MemoryRefused),
}

/// Makes the file of the report, empty, if a report was asked for.
pub(crate) fn report_target<T: Files>(
    request: &Request<'_>,
    files: &mut T,
) -> Result<Option<T::Target>, Refusal>
    ensures made { IfOk result (λ target. IsReportMade
        (filed (T.state files.old) (asking_of request.now))
        (T.state files.new) (option_map T.Target.state target)) }
    ensures refused { IfErr result (λ why.
        IsReportRefused (filed (T.state files.old) (asking_of request.now))
        why (T.state files.old) (T.state files.new)) }
    ensures held { StillHeld (T.state files.old) (T.state files.new) }
    ensures others { KeepsOutputs (filed (T.state files.old) (asking_of request.now))
        (T.state files.old) (T.state files.new) }
    ensures kept { OnlyWrites (T.state files.old) (T.state files.new) }
{
    let Some(name) = request.report else {
        return Ok(None);
    };
    match files.target(name) {
        Ok(target) => Ok(Some(target)),
        Err(fault) => Err(report_refused(fault)),
    }
}

/// Writes the report if one was asked for and the run ended whole, and hands its outlet back.
/// Returns what became of the report, and why its outlet failed if it did.
pub fn store_report<T: Files>(
    alloc: Global,
    request: &Request<'_>,
    files: &mut T,
    encoding: Encoding,
    account: &Account,
    target: Option<T::Target>,
) -> (Reported, Option<SystemError>)
    requires { IsReportOpen (filed (T.state files.old) (asking_of request.now))
        (T.state files.old) (option_map T.Target.state target) }
    ensures stored { IsReportStored (asking_of request.now)
        (filed (T.state files.old) (asking_of request.now)) encoding account.now
        (option_map T.Target.state target) result.0 (T.state files.old) (T.state files.new) }
    ensures says { IsReportError (filed (T.state files.old) (asking_of request.now))
        (T.state files.old).may_say result.0 result.1 }
    ensures kept { OnlyStores (T.state files.old) (T.state files.new) }
{
    match (request.report, target) {
        (Some(name), Some(mut target)) => {
            let reported = write_report(alloc, request, encoding, account, &mut target);
            let error = files.done(name, target);
            (reported, error)
        }
        _ => (Reported::NotDue, None),
    }
}

// Writes the report if the run ended whole.
fn write_report<O: Outlet>(
    alloc: Global,
    request: &Request<'_>,
    encoding: Encoding,
    account: &Account,
    target: &mut O,
) -> Reported
    requires { (O.state target.old).failures ≡ 0 }
    ensures { IsReportWritten (asking_of request.now)
        encoding account.now result (O.state target.old) (O.state target.new) }
{
    let status = status_of(account.outcome);
    if status != 0 && status != 3 {
        return Reported::NotDue;
    }
    // Never `None` here: a run that ended whole has a tally if a report was asked for.
    let Some(tally) = &account.tally else {
        return Reported::OutOfMemory(MemoryRefused::from(OutOfMemory));
    };
    let text = match run_text(alloc, request, encoding, account, tally) {
        Ok(text) => text,
        Err(e) => return Reported::OutOfMemory(MemoryRefused::from(e)),
    };
    match put_text(target, text.as_bytes()) {
        Ok(()) => Reported::Written,
        Err(OutletFailed) => Reported::Failed,
    }
}

// Sends a text to the outlet and flushes the outlet.
fn put_text<O: Outlet>(target: &mut O, text: &[u8]) -> Result<(), OutletFailed>
    requires { (O.state target.old).failures ≡ 0 }
    ensures ok { OnOk result (IsSent text.now (O.state target.old) (O.state target.new)) }
    ensures err { OnErr result (IsSentInPart text.now (O.state target.old) (O.state target.new)) }
{
    if send(target, text).is_err() {
        return Err(OutletFailed);
    }
    target.flush()
}

// Returns the text of the report of a run that ended whole.
fn run_text<'a>(
    alloc: Global,
    request: &'a Request<'a>,
    encoding: Encoding,
    account: &Account,
    tally: &'a Tally,
) -> Result<String, OutOfMemory>
    requires { IsDue account.now.outcome }
    ensures { IfOk result (λ text. string_bytes text
        ≡ text_of (run_facts (asking_of request.now)
        encoding account.now.outcome account.now.counts tally.now)) }
{
    let mut line = String::new(alloc);
    fault_line(alloc, &mut line, account.outcome)?;
    let fault = without_end(line.as_str());
    report_text(
        alloc,
        &Report {
            program: "fq_prog",
            version: VERSION,
            inputs: request.inputs,
            forward_paired: request.forward_paired,
            forward_unpaired: request.forward_unpaired,
            reverse_paired: request.reverse_paired,
            reverse_unpaired: request.reverse_unpaired,
            log: request.log,
            encoding,
            check_names: request.check_names,
            steps: &request.steps,
            fault,
            counts: account.counts,
            tally,
        },
    )
}

/// Removes the line end. Returns `None` if there is no line.
pub fn without_end(text: &str) -> Option<&str>
    ensures some { (words : List ℕ) → text.now ≡ line words
        → option_map (λ stripped. stripped.now) result ≡ Some words }
    ensures none { text.now ≡ [] → result ≡ None }
{
    text.strip_suffix('\n')
}
