//! What the program reports at its end.

ghost use Rattle.std.specs.Prelude.{◌≡◌, ◌≢◌, ◌⊎◌, true, false, [], IfOk, OnErr};
ghost use Rattle.std.specs.Option.{option_map};
ghost use Rattle.std.specs.String.{string_bytes};
ghost use Rattle.fq_pair.specs.Summaries.{summary_of};
ghost use Rattle.fq_app.specs.Answers.{device_of, TookText, TookPart, TookReportLine, Reports, LacksMemory, print_line};
ghost use Rattle.fq_app.specs.Calls.{PrintsByStatus};
ghost use Rattle.fq_app_files.specs.Faults.{outcome_status};
ghost use Rattle.fq_app_words.specs.Requests.{asking_of};
ghost use Rattle.fq_app_reasons.specs.Lines.{line_for, report_memory_line};

use fq_app_files::{Account, EndingSeen, LANE_LINE, MEMORY_LINE, fault_line, status_of};
use fq_app_reasons::{REPORT_LINE, ending_line, lane_line, report_line, report_memory_line};
use fq_app_words::Request;
use fq_pair::{Counts, summary};
use fq_run::Outcome;
use fq_text::{MemoryRefused, OutOfMemory, Outlet, SystemError, send};
use std::alloc::Global;

/// Prints the summary to `out` if the run ended whole, and the line of a fault to `err`. The run is
/// that of a request, or that of the example. `seen` is what can be said of the outcome. Returns
/// the exit status.
pub(crate) fn tell_account<O: Outlet, E: Outlet>(
    alloc: Global,
    request: Option<&Request<'_>>,
    seen: &EndingSeen,
    account: &Account,
    out: &mut O,
    err: &mut E,
) -> u8
    requires out { (O.state out.old).failures ≡ 0 }
    requires err { (E.state err.old).failures ≡ 0 }

    // At the end of the inputs the summary was printed; at a fault in them, the summary or a part
    // of it.
    ensures whole { (result ≡ 0) ⊎ (result ≡ 3) → outcome_status account.now.outcome ≡ result }
    ensures printed { (result ≡ 0) ⊎ (result ≡ 3)
        → TookPart (device_of O.state out.old out.new) (summary_of account.now.counts) }
    ensures status { (result ≡ outcome_status account.now.outcome) ⊎ ((result ≡ 4) ⊎ (result ≡ 5)) }

    // The line of the outcome went to `err`.
    ensures told { (result ≡ 0) ⊎ (result ≡ 3)
        → TookText (device_of E.state err.old err.new)
        (line_for (option_map (λ r. asking_of r.now) request.entry) seen.now account.now.outcome) }
    ensures line { result ≢ 0 → Reports
        (line_for (option_map (λ r. asking_of r.now) request.entry) seen.now account.now.outcome)
        account.now.outcome
        (device_of O.state out.old out.new) (device_of E.state err.old err.new) result }
    ensures prints { PrintsByStatus O.state E.state out.old out.new err.old err.new result }
    ensures known { (result ≢ 1) × (result ≢ 2) }
{
    if matches!(account.outcome, Outcome::Lane) {
        // This line takes no memory, because `Reports` allows refused memory for every outcome
        // except this one.
        send_line(err, told_lane(request));
        return 6;
    }
    let line = match told_line(alloc, request, seen, account.outcome) {
        Ok(line) => line,
        Err(e) => return out_of_memory(err, MemoryRefused::from(e)),
    };
    let status = status_of(account.outcome);
    if status == 0 || status == 3 {
        let printed = match print_summary(alloc, &account.counts, out) {
            Ok(printed) => printed,
            Err(e) => return out_of_memory(err, MemoryRefused::from(e)),
        };
        if !printed && status == 0 {
            return cannot_print(err);
        }
    }
    send_line(err, line.as_str());
    status
}

// Sends a line to `err`. A failed write there has nowhere to be reported.
fn send_line<E: Outlet>(err: &mut E, line: &str)
    requires { (E.state err.old).failures ≡ 0 }
    ensures told { TookText (device_of E.state err.old err.new) line.now }
    ensures empty { line.now ≡ [] → err.new ≡ err.old }
{
    let _ = send(err, line.as_bytes());
}

// The line of a lane that is not confirmed, with the reason if the request asks for it. It takes no
// memory.
fn told_lane(request: Option<&Request<'_>>) -> &'static str
    ensures { (seen : EndingSeen) → result.now
        ≡ line_for (option_map (λ r. asking_of r.now) request.entry) seen Outcome.Lane }
{
    match request {
        Some(request) => lane_line(request),
        None => LANE_LINE,
    }
}

// The line of an outcome, with the reason if the request asks for it.
fn told_line(
    alloc: Global,
    request: Option<&Request<'_>>,
    seen: &EndingSeen,
    outcome: Outcome,
) -> Result<String, OutOfMemory>
    ensures { IfOk result (λ text. string_bytes text
        ≡ line_for (option_map (λ r. asking_of r.now) request.entry) seen.now outcome) }
{
    let Some(request) = request else {
        let mut line = String::new(alloc);
        fault_line(alloc, &mut line, outcome)?;
        return Ok(line);
    };
    ending_line(alloc, request, seen, outcome)
}

// Prints the summary. Returns whether `out` took all of it.
fn print_summary<O: Outlet>(
    alloc: Global,
    counts: &Counts,
    out: &mut O,
) -> Result<bool, OutOfMemory>
    requires { (O.state out.old).failures ≡ 0 }
    ensures printed { IfOk result (λ printed.
        TookPart (device_of O.state out.old out.new) (summary_of counts.now)) }
    ensures whole { result ≡ Ok true → (O.state out.new).failures ≡ 0 }
    ensures failed { result ≡ Ok false → (O.state out.new).failures ≡ 1 }
    ensures memory { OnErr result (out.new ≡ out.old) }
{
    let text = summary(alloc, counts)?;
    Ok(send(out, text.as_bytes()).is_ok())
}

/// Reports on `err`, by the line `out of memory`, that memory was refused, for which there must be
/// a witness. Returns the exit status, 5.
pub fn out_of_memory<E: Outlet>(err: &mut E, _refused: MemoryRefused) -> u8
    requires { (E.state err.old).failures ≡ 0 }
    ensures { LacksMemory (device_of E.state err.old err.new) result }
{
    send_line(err, MEMORY_LINE);
    5
}

/// Reports on `err` that memory for the report was refused, for which there must be a witness.
/// Returns the exit status, 5.
pub(crate) fn lacks_report<E: Outlet>(
    request: &Request<'_>,
    err: &mut E,
    _refused: MemoryRefused,
) -> u8
    requires { (E.state err.old).failures ≡ 0 }
    ensures status { result ≡ 5 }
    ensures told { TookText (device_of E.state err.old err.new)
        (report_memory_line (asking_of request.now)) }
{
    send_line(err, report_memory_line(request));
    5
}

/// Reports on `err` that the text for standard output was not printed. Returns the exit status, 4.
pub(crate) fn cannot_print<E: Outlet>(err: &mut E) -> u8
    requires { (E.state err.old).failures ≡ 0 }
    ensures status { result ≡ 4 }
    ensures told { TookText (device_of E.state err.old err.new) print_line }
{
    send_line(err, "cannot print\n");
    4
}

/// Reports on `err` that the report was not written, and why if the request asks for that. Returns
/// the exit status, 4.
pub(crate) fn cannot_report<E: Outlet>(
    alloc: Global,
    request: &Request<'_>,
    error: Option<SystemError>,
    err: &mut E,
) -> u8
    requires { (E.state err.old).failures ≡ 0 }
    ensures status { result ≡ 4 }
    ensures told { TookReportLine (asking_of request.now)
        error (device_of E.state err.old err.new) }
{
    match report_line(alloc, request, error) {
        Ok(text) => fail_with(err, text.as_str()),
        // Without memory the line has no reason.
        Err(_) => fail_with(err, REPORT_LINE),
    }
}

// Reports this line on `err`. Returns the exit status, 4.
fn fail_with<E: Outlet>(err: &mut E, text: &str) -> u8
    requires { (E.state err.old).failures ≡ 0 }
    ensures status { result ≡ 4 }
    ensures told { TookText (device_of E.state err.old err.new) text.now }
{
    send_line(err, text);
    4
}
