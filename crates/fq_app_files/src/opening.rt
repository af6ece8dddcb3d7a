//! Opens the files of a run.

ghost use Rattle.std.specs.Prelude.{◌≡◌, ℕ, List, false, Some, None, IsTrue, IsErr, IfSome, IfOk, IfErr};
ghost use Rattle.std.specs.Option.{option_map};
ghost use Rattle.fq_files.specs.States.{IsSound};
ghost use Rattle.fq_run_core.specs.Devices.{outlet_states};
ghost use Rattle.fq_app_words.specs.Requests.{asking_of};
ghost use Rattle.fq_app_files.specs.Trimming.{filed, opened_of};
ghost use Rattle.fq_app_files.specs.Refusals.{IsRefusable};
ghost use Rattle.fq_app_files.specs.Opening.{AreApart, AreOpened, IsUnopened, SparesInputs};

use crate::feeds::{Feeds, inputs};
use crate::outputs::outputs;
use crate::refusal::Refusal;
use crate::reporting::report_target;
use fq_app_words::Request;
use fq_files::{Cause, Files};
use fq_pair::Out;
use fq_run_core::Outlets;

/// The opened files of a run: the inputs, the outputs, and the report if one was asked for.
#[derive(Drop)]
pub struct Devices<F, O> {
    pub feeds: Feeds<F>,
    pub outlets: Outlets<O>,
    pub report: Option<O>,
}

/// Opens the inputs, then makes the outputs, and last the report. An output or report that leads to
/// an input is refused before any is made.
pub fn open<T: Files>(
    request: &Request<'_>,
    files: &mut T,
) -> Result<Devices<T::In, T::Target>, Refusal>
    ensures opened { IfOk result (λ devices. AreOpened
        (filed (T.state files.old) (asking_of request.now))
        (T.state files.old) (T.state files.new) (opened_of T.In.state devices.feeds)
        (outlet_states T.Target.state devices.outlets) (option_map T.Target.state devices.report)) }
    ensures unopened { IfErr result (λ why.
        IsUnopened (filed (T.state files.old) (asking_of request.now))
        why (T.state files.old) (T.state files.new)) }
    ensures spared { SparesInputs (filed (T.state files.old) (asking_of request.now))
        (IsErr result) (T.state files.old) (T.state files.new) }
    ensures sound { IsSound (T.state files.old) (T.state files.new) }
{
    let feeds = inputs(request, files)?;
    if let Some(out) = input_among_outputs(request, files) {
        return Err(Refusal::Target(out, Cause::Input));
    }
    if input_as_report(request, files) {
        return Err(Refusal::Report(Cause::Input));
    }
    let outlets = outputs(request, files)?;
    let report = report_target(request, files)?;
    Ok(Devices {
        feeds,
        outlets,
        report,
    })
}

// Returns the first output that leads to an input.
fn input_among_outputs<T: Files>(request: &Request<'_>, files: &T) -> Option<Out>
    ensures none { result ≡ None
        → AreApart (filed (T.state files.now) (asking_of request.now)) (T.state files.now) }
    ensures refused { IfSome result (λ out. IsRefusable
        (filed (T.state files.now) (asking_of request.now))
        (λ name cause. IsTrue ((T.state files.now).is_open name))
        (Refusal.Target out Cause.Input)) }
{
    if files.leads_to_input(request.forward_paired) {
        return Some(Out::ForwardPaired);
    }
    if files.leads_to_input(request.forward_unpaired) {
        return Some(Out::ForwardUnpaired);
    }
    if files.leads_to_input(request.reverse_paired) {
        return Some(Out::ReversePaired);
    }
    if files.leads_to_input(request.reverse_unpaired) {
        return Some(Out::ReverseUnpaired);
    }
    match request.log {
        Some(log) if files.leads_to_input(log) => Some(Out::Log),
        _ => None,
    }
}

// Whether the report leads to an input.
fn input_as_report<T: Files>(request: &Request<'_>, files: &T) -> bool
    ensures none { result ≡ false → (name : List ℕ)
        → (filed (T.state files.now) (asking_of request.now)).report ≡ Some name
        → IsTrue ((T.state files.now).tells name) → (T.state files.now).is_open name ≡ false }
    ensures refused { IsTrue result
        → IsRefusable (filed (T.state files.now) (asking_of request.now))
        (λ name cause. IsTrue ((T.state files.now).is_open name)) (Refusal.Report Cause.Input) }
{
    request
        .report
        .is_some_and(|report| files.leads_to_input(report))
}
