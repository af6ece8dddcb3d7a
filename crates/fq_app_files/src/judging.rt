//! Checks a request before a file is opened.

ghost use Rattle.std.specs.Prelude.{◌≡◌, Some, None, Ok, IfOk, IfErr};
ghost use Rattle.fq_app_words.specs.Requests.{asking_of};
ghost use Rattle.fq_app_files.specs.Judging.{settings_of, wrong_with};

use crate::refusal::Refusal;
use fq_app_words::{Request, report_is_input, same_name};
use fq_run_core::{CALL_LIMIT, Settings};
use fq_text::Encoding;
use fq_trim::Steps;

/// Returns the settings of the run, or the first thing that is wrong with the request.
pub fn judge(request: &Request<'_>) -> Result<Settings, Refusal>
    ensures settings { IfOk result (λ settings. settings_of (asking_of request.now) ≡ Ok settings) }
    ensures right { IfOk result (λ settings. wrong_with (asking_of request.now) ≡ None) }
    ensures wrong { IfErr result (λ why. wrong_with (asking_of request.now) ≡ Some why) }
{
    let settings = settings_of(request)?;
    if let Some(out) = same_name(request) {
        return Err(Refusal::SameName(out));
    }
    if report_is_input(request) {
        return Err(Refusal::SameReport);
    }
    Ok(settings)
}

// Returns the settings of the run, or the first fault in the order encoding, steps, numbers.
fn settings_of(request: &Request<'_>) -> Result<Settings, Refusal>
    ensures { result ≡ settings_of (asking_of request.now) }
{
    let encoding = Encoding::of_name(request.encoding).ok_or(Refusal::Encoding)?;
    let steps = Steps::parse(&request.steps).map_err(|fault| Refusal::Step(fault))?;
    let settings = Settings::new(
        encoding,
        steps,
        request.check_names,
        request.threads,
        request.block,
        request.depth,
        request.chunk,
        CALL_LIMIT,
        CALL_LIMIT,
    )
    .map_err(|bad| Refusal::Setting(bad))?;
    Ok(match request.report {
        Some(_) => settings.with_tally(),
        None => settings,
    })
}
