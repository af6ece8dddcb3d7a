//! What can be said of the outcome of a run.

ghost use Rattle.std.specs.Prelude.{◌≡◌};
ghost use Rattle.fq_app_files.specs.Seeing.{input_seen, error_of, device_seen, seen_when};
ghost use Rattle.fq_app_files.specs.Faults.{settled};

use crate::feeds::InputsSeen;
use crate::outcome_line::settled;
use fq_pair::{InputFault, Out, Side, UnmatchedNames};
use fq_run_core::{Outcome, Outlets};
use fq_text::{Look, Seen, SystemError};

/// What can be said of the outcome of a run.
#[derive(Drop)]
pub struct EndingSeen {
    /// Why the device failed that the outcome names.
    pub error: Option<SystemError>,
    /// What the first bytes of the input looked like that the outcome names.
    pub look: Look,
    /// The names of the mates at which the run ended, if they don't match.
    pub unmatched: Option<UnmatchedNames>,
}

impl EndingSeen {
    /// What a device can say, and no names.
    pub fn of_device(seen: Seen) -> EndingSeen
        ensures { result ≡ device_seen seen }
    {
        EndingSeen {
            error: seen.error,
            look: seen.look,
            unmatched: None,
        }
    }
}

/// What can be said of an outcome: by the device that it names, or by names that don't match.
pub fn seen_of(
    outcome: Outcome,
    unmatched: Option<UnmatchedNames>,
    inputs: &InputsSeen,
    outlets: &Outlets<Option<SystemError>>,
) -> EndingSeen
    ensures { result ≡ seen_when unmatched inputs.now outlets.now (settled outcome) }
{
    match settled(outcome) {
        Outcome::Write(out) => EndingSeen {
            error: error_of(outlets, out),
            look: Look::Unknown,
            unmatched: None,
        },
        Outcome::Read(side) | Outcome::Input(InputFault::Text(side, _)) => {
            EndingSeen::of_device(input_seen(inputs, side))
        }
        Outcome::Input(InputFault::NamesDiffer(_)) => EndingSeen {
            error: None,
            look: Look::Unknown,
            unmatched,
        },
        _ => EndingSeen::of_device(Seen::NOTHING),
    }
}

// What the input of a side can say.
fn input_seen(inputs: &InputsSeen, side: Side) -> Seen
    ensures { result ≡ input_seen inputs.now side }
{
    match side {
        Side::Forward => inputs.forward,
        Side::Reverse => inputs.reverse,
    }
}

// Why an output failed, if it did.
fn error_of(outlets: &Outlets<Option<SystemError>>, out: Out) -> Option<SystemError>
    ensures { result ≡ error_of outlets.now out }
{
    match out {
        Out::ForwardPaired => outlets.forward_paired,
        Out::ForwardUnpaired => outlets.forward_unpaired,
        Out::ReversePaired => outlets.reverse_paired,
        Out::ReverseUnpaired => outlets.reverse_unpaired,
        // Without a log there is no outlet that can have failed.
        Out::Log => outlets.log.unwrap_or(None),
    }
}
