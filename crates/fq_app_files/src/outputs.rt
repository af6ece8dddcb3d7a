//! Makes the files of the outputs, and hands their outlets back after the run.

ghost use Rattle.std.specs.Prelude.{IsSome, IfOk, IfErr};
ghost use Rattle.fq_files.specs.States.{MaySay, OnlyStores, OnlyWrites, StillHeld, TellsWhy};
ghost use Rattle.fq_run_core.specs.Devices.{outlet_states};
ghost use Rattle.fq_app_words.specs.Requests.{asking_of, output_name};
ghost use Rattle.fq_app_files.specs.Trimming.{filed};
ghost use Rattle.fq_app_files.specs.Seeing.{OutputsMaySay, OutputsTellWhy};
ghost use Rattle.fq_app_files.specs.Making.{AreOutputsMade, AreOutputsRefused, AreOutputsStored, IsOutputMade, IsOutputRefused, IsOutputStored};

use crate::refusal::{Refusal, target_refused};
use fq_app_words::Request;
use fq_files::Files;
use fq_pair::Out;
use fq_run_core::Outlets;
use fq_text::{Outlet, SystemError};

/// Makes each output, empty, in the order of [`Out`].
pub(crate) fn outputs<T: Files>(
    request: &Request<'_>,
    files: &mut T,
) -> Result<Outlets<T::Target>, Refusal>
    ensures made { IfOk result (λ outlets. AreOutputsMade
        (filed (T.state files.old) (asking_of request.now))
        (T.state files.old) (T.state files.new) (outlet_states T.Target.state outlets)) }
    ensures refused { IfErr result (λ why.
        AreOutputsRefused (filed (T.state files.old) (asking_of request.now))
        why (T.state files.old) (T.state files.new)) }
    ensures names { StillHeld (T.state files.old) (T.state files.new) }
    ensures kept { OnlyWrites (T.state files.old) (T.state files.new) }
{
    let forward_paired = output(request, files, Out::ForwardPaired)?;
    let forward_unpaired = output(request, files, Out::ForwardUnpaired)?;
    let reverse_paired = output(request, files, Out::ReversePaired)?;
    let reverse_unpaired = output(request, files, Out::ReverseUnpaired)?;
    let log = match request.log {
        Some(_) => Some(output(request, files, Out::Log)?),
        None => None,
    };
    Ok(Outlets {
        forward_paired,
        forward_unpaired,
        reverse_paired,
        reverse_unpaired,
        log,
    })
}

// Makes one output that was asked for, empty. The outputs before it have been made.
fn output<T: Files>(request: &Request<'_>, files: &mut T, out: Out) -> Result<T::Target, Refusal>
    requires { IsSome (output_name (asking_of request.now) out) }
    ensures made { IfOk result (λ target. IsOutputMade
        (filed (T.state files.old) (asking_of request.now)) out
        (T.state files.old) (T.state files.new) (T.Target.state target)) }
    ensures refused { IfErr result (λ why.
        IsOutputRefused (filed (T.state files.old) (asking_of request.now))
        out why (T.state files.old) (T.state files.new)) }
    ensures names { StillHeld (T.state files.old) (T.state files.new) }
    ensures kept { OnlyWrites (T.state files.old) (T.state files.new) }
{
    let Some(name) = request.output_name(out) else {
        unreachable!()
    };
    files
        .target(name)
        .map_err(|fault| target_refused(fault, out))
}

/// Hands each outlet back: its file then holds what the outlet has taken. Returns why each failed,
/// if it did.
pub fn store<T: Files>(
    request: &Request<'_>,
    files: &mut T,
    outlets: Outlets<T::Target>,
) -> Outlets<Option<SystemError>>
    ensures stored { AreOutputsStored (filed (T.state files.old) (asking_of request.now))
        (outlet_states T.Target.state outlets) (T.state files.old) (T.state files.new) }
    ensures says { OutputsMaySay (filed (T.state files.old) (asking_of request.now))
        (T.state files.old).may_say result }
    ensures why { OutputsTellWhy (filed (T.state files.old) (asking_of request.now))
        (outlet_states T.Target.state outlets) result }
    ensures names { StillHeld (T.state files.old) (T.state files.new) }
    ensures kept { OnlyStores (T.state files.old) (T.state files.new) }
{
    let Outlets {
        forward_paired,
        forward_unpaired,
        reverse_paired,
        reverse_unpaired,
        log,
    } = outlets;
    let forward_paired = store_one(request, files, Out::ForwardPaired, forward_paired);
    let forward_unpaired = store_one(request, files, Out::ForwardUnpaired, forward_unpaired);
    let reverse_paired = store_one(request, files, Out::ReversePaired, reverse_paired);
    let reverse_unpaired = store_one(request, files, Out::ReverseUnpaired, reverse_unpaired);
    let log = match (request.log, log) {
        (Some(_), Some(log)) => Some(store_one(request, files, Out::Log, log)),
        _ => None,
    };
    Outlets {
        forward_paired,
        forward_unpaired,
        reverse_paired,
        reverse_unpaired,
        log,
    }
}

// Hands one outlet back. Those of the outputs before it have been handed back.
fn store_one<T: Files>(
    request: &Request<'_>,
    files: &mut T,
    out: Out,
    outlet: T::Target,
) -> Option<SystemError>
    requires { IsSome (output_name (filed (T.state files.old) (asking_of request.now)) out) }
    ensures stored { IsOutputStored (filed (T.state files.old) (asking_of request.now)) out
        (T.Target.state outlet) (T.state files.old) (T.state files.new) }
    ensures says { MaySay (T.state files.old).may_say
        (output_name (filed (T.state files.old) (asking_of request.now)) out) result }
    ensures why { TellsWhy (T.Target.state outlet).failures result }
    ensures names { StillHeld (T.state files.old) (T.state files.new) }
    ensures kept { OnlyStores (T.state files.old) (T.state files.new) }
{
    let Some(name) = request.output_name(out) else {
        unreachable!()
    };
    files.done(name, outlet)
}
