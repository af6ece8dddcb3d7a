//! Opens the inputs, and hands their feeds back after the run.

ghost use Rattle.std.specs.Prelude.{◌≡◌, ◌≢◌, ℕ, List, Some, None, IsTrue, IsSome, IfOk, OnOk, IfErr};
ghost use Rattle.std.specs.Option.{option_map};
ghost use Rattle.fq_files.specs.States.{MayRefuse, MaySay, OnlyFails, OnlyOpens, TellsWhy};
ghost use Rattle.fq_files.specs.declared.files.Cause.TheVariants.{Input};
ghost use Rattle.fq_app_words.specs.Requests.{asking_of, input_name};
ghost use Rattle.fq_app_files.specs.Trimming.{filed, opened_of, left_of, form_of};
ghost use Rattle.fq_app_files.specs.Opening.{AreInputsOpened, AreInputsRefused, IsInputOpened, IsInputRefused, MayLead};
ghost use Rattle.fq_app_files.specs.Completing.{IsFeedCounted, AreFeedsCounted};
ghost use Rattle.fq_app_files.specs.Seeing.{LookAsTheyAre, InputsMaySay, InputsTellWhy};
ghost use Rattle.fq_run_core.specs.Endings.{failures_in};
ghost use Rattle.fq_text.specs.Looks.{look_of};

use crate::refusal::{Refusal, source_refused};
use fq_app_words::{Inputs, Request};
use fq_files::Files;
use fq_pair::Side;
use fq_text::{Feed, Seen};

/// The opened inputs.
#[derive(Drop)]
pub enum Feeds<F> {
    /// Forward and reverse reads, each in a feed of its own.
    Apart { forward: F, reverse: F },
    /// One interleaved feed: each forward read comes before its reverse mate.
    Interleaved(F),
}

/// What the feeds of a run can say after it. An interleaved feed speaks for both sides.
#[derive(Clone, Copy)]
pub struct InputsSeen {
    /// That of the forward reads.
    pub forward: Seen,
    /// That of the reverse reads.
    pub reverse: Seen,
}

/// Opens the inputs in the order of the command line. With `--sync`, each flush of an output will
/// wait until its bytes are on stable storage.
pub(crate) fn inputs<T: Files>(
    request: &Request<'_>,
    files: &mut T,
) -> Result<Feeds<T::In>, Refusal>
    ensures opened { IfOk result (λ feeds. AreInputsOpened
        (filed (T.state files.old) (asking_of request.now)).inputs
        (T.state files.old) (opened_of T.In.state feeds)) }
    ensures refused { IfErr result (λ why.
        AreInputsRefused (filed (T.state files.old) (asking_of request.now)).inputs
        why (T.state files.old)) }
    ensures kept { OnlyOpens (T.state files.old) (T.state files.new) }
    ensures open { OnOk result ((side : Side) → IsTrue ((T.state files.new).is_open
        (input_name (filed (T.state files.old) (asking_of request.now)).inputs side))) }
    ensures linked { (name : List ℕ) → IsTrue ((T.state files.new).is_open name)
        → MayLead (filed (T.state files.old) (asking_of request.now)).inputs
        (T.state files.old) name Input }
{
    let feeds = match request.inputs {
        Inputs::Apart { .. } => {
            let forward = input(request, files, Side::Forward)?;
            let reverse = input(request, files, Side::Reverse)?;
            Feeds::Apart { forward, reverse }
        }
        Inputs::Interleaved(_) => Feeds::Interleaved(input(request, files, Side::Forward)?),
    };
    if request.sync {
        files.sync_always();
    }
    Ok(feeds)
}

// Opens the input of a side.
fn input<T: Files>(request: &Request<'_>, files: &mut T, side: Side) -> Result<T::In, Refusal>
    ensures opened { IfOk result (λ feed. IsInputOpened
        (input_name (filed (T.state files.old) (asking_of request.now)).inputs side)
        (T.state files.old) (T.In.state feed)) }
    ensures refused { IfErr result (λ why.
        IsInputRefused (filed (T.state files.old) (asking_of request.now)).inputs
        side why (T.state files.old)) }
    ensures kept { OnlyOpens (T.state files.old) (T.state files.new) }
    ensures open { OnOk result (IsTrue ((T.state files.new).is_open
        (input_name (filed (T.state files.old) (asking_of request.now)).inputs side))) }
    ensures remains { (other : List ℕ) → IsTrue ((T.state files.old).is_open other)
        → IsTrue ((T.state files.new).is_open other) }
    ensures linked { (other : List ℕ)
        → other ≢ input_name (filed (T.state files.old) (asking_of request.now)).inputs side
        → IsTrue ((T.state files.new).is_open other)
        → MayRefuse (T.state files.old) other Input }
{
    files
        .source(request.input_name(side))
        .map_err(|fault| source_refused(fault, side))
}

/// Hands the feeds back to their files, which count the failed ones. A feed that was lost with its
/// thread counts as not failed. Returns what the feeds can say.
pub fn inputs_done<T: Files>(
    request: &Request<'_>,
    files: &mut T,
    feeds: Feeds<Option<T::In>>,
) -> InputsSeen
    requires form { form_of feeds ≡ (asking_of request.now).inputs.form }
    ensures kept { OnlyFails (T.state files.old) (T.state files.new) }
    ensures counted { AreFeedsCounted (filed (T.state files.old) (asking_of request.now)).inputs
        (left_of T.In.state feeds) (T.state files.old) (T.state files.new) }
    ensures looks { IsTrue (T.state files.old).looks
        → LookAsTheyAre (filed (T.state files.old) (asking_of request.now)).inputs
        (T.state files.old).bytes (left_of T.In.state feeds) result }
    ensures why { InputsTellWhy (left_of T.In.state feeds) result }
    ensures says { InputsMaySay (filed (T.state files.old) (asking_of request.now)).inputs
        (T.state files.old).may_say result }
{
    match feeds {
        Feeds::Apart { forward, reverse } => {
            let forward = input_done(request, files, Side::Forward, forward);
            let reverse = input_done(request, files, Side::Reverse, reverse);
            InputsSeen { forward, reverse }
        }
        Feeds::Interleaved(both) => {
            let both = input_done(request, files, Side::Forward, both);
            InputsSeen {
                forward: both,
                reverse: both,
            }
        }
    }
}

// Hands the feed of a side back, if the run returned it.
fn input_done<T: Files>(
    request: &Request<'_>,
    files: &mut T,
    side: Side,
    feed: Option<T::In>,
) -> Seen
    ensures kept { OnlyFails (T.state files.old) (T.state files.new) }
    ensures counted { IsFeedCounted
        (input_name (filed (T.state files.old) (asking_of request.now)).inputs side)
        (option_map T.In.state feed) (T.state files.old) (T.state files.new) }
    ensures looks { IsTrue (T.state files.old).looks → (bytes : List ℕ)
        → IsSome (option_map T.In.state feed)
        → (T.state files.old).bytes
        (input_name (filed (T.state files.old) (asking_of request.now)).inputs side) ≡ Some bytes
        → result.look ≡ look_of bytes }
    ensures why { TellsWhy (failures_in (option_map T.In.state feed)) result.error }
    ensures says { MaySay (T.state files.old).may_say
        (Some (input_name (filed (T.state files.old) (asking_of request.now)).inputs side))
        result.error }
{
    match feed {
        Some(feed) => files.source_done(request.input_name(side), feed),
        None => Seen::NOTHING,
    }
}
