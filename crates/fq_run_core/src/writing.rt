//! Reads and writes the blocks of a run on one thread.

ghost use Rattle.std.specs.Prelude.{◌≡◌, ◌≤◌, None, OnOk, OnErr};
ghost use Rattle.fq_text.specs.Reading.{text_limit};
ghost use Rattle.fq_pair.specs.Walks.{GoesOn};
ghost use Rattle.fq_run_core.specs.Devices.{outlet_states, AreHealthy};
ghost use Rattle.fq_run_core.specs.Gathering.{Gathers};
ghost use Rattle.fq_run_core.specs.Sending.{Sends};
ghost use Rattle.fq_run_core.specs.Totals.{no_total};
ghost use Rattle.fq_pair.specs.Summaries.{capped};
ghost use Rattle.fq_run_core.specs.Writing.{Passes, HasWritten, nothing_written, no_halt};

use crate::gathering::gather;
use crate::outlets::Outlets;
use crate::reading_end::ReadingEnd;
use crate::settings::Settings;
use crate::total::Total;
use crate::written::Written;
use fq_pair::{Out, PairReader};
use fq_report_pairs::Done;
use fq_text::{MemoryRefused, Outlet};
use fq_trim::Steps;
use std::alloc::Global;

/// Reads and writes block by block, until reading stops or a write fails. If memory for a tally is
/// refused, nothing is read.
pub(crate) fn write_blocks<S: PairReader, O: Outlet>(
    alloc: Global,
    settings: &Settings,
    source: &mut S,
    outlets: &mut Outlets<O>,
) -> Written
    requires goes { GoesOn (S.state source.old) }
    requires fresh { (S.state source.old).forward.given ≡ 0 }
    requires few { (S.state source.old).most_bytes ≤ text_limit }
    requires outlets { AreHealthy (outlet_states O.state outlets.old) }
    ensures { HasWritten settings.now (S.state source.old) (S.state source.new)
        (outlet_states O.state outlets.old) (outlet_states O.state outlets.new) result }
{
    let mut written = Written::nothing(None);
    let mut done = Done::new(alloc, 0);
    write_with(alloc, settings, source, outlets, &mut written, &mut done);
    written
}

// Does the work of `write_blocks` with borrowed room for the texts of a block, on a borrowed
// result, which says so far that nothing was read or written.
#[tactic(auto, using(std::proofs::lemmas::Grind::common_steps, crate::proofs::PassLemmas::passes_unasked))]
fn write_with<S: PairReader, O: Outlet>(
    alloc: Global,
    settings: &Settings,
    source: &mut S,
    outlets: &mut Outlets<O>,
    written: &mut Written,
    done: &mut Done,
)
    requires goes { GoesOn (S.state source.old) }
    requires fresh { (S.state source.old).forward.given ≡ 0 }
    requires few { (S.state source.old).most_bytes ≤ text_limit }
    requires outlets { AreHealthy (outlet_states O.state outlets.old) }
    requires nothing { written.old ≡ nothing_written None }
    ensures { HasWritten settings.now (S.state source.old) (S.state source.new)
        (outlet_states O.state outlets.old) (outlet_states O.state outlets.new) written.new }
{
    if let Err(e) = written.total.ask(alloc, settings.tallied()) {
        written.why = Some(ReadingEnd::Memory(MemoryRefused::from(e)));
        return;
    }
    let (why, failed) = write_each(settings, source, outlets, &mut written.total, done);
    written.why = why;
    written.failed = failed;
}

// Reads and writes block by block, and counts each block that is written completely. Returns why
// reading stopped, if it did, and the outlet whose write failed, if one did.
#[tactic(auto, using(std::proofs::lemmas::Grind::common_steps, crate::proofs::PassLemmas::wrote_none, crate::proofs::PassLemmas::nearer, crate::proofs::GatherLemmas::end_none))]
fn write_each<S: PairReader, O: Outlet>(
    settings: &Settings,
    source: &mut S,
    outlets: &mut Outlets<O>,
    total: &mut Total,
    done: &mut Done,
) -> (Option<ReadingEnd>, Option<Out>)
    requires goes { GoesOn (S.state source.old) }
    requires fresh { (S.state source.old).forward.given ≡ 0 }
    requires few { (S.state source.old).most_bytes ≤ text_limit }
    requires outlets { AreHealthy (outlet_states O.state outlets.old) }
    requires none { total.old ≡ no_total settings.now.tallied }
    ensures { Passes settings.now (S.state source.old) (S.state source.new)
        (outlet_states O.state outlets.old) (outlet_states O.state outlets.new)
        total.new no_halt result.0 result.1 }
{
    let steps = settings.steps();
    let most = settings.block_pairs();
    // The label is the loop's name in its proof.
    'writing: loop {
        let (why, sent) = write_block(source, steps, most, outlets, total, done);
        if let Err(out) = sent {
            return (why, Some(out));
        }
        if why.is_some() {
            return (why, None);
        }
    }
}

// Reads and writes the next block, of up to `most` pairs, and counts it if it is written
// completely. The tally gets its pairs in any case. Returns why reading stopped, if it did, and the
// result of the write.
fn write_block<S: PairReader, O: Outlet>(
    source: &mut S,
    steps: &Steps,
    most: u64,
    outlets: &mut Outlets<O>,
    total: &mut Total,
    done: &mut Done,
) -> (Option<ReadingEnd>, Result<(), Out>)
    requires goes { GoesOn (S.state source.old) }
    requires some { 1 ≤ most }
    requires few { most ≤ 65536 }
    requires outlets { AreHealthy (outlet_states O.state outlets.old) }
    ensures gathers { Gathers (S.state source.old) (S.state source.new)
        steps.now most total.old.tally total.new.tally done.new result.0 }
    ensures sends { Sends (outlet_states O.state outlets.old)
        (outlet_states O.state outlets.new) done.new.texts result.1 }
    ensures counted { OnOk result.1
        (total.new.counts ≡ capped total.old.counts done.new.texts.counts) }
    ensures uncounted { OnErr result.1 (total.new.counts ≡ total.old.counts) }
{
    done.clear();
    let why = gather(source, steps, most, done, &mut total.tally);
    let sent = outlets.write(&done.texts);
    if sent.is_ok() {
        total.add(done);
    }
    (why, sent)
}
