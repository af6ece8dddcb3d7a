//! A run on several threads, over any source of pairs.

ghost use Rattle.std.specs.Prelude.{◌≡◌, ◌≤◌, true, IfOk};
ghost use Rattle.std.specs.Arc.{arc_value};
ghost use Rattle.fq_text.specs.Reading.{text_limit};
ghost use Rattle.fq_run.specs.Doing.{begins};
ghost use Rattle.fq_run.specs.Confirming.{CanConfirm};
ghost use Rattle.fq_run_core.specs.Totals.{no_total};
ghost use Rattle.fq_run_core.specs.Devices.{outlet_states, AreHealthy};
ghost use Rattle.fq_run.specs.Each.{Each3};
ghost use Rattle.fq_run.specs.Threads.{AreLaidOut, tallies_from, IsFresh, IsManned, run_from, names_left, IsThreaded, Concludes};

use crate::collector::ends::CollectorEnds;
use crate::collector::{Collector, collect};
use crate::conclusion::Conclusion;
use crate::confirming::confirm;
use crate::crew::Crew;
use crate::crew::workers::{join_workers, start_workers};
use crate::dealer::Dealer;
use crate::dealer::dealing::start_dealer;
use crate::dealer::dealt::Dealt;
use crate::lanes::Lanes;
use crate::lanes::seats::Seats;
use crate::waiting::CallerWaits;
use fq_lane::{End, NotEnded};
use fq_pair::{Out, PairReader};
use fq_run_core::shared::{Occurred, Total};
use fq_run_core::{Outcome, Outlets, Settings};
use fq_text::Outlet;
use fq_work::{Gate, Worked};
use std::alloc::Global;
use std::sync::{Arc, Wait};
use std::thread::Threads;

/// Trims the pairs of a source on several threads. If memory is refused before the first thread
/// starts, nothing is read or written.
pub(crate) fn run<
    R: Threads + Wait + Copy + Send + 'static,
    S: PairReader + Drop + Send + 'static,
    O: Outlet,
    H: Gate + 'static,
>(
    alloc: Global,
    rt: &R,
    settings: &Settings,
    gate: &Arc<H>,
    source: S,
    outlets: &mut Outlets<O>,
) -> Conclusion<S>
    requires fresh { IsFresh settings.now (S.state source) }
    requires few { (S.state source).most_bytes ≤ text_limit }
    requires outlets { AreHealthy (outlet_states O.state outlets.old) }
    ensures { IsThreaded settings.now (H.holds (arc_value gate.now))
        (run_from S.state (S.state source)
        (outlet_states O.state outlets.old) (outlet_states O.state outlets.new) result)
        result.unended result.refused (names_left S.state result) }
{
    let lanes = match Lanes::new(alloc, settings) {
        Ok(lanes) => lanes,
        Err(refused) => {
            // Refused memory comes before a failed flush in the order of `Outcome`.
            let _ = outlets.flush_after(None);
            return Conclusion::unstarted(Outcome::Memory, Some(source), refused);
        }
    };
    start(alloc, rt, settings, gate, source, lanes, outlets)
}

// Starts the threads, and writes on this thread, as the collector.
fn start<
    R: Threads + Wait + Copy + Send + 'static,
    S: PairReader + Drop + Send + 'static,
    O: Outlet,
    H: Gate + 'static,
>(
    alloc: Global,
    rt: &R,
    settings: &Settings,
    gate: &Arc<H>,
    source: S,
    lanes: Lanes,
    outlets: &mut Outlets<O>,
) -> Conclusion<S>
    requires lanes { AreLaidOut settings.now.tallied settings.now.workers lanes }
    requires total { lanes.total ≡ no_total settings.now.tallied }
    requires fresh { IsFresh settings.now (S.state source) }
    requires few { (S.state source).most_bytes ≤ text_limit }
    requires outlets { AreHealthy (outlet_states O.state outlets.old) }
    ensures { IsThreaded settings.now (H.holds (arc_value gate.now))
        (run_from S.state (S.state source)
        (outlet_states O.state outlets.old) (outlet_states O.state outlets.new) result)
        result.unended result.refused (names_left S.state result) }
{
    let Lanes {
        starter,
        start,
        seats,
        closings,
        hands,
        worked,
        total,
    } = lanes;
    let Seats { to, ends, replies } = seats;
    let dealer = Dealer {
        start,
        source,
        to,
        closings,
    };
    let dealer = match start_dealer(alloc, rt, settings, dealer) {
        Ok(dealer) => dealer,
        Err(refused) => return Conclusion::unstarted(Outcome::Spawn, None, refused),
    };
    let mut waits = CallerWaits::new(rt);
    let hands = match start_workers(alloc, rt, settings, gate, ends, hands) {
        Ok(hands) => hands,
        Err((started, refused)) => {
            waits.give_up(starter);
            let source = waits.join_dealer(dealer).into_unread();
            let _ = join_workers(&mut waits, started, worked);
            return Conclusion::unstarted(Outcome::Spawn, source, refused);
        }
    };
    let crew = Crew {
        starter,
        dealer,
        hands,
        holds: (**gate).may_hold(),
        worked,
    };
    attend(waits, crew, total, replies, outlets)
}

// Lets the dealer start, collects, and waits for all threads.
fn attend<R: Threads + Wait, S: PairReader, O: Outlet>(
    waits: CallerWaits<'_, R>,
    crew: Crew<S>,
    total: Total,
    replies: Vec<CollectorEnds>,
    outlets: &mut Outlets<O>,
) -> Conclusion<S>
    requires begins { waits ≡ begins }
    requires total { total ≡ no_total crew.dealer.promise.settings.tallied }
    requires manned { IsManned crew replies.items }
    requires fresh { IsFresh crew.dealer.promise.settings
        (S.state crew.dealer.promise.source.value) }
    requires outlets { AreHealthy (outlet_states O.state outlets.old) }
    ensures { IsThreaded crew.dealer.promise.settings crew.holds
        (run_from S.state (S.state crew.dealer.promise.source.value)
        (outlet_states O.state outlets.old) (outlet_states O.state outlets.new) result)
        result.unended result.refused (names_left S.state result) }
{
    let Crew {
        mut starter,
        dealer,
        hands,
        worked,
        ..
    } = crew;
    let mut waits = waits;
    waits.put_start(&mut starter);
    let started = waits.close_start(starter);
    let collector = collect(&mut waits, total, replies, outlets);
    let failed = outlets.flush_after(collector.phase.failed());
    let dealt = waits.join_dealer(dealer);
    let worked = join_workers(&mut waits, hands, worked);
    conclude(started, dealt, worked, collector, failed)
}

// Adds the tally of each worker to a total.
fn add_tallies(total: &mut Total, worked: &Vec<Worked>)
    ensures counts { total.new.counts ≡ total.old.counts }
    ensures tally { total.new.tally ≡ tallies_from total.old.tally worked.now.items }
{
    for one in worked {
        total.add_tally(&one.tally);
    }
}

// Adds the workers' tallies, and confirms all lanes. Of several outcomes that occurred, returns the
// first.
fn conclude<S>(
    started: Result<End<()>, NotEnded>,
    dealt: Dealt<S>,
    worked: Vec<Worked>,
    collector: Collector,
    failed: Option<Out>,
) -> Conclusion<S>
    requires start { IfOk started (λ e. e.name ≡ dealt.start.name) × (dealt.start.marked ≡ true) }
    requires workers { Each3 CanConfirm dealt.closings.items worked.items collector.replies.items }
    ensures { Concludes started dealt worked.items collector failed result }
{
    let Dealt {
        start,
        closings,
        why,
        source,
    } = dealt;
    let Collector {
        replies,
        mut total,
        halt,
        ..
    } = collector;
    add_tallies(&mut total, &worked);
    let (outcome, unended) = match confirm(started, start, closings, worked, replies) {
        Ok(()) => (Occurred::new(halt, why, failed).outcome(), None),
        Err(unended) => (Outcome::Lane, Some(unended)),
    };
    Conclusion {
        outcome,
        total: total.at_end(outcome),
        source: Some(source),
        unended,
        refused: Occurred::new(halt, why, failed).refused(),
    }
}
