//! The part of a threaded run that writes.

ghost use Rattle.std.specs.Prelude.{◌≡◌, ◌≢◌, ◌+◌, ◌<◌, [], None, Bool, IsTrue, is_some, min, if◌then◌else◌, vec_len};
ghost use Rattle.fq_run.specs.Doing.{writes, drains, awaits_dealer};
ghost use Rattle.fq_run.specs.collector.Collecting.{Collects, TookAll, before_stop, failed_in};
ghost use Rattle.fq_run.specs.Shares.{gather};
ghost use Rattle.fq_run.specs.Waiting.{does_in};
ghost use Rattle.fq_run_core.specs.Totals.{no_total};
ghost use Rattle.fq_run_core.specs.Devices.{OutletStates, outlet_states, AreHealthy};
ghost use Rattle.fq_run.specs.lanes.Items.{names_of, lists_of, AllClosed, IsDealt};
ghost use Rattle.fq_run.specs.collector.Stops.{heard_at, HearsAll, Drains};

pub(crate) mod ends;
pub(crate) mod phase;
mod stops;

use crate::turns::next_turn;
use crate::waiting::CallerWaits;
use ends::CollectorEnds;
use fq_lane::Taken;
use fq_run_core::Outlets;
use fq_run_core::shared::{Halt, Total};
use fq_text::Outlet;
use fq_work::Reply;
use phase::Phase;
use std::sync::Wait;
use std::thread::Parker;
use stops::add_stop;

// How long a collector sleeps after a round in which nothing came, in microseconds: at first, and
// at most.
const FIRST_REST: u64 = 100;

const LONGEST_REST: u64 = 10_000;

/// Takes replies in turn, writes their texts, and counts the blocks that were written completely.
#[derive(Drop)]
pub(crate) struct Collector {
    /// The ends of lanes from and to each worker.
    pub(crate) replies: Vec<CollectorEnds>,
    /// The worker whose reply is next.
    pub(crate) turn: usize,
    /// The counts of the blocks that were written completely. If a tally is asked for, also one of
    /// no pairs.
    pub(crate) total: Total,
    /// What the collector is doing now, or why it stopped writing.
    pub(crate) phase: Phase,
    /// The stops that were received.
    pub(crate) halt: Halt,
}

/// Takes replies in turn and writes their texts, until the lane whose turn it is has closed, a
/// reply is a stop, or a write fails. Then takes and drops what still comes from all lanes, until
/// each has closed.
///
/// Texts that were written go back to their worker for reuse if the lane has room.
pub(crate) fn collect<R: Wait, O: Outlet>(
    waits: &mut CallerWaits<'_, R>,
    total: Total,
    replies: Vec<CollectorEnds>,
    outlets: &mut Outlets<O>,
) -> Collector
    requires writes { waits.old ≡ writes }
    requires none { total ≡ no_total (is_some total.tally) }
    requires some { 0 < vec_len replies }
    requires fresh { IsDealt (vec_len replies) [] replies.items }
    requires outlets { AreHealthy (outlet_states O.state outlets.old) }
    ensures collects { Collects (is_some total.tally) (vec_len replies)
        (outlet_states O.state outlets.old) (outlet_states O.state outlets.new) result }
    ensures names { names_of result.replies.items ≡ names_of replies.items }
    ensures over { (result.phase ≢ Phase.Writing) × AllClosed result.replies.items }
    // If no write failed, the outlets have the texts of the replies, gathered in turn, before the
    // first stop.
    ensures written { failed_in result.phase ≡ None
        → TookAll (outlet_states O.state outlets.old) (outlet_states O.state outlets.new)
        (before_stop (gather (lists_of result.replies.items))) }
    // Exactly the stops that were received are noted.
    ensures hears { HearsAll result }
    ensures next { waits.new ≡ awaits_dealer }
{
    let mut collector = Collector::new(total, replies);
    collector.write_all(waits, outlets);
    collector.drain(waits);
    collector
}

impl Collector {
    // A collector that has taken nothing so far.
    #[tactic(auto, using(std::proofs::lemmas::Grind::common_steps, crate::proofs::collector::CollectLemmas::no_stops))]
    fn new(total: Total, replies: Vec<CollectorEnds>) -> Collector
        requires none { total ≡ no_total (is_some total.tally) }
        requires some { 0 < vec_len replies }
        requires fresh { IsDealt (vec_len replies) [] replies.items }
        ensures collects { (outlets : OutletStates)
            → Collects (is_some total.tally) (vec_len replies) outlets outlets result }
        ensures hears { HearsAll result }
        ensures replies { result.replies ≡ replies }
        ensures total { result.total ≡ total }
        ensures phase { result.phase ≡ Phase.Writing }
    {
        Collector {
            replies,
            turn: 0,
            total,
            phase: Phase::Writing,
            halt: Halt::NONE,
        }
    }

    // Writes replies in turn, until nothing more is to be written.
    fn write_all<R: Wait, O: Outlet>(
        &mut self,
        waits: &mut CallerWaits<'_, R>,
        outlets: &mut Outlets<O>,
    )
        requires next { waits.old ≡ does_in self.old.phase }
        requires collects { Collects (is_some self.old.total.tally) (vec_len self.old.replies)
            (outlet_states O.state outlets.old) (outlet_states O.state outlets.old) self.old }
        requires outlets { AreHealthy (outlet_states O.state outlets.old) }
        ensures collects { Collects (is_some self.old.total.tally) (vec_len self.old.replies)
            (outlet_states O.state outlets.old) (outlet_states O.state outlets.new) self.new }
        ensures names { names_of self.new.replies.items ≡ names_of self.old.replies.items }
        ensures over { self.new.phase ≢ Phase.Writing }
        ensures hears { HearsAll self.old → HearsAll self.new }
        ensures next { waits.new ≡ drains }
    {
        for _ in waits.rounds() {
            let Phase::Writing = self.phase else {
                return;
            };
            self.write_next(waits, outlets);
        }
        unreachable!()
    }

    // Takes the next reply in turn, and writes its texts.
    fn write_next<R: Wait, O: Outlet>(
        &mut self,
        waits: &mut CallerWaits<'_, R>,
        outlets: &mut Outlets<O>,
    )
        requires next { waits.old ≡ writes }
        requires writing { self.old.phase ≡ Phase.Writing }
        requires turn { self.old.turn < vec_len self.old.replies }
        requires outlets { AreHealthy (outlet_states O.state outlets.old) }
        ensures collects { (tallied : Bool) (before : OutletStates)
            → Collects tallied (vec_len self.old.replies) before
            (outlet_states O.state outlets.old) self.old
            → Collects tallied (vec_len self.old.replies) before
            (outlet_states O.state outlets.new) self.new }
        ensures names { names_of self.new.replies.items ≡ names_of self.old.replies.items }
        ensures hears { HearsAll self.old → HearsAll self.new }
        ensures next { waits.new ≡ does_in self.new.phase }
    {
        let lanes = self.replies.len();
        let ends = &mut self.replies[self.turn];
        match waits.next_reply(ends) {
            None => self.phase = Phase::AtMark,
            Some(Reply::Stop(cause)) => {
                self.halt = add_stop(self.halt, cause);
                self.phase = Phase::Stopped;
            }
            Some(Reply::Done(done)) => {
                if let Err(out) = outlets.write(&done.texts) {
                    waits.fail_to_write();
                    self.phase = Phase::WriteFailed(out);
                    return;
                }
                self.total.add(&done);
                ends.back.give_back(done);
                self.turn = next_turn(self.turn, lanes);
            }
        }
    }

    // Takes from all lanes in turn, until each is closed, and drops what it takes.
    //
    // It never waits for one lane alone: the worker of that lane may need a block that the dealer
    // can't send while the lane of another worker is full.
    fn drain<R: Wait>(&mut self, waits: &mut CallerWaits<'_, R>)
        requires over { self.old.phase ≢ Phase.Writing }
        requires next { waits.old ≡ drains }
        ensures drains { Drains self.old self.new }
        ensures closed { AllClosed self.new.replies.items }
        ensures next { waits.new ≡ awaits_dealer }
    {
        // Nothing unparks the sleeper, so each sleep lasts its full time.
        let sleeper = Parker::new();
        let mut rest = FIRST_REST;
        for _ in waits.rounds() {
            if are_closed(&self.replies) {
                waits.end_drain(self);
                return;
            }
            let found = self.drain_round();
            if !found {
                waits.rest(&sleeper, rest);
            }
            rest = next_rest(found, rest);
        }
        unreachable!()
    }

    // Takes from each lane once. Returns false if nothing had come.
    fn drain_round(&mut self) -> bool
        requires over { self.old.phase ≢ Phase.Writing }
        ensures drains { Drains self.old self.new }
    {
        let mut found = false;
        for at in 0..self.replies.len() {
            if self.drain_lane(at) {
                found = true;
            }
        }
        found
    }

    // Takes from one lane. Returns false if nothing had come.
    fn drain_lane(&mut self, at: usize) -> bool
        requires over { self.old.phase ≢ Phase.Writing }
        requires within { at < vec_len self.old.replies }
        ensures drains { Drains self.old self.new }
    {
        let ends = &mut self.replies[at];
        let taken = ends.replies.take();
        self.hear(taken)
    }

    // Notes a stop, and drops anything else. Returns false if nothing was taken.
    fn hear(&mut self, taken: Taken<Reply>) -> bool
        ensures { self.new ≡ record self.old { halt = heard_at taken self.old.halt } }
    {
        match taken {
            Taken::Item(Reply::Stop(cause)) => {
                self.halt = add_stop(self.halt, cause);
                true
            }
            Taken::Item(Reply::Done(_)) => true,
            Taken::Empty | Taken::Closed => false,
        }
    }
}

// How long a collector sleeps after the next round in which nothing comes: `FIRST_REST` if
// something came in the last round, and otherwise twice as long as the last time, up to
// `LONGEST_REST`.
fn next_rest(found: bool, rest: u64) -> u64
    ensures { result ≡ (if found then FIRST_REST else min (rest + rest) LONGEST_REST) }
{
    if found {
        FIRST_REST
    } else {
        rest.saturating_mul(2).min(LONGEST_REST)
    }
}

// Whether each lane was taken to its mark, the last thing that a lane carries.
fn are_closed(replies: &Vec<CollectorEnds>) -> bool
    ensures { IsTrue result → AllClosed replies.now.items }
{
    for ends in replies {
        if !ends.replies.is_closed() {
            return false;
        }
    }
    true
}
