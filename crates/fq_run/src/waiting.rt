//! How the calling thread waits: for what it does next in the model of a run's threads, and for
//! nothing else.

ghost use Rattle.std.specs.Prelude.{◌≡◌, ◌<◌, ◌+◌, ◌^◌, [], IfOk};
ghost use Rattle.fq_lane.specs.History.{with_item, with_mark};
ghost use Rattle.fq_lane.specs.Take.{Takes, taken_of};
ghost use Rattle.fq_run.specs.Doing.{begins, writes, drains, began, closed_start, gave_up, failed_to_write, drained, joined_dealer, joined_worker, caller_before, caller_after};
ghost use Rattle.fq_run.specs.Waiting.{got};
ghost use Rattle.fq_run.specs.crew.Workers.{Joined};
ghost use Rattle.fq_run.specs.dealer.Dealt.{HasDealt};
ghost use Rattle.fq_run.specs.lanes.Items.{AllClosed};

use crate::collector::Collector;
use crate::collector::ends::CollectorEnds;
use crate::crew::job::Job;
use crate::dealer::dealing::Dealing;
use crate::dealer::dealt::Dealt;
use fq_lane::{End, NotEnded, Tx};
use fq_pair::PairReader;
use fq_work::{Reply, Worked};
use std::marker::Model;
use std::sync::{Forever, Wait};
use std::thread::{Parker, PromisedHandle, Threads};
use std::time::Duration;

/// What the calling thread does next.
#[derive(Clone, Copy)]
pub(crate) enum CallerDoes {
    /// Puts the start item.
    Begins,
    /// Puts the mark of the start lane.
    ClosesStart,
    /// Takes the reply in turn, and writes it.
    Writes,
    /// Takes and drops what comes from any lane.
    Drains,
    /// Joins the dealer.
    AwaitsDealer,
    /// Joins a worker. It has joined this many.
    AwaitsWorkers(usize),
}

/// With this the calling thread waits. Once its threads are started it has nothing else to wait
/// with, and each wait requires that it is the next one.
#[derive(Drop)]
pub(crate) struct CallerWaits<'a, R> {
    rt: &'a R,
    next: CallerDoes,
}

impl<'a, R> Model for CallerWaits<'a, R> {
    ghost use Rattle.fq_run.specs.Doing.{Caller};
    ghost use Rattle.fq_run.specs.Waiting.{caller_of};

    ghost Value = { Caller };

    ghost view = { λ w. caller_of w.next };
}

impl<'a, R> CallerWaits<'a, R> {
    /// All threads wait for the start lane.
    pub(crate) fn new(rt: &'a R) -> CallerWaits<'a, R>
        ensures { result ≡ begins }
    {
        CallerWaits {
            rt,
            next: CallerDoes::Begins,
        }
    }

    /// Closes the start lane without an item, because a thread was refused. So the dealer reads
    /// nothing, and closes its lanes, which ends the workers that were started.
    pub(crate) fn give_up(&mut self, starter: Tx<()>)
        requires may { self.old ≡ caller_before gave_up }
        requires none { starter.items ≡ [] }
        ensures next { self.new ≡ caller_after gave_up }
    {
        let _ = starter.close();
        self.next = CallerDoes::AwaitsDealer;
    }

    /// Closes the start lane.
    pub(crate) fn close_start(&mut self, starter: Tx<()>) -> Result<End<()>, NotEnded>
        requires may { self.old ≡ caller_before closed_start }
        ensures closed { IfOk result (λ end. end ≡ with_mark starter) }
        ensures next { self.new ≡ caller_after closed_start }
    {
        self.next = CallerDoes::Writes;
        starter.close()
    }

    /// A write has failed.
    pub(crate) fn fail_to_write(&mut self)
        requires may { self.old ≡ caller_before failed_to_write }
        ensures next { self.new ≡ caller_after failed_to_write }
    {
        self.next = CallerDoes::Drains;
    }

    /// The collector has taken each lane to its mark.
    pub(crate) fn end_drain(&mut self, collector: &Collector)
        requires may { self.old ≡ caller_before drained }
        requires closed { AllClosed collector.now.replies.items }
        ensures next { self.new ≡ caller_after drained }
    {
        self.next = CallerDoes::AwaitsDealer;
    }
}

impl<'a, R: Wait> CallerWaits<'a, R> {
    /// Rounds of a loop that may not end.
    pub(crate) fn rounds(&self) -> Forever<'a, R> {
        self.rt.forever()
    }

    /// Puts the start item. The lane has room for it.
    pub(crate) fn put_start(&mut self, starter: &mut Tx<()>)
        requires may { self.old ≡ caller_before began }
        ensures put { starter.new ≡ with_item starter.old tt }
        ensures next { self.new ≡ caller_after began }
    {
        starter.put(self.rt, ());
        self.next = CallerDoes::ClosesStart;
    }

    /// Takes the next reply of a lane, and waits until it is there. `None` is the mark.
    pub(crate) fn next_reply(&mut self, ends: &mut CollectorEnds) -> Option<Reply>
        requires may { self.old ≡ writes }
        ensures takes { Takes (taken_of result) ends.old ends.new }
        ensures moves { self.old ≡ caller_before (got result) }
        ensures next { self.new ≡ caller_after (got result) }
    {
        let reply = ends.replies.take_wait(self.rt);
        match &reply {
            Some(Reply::Done(_)) => {}
            Some(Reply::Stop(_)) | None => self.next = CallerDoes::Drains,
        }
        reply
    }

    /// Sleeps for this many microseconds, because nothing had come through any lane. In the model
    /// this is no move.
    pub(crate) fn rest(&self, sleeper: &Parker, microseconds: u64)
        requires may { self.now ≡ drains }
    {
        sleeper.park_timeout(self.rt, Duration::from_micros(microseconds));
    }
}

impl<'a, R: Threads> CallerWaits<'a, R> {
    /// Waits for the dealer.
    pub(crate) fn join_dealer<S: PairReader>(
        &mut self,
        dealer: PromisedHandle<Dealt<S>, Dealing<S>>,
    ) -> Dealt<S>
        requires may { self.old ≡ caller_before joined_dealer }
        ensures dealt { HasDealt dealer.promise.settings
            (S.state dealer.promise.source.value) (S.state result.source)
            dealer.promise.start.value result.start
            dealer.promise.to.value.items result.closings.items result.why }
        ensures next { self.new ≡ caller_after joined_dealer }
    {
        self.next = CallerDoes::AwaitsWorkers(0);
        dealer.join(self.rt)
    }

    /// Waits for a worker, after this many others.
    pub(crate) fn join_worker(&mut self, joined: usize, hand: PromisedHandle<Worked, Job>) -> Worked
        requires may { self.old ≡ caller_before (joined_worker joined) }
        requires few { joined + 1 < 2 ^ 64 }
        ensures joined { Joined hand result }
        ensures next { self.new ≡ caller_after (joined_worker joined) }
    {
        self.next = CallerDoes::AwaitsWorkers(joined + 1);
        hand.join(self.rt)
    }
}
