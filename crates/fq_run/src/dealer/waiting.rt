//! How the dealer waits: for what it does next in the model of a run's threads, and for nothing
//! else.

ghost use Rattle.std.specs.Prelude.{◌≡◌, ◌≤◌, ◌<◌, ◌+◌, ◌^◌, true, length, IfOk};
ghost use Rattle.fq_lane.specs.History.{with_item};
ghost use Rattle.fq_lane.specs.Take.{Takes, taken_of};
ghost use Rattle.fq_run.specs.Doing.{awaits_start, ended_reading, put_block, passed_start, closed, dealer_before, dealer_after};
ghost use Rattle.fq_run.specs.Waiting.{started};
ghost use Rattle.fq_run.specs.dealer.Dealt.{Closed};

use crate::dealer::ends::DealerEnds;
use fq_block::Block;
use fq_lane::{End, NotEnded, Rx};
use std::marker::Model;
use std::sync::Wait;

/// What the dealer does next.
#[derive(Clone, Copy)]
pub(crate) enum DealerDoes {
    /// Takes the start item, or the mark of the start lane.
    AwaitsStart,
    /// Puts a block.
    Deals,
    /// Takes the mark of the start lane.
    PassesStart,
    /// Puts the mark of a lane of blocks. It has put this many.
    Closes(usize),
}

/// With this alone the dealer waits, and each wait requires that it is the next one.
#[derive(Drop)]
pub(crate) struct DealerWaits<'a, R> {
    rt: &'a R,
    next: DealerDoes,
}

impl<'a, R> Model for DealerWaits<'a, R> {
    ghost use Rattle.fq_run.specs.Doing.{Dealer};
    ghost use Rattle.fq_run.specs.Waiting.{dealer_of};

    ghost Value = { Dealer };

    ghost view = { λ w. dealer_of w.next };
}

impl<'a, R> DealerWaits<'a, R> {
    pub(crate) fn new(rt: &'a R) -> DealerWaits<'a, R>
        ensures { result ≡ awaits_start }
    {
        DealerWaits {
            rt,
            next: DealerDoes::AwaitsStart,
        }
    }

    /// Nothing more is read.
    pub(crate) fn end_reading(&mut self)
        requires may { self.old ≡ dealer_before ended_reading }
        ensures next { self.new ≡ dealer_after ended_reading }
    {
        self.next = DealerDoes::PassesStart;
    }

    /// Closes a lane of blocks, after this many others.
    pub(crate) fn close_lane(
        &mut self,
        already: usize,
        ends: DealerEnds,
    ) -> Result<End<Block>, NotEnded>
        requires may { self.old ≡ dealer_before (closed already) }
        requires few { already + 1 < 2 ^ 64 }
        ensures closed { Closed ends result }
        ensures next { self.new ≡ dealer_after (closed already) }
    {
        self.next = DealerDoes::Closes(already + 1);
        ends.to.close()
    }
}

impl<'a, R: Wait> DealerWaits<'a, R> {
    /// Takes the start item, and waits until it is there. `None` is the mark.
    pub(crate) fn take_start(&mut self, start: &mut Rx<()>) -> Option<()>
        requires may { self.old ≡ awaits_start }
        ensures takes { Takes (taken_of result) start.old start.new }
        ensures moves { self.old ≡ dealer_before (started result) }
        ensures next { self.new ≡ dealer_after (started result) }
    {
        let item = start.take_wait(self.rt);
        self.next = match item {
            Some(()) => DealerDoes::Deals,
            None => DealerDoes::Closes(0),
        };
        item
    }

    /// Puts a block, and waits until the lane has room for it.
    pub(crate) fn put_block(&mut self, ends: &mut DealerEnds, block: Block)
        requires may { self.old ≡ dealer_before put_block }
        ensures sent { ends.new ≡ with_item ends.old block }
        ensures next { self.new ≡ dealer_after put_block }
    {
        ends.to.put(self.rt, block);
    }

    /// Takes the start lane to its mark.
    pub(crate) fn pass_start(&mut self, start: &mut Rx<()>)
        requires may { self.old ≡ dealer_before passed_start }
        ensures name { start.new.name ≡ start.old.name }
        ensures closed { start.new.marked ≡ true }
        ensures items { length start.old.items ≤ length start.new.items }
        ensures next { self.new ≡ dealer_after passed_start }
    {
        for _ in self.rt.forever() {
            if start.take_wait(self.rt).is_none() {
                self.next = DealerDoes::Closes(0);
                return;
            }
        }
        unreachable!()
    }
}
