//! The sending end of a lane, and what is left of it.

ghost use Rattle.std.specs.Prelude.{◌≡◌, ◌<◌, false, [], OnOk, IfOk, IfErr};
ghost use Rattle.rtrb.specs.Ring.{sent, known_free};
ghost use Rattle.fq_lane.specs.History.{with_item, with_mark};
ghost use Rattle.fq_lane.specs.Ends.{producer_name};

use crate::parkers::Parkers;
use crate::ring;
use crate::slot::Slot;
use crossbeam_utils::Backoff;
use rtrb::{Finished, Producer};
use std::marker::Model;
use std::sync::{Arc, Wait};
use thiserror::Error;

/// The sender of a lane. It can move to another thread if its items can.
///
/// Contracts see the lane's name and the items that were sent, in order.
///
/// If a sender is dropped without [`Tx::close`], no mark ever comes through the lane: what is still
/// in it can be taken, and after that the receiver always finds it empty.
#[derive(Drop)]
pub struct Tx<T: Drop> {
    producer: Producer<Slot<T>>,
    parkers: Arc<Parkers>,
}

impl<T: Drop> Model for Tx<T> {
    ghost use Rattle.std.specs.Prelude.{false};
    ghost use Rattle.fq_lane.specs.History.{History};
    ghost use Rattle.fq_lane.specs.Ends.{sender_history, IsOpen};

    ghost Value = { History T };

    ghost view = { λ t. sender_history t.producer false };

    ghost invariant = { λ t. IsOpen t.producer };
}

/// The lane had no room for the item, which is returned.
#[derive(Debug, Drop, PartialEq, Eq, Error)]
#[error("the lane is full")]
pub struct Full<T> {
    /// The item that was not sent.
    pub item: T,
}

/// The receiver was dropped before the lane was closed: the mark was sent all the same, but there
/// is no [`End`], so this lane can never be confirmed. Only [`Tx::close`] makes this value.
#[derive(Debug, Drop, PartialEq, Eq, Error)]
#[error("the lane's receiver was dropped before the lane was closed")]
pub struct NotEnded {
    made_by_close: (),
}

/// What is left of a sender once its lane is closed. It can move to the receiver's thread, where
/// [`Rx::confirm`] consumes it.
///
/// Contracts see the lane's name and all the items that were sent, in order.
///
/// [`Rx::confirm`]: crate::Rx::confirm
#[derive(Drop)]
pub struct End<T: Drop> {
    pub(crate) finished: Finished<Slot<T>>,
}

impl<T: Drop> Model for End<T> {
    ghost use Rattle.std.specs.Prelude.{true};
    ghost use Rattle.fq_lane.specs.History.{History};
    ghost use Rattle.fq_lane.specs.Slots.{IsHistory};
    ghost use Rattle.fq_lane.specs.Ends.{end_history};
    ghost use Rattle.rtrb.specs.Ring.{all_sent};

    ghost Value = { History T };

    ghost view = { λ e. end_history e.finished };

    ghost invariant = { λ e. IsHistory (all_sent e.finished) true };
}

impl<T: Drop> Tx<T> {
    pub(crate) fn over(producer: Producer<Slot<T>>, parkers: Arc<Parkers>) -> Tx<T>
        requires { (sent producer ≡ []) × (0 < known_free producer) }
        ensures { result ≡ record { name = producer_name producer; items = []; marked = false } }
    {
        Tx { producer, parkers }
    }

    /// Sends the item if the lane has room for it. Otherwise returns the item and changes nothing.
    /// It never waits.
    ///
    /// If the receiver sleeps, it is woken after the push.
    pub fn offer(&mut self, item: T) -> Result<(), Full<T>>
        ensures ok { OnOk result (self.new ≡ with_item self.old item) }
        ensures full { IfErr result (λ refused. (refused.item ≡ item) × (self.new ≡ self.old)) }
    {
        if ring::has_room(&mut self.producer) {
            ring::push_item(&mut self.producer, item).wake_receiver(&self.parkers);
            Ok(())
        } else {
            Err(Full { item })
        }
    }

    /// Sends the item, and waits until the lane has room for it: it spins for a short while, and
    /// then sleeps until the receiver moves.
    ///
    /// No wake-up is lost. The receiver leaves a token after each pop, and this end sleeps only
    /// while there is none. So a pop that the last look at the ring missed ends the sleep, and the
    /// next look finds the room.
    ///
    /// If the receiver is dropped while the lane is full, room never comes, and the call does not
    /// return.
    pub fn put(&mut self, rt: &impl Wait, item: T)
        ensures { self.new ≡ with_item self.old item }
    {
        let backoff = Backoff::new();
        let mut item = item;
        for _ in rt.forever() {
            match self.offer(item) {
                Ok(()) => return,
                Err(Full { item: back }) => item = back,
            }
            self.parkers.rest_sender(rt, &backoff);
        }
        unreachable!()
    }

    /// Sends the mark, for which a slot was kept, and returns the lane's end. It never waits.
    ///
    /// Returns [`NotEnded`] if the receiver was dropped before the end was given, so keep the
    /// receiver even after it has got the mark. The mark was sent all the same, but the lane cannot
    /// be confirmed.
    ///
    /// If the receiver sleeps, it is woken after the push of the mark.
    pub fn close(self) -> Result<End<T>, NotEnded>
        ensures { IfOk result (λ end. end ≡ with_mark self) }
    {
        let Tx {
            mut producer,
            parkers,
        } = self;
        let pushed = ring::push_mark(&mut producer);
        let finished = ring::finish(producer);
        pushed.wake_receiver(&parkers);
        let finished = finished.ok_or(NotEnded { made_by_close: () })?;
        Ok(End { finished })
    }
}
