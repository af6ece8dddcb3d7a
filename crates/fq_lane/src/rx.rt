//! The receiving end of a lane.

ghost use Rattle.std.specs.Prelude.{◌≡◌, [], false, true};
ghost use Rattle.rtrb.specs.Ring.{received};
ghost use Rattle.fq_lane.specs.Ends.{consumer_name};
ghost use Rattle.fq_lane.specs.Take.{Takes, taken_of};

use crate::parkers::Parkers;
use crate::ring::{self, Popped};
use crate::slot::Slot;
use crate::taken::Taken;
use crate::tx::End;
use crossbeam_utils::Backoff;
use rtrb::Consumer;
use std::marker::Model;
use std::sync::{Arc, Wait};

/// The receiver of a lane. It can move to another thread if its items can.
///
/// Contracts see the lane's name, the items that were got, in order, and whether the mark was got
/// after them.
///
/// Keep the receiver until the sender's end is there, even after the mark: [`Tx::close`] returns an
/// end only while the receiver exists.
///
/// [`Tx::close`]: crate::Tx::close
#[derive(Drop)]
pub struct Rx<T: Drop> {
    consumer: Consumer<Slot<T>>,
    closed: bool,
    parkers: Arc<Parkers>,
}

impl<T: Drop> Model for Rx<T> {
    ghost use Rattle.fq_lane.specs.History.{History};
    ghost use Rattle.fq_lane.specs.Slots.{IsHistory};
    ghost use Rattle.fq_lane.specs.Ends.{receiver_history};
    ghost use Rattle.rtrb.specs.Ring.{received};

    ghost Value = { History T };

    ghost view = { λ r. receiver_history r.consumer r.closed };

    ghost invariant = { λ r. IsHistory (received r.consumer) r.closed };
}

impl<T: Drop> Rx<T> {
    pub(crate) fn over(consumer: Consumer<Slot<T>>, parkers: Arc<Parkers>) -> Rx<T>
        requires { received consumer ≡ [] }
        ensures { result ≡ record { name = consumer_name consumer; items = []; marked = false } }
    {
        Rx {
            consumer,
            closed: false,
            parkers,
        }
    }

    /// Takes the next item, or the mark, if it is there. After `Closed`, every call returns
    /// `Closed`. It never waits.
    ///
    /// If the sender sleeps, it is woken after the pop.
    pub fn take(&mut self) -> Taken<T>
        ensures { Takes result self.old self.new }
    {
        if self.closed {
            return Taken::Closed;
        }
        match ring::pop(&mut self.consumer) {
            Popped::Item(item, freed) => {
                freed.wake_sender(&self.parkers);
                Taken::Item(item)
            }
            Popped::Mark => {
                self.closed = true;
                Taken::Closed
            }
            Popped::Nothing => Taken::Empty,
        }
    }

    /// Takes the next item, and waits until it is there: it spins for a short while, and then
    /// sleeps until the sender moves. `None` is the mark, and after it every call returns `None`.
    ///
    /// No wake-up is lost. The sender leaves a token after each push, of an item or of the mark,
    /// and this end sleeps only while there is none. So a push that the last look at the ring
    /// missed ends the sleep, and the next look finds what was pushed.
    ///
    /// If the sender is dropped and not closed, the mark never comes, and a call on the empty lane
    /// does not return.
    pub fn take_wait(&mut self, rt: &impl Wait) -> Option<T>
        ensures { Takes (taken_of result) self.old self.new }
    {
        let backoff = Backoff::new();
        for _ in rt.forever() {
            match self.take() {
                Taken::Item(item) => return Some(item),
                Taken::Closed => return None,
                Taken::Empty => self.parkers.rest_receiver(rt, &backoff),
            }
        }
        unreachable!()
    }

    /// Whether the mark was got: a call has returned `Closed`, or `None` from [`Rx::take_wait`].
    pub fn is_closed(&self) -> bool
        ensures { result ≡ self.now.marked }
    {
        self.closed
    }

    /// Shows that what was got is what was sent, each item once and in order. It requires the end
    /// of this very lane, and a receiver that has got the mark. It changes neither list and never
    /// waits.
    pub fn confirm(&mut self, end: End<T>)
        requires closed { self.old.marked ≡ true }
        requires one_lane { end.name ≡ self.old.name }
        ensures unchanged { self.new ≡ self.old }
        ensures whole { self.new ≡ end }
    {
        let End { finished } = end;
        ring::see_all(&mut self.consumer, finished);
    }
}
