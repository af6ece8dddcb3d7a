//! What a lane does with its ring, in terms of the histories of the ends of the ring.
//!
//! Each move for which the other end may be sleeping (a push of an item or of the mark, a pop of an
//! item) returns a witness. A witness comes only from its move and cannot be dropped: waking the
//! other end is the only way to take it apart. So a caller that forgets the wake-up, makes it
//! depend on a condition, or does it only before the move, does not compile.

ghost use Rattle.std.specs.Prelude.{◌≡◌, ◌<◌, false, true, IsTrue, IfSome};
ghost use Rattle.rtrb.specs.Ring.{sent, known_free, received, all_sent};
ghost use Rattle.fq_lane.specs.History.{with_item, with_mark};
ghost use Rattle.fq_lane.specs.Slots.{IsHistory};
ghost use Rattle.fq_lane.specs.Ends.{sender_history, receiver_history, end_history, consumer_name, finished_name, IsOpen};
ghost use Rattle.fq_lane.specs.Take.{Pops};

use crate::parkers::Parkers;
use crate::slot::Slot;
use rtrb::{Consumer, Finished, Producer};

/// A push for which the receiver has not been woken yet. It does not implement `Drop`: only
/// [`Pushed::wake_receiver`] takes it apart.
pub(crate) struct Pushed {
    made_by_push: (),
}

impl Pushed {
    /// Wakes the receiver, after the push.
    pub(crate) fn wake_receiver(self, parkers: &Parkers) {
        let Pushed { made_by_push: () } = self;
        parkers.wake_receiver();
    }
}

/// A pop for which the sender has not been woken yet: a slot is free. It does not implement `Drop`:
/// only [`Freed::wake_sender`] takes it apart.
pub(crate) struct Freed {
    made_by_pop: (),
}

impl Freed {
    /// Wakes the sender, after the pop.
    pub(crate) fn wake_sender(self, parkers: &Parkers) {
        let Freed { made_by_pop: () } = self;
        parkers.wake_sender();
    }
}

/// What a pop finds. The mark has no [`Freed`]: the sender is closed by then and wants no slot.
pub(crate) enum Popped<T> {
    Item(T, Freed),
    Mark,
    Nothing,
}

/// Whether a slot is free besides the one that is kept for the mark.
pub(crate) fn has_room<T>(producer: &mut Producer<Slot<T>>) -> bool
    requires { IsOpen producer.old }
    ensures open { IsOpen producer.new }
    ensures unchanged { sender_history producer.new false ≡ sender_history producer.old false }
    ensures room { IsTrue result → 1 < known_free producer.new }
{
    producer.cached_slots() > 1 || producer.slots() > 1
}

/// Pushes an item, but not into the slot that is kept for the mark.
pub(crate) fn push_item<T>(producer: &mut Producer<Slot<T>>, item: T) -> Pushed
    requires open { IsOpen producer.old }
    requires room { 1 < known_free producer.old }
    ensures open { IsOpen producer.new }
    ensures sent { sender_history producer.new false
        ≡ with_item (sender_history producer.old false) item }
{
    producer.push_reserved(Slot::Item(item));
    Pushed { made_by_push: () }
}

/// Pushes the mark into the slot that is kept for it.
pub(crate) fn push_mark<T>(producer: &mut Producer<Slot<T>>) -> Pushed
    requires { IsOpen producer.old }
    ensures marked { IsHistory (sent producer.new) true }
    ensures sent { sender_history producer.new true
        ≡ with_mark (sender_history producer.old false) }
{
    producer.push_reserved(Slot::Mark);
    Pushed { made_by_push: () }
}

/// What is left of a producer after the mark. `None` if the consumer was dropped before.
pub(crate) fn finish<T: Drop>(producer: Producer<Slot<T>>) -> Option<Finished<Slot<T>>>
    requires { IsHistory (sent producer) true }
    ensures { IfSome result (λ end. IsHistory (all_sent end) true
        × (end_history end ≡ sender_history producer true)) }
{
    producer.finish()
}

/// Pops an item or the mark, whichever is next.
pub(crate) fn pop<T>(consumer: &mut Consumer<Slot<T>>) -> Popped<T>
    requires { IsHistory (received consumer.old) false }
    ensures { Pops result consumer.old consumer.new }
{
    match consumer.pop() {
        Ok(Slot::Item(item)) => Popped::Item(item, Freed { made_by_pop: () }),
        Ok(Slot::Mark) => Popped::Mark,
        Err(_) => Popped::Nothing,
    }
}

/// Looks at all that was ever sent, once the mark was got: it is what was got.
pub(crate) fn see_all<T: Drop>(consumer: &mut Consumer<Slot<T>>, finished: Finished<Slot<T>>)
    requires got { IsHistory (received consumer.old) true }
    requires sent { IsHistory (all_sent finished) true }
    requires one_lane { finished_name finished ≡ consumer_name consumer.old }
    ensures got { IsHistory (received consumer.new) true }
    ensures unchanged { receiver_history consumer.new true ≡ receiver_history consumer.old true }
    ensures whole { receiver_history consumer.new true ≡ end_history finished }
{
    let mut finished = finished;
    consumer.slots_after(&mut finished);
}
