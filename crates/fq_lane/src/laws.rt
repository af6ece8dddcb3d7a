//! Laws of a lane, for every order of events.
ghost use Rattle.std.specs.Prelude.{◌≡◌, false, true, List, [], ◌∷◌};
ghost use mathlib.Core.List.{IsPrefix};
ghost use Rattle.fq_lane.specs.History.{History, with_item, with_mark};
ghost use Rattle.fq_lane.specs.Order.{Event, push_item, push_mark, pop, after_event, after_events, new_lane, has_mark, next_slot, lane_of};
ghost use Rattle.fq_lane.specs.declared.slot.Slot.TheVariants.{Item, Mark};

/// A lane under every order of events, from the moment when it is made. An event is a push of an
/// item, the push of the mark, a pop, or the giving of the end.
///
/// - What was got is a prefix of what was sent, whatever has happened so far, and all of it once
///   the mark was got.
/// - What the contracts of the calls add to a history (`with_item`, `with_mark`) is what the event
///   adds to the list of that end.
pub fn lane_order<T>()
    ensures prefix { (events : List (Event T)) →
        IsPrefix (after_events new_lane events).got (after_events new_lane events).sent }
    ensures whole { (events : List (Event T)) → has_mark (after_events new_lane events).got ≡ true
        → (after_events new_lane events).got ≡ (after_events new_lane events).sent }

    // Each call is one event.
    ensures sends_item { (sent : History T) (got : History T) (x : T) → sent.marked ≡ false
        → after_event (lane_of sent got) (push_item x) ≡ lane_of (with_item sent x) got }
    ensures sends_mark { (sent : History T) (got : History T) → sent.marked ≡ false
        → after_event (lane_of sent got) push_mark ≡ lane_of (with_mark sent) got }
    ensures gets_item { (sent : History T) (got : History T) (x : T) → got.marked ≡ false →
        next_slot (lane_of sent got) ≡ Item x ∷ []
        → after_event (lane_of sent got) pop ≡ lane_of sent (with_item got x) }
    ensures gets_mark { (sent : History T) (got : History T) → got.marked ≡ false →
        next_slot (lane_of sent got) ≡ Mark ∷ []
        → after_event (lane_of sent got) pop ≡ lane_of sent (with_mark got) }
{}
