//! What goes through the ring of a lane.

/// An item, or the mark after the last one.
#[derive(Drop)]
pub(crate) enum Slot<T> {
    Item(T),
    Mark,
}
