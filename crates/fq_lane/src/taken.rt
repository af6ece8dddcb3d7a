//! What a receiver finds.

/// What a receiver found.
#[derive(Debug, Drop, PartialEq, Eq)]
pub enum Taken<T> {
    /// The next item.
    Item(T),
    /// Nothing was there. The sender can send more at any time.
    Empty,
    /// The mark was there, in this call or in an earlier one. No more items come.
    Closed,
}
