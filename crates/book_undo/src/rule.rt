use crate::ThingKind;

/// Why an edit may not be applied to a book.
#[derive(Clone, Copy, Debug, PartialEq, Eq)]
pub enum EditRule {
    /// It deletes a thing that the book does not have; the first such leaf is named.
    Missing { kind: ThingKind, id: u64 },
    /// The keys of its leaves do not rise. The place is that of the first leaf whose key is not above the one before
    /// it: how many leaves stand before it, at most 2^64 - 1.
    OutOfOrder { place: u64 },
    /// More than eight of its lists stand in one another.
    TooDeep,
}
