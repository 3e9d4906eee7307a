//! Which key of a book is the first at which it is not sound: the rules are those of `book_sound`, asked key by key,
//! from the head and the commodities to the reconciliations. `first_unsound` finds that key and no other, and finds
//! none exactly where the book is sound and all its numbers are drawn; it changes nothing, and fails only when it is
//! out of memory. What may stand once is looked up in a set of the keys that were seen; numbers of splits, while they
//! rise, in a list; and a split by its number in a map. So no walk compares each thing with each. Set, list and map take
//! memory. One walk goes over the things of each kind but transactions, and asks what the kind states.
#![tactic(auto)]

mod accounts;
mod bindings;
mod book;
mod commodities;
mod head;
mod lines;
mod marks;
mod numbers;
mod passes;
mod prices;
mod reconciliations;
mod schedules;
mod seen;
mod splits;
mod statements;
mod transactions;
mod walk;

pub use book::first_unsound;
