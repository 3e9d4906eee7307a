ghost use Rattle.std.specs.Prelude.{◌≡◌, ◌∷◌, [], None, Some, IfNone, IfOk, IfSome, option_map};
ghost use Rattle.book_commodity.specs.Rules.{ReportsFirst};
ghost use Rattle.book_sound.specs.LineRules.{split_among, split_at};
ghost use Rattle.book_step.specs.Marking.{IsHeld, unknown_split};

use crate::Rule;
use crate::edited_splits::find_split;
use crate::present::Present;
use book_commodity::Kind;
use book_splits::{Split, Txn};
use std::marker::Model;

/// A split of the book, borrowed, with the transaction that has it and that one's number.
#[derive(Drop)]
pub(crate) struct Held<'a> {
    pub(crate) number: u64,
    pub(crate) transaction: &'a Txn,
    pub(crate) split: &'a Split,
}

impl<'a> Model for Held<'a> {
    ghost use Rattle.book_step.specs.Marking.{Held};

    ghost Value = { Held };

    ghost view = { λ h. record { number = h.number; transaction = h.transaction.now; split = h.split.now } };
}

/// The split of this number, which is one of the book's.
pub(crate) fn known_split<'a>(present: &Present<'a>, number: u64) -> Result<Held<'a>, Rule>
    ensures there { IfOk result (IsHeld present.now.book.transactions number) }
    ensures split { IfOk result (λ held. split_at number present.now.book.transactions ≡ Some held.split) }
    ensures unknown { ReportsFirst (unknown_split present.now.book.transactions number ∷ []) result }
{
    match find_held(present, number) {
        Some(held) => Ok(held),
        None => Err(Rule::Unknown {
            kind: Kind::Split,
            id: number,
        }),
    }
}

/// The split of this number, if it is one of the book's.
fn find_held<'a>(present: &Present<'a>, number: u64) -> Option<Held<'a>>
    ensures there { IfSome result (IsHeld present.now.book.transactions number) }
    ensures split { option_map (λ held. held.split) result ≡ split_at number present.now.book.transactions }
{
    if let Some(held) = held_nearby(present, number) {
        return Some(held);
    }
    for (own, transaction) in present.plain.transactions.as_slice() {
        if let Some(held) = held_in(*own, transaction, number) {
            return Some(held);
        }
    }
    None
}

/// The split of this number, where the last transaction with a smaller number has it, as it does unless the split was
/// added to a transaction later: a transaction's number is drawn before those of its splits.
pub(crate) fn held_nearby<'a>(present: &Present<'a>, number: u64) -> Option<Held<'a>>
    ensures there { IfSome result (IsHeld present.now.book.transactions number) }
    ensures split { IfSome result (λ held. split_at number present.now.book.transactions ≡ Some held.split) }
{
    let entries = present.plain.transactions.as_slice();
    let place = entries.partition_point(|entry| entry.0 < number);
    if place == 0 {
        return None;
    }
    let entry = &entries[place - 1];
    held_in(entry.0, &entry.1, number)
}

/// The split of this number, if it is one of the transaction's, which has its own number.
fn held_in<'a>(own: u64, transaction: &'a Txn, number: u64) -> Option<Held<'a>>
    ensures there { IfSome result (λ held. held
        ≡ record { number = own; transaction = transaction.now; split = held.split }) }
    ensures found { IfSome result (λ held. split_among number transaction.now.splits ≡ Some held.split) }
    ensures none { IfNone result (split_among number transaction.now.splits ≡ None) }
{
    match find_split(transaction.splits.as_slice(), number) {
        Some(split) => Some(Held {
            number: own,
            transaction,
            split,
        }),
        None => None,
    }
}
