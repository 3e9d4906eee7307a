ghost use Rattle.std.specs.Prelude.{◌≡◌, [], ◌∷◌, ◌-ℤ◌, IfOk};
ghost use Rattle.book_export.specs.Entries.{are_zero, fits_cost, plain_posting, posting_at, postings_apart};
ghost use Rattle.book_export.specs.Entries.{postings_at_cost, postings_of, unit_toward};

use book_commodity::{Many, OutOfMemory};
use book_splits::Split;
use std::alloc::Global;

/// A posting: a quantity in smallest units of its account's commodity, and what it costs in those of the transaction's
/// currency, where that is said.
#[derive(Clone, Copy, Debug)]
pub(crate) struct Posting {
    pub(crate) quantity: i128,
    pub(crate) cost: Option<i128>,
}

/// The postings of a split, on an account in the currency of its transaction or in another commodity.
pub(crate) fn postings_of(
    alloc: Global,
    in_currency: bool,
    split: &Split,
) -> Result<Many<Posting>, OutOfMemory>
    ensures { IfOk result (λ postings. postings ≡ postings_of in_currency split.now) }
{
    if in_currency {
        return one_posting(alloc, plain_posting(split.quantity));
    }
    postings_at_cost(alloc, split.quantity, split.value)
}

/// The postings of a quantity that costs a value.
fn postings_at_cost(alloc: Global, quantity: i64, value: i64) -> Result<Many<Posting>, OutOfMemory>
    ensures { IfOk result (λ postings. postings ≡ postings_at_cost quantity value) }
{
    if are_zero(quantity, value) {
        return one_posting(alloc, plain_posting(quantity));
    }
    if fits_cost(quantity, value) {
        return one_posting(alloc, posting_at(i128::from(quantity), value));
    }
    postings_apart(alloc, quantity, value)
}

/// One posting alone.
fn one_posting(alloc: Global, posting: Posting) -> Result<Many<Posting>, OutOfMemory>
    ensures { IfOk result (λ postings. postings ≡ posting ∷ []) }
{
    let mut postings = Many::new(alloc);
    postings.push(posting)?;
    Ok(postings)
}

/// The two postings of a quantity and of a value that can't be its cost.
fn postings_apart(alloc: Global, quantity: i64, value: i64) -> Result<Many<Posting>, OutOfMemory>
    ensures { IfOk result (λ postings. postings ≡ postings_apart quantity value) }
{
    let unit = unit_toward(value);
    let mut postings = Many::new(alloc);
    postings.push(posting_at(i128::from(unit), value))?;
    postings.push(posting_at(difference(quantity, unit), 0))?;
    Ok(postings)
}

/// The difference of two amounts.
fn difference(one: i64, other: i64) -> i128
    ensures { result ≡ one -ℤ other }
{
    i128::from(one) - i128::from(other)
}

/// Whether both amounts are zero.
fn are_zero(quantity: i64, value: i64) -> bool
    ensures { result ≡ are_zero quantity value }
{
    quantity == 0 && value == 0
}

/// A posting without a cost.
fn plain_posting(quantity: i64) -> Posting
    ensures { result ≡ plain_posting quantity }
{
    Posting {
        quantity: i128::from(quantity),
        cost: None,
    }
}

/// A posting that costs the size of a value.
fn posting_at(quantity: i128, value: i64) -> Posting
    ensures { result ≡ posting_at quantity value }
{
    Posting {
        quantity,
        cost: Some(i128::from(value.unsigned_abs())),
    }
}

/// Whether the quantity can be given the value as its cost.
fn fits_cost(quantity: i64, value: i64) -> bool
    ensures { result ≡ fits_cost quantity value }
{
    quantity > 0 && value >= 0 || quantity < 0 && value <= 0
}

/// One smallest unit with the sign of a value.
fn unit_toward(value: i64) -> i64
    ensures { result ≡ unit_toward value }
{
    if value < 0 { -1 } else { 1 }
}
