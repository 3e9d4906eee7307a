ghost use Rattle.std.specs.Prelude.{◌≡◌, IfOk, None, take, drop};
ghost use Rattle.book_commodity.specs.Rules.{first_broken};
ghost use Rattle.book_undo.specs.Book.{book_of, IsRising};
ghost use Rattle.book_sound.specs.Soundness.{AreDrawn, IsSoundBook};
ghost use Rattle.book_check.specs.FirstUnsound.{first_unsound, thing_keys};

use crate::accounts::first_account;
use crate::bindings::first_binding;
use crate::commodities::first_commodity;
use crate::head::keeps_head;
use crate::lines::first_line;
use crate::prices::first_price;
use crate::reconciliations::first_reconciliation;
use crate::schedules::first_schedule;
use crate::statements::first_statement;
use crate::transactions::first_transaction;
use book_commodity::OutOfMemory;
use book_keeper::RowKey;
use book_undo::Plain;
use std::alloc::Global;

/// The first key at which the book is not sound, or a number is not below the next; `None` where the book is sound and
/// all its numbers are drawn. The kinds are asked in their order, from the head to the reconciliations.
pub fn first_unsound(alloc: Global, plain: &Plain, next: u64) -> Result<Option<RowKey>, OutOfMemory>
    ensures found { IfOk result (λ found. found ≡ first_unsound (book_of plain.now) next) }
    ensures sound { IfOk result
        (λ found. found ≡ None → IsSoundBook (book_of plain.now) × AreDrawn (book_of plain.now) next) }
    ensures kept { IfOk result
        (λ found. IsSoundBook (book_of plain.now) → AreDrawn (book_of plain.now) next → found ≡ None) }
{
    let found = first_in_order(alloc, plain, next)?;
    rising(plain);
    Ok(found)
}

/// The first unsound key of the head, or else of the tables.
fn first_in_order(alloc: Global, plain: &Plain, next: u64) -> Result<Option<RowKey>, OutOfMemory>
    ensures { IfOk result (λ found. found ≡ first_unsound (book_of plain.now) next) }
{
    if !keeps_head(plain, next) {
        return Ok(Some(RowKey { kind: 1, id: 0 }));
    }
    if let Some(key) = first_of_ledger(alloc, plain)? {
        return Ok(Some(key));
    }
    first_of_rest(alloc, plain)
}

/// The first unsound key of commodities, accounts, transactions and prices.
#[tactic(auto, using(crate::proofs::RowKeyLemmas::key_found, crate::proofs::RowKeyLemmas::key_skips))]
fn first_of_ledger(alloc: Global, plain: &Plain) -> Result<Option<RowKey>, OutOfMemory>
    ensures { IfOk result (λ found. found ≡ first_broken (take 4 (thing_keys (book_of plain.now)))) }
{
    if let Some(id) = first_commodity(alloc, &plain.commodities)? {
        return Ok(Some(RowKey { kind: 2, id }));
    }
    if let Some(id) = first_account(alloc, &plain.commodities, &plain.accounts)? {
        return Ok(Some(RowKey { kind: 3, id }));
    }
    if let Some(id) = first_transaction(
        alloc,
        &plain.commodities,
        &plain.accounts,
        &plain.reconciliations,
        &plain.transactions,
    )? {
        return Ok(Some(RowKey { kind: 4, id }));
    }
    if let Some(id) = first_price(alloc, &plain.commodities, &plain.prices)? {
        return Ok(Some(RowKey { kind: 5, id }));
    }
    Ok(None)
}

/// The first unsound key of schedules, statements, lines, bindings and reconciliations.
#[tactic(auto, using(crate::proofs::RowKeyLemmas::key_found, crate::proofs::RowKeyLemmas::key_skips))]
fn first_of_rest(alloc: Global, plain: &Plain) -> Result<Option<RowKey>, OutOfMemory>
    ensures { IfOk result (λ found. found ≡ first_broken (drop 4 (thing_keys (book_of plain.now)))) }
{
    if let Some(id) = first_schedule(&plain.commodities, &plain.accounts, &plain.schedules)? {
        return Ok(Some(RowKey { kind: 6, id }));
    }
    if let Some(id) = first_statement(alloc, &plain.accounts, &plain.statements)? {
        return Ok(Some(RowKey { kind: 7, id }));
    }
    if let Some(id) = first_line(
        alloc,
        &plain.accounts,
        &plain.statements,
        &plain.transactions,
        &plain.lines,
    )? {
        return Ok(Some(RowKey { kind: 8, id }));
    }
    if let Some(id) = first_binding(alloc, &plain.accounts, &plain.bindings)? {
        return Ok(Some(RowKey { kind: 9, id }));
    }
    if let Some(id) = first_reconciliation(alloc, &plain.accounts, &plain.reconciliations)? {
        return Ok(Some(RowKey { kind: 10, id }));
    }
    Ok(None)
}

/// The numbers of each table rise.
fn rising(plain: &Plain)
    ensures { IsRising (book_of plain.now) }
{
    let _ = plain.commodities.len();
    let _ = plain.accounts.len();
    let _ = plain.transactions.len();
    let _ = plain.prices.len();
    let _ = plain.schedules.len();
    let _ = plain.statements.len();
    let _ = plain.lines.len();
    let _ = plain.bindings.len();
    let _ = plain.reconciliations.len();
}
