ghost use Rattle.std.specs.Prelude.{◌≡◌, ◌++◌, IfOk, OnOk, map};
ghost use Rattle.std.specs.List.{AllByRecursion};
ghost use Rattle.book_undo.specs.Thing.{row_kind};
ghost use Rattle.book_undo.specs.declared.thing.Thing.TheVariants as thing;
ghost use Rattle.book_rows.specs.AccountBytes.{account_bytes, IsAccount};
ghost use Rattle.book_rows.specs.EditBytes.{edit_bytes, IsEdit};
ghost use Rattle.book_rows.specs.PriceBytes.{price_bytes, IsPrice};
ghost use Rattle.book_rows.specs.Row.{IsWithin};
ghost use Rattle.book_rows.specs.declared.format.RowFormat.TheVariants.{Two};
ghost use Rattle.book_opening.specs.BookRows.{back_records, forth_records, records_in, records_of};
ghost use Rattle.book_opening.specs.Changes.{AreRecords, IsShallow, all_put, entry_put, puts_of};
ghost use Rattle.book_opening.specs.State.{head_of, state_of};

use crate::Saved;
use crate::step_changes::step_put;
use crate::steps::{BACK, FORTH};
use crate::thing_row::head_row;
use book_accounts::{Account, Tree};
use book_codec::{Field, write_whole};
use book_commodity::{Commodity, Many, OutOfMemory};
use book_keeper::{Change, Row, RowKey};
use book_prices::{Price, Prices};
use book_rows::{Head, Rows, WRITTEN_FORMAT, kind_byte};
use book_splits::{Recon, Txn};
use book_statement::{Binding, Held, Line};
use book_undo::{Edit, Plain, Schedule, ThingKind};
use std::alloc::Global;

/// The changes by which the rows of a state come to be where there were none, or those of format 1 come to be those of
/// format 2: each of its rows is put.
pub fn all_rows(alloc: Global, saved: &Saved) -> Result<Many<Change>, OutOfMemory>
    requires within { IsWithin (head_of (state_of saved.now)) }
    requires back { AllByRecursion IsShallow saved.now.back.entries }
    requires forth { AllByRecursion IsShallow saved.now.forth.entries }
    ensures changes { IfOk result (λ changes. changes ≡ all_put (state_of saved.now)) }
    ensures fit { IfOk result (λ changes. AreRecords (records_of (state_of saved.now))) }
{
    let mut changes = Many::new(alloc);
    changes.push(Change::Put(head_row(alloc, head_of(saved))?))?;
    add_ledger(alloc, &saved.plain, &mut changes)?;
    add_plans(alloc, &saved.plain, &mut changes)?;
    add_bank(alloc, &saved.plain, &mut changes)?;
    add_steps(alloc, saved, &mut changes)?;
    Ok(changes)
}

/// The head of a state.
fn head_of(saved: &Saved) -> Head
    ensures { result ≡ head_of (state_of saved.now) }
{
    Head {
        next: saved.next,
        version: saved.version,
        position: saved.position,
        past: saved.past,
        later: saved.later,
        currency: saved.plain.currency,
    }
}

/// Adds the changes that put the commodities, the accounts and the transactions.
fn add_ledger(alloc: Global, plain: &Plain, changes: &mut Many<Change>) -> Result<(), OutOfMemory>
    ensures added { OnOk result (changes.new ≡ changes.old
        ++ puts_of (records_in (λ it. thing.Commodity it) plain.now.commodities.entries)
        ++ puts_of (records_in (λ it. thing.Account it) plain.now.accounts.entries)
        ++ puts_of (records_in (λ it. thing.Txn it) plain.now.transactions.entries)) }
    ensures commodities { OnOk result (AreRecords (records_in (λ it. thing.Commodity it)
        plain.now.commodities.entries)) }
    ensures accounts { OnOk result (AreRecords (records_in (λ it. thing.Account it) plain.now.accounts.entries)) }
    ensures transactions { OnOk result (AreRecords (records_in (λ it. thing.Txn it)
        plain.now.transactions.entries)) }
{
    put_entries::<Commodity>(
        alloc,
        ThingKind::Commodity,
        plain.commodities.as_slice(),
        changes,
    )?;
    put_accounts(alloc, &plain.accounts, changes)?;
    put_entries::<Txn>(
        alloc,
        ThingKind::Txn,
        plain.transactions.as_slice(),
        changes,
    )?;
    Ok(())
}

/// Adds the changes that put the prices, the schedules and the statements.
fn add_plans(alloc: Global, plain: &Plain, changes: &mut Many<Change>) -> Result<(), OutOfMemory>
    ensures added { OnOk result (changes.new ≡ changes.old
        ++ puts_of (records_in (λ it. thing.Price it) plain.now.prices.entries)
        ++ puts_of (records_in (λ it. thing.Schedule it) plain.now.schedules.entries)
        ++ puts_of (records_in (λ it. thing.Held it) plain.now.statements.entries)) }
    ensures prices { OnOk result (AreRecords (records_in (λ it. thing.Price it) plain.now.prices.entries)) }
    ensures schedules { OnOk result (AreRecords (records_in (λ it. thing.Schedule it)
        plain.now.schedules.entries)) }
    ensures statements { OnOk result (AreRecords (records_in (λ it. thing.Held it)
        plain.now.statements.entries)) }
{
    put_prices(alloc, &plain.prices, changes)?;
    put_entries::<Schedule>(
        alloc,
        ThingKind::Schedule,
        plain.schedules.as_slice(),
        changes,
    )?;
    put_entries::<Held>(alloc, ThingKind::Held, plain.statements.as_slice(), changes)?;
    Ok(())
}

/// Adds the changes that put the lines of statements, the bindings and the reconciliations.
fn add_bank(alloc: Global, plain: &Plain, changes: &mut Many<Change>) -> Result<(), OutOfMemory>
    ensures added { OnOk result (changes.new ≡ changes.old
        ++ puts_of (records_in (λ it. thing.Line it) plain.now.lines.entries)
        ++ puts_of (records_in (λ it. thing.Binding it) plain.now.bindings.entries)
        ++ puts_of (records_in (λ it. thing.Recon it) plain.now.reconciliations.entries)) }
    ensures lines { OnOk result (AreRecords (records_in (λ it. thing.Line it) plain.now.lines.entries)) }
    ensures bindings { OnOk result (AreRecords (records_in (λ it. thing.Binding it) plain.now.bindings.entries)) }
    ensures reconciliations { OnOk result (AreRecords (records_in (λ it. thing.Recon it)
        plain.now.reconciliations.entries)) }
{
    put_entries::<Line>(alloc, ThingKind::Line, plain.lines.as_slice(), changes)?;
    put_entries::<Binding>(
        alloc,
        ThingKind::Binding,
        plain.bindings.as_slice(),
        changes,
    )?;
    put_entries::<Recon>(
        alloc,
        ThingKind::Recon,
        plain.reconciliations.as_slice(),
        changes,
    )?;
    Ok(())
}

/// Adds the changes that put the steps back and the steps forth.
fn add_steps(alloc: Global, saved: &Saved, changes: &mut Many<Change>) -> Result<(), OutOfMemory>
    requires back { AllByRecursion IsShallow saved.now.back.entries }
    requires forth { AllByRecursion IsShallow saved.now.forth.entries }
    ensures added { OnOk result (changes.new ≡ changes.old
        ++ puts_of (back_records saved.now.back.entries)
        ++ puts_of (forth_records saved.now.forth.entries)) }
    ensures back { OnOk result (AreRecords (back_records saved.now.back.entries)) }
    ensures forth { OnOk result (AreRecords (forth_records saved.now.forth.entries)) }
{
    put_steps(alloc, BACK, saved.back.as_slice(), changes)?;
    put_steps(alloc, FORTH, saved.forth.as_slice(), changes)?;
    Ok(())
}

/// Adds the changes that put the rows of this kind of steps.
fn put_steps(
    alloc: Global,
    kind: u8,
    steps: &[(u64, Edit)],
    changes: &mut Many<Change>,
) -> Result<(), OutOfMemory>
    requires { AllByRecursion IsShallow steps.now }
    ensures added { OnOk result (changes.new ≡ changes.old ++ map (entry_put kind (edit_bytes Two)) steps.now) }
    ensures fit { OnOk result (AllByRecursion (λ step. IsEdit Two step.1) steps.now) }
{
    for step in steps {
        changes.push(step_put(alloc, kind, step.0, &step.1)?)?;
    }
    Ok(())
}

/// The change that puts the row of a value under a number.
fn value_put<T: Field<Rows>>(
    alloc: Global,
    kind: ThingKind,
    number: u64,
    value: &T,
) -> Result<Change, OutOfMemory>
    ensures change { IfOk result (λ change. change ≡ entry_put (row_kind kind) T.spelling (number, value.now)) }
    ensures fits { IfOk result (λ change. T.fits value.now) }
{
    let body = write_whole::<Rows, T>(alloc, WRITTEN_FORMAT, value)?;
    Ok(Change::Put(Row {
        key: RowKey {
            kind: kind_byte(kind),
            id: number,
        },
        body,
    }))
}

/// Adds the changes that put the entries of a table.
fn put_entries<T: Field<Rows>>(
    alloc: Global,
    kind: ThingKind,
    entries: &[(u64, T)],
    changes: &mut Many<Change>,
) -> Result<(), OutOfMemory>
    ensures added { OnOk result (changes.new ≡ changes.old ++ map (entry_put (row_kind kind) T.spelling) entries.now) }
    ensures fit { OnOk result (AllByRecursion (λ entry. T.fits entry.1) entries.now) }
{
    for entry in entries {
        changes.push(value_put::<T>(alloc, kind, entry.0, &entry.1)?)?;
    }
    Ok(())
}

/// Adds the changes that put the accounts.
fn put_accounts(
    alloc: Global,
    accounts: &Tree,
    changes: &mut Many<Change>,
) -> Result<(), OutOfMemory>
    ensures added { OnOk result (changes.new ≡ changes.old ++ map (entry_put 3 account_bytes) accounts.now.entries) }
    ensures fit { OnOk result (AllByRecursion (λ entry. IsAccount entry.1) accounts.now.entries) }
{
    for place in 0..accounts.len() {
        let number = accounts.number_at(place);
        changes.push(value_put::<Account>(
            alloc,
            ThingKind::Account,
            number,
            accounts.value_at(place),
        )?)?;
    }
    Ok(())
}

/// Adds the changes that put the prices.
fn put_prices(alloc: Global, prices: &Prices, changes: &mut Many<Change>) -> Result<(), OutOfMemory>
    ensures added { OnOk result (changes.new ≡ changes.old ++ map (entry_put 5 price_bytes) prices.now.entries) }
    ensures fit { OnOk result (AllByRecursion (λ entry. IsPrice entry.1) prices.now.entries) }
{
    for place in 0..prices.len() {
        let number = prices.number_at(place);
        changes.push(value_put::<Price>(alloc, ThingKind::Price, number, prices.value_at(place))?)?;
    }
    Ok(())
}
