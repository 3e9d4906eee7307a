ghost use Rattle.std.specs.Prelude.{◌≡◌, not};
ghost use Rattle.std.specs.List.{list_all};
ghost use Rattle.std.specs.Option.{option_copied};
ghost use Rattle.book_undo.specs.Book.{book_of};
ghost use Rattle.book_history.specs.Leaving.{is_harmless, is_number, is_unmatched, is_unnamed, is_unneeded};
ghost use Rattle.book_history.specs.Leaving.{is_without_lines, leaves_sound};

use crate::losing::none_loses;
use crate::marking::only_marks;
use crate::restating::{is_free_state, is_same_line};
use book_commodity::Table;
use book_splits::{Split, Txn, Txns};
use book_statement::Line;
use book_undo::{Edit, Plain, Thing, ThingKind};

/// Whether the edit is a single change that leads from a sound book to a sound one: it deletes a thing that nothing
/// else needs, or puts a harmless one. At most, the lines or the splits of the book are walked along once.
pub(crate) fn leaves_sound(plain: &Plain, edit: &Edit) -> bool
    ensures { result ≡ leaves_sound (book_of plain.now) edit.now }
{
    match edit {
        Edit::Put(number, thing) => is_harmless(plain, *number, thing),
        Edit::Gone(kind, number) => is_unneeded(plain, *kind, *number),
        Edit::Currency(_) | Edit::All(_) => false,
    }
}

/// Whether the thing only marks the splits of the transaction under the number, or only sets the line there to a state
/// in which it is matched with no split.
fn is_harmless(plain: &Plain, number: u64, thing: &Thing) -> bool
    ensures { result ≡ is_harmless number thing.now (book_of plain.now) }
{
    match thing {
        Thing::Txn(new) => only_marks(&plain.reconciliations, new, plain.transactions.find(number)),
        Thing::Line(new) => {
            is_free_state(new.state) && is_same_line(new, plain.lines.find(number))
        }
        _ => false,
    }
}

/// Whether nothing else needs the thing of this kind under the number.
fn is_unneeded(plain: &Plain, kind: ThingKind, number: u64) -> bool
    ensures { result ≡ is_unneeded kind number (book_of plain.now) }
{
    match kind {
        ThingKind::Txn => is_unmatched(&plain.lines, plain.transactions.find(number)),
        ThingKind::Held => is_without_lines(&plain.lines, number),
        ThingKind::Recon => is_unnamed(&plain.transactions, number),
        ThingKind::Price | ThingKind::Schedule | ThingKind::Line | ThingKind::Binding => true,
        ThingKind::Commodity | ThingKind::Account => false,
    }
}

/// Whether there is a transaction, and no line is matched with one of its splits.
fn is_unmatched(lines: &Table<Line>, found: Option<&Txn>) -> bool
    ensures { result ≡ is_unmatched lines.now.entries (option_copied found.entry) }
{
    match found {
        Some(transaction) => none_loses(lines, transaction.splits.as_slice(), &[]),
        None => false,
    }
}

/// Whether no line belongs to the statement.
fn is_without_lines(lines: &Table<Line>, statement: u64) -> bool
    ensures { result ≡ is_without_lines statement lines.now.entries }
{
    let mut entries = lines.as_slice().iter();
    entries.all(|(_, line)| line.statement != statement)
}

/// Whether no split names the reconciliation.
#[tactic(auto, using(book_check::proofs::HeadLemmas::all_splits))]
fn is_unnamed(transactions: &Txns, reconciliation: u64) -> bool
    ensures { result ≡ is_unnamed reconciliation transactions.now.entries }
{
    are_unnamed(transactions.as_slice(), reconciliation)
}

/// Whether no split of these transactions names the reconciliation.
fn are_unnamed(transactions: &[(u64, Txn)], reconciliation: u64) -> bool
    ensures { result ≡ list_all (λ entry. list_all (λ split. not (is_number reconciliation split.recon)) entry.1.splits)
        transactions.now }
{
    let mut entries = transactions.iter();
    entries.all(|(_, transaction)| none_names(transaction.splits.as_slice(), reconciliation))
}

/// Whether none of the splits names the reconciliation.
fn none_names(splits: &[Split], reconciliation: u64) -> bool
    ensures { result ≡ list_all (λ split. not (is_number reconciliation split.recon)) splits.now }
{
    splits
        .iter()
        .all(|split| !is_number(split.recon, reconciliation))
}

/// Whether the number is this one, if there is one.
fn is_number(number: Option<u64>, wanted: u64) -> bool
    ensures { result ≡ is_number wanted number }
{
    match number {
        Some(other) => other == wanted,
        None => false,
    }
}
