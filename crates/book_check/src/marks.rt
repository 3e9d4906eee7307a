ghost use Rattle.std.specs.Prelude.{◌≡◌, IfOk, OnOk, ◌||◌};
ghost use Rattle.book_sound.specs.MarkedTransactionRules.{are_rightly_marked, has_marked, is_named_rightly};
ghost use Rattle.book_sound.specs.MarkedTransactionRules.{is_rightly_marked};
ghost use Rattle.book_commodity.specs.Table.{value_of};
ghost use Rattle.std.specs.List.{list_all};
ghost use Rattle.book_check.specs.Marks.{HasMarks, MarkKey, is_made_by, mark_cmp};
ghost use Rattle.book_check.specs.Seen.{is_seen};

use crate::seen::Seen;
use book_commodity::{OutOfMemory, Table};
use book_splits::{Mark, MarkedSplit, Recon, Split, Txn};
use book_void::are_rightly_voided;
use std::alloc::Global;

/// The number of a reconciliation, that of a split which it has marked, and the quantity that the split had.
pub(crate) type MarkKey = (u64, u64, i64);

/// The marks that the reconciliations have made.
pub(crate) fn marks_of(
    alloc: Global,
    reconciliations: &Table<Recon>,
) -> Result<Seen<MarkKey>, OutOfMemory>
    ensures { IfOk result (λ marks. HasMarks marks reconciliations.now.entries) }
{
    let mut marks = Seen::new(alloc);
    for place in 0..reconciliations.len() {
        let marked = reconciliations.value_at(place).marked.as_slice();
        add_marks(&mut marks, reconciliations.number_at(place), marked)?;
    }
    Ok(marks)
}

/// Adds the marks of one reconciliation.
fn add_marks(
    marks: &mut Seen<MarkKey>,
    number: u64,
    marked: &[MarkedSplit],
) -> Result<(), OutOfMemory>
    ensures { OnOk result ((key : MarkKey) →
        is_seen mark_cmp marks.new key ≡ (is_made_by number marked.now key || is_seen mark_cmp marks.old key)) }
{
    for item in marked {
        marks.insert(mark_key(number, item))?;
    }
    Ok(())
}

/// The key of a split that the reconciliation with the number has marked.
fn mark_key(number: u64, marked: &MarkedSplit) -> MarkKey
    ensures { result ≡ (number, marked.now.split, marked.now.quantity) }
{
    (number, marked.split, marked.quantity)
}

/// The key under which the reconciliation with the number has the split, if it has marked it.
fn split_key(number: u64, split: &Split) -> MarkKey
    ensures { result ≡ (number, split.now.id, split.now.quantity) }
{
    (number, split.id, split.quantity)
}

/// Whether the splits of the transaction are as its state says: where it is voided each is rightly voided, and else
/// each is rightly marked.
pub(crate) fn are_rightly_marked(
    reconciliations: &Table<Recon>,
    marks: &Seen<MarkKey>,
    transaction: &Txn,
) -> bool
    requires { HasMarks marks.now reconciliations.now.entries }
    ensures { result ≡ are_rightly_marked reconciliations.now.entries transaction.now.voided transaction.now.splits }
{
    let splits = transaction.splits.as_slice();
    match transaction.voided {
        Some(_) => are_rightly_voided(splits),
        None => are_marked(reconciliations, marks, splits),
    }
}

/// Whether each split is reconciled exactly where it names a reconciliation that has marked it, and none is voided.
fn are_marked(reconciliations: &Table<Recon>, marks: &Seen<MarkKey>, splits: &[Split]) -> bool
    requires { HasMarks marks.now reconciliations.now.entries }
    ensures { result ≡ list_all (is_rightly_marked reconciliations.now.entries) splits.now }
{
    for split in splits {
        if !is_rightly_marked(reconciliations, marks, split) {
            return false;
        }
    }
    true
}

/// Whether the split is reconciled exactly where it names a reconciliation that has marked it, and is not voided.
fn is_rightly_marked(reconciliations: &Table<Recon>, marks: &Seen<MarkKey>, split: &Split) -> bool
    requires { HasMarks marks.now reconciliations.now.entries }
    ensures { result ≡ is_rightly_marked reconciliations.now.entries split.now }
{
    match split.mark {
        Mark::New | Mark::Cleared => split.recon.is_none(),
        Mark::Reconciled => is_named_rightly(reconciliations, marks, split),
        Mark::Voided => false,
    }
}

/// Whether the split names a reconciliation that has marked it.
fn is_named_rightly(reconciliations: &Table<Recon>, marks: &Seen<MarkKey>, split: &Split) -> bool
    requires { HasMarks marks.now reconciliations.now.entries }
    ensures { result ≡ is_named_rightly reconciliations.now.entries split.now split.now.recon }
{
    match split.recon {
        Some(number) => has_marked(reconciliations, marks, number, split),
        None => false,
    }
}

/// Whether the reconciliation with the number is there, is one of the split's account, and has marked it.
fn has_marked(
    reconciliations: &Table<Recon>,
    marks: &Seen<MarkKey>,
    number: u64,
    split: &Split,
) -> bool
    requires { HasMarks marks.now reconciliations.now.entries }
    ensures { result ≡ has_marked split.now (value_of number reconciliations.now.entries) }
{
    match reconciliations.find(number) {
        Some(reconciliation) => {
            reconciliation.account == split.account && marks.has(&split_key(number, split))
        }
        None => false,
    }
}
