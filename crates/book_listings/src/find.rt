ghost use Rattle.std.specs.Prelude.{◌≡◌, IfOk};
ghost use Rattle.std.specs.List.{list_any};
ghost use Rattle.book_listings.specs.Find.{AreFound, folded, has_part, has_reason, holds, with_part};

use crate::PresentBook;
use crate::journal::listed_text;
use crate::order::sorted;
use book_commodity::{OutOfMemory, Text};
use book_reports::Form;
use book_splits::{Split, Txn, Void};
use caseless::default_case_fold_str;
use std::alloc::Global;

/// The transactions of a book in whose num, description, memos or reason of voiding a text stands, by day; the case of
/// letters does not matter.
pub fn found_text(
    alloc: Global,
    book: &PresentBook,
    sought: &str,
    form: Form,
) -> Result<Text, OutOfMemory>
    ensures { IfOk result (λ text. AreFound book.now sought.now form text) }
{
    let part = folded(alloc, sought)?;
    let all = with_part(alloc, book.plain().transactions.as_slice(), part.as_str())?;
    let order = sorted(all)?;
    listed_text(alloc, book, order.as_slice(), form)
}

/// A text without the case of its letters.
#[tactic(auto, unfolding(crate::specs::Find::folded))]
fn folded(alloc: Global, text: &str) -> Result<Text, OutOfMemory>
    ensures { IfOk result (λ text_folded. text_folded ≡ folded text.now) }
{
    Ok(Text::of(default_case_fold_str(alloc, text)?))
}

/// The transactions that have the part, by number: the day of each, and its number.
fn with_part(
    alloc: Global,
    transactions: &[(u64, Txn)],
    part: &str,
) -> Result<Vec<(i32, u64)>, OutOfMemory>
    ensures { IfOk result (λ all. all.items ≡ with_part part.now transactions.now) }
{
    let mut all = Vec::new(alloc);
    for (number, transaction) in transactions {
        if has_part(alloc, transaction, part)? {
            all.push((transaction.day.number(), *number))?;
        }
    }
    Ok(all)
}

/// Whether a part without case stands in the num, the description or a memo of a transaction, or in the reason for which
/// it was voided.
fn has_part(alloc: Global, transaction: &Txn, part: &str) -> Result<bool, OutOfMemory>
    ensures { IfOk result (λ has. has ≡ has_part part.now transaction.now) }
{
    if holds(alloc, part, transaction.num.as_str())? {
        return Ok(true);
    }
    if holds(alloc, part, transaction.description.as_str())? {
        return Ok(true);
    }
    if has_reason(alloc, &transaction.voided, part)? {
        return Ok(true);
    }
    has_memo(alloc, transaction.splits.as_slice(), part)
}

/// Whether a part without case stands in the reason for which a transaction was voided.
fn has_reason(alloc: Global, voided: &Option<Void>, part: &str) -> Result<bool, OutOfMemory>
    ensures { IfOk result (λ has. has ≡ has_reason part.now voided.now) }
{
    match voided {
        Some(void) => holds(alloc, part, void.reason.as_str()),
        None => Ok(false),
    }
}

/// Whether a part without case stands in a memo of the splits.
fn has_memo(alloc: Global, splits: &[Split], part: &str) -> Result<bool, OutOfMemory>
    ensures { IfOk result (λ has. has ≡ list_any (λ split. holds part.now (folded split.memo)) splits.now) }
{
    for split in splits {
        if holds(alloc, part, split.memo.as_str())? {
            return Ok(true);
        }
    }
    Ok(false)
}

/// Whether a part without case stands in a text.
fn holds(alloc: Global, part: &str, text: &str) -> Result<bool, OutOfMemory>
    ensures { IfOk result (λ has. has ≡ holds part.now (folded text.now)) }
{
    let text = folded(alloc, text)?;
    Ok(contains(text.as_str(), part))
}

/// Whether a part stands in a text.
fn contains(text: &str, part: &str) -> bool
    ensures { result ≡ holds part.now text.now }
{
    text.contains(part)
}
