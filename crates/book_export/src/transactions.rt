ghost use Rattle.std.specs.Prelude.{◌≡◌, ◌++◌, OnOk, IfOk};
ghost use Rattle.std.specs.List.{flat_map};
ghost use Rattle.book_accounts.specs.Tree.{IsRooted};
ghost use Rattle.book_export.specs.Entries.{commodity_of, cost_text, head_line, lines_at, mark_text, posting_end};
ghost use Rattle.book_export.specs.Entries.{posting_line, posting_start, split_lines, transaction_lines, void_line};
ghost use Rattle.book_undo.specs.Book.{book_of};

use crate::path::path_of;
use crate::posting::{Posting, postings_of};
use crate::symbols::push_amount;
use crate::texts::{Place, push_code, push_note, push_shown};
use book_commodity::OutOfMemory;
use book_splits::{Mark, Split, Txn, Void};
use book_undo::Plain;
use std::alloc::Global;

/// The lines of the transaction with a number; none where there is no such transaction.
pub(crate) fn lines_at(alloc: Global, book: &Plain, number: u64) -> Result<Vec<u8>, OutOfMemory>
    requires { IsRooted book.now.accounts.entries }
    ensures { IfOk result (λ lines. lines.items ≡ lines_at (book_of book.now) number) }
{
    match book.transactions.find(number) {
        Some(transaction) => transaction_lines(alloc, book, transaction),
        None => Ok(Vec::new(alloc)),
    }
}

/// The lines of a transaction: its first one, the one that says that it is voided, if it is, and those of its splits.
#[tactic(auto, unfolding(crate::specs::Entries::transaction_lines))]
fn transaction_lines(alloc: Global, book: &Plain, transaction: &Txn) -> Result<Vec<u8>, OutOfMemory>
    requires { IsRooted book.now.accounts.entries }
    ensures { IfOk result (λ lines. lines.items ≡ transaction_lines (book_of book.now) transaction.now) }
{
    let mut lines = head_line(alloc, transaction)?;
    push_void(&mut lines, &transaction.voided)?;
    push_splits(alloc, &mut lines, book, transaction)?;
    Ok(lines)
}

/// The first line of a transaction, behind an empty one.
#[tactic(auto, unfolding(crate::specs::Entries::head_line))]
fn head_line(alloc: Global, transaction: &Txn) -> Result<Vec<u8>, OutOfMemory>
    ensures { IfOk result (λ line. line.items ≡ head_line transaction.now) }
{
    let description = transaction.description.as_str().as_bytes();
    let mut line = Vec::new(alloc);
    line.push(b'\n')?;
    line.extend_from_slice(&transaction.day.text())?;
    line.push(b' ')?;
    push_code(&mut line, transaction.num.as_str().as_bytes(), description)?;
    push_shown(&mut line, Place::Description, description)?;
    line.push(b'\n')?;
    Ok(line)
}

/// Adds the line that says that a transaction is voided, and why; nothing of another.
#[tactic(auto, unfolding(crate::specs::Entries::void_line))]
fn push_void(out: &mut Vec<u8>, voided: &Option<Void>) -> Result<(), OutOfMemory>
    ensures { OnOk result (out.new.items ≡ out.old.items ++ void_line voided.now) }
{
    let Some(void) = voided else {
        return Ok(());
    };
    out.extend_from_slice(b"    ; voided : ")?;
    push_shown(out, Place::Memo, void.reason.as_str().as_bytes())?;
    out.push(b'\n')?;
    Ok(())
}

/// Adds the lines of all splits of a transaction.
fn push_splits(
    alloc: Global,
    out: &mut Vec<u8>,
    book: &Plain,
    transaction: &Txn,
) -> Result<(), OutOfMemory>
    requires { IsRooted book.now.accounts.entries }
    ensures { OnOk result (out.new.items
        ≡ out.old.items ++ flat_map (split_lines (book_of book.now) transaction.now) transaction.now.splits) }
{
    for split in transaction.splits.as_slice() {
        push_split(alloc, out, book, transaction, split)?;
    }
    Ok(())
}

/// Adds the lines of a split.
fn push_split(
    alloc: Global,
    out: &mut Vec<u8>,
    book: &Plain,
    transaction: &Txn,
    split: &Split,
) -> Result<(), OutOfMemory>
    requires { IsRooted book.now.accounts.entries }
    ensures { OnOk result
        (out.new.items ≡ out.old.items ++ split_lines (book_of book.now) transaction.now split.now) }
{
    let in_currency = commodity_of(book, split.account) == transaction.currency;
    let postings = postings_of(alloc, in_currency, split)?;
    for posting in postings.as_slice() {
        push_posting(alloc, out, book, transaction, split, posting)?;
    }
    Ok(())
}

/// Adds the line of a posting.
#[tactic(auto, unfolding(crate::specs::Entries::posting_line))]
fn push_posting(
    alloc: Global,
    out: &mut Vec<u8>,
    book: &Plain,
    transaction: &Txn,
    split: &Split,
    posting: &Posting,
) -> Result<(), OutOfMemory>
    requires { IsRooted book.now.accounts.entries }
    ensures { OnOk result (out.new.items
        ≡ out.old.items ++ posting_line (book_of book.now) transaction.now split.now posting.now) }
{
    push_start(alloc, out, book, split)?;
    push_end(alloc, out, book, transaction, split, posting)
}

/// Adds how the line of a posting begins: the mark of its split and its account.
#[tactic(auto, unfolding(crate::specs::Entries::posting_start))]
fn push_start(
    alloc: Global,
    out: &mut Vec<u8>,
    book: &Plain,
    split: &Split,
) -> Result<(), OutOfMemory>
    requires { IsRooted book.now.accounts.entries }
    ensures { OnOk result (out.new.items ≡ out.old.items ++ posting_start (book_of book.now) split.now) }
{
    let path = path_of(alloc, &book.accounts, split.account)?;
    out.extend_from_slice(b"    ")?;
    out.extend_from_slice(mark_text(split.mark))?;
    out.extend_from_slice(path.as_slice())?;
    out.extend_from_slice(b"  ")?;
    Ok(())
}

/// Adds how it goes on: its quantity, its cost and the memo of its split.
#[tactic(auto, unfolding(crate::specs::Entries::posting_end))]
fn push_end(
    alloc: Global,
    out: &mut Vec<u8>,
    book: &Plain,
    transaction: &Txn,
    split: &Split,
    posting: &Posting,
) -> Result<(), OutOfMemory>
    ensures { OnOk result (out.new.items
        ≡ out.old.items ++ posting_end (book_of book.now) transaction.now split.now posting.now) }
{
    let commodity = commodity_of(book, split.account);
    push_amount(alloc, out, &book.commodities, commodity, posting.quantity)?;
    push_cost(alloc, out, book, transaction, posting.cost)?;
    push_note(out, split.memo.as_str().as_bytes())?;
    out.push(b'\n')?;
    Ok(())
}

/// Adds the cost of a posting; nothing where none is said.
fn push_cost(
    alloc: Global,
    out: &mut Vec<u8>,
    book: &Plain,
    transaction: &Txn,
    cost: Option<i128>,
) -> Result<(), OutOfMemory>
    ensures { OnOk result (out.new.items ≡ out.old.items ++ cost_text (book_of book.now) transaction.now cost) }
{
    let Some(cost) = cost else {
        return Ok(());
    };
    out.extend_from_slice(b" @@ ")?;
    push_amount(alloc, out, &book.commodities, transaction.currency, cost)
}

/// The commodity of an account; 0, where there is no such account.
fn commodity_of(book: &Plain, account: u64) -> u64
    ensures { result ≡ commodity_of (book_of book.now) account }
{
    match book.accounts.find(account) {
        Some(account) => account.commodity,
        None => 0,
    }
}

/// A mark, with a blank behind it.
fn mark_text(mark: Mark) -> &'static [u8]
    ensures { result.now ≡ mark_text mark }
{
    match mark {
        Mark::New | Mark::Voided => b"".as_slice(),
        Mark::Cleared => b"! ".as_slice(),
        Mark::Reconciled => b"* ".as_slice(),
    }
}
