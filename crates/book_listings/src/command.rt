ghost use Rattle.std.specs.Prelude.{◌≡◌, IfOk, IfSome, length, map};
ghost use Rattle.serde_json.specs.Data.{array};
ghost use Rattle.serde_json.specs.View.{items_of, view};
ghost use Rattle.book_commodity.specs.Day.{day_text};
ghost use Rattle.book_listings.specs.Command.{command_text, edit_data, edit_line, lines_of, split_data};
ghost use Rattle.book_listings.specs.Command.{unvoid_data, unvoid_line};

use crate::PresentBook;
use book_commodity::{OutOfMemory, Text};
use book_splits::{Split, Txn};
use book_table::day_cell;
use book_void::restored;
use serde_json::{Value, json};
use std::alloc::{AllocError, Global};

/// The line of the command `edit` that gives the transaction with a number what it has, with the numbers and memos of
/// its splits, ready to be changed; None exactly where the book has no such transaction. A voided one takes no edit: so
/// the line `unvoid` comes first, and the edit has the amounts that were kept.
pub fn command_text(
    alloc: Global,
    book: &PresentBook,
    number: u64,
) -> Result<Option<Text>, OutOfMemory>
    ensures { IfOk result (λ found. found ≡ command_text book.now number) }
{
    match book.transaction(number) {
        Some(transaction) => Ok(Some(lines_of(alloc, number, transaction)?)),
        None => Ok(None),
    }
}

/// The lines for a transaction. Where it is voided, as many amounts are kept as there are splits.
fn lines_of(alloc: Global, number: u64, transaction: &Txn) -> Result<Text, OutOfMemory>
    requires { IfSome transaction.now.voided (λ void. length void.kept ≡ length transaction.now.splits) }
    ensures { IfOk result (λ lines. lines ≡ lines_of number transaction.now) }
{
    if transaction.voided.is_none() {
        return edit_line(alloc, number, transaction);
    }
    let restored = restored(alloc, transaction)?;
    let edit = edit_line(alloc, number, &restored)?;
    let mut lines = unvoid_line(alloc, number)?.into_string();
    lines.push_str(edit.as_str())?;
    Ok(Text::of(lines))
}

/// The line of the command `unvoid`, with its line feed.
fn unvoid_line(alloc: Global, number: u64) -> Result<Text, OutOfMemory>
    ensures { IfOk result (λ line. line ≡ unvoid_line number) }
{
    let value = unvoid_value(alloc, number)?;
    let mut line = value.to_string(alloc)?;
    line.push('\n')?;
    Ok(Text::of(line))
}

/// The command `unvoid` as a value.
fn unvoid_value(alloc: Global, number: u64) -> Result<Value, AllocError>
    ensures { IfOk result (λ value. view value ≡ unvoid_data number) }
{
    json!(in alloc; {
        "do": "unvoid",
        "transaction": number
    })
}

/// The line of the command `edit`, with its line feed.
fn edit_line(alloc: Global, number: u64, transaction: &Txn) -> Result<Text, OutOfMemory>
    ensures { IfOk result (λ line. line ≡ edit_line number transaction.now) }
{
    let value = edit_value(alloc, number, transaction)?;
    let mut line = value.to_string(alloc)?;
    line.push('\n')?;
    Ok(Text::of(line))
}

/// The command as a value.
fn edit_value(alloc: Global, number: u64, transaction: &Txn) -> Result<Value, OutOfMemory>
    ensures { IfOk result (λ value. view value ≡ edit_data number transaction.now) }
{
    let day = day_cell(alloc, transaction.day)?;
    let splits = splits_value(alloc, transaction.splits.as_slice())?;
    Ok(members_value(alloc, number, transaction, day.as_str(), splits)?)
}

/// The command of these members.
fn members_value(
    alloc: Global,
    number: u64,
    transaction: &Txn,
    day: &str,
    splits: Value,
) -> Result<Value, AllocError>
    requires day { day.now ≡ day_text transaction.now.day }
    requires splits { view splits ≡ array (items_of (map split_data transaction.now.splits)) }
    ensures { IfOk result (λ value. view value ≡ edit_data number transaction.now) }
{
    json!(in alloc; {
        "currency": transaction.currency,
        "day": day,
        "description": transaction.description.as_str(),
        "do": "edit",
        "num": transaction.num.as_str(),
        "splits": splits,
        "transaction": number
    })
}

/// The splits as a value.
fn splits_value(alloc: Global, splits: &[Split]) -> Result<Value, AllocError>
    ensures { IfOk result (λ value. view value ≡ array (items_of (map split_data splits.now))) }
{
    let mut values = Vec::new(alloc);
    for split in splits {
        values.push(split_value(alloc, split)?)?;
    }
    Ok(Value::Array(values))
}

/// A split as a value.
fn split_value(alloc: Global, split: &Split) -> Result<Value, AllocError>
    ensures { IfOk result (λ value. view value ≡ split_data split.now) }
{
    json!(in alloc; {
        "account": split.account,
        "action": split.action.as_str(),
        "id": split.id,
        "memo": split.memo.as_str(),
        "quantity": split.quantity,
        "value": split.value
    })
}
