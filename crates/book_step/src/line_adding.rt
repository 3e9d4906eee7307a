ghost use Rattle.std.specs.Prelude.{◌≡◌, ◌+◌, ◌<◌, ◌≤◌, ◌^◌, [], ◌∷◌, Some, IfOk, length, map, unwrap_or};
ghost use Rattle.std.specs.Option.{option_copied};
ghost use Rattle.book_commodity.specs.Rules.{ReportsFirst};
ghost use Rattle.book_commodity.specs.Table.{value_of};
ghost use Rattle.book_statement.specs.declared.line_state.LineState.{LineState as State};
ghost use Rattle.book_step.specs.Accounts.{unknown_account};
ghost use Rattle.book_step.specs.LineAdding.{commodity_of, given_rules, given_split, line_add, line_add_of};
ghost use Rattle.book_step.specs.LineAdding.{line_matched, line_splits, line_transaction};
ghost use Rattle.book_step.specs.LineAdding.{matched_answer, matched_with, matching_edit, other_commodity, own_split};
ghost use Rattle.book_step.specs.Outcome.{StepsTo};

use crate::accounts::known as known_account;
use crate::bank_lines::check_open;
use crate::posting::{check_post, new_split};
use crate::present::Present;
use crate::{Answer, GivenOther, GivenSplit, Refusal, Rule, Step};
use book_accounts::Account;
use book_commodity::{Kind, Many, OutOfMemory, Text};
use book_splits::{Mark, Split, Txn};
use book_statement::{Line, LineState};
use book_undo::{Edit, Thing};
use std::alloc::Global;

/// A transaction is posted for the open line of this number, and the line is matched with its first split.
pub(crate) fn line_add(
    present: &Present,
    number: u64,
    others: Many<GivenOther>,
    description: Option<Text>,
) -> Result<Step, Refusal>
    ensures { StepsTo present.now (line_add present.now number others description) result }
{
    let Some(line) = present.plain.lines.find(number) else {
        return Err(Refusal::Broken(Rule::Unknown {
            kind: Kind::Line,
            id: number,
        }));
    };
    line_add_of(present, number, line, others, description)
}

/// The same of a line that was found.
fn line_add_of(
    present: &Present,
    number: u64,
    line: &Line,
    others: Many<GivenOther>,
    description: Option<Text>,
) -> Result<Step, Refusal>
    requires { value_of number present.now.book.lines ≡ Some line.now }
    ensures { StepsTo present.now (line_add_of present.now number line.now others description) result }
{
    let commodity = commodity_of(present, number, line);
    check_given(present, number, line, commodity, others.as_slice())?;
    let transaction = line_transaction(
        present.alloc,
        present.next,
        commodity,
        line,
        others,
        description,
    )?;
    check_post(present, &transaction)?;
    post_for(present, number, line, transaction)
}

/// The transaction breaks no rule: it is put under the next number, and the open line is matched with its first split.
fn post_for(present: &Present, number: u64, line: &Line, transaction: Txn) -> Result<Step, Refusal>
    requires there { value_of number present.now.book.lines ≡ Some line.now }
    requires is_open { line.now.state ≡ State.Open }
    requires few { length transaction.splits ≤ 500 }
    ensures { StepsTo present.now (line_matched present.now [] number line.now transaction) result }
{
    let next = present.next;
    let answer = matched_answer(present.alloc, next, transaction.splits.as_slice())?;
    let drawn = 1 + transaction.splits.len() as u64;
    let edit = matching_edit(present.alloc, next, transaction, number, line)?;
    Step::changing(present, drawn, edit, answer)
}

/// The commodity of the line's account, which is one of the book's.
fn commodity_of(present: &Present, number: u64, line: &Line) -> u64
    requires { value_of number present.now.book.lines ≡ Some line.now }
    ensures { result ≡ commodity_of (value_of line.now.account present.now.book.accounts) }
{
    let Some(account) = present.plain.accounts.find(line.account) else {
        unreachable!();
    };
    account.commodity
}

/// The line is open, and each of the others is on an account of the book that is in the commodity.
fn check_given(
    present: &Present,
    number: u64,
    line: &Line,
    commodity: u64,
    others: &[GivenOther],
) -> Result<(), Rule>
    ensures { ReportsFirst (given_rules present.now.book.accounts number line.now commodity others.now) result }
{
    check_open(number, line)?;
    check_accounts(present, others)?;
    check_commodities(present, commodity, others)
}

/// Each of the others is on an account of the book.
fn check_accounts(present: &Present, others: &[GivenOther]) -> Result<(), Rule>
    ensures { ReportsFirst
        (map (λ other. unknown_account present.now.book.accounts other.account) others.now) result }
{
    for other in others {
        known_account(present, other.account)?;
    }
    Ok(())
}

/// Each of the others is on an account that is in the commodity.
fn check_commodities(present: &Present, commodity: u64, others: &[GivenOther]) -> Result<(), Rule>
    ensures { ReportsFirst
        (map (λ other. other_commodity commodity (value_of other.account present.now.book.accounts)) others.now)
        result }
{
    for other in others {
        check_commodity(commodity, present.plain.accounts.find(other.account))?;
    }
    Ok(())
}

/// The account, where there is one, is in the commodity.
fn check_commodity(commodity: u64, account: Option<&Account>) -> Result<(), Rule>
    ensures { ReportsFirst (other_commodity commodity (option_copied account.entry) ∷ []) result }
{
    match account {
        Some(account) if account.commodity != commodity => Err(Rule::WrongCurrency {
            commodity: account.commodity,
        }),
        _ => Ok(()),
    }
}

/// The transaction of the line that draws its number, the next for its first split, and so on.
fn line_transaction(
    alloc: Global,
    number: u64,
    commodity: u64,
    line: &Line,
    others: Many<GivenOther>,
    description: Option<Text>,
) -> Result<Txn, OutOfMemory>
    requires { number < 2 ^ 62 }
    ensures { IfOk result (λ transaction. transaction
        ≡ line_transaction number commodity line.now others description) }
{
    let splits = line_splits(alloc, number + 1, line, others)?;
    let description = described(line, description)?;
    Ok(Txn {
        currency: commodity,
        day: line.body.day,
        num: line.body.ref_own.copy()?,
        description,
        splits,
        voided: None,
    })
}

/// The description that is given or, where none is, the line's text.
fn described(line: &Line, given: Option<Text>) -> Result<Text, OutOfMemory>
    ensures { IfOk result (λ text. text ≡ unwrap_or given line.now.body.text) }
{
    match given {
        Some(text) => Ok(text),
        None => line.body.text.copy(),
    }
}

/// The splits of the line's transaction, of which the first gets the number.
fn line_splits(
    alloc: Global,
    number: u64,
    line: &Line,
    others: Many<GivenOther>,
) -> Result<Many<Split>, OutOfMemory>
    requires { number ≤ 2 ^ 62 }
    ensures { IfOk result (λ splits. splits ≡ line_splits number line.now others) }
{
    let mut splits = Vec::new(alloc);
    splits.push(own_split(alloc, number, line))?;
    for other in others.into_vec() {
        let given = given_split(alloc, other);
        splits.push(new_split(number + splits.len() as u64, given))?;
    }
    Ok(Many::of(splits))
}

/// The split on the line's account.
fn own_split(alloc: Global, number: u64, line: &Line) -> Split
    ensures { result ≡ own_split number line.now }
{
    Split {
        id: number,
        account: line.account,
        memo: Text::new(alloc),
        action: Text::new(alloc),
        mark: Mark::Cleared,
        recon: None,
        value: line.body.amount,
        quantity: line.body.amount,
    }
}

/// What stands against it, as a post gives a split.
fn given_split(alloc: Global, other: GivenOther) -> GivenSplit
    ensures { result ≡ given_split other }
{
    GivenSplit {
        account: other.account,
        value: other.value,
        quantity: other.value,
        memo: other.memo,
        action: Text::new(alloc),
        id: None,
    }
}

/// The edit that puts the transaction under a number, and the line matched with its first split, which has the next
/// number.
fn matching_edit(
    alloc: Global,
    number: u64,
    transaction: Txn,
    line_number: u64,
    line: &Line,
) -> Result<Edit, OutOfMemory>
    requires { number < 2 ^ 62 }
    ensures { IfOk result (λ edit. edit ≡ matching_edit number transaction line_number line.now) }
{
    let matched = matched_with(number + 1, line)?;
    let mut edits = Many::new(alloc);
    edits.push(Edit::Put(number, Thing::Txn(transaction)))?;
    edits.push(Edit::Put(line_number, Thing::Line(matched)))?;
    Ok(Edit::All(edits))
}

/// The line, matched with the split of this number.
pub(crate) fn matched_with(split: u64, line: &Line) -> Result<Line, OutOfMemory>
    ensures { IfOk result (λ matched. matched ≡ matched_with split line.now) }
{
    Ok(Line {
        state: LineState::Matched(split),
        ..line.copy()?
    })
}

/// The numbers that the transaction drew, and its splits by place.
fn matched_answer(alloc: Global, number: u64, splits: &[Split]) -> Result<Answer, OutOfMemory>
    ensures { IfOk result (λ answer. answer ≡ Answer.LineAdd number (map (λ split. split.id) splits.now)) }
{
    let numbers = splits.iter().map(|split| split.id).collect(alloc)?;
    Ok(Answer::LineAdd {
        transaction: number,
        splits: Many::of(numbers),
    })
}
