ghost use Rattle.std.specs.Prelude.{◌≡◌, [], ◌∷◌, Some, IfOk, unwrap_or};
ghost use Rattle.book_commodity.specs.Rules.{ReportsFirst};
ghost use Rattle.book_commodity.specs.Table.{value_of};
ghost use Rattle.book_step.specs.Accounts.{account_edit, account_edit_of, becomes_placeholder, edit_rules};
ghost use Rattle.book_step.specs.Accounts.{moved_rule, placeholder_rules, same_fields, takes_splits, with_given};
ghost use Rattle.book_step.specs.Outcome.{StepsTo};

use crate::accounts::{check_given, check_not_root, known};
use crate::in_use::check_unused;
use crate::present::Present;
use crate::{Answer, GivenAccount, Refusal, Rule, Step};
use book_accounts::Account;
use book_commodity::{OutOfMemory, Text};
use book_splits::has_splits;
use book_undo::{Edit, Thing};

/// The account of this number gets what is given.
pub(crate) fn account_edit(
    present: &Present,
    number: u64,
    given: GivenAccount,
) -> Result<Step, Refusal>
    ensures { StepsTo present.now (account_edit present.now number given) result }
{
    let old = known(present, number)?;
    account_edit_of(present, number, given, old)
}

/// The same of an account that was found.
fn account_edit_of(
    present: &Present,
    number: u64,
    given: GivenAccount,
    old: &Account,
) -> Result<Step, Refusal>
    requires { value_of number present.now.book.accounts ≡ Some old.now }
    ensures { StepsTo present.now (account_edit_of present.now number given old.now) result }
{
    let parent = given.parent;
    let new = with_given(old, given)?;
    check_edit(present, number, parent, old, &new)?;
    if is_same(old, &new) {
        return Ok(Step::leaving(present, Answer::AccountEdit));
    }
    let edit = Edit::Put(number, Thing::Account(new));
    Step::changing(present, 0, edit, Answer::AccountEdit)
}

/// The account with what is given, and with texts of its own.
fn with_given(account: &Account, given: GivenAccount) -> Result<Account, OutOfMemory>
    ensures { IfOk result (λ new. new ≡ with_given account.now given) }
{
    Ok(Account {
        name: text_or(given.name, &account.name)?,
        kind: account.kind,
        commodity: account.commodity,
        parent: given.parent.or(account.parent),
        code: text_or(given.code, &account.code)?,
        note: text_or(given.note, &account.note)?,
        hidden: given.hidden.unwrap_or(account.hidden),
        placeholder: given.placeholder.unwrap_or(account.placeholder),
        basis: account.basis,
    })
}

/// The text given, or else a copy of the other.
fn text_or(given: Option<Text>, text: &Text) -> Result<Text, OutOfMemory>
    ensures { IfOk result (λ new. new ≡ unwrap_or given text.now) }
{
    match given {
        Some(given) => Ok(given),
        None => text.copy(),
    }
}

/// Whether an account that is edited stays as it was, in all that an edit can give.
fn is_same(old: &Account, new: &Account) -> bool
    ensures { result ≡ (same_fields old.now new.now).is }
{
    new.name.as_str() == old.name.as_str()
        && new.parent == old.parent
        && new.code.as_str() == old.code.as_str()
        && new.note.as_str() == old.note.as_str()
        && new.hidden == old.hidden
        && new.placeholder == old.placeholder
}

/// An account of the book, for which this parent is given, keeps the rules of an edit.
fn check_edit(
    present: &Present,
    number: u64,
    parent: Option<u64>,
    old: &Account,
    new: &Account,
) -> Result<(), Rule>
    ensures { ReportsFirst (edit_rules present.now.book number parent old.now new.now) result }
{
    check_given(present, parent)?;
    check_not_root(old)?;
    check_moved(present, number, new)?;
    check_placeholder(present, number, old, new)
}

/// The account may stand in the tree with its new name under its new parent.
fn check_moved(present: &Present, number: u64, new: &Account) -> Result<(), Rule>
    ensures { ReportsFirst (moved_rule present.now.book.accounts number new.now new.now.parent ∷ []) result }
{
    let Some(parent) = new.parent else {
        return Err(Rule::ParentKind);
    };
    present
        .plain
        .accounts
        .check_move(number, &new.name, parent)?;
    Ok(())
}

/// The account becomes a placeholder only where it isn't in use.
fn check_placeholder(
    present: &Present,
    number: u64,
    old: &Account,
    new: &Account,
) -> Result<(), Rule>
    ensures { ReportsFirst
        (placeholder_rules (becomes_placeholder old.now new.now) present.now.book number) result }
{
    if old.placeholder || !new.placeholder {
        return Ok(());
    }
    check_without_splits(present, number)?;
    check_unused(present, number)
}

/// The account has no split.
fn check_without_splits(present: &Present, number: u64) -> Result<(), Rule>
    ensures { ReportsFirst (takes_splits present.now.book.transactions number ∷ []) result }
{
    if has_splits(&present.plain.transactions, number) {
        return Err(Rule::NotEmpty { account: number });
    }
    Ok(())
}
