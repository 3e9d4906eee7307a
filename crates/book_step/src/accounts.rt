ghost use Rattle.std.specs.Prelude.{◌≡◌, [], ◌∷◌, Some, IfOk};
ghost use Rattle.book_commodity.specs.Rules.{ReportsFirst};
ghost use Rattle.book_commodity.specs.Table.{value_of};
ghost use Rattle.book_step.specs.Accounts.{account_add, account_drop, add_rules, basis_shape, drop_rules, fits_basis};
ghost use Rattle.book_step.specs.Accounts.{not_empty, root_stays, too_many_accounts, unknown_account};
ghost use Rattle.book_step.specs.Accounts.{unknown_given_account, unknown_given_commodity};
ghost use Rattle.book_step.specs.Outcome.{StepsTo};

use crate::commodities::{check_known as check_known_commodity, is_currency};
use crate::in_use::check_unused;
use crate::present::Present;
use crate::{Answer, Refusal, Rule, Step};
use book_accounts::{Account, AccountKind, Tree};
use book_commodity::{Commodities, Counted, Kind};
use book_splits::has_splits;
use book_undo::{Edit, Plain, Thing, ThingKind};

const MAX_ACCOUNTS: usize = 10_000;

/// The account stands in the book, under the next number.
pub(crate) fn account_add(present: &Present, account: Account) -> Result<Step, Refusal>
    ensures { StepsTo present.now (account_add present.now account) result }
{
    check_new(present, &account)?;
    let number = present.next;
    let edit = Edit::Put(number, Thing::Account(account));
    Step::changing(present, 1, edit, Answer::AccountAdd { account: number })
}

/// The account of this number is deleted.
pub(crate) fn account_drop(present: &Present, number: u64) -> Result<Step, Refusal>
    ensures { StepsTo present.now (account_drop present.now number) result }
{
    let account = known(present, number)?;
    check_drop(present, number, account)?;
    let edit = Edit::Gone(ThingKind::Account, number);
    Step::changing(present, 0, edit, Answer::AccountDrop)
}

/// The account of this number may be deleted.
fn check_drop(present: &Present, number: u64, account: &Account) -> Result<(), Rule>
    ensures { ReportsFirst (drop_rules present.now.book number account.now) result }
{
    check_not_root(account)?;
    check_empty(present, number)?;
    check_unused(present, number)
}

/// The account of this number has no account under it and no split.
fn check_empty(present: &Present, number: u64) -> Result<(), Rule>
    ensures { ReportsFirst (not_empty present.now.book number ∷ []) result }
{
    let plain = present.plain;
    if plain.accounts.has_children(number) || has_splits(&plain.transactions, number) {
        return Err(Rule::NotEmpty { account: number });
    }
    Ok(())
}

/// A new account keeps its rules.
fn check_new(present: &Present, account: &Account) -> Result<(), Rule>
    ensures { ReportsFirst (add_rules present.now.book account.now) result }
{
    let plain = present.plain;
    check_known_commodity(&plain.commodities, account.commodity)?;
    check_given(present, account.parent)?;
    check_given_commodity(&plain.commodities, account.basis)?;
    plain.accounts.check_add(account)?;
    check_basis_and_count(plain, account)
}

/// The basis of the account fits its kind, and the book has room for one account more.
fn check_basis_and_count(plain: &Plain, account: &Account) -> Result<(), Rule>
    ensures { ReportsFirst
        (basis_shape plain.now.commodities.entries account.now ∷ too_many_accounts plain.now.accounts.entries ∷ [])
        result }
{
    check_basis(&plain.commodities, account)?;
    check_count(&plain.accounts)
}

/// The account of this number, which is one of the book's.
pub(crate) fn known<'a>(present: &Present<'a>, number: u64) -> Result<&'a Account, Rule>
    ensures there { IfOk result (λ account. value_of number present.now.book.accounts ≡ Some account.now) }
    ensures unknown { ReportsFirst (unknown_account present.now.book.accounts number ∷ []) result }
{
    match present.plain.accounts.find(number) {
        Some(account) => Ok(account),
        None => Err(Rule::Unknown {
            kind: Kind::Account,
            id: number,
        }),
    }
}

/// The account of this number is one of the book's, where a number is given.
pub(crate) fn check_given(present: &Present, number: Option<u64>) -> Result<(), Rule>
    ensures { ReportsFirst (unknown_given_account present.now.book.accounts number ∷ []) result }
{
    if let Some(number) = number {
        known(present, number)?;
    }
    Ok(())
}

/// The account isn't the root, which stays as it is.
pub(crate) fn check_not_root(account: &Account) -> Result<(), Rule>
    ensures { ReportsFirst (root_stays account.now ∷ []) result }
{
    if account.kind == AccountKind::Root {
        return Err(Rule::Root);
    }
    Ok(())
}

/// The commodity of this number is one of the book's, where a number is given.
pub(crate) fn check_given_commodity(
    commodities: &Commodities,
    number: Option<u64>,
) -> Result<(), Rule>
    ensures { ReportsFirst (unknown_given_commodity commodities.now.entries number ∷ []) result }
{
    match number {
        Some(number) => check_known_commodity(commodities, number),
        None => Ok(()),
    }
}

/// The basis of the account fits its kind: a security account has a currency, another account has none.
fn check_basis(commodities: &Commodities, account: &Account) -> Result<(), Rule>
    ensures { ReportsFirst (basis_shape commodities.now.entries account.now ∷ []) result }
{
    if fits_basis(commodities, account.kind.is_security(), account.basis) {
        Ok(())
    } else {
        Err(Rule::BasisShape)
    }
}

/// Whether the basis fits an account that holds securities or another.
fn fits_basis(commodities: &Commodities, is_security: bool, basis: Option<u64>) -> bool
    ensures { result ≡ fits_basis commodities.now.entries is_security basis }
{
    match basis {
        Some(currency) => is_security && is_currency(commodities, currency),
        None => !is_security,
    }
}

/// The book has room for one account more.
fn check_count(accounts: &Tree) -> Result<(), Rule>
    ensures { ReportsFirst (too_many_accounts accounts.now.entries ∷ []) result }
{
    if accounts.len() >= MAX_ACCOUNTS {
        return Err(Rule::Limit {
            which: Counted::Accounts,
            at: MAX_ACCOUNTS as u64,
        });
    }
    Ok(())
}
