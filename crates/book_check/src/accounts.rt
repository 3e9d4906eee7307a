ghost use Rattle.std.specs.Prelude.{◌≡◌, ◌&&◌, IfOk};
ghost use Rattle.book_accounts.specs.AccountRules.{account_rules, fits_basis, fits_parent, is_root, leads_to_root};
ghost use Rattle.book_accounts.specs.AccountRules.{root_of};
ghost use Rattle.book_accounts.specs.Tree.{parent_of};
ghost use Rattle.book_check.specs.AccountTests.{is_under_root, is_whole};
ghost use Rattle.book_check.specs.FirstUnsound.{first_of_table};
ghost use Rattle.book_check.specs.Keys.{account_keys};

use crate::commodities::is_currency;
use crate::seen::Seen;
use crate::walk::{Checked, first_broken};
use book_accounts::{Account, AccountKind, Tree};
use book_commodity::{Commodities, OutOfMemory};
use std::alloc::Global;

/// How many accounts a book has at most.
const MOST: usize = 10_000;

/// A walk over accounts, the root, and the keys of those that were asked.
#[derive(Drop)]
struct AccountWalk<'a> {
    commodities: &'a Commodities,
    accounts: &'a Tree,
    root: Option<u64>,
    keys: Seen<(Option<u64>, &'a str)>,
    ghost top: { root ≡ root_of accounts.now.entries },
}

impl<'a> Checked for AccountWalk<'a> {
    ghost use Rattle.std.specs.Prelude.{take};
    ghost use Rattle.book_check.specs.Keys.{account_keys};
    ghost use Rattle.book_check.specs.Walk.{HasKeys};

    type Thing = Account;

    ghost entries = { λ w. w.accounts.now.entries };

    ghost rules = { λ w. account_rules w.commodities.now.entries w.accounts.now.entries };

    ghost knows = { λ w place. HasKeys account_keys w.keys (take place w.accounts.now.entries) };

    fn count(&self) -> usize {
        self.accounts.len()
    }

    fn number_at(&self, place: usize) -> u64 {
        self.accounts.number_at(place)
    }

    fn keeps(&mut self, place: usize) -> Result<bool, OutOfMemory> {
        let number = self.accounts.number_at(place);
        let account = self.accounts.value_at(place);
        if !keeps_rules(self.commodities, self.accounts, self.root, number, account) {
            return Ok(false);
        }
        let is_taken = self.keys.insert(key_of(account))?;
        Ok(!is_taken)
    }
}

/// The first number at which an account breaks a rule of its kind, or is one too many.
pub(crate) fn first_account(
    alloc: Global,
    commodities: &Commodities,
    accounts: &Tree,
) -> Result<Option<u64>, OutOfMemory>
    ensures { IfOk result (λ found. found ≡ first_of_table
        (account_rules commodities.now.entries accounts.now.entries) 10000 accounts.now.entries) }
{
    let walk = AccountWalk {
        commodities,
        accounts,
        root: root_of(accounts),
        keys: Seen::new(alloc),
    };
    first_broken(walk, MOST)
}

/// The parent and the name of the account.
fn key_of(account: &Account) -> (Option<u64>, &str)
    ensures { account_keys.shown result ≡ account_keys.parts account.now }
{
    (account.parent, account.name.as_str())
}

/// The number of the root.
pub(crate) fn root_of(accounts: &Tree) -> Option<u64>
    ensures { result ≡ root_of accounts.now.entries }
{
    for place in 0..accounts.len() {
        if is_root(accounts.value_at(place).kind) {
            return Some(accounts.number_at(place));
        }
    }
    None
}

/// Whether it is the kind of the root.
fn is_root(kind: AccountKind) -> bool
    ensures { result ≡ is_root kind }
{
    matches!(kind, AccountKind::Root)
}

/// Whether the account keeps the rules that ask for no other account with its name.
fn keeps_rules(
    commodities: &Commodities,
    accounts: &Tree,
    root: Option<u64>,
    number: u64,
    account: &Account,
) -> bool
    requires { root ≡ root_of accounts.now.entries }
    ensures { result ≡ (is_whole commodities.now.entries account.now
        && is_under_root accounts.now.entries number account.now) }
{
    is_whole(commodities, account) && is_under_root(accounts, root, number, account)
}

/// Whether what the account has fits: its commodity, its basis, and a parent unless it is a root, which takes no
/// splits.
fn is_whole(commodities: &Commodities, account: &Account) -> bool
    ensures { result ≡ is_whole commodities.now.entries account.now }
{
    commodities.find(account.commodity).is_some()
        && fits_basis(commodities, account.kind.is_security(), account.basis)
        && account.parent.is_none() == is_root(account.kind)
        && (!is_root(account.kind) || account.placeholder)
}

/// Whether a security has a currency as its basis, and another account none.
fn fits_basis(commodities: &Commodities, is_security: bool, basis: Option<u64>) -> bool
    ensures { result ≡ fits_basis commodities.now.entries is_security basis }
{
    match basis {
        Some(basis) => is_security && is_currency(commodities, basis),
        None => !is_security,
    }
}

/// Whether the account is the one root, or stands under it and its parent is of a fitting kind.
fn is_under_root(accounts: &Tree, root: Option<u64>, number: u64, account: &Account) -> bool
    requires { root ≡ root_of accounts.now.entries }
    ensures { result ≡ is_under_root accounts.now.entries number account.now }
{
    (!is_root(account.kind) || root == Some(number))
        && fits_parent(accounts, account.kind, account.parent)
        && leads_to_root(accounts, root, number)
}

/// Whether the parent, if there is to be one, is there and of a fitting kind.
fn fits_parent(accounts: &Tree, kind: AccountKind, parent: Option<u64>) -> bool
    ensures { result ≡ fits_parent accounts.now.entries kind parent }
{
    let Some(parent) = parent else {
        return true;
    };
    match accounts.find(parent) {
        Some(above) => kind.fits_under(above.kind),
        None => false,
    }
}

/// Whether the parents of the account lead up to the root.
fn leads_to_root(accounts: &Tree, root: Option<u64>, number: u64) -> bool
    requires { root ≡ root_of accounts.now.entries }
    ensures { result ≡ leads_to_root accounts.now.entries number }
{
    let mut current = number;
    for _step in 0..accounts.len() {
        if root == Some(current) {
            return true;
        }
        let Some(parent) = parent_of(accounts, current) else {
            return false;
        };
        current = parent;
    }
    root == Some(current)
}

/// The parent of the account with the number; `None` where it has none, or isn't there.
fn parent_of(accounts: &Tree, number: u64) -> Option<u64>
    ensures { result ≡ parent_of accounts.now.entries number }
{
    match accounts.find(number) {
        Some(account) => account.parent,
        None => None,
    }
}
